//! Whether the bounds of a constraint are those of its root (X.680, 51 and 52; X.691, 10.3).

ghost use Rattle.asn_base.specs.Schemas.{AreBounds, IsGreatest, IsLeast, IsSize};
ghost use Rattle.asn_base.specs.Seen.{bounds_of, constraint_of, kind_of, range_of};
ghost use Rattle.asn_base.specs.Rules.{HasBounds};
ghost use Rattle.asn_base.specs.Typed.{IsInRange, IsInSome};
ghost use Rattle.asn_base.specs.proving.Bounding.{AreAllFrom, AreAllUpTo, AreEnds, From, IsInRoot};
ghost use Rattle.std.specs.Prelude.{◌≡◌, ◌≤ℤ◌, ◌↔◌, ℤ, IfOk, IsSomeAnd, IsTrue, None, Some, map, is_none};
ghost use Rattle.std.specs.List.{list_any};

use crate::allowed::{is_from, is_in_some};
use crate::constraint::{Constraint, Range};
use crate::range_tree::holds_some;
use crate::schema::Core;
use std::alloc::{AllocError, Global};

/// Whether the range has a least number, which is not below `least`.
fn starts_from(range: Range, least: i128) -> bool
    ensures { IsTrue result ↔ IsSomeAnd range.least (λ l. least ≤ℤ l) }
{
    match range.least {
        Some(first) => least <= first,
        None => false,
    }
}

/// Whether the range has a greatest number, which is not above `greatest`.
fn ends_by(range: Range, greatest: i128) -> bool
    ensures { IsTrue result ↔ IsSomeAnd range.greatest (λ g. g ≤ℤ greatest) }
{
    match range.greatest {
        Some(last) => last <= greatest,
        None => false,
    }
}

/// The part of a range from `floor` on, if there is one.
fn clipped(range: Range, floor: Option<i128>) -> Range
    ensures { (z : ℤ) → (IsInRange z (range_of result) ↔ (From floor z × IsInRange z (range_of range))) }
{
    match floor {
        Some(floor) => {
            if starts_from(range, floor) {
                return range;
            }
            Range {
                least: Some(floor),
                greatest: range.greatest,
            }
        }
        None => range,
    }
}

/// Whether no number of the range is below `least`.
fn is_range_from(range: Range, least: i128) -> bool
    ensures { IsTrue result ↔ ((z : ℤ) → IsInRange z (range_of range) → least ≤ℤ z) }
{
    starts_from(range, least) || !holds_some(range)
}

/// Whether no number of the range is above `greatest`.
fn is_range_up_to(range: Range, greatest: i128) -> bool
    ensures { IsTrue result ↔ ((z : ℤ) → IsInRange z (range_of range) → z ≤ℤ greatest) }
{
    ends_by(range, greatest) || !holds_some(range)
}

/// Whether no number of the ranges from `floor` on is below `least`.
fn are_from(ranges: &[Range], floor: Option<i128>, least: i128) -> bool
    ensures { IsTrue result ↔ AreAllFrom floor (map range_of ranges.now) least }
{
    for i in 0..ranges.len() {
        if !is_range_from(clipped(ranges[i], floor), least) {
            return false;
        }
    }
    true
}

/// Whether no number of the ranges from `floor` on is above `greatest`.
fn are_up_to(ranges: &[Range], floor: Option<i128>, greatest: i128) -> bool
    ensures { IsTrue result ↔ AreAllUpTo floor (map range_of ranges.now) greatest }
{
    for i in 0..ranges.len() {
        if !is_range_up_to(clipped(ranges[i], floor), greatest) {
            return false;
        }
    }
    true
}

/// Whether a range has no lower bound.
fn are_open_below(ranges: &[Range]) -> bool
    ensures { result ≡ list_any (λ r. is_none r.least) ranges.now }
{
    for i in 0..ranges.len() {
        if ranges[i].least.is_none() {
            return true;
        }
    }
    false
}

/// Whether a range has no upper bound.
fn are_open_above(ranges: &[Range]) -> bool
    ensures { result ≡ list_any (λ r. is_none r.greatest) ranges.now }
{
    for i in 0..ranges.len() {
        if ranges[i].greatest.is_none() {
            return true;
        }
    }
    false
}

/// Whether `least` is the least of the numbers of the ranges from `floor` on; None says that they have no lower bound.
fn is_least_of(ranges: &[Range], floor: Option<i128>, least: Option<i128>) -> bool
    ensures { IsTrue result ↔ IsLeast (IsInRoot floor (Some (map range_of ranges.now))) least }
{
    match least {
        Some(least) => {
            is_from(floor, least) && is_in_some(ranges, least) && are_from(ranges, floor, least)
        }
        None => floor.is_none() && are_open_below(ranges),
    }
}

/// Whether `greatest` is the greatest of the numbers of the ranges from `floor` on; None says that they have no upper
/// bound.
fn is_greatest_of(ranges: &[Range], floor: Option<i128>, greatest: Option<i128>) -> bool
    ensures { IsTrue result ↔ IsGreatest (IsInRoot floor (Some (map range_of ranges.now))) greatest }
{
    match greatest {
        Some(greatest) => {
            is_from(floor, greatest)
                && is_in_some(ranges, greatest)
                && are_up_to(ranges, floor, greatest)
        }
        None => are_open_above(ranges),
    }
}

/// Whether these are the bounds of the numbers of the ranges from `floor` on.
fn are_bounds_of(ranges: &[Range], floor: Option<i128>, range: Range) -> bool
    ensures { IsTrue result ↔ (IsLeast (IsInRoot floor (Some (map range_of ranges.now))) range.least
        × IsGreatest (IsInRoot floor (Some (map range_of ranges.now))) range.greatest) }
{
    is_least_of(ranges, floor, range.least) && is_greatest_of(ranges, floor, range.greatest)
}

/// Whether these are the bounds of all numbers from `floor` on.
fn are_of_all(floor: Option<i128>, range: Range) -> bool
    ensures { IsTrue result
        ↔ (IsLeast (IsInRoot floor None) range.least × IsGreatest (IsInRoot floor None) range.greatest) }
{
    let all = [Range {
        least: None,
        greatest: None,
    }];
    are_bounds_of(&all, floor, range)
}

/// Whether some root has these bounds. If one does, the range between them does.
fn are_ends(floor: Option<i128>, range: Range) -> bool
    ensures { IsTrue result ↔ AreEnds floor range.least range.greatest }
{
    let root = [range];
    are_bounds_of(&root, floor, range)
}

/// Whether a constraint on the numbers from `floor` on allows what a root and its marker say, with the root's bounds.
fn are_bounds(
    alloc: Global,
    constraint: &Constraint,
    floor: Option<i128>,
) -> Result<bool, AllocError>
    ensures { IfOk result (λ b. IsTrue b ↔ AreBounds (From floor) (constraint_of constraint.now)) }
{
    let range = Range {
        least: constraint.visible.least,
        greatest: constraint.visible.greatest,
    };
    if constraint.visible.extensible {
        return Ok(constraint.allowed.is_none() && are_ends(floor, range));
    }
    match &constraint.allowed {
        Some(ranges) => {
            let list = ranges.list(alloc)?;
            Ok(are_bounds_of(list.as_slice(), floor, range))
        }
        None => Ok(are_of_all(floor, range)),
    }
}

/// Whether a constraint on sizes has the bounds of its root.
fn are_sizes(alloc: Global, constraint: &Constraint) -> Result<bool, AllocError>
    ensures { IfOk result (λ b. IsTrue b ↔ AreBounds IsSize (constraint_of constraint.now)) }
{
    are_bounds(alloc, constraint, Some(0))
}

/// Whether the bounds of a type's constraint, if it has one, are those of its root.
pub(crate) fn has_bounds(alloc: Global, core: &Core) -> Result<bool, AllocError>
    ensures { IfOk result (λ b. IsTrue b ↔ HasBounds (kind_of core.now)) }
{
    match core {
        Core::Integer(constraint) => are_bounds(alloc, constraint, None),
        Core::BitString(size) => are_sizes(alloc, size),
        Core::OctetString(size) => are_sizes(alloc, size),
        Core::Utf8String(size) => are_sizes(alloc, size),
        Core::RestrictedString(_, _, size) => are_sizes(alloc, size),
        Core::SequenceOf(size, _) => are_sizes(alloc, size),
        Core::SetOf(size, _) => are_sizes(alloc, size),
        _ => Ok(true),
    }
}
