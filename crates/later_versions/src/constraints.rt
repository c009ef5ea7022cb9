//! Compares what constraints allow (X.680, 51; X.691, 10.3).

ghost use Rattle.std.specs.Prelude.{◌≡◌, ◌↔◌, ℤ, IsTrue, IfOk, IfSome, MatchOption, ◌≤ℤ◌};
ghost use Rattle.asn_base.specs.Seen.{bounds_of, constraint_of};
ghost use Rattle.asn_base.specs.Schemas.{IsNumber, IsSize};
ghost use Rattle.asn_base.specs.Typed.{IsAllowed, IsInSome};
ghost use Rattle.later_versions.specs.Differences.{AllowSame, ConstraintDiffers};
ghost use Rattle.later_versions.specs.Later.{LeaveSame};
ghost use Rattle.later_versions.specs.declared.reason.Reason.TheVariants.{Numbers, Sizes};

use crate::reason::Reason;
use crate::same_ranges::have_same_ranges;
use crate::sets::have_same;
use asn_base::constraint::{Bounds, Constraint, Range};
use asn_base::range_tree::RangeTree;
use ranges::Ranges;
use std::alloc::{AllocError, Global};

/// Whether two ends are the same.
pub(crate) fn are_same_ends(one: Option<i128>, other: Option<i128>) -> bool
    ensures { IsTrue result ↔ (one ≡ other) }
{
    match (one, other) {
        (Some(one), Some(other)) => one == other,
        (None, None) => true,
        _ => false,
    }
}

/// Whether both give the packed encoding the same bounds.
fn are_same_bounds(one: &Bounds, other: &Bounds) -> bool
    ensures { IsTrue result ↔ (bounds_of one.now ≡ bounds_of other.now) }
{
    are_same_ends(one.least, other.least)
        && are_same_ends(one.greatest, other.greatest)
        && one.extensible == other.extensible
}

/// The numbers from the least one on, or all numbers if there is no least one.
fn numbers_from(alloc: Global, least: Option<i128>) -> Result<Ranges, AllocError>
    ensures { IfOk result (λ all. (z : ℤ) → IsInSome z all ↔ IfSome least (λ l. l ≤ℤ z)) }
{
    let mut ranges = Vec::new(alloc);
    ranges.push(Range {
        least,
        greatest: None,
    })?;
    Ranges::union_of(alloc, ranges)
}

/// The numbers of some ranges.
fn numbers_in(alloc: Global, some: &RangeTree) -> Result<Ranges, AllocError>
    ensures { IfOk result (λ all. (z : ℤ) → IsInSome z all ↔ IsInSome z some.now) }
{
    let ranges = some.list(alloc)?;
    Ranges::union_of(alloc, ranges)
}

/// The numbers that the constraint allows.
fn allowed_numbers(alloc: Global, constraint: &Constraint) -> Result<Ranges, AllocError>
    ensures { IfOk result (λ all. (z : ℤ) → IsInSome z all ↔ IsAllowed (constraint_of constraint.now) z) }
{
    match &constraint.allowed {
        Some(ranges) => numbers_in(alloc, ranges),
        None => numbers_from(alloc, None),
    }
}

/// The sizes that the constraint allows.
fn allowed_sizes(alloc: Global, constraint: &Constraint) -> Result<Ranges, AllocError>
    ensures { IfOk result (λ all. (z : ℤ) → IsInSome z all ↔ (IsAllowed (constraint_of constraint.now) z × IsSize z)) }
{
    let numbers = allowed_numbers(alloc, constraint)?;
    let sizes = numbers_from(alloc, Some(0))?;
    numbers.meet(alloc, &sizes)
}

/// Whether two constraints of INTEGER allow the same numbers. For n ranges the time grows as n if they are in trees of
/// the same form and all are the same, else as n log n.
fn allow_same_numbers(
    alloc: Global,
    one: &Constraint,
    other: &Constraint,
) -> Result<bool, AllocError>
    ensures { IfOk result (λ b. IsTrue b ↔ AllowSame IsNumber (constraint_of one.now) (constraint_of other.now)) }
{
    if have_same_ranges(one, other) {
        return Ok(true);
    }
    let numbers = allowed_numbers(alloc, one)?;
    let others = allowed_numbers(alloc, other)?;
    Ok(have_same(&numbers, &others))
}

/// Whether two constraints on sizes allow the same sizes.
fn allow_same_sizes(alloc: Global, one: &Constraint, other: &Constraint) -> Result<bool, AllocError>
    ensures { IfOk result (λ b. IsTrue b ↔ AllowSame IsSize (constraint_of one.now) (constraint_of other.now)) }
{
    if have_same_ranges(one, other) {
        return Ok(true);
    }
    let sizes = allowed_sizes(alloc, one)?;
    let others = allowed_sizes(alloc, other)?;
    Ok(have_same(&sizes, &others))
}

/// What differs in two constraints of INTEGER, or None if both allow the same numbers and give the same bounds. For n
/// ranges the time grows as n log n. `AllocError` comes only if an allocation fails.
pub(crate) fn other_numbers(
    alloc: Global,
    one: &Constraint,
    other: &Constraint,
) -> Result<Option<Reason>, AllocError>
    ensures { IfOk result (λ o. MatchOption o
        (LeaveSame IsNumber (constraint_of one.now) (constraint_of other.now))
        (ConstraintDiffers IsNumber Numbers (constraint_of one.now) (constraint_of other.now))) }
{
    if !allow_same_numbers(alloc, one, other)? {
        return Ok(Some(Reason::Numbers));
    }
    if !are_same_bounds(&one.visible, &other.visible) {
        return Ok(Some(Reason::Bounds));
    }
    Ok(None)
}

/// What differs in two constraints on sizes, or None if both allow the same sizes and give the same bounds.
pub(crate) fn other_sizes(
    alloc: Global,
    one: &Constraint,
    other: &Constraint,
) -> Result<Option<Reason>, AllocError>
    ensures { IfOk result (λ o. MatchOption o
        (LeaveSame IsSize (constraint_of one.now) (constraint_of other.now))
        (ConstraintDiffers IsSize Sizes (constraint_of one.now) (constraint_of other.now))) }
{
    if !allow_same_sizes(alloc, one, other)? {
        return Ok(Some(Reason::Sizes));
    }
    if !are_same_bounds(&one.visible, &other.visible) {
        return Ok(Some(Reason::Bounds));
    }
    Ok(None)
}
