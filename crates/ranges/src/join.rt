//! One set of many ranges.

ghost use Rattle.std.specs.Prelude.{◌≡◌, ◌↔◌, ℤ, List, true, map, IfOk, OnOk};
ghost use Rattle.std.specs.List.{AllByRecursion};
ghost use Rattle.asn_base.specs.Seen.{range_of};
ghost use Rattle.asn_base.specs.Typed.{IsInSome};
ghost use Rattle.ranges.specs.Numbers.{HoldsSome, EndsBefore, AreApart};
ghost use Rattle.ranges.specs.proving.Joining.{holds_some as holds_some', joined as joined', later as later', AreAscending, Joins};

use asn_base::constraint::Range;
use std::alloc::{AllocError, Global};

/// Whether the range contains a number.
pub(crate) fn holds_some(range: Range) -> bool
    ensures is { result ≡ holds_some' range.least range.greatest }
    ensures means { result ≡ true ↔ HoldsSome (range_of range) }
{
    match (range.least, range.greatest) {
        (Some(least), Some(greatest)) => least <= greatest,
        _ => true,
    }
}

/// Whether the first range ends before the second one begins.
pub(crate) fn ends_before(first: Range, second: Range) -> bool
    ensures { result ≡ true ↔ EndsBefore (range_of first) (range_of second) }
{
    match (first.greatest, second.least) {
        (Some(greatest), Some(least)) => greatest < least,
        _ => false,
    }
}

/// The later one of two ends.
fn later(one: Option<i128>, other: Option<i128>) -> Option<i128>
    ensures { result ≡ later' one other }
{
    match (one, other) {
        (Some(one), Some(other)) => Some(one.max(other)),
        _ => None,
    }
}

/// The range from the beginning of the first one to the later end of both.
fn joined(first: Range, second: Range) -> Range
    ensures { range_of result ≡ joined' (range_of first) (range_of second) }
{
    Range {
        least: first.least,
        greatest: later(first.greatest, second.greatest),
    }
}

/// Joins a range and those after it, which are in order of their least numbers.
fn join_sorted(alloc: Global, first: Range, others: &[Range]) -> Result<Vec<Range>, AllocError>
    ensures { IfOk result (λ all. Joins (range_of first) (map range_of others.now) (map range_of all.items)) }
{
    let mut all = Vec::new(alloc);
    let mut last = first;
    for range in others {
        if ends_before(last, *range) {
            all.push(last)?;
            last = *range;
        } else {
            last = joined(last, *range);
        }
    }
    all.push(last)?;
    Ok(all)
}

/// The ranges that contain a number, in order of their least numbers.
fn sorted(ranges: Vec<Range>) -> Result<Vec<Range>, AllocError>
    ensures members { IfOk result (λ all. (z : ℤ) →
        IsInSome z (map range_of all.items) ↔ IsInSome z (map range_of ranges.items)) }
    ensures some { IfOk result (λ all. AllByRecursion HoldsSome (map range_of all.items)) }
    ensures order { IfOk result (λ all. AreAscending (map range_of all.items)) }
{
    let mut all = ranges;
    all.retain(|range| holds_some(*range));
    all.sort_by_key(|range| range.least)?;
    Ok(all)
}

/// Joins ranges that are in order of their least numbers.
fn join_all(alloc: Global, ranges: &[Range]) -> Result<Vec<Range>, AllocError>
    requires some { AllByRecursion HoldsSome (map range_of ranges.now) }
    requires order { AreAscending (map range_of ranges.now) }
    ensures members { IfOk result (λ all. (z : ℤ) →
        IsInSome z (map range_of all.items) ↔ IsInSome z (map range_of ranges.now)) }
    ensures apart { IfOk result (λ all. AreApart (map range_of all.items)) }
{
    match ranges.split_first() {
        None => Ok(Vec::new(alloc)),
        Some((first, others)) => match join_sorted(alloc, *first, others) {
            Ok(all) => Ok(all),
            Err(fault) => Err(fault),
        },
    }
}

/// The ranges of all numbers that are in one of some ranges.
pub(crate) fn join(alloc: Global, ranges: Vec<Range>) -> Result<Vec<Range>, AllocError>
    ensures members { IfOk result (λ all. (z : ℤ) →
        IsInSome z (map range_of all.items) ↔ IsInSome z (map range_of ranges.items)) }
    ensures apart { IfOk result (λ all. AreApart (map range_of all.items)) }
{
    let sorted = sorted(ranges)?;
    match join_all(alloc, &sorted) {
        Ok(all) => Ok(all),
        Err(fault) => Err(fault),
    }
}
