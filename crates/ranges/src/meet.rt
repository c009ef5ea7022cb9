//! What two sets of ranges have in common.

ghost use Rattle.std.specs.Prelude.{◌≡◌, ◌⊎◌, ◌↔◌, ◌+◌, ◌<◌, ◌≤◌, ℤ, true, false, length, map, List, ◌++◌, IfOk};
ghost use Rattle.asn_base.specs.Seen.{range_of};
ghost use Rattle.ranges.specs.Numbers.{AreApart};
ghost use Rattle.ranges.specs.proving.Meeting.{common as common', later_beginning as later', earlier_end as earlier', EndsAtMost, IsPutBefore, Meets};
ghost use Rattle.ranges.specs.proving.Skipping.{AreEnded, IsPast};
ghost use Rattle.asn_base.specs.Types.{Range as Range'};

use crate::join::holds_some;
use crate::set::ends_below;
use asn_base::constraint::Range;
use std::alloc::{AllocError, Global};

/// The later one of two beginnings.
fn later_beginning(one: Option<i128>, other: Option<i128>) -> Option<i128>
    ensures { result ≡ later' one other }
{
    match (one, other) {
        (Some(one), Some(other)) => Some(one.max(other)),
        (None, other) => other,
        (one, None) => one,
    }
}

/// The earlier one of two ends.
fn earlier_end(one: Option<i128>, other: Option<i128>) -> Option<i128>
    ensures { result ≡ earlier' one other }
{
    match (one, other) {
        (Some(one), Some(other)) => Some(one.min(other)),
        (None, other) => other,
        (one, None) => one,
    }
}

/// The range of the numbers in both ranges, which may contain no number.
pub(crate) fn common(one: Range, other: Range) -> Range
    ensures { range_of result ≡ common' (range_of one) (range_of other) }
{
    Range {
        least: later_beginning(one.least, other.least),
        greatest: earlier_end(one.greatest, other.greatest),
    }
}

/// Whether the first range ends no later than the other one.
fn ends_at_most(one: Range, other: Range) -> bool
    ensures yes { result ≡ true → EndsAtMost (range_of one).greatest (range_of other).greatest }
    ensures no { result ≡ false → EndsAtMost (range_of other).greatest (range_of one).greatest }
{
    match (one.greatest, other.greatest) {
        (Some(one), Some(other)) => one <= other,
        (_, None) => true,
        (None, Some(_)) => false,
    }
}

/// Adds a range after others, if it contains a number.
fn keep(both: &mut Vec<Range>, part: Range) -> Result<(), AllocError>
    ensures { IfOk result (λ _. (rest : List Range') → IsPutBefore (range_of part) rest
        (map range_of both.old.items) (map range_of both.new.items ++ rest)) }
{
    if holds_some(part) {
        both.push(part)?;
    }
    Ok(())
}

/// How many of the ranges end below a number. For n ranges the time grows as log n.
fn count_below(ranges: &[Range], number: i128) -> usize
    requires { AreApart (map range_of ranges.now) }
    ensures { AreEnded number ranges.now 0 result }
{
    ranges.partition_point(|range| ends_below(range, number))
}

/// The next place, or a later one if the ranges between the two end before another range begins.
fn past(ranges: &[Range], place: usize, other: Range) -> usize
    requires apart { AreApart (map range_of ranges.now) }
    requires inside { place < length ranges.now }
    ensures later { place < result }
    ensures within { result ≤ length ranges.now }
    ensures skipped { IsPast (range_of other) ranges.now (place + 1) result }
{
    let next = place + 1;
    let Some(least) = other.least else {
        return next;
    };
    if next < ranges.len() && ends_below(&ranges[next], least) {
        let count = count_below(ranges, least);
        if next < count && count <= ranges.len() {
            return count;
        }
    }
    next
}

/// The ranges of the numbers in both sets. Ranges of one set that end before one of the other begins are skipped by a
/// search. So for one range and n others the time grows as log n, besides the ranges that are returned.
pub(crate) fn meet(alloc: Global, left: &[Range], right: &[Range]) -> Result<Vec<Range>, AllocError>
    requires left { AreApart (map range_of left.now) }
    requires right { AreApart (map range_of right.now) }
    ensures { IfOk result (λ both.
        Meets (map range_of left.now) (map range_of right.now) (map range_of both.items)) }
{
    let mut both = Vec::new(alloc);
    let mut i = 0;
    let mut j = 0;
    while i < left.len() && j < right.len() {
        let part = common(left[i], right[j]);
        keep(&mut both, part)?;
        if ends_at_most(left[i], right[j]) {
            i = past(left, i, right[j]);
        } else {
            j = past(right, j, left[i]);
        }
    }
    Ok(both)
}
