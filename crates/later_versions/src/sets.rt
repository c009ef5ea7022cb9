//! Compares sets of numbers.

ghost use Rattle.std.specs.Prelude.{◌≡◌, ◌↔◌, ◌^◌, ℤ, pos, None, Some, IsTrue, map};
ghost use Rattle.asn_base.specs.Seen.{range_of};
ghost use Rattle.asn_base.specs.Typed.{IsInRange, IsInSome};
ghost use Rattle.later_versions.specs.proving.Edges.{HasNoBeginning, IsAfter, IsEdge, IsEdgeOfSome};

use asn_base::constraint::Range;
use asn_base::law::lemma_integer_within_limit;
use ranges::Ranges;

/// Whether the range has no upper end.
fn goes_up(range: &Range) -> bool
    ensures { IsTrue result ↔ IsInRange (pos (2 ^ 127)) (range_of range.now) }
{
    match range.least {
        Some(least) => lemma_integer_within_limit(least),
        None => {}
    }
    match range.greatest {
        Some(greatest) => {
            lemma_integer_within_limit(greatest);
            false
        }
        None => true,
    }
}

/// Whether the end is None.
fn is_none(end: Option<i128>) -> bool
    ensures { IsTrue result ↔ (end ≡ None) }
{
    match end {
        Some(_) => false,
        None => true,
    }
}

/// Whether a range has 2^127, the first number above all numbers of 128 bits.
fn reach_up(ranges: &[Range]) -> bool
    ensures { IsTrue result ↔ IsInSome (pos (2 ^ 127)) (map range_of ranges.now) }
{
    for i in 0..ranges.len() {
        if goes_up(&ranges[i]) {
            return true;
        }
    }
    false
}

/// Whether a range has no lower end.
fn reach_down(ranges: &[Range]) -> bool
    ensures { IsTrue result ↔ HasNoBeginning (map range_of ranges.now) }
{
    for i in 0..ranges.len() {
        if is_none(ranges[i].least) {
            return true;
        }
    }
    false
}

/// Whether the number is in both sets or in none.
fn agree_at(number: i128, one: &Ranges, other: &Ranges) -> bool
    ensures { IsTrue result ↔ (IsInSome number one.now ↔ IsInSome number other.now) }
{
    one.has(number) == other.has(number)
}

/// Whether the number after this one is in both sets or in none.
fn agree_after(number: i128, one: &Ranges, other: &Ranges) -> bool
    ensures { IsTrue result ↔ ((z : ℤ) → IsAfter number z → (IsInSome z one.now ↔ IsInSome z other.now)) }
{
    if number == i128::MAX {
        return reach_up(one.ranges()) == reach_up(other.ranges());
    }
    agree_at(number + 1, one, other)
}

/// Whether the lower end, if there is one, is in both sets or in none.
fn agree_at_least(least: Option<i128>, one: &Ranges, other: &Ranges) -> bool
    ensures { IsTrue result ↔ ((z : ℤ) → least ≡ Some z → (IsInSome z one.now ↔ IsInSome z other.now)) }
{
    match least {
        Some(number) => agree_at(number, one, other),
        None => true,
    }
}

/// Whether the number after the upper end, if there is one, is in both sets or in none.
fn agree_at_end(greatest: Option<i128>, one: &Ranges, other: &Ranges) -> bool
    ensures { IsTrue result ↔ ((g : ℤ) → greatest ≡ Some g → (z : ℤ) →
        IsAfter g z → (IsInSome z one.now ↔ IsInSome z other.now)) }
{
    match greatest {
        Some(number) => agree_after(number, one, other),
        None => true,
    }
}

/// Whether both sets agree at the edges of the range.
fn agree_at_edges(range: &Range, one: &Ranges, other: &Ranges) -> bool
    ensures { IsTrue result
        ↔ ((z : ℤ) → IsEdge (range_of range.now) z → (IsInSome z one.now ↔ IsInSome z other.now)) }
{
    if !agree_at_least(range.least, one, other) {
        return false;
    }
    agree_at_end(range.greatest, one, other)
}

/// Whether both sets agree at the edges of each range.
fn agree_at_all(ranges: &[Range], one: &Ranges, other: &Ranges) -> bool
    ensures { IsTrue result
        ↔ ((z : ℤ) → IsEdgeOfSome (map range_of ranges.now) z → (IsInSome z one.now ↔ IsInSome z other.now)) }
{
    for i in 0..ranges.len() {
        if !agree_at_edges(&ranges[i], one, other) {
            return false;
        }
    }
    true
}

/// Whether two sets have the same numbers: they agree below all edges of their ranges, and at each edge. For n ranges
/// the time grows as n log n, and the function takes no memory.
pub(crate) fn have_same(one: &Ranges, other: &Ranges) -> bool
    ensures { IsTrue result ↔ ((z : ℤ) → IsInSome z one.now ↔ IsInSome z other.now) }
{
    let listed = one.ranges();
    let others = other.ranges();
    let down = reach_down(listed);
    let other_down = reach_down(others);
    if down != other_down {
        return false;
    }
    if !agree_at_all(listed, one, other) {
        return false;
    }
    agree_at_all(others, one, other)
}
