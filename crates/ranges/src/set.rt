//! A set of numbers as sorted, disjoint ranges.

ghost use Rattle.std.specs.Prelude.{◌≡◌, ◌≢◌, ◌<◌, ◌↔◌, ℤ, true, [], length, map, OnOk, IfOk, MatchBool};
ghost use Rattle.asn_base.specs.Seen.{range_of};
ghost use Rattle.asn_base.specs.Typed.{IsInRange, IsInSome};
ghost use Rattle.asn_base.specs.Schemas.{IsLeast, IsGreatest};
ghost use Rattle.ranges.specs.Numbers.{AreApart};
ghost use Rattle.ranges.specs.proving.Searching.{is_below};

use crate::join::join;
use crate::meet::meet;
use asn_base::constraint::Range;
use std::alloc::{AllocError, Global};
use std::marker::Model;
use std::rc::Rc;

/// Whether the range ends below the number.
pub(crate) fn ends_below(range: &Range, number: i128) -> bool
    ensures { result ≡ is_below number (range_of range.now).greatest }
{
    match range.greatest {
        Some(greatest) => greatest < number,
        None => false,
    }
}

/// Whether the number is in the range.
pub(crate) fn holds(range: &Range, number: i128) -> bool
    ensures { result ≡ true ↔ IsInRange number (range_of range.now) }
{
    let from = match range.least {
        Some(least) => least <= number,
        None => true,
    };
    from && !ends_below(range, number)
}

/// Whether the number is in one of the ranges.
fn search(ranges: &[Range], number: i128) -> bool
    requires { AreApart (map range_of ranges.now) }
    ensures { result ≡ true ↔ IsInSome number (map range_of ranges.now) }
{
    let at = ranges.partition_point(|range| ends_below(range, number));
    if at < ranges.len() {
        return holds(&ranges[at], number);
    }
    false
}

/// A set of numbers: ranges in ascending order, each of which contains a number and ends before the next one begins.
/// Copies of a set share the memory of the ranges.
#[derive(Drop)]
pub struct Ranges {
    items: Rc<Vec<Range>>,
}

impl Model for Ranges {
    ghost use Rattle.std.specs.Prelude.{List, map};
    ghost use Rattle.asn_base.specs.Types.{Range};

    ghost Value = { List Range };

    ghost use Rattle.asn_base.specs.Seen.{range_of};

    ghost view = { λ r. map range_of r.items.value.items };

    ghost use Rattle.ranges.specs.Numbers.{AreApart};

    ghost invariant = { λ r. AreApart (map range_of r.items.value.items) };
}

impl Ranges {
    /// The numbers that are in one of the ranges, which may be in any order and may overlap. A range whose least number
    /// is above its greatest adds none. For n ranges the time grows as n log n. The error is that there is not enough
    /// memory.
    pub fn union_of(alloc: Global, ranges: Vec<Range>) -> Result<Self, AllocError>
        ensures members { IfOk result (λ all. (z : ℤ) → IsInSome z all ↔ IsInSome z (map range_of ranges.items)) }
    {
        let items = join(alloc, ranges)?;
        Ok(Ranges {
            items: Rc::new(alloc, items)?,
        })
    }

    /// The ranges of the numbers that are in one of these, which may be in any order and may overlap: as few as there
    /// can be, in ascending order. For n ranges the time grows as n log n. The error is that there is not enough
    /// memory.
    pub fn joined(alloc: Global, ranges: Vec<Range>) -> Result<Vec<Range>, AllocError>
        ensures members { IfOk result (λ all. (z : ℤ) →
            IsInSome z (map range_of all.items) ↔ IsInSome z (map range_of ranges.items)) }
        ensures apart { IfOk result (λ all. AreApart (map range_of all.items)) }
    {
        Ok(join(alloc, ranges)?)
    }

    /// The numbers that are in both sets. For k ranges in one set and n in the other, k at most n, the time grows as
    /// k log n and with the ranges of the result. The error is that there is not enough memory.
    pub fn meet(&self, alloc: Global, other: &Ranges) -> Result<Self, AllocError>
        ensures members { IfOk result (λ both. (z : ℤ) → IsInSome z both
            ↔ (IsInSome z self.now × IsInSome z other.now)) }
    {
        let items = meet(alloc, self.ranges(), other.ranges())?;
        Ok(Ranges {
            items: Rc::new(alloc, items)?,
        })
    }

    /// A copy of the set, which shares its memory, in a time that is the same for all sets. The error is that there are
    /// too many copies.
    pub fn copy(&self) -> Result<Self, AllocError>
        ensures { IfOk result (λ copy. copy ≡ self.now) }
    {
        Ok(Ranges {
            items: self.items.clone()?,
        })
    }

    /// Whether no number is in the set.
    pub fn is_empty(&self) -> bool
        ensures ranges { MatchBool result (self.now ≡ []) (0 < length self.now) }
        ensures members { result ≡ true ↔ ((z : ℤ) → IsInSome z self.now → ⊥) }
    {
        self.ranges().is_empty()
    }

    /// The least number of a set that is not empty, or None if there is no bound.
    pub fn least(&self) -> Option<i128>
        requires { 0 < length self.now }
        ensures { IsLeast (λ z. IsInSome z self.now) result }
    {
        let ranges = self.ranges();
        ranges[0].least
    }

    /// The greatest number of a set that is not empty, or None if there is no bound.
    pub fn greatest(&self) -> Option<i128>
        requires { 0 < length self.now }
        ensures { IsGreatest (λ z. IsInSome z self.now) result }
    {
        let ranges = self.ranges();
        ranges[ranges.len() - 1].greatest
    }

    /// Whether the number is in the set. For n ranges the time grows as log n.
    pub fn has(&self, number: i128) -> bool
        ensures { result ≡ true ↔ IsInSome number self.now }
    {
        search(self.ranges(), number)
    }

    /// The ranges of the set, borrowed.
    pub fn ranges(&self) -> &[Range]
        ensures is { map range_of result.now ≡ self.now }
        ensures apart { AreApart self.now }
    {
        self.items.as_slice()
    }

    /// A list of the ranges of the set. The error is that there is not enough memory.
    pub fn list(&self, alloc: Global) -> Result<Vec<Range>, AllocError>
        ensures is { IfOk result (λ all. map range_of all.items ≡ self.now) }
    {
        self.ranges().iter().copied().collect(alloc)
    }
}
