//! Lists of ranges, which share their parts.

ghost use Rattle.asn_base.specs.Seen.{range_of};
ghost use Rattle.asn_base.specs.Trees.{AreApart, EndsBefore, HoldsSome, ranges_in};
ghost use Rattle.asn_base.specs.Typed.{IsInSome};
ghost use Rattle.std.specs.Prelude.{◌≡◌, ◌<◌, ◌+◌, ◌↔◌, IfOk, IsTrue, drop, length, map};

use crate::constraint::Range;
use crate::range_node::{Link, collect, holds_in, is_anywhere_in, shared, tree_of};
use std::alloc::{AllocError, Global};
use std::marker::Model;

/// Whether the range contains a number.
pub(crate) fn holds_some(range: Range) -> bool
    ensures { IsTrue result ↔ HoldsSome (range_of range) }
{
    match (range.least, range.greatest) {
        (Some(least), Some(greatest)) => least <= greatest,
        _ => true,
    }
}

/// Whether the first range ends before the second one begins.
fn ends_before(first: Range, second: Range) -> bool
    ensures { IsTrue result ↔ EndsBefore (range_of first) (range_of second) }
{
    match (first.greatest, second.least) {
        (Some(greatest), Some(least)) => greatest < least,
        _ => false,
    }
}

/// Whether the range at a place contains a number, and ends before the next one begins if there is one.
fn is_apart(ranges: &[Range], at: usize) -> bool
    requires { at < length ranges.now }
    ensures { IsTrue result → AreApart (drop (at + 1) (map range_of ranges.now)) →
        AreApart (drop at (map range_of ranges.now)) }
{
    let next = at + 1;
    holds_some(ranges[at]) && (next == ranges.len() || ends_before(ranges[at], ranges[next]))
}

/// Whether each range contains a number and ends before the next one begins.
fn are_apart(ranges: &[Range]) -> bool
    ensures { IsTrue result → AreApart (map range_of ranges.now) }
{
    for i in 0..ranges.len() {
        if !is_apart(ranges, i) {
            return false;
        }
    }
    true
}

/// A list of ranges, in any order. Copies of it share its memory. In a list of n ranges, a number is looked for in a
/// time that grows as log n if each range ends before the next one begins, else as n.
pub struct RangeTree {
    root: Link,
    /// If this is true, each range holds a number and ends before the next one begins.
    are_apart: bool,
}

impl Model for RangeTree {
    ghost use Rattle.std.specs.Prelude.{List};
    ghost use Rattle.asn_base.specs.Types.{Range};

    ghost Value = { List Range };

    ghost use Rattle.std.specs.Prelude.{◌≡◌, true};
    ghost use Rattle.asn_base.specs.Trees.{AreApart, ranges_in};

    ghost view = { λ t. ranges_in t.root };

    ghost invariant = { λ t. t.are_apart ≡ true → AreApart (ranges_in t.root) };
}

impl Drop for RangeTree {
    fn drop(self) {
        let RangeTree {
            root: _,
            are_apart: _,
        } = self;
    }
}

impl RangeTree {
    /// Returns the list of these ranges, which may be any ones. For n ranges the time and the memory grow as n.
    /// `AllocError` comes only if an allocation fails.
    pub fn of(alloc: Global, ranges: &[Range]) -> Result<Self, AllocError>
        ensures { IfOk result (λ t. t ≡ map range_of ranges.now) }
    {
        Ok(RangeTree {
            root: tree_of(alloc, ranges)?,
            are_apart: are_apart(ranges),
        })
    }

    /// Returns the list of the ranges of a tree in which each one holds a number and ends before the next one begins.
    pub fn of_apart(root: Link) -> Self
        requires { AreApart (ranges_in root) }
        ensures { result ≡ ranges_in root }
    {
        RangeTree {
            root,
            are_apart: true,
        }
    }

    /// The tree of the ranges, borrowed.
    pub fn root(&self) -> &Link
        ensures { ranges_in result.now ≡ self.now }
    {
        &self.root
    }

    /// Returns a copy of the list, which shares its memory, in a time that is the same for all lists. `AllocError`
    /// comes only if there are too many copies.
    pub fn copy(&self) -> Result<Self, AllocError>
        ensures { IfOk result (λ copy. copy ≡ self.now) }
    {
        Ok(RangeTree {
            root: shared(&self.root)?,
            are_apart: self.are_apart,
        })
    }

    /// Whether the range at the root of the tree has the number. False decides nothing.
    #[inline(always)]
    pub(crate) fn has_at_root(&self, number: i128) -> bool
        ensures { IsTrue result → IsInSome number self.now }
    {
        match &self.root {
            Some(node) => node.range.has(number),
            None => false,
        }
    }

    /// Whether one of the ranges has the number. If each of n ranges ends before the next one begins, the time grows as
    /// log n, else as n.
    pub fn has(&self, number: i128) -> bool
        ensures { IsTrue result ↔ IsInSome number self.now }
    {
        if self.are_apart {
            holds_in(&self.root, number)
        } else {
            is_anywhere_in(&self.root, number)
        }
    }

    /// Returns the ranges in a list of their own. `AllocError` comes only if an allocation fails.
    pub fn list(&self, alloc: Global) -> Result<Vec<Range>, AllocError>
        ensures { IfOk result (λ all. map range_of all.items ≡ self.now) }
    {
        let mut all = Vec::new(alloc);
        collect(&self.root, &mut all)?;
        Ok(all)
    }
}
