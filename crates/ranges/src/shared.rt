//! Sets of numbers that share their parts.

ghost use Rattle.std.specs.Prelude.{◌≡◌, ◌<◌, ◌↔◌, ℤ, true, [], length, IfOk, MatchBool};
ghost use Rattle.asn_base.specs.Typed.{IsInSome};
ghost use Rattle.asn_base.specs.Schemas.{IsLeast, IsGreatest};
ghost use Rattle.ranges.specs.Numbers.{AreApart};

use crate::set::Ranges;
use crate::tree::narrowed;
use asn_base::range_node::{first_in, last_in, tree_of};
use asn_base::range_tree::RangeTree;
use std::alloc::{AllocError, Global};
use std::marker::Model;

/// A set of numbers: ranges in ascending order, each of which contains a number and ends before the next one begins.
/// They are in a tree, of which a set that is made of another one shares the parts that are the same.
#[derive(Drop)]
pub struct SharedRanges {
    tree: RangeTree,
}

impl Model for SharedRanges {
    ghost use Rattle.std.specs.Prelude.{List};
    ghost use Rattle.asn_base.specs.Types.{Range};

    ghost Value = { List Range };

    ghost view = { λ r. r.tree };

    ghost use Rattle.ranges.specs.Numbers.{AreApart};

    ghost invariant = { λ r. AreApart r.tree };
}

impl SharedRanges {
    /// The same set. The error is that there is not enough memory.
    pub fn of(alloc: Global, ranges: &Ranges) -> Result<Self, AllocError>
        ensures { IfOk result (λ all. all ≡ ranges.now) }
    {
        let root = tree_of(alloc, ranges.ranges())?;
        Ok(SharedRanges {
            tree: RangeTree::of_apart(root),
        })
    }

    /// The numbers that are in both sets. For k ranges in the other set and n in this one, the time and the memory grow
    /// as k log n; if this one has one range alone, as k. The error is that there is not enough memory.
    pub fn meet(&self, alloc: Global, other: &Ranges) -> Result<Self, AllocError>
        ensures members { IfOk result (λ both. (z : ℤ) → IsInSome z both
            ↔ (IsInSome z self.now × IsInSome z other.now)) }
    {
        let root = narrowed(alloc, self.tree.root(), other.ranges())?;
        Ok(SharedRanges {
            tree: RangeTree::of_apart(root),
        })
    }

    /// A copy of the set, which shares its memory, in a time that is the same for all sets. The error is that there are
    /// too many copies.
    pub fn copy(&self) -> Result<Self, AllocError>
        ensures { IfOk result (λ copy. copy ≡ self.now) }
    {
        Ok(SharedRanges {
            tree: self.tree.copy()?,
        })
    }

    /// Whether no number is in the set.
    pub fn is_empty(&self) -> bool
        ensures ranges { MatchBool result (self.now ≡ []) (0 < length self.now) }
        ensures members { result ≡ true ↔ ((z : ℤ) → IsInSome z self.now → ⊥) }
    {
        self.tree.root().is_none()
    }

    /// The least number of a set that is not empty, or None if there is no bound.
    pub fn least(&self) -> Option<i128>
        requires { 0 < length self.now }
        ensures { IsLeast (λ z. IsInSome z self.now) result }
    {
        match self.tree.root() {
            None => None,
            Some(node) => first_in(node).least,
        }
    }

    /// The greatest number of a set that is not empty, or None if there is no bound.
    pub fn greatest(&self) -> Option<i128>
        requires { 0 < length self.now }
        ensures { IsGreatest (λ z. IsInSome z self.now) result }
    {
        match self.tree.root() {
            None => None,
            Some(node) => last_in(node).greatest,
        }
    }

    /// Whether the number is in the set. For n ranges the time grows as log n.
    pub fn has(&self, number: i128) -> bool
        ensures { result ≡ true ↔ IsInSome number self.now }
    {
        self.tree.has(number)
    }

    /// The ranges of the set, borrowed. A copy of them shares their memory.
    pub fn tree(&self) -> &RangeTree
        ensures { result.now ≡ self.now }
    {
        &self.tree
    }

    /// The ranges of the set are in order.
    pub fn in_order(&self)
        ensures { AreApart self.now }
    {
        let _ = &self.tree;
    }
}
