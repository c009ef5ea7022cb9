//! Ranges in trees that share their parts. Each tree is balanced: the heights of the two parts of a node differ by at
//! most one. So for n ranges a tree is at most 1.45 log2(n + 2) nodes high, and dropping it takes no more calls within
//! one another. No other crate can make a node. Each tree is made by functions of this module, which keep the balance.

ghost use Rattle.std.specs.Prelude.{◌≡◌, ◌↔◌, ◌++◌, ◌∷◌, [], IfOk, IsTrue, List, drop, map};
ghost use Rattle.asn_base.specs.Seen.{range_of};
ghost use Rattle.asn_base.specs.Trees.{AreApart, in_order, ranges_in};
ghost use Rattle.asn_base.specs.Typed.{IsInSome};
ghost use Rattle.asn_base.specs.Types.{Range as Range'};

use crate::constraint::Range;
use crate::kept_range::KeptRange;
use std::alloc::{AllocError, Global};
use std::rc::Rc;

/// A range, with the ranges before it and those after it, each in a tree of their own.
#[derive(Drop)]
pub struct Node {
    pub before: Option<Rc<Node>>,
    pub range: KeptRange,
    pub after: Option<Rc<Node>>,
    /// How many nodes are on the longest way down.
    height: usize,
}

/// A tree, or None if it has no range.
pub type Link = Option<Rc<Node>>;

/// Returns the same tree, whose memory is shared. `AllocError` comes only if there are too many copies.
pub fn shared(link: &Link) -> Result<Link, AllocError>
    ensures { IfOk result (λ l. ranges_in l ≡ ranges_in link.now) }
{
    match link {
        None => Ok(None),
        Some(node) => Ok(Some(node.clone()?)),
    }
}

/// How many nodes are on the longest way down.
fn height(link: &Link) -> usize {
    match link {
        None => 0,
        Some(node) => node.height,
    }
}

/// The tree of a range, those before it and those after it.
fn made(alloc: Global, before: &Link, range: KeptRange, after: &Link) -> Result<Link, AllocError>
    ensures { IfOk result (λ l. ranges_in l ≡ ranges_in before.now ++ (range ∷ ranges_in after.now)) }
{
    let height = height(before).max(height(after)).saturating_add(1);
    let node = Node {
        before: shared(before)?,
        range,
        after: shared(after)?,
        height,
    };
    Ok(Some(Rc::new(alloc, node)?))
}

/// The tree of a copy of a range, those before it and those after it.
fn fork(alloc: Global, before: &Link, range: &KeptRange, after: &Link) -> Result<Link, AllocError>
    ensures { IfOk result (λ l. ranges_in l ≡ ranges_in before.now ++ (range.now ∷ ranges_in after.now)) }
{
    made(alloc, before, range.copy()?, after)
}

/// The same tree, of less height if the part before the range is much higher than the part after it.
fn turn_before(
    alloc: Global,
    node: &Node,
    range: &KeptRange,
    after: &Link,
) -> Result<Link, AllocError>
    ensures { IfOk result (λ l. ranges_in l ≡ in_order node.now ++ (range.now ∷ ranges_in after.now)) }
{
    if let Some(inner) = &node.after {
        let inner: &Node = inner;
        if height(&node.before) < inner.height {
            let before = fork(alloc, &node.before, &node.range, &inner.before)?;
            let after = fork(alloc, &inner.after, range, after)?;
            return fork(alloc, &before, &inner.range, &after);
        }
    }
    let after = fork(alloc, &node.after, range, after)?;
    fork(alloc, &node.before, &node.range, &after)
}

/// The same tree, of less height if the part after the range is much higher than the part before it.
fn turn_after(
    alloc: Global,
    before: &Link,
    range: &KeptRange,
    node: &Node,
) -> Result<Link, AllocError>
    ensures { IfOk result (λ l. ranges_in l ≡ ranges_in before.now ++ (range.now ∷ in_order node.now)) }
{
    if let Some(inner) = &node.before {
        let inner: &Node = inner;
        if height(&node.after) < inner.height {
            let after = fork(alloc, &inner.after, &node.range, &node.after)?;
            let before = fork(alloc, before, range, &inner.before)?;
            return fork(alloc, &before, &inner.range, &after);
        }
    }
    let before = fork(alloc, before, range, &node.before)?;
    fork(alloc, &before, &node.range, &node.after)
}

/// The tree of a range, those before it and those after it, with parts of about the same height if the heights of the
/// two given parts differ by two at most.
fn balanced(
    alloc: Global,
    before: &Link,
    range: &KeptRange,
    after: &Link,
) -> Result<Link, AllocError>
    ensures { IfOk result (λ l. ranges_in l ≡ ranges_in before.now ++ (range.now ∷ ranges_in after.now)) }
{
    if let Some(node) = before {
        if height(before) > height(after).saturating_add(1) {
            return turn_before(alloc, node, range, after);
        }
    }
    if let Some(node) = after {
        if height(after) > height(before).saturating_add(1) {
            return turn_after(alloc, before, range, node);
        }
    }
    fork(alloc, before, range, after)
}

/// The tree of a range, those before it, which may be much higher, and those after it.
fn hang_after(
    alloc: Global,
    before: &Link,
    range: &KeptRange,
    after: &Link,
) -> Result<Link, AllocError>
    ensures { IfOk result (λ l. ranges_in l ≡ ranges_in before.now ++ (range.now ∷ ranges_in after.now)) }
{
    if let Some(node) = before {
        let node: &Node = node;
        if node.height > height(after).saturating_add(1) {
            let rest = hang_after(alloc, &node.after, range, after)?;
            return balanced(alloc, &node.before, &node.range, &rest);
        }
    }
    fork(alloc, before, range, after)
}

/// The tree of a range, those before it, and those after it, which may be much higher.
fn hang_before(
    alloc: Global,
    before: &Link,
    range: &KeptRange,
    after: &Link,
) -> Result<Link, AllocError>
    ensures { IfOk result (λ l. ranges_in l ≡ ranges_in before.now ++ (range.now ∷ ranges_in after.now)) }
{
    if let Some(node) = after {
        let node: &Node = node;
        if node.height > height(before).saturating_add(1) {
            let rest = hang_before(alloc, before, range, &node.before)?;
            return balanced(alloc, &rest, &node.range, &node.after);
        }
    }
    fork(alloc, before, range, after)
}

/// The tree of a range, those before it and those after it, each of any height.
fn joined(alloc: Global, before: &Link, range: &KeptRange, after: &Link) -> Result<Link, AllocError>
    ensures { IfOk result (λ l. ranges_in l ≡ ranges_in before.now ++ (range.now ∷ ranges_in after.now)) }
{
    if height(before) > height(after) {
        hang_after(alloc, before, range, after)
    } else {
        hang_before(alloc, before, range, after)
    }
}

/// Returns the tree of the ranges `before`, then `range`, then those `after`, in this order. It shares the parts of
/// both trees, which may be of any heights. The time and the memory grow as the difference of the heights. `AllocError`
/// comes only if an allocation fails.
pub fn join(alloc: Global, before: &Link, range: Range, after: &Link) -> Result<Link, AllocError>
    ensures { IfOk result (λ l. ranges_in l ≡ ranges_in before.now ++ (range_of range ∷ ranges_in after.now)) }
{
    let kept = KeptRange::of(alloc, range)?;
    joined(alloc, before, &kept, after)
}

/// The first range of a tree.
fn first_kept(node: &Node) -> &KeptRange
    ensures { (rs : List Range') × (in_order node.now ≡ result.now ∷ rs) }
{
    match &node.before {
        None => &node.range,
        Some(less) => first_kept(less),
    }
}

/// The tree of all ranges but the first one.
fn without_first(alloc: Global, node: &Node) -> Result<Link, AllocError>
    ensures { IfOk result (λ l. ranges_in l ≡ drop 1 (in_order node.now)) }
{
    match &node.before {
        None => shared(&node.after),
        Some(less) => {
            let rest = without_first(alloc, less)?;
            balanced(alloc, &rest, &node.range, &node.after)
        }
    }
}

/// Returns the tree of the ranges `before`, then those `after`, in this order. It shares the parts of both trees. The
/// time and the memory grow as the sum of the heights. `AllocError` comes only if an allocation fails.
pub fn glue(alloc: Global, before: &Link, after: &Link) -> Result<Link, AllocError>
    ensures { IfOk result (λ l. ranges_in l ≡ ranges_in before.now ++ ranges_in after.now) }
{
    match after {
        None => shared(before),
        Some(node) => {
            let node: &Node = node;
            let rest = without_first(alloc, node)?;
            joined(alloc, before, first_kept(node), &rest)
        }
    }
}

/// Returns the tree of these ranges, in their order. `AllocError` comes only if an allocation fails.
pub fn tree_of(alloc: Global, ranges: &[Range]) -> Result<Link, AllocError>
    ensures { IfOk result (λ l. ranges_in l ≡ map range_of ranges.now) }
{
    if ranges.is_empty() {
        return Ok(None);
    }
    let middle = ranges.len() / 2;
    let before = tree_of(alloc, &ranges[..middle])?;
    let after = tree_of(alloc, &ranges[middle + 1..])?;
    let range = KeptRange::of(alloc, ranges[middle])?;
    made(alloc, &before, range, &after)
}

/// Whether the number is in one of the ranges, if each one ends before the next one begins. For n ranges the time grows
/// as log n.
pub(crate) fn holds_in(link: &Link, number: i128) -> bool
    ensures { AreApart (ranges_in link.now) → (IsTrue result ↔ IsInSome number (ranges_in link.now)) }
{
    match link {
        None => false,
        Some(node) => {
            let node: &Node = node;
            if node.range.ends_below(number) {
                holds_in(&node.after, number)
            } else {
                node.range.has(number) || holds_in(&node.before, number)
            }
        }
    }
}

/// Whether the number is in one of the ranges, which may be in any order.
pub(crate) fn is_anywhere_in(link: &Link, number: i128) -> bool
    ensures { IsTrue result ↔ IsInSome number (ranges_in link.now) }
{
    match link {
        None => false,
        Some(node) => {
            let node: &Node = node;
            if node.range.has(number) {
                return true;
            }
            if is_anywhere_in(&node.before, number) {
                return true;
            }
            is_anywhere_in(&node.after, number)
        }
    }
}

/// The first range of a tree. For n ranges the time grows as log n.
pub fn first_in(node: &Node) -> Range
    ensures { (rs : List Range') × (in_order node.now ≡ range_of result ∷ rs) }
{
    first_kept(node).range()
}

/// The last range of a tree. For n ranges the time grows as log n.
pub fn last_in(node: &Node) -> Range
    ensures { (rs : List Range') × (in_order node.now ≡ rs ++ (range_of result ∷ [])) }
{
    match &node.after {
        None => node.range.range(),
        Some(more) => last_in(more),
    }
}

/// Adds the ranges of a tree to others.
pub(crate) fn collect(link: &Link, ranges: &mut Vec<Range>) -> Result<(), AllocError>
    ensures { IfOk result (λ _. map range_of ranges.new.items ≡ map range_of ranges.old.items ++ ranges_in link.now) }
{
    match link {
        None => Ok(()),
        Some(node) => {
            let node: &Node = node;
            collect(&node.before, ranges)?;
            ranges.push(node.range.range())?;
            collect(&node.after, ranges)
        }
    }
}
