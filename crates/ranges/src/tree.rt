//! Sets of numbers whose ranges are in trees: intersections, which share parts of a tree.

ghost use Rattle.std.specs.Prelude.{◌≡◌, ◌↔◌, ℤ, ◌∷◌, [], true, None, IfOk, IfSome, map};
ghost use Rattle.asn_base.specs.Seen.{range_of};
ghost use Rattle.asn_base.specs.Trees.{ranges_in};
ghost use Rattle.asn_base.specs.Typed.{IsInSome};
ghost use Rattle.ranges.specs.Numbers.{AreApart};
ghost use Rattle.ranges.specs.proving.Trees.{within, within_each, onwards as onwards', up_to as up_to'};

use crate::join::{ends_before, holds_some};
use crate::meet::common;
use asn_base::constraint::Range;
use asn_base::range_node::{Link, glue, join, shared, tree_of};
use std::alloc::{AllocError, Global};

/// Whether the range has neither a beginning nor an end.
fn is_endless(range: Range) -> bool
    ensures least { result ≡ true → range.least ≡ None }
    ensures greatest { result ≡ true → range.greatest ≡ None }
{
    range.least.is_none() && range.greatest.is_none()
}

/// The range from the same beginning on, without an end.
fn onwards(range: Range) -> Range
    ensures { range_of result ≡ onwards' (range_of range) }
{
    Range {
        least: range.least,
        greatest: None,
    }
}

/// The range up to the same end, without a beginning.
fn up_to(range: Range) -> Range
    ensures { range_of result ≡ up_to' (range_of range) }
{
    Range {
        least: None,
        greatest: range.greatest,
    }
}

/// What is left of the ranges of a tree within another range. For n ranges the time and the memory grow as log n.
fn clip(alloc: Global, link: &Link, range: Range) -> Result<Link, AllocError>
    requires { AreApart (ranges_in link.now) }
    ensures { IfOk result (λ l. ranges_in l ≡ within (range_of range) (ranges_in link.now)) }
{
    if is_endless(range) {
        return Ok(shared(link)?);
    }
    match link {
        None => Ok(None),
        Some(node) => {
            let own = node.range.range();
            if ends_before(own, range) {
                return Ok(clip(alloc, &node.after, range)?);
            }
            if ends_before(range, own) {
                return Ok(clip(alloc, &node.before, range)?);
            }
            let before = clip(alloc, &node.before, onwards(range))?;
            let after = clip(alloc, &node.after, up_to(range))?;
            let part = common(own, range);
            if holds_some(part) {
                Ok(join(alloc, &before, part, &after)?)
            } else {
                Ok(glue(alloc, &before, &after)?)
            }
        }
    }
}

/// What is left of the ranges of a tree within each one of others. For k others and n ranges the time and the memory
/// grow as k log n.
pub(crate) fn clip_each(alloc: Global, link: &Link, others: &[Range]) -> Result<Link, AllocError>
    requires { AreApart (ranges_in link.now) }
    ensures { IfOk result (λ l. ranges_in l ≡ within_each (map range_of others.now) (ranges_in link.now)) }
{
    let mut all = None;
    for i in 0..others.len() {
        let part = clip(alloc, link, others[i])?;
        all = glue(alloc, &all, &part)?;
    }
    Ok(all)
}

/// The range of a tree that has no other one.
fn only_range(link: &Link) -> Option<Range>
    ensures { IfSome result (λ r. ranges_in link.now ≡ range_of r ∷ []) }
{
    match link {
        None => None,
        Some(node) => {
            if node.before.is_none() && node.after.is_none() {
                Some(node.range.range())
            } else {
                None
            }
        }
    }
}

/// The ranges of the numbers that are in both sets. For k others and n ranges of the tree the time and the memory grow
/// as k log n; if the tree has one range alone, as k.
pub(crate) fn narrowed(alloc: Global, link: &Link, others: &[Range]) -> Result<Link, AllocError>
    requires tree { AreApart (ranges_in link.now) }
    requires others { AreApart (map range_of others.now) }
    ensures members { IfOk result (λ l. (z : ℤ) → IsInSome z (ranges_in l)
        ↔ (IsInSome z (ranges_in link.now) × IsInSome z (map range_of others.now))) }
    ensures apart { IfOk result (λ l. AreApart (ranges_in l)) }
{
    match only_range(link) {
        Some(range) => {
            let all = tree_of(alloc, others)?;
            Ok(clip(alloc, &all, range)?)
        }
        None => Ok(clip_each(alloc, link, others)?),
    }
}
