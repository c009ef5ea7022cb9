//! Whether two constraints have the same ranges, in the same tree: then nothing else of them is compared.

ghost use Rattle.std.specs.Prelude.{◌≡◌, IsTrue};
ghost use Rattle.asn_base.specs.Seen.{constraint_of, range_of};
ghost use Rattle.asn_base.specs.Trees.{ranges_in};

use crate::constraints::are_same_ends;
use asn_base::constraint::{Constraint, Range};
use asn_base::range_node::Link;

/// Whether both ranges have the same ends.
fn is_same_range(one: Range, other: Range) -> bool
    ensures { IsTrue result → range_of one ≡ range_of other }
{
    are_same_ends(one.least, other.least) && are_same_ends(one.greatest, other.greatest)
}

/// Whether both trees have the same form and the same ranges. False decides nothing: trees of different forms may have
/// the same ranges.
fn are_same_trees(one: &Link, other: &Link) -> bool
    ensures { IsTrue result → ranges_in one.now ≡ ranges_in other.now }
{
    match (one, other) {
        (Some(node), Some(second)) => {
            if !is_same_range(node.range.range(), second.range.range()) {
                return false;
            }
            if !are_same_trees(&node.before, &second.before) {
                return false;
            }
            are_same_trees(&node.after, &second.after)
        }
        (None, None) => true,
        _ => false,
    }
}

/// Whether both constraints allow all numbers, or have the same ranges in trees of the same form. False decides
/// nothing.
pub(crate) fn have_same_ranges(one: &Constraint, other: &Constraint) -> bool
    ensures { IsTrue result → (constraint_of one.now).allowed ≡ (constraint_of other.now).allowed }
{
    match (&one.allowed, &other.allowed) {
        (Some(ranges), Some(others)) => are_same_trees(ranges.root(), others.root()),
        (None, None) => true,
        _ => false,
    }
}
