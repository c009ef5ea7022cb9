//! Nodes are read from the first one on.

ghost use Rattle.std.specs.List.{slice_range};
ghost use Rattle.std.specs.Prelude.{◌≡◌, ◌+◌, ◌≤◌, ◌<◌, ℕ, IfSome, MatchOption, None, Some, drop, length};
ghost use Rattle.views.specs.Seen.{AreSpelled, BeginWith, FirstIs, IsContentWithin, IsHead, IsNext, IsSpelled, Left, Spell, content_of, members_of, side_lists, tree_of};
ghost use Rattle.views.specs.Tree.{ViewMembers, ViewTree, component, count as count'};

use crate::node::{Lists, Node, NodeContent};

/// What the first node of a tree says.
#[inline(always)]
pub(crate) fn first_of<'a>(lists: &Lists, nodes: &[Node<'a>]) -> NodeContent<'a>
    requires { IsSpelled (side_lists lists.now) nodes.now }
    ensures some { 1 ≤ length nodes.now }
    ensures within { IsContentWithin (side_lists lists.now) result }
    ensures matches { (k : ℕ) (t : ViewTree)
        → Spell (side_lists lists.now) nodes.now k t
        → FirstIs (side_lists lists.now) (drop 1 nodes.now) (content_of (side_lists lists.now) result) t }
    ensures head { IsHead (side_lists lists.now)
        nodes.now
        (content_of (side_lists lists.now) result)
        (tree_of (side_lists lists.now) nodes.now) }
{
    nodes[0].content
}

/// The nodes below the first one.
pub(crate) fn below<'v, 'a>(nodes: &'v [Node<'a>]) -> &'v [Node<'a>]
    requires { 1 ≤ length nodes.now }
    ensures { result.now ≡ drop 1 nodes.now }
{
    nodes.split_at(1).1
}

/// The number of the member whose first node is at an index, and how many nodes it has.
fn span_of(lists: &Lists, nodes: &[Node<'_>], at: usize) -> (u32, usize)
    requires left { AreSpelled (side_lists lists.now) nodes.now at }
    requires there { at < length nodes.now }
    ensures some { 1 ≤ result.1 }
    ensures inside { at + result.1 ≤ length nodes.now }
    ensures next { (ms : ViewMembers)
        → Left (side_lists lists.now) nodes.now at ms
        → IsNext (side_lists lists.now) nodes.now at result.0 (at + result.1) ms }
{
    let node = nodes[at];
    (node.number, node.content.extent())
}

/// The number of the member whose first node is at an index, and the index at which its nodes end.
#[inline(always)]
pub(crate) fn next_of(lists: &Lists, nodes: &[Node<'_>], at: usize) -> (u32, usize)
    requires left { AreSpelled (side_lists lists.now) nodes.now at }
    requires there { at < length nodes.now }
    ensures more { at < result.1 }
    ensures inside { result.1 ≤ length nodes.now }
    ensures next { (ms : ViewMembers)
        → Left (side_lists lists.now) nodes.now at ms
        → IsNext (side_lists lists.now) nodes.now at result.0 result.1 ms }
    ensures first { BeginWith (side_lists lists.now) nodes.now at result.0 result.1 }
{
    let (number, extent) = span_of(lists, nodes, at);
    (number, at + extent)
}

/// The nodes from one index up to another one.
#[inline(always)]
pub(crate) fn between<'v, 'a>(nodes: &'v [Node<'a>], from: usize, to: usize) -> &'v [Node<'a>]
    requires ordered { from ≤ to }
    requires within { to ≤ length nodes.now }
    ensures { result.now ≡ slice_range nodes.now from to }
{
    &nodes[from..to]
}

/// The nodes of the first member with a number, of those from an index on; None if none of them has it.
pub(crate) fn find_from<'v, 'a>(
    lists: &Lists,
    nodes: &'v [Node<'a>],
    from: usize,
    wanted: u32,
) -> Option<&'v [Node<'a>]>
    requires { AreSpelled (side_lists lists.now) nodes.now from }
    ensures spelled { IfSome result (λ ns. IsSpelled (side_lists lists.now) ns.now) }
    ensures found { MatchOption result
        (component (members_of (side_lists lists.now) nodes.now from) wanted ≡ None)
        (λ ns. component (members_of (side_lists lists.now) nodes.now from) wanted
        ≡ Some (tree_of (side_lists lists.now) ns.now)) }
{
    let mut at = from;
    while at < nodes.len() {
        let (number, end) = next_of(lists, nodes, at);
        if number == wanted {
            return Some(between(nodes, at, end));
        }
        at = end;
    }
    None
}

/// How many members the nodes from an index on are.
pub(crate) fn count_from(lists: &Lists, nodes: &[Node<'_>], from: usize) -> usize
    requires { AreSpelled (side_lists lists.now) nodes.now from }
    ensures { result ≡ count' (members_of (side_lists lists.now) nodes.now from) }
{
    let mut count = 0;
    let mut at = from;
    while at < nodes.len() {
        let (_, end) = next_of(lists, nodes, at);
        count += 1;
        at = end;
    }
    count
}
