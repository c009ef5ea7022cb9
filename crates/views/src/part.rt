//! References to values within a view, and how to walk through them.

ghost use Rattle.asn_base.specs.Abstract.{abstract};
ghost use Rattle.std.specs.Iterator.{at_most};
ghost use Rattle.std.specs.Prelude.{◌≡◌, IfOk, IfSome, MatchOption, None, Some};
ghost use Rattle.views.specs.Seen.{AreSpelled, IsSpelled, members_of, side_lists, tree_of};
ghost use Rattle.views.specs.Tree.{alternative_in, bit_string_in, boolean_in, component as component', count as count', enumerated_in, fields, integer_in, left_after, member, members_in, no_member, null_in, octets_in, oid_in, relative_oid_in, text_in, value_of};

use crate::node::{Lists, Node, NodeContent};
use crate::node_slices::{below, between, count_from, find_from, first_of, next_of};
use crate::view::value;
use asn_base::value::Value;
use std::alloc::{AllocError, Global};
use std::marker::Model;

/// A reference to a value within a view: the whole value, or one that it holds.
#[derive(Drop)]
pub struct ValueRef<'v, 'a> {
    pub(crate) nodes: &'v [Node<'a>],
    pub(crate) lists: &'v Lists,
}

impl<'v, 'a> Model for ValueRef<'v, 'a> {
    ghost use Rattle.views.specs.Spelled.{tree_code};
    ghost use Rattle.views.specs.Tree.{ViewTree};

    ghost Value = { ViewTree };

    ghost coded = { tree_code };

    ghost use Rattle.views.specs.Seen.{IsSpelled, side_lists, tree_of};

    ghost view = { λ p. tree_of (side_lists p.lists.now) p.nodes.now };

    ghost invariant = { λ p. IsSpelled (side_lists p.lists.now) p.nodes.now };
}

/// The members that are left of a value, each with its number: a component has its place in order of definition, an
/// element has 0. They come in the order of the message.
#[derive(Drop)]
pub struct MemberRefs<'v, 'a> {
    pub(crate) nodes: &'v [Node<'a>],
    pub(crate) lists: &'v Lists,
    pub(crate) at: usize,
}

impl<'v, 'a> Model for MemberRefs<'v, 'a> {
    ghost use Rattle.views.specs.Spelled.{members_code};
    ghost use Rattle.views.specs.Tree.{ViewMembers};

    ghost Value = { ViewMembers };

    ghost coded = { members_code };

    ghost use Rattle.views.specs.Seen.{AreSpelled, members_of, side_lists};

    ghost view = { λ p. members_of (side_lists p.lists.now) p.nodes.now p.at };

    ghost invariant = { λ p. AreSpelled (side_lists p.lists.now) p.nodes.now p.at };
}

/// A reference to the value that these nodes spell.
#[inline(always)]
pub(crate) fn value_ref<'v, 'a>(lists: &'v Lists, nodes: &'v [Node<'a>]) -> ValueRef<'v, 'a>
    requires { IsSpelled (side_lists lists.now) nodes.now }
    ensures { result ≡ tree_of (side_lists lists.now) nodes.now }
{
    ValueRef { nodes, lists }
}

/// References to the members that the nodes from an index on spell.
#[inline(always)]
pub(crate) fn member_refs<'v, 'a>(
    lists: &'v Lists,
    nodes: &'v [Node<'a>],
    at: usize,
) -> MemberRefs<'v, 'a>
    requires { AreSpelled (side_lists lists.now) nodes.now at }
    ensures { result ≡ members_of (side_lists lists.now) nodes.now at }
{
    MemberRefs { nodes, lists, at }
}

impl<'v, 'a> ValueRef<'v, 'a> {
    /// The value that the reference shows, in memory of its own, or `AllocError` if there is not enough memory. The
    /// call recurses once for each level of the value, and so does dropping a value: a value of a schema has at most
    /// 64 levels.
    pub fn to_value(&self, alloc: Global) -> Result<Value, AllocError>
        ensures { IfOk result (λ v. abstract v ≡ value_of self.now) }
    {
        Ok(value(alloc, self.lists, self.nodes)?)
    }

    /// The truth of a BOOLEAN, or None of any other value.
    #[inline(always)]
    pub fn as_bool(&self) -> Option<bool>
        ensures { result ≡ boolean_in self.now }
    {
        match first_of(self.lists, self.nodes) {
            NodeContent::Bool(truth) => Some(truth),
            _ => None,
        }
    }

    /// The number of an INTEGER, or None of any other value.
    #[inline(always)]
    pub fn as_int(&self) -> Option<i128>
        ensures { result ≡ integer_in self.now }
    {
        match first_of(self.lists, self.nodes) {
            NodeContent::Int(number) => Some(number.number()),
            _ => None,
        }
    }

    /// The number of the item of an ENUMERATED, or None of any other value.
    pub fn as_enumerated(&self) -> Option<i128>
        ensures { result ≡ enumerated_in self.now }
    {
        match first_of(self.lists, self.nodes) {
            NodeContent::Enum(item) => Some(item.number()),
            _ => None,
        }
    }

    /// Whether the value is a NULL.
    pub fn is_null(&self) -> bool
        ensures { result ≡ null_in self.now }
    {
        match first_of(self.lists, self.nodes) {
            NodeContent::Null => true,
            _ => false,
        }
    }

    /// The octets of an OCTET STRING, and the place in the message of the first one, from 0, if they are a slice of the
    /// message. The place is None if they were joined from segments. The result is None of any other value.
    pub fn as_octets(&self) -> Option<(&'v [u8], Option<usize>)>
        ensures { MatchOption result
            (octets_in self.now ≡ None)
            (λ r. octets_in self.now ≡ Some (r.0.now, r.1)) }
    {
        match first_of(self.lists, self.nodes) {
            NodeContent::Octets { at, octets } => Some((octets, Some(at as usize))),
            NodeContent::JoinedOctets { from, to } => Some((self.lists.octets_in(from, to), None)),
            _ => None,
        }
    }

    /// How many bits of the last octet of a BIT STRING are unused, its octets, and the place in the message of the
    /// first one, from 0. The first one is the octet after the initial octet, which gives the number of unused bits.
    /// The place is None if the octets were joined from segments. The result is None of any other value.
    pub fn as_bits(&self) -> Option<(u8, &'v [u8], Option<usize>)>
        ensures { MatchOption result
            (bit_string_in self.now ≡ None)
            (λ r. bit_string_in self.now ≡ Some (r.0, r.1.now, r.2)) }
    {
        match first_of(self.lists, self.nodes) {
            NodeContent::Bits { unused, at, octets } => Some((unused, octets, Some(at as usize))),
            NodeContent::JoinedBits { unused, from, to } => {
                Some((unused, self.lists.octets_in(from, to), None))
            }
            _ => None,
        }
    }

    /// The text of a character string, and the place in the message of its first octet, from 0. The place is None if
    /// the text was joined from segments. The result is None of any other value.
    pub fn as_text(&self) -> Option<(&'v str, Option<usize>)>
        ensures { MatchOption result (text_in self.now ≡ None) (λ r. text_in self.now ≡ Some (r.0.now, r.1)) }
    {
        match first_of(self.lists, self.nodes) {
            NodeContent::Text { at, text } => Some((text, Some(at as usize))),
            NodeContent::JoinedText(place) => Some((self.lists.text_at(place), None)),
            _ => None,
        }
    }

    /// The numbers of an OBJECT IDENTIFIER, or None of any other value.
    pub fn as_oid(&self) -> Option<&'v [u64]>
        ensures { MatchOption result (oid_in self.now ≡ None) (λ r. oid_in self.now ≡ Some r.now) }
    {
        match first_of(self.lists, self.nodes) {
            NodeContent::Oid { from, to } => Some(self.lists.arcs_in(from, to)),
            _ => None,
        }
    }

    /// The numbers of a RELATIVE-OID, or None of any other value.
    pub fn as_relative_oid(&self) -> Option<&'v [u64]>
        ensures { MatchOption result
            (relative_oid_in self.now ≡ None)
            (λ r. relative_oid_in self.now ≡ Some r.now) }
    {
        match first_of(self.lists, self.nodes) {
            NodeContent::RelativeOid { from, to } => Some(self.lists.arcs_in(from, to)),
            _ => None,
        }
    }

    /// The member with this number, or None if no member has it. The number of a component of a SEQUENCE or SET is its
    /// place in order of definition. All elements of a SEQUENCE OF or SET OF have number 0, which finds the first one.
    /// The time grows with the number of members that are there, whatever is below them.
    pub fn component(&self, number: u32) -> Option<ValueRef<'v, 'a>>
        ensures { result ≡ component' (members_in self.now) number }
    {
        self.members().component(number)
    }

    /// How many members there are. The time grows with that number, whatever is below them.
    pub fn count(&self) -> usize
        ensures { result ≡ count' (members_in self.now) }
    {
        self.members().member_count()
    }

    /// The members of a SEQUENCE, SET, SEQUENCE OF or SET OF, in the order of the message; no members of any other
    /// value.
    pub fn members(&self) -> MemberRefs<'v, 'a>
        ensures { result ≡ members_in self.now }
    {
        match first_of(self.lists, self.nodes) {
            NodeContent::Fields { size: _, extent: _ } => member_refs(self.lists, self.nodes, 1),
            NodeContent::List { extent: _ } => member_refs(self.lists, self.nodes, 1),
            _ => member_refs(self.lists, self.nodes, self.nodes.len()),
        }
    }

    /// How many components the type of a SEQUENCE or SET has, or None of any other value.
    #[inline(always)]
    pub fn size(&self) -> Option<usize>
        ensures { IfSome result (λ n. self.now ≡ fields n (members_in self.now)) }
    {
        match first_of(self.lists, self.nodes) {
            NodeContent::Fields { size, extent: _ } => Some(size),
            _ => None,
        }
    }

    /// The number of the alternative of a CHOICE and its value, or None of any other value.
    #[inline(always)]
    pub fn alternative(&self) -> Option<(usize, ValueRef<'v, 'a>)>
        ensures { result ≡ alternative_in self.now }
    {
        match first_of(self.lists, self.nodes) {
            NodeContent::Alternative { index, extent: _ } => {
                Some((index, value_ref(self.lists, below(self.nodes))))
            }
            _ => None,
        }
    }
}

impl<'v, 'a> MemberRefs<'v, 'a> {
    /// The same members again.
    #[inline(always)]
    pub(crate) fn again(&self) -> MemberRefs<'v, 'a>
        ensures { result ≡ self.now }
    {
        member_refs(self.lists, self.nodes, self.at)
    }

    /// The first of these members with this number, or None if none has it. The time grows with the number of members
    /// before it.
    pub fn component(&self, number: u32) -> Option<ValueRef<'v, 'a>>
        ensures { result ≡ component' self.now number }
    {
        match find_from(self.lists, self.nodes, self.at, number) {
            Some(nodes) => Some(value_ref(self.lists, nodes)),
            None => None,
        }
    }

    /// The first of these members with this number, or None if none has it. If it is the first member of all, those
    /// after it are left. Otherwise all members are left.
    ///
    /// Calls with growing numbers find all components. Each takes constant time if the components come in the order of
    /// definition, as in a SEQUENCE, and are all there.
    #[inline(always)]
    pub fn take_component(&mut self, number: u32) -> Option<ValueRef<'v, 'a>>
        ensures found { result ≡ component' self.old number }
        ensures left { self.new ≡ left_after number self.old }
    {
        if self.at < self.nodes.len() {
            let (first, end) = next_of(self.lists, self.nodes, self.at);
            if first == number {
                let nodes = between(self.nodes, self.at, end);
                self.at = end;
                return Some(value_ref(self.lists, nodes));
            }
        }
        self.component(number)
    }

    /// How many members are left. The time grows with that number.
    pub fn member_count(&self) -> usize
        ensures { result ≡ count' self.now }
    {
        count_from(self.lists, self.nodes, self.at)
    }
}

impl<'v, 'a> Iterator for MemberRefs<'v, 'a> {
    type Item = (u32, ValueRef<'v, 'a>);

    ghost next_gives = { λ e r f.
        MatchOption r ((e ≡ no_member) × (f ≡ no_member)) (λ m. e ≡ member m.0 m.1 f) };

    ghost remaining = { λ e. at_most (count' e) };

    #[inline(always)]
    fn next(&mut self) -> Option<(u32, ValueRef<'v, 'a>)> {
        if self.at >= self.nodes.len() {
            return None;
        }
        let (number, end) = next_of(self.lists, self.nodes, self.at);
        let nodes = between(self.nodes, self.at, end);
        self.at = end;
        Some((number, value_ref(self.lists, nodes)))
    }
}
