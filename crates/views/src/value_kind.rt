//! What a reference to a value shows, of whatever kind the value is.

ghost use Rattle.views.specs.Kinds.{Shows};
ghost use Rattle.views.specs.Tree.{component_value, element_values, value_of as value_of'};

use crate::law::lemma_taken_members;
use crate::node::NodeContent;
use crate::node_slices::{below, first_of};
use crate::part::{MemberRefs, ValueRef, member_refs, value_ref};
use asn_base::node::{ValueKind, ValueNode};

impl<'v, 'a> ValueRef<'v, 'a> {
    /// What the reference shows, without the places of strings in the message. The call takes no memory.
    #[inline(always)]
    pub fn value_kind(
        &self,
    ) -> ValueKind<'v, ValueRef<'v, 'a>, MemberRefs<'v, 'a>, MemberRefs<'v, 'a>>
        ensures { Shows self.now result }
    {
        let lists = self.lists;
        match first_of(lists, self.nodes) {
            NodeContent::Bool(truth) => ValueKind::Bool(truth),
            NodeContent::Int(number) => ValueKind::Int(number.number()),
            NodeContent::Enum(item) => ValueKind::Enum(item.number()),
            NodeContent::Bits {
                unused,
                at: _,
                octets,
            } => ValueKind::Bits(unused, octets),
            NodeContent::JoinedBits { unused, from, to } => {
                ValueKind::Bits(unused, lists.octets_in(from, to))
            }
            NodeContent::Octets { at: _, octets } => ValueKind::Octets(octets),
            NodeContent::JoinedOctets { from, to } => ValueKind::Octets(lists.octets_in(from, to)),
            NodeContent::Text { at: _, text } => ValueKind::Text(text),
            NodeContent::JoinedText(place) => ValueKind::Text(lists.text_at(place)),
            NodeContent::Null => ValueKind::Null,
            NodeContent::Oid { from, to } => ValueKind::Oid(lists.arcs_in(from, to)),
            NodeContent::RelativeOid { from, to } => ValueKind::RelativeOid(lists.arcs_in(
                from, to,
            )),
            NodeContent::Fields { size, extent: _ } => {
                ValueKind::Fields(size, member_refs(lists, self.nodes, 1))
            }
            NodeContent::List { extent: _ } => ValueKind::List(member_refs(lists, self.nodes, 1)),
            NodeContent::Alternative { index, extent: _ } => {
                ValueKind::Alternative(index, value_ref(lists, below(self.nodes)))
            }
        }
    }
}

impl<'v, 'a> ValueNode for ValueRef<'v, 'a> {
    ghost use Rattle.views.specs.Tree.{component_value, element_values, value_of as value_of'};

    type Fields = MemberRefs<'v, 'a>;

    type Elements = MemberRefs<'v, 'a>;

    ghost value_of = { value_of' };

    ghost part_at = { component_value };

    ghost row_of = { element_values };

    #[inline(always)]
    fn kind(&self) -> ValueKind<'_, ValueRef<'v, 'a>, MemberRefs<'v, 'a>, MemberRefs<'v, 'a>> {
        self.value_kind()
    }

    #[inline(always)]
    fn fields_again(fields: &MemberRefs<'v, 'a>) -> MemberRefs<'v, 'a> {
        fields.again()
    }

    #[inline(always)]
    fn take_component(fields: &mut MemberRefs<'v, 'a>, place: u32) -> Option<ValueRef<'v, 'a>> {
        lemma_taken_members();
        fields.take_component(place)
    }

    #[inline(always)]
    fn next_element(elements: &mut MemberRefs<'v, 'a>) -> Option<ValueRef<'v, 'a>> {
        match elements.next() {
            Some((_, part)) => Some(part),
            None => None,
        }
    }

    fn element_count(elements: &MemberRefs<'v, 'a>) -> usize {
        elements.member_count()
    }
}
