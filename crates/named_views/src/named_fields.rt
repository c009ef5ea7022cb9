//! The components of a decoded SEQUENCE or SET.

ghost use Rattle.std.specs.Prelude.{◌≡◌, MatchOption, map};
ghost use Rattle.std.specs.Iterator.{at_most};
ghost use Rattle.asn_base.specs.Seen.{component_of};
ghost use Rattle.named_views.specs.Typed.{HasNoNextField, IsNextField};
ghost use Rattle.views.specs.Tree.{count};

use crate::part::NamedValueRef;
use asn_base::schema::{Component, Schema};
use std::marker::Model;
use views::MemberRefs;

/// The components that are left of a decoded SEQUENCE or SET, each with its name. Absent components are left out. They
/// come in the order of the message.
#[derive(Drop)]
pub struct NamedFields<'v, 'a> {
    members: MemberRefs<'v, 'a>,
    schema: &'v Schema,
    components: &'v [Component],
}

impl<'v, 'a> Model for NamedFields<'v, 'a> {
    ghost use Rattle.named_views.specs.Typed.{NamedMembers};
    ghost use Rattle.std.specs.Coded.{codes};
    ghost use Rattle.asn_base.specs.Codes.{abstract_value_code};
    ghost use Rattle.views.specs.Spelled.{members_code};

    ghost Value = { NamedMembers };

    ghost coded = { Prim.hlevel (codes, abstract_value_code, members_code) };

    ghost use Rattle.std.specs.Prelude.{map};
    ghost use Rattle.asn_base.specs.Seen.{component_of};

    ghost view = { λ e. record {
      schema = e.schema.now;
      components = map component_of e.components.now;
      members = e.members;
    } };
}

impl<'v, 'a> NamedFields<'v, 'a> {
    /// These members, as values of these components.
    pub fn of(members: MemberRefs<'v, 'a>, schema: &'v Schema, components: &'v [Component]) -> Self
        ensures members { result.members ≡ members.entry }
        ensures schema { result.schema ≡ schema.now }
        ensures components { result.components ≡ map component_of components.now }
    {
        NamedFields {
            members,
            schema,
            components,
        }
    }
}

impl<'v, 'a> Iterator for NamedFields<'v, 'a> {
    type Item = (&'v str, NamedValueRef<'v, 'a>);

    ghost next_gives = { λ e r f. MatchOption r (HasNoNextField e) (λ p. IsNextField e p.0.now p.1 f) };

    ghost remaining = { λ e. at_most (count e.members) };

    fn next(&mut self) -> Option<(&'v str, NamedValueRef<'v, 'a>)> {
        let Some((number, part)) = self.members.next() else {
            return None;
        };
        let Some(component) = self.components.get(number as usize) else {
            return None;
        };
        let field = NamedValueRef::at(part, self.schema, component.ty);
        Some((component.name.as_str(), field))
    }
}
