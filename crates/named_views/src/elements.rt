//! The elements of a decoded SEQUENCE OF or SET OF.

ghost use Rattle.std.specs.Prelude.{◌≡◌, MatchOption};
ghost use Rattle.std.specs.Iterator.{at_most};
ghost use Rattle.named_views.specs.Typed.{IsNextElement};
ghost use Rattle.views.specs.Tree.{count, no_member};

use crate::part::NamedValueRef;
use asn_base::schema::{Schema, TypeId};
use std::marker::Model;
use views::MemberRefs;

/// The elements that are left of a decoded SEQUENCE OF or SET OF, in the order of the message.
#[derive(Drop)]
pub struct Elements<'v, 'a> {
    members: MemberRefs<'v, 'a>,
    schema: &'v Schema,
    id: TypeId,
}

impl<'v, 'a> Model for Elements<'v, 'a> {
    ghost use Rattle.named_views.specs.Typed.{TypedMembers};
    ghost use Rattle.std.specs.Coded.{codes};
    ghost use Rattle.asn_base.specs.Codes.{abstract_value_code};
    ghost use Rattle.views.specs.Spelled.{members_code};

    ghost Value = { TypedMembers };

    ghost coded = { Prim.hlevel (codes, abstract_value_code, members_code) };

    ghost view = { λ e. record {
      schema = e.schema.now;
      type = e.id.index;
      members = e.members;
    } };
}

impl<'v, 'a> Elements<'v, 'a> {
    /// These members, as values of a type.
    pub fn of(members: MemberRefs<'v, 'a>, schema: &'v Schema, id: TypeId) -> Self
        ensures members { result.members ≡ members.entry }
        ensures of_type { result.type ≡ id.index }
        ensures schema { result.schema ≡ schema.now }
    {
        Elements {
            members,
            schema,
            id,
        }
    }
}

impl<'v, 'a> Iterator for Elements<'v, 'a> {
    type Item = NamedValueRef<'v, 'a>;

    ghost next_gives = { λ e r f. MatchOption r (e.members ≡ no_member) (λ p. IsNextElement e p f) };

    ghost remaining = { λ e. at_most (count e.members) };

    fn next(&mut self) -> Option<NamedValueRef<'v, 'a>> {
        match self.members.next() {
            Some((_, part)) => Some(NamedValueRef::at(part, self.schema, self.id)),
            None => None,
        }
    }
}
