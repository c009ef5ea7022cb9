//! A part of a decoded value with its type.

ghost use Rattle.std.specs.Prelude.{◌≡◌, MatchOption, None, Option, Some, ℕ};
ghost use Rattle.asn_base.specs.Seen.{kind_of};
ghost use Rattle.named_views.specs.Typed.{AreElements, AreFields, HasNoChoice, HasNoElements, HasNoField, HasNoFields};
ghost use Rattle.named_views.specs.Typed.{HasNoItem, IsChosen, IsField, IsNamedItem};
ghost use Rattle.value_text.specs.Print.{element_in};
ghost use Rattle.views.specs.Tree.{boolean_in, integer_in, octets_in, text_in};

use crate::elements::Elements;
use crate::named_fields::NamedFields;
use asn_base::schema::{Core, Schema, TypeId};
use std::marker::Model;
use value_builders::names::{component_place, components_of, core_of};
use value_text::names::{alternative_at, item_name};
use views::{ValueRef, View};

/// A part of a decoded value with its type. What the part holds is found by the names that the type gives. No call
/// takes memory.
#[derive(Drop)]
pub struct NamedValueRef<'v, 'a> {
    part: ValueRef<'v, 'a>,
    schema: &'v Schema,
    id: TypeId,
}

impl<'v, 'a> Model for NamedValueRef<'v, 'a> {
    ghost use Rattle.named_views.specs.Typed.{Typed};
    ghost use Rattle.std.specs.Coded.{codes};
    ghost use Rattle.asn_base.specs.Codes.{abstract_value_code};
    ghost use Rattle.views.specs.Spelled.{tree_code};

    ghost Value = { Typed };

    ghost coded = { Prim.hlevel (codes, abstract_value_code, tree_code) };

    ghost view = { λ p. record {
      schema = p.schema.now;
      type = p.id.index;
      tree = p.part;
    } };
}

/// The type of the elements of a SEQUENCE OF or SET OF, or None for another kind.
fn element_of(core: &Core) -> Option<TypeId>
    ensures { MatchOption result
        (element_in (kind_of core.now) ≡ None)
        (λ e. element_in (kind_of core.now) ≡ Some e.index) }
{
    match core {
        Core::SequenceOf(_, element) => Some(*element),
        Core::SetOf(_, element) => Some(*element),
        _ => None,
    }
}

impl<'v, 'a> NamedValueRef<'v, 'a> {
    /// The whole of a view, as a value of a type.
    pub fn of(view: &'v View<'a>, schema: &'v Schema, id: TypeId) -> Self
        ensures tree { result.tree ≡ view.now }
        ensures of_type { result.type ≡ id.index }
        ensures schema { result.schema ≡ schema.now }
    {
        NamedValueRef {
            part: view.top(),
            schema,
            id,
        }
    }

    /// A part of a value, as a value of a type.
    pub fn at(part: ValueRef<'v, 'a>, schema: &'v Schema, id: TypeId) -> Self
        ensures tree { result.tree ≡ part.entry }
        ensures of_type { result.type ≡ id.index }
        ensures schema { result.schema ≡ schema.now }
    {
        NamedValueRef { part, schema, id }
    }

    /// The part without its type. It has the octets, bits, numbers and texts of a leaf: `as_oid`, `as_bits`, `is_null`
    /// and the like are its calls.
    pub fn part(&self) -> &ValueRef<'v, 'a>
        ensures { result.now ≡ self.now.tree }
    {
        &self.part
    }

    /// The number of the part's type.
    pub fn type_id(&self) -> TypeId
        ensures { result.index ≡ self.now.type }
    {
        self.id
    }

    /// The component with a name of a SEQUENCE or SET. The result is None if the type has no such component, or if the
    /// component is absent.
    pub fn field(&self, name: &str) -> Option<NamedValueRef<'v, 'a>>
        ensures { MatchOption result (HasNoField self.now name.now) (IsField self.now name.now) }
    {
        let Some(core) = core_of(self.schema, self.id) else {
            return None;
        };
        let Some(components) = components_of(core) else {
            return None;
        };
        let Some(place) = component_place(components, name) else {
            return None;
        };
        let Some(part) = self.part.component(place as u32) else {
            return None;
        };
        Some(NamedValueRef {
            part,
            schema: self.schema,
            id: components[place].ty,
        })
    }

    /// The components of a SEQUENCE or SET that are there, each with its name, in the order of the message. The result
    /// is None of any other type.
    pub fn fields(&self) -> Option<NamedFields<'v, 'a>>
        ensures { MatchOption result (HasNoFields self.now) (AreFields self.now) }
    {
        let Some(core) = core_of(self.schema, self.id) else {
            return None;
        };
        let Some(components) = components_of(core) else {
            return None;
        };
        Some(NamedFields::of(self.part.members(), self.schema, components))
    }

    /// The name of the alternative of a CHOICE, and its value. The result is None of any other value.
    pub fn alternative(&self) -> Option<(&'v str, NamedValueRef<'v, 'a>)>
        ensures { MatchOption result (HasNoChoice self.now) (λ r. IsChosen self.now r.0.now r.1) }
    {
        let Some(core) = core_of(self.schema, self.id) else {
            return None;
        };
        let Some((number, part)) = self.part.alternative() else {
            return None;
        };
        let Some(alternative) = alternative_at(core, number) else {
            return None;
        };
        let inner = NamedValueRef {
            part,
            schema: self.schema,
            id: alternative.ty,
        };
        Some((alternative.name.as_str(), inner))
    }

    /// The name of the item of an ENUMERATED. The result is None of any other value.
    pub fn item_name(&self) -> Option<&'v str>
        ensures { MatchOption result (HasNoItem self.now) (λ n. IsNamedItem self.now n.now) }
    {
        let Some(core) = core_of(self.schema, self.id) else {
            return None;
        };
        let Some(number) = self.part.as_enumerated() else {
            return None;
        };
        item_name(core, number)
    }

    /// The elements of a SEQUENCE OF or SET OF, in the order of the message. The result is None of any other type.
    pub fn elements(&self) -> Option<Elements<'v, 'a>>
        ensures { MatchOption result (HasNoElements self.now) (AreElements self.now) }
    {
        let Some(core) = core_of(self.schema, self.id) else {
            return None;
        };
        let Some(element) = element_of(core) else {
            return None;
        };
        Some(Elements::of(self.part.members(), self.schema, element))
    }

    /// The truth of a BOOLEAN, or None of any other value.
    pub fn as_bool(&self) -> Option<bool>
        ensures { result ≡ boolean_in self.now.tree }
    {
        self.part.as_bool()
    }

    /// The number of an INTEGER, or None of any other value.
    pub fn as_int(&self) -> Option<i128>
        ensures { result ≡ integer_in self.now.tree }
    {
        self.part.as_int()
    }

    /// The text of a character string, or None of any other value.
    pub fn as_str(&self) -> Option<&'v str>
        ensures { MatchOption result
            (text_in self.now.tree ≡ None)
            (λ s. (at : Option ℕ) × (text_in self.now.tree ≡ Some (s.now, at))) }
    {
        match self.part.as_text() {
            Some((text, _)) => Some(text),
            None => None,
        }
    }

    /// The octets of an OCTET STRING, or None of any other value.
    pub fn as_octets(&self) -> Option<&'v [u8]>
        ensures { MatchOption result
            (octets_in self.now.tree ≡ None)
            (λ o. (at : Option ℕ) × (octets_in self.now.tree ≡ Some (o.now, at))) }
    {
        match self.part.as_octets() {
            Some((octets, _)) => Some(octets),
            None => None,
        }
    }
}
