//! The types of members, by their places.

ghost use Rattle.std.specs.Prelude.{◌≡◌, ◌++◌, ◌∷◌, [], map, option_map, slice_get};
ghost use Rattle.asn_base.specs.Seen.{alternative_of, component_of, kind_of};
ghost use Rattle.asn_base.specs.Schemas.{types_in};
ghost use Rattle.later_versions.specs.Projected.{member_of, members_of};

use asn_base::schema::{Alternatives, Component, Core, Schema, TypeId};

/// The type of the component at a place, or None if there is none.
fn component_type(components: &[Component], place: usize) -> Option<TypeId>
    ensures { option_map (λ t. t.index) result ≡ slice_get (map (λ c. c.type) (map component_of components.now)) place }
{
    if place < components.len() {
        return Some(components[place].ty);
    }
    None
}

/// The type of the alternative at a place, over both lists, or None if there is none.
fn alternative_type(alternatives: &Alternatives, place: usize) -> Option<TypeId>
    ensures { option_map (λ t. t.index) result ≡ slice_get
        (map (λ a. a.type)
        (map alternative_of alternatives.now.root.items ++ map alternative_of alternatives.now.additions.items))
        place }
{
    let root = alternatives.root.as_slice();
    if place < root.len() {
        return Some(root[place].ty);
    }
    let additions = alternatives.additions.as_slice();
    if place - root.len() < additions.len() {
        return Some(additions[place - root.len()].ty);
    }
    None
}

/// The type of the only member, at place 0.
fn element_type(element: TypeId, place: usize) -> Option<TypeId>
    ensures { option_map (λ t. t.index) result ≡ slice_get (element.index ∷ []) place }
{
    if place == 0 {
        return Some(element);
    }
    None
}

/// The type of the member at a place: of a component, of an alternative over both lists, or of the elements. The result
/// is None if there is no member there.
pub(crate) fn member(core: &Core, place: usize) -> Option<TypeId>
    ensures { option_map (λ t. t.index) result ≡ slice_get (types_in (kind_of core.now)) place }
{
    match core {
        Core::Sequence(_, components) => component_type(components.as_slice(), place),
        Core::Set(_, components) => component_type(components.as_slice(), place),
        Core::SequenceOf(_, element) => element_type(*element, place),
        Core::SetOf(_, element) => element_type(*element, place),
        Core::Choice(alternatives) => alternative_type(alternatives, place),
        _ => None,
    }
}

/// The type of the member at a place of a type of the schema, or None if there is none or the schema has no such type.
pub(crate) fn member_at(schema: &Schema, id: TypeId, place: usize) -> Option<TypeId>
    ensures { option_map (λ t. t.index) result ≡ slice_get (members_of schema.now id.index) place }
{
    if schema.has(id) {
        return member(schema.core(id), place);
    }
    None
}

/// The type of the member at a place of a type of the schema; if there is none, a number that no type has.
pub(crate) fn member_or_none(schema: &Schema, id: TypeId, place: usize) -> TypeId
    ensures { result.index ≡ member_of schema.now id.index place }
{
    match member_at(schema, id, place) {
        Some(ty) => ty,
        None => TypeId {
            index: schema.types().len(),
        },
    }
}
