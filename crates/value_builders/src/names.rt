//! Parts of a type, found by their names.

ghost use Rattle.std.specs.Prelude.{◌≡◌, ◌++◌, IfSome, MatchOption, None, Some, bytes_eq, map};
ghost use Rattle.asn_base.specs.Schemas.{IsSound};
ghost use Rattle.asn_base.specs.Seen.{alternative_of, component_of, item_of, kind_of};
ghost use Rattle.value_builders.specs.Named.{alternative_names, alternatives_in, component_names, components_in};
ghost use Rattle.value_builders.specs.Named.{items_in, kind_at, number_of, place_of};

use asn_base::schema::{Alternative, Alternatives, Component, Core, Item, Items, Schema, TypeId};

/// The kind of a type, or None if the schema has no such type.
pub fn core_of<'s>(schema: &'s Schema, id: TypeId) -> Option<&'s Core>
    ensures is { MatchOption result
        (kind_at schema.now id.index ≡ None)
        (λ c. kind_at schema.now id.index ≡ Some (kind_of c.now)) }
    // What a type of this kind promises.
    ensures sound { IfSome result (λ c. IsSound schema.now (kind_of c.now)) }
{
    if schema.has(id) {
        Some(schema.core(id))
    } else {
        None
    }
}

/// Whether the component has the name.
fn is_component(component: &Component, name: &str) -> bool
    ensures { result ≡ bytes_eq (component_of component.now).name name.now }
{
    component.name.as_str() == name
}

/// Whether the alternative has the name.
fn is_alternative(alternative: &Alternative, name: &str) -> bool
    ensures { result ≡ bytes_eq (alternative_of alternative.now).name name.now }
{
    alternative.name.as_str() == name
}

/// Whether the item has the name.
fn is_item(item: &Item, name: &str) -> bool
    ensures { result ≡ bytes_eq (item_of item.now).name name.now }
{
    item.name.as_str() == name
}

/// The place of the component with a name, from 0 in order of definition, or None if no component has it.
pub fn component_place(components: &[Component], name: &str) -> Option<usize>
    ensures { result ≡ place_of (component_names (map component_of components.now)) name.now }
{
    for i in 0..components.len() {
        if is_component(&components[i], name) {
            return Some(i);
        }
    }
    None
}

/// The place of the alternative with a name, from 0, or None if no alternative has it.
fn alternative_place(alternatives: &[Alternative], name: &str) -> Option<usize>
    ensures { result ≡ place_of (alternative_names (map alternative_of alternatives.now)) name.now }
{
    for i in 0..alternatives.len() {
        if is_alternative(&alternatives[i], name) {
            return Some(i);
        }
    }
    None
}

/// The number of the alternative with a name, over root and additions, or None if no alternative has it.
pub fn alternative_number(alternatives: &Alternatives, name: &str) -> Option<usize>
    ensures { result ≡ place_of (alternative_names
        (map alternative_of alternatives.now.root.items ++ map alternative_of alternatives.now.additions.items))
        name.now }
{
    let root = alternatives.root.as_slice();
    match alternative_place(root, name) {
        Some(place) => Some(place),
        None => match alternative_place(alternatives.additions.as_slice(), name) {
            Some(place) => Some(root.len() + place),
            None => None,
        },
    }
}

/// The number of the first of some items with a name, or None if no item has it.
fn number_among(items: &[Item], name: &str) -> Option<i128>
    ensures { result ≡ number_of (map item_of items.now) name.now }
{
    for item in items {
        if is_item(item, name) {
            return Some(item.number);
        }
    }
    None
}

/// The number of the item with a name, over root and additions, or None if no item has it.
pub fn item_number(items: &Items, name: &str) -> Option<i128>
    ensures { result ≡ number_of
        (map item_of items.now.root.items ++ map item_of items.now.additions.items) name.now }
{
    match number_among(items.root.as_slice(), name) {
        Some(number) => Some(number),
        None => number_among(items.additions.as_slice(), name),
    }
}

/// The components of a SEQUENCE or SET, or None for another kind.
pub fn components_of(core: &Core) -> Option<&[Component]>
    ensures { MatchOption result
        (components_in (kind_of core.now) ≡ None)
        (λ cs. components_in (kind_of core.now) ≡ Some (map component_of cs.now)) }
{
    match core {
        Core::Sequence(_, components) => Some(components.as_slice()),
        Core::Set(_, components) => Some(components.as_slice()),
        _ => None,
    }
}

/// The alternatives of a CHOICE, or None for another kind.
pub fn alternatives_of(core: &Core) -> Option<&Alternatives>
    ensures { MatchOption result
        (alternatives_in (kind_of core.now) ≡ None)
        (λ a. alternatives_in (kind_of core.now)
        ≡ Some (map alternative_of a.now.root.items ++ map alternative_of a.now.additions.items)) }
{
    match core {
        Core::Choice(alternatives) => Some(alternatives),
        _ => None,
    }
}

/// The items of an ENUMERATED, or None for another kind.
pub fn items_of(core: &Core) -> Option<&Items>
    ensures { MatchOption result
        (items_in (kind_of core.now) ≡ None)
        (λ i. items_in (kind_of core.now)
        ≡ Some (map item_of i.now.root.items ++ map item_of i.now.additions.items)) }
{
    match core {
        Core::Enumerated(items) => Some(items),
        _ => None,
    }
}
