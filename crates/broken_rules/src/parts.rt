//! The parts of a value, in the order of the octets that encode them.

use crate::label::{Label, named, numbered};
use asn_base::schema::{Alternative, Component, Core, Resolved, Schema, TypeId};
use asn_base::tag::Tag;
use asn_base::value::Value;
use header_listing::value_text::names::{alternative_at, components};

/// A part of a value that an encoding is of: its type, and the place of the encoding's tag in the tags of that type.
#[derive(Clone, Copy)]
pub(crate) struct EncodedPart<'a> {
    pub ty: TypeId,
    pub level: usize,
    pub value: &'a Value,
    pub label: Label<'a>,
    /// The type of the component that the encoding is of, if it is of one, with all its tags.
    pub member: Option<TypeId>,
}

/// What comes next in contents octets.
#[derive(Clone, Copy)]
pub(crate) enum Inside<'a> {
    /// A value of a type. It has this name, if it is that of an alternative.
    Value(TypeId, &'a Value, &'a str),
    /// A value of a type, from the tag at this place in its tags on.
    Tagged(TypeId, usize, &'a Value),
    /// Components of a SEQUENCE, from the one at this place on.
    Components(TypeId, &'a [Option<Value>], usize),
    /// Components of a SET.
    Members(TypeId, &'a [Option<Value>]),
    /// Elements of a SEQUENCE OF or SET OF, which have this type, from the one with this index on.
    Elements(TypeId, &'a [Value], usize),
    /// No part of the value.
    Nothing,
}

/// A type by its number.
pub(crate) fn type_at(schema: &Schema, ty: TypeId) -> Option<&Resolved> {
    if schema.has(ty) {
        Some(schema.get(ty))
    } else {
        None
    }
}

/// The alternative that a value of an untagged CHOICE chooses, and the value of that. The result is None for another
/// type.
fn chosen<'a>(
    schema: &'a Schema,
    ty: TypeId,
    value: &'a Value,
) -> Option<(&'a Alternative, &'a Value)> {
    let Some(resolved) = type_at(schema, ty) else {
        return None;
    };
    let Value::Alt(number, inner) = value else {
        return None;
    };
    if !resolved.tags.is_empty() {
        return None;
    }
    match alternative_at(&*resolved.core, *number) {
        Some(alternative) => Some((alternative, inner)),
        None => None,
    }
}

/// A value as a part. If its type is an untagged CHOICE, the part is the chosen alternative.
fn part_of<'a>(
    schema: &'a Schema,
    ty: TypeId,
    value: &'a Value,
    label: Label<'a>,
) -> EncodedPart<'a> {
    let (ty, value, label) = match chosen(schema, ty, value) {
        Some((alternative, inner)) => (
            alternative.ty,
            inner,
            label.with(alternative.name.as_str()),
        ),
        None => (ty, value, label),
    };
    EncodedPart {
        ty,
        level: 0,
        value,
        label,
        member: None,
    }
}

/// The components of a type; none if it is no SEQUENCE or SET.
fn components_of(schema: &Schema, ty: TypeId) -> &[Component] {
    match type_at(schema, ty) {
        Some(resolved) => components(&*resolved.core),
        None => &[],
    }
}

/// The component at a place of a type as a part, if it is present.
fn component_at<'a>(
    schema: &'a Schema,
    holder: TypeId,
    values: &'a [Option<Value>],
    place: usize,
) -> Option<EncodedPart<'a>> {
    let Some(Some(value)) = values.get(place) else {
        return None;
    };
    let Some(component) = components_of(schema, holder).get(place) else {
        return None;
    };
    let label = named(component.name.as_str());
    let mut part = part_of(schema, component.ty, value, label);
    part.member = Some(component.ty);
    Some(part)
}

/// The first component of a SEQUENCE that is present, from a place on, and what comes after it.
fn next_component<'a>(
    schema: &'a Schema,
    holder: TypeId,
    values: &'a [Option<Value>],
    from: usize,
) -> Option<(EncodedPart<'a>, Inside<'a>)> {
    for place in from..values.len() {
        if let Some(part) = component_at(schema, holder, values, place) {
            let next = Inside::Components(holder, values, place.saturating_add(1));
            return Some((part, next));
        }
    }
    None
}

/// The place of the component of a SET that has the tag as its first one.
fn place_of(schema: &Schema, components: &[Component], tag: Tag) -> Option<usize> {
    for place in 0..components.len() {
        if let Some(resolved) = type_at(schema, components[place].ty) {
            if resolved.tags.first() == Some(&tag) {
                return Some(place);
            }
        }
    }
    None
}

/// The component of a SET that has the tag as its first one.
fn member_of<'a>(
    schema: &'a Schema,
    holder: TypeId,
    values: &'a [Option<Value>],
    tag: Tag,
) -> Option<EncodedPart<'a>> {
    match place_of(schema, components_of(schema, holder), tag) {
        Some(place) => component_at(schema, holder, values, place),
        None => None,
    }
}

/// The element with an index.
fn element_at<'a>(
    schema: &'a Schema,
    element: TypeId,
    values: &'a [Value],
    index: usize,
) -> Option<EncodedPart<'a>> {
    match values.get(index) {
        Some(value) => Some(part_of(schema, element, value, numbered(index))),
        None => None,
    }
}

/// The part that the next encoding in contents octets is of, which has this tag, and what comes after it. The result is
/// None for an addition that the type lacks.
pub(crate) fn next_part<'a>(
    schema: &'a Schema,
    inside: Inside<'a>,
    tag: Tag,
) -> Option<(EncodedPart<'a>, Inside<'a>)> {
    match inside {
        Inside::Value(ty, value, name) => {
            Some((part_of(schema, ty, value, named(name)), Inside::Nothing))
        }
        Inside::Tagged(ty, level, value) => {
            let mut part = part_of(schema, ty, value, named(""));
            part.level = level;
            Some((part, Inside::Nothing))
        }
        Inside::Components(ty, values, from) => next_component(schema, ty, values, from),
        Inside::Members(ty, values) => Some((member_of(schema, ty, values, tag)?, inside)),
        Inside::Elements(element, values, index) => {
            let next = Inside::Elements(element, values, index.saturating_add(1));
            Some((element_at(schema, element, values, index)?, next))
        }
        Inside::Nothing => None,
    }
}

/// What comes within the contents octets of elements, if the type has elements.
fn elements<'a>(core: &Core, values: &'a [Value]) -> Inside<'a> {
    match core {
        Core::SequenceOf(_, element) => Inside::Elements(*element, values, 0),
        Core::SetOf(_, element) => Inside::Elements(*element, values, 0),
        _ => Inside::Nothing,
    }
}

/// What comes within the contents octets of a part.
pub(crate) fn within<'a>(schema: &'a Schema, part: EncodedPart<'a>) -> Inside<'a> {
    let Some(resolved) = type_at(schema, part.ty) else {
        return Inside::Nothing;
    };
    let after = part.level.saturating_add(1);
    if after < resolved.tags.len() {
        return Inside::Tagged(part.ty, after, part.value);
    }
    let core = &*resolved.core;
    match part.value {
        Value::Fields(values) => match core {
            Core::Set(_, _) => Inside::Members(part.ty, values.as_slice()),
            _ => Inside::Components(part.ty, values.as_slice(), 0),
        },
        Value::List(values) => elements(core, values.as_slice()),
        Value::Alt(number, inner) => match alternative_at(core, *number) {
            Some(alternative) => Inside::Value(alternative.ty, inner, alternative.name.as_str()),
            None => Inside::Nothing,
        },
        _ => Inside::Nothing,
    }
}
