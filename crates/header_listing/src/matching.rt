//! The component or the alternative that a tag identifies (X.680, 25.6.1, 27.3 and 29.3).

use crate::inside::Seen;
use crate::type_names::SHOWN;
use asn_base::schema::{Core, Schema, TypeId};
use asn_base::tag::Tag;
use std::alloc::{AllocError, Global};
use value_text::names::{alternative_at, components};

/// The most untagged CHOICEs within one another that are looked into.
const NESTED: usize = 400;

/// An alternative of a CHOICE, by its number.
#[derive(Clone, Copy)]
pub(crate) struct Alternative {
    choice: TypeId,
    number: usize,
}

/// A type that has the tag itself, and the alternatives of untagged CHOICEs on the way to it, the innermost first.
#[derive(Drop)]
pub(crate) struct Chosen {
    pub ty: TypeId,
    alternatives: Vec<Alternative>,
}

/// The number of alternatives of a type; none if it is no CHOICE.
fn alternative_count(core: &Core) -> usize {
    match core {
        Core::Choice(alternatives) => alternatives
            .root
            .len()
            .saturating_add(alternatives.additions.len()),
        _ => 0,
    }
}

/// The type that has the tag as its first one: this type or, within an untagged CHOICE, that of an alternative. The
/// alternatives on the way are appended, the innermost first. `nested` is how many CHOICEs may be within one another.
fn holder(
    schema: &Schema,
    ty: TypeId,
    tag: Tag,
    nested: usize,
    alternatives: &mut Vec<Alternative>,
) -> Result<Option<TypeId>, AllocError> {
    let Some(resolved) = schema.types().get(ty.index) else {
        return Ok(None);
    };
    if let Some(first) = resolved.tags.first() {
        return Ok(if *first == tag { Some(ty) } else { None });
    }
    if nested == 0 {
        return Ok(None);
    }
    let core = &*resolved.core;
    for number in 0..alternative_count(core) {
        if let Some(alternative) = alternative_at(core, number) {
            let inner = alternative.ty;
            if let Some(found) = holder(schema, inner, tag, nested - 1, alternatives)? {
                alternatives.push(Alternative { choice: ty, number })?;
                return Ok(Some(found));
            }
        }
    }
    Ok(None)
}

/// The type that has the tag as its first one: this type or, within an untagged CHOICE, that of an alternative.
pub(crate) fn chosen_among(
    alloc: Global,
    schema: &Schema,
    ty: TypeId,
    tag: Tag,
) -> Result<Option<Chosen>, AllocError> {
    let mut alternatives = Vec::new(alloc);
    match holder(schema, ty, tag, NESTED, &mut alternatives)? {
        Some(ty) => Ok(Some(Chosen { ty, alternatives })),
        None => Ok(None),
    }
}

/// The alternative of a CHOICE, which may have tags of its own, that the tag of an encoding identifies.
pub(crate) fn alternative_in(seen: Seen<'_>, ty: TypeId) -> Result<Option<Chosen>, AllocError> {
    let schema = seen.types.schema;
    let Some(resolved) = schema.types().get(ty.index) else {
        return Ok(None);
    };
    let core = &*resolved.core;
    for number in 0..alternative_count(core) {
        if let Some(alternative) = alternative_at(core, number) {
            let tag = seen.encoding.tag;
            if let Some(chosen) = chosen_among(seen.alloc, schema, alternative.ty, tag)? {
                return Ok(Some(chosen.within(Alternative { choice: ty, number })?));
            }
        }
    }
    Ok(None)
}

/// The first component at this place or after it that the tag of an encoding identifies, and its place.
pub(crate) fn component_from(
    seen: Seen<'_>,
    ty: TypeId,
    from: usize,
) -> Result<Option<(usize, Chosen)>, AllocError> {
    let schema = seen.types.schema;
    let Some(resolved) = schema.types().get(ty.index) else {
        return Ok(None);
    };
    let components = components(&*resolved.core);
    for place in from..components.len() {
        let component = components[place].ty;
        if let Some(chosen) = chosen_among(seen.alloc, schema, component, seen.encoding.tag)? {
            return Ok(Some((place, chosen)));
        }
    }
    Ok(None)
}

/// The identifier of a component of a type by its place.
pub(crate) fn component_at(schema: &Schema, ty: TypeId, place: usize) -> &str {
    let Some(resolved) = schema.types().get(ty.index) else {
        return "";
    };
    match components(&*resolved.core).get(place) {
        Some(component) => component.name.as_str(),
        None => "",
    }
}

/// The identifier of an alternative.
fn alternative_name(schema: &Schema, alternative: Alternative) -> &str {
    let Some(resolved) = schema.types().get(alternative.choice.index) else {
        return "";
    };
    match alternative_at(&*resolved.core, alternative.number) {
        Some(found) => found.name.as_str(),
        None => "",
    }
}

impl Chosen {
    /// The same type, in an alternative around those that lead to it.
    fn within(mut self, alternative: Alternative) -> Result<Chosen, AllocError> {
        self.alternatives.push(alternative)?;
        Ok(self)
    }

    /// Appends the names of the alternatives to a label, each after a dot if the label isn't empty. Names past what is
    /// shown of a label are left out.
    pub(crate) fn push_names(&self, label: &mut String, schema: &Schema) -> Result<(), AllocError> {
        let count = self.alternatives.len();
        for i in 0..count {
            if label.len() > SHOWN {
                return Ok(());
            }
            if !label.is_empty() {
                label.push_str(".")?;
            }
            label.push_str(alternative_name(schema, self.alternatives[count - 1 - i]))?;
        }
        Ok(())
    }
}
