//! What an encoding is in the terms of types.

use crate::first::Encoding;
use crate::line_text::push_number;
use crate::matching::{Chosen, alternative_in, chosen_among, component_at, component_from};
use crate::type_names::{push_cut, push_tag, type_name};
use crate::values::{kind_word, push_octets, push_value};
use asn_base::schema::{Core, Resolved, Schema, TypeId};
use octets::Form;
use resolve::Linked;
use std::alloc::{AllocError, Global};

/// The types of a program by number, and their names.
#[derive(Clone, Copy)]
pub struct Types<'a> {
    /// The modules in which the types are named.
    pub linked: &'a Linked,
    /// What each type is.
    pub schema: &'a Schema,
}

/// What comes next among encodings.
#[derive(Clone, Copy)]
pub(crate) enum Inside {
    /// A value of a type.
    Value(TypeId),
    /// A value of a type, from the tag at this place in its list of tags on.
    Tagged(TypeId, usize),
    /// An alternative of a CHOICE.
    Alternatives(TypeId),
    /// Components of a SEQUENCE, from the one at this place on.
    Components(TypeId, usize),
    /// Components of a SET, in any order.
    Members(TypeId),
    /// Elements of this type, from the one with this index on.
    Elements(TypeId, usize),
    /// Segments of a string.
    Segments,
    /// Encodings of which the type says nothing.
    Unknown,
}

/// What a line says of an encoding, what comes after the encoding, and what comes within it.
#[derive(Drop)]
pub(crate) struct Description {
    pub words: String,
    pub next: Inside,
    pub within: Inside,
    /// Whether the encoding is an extension addition that the type lacks.
    pub is_addition: bool,
}

/// An encoding, and the types in whose terms it is described.
#[derive(Clone, Copy)]
pub(crate) struct Seen<'a> {
    pub alloc: Global,
    pub types: Types<'a>,
    pub encoding: Encoding<'a>,
}

/// The words of an encoding of which the type says nothing: its contents octets, if it is primitive.
fn describe_octets(
    seen: Seen<'_>,
    mut words: String,
    next: Inside,
    is_addition: bool,
) -> Result<Description, AllocError> {
    if seen.encoding.form == Form::Primitive {
        words.push_str(" ")?;
        push_octets(&mut words, seen.encoding.contents)?;
    }
    let within = match next {
        Inside::Segments => Inside::Segments,
        _ => Inside::Unknown,
    };
    Ok(Description {
        words,
        next,
        within,
        is_addition,
    })
}

/// What comes within the contents of a type, after its last tag.
fn within(core: &Core, ty: TypeId) -> Inside {
    match core {
        Core::Sequence(_, _) => Inside::Components(ty, 0),
        Core::Set(_, _) => Inside::Members(ty),
        Core::SequenceOf(_, element) | Core::SetOf(_, element) => Inside::Elements(*element, 0),
        Core::Choice(_) => Inside::Alternatives(ty),
        _ => Inside::Segments,
    }
}

/// The words of the header with the last tag of a type: the type's name and kind, and the value of what is primitive.
fn describe_contents(
    seen: Seen<'_>,
    mut words: String,
    ty: TypeId,
    resolved: &Resolved,
    next: Inside,
) -> Result<Description, AllocError> {
    if let Some(name) = type_name(seen.types.linked, ty) {
        words.push_str(" ")?;
        push_cut(&mut words, name)?;
    }
    let core = &*resolved.core;
    words.push_str(" ")?;
    words.push_str(kind_word(core))?;
    match seen.encoding.form {
        Form::Primitive => push_value(seen.alloc, &mut words, core, seen.encoding.contents)?,
        Form::Constructed => {}
    }
    Ok(Description {
        words,
        next,
        within: within(core, ty),
        is_addition: false,
    })
}

/// The words of the header with the tag at this place in the tags of a type. All but the last are explicit.
fn describe_tag(
    seen: Seen<'_>,
    mut words: String,
    ty: TypeId,
    level: usize,
    next: Inside,
) -> Result<Description, AllocError> {
    let Some(resolved) = seen.types.schema.types().get(ty.index) else {
        return describe_octets(seen, words, next, false);
    };
    let after = level.saturating_add(1);
    if after >= resolved.tags.len() {
        return describe_contents(seen, words, ty, resolved, next);
    }
    words.push_str(" ")?;
    push_tag(&mut words, seen.encoding.tag)?;
    words.push_str(" EXPLICIT")?;
    Ok(Description {
        words,
        next,
        within: Inside::Tagged(ty, after),
        is_addition: false,
    })
}

/// The words of a value whose type was chosen by its tag. The label is that of the component or element that it is.
fn describe_chosen(
    seen: Seen<'_>,
    mut label: String,
    chosen: Chosen,
    next: Inside,
) -> Result<Description, AllocError> {
    chosen.push_names(&mut label, seen.types.schema)?;
    let mut words = String::new(seen.alloc);
    if !label.is_empty() {
        words.push_str(" ")?;
        push_cut(&mut words, label.as_str())?;
        words.push_str(":")?;
    }
    describe_tag(seen, words, chosen.ty, 0, next)
}

/// The words of an encoding that the type doesn't have at this place.
fn describe_unexpected(
    seen: Seen<'_>,
    inside: Inside,
    unknown: usize,
    is_extensible: bool,
) -> Result<Description, AllocError> {
    let mut words = String::new(seen.alloc);
    if !is_extensible {
        words.push_str(" unexpected")?;
        return describe_octets(seen, words, inside, false);
    }
    words.push_str(" unknown addition ")?;
    push_number(&mut words, unknown.saturating_add(1))?;
    describe_octets(seen, words, inside, true)
}

/// The words of a value of a type, which is a component, an element or the message.
fn describe_value(
    seen: Seen<'_>,
    label: String,
    ty: TypeId,
    next: Inside,
) -> Result<Description, AllocError> {
    match chosen_among(seen.alloc, seen.types.schema, ty, seen.encoding.tag)? {
        Some(chosen) => describe_chosen(seen, label, chosen, next),
        None => describe_unexpected(seen, next, 0, false),
    }
}

/// Whether the type has an extension marker, after which there may be additions that it lacks.
fn is_extensible(schema: &Schema, ty: TypeId) -> bool {
    let Some(resolved) = schema.types().get(ty.index) else {
        return false;
    };
    match &*resolved.core {
        Core::Sequence(extensible, _) | Core::Set(extensible, _) => *extensible,
        _ => false,
    }
}

/// The words of a component of a SEQUENCE or SET, or of an addition that it lacks. The component of a SEQUENCE is at
/// the place `from` or after it.
fn describe_component(
    seen: Seen<'_>,
    ty: TypeId,
    from: usize,
    is_set: bool,
    unknown: usize,
) -> Result<Description, AllocError> {
    let schema = seen.types.schema;
    let same = if is_set {
        Inside::Members(ty)
    } else {
        Inside::Components(ty, from)
    };
    let Some((place, chosen)) = component_from(seen, ty, from)? else {
        return describe_unexpected(seen, same, unknown, is_extensible(schema, ty));
    };
    let next = if is_set {
        Inside::Members(ty)
    } else {
        Inside::Components(ty, place.saturating_add(1))
    };
    let label = String::from_str(seen.alloc, component_at(schema, ty, place))?;
    describe_chosen(seen, label, chosen, next)
}

/// The words of an element, which has this index.
fn describe_element(
    seen: Seen<'_>,
    element: TypeId,
    index: usize,
) -> Result<Description, AllocError> {
    let mut label = String::new(seen.alloc);
    label.push_str("[")?;
    push_number(&mut label, index)?;
    label.push_str("]")?;
    let next = Inside::Elements(element, index.saturating_add(1));
    describe_value(seen, label, element, next)
}

/// The words of the encoding of an alternative of a CHOICE that has tags of its own.
fn describe_alternative(seen: Seen<'_>, ty: TypeId) -> Result<Description, AllocError> {
    match alternative_in(seen, ty)? {
        Some(chosen) => describe_chosen(seen, String::new(seen.alloc), chosen, Inside::Unknown),
        None => describe_unexpected(seen, Inside::Unknown, 0, false),
    }
}

/// What a line says of an encoding that is the next one inside these encodings. `unknown` is the number of additions
/// that were unknown before.
pub(crate) fn described(
    seen: Seen<'_>,
    inside: Inside,
    unknown: usize,
) -> Result<Description, AllocError> {
    let none = String::new(seen.alloc);
    match inside {
        Inside::Value(ty) => describe_value(seen, none, ty, Inside::Unknown),
        Inside::Tagged(ty, level) => describe_tag(seen, none, ty, level, Inside::Unknown),
        Inside::Alternatives(ty) => describe_alternative(seen, ty),
        Inside::Components(ty, from) => describe_component(seen, ty, from, false, unknown),
        Inside::Members(ty) => describe_component(seen, ty, 0, true, unknown),
        Inside::Elements(element, index) => describe_element(seen, element, index),
        Inside::Segments => {
            describe_octets(
                seen,
                String::from_str(seen.alloc, " segment")?,
                inside,
                false,
            )
        }
        Inside::Unknown => describe_octets(seen, none, inside, false),
    }
}
