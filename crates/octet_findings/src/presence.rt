//! Which components of a SEQUENCE or SET are in contents octets (X.690, 8.9 and 8.11).

use crate::headers::{after_contents, after_header, header_at};
use asn_base::schema::{Component, Core, Presence, Schema, TypeId};
use asn_base::tag::Tag;
use std::alloc::{AllocError, Global};

/// The most characters of a component's name.
const SHOWN: usize = 60;

/// The most untagged CHOICEs within one another that are looked into.
const NESTED: usize = 400;

/// How many types are looked at for each of the contents octets, and how many besides, before the search ends.
const EACH: usize = 16;

const BESIDES: usize = 1_000_000;

/// Whether the tag can be the first one of a type: its outermost tag, or that of an alternative of an untagged CHOICE.
/// `nested` is how many CHOICEs may be within one another, and `left` how many types may still be looked at.
fn begins(schema: &Schema, ty: TypeId, tag: Tag, nested: usize, left: &mut usize) -> bool {
    if *left == 0 {
        return false;
    }
    *left -= 1;
    let Some(resolved) = schema.types().get(ty.index) else {
        return false;
    };
    if let Some(first) = resolved.tags.first() {
        return *first == tag;
    }
    let Core::Choice(alternatives) = &*resolved.core else {
        return false;
    };
    if nested == 0 {
        return false;
    }
    for place in 0..alternatives.root.len() {
        if begins(schema, alternatives.root[place].ty, tag, nested - 1, left) {
            return true;
        }
    }
    for place in 0..alternatives.additions.len() {
        if begins(
            schema,
            alternatives.additions[place].ty,
            tag,
            nested - 1,
            left,
        ) {
            return true;
        }
    }
    false
}

/// The place of the first component, from this place on, that the tag can be the first one of.
fn component_from(
    schema: &Schema,
    components: &[Component],
    from: usize,
    tag: Tag,
    left: &mut usize,
) -> Option<usize> {
    for place in from..components.len() {
        if begins(schema, components[place].ty, tag, NESTED, left) {
            return Some(place);
        }
    }
    None
}

/// The components of a SEQUENCE or SET, and whether it is a SET.
pub(crate) fn components_of(core: &Core) -> Option<(&[Component], bool)> {
    match core {
        Core::Sequence(_, components) => Some((components.as_slice(), false)),
        Core::Set(_, components) => Some((components.as_slice(), true)),
        _ => None,
    }
}

/// Whether every value has the component.
pub(crate) fn is_mandatory(component: &Component) -> bool {
    match &component.presence {
        Presence::Mandatory => true,
        _ => false,
    }
}

/// A mark that is not set for each component.
fn no_marks(alloc: Global, count: usize) -> Result<Vec<bool>, AllocError> {
    let mut marks = Vec::new(alloc);
    for _ in 0..count {
        marks.push(false)?;
    }
    Ok(marks)
}

/// Sets the mark at a place.
fn set(marks: &mut Vec<bool>, place: usize) {
    if place < marks.len() {
        marks[place] = true;
    }
}

/// What contents octets have of a SEQUENCE or SET.
#[derive(Drop)]
pub(crate) struct PresentComponents {
    /// For each component whether its encoding is there.
    pub marks: Vec<bool>,
    /// Whether an encoding is that of no component, as an unknown addition.
    pub has_unknown: bool,
}

/// Finds the components whose encodings are in contents octets. The result is None if the search takes too long: if
/// many types are looked at for most headers, as the alternatives of untagged CHOICEs for unknown additions.
pub(crate) fn present(
    alloc: Global,
    schema: &Schema,
    components: &[Component],
    is_set: bool,
    contents: &[u8],
) -> Result<Option<PresentComponents>, AllocError> {
    let mut marks = no_marks(alloc, components.len())?;
    let mut left = contents.len().saturating_mul(EACH).saturating_add(BESIDES);
    let mut has_unknown = false;
    let mut start = 0;
    let mut from = 0;
    for _ in 0..contents.len() {
        let Some(header) = header_at(contents, start) else {
            break;
        };
        match component_from(schema, components, from, header.tag, &mut left) {
            Some(place) => {
                set(&mut marks, place);
                from = if is_set { 0 } else { place.saturating_add(1) };
            }
            None => has_unknown = true,
        }
        if left == 0 {
            return Ok(None);
        }
        start = after_contents(start, header);
    }
    Ok(Some(PresentComponents { marks, has_unknown }))
}

/// Whether a component is marked.
pub(crate) fn is_marked(marks: &[bool], place: usize) -> bool {
    match marks.get(place) {
        Some(mark) => *mark,
        None => false,
    }
}

/// The start of the contents octets of the first encoding, from `start` on, that doesn't end before an offset.
fn contents_to(octets: &[u8], start: usize, at: usize) -> Option<usize> {
    let mut start = start;
    for _ in 0..octets.len() {
        let Some(header) = header_at(octets, start) else {
            return None;
        };
        if after_contents(start, header) >= at {
            return Some(after_header(start, header));
        }
        start = after_contents(start, header);
    }
    None
}

/// The contents octets that end at an offset, within this many headers.
pub(crate) fn contents_ending(octets: &[u8], at: usize, levels: usize) -> Option<&[u8]> {
    let mut start = 0;
    for _ in 0..levels {
        match contents_to(octets, start, at) {
            Some(inner) => start = inner,
            None => return None,
        }
    }
    octets.get(start..at)
}

/// Adds the identifier of a component or alternative, as `component 'a'`. At most 60 characters of it are shown.
pub(crate) fn push_named(words: &mut String, kind: &str, name: &str) -> Result<(), AllocError> {
    words.push_str(kind)?;
    words.push_str(" '")?;
    let mut left = SHOWN;
    for c in name.chars() {
        if left == 0 {
            words.push_str("..")?;
            break;
        }
        words.push(c)?;
        left -= 1;
    }
    words.push_str("'")
}
