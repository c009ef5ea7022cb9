//! The component that a SEQUENCE or SET lacks (X.680, 25 and 27).

use crate::headers::part_at;
use crate::presence::{
    components_of, contents_ending, is_mandatory, is_marked, present, push_named,
};
use crate::site::Site;
use asn_base::schema::{Component, Presence, Resolved, Schema, TypeId};
use asn_base::tag::Tag;
use messages::Finding;
use std::alloc::{AllocError, Global};

/// The group in version brackets of a component, if it is in one.
fn group_of(component: &Component) -> Option<usize> {
    match &component.presence {
        Presence::Addition(addition) => addition.group,
        _ => None,
    }
}

/// Whether the component must be present if its group is.
fn is_needed(component: &Component) -> bool {
    match &component.presence {
        Presence::Addition(addition) => !addition.optional,
        _ => false,
    }
}

/// The place of the first mandatory component that is not marked.
fn unmarked(components: &[Component], marks: &[bool]) -> Option<usize> {
    for place in 0..components.len() {
        if is_mandatory(&components[place]) && !is_marked(marks, place) {
            return Some(place);
        }
    }
    None
}

/// The place of the first marked component of the group.
fn marked_in(components: &[Component], marks: &[bool], group: usize) -> Option<usize> {
    for place in 0..components.len() {
        if is_marked(marks, place) && group_of(&components[place]) == Some(group) {
            return Some(place);
        }
    }
    None
}

/// The first component that its group needs and that is not marked, after one of the group that is.
fn needed(components: &[Component], marks: &[bool]) -> Option<(usize, usize)> {
    for place in 0..components.len() {
        let component = &components[place];
        if is_needed(component) && !is_marked(marks, place) {
            if let Some(group) = group_of(component) {
                if let Some(other) = marked_in(components, marks, group) {
                    return Some((other, place));
                }
            }
        }
    }
    None
}

/// The contents octets of the SEQUENCE or SET that lacks a component.
fn contents_with<'a>(octets: &'a [u8], site: Site, tags: &[Tag]) -> Option<&'a [u8]> {
    match site.levels {
        Some(levels) => contents_ending(octets, site.at, levels),
        None => match part_at(octets, site.at, tags) {
            Some(contents) => Some(contents.octets),
            None => None,
        },
    }
}

/// A component by its identifier.
fn named(alloc: Global, components: &[Component], place: usize) -> Result<String, AllocError> {
    let mut words = String::new(alloc);
    match components.get(place) {
        Some(component) => push_named(&mut words, "component", component.name.as_str())?,
        None => push_named(&mut words, "component", "")?,
    }
    Ok(words)
}

/// The finding where contents end before a mandatory component.
fn of_end(
    alloc: Global,
    components: &[Component],
    marks: &[bool],
) -> Result<Option<Finding>, AllocError> {
    let Some(place) = unmarked(components, marks) else {
        return Ok(None);
    };
    Ok(Some(Finding {
        found: String::from_str(alloc, "the end of the contents")?,
        expected: named(alloc, components, place)?,
    }))
}

/// The finding where a group in version brackets has only a part of its additions.
fn of_group(
    alloc: Global,
    components: &[Component],
    marks: &[bool],
) -> Result<Option<Finding>, AllocError> {
    let Some((other, place)) = needed(components, marks) else {
        return Ok(None);
    };
    let mut found = named(alloc, components, other)?;
    found.push_str(" of a group in version brackets")?;
    let mut expected = named(alloc, components, place)?;
    expected.push_str(" of that group too")?;
    Ok(Some(Finding { found, expected }))
}

/// The finding for contents octets of a SEQUENCE or SET that lacks a component.
fn of_contents(
    alloc: Global,
    schema: &Schema,
    resolved: &Resolved,
    contents: &[u8],
    site: Site,
) -> Result<Option<Finding>, AllocError> {
    let Some((components, is_set)) = components_of(&*resolved.core) else {
        return Ok(None);
    };
    let Some(found) = present(alloc, schema, components, is_set, contents)? else {
        return Ok(None);
    };
    match site.levels {
        Some(_) => of_end(alloc, components, found.marks.as_slice()),
        None => of_group(alloc, components, found.marks.as_slice()),
    }
}

/// Returns which component a SEQUENCE or SET of type `ty` lacks in a message, in words. If reading stops in its
/// contents octets, these end before a mandatory component. If it stops at its first header, they have only a part of a
/// group in version brackets. The result is None if that can't be said. `AllocError`: an allocation failed.
pub fn missing(
    alloc: Global,
    schema: &Schema,
    ty: TypeId,
    octets: &[u8],
    site: Site,
) -> Result<Option<Finding>, AllocError> {
    let Some(resolved) = schema.types().get(ty.index) else {
        return Ok(None);
    };
    match contents_with(octets, site, resolved.tags.as_slice()) {
        Some(contents) => of_contents(alloc, schema, resolved, contents, site),
        None => Ok(None),
    }
}
