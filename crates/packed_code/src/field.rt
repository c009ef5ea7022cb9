//! The fields of a SEQUENCE or SET, in the order in which they are encoded (X.691, 19 and 21).

ghost use Rattle.asn_base.specs.Schemas as schemas;
ghost use Rattle.asn_base.specs.Seen.{component_of, presence_of, types_of};
ghost use Rattle.asn_base.specs.Typed as typed;
ghost use Rattle.packed_code.specs.Routines as routines;
ghost use Rattle.packed_code.specs.Placed.{AreTagged, placed_of};
ghost use Rattle.packed_code.specs.Runs.{is_member, run};
ghost use Rattle.packed_encodings.specs.Orders as orders;
ghost use Rattle.std.specs.Prelude.{◌≡◌, ◌≤◌, ◌∷◌, [], IfOk, MatchOption, drop, length, map};

use crate::step::PackedField;
use asn_base::schema::{Component, Presence, Resolved};
use std::alloc::{AllocError, Global};
use tag_places::{key_law, tagged_key};

/// A component, and its place in order of definition.
#[derive(Clone, Copy)]
pub(crate) struct Placed<'a> {
    pub place: usize,
    pub component: &'a Component,
}

fn has_bit(presence: &Presence) -> bool
    ensures { result ≡ orders.has_bit (presence_of presence.now) }
{
    match presence {
        Presence::Mandatory => false,
        Presence::Optional => true,
        Presence::Default(_) => true,
        Presence::Addition(addition) => addition.optional,
    }
}

fn has_default(presence: &Presence) -> bool
    ensures { result ≡ routines.has_default (presence_of presence.now) }
{
    match presence {
        Presence::Mandatory => false,
        Presence::Optional => false,
        Presence::Default(_) => true,
        Presence::Addition(_) => false,
    }
}

fn is_addition(component: &Component) -> bool
    ensures { result ≡ schemas.is_addition (component_of component.now) }
{
    match &component.presence {
        Presence::Mandatory => false,
        Presence::Optional => false,
        Presence::Default(_) => false,
        Presence::Addition(_) => true,
    }
}

/// The group of version brackets that a component is a member of, if any.
pub(crate) fn group_of(component: &Component) -> Option<usize>
    ensures { result ≡ typed.group_of (component_of component.now).presence }
{
    match &component.presence {
        Presence::Mandatory => None,
        Presence::Optional => None,
        Presence::Default(_) => None,
        Presence::Addition(addition) => addition.group,
    }
}

pub(crate) fn field(placed: Placed<'_>) -> PackedField
    ensures { result ≡ routines.field_at (placed_of placed.entry) }
{
    let component = placed.component;
    PackedField {
        place: placed.place,
        with_bit: has_bit(&component.presence),
        with_default: has_default(&component.presence),
        ty: component.ty,
    }
}

/// The components of the root, in order of definition.
pub(crate) fn root_of<'a>(
    alloc: Global,
    components: &'a [Component],
) -> Result<Vec<Placed<'a>>, AllocError>
    ensures { IfOk result (λ v. map placed_of v.items
        ≡ orders.root_members (routines.placed_from 0 (map component_of components.now))) }
{
    let mut root = Vec::new(alloc);
    for place in 0..components.len() {
        let component = &components[place];
        if !is_addition(component) {
            root.push(Placed { place, component })?;
        }
    }
    Ok(root)
}

/// The additions, in order of definition.
pub(crate) fn past_marker<'a>(
    alloc: Global,
    components: &'a [Component],
) -> Result<Vec<Placed<'a>>, AllocError>
    ensures { IfOk result (λ v. map placed_of v.items
        ≡ orders.past_marker (routines.placed_from 0 (map component_of components.now))) }
{
    let mut additions = Vec::new(alloc);
    for place in 0..components.len() {
        let component = &components[place];
        if is_addition(component) {
            additions.push(Placed { place, component })?;
        }
    }
    Ok(additions)
}

/// The first of some components, and those after it.
pub(crate) fn first_of<'a, 'b>(placed: &'b [Placed<'a>]) -> Option<(Placed<'a>, &'b [Placed<'a>])>
    ensures { MatchOption result (placed.now ≡ []) (λ p. placed.now ≡ p.0 ∷ p.1.now) }
{
    if placed.is_empty() {
        None
    } else {
        Some((placed[0], &placed[1..]))
    }
}

/// The components after the first `count` ones.
pub(crate) fn after<'a, 'b>(placed: &'b [Placed<'a>], count: usize) -> &'b [Placed<'a>]
    requires { count ≤ length placed.now }
    ensures { result.now ≡ drop count placed.now }
{
    &placed[count..]
}

/// The components in the canonical order of their tags (X.680, 8.6). For n components the time grows as n times log n.
pub(crate) fn in_order<'a>(
    alloc: Global,
    types: &[Resolved],
    root: &[Placed<'a>],
) -> Result<Vec<Placed<'a>>, AllocError>
    requires { AreTagged (types_of types.now) (map placed_of root.now) }
    ensures { IfOk result (λ v. map placed_of v.items
        ≡ orders.canonical (types_of types.now) (map placed_of root.now)) }
{
    key_law();
    let mut sorted = Vec::from_slice(alloc, root)?;
    sorted.sort_by_key(|placed| tagged_key(types, placed.component.ty))?;
    Ok(sorted)
}

/// Whether the component is a member of the group.
fn is_of_group(group: usize, component: &Component) -> bool
    ensures { result ≡ is_member group (component_of component.now) }
{
    match group_of(component) {
        None => false,
        Some(other) => group == other,
    }
}

/// How many of these components, from the first on, are members of the group.
pub(crate) fn run_of(group: usize, placed: &[Placed<'_>]) -> usize
    ensures at_most { result ≤ length placed.now }
    ensures is { result ≡ run group (map placed_of placed.now) }
{
    let Some((first, following)) = first_of(placed) else {
        return 0;
    };
    if is_of_group(group, first.component) {
        run_of(group, following) + 1
    } else {
        0
    }
}
