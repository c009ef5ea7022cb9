//! Compares components (X.680, 25 and 27).

ghost use Rattle.std.specs.Prelude.{◌≡◌, ◌↔◌, ◌≤◌, ◌<◌, ℕ, false, IsTrue, IfOk, MatchOption, Some, length, map};
ghost use Rattle.std.specs.Prelude.{slice_get};
ghost use Rattle.asn_base.specs.Abstract.{abstract};
ghost use Rattle.asn_base.specs.Same.{Same};
ghost use Rattle.asn_base.specs.Schemas.{is_addition as is_addition', GroupsTogether};
ghost use Rattle.asn_base.specs.Seen.{component_of, presence_of};
ghost use Rattle.asn_base.specs.Typed.{group_of};
ghost use Rattle.asn_base.specs.Types.{Component as Component'};
ghost use Rattle.later_versions.specs.Differences.{AreAdditions, ComponentDiffers, ComponentsDiffer, PresenceDiffers};
ghost use Rattle.later_versions.specs.Projected.{projected, left_out};
ghost use Rattle.later_versions.specs.Later.{AreInOneGroup, AreLater, IsFront, IsMarkedAlike, IsSameComponent};
ghost use Rattle.later_versions.specs.proving.Groups.{AreOfOne, AreJoined, HaveOtherGroups, HaveSameGroups};

use crate::projection::project;
use crate::reason::Reason;
use asn_base::same::same;
use asn_base::schema::{Component, Presence, Schema, TypeId};
use asn_base::value::Value;
use std::alloc::{AllocError, Global};

/// Whether the appended components are absent in the later default, and it is the same as the earlier one without them.
fn has_same_default(
    alloc: Global,
    schema: &Schema,
    id: TypeId,
    value: &Value,
    later: &Value,
) -> Result<bool, AllocError>
    ensures { IfOk result (λ b. IsTrue b
        ↔ ((left_out schema.now id.index (abstract later.now) ≡ 0)
        × Same schema.now id.index (abstract value.now) (projected schema.now id.index (abstract later.now)))) }
{
    match project(alloc, schema, id, later) {
        Ok(Some(known)) => Ok(same(value, &known, schema, id)),
        Ok(None) => Ok(false),
        Err(fault) => Err(fault),
    }
}

/// What differs in the presence of two components at a place, or None if both have the same kind of presence.
fn other_presence(
    alloc: Global,
    schema: &Schema,
    place: usize,
    one: &Component,
    other: &Component,
) -> Result<Option<Reason>, AllocError>
    ensures { IfOk result (λ o. MatchOption o
        (IsMarkedAlike schema.now one.now.ty.index (presence_of one.now.presence) (presence_of other.now.presence))
        (PresenceDiffers schema.now one.now.ty.index place
        (presence_of one.now.presence) (presence_of other.now.presence))) }
{
    match &one.presence {
        Presence::Mandatory => match &other.presence {
            Presence::Mandatory => Ok(None),
            _ => Ok(Some(Reason::Presence(place))),
        },
        Presence::Optional => match &other.presence {
            Presence::Optional => Ok(None),
            _ => Ok(Some(Reason::Presence(place))),
        },
        Presence::Default(value) => match &other.presence {
            Presence::Default(later) => match has_same_default(
                alloc, schema, one.ty, value, later,
            ) {
                Ok(true) => Ok(None),
                Ok(false) => Ok(Some(Reason::Default(place))),
                Err(fault) => Err(fault),
            },
            _ => Ok(Some(Reason::Presence(place))),
        },
        Presence::Addition(addition) => match &other.presence {
            Presence::Addition(later) => {
                if addition.optional == later.optional {
                    return Ok(None);
                }
                Ok(Some(Reason::Presence(place)))
            }
            _ => Ok(Some(Reason::Presence(place))),
        },
    }
}

/// Whether two components have the same name.
fn have_same_name(one: &Component, other: &Component) -> bool
    ensures { IsTrue result ↔ ((component_of one.now).name ≡ (component_of other.now).name) }
{
    one.name.as_bytes() == other.name.as_bytes()
}

/// What differs in two components at a place, or None if they are the same in their name and their presence.
fn other_component(
    alloc: Global,
    schema: &Schema,
    place: usize,
    one: &Component,
    other: &Component,
) -> Result<Option<Reason>, AllocError>
    ensures { IfOk result (λ o. MatchOption o
        (IsSameComponent schema.now (component_of one.now) (component_of other.now))
        (ComponentDiffers schema.now place (component_of one.now) (component_of other.now))) }
{
    if !have_same_name(one, other) {
        return Ok(Some(Reason::Name(place)));
    }
    other_presence(alloc, schema, place, one, other)
}

/// What differs at the first component that the others lack or have as another one, or None if they begin with these.
fn first_other(
    alloc: Global,
    schema: &Schema,
    components: &[Component],
    others: &[Component],
) -> Result<Option<Reason>, AllocError>
    ensures { IfOk result (λ o. MatchOption o
        (IsFront (IsSameComponent schema.now) (map component_of components.now) (map component_of others.now))
        (ComponentsDiffer schema.now (map component_of components.now) (map component_of others.now))) }
{
    for i in 0..components.len() {
        if i >= others.len() {
            return Ok(Some(Reason::Removed(i)));
        }
        match other_component(alloc, schema, i, &components[i], &others[i]) {
            Ok(None) => {}
            Ok(Some(reason)) => return Ok(Some(reason)),
            Err(fault) => return Err(fault),
        }
    }
    Ok(None)
}

/// Whether the component comes after the extension marker.
fn is_addition(component: &Component) -> bool
    ensures { result ≡ is_addition' (component_of component.now) }
{
    match &component.presence {
        Presence::Addition(_) => true,
        _ => false,
    }
}

/// The place of the first component from a place on that doesn't come after the extension marker, if there is one.
fn first_of_root(components: &[Component], from: usize) -> Option<usize>
    ensures { MatchOption result
        (AreAdditions (map component_of components.now) from (length components.now))
        (λ i. (from ≤ i) × AreAdditions (map component_of components.now) from i × (d : Component')
        × (slice_get (map component_of components.now) i ≡ Some d) × (is_addition' d ≡ false)) }
{
    for i in from..components.len() {
        if !is_addition(&components[i]) {
            return Some(i);
        }
    }
    None
}

/// The group of a component, or None if it isn't in version brackets.
fn group(component: &Component) -> Option<usize>
    ensures { result ≡ group_of (presence_of component.now.presence) }
{
    match &component.presence {
        Presence::Addition(addition) => addition.group,
        _ => None,
    }
}

/// Whether two components are in one group.
fn are_of_one(one: &Component, other: &Component) -> bool
    ensures { IsTrue result ↔ AreOfOne (component_of one.now) (component_of other.now) }
{
    match (group(one), group(other)) {
        (Some(one), Some(other)) => one == other,
        _ => false,
    }
}

/// Whether the component at a place is in one group with the one before it.
fn is_joined(components: &[Component], place: usize) -> bool
    ensures { IsTrue result ↔ AreJoined (map component_of components.now) place }
{
    if place == 0 {
        return false;
    }
    if place >= components.len() {
        return false;
    }
    are_of_one(&components[place - 1], &components[place])
}

/// Whether the component at a place is in a group.
fn is_grouped(components: &[Component], place: usize) -> bool
    requires { place < length components.now }
    ensures { IsTrue result ↔ AreInOneGroup (map component_of components.now) place place }
{
    are_of_one(&components[place], &components[place])
}

/// The first place where groups differ among the first components, or the place after them if a group goes on there.
fn other_groups(components: &[Component], others: &[Component]) -> Option<usize>
    requires { length components.now ≤ length others.now }
    ensures { MatchOption result
        (HaveSameGroups (map component_of components.now) (map component_of others.now))
        (λ i. HaveOtherGroups (map component_of components.now) (map component_of others.now) i) }
{
    for i in 0..components.len() {
        if is_grouped(components, i) != is_grouped(others, i) {
            return Some(i);
        }
        if is_joined(components, i) != is_joined(others, i) {
            return Some(i);
        }
    }
    if is_joined(others, components.len()) {
        return Some(components.len());
    }
    None
}

/// What differs in lists of components, or None if the others are these components, followed by appended ones.
/// `AllocError` comes only if an allocation fails.
pub(crate) fn other_components(
    alloc: Global,
    schema: &Schema,
    components: &[Component],
    others: &[Component],
) -> Result<Option<Reason>, AllocError>
    requires first { GroupsTogether (map component_of components.now) }
    requires second { GroupsTogether (map component_of others.now) }
    ensures { IfOk result (λ o. MatchOption o
        (AreLater schema.now (map component_of components.now) (map component_of others.now))
        (ComponentsDiffer schema.now (map component_of components.now) (map component_of others.now))) }
{
    match first_other(alloc, schema, components, others) {
        Ok(None) => {}
        Ok(Some(reason)) => return Ok(Some(reason)),
        Err(fault) => return Err(fault),
    }
    if let Some(place) = first_of_root(others, components.len()) {
        return Ok(Some(Reason::Appended(place)));
    }
    match other_groups(components, others) {
        Some(place) => Ok(Some(Reason::Brackets(place))),
        None => Ok(None),
    }
}
