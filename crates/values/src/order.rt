//! Components that are missing, and components in another order than that of definition.

ghost use Rattle.std.specs.Prelude.{◌≡◌, ◌↔◌, ℕ, IsTrue, None, Some, false, length, map};
ghost use Rattle.names.specs.Modules.{AreDifferent};
ghost use Rattle.trees.specs.Values.{member_of};
ghost use Rattle.type_table.specs.Seen.{part_of};
ghost use Rattle.value_notations.specs.Notations.{field_names, may_lack_value as may_be_absent', part_names};
ghost use Rattle.value_notations.specs.Wrong.{AreIn};
ghost use Rattle.values.specs.proving.Arranging.{HasOther, IsDue, IsJumbledAt, IsMissingAt, IsMissingInGroupAt, group_in, needed_in as needed_in'};

use crate::lookup::component_of;
use trees::{Named, PresenceSyntax, Standing, ValueSyntax};
use type_table::ListMember;

/// Whether a component may be absent.
pub(crate) fn may_be_absent(component: &ListMember) -> bool
    ensures { result ≡ may_be_absent' (part_of component.now) }
{
    match component.standing {
        Standing::Addition(_) => match &component.presence {
            PresenceSyntax::Mandatory => true,
            PresenceSyntax::Optional => true,
            PresenceSyntax::Default(_) => true,
        },
        Standing::Root => match &component.presence {
            PresenceSyntax::Mandatory => false,
            PresenceSyntax::Optional => true,
            PresenceSyntax::Default(_) => true,
        },
    }
}

/// Whether a component that must be present has no field.
fn is_missing(component: &ListMember, place: Option<usize>) -> bool
    ensures { IsTrue result ↔ (place ≡ None) × (may_be_absent' (part_of component.now) ≡ false) }
{
    match place {
        Some(_) => false,
        None => !may_be_absent(component),
    }
}

/// The place of the first component that has no field, though it must be present, or None.
pub(crate) fn missing(components: &[ListMember], places: &[Option<usize>]) -> Option<usize>
    requires { length places.now ≡ length components.now }
    ensures { IsMissingAt (map part_of components.now) places.now result }
{
    for i in 0..components.len() {
        if is_missing(&components[i], places[i]) {
            return Some(i);
        }
    }
    None
}

/// The group of an addition, if it is in one.
fn group_of(component: &ListMember) -> Option<usize>
    ensures { result ≡ group_in (part_of component.now).standing }
{
    match component.standing {
        Standing::Root => None,
        Standing::Addition(group) => group,
    }
}

/// The group of an addition that must be present if another one of the group is.
fn needed_in(component: &ListMember) -> Option<usize>
    ensures { result ≡ needed_in' (part_of component.now).presence (part_of component.now).standing }
{
    match &component.presence {
        PresenceSyntax::Mandatory => group_of(component),
        PresenceSyntax::Optional => None,
        PresenceSyntax::Default(_) => None,
    }
}

/// Whether an addition of a group has a field.
fn is_of_group(group: usize, component: &ListMember, place: Option<usize>) -> bool
    ensures { IsTrue result
        ↔ ((field : ℕ) × (place ≡ Some field)) × (group_in (part_of component.now).standing ≡ Some group) }
{
    match place {
        None => false,
        Some(_) => match group_of(component) {
            None => false,
            Some(other) => other == group,
        },
    }
}

/// Whether one of the additions of a group has a field.
fn has_other(group: usize, components: &[ListMember], places: &[Option<usize>]) -> bool
    requires { length places.now ≡ length components.now }
    ensures { IsTrue result ↔ HasOther group (map part_of components.now) places.now }
{
    for i in 0..components.len() {
        if is_of_group(group, &components[i], places[i]) {
            return true;
        }
    }
    false
}

/// Whether a component must be present, since another one of its group is.
fn is_due(component: &ListMember, components: &[ListMember], places: &[Option<usize>]) -> bool
    requires { length places.now ≡ length components.now }
    ensures { IsTrue result ↔ IsDue (part_of component.now) (map part_of components.now) places.now }
{
    match needed_in(component) {
        None => false,
        Some(group) => has_other(group, components, places),
    }
}

/// Whether a component that has no field must be present, since another one of its group is.
fn is_lacking(
    component: &ListMember,
    place: Option<usize>,
    components: &[ListMember],
    places: &[Option<usize>],
) -> bool
    requires { length places.now ≡ length components.now }
    ensures { IsTrue result
        ↔ (place ≡ None) × IsDue (part_of component.now) (map part_of components.now) places.now }
{
    match place {
        Some(_) => false,
        None => is_due(component, components, places),
    }
}

/// The place of the first addition that has no field, though it must have one since another one of its group has, or
/// None.
pub(crate) fn missing_in_group(components: &[ListMember], places: &[Option<usize>]) -> Option<usize>
    requires { length places.now ≡ length components.now }
    ensures { IsMissingInGroupAt (map part_of components.now) places.now result }
{
    for i in 0..components.len() {
        if is_lacking(&components[i], places[i], components, places) {
            return Some(i);
        }
    }
    None
}

/// The place of the first field that comes directly after that of a later component, or None.
pub(crate) fn jumbled(components: &[ListMember], fields: &[Named<ValueSyntax>]) -> Option<usize>
    requires known { AreIn (field_names (map member_of fields.now)) (part_names (map part_of components.now)) }
    requires distinct { AreDifferent (field_names (map member_of fields.now)) }
    ensures { IsJumbledAt (part_names (map part_of components.now)) (field_names (map member_of fields.now)) result }
{
    let mut last = 0;
    for i in 0..fields.len() {
        match component_of(components, fields[i].name.it.as_str()) {
            None => return None,
            Some(place) => {
                if 0 < i && place < last {
                    return Some(i);
                }
                last = place;
            }
        }
    }
    None
}
