//! Whether groups of additions are whole (X.680, 25).

ghost use Rattle.asn_base.specs.Abstract.{placed, row_of_options};
ghost use Rattle.asn_base.specs.Decided.{IsDue, IsPresentOf};
ghost use Rattle.asn_base.specs.Seen.{component_of, presence_of};
ghost use Rattle.asn_base.specs.Typed.{HasOfGroup, group_of};
ghost use Rattle.asn_base.specs.Types.{addition};
ghost use Rattle.std.specs.Prelude.{◌≡◌, ◌≤◌, ◌↔◌, ℕ, IsTrue, Some, false, length, map, option_map};

use crate::node::ValueNode;
use crate::schema::{Component, Presence};

/// The group of a component, or None if it is in no group.
#[inline(always)]
pub(crate) fn group(presence: &Presence) -> Option<usize>
    ensures { result ≡ group_of (presence_of presence.now) }
{
    match presence {
        Presence::Addition(addition) => addition.group,
        _ => None,
    }
}

/// Whether a component of this presence is in the group.
#[inline(always)]
fn is_of_group(presence: &Presence, number: usize) -> bool
    ensures { IsTrue result ↔ (group_of (presence_of presence.now) ≡ Some number) }
{
    match group(presence) {
        Some(other) => other == number,
        None => false,
    }
}

/// The group in which a component of this presence must be present if another one is. The result is None if the
/// component is in no group, or is OPTIONAL.
#[inline(always)]
fn due_group(presence: &Presence) -> Option<usize>
    ensures { (g : ℕ) → (result ≡ Some g ↔ (presence_of presence.now ≡ addition false (Some g))) }
{
    match presence {
        Presence::Addition(addition) => {
            if addition.optional {
                None
            } else {
                addition.group
            }
        }
        _ => None,
    }
}

/// Whether a component of the group is present. The function looks for those of the group alone.
fn has_of_group<N: ValueNode>(number: usize, components: &[Component], fields: &N::Fields) -> bool
    requires { length components.now ≤ 4294967295 }
    ensures { IsTrue result
        ↔ HasOfGroup number (map component_of components.now)
        (row_of_options (placed (length components.now) (λ i. N.part_at fields.now i))) }
{
    let mut left = N::fields_again(fields);
    for i in 0..components.len() {
        if is_of_group(&components[i].presence, number) {
            if let Some(_) = N::take_component(&mut left, i as u32) {
                return true;
            }
        }
    }
    false
}

/// Whether no other component of this component's group is present, if this one is absent and must be present with the
/// others. If this holds for each component, all groups are whole. For an absent component the function reads all
/// components once, and looks for those of the group.
#[inline(always)]
pub(crate) fn is_kept<N: ValueNode>(
    component: &Component,
    found: &Option<N>,
    components: &[Component],
    fields: &N::Fields,
) -> bool
    requires { length components.now ≤ 4294967295 }
    ensures { IsTrue result
        ↔ ((g : ℕ)
        → IsDue g (component_of component.now) (option_map N.value_of found.now)
        → HasOfGroup g (map component_of components.now)
        (row_of_options (placed (length components.now) (λ i. N.part_at fields.now i)))
        → ⊥) }
{
    match found {
        Some(_) => true,
        None => match due_group(&component.presence) {
            Some(number) => !has_of_group::<N>(number, components, fields),
            None => true,
        },
    }
}
