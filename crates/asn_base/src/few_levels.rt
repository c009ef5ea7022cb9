//! Whether a value that is known to be one of a type has few levels.

ghost use Rattle.asn_base.specs.Abstract.{abstract, row_of_list, row_of_options};
ghost use Rattle.asn_base.specs.Decided.{HoldsMembers, IsComponent};
ghost use Rattle.asn_base.specs.Seen.{component_of, kind_of};
ghost use Rattle.asn_base.specs.Typed.{AreComponents, AreElements, ValueIn};
ghost use Rattle.std.specs.Prelude.{◌↔◌, ℕ, IsTrue, map, option_map};

use crate::decide::{chosen_type, is_holder};
use crate::law::lemma_abstract_values;
use crate::schema::{Component, Core, Presence, TypeId, Types};
use crate::value::Value;

/// Whether a value of the type has at most `levels` levels. For an absent component its DEFAULT counts.
#[cycle(few)]
pub(crate) fn has_levels(value: &Value, types: &Types, levels: u8, id: TypeId) -> bool
    requires { (m : ℕ) × ValueIn types.now m id.index (abstract value.now) }
    ensures { IsTrue result ↔ ValueIn types.now levels id.index (abstract value.now) }
{
    if levels == 0 || !types.has(id) {
        return false;
    }
    let core: &Core = &types.get(id).core;
    if !is_holder(core) {
        return true;
    }
    hold_levels(core, value, types, levels - 1)
}

/// Whether the members of a value of this kind have at most `levels` levels each.
#[cycle(few)]
fn hold_levels(core: &Core, value: &Value, types: &Types, levels: u8) -> bool
    requires { (m : ℕ) × HoldsMembers types.now m (kind_of core.now) (abstract value.now) }
    ensures { IsTrue result ↔ HoldsMembers types.now levels (kind_of core.now) (abstract value.now) }
{
    lemma_abstract_values();
    match core {
        Core::Sequence(_, components) => match value {
            Value::Fields(values) => {
                have_levels(components.as_slice(), values.as_slice(), types, levels)
            }
            _ => false,
        },
        Core::Set(_, components) => match value {
            Value::Fields(values) => {
                have_levels(components.as_slice(), values.as_slice(), types, levels)
            }
            _ => false,
        },
        Core::SequenceOf(_, element) => match value {
            Value::List(values) => elements_have_levels(*element, values.as_slice(), types, levels),
            _ => false,
        },
        Core::SetOf(_, element) => match value {
            Value::List(values) => elements_have_levels(*element, values.as_slice(), types, levels),
            _ => false,
        },
        Core::Choice(alternatives) => match value {
            Value::Alt(index, inner) => match chosen_type(alternatives, *index) {
                Some(id) => has_levels(inner, types, levels, id),
                None => false,
            },
            _ => false,
        },
        _ => false,
    }
}

/// Whether the components of a value have at most `levels` levels each.
#[cycle(few)]
fn have_levels(
    components: &[Component],
    values: &[Option<Value>],
    types: &Types,
    levels: u8,
) -> bool
    requires { (m : ℕ) × AreComponents types.now m (map component_of components.now)
        (row_of_options (map (option_map abstract) values.now)) }
    ensures { IsTrue result
        ↔ AreComponents types.now levels (map component_of components.now)
        (row_of_options (map (option_map abstract) values.now)) }
{
    if components.len() != values.len() {
        return false;
    }
    for i in 0..components.len() {
        if !component_has_levels(&components[i], &values[i], types, levels) {
            return false;
        }
    }
    true
}

/// Whether a component, or its DEFAULT if it is absent, has at most `levels` levels.
#[cycle(few)]
fn component_has_levels(
    component: &Component,
    value: &Option<Value>,
    types: &Types,
    levels: u8,
) -> bool
    requires { (m : ℕ) × IsComponent types.now m (component_of component.now) (option_map abstract value.now) }
    ensures { IsTrue result
        ↔ IsComponent types.now levels (component_of component.now) (option_map abstract value.now) }
{
    match value {
        Some(value) => has_levels(value, types, levels, component.ty),
        None => match &component.presence {
            Presence::Default(default) => has_levels(default, types, levels, component.ty),
            Presence::Mandatory => false,
            Presence::Optional => true,
            Presence::Addition(_) => true,
        },
    }
}

/// Whether elements have at most `levels` levels each.
#[cycle(few)]
fn elements_have_levels(element: TypeId, values: &[Value], types: &Types, levels: u8) -> bool
    requires { (m : ℕ) × AreElements types.now m element.index (row_of_list (map abstract values.now)) }
    ensures { IsTrue result
        ↔ AreElements types.now levels element.index (row_of_list (map abstract values.now)) }
{
    for i in 0..values.len() {
        if !has_levels(&values[i], types, levels, element) {
            return false;
        }
    }
    true
}
