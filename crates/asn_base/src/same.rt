//! Whether two values of a type are the same (X.680, 22.7, 25.6 and 28).

ghost use Rattle.asn_base.specs.Abstract.{AbstractValue, abstract, alternative, row_of_list, row_of_options};
ghost use Rattle.asn_base.specs.Decided.{AlikeAt, AlikeChosen, Count, HasDefaultAlike, IsChosen, IsComponent, IsRarer};
ghost use Rattle.asn_base.specs.Same.{Alike, AlikeBy, AlikeComponents, AlikeElements, AlikeInAnyOrder, Same};
ghost use Rattle.asn_base.specs.Seen.{alternative_of, component_of, kind_of};
ghost use Rattle.asn_base.specs.Typed.{AreComponents, AreElements, IsValueWithoutNodes, ValueIn, ValueOf};
ghost use Rattle.std.specs.Prelude.{◌≡◌, ◌↔◌, ◌++◌, ◌≤◌, ℕ, IsTrue, None, length, map, option_map, take};

use crate::decide::{chosen_type, is_value_without_nodes};
use crate::flat::are_alike_leaves;
use crate::held::{elements_of, fields_of};
use crate::law::lemma_abstract_values;
use crate::schema::{Alternatives, Component, Core, Presence, Schema, TypeId};
use crate::value::Value;
use limits::MAX_LEVELS;

/// How two values are compared: by the types of a schema, and down to at most so many levels.
#[derive(Clone, Copy)]
struct Comparison<'s> {
    schema: &'s Schema,
    levels: u8,
}

/// Whether both values are of the type, except for the limit on nodes, and are the same. They are equal at every level,
/// except for the order in a SET OF, zeros at the end under named bits, and an absent component, which counts as its
/// DEFAULT. The function takes no memory. Two values of a SET OF with n members cost at most 3 * n * n / 2 comparisons
/// of two members, and none if their numbers of members differ. All other parts are compared once, and at most over the
/// length of the shorter one, except for zeros under named bits.
pub fn same(first: &Value, second: &Value, schema: &Schema, id: TypeId) -> bool
    ensures { IsTrue result ↔ Same schema.now id.index (abstract first.now) (abstract second.now) }
{
    let within = Comparison {
        schema,
        levels: MAX_LEVELS,
    };
    is_value_without_nodes(first, schema, id)
        && is_value_without_nodes(second, schema, id)
        && are_alike(first, second, within, id)
}

/// The same question for two values that are known to be of the type, which isn't decided again. A short value is
/// compared with a long DEFAULT in the time of the short one, except for zeros under named bits.
pub fn same_values(first: &Value, second: &Value, schema: &Schema, id: TypeId) -> bool
    requires first { IsValueWithoutNodes schema.now id.index (abstract first.now) }
    requires second { IsValueWithoutNodes schema.now id.index (abstract second.now) }
    ensures { IsTrue result ↔ Same schema.now id.index (abstract first.now) (abstract second.now) }
{
    let within = Comparison {
        schema,
        levels: MAX_LEVELS,
    };
    are_alike(first, second, within, id)
}

/// Whether two values of the type, each with at most `within.levels` levels, are alike.
#[cycle(alike)]
fn are_alike(first: &Value, second: &Value, within: Comparison<'_>, id: TypeId) -> bool
    ensures { ValueIn within.entry.schema.now within.entry.levels id.index (abstract first.now)
        → ValueIn within.entry.schema.now within.entry.levels id.index (abstract second.now)
        → (IsTrue result ↔ Alike within.entry.schema.now id.index (abstract first.now) (abstract second.now)) }
{
    if within.levels == 0 || !within.schema.has(id) {
        return false;
    }
    let core: &Core = &within.schema.get(id).core;
    let inside = Comparison {
        schema: within.schema,
        levels: within.levels - 1,
    };
    are_alike_by(core, first, second, inside)
}

/// Whether two values of the kind, whose members have at most `within.levels` levels, are alike.
#[cycle(alike)]
fn are_alike_by(core: &Core, first: &Value, second: &Value, within: Comparison<'_>) -> bool
    ensures { ValueOf within.entry.schema.now within.entry.levels (kind_of core.now) (abstract first.now)
        → ValueOf within.entry.schema.now within.entry.levels (kind_of core.now) (abstract second.now)
        → (IsTrue result
        ↔ AlikeBy within.entry.schema.now (kind_of core.now) (abstract first.now) (abstract second.now)) }
{
    match core {
        Core::Sequence(_, components) => are_alike_fields(
            components.as_slice(),
            fields_of(first),
            fields_of(second),
            within,
        ),
        Core::Set(_, components) => are_alike_fields(
            components.as_slice(),
            fields_of(first),
            fields_of(second),
            within,
        ),
        Core::SequenceOf(_, element) => are_alike_in_order(
            *element,
            elements_of(first),
            elements_of(second),
            within,
        ),
        Core::SetOf(_, element) => are_alike_in_any(
            *element,
            elements_of(first),
            elements_of(second),
            within,
        ),
        Core::Choice(alternatives) => are_alike_choices(alternatives, first, second, within),
        _ => are_alike_leaves(core, first, second),
    }
}

/// Whether two values of a CHOICE are alike.
#[cycle(alike)]
fn are_alike_choices(
    alternatives: &Alternatives,
    first: &Value,
    second: &Value,
    within: Comparison<'_>,
) -> bool
    ensures { (i j : ℕ) (v w : AbstractValue)
        → abstract first.now ≡ alternative i v
        → abstract second.now ≡ alternative j w
        → IsChosen within.entry.schema.now within.entry.levels
        (map alternative_of alternatives.now.root.items ++ map alternative_of alternatives.now.additions.items) i v
        → IsChosen within.entry.schema.now within.entry.levels
        (map alternative_of alternatives.now.root.items ++ map alternative_of alternatives.now.additions.items) j w
        → (IsTrue result
        ↔ (i ≡ j)
        × AlikeChosen within.entry.schema.now
        (map alternative_of alternatives.now.root.items ++ map alternative_of alternatives.now.additions.items)
        i v w) }
{
    lemma_abstract_values();
    match first {
        Value::Alt(index, one) => match second {
            Value::Alt(other_index, other) => {
                index == other_index && is_alike_chosen(alternatives, *index, one, other, within)
            }
            _ => false,
        },
        _ => false,
    }
}

/// Whether two values of an alternative are alike.
#[cycle(alike)]
fn is_alike_chosen(
    alternatives: &Alternatives,
    index: usize,
    first: &Value,
    second: &Value,
    within: Comparison<'_>,
) -> bool
    ensures { IsChosen within.entry.schema.now within.entry.levels
        (map alternative_of alternatives.now.root.items ++ map alternative_of alternatives.now.additions.items)
        index (abstract first.now)
        → IsChosen within.entry.schema.now within.entry.levels
        (map alternative_of alternatives.now.root.items ++ map alternative_of alternatives.now.additions.items)
        index (abstract second.now)
        → (IsTrue result
        ↔ AlikeChosen within.entry.schema.now
        (map alternative_of alternatives.now.root.items ++ map alternative_of alternatives.now.additions.items)
        index (abstract first.now) (abstract second.now)) }
{
    match chosen_type(alternatives, index) {
        Some(id) => are_alike(first, second, within, id),
        None => false,
    }
}

/// Whether the components of two values are alike.
#[cycle(alike)]
fn are_alike_fields(
    components: &[Component],
    first: &[Option<Value>],
    second: &[Option<Value>],
    within: Comparison<'_>,
) -> bool
    ensures { AreComponents within.entry.schema.now within.entry.levels (map component_of components.now)
        (row_of_options (map (option_map abstract) first.now))
        → AreComponents within.entry.schema.now within.entry.levels (map component_of components.now)
        (row_of_options (map (option_map abstract) second.now))
        → (IsTrue result
        ↔ AlikeComponents within.entry.schema.now (map component_of components.now)
        (row_of_options (map (option_map abstract) first.now))
        (row_of_options (map (option_map abstract) second.now))) }
{
    if components.len() != first.len() {
        return false;
    }
    if components.len() != second.len() {
        return false;
    }
    for i in 0..components.len() {
        if !are_alike_at(&components[i], &first[i], &second[i], within) {
            return false;
        }
    }
    true
}

/// Whether two values of a component are alike; an absent value counts as the component's default.
#[cycle(alike)]
fn are_alike_at(
    component: &Component,
    first: &Option<Value>,
    second: &Option<Value>,
    within: Comparison<'_>,
) -> bool
    ensures { IsComponent within.entry.schema.now within.entry.levels (component_of component.now)
        (option_map abstract first.now)
        → IsComponent within.entry.schema.now within.entry.levels (component_of component.now)
        (option_map abstract second.now)
        → (IsTrue result
        ↔ AlikeAt within.entry.schema.now (component_of component.now)
        (option_map abstract first.now)
        (option_map abstract second.now)) }
{
    match first {
        Some(one) => match second {
            Some(other) => are_alike(one, other, within, component.ty),
            None => is_default_alike(component, one, within),
        },
        None => match second {
            Some(other) => is_default_alike(component, other, within),
            None => true,
        },
    }
}

/// Whether the component has a default that is alike to the value.
#[cycle(alike)]
fn is_default_alike(component: &Component, value: &Value, within: Comparison<'_>) -> bool
    ensures { IsComponent within.entry.schema.now within.entry.levels (component_of component.now) None
        → ValueIn within.entry.schema.now within.entry.levels component.now.ty.index (abstract value.now)
        → (IsTrue result ↔ HasDefaultAlike within.entry.schema.now (component_of component.now) (abstract value.now)) }
{
    match &component.presence {
        Presence::Default(default) => are_alike(default, value, within, component.ty),
        _ => false,
    }
}

/// Whether the elements of two values are alike, each to the element at the same place.
#[cycle(alike)]
fn are_alike_in_order(
    element: TypeId,
    first: &[Value],
    second: &[Value],
    within: Comparison<'_>,
) -> bool
    ensures { AreElements within.entry.schema.now within.entry.levels element.index
        (row_of_list (map abstract first.now))
        → AreElements within.entry.schema.now within.entry.levels element.index
        (row_of_list (map abstract second.now))
        → (IsTrue result
        ↔ AlikeElements within.entry.schema.now element.index
        (row_of_list (map abstract first.now))
        (row_of_list (map abstract second.now))) }
{
    if first.len() != second.len() {
        return false;
    }
    for i in 0..first.len() {
        if !are_alike(&first[i], &second[i], within, element) {
            return false;
        }
    }
    true
}

/// Whether the elements of two values are alike, in any order. They are if the values have the same number of elements,
/// and each element of the first is alike to more elements of the second than there are such elements before it. So two
/// elements are compared at most once, at every level: the time doesn't double with each level.
#[cycle(alike)]
fn are_alike_in_any(
    element: TypeId,
    first: &[Value],
    second: &[Value],
    within: Comparison<'_>,
) -> bool
    ensures { AreElements within.entry.schema.now within.entry.levels element.index
        (row_of_list (map abstract first.now))
        → AreElements within.entry.schema.now within.entry.levels element.index
        (row_of_list (map abstract second.now))
        → (IsTrue result
        ↔ AlikeInAnyOrder within.entry.schema.now element.index
        (row_of_list (map abstract first.now))
        (row_of_list (map abstract second.now))) }
{
    if second.len() != first.len() {
        return false;
    }
    for i in 0..first.len() {
        if !is_rarer(element, &first[i], first_elements(first, i), second, within) {
            return false;
        }
    }
    true
}

/// The first elements, as many as `count` says.
fn first_elements(elements: &[Value], count: usize) -> &[Value]
    requires { count ≤ length elements.now }
    ensures { result.now ≡ take count elements.now }
{
    &elements[..count]
}

/// Whether the first list has fewer elements that are alike to the value than the second list has.
#[cycle(alike)]
fn is_rarer(
    element: TypeId,
    value: &Value,
    first: &[Value],
    second: &[Value],
    within: Comparison<'_>,
) -> bool
    ensures { ValueIn within.entry.schema.now within.entry.levels element.index (abstract value.now)
        → AreElements within.entry.schema.now within.entry.levels element.index (row_of_list (map abstract first.now))
        → AreElements within.entry.schema.now within.entry.levels element.index (row_of_list (map abstract second.now))
        → (IsTrue result
        ↔ IsRarer within.entry.schema.now element.index (abstract value.now)
        (row_of_list (map abstract first.now))
        (row_of_list (map abstract second.now))) }
{
    count(element, value, first, within) < count(element, value, second, within)
}

/// The number of elements that are alike to the value.
#[cycle(alike)]
fn count(element: TypeId, value: &Value, elements: &[Value], within: Comparison<'_>) -> usize
    ensures { ValueIn within.entry.schema.now within.entry.levels element.index (abstract value.now)
        → AreElements within.entry.schema.now within.entry.levels element.index
        (row_of_list (map abstract elements.now))
        → Count within.entry.schema.now element.index (abstract value.now)
        (row_of_list (map abstract elements.now)) result }
{
    let mut found = 0;
    for i in 0..elements.len() {
        if are_alike(value, &elements[i], within, element) {
            found += 1;
        }
    }
    found
}
