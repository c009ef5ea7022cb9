//! Whether a value is one of the values of a type.

ghost use Rattle.asn_base.specs.Abstract.{AbstractValue, abstract, placed, row_of_options};
ghost use Rattle.asn_base.specs.Decided.{HasComponent, HoldsMembers, IsChosen, IsComponent, nodes_of};
ghost use Rattle.asn_base.specs.Depths.{AreKnown, AreOf, IsDepth, IsOf, IsReady, depth_at, rows_of};
ghost use Rattle.asn_base.specs.Schemas.{HasValue};
ghost use Rattle.asn_base.specs.Seen.{alternative_of, component_of, constraint_of, kind_of};
ghost use Rattle.asn_base.specs.Typed.{AreComponents, AreElements, GroupsAreWhole, IsAllowedSize, IsPrimitive, IsValue, IsValueWithoutNodes, ValueIn, members, nodes, row_nodes};
ghost use Rattle.asn_base.specs.Types.{Alternative, Component as Component', Resolved};
ghost use Rattle.std.specs.Prelude.{◌≡◌, ◌<◌, ◌≤◌, ◌↔◌, ◌++◌, ◌-◌, ℕ, IfSome, IsTrue, List, MatchOption, None};
ghost use Rattle.std.specs.Prelude.{Some, false, length, map, option_map, slice_get};

use crate::allowed::{allows_all_sizes, is_allowed_size};
use crate::constraint::Constraint;
use crate::depths::{ComponentSite, KnownTypes, depth_of};
use crate::few_levels::has_levels;
use crate::groups::is_kept;
use crate::leaf::{fits, fits_at_once};
use crate::node::{ValueKind, ValueNode};
use crate::schema::{
    Alternatives, Component, Core, Presence, Schema, TypeId, Types, components_of,
};
use crate::value::Value;
use limits::{MAX_LEVELS, MAX_NODES};

/// The components of a type.
#[derive(Clone, Copy)]
struct ComponentsOf<'a> {
    id: TypeId,
    components: &'a [Component],
}

/// Whether the value is one of the type `id`: shape, constraints, items, named bits, alphabets, groups of additions, at
/// most 64 levels and at most 2^24 nodes. The answer is false if the schema lacks the type. The function takes no
/// memory.
pub fn is_value(value: &Value, schema: &Schema, id: TypeId) -> bool
    ensures { IsTrue result ↔ IsValue schema.now id.index (abstract value.now) }
{
    let kept = schema.kept();
    is_value_of(value, kept, kept.depths(), id)
}

/// The same question for types that may be no schema.
pub(crate) fn is_value_of(
    value: &Value,
    types: &Types,
    depths: &Option<Vec<Vec<u8>>>,
    id: TypeId,
) -> bool
    requires known { AreKnown types.now 63 depths.now }
    requires ready { IsReady types.now depths.now }
    ensures { IsTrue result ↔ IsValue types.now id.index (abstract value.now) }
{
    let mut left = MAX_NODES + 1;
    let known = KnownTypes {
        types,
        depths,
        levels: MAX_LEVELS,
    };
    is_judged(&value, known, id, &mut left) && left > 0
}

/// Whether the value is one of the type, except for the limit on nodes. The value may have any depth: levels below the
/// 64th aren't looked at.
pub fn is_value_without_nodes(value: &Value, schema: &Schema, id: TypeId) -> bool
    ensures { IsTrue result ↔ IsValueWithoutNodes schema.now id.index (abstract value.now) }
{
    is_shown_value(&value, schema, id)
}

/// The same as `is_value_without_nodes`, for a value that memory holds in any form. The call takes no memory, and its
/// time grows with the nodes.
pub fn is_shown_value<N: ValueNode>(node: &N, schema: &Schema, id: TypeId) -> bool
    ensures { IsTrue result ↔ IsValueWithoutNodes schema.now id.index (N.value_of node.now) }
{
    let kept = schema.kept();
    let known = KnownTypes {
        types: kept,
        depths: kept.depths(),
        levels: MAX_LEVELS,
    };
    is_within(node, known, id)
}

/// Whether the component at this place of the type may be absent from a value whose parts have at most `levels` levels:
/// it is not mandatory, and its DEFAULT, if it has one, has at most so many levels. The function takes constant time
/// once `Schema::cache_default_depths` has found the levels of the defaults.
pub fn may_be_absent(schema: &Schema, id: TypeId, place: usize, levels: u8) -> bool
    requires there { (c : Component') × HasComponent schema.now id.index place c }
    requires few { levels ≤ 63 }
    ensures { (c : Component')
        → HasComponent schema.now id.index place c
        → (IsTrue result ↔ IsComponent schema.now levels c None) }
{
    let component = &components_of(schema.core(id))[place];
    let kept = schema.kept();
    let known = KnownTypes {
        types: kept,
        depths: kept.depths(),
        levels,
    };
    may_lack(component, known, ComponentSite { id, place })
}

/// Whether the value is one of the type with at most `known.levels` levels, except for the limit on nodes.
pub(crate) fn is_within<N: ValueNode>(node: &N, known: KnownTypes<'_>, id: TypeId) -> bool
    requires known { AreKnown known.types.now (known.levels - 1) known.depths.now }
    requires ready { IsReady known.types.now known.depths.now }
    ensures { IsTrue result ↔ ValueIn known.entry.types.now known.entry.levels id.index (N.value_of node.now) }
{
    let mut left = 0;
    is_judged(node, known, id, &mut left)
}

/// Whether the value is one of the type with at most `known.levels` levels. If it is, its number of nodes is subtracted
/// from `left`, which becomes 0 if the value has as many or more.
#[cycle(within)]
#[inline(always)]
fn is_judged<N: ValueNode>(node: &N, known: KnownTypes<'_>, id: TypeId, left: &mut u32) -> bool
    requires known { AreKnown known.types.now (known.levels - 1) known.depths.now }
    requires ready { IsReady known.types.now known.depths.now }
    ensures is { IsTrue result ↔ ValueIn known.entry.types.now known.entry.levels id.index (N.value_of node.now) }
    ensures nodes { IsTrue result → left.new ≡ left.old - nodes (N.value_of node.now) }
{
    if known.levels == 0 || !known.types.has(id) {
        return false;
    }
    let core: &Core = &known.types.get(id).core;
    if fits_at_once(core, node) {
        *left = left.saturating_sub(1);
        return true;
    }
    is_any(node, known, id, left)
}

/// Whether values of the kind hold other values.
#[inline(always)]
pub(crate) fn is_holder(core: &Core) -> bool
    ensures holder { IsTrue result → (v : AbstractValue) → IsPrimitive (kind_of core.now) v → ⊥ }
    ensures leaf { result ≡ false
        → (s : List Resolved) (n : ℕ) (v : AbstractValue)
        → HoldsMembers s n (kind_of core.now) v
        → ⊥ }
{
    match core {
        Core::Sequence(_, _) | Core::Set(_, _) => true,
        Core::SequenceOf(_, _) | Core::SetOf(_, _) | Core::Choice(_) => true,
        _ => false,
    }
}

/// The same question for a type that the schema has, of any kind.
#[cycle(within)]
fn is_any<N: ValueNode>(node: &N, known: KnownTypes<'_>, id: TypeId, left: &mut u32) -> bool
    requires some { 0 < known.levels }
    requires has { id.index < length known.types.now }
    requires known { AreKnown known.types.now (known.levels - 1) known.depths.now }
    requires ready { IsReady known.types.now known.depths.now }
    ensures is { IsTrue result ↔ ValueIn known.entry.types.now known.entry.levels id.index (N.value_of node.now) }
    ensures nodes { IsTrue result → left.new ≡ left.old - nodes (N.value_of node.now) }
{
    *left = left.saturating_sub(1);
    let core: &Core = &known.types.get(id).core;
    if is_holder(core) {
        let inside = KnownTypes {
            types: known.types,
            depths: known.depths,
            levels: known.levels - 1,
        };
        holds(core, node, inside, id, left)
    } else {
        fits(core, node)
    }
}

/// Whether the value is one of a kind that holds other values, each with at most `known.levels` levels. Their number of
/// nodes is subtracted from `left`.
#[cycle(within)]
#[inline(always)]
fn holds<N: ValueNode>(
    core: &Core,
    node: &N,
    known: KnownTypes<'_>,
    id: TypeId,
    left: &mut u32,
) -> bool
    requires known { AreKnown known.types.now known.levels known.depths.now }
    requires ready { IsReady known.types.now known.depths.now }
    requires of { IsOf known.types.now id.index (kind_of core.now) }
    ensures is { IsTrue result
        ↔ HoldsMembers known.entry.types.now known.entry.levels (kind_of core.now) (N.value_of node.now) }
    ensures nodes { IsTrue result → left.new ≡ left.old - (nodes (N.value_of node.now) - 1) }
{
    match core {
        Core::Sequence(_, components) | Core::Set(_, components) => match node.kind() {
            ValueKind::Fields(size, fields) => {
                let listed = ComponentsOf {
                    id,
                    components: components.as_slice(),
                };
                are_fields::<N>(listed, size, fields, known, left)
            }
            _ => false,
        },
        Core::SequenceOf(size, element) | Core::SetOf(size, element) => match node.kind() {
            ValueKind::List(elements) => are_elements::<N>(size, *element, elements, known, left),
            _ => false,
        },
        Core::Choice(alternatives) => match node.kind() {
            ValueKind::Alternative(index, inner) => is_chosen(
                alternatives,
                index,
                &inner,
                known,
                left,
            ),
            _ => false,
        },
        _ => false,
    }
}

/// Whether these are the components of a value in a row of `size` places, with groups that are whole.
#[cycle(within)]
#[inline(always)]
fn are_fields<N: ValueNode>(
    listed: ComponentsOf<'_>,
    size: usize,
    fields: N::Fields,
    known: KnownTypes<'_>,
    left: &mut u32,
) -> bool
    requires known { AreKnown known.types.now known.levels known.depths.now }
    requires ready { IsReady known.types.now known.depths.now }
    requires of { AreOf known.types.now listed.id.index (map component_of listed.components.now) }
    ensures is { let row = row_of_options (placed size (λ i. N.part_at fields i)) in
        IsTrue result
        ↔ AreComponents known.entry.types.now known.entry.levels (map component_of listed.entry.components.now) row
        × GroupsAreWhole (map component_of listed.entry.components.now) row }
    ensures nodes { IsTrue result
        → left.new ≡ left.old - row_nodes (row_of_options (placed size (λ i. N.part_at fields i))) }
{
    if listed.components.len() != size {
        return false;
    }
    are_components::<N>(listed.components, fields, known, listed.id, left)
}

/// Whether these are the components of a value, as many as the value has places, with groups that are whole.
#[cycle(within)]
#[inline(always)]
fn are_components<N: ValueNode>(
    components: &[Component],
    fields: N::Fields,
    known: KnownTypes<'_>,
    id: TypeId,
    left: &mut u32,
) -> bool
    requires known { AreKnown known.types.now known.levels known.depths.now }
    requires ready { IsReady known.types.now known.depths.now }
    requires few { length components.now ≤ 4294967295 }
    requires of { AreOf known.types.now id.index (map component_of components.now) }
    ensures is { let row = row_of_options (placed (length components.now) (λ i. N.part_at fields i)) in
        IsTrue result
        ↔ AreComponents known.entry.types.now known.entry.levels (map component_of components.now) row
        × GroupsAreWhole (map component_of components.now) row }
    ensures nodes { IsTrue result
        → left.new
        ≡ left.old - row_nodes (row_of_options (placed (length components.now) (λ i. N.part_at fields i))) }
{
    let mut rest = N::fields_again(&fields);
    for i in 0..components.len() {
        let component = &components[i];
        let found = N::take_component(&mut rest, i as u32);
        let site = ComponentSite { id, place: i };
        if !is_component(component, &found, known, site, left) {
            return false;
        }
        if !is_kept::<N>(component, &found, components, &fields) {
            return false;
        }
    }
    true
}

/// Whether the value is one of the component at this place, or is absent where the component may be absent.
#[cycle(within)]
#[inline(always)]
pub(crate) fn is_component<N: ValueNode>(
    component: &Component,
    found: &Option<N>,
    known: KnownTypes<'_>,
    site: ComponentSite,
    left: &mut u32,
) -> bool
    requires known { AreKnown known.types.now known.levels known.depths.now }
    requires ready { IsReady known.types.now known.depths.now }
    requires depth { IfSome (option_map (λ v. depth_at (rows_of v.items) site.id.index site.place) known.depths.now)
        (IsDepth known.types.now known.levels (component_of component.now)) }
    requires value { known.depths.now ≡ None → HasValue known.types.now (component_of component.now) }
    ensures is { IsTrue result
        ↔ IsComponent known.entry.types.now known.entry.levels (component_of component.now)
        (option_map N.value_of found.now) }
    ensures nodes { IsTrue result → left.new ≡ left.old - nodes_of (option_map N.value_of found.now) }
{
    match found {
        Some(node) => is_judged(node, known, component.ty, left),
        None => may_lack(component, known, site),
    }
}

/// Whether the component at this place may be absent: its DEFAULT, if it has one, has at most `known.levels` levels.
#[inline(always)]
fn may_lack(component: &Component, known: KnownTypes<'_>, site: ComponentSite) -> bool
    requires depth { IfSome (option_map (λ v. depth_at (rows_of v.items) site.id.index site.place) known.depths.now)
        (IsDepth known.types.now known.levels (component_of component.now)) }
    requires value { known.depths.now ≡ None → HasValue known.types.now (component_of component.now) }
    ensures { IsTrue result ↔ IsComponent known.entry.types.now known.entry.levels (component_of component.now) None }
{
    match &component.presence {
        Presence::Mandatory => false,
        Presence::Optional => true,
        Presence::Default(default) => match depth_of(known.depths, site.id, site.place) {
            Some(least) => least <= known.levels,
            None => has_levels(default, known.types, known.levels, component.ty),
        },
        Presence::Addition(_) => true,
    }
}

/// Whether the number of these elements is allowed. They are counted only if the constraint doesn't allow all sizes.
#[inline(always)]
fn has_allowed_count<N: ValueNode>(size: &Constraint, elements: &N::Elements) -> bool
    ensures { IsTrue result ↔ IsAllowedSize (constraint_of size.now) (members (N.row_of elements.now)) }
{
    allows_all_sizes(size) || is_allowed_size(size, N::element_count(elements) as u128)
}

/// Whether these are the elements of a value, and their number is allowed.
#[cycle(within)]
fn are_elements<N: ValueNode>(
    size: &Constraint,
    element: TypeId,
    elements: N::Elements,
    known: KnownTypes<'_>,
    left: &mut u32,
) -> bool
    requires known { AreKnown known.types.now known.levels known.depths.now }
    requires ready { IsReady known.types.now known.depths.now }
    ensures is { IsTrue result
        ↔ AreElements known.entry.types.now known.entry.levels element.index (N.row_of elements)
        × IsAllowedSize (constraint_of size.now) (members (N.row_of elements)) }
    ensures nodes { IsTrue result → left.new ≡ left.old - row_nodes (N.row_of elements) }
{
    if !has_allowed_count::<N>(size, &elements) {
        return false;
    }
    let mut rest = elements;
    while let Some(node) = N::next_element(&mut rest) {
        if !is_judged(&node, known, element, left) {
            return false;
        }
    }
    true
}

/// Whether the value is one of the alternative with this number.
#[cycle(within)]
fn is_chosen<N: ValueNode>(
    alternatives: &Alternatives,
    index: usize,
    node: &N,
    known: KnownTypes<'_>,
    left: &mut u32,
) -> bool
    requires known { AreKnown known.types.now known.levels known.depths.now }
    requires ready { IsReady known.types.now known.depths.now }
    ensures is { IsTrue result
        ↔ IsChosen known.entry.types.now known.entry.levels
        (map alternative_of alternatives.now.root.items ++ map alternative_of alternatives.now.additions.items)
        index (N.value_of node.now) }
    ensures nodes { IsTrue result → left.new ≡ left.old - nodes (N.value_of node.now) }
{
    match chosen_type(alternatives, index) {
        Some(id) => is_judged(node, known, id, left),
        None => false,
    }
}

/// The type of the alternative with this number, from 0 over both lists, or None if there is no such alternative.
pub fn chosen_type(alternatives: &Alternatives, index: usize) -> Option<TypeId>
    ensures { MatchOption result
        (slice_get (map alternative_of alternatives.now.root.items
        ++ map alternative_of alternatives.now.additions.items) index ≡ None)
        (λ t. (a : Alternative)
        × (slice_get (map alternative_of alternatives.now.root.items
        ++ map alternative_of alternatives.now.additions.items) index ≡ Some a)
        × (a.type ≡ t.index)) }
{
    let root = alternatives.root.as_slice();
    if index < root.len() {
        return Some(root[index].ty);
    }
    let additions = alternatives.additions.as_slice();
    if index - root.len() < additions.len() {
        return Some(additions[index - root.len()].ty);
    }
    None
}
