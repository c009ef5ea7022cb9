//! Whether components are those of a value if the additions are left out (X.680, 25).

ghost use Rattle.asn_base.specs.Abstract.{fields as fields', placed, row_of_options};
ghost use Rattle.asn_base.specs.Additions.{IsValueWithoutAdditions, without_additions};
ghost use Rattle.asn_base.specs.Decided.{HoldsMembers, IsComponent};
ghost use Rattle.asn_base.specs.Depths.{AreKnown, AreOf, IsDepth, IsOf, IsReady, depth_at, rows_of};
ghost use Rattle.asn_base.specs.Schemas.{HasValue, components as components', is_addition as is_addition'};
ghost use Rattle.asn_base.specs.Seen.{component_of, kind_of};
ghost use Rattle.asn_base.specs.Typed.{AreComponents};
ghost use Rattle.std.specs.Prelude.{◌≡◌, ◌≤◌, ◌↔◌, if◌then◌else◌, IfSome, IsTrue, None, length, map, option_map};

use crate::decide::is_component;
use crate::depths::{ComponentSite, KnownTypes};
use crate::members::is_addition;
use crate::node::ValueNode;
use crate::schema::{Component, Core, Schema, TypeId};
use limits::MAX_LEVELS;

/// Whether the fields are the components of a value of the type if all additions are made absent, apart from the limit
/// on nodes. They are in a row of `size` places. The result is false if the schema lacks the type. The call takes no
/// memory, and its time grows with the nodes.
pub fn is_value_without_additions<N: ValueNode>(
    size: usize,
    fields: N::Fields,
    schema: &Schema,
    id: TypeId,
) -> bool
    ensures { IsTrue result ↔ IsValueWithoutAdditions schema.now id.index
        (row_of_options (placed size (λ i. N.part_at fields i))) }
{
    if !schema.has(id) {
        return false;
    }
    let kept = schema.kept();
    let known = KnownTypes {
        types: kept,
        depths: kept.depths(),
        levels: MAX_LEVELS - 1,
    };
    are_of_type::<N>(schema.core(id), size, fields, known, id)
}

/// The same as `is_value_without_additions`, for a type of this kind.
fn are_of_type<N: ValueNode>(
    core: &Core,
    size: usize,
    fields: N::Fields,
    known: KnownTypes<'_>,
    id: TypeId,
) -> bool
    requires known { AreKnown known.types.now known.levels known.depths.now }
    requires ready { IsReady known.types.now known.depths.now }
    requires of { IsOf known.types.now id.index (kind_of core.now) }
    ensures { IsTrue result
        ↔ HoldsMembers known.entry.types.now known.entry.levels (kind_of core.now)
        (fields' (without_additions (components' (kind_of core.now))
        (row_of_options (placed size (λ i. N.part_at fields i))))) }
{
    match core {
        Core::Sequence(_, components) => {
            are_in_root::<N>(components.as_slice(), size, fields, known, id)
        }
        Core::Set(_, components) => {
            are_in_root::<N>(components.as_slice(), size, fields, known, id)
        }
        _ => false,
    }
}

/// Whether the fields are these components if all additions are made absent.
fn are_in_root<N: ValueNode>(
    components: &[Component],
    size: usize,
    fields: N::Fields,
    known: KnownTypes<'_>,
    id: TypeId,
) -> bool
    requires known { AreKnown known.types.now known.levels known.depths.now }
    requires ready { IsReady known.types.now known.depths.now }
    requires few { length components.now ≤ 4294967295 }
    requires of { AreOf known.types.now id.index (map component_of components.now) }
    ensures { IsTrue result
        ↔ AreComponents known.entry.types.now known.entry.levels (map component_of components.now)
        (without_additions (map component_of components.now)
        (row_of_options (placed size (λ i. N.part_at fields i)))) }
{
    if size != components.len() {
        return false;
    }
    let mut left = fields;
    for i in 0..components.len() {
        let found = N::take_component(&mut left, i as u32);
        let component = &components[i];
        if !is_in_root(component, &found, known, ComponentSite { id, place: i }) {
            return false;
        }
    }
    true
}

/// Whether the part is a value of the component at this place of the type. It counts as absent if the component is an
/// addition.
fn is_in_root<N: ValueNode>(
    component: &Component,
    found: &Option<N>,
    known: KnownTypes<'_>,
    site: ComponentSite,
) -> bool
    requires known { AreKnown known.types.now known.levels known.depths.now }
    requires ready { IsReady known.types.now known.depths.now }
    requires depth { IfSome (option_map (λ v. depth_at (rows_of v.items) site.id.index site.place) known.depths.now)
        (IsDepth known.types.now known.levels (component_of component.now)) }
    requires value { known.depths.now ≡ None → HasValue known.types.now (component_of component.now) }
    ensures { IsTrue result
        ↔ IsComponent known.entry.types.now known.entry.levels (component_of component.now)
        (if is_addition' (component_of component.now) then None else option_map N.value_of found.now) }
{
    if is_addition(component) {
        return true;
    }
    let mut unused = 0;
    is_component(component, found, known, site, &mut unused)
}
