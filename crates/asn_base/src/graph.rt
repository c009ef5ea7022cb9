//! The types that types contain, as rows of numbers.

ghost use Rattle.asn_base.specs.Depths.{rows_of};
ghost use Rattle.asn_base.specs.Schemas.{components, types_in};
ghost use Rattle.asn_base.specs.Seen.{alternative_of, component_of, kind_of, types_of};
ghost use Rattle.asn_base.specs.proving.Firsts.{own_types};
ghost use Rattle.asn_base.specs.proving.Reaching.{default_types, defaults_of, has_default as is_defaulted, parts_of};
ghost use Rattle.std.specs.Prelude.{◌≡◌, ◌∷◌, ◌++◌, IfOk, OnOk, [], map};

use crate::list::add;
use crate::schema::{Alternative, Component, Core, Presence, Resolved, components_of};
use std::alloc::{AllocError, Global};

fn add_components(components: &[Component], row: &mut Vec<usize>) -> Result<(), AllocError>
    ensures { OnOk result (row.new.items
        ≡ row.old.items ++ map (λ c. c.type) (map component_of components.now)) }
{
    for i in 0..components.len() {
        add(row, components[i].ty.index)?;
    }
    Ok(())
}

fn add_alternatives(alternatives: &[Alternative], row: &mut Vec<usize>) -> Result<(), AllocError>
    ensures { OnOk result (row.new.items
        ≡ row.old.items ++ map (λ a. a.type) (map alternative_of alternatives.now)) }
{
    for i in 0..alternatives.len() {
        add(row, alternatives[i].ty.index)?;
    }
    Ok(())
}

/// Adds the types that a type directly contains.
fn add_types(core: &Core, row: &mut Vec<usize>) -> Result<(), AllocError>
    ensures { OnOk result (row.new.items ≡ row.old.items ++ types_in (kind_of core.now)) }
{
    match core {
        Core::Sequence(_, components) => add_components(components.as_slice(), row),
        Core::Set(_, components) => add_components(components.as_slice(), row),
        Core::SequenceOf(_, element) => add(row, element.index),
        Core::SetOf(_, element) => add(row, element.index),
        Core::Choice(alternatives) => {
            add_alternatives(alternatives.root.as_slice(), row)?;
            add_alternatives(alternatives.additions.as_slice(), row)
        }
        _ => Ok(()),
    }
}

/// The types that a type directly contains. `AllocError` comes only if an allocation fails.
pub(crate) fn row_of(alloc: Global, core: &Core) -> Result<Vec<usize>, AllocError>
    ensures { IfOk result (λ v. v.items ≡ types_in (kind_of core.now)) }
{
    let mut row = Vec::new(alloc);
    add_types(core, &mut row)?;
    Ok(row)
}

/// The types of the components of a SET or the alternatives of a CHOICE, none for other kinds. `AllocError` comes only
/// if an allocation fails.
pub(crate) fn own_row(alloc: Global, core: &Core) -> Result<Vec<usize>, AllocError>
    ensures { IfOk result (λ v. v.items ≡ own_types (kind_of core.now)) }
{
    match core {
        Core::Set(_, _) | Core::Choice(_) => row_of(alloc, core),
        _ => Ok(Vec::new(alloc)),
    }
}

/// Whether a component has a DEFAULT.
fn has_default(component: &Component) -> bool
    ensures { result ≡ is_defaulted (component_of component.now) }
{
    match &component.presence {
        Presence::Default(_) => true,
        _ => false,
    }
}

/// Adds the type of a component, if it has a DEFAULT.
fn add_default(component: &Component, row: &mut Vec<usize>) -> Result<(), AllocError>
    ensures { OnOk result (row.new.items
        ≡ row.old.items ++ default_types (component_of component.now ∷ [])) }
{
    if !has_default(component) {
        return Ok(());
    }
    add(row, component.ty.index)
}

/// The types of the components with a DEFAULT.
fn default_row(alloc: Global, components: &[Component]) -> Result<Vec<usize>, AllocError>
    ensures { IfOk result (λ v. v.items ≡ default_types (map component_of components.now)) }
{
    let mut row = Vec::new(alloc);
    for i in 0..components.len() {
        add_default(&components[i], &mut row)?;
    }
    Ok(row)
}

/// The types that each type directly contains.
pub(crate) fn part_rows(alloc: Global, types: &[Resolved]) -> Result<Vec<Vec<usize>>, AllocError>
    ensures { IfOk result (λ v. rows_of v.items ≡ parts_of (types_of types.now)) }
{
    let mut rows = Vec::new(alloc);
    for i in 0..types.len() {
        let row = row_of(alloc, &types[i].core)?;
        add(&mut rows, row)?;
    }
    Ok(rows)
}

/// The types of each type's components with a DEFAULT.
pub(crate) fn default_rows(alloc: Global, types: &[Resolved]) -> Result<Vec<Vec<usize>>, AllocError>
    ensures { IfOk result (λ v. rows_of v.items ≡ defaults_of (types_of types.now)) }
{
    let mut rows = Vec::new(alloc);
    for i in 0..types.len() {
        let row = default_row(alloc, components_of(&types[i].core))?;
        add(&mut rows, row)?;
    }
    Ok(rows)
}
