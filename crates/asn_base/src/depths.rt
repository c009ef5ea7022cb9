//! The levels of defaults, found once for a schema.

ghost use Rattle.asn_base.specs.Depths.{AreDepths, AreKnown, AreNumbered, AreOf, IsDepth, IsDepthRow, NoneAbove, depth_at, in_row, rows_of};
ghost use Rattle.asn_base.specs.Seen.{component_of};
ghost use Rattle.std.specs.Prelude.{◌≡◌, ◌+◌, ◌<◌, ◌≤◌, ℕ, IfOk, IfSome, IsSome, false, map, option_map};

use crate::decide::is_within;
use crate::list::add;
use crate::schema::{Component, Presence, TypeId, Types, components_of};
use crate::value::Value;
use std::alloc::{AllocError, Global};

/// Types, what is known of the levels of their DEFAULTs, and how many levels a value may have.
#[derive(Clone, Copy)]
pub(crate) struct KnownTypes<'a> {
    pub types: &'a Types,
    pub depths: &'a Option<Vec<Vec<u8>>>,
    pub levels: u8,
}

/// Where a component is: its type, and its place among the type's components.
#[derive(Clone, Copy)]
pub(crate) struct ComponentSite {
    pub id: TypeId,
    pub place: usize,
}

/// The number at a place of a table, 1 if the table has none there.
fn depth(rows: &[Vec<u8>], ty: usize, place: usize) -> u8
    ensures { result ≡ depth_at (rows_of rows.now) ty place }
{
    if ty >= rows.len() {
        return 1;
    }
    let row = rows[ty].as_slice();
    if place >= row.len() {
        return 1;
    }
    row[place]
}

/// The levels of the default of a type's component, or None if there is no table.
pub(crate) fn depth_of(table: &Option<Vec<Vec<u8>>>, id: TypeId, place: usize) -> Option<u8>
    ensures { result ≡ option_map (λ v. depth_at (rows_of v.items) id.index place) table.now }
{
    match table {
        Some(rows) => Some(depth(rows.as_slice(), id.index, place)),
        None => None,
    }
}

/// The levels of a component's default, exact up to one level more than in the table before.
fn next_depth(component: &Component, site: ComponentSite, known: KnownTypes<'_>) -> u8
    requires few { known.levels < 64 }
    requires known { AreKnown known.types.now known.levels known.depths.now }
    requires numbered { AreNumbered known.types.now }
    requires some { IsSome known.depths.now }
    requires before { IfSome known.depths.now (λ v. IsDepth known.types.now known.levels (component_of component.now)
        (depth_at (rows_of v.items) site.id.index site.place)) }
    ensures { IsDepth known.entry.types.now (known.entry.levels + 1) (component_of component.now) result }
{
    let Presence::Default(default) = &component.presence else {
        return 1;
    };
    let Some(before) = depth_of(known.depths, site.id, site.place) else {
        return 1;
    };
    if before <= known.levels {
        return before;
    }
    let value: &Value = default;
    let deeper = KnownTypes {
        types: known.types,
        depths: known.depths,
        levels: known.levels + 1,
    };
    if is_within(&value, deeper, component.ty) {
        return deeper.levels;
    }
    known.levels + 2
}

/// The row of a type, exact up to one level more than in the table before.
fn next_row(
    alloc: Global,
    components: &[Component],
    id: TypeId,
    known: KnownTypes<'_>,
) -> Result<Vec<u8>, AllocError>
    requires few { known.levels < 64 }
    requires known { AreKnown known.types.now known.levels known.depths.now }
    requires numbered { AreNumbered known.types.now }
    requires some { IsSome known.depths.now }
    requires of { AreOf known.types.now id.index (map component_of components.now) }
    ensures { IfOk result (λ row.
        IsDepthRow known.entry.types.now (known.entry.levels + 1) (map component_of components.now) row.items) }
{
    let mut row = Vec::new(alloc);
    for i in 0..components.len() {
        let one = next_depth(&components[i], ComponentSite { id, place: i }, known);
        add(&mut row, one)?;
    }
    Ok(row)
}

/// The table, exact up to one level more than the table before.
fn next_rows(alloc: Global, known: KnownTypes<'_>) -> Result<Vec<Vec<u8>>, AllocError>
    requires few { known.levels < 64 }
    requires known { AreKnown known.types.now known.levels known.depths.now }
    requires numbered { AreNumbered known.types.now }
    requires some { IsSome known.depths.now }
    ensures { IfOk result (λ rows. AreDepths known.entry.types.now (known.entry.levels + 1) (rows_of rows.items)) }
{
    let types = known.types.types();
    let mut rows = Vec::new(alloc);
    for i in 0..types.len() {
        let components = components_of(&types[i].core);
        let one = next_row(alloc, components, TypeId { index: i }, known)?;
        add(&mut rows, one)?;
    }
    Ok(rows)
}

/// Whether a number of the row is greater than `most`.
fn row_above(row: &[u8], most: u8) -> bool
    requires { 0 < most }
    ensures { result ≡ false → (j : ℕ) → in_row row.now j ≤ most }
{
    for i in 0..row.len() {
        if row[i] > most {
            return true;
        }
    }
    false
}

/// Whether a number of the table is greater than `most`.
fn is_above(rows: &[Vec<u8>], most: u8) -> bool
    requires { 0 < most }
    ensures { result ≡ false → NoneAbove most (rows_of rows.now) }
{
    for i in 0..rows.len() {
        if row_above(rows[i].as_slice(), most) {
            return true;
        }
    }
    false
}

/// The levels of all defaults: first of those with one level, then of those with two, each by the table of the levels
/// before. The function reads all defaults once for each level of the deepest one. `AllocError` comes only if an
/// allocation fails.
pub(crate) fn found(alloc: Global, schema: &Types) -> Result<Option<Vec<Vec<u8>>>, AllocError>
    requires { AreNumbered schema.now }
    ensures known { IfOk result (AreKnown schema.now 63) }
    ensures some { IfOk result (λ table. IsSome table) }
{
    let mut table = Some(Vec::new(alloc));
    for levels in 0..63 {
        let known = KnownTypes {
            types: schema,
            depths: &table,
            levels,
        };
        let rows = next_rows(alloc, known)?;
        let above = is_above(rows.as_slice(), levels + 1);
        table = Some(rows);
        if !above {
            return Ok(table);
        }
    }
    Ok(table)
}
