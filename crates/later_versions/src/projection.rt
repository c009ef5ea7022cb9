//! What a type keeps of a value of a later version.

ghost use Rattle.std.specs.Prelude.{◌≡◌, ◌<◌, ◌++◌, ◌∷◌, [], ℕ, map, option_map, slice_get};
ghost use Rattle.std.specs.Prelude.{IfOk, OnOk, MatchOption, None, Some};
ghost use Rattle.asn_base.specs.Abstract.{abstract, row_of_list, row_of_options};
ghost use Rattle.later_versions.specs.Projected.{projected, projected_elements, projected_row, members_of};
ghost use Rattle.later_versions.specs.Projected.{left_out, left_out_of_elements, left_out_of_row};

use crate::members::{member_at, member_or_none};
use asn_base::law::lemma_abstract_values;
use asn_base::list::add;
use asn_base::schema::{Schema, TypeId};
use asn_base::value::Value;
use std::alloc::{AllocError, Global};

/// Appends an absent component, if the type has a component at this place.
fn pass(
    schema: &Schema,
    id: TypeId,
    place: usize,
    list: &mut Vec<Option<Value>>,
) -> Result<(), AllocError>
    ensures known { (u : ℕ)
        → slice_get (members_of schema.now id.index) place ≡ Some u
        → OnOk result (list.new.items ≡ list.old.items ++ None ∷ []) }
    ensures unknown { slice_get (members_of schema.now id.index) place ≡ None
        → OnOk result (list.new.items ≡ list.old.items) }
{
    match member_at(schema, id, place) {
        Some(_) => add(list, None),
        None => Ok(()),
    }
}

/// What the type keeps of a value, in memory of its own, or None if it leaves out a component that is present. The
/// function calls itself once for each level of the value. `AllocError` comes only if an allocation fails.
#[cycle(keeping)]
pub(crate) fn project(
    alloc: Global,
    schema: &Schema,
    id: TypeId,
    value: &Value,
) -> Result<Option<Value>, AllocError>
    ensures { IfOk result (λ o. MatchOption o
        (0 < left_out schema.now id.index (abstract value.now))
        (λ w. (left_out schema.now id.index (abstract value.now) ≡ 0)
        × (abstract w ≡ projected schema.now id.index (abstract value.now)))) }
{
    lemma_abstract_values();
    match value {
        Value::Fields(values) => match project_fields(alloc, schema, id, values.as_slice()) {
            Ok(Some(all)) => Ok(Some(Value::Fields(all))),
            Ok(None) => Ok(None),
            Err(fault) => Err(fault),
        },
        Value::List(values) => {
            let element = member_or_none(schema, id, 0);
            match project_elements(alloc, schema, element, values.as_slice()) {
                Ok(Some(all)) => Ok(Some(Value::List(all))),
                Ok(None) => Ok(None),
                Err(fault) => Err(fault),
            }
        }
        Value::Alt(index, inner) => {
            let chosen = member_or_none(schema, id, *index);
            match project(alloc, schema, chosen, inner) {
                Ok(Some(one)) => Ok(Some(Value::Alt(*index, Box::new(alloc, one)?))),
                Ok(None) => Ok(None),
                Err(fault) => Err(fault),
            }
        }
        _ => Ok(Some(value.copy(alloc)?)),
    }
}

/// What the type keeps of components.
#[cycle(keeping)]
fn project_fields(
    alloc: Global,
    schema: &Schema,
    id: TypeId,
    values: &[Option<Value>],
) -> Result<Option<Vec<Option<Value>>>, AllocError>
    ensures { IfOk result (λ o. MatchOption o
        (0 < left_out_of_row schema.now (members_of schema.now id.index)
        (row_of_options (map (option_map abstract) values.now)))
        (λ ws. (left_out_of_row schema.now (members_of schema.now id.index)
        (row_of_options (map (option_map abstract) values.now)) ≡ 0)
        × (row_of_options (map (option_map abstract) ws.items)
        ≡ projected_row schema.now (members_of schema.now id.index)
        (row_of_options (map (option_map abstract) values.now))))) }
{
    let mut all = Vec::new(alloc);
    for i in 0..values.len() {
        match &values[i] {
            Some(value) => match member_at(schema, id, i) {
                Some(ty) => match project(alloc, schema, ty, value) {
                    Ok(Some(one)) => add(&mut all, Some(one))?,
                    Ok(None) => return Ok(None),
                    Err(fault) => return Err(fault),
                },
                None => return Ok(None),
            },
            None => pass(schema, id, i, &mut all)?,
        }
    }
    Ok(Some(all))
}

/// What the type keeps of elements.
#[cycle(keeping)]
fn project_elements(
    alloc: Global,
    schema: &Schema,
    element: TypeId,
    values: &[Value],
) -> Result<Option<Vec<Value>>, AllocError>
    ensures { IfOk result (λ o. MatchOption o
        (0 < left_out_of_elements schema.now element.index (row_of_list (map abstract values.now)))
        (λ ws. (left_out_of_elements schema.now element.index (row_of_list (map abstract values.now)) ≡ 0)
        × (row_of_list (map abstract ws.items)
        ≡ projected_elements schema.now element.index (row_of_list (map abstract values.now))))) }
{
    let mut all = Vec::new(alloc);
    for i in 0..values.len() {
        match project(alloc, schema, element, &values[i]) {
            Ok(Some(one)) => add(&mut all, one)?,
            Ok(None) => return Ok(None),
            Err(fault) => return Err(fault),
        }
    }
    Ok(Some(all))
}
