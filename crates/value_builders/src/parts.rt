//! Alternatives of a CHOICE and items of an ENUMERATED, by their names.

ghost use Rattle.std.specs.Prelude.{IfErr, IfOk};
ghost use Rattle.asn_base.specs.Abstract.{abstract};
ghost use Rattle.value_builders.specs.Made.{IsAlternative, IsItem};
ghost use Rattle.value_builders.specs.Refused.{IsNoAlternative, IsNoItem};

use crate::build_fault::BuildFault;
use crate::names::{alternative_number, alternatives_of, core_of, item_number, items_of};
use asn_base::law::lemma_abstract_values;
use asn_base::schema::{Schema, TypeId};
use asn_base::value::Value;
use std::alloc::Global;

/// Makes a value of a CHOICE: the alternative with a name, and its value. Whether this is one of the alternative's type
/// is decided when the whole is encoded.
///
/// `NoType`: the schema has no such type. `NotChoice`: it is no CHOICE. `NoAlternative`: it has no alternative with
/// this name. `Memory`: an allocation failed.
pub fn alternative(
    alloc: Global,
    schema: &Schema,
    id: TypeId,
    name: &str,
    value: Value,
) -> Result<Value, BuildFault>
    // The alternative is the one with this name.
    ensures made { IfOk result (λ v. IsAlternative schema.now id.index name.now (abstract value) (abstract v)) }
    // The reason of a refusal applies.
    ensures refused { IfErr result (IsNoAlternative schema.now id.index name.now) }
{
    lemma_abstract_values();
    let Some(core) = core_of(schema, id) else {
        return Err(BuildFault::NoType);
    };
    let Some(alternatives) = alternatives_of(core) else {
        return Err(BuildFault::NotChoice);
    };
    match alternative_number(alternatives, name) {
        Some(number) => Ok(Value::Alt(number, Box::new(alloc, value)?)),
        None => Err(BuildFault::NoAlternative(String::from_str(alloc, name)?)),
    }
}

/// Makes a value of an ENUMERATED: the item with a name.
///
/// `NoType`: the schema has no such type. `NotEnumerated`: it is no ENUMERATED. `NoItem`: it has no item with this
/// name. `Memory`: an allocation failed.
pub fn item(alloc: Global, schema: &Schema, id: TypeId, name: &str) -> Result<Value, BuildFault>
    // The item is the one with this name.
    ensures made { IfOk result (λ v. IsItem schema.now id.index name.now (abstract v)) }
    // The reason of a refusal applies.
    ensures refused { IfErr result (IsNoItem schema.now id.index name.now) }
{
    lemma_abstract_values();
    let Some(core) = core_of(schema, id) else {
        return Err(BuildFault::NoType);
    };
    let Some(items) = items_of(core) else {
        return Err(BuildFault::NotEnumerated);
    };
    match item_number(items, name) {
        Some(number) => Ok(Value::Enum(number)),
        None => Err(BuildFault::NoItem(String::from_str(alloc, name)?)),
    }
}
