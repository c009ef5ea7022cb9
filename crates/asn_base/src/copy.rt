//! Copies of values. Each fails only if an allocation fails.

ghost use Rattle.asn_base.specs.Abstract.{abstract, bits_of};
ghost use Rattle.std.specs.Prelude.{◌≡◌, IfOk, map, option_map};

use crate::law::lemma_abstract_values;
use crate::list::add;
use crate::value::{BitString, Value};
use std::alloc::{AllocError, Global};

impl BitString {
    /// Returns another string with the same bits. `AllocError` comes only if an allocation fails.
    pub fn copy(&self) -> Result<BitString, AllocError>
        ensures { IfOk result (λ b. bits_of b ≡ bits_of self.now) }
    {
        Ok(BitString::of(self.octets.clone()?, self.unused))
    }
}

impl Value {
    /// Returns an equal value in memory of its own. `AllocError` comes only if an allocation fails. The function calls
    /// itself once for each level of the value, as dropping a value does. A value of a schema has at most 64 levels.
    pub fn copy(&self, alloc: Global) -> Result<Value, AllocError>
        ensures { IfOk result (λ v. abstract v ≡ abstract self.now) }
    {
        copied(alloc, self)
    }
}

/// A copy of a value.
#[cycle(copies)]
fn copied(alloc: Global, value: &Value) -> Result<Value, AllocError>
    ensures { IfOk result (λ v. abstract v ≡ abstract value.now) }
{
    lemma_abstract_values();
    match value {
        Value::Bool(truth) => Ok(Value::Bool(*truth)),
        Value::Int(number) => Ok(Value::Int(*number)),
        Value::Enum(number) => Ok(Value::Enum(*number)),
        Value::Bits(bits) => Ok(Value::Bits(bits.copy()?)),
        Value::Octets(octets) => Ok(Value::Octets(octets.clone()?)),
        Value::Text(text) => Ok(Value::Text(text.clone()?)),
        Value::Null => Ok(Value::Null),
        Value::Oid(numbers) => Ok(Value::Oid(numbers.clone()?)),
        Value::RelativeOid(numbers) => Ok(Value::RelativeOid(numbers.clone()?)),
        Value::Fields(values) => Ok(Value::Fields(copied_fields(alloc, values.as_slice())?)),
        Value::List(values) => Ok(Value::List(copied_list(alloc, values.as_slice())?)),
        Value::Alt(index, inner) => {
            let one = copied(alloc, inner)?;
            Ok(Value::Alt(*index, Box::new(alloc, one)?))
        }
    }
}

/// Copies of components; an absent component is absent in the copy.
#[cycle(copies)]
fn copied_fields(alloc: Global, values: &[Option<Value>]) -> Result<Vec<Option<Value>>, AllocError>
    ensures { IfOk result (λ vs. map (option_map abstract) vs.items ≡ map (option_map abstract) values.now) }
{
    let mut copies = Vec::new(alloc);
    for i in 0..values.len() {
        match &values[i] {
            Some(value) => {
                let one = copied(alloc, value)?;
                add(&mut copies, Some(one))?;
            }
            None => add(&mut copies, None)?,
        }
    }
    Ok(copies)
}

/// Copies of elements.
#[cycle(copies)]
fn copied_list(alloc: Global, values: &[Value]) -> Result<Vec<Value>, AllocError>
    ensures { IfOk result (λ vs. map abstract vs.items ≡ map abstract values.now) }
{
    let mut copies = Vec::new(alloc);
    for i in 0..values.len() {
        let one = copied(alloc, &values[i])?;
        add(&mut copies, one)?;
    }
    Ok(copies)
}
