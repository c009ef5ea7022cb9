//! Values of the types of a schema.

use crate::copied_schema;
use crate::words::{type_of, value_at, word};
use asn_base::decide::is_value;
use asn_base::same::same;
use asn_base::schema::Schema;
use asn_base::value::Value;
use codec_code::{Code, compile};
use row_format::Row;
use row_format::refusal::{Refusal, refuse};
use std::alloc::Global;

/// The value of one of a row's texts, copied.
fn copied(alloc: Global, row: &Row, place: usize) -> Result<Value, Refusal> {
    let value = value_at(alloc, row, place)?;
    Ok(value.copy(alloc)?)
}

fn truth(alloc: Global, holds: bool) -> Result<String, Refusal> {
    Ok(String::from_str(alloc, if holds { "yes" } else { "no" })?)
}

/// `print NAME TYPE`: the text of the value.
pub fn print(alloc: Global, schema: &Schema, row: &Row) -> Result<String, Refusal> {
    let id = type_of(alloc, row)?;
    let value = copied(alloc, row, 0)?;
    match value_text::print(alloc, schema, id, &value) {
        Ok(text) => Ok(text),
        Err(fault) => Err(refuse(alloc, &fault)),
    }
}

/// `value NAME TYPE`: whether it is a value of the type.
pub fn value(alloc: Global, schema: &Schema, row: &Row) -> Result<String, Refusal> {
    let id = type_of(alloc, row)?;
    let value = copied(alloc, row, 0)?;
    truth(alloc, is_value(&value, schema, id))
}

/// `same NAME TYPE`: whether both are values of the type, and the same.
pub fn alike(alloc: Global, schema: &Schema, row: &Row) -> Result<String, Refusal> {
    let id = type_of(alloc, row)?;
    let one = copied(alloc, row, 0)?;
    let other = copied(alloc, row, 1)?;
    truth(alloc, same(&one, &other, schema, id))
}

/// `default NAME TYPE PLACE`: whether the component at this place has a DEFAULT that is the same as the value.
pub fn default(alloc: Global, code: &Code, row: &Row) -> Result<String, Refusal> {
    let id = type_of(alloc, row)?;
    let value = copied(alloc, row, 0)?;
    let place = word(row, 3).parse::<usize>().unwrap_or(0);
    truth(alloc, code.is_default(id, place, &value))
}

/// `listing NAME`: the routines of all types, compiled from a copy of the schema.
pub fn listing(alloc: Global, schema: &Schema) -> Result<String, Refusal> {
    let copy = copied_schema(alloc, schema)?;
    let code = match compile(alloc, &copy) {
        Ok(code) => code,
        Err(fault) => return Err(refuse(alloc, &fault)),
    };
    match codec_code::listing(alloc, &code) {
        Ok(text) => Ok(text),
        Err(fault) => Err(refuse(alloc, &fault)),
    }
}
