//! Later versions of types.

use crate::words::word;
use asn_base::schema::{Schema, TypeId};
use later_versions::later;
use row_format::Row;
use row_format::refusal::Refusal;
use std::alloc::{AllocError, Global};
use test_types::type_named;

/// Whether the second type is a later version of the first, and the first one of the second.
fn both_ways(
    alloc: Global,
    schema: &Schema,
    one: TypeId,
    other: TypeId,
) -> Result<&'static str, AllocError> {
    let forth = later(alloc, schema, one, schema, other)?;
    let back = later(alloc, schema, other, schema, one)?;
    Ok(match (forth, back) {
        (true, true) => "yes, and back yes",
        (true, false) => "yes, and back no",
        (false, true) => "no, and back yes",
        (false, false) => "no, and back no",
    })
}

/// `later NAME TYPE TYPE`: whether the second type is a later version of the first, and the first one of the second.
pub fn answer(alloc: Global, schema: &Schema, row: &Row) -> Result<String, Refusal> {
    let words = match (type_named(word(row, 2)), type_named(word(row, 3))) {
        (Some(one), Some(other)) => both_ways(alloc, schema, one, other)?,
        _ => "no type",
    };
    Ok(String::from_str(alloc, words)?)
}
