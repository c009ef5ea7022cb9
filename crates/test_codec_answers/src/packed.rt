//! The messages of values in the packed encodings.

use crate::words::{type_of, value_at};
use crate::written::shown;
use asn_base::schema::Schema;
use packed_code::compile_packed;
use packed_writer::write_uper;
use row_format::Row;
use row_format::refusal::{Refusal, refuse};
use std::alloc::Global;

/// `uper NAME TYPE`: the octets of the value's message in unaligned PER, or the fault.
pub fn answer(alloc: Global, schema: &Schema, row: &Row) -> Result<String, Refusal> {
    let id = type_of(alloc, row)?;
    let value = value_at(alloc, row, 0)?;
    let code = compile_packed(alloc, schema)?;
    match write_uper(alloc, &code, id, &value) {
        Ok(octets) => Ok(shown(alloc, octets.as_slice())?),
        Err(fault) => Err(refuse(alloc, &fault)),
    }
}
