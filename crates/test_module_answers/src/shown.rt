//! Values in words. The values in a value are between braces, in order, and `-` means an absent one.

use crate::marks::comma;
use asn_base::value::{BitString, Value};
use std::alloc::AllocError;

/// The bits of a string. The last octet may have unused bits.
fn bits(out: &mut String, bits: &BitString) -> Result<(), AllocError> {
    out.push('\'')?;
    let octets = bits.octets.as_slice();
    for i in 0..octets.len() {
        let unused = if i + 1 == octets.len() {
            bits.unused
        } else {
            0
        };
        for place in unused..8 {
            let mask = 128_u8 >> (place - unused);
            out.push(if octets[i] & mask == 0 { '0' } else { '1' })?;
        }
    }
    out.push_str("'B")
}

/// Octets as hexadecimal digits.
fn octets(out: &mut String, octets: &[u8]) -> Result<(), AllocError> {
    out.push('\'')?;
    for octet in octets {
        write!(out, "{octet:02X}")?;
    }
    out.push_str("'H")
}

/// Numbers in braces, after a text that has the first brace.
fn arcs(out: &mut String, open: &str, arcs: &[u64]) -> Result<(), AllocError> {
    out.push_str(open)?;
    for (i, arc) in arcs.iter().enumerate() {
        let blank = if i == 0 { "" } else { " " };
        write!(out, "{blank}{arc}")?;
    }
    out.push('}')
}

/// The members of a value that is at least `levels` levels above the deepest ones that are printed.
#[cycle(showing)]
fn fields(out: &mut String, values: &[Option<Value>], levels: u8) -> Result<(), AllocError> {
    out.push('{')?;
    for i in 0..values.len() {
        out.push_str(comma(i))?;
        match &values[i] {
            Some(value) => put(out, value, levels)?,
            None => out.push('-')?,
        }
    }
    out.push('}')
}

#[cycle(showing)]
fn list(out: &mut String, values: &[Value], levels: u8) -> Result<(), AllocError> {
    out.push('[')?;
    for i in 0..values.len() {
        out.push_str(comma(i))?;
        put(out, &values[i], levels)?;
    }
    out.push(']')
}

/// Adds a value in words. `..` replaces each value that is more than `levels` levels down.
#[cycle(showing)]
pub fn put(out: &mut String, value: &Value, levels: u8) -> Result<(), AllocError> {
    if levels == 0 {
        return out.push_str("..");
    }
    match value {
        Value::Bool(is_true) => out.push_str(if *is_true { "TRUE" } else { "FALSE" }),
        Value::Int(number) => write!(out, "{number}"),
        Value::Enum(number) => write!(out, "item {number}"),
        Value::Bits(string) => bits(out, string),
        Value::Octets(string) => octets(out, string.as_slice()),
        Value::Text(text) => write!(out, "\"{text}\""),
        Value::Null => out.push_str("NULL"),
        Value::Oid(numbers) => arcs(out, "{", numbers.as_slice()),
        Value::RelativeOid(numbers) => arcs(out, ".{", numbers.as_slice()),
        Value::Fields(values) => fields(out, values.as_slice(), levels - 1),
        Value::List(values) => list(out, values.as_slice(), levels - 1),
        Value::Alt(number, held) => {
            write!(out, "{number}: ")?;
            put(out, held, levels - 1)
        }
    }
}
