//! Views of decoded messages, in words.

use crate::words::{octets_of, type_of};
use asn_base::decide::is_value;
use asn_base::schema::{Schema, TypeId};
use ber_reader::{read_ber, read_der, read_view};
use codec_code::Code;
use row_format::Row;
use row_format::refusal::{Refusal, refuse};
use std::alloc::{AllocError, Global};
use value_text::{Fault, print_shown};
use views::{ValueRef, View};

/// Adds the number of octets, and the place of the first of them in the message.
fn push_place(out: &mut String, count: usize, at: Option<usize>) -> Result<(), AllocError> {
    match at {
        Some(at) => write!(out, "\n{count} octets borrowed at {at}"),
        None => write!(out, "\n{count} octets joined"),
    }
}

/// Adds the place of the octets of a part that is a string.
fn push_string(out: &mut String, part: &ValueRef<'_, '_>) -> Result<(), AllocError> {
    if let Some((octets, at)) = part.as_octets() {
        push_place(out, octets.len(), at)?;
    }
    if let Some((_, octets, at)) = part.as_bits() {
        push_place(out, octets.len(), at)?;
    }
    if let Some((text, at)) = part.as_text() {
        push_place(out, text.len(), at)?;
    }
    Ok(())
}

/// Adds the places of the strings of a view, of the whole and of its members.
fn push_strings(out: &mut String, view: &View<'_>) -> Result<(), AllocError> {
    let whole = view.top();
    push_string(out, &whole)?;
    for (_, part) in whole.members() {
        push_string(out, &part)?;
    }
    Ok(())
}

/// The text of the value, how many additions were skipped, and the places of its strings.
fn shown(
    alloc: Global,
    schema: &Schema,
    id: TypeId,
    view: &View<'_>,
    skipped: u64,
) -> Result<String, Refusal> {
    let value = view.to_value(alloc)?;
    if !is_value(&value, schema, id) {
        return Err(refuse(alloc, &Fault::NotOfType));
    }
    let mut text = print_shown(alloc, schema, id, &view.top())?;
    write!(text, "\nskipped {skipped}")?;
    push_strings(&mut text, view)?;
    Ok(text)
}

/// The text of a decoded value, how many additions were skipped, and the places of its strings, or the fault.
///
/// - `view NAME TYPE HEX..`: by the basic rules.
/// - `read-der NAME TYPE HEX..`: by the distinguished rules.
/// - `read NAME TYPE HEX..`: by the basic rules, and constraints aren't judged.
pub fn answer(alloc: Global, schema: &Schema, code: &Code, row: &Row) -> Result<String, Refusal> {
    let id = type_of(alloc, row)?;
    let message = octets_of(alloc, row)?;
    let octets = message.as_slice();
    let fault = match row.command() {
        "read" => match read_view(alloc, code, id, octets) {
            Ok(built) => return shown(alloc, schema, id, &built.view, built.skipped),
            Err(fault) => fault,
        },
        "read-der" => match read_der(alloc, code, id, octets) {
            Ok(read) => return shown(alloc, schema, id, &read.view, read.skipped),
            Err(fault) => fault,
        },
        _ => match read_ber(alloc, code, id, octets) {
            Ok(read) => return shown(alloc, schema, id, &read.view, read.skipped),
            Err(fault) => fault,
        },
    };
    Err(refuse(alloc, &fault))
}
