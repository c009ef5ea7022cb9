//! The places of faults in messages.

use crate::words::{octets_of, type_of};
use ber_reader::{ErrorPosition, Part, locate_error, read_ber};
use codec_code::Code;
use decode_faults::ReadFault;
use row_format::Row;
use row_format::refusal::{Refusal, refuse};
use std::alloc::{AllocError, Global};

fn push_part(text: &mut String, part: Part) -> Result<(), AllocError> {
    match part {
        Part::Component(place) => write!(text, ", component {place}"),
        Part::Alternative(index) => write!(text, ", alternative {index}"),
        Part::Element(index) => write!(text, ", element {index}"),
    }
}

/// The fault, the place of the octet, and the parts that were being decoded, the outermost first.
fn shown(alloc: Global, fault: ReadFault, found: &ErrorPosition) -> Result<String, AllocError> {
    let place = found.place;
    let mut text = format!(in alloc; "{fault} at octet {place}")?;
    for i in 0..found.values.len() {
        if let Some(part) = found.values[i].part {
            push_part(&mut text, part)?;
        }
    }
    Ok(text)
}

/// `place NAME TYPE HEX..`: the fault of the message, the place of its octet, from 0, and the parts that were being
/// decoded.
pub fn answer(alloc: Global, code: &Code, row: &Row) -> Result<String, Refusal> {
    let id = type_of(alloc, row)?;
    let octets = octets_of(alloc, row)?;
    match read_ber(alloc, code, id, octets.as_slice()) {
        Ok(_) => Err(refuse(alloc, &"read")),
        Err(fault) => {
            let found = locate_error(alloc, code, id, octets.as_slice())?;
            Ok(shown(alloc, fault, &found)?)
        }
    }
}
