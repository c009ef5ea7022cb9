//! The header at the front of octets.

use crate::words::{octets_in, word};
use asn_base::tag::Class;
use octets::{Form, Header, read_header};
use row_format::Row;
use row_format::refusal::{Refusal, refuse};
use std::alloc::{AllocError, Global};

fn class_name(class: Class) -> &'static str {
    match class {
        Class::Universal => "universal",
        Class::Application => "application",
        Class::Context => "context",
        Class::Private => "private",
    }
}

/// The words for a header.
fn shown(alloc: Global, header: Header) -> Result<String, AllocError> {
    let class = class_name(header.tag.class);
    let number = header.tag.number;
    let form = match header.form {
        Form::Primitive => "primitive",
        Form::Constructed => "constructed",
    };
    let count = header.octets;
    let contents = header.contents;
    format!(in alloc; "{class} {number} {form}, {count} octets before {contents}")
}

/// The header at the front of octets. The error is the words for its fault.
pub fn header_of(alloc: Global, octets: &[u8]) -> Result<Header, Refusal> {
    match read_header(octets) {
        Ok(header) => Ok(header),
        Err(fault) => Err(refuse(alloc, &fault)),
    }
}

/// `front NAME [HEX]`: the words for the header at the front of the octets, or for its fault.
pub fn answer(alloc: Global, row: &Row) -> Result<String, Refusal> {
    let octets = octets_in(alloc, word(row, 2))?;
    let header = header_of(alloc, octets.as_slice())?;
    Ok(shown(alloc, header)?)
}
