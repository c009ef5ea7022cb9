//! Header octets, and the octets of numbers.

use crate::words::{octets_in, word};
use asn_base::tag::{Class, Tag};
use octets::{Form, header_len, octets_of, write_header};
use row_format::Row;
use row_format::refusal::{Refusal, refuse};
use std::alloc::{AllocError, Global};

fn class(word: &str) -> Option<Class> {
    match word {
        "universal" => Some(Class::Universal),
        "application" => Some(Class::Application),
        "context" => Some(Class::Context),
        "private" => Some(Class::Private),
        _ => None,
    }
}

fn form(word: &str) -> Option<Form> {
    match word {
        "primitive" => Some(Form::Primitive),
        "constructed" => Some(Form::Constructed),
        _ => None,
    }
}

/// The tag with this class and number, or None if the number is too great.
fn tag(class: Class, number: u32) -> Option<Tag> {
    if number >= 2147483648 {
        return None;
    }
    match class {
        Class::Universal if number == 0 => None,
        _ => Some(Tag::of(class, number)),
    }
}

/// The header that a row asks for: its tag, its form and the number of contents octets that it announces.
fn header_in(row: &Row) -> Option<(Tag, Form, u64)> {
    let class = class(word(row, 2))?;
    let number = word(row, 3).parse::<u32>().ok()?;
    let form = form(word(row, 4))?;
    let contents = word(row, 5).parse::<u64>().ok()?;
    Some((tag(class, number)?, form, contents))
}

fn written(alloc: Global, octets: &[u8], count: usize) -> Result<String, AllocError> {
    let hex = hex::encode_upper(alloc, octets)?;
    format!(in alloc; "{hex}, of {count} octets")
}

/// `header NAME CLASS NUMBER FORM LENGTH [BEFORE]`: the octets before the header and those of the header, and the
/// number of the latter.
pub fn header(alloc: Global, row: &Row) -> Result<String, Refusal> {
    let Some((tag, form, contents)) = header_in(row) else {
        return Err(refuse(alloc, &"no class, number, form and length"));
    };
    let mut out = octets_in(alloc, word(row, 6))?;
    match write_header(alloc, tag, form, contents, &mut out) {
        Ok(()) => Ok(written(alloc, out.as_slice(), header_len(tag, contents))?),
        Err(fault) => Err(refuse(alloc, &fault)),
    }
}

/// `octets NAME NUMBER`: the fewest octets of a number.
pub fn octets(alloc: Global, row: &Row) -> Result<String, Refusal> {
    let Ok(number) = word(row, 2).parse::<u128>() else {
        return Err(refuse(alloc, &"no number"));
    };
    let octets = match octets_of(alloc, number) {
        Ok(octets) => octets,
        Err(fault) => return Err(refuse(alloc, &fault)),
    };
    Ok(written(alloc, octets.as_slice(), octets.len())?)
}
