//! The type, octets and value that the words and texts of a row give.

use crate::value::value_of;
use asn_base::schema::TypeId;
use asn_base::value::Value;
use row_format::Row;
use row_format::refusal::{Refusal, refuse};
use std::alloc::{AllocError, Global};
use test_types::type_named;

/// The word of a row at a place, or an empty one if the row is shorter.
pub fn word(row: &Row, place: usize) -> &str {
    match row.words.get(place) {
        Some(word) => word.as_str(),
        None => "",
    }
}

/// The type that the third word names.
pub fn type_of(alloc: Global, row: &Row) -> Result<TypeId, Refusal> {
    match type_named(word(row, 2)) {
        Some(id) => Ok(id),
        None => Err(refuse(alloc, &"no type")),
    }
}

/// The octets of hexadecimal digits.
pub fn octets_in(alloc: Global, digits: &str) -> Result<Vec<u8>, Refusal> {
    match hex::decode(alloc, digits) {
        Ok(octets) => Ok(octets),
        Err(fault) => Err(refuse(alloc, &fault)),
    }
}

/// Adds some octets this number of times.
fn push_times(octets: &mut Vec<u8>, some: &[u8], times: usize) -> Result<(), AllocError> {
    for _ in 0..times {
        octets.extend_from_slice(some)?;
    }
    Ok(())
}

/// The octets of the words from the fourth on, one word after another: hexadecimal digits, and `399*24` for repeated
/// ones.
pub fn octets_of(alloc: Global, row: &Row) -> Result<Vec<u8>, Refusal> {
    let mut octets = Vec::new(alloc);
    for word in row.words.iter().skip(3) {
        let (times, digits) = word
            .as_str()
            .split_once('*')
            .unwrap_or(("1", word.as_str()));
        let Ok(times) = times.parse::<usize>() else {
            return Err(refuse(alloc, &"no number"));
        };
        let some = octets_in(alloc, digits)?;
        push_times(&mut octets, some.as_slice(), times)?;
    }
    Ok(octets)
}

/// The value of one of a row's texts.
pub fn value_at(alloc: Global, row: &Row, place: usize) -> Result<Value, Refusal> {
    let Some(text) = row.texts.get(place) else {
        return Err(refuse(alloc, &"no text"));
    };
    let Ok(text) = str::from_utf8(text.octets.as_slice()) else {
        return Err(refuse(alloc, &"no text"));
    };
    match value_of(alloc, text)? {
        Some(value) => Ok(value),
        None => Err(refuse(alloc, &"no value")),
    }
}
