//! Strings in segments.

use crate::front::header_of;
use crate::leaf::{kind_named, written};
use crate::words::{octets_in, word};
use encodings::LeafKind;
use octets::Form;
use primitive_reader::Leaf;
use row_format::Row;
use row_format::refusal::{Refusal, refuse};
use segmented_strings::{Reassembled, read_segments};
use std::alloc::Global;

/// The greatest number of octets.
const MOST: usize = 16_777_216;

/// A joined string, as one that is not in segments is read.
fn leaf_of(joined: &Reassembled) -> Leaf<'_> {
    match joined {
        Reassembled::Bits(unused, octets) => Leaf::Bits(*unused, octets.as_slice()),
        Reassembled::Octets(octets) => Leaf::Octets(octets.as_slice()),
        Reassembled::Text(words) => Leaf::Text(words.as_str()),
    }
}

/// The string in these contents octets, in which headers may have at most `room` levels. The error is the fault.
fn join(alloc: Global, kind: LeafKind, contents: &[u8], room: usize) -> Result<String, Refusal> {
    if contents.len() > MOST {
        return Err(refuse(alloc, &"too long"));
    }
    match read_segments(alloc, kind, contents, room) {
        Ok(joined) => Ok(written(alloc, leaf_of(&joined))?),
        Err(fault) => Err(refuse(alloc, &fault)),
    }
}

/// The string in the contents octets after a header, which must be constructed.
fn join_encoding(
    alloc: Global,
    kind: LeafKind,
    octets: &[u8],
    room: usize,
) -> Result<String, Refusal> {
    let header = header_of(alloc, octets)?;
    if header.form == Form::Primitive {
        return Err(refuse(alloc, &"primitive"));
    }
    match octets.get(header.octets..) {
        Some(contents) => join(alloc, kind, contents, room),
        None => Err(refuse(alloc, &"no contents")),
    }
}

/// `segments NAME KIND LEVELS HEX`: the string of a constructed encoding, in whose contents headers may have at most
/// LEVELS levels. Otherwise the answer is the fault of its header, or that of its contents and the place of the octet,
/// from 0.
pub fn answer(alloc: Global, row: &Row) -> Result<String, Refusal> {
    let Some(kind) = kind_named(word(row, 2)) else {
        return Err(refuse(alloc, &"no such kind"));
    };
    let Ok(room) = word(row, 3).parse::<usize>() else {
        return Err(refuse(alloc, &"no number of levels"));
    };
    let octets = octets_in(alloc, word(row, 4))?;
    join_encoding(alloc, kind, octets.as_slice(), room)
}
