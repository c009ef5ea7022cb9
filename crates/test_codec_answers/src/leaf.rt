//! Values without other values in them.

use crate::front::header_of;
use crate::words::{octets_in, word};
use asn_base::strings::StringKind;
use encodings::LeafKind;
use octets::Form;
use primitive_reader::{Leaf, is_distinguished, read_arc, read_leaf};
use row_format::Row;
use row_format::refusal::{Refusal, refuse};
use std::alloc::{AllocError, Global};

/// The names of kinds, in the order of `KINDS`.
const NAMES: &str =
    "boolean integer enumerated bits named-bits octets null oid relative-oid utf8 numeric printable \
    ia5 visible";

const KINDS: [LeafKind; 14] = [
    LeafKind::Boolean,
    LeafKind::Integer,
    LeafKind::Enumerated,
    LeafKind::BitString,
    LeafKind::NamedBits,
    LeafKind::OctetString,
    LeafKind::Null,
    LeafKind::ObjectIdentifier,
    LeafKind::RelativeOid,
    LeafKind::Utf8String,
    LeafKind::RestrictedString(StringKind::Numeric),
    LeafKind::RestrictedString(StringKind::Printable),
    LeafKind::RestrictedString(StringKind::Ia5),
    LeafKind::RestrictedString(StringKind::Visible),
];

/// The kind with this name.
pub fn kind_named(name: &str) -> Option<LeafKind> {
    for (place, other) in NAMES.split(' ').enumerate() {
        if other == name {
            return KINDS.get(place).copied();
        }
    }
    None
}

/// The numbers of octets that have septets.
fn arcs(alloc: Global, octets: &[u8]) -> Result<String, AllocError> {
    let mut text = String::new(alloc);
    let mut rest = octets;
    for _ in 0..octets.len() {
        let Some((number, tail)) = read_arc(rest) else {
            return Ok(text);
        };
        let blank = if text.is_empty() { "" } else { " " };
        match number {
            Some(number) => write!(text, "{blank}{number}")?,
            None => write!(text, "{blank}great")?,
        }
        rest = tail;
    }
    Ok(text)
}

/// The words for a value that was read.
pub fn written(alloc: Global, leaf: Leaf) -> Result<String, AllocError> {
    match leaf {
        Leaf::Bool(truth) => format!(in alloc; "{truth}"),
        Leaf::Int(number) => format!(in alloc; "{number}"),
        Leaf::Enum(number) => format!(in alloc; "item {number}"),
        Leaf::Bits(unused, octets) => {
            let digits = hex::encode_upper(alloc, octets)?;
            format!(in alloc; "bits of '{digits}'H but {unused}")
        }
        Leaf::Octets(octets) => {
            let digits = hex::encode_upper(alloc, octets)?;
            format!(in alloc; "'{digits}'H")
        }
        Leaf::Text(words) => format!(in alloc; "\"{words}\""),
        Leaf::Null => String::from_str(alloc, "NULL"),
        Leaf::Oid(octets) | Leaf::RelativeOid(octets) => arcs(alloc, octets),
    }
}

/// The words for the value with these contents octets, and whether they keep the distinguished rules; or those for the
/// fault.
fn read(alloc: Global, kind: LeafKind, contents: &[u8]) -> Result<String, Refusal> {
    match read_leaf(kind, contents) {
        Ok(leaf) => {
            let mut words = written(alloc, leaf)?;
            if !is_distinguished(kind, contents) {
                words.push_str(", not DER")?;
            }
            Ok(words)
        }
        Err(fault) => Err(refuse(alloc, &fault)),
    }
}

/// The words for the value with the contents octets after a header.
fn read_encoding(alloc: Global, kind: LeafKind, octets: &[u8]) -> Result<String, Refusal> {
    let header = header_of(alloc, octets)?;
    if header.form == Form::Constructed {
        return Err(refuse(alloc, &"constructed"));
    }
    match octets.get(header.octets..) {
        Some(contents) => read(alloc, kind, contents),
        None => Err(refuse(alloc, &"no contents")),
    }
}

/// `leaf NAME KIND HEX`: the value of a primitive encoding, or the fault of its header or of its contents.
pub fn answer(alloc: Global, row: &Row) -> Result<String, Refusal> {
    let Some(kind) = kind_named(word(row, 2)) else {
        return Err(refuse(alloc, &"no such kind"));
    };
    let octets = octets_in(alloc, word(row, 3))?;
    read_encoding(alloc, kind, octets.as_slice())
}
