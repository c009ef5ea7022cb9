//! Values that hold no others, in words.

ghost use Rattle.asn_base.specs.Seen.{kind_of};
ghost use Rattle.header_listing.specs.Words.{kind_word};
ghost use Rattle.std.specs.Prelude.{◌≡◌};

use crate::line_text::push_number;
use crate::type_names::push_cut;
use asn_base::schema::{Core, Items, NamedBit};
use asn_base::strings::StringKind;
use encodings::LeafKind;
use primitive_reader::{Leaf, read_arc, read_leaf};
use std::alloc::{AllocError, Global};
use value_text::leaf::{
    append_arcs, append_bit_string, append_number, append_octets, append_truth,
};
use value_text::string::append_string;

/// The most characters of a value that a line shows.
const SHOWN: usize = 60;

/// The most octets that a line shows, two characters for each.
const SHOWN_OCTETS: usize = 30;

/// The most octets of a BIT STRING whose bits a line shows.
const SHOWN_BITS: usize = 7;

/// The most numbers of an object identifier that are read.
const MOST_ARCS: usize = 64;

/// The word for the kind of a type (X.680, 17 to 30).
pub fn kind_word(core: &Core) -> &'static str
    ensures { result.now ≡ kind_word (kind_of core.now) }
{
    match core {
        Core::Boolean => "BOOLEAN",
        Core::Integer(_) => "INTEGER",
        Core::Enumerated(_) => "ENUMERATED",
        Core::BitString(_) | Core::NamedBits(_) => "BIT STRING",
        Core::OctetString(_) => "OCTET STRING",
        Core::Null => "NULL",
        Core::ObjectIdentifier => "OBJECT IDENTIFIER",
        Core::RelativeOid => "RELATIVE-OID",
        Core::Utf8String(_) => "UTF8String",
        Core::RestrictedString(StringKind::Numeric, _, _) => "NumericString",
        Core::RestrictedString(StringKind::Printable, _, _) => "PrintableString",
        Core::RestrictedString(StringKind::Ia5, _, _) => "IA5String",
        Core::RestrictedString(StringKind::Visible, _, _) => "VisibleString",
        Core::Sequence(_, _) => "SEQUENCE",
        Core::Set(_, _) => "SET",
        Core::SequenceOf(_, _) => "SEQUENCE OF",
        Core::SetOf(_, _) => "SET OF",
        Core::Choice(_) => "CHOICE",
    }
}

/// The kind of the contents octets of a type, or None if it holds other types.
fn leaf_kind(core: &Core) -> Option<LeafKind> {
    match core {
        Core::Boolean => Some(LeafKind::Boolean),
        Core::Integer(_) => Some(LeafKind::Integer),
        Core::Enumerated(_) => Some(LeafKind::Enumerated),
        Core::BitString(_) => Some(LeafKind::BitString),
        Core::NamedBits(_) => Some(LeafKind::NamedBits),
        Core::OctetString(_) => Some(LeafKind::OctetString),
        Core::Null => Some(LeafKind::Null),
        Core::ObjectIdentifier => Some(LeafKind::ObjectIdentifier),
        Core::RelativeOid => Some(LeafKind::RelativeOid),
        Core::Utf8String(_) => Some(LeafKind::Utf8String),
        Core::RestrictedString(kind, _, _) => Some(LeafKind::RestrictedString(*kind)),
        _ => None,
    }
}

/// Appends that a value is cut off, and how many octets it has.
fn push_count(out: &mut String, octets: usize) -> Result<(), AllocError> {
    out.push_str(".. (")?;
    push_number(out, octets)?;
    out.push_str(" octets)")?;
    Ok(())
}

/// Appends octets in hexadecimal digits, cut off after 60 of them.
pub(crate) fn push_octets(out: &mut String, octets: &[u8]) -> Result<(), AllocError> {
    match octets.get(..SHOWN_OCTETS) {
        Some(front) if front.len() < octets.len() => {
            append_octets(out, front)?;
            push_count(out, octets.len())
        }
        _ => append_octets(out, octets),
    }
}

/// The octets of the first characters of a text, at most 60 of them.
fn front_len(text: &str) -> usize {
    let mut len = 0usize;
    let mut characters = 0usize;
    for c in text.chars() {
        if characters == SHOWN {
            return len;
        }
        characters = characters.saturating_add(1);
        len = len.saturating_add(c.len_utf8());
    }
    len
}

/// Appends a text in quotes, cut off after 60 characters.
fn push_text(out: &mut String, text: &str) -> Result<(), AllocError> {
    match text.get(..front_len(text)) {
        Some(front) => {
            append_string(out, front)?;
            if front.len() < text.len() {
                push_count(out, text.len())?;
            }
            Ok(())
        }
        None => Ok(()),
    }
}

/// Appends the bits of octets, of which the last has unused bits, cut off after 56 bits.
fn push_bits(out: &mut String, unused: u8, octets: &[u8]) -> Result<(), AllocError> {
    match octets.get(..SHOWN_BITS) {
        Some(front) if front.len() < octets.len() => {
            append_bit_string(out, front, 0)?;
            push_count(out, octets.len())
        }
        _ if unused < 8 => append_bit_string(out, octets, unused),
        _ => Ok(()),
    }
}

/// Whether the bit at a place of octets is set.
fn is_set(octets: &[u8], place: usize) -> bool {
    let weight = match place % 8 {
        0 => 128,
        1 => 64,
        2 => 32,
        3 => 16,
        4 => 8,
        5 => 4,
        6 => 2,
        _ => 1,
    };
    match octets.get(place / 8) {
        Some(octet) => *octet / weight % 2 == 1,
        None => false,
    }
}

/// Appends a word to a list, after a comma unless it is the first. The result is whether there was room for it.
fn push_listed(list: &mut String, word: &str) -> Result<bool, AllocError> {
    if !list.is_empty() {
        list.push_str(", ")?;
    }
    if list.len().saturating_add(word.len()) > SHOWN {
        list.push_str("..")?;
        return Ok(false);
    }
    list.push_str(word)?;
    Ok(true)
}

/// Appends the names of the bits that are set to a list, as long as there is room for them.
fn push_set(list: &mut String, bits: &[NamedBit], octets: &[u8]) -> Result<(), AllocError> {
    for bit in bits {
        if is_set(octets, bit.place) && !push_listed(list, bit.name.as_str())? {
            return Ok(());
        }
    }
    Ok(())
}

/// Appends the names of the named bits that are set, in braces.
fn push_named(
    alloc: Global,
    out: &mut String,
    bits: &[NamedBit],
    octets: &[u8],
) -> Result<(), AllocError> {
    if bits.len() > SHOWN {
        return Ok(());
    }
    let mut list = String::new(alloc);
    push_set(&mut list, bits, octets)?;
    out.push_str(" {")?;
    out.push_str(list.as_str())?;
    out.push_str("}")?;
    Ok(())
}

/// The name of the item with the number, in items that are in order of number.
fn item_name(items: &Items, number: i128) -> Option<&str> {
    let place = items.root.partition_point(|item| item.number < number);
    if let Some(item) = items.root.get(place) {
        if item.number == number {
            return Some(item.name.as_str());
        }
    }
    for item in &items.additions {
        if item.number == number {
            return Some(item.name.as_str());
        }
    }
    None
}

/// Appends an item by its name, or the number of no item.
fn push_item(out: &mut String, items: &Items, number: i128) -> Result<(), AllocError> {
    match item_name(items, number) {
        Some(name) => push_cut(out, name),
        None => append_number(out, number),
    }
}

/// Appends a number of an object identifier, if it has at most 64 bits.
fn push_arc(arcs: &mut Vec<u64>, number: u128) -> Result<(), AllocError> {
    if let Ok(arc) = u64::try_from(number) {
        arcs.push(arc)?;
    }
    Ok(())
}

/// Appends the first two numbers of an object identifier, which are encoded as one (X.690, 8.19.4).
fn push_first_arcs(arcs: &mut Vec<u64>, joined: u128) -> Result<(), AllocError> {
    let first = if joined < 40 {
        0
    } else if joined < 80 {
        1
    } else {
        2
    };
    arcs.push(first)?;
    push_arc(arcs, joined.saturating_sub(first as u128 * 40))
}

/// The numbers of an OBJECT IDENTIFIER or of a RELATIVE-OID, at most 64 septet strings of them.
fn arcs_of(alloc: Global, contents: &[u8], is_relative: bool) -> Result<Vec<u64>, AllocError> {
    let mut arcs = Vec::new(alloc);
    let mut rest = contents;
    for _ in 0..MOST_ARCS {
        let Some((Some(number), following)) = read_arc(rest) else {
            return Ok(arcs);
        };
        if arcs.is_empty() && !is_relative {
            push_first_arcs(&mut arcs, number)?;
        } else {
            push_arc(&mut arcs, number)?;
        }
        rest = following;
    }
    Ok(arcs)
}

/// Appends the bits of a BIT STRING, and the names of those that have one and are set.
fn push_bit_string(
    alloc: Global,
    out: &mut String,
    core: &Core,
    unused: u8,
    octets: &[u8],
) -> Result<(), AllocError> {
    push_bits(out, unused, octets)?;
    match core {
        Core::NamedBits(bits) => push_named(alloc, out, bits.as_slice(), octets),
        _ => Ok(()),
    }
}

/// Appends a value that was read from contents octets of a type.
fn push_leaf(
    alloc: Global,
    out: &mut String,
    core: &Core,
    leaf: Leaf<'_>,
) -> Result<(), AllocError> {
    match leaf {
        Leaf::Bool(truth) => append_truth(out, truth),
        Leaf::Int(number) => append_number(out, number),
        Leaf::Enum(number) => match core {
            Core::Enumerated(items) => push_item(out, items, number),
            _ => append_number(out, number),
        },
        Leaf::Bits(unused, octets) => push_bit_string(alloc, out, core, unused, octets),
        Leaf::Octets(octets) => push_octets(out, octets),
        Leaf::Text(text) => push_text(out, text),
        Leaf::Null => Ok(()),
        Leaf::Oid(octets) => append_arcs(out, arcs_of(alloc, octets, false)?.as_slice()),
        Leaf::RelativeOid(octets) => append_arcs(out, arcs_of(alloc, octets, true)?.as_slice()),
    }
}

/// Appends the value of a type that primitive contents octets are read as. If they are read as none, they are appended
/// themselves.
pub(crate) fn push_value(
    alloc: Global,
    out: &mut String,
    core: &Core,
    contents: &[u8],
) -> Result<(), AllocError> {
    let Some(kind) = leaf_kind(core) else {
        out.push_str(" ")?;
        return push_octets(out, contents);
    };
    match read_leaf(kind, contents) {
        Ok(Leaf::Null) => Ok(()),
        Ok(leaf) => {
            out.push_str(" ")?;
            push_leaf(alloc, out, core, leaf)
        }
        Err(_) => {
            out.push_str(" ")?;
            push_octets(out, contents)
        }
    }
}
