//! Contents octets that are those of no value of their type (X.690, 8.2 to 8.8, 8.19, 8.20 and 8.23).

ghost use Rattle.asn_base.specs.Schemas.{is_character as is_character'};
ghost use Rattle.asn_base.specs.Seen.{kind_of};
ghost use Rattle.octet_findings.specs.Contents.{Says, bits_words, characters_of, characters_words, contents_words};
ghost use Rattle.octet_findings.specs.Contents.{is_needless, number_words, unused_words, utf8_words};
ghost use Rattle.std.specs.List.{position_from};
ghost use Rattle.std.specs.Prelude.{◌≡◌, ◌<◌, IfOk, IfSome, length, not};

use crate::arcs::of_arcs;
use crate::headers::Contents;
use crate::words::{counted, digits, found, of_count, of_octet};
use asn_base::schema::Core;
use asn_base::strings::StringKind;
use encodings::LeafKind;
use messages::Finding;
use primitive_reader::read_leaf;
use simdutf8::compat::from_utf8;
use std::alloc::{AllocError, Global};

/// Whether the first octet of a number in two's complement is needless before the second one (8.3.2).
fn is_needless(first: u8, second: u8) -> bool
    ensures { result ≡ is_needless first second }
{
    match first {
        0 => second < 128,
        255 => second >= 128,
        _ => false,
    }
}

/// What is wrong with the contents octets of an INTEGER (8.3.2). None if they are those of one.
#[tactic(auto, using(crate::proofs::Found::found_so))]
pub(crate) fn of_number(alloc: Global, octets: &[u8]) -> Result<Option<Finding>, AllocError>
    ensures { IfOk result (Says (number_words octets.now)) }
{
    let (first, second) = match octets {
        [] => return of_count(alloc, 0, "at least one"),
        [_] => return Ok(None),
        [first, second, ..] => (*first, *second),
    };
    if !is_needless(first, second) {
        return Ok(None);
    }
    let first = digits(alloc, first)?;
    let words = format!(in alloc; "a number that begins with the needless octet {first}")?;
    Ok(found(alloc, words, "its shortest form")?)
}

/// What is wrong with a number of unused bits.
#[tactic(auto, using(crate::proofs::Found::found_so))]
fn of_unused(alloc: Global, unused: u8, expected: &str) -> Result<Option<Finding>, AllocError>
    ensures { IfOk result (Says (unused_words unused expected.now)) }
{
    let words = counted(alloc, unused as usize, "unused bit")?;
    Ok(found(alloc, words, expected)?)
}

/// What is wrong with the contents octets of a BIT STRING (8.6.2). None if they are those of one.
fn of_bits(alloc: Global, octets: &[u8]) -> Result<Option<Finding>, AllocError>
    ensures { IfOk result (Says (bits_words octets.now)) }
{
    let (unused, is_last) = match octets {
        [] => return of_count(alloc, 0, "an octet for the number of unused bits"),
        [unused] => (*unused, true),
        [unused, _, ..] => (*unused, false),
    };
    if unused > 7 {
        return of_unused(alloc, unused, "at most 7");
    }
    if is_last && unused > 0 {
        return of_unused(alloc, unused, "none, since no octet follows");
    }
    Ok(None)
}

/// What is wrong with the contents octets of a UTF8String (8.23.10). None if they are UTF-8.
fn of_utf8(alloc: Global, contents: Contents<'_>) -> Result<Option<Finding>, AllocError>
    ensures { IfOk result (Says (utf8_words contents.entry.at contents.entry.octets.now)) }
{
    let Err(error) = from_utf8(contents.octets) else {
        return Ok(None);
    };
    let place = error.valid_up_to();
    if place >= contents.octets.len() {
        return Ok(None);
    }
    let at = contents.at + place;
    Ok(of_octet(
        alloc,
        contents.octets[place],
        at,
        "the next character in UTF-8",
    )?)
}

/// The words for the characters of a string type.
fn characters_of(kind: StringKind) -> &'static str
    ensures { result.now ≡ characters_of kind }
{
    match kind {
        StringKind::Numeric => "a character of NumericString: a digit or a space",
        StringKind::Printable =>
            "a character of PrintableString: a letter, a digit, a space or one of '()+,-./:=?",
        StringKind::Ia5 => "a character of IA5String: an octet from 00 to 7F",
        StringKind::Visible => "a character of VisibleString: an octet from 20 to 7E",
    }
}

/// Whether an octet is a character of the string type (8.23.5).
fn is_character(kind: StringKind, octet: u8) -> bool
    ensures { result ≡ is_character' kind octet }
{
    read_leaf(LeafKind::RestrictedString(kind), &[octet]).is_ok()
}

/// The place of the first octet that is no character of the string type.
fn no_character(kind: StringKind, octets: &[u8]) -> Option<usize>
    ensures first { result ≡ position_from (λ c. not (is_character' kind c)) 0 octets.now }
    ensures bound { IfSome result (λ place. place < length octets.now) }
{
    for place in 0..octets.len() {
        if !is_character(kind, octets[place]) {
            return Some(place);
        }
    }
    None
}

/// What is wrong with the contents octets of a string with an octet for each character (8.23). None if nothing is.
fn of_characters(
    alloc: Global,
    kind: StringKind,
    contents: Contents<'_>,
) -> Result<Option<Finding>, AllocError>
    ensures { IfOk result (Says (characters_words kind contents.entry.at contents.entry.octets.now)) }
{
    match no_character(kind, contents.octets) {
        Some(place) => {
            let at = contents.at + place;
            Ok(of_octet(alloc, contents.octets[place], at, characters_of(kind))?)
        }
        None => Ok(None),
    }
}

/// What is wrong with the contents octets of a type, which are those of no value of it. None if the fault says it all.
pub(crate) fn of_contents(
    alloc: Global,
    core: &Core,
    contents: Contents<'_>,
) -> Result<Option<Finding>, AllocError>
    ensures { IfOk result (Says (contents_words (kind_of core.now) contents.entry.at contents.entry.octets.now)) }
{
    match core {
        Core::Boolean => of_count(alloc, contents.octets.len(), "one"),
        Core::Null => of_count(alloc, contents.octets.len(), "none"),
        Core::Integer(_) => of_number(alloc, contents.octets),
        Core::BitString(_) | Core::NamedBits(_) => of_bits(alloc, contents.octets),
        Core::ObjectIdentifier | Core::RelativeOid => of_arcs(alloc, contents),
        Core::Utf8String(_) => of_utf8(alloc, contents),
        Core::RestrictedString(kind, _, _) => of_characters(alloc, *kind, contents),
        _ => Ok(None),
    }
}
