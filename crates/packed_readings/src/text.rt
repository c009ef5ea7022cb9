//! UTF8String and the restricted strings (X.691, 30).

ghost use Rattle.asn_base.specs.Abstract.{text};
ghost use Rattle.asn_base.specs.Schemas.{AreBounds, IsSize};
ghost use Rattle.asn_base.specs.Seen.{constraint_of};
ghost use Rattle.bits.specs.Left.{bits_left};
ghost use Rattle.packed_readings.specs.Counts.{is_allowed, octets_from, sized_from};
ghost use Rattle.packed_readings.specs.Leaves.{character_from, utf8_text};
ghost use Rattle.packed_readings.specs.Outcome.{IsFault, bad, each_from, found, good, judging};
ghost use Rattle.std.specs.List.{AllByRecursion};
ghost use Rattle.std.specs.Prelude.{◌≡◌, ◌<◌, IfErr, IfNone, IfOk, IfSome, IsUtf8, chars, length, pos, string_bytes};

use crate::range::is_allowed;
use crate::refusal::PackedFault;
use crate::size::as_signed;
use crate::strings::{Form, read_octets, read_sized};
use asn_base::constraint::Constraint;
use asn_base::leaf::character_count;
use bits::cursor::Bits;
use decode_faults::Refusal;
use std::alloc::Global;

/// Whether SIZE allows the number of characters of a text.
fn has_allowed_length(constraint: &Constraint, text: &str) -> bool
    ensures { result ≡ is_allowed (constraint_of constraint.now) (pos (length (chars text.now))) }
{
    is_allowed(constraint, as_signed(character_count(text) as u128))
}

/// A text is UTF-8.
fn is_text(text: &str)
    ensures { IsUtf8 text.now }
{}

/// The text of octets, or None if they are not UTF-8.
fn text_of(octets: Vec<u8>) -> Option<String>
    ensures some { IfSome result (λ s. (string_bytes s ≡ octets.items) × IsUtf8 octets.items) }
    ensures none { IfNone result (IsUtf8 octets.items → ⊥) }
{
    match String::from_utf8(octets) {
        Ok(text) => {
            is_text(text.as_str());
            Some(text)
        }
        Err(_) => None,
    }
}

/// The text of octets, if SIZE allows its number of characters.
fn utf8(constraint: &Constraint, octets: Vec<u8>) -> Result<String, Refusal>
    ensures ok { IfOk result
        (λ s. utf8_text (constraint_of constraint.now) octets.items ≡ good (text (string_bytes s))) }
    ensures err { IfErr result (λ e. utf8_text (constraint_of constraint.now) octets.items ≡ bad e) }
{
    let text = match text_of(octets) {
        Some(text) => text,
        None => return Err(Refusal::Outside),
    };
    if !has_allowed_length(constraint, text.as_str()) {
        return Err(Refusal::Outside);
    }
    Ok(text)
}

/// Takes a UTF8String (X.691, 30.6): its octets after their number, whatever its SIZE.
///
/// `Outside`: the octets are no UTF-8, or SIZE doesn't allow this number of characters. Further faults are those of
/// `read_octets`. The cursor is then at the place of the fault. `Memory`: there is not enough memory; the cursor may
/// have moved on.
pub fn read_utf8_string(
    alloc: Global,
    constraint: &Constraint,
    bits: &mut Bits<'_>,
) -> Result<String, PackedFault>
    ensures ok { IfOk result
        (λ s. judging (utf8_text (constraint_of constraint.now)) octets_from (bits_left bits.old)
        ≡ found (text (string_bytes s)) (bits_left bits.new)) }
    ensures err { IfErr result
        (λ e. IsFault (judging (utf8_text (constraint_of constraint.now)) octets_from
        (bits_left bits.old)) e (bits_left bits.new)) }
{
    let start = *bits;
    let octets = match read_octets(alloc, bits) {
        Ok(octets) => octets,
        Err(fault) => return Err(fault),
    };
    match utf8(constraint, octets) {
        Ok(text) => Ok(text),
        Err(refusal) => {
            *bits = start;
            Err(PackedFault::Refused(refusal))
        }
    }
}

/// The text of codes below 128.
fn ascii(codes: Vec<u8>) -> String
    requires { AllByRecursion (λ c. c < 128) codes.items }
    ensures { string_bytes result ≡ codes.items }
{
    String::from_utf8(codes).unwrap()
}

/// Takes a string of an alphabet, whose codes are in order (X.691, 30.5), with as many characters as SIZE bounds.
///
/// `Outside`: no character has the code or the place. Further faults are those of `read_octet_string`. The cursor is
/// then at the place of the fault. `Memory`: there is not enough memory; the cursor may have moved on.
pub fn read_restricted_string(
    alloc: Global,
    alphabet: &[u8],
    constraint: &Constraint,
    bits: &mut Bits<'_>,
) -> Result<String, PackedFault>
    requires alphabet { AllByRecursion (λ c. c < 128) alphabet.now }
    requires bounds { AreBounds IsSize (constraint_of constraint.now) }
    ensures ok { IfOk result
        (λ s. sized_from (constraint_of constraint.now) (each_from (character_from alphabet.now))
        (bits_left bits.old) ≡ found (string_bytes s) (bits_left bits.new)) }
    ensures err { IfErr result
        (λ e. IsFault
        (sized_from (constraint_of constraint.now) (each_from (character_from alphabet.now)) (bits_left bits.old)) e
        (bits_left bits.new)) }
{
    match read_sized(alloc, constraint, &Form::Characters(alphabet), bits) {
        Ok(codes) => Ok(ascii(codes)),
        Err(fault) => Err(fault),
    }
}
