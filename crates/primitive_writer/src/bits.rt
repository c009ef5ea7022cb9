//! The contents octets of a BIT STRING (X.690, 8.6 and 11.2).

ghost use Rattle.asn_base.specs.Abstract.{bits_of, bits_of_octet};
ghost use Rattle.std.specs.Int.Digits.{AllBelowBase};
ghost use Rattle.primitive_writer.specs.Ends.{EndsAt, FilledPieces, Front, TrimmedPieces};
ghost use Rattle.primitive_writer.specs.Pieces.{joined_pieces};
ghost use Rattle.std.specs.Prelude.{◌≡◌, ◌++◌, ◌∷◌, ◌<◌, ◌-◌, [], false, flat_map, replicate, take};

use crate::leaf::PrimitiveContents;
use asn_base::value::BitString;

/// A law: each of the octets is below 256.
pub(crate) fn are_octets(octets: &[u8])
    ensures { AllBelowBase 256 octets.now }
{}

/// The contents octets of no bits: one octet, which says that no bits are unused.
fn no_bits<'a>() -> PrimitiveContents<'a>
    ensures { joined_pieces result ≡ 0 ∷ [] }
{
    PrimitiveContents::Bits(0, &[], None)
}

/// The octet whose last `unused` bits are cleared.
fn cleared(octet: u8, unused: u8) -> u8
    requires { unused < 8 }
    ensures { bits_of_octet result ≡ take (8 - unused) (bits_of_octet octet) ++ replicate unused false }
{
    match unused {
        0 => octet,
        1 => octet / 2 * 2,
        2 => octet / 4 * 4,
        3 => octet / 8 * 8,
        4 => octet / 16 * 16,
        5 => octet / 32 * 32,
        6 => octet / 64 * 64,
        _ => octet / 128 * 128,
    }
}

/// The contents octets of all bits, in which the unused bits are zeros (11.2.1).
pub(crate) fn filled(bits: &BitString) -> PrimitiveContents<'_>
    ensures { FilledPieces (bits_of bits.now) (joined_pieces result) }
{
    match bits.octets.as_slice().split_last() {
        Some((last, front)) => {
            are_octets(front);
            PrimitiveContents::Bits(bits.unused, front, Some(cleared(*last, bits.unused)))
        }
        None => no_bits(),
    }
}

/// How many zero bits are at the end of an octet.
fn zeros_after(octet: u8) -> u8
    requires { 0 < octet }
    ensures { EndsAt octet result }
{
    if octet % 2 == 1 {
        return 0;
    }
    if octet / 2 % 2 == 1 {
        return 1;
    }
    if octet / 4 % 2 == 1 {
        return 2;
    }
    if octet / 8 % 2 == 1 {
        return 3;
    }
    if octet / 16 % 2 == 1 {
        return 4;
    }
    if octet / 32 % 2 == 1 {
        return 5;
    }
    if octet / 64 % 2 == 1 {
        return 6;
    }
    7
}

/// The octets without zero octets at their end.
fn without_zeros(octets: &[u8]) -> &[u8]
    ensures { Front octets.now result.now }
{
    let mut count = octets.len();
    while count > 0 && octets[count - 1] == 0 {
        count -= 1;
    }
    &octets[..count]
}

/// The contents octets of the bits in `front` and a last octet, without the zero bits at the end (11.2.2). The last
/// octet isn't zero.
fn ended(front: &[u8], last: u8) -> PrimitiveContents<'_>
    requires { 0 < last }
    ensures { TrimmedPieces (flat_map bits_of_octet (front.now ++ last ∷ [])) (joined_pieces result) }
{
    are_octets(front);
    PrimitiveContents::Bits(zeros_after(last), front, Some(last))
}

/// The contents octets of the bits in `front` and a last octet, without the zero bits at the end.
fn trimmed_octets(front: &[u8], last: u8) -> PrimitiveContents<'_>
    ensures { TrimmedPieces (flat_map bits_of_octet (front.now ++ last ∷ [])) (joined_pieces result) }
{
    if last > 0 {
        return ended(front, last);
    }
    let kept = without_zeros(front);
    match kept.split_last() {
        Some((last, front)) => ended(front, *last),
        None => no_bits(),
    }
}

/// The contents octets of the bits without the zero bits at the end (11.2.2).
pub(crate) fn trimmed(bits: &BitString) -> PrimitiveContents<'_>
    ensures { TrimmedPieces (bits_of bits.now) (joined_pieces result) }
{
    match bits.octets.as_slice().split_last() {
        Some((last, front)) => trimmed_octets(front, cleared(*last, bits.unused)),
        None => no_bits(),
    }
}
