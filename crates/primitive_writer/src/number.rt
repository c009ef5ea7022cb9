//! The contents octets of INTEGER and ENUMERATED (X.690, 8.3 and 8.4).

ghost use Rattle.encodings.specs.Contents.{Number};
ghost use Rattle.std.specs.Prelude.{◌≡◌, ◌<◌, ◌≤◌, ◌^◌, ◌∷◌, ◌↔◌, [], IfSome, IsTrue, length, pos, slice_index};

use crate::buffer::{push_digits, turned};
use arrayvec::ArrayVec;

/// The fewest octets for the number in two's complement (8.3.2).
pub(crate) fn number_octets(number: i128) -> ArrayVec<u8, 24>
    ensures { Number number result.items }
{
    if number < 0 {
        let octets = unsigned_octets((-1 - number) as u128);
        turned(octets.as_slice())
    } else {
        unsigned_octets(number as u128)
    }
}

/// The octet for the number in two's complement, or None if it needs more octets.
pub(crate) fn one_octet(number: i128) -> Option<u8>
    ensures { IfSome result (λ o. Number number (o ∷ [])) }
{
    if number < 0 {
        match low_octet((-1 - number) as u128) {
            Some(octet) => Some(255 - octet),
            None => None,
        }
    } else {
        low_octet(number as u128)
    }
}

/// The octet for a number that isn't negative, or None if it needs more octets.
#[tactic(auto, using(crate::proofs::TwosComplement::one_number))]
fn low_octet(number: u128) -> Option<u8>
    ensures { IfSome result (λ o. Number (pos number) (o ∷ [])) }
{
    if number < 128 {
        Some(number as u8)
    } else {
        None
    }
}

/// The fewest octets for a number that isn't negative: its digits in base 256, and a 0 before them if they would mean a
/// negative number.
fn unsigned_octets(number: u128) -> ArrayVec<u8, 24>
    ensures number { Number (pos number) result.items }
    ensures few { length result.items ≤ 17 }
{
    let mut digits = ArrayVec::new();
    push_digits(&mut digits, number);
    if starts_low(digits.as_slice()) {
        return digits;
    }
    let mut out = ArrayVec::new();
    out.push(0);
    push_digits(&mut out, number);
    out
}

/// Whether there is a first digit, and it is below 128.
fn starts_low(digits: &[u8]) -> bool
    ensures { IsTrue result ↔ (0 < length digits.now) × (slice_index digits.now 0 < 128) }
{
    if digits.len() == 0 {
        false
    } else {
        digits[0] < 128
    }
}
