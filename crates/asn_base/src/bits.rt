//! Bit strings, compared bit by bit.

ghost use Rattle.asn_base.specs.Abstract.{bits_in, bits_of, bits_of_octet};
ghost use Rattle.asn_base.specs.Decided.{AreAlikeBits, HaveSameOctet};
ghost use Rattle.std.specs.Prelude.{◌≡◌, ◌+◌, ◌*◌, ◌<◌, ◌↔◌, ◌^◌, IsTrue, false, get_or, length};

use crate::value::BitString;

/// The number of bits in the string: those of its octets without the unused ones (X.680, 22).
pub fn bit_count(bits: &BitString) -> u128
    ensures count { result ≡ length (bits_of bits.now) }
    ensures small { result < 2 ^ 127 }
{
    let octets = bits.octets.len() as u128;
    8 * octets - u128::from(bits.unused)
}

/// The number of bits in octets, without the `unused` ones of the last octet.
pub(crate) fn bit_count_in(unused: u8, octets: &[u8]) -> u128
    ensures count { result ≡ length (bits_in unused octets.now) }
    ensures small { result < 2 ^ 127 }
{
    (octets.len() as u128 * 8).saturating_sub(u128::from(unused))
}

/// The bit of an octet at a place: 0 is the highest bit, 7 the lowest.
fn bit_of_octet(octet: u8, place: u8) -> bool
    requires { place < 8 }
    ensures { result ≡ get_or (bits_of_octet octet) place false }
{
    match place {
        0 => octet / 128 == 1,
        1 => octet / 64 % 2 == 1,
        2 => octet / 32 % 2 == 1,
        3 => octet / 16 % 2 == 1,
        4 => octet / 8 % 2 == 1,
        5 => octet / 4 % 2 == 1,
        6 => octet / 2 % 2 == 1,
        _ => octet % 2 == 1,
    }
}

/// The bit at a place of an octet, false after the last bit of the string.
fn bit(bits: &BitString, octet: usize, place: u8) -> bool
    requires { place < 8 }
    ensures { result ≡ get_or (bits_of bits.now) (8 * octet + place) false }
{
    let count = bits.octets.len();
    if octet >= count {
        return false;
    }
    if octet == count - 1 && place >= 8 - bits.unused {
        return false;
    }
    bit_of_octet(bits.octets[octet], place)
}

/// Whether two strings have the same eight bits in an octet; a bit after the last one counts as false.
fn have_same_octet(first: &BitString, second: &BitString, octet: usize) -> bool
    ensures { IsTrue result ↔ HaveSameOctet (bits_of first.now) (bits_of second.now) octet }
{
    for place in 0..8 {
        if bit(first, octet, place) != bit(second, octet, place) {
            return false;
        }
    }
    true
}

/// Whether two strings have the same bits, except for zeros at the end.
pub(crate) fn are_alike_bits(first: &BitString, second: &BitString) -> bool
    ensures { IsTrue result ↔ AreAlikeBits (bits_of first.now) (bits_of second.now) }
{
    for octet in 0..first.octets.len().max(second.octets.len()) {
        if !have_same_octet(first, second, octet) {
            return false;
        }
    }
    true
}

/// Whether two strings have the same bits.
pub(crate) fn are_equal_bits(first: &BitString, second: &BitString) -> bool
    ensures { IsTrue result ↔ (bits_of first.now ≡ bits_of second.now) }
{
    bit_count(first) == bit_count(second) && are_alike_bits(first, second)
}
