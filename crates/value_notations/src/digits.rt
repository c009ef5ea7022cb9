//! Octets of binary and hexadecimal texts.

ghost use Rattle.std.specs.Prelude.{◌≡◌, ◌^◌, ◌<◌, length, true, false, IfOk};
ghost use Rattle.std.specs.Int.Digits.{number_from_digits, AllBelowBase};
ghost use Rattle.value_notations.specs.Leaves.{AreOctets};

use std::alloc::{AllocError, Global};

/// The number that these digits are, which fits in eight bits, the first digit the most significant.
fn octet(digits: &[u8], base: u8) -> u8
    requires base { 0 < base }
    requires below { AllBelowBase base digits.now }
    requires fits { base ^ length digits.now ≡ 256 }
    ensures { result ≡ number_from_digits base digits.now }
{
    let mut number: u8 = 0;
    for digit in digits {
        number = number.wrapping_mul(base).wrapping_add(*digit);
    }
    number
}

/// The octets of binary digits, eight in each octet, the last one filled with zeros.
pub(crate) fn bit_octets(alloc: Global, digits: &[u8]) -> Result<Vec<u8>, AllocError>
    requires { AllBelowBase 2 digits.now }
    ensures { IfOk result (λ os. AreOctets 2 8 digits.now os.items) }
{
    let mut padded = Vec::new(alloc);
    padded.extend_from_slice(digits)?;
    for zero in 0..(8 - digits.len() % 8) % 8 {
        padded.push(0)?;
    }
    let mut octets = Vec::new(alloc);
    for i in 0..padded.len() / 8 {
        octets.push(octet(&padded.as_slice()[8 * i..8 * i + 8], 2))?;
    }
    Ok(octets)
}

/// The octets of hexadecimal digits, two in each octet, an odd last one filled with a zero.
pub(crate) fn hex_octets(alloc: Global, digits: &[u8]) -> Result<Vec<u8>, AllocError>
    requires { AllBelowBase 16 digits.now }
    ensures { IfOk result (λ os. AreOctets 16 2 digits.now os.items) }
{
    let mut padded = Vec::new(alloc);
    padded.extend_from_slice(digits)?;
    for zero in 0..digits.len() % 2 {
        padded.push(0)?;
    }
    let mut octets = Vec::new(alloc);
    for i in 0..padded.len() / 2 {
        octets.push(octet(&padded.as_slice()[2 * i..2 * i + 2], 16))?;
    }
    Ok(octets)
}

/// Whether each digit is below the base.
pub(crate) fn are_below(digits: &[u8], base: u8) -> bool
    ensures below { result ≡ true → AllBelowBase base digits.now }
    ensures above { result ≡ false → AllBelowBase base digits.now → ⊥ }
{
    for digit in digits {
        if *digit >= base {
            return false;
        }
    }
    true
}
