//! Bits of octets as numbers.

ghost use Rattle.bits.specs.Left.{Begins};
ghost use Rattle.bits.specs.Words.{octet_bits, low_bits};
ghost use Rattle.std.specs.Prelude.{◌≡◌, ℕ, ◌+◌, ◌-◌, ◌*◌, ◌^◌, ◌<◌, ◌≤◌, drop, length, take};

use crate::pack::word_of;

/// The n bits from the bit `at` on as a number, the highest first; n is at most 64.
pub(crate) fn load(octets: &[u8], at: usize, n: usize) -> u64
    requires few { n ≤ 64 }
    requires inside { at + n ≤ 8 * length octets.now }
    requires short { length octets.now ≤ 2 ^ 60 }
    ensures bits { low_bits n result ≡ take n (drop at (octet_bits octets.now)) }
    ensures small { result < 2 ^ n }
{
    if n == 0 {
        return 0;
    }
    let used = at % 8;
    let front = eight_from(octets, at / 8) << used;
    if used + n <= 64 {
        return front >> (64 - n);
    }
    let next = octets[at / 8 + 8] as u64 >> (8 - used);
    (front | next) >> (64 - n)
}

/// The eight octets from a place on as a number, the first one the highest. Octets after the end count as 0.
fn eight_from(octets: &[u8], from: usize) -> u64
    requires { from ≤ length octets.now }
    ensures { Begins result octets.now from }
{
    let rest = &octets[from..];
    match rest.split_first_chunk::<8>() {
        Some((front, _)) => word_of(*front),
        None => last_octets(rest),
    }
}

/// Fewer than eight octets as a number, followed by zero octets.
fn last_octets(octets: &[u8]) -> u64
    requires { length octets.now < 8 }
    ensures { (n : ℕ) → n ≤ 8 * length octets.now → take n (low_bits 64 result) ≡ take n (octet_bits octets.now) }
{
    let number = number_of(octets);
    if octets.is_empty() {
        return 0;
    }
    number << (64 - 8 * octets.len())
}

/// Fewer than eight octets as a number.
fn number_of(octets: &[u8]) -> u64
    requires { length octets.now < 8 }
    ensures { low_bits (8 * length octets.now) result ≡ octet_bits octets.now }
{
    let mut number = 0;
    for octet in octets {
        number = number * 256 + *octet as u64;
    }
    number
}
