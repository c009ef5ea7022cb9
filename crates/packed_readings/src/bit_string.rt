//! Bits after their number (X.691, 16).

ghost use Rattle.asn_base.specs.Abstract.{bits as bits_value, bits_of, bits_of_octet};
ghost use Rattle.asn_base.specs.Schemas.{AreBounds, IsSize};
ghost use Rattle.asn_base.specs.Seen.{constraint_of};
ghost use Rattle.bits.specs.Left.{bits_left};
ghost use Rattle.bits.specs.Words.{octet_bits};
ghost use Rattle.packed_readings.specs.Code.{GainedBits, IsBitStep, test_of};
ghost use Rattle.packed_readings.specs.Counts.{any_total, counted_from, parts_from, several_bits, sized_from};
ghost use Rattle.packed_readings.specs.Leaves.{ends_in_zero, named_bits};
ghost use Rattle.packed_readings.specs.Outcome.{IsFault, found, judging};
ghost use Rattle.std.specs.Prelude.{◌≡◌, ◌==◌, ◌*◌, ◌/◌, ◌%◌, ◌-◌, ◌^◌, ◌<◌, ◌≤◌, ℕ, suc, IfErr, IfOk, flat_map, length, take};

use crate::character::are_octets;
use crate::count::Count;
use crate::refusal::PackedFault;
use crate::size::{Sizing, read_size};
use crate::strings::{Total, read_total};
use asn_base::constraint::Constraint;
use asn_base::value::BitString;
use bits::cursor::Bits;
use decode_faults::Refusal;
use std::alloc::Global;

/// A number of `count` bits, as the first bits of an octet.
fn first_bits(number: u64, count: usize) -> u8
    requires some { 1 ≤ count }
    requires few { count < 8 }
    requires small { number < 2 ^ count }
    ensures { result ≡ number * 2 ^ (8 - count) }
{
    match count {
        1 => (number * 128) as u8,
        2 => (number * 64) as u8,
        3 => (number * 32) as u8,
        4 => (number * 16) as u8,
        5 => (number * 8) as u8,
        6 => (number * 4) as u8,
        _ => (number * 2) as u8,
    }
}

/// Takes `count` bits, and adds the octets that they fill. The result is how many bits of the last octet are unused.
fn read_bits(count: usize, bits: &mut Bits<'_>, out: &mut Vec<u8>) -> Result<u8, PackedFault>
    ensures ok { IfOk result
        (λ u. GainedBits (several_bits count (bits_left bits.old)) out.old.items out.new.items u (bits_left bits.new)) }
    ensures err { IfErr result (λ e. IsFault (several_bits count (bits_left bits.old)) e (bits_left bits.new)) }
{
    if bits.len() < count {
        return Err(PackedFault::Refused(Refusal::Truncated));
    }
    match bits.take_octets(count / 8, out) {
        Ok(()) => {}
        Err(_) => return Err(PackedFault::Memory),
    }
    let rest = count % 8;
    if rest == 0 {
        return Ok(0);
    }
    let last = bits.take(rest);
    match out.push(first_bits(last, rest)) {
        Ok(()) => Ok((8 - rest) as u8),
        Err(_) => Err(PackedFault::Memory),
    }
}

/// What follows the bits of one number. `Nothing` has the number of unused bits of the last octet. `More` announces a
/// further number; it is true if that number may be a part.
#[derive(Clone, Copy)]
pub(crate) enum NextBits {
    Nothing(u8),
    More(bool),
}

/// Takes the bits of one number, after those in whole octets.
fn read_bit_part(
    total: &Total<'_>,
    full: bool,
    bits: &mut Bits<'_>,
    out: &mut Vec<u8>,
) -> Result<NextBits, PackedFault>
    ensures ok { IfOk result
        (λ n. IsBitStep (test_of total.now) full
        out.old.items out.new.items n (bits_left bits.old) (bits_left bits.new)) }
    ensures err { IfErr result
        (λ e. (k : ℕ) → IsFault (parts_from (suc k) (test_of total.now) several_bits full (octet_bits
        out.old.items) (bits_left bits.old)) e (bits_left bits.new)) }
{
    let before = 8 * out.as_slice().len() as u128;
    match read_total(total, before, full, bits) {
        Ok(Count::Last(count)) => match read_bits(count, bits, out) {
            Ok(unused) => Ok(NextBits::Nothing(unused)),
            Err(fault) => Err(fault),
        },
        Ok(Count::Part(times)) => match read_bits(16384 * times, bits, out) {
            Ok(_) => Ok(NextBits::More(times == 4)),
            Err(fault) => Err(fault),
        },
        Err(refusal) => Err(PackedFault::Refused(refusal)),
    }
}

/// Takes bits after their number.
fn read_counted_bits(
    alloc: Global,
    total: &Total<'_>,
    bits: &mut Bits<'_>,
) -> Result<BitString, PackedFault>
    ensures ok { IfOk result
        (λ b. counted_from (test_of total.now) several_bits (bits_left bits.old)
        ≡ found (bits_of b) (bits_left bits.new)) }
    ensures err { IfErr result
        (λ e. IsFault (counted_from (test_of total.now) several_bits (bits_left bits.old)) e (bits_left bits.new)) }
{
    let mut out = Vec::new(alloc);
    let mut full = true;
    let mut unused = 0;
    let mut more = true;
    while more {
        match read_bit_part(total, full, bits, &mut out) {
            Ok(NextBits::Nothing(last)) => {
                unused = last;
                more = false;
            }
            Ok(NextBits::More(next)) => full = next,
            Err(fault) => return Err(fault),
        }
    }
    are_octets(out.as_slice());
    Ok(BitString::of(out, unused))
}

/// Takes `count` bits as a string.
fn read_bits_at_once(
    alloc: Global,
    count: usize,
    bits: &mut Bits<'_>,
) -> Result<BitString, PackedFault>
    ensures ok { IfOk result (λ b. several_bits count (bits_left bits.old) ≡ found (bits_of b) (bits_left bits.new)) }
    ensures err { IfErr result (λ e. IsFault (several_bits count (bits_left bits.old)) e (bits_left bits.new)) }
{
    let mut out = Vec::new(alloc);
    match read_bits(count, bits, &mut out) {
        Ok(unused) => {
            are_octets(out.as_slice());
            Ok(BitString::of(out, unused))
        }
        Err(fault) => Err(fault),
    }
}

/// Takes a BIT STRING of as many bits as SIZE bounds (X.691, 16.6 to 16.11). The faults are those of
/// `read_octet_string`.
pub fn read_bit_string(
    alloc: Global,
    constraint: &Constraint,
    bits: &mut Bits<'_>,
) -> Result<BitString, PackedFault>
    requires { AreBounds IsSize (constraint_of constraint.now) }
    ensures ok { IfOk result
        (λ b. sized_from (constraint_of constraint.now) several_bits (bits_left bits.old)
        ≡ found (bits_of b) (bits_left bits.new)) }
    ensures err { IfErr result
        (λ e. IsFault (sized_from (constraint_of constraint.now) several_bits (bits_left bits.old))
        e (bits_left bits.new)) }
{
    match read_size(constraint, bits) {
        Ok(Sizing::AtOnce(count)) => read_bits_at_once(alloc, count, bits),
        Ok(Sizing::Counted(outside)) => {
            let total = Total::Sized(constraint, outside);
            read_counted_bits(alloc, &total, bits)
        }
        Err(refusal) => Err(PackedFault::Refused(refusal)),
    }
}

/// The bit of an octet before its last `count` bits.
fn bit_before(octet: u8, count: u8) -> bool
    requires { count < 8 }
    ensures { result ≡ (octet / 2 ^ count % 2 == 1) }
{
    (octet >> count) % 2 == 1
}

/// Whether the last bit of the string is 0.
fn ends_in_zero(octets: &[u8], unused: u8) -> bool
    requires { unused < 8 }
    ensures { result ≡ ends_in_zero (take (8 * length octets.now - unused) (flat_map bits_of_octet octets.now)) }
{
    are_octets(octets);
    match octets.split_last() {
        Some((last, _)) => !bit_before(*last, unused),
        None => false,
    }
}

/// Takes a BIT STRING with named bits (X.691, 16.2 and 16.11). `NotCanonical`: its last bit is 0; the cursor stays at
/// the start of the string. Further faults are those of `read_octets`.
pub fn read_named_bits(alloc: Global, bits: &mut Bits<'_>) -> Result<BitString, PackedFault>
    ensures ok { IfOk result
        (λ b. judging named_bits (counted_from any_total several_bits) (bits_left bits.old)
        ≡ found (bits_value (bits_of b)) (bits_left bits.new)) }
    ensures err { IfErr result
        (λ e. IsFault (judging named_bits (counted_from any_total several_bits) (bits_left bits.old))
        e (bits_left bits.new)) }
{
    let start = *bits;
    let string = match read_counted_bits(alloc, &Total::Any, bits) {
        Ok(string) => string,
        Err(fault) => return Err(fault),
    };
    if ends_in_zero(string.octets.as_slice(), string.unused) {
        *bits = start;
        return Err(PackedFault::Refused(Refusal::NotCanonical));
    }
    Ok(string)
}
