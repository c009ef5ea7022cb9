//! Characters of an alphabet (X.691, 30.5).

ghost use Rattle.asn_base.specs.Names.{IsMember};
ghost use Rattle.bits.specs.Left.{bits_left};
ghost use Rattle.packed_encodings.specs.Computed.{all_below};
ghost use Rattle.packed_encodings.specs.Leaves.{place_width};
ghost use Rattle.packed_readings.specs.Code.{Gained};
ghost use Rattle.packed_readings.specs.Leaves.{character_from, character_of, is_code};
ghost use Rattle.packed_readings.specs.Outcome.{IsFault, bad, each_from, good, outcome};
ghost use Rattle.packed_readings.specs.proving.Progress.{Added, Faults, Starts};
ghost use Rattle.std.specs.Int.Digits.{AllBelowBase};
ghost use Rattle.std.specs.Prelude.{◌≡◌, ◌↔◌, ◌*◌, ◌/◌, ◌^◌, ◌<◌, ◌≤◌, drop, length};
ghost use Rattle.std.specs.Prelude.{IfErr, IfOk, IsTrue, OnOk, nat_lt, ℕ};

use crate::field::read_field;
use crate::refusal::PackedFault;
use asn_base::alphabet;
use bits::cursor::Bits;
use decode_faults::Refusal;
use packed_code::width_of_place;

/// Whether the code is in the alphabet.
#[inline(always)]
fn is_among(alphabet: &[u8], code: u64) -> bool
    ensures { IsTrue result ↔ IsMember code alphabet.now }
{
    are_octets(alphabet);
    if code > 255 {
        return false;
    }
    alphabet::is_code(alphabet, code as u8)
}

/// Whether the code is in the alphabet.
#[inline(always)]
#[tactic(auto, using(crate::proofs::Items::code_same))]
fn is_code(alphabet: &[u8], code: u64) -> bool
    ensures { result ≡ is_code alphabet.now code }
{
    is_among(alphabet, code)
}

/// Each item of a slice of octets is below 256.
pub(crate) fn are_octets(octets: &[u8])
    ensures { AllBelowBase 256 octets.now }
{}

/// The greatest code, or 0 if there is none.
fn greatest_code(alphabet: &[u8]) -> u8
    ensures { (n : ℕ) → 0 < n → all_below n alphabet.now ≡ nat_lt result n }
{
    let mut greatest = 0;
    for code in alphabet {
        greatest = greatest.max(*code);
    }
    greatest
}

/// Whether all codes fit in as many bits as a place in the alphabet takes.
fn is_by_code(alphabet: &[u8], width: usize) -> bool
    requires { width ≤ 64 }
    ensures { result ≡ all_below (2 ^ width) alphabet.now }
{
    (greatest_code(alphabet) as u128) < 1u128 << width
}

/// The character with this code, if `by_code` is true, or at this place.
#[inline(always)]
#[tactic(auto, using(crate::proofs::Items::code_octet))]
fn character(alphabet: &[u8], by_code: bool, number: u64) -> Result<u8, Refusal>
    requires { by_code ≡ all_below (2 ^ place_width (length alphabet.now)) alphabet.now }
    ensures ok { IfOk result (λ c. character_of alphabet.now number ≡ good c) }
    ensures err { IfErr result (λ e. character_of alphabet.now number ≡ bad e) }
{
    are_octets(alphabet);
    if by_code {
        if is_code(alphabet, number) {
            return Ok(number as u8);
        }
        return Err(Refusal::Outside);
    }
    match alphabet.get(number as usize) {
        Some(code) => Ok(*code),
        None => Err(Refusal::Outside),
    }
}

/// An alphabet: its codes, and how many bits a character has. The bits are the code if all codes fit, or else its place
/// in the alphabet (30.5.4).
#[derive(Clone, Copy)]
struct Alphabet<'a> {
    codes: &'a [u8],
    width: usize,
    by_code: bool,
    ghost wide: { width ≡ place_width (length codes.now) },
    ghost few: { width ≤ 64 },
    ghost tested: { by_code ≡ all_below (2 ^ place_width (length codes.now)) codes.now },
}

fn alphabet_of(codes: &[u8]) -> Alphabet<'_>
    ensures { result.codes.now ≡ codes.now }
{
    let width = width_of_place(codes.len());
    let by_code = is_by_code(codes, width);
    Alphabet {
        codes,
        width,
        by_code,
    }
}

/// Takes one character.
fn read_character(alphabet: Alphabet<'_>, bits: &mut Bits<'_>) -> Result<u8, Refusal>
    ensures { character_from alphabet.entry.codes.now (bits_left bits.old) ≡ outcome result (bits_left bits.new) }
{
    let start = *bits;
    let number = match read_field(bits, alphabet.width) {
        Ok(number) => number,
        Err(truncated) => return Err(truncated),
    };
    match character(alphabet.codes, alphabet.by_code, number) {
        Ok(code) => Ok(code),
        Err(refusal) => {
            *bits = start;
            Err(refusal)
        }
    }
}

/// Takes one character, whose bits are known: they are those of `number` before its last `after` bits.
#[inline(always)]
fn take_known(
    alphabet: Alphabet<'_>,
    number: u64,
    after: usize,
    bits: &mut Bits<'_>,
) -> Result<u8, Refusal>
    requires few { alphabet.width ≤ 8 }
    requires small { after < 64 }
    requires known { Starts alphabet.width (number / 2 ^ after) (bits_left bits.old) }
    ensures is { character_from alphabet.entry.codes.now (bits_left bits.old) ≡ outcome result (bits_left bits.new) }
    ensures taken { IfOk result (λ c. bits_left bits.new ≡ drop alphabet.entry.width (bits_left bits.old)) }
{
    let only = (number >> after) & ((1 << alphabet.width) - 1);
    match character(alphabet.codes, alphabet.by_code, only) {
        Ok(code) => {
            bits.skip(alphabet.width);
            Ok(code)
        }
        Err(refusal) => Err(refusal),
    }
}

/// Takes some characters, whose bits are taken as one number, and adds their codes.
fn read_group(
    alphabet: Alphabet<'_>,
    count: usize,
    bits: &mut Bits<'_>,
    out: &mut Vec<u8>,
) -> Result<(), PackedFault>
    requires narrow { alphabet.width ≤ 8 }
    requires few { count ≤ 8 }
    requires left { count * alphabet.width ≤ length (bits_left bits.old) }
    ensures ok { OnOk result (Added (character_from alphabet.entry.codes.now) count (bits_left bits.old)
        out.old.items out.new.items (bits_left bits.new)) }
    ensures err { IfErr result
        (λ e. Faults (character_from alphabet.entry.codes.now) count (bits_left bits.old) e (bits_left bits.new)) }
{
    let mut ahead = *bits;
    let number = ahead.take(count * alphabet.width);
    for i in 0..count {
        let code = match take_known(alphabet, number, (count - 1 - i) * alphabet.width, bits) {
            Ok(code) => code,
            Err(refusal) => return Err(PackedFault::Refused(refusal)),
        };
        match out.push(code) {
            Ok(()) => {}
            Err(_) => return Err(PackedFault::Memory),
        }
    }
    Ok(())
}

/// Takes one character, and adds its code.
fn read_one(
    alphabet: Alphabet<'_>,
    bits: &mut Bits<'_>,
    out: &mut Vec<u8>,
) -> Result<(), PackedFault>
    ensures ok { OnOk result (Added (character_from alphabet.entry.codes.now) 1 (bits_left bits.old)
        out.old.items out.new.items (bits_left bits.new)) }
    ensures err { IfErr result
        (λ e. Faults (character_from alphabet.entry.codes.now) 1 (bits_left bits.old) e (bits_left bits.new)) }
{
    let code = match read_character(alphabet, bits) {
        Ok(code) => code,
        Err(refusal) => return Err(PackedFault::Refused(refusal)),
    };
    match out.push(code) {
        Ok(()) => Ok(()),
        Err(_) => Err(PackedFault::Memory),
    }
}

/// Takes the next characters, up to eight but at most `left`, and adds their codes. The result is how many they are. If
/// the bits end before so many, one is taken.
fn read_next(
    alphabet: Alphabet<'_>,
    left: usize,
    bits: &mut Bits<'_>,
    out: &mut Vec<u8>,
) -> Result<usize, PackedFault>
    requires { 0 < left }
    ensures some { IfOk result (λ n. (0 < n) × (n ≤ left)) }
    ensures ok { IfOk result (λ n. Added (character_from alphabet.entry.codes.now) n (bits_left bits.old)
        out.old.items out.new.items (bits_left bits.new)) }
    ensures err { IfErr result
        (λ e. Faults (character_from alphabet.entry.codes.now) left (bits_left bits.old) e (bits_left bits.new)) }
{
    let count = left.min(8);
    if alphabet.width <= 8 && count * alphabet.width <= bits.len() {
        match read_group(alphabet, count, bits, out) {
            Ok(()) => Ok(count),
            Err(fault) => Err(fault),
        }
    } else {
        match read_one(alphabet, bits, out) {
            Ok(()) => Ok(1),
            Err(fault) => Err(fault),
        }
    }
}

/// Takes `count` characters, and adds their codes.
pub(crate) fn read_characters(
    alphabet: &[u8],
    count: usize,
    bits: &mut Bits<'_>,
    out: &mut Vec<u8>,
) -> Result<(), PackedFault>
    ensures ok { OnOk result
        (Gained (each_from (character_from alphabet.now) count (bits_left bits.old))
        out.old.items out.new.items (bits_left bits.new)) }
    ensures err { IfErr result
        (λ e. IsFault (each_from (character_from alphabet.now) count (bits_left bits.old)) e (bits_left bits.new)) }
{
    let known = alphabet_of(alphabet);
    let mut left = count;
    while left > 0 {
        match read_next(known, left, bits, out) {
            Ok(taken) => left -= taken,
            Err(fault) => return Err(fault),
        }
    }
    Ok(())
}
