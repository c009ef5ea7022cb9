//! Bits and numbers of some bits.

ghost use Rattle.bits.specs.Left.{bits_left};
ghost use Rattle.packed_readings.specs.Outcome.{bit_from, field_from, outcome, small_from};
ghost use Rattle.std.specs.Prelude.{◌≡◌, ◌≤◌, ◌<◌, ◌^◌, IfOk};

use bits::cursor::Bits;
use decode_faults::Refusal;

/// Takes the next bit. `Truncated`: none is left.
#[inline(always)]
pub fn read_bit(bits: &mut Bits<'_>) -> Result<bool, Refusal>
    ensures { bit_from (bits_left bits.old) ≡ outcome result (bits_left bits.new) }
{
    if bits.len() == 0 {
        return Err(Refusal::Truncated);
    }
    let number = bits.take(1);
    Ok(number == 1)
}

/// Takes the next `width` bits, at most 64, as a number, the most significant bit first. `Truncated`: fewer are left,
/// and none is taken.
#[inline(always)]
pub fn read_field(bits: &mut Bits<'_>, width: usize) -> Result<u64, Refusal>
    requires { width ≤ 64 }
    ensures is { field_from width (bits_left bits.old) ≡ outcome result (bits_left bits.new) }
    ensures small { IfOk result (λ n. n < 2 ^ width) }
{
    if bits.len() < width {
        return Err(Refusal::Truncated);
    }
    Ok(bits.take(width))
}

/// Takes a small number (X.691, 11.6.1): a bit 0, and six bits. If the first bit is 1, the error is `refusal`, and no
/// bit is taken. `Truncated`: the bits end before.
pub fn read_small(bits: &mut Bits<'_>, refusal: Refusal) -> Result<u64, Refusal>
    ensures is { small_from refusal (bits_left bits.old) ≡ outcome result (bits_left bits.new) }
    ensures small { IfOk result (λ n. n < 64) }
{
    let start = *bits;
    match read_bit(bits) {
        Ok(false) => read_field(bits, 6),
        Ok(true) => {
            *bits = start;
            Err(refusal)
        }
        Err(truncated) => Err(truncated),
    }
}

/// The same as `read_field` for at most 128 bits.
#[inline(always)]
pub(crate) fn read_wide(bits: &mut Bits<'_>, width: usize) -> Result<u128, Refusal>
    requires { width ≤ 128 }
    ensures { field_from width (bits_left bits.old) ≡ outcome result (bits_left bits.new) }
{
    if width <= 64 {
        return match read_field(bits, width) {
            Ok(number) => Ok(number as u128),
            Err(truncated) => Err(truncated),
        };
    }
    if bits.len() < width {
        return Err(Refusal::Truncated);
    }
    let high = bits.take(width - 64);
    let low = bits.take(64);
    Ok(high as u128 * 18_446_744_073_709_551_616 + low as u128)
}
