//! Numbers as bits (X.691, 11.3).

ghost use Rattle.bits.specs.Words.{low_bits};
ghost use Rattle.std.specs.Prelude.{◌≡◌, ◌/◌, ◌%◌, ◌^◌, ◌==◌, ◌++◌, OnOk};

use bits::buffer::BitBuf;
use std::alloc::AllocError;

/// Adds the low `width` bits of a number, the most significant first. `AllocError` only if an allocation fails.
#[inline(always)]
pub fn push_number(out: &mut BitBuf, number: u128, width: usize) -> Result<(), AllocError>
    ensures { OnOk result (out.new ≡ out.old ++ low_bits width number) }
{
    if width <= 64 && number <= u64::MAX as u128 {
        return out.push_word(number as u64, width);
    }
    push_each(out, number, width)
}

/// The same, bit by bit.
#[inline(never)]
#[tactic(auto, using(crate::proofs::Numbers::one_bit))]
fn push_each(out: &mut BitBuf, number: u128, width: usize) -> Result<(), AllocError>
    ensures { OnOk result (out.new ≡ out.old ++ low_bits width number) }
{
    if width == 0 {
        return Ok(());
    }
    out.push(bit_at(number, width - 1))?;
    push_each(out, number, width - 1)?;
    Ok(())
}

/// The bit of a number at a place, counted from the least significant bit.
#[tactic(auto, using(crate::proofs::Numbers::none_high))]
fn bit_at(number: u128, place: usize) -> bool
    ensures { result ≡ (number / 2 ^ place % 2 == 1) }
{
    if place >= 128 {
        return false;
    }
    (number >> place) % 2 == 1
}
