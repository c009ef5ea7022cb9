//! How many bits numbers take (X.691, 11.5).

ghost use Rattle.packed_encodings.specs.Leaves.{place_width};
ghost use Rattle.packed_encodings.specs.Lengths.{fewest_bits};
ghost use Rattle.std.specs.Prelude.{◌≡◌, ◌-ℤ◌, ◌≤◌, nat_abs};

/// The fewest bits in which each number from 0 to `greatest` can be written, at most 128.
#[tactic(auto, using(crate::proofs::Widths::bits_left, crate::proofs::Widths::zeros_le, crate::proofs::Widths::at_most))]
#[inline(always)]
pub fn fewest(greatest: u128) -> usize
    ensures is { result ≡ fewest_bits greatest }
    ensures at_most { result ≤ 128 }
{
    (128 - greatest.leading_zeros()) as usize
}

/// How many bits the place of one of `count` items takes, at most 64.
#[tactic(auto, using(crate::proofs::Widths::few_places))]
#[inline(always)]
pub fn width_of_place(count: usize) -> usize
    ensures is { result ≡ place_width count }
    ensures at_most { result ≤ 64 }
{
    fewest(count.saturating_sub(1) as u128)
}

/// The distance between two numbers.
#[inline(always)]
pub fn span(least: i128, greatest: i128) -> u128
    ensures { result ≡ nat_abs (greatest -ℤ least) }
{
    greatest.abs_diff(least)
}
