//! Octets after their number.

ghost use Rattle.bits.specs.Words.{low_bits};
ghost use Rattle.packed_counts.specs.Counts.{Adds};
ghost use Rattle.packed_encodings.specs.Lengths.{Counted, all_bits};
ghost use Rattle.std.specs.Prelude.{◌≡◌, ◌++◌, OnOk, map};

use crate::count::push_count;
use bits::buffer::BitBuf;
use std::alloc::AllocError;

/// Adds octets, eight bits for each. `AllocError` only if an allocation fails.
#[tactic(auto, using(crate::proofs::Parts::octets_are))]
pub fn push_octets(out: &mut BitBuf, octets: &[u8]) -> Result<(), AllocError>
    ensures { OnOk result (out.new ≡ out.old ++ all_bits (map (low_bits 8) octets.now)) }
{
    out.push_octets(octets)
}

/// Adds octets after their number, in fragments if there are many (X.691, 11.9.3). `AllocError` only if an allocation
/// fails.
pub fn push_counted_octets(out: &mut BitBuf, octets: &[u8]) -> Result<(), AllocError>
    ensures { OnOk result (Adds (Counted (map (low_bits 8) octets.now)) out.old out.new) }
{
    let next = push_count(out, octets.len())?;
    if octets.len() < 16384 {
        push_octets(out, octets)?;
        return Ok(());
    }
    let (first, rest) = octets.split_at(next);
    push_octets(out, first)?;
    push_counted_octets(out, rest)?;
    Ok(())
}
