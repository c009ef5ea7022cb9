//! The number of items (X.691, 11.9.3).

ghost use Rattle.packed_counts.specs.Counts.{count_bits, items_next};
ghost use Rattle.bits.specs.Words.{low_bits};
ghost use Rattle.std.specs.Prelude.{◌≡◌, ◌<◌, ◌≤◌, ◌++◌, ◌∷◌, true, false, IfOk, OnOk};

use bits::buffer::BitBuf;
use std::alloc::AllocError;

/// Adds the bits before the next items, if `count` items are left. The result is how many items come next. `AllocError`
/// only if an allocation fails.
#[tactic(auto, using(crate::proofs::Parts::few_bits, crate::proofs::Parts::some_bits, crate::proofs::Parts::part_bits, crate::proofs::Parts::all_next, crate::proofs::Parts::part_next))]
pub fn push_count(out: &mut BitBuf, count: usize) -> Result<usize, AllocError>
    ensures next { IfOk result (λ n. n ≡ items_next count) }
    ensures bits { OnOk result (out.new ≡ out.old ++ count_bits count) }
{
    if count < 128 {
        push_few(out, count)?;
        return Ok(count);
    }
    if count < 16384 {
        push_some(out, count)?;
        return Ok(count);
    }
    let times = if count < 65536 { count / 16384 } else { 4 };
    push_times(out, times)?;
    Ok(16384 * times)
}

fn push_few(out: &mut BitBuf, count: usize) -> Result<(), AllocError>
    ensures { OnOk result (out.new ≡ out.old ++ (false ∷ low_bits 7 count)) }
{
    out.push(false)?;
    out.push_word(count as u64, 7)?;
    Ok(())
}

fn push_some(out: &mut BitBuf, count: usize) -> Result<(), AllocError>
    ensures { OnOk result (out.new ≡ out.old ++ (true ∷ (false ∷ low_bits 14 count))) }
{
    out.push(true)?;
    out.push(false)?;
    out.push_word(count as u64, 14)?;
    Ok(())
}

fn push_times(out: &mut BitBuf, times: usize) -> Result<(), AllocError>
    ensures { OnOk result (out.new ≡ out.old ++ (true ∷ (true ∷ low_bits 6 times))) }
{
    out.push(true)?;
    out.push(true)?;
    out.push_word(times as u64, 6)?;
    Ok(())
}
