//! The number of items by the bounds of SIZE (X.691, 16.6, 17.3, 20.4 and 11.9.4).

ghost use Rattle.asn_base.specs.Seen.{bounds_of};
ghost use Rattle.packed_counts.specs.Counts.{Adds, HasLeast, IsHead, IsRootHead};
ghost use Rattle.packed_encodings.specs.Lengths.{IsInRootBounds};
ghost use Rattle.std.specs.Prelude.{◌≡◌, ◌↔◌, ◌≤ℤ◌, ◌<ℤ◌, ◌-ℤ◌, nat_abs, IfOk, IfSome, IsTrue, false, pos};

use crate::number::push_number;
use asn_base::constraint::Bounds;
use bits::buffer::BitBuf;
use packed_code::{fewest, span};
use std::alloc::AllocError;

/// Whether the number is a size of the root.
fn is_in_root(bounds: &Bounds, count: i128) -> bool
    ensures { IsTrue result ↔ IsInRootBounds (bounds_of bounds.now) count }
{
    match bounds.least {
        Some(least) => least <= count && is_at_most(bounds, count),
        None => is_at_most(bounds, count),
    }
}

fn is_at_most(bounds: &Bounds, count: i128) -> bool
    ensures { IsTrue result ↔ IfSome bounds.now.greatest (λ g. count ≤ℤ g) }
{
    match bounds.greatest {
        Some(greatest) => count <= greatest,
        None => true,
    }
}

/// How far the number is from the least one.
fn above(least: i128, count: usize) -> u128
    ensures { result ≡ nat_abs (pos count -ℤ least) }
{
    span(least, count as i128)
}

/// Whether an upper bound is small enough for a number of constant width.
fn is_small(greatest: i128) -> bool
    ensures { IsTrue result ↔ greatest <ℤ pos 65536 }
{
    greatest < 65536
}

/// Adds the bits before items by the bounds of the root. The result is true if the items follow, and false if the items
/// after their number follow.
#[tactic(auto, using(crate::proofs::Sizes::no_greatest, crate::proofs::Sizes::large_greatest, crate::proofs::Sizes::no_least))]
fn push_root_size(out: &mut BitBuf, bounds: &Bounds, count: usize) -> Result<bool, AllocError>
    requires least { HasLeast (bounds_of bounds.now) }
    requires inside { IsInRootBounds (bounds_of bounds.now) (pos count) }
    ensures { IfOk result (λ once. Adds (IsRootHead (bounds_of bounds.now) count once) out.old out.new) }
{
    let Some(greatest) = bounds.greatest else {
        return Ok(false);
    };
    let Some(least) = bounds.least else {
        return Ok(false);
    };
    if is_small(greatest) {
        let width = fewest(span(least, greatest));
        let over = above(least, count);
        push_number(out, over, width)?;
        return Ok(true);
    }
    Ok(false)
}

/// Adds the bits before items by the bounds of SIZE. The result is true if the items follow, and false if the items
/// after their number follow (`push_count`). `AllocError` only if an allocation fails.
#[tactic(auto, using(crate::proofs::Sizes::plain_head, crate::proofs::Sizes::head_inside, crate::proofs::Sizes::head_outside))]
pub fn push_size(out: &mut BitBuf, bounds: &Bounds, count: usize) -> Result<bool, AllocError>
    requires least { HasLeast (bounds_of bounds.now) }
    requires allowed { bounds.now.extensible ≡ false → IsInRootBounds (bounds_of bounds.now) (pos count) }
    ensures { IfOk result (λ once. Adds (IsHead (bounds_of bounds.now) count once) out.old out.new) }
{
    if !bounds.extensible {
        let once = push_root_size(out, bounds, count)?;
        return Ok(once);
    }
    if !is_in_root(bounds, count as i128) {
        out.push(true)?;
        return Ok(false);
    }
    out.push(false)?;
    let once = push_root_size(out, bounds, count)?;
    Ok(once)
}
