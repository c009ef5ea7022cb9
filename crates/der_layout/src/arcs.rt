//! The numbers of object identifiers as contents octets (X.690, 8.19 and 8.20).

ghost use Rattle.encodings.specs.Header.{septets};
ghost use Rattle.std.specs.Prelude.{◌≡◌, ◌++◌, ◌∷◌, [], OnOk, flat_map};

use crate::table::add_one;
use arrayvec::ArrayVec;
use primitive_writer::push_septets;
use std::alloc::AllocError;

/// Adds a number in septets, and then each of the other numbers. `AllocError` only if an allocation fails.
pub(crate) fn push_arcs(out: &mut Vec<u8>, first: u128, others: &[u64]) -> Result<(), AllocError>
    ensures { OnOk result (out.new.items ≡ out.old.items ++ (septets first ++ flat_map septets others.now)) }
{
    push_arc(out, first)?;
    push_others(out, others)
}

/// Adds each number in septets. `AllocError` only if an allocation fails.
#[inline(always)]
fn push_others(out: &mut Vec<u8>, numbers: &[u64]) -> Result<(), AllocError>
    ensures { OnOk result (out.new.items ≡ out.old.items ++ flat_map septets numbers.now) }
{
    for i in 0..numbers.len() {
        push_arc(out, numbers[i] as u128)?;
    }
    Ok(())
}

/// Adds a number in septets. `AllocError` only if an allocation fails.
#[inline(always)]
#[tactic(auto, using(crate::proofs::Room::one_septet))]
fn push_arc(out: &mut Vec<u8>, number: u128) -> Result<(), AllocError>
    ensures { OnOk result (out.new.items ≡ out.old.items ++ septets number) }
{
    if number < 128 {
        add_one(out, number as u8)
    } else {
        push_long_arc(out, number)
    }
}

/// Adds a number in septets. `AllocError` only if an allocation fails.
#[inline(never)]
fn push_long_arc(out: &mut Vec<u8>, number: u128) -> Result<(), AllocError>
    ensures { OnOk result (out.new.items ≡ out.old.items ++ septets number) }
{
    let mut few = ArrayVec::new();
    push_septets(&mut few, number);
    out.extend_from_slice(few.as_slice())
}
