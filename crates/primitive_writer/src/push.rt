//! Contents octets that are added to a list.

ghost use Rattle.asn_base.specs.Abstract.{abstract};
ghost use Rattle.encodings.specs.Leaves.{HasContents};
ghost use Rattle.encodings.specs.Header.{septets};
ghost use Rattle.primitive_writer.specs.Held.{HasSome};
ghost use Rattle.primitive_writer.specs.Pieces.{joined_pieces, last_of};
ghost use Rattle.std.specs.Io.{StartsWith};
ghost use Rattle.std.specs.Prelude.{◌≡◌, ◌++◌, ◌∷◌, List, OnErr, OnOk, flat_map, ℕ};

use crate::buffer::push_septets;
use crate::law::lemma_one_contents;
use crate::leaf::{PrimitiveContents, primitive_contents};
use arrayvec::ArrayVec;
use asn_base::value::Value;
use encodings::LeafKind;
use std::alloc::AllocError;

/// Adds the contents octets of this kind for the value, which must have some. `AllocError`: an allocation failed, and
/// nothing was added.
pub fn push_leaf(kind: LeafKind, value: &Value, out: &mut Vec<u8>) -> Result<(), AllocError>
    requires { HasSome kind (abstract value.now) }
    ensures ok { (x : List ℕ)
        → HasContents kind (abstract value.now) x
        → OnOk result (out.new.items ≡ out.old.items ++ x) }
    ensures err { OnErr result (out.new.items ≡ out.old.items) }
{
    lemma_one_contents();
    match primitive_contents(kind, value) {
        Some(octets) => push_pieces(&octets, out),
        None => unreachable!(),
    }
}

/// Adds the pieces. `AllocError`: an allocation failed, and nothing was added.
fn push_pieces(octets: &PrimitiveContents, out: &mut Vec<u8>) -> Result<(), AllocError>
    ensures ok { OnOk result (out.new.items ≡ out.old.items ++ joined_pieces octets.now) }
    ensures err { OnErr result (out.new.items ≡ out.old.items) }
{
    let before = out.len();
    match push_all_pieces(octets, out) {
        Ok(()) => Ok(()),
        Err(error) => {
            out.truncate(before);
            Err(error)
        }
    }
}

/// Adds the pieces. `AllocError`: an allocation failed, and some octets may have been added.
fn push_all_pieces(octets: &PrimitiveContents, out: &mut Vec<u8>) -> Result<(), AllocError>
    ensures ok { OnOk result (out.new.items ≡ out.old.items ++ joined_pieces octets.now) }
    ensures appended { StartsWith out.new.items out.old.items }
{
    match octets {
        PrimitiveContents::One(octet) => out.extend_from_slice(&[*octet]),
        PrimitiveContents::Few(few) => out.extend_from_slice(few.as_slice()),
        PrimitiveContents::Whole(whole) => out.extend_from_slice(whole),
        PrimitiveContents::Bits(unused, whole, last) => push_bits(*unused, whole, *last, out),
        PrimitiveContents::Arcs(first, others) => {
            push_arc(*first, out)?;
            push_arcs(others, out)
        }
    }
}

/// Adds the contents octets of a BIT STRING. `AllocError`: an allocation failed, and some octets may have been added.
fn push_bits(
    unused: u8,
    whole: &[u8],
    last: Option<u8>,
    out: &mut Vec<u8>,
) -> Result<(), AllocError>
    ensures ok { OnOk result (out.new.items ≡ out.old.items ++ unused ∷ (whole.now ++ last_of last)) }
    ensures appended { StartsWith out.new.items out.old.items }
{
    out.extend_from_slice(&[unused])?;
    out.extend_from_slice(whole)?;
    match last {
        Some(octet) => out.extend_from_slice(&[octet]),
        None => Ok(()),
    }
}

/// Adds a number in septets. `AllocError`: an allocation failed, and nothing was added.
#[tactic(auto, using(crate::proofs::Digits::one_septet))]
fn push_arc(number: u128, out: &mut Vec<u8>) -> Result<(), AllocError>
    ensures ok { OnOk result (out.new.items ≡ out.old.items ++ septets number) }
    ensures appended { StartsWith out.new.items out.old.items }
{
    if number < 128 {
        return out.extend_from_slice(&[number as u8]);
    }
    let mut few = ArrayVec::new();
    push_septets(&mut few, number);
    out.extend_from_slice(few.as_slice())
}

/// Adds numbers in septets. `AllocError`: an allocation failed, and some octets may have been added.
fn push_arcs(numbers: &[u64], out: &mut Vec<u8>) -> Result<(), AllocError>
    ensures ok { OnOk result (out.new.items ≡ out.old.items ++ flat_map septets numbers.now) }
    ensures appended { StartsWith out.new.items out.old.items }
{
    for i in 0..numbers.len() {
        push_arc(numbers[i] as u128, out)?;
    }
    Ok(())
}
