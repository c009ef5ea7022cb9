//! BIT STRING (X.691, 16).

ghost use Rattle.asn_base.specs.Abstract.{abstract, bits_of};
ghost use Rattle.asn_base.specs.Schemas.{AreBounds, AreNamedBits, IsSize};
ghost use Rattle.asn_base.specs.Seen.{constraint_of, named_bit_of};
ghost use Rattle.asn_base.specs.Typed.{IsPrimitive};
ghost use Rattle.asn_base.specs.Types.{a_bit_string, a_named_bit_string};
ghost use Rattle.bits.specs.Words.{octet_bits, low_bits};
ghost use Rattle.packed_counts.specs.Counts.{Adds};
ghost use Rattle.packed_encodings.specs.Computed.{leaf_bits};
ghost use Rattle.packed_encodings.specs.Leaves.{singly};
ghost use Rattle.packed_encodings.specs.Lengths.{Counted};
ghost use Rattle.std.specs.Prelude.{◌≡◌, ◌++◌, ◌*◌, ◌-◌, ◌≤◌, IfOk, OnOk, length, map, take};

use crate::octets::are_octets;
use crate::value;
use asn_base::constraint::Constraint;
use asn_base::schema::NamedBit;
use asn_base::value::{BitString, Value};
use bits::buffer::BitBuf;
use encodings::{LeafKind, leaf_laws};
use packed_counts::law::count_laws;
use packed_counts::{push_count, push_size};
use packed_encodings::function_laws;
use primitive_writer::push_leaf;
use std::alloc::{AllocError, Global};

/// The greatest number of octets whose bits fit in a list of bits.
const MOST_OCTETS: usize = 1 << 58;

/// How many bits there are. `AllocError`: there are more than fit in a list of bits.
fn bit_count(bits: &BitString) -> Result<usize, AllocError>
    ensures count { IfOk result (λ n. n ≡ length (bits_of bits.now)) }
    ensures inside { IfOk result (λ n. n ≤ 8 * length bits.now.octets.items) }
    ensures all { IfOk result (λ n. n ≡ 8 * length bits.now.octets.items - bits.now.unused) }
{
    let octets = bits.octets.len();
    if octets > MOST_OCTETS {
        return Err(AllocError);
    }
    Ok(8 * octets - bits.unused as usize)
}

/// Adds the first `count` bits of octets.
fn push_first(out: &mut BitBuf, octets: &[u8], count: usize) -> Result<(), AllocError>
    requires { count ≤ 8 * length octets.now }
    ensures { OnOk result (out.new ≡ out.old ++ take count (octet_bits octets.now)) }
{
    let whole = count / 8;
    out.push_octets(front(octets, whole))?;
    let rest = count % 8;
    if rest > 0 {
        out.push_word(high_bits(octets[whole], rest), rest)?;
    }
    Ok(())
}

/// The first `count` octets.
fn front(octets: &[u8], count: usize) -> &[u8]
    requires { count ≤ length octets.now }
    ensures { result.now ≡ take count octets.now }
{
    &octets[..count]
}

/// The first `count` bits of an octet, as a number.
#[tactic(auto, using(crate::proofs::Front::high_bits))]
fn high_bits(octet: u8, count: usize) -> u64
    requires { count ≤ 8 }
    ensures { low_bits count result ≡ take count (low_bits 8 octet) }
{
    (octet as u64) >> (8 - count)
}

/// Adds the first `count` bits of octets after their number (16.11).
fn push_counted(out: &mut BitBuf, octets: &[u8], count: usize) -> Result<(), AllocError>
    requires { count ≤ 8 * length octets.now }
    ensures { OnOk result (Adds (Counted (singly (take count (octet_bits octets.now)))) out.old out.new) }
{
    count_laws();
    let next = push_count(out, count)?;
    if count < 16384 {
        push_first(out, octets, count)?;
        return Ok(());
    }
    let (first, rest) = octets.split_at(next / 8);
    out.push_octets(first)?;
    push_counted(out, rest, count - next)?;
    Ok(())
}

/// Adds the bits of a BIT STRING after their number, by the bounds of SIZE (16.6 to 16.11).
pub(crate) fn push_bit_string(
    out: &mut BitBuf,
    size: &Constraint,
    value: &Value,
) -> Result<(), AllocError>
    requires bounds { AreBounds IsSize (constraint_of size.now) }
    requires fits { IsPrimitive (a_bit_string (constraint_of size.now)) (abstract value.now) }
    ensures { OnOk result (out.new ≡ out.old
        ++ leaf_bits (a_bit_string (constraint_of size.now)) (abstract value.now)) }
{
    function_laws();
    let bits = value::bit_string(value);
    are_octets(bits.octets.as_slice());
    let count = bit_count(bits)?;
    let once = push_size(out, &size.visible, count)?;
    if once {
        push_first(out, bits.octets.as_slice(), count)?;
        Ok(())
    } else {
        push_counted(out, bits.octets.as_slice(), count)?;
        Ok(())
    }
}

/// Adds the bits of a BIT STRING with named bits, without trailing zeros, after their number (16.2).
pub(crate) fn push_named_bits(
    alloc: Global,
    out: &mut BitBuf,
    names: &[NamedBit],
    value: &Value,
) -> Result<(), AllocError>
    requires names { AreNamedBits (map named_bit_of names.now) }
    requires fits { IsPrimitive (a_named_bit_string (map named_bit_of names.now)) (abstract value.now) }
    ensures { OnOk result (out.new ≡ out.old
        ++ leaf_bits (a_named_bit_string (map named_bit_of names.now)) (abstract value.now)) }
{
    function_laws();
    leaf_laws();
    let mut octets = Vec::new(alloc);
    push_leaf(LeafKind::NamedBits, value, &mut octets)?;
    match octets.as_slice().split_first() {
        Some((unused, whole)) => {
            are_octets(whole);
            push_filled(out, whole, *unused)?;
            Ok(())
        }
        None => unreachable!(),
    }
}

/// Adds all bits of octets, except the last `unused` ones, after their number.
fn push_filled(out: &mut BitBuf, octets: &[u8], unused: u8) -> Result<(), AllocError>
    requires { unused ≤ 8 * length octets.now }
    ensures { OnOk result (Adds (Counted (singly (take (8 * length octets.now - unused) (octet_bits octets.now))))
        out.old out.new) }
{
    if octets.len() > MOST_OCTETS {
        return Err(AllocError);
    }
    push_counted(out, octets, 8 * octets.len() - unused as usize)?;
    Ok(())
}
