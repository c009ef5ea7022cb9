//! Strings of named bits, by the names of the bits that are set.

ghost use Rattle.std.specs.Prelude.{◌≡◌, ◌≤◌, ◌<◌, ℕ, suc, [], IfErr, IfOk, MatchOption, None, OnOk, Some, bytes_eq};
ghost use Rattle.std.specs.Prelude.{◌*◌, flat_map, length, map, set, true};
ghost use Rattle.std.specs.Int.Digits.{AllBelowBase};
ghost use Rattle.std.specs.List.{AllByRecursion};
ghost use Rattle.asn_base.specs.Abstract.{abstract, bits_of, bits_of_octet};
ghost use Rattle.asn_base.specs.Schemas.{AreNamedBits};
ghost use Rattle.asn_base.specs.Seen.{kind_of, named_bit_of};
ghost use Rattle.value_builders.specs.Made.{AreBitPlaces, AreSetBits, IsBits, IsAmong};
ghost use Rattle.value_builders.specs.Named.{bit_of, bits_in};
ghost use Rattle.value_builders.specs.Refused.{IsNoBitAmong, IsNoBits};

use crate::build_fault::BuildFault;
use crate::names::core_of;
use asn_base::law::lemma_abstract_values;
use asn_base::schema::{Core, NamedBit, Schema, TypeId};
use asn_base::value::{BitString, Value};
use bits::buffer::BitBuf;
use std::alloc::{AllocError, Global};

/// Whether the bit has the name.
fn is_bit(bit: &NamedBit, name: &str) -> bool
    ensures { result ≡ bytes_eq (named_bit_of bit.now).name name.now }
{
    bit.name.as_str() == name
}

/// The place in the string of the bit with a name, from 0, or None if no bit has it.
fn bit_place(bits: &[NamedBit], name: &str) -> Option<usize>
    ensures { result ≡ bit_of (map named_bit_of bits.now) name.now }
{
    for bit in bits {
        if is_bit(bit, name) {
            return Some(bit.place);
        }
    }
    None
}

/// The places of the bits with these names.
fn places_of(alloc: Global, bits: &[NamedBit], names: &[&str]) -> Result<Vec<usize>, BuildFault>
    ensures ok { IfOk result (λ ps.
        AreBitPlaces (map named_bit_of bits.now) (map (λ n. n.now) names.now) ps.items) }
    ensures refused { IfErr result (IsNoBitAmong (map named_bit_of bits.now) (map (λ n. n.now) names.now)) }
{
    let mut places = Vec::new(alloc);
    for name in names {
        match bit_place(bits, *name) {
            Some(place) => places.push(place)?,
            None => return Err(BuildFault::NoBit(String::from_str(alloc, *name)?)),
        }
    }
    Ok(places)
}

/// How many bits there are up to the greatest of some places.
fn bit_count(places: &[usize]) -> usize
    requires within { AllByRecursion (λ p. p ≤ 65535) places.now }
    ensures all { AllByRecursion (λ p. p < result) places.now }
    ensures greatest { (n : ℕ) → result ≡ suc n → IsAmong places.now n }
    ensures few { result ≤ 65536 }
{
    let mut count = 0;
    for place in places {
        if *place >= count {
            count = *place + 1;
        }
    }
    count
}

/// Sets a bit of an octet. The places of its bits count from 0, the highest bit first.
fn with_bit(octet: u8, place: usize) -> u8
    requires { place < 8 }
    ensures { bits_of_octet result ≡ set (bits_of_octet octet) place true }
{
    let value = 128u8 >> place;
    if octet / value % 2 == 1 {
        octet
    } else {
        octet + value
    }
}

/// Sets the bit at a place in octets.
fn set_bit(octets: &mut Vec<u8>, place: usize)
    requires { place < 8 * length octets.old.items }
    ensures long { length octets.new.items ≡ length octets.old.items }
    ensures bits { flat_map bits_of_octet octets.new.items
        ≡ set (flat_map bits_of_octet octets.old.items) place true }
{
    let at = place / 8;
    octets[at] = with_bit(octets[at], place % 8);
}

/// Returns a BIT STRING (X.680, clause 22) in which the bits at some places are set, and no others. The places count
/// from 0, and none is greater than 65,535. The last bit is at the greatest place. `AllocError`: an allocation failed.
pub fn set_bits(alloc: Global, places: &[usize]) -> Result<BitString, AllocError>
    requires within { AllByRecursion (λ p. p ≤ 65535) places.now }
    // Exactly the bits at these places are set.
    ensures { IfOk result (λ b. AreSetBits places.now (bits_of b)) }
{
    let count = bit_count(places);
    let mut octets = vec![in alloc; 0u8; (count + 7) / 8]?;
    for place in places {
        set_bit(&mut octets, *place);
    }
    let unused = (8 - count % 8) % 8;
    Ok(BitString::of(octets, unused as u8))
}

/// How many octets there are.
fn octet_count(octets: &[u8]) -> usize
    ensures count { result ≡ length octets.now }
    ensures below { AllBelowBase 256 octets.now }
{
    octets.len()
}

/// Puts bits into an empty list of bits.
fn fill(bits: &[bool], buffer: &mut BitBuf) -> Result<(), AllocError>
    requires empty { buffer.old ≡ [] }
    ensures { OnOk result (buffer.new ≡ bits.now) }
{
    for bit in bits {
        buffer.push(*bit)?;
    }
    Ok(())
}

/// Returns a BIT STRING of these bits (X.680, clause 22). Its last octet is filled with zeros. `AllocError`: an
/// allocation failed.
pub fn bit_string(alloc: Global, bits: &[bool]) -> Result<BitString, AllocError>
    // The string has these bits, in order.
    ensures { IfOk result (λ b. bits_of b ≡ bits.now) }
{
    let mut buffer = BitBuf::new(alloc);
    fill(bits, &mut buffer)?;
    buffer.pad()?;
    let octets = buffer.into_octets()?;
    let count = octet_count(octets.as_slice());
    let unused = (8 - bits.len() % 8) % 8;
    Ok(BitString::of(octets, unused as u8))
}

/// The named bits of a BIT STRING, or None for another kind.
fn named_bits_of(core: &Core) -> Option<&[NamedBit]>
    ensures { MatchOption result
        (bits_in (kind_of core.now) ≡ None)
        (λ bs. bits_in (kind_of core.now) ≡ Some (map named_bit_of bs.now)) }
{
    match core {
        Core::NamedBits(bits) => Some(bits.as_slice()),
        _ => None,
    }
}

/// The string in which the bits with these names are set, and no others; its last bit is the last one that is set.
fn string_of(alloc: Global, bits: &[NamedBit], names: &[&str]) -> Result<BitString, BuildFault>
    requires { AreNamedBits (map named_bit_of bits.now) }
    ensures ok { IfOk result (λ b. (ps : _)
        × AreBitPlaces (map named_bit_of bits.now) (map (λ n. n.now) names.now) ps
        × AreSetBits ps (bits_of b)) }
    ensures refused { IfErr result (IsNoBitAmong (map named_bit_of bits.now) (map (λ n. n.now) names.now)) }
{
    let places = match places_of(alloc, bits, names) {
        Ok(places) => places,
        Err(fault) => return Err(fault),
    };
    Ok(set_bits(alloc, places.as_slice())?)
}

/// Makes a value of a BIT STRING with named bits (X.680, clause 22): exactly the bits with these names are set, and no
/// zeros follow the last of them. A name may be given twice.
///
/// `NoType`: the schema has no such type. `NotNamedBits`: it is no BIT STRING with named bits. `NoBit`: it has no bit
/// with this name, which is the first one that is none. `Memory`: an allocation failed.
pub fn named_bits(
    alloc: Global,
    schema: &Schema,
    id: TypeId,
    names: &[&str],
) -> Result<Value, BuildFault>
    // The bits with these names are set, and no others.
    ensures made { IfOk result (λ v. IsBits schema.now id.index (map (λ n. n.now) names.now) (abstract v)) }
    // The reason of a refusal applies.
    ensures refused { IfErr result (IsNoBits schema.now id.index (map (λ n. n.now) names.now)) }
{
    lemma_abstract_values();
    let Some(core) = core_of(schema, id) else {
        return Err(BuildFault::NoType);
    };
    let Some(named) = named_bits_of(core) else {
        return Err(BuildFault::NotNamedBits);
    };
    match string_of(alloc, named, names) {
        Ok(string) => Ok(Value::Bits(string)),
        Err(fault) => Err(fault),
    }
}
