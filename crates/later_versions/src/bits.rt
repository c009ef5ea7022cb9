//! Compares named bits (X.680, 22).

ghost use Rattle.std.specs.Prelude.{◌≡◌, ◌↔◌, IsTrue, IfOk, map};
ghost use Rattle.asn_base.specs.Names.{AreDistinct, IsMember};
ghost use Rattle.asn_base.specs.Seen.{named_bit_of};
ghost use Rattle.asn_base.specs.Types.{NamedBit as NamedBit'};
ghost use Rattle.later_versions.specs.Later.{NameSame};
ghost use Rattle.later_versions.specs.proving.Placed.{ArePlaced};

use asn_base::schema::NamedBit;
use std::alloc::{AllocError, Global};
use std::collections::BTreeMap;

/// The number of each bit in the list, by the bit's place in the string.
fn placed(alloc: Global, bits: &[NamedBit]) -> Result<BTreeMap<usize, usize>, AllocError>
    ensures { IfOk result (λ m. ArePlaced (map named_bit_of bits.now) m) }
{
    let mut places = BTreeMap::new(alloc);
    for i in 0..bits.len() {
        match places.insert(bits[i].place, i) {
            Ok(_) => {}
            Err(_) => return Err(AllocError),
        }
    }
    Ok(places)
}

/// Whether two bits have the same name.
fn have_same_name(one: &NamedBit, other: &NamedBit) -> bool
    ensures { IsTrue result ↔ ((named_bit_of one.now).name ≡ (named_bit_of other.now).name) }
{
    one.name.as_bytes() == other.name.as_bytes()
}

/// Whether the bit is one of the list, in which each bit has a place of its own.
fn has(bits: &[NamedBit], places: &BTreeMap<usize, usize>, bit: &NamedBit) -> bool
    requires placed { ArePlaced (map named_bit_of bits.now) places.now }
    requires distinct { AreDistinct (map (λ b. b.place) (map named_bit_of bits.now)) }
    ensures { IsTrue result ↔ IsMember (named_bit_of bit.now) (map named_bit_of bits.now) }
{
    let found = match places.get(&bit.place) {
        Some(place) => *place,
        None => return false,
    };
    if found >= bits.len() {
        return false;
    }
    have_same_name(&bits[found], bit)
}

/// Whether all of the others are among the first bits.
fn have_all(alloc: Global, bits: &[NamedBit], others: &[NamedBit]) -> Result<bool, AllocError>
    requires { AreDistinct (map (λ b. b.place) (map named_bit_of bits.now)) }
    ensures { IfOk result (λ b. IsTrue b ↔ ((x : NamedBit') →
        IsMember x (map named_bit_of others.now) → IsMember x (map named_bit_of bits.now))) }
{
    let places = placed(alloc, bits)?;
    for i in 0..others.len() {
        if !has(bits, &places, &others[i]) {
            return Ok(false);
        }
    }
    Ok(true)
}

/// Whether two bits have the same name and the same place.
fn is_same(one: &NamedBit, other: &NamedBit) -> bool
    ensures { IsTrue result → named_bit_of one.now ≡ named_bit_of other.now }
{
    one.place == other.place && have_same_name(one, other)
}

/// Whether both lists have the same bits in the same order. False decides nothing: the order doesn't count.
fn are_same(bits: &[NamedBit], others: &[NamedBit]) -> bool
    ensures { IsTrue result → map named_bit_of bits.now ≡ map named_bit_of others.now }
{
    if bits.len() != others.len() {
        return false;
    }
    for i in 0..bits.len() {
        if !is_same(&bits[i], &others[i]) {
            return false;
        }
    }
    true
}

/// Whether two lists name the same bits, in any order. For n bits the time grows as n if they are in the same order and
/// all are the same, else as n log n. `AllocError` comes only if an allocation fails.
pub(crate) fn name_same(
    alloc: Global,
    bits: &[NamedBit],
    others: &[NamedBit],
) -> Result<bool, AllocError>
    requires first { AreDistinct (map (λ b. b.place) (map named_bit_of bits.now)) }
    requires second { AreDistinct (map (λ b. b.place) (map named_bit_of others.now)) }
    ensures { IfOk result (λ b. IsTrue b ↔ NameSame (map named_bit_of bits.now) (map named_bit_of others.now)) }
{
    if are_same(bits, others) {
        return Ok(true);
    }
    Ok(have_all(alloc, bits, others)? && have_all(alloc, others, bits)?)
}
