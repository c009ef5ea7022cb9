//! The bits that notations stand for.

ghost use Rattle.std.specs.Prelude.{◌≡◌, ◌≤◌, ◌<◌, ◌==◌, ℕ, suc, List, [], ◌∷◌, length, map, flat_map, Some, None, true, false, IfOk, IfErr, OnOk, MatchOption, slice_get};
ghost use Rattle.std.specs.List.{AllByRecursion};
ghost use Rattle.std.specs.Int.Digits.{AllBelowBase};
ghost use Rattle.asn_base.specs.Abstract.{bits_of, bits as bits'};
ghost use Rattle.names.specs.Modules.{OccursIn};
ghost use Rattle.trees.specs.Values.{tree_of, trees};
ghost use Rattle.trees.specs.Types.{a_bit_string};
ghost use Rattle.names.specs.Names.{under};
ghost use Rattle.type_table.specs.Lists.{IsSoundPlain};
ghost use Rattle.type_table.specs.Seen.{kind_of};
ghost use Rattle.resolve.specs.Listed.{bits_listed};
ghost use Rattle.value_notations.specs.Faults.{IsBitAt, IsLeafFault};
ghost use Rattle.value_notations.specs.Leaves.{IsLeafNotation, bits_of_digit, AreBitNames, AreSetBits};
ghost use Rattle.value_notations.specs.proving.Forms.{binary_in, hex_in};
ghost use Rattle.value_notations.specs.proving.Bits.{AreWithin, AreNamesWrong, AreNamedBits, IsBitAmong};

use crate::digits::are_below;
use crate::forms::{binary_in, hex_in, is_nothing, items_in, name_in};
use crate::leaves::LeafFault;
use asn_base::value::BitString;
use resolve::NamedShape;
use std::alloc::{AllocError, Global};
use trees::{Simple, ValueSyntax};
use type_table::Shape;
use value_builders::{bit_string, set_bits};

/// The bits of binary digits.
fn binary_bits(alloc: Global, digits: &[u8]) -> Result<Vec<bool>, AllocError>
    ensures { IfOk result (λ s. s.items ≡ map (λ d. d == 1) digits.now) }
{
    let mut bits = Vec::new(alloc);
    for digit in digits {
        bits.push(*digit == 1)?;
    }
    Ok(bits)
}

/// The bits of hexadecimal digits, four for each digit.
fn hex_bits(alloc: Global, digits: &[u8]) -> Result<Vec<bool>, AllocError>
    ensures { IfOk result (λ s. s.items ≡ flat_map bits_of_digit digits.now) }
{
    let mut bits = Vec::new(alloc);
    for digit in digits {
        bits.push(*digit / 8 == 1)?;
        bits.push(*digit / 4 % 2 == 1)?;
        bits.push(*digit / 2 % 2 == 1)?;
        bits.push(*digit % 2 == 1)?;
    }
    Ok(bits)
}

/// The BIT STRING of binary digits.
fn binary_string(alloc: Global, digits: &[u8]) -> Result<BitString, AllocError>
    ensures { IfOk result (λ b. bits_of b ≡ map (λ d. d == 1) digits.now) }
{
    let bits = binary_bits(alloc, digits)?;
    Ok(bit_string(alloc, bits.as_slice())?)
}

/// The BIT STRING of hexadecimal digits, four bits for each digit.
fn hex_string(alloc: Global, digits: &[u8]) -> Result<BitString, AllocError>
    ensures { IfOk result (λ b. bits_of b ≡ flat_map bits_of_digit digits.now) }
{
    let bits = hex_bits(alloc, digits)?;
    Ok(bit_string(alloc, bits.as_slice())?)
}

/// The place of a bit by its name, or None if the type has no bit of this name.
fn bit_place(shape: &NamedShape<'_>, name: &str) -> Option<usize>
    requires sound { IsSoundPlain (a_bit_string (bits_listed (kind_of shape.now))) }
    ensures { result ≡ under name.now (bits_listed (kind_of shape.now)) }
{
    match shape.bit(name) {
        None => None,
        Some(place) => Some(place as usize),
    }
}

/// Whether a type has no named bit.
fn has_no_bit(shape: &Shape) -> bool
    ensures yes { result ≡ true → bits_listed (kind_of shape.now) ≡ [] }
    ensures no { result ≡ false → bits_listed (kind_of shape.now) ≡ [] → ⊥ }
{
    match shape {
        Shape::Simple(Simple::BitString(bits)) => bits.is_empty(),
        _ => true,
    }
}

/// The places of named bits.
fn places_of<'a>(
    alloc: Global,
    shape: &NamedShape<'_>,
    names: &'a [ValueSyntax],
) -> Result<Vec<usize>, LeafFault<'a>>
    requires sound { IsSoundPlain (a_bit_string (bits_listed (kind_of shape.now))) }
    ensures ok { IfOk result
        (λ ps. AreBitNames (bits_listed (kind_of shape.now)) (trees (map tree_of names.now)) ps.items) }
    ensures fault { IfErr result (AreNamesWrong (bits_listed (kind_of shape.now)) (trees (map tree_of names.now))) }
    ensures bit { IfErr result (IsBitAmong names.now) }
{
    let mut places = Vec::new(alloc);
    for name in names {
        match name_in(name) {
            None => return Err(LeafFault::NotOfType),
            Some(word) => match bit_place(shape, word) {
                None => return Err(LeafFault::UnknownBit(name)),
                Some(place) => match places.push(place) {
                    Ok(()) => {}
                    Err(_) => return Err(LeafFault::Memory),
                },
            },
        }
    }
    Ok(places)
}

/// The bits that names in braces set.
#[tactic(auto, using(crate::proofs::NamedBits::names_within, crate::proofs::NamedBits::set_alike))]
fn named_bits<'a>(
    alloc: Global,
    shape: &NamedShape<'_>,
    names: &'a [ValueSyntax],
) -> Result<BitString, LeafFault<'a>>
    requires sound { IsSoundPlain (a_bit_string (bits_listed (kind_of shape.now))) }
    ensures ok { IfOk result
        (λ b. AreNamedBits (bits_listed (kind_of shape.now)) (trees (map tree_of names.now)) (bits_of b)) }
    ensures fault { IfErr result (AreNamesWrong (bits_listed (kind_of shape.now)) (trees (map tree_of names.now))) }
    ensures bit { IfErr result (IsBitAmong names.now) }
{
    let places = match places_of(alloc, shape, names) {
        Ok(places) => places,
        Err(fault) => return Err(fault),
    };
    match set_bits(alloc, places.as_slice()) {
        Ok(set) => Ok(set),
        Err(_) => Err(LeafFault::Memory),
    }
}

/// The bits that a notation in braces stands for (X.680, clause 22.10).
fn braced_bits<'a>(
    alloc: Global,
    shape: &NamedShape<'_>,
    notation: &'a ValueSyntax,
) -> Result<BitString, LeafFault<'a>>
    requires sound { IsSoundPlain (a_bit_string (bits_listed (kind_of shape.now))) }
    requires not_binary { binary_in (tree_of notation.now) ≡ None }
    requires not_hex { hex_in (tree_of notation.now) ≡ None }
    ensures ok { IfOk result
        (λ b. IsLeafNotation (a_bit_string (bits_listed (kind_of shape.now))) (tree_of notation.now)
        (bits' (bits_of b))) }
    ensures fault { IfErr result (IsLeafFault (a_bit_string (bits_listed (kind_of shape.now))) (tree_of notation.now)) }
    ensures bit { IfErr result (IsBitAt notation.now) }
{
    if is_nothing(notation) {
        if has_no_bit(shape.shape()) {
            return Err(LeafFault::NotOfType);
        }
        return Ok(BitString::of(Vec::new(alloc), 0));
    }
    match items_in(notation) {
        None => Err(LeafFault::NotOfType),
        Some(names) => match named_bits(alloc, shape, names) {
            Ok(set) => Ok(set),
            Err(LeafFault::Memory) => Err(LeafFault::Memory),
            Err(LeafFault::NotOfType) => Err(LeafFault::NotOfType),
            Err(LeafFault::UnknownBit(name)) => Err(LeafFault::UnknownBit(name)),
            Err(LeafFault::Oid) => Err(LeafFault::Oid),
        },
    }
}

/// The bits that a notation which is no binary text stands for (X.680, clauses 22.5 to 22.10).
fn other_bits<'a>(
    alloc: Global,
    shape: &NamedShape<'_>,
    notation: &'a ValueSyntax,
) -> Result<BitString, LeafFault<'a>>
    requires sound { IsSoundPlain (a_bit_string (bits_listed (kind_of shape.now))) }
    requires not_binary { binary_in (tree_of notation.now) ≡ None }
    ensures ok { IfOk result
        (λ b. IsLeafNotation (a_bit_string (bits_listed (kind_of shape.now))) (tree_of notation.now)
        (bits' (bits_of b))) }
    ensures fault { IfErr result (IsLeafFault (a_bit_string (bits_listed (kind_of shape.now))) (tree_of notation.now)) }
    ensures bit { IfErr result (IsBitAt notation.now) }
{
    match hex_in(notation) {
        None => braced_bits(alloc, shape, notation),
        Some(digits) => {
            if !are_below(digits, 16) {
                return Err(LeafFault::NotOfType);
            }
            match hex_string(alloc, digits) {
                Ok(string) => Ok(string),
                Err(_) => Err(LeafFault::Memory),
            }
        }
    }
}

/// The bits that a notation stands for (X.680, clauses 22.5 to 22.10).
pub(crate) fn bits_in<'a>(
    alloc: Global,
    shape: &NamedShape<'_>,
    notation: &'a ValueSyntax,
) -> Result<BitString, LeafFault<'a>>
    requires sound { IsSoundPlain (a_bit_string (bits_listed (kind_of shape.now))) }
    ensures ok { IfOk result
        (λ b. IsLeafNotation (a_bit_string (bits_listed (kind_of shape.now))) (tree_of notation.now)
        (bits' (bits_of b))) }
    ensures fault { IfErr result (IsLeafFault (a_bit_string (bits_listed (kind_of shape.now))) (tree_of notation.now)) }
    ensures bit { IfErr result (IsBitAt notation.now) }
{
    match binary_in(notation) {
        None => other_bits(alloc, shape, notation),
        Some(digits) => {
            if !are_below(digits, 2) {
                return Err(LeafFault::NotOfType);
            }
            match binary_string(alloc, digits) {
                Ok(string) => Ok(string),
                Err(_) => Err(LeafFault::Memory),
            }
        }
    }
}
