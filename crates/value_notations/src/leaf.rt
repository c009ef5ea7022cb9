//! The values of types that hold no other types.

ghost use Rattle.std.specs.Prelude.{◌≡◌, ℕ, IfOk, OnOk, IfErr, MatchOption, MatchResult, true, IsTrue};
ghost use Rattle.std.specs.List.{AllByRecursion};
ghost use Rattle.asn_base.specs.Abstract.{integer as integer'};
ghost use Rattle.asn_base.specs.Schemas.{is_character};
ghost use Rattle.trees.specs.Values.{tree_of};
ghost use Rattle.trees.specs.Types.{a_boolean, an_integer, an_octet_string, a_null, an_object_identifier, a_relative_oid, a_utf8_string, a_restricted_string};
ghost use Rattle.resolve.specs.Listed.{numbers_listed};
ghost use Rattle.type_table.specs.Seen.{kind_of};
ghost use Rattle.value_notations.specs.Leaves.{IsLeafNotation, IsRooted};
ghost use Rattle.value_notations.specs.proving.Forms.{IsNone, Reports, ArePastLimit, IsPastLimit, IsLimitFault};
ghost use Rattle.value_notations.specs.declared.leaf.NumbersFault.TheVariants.{Memory as no_memory};

use crate::digits::{are_below, bit_octets, hex_octets};
use crate::forms::{
    alone_in, binary_in, hex_in, is_null, items_in, name_in, number_in, numbers_in, text_in,
    truth_in,
};
use asn_base::law::lemma_abstract_values;
use asn_base::strings::StringKind;
use asn_base::value::Value;
use limits::MAX_ARCS;
use ranges::Codes;
use ranges::law::characters_below_128;
use resolve::NamedShape;
use std::alloc::{AllocError, AllocFailed, Global};
use trees::ValueSyntax;

/// Why numbers give no object identifier.
#[derive(Clone, Copy, Debug, PartialEq, Eq)]
pub(crate) enum NumbersFault {
    /// There was not enough memory.
    Memory,
    /// An object identifier has more than 64 numbers, or one of 2^64 or more.
    Oid,
}

impl From<AllocError> for NumbersFault {
    ghost from_gives = { λ _ e. e ≡ no_memory };

    fn from(_error: AllocError) -> NumbersFault {
        NumbersFault::Memory
    }
}

impl<T: Drop> From<AllocFailed<T>> for NumbersFault {
    ghost from_gives = { λ _ e. e ≡ no_memory };

    fn from(_error: AllocFailed<T>) -> NumbersFault {
        NumbersFault::Memory
    }
}

/// The truth value that a notation stands for (X.680, 18.3).
pub(crate) fn truth(notation: &ValueSyntax) -> Option<Value>
    ensures { Reports a_boolean (tree_of notation.now) result }
{
    lemma_abstract_values();
    match truth_in(notation) {
        None => None,
        Some(value) => Some(Value::Bool(value)),
    }
}

/// The number that a notation stands for under an INTEGER type (X.680, 19.9 and 19.10).
pub(crate) fn integer(shape: &NamedShape<'_>, notation: &ValueSyntax) -> Option<i128>
    ensures { MatchOption result
        (IsNone (an_integer (numbers_listed (kind_of shape.now))) (tree_of notation.now))
        (λ z. IsLeafNotation (an_integer (numbers_listed (kind_of shape.now))) (tree_of notation.now) (integer' z)) }
{
    if let Some(number) = number_in(notation) {
        return Some(number);
    }
    match name_in(notation) {
        None => None,
        Some(name) => match shape.number(name) {
            None => None,
            Some(number) => Some(number),
        },
    }
}

/// The null value (X.680, 24.3).
pub(crate) fn nothing(notation: &ValueSyntax) -> Option<Value>
    ensures { Reports a_null (tree_of notation.now) result }
{
    lemma_abstract_values();
    if is_null(notation) {
        Some(Value::Null)
    } else {
        None
    }
}

/// The octets that a notation stands for (X.680, 23.3).
pub(crate) fn octet_string(
    alloc: Global,
    notation: &ValueSyntax,
) -> Result<Option<Value>, AllocError>
    ensures { IfOk result (Reports an_octet_string (tree_of notation.now)) }
{
    lemma_abstract_values();
    if let Some(digits) = binary_in(notation) {
        if !are_below(digits, 2) {
            return Ok(None);
        }
        return Ok(Some(Value::Octets(bit_octets(alloc, digits)?)));
    }
    match hex_in(notation) {
        None => Ok(None),
        Some(digits) => {
            if !are_below(digits, 16) {
                return Ok(None);
            }
            Ok(Some(Value::Octets(hex_octets(alloc, digits)?)))
        }
    }
}

/// Whether numbers begin as an object identifier does (X.680, 32.3; X.660).
fn is_rooted(numbers: &[u128]) -> bool
    ensures yes { result ≡ true → IsRooted numbers.now }
    ensures no { IsRooted numbers.now → result ≡ true }
{
    match numbers {
        [] => false,
        [only] => false,
        [first, second, ..] => *first == 2 || (*first < 2 && *second < 40),
    }
}

/// The numbers, or `Oid` if they pass a limit.
fn within_limit(alloc: Global, numbers: &[u128]) -> Result<Vec<u64>, NumbersFault>
    ensures ok { IfOk result (λ all. all.items ≡ numbers.now) }
    ensures within { OnOk result (ArePastLimit numbers.now → ⊥) }
    ensures fault { IfErr result (IsLimitFault (ArePastLimit numbers.now)) }
{
    if numbers.len() > MAX_ARCS {
        return Err(NumbersFault::Oid);
    }
    let mut all = Vec::new(alloc);
    for number in numbers {
        if *number > u128::from(u64::MAX) {
            return Err(NumbersFault::Oid);
        }
        all.push(*number as u64)?;
    }
    Ok(all)
}

/// The object identifier that a notation stands for (X.680, 32.3).
pub(crate) fn identifier(
    alloc: Global,
    notation: &ValueSyntax,
) -> Result<Option<Value>, NumbersFault>
    ensures ok { IfOk result (Reports an_object_identifier (tree_of notation.now)) }
    ensures within { OnOk result (IsPastLimit an_object_identifier (tree_of notation.now) → ⊥) }
    ensures fault { IfErr result (IsLimitFault (IsPastLimit an_object_identifier (tree_of notation.now))) }
{
    lemma_abstract_values();
    match numbers_in(notation) {
        None => Ok(None),
        Some(numbers) => {
            if !is_rooted(numbers) {
                return Ok(None);
            }
            match within_limit(alloc, numbers) {
                Ok(all) => Ok(Some(Value::Oid(all))),
                Err(fault) => Err(fault),
            }
        }
    }
}

/// The relative object identifier that a notation stands for (X.680, 33.3).
pub(crate) fn relative_identifier(
    alloc: Global,
    notation: &ValueSyntax,
) -> Result<Option<Value>, NumbersFault>
    ensures ok { IfOk result (Reports a_relative_oid (tree_of notation.now)) }
    ensures within { OnOk result (IsPastLimit a_relative_oid (tree_of notation.now) → ⊥) }
    ensures fault { IfErr result (IsLimitFault (IsPastLimit a_relative_oid (tree_of notation.now))) }
{
    lemma_abstract_values();
    if let Some(numbers) = numbers_in(notation) {
        if numbers.len() == 0 {
            return Ok(None);
        }
        return match within_limit(alloc, numbers) {
            Ok(all) => Ok(Some(Value::RelativeOid(all))),
            Err(fault) => Err(fault),
        };
    }
    match alone_in(notation) {
        None => Ok(None),
        Some(number) => match within_limit(alloc, &[number]) {
            Ok(all) => Ok(Some(Value::RelativeOid(all))),
            Err(fault) => Err(fault),
        },
    }
}

/// The text of octets, if they are UTF-8 (X.680, 41.3).
pub(crate) fn utf8_text(alloc: Global, notation: &ValueSyntax) -> Result<Option<Value>, AllocError>
    ensures { IfOk result (Reports a_utf8_string (tree_of notation.now)) }
{
    lemma_abstract_values();
    match text_in(notation) {
        None => Ok(None),
        Some(octets) => match std::str::from_utf8(octets) {
            Err(_) => Ok(None),
            Ok(text) => Ok(Some(Value::Text(String::from_str(alloc, text)?))),
        },
    }
}

/// Whether all octets are characters of a string type (X.680, 41).
fn are_characters(kind: StringKind, octets: &[u8]) -> bool
    ensures yes { result ≡ true → AllByRecursion (λ c. IsTrue (is_character kind c)) octets.now }
    ensures no { AllByRecursion (λ c. IsTrue (is_character kind c)) octets.now → result ≡ true }
{
    let codes = Codes::of(kind);
    for octet in octets {
        if !codes.has(u32::from(*octet)) {
            return false;
        }
    }
    true
}

/// The text that a notation stands for under one of four string types (X.680, 41).
pub(crate) fn restricted_text(
    alloc: Global,
    kind: StringKind,
    notation: &ValueSyntax,
) -> Result<Option<Value>, AllocError>
    ensures { IfOk result (Reports (a_restricted_string kind) (tree_of notation.now)) }
{
    lemma_abstract_values();
    characters_below_128();
    match text_in(notation) {
        None => Ok(None),
        Some(octets) => {
            if !are_characters(kind, octets) {
                return Ok(None);
            }
            match std::str::from_utf8(octets) {
                Err(_) => Ok(None),
                Ok(text) => Ok(Some(Value::Text(String::from_str(alloc, text)?))),
            }
        }
    }
}
