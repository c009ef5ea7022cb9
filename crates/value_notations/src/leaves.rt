//! The values of types that hold no other types, or why a notation has no such value.

ghost use Rattle.std.specs.Prelude.{◌≡◌, IfOk, IfErr, Some, slice_get};
ghost use Rattle.asn_base.specs.Abstract.{abstract, integer as integer', enumerated};
ghost use Rattle.asn_base.specs.Typed.{IsWithinLimit};
ghost use Rattle.trees.specs.Values.{tree_of};
ghost use Rattle.trees.specs.Types.{Plain, plain_of, a_boolean, an_integer, a_bit_string, an_octet_string, a_null, an_object_identifier, a_relative_oid, an_enumerated, a_utf8_string, a_restricted_string};
ghost use Rattle.type_table.specs.Items.{numbers_of};
ghost use Rattle.type_table.specs.Lists.{IsSoundPlain, IsSoundEnumeration, IsSoundKind};
ghost use Rattle.type_table.specs.Seen.{kind_of, root_items, after_marker, more_of};
ghost use Rattle.type_table.specs.Table.{simple as simple'};
ghost use Rattle.resolve.specs.Listed.{bits_listed, numbers_listed};
ghost use Rattle.value_notations.specs.declared.leaves.LeafFault.TheVariants.{Memory as no_memory};
ghost use Rattle.value_notations.specs.Faults.{IsBitAt, IsLeafFault, IsLeafValue};
ghost use Rattle.value_notations.specs.proving.Items.{IsNumberless};

use crate::bit_strings::bits_in;
use crate::forms::name_in;
use crate::leaf::{
    NumbersFault, identifier, integer, nothing, octet_string, relative_identifier, restricted_text,
    truth, utf8_text,
};
use asn_base::law::{lemma_abstract_values, lemma_integer_within_limit};
use asn_base::strings::StringKind;
use asn_base::value::Value;
use resolve::NamedShape;
use std::alloc::Global;
use trees::{EnumeratedSyntax, Simple, ValueSyntax};
use type_table::{NumberFault, Shape, item_numbers};

/// Why a notation gives no value of a type that holds no other types.
#[derive(Clone, Copy)]
pub enum LeafFault<'a> {
    /// There was not enough memory.
    Memory,
    /// The notation is of another form than the type's, or has a character that the type doesn't have.
    NotOfType,
    /// This name in braces is no bit of the type.
    UnknownBit(&'a ValueSyntax),
    /// The notation stands for an object identifier, a relative one or not, with more than 64 numbers or with one of
    /// 2^64 or more.
    Oid,
}

/// A number as a value.
fn number_value(number: i128) -> Value
    ensures value { abstract result ≡ integer' number }
    ensures within { IsWithinLimit number }
{
    lemma_abstract_values();
    lemma_integer_within_limit(number);
    Value::Int(number)
}

/// The truth value that a notation stands for.
#[tactic(auto, using(crate::proofs::LeafValues::value_boolean, crate::proofs::LeafValues::misfit_boolean))]
fn boolean_value<'a>(notation: &'a ValueSyntax) -> Result<Value, LeafFault<'a>>
    ensures value { IfOk result (λ v. IsLeafValue a_boolean (tree_of notation.now) (abstract v)) }
    ensures fault { IfErr result (IsLeafFault a_boolean (tree_of notation.now)) }
{
    match truth(notation) {
        Some(value) => Ok(value),
        None => Err(LeafFault::NotOfType),
    }
}

/// The number that a notation stands for under an INTEGER type.
#[tactic(auto, using(crate::proofs::LeafValues::value_integer, crate::proofs::LeafValues::misfit_integer))]
fn integer_value<'a>(
    shape: &NamedShape<'_>,
    notation: &'a ValueSyntax,
) -> Result<Value, LeafFault<'a>>
    ensures value { IfOk result (λ v.
        IsLeafValue (an_integer (numbers_listed (kind_of shape.now))) (tree_of notation.now) (abstract v)) }
    ensures fault { IfErr result
        (IsLeafFault (an_integer (numbers_listed (kind_of shape.now))) (tree_of notation.now)) }
{
    match integer(shape, notation) {
        Some(number) => Ok(number_value(number)),
        None => Err(LeafFault::NotOfType),
    }
}

/// The null value.
#[tactic(auto, using(crate::proofs::LeafValues::value_null, crate::proofs::LeafValues::misfit_null))]
fn null_value<'a>(notation: &'a ValueSyntax) -> Result<Value, LeafFault<'a>>
    ensures value { IfOk result (λ v. IsLeafValue a_null (tree_of notation.now) (abstract v)) }
    ensures fault { IfErr result (IsLeafFault a_null (tree_of notation.now)) }
{
    match nothing(notation) {
        Some(value) => Ok(value),
        None => Err(LeafFault::NotOfType),
    }
}

/// The octets that a notation stands for.
#[tactic(auto, using(crate::proofs::LeafValues::value_octets, crate::proofs::LeafValues::misfit_octets))]
fn octets_value<'a>(alloc: Global, notation: &'a ValueSyntax) -> Result<Value, LeafFault<'a>>
    ensures value { IfOk result (λ v. IsLeafValue an_octet_string (tree_of notation.now) (abstract v)) }
    ensures fault { IfErr result (IsLeafFault an_octet_string (tree_of notation.now)) }
{
    match octet_string(alloc, notation) {
        Ok(Some(value)) => Ok(value),
        Ok(None) => Err(LeafFault::NotOfType),
        Err(_) => Err(LeafFault::Memory),
    }
}

/// The object identifier that a notation stands for.
#[tactic(auto, using(crate::proofs::LeafValues::value_identifier, crate::proofs::LeafValues::misfit_identifier, crate::proofs::LeafValues::past_stands))]
fn identifier_value<'a>(alloc: Global, notation: &'a ValueSyntax) -> Result<Value, LeafFault<'a>>
    ensures value { IfOk result (λ v. IsLeafValue an_object_identifier (tree_of notation.now) (abstract v)) }
    ensures fault { IfErr result (IsLeafFault an_object_identifier (tree_of notation.now)) }
{
    match identifier(alloc, notation) {
        Ok(Some(value)) => Ok(value),
        Ok(None) => Err(LeafFault::NotOfType),
        Err(NumbersFault::Memory) => Err(LeafFault::Memory),
        Err(NumbersFault::Oid) => Err(LeafFault::Oid),
    }
}

/// The relative object identifier that a notation stands for.
#[tactic(auto, using(crate::proofs::LeafValues::value_relative, crate::proofs::LeafValues::misfit_relative, crate::proofs::LeafValues::past_stands))]
fn relative_value<'a>(alloc: Global, notation: &'a ValueSyntax) -> Result<Value, LeafFault<'a>>
    ensures value { IfOk result (λ v. IsLeafValue a_relative_oid (tree_of notation.now) (abstract v)) }
    ensures fault { IfErr result (IsLeafFault a_relative_oid (tree_of notation.now)) }
{
    match relative_identifier(alloc, notation) {
        Ok(Some(value)) => Ok(value),
        Ok(None) => Err(LeafFault::NotOfType),
        Err(NumbersFault::Memory) => Err(LeafFault::Memory),
        Err(NumbersFault::Oid) => Err(LeafFault::Oid),
    }
}

/// The text that a notation stands for.
#[tactic(auto, using(crate::proofs::LeafValues::value_utf8, crate::proofs::LeafValues::misfit_utf8))]
fn utf8_value<'a>(alloc: Global, notation: &'a ValueSyntax) -> Result<Value, LeafFault<'a>>
    ensures value { IfOk result (λ v. IsLeafValue a_utf8_string (tree_of notation.now) (abstract v)) }
    ensures fault { IfErr result (IsLeafFault a_utf8_string (tree_of notation.now)) }
{
    match utf8_text(alloc, notation) {
        Ok(Some(value)) => Ok(value),
        Ok(None) => Err(LeafFault::NotOfType),
        Err(_) => Err(LeafFault::Memory),
    }
}

/// The text of a string type that a notation stands for.
#[tactic(auto, using(crate::proofs::LeafValues::value_restricted, crate::proofs::LeafValues::misfit_restricted))]
fn restricted_value<'a>(
    alloc: Global,
    kind: StringKind,
    notation: &'a ValueSyntax,
) -> Result<Value, LeafFault<'a>>
    ensures value { IfOk result (λ v. IsLeafValue (a_restricted_string kind) (tree_of notation.now) (abstract v)) }
    ensures fault { IfErr result (IsLeafFault (a_restricted_string kind) (tree_of notation.now)) }
{
    match restricted_text(alloc, kind, notation) {
        Ok(Some(value)) => Ok(value),
        Ok(None) => Err(LeafFault::NotOfType),
        Err(_) => Err(LeafFault::Memory),
    }
}

/// The number of an item as a value.
fn item_value(number: i128) -> Value
    ensures { abstract result ≡ enumerated number }
{
    lemma_abstract_values();
    Value::Enum(number)
}

/// The number at a place among those of an enumeration, if there is one, where the numbers are not known.
fn counted_at<'a>(
    alloc: Global,
    given: &EnumeratedSyntax,
    place: usize,
) -> Result<Option<i128>, LeafFault<'a>>
    requires sound { IsSoundEnumeration (root_items given.now) (more_of given.now) }
    ensures number { IfOk result (λ z. z ≡ slice_get (numbers_of (root_items given.now) (more_of given.now)) place) }
    ensures fault { IfErr result (λ e. e ≡ no_memory) }
{
    match item_numbers(alloc, given) {
        Ok(numbers) => Ok(numbers.get(place).copied()),
        Err(NumberFault::Memory) => Err(LeafFault::Memory),
        Err(NumberFault::TooGreat(_)) => Ok(None),
    }
}

/// The number at a place among those of an enumeration, if there is one.
fn number_at<'a>(
    alloc: Global,
    shape: &NamedShape<'_>,
    given: &EnumeratedSyntax,
    place: usize,
) -> Result<Option<i128>, LeafFault<'a>>
    requires is { kind_of shape.now ≡ simple' (an_enumerated (root_items given.now) (after_marker given.now)) }
    requires sound { IsSoundEnumeration (root_items given.now) (more_of given.now) }
    ensures number { IfOk result (λ z. z ≡ slice_get (numbers_of (root_items given.now) (more_of given.now)) place) }
    ensures fault { IfErr result (λ e. e ≡ no_memory) }
{
    match shape.numbers() {
        Some(numbers) => Ok(numbers.get(place).copied()),
        None => counted_at(alloc, given, place),
    }
}

/// The number that an item has at its place among those of an enumeration.
fn item_number<'a>(
    alloc: Global,
    shape: &NamedShape<'_>,
    given: &EnumeratedSyntax,
    place: usize,
) -> Result<i128, LeafFault<'a>>
    requires is { kind_of shape.now ≡ simple' (an_enumerated (root_items given.now) (after_marker given.now)) }
    requires sound { IsSoundEnumeration (root_items given.now) (more_of given.now) }
    ensures number { IfOk result (λ z. slice_get (numbers_of (root_items given.now)
        (more_of given.now)) place ≡ Some z) }
    ensures fault { IfErr result (IsNumberless (root_items given.now) (more_of given.now) place) }
{
    match number_at(alloc, shape, given, place) {
        Ok(Some(number)) => Ok(number),
        Ok(None) => Err(LeafFault::NotOfType),
        Err(_) => Err(LeafFault::Memory),
    }
}

/// The item that a notation stands for (X.680, clause 20.8).
fn enumerated_value<'a>(
    alloc: Global,
    shape: &NamedShape<'_>,
    given: &EnumeratedSyntax,
    notation: &'a ValueSyntax,
) -> Result<Value, LeafFault<'a>>
    requires is { kind_of shape.now ≡ simple' (an_enumerated (root_items given.now) (after_marker given.now)) }
    requires sound { IsSoundEnumeration (root_items given.now) (more_of given.now) }
    ensures value { IfOk result (λ v.
        IsLeafValue (an_enumerated (root_items given.now) (after_marker given.now)) (tree_of notation.now)
        (abstract v)) }
    ensures fault { IfErr result
        (IsLeafFault (an_enumerated (root_items given.now) (after_marker given.now)) (tree_of notation.now)) }
{
    match name_in(notation) {
        None => Err(LeafFault::NotOfType),
        Some(name) => match shape.item(name) {
            None => Err(LeafFault::NotOfType),
            Some(place) => match item_number(alloc, shape, given, place) {
                Ok(number) => Ok(item_value(number)),
                Err(fault) => Err(fault),
            },
        },
    }
}

/// The bits that a notation stands for (X.680, clause 22).
#[tactic(auto, using(crate::proofs::LeafValues::value_bits))]
fn bits_value<'a>(
    alloc: Global,
    shape: &NamedShape<'_>,
    notation: &'a ValueSyntax,
) -> Result<Value, LeafFault<'a>>
    requires sound { IsSoundPlain (a_bit_string (bits_listed (kind_of shape.now))) }
    ensures value { IfOk result
        (λ v. IsLeafValue (a_bit_string (bits_listed (kind_of shape.now))) (tree_of notation.now) (abstract v)) }
    ensures fault { IfErr result
        (IsLeafFault (a_bit_string (bits_listed (kind_of shape.now))) (tree_of notation.now)) }
    ensures bit { IfErr result (IsBitAt notation.now) }
{
    lemma_abstract_values();
    match bits_in(alloc, shape, notation) {
        Ok(string) => Ok(Value::Bits(string)),
        Err(fault) => Err(fault),
    }
}

/// The value that a notation stands for under a type of a shape that is this one without its names.
fn plain_value<'a>(
    alloc: Global,
    shape: &NamedShape<'_>,
    simple: &Simple,
    notation: &'a ValueSyntax,
) -> Result<Value, LeafFault<'a>>
    requires is { kind_of shape.now ≡ simple' (plain_of simple.now) }
    requires sound { IsSoundPlain (plain_of simple.now) }
    ensures value { IfOk result (λ v. IsLeafValue (plain_of simple.now) (tree_of notation.now) (abstract v)) }
    ensures fault { IfErr result (IsLeafFault (plain_of simple.now) (tree_of notation.now)) }
    ensures bit { IfErr result (IsBitAt notation.now) }
{
    match simple {
        Simple::Boolean => boolean_value(notation),
        Simple::Integer(_) => integer_value(shape, notation),
        Simple::BitString(_) => bits_value(alloc, shape, notation),
        Simple::OctetString => octets_value(alloc, notation),
        Simple::Null => null_value(notation),
        Simple::ObjectIdentifier => identifier_value(alloc, notation),
        Simple::RelativeOid => relative_value(alloc, notation),
        Simple::Enumerated(given) => enumerated_value(alloc, shape, given, notation),
        Simple::Utf8String => utf8_value(alloc, notation),
        Simple::Restricted(kind) => restricted_value(alloc, *kind, notation),
    }
}

/// The value that a notation stands for under a type that holds no other types (X.680, clauses 18 to 24, 32, 33 and
/// 41). It is a value of the type apart from its constraints. The notation is no reference to a value: `follow`
/// resolves those.
///
/// `NotOfType`: the notation is of another form, or has a character that the type doesn't have; or the type holds other
/// types. `UnknownBit`: a name in braces is no bit. `Oid`: an object identifier passes the limit. `Memory`: there is
/// not enough memory.
pub fn leaf<'a>(
    alloc: Global,
    shape: &NamedShape<'_>,
    notation: &'a ValueSyntax,
) -> Result<Value, LeafFault<'a>>
    requires sound { IsSoundKind (kind_of shape.now) }
    ensures value { (k : Plain) → kind_of shape.now ≡ simple' k →
        IfOk result (λ v. IsLeafValue k (tree_of notation.now) (abstract v)) }
    ensures fault { (k : Plain) → kind_of shape.now ≡ simple' k → IfErr result (IsLeafFault k (tree_of notation.now)) }
    ensures bit { IfErr result (IsBitAt notation.now) }
{
    match shape.shape() {
        Shape::Simple(simple) => plain_value(alloc, shape, simple, notation),
        Shape::Reference(_) => Err(LeafFault::NotOfType),
        Shape::Tagged(_, _, _) => Err(LeafFault::NotOfType),
        Shape::Members(_, _, _) => Err(LeafFault::NotOfType),
        Shape::Elements(_, _) => Err(LeafFault::NotOfType),
    }
}
