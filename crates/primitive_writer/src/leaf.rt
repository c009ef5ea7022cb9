//! The contents octets of a value, in pieces.

ghost use Rattle.asn_base.specs.Abstract.{abstract, boolean};
ghost use Rattle.asn_base.specs.Types.{a_boolean};
ghost use Rattle.encodings.specs.Leaves.{HasContents};
ghost use Rattle.encodings.specs.declared.leaf_kind.LeafKind.TheVariants.{BitString, Boolean, Enumerated, Integer};
ghost use Rattle.encodings.specs.declared.leaf_kind.LeafKind.TheVariants.{NamedBits, Null, ObjectIdentifier};
ghost use Rattle.encodings.specs.declared.leaf_kind.LeafKind.TheVariants.{OctetString, RelativeOid, RestrictedString};
ghost use Rattle.encodings.specs.declared.leaf_kind.LeafKind.TheVariants.{Utf8String};
ghost use Rattle.encodings.specs.Contents.{Contents, Number};
ghost use Rattle.encodings.specs.Rules.{Distinguished};
ghost use Rattle.primitive_writer.specs.Held.{HasNone};
ghost use Rattle.primitive_writer.specs.Pieces.{joined_pieces, short_octets};
ghost use Rattle.std.specs.Prelude.{IfSome, MatchOption, [], ◌∷◌, false};

use crate::arcs::{object_identifier, relative_oid};
use crate::bits::{are_octets, filled, trimmed};
use crate::number::{number_octets, one_octet};
use crate::short::{ShortContents, short_number};
use arrayvec::ArrayVec;
use asn_base::law::lemma_abstract_values;
use asn_base::leaf::{is_object_identifier, is_relative_oid};
use asn_base::strings::StringKind;
use asn_base::value::Value;
use encodings::LeafKind;

/// The contents octets of a value, as pieces that take no memory.
#[derive(Drop)]
pub enum PrimitiveContents<'a> {
    /// One octet: that of a BOOLEAN or a small number.
    One(u8),
    /// A few octets: those of a number.
    Few(ArrayVec<u8, 24>),
    /// The octets in the value itself.
    Whole(&'a [u8]),
    /// The number of unused bits, octets of the value itself, and a last octet if there is one.
    Bits(u8, &'a [u8], Option<u8>),
    /// A number in septets, and then each of these numbers in septets.
    Arcs(u128, &'a [u64]),
}

/// The contents octets of this kind for the value (X.690, 8.2 to 8.8, 8.19, 8.20, 8.23, 10 and 11). The result is None
/// if the value is of another kind, or if its numbers aren't those of an OBJECT IDENTIFIER or RELATIVE-OID. It takes no
/// memory.
pub fn primitive_contents(kind: LeafKind, value: &Value) -> Option<PrimitiveContents<'_>>
    ensures { MatchOption result
        (HasNone kind (abstract value.now))
        (λ l. HasContents kind (abstract value.now) (joined_pieces l)) }
{
    match kind {
        LeafKind::Boolean => of_boolean(value),
        LeafKind::Integer => of_integer(value),
        LeafKind::Enumerated => of_enumerated(value),
        LeafKind::BitString => of_bits(value),
        LeafKind::NamedBits => of_named_bits(value),
        LeafKind::OctetString => of_octets(value),
        LeafKind::Null => of_null(value),
        LeafKind::ObjectIdentifier => of_object_identifier(value),
        LeafKind::RelativeOid => of_relative_oid(value),
        LeafKind::Utf8String => of_utf8(value),
        LeafKind::RestrictedString(kind) => of_restricted(kind, value),
    }
}

/// The contents octets of a BOOLEAN, or of an INTEGER or ENUMERATED that has at most four. The result is None for all
/// other values.
#[inline(always)]
pub fn short_contents(kind: LeafKind, value: &Value) -> Option<ShortContents>
    ensures { IfSome result (λ s. HasContents kind (abstract value.now) (short_octets s)) }
{
    match kind {
        LeafKind::Boolean => short_boolean(value),
        LeafKind::Integer => short_integer(value),
        LeafKind::Enumerated => short_enumerated(value),
        _ => None,
    }
}

/// The contents octet of a BOOLEAN: all bits are set for TRUE, and none for FALSE (X.690, 8.2.2 and 11.1).
fn truth_octet(truth: bool) -> u8
    ensures { Contents Distinguished a_boolean (boolean truth) false (result ∷ []) }
{
    if truth { 255 } else { 0 }
}

#[inline(always)]
fn short_boolean(value: &Value) -> Option<ShortContents>
    ensures { IfSome result (λ s. HasContents Boolean (abstract value.now) (short_octets s)) }
{
    lemma_abstract_values();
    match value {
        Value::Bool(truth) => Some(ShortContents::One(truth_octet(*truth))),
        _ => None,
    }
}

#[inline(always)]
fn short_integer(value: &Value) -> Option<ShortContents>
    ensures { IfSome result (λ s. HasContents Integer (abstract value.now) (short_octets s)) }
{
    lemma_abstract_values();
    match value {
        Value::Int(number) => match short_number(*number) {
            Some(octets) => Some(octets),
            None => None,
        },
        _ => None,
    }
}

fn short_enumerated(value: &Value) -> Option<ShortContents>
    ensures { IfSome result (λ s. HasContents Enumerated (abstract value.now) (short_octets s)) }
{
    lemma_abstract_values();
    match value {
        Value::Enum(number) => match short_number(*number) {
            Some(octets) => Some(octets),
            None => None,
        },
        _ => None,
    }
}

fn of_boolean(value: &Value) -> Option<PrimitiveContents<'_>>
    ensures { MatchOption result
        (HasNone Boolean (abstract value.now))
        (λ l. HasContents Boolean (abstract value.now) (joined_pieces l)) }
{
    lemma_abstract_values();
    match value {
        Value::Bool(truth) => Some(PrimitiveContents::One(truth_octet(*truth))),
        _ => None,
    }
}

/// The octets of a number in two's complement (X.690, 8.3).
fn number_pieces<'a>(number: i128) -> PrimitiveContents<'a>
    ensures { Number number (joined_pieces result) }
{
    match one_octet(number) {
        Some(octet) => PrimitiveContents::One(octet),
        None => PrimitiveContents::Few(number_octets(number)),
    }
}

fn of_integer(value: &Value) -> Option<PrimitiveContents<'_>>
    ensures { MatchOption result
        (HasNone Integer (abstract value.now))
        (λ l. HasContents Integer (abstract value.now) (joined_pieces l)) }
{
    lemma_abstract_values();
    match value {
        Value::Int(number) => Some(number_pieces(*number)),
        _ => None,
    }
}

fn of_enumerated(value: &Value) -> Option<PrimitiveContents<'_>>
    ensures { MatchOption result
        (HasNone Enumerated (abstract value.now))
        (λ l. HasContents Enumerated (abstract value.now) (joined_pieces l)) }
{
    lemma_abstract_values();
    match value {
        Value::Enum(number) => Some(number_pieces(*number)),
        _ => None,
    }
}

fn of_bits(value: &Value) -> Option<PrimitiveContents<'_>>
    ensures { MatchOption result
        (HasNone BitString (abstract value.now))
        (λ l. HasContents BitString (abstract value.now) (joined_pieces l)) }
{
    lemma_abstract_values();
    match value {
        Value::Bits(bits) => Some(filled(bits)),
        _ => None,
    }
}

fn of_named_bits(value: &Value) -> Option<PrimitiveContents<'_>>
    ensures { MatchOption result
        (HasNone NamedBits (abstract value.now))
        (λ l. HasContents NamedBits (abstract value.now) (joined_pieces l)) }
{
    lemma_abstract_values();
    match value {
        Value::Bits(bits) => Some(trimmed(bits)),
        _ => None,
    }
}

fn of_octets(value: &Value) -> Option<PrimitiveContents<'_>>
    ensures { MatchOption result
        (HasNone OctetString (abstract value.now))
        (λ l. HasContents OctetString (abstract value.now) (joined_pieces l)) }
{
    lemma_abstract_values();
    match value {
        Value::Octets(octets) => {
            are_octets(octets.as_slice());
            Some(PrimitiveContents::Whole(octets.as_slice()))
        }
        _ => None,
    }
}

fn of_null(value: &Value) -> Option<PrimitiveContents<'_>>
    ensures { MatchOption result
        (HasNone Null (abstract value.now))
        (λ l. HasContents Null (abstract value.now) (joined_pieces l)) }
{
    lemma_abstract_values();
    match value {
        Value::Null => Some(PrimitiveContents::Whole(&[])),
        _ => None,
    }
}

fn of_object_identifier(value: &Value) -> Option<PrimitiveContents<'_>>
    ensures { MatchOption result
        (HasNone ObjectIdentifier (abstract value.now))
        (λ l. HasContents ObjectIdentifier (abstract value.now) (joined_pieces l)) }
{
    lemma_abstract_values();
    match value {
        Value::Oid(numbers) => {
            if is_object_identifier(numbers.as_slice()) {
                Some(object_identifier(numbers.as_slice()))
            } else {
                None
            }
        }
        _ => None,
    }
}

fn of_relative_oid(value: &Value) -> Option<PrimitiveContents<'_>>
    ensures { MatchOption result
        (HasNone RelativeOid (abstract value.now))
        (λ l. HasContents RelativeOid (abstract value.now) (joined_pieces l)) }
{
    lemma_abstract_values();
    match value {
        Value::RelativeOid(numbers) => {
            if is_relative_oid(numbers.as_slice()) {
                Some(relative_oid(numbers.as_slice()))
            } else {
                None
            }
        }
        _ => None,
    }
}

fn of_utf8(value: &Value) -> Option<PrimitiveContents<'_>>
    ensures { MatchOption result
        (HasNone Utf8String (abstract value.now))
        (λ l. HasContents Utf8String (abstract value.now) (joined_pieces l)) }
{
    lemma_abstract_values();
    match value {
        Value::Text(text) => {
            are_octets(text.as_bytes());
            Some(PrimitiveContents::Whole(text.as_bytes()))
        }
        _ => None,
    }
}

fn of_restricted(kind: StringKind, value: &Value) -> Option<PrimitiveContents<'_>>
    ensures { MatchOption result (HasNone (RestrictedString kind) (abstract value.now))
        (λ l. HasContents (RestrictedString kind) (abstract value.now) (joined_pieces l)) }
{
    lemma_abstract_values();
    match value {
        Value::Text(text) => {
            are_octets(text.as_bytes());
            Some(PrimitiveContents::Whole(text.as_bytes()))
        }
        _ => None,
    }
}
