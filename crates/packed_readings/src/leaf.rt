//! Values of the kinds that hold no others.

ghost use Rattle.asn_base.specs.Abstract.{abstract};
ghost use Rattle.asn_base.specs.Schemas.{AreBounds, IsSize, IsSound};
ghost use Rattle.asn_base.specs.Seen.{constraint_of, item_of, kind_of};
ghost use Rattle.asn_base.specs.Types.{Resolved, a_bit_string, a_boolean, a_named_bit_string, a_null, a_relative_oid, a_restricted_string, a_utf8_string, an_enumerated, an_integer, an_object_identifier, an_octet_string};
ghost use Rattle.bits.specs.Left.{bits_left};
ghost use Rattle.packed_readings.specs.Leaves.{leaf_from};
ghost use Rattle.packed_readings.specs.Outcome.{IsFault, found};
ghost use Rattle.std.specs.List.{AllByRecursion};
ghost use Rattle.std.specs.Prelude.{◌≡◌, ◌<◌, IfErr, IfOk, List, [], map};

use crate::arcs::{read_object_identifier, read_relative_oid};
use crate::bit_string::{read_bit_string, read_named_bits};
use crate::field::read_bit;
use crate::integer::read_integer;
use crate::item::read_item;
use crate::refusal::PackedFault;
use crate::strings::read_octet_string;
use crate::text::{read_restricted_string, read_utf8_string};
use asn_base::constraint::Constraint;
use asn_base::law::lemma_abstract_values;
use asn_base::schema::{Core, Items};
use asn_base::strings::StringKind;
use asn_base::value::Value;
use bits::cursor::Bits;
use decode_faults::Refusal;
use std::alloc::Global;

#[inline(always)]
fn as_boolean(bits: &mut Bits<'_>) -> Result<Value, PackedFault>
    ensures ok { IfOk result
        (λ v. leaf_from (a_boolean) (bits_left bits.old) ≡ found (abstract v) (bits_left bits.new)) }
    ensures err { IfErr result (λ e. IsFault (leaf_from (a_boolean) (bits_left bits.old)) e (bits_left bits.new)) }
{
    lemma_abstract_values();
    match read_bit(bits) {
        Ok(truth) => Ok(Value::Bool(truth)),
        Err(refusal) => Err(PackedFault::Refused(refusal)),
    }
}

#[inline(always)]
fn as_integer(
    alloc: Global,
    constraint: &Constraint,
    bits: &mut Bits<'_>,
) -> Result<Value, PackedFault>
    ensures ok { IfOk result
        (λ v. leaf_from (an_integer (constraint_of constraint.now)) (bits_left bits.old)
        ≡ found (abstract v) (bits_left bits.new)) }
    ensures err { IfErr result
        (λ e. IsFault (leaf_from (an_integer (constraint_of constraint.now)) (bits_left bits.old))
        e (bits_left bits.new)) }
{
    lemma_abstract_values();
    match read_integer(alloc, constraint, bits) {
        Ok(number) => Ok(Value::Int(number)),
        Err(fault) => Err(fault),
    }
}

#[inline(always)]
fn as_enumerated(items: &Items, bits: &mut Bits<'_>) -> Result<Value, PackedFault>
    ensures ok { IfOk result
        (λ v. leaf_from (an_enumerated (map item_of items.now.root.items)
        items.now.extensible (map item_of items.now.additions.items))
        (bits_left bits.old) ≡ found (abstract v) (bits_left bits.new)) }
    ensures err { IfErr result
        (λ e. IsFault (leaf_from (an_enumerated (map item_of items.now.root.items)
        items.now.extensible (map item_of items.now.additions.items)) (bits_left bits.old)) e (bits_left bits.new)) }
{
    lemma_abstract_values();
    match read_item(items, bits) {
        Ok(number) => Ok(Value::Enum(number)),
        Err(refusal) => Err(PackedFault::Refused(refusal)),
    }
}

#[inline(never)]
fn as_bit_string(
    alloc: Global,
    constraint: &Constraint,
    bits: &mut Bits<'_>,
) -> Result<Value, PackedFault>
    requires bounds { AreBounds IsSize (constraint_of constraint.now) }
    ensures ok { IfOk result
        (λ v. leaf_from (a_bit_string (constraint_of constraint.now)) (bits_left bits.old)
        ≡ found (abstract v) (bits_left bits.new)) }
    ensures err { IfErr result
        (λ e. IsFault (leaf_from (a_bit_string (constraint_of constraint.now)) (bits_left bits.old))
        e (bits_left bits.new)) }
{
    lemma_abstract_values();
    match read_bit_string(alloc, constraint, bits) {
        Ok(string) => Ok(Value::Bits(string)),
        Err(fault) => Err(fault),
    }
}

#[inline(never)]
fn as_named_bits(alloc: Global, bits: &mut Bits<'_>) -> Result<Value, PackedFault>
    ensures ok { IfOk result
        (λ v. leaf_from (a_named_bit_string []) (bits_left bits.old) ≡ found (abstract v) (bits_left bits.new)) }
    ensures err { IfErr result
        (λ e. IsFault (leaf_from (a_named_bit_string []) (bits_left bits.old)) e (bits_left bits.new)) }
{
    lemma_abstract_values();
    match read_named_bits(alloc, bits) {
        Ok(string) => Ok(Value::Bits(string)),
        Err(fault) => Err(fault),
    }
}

#[inline(never)]
fn as_octet_string(
    alloc: Global,
    constraint: &Constraint,
    bits: &mut Bits<'_>,
) -> Result<Value, PackedFault>
    requires bounds { AreBounds IsSize (constraint_of constraint.now) }
    ensures ok { IfOk result
        (λ v. leaf_from (an_octet_string (constraint_of constraint.now)) (bits_left bits.old)
        ≡ found (abstract v) (bits_left bits.new)) }
    ensures err { IfErr result
        (λ e. IsFault (leaf_from (an_octet_string (constraint_of constraint.now)) (bits_left bits.old))
        e (bits_left bits.new)) }
{
    lemma_abstract_values();
    match read_octet_string(alloc, constraint, bits) {
        Ok(octets) => Ok(Value::Octets(octets)),
        Err(fault) => Err(fault),
    }
}

#[inline(never)]
fn as_object_identifier(alloc: Global, bits: &mut Bits<'_>) -> Result<Value, PackedFault>
    ensures ok { IfOk result
        (λ v. leaf_from (an_object_identifier) (bits_left bits.old) ≡ found (abstract v) (bits_left bits.new)) }
    ensures err { IfErr result
        (λ e. IsFault (leaf_from (an_object_identifier) (bits_left bits.old)) e (bits_left bits.new)) }
{
    lemma_abstract_values();
    match read_object_identifier(alloc, bits) {
        Ok(numbers) => Ok(Value::Oid(numbers)),
        Err(fault) => Err(fault),
    }
}

#[inline(never)]
fn as_relative_oid(alloc: Global, bits: &mut Bits<'_>) -> Result<Value, PackedFault>
    ensures ok { IfOk result
        (λ v. leaf_from (a_relative_oid) (bits_left bits.old) ≡ found (abstract v) (bits_left bits.new)) }
    ensures err { IfErr result (λ e. IsFault (leaf_from (a_relative_oid) (bits_left bits.old)) e (bits_left bits.new)) }
{
    lemma_abstract_values();
    match read_relative_oid(alloc, bits) {
        Ok(numbers) => Ok(Value::RelativeOid(numbers)),
        Err(fault) => Err(fault),
    }
}

#[inline(never)]
fn as_utf8(
    alloc: Global,
    constraint: &Constraint,
    bits: &mut Bits<'_>,
) -> Result<Value, PackedFault>
    ensures ok { IfOk result
        (λ v. leaf_from (a_utf8_string (constraint_of constraint.now)) (bits_left bits.old)
        ≡ found (abstract v) (bits_left bits.new)) }
    ensures err { IfErr result
        (λ e. IsFault (leaf_from (a_utf8_string (constraint_of constraint.now)) (bits_left bits.old))
        e (bits_left bits.new)) }
{
    lemma_abstract_values();
    match read_utf8_string(alloc, constraint, bits) {
        Ok(text) => Ok(Value::Text(text)),
        Err(fault) => Err(fault),
    }
}

#[inline(never)]
fn as_restricted(
    alloc: Global,
    kind: StringKind,
    alphabet: &Vec<u8>,
    constraint: &Constraint,
    bits: &mut Bits<'_>,
) -> Result<Value, PackedFault>
    requires alphabet { AllByRecursion (λ c. c < 128) alphabet.now.items }
    requires bounds { AreBounds IsSize (constraint_of constraint.now) }
    ensures ok { IfOk result
        (λ v. leaf_from (a_restricted_string kind alphabet.now.items
        (constraint_of constraint.now)) (bits_left bits.old) ≡ found (abstract v) (bits_left bits.new)) }
    ensures err { IfErr result
        (λ e. IsFault (leaf_from (a_restricted_string kind alphabet.now.items
        (constraint_of constraint.now)) (bits_left bits.old)) e (bits_left bits.new)) }
{
    lemma_abstract_values();
    match read_restricted_string(alloc, alphabet.as_slice(), constraint, bits) {
        Ok(text) => Ok(Value::Text(text)),
        Err(fault) => Err(fault),
    }
}

/// Takes a value of a kind that holds no others (X.691, 12 to 14, 16 to 18, 24, 25 and 30). The kind must be one that a
/// schema can have. Memory grows with what is read, and by characters that take no bits.
///
/// The value is one that the kind's constraints allow. A refusal is the first fault, and the cursor is at its place.
/// `Truncated`: the bits end before. `NotCanonical`, `Outside`, `UnknownEnumeration`, `IntegerLimit` and `OidLimit`
/// come as the functions of each kind say. `Outside` comes also if the kind holds others. `Memory`: there is not enough
/// memory; the cursor may have moved on.
#[inline(always)]
pub(crate) fn read_any_leaf(
    alloc: Global,
    core: &Core,
    bits: &mut Bits<'_>,
) -> Result<Value, PackedFault>
    requires { (s : List Resolved) × IsSound s (kind_of core.now) }
    ensures ok { IfOk result
        (λ v. leaf_from (kind_of core.now) (bits_left bits.old) ≡ found (abstract v) (bits_left bits.new)) }
    ensures err { IfErr result
        (λ e. IsFault (leaf_from (kind_of core.now) (bits_left bits.old)) e (bits_left bits.new)) }
{
    lemma_abstract_values();
    match core {
        Core::Boolean => as_boolean(bits),
        Core::Integer(constraint) => as_integer(alloc, constraint, bits),
        Core::Enumerated(items) => as_enumerated(items, bits),
        Core::BitString(constraint) => as_bit_string(alloc, constraint, bits),
        Core::NamedBits(_) => as_named_bits(alloc, bits),
        Core::OctetString(constraint) => as_octet_string(alloc, constraint, bits),
        Core::Null => Ok(Value::Null),
        Core::ObjectIdentifier => as_object_identifier(alloc, bits),
        Core::RelativeOid => as_relative_oid(alloc, bits),
        Core::Utf8String(constraint) => as_utf8(alloc, constraint, bits),
        Core::RestrictedString(kind, alphabet, constraint) => as_restricted(
            alloc, *kind, alphabet, constraint, bits,
        ),
        Core::Sequence(_, _) | Core::Set(_, _) => Err(PackedFault::Refused(Refusal::Outside)),
        Core::SequenceOf(_, _) | Core::SetOf(_, _) | Core::Choice(_) => Err(PackedFault::Refused(
            Refusal::Outside,
        )),
    }
}
