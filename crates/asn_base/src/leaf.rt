//! Whether a value is one of a kind that holds no other values (X.680, 18 to 24, 32, 33, 41 and 51).

ghost use Rattle.asn_base.specs.Abstract.{bits as bits', boolean, enumerated, integer, null, octets as octets', oid as oid', relative_oid as relative_oid', text as text'};
ghost use Rattle.asn_base.specs.Names.{IsMember};
ghost use Rattle.asn_base.specs.Seen.{constraint_of, item_of, kind_of};
ghost use Rattle.asn_base.specs.Typed.{IsPrimitive, HasNumber, IsAllowedSize, IsObjectIdentifier, IsRelativeOid};
ghost use Rattle.std.specs.Int.Digits.{AllBelowBase};
ghost use Rattle.std.specs.List.{AllByRecursion};
ghost use Rattle.std.specs.Prelude.{◌≡◌, ◌≤◌, ◌<◌, ◌↔◌, ◌++◌, Bool, IsTrue, IsUtf8, List, chars, ◌^◌, length, map};

use crate::allowed::{is_allowed, is_allowed_size, is_in_first};
use crate::alphabet::are_codes;
use crate::bits::bit_count_in;
use crate::constraint::Constraint;
use crate::law::lemma_integer_within_limit;
use crate::node::{ValueKind, ValueNode};
use crate::schema::{Core, Item, Items};
use limits::MAX_ARCS;

/// Whether one of the items has the number, if the items ascend. If they don't, the answer may be a wrong false.
fn finds_item(items: &[Item], number: i128) -> bool
    ensures { IsTrue result → HasNumber (map item_of items.now) number }
{
    let place = items.partition_point(|item| item.number < number);
    match items.get(place) {
        Some(item) => item.number == number,
        None => false,
    }
}

/// Whether one of the items has the number.
pub(crate) fn has_item(items: &[Item], number: i128) -> bool
    ensures { IsTrue result ↔ HasNumber (map item_of items.now) number }
{
    for i in 0..items.len() {
        if items[i].number == number {
            return true;
        }
    }
    false
}

/// Whether an item of the root or an addition has the number.
fn has_number(items: &Items, number: i128) -> bool
    ensures { IsTrue result
        ↔ HasNumber (map item_of items.now.root.items ++ map item_of items.now.additions.items) number }
{
    has_item(items.root.as_slice(), number) || has_item(items.additions.as_slice(), number)
}

/// Whether an item of the root or an addition has the number, if both lists ascend. If they don't, the answer may be a
/// wrong false.
fn finds_number(items: &Items, number: i128) -> bool
    ensures { IsTrue result
        → HasNumber (map item_of items.now.root.items ++ map item_of items.now.additions.items) number }
{
    finds_item(items.root.as_slice(), number) || finds_item(items.additions.as_slice(), number)
}

/// Whether an item has the number. The items ascend, so all of them are read only if none has the number.
fn is_item(items: &Items, number: i128) -> bool
    ensures { IsTrue result
        ↔ HasNumber (map item_of items.now.root.items ++ map item_of items.now.additions.items) number }
{
    finds_number(items, number) || has_number(items, number)
}

/// Whether the characters are codes of the alphabet, and their number is allowed.
fn is_string_of(alphabet: &[u8], size: &Constraint, text: &str) -> bool
    ensures { IsTrue result
        ↔ AllByRecursion (λ x. IsMember x alphabet.now) text.now
        × IsAllowedSize (constraint_of size.now) (length text.now) }
{
    let octets = text.as_bytes();
    is_allowed_size(size, octets.len() as u128) && are_codes(alphabet, octets)
}

/// Whether the number of octets is allowed.
pub fn has_allowed_octets(size: &Constraint, octets: &[u8]) -> bool
    ensures octets { AllBelowBase 256 octets.now }
    ensures size { IsTrue result ↔ IsAllowedSize (constraint_of size.now) (length octets.now) }
{
    is_allowed_size(size, octets.len() as u128)
}

/// Whether a quick test shows that the number of octets is allowed. False decides nothing.
#[inline(always)]
fn has_likely_octets(size: &Constraint, octets: &[u8]) -> bool
    ensures octets { AllBelowBase 256 octets.now }
    ensures size { IsTrue result → IsAllowedSize (constraint_of size.now) (length octets.now) }
{
    is_in_first(size, octets.len() as i128)
}

/// The number of characters in the text.
pub fn character_count(text: &str) -> usize
    ensures { result ≡ length (chars text.now) }
{
    text.chars().count()
}

/// Whether the number of characters is allowed.
fn has_allowed_characters(size: &Constraint, text: &str) -> bool
    ensures utf8 { IsUtf8 text.now }
    ensures size { IsTrue result ↔ IsAllowedSize (constraint_of size.now) (length (chars text.now)) }
{
    is_allowed_size(size, character_count(text) as u128)
}

/// Whether these are the numbers of an OBJECT IDENTIFIER (X.680, 32): 2 to 64, of which
/// the first is at most 2, and the second below 40 if the first is below 2.
pub fn is_object_identifier(numbers: &[u64]) -> bool
    ensures { IsTrue result ↔ IsObjectIdentifier numbers.now }
{
    if numbers.len() < 2 || numbers.len() > MAX_ARCS {
        return false;
    }
    let first = numbers[0];
    if first < 2 {
        return numbers[1] < 40;
    }
    first == 2
}

/// Whether these are the numbers of a RELATIVE-OID (X.680, 33): 1 to 64.
pub fn is_relative_oid(numbers: &[u64]) -> bool
    ensures { IsTrue result ↔ IsRelativeOid numbers.now }
{
    !numbers.is_empty() && numbers.len() <= MAX_ARCS
}

/// Whether a truth is a value of the kind, which then is BOOLEAN (X.680, 18).
pub fn fits_boolean(core: &Core, truth: bool) -> bool
    ensures { IsTrue result ↔ IsPrimitive (kind_of core.now) (boolean truth) }
{
    match core {
        Core::Boolean => true,
        _ => false,
    }
}

/// Whether the number is a value of the kind, which then is an INTEGER whose constraint allows it (X.680, 19 and 51).
pub fn fits_integer(core: &Core, number: i128) -> bool
    ensures { IsTrue result ↔ IsPrimitive (kind_of core.now) (integer number) }
{
    lemma_integer_within_limit(number);
    match core {
        Core::Integer(constraint) => is_allowed(constraint, number),
        _ => false,
    }
}

/// Whether the number is that of an item of the kind, which then is ENUMERATED (X.680, 20).
pub fn fits_enumerated(core: &Core, number: i128) -> bool
    ensures { IsTrue result ↔ IsPrimitive (kind_of core.now) (enumerated number) }
{
    lemma_integer_within_limit(number);
    match core {
        Core::Enumerated(items) => is_item(items, number),
        _ => false,
    }
}

/// Whether NULL is a value of the kind, which then is NULL (X.680, 24).
pub fn fits_null(core: &Core) -> bool
    ensures { IsTrue result ↔ IsPrimitive (kind_of core.now) null }
{
    match core {
        Core::Null => true,
        _ => false,
    }
}

/// Whether the octets are a value of the kind, which then is an OCTET STRING of such a size (X.680, 23 and 51).
pub fn fits_octets(core: &Core, octets: &[u8]) -> bool
    ensures { IsTrue result ↔ IsPrimitive (kind_of core.now) (octets' octets.now) }
{
    match core {
        Core::OctetString(size) => has_allowed_octets(size, octets),
        _ => false,
    }
}

/// Whether `count` bits are a value of the kind, which then is a BIT STRING of such a size, or one with named bits
/// (X.680, 22 and 51).
pub fn fits_bits(core: &Core, count: u128) -> bool
    requires { count < 2 ^ 127 }
    ensures { (b : List Bool) → length b ≡ count → (IsTrue result ↔ IsPrimitive (kind_of core.now) (bits' b)) }
{
    match core {
        Core::BitString(size) => is_allowed_size(size, count),
        Core::NamedBits(_) => true,
        _ => false,
    }
}

/// Whether the text is a value of the kind, which then is a UTF8String of such a size, or a restricted string of such a
/// size with this alphabet (X.680, 41 and 51).
pub fn fits_text(core: &Core, text: &str) -> bool
    ensures { IsTrue result ↔ IsPrimitive (kind_of core.now) (text' text.now) }
{
    match core {
        Core::Utf8String(size) => has_allowed_characters(size, text),
        Core::RestrictedString(_, alphabet, size) => is_string_of(alphabet.as_slice(), size, text),
        _ => false,
    }
}

/// Whether the numbers are a value of the kind, which then is OBJECT IDENTIFIER (X.680, 32).
pub fn fits_oid(core: &Core, numbers: &[u64]) -> bool
    ensures { IsTrue result ↔ IsPrimitive (kind_of core.now) (oid' numbers.now) }
{
    match core {
        Core::ObjectIdentifier => is_object_identifier(numbers),
        _ => false,
    }
}

/// Whether the numbers are a value of the kind, which then is RELATIVE-OID (X.680, 33).
pub fn fits_relative_oid(core: &Core, numbers: &[u64]) -> bool
    ensures { IsTrue result ↔ IsPrimitive (kind_of core.now) (relative_oid' numbers.now) }
{
    match core {
        Core::RelativeOid => is_relative_oid(numbers),
        _ => false,
    }
}

/// Whether a quick test shows that the number is a value of the kind, which then is an INTEGER. False decides nothing.
#[inline(always)]
fn fits_first(core: &Core, number: i128) -> bool
    ensures { IsTrue result → IsPrimitive (kind_of core.now) (integer number) }
{
    lemma_integer_within_limit(number);
    match core {
        Core::Integer(constraint) => is_in_first(constraint, number),
        _ => false,
    }
}

/// Whether a quick test shows that the octets are a value of the kind, which then is an OCTET STRING. False decides
/// nothing.
#[inline(always)]
fn fits_likely(core: &Core, octets: &[u8]) -> bool
    ensures { IsTrue result → IsPrimitive (kind_of core.now) (octets' octets.now) }
{
    match core {
        Core::OctetString(size) => has_likely_octets(size, octets),
        _ => false,
    }
}

/// Whether a quick test shows that the value is one of the kind: a BOOLEAN, NULL, an OBJECT IDENTIFIER, an INTEGER or
/// an OCTET STRING, which the constraint's first range allows. For most values that hold no others this test is enough.
/// False decides nothing.
#[inline(always)]
pub(crate) fn fits_at_once<N: ValueNode>(core: &Core, node: &N) -> bool
    ensures { IsTrue result → IsPrimitive (kind_of core.now) (N.value_of node.now) }
{
    match core {
        Core::Boolean | Core::Null | Core::ObjectIdentifier => {}
        Core::Integer(_) | Core::OctetString(_) => {}
        _ => return false,
    }
    match node.kind() {
        ValueKind::Bool(truth) => fits_boolean(core, truth),
        ValueKind::Int(number) => fits_first(core, number),
        ValueKind::Octets(octets) => fits_likely(core, octets),
        ValueKind::Null => fits_null(core),
        ValueKind::Oid(numbers) => fits_oid(core, numbers),
        _ => false,
    }
}

/// Whether the value is one of a kind that holds no other values.
pub(crate) fn fits<N: ValueNode>(core: &Core, node: &N) -> bool
    ensures { IsTrue result ↔ IsPrimitive (kind_of core.now) (N.value_of node.now) }
{
    match node.kind() {
        ValueKind::Bool(truth) => fits_boolean(core, truth),
        ValueKind::Int(number) => fits_integer(core, number),
        ValueKind::Enum(number) => fits_enumerated(core, number),
        ValueKind::Bits(unused, octets) => fits_bits(core, bit_count_in(unused, octets)),
        ValueKind::Octets(octets) => fits_octets(core, octets),
        ValueKind::Text(text) => fits_text(core, text),
        ValueKind::Null => fits_null(core),
        ValueKind::Oid(numbers) => fits_oid(core, numbers),
        ValueKind::RelativeOid(numbers) => fits_relative_oid(core, numbers),
        ValueKind::Fields(_, _) => false,
        ValueKind::List(_) => false,
        ValueKind::Alternative(_, _) => false,
    }
}
