//! Whether two values are equal in all parts.

ghost use Rattle.std.specs.Prelude.{◌≡◌, map, option_map, true};
ghost use Rattle.asn_base.specs.Abstract.{abstract, bits_of};

use asn_base::law::lemma_abstract_values;
use asn_base::value::{BitString, Value};

/// Whether two bit strings have the same octets and unused bits.
fn are_equal_bits(first: &BitString, second: &BitString) -> bool
    ensures { result ≡ true → bits_of first.now ≡ bits_of second.now }
{
    first.unused == second.unused && first.octets == second.octets
}

/// Whether two values are equal in all parts. A component that is present is not equal to one that is absent because of
/// its DEFAULT. The function calls itself once for each level of the values.
#[cycle(equal)]
pub(crate) fn are_equal(first: &Value, second: &Value) -> bool
    ensures { result ≡ true → abstract first.now ≡ abstract second.now }
{
    lemma_abstract_values();
    match (first, second) {
        (Value::Bool(one), Value::Bool(other)) => *one == *other,
        (Value::Int(one), Value::Int(other)) => *one == *other,
        (Value::Enum(one), Value::Enum(other)) => *one == *other,
        (Value::Bits(one), Value::Bits(other)) => are_equal_bits(one, other),
        (Value::Octets(one), Value::Octets(other)) => *one == *other,
        (Value::Text(one), Value::Text(other)) => *one == *other,
        (Value::Null, Value::Null) => true,
        (Value::Oid(one), Value::Oid(other)) => *one == *other,
        (Value::RelativeOid(one), Value::RelativeOid(other)) => *one == *other,
        (Value::Fields(one), Value::Fields(other)) => are_equal_fields(
            one.as_slice(),
            other.as_slice(),
        ),
        (Value::List(one), Value::List(other)) => are_equal_lists(one.as_slice(), other.as_slice()),
        (Value::Alt(one, inner), Value::Alt(other, held)) => *one == *other
            && are_equal(inner, held),
        _ => false,
    }
}

/// Whether two rows of components, which may be absent, are equal in all parts.
#[cycle(equal)]
fn are_equal_fields(first: &[Option<Value>], second: &[Option<Value>]) -> bool
    ensures { result ≡ true → map (option_map abstract) first.now ≡ map (option_map abstract) second.now }
{
    if first.len() != second.len() {
        return false;
    }
    for i in 0..first.len() {
        match &first[i] {
            None => match &second[i] {
                None => {}
                Some(_) => return false,
            },
            Some(one) => match &second[i] {
                None => return false,
                Some(other) => {
                    if !are_equal(one, other) {
                        return false;
                    }
                }
            },
        }
    }
    true
}

/// Whether two lists of elements are equal in all parts.
#[cycle(equal)]
fn are_equal_lists(first: &[Value], second: &[Value]) -> bool
    ensures { result ≡ true → map abstract first.now ≡ map abstract second.now }
{
    if first.len() != second.len() {
        return false;
    }
    for i in 0..first.len() {
        if !are_equal(&first[i], &second[i]) {
            return false;
        }
    }
    true
}
