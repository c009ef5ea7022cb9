//! The contents of values, by their variant.

ghost use Rattle.asn_base.specs.Abstract.{abstract, bits, bits_of, boolean, enumerated, integer, octets, text};
ghost use Rattle.std.specs.Prelude.{◌≡◌, ℕ, ℤ, Bool, List};

use asn_base::law::lemma_abstract_values;
use asn_base::value::{BitString, Value};

/// The truth value of a BOOLEAN.
pub(crate) fn truth(value: &Value) -> bool
    requires { (b : Bool) × (abstract value.now ≡ boolean b) }
    ensures { abstract value.now ≡ boolean result }
{
    lemma_abstract_values();
    match value {
        Value::Bool(truth) => *truth,
        Value::Int(_) | Value::Enum(_) | Value::Bits(_) | Value::Octets(_) => unreachable!(),
        Value::Text(_) | Value::Null | Value::Oid(_) | Value::RelativeOid(_) => unreachable!(),
        Value::Fields(_) | Value::List(_) | Value::Alt(_, _) => unreachable!(),
    }
}

/// The number of an INTEGER.
pub fn number(value: &Value) -> i128
    requires { (z : ℤ) × (abstract value.now ≡ integer z) }
    ensures { abstract value.now ≡ integer result }
{
    lemma_abstract_values();
    match value {
        Value::Int(number) => *number,
        Value::Bool(_) | Value::Enum(_) | Value::Bits(_) | Value::Octets(_) => unreachable!(),
        Value::Text(_) | Value::Null | Value::Oid(_) | Value::RelativeOid(_) => unreachable!(),
        Value::Fields(_) | Value::List(_) | Value::Alt(_, _) => unreachable!(),
    }
}

/// The number of the item of an ENUMERATED.
pub(crate) fn item_number(value: &Value) -> i128
    requires { (z : ℤ) × (abstract value.now ≡ enumerated z) }
    ensures { abstract value.now ≡ enumerated result }
{
    lemma_abstract_values();
    match value {
        Value::Enum(number) => *number,
        Value::Bool(_) | Value::Int(_) | Value::Bits(_) | Value::Octets(_) => unreachable!(),
        Value::Text(_) | Value::Null | Value::Oid(_) | Value::RelativeOid(_) => unreachable!(),
        Value::Fields(_) | Value::List(_) | Value::Alt(_, _) => unreachable!(),
    }
}

/// The bits of a BIT STRING.
pub(crate) fn bit_string(value: &Value) -> &BitString
    requires { (v : List Bool) × (abstract value.now ≡ bits v) }
    ensures { abstract value.now ≡ bits (bits_of result.now) }
{
    lemma_abstract_values();
    match value {
        Value::Bits(bits) => bits,
        Value::Bool(_) | Value::Int(_) | Value::Enum(_) | Value::Octets(_) => unreachable!(),
        Value::Text(_) | Value::Null | Value::Oid(_) | Value::RelativeOid(_) => unreachable!(),
        Value::Fields(_) | Value::List(_) | Value::Alt(_, _) => unreachable!(),
    }
}

/// The octets of an OCTET STRING.
pub(crate) fn octets(value: &Value) -> &[u8]
    requires { (o : List ℕ) × (abstract value.now ≡ octets o) }
    ensures { abstract value.now ≡ octets result.now }
{
    lemma_abstract_values();
    match value {
        Value::Octets(octets) => octets.as_slice(),
        Value::Bool(_) | Value::Int(_) | Value::Enum(_) | Value::Bits(_) => unreachable!(),
        Value::Text(_) | Value::Null | Value::Oid(_) | Value::RelativeOid(_) => unreachable!(),
        Value::Fields(_) | Value::List(_) | Value::Alt(_, _) => unreachable!(),
    }
}

/// The octets of a string of characters.
pub(crate) fn text(value: &Value) -> &[u8]
    requires { (o : List ℕ) × (abstract value.now ≡ text o) }
    ensures { abstract value.now ≡ text result.now }
{
    lemma_abstract_values();
    match value {
        Value::Text(text) => text.as_bytes(),
        Value::Bool(_) | Value::Int(_) | Value::Enum(_) | Value::Bits(_) => unreachable!(),
        Value::Octets(_) | Value::Null | Value::Oid(_) | Value::RelativeOid(_) => unreachable!(),
        Value::Fields(_) | Value::List(_) | Value::Alt(_, _) => unreachable!(),
    }
}
