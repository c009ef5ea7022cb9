//! The contents of values, by their variant.

ghost use Rattle.asn_base.specs.Abstract.{AbstractValue, Row, abstract, row_of_list, row_of_options};
ghost use Rattle.asn_base.specs.Abstract.{alternative, fields, list};
ghost use Rattle.packed_writer.specs.proving.Values.{value_at};
ghost use Rattle.packed_code.specs.Meaning.{mark_bit};
ghost use Rattle.std.specs.Prelude.{◌≡◌, ℕ, ℤ, MatchOption, None, Some, map, option_map};

use asn_base::law::lemma_abstract_values;
use asn_base::value::Value;

/// The elements of a list.
pub(crate) fn elements(value: &Value) -> &[Value]
    requires { (r : Row) × (abstract value.now ≡ list r) }
    ensures { abstract value.now ≡ list (row_of_list (map abstract result.now)) }
{
    lemma_abstract_values();
    match value {
        Value::List(values) => values.as_slice(),
        Value::Bool(_) | Value::Int(_) | Value::Enum(_) | Value::Bits(_) => unreachable!(),
        Value::Octets(_) | Value::Text(_) | Value::Null | Value::Oid(_) => unreachable!(),
        Value::RelativeOid(_) | Value::Fields(_) | Value::Alt(_, _) => unreachable!(),
    }
}

/// The number of an alternative, and its value.
pub(crate) fn chosen(value: &Value) -> (usize, &Value)
    requires { (i : ℕ) × (w : AbstractValue) × (abstract value.now ≡ alternative i w) }
    ensures { abstract value.now ≡ alternative result.0 (abstract result.1.now) }
{
    lemma_abstract_values();
    match value {
        Value::Alt(index, inner) => (*index, inner),
        Value::Bool(_) | Value::Int(_) | Value::Enum(_) | Value::Bits(_) => unreachable!(),
        Value::Octets(_) | Value::Text(_) | Value::Null | Value::Oid(_) => unreachable!(),
        Value::RelativeOid(_) | Value::Fields(_) | Value::List(_) => unreachable!(),
    }
}

/// The components of a value of a SEQUENCE or SET, or None for another value.
pub(crate) fn fields_of(value: &Value) -> Option<&[Option<Value>]>
    ensures { MatchOption result ((row : Row) → abstract value.now ≡ fields row → ⊥)
        (λ vs. abstract value.now ≡ fields (row_of_options (map (option_map abstract) vs.now))) }
{
    lemma_abstract_values();
    match value {
        Value::Fields(values) => Some(values.as_slice()),
        Value::Bool(_) | Value::Int(_) | Value::Enum(_) | Value::Bits(_) => None,
        Value::Octets(_) | Value::Text(_) | Value::Null | Value::Oid(_) => None,
        Value::RelativeOid(_) | Value::List(_) | Value::Alt(_, _) => None,
    }
}

/// The component at a place, or None if it is absent or there is no such place.
pub(crate) fn component(value: &Value, place: usize) -> Option<&Value>
    ensures { MatchOption result
        (value_at (abstract value.now) place ≡ None)
        (λ w. value_at (abstract value.now) place ≡ Some (abstract w.now)) }
{
    match fields_of(value) {
        Some(values) => present(values, place),
        None => None,
    }
}

fn present(values: &[Option<Value>], place: usize) -> Option<&Value>
    ensures { MatchOption result
        (value_at (fields (row_of_options (map (option_map abstract) values.now))) place ≡ None)
        (λ w. value_at (fields (row_of_options (map (option_map abstract) values.now))) place ≡ Some (abstract w.now)) }
{
    if place >= values.len() {
        return None;
    }
    match &values[place] {
        Some(component) => Some(component),
        None => None,
    }
}

/// Whether a component from this place on is present.
pub(crate) fn any_from(value: &Value, from: usize) -> bool
    ensures { result ≡ mark_bit from (abstract value.now) }
{
    match fields_of(value) {
        Some(values) => any_present(values, from),
        None => false,
    }
}

fn any_present(values: &[Option<Value>], from: usize) -> bool
    ensures { result ≡ mark_bit from (fields (row_of_options (map (option_map abstract) values.now))) }
{
    for place in from..values.len() {
        if let Some(_component) = present(values, place) {
            return true;
        }
    }
    false
}
