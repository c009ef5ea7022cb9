//! Equality of values, and how values are shown to programmers.

ghost use Rattle.asn_base.specs.Abstract.{abstract, bits_of, row_of_list, row_of_options};
ghost use Rattle.asn_base.specs.Equal.{are_equal};
ghost use Rattle.asn_base.specs.proving.Equality.{equal_values};
ghost use Rattle.std.specs.Bool.{beq};
ghost use Rattle.std.specs.Cmp.Lexicographic.{lists_equiv, pointwise};
ghost use Rattle.std.specs.Cmp.{bool_eq_equiv, on_equiv, partial_equiv_from_equiv};
ghost use Rattle.std.specs.Prelude.{◌≡◌, ◌↔◌, IsTrue, map, option_map};

use crate::bits::are_equal_bits;
use crate::flat::are_equal;
use crate::law::lemma_abstract_values;
use crate::value::{BitString, Value};
use std::fmt;

/// Two values are equal exactly if their abstract values are: they have one form and equal parts at every level. The
/// order counts in the values of a SET OF too, zeros at the end count under named bits, and an absent component is
/// equal to an absent one alone. `same` is the question that knows the type. The comparison takes no memory, and its
/// time is linear in the shorter value. It calls itself once for each level of the values, as dropping a value does.
impl PartialEq for Value {
    ghost eq = { λ v w. are_equal (abstract v) (abstract w) };

    ghost laws = { partial_equiv_from_equiv (on_equiv abstract equal_values) };

    fn eq(&self, other: &Value) -> bool
        ensures computed { result ≡ are_equal (abstract self.now) (abstract other.now) }
        // True exactly for equal abstract values.
        ensures exactly { IsTrue result ↔ (abstract self.now ≡ abstract other.now) }
    {
        equal(self, other)
    }
}

impl Eq for Value {
    ghost laws = { on_equiv abstract equal_values };
}

/// Whether two values are equal.
#[cycle(equality)]
fn equal(first: &Value, second: &Value) -> bool
    ensures { IsTrue result ↔ (abstract first.now ≡ abstract second.now) }
{
    lemma_abstract_values();
    match first {
        Value::Fields(some) => match second {
            Value::Fields(others) => equal_fields(some.as_slice(), others.as_slice()),
            _ => false,
        },
        Value::List(some) => match second {
            Value::List(others) => equal_lists(some.as_slice(), others.as_slice()),
            _ => false,
        },
        Value::Alt(index, one) => match second {
            Value::Alt(other_index, other) => index == other_index && equal(one, other),
            _ => false,
        },
        _ => are_equal(first, second),
    }
}

/// Whether two rows have the same places absent, and equal values at the others.
#[cycle(equality)]
fn equal_fields(first: &[Option<Value>], second: &[Option<Value>]) -> bool
    ensures { IsTrue result ↔ (row_of_options (map (option_map abstract) first.now)
        ≡ row_of_options (map (option_map abstract) second.now)) }
{
    if first.len() != second.len() {
        return false;
    }
    for i in 0..first.len() {
        match &first[i] {
            Some(one) => match &second[i] {
                Some(other) => {
                    if !equal(one, other) {
                        return false;
                    }
                }
                None => return false,
            },
            None => match &second[i] {
                Some(_) => return false,
                None => {}
            },
        }
    }
    true
}

/// Whether two lists are equally long and have equal values at each place.
#[cycle(equality)]
fn equal_lists(first: &[Value], second: &[Value]) -> bool
    ensures { IsTrue result ↔ (row_of_list (map abstract first.now) ≡ row_of_list (map abstract second.now)) }
{
    if first.len() != second.len() {
        return false;
    }
    for i in 0..first.len() {
        if !equal(&first[i], &second[i]) {
            return false;
        }
    }
    true
}

/// Two strings are equal exactly if they have the same bits, whatever the unused bits of their last octets are.
impl PartialEq for BitString {
    ghost eq = { λ a b. pointwise beq (bits_of a) (bits_of b) };

    ghost laws = { partial_equiv_from_equiv (on_equiv bits_of (lists_equiv bool_eq_equiv)) };

    fn eq(&self, other: &BitString) -> bool
        ensures computed { result ≡ pointwise beq (bits_of self.now) (bits_of other.now) }
        // True exactly for equal bits.
        ensures exactly { IsTrue result ↔ (bits_of self.now ≡ bits_of other.now) }
    {
        are_equal_bits(self, other)
    }
}

impl Eq for BitString {
    ghost laws = { on_equiv bits_of (lists_equiv bool_eq_equiv) };
}

/// As Rust's derive shows it: the octets, and how many bits of the last one are unused.
impl fmt::Debug for BitString {
    fn fmt<W: fmt::Write>(&self, f: &mut fmt::Formatter<W>) -> fmt::Result {
        f.debug_struct("BitString")
            .field("octets", &self.octets)
            .field("unused", &self.unused)
            .finish()
    }
}

/// As Rust's derive shows it: the variant with its parts.
impl fmt::Debug for Value {
    fn fmt<W: fmt::Write>(&self, f: &mut fmt::Formatter<W>) -> fmt::Result {
        match self {
            Value::Bool(truth) => f.debug_tuple("Bool").field(truth).finish(),
            Value::Int(number) => f.debug_tuple("Int").field(number).finish(),
            Value::Enum(number) => f.debug_tuple("Enum").field(number).finish(),
            Value::Bits(bits) => f.debug_tuple("Bits").field(bits).finish(),
            Value::Octets(octets) => f.debug_tuple("Octets").field(octets).finish(),
            Value::Text(text) => f.debug_tuple("Text").field(text).finish(),
            Value::Null => f.write_str("Null"),
            Value::Oid(numbers) => f.debug_tuple("Oid").field(numbers).finish(),
            Value::RelativeOid(numbers) => f.debug_tuple("RelativeOid").field(numbers).finish(),
            Value::Fields(values) => f.debug_tuple("Fields").field(values).finish(),
            Value::List(values) => f.debug_tuple("List").field(values).finish(),
            Value::Alt(index, inner) => f.debug_tuple("Alt").field(index).field(inner).finish(),
        }
    }
}
