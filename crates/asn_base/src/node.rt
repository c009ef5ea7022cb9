//! Values seen a level at a time, however memory holds them.

ghost use Rattle.asn_base.specs.Abstract.{AbstractValue, Row, abstract, row_of_list};
ghost use Rattle.asn_base.specs.Shown.{IsTaken, Shows};
ghost use Rattle.asn_base.specs.Typed.{members};
ghost use Rattle.std.specs.Prelude.{◌≡◌, ◌<◌, ◌≤◌, ℕ, None, Option as Option', get_or, map, option_map};

use crate::law::lemma_abstract_values;
use crate::value::Value;

/// What a value shows at its first level. `Bits` has the number of unused bits of the last octet, and the octets.
/// `Fields` has the number of components of a SEQUENCE or SET, and those that are present. `List` has the elements of a
/// SEQUENCE OF or SET OF. `Alternative` has the number of an alternative of a CHOICE, and its value.
#[derive(Drop)]
pub enum ValueKind<'v, N, F, E> {
    Bool(bool),
    Int(i128),
    Enum(i128),
    Bits(u8, &'v [u8]),
    Octets(&'v [u8]),
    Text(&'v str),
    Null,
    Oid(&'v [u64]),
    RelativeOid(&'v [u64]),
    Fields(usize, F),
    List(E),
    Alternative(usize, N),
}

/// A value of some type, whose parts are values of the same form.
pub trait ValueNode: Sized + Drop {
    /// The components of a SEQUENCE or SET that weren't taken yet.
    type Fields: Drop;

    /// The elements of a SEQUENCE OF or SET OF that weren't taken yet.
    type Elements: Drop;

    ghost value_of: { Self → AbstractValue };

    /// The component at a place.
    ghost part_at: { Self.Fields → ℕ → Option' AbstractValue };

    ghost row_of: { Self.Elements → Row };

    /// What the value shows at its first level.
    fn kind(&self) -> ValueKind<'_, Self, Self::Fields, Self::Elements>
        ensures { Shows value_of part_at row_of (value_of self.now) result };

    /// The same components again.
    fn fields_again(fields: &Self::Fields) -> Self::Fields
        ensures { result ≡ fields.now };

    /// The component at the place, or None if it is absent. Components at earlier places may be gone then.
    fn take_component(fields: &mut Self::Fields, place: u32) -> Option<Self>
        ensures found { option_map value_of result ≡ part_at fields.old place }
        ensures later { (j : ℕ) → place < j → part_at fields.new j ≡ part_at fields.old j };

    /// The next element, or None if none is left.
    fn next_element(elements: &mut Self::Elements) -> Option<Self>
        ensures { IsTaken value_of row_of elements.old result elements.new };

    /// The number of elements that are left.
    fn element_count(elements: &Self::Elements) -> usize
        ensures { result ≡ members (row_of elements.now) };
}

impl<'v> ValueNode for &'v Value {
    ghost use Rattle.asn_base.specs.Abstract.{abstract, row_of_list};
    ghost use Rattle.std.specs.Prelude.{None, get_or, map, option_map};

    type Fields = &'v [Option<Value>];

    type Elements = &'v [Value];

    ghost value_of = { λ v. abstract v.now };

    ghost part_at = { λ vs i. option_map abstract (get_or vs.now i None) };

    ghost row_of = { λ vs. row_of_list (map abstract vs.now) };

    #[inline(always)]
    fn kind(&self) -> ValueKind<'_, &'v Value, &'v [Option<Value>], &'v [Value]> {
        lemma_abstract_values();
        let value: &'v Value = *self;
        match value {
            Value::Bool(truth) => ValueKind::Bool(*truth),
            Value::Int(number) => ValueKind::Int(*number),
            Value::Enum(number) => ValueKind::Enum(*number),
            Value::Bits(bits) => ValueKind::Bits(bits.unused, bits.octets.as_slice()),
            Value::Octets(octets) => ValueKind::Octets(octets.as_slice()),
            Value::Text(text) => ValueKind::Text(text.as_str()),
            Value::Null => ValueKind::Null,
            Value::Oid(numbers) => ValueKind::Oid(numbers.as_slice()),
            Value::RelativeOid(numbers) => ValueKind::RelativeOid(numbers.as_slice()),
            Value::Fields(values) => {
                let parts = values.as_slice();
                ValueKind::Fields(parts.len(), parts)
            }
            Value::List(values) => ValueKind::List(values.as_slice()),
            Value::Alt(number, held) => ValueKind::Alternative(*number, held),
        }
    }

    #[inline(always)]
    fn fields_again(fields: &&'v [Option<Value>]) -> &'v [Option<Value>] {
        *fields
    }

    #[inline(always)]
    fn take_component(fields: &mut &'v [Option<Value>], place: u32) -> Option<&'v Value> {
        match fields.get(place as usize) {
            Some(part) => part.as_ref(),
            None => None,
        }
    }

    #[inline(always)]
    fn next_element(elements: &mut &'v [Value]) -> Option<&'v Value> {
        match elements.split_first() {
            Some((first, rest)) => {
                *elements = rest;
                Some(first)
            }
            None => None,
        }
    }

    #[inline(always)]
    fn element_count(elements: &&'v [Value]) -> usize {
        elements.len()
    }
}
