//! The shape of a written type, with the names that it lists.

ghost use Rattle.std.specs.Prelude.{◌≡◌, ◌<◌, ℕ, IfOk, IfErr, IfSome, IsUtf8, MatchOption, Some, length, map, slice_get, true, false};
ghost use Rattle.trees.specs.Types.{bit_of, numbered_name};
ghost use Rattle.names.specs.Modules.{OccursIn};
ghost use Rattle.names.specs.Names.{names_of, under};
ghost use Rattle.type_table.specs.Seen.{kind_of};
ghost use Rattle.resolve.specs.Listed.{IsPlaceOf, bits_listed, item_numbers, items_listed, listed_names, numbers_listed};
ghost use Rattle.resolve.specs.proving.Ordered.{IsIndexOf, IsOrderOf};

use crate::name_index::{NameIndex, count_of, name_at};
use std::cmp::Ordering;
use std::marker::Model;
use trees::Simple;
use type_table::Shape;

/// The shape of a written type, and where the names are that it lists. A name is found in a time that grows as log n
/// for n names, in the types of linked modules.
#[derive(Drop)]
pub struct NamedShape<'a> {
    shape: &'a Shape,
    /// The places of the names, in the order of the names; or nothing, and the names are searched in turn.
    order: &'a [usize],
    /// The numbers of the items of an enumeration, or nothing.
    numbers: &'a [i128],
}

impl<'a> Model for NamedShape<'a> {
    ghost use Rattle.std.specs.Coded.{codes};
    ghost use Rattle.resolve.specs.Codes.{tree_code};
    ghost use Rattle.trees.specs.contracts.value.ValueSyntax as value_syntax;
    ghost use Rattle.type_table.specs.declared.table.Shape.{Shape};

    ghost coded = { Prim.hlevel (codes, tree_code, value_syntax.the_row.coded) };

    ghost Value = { Shape };

    ghost view = { λ n. n.shape.now };

    ghost use Rattle.type_table.specs.Seen.{kind_of};
    ghost use Rattle.resolve.specs.proving.Ordered.{IsIndexOf};

    ghost invariant = { λ n. IsIndexOf (kind_of n.shape.now) n.order.now n.numbers.now };
}

/// The first place of a name, which is searched in turn.
fn place_in_turn(shape: &Shape, name: &str) -> Option<usize>
    ensures { IsPlaceOf (listed_names (kind_of shape.now)) name.now result }
{
    for place in 0..count_of(shape) {
        match name_at(shape, place) {
            None => return None,
            Some(other) => {
                if other == name {
                    return Some(place);
                }
            }
        }
    }
    None
}

/// The place of a name, which is searched by halves.
fn place_in_order(shape: &Shape, order: &[usize], name: &str) -> Option<usize>
    requires { IsOrderOf (listed_names (kind_of shape.now)) order.now }
    ensures { IsPlaceOf (listed_names (kind_of shape.now)) name.now result }
{
    let mut low = 0;
    let mut high = order.len();
    while low < high {
        let middle = low + (high - low) / 2;
        let place = order[middle];
        let Some(other) = name_at(shape, place) else {
            return None;
        };
        match other.cmp(name) {
            Ordering::Less => low = middle + 1,
            Ordering::Equal => return Some(place),
            Ordering::Greater => high = middle,
        }
    }
    None
}

impl<'a> NamedShape<'a> {
    /// A shape whose names are searched in turn.
    pub fn of(shape: &'a Shape) -> NamedShape<'a>
        ensures { result ≡ shape.now }
    {
        NamedShape {
            shape,
            order: &[],
            numbers: &[],
        }
    }

    /// A shape with its index.
    pub(crate) fn with_index(shape: &'a Shape, index: &'a NameIndex) -> NamedShape<'a>
        requires { IsIndexOf (kind_of shape.now) index.now.order.items index.now.numbers.items }
        ensures { result ≡ shape.now }
    {
        NamedShape {
            shape,
            order: &index.order,
            numbers: &index.numbers,
        }
    }

    /// The shape.
    pub fn shape(&self) -> &'a Shape
        ensures { result.now ≡ self.now }
    {
        self.shape
    }

    /// The first place of a name in the list of numbers, bits, items or members of the type, or None if the list
    /// doesn't have the name. An index lists distinct names, so the place that it gives is the only one.
    pub fn place(&self, name: &str) -> Option<usize>
        ensures { IsPlaceOf (listed_names (kind_of self.now)) name.now result }
    {
        if self.order.is_empty() {
            place_in_turn(self.shape, name)
        } else {
            place_in_order(self.shape, self.order, name)
        }
    }

    /// The number that a name has in an INTEGER type (X.680, clause 19), or None: the type is another one, or doesn't
    /// have the name.
    pub fn number(&self, name: &str) -> Option<i128>
        ensures { result ≡ under name.now (numbers_listed (kind_of self.now)) }
    {
        match self.shape {
            Shape::Simple(simple) => match simple {
                Simple::Integer(numbers) => match self.place(name) {
                    None => None,
                    Some(place) => Some(numbers[place].number),
                },
                _ => None,
            },
            _ => None,
        }
    }

    /// The place of the bit that a name has in a BIT STRING type (X.680, clause 22), or None: the type is another one,
    /// or doesn't have the name.
    pub fn bit(&self, name: &str) -> Option<u128>
        ensures { result ≡ under name.now (bits_listed (kind_of self.now)) }
    {
        match self.shape {
            Shape::Simple(simple) => match simple {
                Simple::BitString(bits) => match self.place(name) {
                    None => None,
                    Some(place) => Some(bits[place].place),
                },
                _ => None,
            },
            _ => None,
        }
    }

    /// The place of an item of an ENUMERATED type among those of the root and then the additions, or None: the type is
    /// another one, or doesn't have the name.
    pub fn item(&self, name: &str) -> Option<usize>
        ensures { MatchOption result
            (OccursIn (names_of (items_listed (kind_of self.now))) name.now → ⊥)
            (λ i. slice_get (names_of (items_listed (kind_of self.now))) i ≡ Some name.now) }
    {
        match self.shape {
            Shape::Simple(Simple::Enumerated(_)) => self.place(name),
            _ => None,
        }
    }

    /// The numbers of the items of an ENUMERATED type, first those of the root, if they are known. They are known in
    /// linked modules.
    pub fn numbers(&self) -> Option<&'a [i128]>
        ensures { IfSome result (λ zs. zs.now ≡ item_numbers (kind_of self.now)) }
    {
        if self.numbers.is_empty() {
            None
        } else {
            Some(self.numbers)
        }
    }
}
