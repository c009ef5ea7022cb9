//! Where the names are that written types list, by the names.

ghost use Rattle.std.specs.Prelude.{◌≡◌, ◌<◌, ◌++◌, ℕ, IfOk, Some, length, map, option_map, slice_get, true};
ghost use Rattle.std.specs.Ordering.{nat_cmp};
ghost use Rattle.std.specs.Cmp.Lexicographic.{slice_cmp};
ghost use Rattle.trees.specs.Types.{bit_of, item_of, numbered_name};
ghost use Rattle.names.specs.Names.{names_of};
ghost use Rattle.type_table.specs.Seen.{kind_of, more_of, part_of, root_items};
ghost use Rattle.type_table.specs.Table.{Part};
ghost use Rattle.resolve.specs.Listed.{item_numbers as item_numbers', listed_names};
ghost use Rattle.resolve.specs.proving.Ordered.{AreIndexes, AreItemNumbers, ComesBefore, IsIndexOf, IsOrder, RisesTo};

use std::alloc::{AllocError, Global};
use std::cmp::Ordering;
use trees::{EnumeratedItem, EnumeratedSyntax, NamedBit, NamedNumber, Simple};
use type_table::{ListMember, NumberFault, Shape, TypeNode, item_numbers};

/// How many names a list may have that is searched from its first name on.
const FEW_NAMES: usize = 8;

/// Where the names are that a written type lists. Both lists are empty where searching in order is fast enough.
#[derive(Drop)]
pub struct NameIndex {
    /// The places of the names, in the order of the names.
    pub(crate) order: Vec<usize>,
    /// The numbers of the items of an enumeration.
    pub(crate) numbers: Vec<i128>,
}

/// The name of the number at a place, if there is one.
fn number_name(numbers: &[NamedNumber], place: usize) -> Option<&str>
    ensures { option_map (λ x. x.now) result ≡ slice_get (names_of (map numbered_name numbers.now)) place }
{
    if place < numbers.len() {
        Some(numbers[place].name.it.as_str())
    } else {
        None
    }
}

/// The name of the bit at a place, if there is one.
fn bit_name(bits: &[NamedBit], place: usize) -> Option<&str>
    ensures { option_map (λ x. x.now) result ≡ slice_get (names_of (map bit_of bits.now)) place }
{
    if place < bits.len() {
        Some(bits[place].name.it.as_str())
    } else {
        None
    }
}

/// The name of the item at a place, if there is one.
fn item_name(items: &[EnumeratedItem], place: usize) -> Option<&str>
    ensures { option_map (λ x. x.now) result ≡ slice_get (names_of (map item_of items.now)) place }
{
    if place < items.len() {
        Some(items[place].name.it.as_str())
    } else {
        None
    }
}

/// The name of the member at a place, if there is one.
fn member_name(members: &[ListMember], place: usize) -> Option<&str>
    ensures { option_map (λ x. x.now) result ≡ slice_get (map (λ (c : Part). c.name) (map part_of members.now)) place }
{
    if place < members.len() {
        Some(members[place].name.it.as_str())
    } else {
        None
    }
}

/// The items after the extension marker, or none if there is no marker.
fn items_after(given: &EnumeratedSyntax) -> &[EnumeratedItem]
    ensures { map item_of result.now ≡ more_of given.now }
{
    match &given.additions {
        None => &[],
        Some(items) => items,
    }
}

/// The name of the item at a place, where those of the root come first, if there is one.
fn any_item_name(given: &EnumeratedSyntax, place: usize) -> Option<&str>
    ensures { option_map (λ x. x.now) result ≡ slice_get (names_of (root_items given.now ++ more_of given.now)) place }
{
    let root = given.root.as_slice();
    if place < root.len() {
        item_name(root, place)
    } else {
        item_name(items_after(given), place - root.len())
    }
}

/// The name at a place of the list in a type, or None if the list has no such place.
pub(crate) fn name_at(shape: &Shape, place: usize) -> Option<&str>
    ensures { option_map (λ x. x.now) result ≡ slice_get (listed_names (kind_of shape.now)) place }
{
    match shape {
        Shape::Simple(Simple::Integer(numbers)) => number_name(numbers, place),
        Shape::Simple(Simple::BitString(bits)) => bit_name(bits, place),
        Shape::Simple(Simple::Enumerated(given)) => any_item_name(given, place),
        Shape::Members(_, _, members) => member_name(members, place),
        _ => None,
    }
}

/// How many names a type lists.
pub(crate) fn count_of(shape: &Shape) -> usize
    ensures { result ≡ length (listed_names (kind_of shape.now)) }
{
    match shape {
        Shape::Simple(Simple::Integer(numbers)) => numbers.len(),
        Shape::Simple(Simple::BitString(bits)) => bits.len(),
        Shape::Simple(Simple::Enumerated(given)) => given.root.len() + items_after(given).len(),
        Shape::Members(_, _, members) => members.len(),
        _ => 0,
    }
}

/// The name at a place of the list in a type, or an empty text if the list has no such place.
fn sort_key(shape: &Shape, place: usize) -> &str {
    match name_at(shape, place) {
        None => "",
        Some(name) => name,
    }
}

/// Whether the name at a place comes before the name at another one.
fn comes_before(shape: &Shape, one: usize, other: usize) -> bool
    ensures { result ≡ true → ComesBefore (listed_names (kind_of shape.now)) one other }
{
    match name_at(shape, one) {
        None => false,
        Some(name) => match name_at(shape, other) {
            None => false,
            Some(next) => match name.cmp(next) {
                Ordering::Less => true,
                Ordering::Equal => false,
                Ordering::Greater => false,
            },
        },
    }
}

/// Whether the names at some places are in order, and none is there twice.
fn rises(shape: &Shape, order: &[usize]) -> bool
    ensures { result ≡ true → RisesTo (listed_names (kind_of shape.now)) order.now (length order.now) }
{
    for k in 1..order.len() {
        if !comes_before(shape, order[k - 1], order[k]) {
            return false;
        }
    }
    true
}

/// The numbers below one.
fn places(alloc: Global, count: usize) -> Result<Vec<usize>, AllocError>
    ensures long { IfOk result (λ v. length v.items ≡ count) }
    ensures each { IfOk result (λ v. (p : ℕ) → p < count → slice_get v.items p ≡ Some p) }
{
    let mut all = Vec::new(alloc);
    for place in 0..count {
        all.push(place)?;
    }
    Ok(all)
}

/// The places of the names that a type lists, in the order of the names. The result is empty for a short list, and if a
/// name is in the list twice.
fn order_of(alloc: Global, shape: &Shape) -> Result<Vec<usize>, AllocError>
    ensures { IfOk result (λ v. IsOrder (listed_names (kind_of shape.now)) v.items) }
{
    let count = count_of(shape);
    if count <= FEW_NAMES {
        return Ok(Vec::new(alloc));
    }
    let mut order = places(alloc, count)?;
    order.sort_by_key(|place| sort_key(shape, *place))?;
    if rises(shape, &order) {
        Ok(order)
    } else {
        Ok(Vec::new(alloc))
    }
}

/// The numbers of the items of a type. The result is empty if the type has none, and if one of them would be too great.
fn numbers_of(alloc: Global, shape: &Shape) -> Result<Vec<i128>, AllocError>
    ensures { IfOk result (λ v. AreItemNumbers (kind_of shape.now) v.items) }
{
    match shape {
        Shape::Simple(Simple::Enumerated(given)) => match item_numbers(alloc, given) {
            Ok(numbers) => Ok(numbers),
            Err(NumberFault::Memory) => Err(AllocError),
            Err(NumberFault::TooGreat(_)) => Ok(Vec::new(alloc)),
        },
        _ => Ok(Vec::new(alloc)),
    }
}

/// The index of a type.
fn index_of(alloc: Global, shape: &Shape) -> Result<NameIndex, AllocError>
    ensures { IfOk result (λ n. IsIndexOf (kind_of shape.now) n.order.items n.numbers.items) }
{
    Ok(NameIndex {
        order: order_of(alloc, shape)?,
        numbers: numbers_of(alloc, shape)?,
    })
}

/// The indexes of types, in order. The time grows as n log n for n names.
pub(crate) fn indexes_of(alloc: Global, types: &[TypeNode]) -> Result<Vec<NameIndex>, AllocError>
    ensures { IfOk result (λ v. AreIndexes types.now v.items) }
{
    let mut all = Vec::new(alloc);
    for written in types {
        let index = index_of(alloc, &written.shape)?;
        all.push(index)?;
    }
    Ok(all)
}
