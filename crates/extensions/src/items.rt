//! The items of an enumeration with their numbers, in the order of these.

ghost use Rattle.std.specs.Prelude.{◌≡◌, ◌↔◌, ◌<◌, ◌≤◌, ◌+◌, ℕ, ℤ, false, Some, None, IfOk, drop, length, map, slice_get};
ghost use Rattle.asn_base.specs.Names.{IsMember};
ghost use Rattle.asn_base.specs.Schemas.{NumbersAscend};
ghost use Rattle.asn_base.specs.Seen.{item_of, kind_of};
ghost use Rattle.asn_base.specs.Types as types;
ghost use Rattle.trees.specs.Types.{an_enumerated};
ghost use Rattle.trees.specs.Types as trees;
ghost use Rattle.trees.specs.Values.{Name, name_at};
ghost use Rattle.type_table.specs.Items.{numbers_of};
ghost use Rattle.type_table.specs.Lists.{IsSoundEnumeration};
ghost use Rattle.type_table.specs.Seen.{after_marker, more_of, root_items};
ghost use Rattle.type_table.specs.Table.{simple};
ghost use Rattle.resolve.specs.Program.{Program};
ghost use Rattle.settled.specs.schema_of.SchemaOf.{IsAddedItem, IsRootItem};
ghost use Rattle.extensions.specs.proving.Cores.{IsCoreOf};
ghost use Rattle.extensions.specs.proving.Items.{DifferByNumber, item_with, with_numbers};

use asn_base::schema::{Core, Item, Items};
use std::alloc::{AllocError, Global};
use trees::{EnumeratedItem, EnumeratedSyntax};
use type_table::{NumberFault, item_numbers};

/// An item with its number. `AllocError` only if an allocation fails.
fn item(written: &EnumeratedItem, number: i128) -> Result<Item, AllocError>
    ensures { IfOk result (λ i. item_of i ≡ item_with (name_at written.now.name) number) }
{
    Ok(Item {
        name: written.name.it.clone()?,
        number,
    })
}

/// The number at a place.
fn number_at(numbers: &[i128], at: usize) -> i128
    requires { at < length numbers.now }
    ensures { slice_get numbers.now at ≡ Some result }
{
    numbers[at]
}

/// Items with their numbers. The first item has the number at place `from`.
fn numbered(
    alloc: Global,
    written: &[EnumeratedItem],
    numbers: &[i128],
    from: usize,
) -> Result<Vec<Item>, AllocError>
    requires { from + length written.now ≤ length numbers.now }
    ensures { IfOk result
        (λ v. map item_of v.items ≡ with_numbers (map trees.item_of written.now) (drop from numbers.now)) }
{
    let mut all = Vec::new(alloc);
    for at in 0..written.len() {
        let one = item(&written[at], number_at(numbers, from + at))?;
        all.push(one)?;
    }
    Ok(all)
}

/// The items in the order of their numbers.
fn in_order(items: Vec<Item>) -> Result<Vec<Item>, AllocError>
    requires { DifferByNumber items.items }
    ensures members { IfOk result (λ v. (i : types.Item) →
        (IsMember i (map item_of v.items) ↔ IsMember i (map item_of items.items))) }
    ensures ascend { IfOk result (λ v. NumbersAscend (map item_of v.items)) }
{
    let mut all = items;
    all.sort_by_key(|item| item.number)?;
    Ok(all)
}

/// The items before the extension marker, in the order of their numbers.
fn root(alloc: Global, given: &EnumeratedSyntax, numbers: &[i128]) -> Result<Vec<Item>, AllocError>
    requires sound { IsSoundEnumeration (root_items given.now) (more_of given.now) }
    requires numbers { numbers.now ≡ numbers_of (root_items given.now) (more_of given.now) }
    ensures members { IfOk result (λ v. (x : Name) (z : ℤ) →
        (IsMember (item_with x z) (map item_of v.items) ↔ IsRootItem (root_items given.now) (more_of given.now) x z)) }
    ensures ascend { IfOk result (λ v. NumbersAscend (map item_of v.items)) }
{
    match numbered(alloc, &given.root, numbers, 0) {
        Ok(all) => in_order(all),
        Err(fault) => Err(fault),
    }
}

/// The items after the extension marker, or none if there is no marker.
fn items_after(given: &EnumeratedSyntax) -> &[EnumeratedItem]
    ensures { map trees.item_of result.now ≡ more_of given.now }
{
    match &given.additions {
        None => &[],
        Some(items) => items,
    }
}

/// The items after the extension marker, in the order of their numbers.
fn additions(
    alloc: Global,
    given: &EnumeratedSyntax,
    numbers: &[i128],
) -> Result<Vec<Item>, AllocError>
    requires sound { IsSoundEnumeration (root_items given.now) (more_of given.now) }
    requires numbers { numbers.now ≡ numbers_of (root_items given.now) (more_of given.now) }
    ensures members { IfOk result (λ v. (x : Name) (z : ℤ) →
        (IsMember (item_with x z) (map item_of v.items) ↔ IsAddedItem (root_items given.now) (more_of given.now) x z)) }
    ensures ascend { IfOk result (λ v. NumbersAscend (map item_of v.items)) }
{
    match numbered(alloc, items_after(given), numbers, given.root.len()) {
        Ok(all) => in_order(all),
        Err(fault) => Err(fault),
    }
}

/// Whether an enumeration has an extension marker.
fn has_marker(given: &EnumeratedSyntax) -> bool
    ensures { result ≡ false ↔ after_marker given.now ≡ None }
{
    match &given.additions {
        None => false,
        Some(_) => true,
    }
}

/// The ENUMERATED type of a schema: its items with their numbers (X.680, clauses 20.5 and 20.6). Those of the root and
/// those after the marker are each in the order of their numbers.
pub(crate) fn enumeration(alloc: Global, given: &EnumeratedSyntax) -> Result<Core, AllocError>
    requires { IsSoundEnumeration (root_items given.now) (more_of given.now) }
    ensures { (p : Program) (i : ℕ) (M : Name) → IfOk result (λ c.
        IsCoreOf p i M (simple (an_enumerated (root_items given.now) (after_marker given.now))) (kind_of c)) }
{
    let numbers = match item_numbers(alloc, given) {
        Ok(numbers) => numbers,
        Err(NumberFault::Memory) => return Err(AllocError),
        Err(NumberFault::TooGreat(_)) => unreachable!(),
    };
    let root = match root(alloc, given, &numbers) {
        Ok(items) => items,
        Err(fault) => return Err(fault),
    };
    match additions(alloc, given, &numbers) {
        Ok(additions) => Ok(Core::Enumerated(Items {
            root,
            extensible: has_marker(given),
            additions,
        })),
        Err(fault) => Err(fault),
    }
}
