//! What a type says of its values: names and the types of members.

ghost use Rattle.asn_base.specs.Schemas.{AreItems, IsSound, NumbersAscend, components};
ghost use Rattle.asn_base.specs.Seen.{alternative_of, component_of, item_of, kind_of};
ghost use Rattle.asn_base.specs.Types.{Resolved};
ghost use Rattle.std.specs.Prelude.{◌≡◌, ◌++◌, IfSome, List, None, Some, MatchOption, map, slice_get};
ghost use Rattle.value_text.specs.Print.{alternatives_in, items_in, name_with};

use asn_base::schema::{Alternative, Component, Core, Item, Items};

/// The components of a SEQUENCE or SET.
pub fn components(core: &Core) -> &[Component]
    ensures { map component_of result.now ≡ components (kind_of core.now) }
{
    match core {
        Core::Sequence(_, components) => components.as_slice(),
        Core::Set(_, components) => components.as_slice(),
        _ => &[],
    }
}

/// The name of the first item with the number.
fn name_among(items: &[Item], number: i128) -> Option<&str>
    ensures { let name = name_with (map item_of items.now) number in
        MatchOption result (name ≡ None) (λ n. name ≡ Some n.now) }
{
    for i in 0..items.len() {
        if items[i].number == number {
            return Some(items[i].name.as_str());
        }
    }
    None
}

/// The name of the item with the number, in items that ascend. In items that don't ascend, the item may be missed.
fn name_found(items: &[Item], number: i128) -> Option<&str>
    requires { NumbersAscend (map item_of items.now) }
    ensures { IfSome result (λ n. name_with (map item_of items.now) number ≡ Some n.now) }
{
    let place = items.partition_point(|item| item.number < number);
    match items.get(place) {
        Some(item) => {
            if item.number == number {
                Some(item.name.as_str())
            } else {
                None
            }
        }
        None => None,
    }
}

/// The name of the first item with the number: each item is compared, those of the root first.
fn name_of_any(items: &Items, number: i128) -> Option<&str>
    ensures { let name = name_with (map item_of items.now.root.items ++ map item_of items.now.additions.items) number in
        MatchOption result (name ≡ None) (λ n. name ≡ Some n.now) }
{
    match name_among(items.root.as_slice(), number) {
        Some(name) => Some(name),
        None => name_among(items.additions.as_slice(), number),
    }
}

/// The name of the item with the number. All items are compared only if a binary search finds none.
fn name_of(items: &Items, number: i128) -> Option<&str>
    requires { AreItems items.now.extensible
        (map item_of items.now.root.items)
        (map item_of items.now.additions.items) }
    ensures { let name = name_with (map item_of items.now.root.items ++ map item_of items.now.additions.items) number in
        MatchOption result (name ≡ None) (λ n. name ≡ Some n.now) }
{
    if let Some(name) = name_found(items.root.as_slice(), number) {
        return Some(name);
    }
    if let Some(name) = name_found(items.additions.as_slice(), number) {
        return Some(name);
    }
    name_of_any(items, number)
}

/// The identifier of the item with the number.
pub fn item_name(core: &Core, number: i128) -> Option<&str>
    requires { (s : List Resolved) × IsSound s (kind_of core.now) }
    ensures { let name = name_with (items_in (kind_of core.now)) number in
        MatchOption result (name ≡ None) (λ n. name ≡ Some n.now) }
{
    match core {
        Core::Enumerated(items) => name_of(items, number),
        _ => None,
    }
}

/// The alternative of a CHOICE with the number.
pub fn alternative_at(core: &Core, number: usize) -> Option<&Alternative>
    ensures { let found = slice_get (alternatives_in (kind_of core.now)) number in
        MatchOption result (found ≡ None) (λ a. found ≡ Some (alternative_of a.now)) }
{
    match core {
        Core::Choice(alternatives) => {
            let root_count = alternatives.root.len();
            if number < root_count {
                return Some(&alternatives.root[number]);
            }
            if number - root_count < alternatives.additions.len() {
                return Some(&alternatives.additions[number - root_count]);
            }
            None
        }
        _ => None,
    }
}
