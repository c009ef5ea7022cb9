//! Compares items and alternatives (X.680, 20 and 29).

ghost use Rattle.std.specs.Prelude.{◌≡◌, ◌↔◌, IsTrue, MatchOption, map};
ghost use Rattle.asn_base.specs.Seen.{alternative_of, item_of};
ghost use Rattle.later_versions.specs.Differences.{AreSameTo, ListsDiffer};
ghost use Rattle.later_versions.specs.Later.{IsFront};

use crate::reason::Reason;
use asn_base::schema::{Alternative, Alternatives, Item, Items};

/// Whether two items have the same name and number.
fn is_same_item(one: &Item, other: &Item) -> bool
    ensures { IsTrue result ↔ (item_of one.now ≡ item_of other.now) }
{
    one.number == other.number && one.name.as_bytes() == other.name.as_bytes()
}

/// The number of items that both lists begin with.
fn same_items(items: &[Item], others: &[Item]) -> usize
    ensures { AreSameTo (λ i j. i ≡ j) (map item_of items.now) (map item_of others.now) result }
{
    for i in 0..items.len() {
        if i >= others.len() {
            return i;
        }
        if !is_same_item(&items[i], &others[i]) {
            return i;
        }
    }
    items.len()
}

/// What differs in items, or None if the root is the same, and the other additions begin with these.
pub(crate) fn other_items(items: &Items, others: &Items) -> Option<Reason>
    ensures { MatchOption result
        ((items.now.extensible ≡ others.now.extensible)
        × (map item_of items.now.root.items ≡ map item_of others.now.root.items)
        × IsFront (λ i j. i ≡ j) (map item_of items.now.additions.items) (map item_of others.now.additions.items))
        (ListsDiffer (λ i j. i ≡ j)
        items.now.extensible (map item_of items.now.root.items) (map item_of items.now.additions.items)
        others.now.extensible (map item_of others.now.root.items) (map item_of others.now.additions.items)) }
{
    if items.extensible != others.extensible {
        return Some(Reason::Marker);
    }
    let root = same_items(items.root.as_slice(), others.root.as_slice());
    if root < items.root.len() || root < others.root.len() {
        return Some(Reason::Root(root));
    }
    let additions = same_items(items.additions.as_slice(), others.additions.as_slice());
    if additions < items.additions.len() {
        return Some(Reason::Addition(additions));
    }
    None
}

/// Whether two alternatives have the same name.
fn is_same_alternative(one: &Alternative, other: &Alternative) -> bool
    ensures { IsTrue result ↔ ((alternative_of one.now).name ≡ (alternative_of other.now).name) }
{
    one.name.as_bytes() == other.name.as_bytes()
}

/// The number of alternatives with the same names that both lists begin with.
fn same_alternatives(alternatives: &[Alternative], others: &[Alternative]) -> usize
    ensures { AreSameTo (λ a b. a.name ≡ b.name)
        (map alternative_of alternatives.now) (map alternative_of others.now) result }
{
    for i in 0..alternatives.len() {
        if i >= others.len() {
            return i;
        }
        if !is_same_alternative(&alternatives[i], &others[i]) {
            return i;
        }
    }
    alternatives.len()
}

/// What differs in alternatives, or None if the root has the same names, and the other additions begin with these
/// names.
pub(crate) fn other_alternatives(
    alternatives: &Alternatives,
    others: &Alternatives,
) -> Option<Reason>
    ensures { MatchOption result
        ((alternatives.now.extensible ≡ others.now.extensible)
        × (map (λ a. a.name) (map alternative_of alternatives.now.root.items)
        ≡ map (λ a. a.name) (map alternative_of others.now.root.items))
        × IsFront (λ a b. a.name ≡ b.name)
        (map alternative_of alternatives.now.additions.items)
        (map alternative_of others.now.additions.items))
        (ListsDiffer (λ a b. a.name ≡ b.name)
        alternatives.now.extensible
        (map alternative_of alternatives.now.root.items) (map alternative_of alternatives.now.additions.items)
        others.now.extensible
        (map alternative_of others.now.root.items) (map alternative_of others.now.additions.items)) }
{
    if alternatives.extensible != others.extensible {
        return Some(Reason::Marker);
    }
    let root = same_alternatives(alternatives.root.as_slice(), others.root.as_slice());
    if root < alternatives.root.len() || root < others.root.len() {
        return Some(Reason::Root(root));
    }
    let additions = same_alternatives(
        alternatives.additions.as_slice(),
        others.additions.as_slice(),
    );
    if additions < alternatives.additions.len() {
        return Some(Reason::Addition(additions));
    }
    None
}
