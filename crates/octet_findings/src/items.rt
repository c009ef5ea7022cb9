//! The contents octets of an ENUMERATED (X.690, 8.4).

ghost use Rattle.asn_base.specs.Seen.{item_of};
ghost use Rattle.asn_base.specs.Types.{Item as Item'};
ghost use Rattle.octet_findings.specs.Findings.{Finds};
ghost use Rattle.octet_findings.specs.Items.{item_words, listed_after, separated};
ghost use Rattle.std.specs.Fmt.{signed_decimal};
ghost use Rattle.std.specs.Prelude.{◌≡◌, ◌++◌, ◌∷◌, [], IfOk, List, OnOk, codes, if◌then◌else◌};
ghost use Rattle.std.specs.Prelude.{map, string_bytes};

use crate::contents::of_number;
use crate::words::found;
use asn_base::schema::{Item, Items};
use encodings::LeafKind;
use messages::Finding;
use primitive_reader::{Leaf, read_leaf};
use std::alloc::{AllocError, Global};

/// The most octets of a list of items.
const SHOWN: usize = 60;

/// An item's name and number.
fn item_text(alloc: Global, item: &Item) -> Result<String, AllocError>
    ensures { IfOk result (λ s. string_bytes s ≡ item_words (item_of item.now)) }
{
    let name = item.name.as_str();
    let number = item.number;
    format!(in alloc; "{name} {number}")
}

/// Appends a comma to a list, if anything is in it.
fn push_comma(list: &mut String) -> Result<(), AllocError>
    ensures { OnOk result (string_bytes list.new ≡ separated (string_bytes list.old)) }
{
    if !list.is_empty() {
        list.push_str(", ")?;
    }
    Ok(())
}

/// Appends an item's name and number to a list, or two dots if there is no room for them. Returns whether there was.
fn push_item(alloc: Global, list: &mut String, item: &Item) -> Result<bool, AllocError>
    ensures { (more : List Item') → IfOk result (λ has_room.
        listed_after (string_bytes list.old) (item_of item.now ∷ more)
        ≡ (if has_room then listed_after (string_bytes list.new) more else string_bytes list.new)) }
{
    let word = item_text(alloc, item)?;
    push_comma(list)?;
    if list.len().saturating_add(word.len()) > SHOWN {
        list.push_str("..")?;
        return Ok(false);
    }
    list.push_str(word.as_str())?;
    Ok(true)
}

/// Appends items to a list, as long as there is room for them. Returns whether there was room for all.
fn push_items(alloc: Global, list: &mut String, items: &[Item]) -> Result<bool, AllocError>
    ensures { (more : List Item') → IfOk result (λ has_room.
        listed_after (string_bytes list.old) (map item_of items.now ++ more)
        ≡ (if has_room then listed_after (string_bytes list.new) more else string_bytes list.new)) }
{
    for i in 0..items.len() {
        if !push_item(alloc, list, &items[i])? {
            return Ok(false);
        }
    }
    Ok(true)
}

/// The names and numbers of the items, cut off after 60 octets.
fn listed(alloc: Global, items: &Items) -> Result<String, AllocError>
    ensures { IfOk result (λ s. string_bytes s
        ≡ listed_after [] (map item_of items.now.root.items ++ map item_of items.now.additions.items)) }
{
    let mut list = String::new(alloc);
    if push_items(alloc, &mut list, items.root.as_slice())? {
        push_items(alloc, &mut list, items.additions.as_slice())?;
    }
    Ok(list)
}

/// The finding for a number that is that of no item.
fn of_no_item(alloc: Global, items: &Items, number: i128) -> Result<Option<Finding>, AllocError>
    ensures { IfOk result (Finds
        (codes "the number " ++ (signed_decimal number ++ codes " of no item"))
        (codes "one of " ++ listed_after []
        (map item_of items.now.root.items ++ map item_of items.now.additions.items))) }
{
    let items = listed(alloc, items)?;
    let words = format!(in alloc; "the number {number} of no item")?;
    let expected = format!(in alloc; "one of {items}")?;
    Ok(found(alloc, words, expected.as_str())?)
}

/// What is wrong with the contents octets of an ENUMERATED: they are no number, or that of no item.
pub(crate) fn of_item(
    alloc: Global,
    items: &Items,
    octets: &[u8],
) -> Result<Option<Finding>, AllocError> {
    match read_leaf(LeafKind::Enumerated, octets) {
        Ok(Leaf::Enum(number)) => of_no_item(alloc, items, number),
        _ => of_number(alloc, octets),
    }
}
