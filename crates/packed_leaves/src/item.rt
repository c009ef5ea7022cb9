//! ENUMERATED (X.691, 14).

ghost use Rattle.asn_base.specs.Abstract.{abstract};
ghost use Rattle.asn_base.specs.Schemas.{AreItems};
ghost use Rattle.asn_base.specs.Seen.{item_of};
ghost use Rattle.asn_base.specs.Typed.{IsPrimitive, HasNumber};
ghost use Rattle.asn_base.specs.Types.{an_enumerated};
ghost use Rattle.packed_counts.specs.Counts.{Adds};
ghost use Rattle.packed_encodings.specs.Computed.{leaf_bits};
ghost use Rattle.packed_encodings.specs.Leaves.{ItemBits, place_width, root_bit};
ghost use Rattle.bits.specs.Words.{low_bits};
ghost use Rattle.packed_leaves.specs.proving.Items.{IsPlace};
ghost use Rattle.std.specs.Prelude.{◌≡◌, ◌++◌, ◌∷◌, ◌<◌, ◌≤◌, IfSome, MatchOption, OnOk, false, length, map, true};

use crate::value::item_number;
use asn_base::schema::{Item, Items};
use asn_base::value::Value;
use bits::buffer::BitBuf;
use packed_code::width_of_place;
use packed_counts::push_number;
use packed_encodings::function_laws;
use std::alloc::AllocError;

/// The place of the item with this number, by a search that needs ascending items. For other items the result may be
/// None.
fn found(items: &[Item], number: i128) -> Option<usize>
    ensures { IfSome result (IsPlace (map item_of items.now) number) }
{
    let place = items.partition_point(|item| item.number < number);
    match items.get(place) {
        Some(item) => if item.number == number {
            Some(place)
        } else {
            None
        },
        None => None,
    }
}

/// The place of the item with this number, or None if there is no such item.
fn looked_for(items: &[Item], number: i128) -> Option<usize>
    ensures { MatchOption result
        (HasNumber (map item_of items.now) number → ⊥)
        (IsPlace (map item_of items.now) number) }
{
    for i in 0..items.len() {
        if items[i].number == number {
            return Some(i);
        }
    }
    None
}

/// Adds the index of an item in the root (14.2).
fn push_root(out: &mut BitBuf, items: &Items, place: usize) -> Result<(), AllocError>
    ensures { OnOk result (out.new ≡ out.old
        ++ (root_bit items.now.extensible ++ low_bits (place_width (length items.now.root.items)) place)) }
{
    if items.extensible {
        out.push(false)?;
    }
    push_number(out, place as u128, width_of_place(items.root.len()))
}

/// Adds the index of an item after the marker (14.3).
fn push_added(out: &mut BitBuf, place: usize) -> Result<(), AllocError>
    requires { place < 64 }
    ensures { OnOk result (out.new ≡ out.old ++ (true ∷ (false ∷ low_bits 6 place))) }
{
    out.push(true)?;
    out.push(false)?;
    out.push_word(place as u64, 6)?;
    Ok(())
}

/// Adds the index of the item with this number.
fn push_item(out: &mut BitBuf, items: &Items, number: i128) -> Result<(), AllocError>
    requires items { AreItems items.now.extensible (map item_of items.now.root.items)
        (map item_of items.now.additions.items) }
    requires has { HasNumber (map item_of items.now.root.items ++ map item_of items.now.additions.items) number }
    ensures { OnOk result (Adds (ItemBits (map item_of items.now.root.items) items.now.extensible
        (map item_of items.now.additions.items) number) out.old out.new) }
{
    let root = items.root.as_slice();
    let more = items.additions.as_slice();
    if let Some(place) = found(root, number) {
        push_root(out, items, place)?;
        return Ok(());
    }
    if let Some(place) = found(more, number) {
        push_added(out, place)?;
        return Ok(());
    }
    match looked_for(root, number) {
        Some(place) => {
            push_root(out, items, place)?;
            Ok(())
        }
        None => match looked_for(more, number) {
            Some(place) => {
                push_added(out, place)?;
                Ok(())
            }
            None => unreachable!(),
        },
    }
}

/// Adds the item of an ENUMERATED (14).
pub(crate) fn push_enumerated(
    out: &mut BitBuf,
    items: &Items,
    value: &Value,
) -> Result<(), AllocError>
    requires items { AreItems items.now.extensible (map item_of items.now.root.items)
        (map item_of items.now.additions.items) }
    requires fits { IsPrimitive (an_enumerated (map item_of items.now.root.items) items.now.extensible
        (map item_of items.now.additions.items)) (abstract value.now) }
    ensures { OnOk result (out.new ≡ out.old ++ leaf_bits (an_enumerated (map item_of items.now.root.items)
        items.now.extensible (map item_of items.now.additions.items)) (abstract value.now)) }
{
    function_laws();
    push_item(out, items, item_number(value))?;
    Ok(())
}
