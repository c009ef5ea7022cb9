//! Items of an enumeration (X.691, 14).

ghost use Rattle.asn_base.specs.Abstract.{enumerated};
ghost use Rattle.asn_base.specs.Seen.{item_of};
ghost use Rattle.bits.specs.Left.{bits_left};
ghost use Rattle.packed_readings.specs.Leaves.{item_at, item_from, root_item_from};
ghost use Rattle.packed_readings.specs.Outcome.{bad, good, judging, outcome_by, small_from};
ghost use Rattle.decode_faults.specs.declared.refusal.Refusal.TheVariants.{UnknownEnumeration};
ghost use Rattle.std.specs.Prelude.{◌≡◌, IfErr, IfOk, map};

use crate::field::{read_bit, read_field, read_small};
use asn_base::schema::{Item, Items};
use bits::cursor::Bits;
use decode_faults::Refusal;
use packed_code::width_of_place;

/// The number of the item at a place, or the error `refusal` if there is none.
#[inline(always)]
fn number_at(items: &[Item], place: u64, refusal: Refusal) -> Result<i128, Refusal>
    ensures ok { IfOk result (λ z. item_at refusal (map item_of items.now) place ≡ good (enumerated z)) }
    ensures err { IfErr result (λ e. item_at refusal (map item_of items.now) place ≡ bad e) }
{
    match items.get(place as usize) {
        Some(item) => Ok(item.number),
        None => Err(refusal),
    }
}

/// Takes the place of an item of the root.
#[inline(always)]
fn read_root_item(items: &[Item], bits: &mut Bits<'_>) -> Result<i128, Refusal>
    ensures { root_item_from (map item_of items.now) (bits_left bits.old)
        ≡ outcome_by enumerated result (bits_left bits.new) }
{
    let start = *bits;
    let width = width_of_place(items.len());
    let place = match read_field(bits, width) {
        Ok(place) => place,
        Err(truncated) => return Err(truncated),
    };
    match number_at(items, place, Refusal::Outside) {
        Ok(number) => Ok(number),
        Err(refusal) => {
            *bits = start;
            Err(refusal)
        }
    }
}

/// Takes the place of an item after the marker.
#[inline(never)]
fn read_added_item(items: &[Item], bits: &mut Bits<'_>) -> Result<i128, Refusal>
    ensures { judging (item_at UnknownEnumeration (map item_of items.now))
        (small_from UnknownEnumeration) (bits_left bits.old)
        ≡ outcome_by enumerated result (bits_left bits.new) }
{
    let start = *bits;
    let place = match read_small(bits, Refusal::UnknownEnumeration) {
        Ok(place) => place,
        Err(refusal) => return Err(refusal),
    };
    match number_at(items, place, Refusal::UnknownEnumeration) {
        Ok(number) => Ok(number),
        Err(refusal) => {
            *bits = start;
            Err(refusal)
        }
    }
}

/// Takes an ENUMERATED (X.691, 14), and returns the number of its item.
///
/// `Outside`: the root has no item at the place. `UnknownEnumeration`: the type has no item at the place after the
/// marker. The cursor is then at the place of the fault. `Truncated`: the bits end before.
#[inline(always)]
pub fn read_item(items: &Items, bits: &mut Bits<'_>) -> Result<i128, Refusal>
    ensures { item_from (map item_of items.now.root.items)
        items.now.extensible (map item_of items.now.additions.items) (bits_left bits.old)
        ≡ outcome_by enumerated result (bits_left bits.new) }
{
    if !items.extensible {
        return read_root_item(items.root.as_slice(), bits);
    }
    match read_bit(bits) {
        Ok(true) => read_added_item(items.additions.as_slice(), bits),
        Ok(false) => read_root_item(items.root.as_slice(), bits),
        Err(truncated) => Err(truncated),
    }
}
