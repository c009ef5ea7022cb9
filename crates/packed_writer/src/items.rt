//! The encodings of elements as items after their number, and the order of items in a SET OF (X.691, 20 and 22).

ghost use Rattle.asn_base.specs.Seen.{bounds_of};
ghost use Rattle.bits.specs.Words.{word_bits};
ghost use Rattle.packed_counts.specs.Counts.{Adds, HasLeast};
ghost use Rattle.packed_encodings.specs.Computed as computed;
ghost use Rattle.packed_encodings.specs.Computed.{sized_bits};
ghost use Rattle.packed_encodings.specs.Lengths.{Counted, IsInRootBounds, all_bits};
ghost use Rattle.packed_encodings.specs.Orders.{BitsAscend};
ghost use Rattle.std.specs.List.Sorted.{IsPermutation};
ghost use Rattle.std.specs.Ordering.{is_lt};
ghost use Rattle.std.specs.Prelude.{◌≡◌, ◌++◌, OnOk, false, get_or, length, pos};

use asn_base::constraint::Bounds;
use bits::buffer::BitBuf;
use packed_counts::law::count_laws;
use packed_counts::{push_count, push_size};
use packed_encodings::{function_laws, order_laws};
use std::alloc::AllocError;
use std::cmp::Ordering;

/// The word at a place, or 0 past the end.
#[inline(always)]
fn word_at(words: &[u64], place: usize) -> u64
    ensures { result ≡ get_or words.now place 0 }
{
    match words.get(place) {
        Some(word) => *word,
        None => 0,
    }
}

/// Whether the first words are before the second as bits, where the shorter ones are filled with zeros.
fn are_below(firsts: &[u64], seconds: &[u64]) -> bool
    ensures { result ≡ computed.is_below (word_bits firsts.now) (word_bits seconds.now) }
{
    for place in 0..firsts.len().max(seconds.len()) {
        let one = word_at(firsts, place);
        let two = word_at(seconds, place);
        if one != two {
            return one < two;
        }
    }
    false
}

/// Whether the first bits are before the second in the order of 22.1, where the shorter bits are filled with zeros.
fn is_below(first: &BitBuf, second: &BitBuf) -> bool
    ensures { result ≡ computed.is_below first.now second.now }
{
    are_below(first.words(), second.words())
}

fn compare(first: &BitBuf, second: &BitBuf) -> Ordering
    ensures { is_lt result ≡ computed.is_below first.now second.now }
{
    if is_below(first, second) {
        Ordering::Less
    } else {
        Ordering::Greater
    }
}

/// Sorts the items in ascending order. `AllocError` only if an allocation fails.
pub(crate) fn sort(items: &mut Vec<BitBuf>) -> Result<(), AllocError>
    ensures same { IsPermutation items.old.items items.new.items }
    ensures order { OnOk result (BitsAscend items.new.items) }
{
    order_laws();
    items.sort_by(|first, second| compare(first, second))?;
    Ok(())
}

/// Adds all items, one after another.
fn push_all(out: &mut BitBuf, items: &[BitBuf]) -> Result<(), AllocError>
    ensures { OnOk result (out.new ≡ out.old ++ all_bits items.now) }
{
    for i in 0..items.len() {
        out.push_bits(&items[i])?;
    }
    Ok(())
}

/// Adds the number of the items, and then the items.
fn push_counted(out: &mut BitBuf, items: &[BitBuf]) -> Result<(), AllocError>
    ensures { OnOk result (Adds (Counted items.now) out.old out.new) }
{
    count_laws();
    let next = push_count(out, items.len())?;
    if items.len() < 16384 {
        push_all(out, items)?;
        return Ok(());
    }
    let (first, rest) = items.split_at(next);
    push_all(out, first)?;
    push_counted(out, rest)?;
    Ok(())
}

/// Adds the number of the items by the bounds of SIZE, and then the items. `AllocError` only if an allocation fails.
pub(crate) fn push_items(
    out: &mut BitBuf,
    bounds: &Bounds,
    items: &[BitBuf],
) -> Result<(), AllocError>
    requires least { HasLeast (bounds_of bounds.now) }
    requires allowed { bounds.now.extensible ≡ false → IsInRootBounds (bounds_of bounds.now) (pos (length items.now)) }
    ensures { OnOk result (out.new ≡ out.old ++ sized_bits (bounds_of bounds.now) items.now) }
{
    function_laws();
    let once = push_size(out, bounds, items.len())?;
    if once {
        push_all(out, items)?;
        Ok(())
    } else {
        push_counted(out, items)?;
        Ok(())
    }
}
