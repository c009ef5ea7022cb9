//! What tags, alphabets, numbers of items and places of bits keep.

ghost use Rattle.asn_base.specs.Rules.{AreItemNumbers, ArePlaces, HasAlphabet, HasNumbers};
ghost use Rattle.asn_base.specs.Schemas.{CodesAscend, IsAlphabet, NumbersAscend, is_character as is_character'};
ghost use Rattle.asn_base.specs.Seen.{item_of, kind_of, named_bit_of};
ghost use Rattle.asn_base.specs.Tags.{IsChoice};
ghost use Rattle.asn_base.specs.Typed.{HasNumber, IsWithinLimit};
ghost use Rattle.std.specs.List.{AllByRecursion};
ghost use Rattle.std.specs.Prelude.{◌≡◌, ◌<◌, ◌≤◌, ◌<ℤ◌, ◌↔◌, IfOk, IsTrue, [], map};

use crate::distinct::are_different;
use crate::law::lemma_integer_within_limit;
use crate::leaf::has_item;
use crate::list::add;
use crate::schema::{Core, Item, NamedBit, Resolved};
use crate::strings::StringKind;
use std::alloc::{AllocError, Global};

/// Whether a type has a tag or is a CHOICE.
pub(crate) fn is_tagged(resolved: &Resolved) -> bool
    ensures { IsTrue result ↔ (resolved.now.tags.items ≡ [] → IsChoice (kind_of resolved.now.core.value)) }
{
    let core: &Core = &resolved.core;
    !resolved.tags.is_empty() || matches!(core, Core::Choice(_))
}

/// Whether the string type has a character with this code.
fn is_character(kind: StringKind, code: u8) -> bool
    ensures { result ≡ is_character' kind code }
{
    match kind {
        StringKind::Numeric => code.is_ascii_digit() || code == 32,
        StringKind::Printable => {
            code.is_ascii_alphanumeric()
                || code == 32
                || code == 39
                || code == 40
                || code == 41
                || code == 43
                || code == 44
                || code == 45
                || code == 46
                || code == 47
                || code == 58
                || code == 61
                || code == 63
        }
        StringKind::Ia5 => code.is_ascii(),
        StringKind::Visible => code.is_ascii_graphic() || code == 32,
    }
}

/// Whether all codes are those of characters of the string type.
fn are_characters(kind: StringKind, codes: &[u8]) -> bool
    ensures { IsTrue result ↔ AllByRecursion (λ c. IsTrue (is_character' kind c)) codes.now }
{
    for i in 0..codes.len() {
        if !is_character(kind, codes[i]) {
            return false;
        }
    }
    true
}

/// Whether all codes are below 128.
fn are_below_128(codes: &[u8]) -> bool
    ensures { IsTrue result ↔ AllByRecursion (λ c. c < 128) codes.now }
{
    for i in 0..codes.len() {
        if codes[i] >= 128 {
            return false;
        }
    }
    true
}

/// Whether the codes ascend.
fn do_codes_ascend(codes: &[u8]) -> bool
    ensures { IsTrue result ↔ CodesAscend codes.now }
{
    let last = codes.len().saturating_sub(1);
    for i in 0..last {
        if codes[i + 1] <= codes[i] {
            return false;
        }
    }
    true
}

/// Whether the codes are an alphabet of the string type.
fn is_alphabet(kind: StringKind, codes: &[u8]) -> bool
    ensures { IsTrue result ↔ IsAlphabet kind codes.now }
{
    if codes.is_empty() || !are_below_128(codes) {
        return false;
    }
    if !are_characters(kind, codes) {
        return false;
    }
    do_codes_ascend(codes)
}

/// Whether the alphabet of a restricted string is one.
pub(crate) fn has_alphabet(core: &Core) -> bool
    ensures { IsTrue result ↔ HasAlphabet (kind_of core.now) }
{
    match core {
        Core::RestrictedString(kind, codes, _) => is_alphabet(*kind, codes.as_slice()),
        _ => true,
    }
}

/// The number of an item is within the limit.
fn lemma_item_within_limit(item: &Item)
    ensures { IsWithinLimit item.now.number }
{
    lemma_integer_within_limit(item.number);
}

/// The numbers of all items are within the limit, as every number of 128 bits is.
fn lemma_items_within_limit(items: &[Item])
    ensures { AllByRecursion (λ i. IsWithinLimit i.number) (map item_of items.now) }
{
    for i in 0..items.len() {
        lemma_item_within_limit(&items[i]);
    }
}

/// Whether the first item has a lower number than the second.
fn is_before(first: &Item, second: &Item) -> bool
    ensures { IsTrue result ↔ first.now.number <ℤ second.now.number }
{
    first.number < second.number
}

/// Whether the numbers of the items ascend.
fn do_numbers_ascend(items: &[Item]) -> bool
    ensures { IsTrue result ↔ NumbersAscend (map item_of items.now) }
{
    let last = items.len().saturating_sub(1);
    for i in 0..last {
        if !is_before(&items[i], &items[i + 1]) {
            return false;
        }
    }
    true
}

/// Whether one of the items has the number of this item.
fn has_number_of(items: &[Item], item: &Item) -> bool
    ensures { IsTrue result ↔ HasNumber (map item_of items.now) item.now.number }
{
    has_item(items, item.number)
}

/// Whether no addition has the number of a root item.
fn are_apart(root: &[Item], more: &[Item]) -> bool
    ensures { IsTrue result
        ↔ AllByRecursion (λ i. HasNumber (map item_of root.now) i.number → ⊥) (map item_of more.now) }
{
    for i in 0..more.len() {
        if has_number_of(root, &more[i]) {
            return false;
        }
    }
    true
}

/// Whether the numbers of items ascend, and no addition has the number of a root item.
fn are_item_numbers(root: &[Item], more: &[Item]) -> bool
    ensures { IsTrue result ↔ AreItemNumbers (map item_of root.now) (map item_of more.now) }
{
    lemma_items_within_limit(root);
    lemma_items_within_limit(more);
    if !do_numbers_ascend(root) {
        return false;
    }
    if !do_numbers_ascend(more) {
        return false;
    }
    are_apart(root, more)
}

/// Whether no place of a named bit is above 65,535.
fn are_low(bits: &[NamedBit]) -> bool
    ensures { IsTrue result ↔ AllByRecursion (λ b. b.place ≤ 65535) (map named_bit_of bits.now) }
{
    for i in 0..bits.len() {
        if bits[i].place > 65535 {
            return false;
        }
    }
    true
}

/// The places of the named bits.
fn places_of(alloc: Global, bits: &[NamedBit]) -> Result<Vec<u128>, AllocError>
    ensures { IfOk result (λ v. v.items ≡ map (λ b. b.place) (map named_bit_of bits.now)) }
{
    let mut places = Vec::new(alloc);
    for i in 0..bits.len() {
        add(&mut places, bits[i].place as u128)?;
    }
    Ok(places)
}

/// Whether named bits have places of their own, none above 65,535.
fn are_places(alloc: Global, bits: &[NamedBit]) -> Result<bool, AllocError>
    ensures { IfOk result (λ b. IsTrue b ↔ ArePlaces (map named_bit_of bits.now)) }
{
    if !are_low(bits) {
        return Ok(false);
    }
    let places = places_of(alloc, bits)?;
    are_different(alloc, places.as_slice())
}

/// Whether items have ascending numbers, and named bits places of their own. `AllocError` comes only if an allocation
/// fails.
pub(crate) fn has_numbers(alloc: Global, core: &Core) -> Result<bool, AllocError>
    ensures { IfOk result (λ b. IsTrue b ↔ HasNumbers (kind_of core.now)) }
{
    match core {
        Core::Enumerated(items) => Ok(are_item_numbers(
            items.root.as_slice(),
            items.additions.as_slice(),
        )),
        Core::NamedBits(bits) => are_places(alloc, bits.as_slice()),
        _ => Ok(true),
    }
}
