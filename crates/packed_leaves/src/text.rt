//! Strings of characters with an alphabet (X.691, 30.5).

ghost use Rattle.asn_base.specs.Abstract.{abstract};
ghost use Rattle.asn_base.specs.Schemas.{AreBounds, CodesAscend, IsAlphabet, IsSize};
ghost use Rattle.asn_base.specs.Seen.{bounds_of, constraint_of};
ghost use Rattle.asn_base.specs.Typed.{IsAllowedSize, IsPrimitive};
ghost use Rattle.asn_base.specs.Types.{a_restricted_string};
ghost use Rattle.bits.specs.Words.{low_bits};
ghost use Rattle.packed_counts.specs.Counts.{Adds};
ghost use Rattle.packed_encodings.specs.Computed.{character_bits, all_below, leaf_bits, sized_bits};
ghost use Rattle.packed_encodings.specs.Lengths.{Counted, all_bits};
ghost use Rattle.packed_leaves.specs.proving.Texts.{ArePlaces, IsOf, IsWide};
ghost use Rattle.std.specs.Prelude.{◌≡◌, ◌++◌, ◌^◌, ◌*◌, ◌<◌, ◌≤◌, OnOk, length, map};

use crate::value;
use asn_base::constraint::Constraint;
use asn_base::strings::StringKind;
use asn_base::value::Value;
use bits::buffer::BitBuf;
use packed_code::width_of_place;
use packed_counts::law::count_laws;
use packed_counts::{push_count, push_size};
use packed_encodings::function_laws;
use std::alloc::AllocError;

/// An alphabet: its codes, and how many bits a character has. The bits are the code if all codes fit, or else its place
/// in the alphabet (30.5.4). Only then are the places there: that of each octet, or the number of codes if it has none.
#[derive(Clone, Copy)]
pub(crate) struct Alphabet<'a> {
    codes: &'a [u8],
    width: usize,
    by_code: bool,
    places: &'a [u8],
}

/// Whether all codes are below 2^`width`. Since the codes ascend, only the last one is compared.
fn are_below(codes: &[u8], width: usize) -> bool
    requires small { width ≤ 8 }
    requires ascend { CodesAscend codes.now }
    ensures { result ≡ all_below (2 ^ width) codes.now }
{
    if codes.is_empty() {
        return true;
    }
    (codes[codes.len() - 1] as u32) < (1u32 << width)
}

/// The number that the low bits of a number are.
#[inline(always)]
fn low_bits(number: u64, width: usize) -> u64
    requires { width ≤ 8 }
    ensures bits { low_bits width result ≡ low_bits width number }
    ensures small { result < 2 ^ width }
{
    number & ((1 << width) - 1)
}

/// An alphabet, without the places of octets.
fn by_code(codes: &[u8]) -> Alphabet<'_>
    requires ascend { CodesAscend codes.now }
    requires few { length codes.now ≤ 128 }
    ensures { IsWide codes.now result }
{
    let width = width_of_place(codes.len());
    Alphabet {
        codes,
        width,
        by_code: are_below(codes, width),
        places: &[],
    }
}

/// The same alphabet, with the places of octets.
fn by_places<'a>(alphabet: Alphabet<'a>, places: &'a [u8]) -> Alphabet<'a>
    requires wide { IsWide alphabet.codes.now alphabet }
    requires placed { ArePlaces alphabet.codes.now places.now }
    ensures codes { result.codes.now ≡ alphabet.entry.codes.now }
    ensures is { IsOf result.codes.now result }
{
    Alphabet { places, ..alphabet }
}

/// The place of each octet among the codes, or the number of codes if it isn't there.
fn places_of(codes: &[u8]) -> [u8; 256]
    requires { length codes.now ≤ 128 }
    ensures { ArePlaces codes.now result }
{
    let mut places = [codes.len() as u8; 256];
    let mut at = codes.len();
    while at > 0 {
        at -= 1;
        let code = codes[at] as usize;
        places[code] = at as u8;
    }
    places
}

/// The bits of a character as a number: of its code if all codes fit, or else of its place (30.5.4).
#[inline(always)]
fn number_of(alphabet: Alphabet<'_>, code: u8) -> u64
    requires { IsOf alphabet.codes.now alphabet }
    ensures bits { low_bits alphabet.entry.width result ≡ character_bits alphabet.entry.codes.now code }
    ensures small { result < 2 ^ alphabet.entry.width }
{
    let number = if alphabet.by_code {
        code
    } else {
        alphabet.places[code as usize]
    };
    low_bits(number as u64, alphabet.width)
}

/// The bits of at most eight characters, one after the other, as a number.
#[inline(always)]
fn group_of(alphabet: Alphabet<'_>, text: &[u8]) -> u64
    requires is { IsOf alphabet.codes.now alphabet }
    requires few { length text.now ≤ 8 }
    ensures { low_bits (length text.now * alphabet.entry.width) result
        ≡ all_bits (map (character_bits alphabet.entry.codes.now) text.now) }
{
    let mut number = 0;
    for code in text {
        number = (number << alphabet.width) + number_of(alphabet, *code);
    }
    number
}

/// Adds the bits of at most eight characters.
#[inline(always)]
fn push_group(out: &mut BitBuf, alphabet: Alphabet<'_>, text: &[u8]) -> Result<(), AllocError>
    requires is { IsOf alphabet.codes.now alphabet }
    requires few { length text.now ≤ 8 }
    ensures { OnOk result (out.new ≡ out.old ++ all_bits (map (character_bits alphabet.entry.codes.now) text.now)) }
{
    out.push_word(group_of(alphabet, text), text.len() * alphabet.width)?;
    Ok(())
}

/// Adds characters, eight at a time.
#[inline(always)]
fn push_each(out: &mut BitBuf, alphabet: Alphabet<'_>, text: &[u8]) -> Result<(), AllocError>
    requires { IsOf alphabet.codes.now alphabet }
    ensures { OnOk result (out.new ≡ out.old ++ all_bits (map (character_bits alphabet.entry.codes.now) text.now)) }
{
    let mut rest = text;
    while let Some((front, after)) = rest.split_first_chunk::<8>() {
        push_group(out, alphabet, front)?;
        rest = after;
    }
    push_group(out, alphabet, rest)?;
    Ok(())
}

/// Adds characters. Each of the two calls is compiled for one way to find their bits.
fn push_characters(out: &mut BitBuf, alphabet: Alphabet<'_>, text: &[u8]) -> Result<(), AllocError>
    requires { IsOf alphabet.codes.now alphabet }
    ensures { OnOk result (out.new ≡ out.old ++ all_bits (map (character_bits alphabet.entry.codes.now) text.now)) }
{
    if alphabet.by_code {
        push_each(out, alphabet, text)
    } else {
        push_each(out, alphabet, text)
    }
}

/// Adds characters after their number.
fn push_counted(out: &mut BitBuf, alphabet: Alphabet<'_>, text: &[u8]) -> Result<(), AllocError>
    requires { IsOf alphabet.codes.now alphabet }
    ensures { OnOk result (Adds (Counted (map (character_bits alphabet.entry.codes.now) text.now)) out.old out.new) }
{
    count_laws();
    let next = push_count(out, text.len())?;
    if text.len() < 16384 {
        push_characters(out, alphabet, text)?;
        return Ok(());
    }
    let (first, rest) = text.split_at(next);
    push_characters(out, alphabet, first)?;
    push_counted(out, alphabet, rest)?;
    Ok(())
}

/// Adds characters after their number, by the bounds of SIZE (30.5).
fn push_sized(
    out: &mut BitBuf,
    alphabet: Alphabet<'_>,
    size: &Constraint,
    text: &[u8],
) -> Result<(), AllocError>
    requires is { IsOf alphabet.codes.now alphabet }
    requires bounds { AreBounds IsSize (constraint_of size.now) }
    requires allowed { IsAllowedSize (constraint_of size.now) (length text.now) }
    ensures { OnOk result (out.new ≡ out.old
        ++ sized_bits (bounds_of size.now.visible) (map (character_bits alphabet.entry.codes.now) text.now)) }
{
    function_laws();
    let once = push_size(out, &size.visible, text.len())?;
    if once {
        push_characters(out, alphabet, text)?;
        Ok(())
    } else {
        push_counted(out, alphabet, text)?;
        Ok(())
    }
}

/// Adds the characters of a string after their number, by the bounds of SIZE (30.5).
pub(crate) fn push_text(
    out: &mut BitBuf,
    kind: StringKind,
    codes: &[u8],
    size: &Constraint,
    value: &Value,
) -> Result<(), AllocError>
    requires codes { IsAlphabet kind codes.now }
    requires bounds { AreBounds IsSize (constraint_of size.now) }
    requires fits { IsPrimitive (a_restricted_string kind codes.now (constraint_of size.now)) (abstract value.now) }
    ensures { OnOk result (out.new ≡ out.old
        ++ leaf_bits (a_restricted_string kind codes.now (constraint_of size.now)) (abstract value.now)) }
{
    function_laws();
    let text = value::text(value);
    let alphabet = by_code(codes);
    if alphabet.by_code {
        return push_sized(out, alphabet, size, text);
    }
    let places = places_of(codes);
    push_sized(out, by_places(alphabet, &places), size, text)
}
