//! Headers with the fewest octets, which take no memory (X.690, 8.1.2, 8.1.3 and 10.1).

ghost use Rattle.encodings.specs.Fewest.{shortest_header, shortest_size};
ghost use Rattle.encodings.specs.Header.{class_bits, form_bit, identifier};
ghost use Rattle.primitive_writer.specs.Pieces.{short_octets};
ghost use Rattle.std.specs.Int.Digits.{digits_of};
ghost use Rattle.std.specs.Prelude.{◌≡◌, ◌+◌, ◌<◌, ◌≤◌, ◌++◌, ◌∷◌, [], IfOk, IfSome, OnOk, length};
ghost use Rattle.std.specs.Prelude.{vec_capacity, vec_len};

use arrayvec::ArrayVec;
use asn_base::tag::{Class, Tag};
use primitive_writer::{ShortContents, push_digits, push_septets};
use std::alloc::AllocError;

/// Adds the header with the fewest octets for this tag, this form and this number of contents octets (X.690, 8.1.2,
/// 8.1.3 and 10.1). `AllocError` only if an allocation fails.
pub(crate) fn push_header(
    out: &mut Vec<u8>,
    tag: Tag,
    constructed: bool,
    contents: u64,
) -> Result<(), AllocError>
    ensures { OnOk result (out.new.items ≡ out.old.items ++ shortest_header tag constructed contents) }
{
    match short_header(tag, constructed, contents) {
        Some((first, size)) => push_two(out, first, size),
        None => {
            let few = header_octets(tag, constructed, contents);
            out.extend_from_slice(few.as_slice())
        }
    }
}

/// The two octets of a header with one identifier octet and one length octet, or None if the header is longer.
#[inline(always)]
#[tactic(auto, unfolding(encodings::specs::Fewest::shortest_header, encodings::specs::Header::identifier))]
fn short_header(tag: Tag, constructed: bool, contents: u64) -> Option<(u8, u8)>
    ensures { IfSome result (λ h. shortest_header tag constructed contents ≡ h.0 ∷ h.1 ∷ []) }
{
    if tag.number < 31 && contents < 128 {
        Some((
            first_octet(tag.class, constructed, tag.number as u8),
            contents as u8,
        ))
    } else {
        None
    }
}

/// The one identifier octet of a header (X.690, 8.1.2), or None if it has more.
#[inline(always)]
#[tactic(auto, unfolding(encodings::specs::Header::identifier))]
pub(crate) fn one_identifier(tag: Tag, constructed: bool) -> Option<u8>
    ensures { IfSome result (λ first. identifier tag.class tag.number constructed ≡ first ∷ []) }
{
    if tag.number < 31 {
        Some(first_octet(tag.class, constructed, tag.number as u8))
    } else {
        None
    }
}

/// Adds two octets. `AllocError` only if an allocation fails.
#[inline(always)]
pub(crate) fn push_two(out: &mut Vec<u8>, first: u8, second: u8) -> Result<(), AllocError>
    ensures { OnOk result (out.new.items ≡ out.old.items ++ first ∷ second ∷ []) }
{
    out.reserve(2)?;
    put_two(out, first, second);
    Ok(())
}

/// Adds two octets, for which there is room.
#[inline(always)]
fn put_two(out: &mut Vec<u8>, first: u8, second: u8)
    requires { vec_len out.old + 2 ≤ vec_capacity out.old }
    ensures items { out.new.items ≡ out.old.items ++ first ∷ second ∷ [] }
    ensures len { vec_len out.new ≡ vec_len out.old + 2 }
    ensures capacity { vec_capacity out.new ≡ vec_capacity out.old }
{
    out.push_reserved(first);
    out.push_reserved(second);
}

/// Adds an identifier octet, a length octet and one to four contents octets. `AllocError` only if an allocation fails.
#[inline(always)]
pub(crate) fn push_short(
    out: &mut Vec<u8>,
    first: u8,
    octets: ShortContents,
) -> Result<(), AllocError>
    ensures { OnOk result (out.new.items
        ≡ out.old.items ++ first ∷ length (short_octets octets) ∷ short_octets octets) }
{
    match octets {
        ShortContents::One(a) => {
            out.reserve(3)?;
            put_two(out, first, 1);
            out.push_reserved(a);
            Ok(())
        }
        ShortContents::Two(a, b) => {
            out.reserve(4)?;
            put_two(out, first, 2);
            put_two(out, a, b);
            Ok(())
        }
        ShortContents::Three(a, b, c) => {
            out.reserve(5)?;
            put_two(out, first, 3);
            put_two(out, a, b);
            out.push_reserved(c);
            Ok(())
        }
        ShortContents::Four(a, b, c, d) => {
            out.reserve(6)?;
            put_two(out, first, 4);
            put_two(out, a, b);
            put_two(out, c, d);
            Ok(())
        }
    }
}

/// Adds the identifier octets of a tag, and one octet that is held open for the length. The result is the place of that
/// octet. `AllocError` only if an allocation fails.
#[inline(always)]
#[tactic(auto, unfolding(encodings::specs::Header::identifier))]
pub(crate) fn push_opening(
    out: &mut Vec<u8>,
    tag: Tag,
    constructed: bool,
) -> Result<usize, AllocError>
    ensures octets { OnOk result (out.new.items
        ≡ (out.old.items ++ identifier tag.class tag.number constructed) ++ 0 ∷ []) }
    ensures place { IfOk result (λ n. n ≡ length (out.old.items ++ identifier tag.class tag.number constructed)) }
{
    if tag.number < 31 {
        push_two(
            out,
            first_octet(tag.class, constructed, tag.number as u8),
            0,
        )?;
        return Ok(out.len() - 1);
    }
    let few = identifier_octets(tag, constructed);
    out.extend_from_slice(few.as_slice())?;
    let place = out.len();
    out.push(0)?;
    Ok(place)
}

/// The header with the fewest octets for this tag, this form and this number of contents octets.
#[tactic(auto, unfolding(encodings::specs::Fewest::shortest_header))]
fn header_octets(tag: Tag, constructed: bool, contents: u64) -> ArrayVec<u8, 24>
    ensures { result.items ≡ shortest_header tag constructed contents }
{
    let mut out = identifier_octets(tag, constructed);
    push_size(&mut out, contents);
    out
}

/// The first identifier octet, in which the last five bits are `low` (X.690, 8.1.2).
#[inline(always)]
fn first_octet(class: Class, constructed: bool, low: u8) -> u8
    requires { low < 32 }
    ensures { result ≡ class_bits class + form_bit constructed + low }
{
    let class_bits = match class {
        Class::Universal => 0,
        Class::Application => 64,
        Class::Context => 128,
        Class::Private => 192,
    };
    let form_bit = if constructed { 32 } else { 0 };
    class_bits + form_bit + low
}

/// The identifier octets of a tag (X.690, 8.1.2).
#[tactic(auto, unfolding(encodings::specs::Header::identifier))]
fn identifier_octets(tag: Tag, constructed: bool) -> ArrayVec<u8, 24>
    ensures octets { result.items ≡ identifier tag.class tag.number constructed }
    ensures few { length result.items ≤ 6 }
{
    let number = tag.number;
    let mut out = ArrayVec::new();
    if number < 31 {
        out.push(first_octet(tag.class, constructed, number as u8));
    } else {
        out.push(first_octet(tag.class, constructed, 31));
        push_septets(&mut out, number as u128);
    }
    out
}

/// The fewest length octets for this number of contents octets (X.690, 8.1.3 and 10.1).
pub(crate) fn size_octets(contents: u64) -> ArrayVec<u8, 24>
    ensures octets { result.items ≡ shortest_size contents }
    ensures some { 0 < length result.items }
{
    let mut out = ArrayVec::new();
    push_size(&mut out, contents);
    out
}

/// Adds the fewest length octets for this number of contents octets (X.690, 8.1.3 and 10.1).
fn push_size(out: &mut ArrayVec<u8, 24>, contents: u64)
    requires { length out.old.items ≤ 6 }
    ensures { out.new.items ≡ out.old.items ++ shortest_size contents }
{
    if contents < 128 {
        out.push(contents as u8);
    } else {
        out.push(128 + digit_count(contents) as u8);
        push_digits(out, contents as u128);
    }
}

/// How many digits the number has in base 256.
fn digit_count(number: u64) -> usize
    ensures count { result ≡ length (digits_of 256 number) }
    ensures most { result ≤ 8 }
{
    let mut out = ArrayVec::new();
    push_digits(&mut out, number as u128);
    out.len()
}
