//! The line of a text that contains a fault.

ghost use Rattle.source_text.specs.Context.{context, from_character, is_continuation, line_before, line_from};
ghost use Rattle.source_text.specs.Context.{text_or_none, to_character};
ghost use Rattle.source_text.specs.Strings.{is_line_end};
ghost use Rattle.std.specs.List.{after_last};
ghost use Rattle.std.specs.Prelude.{◌≡◌, ◌-◌, ◌++◌, IfOk, drop, length, replicate, string_bytes, take};
ghost use Rattle.std.specs.Str.{chars};

use crate::characters::{is_line_end, line_of};
use crate::line::on_one_line;
use crate::places::rest_from;
use std::alloc::{AllocError, Global};

/// The most octets of a line that are shown before a fault, and after it.
const AROUND: usize = 100;

/// Whether an octet goes on with a character that begins before it.
fn is_continuation(octet: u8) -> bool
    ensures { result ≡ is_continuation octet }
{
    octet >= 128 && octet < 192
}

/// The octets after the last end of a line.
fn after_line_end(octets: &[u8]) -> &[u8]
    ensures { result.now ≡ after_last is_line_end octets.now }
{
    for place in (0..octets.len()).rev() {
        if is_line_end(octets[place]) {
            return &octets[place + 1..];
        }
    }
    octets
}

/// The octets from the first one that begins a character.
fn from_character(octets: &[u8]) -> &[u8]
    ensures { result.now ≡ from_character octets.now }
{
    for place in 0..octets.len() {
        if !is_continuation(octets[place]) {
            return &octets[place..];
        }
    }
    &[]
}

/// The octets before a fault, at most 100.
fn window(text: &[u8], octet: usize) -> &[u8]
    ensures { result.now ≡ drop (octet - 100) (take octet text.now) }
{
    let front = text.get(..octet).unwrap_or(text);
    rest_from(front, octet.saturating_sub(AROUND))
}

/// The last octets before a fault on its line.
fn before(text: &[u8], octet: usize) -> &[u8]
    ensures { result.now ≡ line_before text.now octet }
{
    from_character(after_line_end(window(text, octet)))
}

/// The first 101 octets, and those that go on with their last character.
fn to_character(octets: &[u8]) -> &[u8]
    ensures { result.now ≡ to_character octets.now }
{
    for place in AROUND + 1..octets.len() {
        if !is_continuation(octets[place]) {
            return &octets[..place];
        }
    }
    octets
}

/// The first octets from the beginning of a fault on, on its line.
fn rest_of_line(text: &[u8], octet: usize) -> &[u8]
    ensures { result.now ≡ line_from text.now octet }
{
    to_character(line_of(rest_from(text, octet)))
}

/// Octets as a text; empty if they are none.
#[tactic(auto, using(crate::proofs::Ends::is_text, crate::proofs::Ends::no_text))]
fn text_of(octets: &[u8]) -> &str
    ensures { result.now ≡ text_or_none octets.now }
{
    match std::str::from_utf8(octets) {
        Ok(text) => text,
        Err(_) => "",
    }
}

/// Appends a space for each character of a text.
fn push_spaces(line: &mut String, text: &str) -> Result<(), AllocError>
    ensures { IfOk result (λ _.
        string_bytes line.new ≡ string_bytes line.old ++ replicate (length (chars text.now)) 32) }
{
    for _ in text.chars() {
        line.push(' ')?;
    }
    Ok(())
}

/// The line that contains an octet, as far as 100 octets before and after it, and below it a caret at its place. A line
/// end comes before each of the two lines. Control characters are shown as spaces.
pub fn context(alloc: Global, text: &[u8], octet: usize) -> Result<String, AllocError>
    ensures { IfOk result (λ s. string_bytes s ≡ context text.now octet) }
{
    let front = on_one_line(alloc, text_of(before(text, octet)))?;
    let rest = on_one_line(alloc, text_of(rest_of_line(text, octet)))?;
    let mut lines = format!(in alloc; "\n{front}{rest}\n")?;
    push_spaces(&mut lines, front.as_str())?;
    lines.push('^')?;
    Ok(lines)
}
