//! The start of a line, and its words.

ghost use Rattle.header_listing.specs.Lines.{AreApart, AreLines, IsOneLine, indented, margin, start_of};
ghost use Rattle.header_listing.specs.Shown.{Line, header, others};
ghost use Rattle.std.specs.Prelude.{◌≡◌, ◌++◌, ◌∷◌, ◌<◌, [], List, OnOk, codes, decimal, string_bytes, true, ℕ};
ghost use Rattle.value_text.specs.Print.{hex_digit, hex_digits};

use crate::first::Encoding;
use std::alloc::AllocError;

/// The most levels that a margin shows by spaces.
const LEVELS: usize = 10;

/// The hexadecimal digit of a number, as a capital from 10 on.
fn hex_character(digit: u8) -> char
    requires { digit < 16 }
    ensures value { result ≡ hex_digit digit }
    ensures ascii { result < 128 }
{
    if digit < 10 {
        (b'0' + digit) as char
    } else {
        (b'A' + (digit - 10)) as char
    }
}

/// Appends two hexadecimal digits for each octet.
pub fn push_hex(out: &mut String, octets: &[u8]) -> Result<(), AllocError>
    ensures { OnOk result (string_bytes out.new ≡ string_bytes out.old ++ hex_digits octets.now) }
{
    for i in 0..octets.len() {
        out.push(hex_character(octets[i] / 16))?;
        out.push(hex_character(octets[i] % 16))?;
    }
    Ok(())
}

/// Appends a number in decimal.
pub(crate) fn push_number(out: &mut String, number: usize) -> Result<(), AllocError>
    ensures { OnOk result (string_bytes out.new ≡ string_bytes out.old ++ decimal number) }
{
    let mut buffer = itoa::Buffer::new();
    out.push_str(buffer.format(number))?;
    Ok(())
}

/// Appends two spaces for each level.
fn push_levels(out: &mut String, levels: usize) -> Result<(), AllocError>
    ensures { OnOk result (string_bytes out.new ≡ string_bytes out.old ++ indented levels) }
{
    if levels == 0 {
        return Ok(());
    }
    out.push_str("  ")?;
    push_levels(out, levels - 1)?;
    Ok(())
}

/// Appends the margin of a line at a depth.
fn push_margin(out: &mut String, depth: usize) -> Result<(), AllocError>
    ensures { OnOk result (string_bytes out.new ≡ string_bytes out.old ++ margin depth) }
{
    if depth <= LEVELS {
        push_levels(out, depth)?;
        return Ok(());
    }
    push_levels(out, LEVELS)?;
    out.push_str("+")?;
    push_number(out, depth - LEVELS)?;
    out.push_str(" ")?;
    Ok(())
}

/// Whether words begin with a space, or there are none.
fn are_apart(words: &str) -> bool
    ensures { result ≡ true → AreApart words.now }
{
    match words.as_bytes().first() {
        Some(octet) => *octet == b' ',
        None => true,
    }
}

/// The words, or none if a line ends in them or they don't begin with a space.
fn one_line(words: &str) -> &str
    ensures one { IsOneLine result.now }
    ensures apart { AreApart result.now }
{
    if are_apart(words) && words.as_bytes().iter().all(|octet| *octet != b'\n') {
        words
    } else {
        ""
    }
}

/// Appends the words and a line end.
fn push_words(out: &mut String, words: &str) -> Result<(), AllocError>
    ensures { OnOk result ((w : List ℕ)
        × (string_bytes out.new ≡ string_bytes out.old ++ (w ++ codes "\n"))
        × IsOneLine w
        × AreApart w) }
{
    out.push_str(one_line(words))?;
    out.push_str("\n")?;
    Ok(())
}

/// Appends the start of a header's line.
fn push_start(
    out: &mut String,
    depth: usize,
    offset: usize,
    encoding: Encoding<'_>,
) -> Result<(), AllocError>
    ensures { OnOk result ((x : List ℕ) → string_bytes out.new ≡ string_bytes out.old
        ++ start_of (header depth offset encoding.entry.identifier.now encoding.entry.size.now x)) }
{
    push_margin(out, depth)?;
    push_number(out, offset)?;
    out.push_str(" ")?;
    push_hex(out, encoding.identifier)?;
    out.push_str(" ")?;
    push_hex(out, encoding.size)?;
    Ok(())
}

/// Appends the line of a header, which has these words.
pub(crate) fn push_header(
    out: &mut String,
    depth: usize,
    offset: usize,
    encoding: Encoding<'_>,
    words: &str,
) -> Result<(), AllocError>
    ensures { OnOk result ((ls : List Line) (x : List ℕ)
        → AreLines ls (string_bytes out.old)
        → AreLines (ls ++ header depth offset encoding.entry.identifier.now encoding.entry.size.now x ∷ [])
        (string_bytes out.new)) }
{
    push_start(out, depth, offset, encoding)?;
    push_words(out, words)?;
    Ok(())
}

/// Appends the start of the line of octets at the start of which no encoding is.
fn push_start_of_others(out: &mut String, depth: usize, offset: usize) -> Result<(), AllocError>
    ensures { OnOk result ((x : List ℕ)
        → string_bytes out.new ≡ string_bytes out.old ++ start_of (others depth offset x)) }
{
    push_margin(out, depth)?;
    push_number(out, offset)?;
    Ok(())
}

/// Appends the line of octets at the start of which no encoding is. The line has these words.
pub(crate) fn push_others(
    out: &mut String,
    depth: usize,
    offset: usize,
    words: &str,
) -> Result<(), AllocError>
    ensures { OnOk result ((ls : List Line) (x : List ℕ)
        → AreLines ls (string_bytes out.old)
        → AreLines (ls ++ others depth offset x ∷ []) (string_bytes out.new)) }
{
    push_start_of_others(out, depth, offset)?;
    push_words(out, words)?;
    Ok(())
}
