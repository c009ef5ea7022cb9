//! Characters and strings that a text may not contain.

ghost use Rattle.source_text.specs.Strings.{is_line_end, open_string, wrong_hex, wrong_string};
ghost use Rattle.source_text.specs.Shown.{BeginsAt, HasNoCharacter, called, character, code_point};
ghost use Rattle.std.specs.Char.{is_ascii_hexdigit, is_ascii_whitespace, len_utf8};
ghost use Rattle.source_text.specs.Plain.{is_other};
ghost use Rattle.std.specs.List.{before_first, list_all, position_or_len, slice_get};
ghost use Rattle.std.specs.Prelude.{◌≡◌, ◌≤◌, ◌==◌, ◌||◌, ◌∷◌, ℕ, [], IfOk, MatchOption, None, Some, codes, drop};
ghost use Rattle.std.specs.Prelude.{false, get_or, length, string_bytes};

use crate::places::rest_from;
use std::alloc::{AllocError, Global};

/// The character that begins at an offset, if that many octets from there on are characters.
fn character_of(text: &[u8], place: usize, long: usize) -> Option<char>
    ensures { MatchOption result
        ((c : ℕ) → BeginsAt text.now place c → len_utf8 c ≡ long → ⊥)
        (BeginsAt text.now place) }
{
    let Some(octets) = text.get(place..place.saturating_add(long)) else {
        return None;
    };
    match std::str::from_utf8(octets) {
        Ok(front) => front.chars().next(),
        Err(_) => None,
    }
}

/// The character that begins at an octet.
fn character_at(text: &[u8], place: usize) -> Option<char>
    ensures { MatchOption result (HasNoCharacter text.now place) (BeginsAt text.now place) }
{
    for long in 1..5 {
        if let Some(c) = character_of(text, place, long) {
            return Some(c);
        }
    }
    None
}

/// The name of a character that is not shown itself.
fn called(c: char) -> &'static str
    ensures { result.now ≡ called c }
{
    match c {
        '\u{FEFF}' => ", a byte order mark",
        '\u{A0}' => ", a no-break space",
        '\u{2018}' | '\u{2019}' => ", a curly apostrophe",
        '\u{201C}' | '\u{201D}' => ", a curly quote",
        '\u{2010}' | '\u{2011}' | '\u{2012}' | '\u{2013}' | '\u{2014}' | '\u{2212}' => ", a dash",
        _ => {
            if c.is_control() {
                ", a control character"
            } else {
                ""
            }
        }
    }
}

/// A character by its code point, with its name if it has one here.
fn by_code_point(alloc: Global, c: char) -> Result<String, AllocError>
    ensures { IfOk result (λ s. string_bytes s ≡ code_point c) }
{
    let code = c as u32;
    let name = called(c);
    format!(in alloc; "U+{code:04X}{name}")
}

/// A printable ASCII character or a space itself, another character by its code point.
fn named(alloc: Global, c: char) -> Result<String, AllocError>
    ensures { IfOk result (λ s. string_bytes s ≡ character c) }
{
    if c.is_ascii() && !c.is_control() {
        let mut text = String::new(alloc);
        text.push(c)?;
        return Ok(text);
    }
    by_code_point(alloc, c)
}

/// A character as a message shows it: itself if it is an ASCII character and no control character, else its code point.
pub fn character(alloc: Global, text: &[u8], place: usize) -> Result<String, AllocError>
    // A printable ASCII character or a space is shown as it is.
    ensures plain { (c : ℕ) → slice_get text.now place ≡ Some c → is_other c ≡ false
        → IfOk result (λ s. string_bytes s ≡ c ∷ []) }
    ensures none { slice_get text.now place ≡ None → IfOk result (λ s. string_bytes s ≡ codes "no character") }
    ensures character { (c : ℕ) → BeginsAt text.now place c → IfOk result (λ s. string_bytes s ≡ character c) }
    ensures no_character { HasNoCharacter text.now place
        → IfOk result (λ s. string_bytes s ≡ codes "no character") }
{
    match character_at(text, place) {
        Some(c) => named(alloc, c),
        None => String::from_str(alloc, "no character"),
    }
}

/// Whether an octet is CR or LF.
pub(crate) fn is_line_end(octet: u8) -> bool
    ensures { result ≡ is_line_end octet }
{
    octet == b'\n' || octet == b'\r'
}

/// The octets before the first end of a line.
pub(crate) fn line_of(octets: &[u8]) -> &[u8]
    ensures { result.now ≡ before_first is_line_end octets.now }
{
    for place in 0..octets.len() {
        if is_line_end(octets[place]) {
            return &octets[..place];
        }
    }
    octets
}

/// The place of the first apostrophe, or the number of octets if there is none.
fn apostrophe(octets: &[u8]) -> usize
    ensures within { result ≤ length octets.now }
    ensures first { result ≡ position_or_len (λ c. c == 39) octets.now }
{
    for place in 0..octets.len() {
        if octets[place] == b'\'' {
            return place;
        }
    }
    octets.len()
}

/// Whether octets are all hexadecimal digits, in upper or lower case, or white space.
fn are_digits_or_spaces(digits: &[u8]) -> bool
    ensures { result ≡ list_all (λ c. is_ascii_hexdigit c || is_ascii_whitespace c) digits.now }
{
    for place in 0..digits.len() {
        if !(digits[place].is_ascii_hexdigit() || digits[place].is_ascii_whitespace()) {
            return false;
        }
    }
    true
}

/// The mistake in digits that are not those of a hexadecimal string.
fn wrong_hex(digits: &[u8]) -> &'static str
    ensures { result.now ≡ wrong_hex digits.now }
{
    if are_digits_or_spaces(digits) {
        return "found digits in lower case, expected A to F in upper case before H";
    }
    "found other characters before H, expected digits 0 to 9 and A to F"
}

/// The octet at a place, or 0 if there is none.
fn octet_at(octets: &[u8], place: usize) -> u8
    ensures { result ≡ get_or octets.now place 0 }
{
    match octets.get(place) {
        Some(octet) => *octet,
        None => 0,
    }
}

/// The mistake in digits between apostrophes, with an octet after them, or 0 for none.
fn wrong_string(digits: &[u8], after: u8) -> &'static str
    ensures { result.now ≡ wrong_string digits.now after }
{
    match after {
        b'B' => "found other characters before B, expected digits 0 and 1",
        b'H' => wrong_hex(digits),
        _ => "found apostrophes without B or H after them, expected one of the two",
    }
}

/// The mistake in a string that begins at an offset and gives no token: a text in quotes, or digits between
/// apostrophes.
pub fn open_string(text: &[u8], place: usize) -> &'static str
    ensures { result.now ≡ open_string (drop place text.now) }
{
    let Some((first, rest)) = rest_from(text, place).split_first() else {
        return "found an apostrophe that is not closed on its line, expected a second one";
    };
    if *first == b'"' {
        return "found quotes that are not closed on their line, expected the closing ones";
    }
    let digits = line_of(rest);
    let close = apostrophe(digits);
    if close == digits.len() {
        return "found an apostrophe that is not closed on its line, expected a second one";
    }
    wrong_string(&digits[..close], octet_at(digits, close + 1))
}
