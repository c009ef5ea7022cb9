//! Texts on one line.

ghost use Rattle.source_text.specs.Plain.{is_other, IsPlain};
ghost use Rattle.source_text.specs.Shown.{by_code, escaped, escaped_character, is_hidden_high, is_hidden_low};
ghost use Rattle.source_text.specs.Shown.{is_unseen, on_one_line, shown, shown_character, spaced_character};
ghost use Rattle.std.specs.List.{list_any};
ghost use Rattle.std.specs.Prelude.{◌≡◌, ◌≤◌, ◌++◌, IfOk, length, string_bytes};

use std::alloc::{AllocError, Global};

/// Whether octets are not all printable ASCII characters and spaces.
fn has_others(octets: &[u8]) -> bool
    ensures { result ≡ list_any is_other octets.now }
{
    for i in 0..octets.len() {
        if octets[i] < 32 || octets[i] > 126 {
            return true;
        }
    }
    false
}

/// Whether nobody can see a character below U+2000.
fn is_hidden_low(c: char) -> bool
    ensures { result ≡ is_hidden_low c }
{
    let code = c as u32;
    code == 0xAD
        || code == 0x034F
        || code == 0x061C
        || (code >= 0x115F && code <= 0x1160)
        || (code >= 0x17B4 && code <= 0x17B5)
        || (code >= 0x180B && code <= 0x180F)
}

/// Whether nobody can see a character from U+2000 on, or it changes the direction of writing.
fn is_hidden_high(c: char) -> bool
    ensures { result ≡ is_hidden_high c }
{
    let code = c as u32;
    (code >= 0x200B && code <= 0x200F)
        || (code >= 0x2028 && code <= 0x202E)
        || (code >= 0x2060 && code <= 0x206F)
        || code == 0x3164
        || (code >= 0xFE00 && code <= 0xFE0F)
        || code == 0xFEFF
        || code == 0xFFA0
        || (code >= 0xFFF0 && code <= 0xFFFB)
        || (code >= 0x1BCA0 && code <= 0x1BCA3)
        || (code >= 0x1D173 && code <= 0x1D17A)
        || (code >= 0xE0000 && code <= 0xE0FFF)
}

/// Whether a character is a control character, or one that nobody can see.
fn is_unseen(c: char) -> bool
    ensures { result ≡ is_unseen c }
{
    c.is_control() || is_hidden_low(c) || is_hidden_high(c)
}

/// Appends a character, or a space in place of one that nobody sees.
fn push_spaced(line: &mut String, c: char) -> Result<(), AllocError>
    ensures { IfOk result (λ _. string_bytes line.new ≡ string_bytes line.old ++ spaced_character c) }
{
    line.push(if is_unseen(c) { ' ' } else { c })
}

/// The text with a space in place of each control character and of each that nobody sees.
fn spaced(alloc: Global, text: &str) -> Result<String, AllocError>
    ensures { IfOk result (λ s. string_bytes s ≡ on_one_line text.now) }
{
    let mut line = String::new(alloc);
    for c in text.chars() {
        push_spaced(&mut line, c)?;
    }
    Ok(line)
}

/// The text with a space in place of each control character, line ends included, and of each character that nobody
/// sees.
#[tactic(auto, using(crate::proofs::Going::on_one_line_plain))]
pub fn on_one_line(alloc: Global, text: &str) -> Result<String, AllocError>
    // A text of printable ASCII characters and spaces stays as it is.
    ensures plain { IsPlain text.now → IfOk result (λ s. string_bytes s ≡ text.now) }
    ensures text { IfOk result (λ s. string_bytes s ≡ on_one_line text.now) }
{
    if has_others(text.as_bytes()) {
        spaced(alloc, text)
    } else {
        String::from_str(alloc, text)
    }
}

/// How many characters of a token or of a name a message shows.
const SHOWN: usize = 60;

/// A character by its code point, as `\u{A0}`.
fn by_code(alloc: Global, c: char) -> Result<String, AllocError>
    ensures { IfOk result (λ s. string_bytes s ≡ by_code c) }
{
    let code = c as u32;
    format!(in alloc; "\\u{{{code:X}}}")
}

/// Appends a printable ASCII character or a space as it is, another character by its code point.
fn push_shown(alloc: Global, line: &mut String, c: char) -> Result<(), AllocError>
    ensures { IfOk result (λ _. string_bytes line.new ≡ string_bytes line.old ++ shown_character c) }
{
    if c.is_ascii() && !c.is_control() {
        line.push(c)
    } else {
        line.push_str(by_code(alloc, c)?.as_str())
    }
}

/// The first 60 characters of a text, with two dots after them if it has more. Control characters and those past ASCII
/// are by their code points.
fn cut(alloc: Global, text: &str) -> Result<String, AllocError>
    ensures { IfOk result (λ s. string_bytes s ≡ shown text.now) }
{
    let mut line = String::new(alloc);
    let mut left = SHOWN;
    for c in text.chars() {
        if left == 0 {
            line.push_str("..")?;
            return Ok(line);
        }
        left = left.saturating_sub(1);
        push_shown(alloc, &mut line, c)?;
    }
    Ok(line)
}

/// A token or a name as a message shows it: its first 60 characters, with two dots after them if it has more. Control
/// characters and those past ASCII are shown by their code points.
#[tactic(auto, using(crate::proofs::Going::shown_plain))]
pub fn shown(alloc: Global, text: &str) -> Result<String, AllocError>
    // A short text of printable ASCII characters and spaces stays as it is.
    ensures plain { IsPlain text.now → length text.now ≤ 60 → IfOk result (λ s. string_bytes s ≡ text.now) }
    ensures text { IfOk result (λ s. string_bytes s ≡ shown text.now) }
{
    if text.len() > SHOWN || has_others(text.as_bytes()) {
        cut(alloc, text)
    } else {
        String::from_str(alloc, text)
    }
}

/// Appends a character, or the code point of one that nobody sees.
fn push_escaped(alloc: Global, line: &mut String, c: char) -> Result<(), AllocError>
    ensures { IfOk result (λ _. string_bytes line.new ≡ string_bytes line.old ++ escaped_character c) }
{
    if is_unseen(c) {
        line.push_str(by_code(alloc, c)?.as_str())
    } else {
        line.push(c)
    }
}

/// The name of a file with the code points of control characters, and of those that nobody sees.
fn by_codes(alloc: Global, name: &str) -> Result<String, AllocError>
    ensures { IfOk result (λ s. string_bytes s ≡ escaped name.now) }
{
    let mut line = String::new(alloc);
    for c in name.chars() {
        push_escaped(alloc, &mut line, c)?;
    }
    Ok(line)
}

/// The name of a file as a message shows it: control characters, and those that nobody sees, are shown by their code
/// points.
#[tactic(auto, using(crate::proofs::Going::escaped_plain))]
pub fn escaped(alloc: Global, name: &str) -> Result<String, AllocError>
    // A name of printable ASCII characters and spaces stays as it is.
    ensures plain { IsPlain name.now → IfOk result (λ s. string_bytes s ≡ name.now) }
    ensures text { IfOk result (λ s. string_bytes s ≡ escaped name.now) }
{
    if has_others(name.as_bytes()) {
        by_codes(alloc, name)
    } else {
        String::from_str(alloc, name)
    }
}
