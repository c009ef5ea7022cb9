//! The octets that a text stands for.

ghost use Rattle.std.specs.Prelude.{◌≡◌, IfErr, bytes_eq, codes, string_bytes};
ghost use Rattle.std.specs.List.{list_any};
ghost use Rattle.row_format.specs.Rows.{IsTextFault};

use crate::fault::RowFault;
use crate::marks::RawText;
use crate::row::RowText;
use std::alloc::{AllocError, Global};

/// How the texts of a row are read.
#[derive(Clone, Copy)]
pub struct TextForm {
    pub lines: bool,
    pub repeat: bool,
    pub hex: bool,
}

/// Whether a word is among others.
pub fn is_among(words: &[String], word: &str) -> bool
    ensures { result ≡ list_any (λ w. bytes_eq (string_bytes w) word.now) words.now }
{
    words.iter().any(|other| other.as_str() == word)
}

/// The form in which the texts of a row with these words are read.
pub fn form_of(words: &[String]) -> TextForm
    ensures lines { result.lines ≡ list_any (λ w. bytes_eq (string_bytes w) (codes "lines")) words.now }
    ensures repeat { result.repeat ≡ list_any (λ w. bytes_eq (string_bytes w) (codes "repeat")) words.now }
    ensures hex { result.hex ≡ list_any (λ w. bytes_eq (string_bytes w) (codes "hex")) words.now }
{
    TextForm {
        lines: is_among(words, "lines"),
        repeat: is_among(words, "repeat"),
        hex: is_among(words, "hex"),
    }
}

/// Writes a piece with a number in place of each `#`, and a space after it.
fn put_copy(out: &mut String, piece: &str, number: usize) -> Result<(), AllocError> {
    let mut is_first = true;
    for part in piece.split('#') {
        if !is_first {
            write!(out, "{number}")?;
        }
        out.push_str(part)?;
        is_first = false;
    }
    out.push(' ')
}

/// Writes a piece `times` times, with the copy's number, from 0, in place of each `#`.
fn put_times(out: &mut String, piece: &str, times: usize) -> Result<(), AllocError> {
    for number in 0..times {
        put_copy(out, piece, number)?;
    }
    Ok(())
}

/// The text that lines of numbers and pieces stand for.
fn repeated(alloc: Global, text: &str, number: usize) -> Result<String, RowFault>
    ensures { IfErr result IsTextFault }
{
    let mut out = String::new(alloc);
    for line in text.lines() {
        let (times, piece) = line.split_once(' ').unwrap_or((line, ""));
        let times = times
            .parse::<usize>()
            .map_err(|_| RowFault::NoNumber(number))?;
        put_times(&mut out, piece, times)?;
    }
    Ok(out)
}

/// The octets of hexadecimal digits.
fn octets_of_hex(alloc: Global, text: &str, number: usize) -> Result<Vec<u8>, RowFault>
    ensures { IfErr result IsTextFault }
{
    let mut digits = Vec::new(alloc);
    for octet in text.as_bytes() {
        if !octet.is_ascii_whitespace() {
            digits.push(*octet)?;
        }
    }
    hex::decode(alloc, &digits).map_err(|_| RowFault::NoHex(number))
}

/// The octets of a text.
fn octets_of(alloc: Global, form: TextForm, text: &str, number: usize) -> Result<Vec<u8>, RowFault>
    ensures { IfErr result IsTextFault }
{
    let mut whole = String::from_str(alloc, text)?;
    if form.repeat {
        whole = repeated(alloc, text, number)?;
    }
    if form.hex {
        return octets_of_hex(alloc, whole.as_str(), number);
    }
    Ok(whole.into_bytes())
}

/// Adds a text, or each of its lines, after the texts of a row.
pub fn put_texts(
    alloc: Global,
    texts: &mut Vec<RowText>,
    form: TextForm,
    written: &RawText,
) -> Result<(), RowFault>
    ensures { IfErr result IsTextFault }
{
    let lines = written.lines.as_str();
    if !form.lines {
        let text = lines.strip_suffix('\n').unwrap_or(lines);
        texts.push(row_text(alloc, form, written.name.as_str(), text, written.line)?)?;
        return Ok(());
    }
    let mut number = written.line;
    for line in lines.lines() {
        number = number.saturating_add(1);
        texts.push(row_text(alloc, form, written.name.as_str(), line, number)?)?;
    }
    Ok(())
}

/// The text of a row with this name, at this line.
fn row_text(
    alloc: Global,
    form: TextForm,
    name: &str,
    text: &str,
    line: usize,
) -> Result<RowText, RowFault>
    ensures { IfErr result IsTextFault }
{
    Ok(RowText {
        name: String::from_str(alloc, name)?,
        line,
        octets: octets_of(alloc, form, text, line)?,
    })
}
