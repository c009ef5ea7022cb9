//! The words of a row that say what it asks, and the octets of its texts.

use crate::row::{Row, RowText};
use std::alloc::{AllocError, Global};

/// Whether a word changes how texts are read or how a fault is printed, and isn't part of what the row asks.
fn is_form(word: &str) -> bool {
    matches!(word, "lines" | "repeat" | "hex" | "numbered" | "caret")
}

/// The words of a row after its command and its name, without those that change how texts are read. `AllocError`: an
/// allocation failed.
pub fn asked(alloc: Global, row: &Row) -> Result<Vec<&str>, AllocError> {
    let mut words = Vec::new(alloc);
    for word in row.words.iter().skip(2) {
        if !is_form(word.as_str()) {
            words.push(word.as_str())?;
        }
    }
    Ok(words)
}

/// The word at a place, or an empty one if the list is shorter.
pub fn word<'a>(words: &[&'a str], place: usize) -> &'a str {
    match words.get(place) {
        Some(word) => word,
        None => "",
    }
}

/// A text in which each `#` is replaced by a number, counted from 0.
fn numbered(alloc: Global, text: &[u8]) -> Result<Vec<u8>, AllocError> {
    let mut out = Vec::new(alloc);
    let mut count: usize = 0;
    for octet in text {
        if *octet == b'#' {
            let number = format!(in alloc; "{count}")?;
            out.extend_from_slice(number.as_bytes())?;
            count = count.wrapping_add(1);
        } else {
            out.push(*octet)?;
        }
    }
    Ok(out)
}

/// The octets of a text of a row. In a row with the word `numbered` each `#` is replaced by the number of earlier ones.
/// `AllocError`: an allocation failed.
pub fn octets_of(alloc: Global, row: &Row, text: &RowText) -> Result<Vec<u8>, AllocError> {
    if row.has("numbered") {
        numbered(alloc, text.octets.as_slice())
    } else {
        text.octets.clone()
    }
}
