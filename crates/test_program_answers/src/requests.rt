//! The texts of a row.

use row_format::words::octets_of;
use row_format::{Row, RowText};
use std::alloc::{AllocError, Global};

/// Whether a text of a row isn't a module, but the wanted answer.
pub fn is_wanted(text: &RowText) -> bool {
    text.name.as_str() == "wanted"
}

/// Whether a text of a row is the notation of a value.
pub(crate) fn is_notation(text: &RowText) -> bool {
    text.name.as_str() == "notation"
}

/// Whether a text of a row is a file: neither the notation of a value, nor standard input, nor the wanted answer.
pub(crate) fn is_file(text: &RowText) -> bool {
    !is_notation(text) && !is_wanted(text) && text.name.as_str() != "stdin"
}

/// How many octets the texts of a row have.
pub fn text_octets(row: &Row) -> usize {
    let mut octets: usize = 0;
    for text in &row.texts {
        octets = octets.saturating_add(text.octets.len());
    }
    octets
}

/// The octets of a row's files. In a row with the word `numbered` each `#` is replaced by the number of earlier ones.
pub(crate) fn texts_of(alloc: Global, row: &Row) -> Result<Vec<Vec<u8>>, AllocError> {
    let mut all = Vec::new(alloc);
    for text in &row.texts {
        if is_file(text) {
            all.push(octets_of(alloc, row, text)?)?;
        }
    }
    Ok(all)
}
