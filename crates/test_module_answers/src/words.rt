//! The texts of a row.

use row_format::Row;
use row_format::words::octets_of;
use std::alloc::{AllocError, Global};

/// The octets of a row's modules that are named `later`, or of the others. In a row with the word `numbered` each `#`
/// is replaced by the number of earlier ones.
pub fn modules_of(alloc: Global, row: &Row, is_later: bool) -> Result<Vec<Vec<u8>>, AllocError> {
    let mut all = Vec::new(alloc);
    for text in &row.texts {
        let name = text.name.as_str();
        if name != "wanted" && (name == "later") == is_later {
            all.push(octets_of(alloc, row, text)?)?;
        }
    }
    Ok(all)
}

/// The answer that a row wants, or None.
pub fn wanted(row: &Row) -> Option<&str> {
    for text in &row.texts {
        if text.name.as_str() == "wanted" {
            return Some(str::from_utf8(text.octets.as_slice()).unwrap_or("?"));
        }
    }
    None
}
