//! Places in the texts of a row.

use std::alloc::{AllocError, Global};

/// The text from a place on, up to a blank, or `?` if it isn't UTF-8.
fn word_at(octets: &[u8], at: usize) -> &str {
    let mut end = at;
    for octet in octets.iter().skip(at) {
        if *octet == b' ' {
            break;
        }
        end = end.saturating_add(1);
    }
    match octets.get(at..end) {
        Some(word) => str::from_utf8(word).unwrap_or("?"),
        None => "",
    }
}

/// A place, and the text there up to a blank, in each text whose first word is the name of the module.
pub fn place(
    alloc: Global,
    texts: &[Vec<u8>],
    module: &str,
    at: usize,
) -> Result<String, AllocError> {
    let mut place = format!(in alloc; " at {at} ")?;
    for text in texts {
        if word_at(text.as_slice(), 0) == module {
            place.push_str(word_at(text.as_slice(), at))?;
        }
    }
    Ok(place)
}
