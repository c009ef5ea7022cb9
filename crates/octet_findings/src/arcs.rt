//! The contents octets of an object identifier (X.690, 8.19 and 8.20).

ghost use Rattle.octet_findings.specs.Contents.{Says, arcs_words, ends_after, needless_from};
ghost use Rattle.std.specs.Prelude.{◌≡◌, ◌<◌, IfOk, IfSome, length, true};

use crate::headers::Contents;
use crate::words::{found, of_count};
use messages::Finding;
use std::alloc::{AllocError, Global};

/// The place of the first number that begins with a needless octet.
fn needless(octets: &[u8]) -> Option<usize>
    ensures first { result ≡ needless_from true 0 octets.now }
    ensures bound { IfSome result (λ place. place < length octets.now) }
{
    let mut begins = true;
    for place in 0..octets.len() {
        let octet = octets[place];
        if begins && octet == 128 {
            return Some(place);
        }
        begins = octet < 128;
    }
    None
}

/// Whether the last number ends.
fn ends(octets: &[u8]) -> bool
    ensures { result ≡ ends_after true octets.now }
{
    let mut ends = true;
    for place in 0..octets.len() {
        ends = octets[place] < 128;
    }
    ends
}

/// What is wrong with the contents octets of an OBJECT IDENTIFIER or RELATIVE-OID. None if they are those of one.
#[tactic(auto, using(crate::proofs::Found::arcs_found))]
pub(crate) fn of_arcs(alloc: Global, contents: Contents<'_>) -> Result<Option<Finding>, AllocError>
    ensures { IfOk result (Says (arcs_words contents.entry.at contents.entry.octets.now)) }
{
    if let Some(place) = needless(contents.octets) {
        let at = contents.at + place;
        let words = format!(in alloc;
            "a number that begins with the needless octet 80 at offset {at}"
        )?;
        return Ok(found(alloc, words, "its shortest form")?);
    }
    if contents.octets.is_empty() {
        return of_count(alloc, 0, "at least one");
    }
    if ends(contents.octets) {
        return Ok(None);
    }
    let words = String::from_str(alloc, "a last number that does not end")?;
    Ok(found(alloc, words, "a last octet below 80")?)
}
