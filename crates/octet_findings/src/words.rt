//! Findings made of words.

ghost use Rattle.octet_findings.specs.Contents.{Says, count_words, octet_words};
ghost use Rattle.octet_findings.specs.Findings.{Finds, counted};
ghost use Rattle.std.specs.Prelude.{◌≡◌, ◌∷◌, ◌+◌, ◌<◌, ◌^◌, [], IfOk, Some, string_bytes};
ghost use Rattle.value_text.specs.Print.{hex_digits};

use header_listing::push_hex;
use messages::Finding;
use std::alloc::{AllocError, Global};

/// A finding with these words.
pub(crate) fn found(
    alloc: Global,
    found: String,
    expected: &str,
) -> Result<Option<Finding>, AllocError>
    ensures { IfOk result (Finds (string_bytes found) expected.now) }
{
    Ok(Some(Finding {
        found,
        expected: String::from_str(alloc, expected)?,
    }))
}

/// A number of things, as `no octets`, `1 octet` or `5 octets`. `one` is the word for one of them.
pub(crate) fn counted(alloc: Global, number: usize, one: &str) -> Result<String, AllocError>
    ensures { IfOk result (λ s. string_bytes s ≡ counted number one.now) }
{
    match number {
        0 => format!(in alloc; "no {one}s"),
        1 => format!(in alloc; "1 {one}"),
        _ => format!(in alloc; "{number} {one}s"),
    }
}

/// The two hexadecimal digits of an octet.
pub(crate) fn digits(alloc: Global, octet: u8) -> Result<String, AllocError>
    ensures { IfOk result (λ s. string_bytes s ≡ hex_digits (octet ∷ [])) }
{
    let mut words = String::new(alloc);
    push_hex(&mut words, &[octet])?;
    Ok(words)
}

/// What is wrong with a number of contents octets.
#[tactic(auto, using(crate::proofs::Found::found_so))]
pub(crate) fn of_count(
    alloc: Global,
    number: usize,
    expected: &str,
) -> Result<Option<Finding>, AllocError>
    ensures { IfOk result (Says (count_words number expected.now)) }
{
    let words = counted(alloc, number, "contents octet")?;
    Ok(found(alloc, words, expected)?)
}

/// What is wrong with an octet at an offset of the message.
#[tactic(auto, using(crate::proofs::Found::found_so))]
pub(crate) fn of_octet(
    alloc: Global,
    octet: u8,
    at: usize,
    expected: &str,
) -> Result<Option<Finding>, AllocError>
    ensures { IfOk result (Says (octet_words (Some octet) at expected.now)) }
{
    let octet = digits(alloc, octet)?;
    let words = format!(in alloc; "the octet {octet} at offset {at}")?;
    Ok(found(alloc, words, expected)?)
}

/// The offset at some distance.
pub(crate) fn offset(at: usize, distance: usize) -> usize
    ensures { at + distance < 2 ^ 64 → result ≡ at + distance }
{
    at.saturating_add(distance)
}
