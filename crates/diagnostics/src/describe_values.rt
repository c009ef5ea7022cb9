//! The words for faults of the notations of values.

use crate::describe_texts::found;
use source_text::{is_kind, shown, token_text, tokens_in};
use std::alloc::{AllocError, Global};
use suggestions::did_you_mean;
use text::reserved::Word;
use text::{Mark, Token, TokenKind};
use value_diagnostics::{Reason, ValueDiagnostic};

/// The number of the first token that begins at an octet or after it.
fn token_at(tokens: &[Token], octet: usize) -> usize {
    tokens
        .iter()
        .position(|token| token.start() >= octet)
        .unwrap_or(tokens.len())
}

/// The words for the token at an octet, in quotes, or for the end of the text.
pub(crate) fn found_at(alloc: Global, text: &[u8], octet: usize) -> Result<String, AllocError> {
    let tokens = tokens_in(alloc, text)?;
    let place = token_at(tokens.as_slice(), octet);
    found(alloc, text, tokens.as_slice(), place)
}

/// Whether a component's value can follow a token, apart from the component's name.
fn begins_component(tokens: &[Token], place: usize) -> bool {
    is_kind(tokens, place, TokenKind::Mark(Mark::OpenBrace))
        || is_kind(tokens, place, TokenKind::Mark(Mark::Comma))
}

/// What has the value whose notation begins with a token, as far as the tokens before it show: a component, an
/// alternative, or a DEFAULT.
fn whose(alloc: Global, text: &[u8], tokens: &[Token], place: usize) -> Result<String, AllocError> {
    let one = place.saturating_sub(1);
    let two = place.saturating_sub(2);
    if place < 2 {
        return Ok(String::new(alloc));
    }
    if is_kind(tokens, one, TokenKind::Reserved(Word::Default)) {
        return String::from_str(alloc, " after DEFAULT");
    }
    if is_kind(tokens, one, TokenKind::Identifier) && begins_component(tokens, two) {
        let name = shown(alloc, token_text(text, tokens, one))?;
        return format!(in alloc; " for the component {name}");
    }
    if is_kind(tokens, one, TokenKind::Mark(Mark::Colon)) {
        let name = shown(alloc, token_text(text, tokens, two))?;
        return format!(in alloc; " for the alternative {name}");
    }
    Ok(String::new(alloc))
}

/// The names at the end of what was expected. It is empty if that ends with no names, but with what these are names of,
/// or with the type of characters.
fn names_in(expected: &str) -> &str {
    match expected.rsplit_once(" of ") {
        Some((start, names)) if !start.ends_with("names") && !start.ends_with("characters") => {
            names
        }
        _ => "",
    }
}

/// What comes after the name or the notation, in the words for what was found.
fn end_of(reason: Reason) -> &'static str {
    match reason {
        Reason::Nodes => ", which is one part too many",
        Reason::Oid => ", which is too long or has too great a number",
        Reason::NoSuchName => ", which means no value of that module",
        Reason::NoSuchItem => ", which means no value",
        Reason::Circular => ", which leads back to itself",
        Reason::UnknownBit => ", which is no bit of the type",
        Reason::UnknownAlternative => ", which is no alternative",
        Reason::UnknownField => ", which is no component",
        Reason::Repeated => " a second time",
        Reason::OutOfOrder => " out of order",
        Reason::Depth | Reason::NotOfType | Reason::Outside | Reason::Missing => "",
    }
}

/// The words for what was found of a notation that begins with a token, with the name in the fault.
fn describe_reason(
    alloc: Global,
    text: &[u8],
    tokens: &[Token],
    place: usize,
    diagnostic: &ValueDiagnostic,
) -> Result<String, AllocError> {
    let name = shown(alloc, diagnostic.source_location.name.as_str())?;
    let found = found(alloc, text, tokens, place)?;
    let whose = whose(alloc, text, tokens, place)?;
    let end = end_of(diagnostic.reason);
    match diagnostic.reason {
        Reason::Depth => String::from_str(alloc, "found a value at level 65"),
        Reason::Missing => format!(in alloc; "found no component {name}"),
        Reason::Repeated | Reason::OutOfOrder => format!(in alloc;
            "found the component {name}{end}"
        ),
        Reason::NoSuchName | Reason::NoSuchItem => format!(in alloc; "found {name}{whose}{end}"),
        Reason::Circular | Reason::UnknownBit | Reason::UnknownField => format!(in alloc;
            "found {name}{end}"
        ),
        _ => format!(in alloc; "{found}{whose}{end}"),
    }
}

/// The name for which another one may have been meant: that of the fault, or the one that is spelled in the text.
fn meant<'a>(reason: Reason, name: &'a str, spelled: &'a str) -> &'a str {
    match reason {
        Reason::NoSuchName | Reason::NoSuchItem => name,
        Reason::UnknownBit | Reason::UnknownField => name,
        Reason::UnknownAlternative => spelled,
        _ => "",
    }
}

/// A question for a name of `texts` that may have been meant by the one of a fault, or by the token there. Empty for
/// none.
fn hint(
    alloc: Global,
    texts: &[Vec<u8>],
    diagnostic: &ValueDiagnostic,
    spelled: &str,
) -> Result<String, AllocError> {
    let name = diagnostic.source_location.name.as_str();
    let meant = meant(diagnostic.reason, name, spelled);
    if meant.is_empty() {
        return Ok(String::new(alloc));
    }
    did_you_mean(alloc, texts, names_in(diagnostic.expected.as_str()), meant)
}

/// The words for a fault of a notation; `under` is about the type that the notation is read under. A name that may have
/// been meant is one of `texts`.
pub(crate) fn describe_value(
    alloc: Global,
    texts: &[Vec<u8>],
    text: &[u8],
    diagnostic: &ValueDiagnostic,
    under: &str,
) -> Result<String, AllocError> {
    let all = tokens_in(alloc, text)?;
    let tokens = all.as_slice();
    let place = token_at(tokens, diagnostic.source_location.at);
    let words = describe_reason(alloc, text, tokens, place, diagnostic)?;
    let hint = hint(alloc, texts, diagnostic, token_text(text, tokens, place))?;
    let expected = diagnostic.expected.as_str();
    format!(in alloc; "{words}, expected {expected}{under}{hint}")
}
