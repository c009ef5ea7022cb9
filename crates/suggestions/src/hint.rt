//! What may have been meant by a name that means nothing.

ghost use Rattle.std.specs.Prelude.{◌≡◌, ◌∷◌, ◌≤◌, ◌↔◌, ℕ, [], IfOk, IfSome, IsTrue, List, false, string_bytes, true};
ghost use Rattle.suggestions.specs.Hint.{IsAlike, IsHint, IsMeant, IsQuestion};
ghost use Rattle.suggestions.specs.Near.{are_near};

use crate::near::is_near;
use source_text::{is_kind, shown, token_text, tokens_in};
use std::alloc::{AllocError, Global};
use text::reserved::Word;
use text::{Mark, Token, TokenKind};

/// Whether a name begins with a small letter, as those of values do.
pub fn is_small(name: &str) -> bool
    ensures first { (c : ℕ) (rest : List ℕ) → name.now ≡ c ∷ rest → (IsTrue result ↔ ((97 ≤ c) × (c ≤ 122))) }
    ensures empty { name.now ≡ [] → result ≡ false }
{
    match name.as_bytes().first() {
        Some(octet) => octet.is_ascii_lowercase(),
        None => false,
    }
}

/// Whether a name is a word but for the case of letters, or may have been meant for it.
fn is_alike(name: &str, one: &str) -> bool
    ensures { IsTrue result ↔ IsAlike name.now one.now }
{
    name.eq_ignore_ascii_case(one) || is_near(name.as_bytes(), one.as_bytes())
}

/// Two words that are written as one in a name.
fn joined_near(name: &str) -> Option<&'static str>
    ensures { IfSome result (λ w. IsMeant name.now w.now) }
{
    if is_alike(name, "OCTETSTRING") {
        Some("OCTET STRING")
    } else if is_alike(name, "BITSTRING") {
        Some("BIT STRING")
    } else if is_alike(name, "OBJECTIDENTIFIER") {
        Some("OBJECT IDENTIFIER")
    } else if is_alike(name, "RELATIVEOID") {
        Some("RELATIVE-OID")
    } else if is_alike(name, "SEQUENCEOF") {
        Some("SEQUENCE OF")
    } else if is_alike(name, "SETOF") {
        Some("SET OF")
    } else {
        None
    }
}

/// Whether a word can be where a value is, or otherwise where a type is.
fn is_word_for(word: Word, value: bool) -> bool {
    match word {
        Word::True | Word::False => value,
        Word::Null => true,
        _ => !value,
    }
}

/// The reserved word that a name is near to, or None.
fn word_near(name: &str) -> Option<&'static str>
    ensures { IfSome result (λ w. IsMeant name.now w.now) }
{
    let value = is_small(name);
    for word in &Word::ALL {
        let text = word.text();
        if is_word_for(*word, value) && is_near(name.as_bytes(), text.as_bytes()) {
            return Some(text);
        }
    }
    if value { None } else { joined_near(name) }
}

/// Whether there is a name of this text at a place: the name of a type where it is assigned, or an identifier.
fn is_name_at(tokens: &[Token], place: usize, value: bool) -> bool {
    if value {
        return is_kind(tokens, place, TokenKind::Identifier);
    }
    let next = place.saturating_add(1);
    is_kind(tokens, place, TokenKind::TypeReference)
        && is_kind(tokens, next, TokenKind::Mark(Mark::Assign))
}

/// The question for a name that may have been meant.
#[tactic(auto, using(crate::proofs::Questions::asks))]
fn question(alloc: Global, name: &str, meant: &str) -> Result<String, AllocError>
    requires { IsMeant name.now meant.now }
    ensures { IfOk result (λ s. IsQuestion name.now (string_bytes s)) }
{
    let spelled = shown(alloc, meant)?;
    Ok(format!(in alloc; "; did you mean {spelled}?")?)
}

/// The question for the first name of a text to which `name` is near, or None.
fn name_near(alloc: Global, text: &[u8], name: &str) -> Result<Option<String>, AllocError>
    ensures { IfOk result (λ o. IfSome o (λ s. IsQuestion name.now (string_bytes s))) }
{
    let value = is_small(name);
    let tokens = tokens_in(alloc, text)?;
    for place in 0..tokens.len() {
        if is_name_at(tokens.as_slice(), place, value) {
            let spelled = token_text(text, tokens.as_slice(), place);
            if is_near(name.as_bytes(), spelled.as_bytes()) {
                return Ok(Some(question(alloc, name, spelled)?));
            }
        }
    }
    Ok(None)
}

/// The question for the first name of the texts to which `name` is near, or None.
fn name_near_in(alloc: Global, texts: &[Vec<u8>], name: &str) -> Result<Option<String>, AllocError>
    ensures { IfOk result (λ o. IfSome o (λ s. IsQuestion name.now (string_bytes s))) }
{
    for text in texts {
        let near = name_near(alloc, text.as_slice(), name)?;
        if near.is_some() {
            return Ok(near);
        }
    }
    Ok(None)
}

/// Whether a character can't be a part of a name or word.
fn parts_words(c: char) -> bool {
    !(c.is_ascii_alphanumeric() || c == '-')
}

/// The first name among the expected ones to which `name` is near, or None.
fn expected_near<'a>(expected: &'a str, name: &str) -> Option<&'a str>
    ensures { IfSome result (λ w. are_near name.now w.now ≡ true) }
{
    for word in expected.split(parts_words) {
        if is_near(name.as_bytes(), word.as_bytes()) {
            return Some(word);
        }
    }
    None
}

/// Returns what may have been meant by a name that means nothing, in words. It is a name among the expected ones, a
/// word of the notation, or a name of the texts; the result is empty if none of them is near.
pub fn did_you_mean(
    alloc: Global,
    texts: &[Vec<u8>],
    expected: &str,
    name: &str,
) -> Result<String, AllocError>
    // The words are a question with one name that is near to this one, or there are none.
    ensures { IfOk result (λ s. IsHint name.now (string_bytes s)) }
{
    if let Some(near) = expected_near(expected, name) {
        return question(alloc, name, near);
    }
    if let Some(word) = word_near(name) {
        return question(alloc, name, word);
    }
    match name_near_in(alloc, texts, name)? {
        Some(question) => Ok(question),
        None => Ok(String::new(alloc)),
    }
}
