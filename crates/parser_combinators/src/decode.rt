//! What a token's octets mean.

ghost use Rattle.std.specs.Prelude.{◌≡◌, ◌⊎◌, ◌≤◌, ◌<◌, ◌∷◌, [], ℕ, IfOk, MatchOption, MatchResult, string_bytes, slice_range, slice_index, length, true, false};
ghost use Rattle.std.specs.List.{filter_map};
ghost use Rattle.std.specs.Char.{is_ascii_digit};
ghost use Rattle.std.specs.Str.Parse.{digits_value};
ghost use Rattle.text.specs.declared.token.TokenKind.TheVariants as kinds;
ghost use Rattle.text.specs.Items.{number_value};
ghost use Rattle.text.specs.Text.{max_number};
ghost use Rattle.grammar.specs.Lexeme.{digit_of, digits_between, single_quotes, chars_between};
ghost use Rattle.grammar.specs.Places.{small};
ghost use Rattle.parser_combinators.specs.Given.{IsTokenIn};

use crate::read_error::{Limit, ReadError};
use limits::MAX_NUMBER;
use std::alloc::{AllocError, Global};
use text::Token;
use trees::At;

/// The name that a token is. `AllocError` comes only if an allocation fails.
pub fn name_of(alloc: Global, text: &[u8], token: Token) -> Result<String, AllocError>
    requires token { IsTokenIn text.now token }
    requires name { (token.kind ≡ kinds.Identifier) ⊎ (token.kind ≡ kinds.TypeReference) }
    ensures { IfOk result (λ s. string_bytes s ≡ slice_range text.now token.span.start token.span.end) }
{
    let octets = &text[token.start()..token.end()];
    let name = str::from_utf8(octets).unwrap();
    name.to_owned(alloc)
}

/// The name that a token is, with its place.
pub fn name_at(alloc: Global, text: &[u8], token: Token) -> Result<At<String>, AllocError>
    requires token { IsTokenIn text.now token }
    requires name { (token.kind ≡ kinds.Identifier) ⊎ (token.kind ≡ kinds.TypeReference) }
    ensures { IfOk result (λ n. (string_bytes n.it ≡ slice_range text.now token.span.start token.span.end)
        × (n.at ≡ token.span.start)) }
{
    Ok(At {
        at: token.start(),
        it: name_of(alloc, text, token)?,
    })
}

/// The value of some decimal digits, of which the first is the highest.
fn value_of(digits: &[u8]) -> u128
    requires digits { (k : ℕ) → k < length digits.now → is_ascii_digit (slice_index digits.now k) ≡ true }
    requires small { digits_value 10 digits.now ≤ max_number }
    ensures { result ≡ digits_value 10 digits.now }
{
    let mut value: u128 = 0;
    for octet in digits {
        value = 10 * value + u128::from(*octet - b'0');
    }
    value
}

/// The number that a token is.
#[tactic(auto, using(crate::proofs::Tokens::number_digits))]
pub fn number_of(text: &[u8], token: Token) -> u128
    requires token { IsTokenIn text.now token }
    requires number { token.kind ≡ kinds.Number }
    ensures { result ≡ number_value text.now token.span.start token.span.end }
{
    value_of(&text[token.start()..token.end()])
}

/// The number that a token is, if it passes no limit. `left` is the number of tokens from it on, which the fault has.
pub fn small_number(text: &[u8], token: Token, left: usize) -> Result<u128, ReadError>
    requires token { IsTokenIn text.now token }
    requires number { token.kind ≡ kinds.Number }
    ensures { MatchResult result
        (λ n. (n ≡ number_value text.now token.span.start token.span.end) × (small n ≡ true))
        (λ e. (e ≡ ReadError.Limit Limit.Integer left)
        × (small (number_value text.now token.span.start token.span.end) ≡ false)) }
{
    let number = number_of(text, token);
    if number < MAX_NUMBER {
        Ok(number)
    } else {
        Err(ReadError::Limit(Limit::Integer, left))
    }
}

#[tactic(auto, unfolding(grammar::specs::Lexeme::digit_of, text::specs::Octets::is_hex))]
fn digit(octet: u8) -> Option<u8>
    ensures { result ≡ digit_of octet }
{
    match octet {
        b'0'..=b'9' => Some(octet - b'0'),
        b'A'..=b'F' => Some(octet - b'A' + 10),
        _ => None,
    }
}

/// The values of the digits among octets.
fn digits_among(alloc: Global, octets: &[u8]) -> Result<Vec<u8>, AllocError>
    ensures { IfOk result (λ v. v.items ≡ filter_map digit_of octets.now) }
{
    let mut digits = Vec::new(alloc);
    for octet in octets {
        if let Some(value) = digit(*octet) {
            digits.push(value)?;
        }
    }
    Ok(digits)
}

/// The digits of a binary or hexadecimal string.
#[tactic(auto, using(crate::proofs::Tokens::digits_long))]
pub fn digits_of(alloc: Global, text: &[u8], token: Token) -> Result<Vec<u8>, AllocError>
    requires token { IsTokenIn text.now token }
    requires digits { (token.kind ≡ kinds.BinaryString) ⊎ (token.kind ≡ kinds.HexString) }
    ensures { IfOk result (λ v. v.items ≡ digits_between text.now token.span.start token.span.end) }
{
    digits_among(alloc, &text[token.start() + 1..token.end() - 2])
}

/// The first octet, and the octets after it; two quotes count as one octet.
#[tactic(auto, unfolding(grammar::specs::Lexeme::single_quotes))]
fn next_octet(octets: &[u8]) -> Option<(u8, &[u8])>
    ensures { MatchOption result (single_quotes octets.now ≡ [])
        (λ x. (single_quotes octets.now ≡ x.0 ∷ single_quotes x.1.now) × (length x.1.now < length octets.now)) }
{
    match octets {
        [b'"', _, after @ ..] => Some((b'"', after)),
        [octet, after @ ..] => Some((*octet, after)),
        [] => None,
    }
}

/// The octets, with two quotes as one.
fn unquoted(alloc: Global, octets: &[u8]) -> Result<Vec<u8>, AllocError>
    ensures { IfOk result (λ v. v.items ≡ single_quotes octets.now) }
{
    let mut unquoted = Vec::new(alloc);
    let mut rest = octets;
    while let Some((octet, after)) = next_octet(rest) {
        unquoted.push(octet)?;
        rest = after;
    }
    Ok(unquoted)
}

/// The octets of a text in quotes.
#[tactic(auto, using(crate::proofs::Tokens::chars_long))]
pub fn chars_of(alloc: Global, text: &[u8], token: Token) -> Result<Vec<u8>, AllocError>
    requires token { IsTokenIn text.now token }
    requires chars { token.kind ≡ kinds.CharacterString }
    ensures { IfOk result (λ v. v.items ≡ chars_between text.now token.span.start token.span.end) }
{
    unquoted(alloc, &text[token.start() + 1..token.end() - 1])
}
