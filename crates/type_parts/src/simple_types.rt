//! Reading types that hold no type.

ghost use Rattle.std.specs.Prelude.{◌≡◌, option_map, IfOk};
ghost use Rattle.grammar.specs.Places.{small};
ghost use Rattle.parser_combinators.specs.Given.{AreTokens};
ghost use Rattle.parser_combinators.specs.Reads.{ReadsAs, SkipsAs};
ghost use Rattle.trees.specs.Types.{plain_of};
ghost use Rattle.type_parts.specs.PlainGrammar.{type_of_word};
ghost use Rattle.type_parts.specs.PlainReading.{string_at, one_word_at, bit_string_at, simple_at};

use crate::named::{bits, enumerated, integer};
use asn_base::strings::StringKind;
use parser_combinators::{Read, ReadError};
use std::alloc::Global;
use text::reserved::Word;
use text::{Token, TokenKind, word};
use trees::Simple;

/// The tokens after `STRING`.
#[tactic(auto, unfolding(crate::specs::PlainReading::string_at))]
fn string<'a>(text: &[u8], tokens: &'a [Token]) -> Result<&'a [Token], ReadError>
    requires tokens { AreTokens text.now tokens.now }
    ensures read { SkipsAs string_at text.now tokens.now result }
    ensures rest { IfOk result (λ x. AreTokens text.now x.now) }
{
    match tokens {
        [word!(String), rest @ ..] => Ok(rest),
        _ => Err(ReadError::Unexpected(tokens.len())),
    }
}

/// The type that a word stands for, if it stands for one.
fn type_of(word: Word) -> Option<Simple>
    ensures { option_map plain_of result ≡ type_of_word word }
{
    match word {
        Word::Boolean => Some(Simple::Boolean),
        Word::Null => Some(Simple::Null),
        Word::RelativeOid => Some(Simple::RelativeOid),
        Word::Utf8String => Some(Simple::Utf8String),
        Word::NumericString => Some(Simple::Restricted(StringKind::Numeric)),
        Word::PrintableString => Some(Simple::Restricted(StringKind::Printable)),
        Word::Ia5String => Some(Simple::Restricted(StringKind::Ia5)),
        Word::VisibleString | Word::Iso646String => Some(Simple::Restricted(StringKind::Visible)),
        _ => None,
    }
}

/// Reads a type that is one word.
#[tactic(auto, unfolding(crate::specs::PlainReading::one_word_at))]
fn one_word<'a>(text: &[u8], tokens: &'a [Token]) -> Read<'a, Simple>
    requires tokens { AreTokens text.now tokens.now }
    ensures read { ReadsAs plain_of one_word_at text.now tokens.now result }
    ensures rest { IfOk result (λ x. AreTokens text.now x.1.now) }
{
    match tokens {
        [
            Token {
                kind: TokenKind::Reserved(word),
                ..
            },
            rest @ ..,
        ] => match type_of(*word) {
            Some(ty) => Ok((ty, rest)),
            None => Err(ReadError::Unexpected(tokens.len())),
        },
        _ => Err(ReadError::Unexpected(tokens.len())),
    }
}

/// Reads what comes after `BIT` (X.680, clause 22.1).
#[tactic(auto, unfolding(crate::specs::PlainReading::bit_string_at))]
fn bit_string<'a>(alloc: Global, text: &[u8], tokens: &'a [Token], depth: usize) -> Read<'a, Simple>
    requires tokens { AreTokens text.now tokens.now }
    ensures read { ReadsAs plain_of (bit_string_at small depth) text.now tokens.now result }
    ensures rest { IfOk result (λ x. AreTokens text.now x.1.now) }
{
    let rest = string(text, tokens)?;
    bits(alloc, text, rest, depth)
}

/// Reads a type that holds no type, in which `depth` more braces may be open (X.680, clause 17.1).
#[tactic(auto, unfolding(crate::specs::PlainReading::simple_at, crate::specs::PlainReading::one_word_at, crate::specs::PlainReading::identifier_at))]
pub fn simple<'a>(alloc: Global, text: &[u8], tokens: &'a [Token], depth: usize) -> Read<'a, Simple>
    requires tokens { AreTokens text.now tokens.now }
    ensures read { ReadsAs plain_of (simple_at small depth) text.now tokens.now result }
    ensures rest { IfOk result (λ x. AreTokens text.now x.1.now) }
{
    let [first, rest @ ..] = tokens else {
        return Err(ReadError::Unexpected(0));
    };
    match first.kind {
        TokenKind::Reserved(Word::Object) => match rest {
            [word!(Identifier), rest @ ..] => Ok((Simple::ObjectIdentifier, rest)),
            _ => Err(ReadError::Unexpected(rest.len())),
        },
        TokenKind::Reserved(Word::Octet) => Ok((Simple::OctetString, string(text, rest)?)),
        TokenKind::Reserved(Word::Integer) => integer(alloc, text, rest, depth),
        TokenKind::Reserved(Word::Bit) => bit_string(alloc, text, rest, depth),
        TokenKind::Reserved(Word::Enumerated) => enumerated(alloc, text, rest, depth),
        _ => one_word(text, tokens),
    }
}
