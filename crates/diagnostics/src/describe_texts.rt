//! The words for faults of the octets and of the tokens of a text.

ghost use Rattle.std.specs.Prelude.{IfOk, List, string_bytes};
ghost use Rattle.diagnostics.specs.Places.{IsShown, spelled_at};
ghost use Rattle.text.specs.Text.{IsText, IsWithinLimits};
ghost use Rattle.text.specs.declared.token.Token.{Token as Token'};

use notation::SyntaxFault;
use source_text::{character, open_string, shown, token_text, tokens_in};
use std::alloc::{AllocError, Global};
use suggestions::wanted;
use text::law::lemma_tokens_known;
use text::{LexFault, Limit, Token};

/// A hint for the type ANY of older editions.
pub(crate) const LEFT_OUT_ANY: &str =
    "; ANY DEFINED BY is left out: write a CHOICE of the types in its place";

/// The words for a character that is not allowed where it is. `equals` is a hint for an equals sign.
fn describe_character(
    alloc: Global,
    text: &[u8],
    place: usize,
    equals: &str,
) -> Result<String, AllocError> {
    let character = character(alloc, text, place)?;
    let hint = match text.get(place) {
        Some(b'=') => equals,
        _ => "",
    };
    format!(in alloc; "found {character}, which is allowed in comments and quotes only{hint}")
}

/// The words for a fault of the octets of a text. `equals` is a hint for an equals sign.
pub(crate) fn describe_octets(
    alloc: Global,
    text: &[u8],
    fault: &LexFault,
    equals: &str,
) -> Result<String, AllocError> {
    let words = match fault {
        LexFault::Memory => "out of memory",
        LexFault::Limit(Limit::Text, _) => "found a longer text, expected at most 16777216 octets",
        LexFault::Limit(Limit::Integer, _) =>
            "found a greater number, expected at most 2 to the 127",
        LexFault::NotUtf8(_) => "found octets that are not UTF-8, expected UTF-8",
        LexFault::BadCharacter(place) => return describe_character(alloc, text, *place, equals),
        LexFault::OpenComment(_) => "found a comment without an end, expected its end",
        LexFault::OpenString(place) => open_string(text, *place),
        LexFault::BadNumber(_) =>
            "found a number that begins with 0 or has a letter after it, expected neither",
        LexFault::BadName(_) =>
            "found a name that ends with a hyphen, expected a letter or a digit after it",
    };
    String::from_str(alloc, words)
}

/// The words for the token at a place, in quotes, or for the end of the text.
pub(crate) fn found(
    alloc: Global,
    text: &[u8],
    tokens: &[Token],
    place: usize,
) -> Result<String, AllocError> {
    if place >= tokens.len() {
        return String::from_str(alloc, "found the end of the text");
    }
    let spelled = shown(alloc, token_text(text, tokens, place))?;
    format!(in alloc; "found '{spelled}'")
}

/// A token of a text as a message shows it. Empty after the last token.
#[tactic(auto, using(crate::proofs::Tokens::shown_in))]
pub(crate) fn shown_token(alloc: Global, text: &[u8], place: usize) -> Result<String, AllocError>
    ensures { (ts : List Token') →
        IsText text.now ts →
        IsWithinLimits text.now ts →
        IfOk result (λ s. IsShown (spelled_at text.now ts place) (string_bytes s)) }
{
    lemma_tokens_known();
    let tokens = tokens_in(alloc, text)?;
    shown(alloc, token_text(text, tokens.as_slice(), place))
}

/// The words for a fault of the tokens of a text.
pub(crate) fn describe_tokens(
    alloc: Global,
    text: &[u8],
    fault: &SyntaxFault,
) -> Result<String, AllocError> {
    let words = match fault {
        SyntaxFault::Memory => "out of memory",
        SyntaxFault::Limit(parser_combinators::Limit::Nesting, _) =>
            "found one more brace, tag, list type or alternative that is open, expected at most 128",
        SyntaxFault::Limit(parser_combinators::Limit::Integer, _) =>
            "found a greater number, expected at most 2 to the 127 minus 1",
        SyntaxFault::Limit(parser_combinators::Limit::TagNumber, _) => {
            "found a greater number of a tag, expected at most 2 to the 31 minus 1"
        }
        SyntaxFault::OutOfProfile(place) => {
            let spelled = shown_token(alloc, text, *place)?;
            return format!(in alloc; "found {spelled}, which this compiler does not support");
        }
        SyntaxFault::Unexpected(place) => {
            let tokens = tokens_in(alloc, text)?;
            let mut words = found(alloc, text, tokens.as_slice(), *place)?;
            let word = token_text(text, tokens.as_slice(), *place);
            let wanted = wanted(alloc, tokens.as_slice(), *place, word)?;
            words.push_str(wanted.as_str())?;
            if word == "DEFINED" {
                words.push_str(LEFT_OUT_ANY)?;
            }
            return Ok(words);
        }
    };
    String::from_str(alloc, words)
}
