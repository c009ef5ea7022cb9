//! Reading a tag and the keyword after it.

ghost use Rattle.std.specs.Prelude.{◌≡◌, ◌<◌, IfOk};
ghost use Rattle.asn_base.specs.declared.tag.Class.TheVariants as classes;
ghost use Rattle.grammar.specs.Lexeme.{lexemes};
ghost use Rattle.grammar.specs.Places.{small};
ghost use Rattle.parser_combinators.specs.Given.{AreTokens};
ghost use Rattle.parser_combinators.specs.Reads.{ReadsAs};
ghost use Rattle.type_parts.specs.PlainReading.{keyword_at, low_number_at, low_end_at, class_at, tag_at};

use asn_base::tag::{Class, Tag};
use limits::TAG_NUMBERS;
use parser_combinators::decode::number_of;
use parser_combinators::{Limit, Read, ReadError};
use text::{Token, kind, mark, word};
use trees::Keyword;

/// Reads the number of a tag.
#[tactic(auto, unfolding(crate::specs::PlainReading::low_number_at))]
fn number<'a>(text: &[u8], tokens: &'a [Token]) -> Read<'a, u32>
    requires tokens { AreTokens text.now tokens.now }
    ensures read { ReadsAs (λ x. x) low_number_at text.now tokens.now result }
    ensures small { IfOk result (λ x. x.0 < 2147483648) }
    ensures rest { IfOk result (λ x. AreTokens text.now x.1.now) }
{
    match tokens {
        [number @ kind!(Number), rest @ ..] => {
            let value = number_of(text, *number);
            if value < TAG_NUMBERS {
                Ok((value as u32, rest))
            } else {
                Err(ReadError::Limit(Limit::TagNumber, tokens.len()))
            }
        },
        _ => Err(ReadError::Unexpected(tokens.len())),
    }
}

/// Reads the number of a tag and the closing bracket.
#[tactic(auto, unfolding(crate::specs::PlainReading::low_end_at, crate::specs::PlainReading::bracket_at))]
fn end<'a>(text: &[u8], tokens: &'a [Token]) -> Read<'a, u32>
    requires tokens { AreTokens text.now tokens.now }
    ensures read { ReadsAs (λ x. x) low_end_at text.now tokens.now result }
    ensures small { IfOk result (λ x. x.0 < 2147483648) }
    ensures rest { IfOk result (λ x. AreTokens text.now x.1.now) }
{
    let (number, rest) = number(text, tokens)?;
    match rest {
        [mark!(CloseBracket), rest @ ..] => Ok((number, rest)),
        _ => Err(ReadError::Unexpected(rest.len())),
    }
}

/// The class of a tag, and the tokens after the word that names it.
#[tactic(auto, unfolding(crate::specs::PlainReading::class_at))]
fn class<'a>(text: &[u8], tokens: &'a [Token]) -> (Class, &'a [Token])
    requires tokens { AreTokens text.now tokens.now }
    ensures class { (class_at (lexemes text.now tokens.now)).0.0 ≡ result.0 }
    ensures remaining { (class_at (lexemes text.now tokens.now)).1 ≡ lexemes text.now result.1.now }
    ensures free { result.0 ≡ classes.Universal → ⊥ }
    ensures rest { AreTokens text.now result.1.now }
{
    match tokens {
        [word!(Application), rest @ ..] => (Class::Application, rest),
        [word!(Private), rest @ ..] => (Class::Private, rest),
        _ => (Class::Context, tokens),
    }
}

/// Reads a tag after its open bracket (X.680, clause 31.2.1).
pub fn tag<'a>(text: &[u8], tokens: &'a [Token]) -> Read<'a, Tag>
    requires tokens { AreTokens text.now tokens.now }
    ensures read { ReadsAs (λ x. x) (tag_at small) text.now tokens.now result }
    ensures rest { IfOk result (λ x. AreTokens text.now x.1.now) }
{
    let (class, rest) = class(text, tokens);
    let (number, rest) = end(text, rest)?;
    Ok((Tag { class, number }, rest))
}

/// Reads the keyword after a tag, if there is one.
#[tactic(auto, unfolding(crate::specs::PlainReading::keyword_at))]
pub fn keyword<'a>(text: &[u8], tokens: &'a [Token]) -> Read<'a, Keyword>
    requires tokens { AreTokens text.now tokens.now }
    ensures read { ReadsAs (λ x. x) keyword_at text.now tokens.now result }
    ensures rest { IfOk result (λ x. AreTokens text.now x.1.now) }
{
    match tokens {
        [word!(Implicit), rest @ ..] => Ok((Keyword::Implicit, rest)),
        [word!(Explicit), rest @ ..] => Ok((Keyword::Explicit, rest)),
        _ => Ok((Keyword::Absent, tokens)),
    }
}
