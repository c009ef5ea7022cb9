//! Marks around and between parts.

ghost use Rattle.std.specs.Prelude.{◌≡◌, ◌<◌, None, Some, IfOk, MatchOption, length};
ghost use Rattle.grammar.specs.Lexeme.{lexemes};
ghost use Rattle.grammar.specs.Reading.{closed_at, next_comma, open_at, close_at, next_marker, colon_at, close_version_at};
ghost use Rattle.parser_combinators.specs.Given.{AreTokens};
ghost use Rattle.parser_combinators.specs.Reads.{SkipsAs};

use crate::read_error::ReadError;
use text::{Token, mark};

/// The tokens after an open parenthesis.
#[tactic(auto, unfolding(grammar::specs::Reading::open_at))]
pub fn open<'a>(text: &[u8], tokens: &'a [Token]) -> Result<&'a [Token], ReadError>
    requires tokens { AreTokens text.now tokens.now }
    ensures read { SkipsAs open_at text.now tokens.now result }
    ensures rest { IfOk result (λ x. AreTokens text.now x.now) }
{
    match tokens {
        [mark!(OpenParenthesis), rest @ ..] => Ok(rest),
        _ => Err(ReadError::Unexpected(tokens.len())),
    }
}

/// The tokens after a closing parenthesis.
#[tactic(auto, unfolding(grammar::specs::Reading::close_at))]
pub fn close<'a>(text: &[u8], tokens: &'a [Token]) -> Result<&'a [Token], ReadError>
    requires tokens { AreTokens text.now tokens.now }
    ensures read { SkipsAs close_at text.now tokens.now result }
    ensures rest { IfOk result (λ x. AreTokens text.now x.now) }
{
    match tokens {
        [mark!(CloseParenthesis), rest @ ..] => Ok(rest),
        _ => Err(ReadError::Unexpected(tokens.len())),
    }
}

/// The tokens after a closing brace.
#[tactic(auto, unfolding(grammar::specs::Reading::closed_at))]
pub fn closed<'a>(text: &[u8], tokens: &'a [Token]) -> Result<&'a [Token], ReadError>
    requires tokens { AreTokens text.now tokens.now }
    ensures read { SkipsAs closed_at text.now tokens.now result }
    ensures rest { IfOk result (λ x. AreTokens text.now x.now) }
{
    match tokens {
        [mark!(CloseBrace), rest @ ..] => Ok(rest),
        _ => Err(ReadError::Unexpected(tokens.len())),
    }
}

/// The tokens after a comma, or None if there is no comma.
#[tactic(auto, unfolding(grammar::specs::Reading::next_comma))]
pub fn comma<'a>(text: &[u8], tokens: &'a [Token]) -> Option<&'a [Token]>
    requires tokens { AreTokens text.now tokens.now }
    ensures { MatchOption result (next_comma (lexemes text.now tokens.now) ≡ None)
        (λ x. (next_comma (lexemes text.now tokens.now) ≡ Some (lexemes text.now x.now))
        × AreTokens text.now x.now × (length x.now < length tokens.now)) }
{
    match tokens {
        [mark!(Comma), rest @ ..] => Some(rest),
        _ => None,
    }
}

/// The tokens after an extension marker, or None if there is none.
#[tactic(auto, unfolding(grammar::specs::Reading::next_marker))]
pub fn marker<'a>(text: &[u8], tokens: &'a [Token]) -> Option<&'a [Token]>
    requires tokens { AreTokens text.now tokens.now }
    ensures { MatchOption result (next_marker (lexemes text.now tokens.now) ≡ None)
        (λ x. (next_marker (lexemes text.now tokens.now) ≡ Some (lexemes text.now x.now)) × AreTokens text.now x.now) }
{
    match tokens {
        [mark!(Ellipsis), rest @ ..] => Some(rest),
        _ => None,
    }
}

/// The tokens after a colon.
#[tactic(auto, unfolding(grammar::specs::Reading::colon_at))]
pub fn colon<'a>(text: &[u8], tokens: &'a [Token]) -> Result<&'a [Token], ReadError>
    requires tokens { AreTokens text.now tokens.now }
    ensures read { SkipsAs colon_at text.now tokens.now result }
    ensures rest { IfOk result (λ x. AreTokens text.now x.now) }
{
    match tokens {
        [mark!(Colon), rest @ ..] => Ok(rest),
        _ => Err(ReadError::Unexpected(tokens.len())),
    }
}

/// The tokens after closing version brackets.
#[tactic(auto, unfolding(grammar::specs::Reading::close_version_at))]
pub fn close_version<'a>(text: &[u8], tokens: &'a [Token]) -> Result<&'a [Token], ReadError>
    requires tokens { AreTokens text.now tokens.now }
    ensures read { SkipsAs close_version_at text.now tokens.now result }
    ensures rest { IfOk result (λ x. AreTokens text.now x.now) }
{
    match tokens {
        [mark!(CloseVersion), rest @ ..] => Ok(rest),
        _ => Err(ReadError::Unexpected(tokens.len())),
    }
}
