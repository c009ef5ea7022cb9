//! Reading the constraints after a type, and the size of a list.

ghost use Rattle.std.specs.Prelude.{◌≡◌, map, length, option_map, IfOk};
ghost use Rattle.grammar.specs.Lexeme.{lexemes};
ghost use Rattle.grammar.specs.Manies.{is_begun_by};
ghost use Rattle.grammar.specs.Places.{small};
ghost use Rattle.grammar.specs.Reading.{many_at};
ghost use Rattle.parser_combinators.specs.Given.{Gives, AreTokens};
ghost use Rattle.parser_combinators.specs.Reads.{ReadsAs};
ghost use Rattle.trees.specs.Constraints.{constraint_of};
ghost use Rattle.notation.specs.ConstraintReading.{constraint_at};
ghost use Rattle.grammar.specs.Reading.{is_open, parens_at};
ghost use Rattle.type_parts.specs.PlainReading.{constraints_at, some_size_at, size_in_parens_at, list_size_at};

use notation::constraint_reading::{constraint, size};
use parser_combinators::Read;
use parser_combinators::punctuation::{close, open};
use std::alloc::Global;
use text::{Token, mark, word};
use trees::ConstraintSyntax;

/// Whether a constraint is next.
fn begins(text: &[u8], tokens: &[Token]) -> bool
    ensures { result ≡ is_begun_by is_open (lexemes text.now tokens.now) }
{
    matches!(tokens, [mark!(OpenParenthesis), ..])
}

/// Reads constraints, as many as there are. The list has no spare memory in the end.
fn constraints<'a>(
    alloc: Global,
    text: &[u8],
    tokens: &'a [Token],
) -> Read<'a, Vec<ConstraintSyntax>>
    requires tokens { AreTokens text.now tokens.now }
    ensures read { Gives (λ x. (map constraint_of x.0.items, lexemes text.now x.1.now)) result
        (many_at is_open (constraint_at small) (length (lexemes text.now tokens.now)) (lexemes text.now tokens.now)) }
    ensures rest { IfOk result (λ x. AreTokens text.now x.1.now) }
{
    crate::law::lemma_parts_are_read();
    let mut constraints = Vec::new(alloc);
    let mut rest = tokens;
    while begins(text, rest) {
        let (next, after) = constraint(alloc, text, rest)?;
        constraints.push(next)?;
        rest = after;
    }
    constraints.shrink_to_fit();
    Ok((constraints, rest))
}

/// Reads the constraints after a type (X.680, clause 49.1).
#[tactic(auto, unfolding(crate::specs::PlainReading::constraints_at))]
pub fn type_constraints<'a>(
    alloc: Global,
    text: &[u8],
    tokens: &'a [Token],
) -> Read<'a, Vec<ConstraintSyntax>>
    requires tokens { AreTokens text.now tokens.now }
    ensures read { ReadsAs (λ x. map constraint_of x.items) (constraints_at small)
        text.now tokens.now result }
    ensures rest { IfOk result (λ x. AreTokens text.now x.1.now) }
{
    constraints(alloc, text, tokens)
}

/// Reads a size.
#[tactic(auto, unfolding(crate::specs::PlainReading::some_size_at))]
fn some_size<'a>(
    alloc: Global,
    text: &[u8],
    tokens: &'a [Token],
) -> Read<'a, Option<ConstraintSyntax>>
    requires tokens { AreTokens text.now tokens.now }
    ensures read { ReadsAs (option_map constraint_of) (some_size_at small) text.now tokens.now result }
    ensures rest { IfOk result (λ x. AreTokens text.now x.1.now) }
{
    let (size, rest) = size(alloc, text, tokens)?;
    Ok((Some(size), rest))
}

/// Reads a size in parentheses.
#[tactic(auto, unfolding(crate::specs::PlainReading::size_in_parens_at, grammar::specs::Reading::parens_at))]
fn size_in_parens<'a>(
    alloc: Global,
    text: &[u8],
    tokens: &'a [Token],
) -> Read<'a, Option<ConstraintSyntax>>
    requires tokens { AreTokens text.now tokens.now }
    ensures read { ReadsAs (option_map constraint_of) (size_in_parens_at small) text.now tokens.now result }
    ensures rest { IfOk result (λ x. AreTokens text.now x.1.now) }
{
    let rest = open(text, tokens)?;
    let (size, rest) = size(alloc, text, rest)?;
    Ok((Some(size), close(text, rest)?))
}

/// Reads the size of a list, if one is given (X.680, clause 51.5).
#[tactic(auto, unfolding(crate::specs::PlainReading::list_size_at))]
pub fn list_size<'a>(
    alloc: Global,
    text: &[u8],
    tokens: &'a [Token],
) -> Read<'a, Option<ConstraintSyntax>>
    requires tokens { AreTokens text.now tokens.now }
    ensures read { ReadsAs (option_map constraint_of) (list_size_at small) text.now tokens.now result }
    ensures rest { IfOk result (λ x. AreTokens text.now x.1.now) }
{
    match tokens {
        [word!(Size), ..] => some_size(alloc, text, tokens),
        [mark!(OpenParenthesis), ..] => size_in_parens(alloc, text, tokens),
        _ => Ok((None, tokens)),
    }
}
