//! The constraint, or the size, that begins at a place of a list of tokens.

ghost use Rattle.std.specs.Prelude.{◌≡◌, ◌≤◌, ℕ, length, IfOk, IfErr, MatchResult};
ghost use Rattle.grammar.specs.Lexeme.{lexemes};
ghost use Rattle.grammar.specs.Places.{bounded};
ghost use Rattle.trees.specs.Constraints.{ConstraintTree, constraint_of};
ghost use Rattle.notation.specs.ConstraintGrammar.{constraint, size, flat};
ghost use Rattle.parser_combinators.specs.Given.{IsLexed};
ghost use Rattle.notation.specs.Answer.{IsThere, IsRightNotationFault};

use crate::constraint_reading::{constraint, size};
use crate::refused::unexpected;
use crate::syntax_fault::SyntaxFault;
use parser_combinators::ReadError;
use std::alloc::Global;
use text::Token;
use trees::ConstraintSyntax;

/// Reads the constraint that begins at a place.
///
/// The arguments are a text, its tokens as [`text::lex`] gives them, and the index of a token, which may be their
/// number. The result is the constraint and the index of the token after its closing parenthesis. The notation is that
/// of X.680, clause 49.6, with single values, ranges, sizes and alphabets (clause 51). An extension marker may follow
/// values, ranges and sizes (clause 50.1).
///
/// # Errors
/// The place of a fault is the first token with which no constraint within the limits can go on. The fault there is
/// - [`SyntaxFault::Limit`] at a number of 2 to the 127 or more without a minus before it, if a constraint could go on
///   with a smaller one;
/// - [`SyntaxFault::Unexpected`] or [`SyntaxFault::OutOfProfile`] if none could under any limits; `OutOfProfile` if
///   that token is a word or mark of a construct that this compiler leaves out.
///
/// Besides, the error is [`SyntaxFault::Memory`] if there is not enough memory.
pub fn constraint_at(
    alloc: Global,
    text: &[u8],
    tokens: &[Token],
    place: usize,
) -> Result<(ConstraintSyntax, usize), SyntaxFault>
    requires text { IsLexed text.now tokens.now }
    requires place { place ≤ length tokens.now }
    // The result is the constraint at that place.
    ensures found { IfOk result (λ x. IsThere (flat constraint) 0 text.now tokens.now place (constraint_of x.0) x.1) }
    // A constraint that is there is returned, unless memory runs out.
    ensures only { (v : ConstraintTree) (end : ℕ) → IsThere (flat constraint) 0 text.now tokens.now place v end
        → MatchResult result (λ x. (constraint_of x.0 ≡ v) × (x.1 ≡ end)) (λ f. f ≡ SyntaxFault.Memory) }
    // A fault is the right one, with its place.
    ensures fault { IfErr result
        (IsRightNotationFault (flat constraint) (lexemes text.now tokens.now) place (bounded 0)) }
{
    text::law::lemma_spans_within();
    match constraint(alloc, text, &tokens[place..]) {
        Ok((constraint, rest)) => Ok((constraint, tokens.len() - rest.len())),
        Err(ReadError::Memory) => Err(SyntaxFault::Memory),
        Err(ReadError::Unexpected(left)) => Err(unexpected(tokens, tokens.len() - left)),
        Err(ReadError::Limit(limit, left)) => Err(SyntaxFault::Limit(limit, tokens.len() - left)),
    }
}

/// Reads the size that begins at a place: `SIZE (1..4)`.
///
/// The arguments are a text, its tokens as [`text::lex`] gives them, and the index of a token, which may be their
/// number. The result is the size and the index of the token after its closing parenthesis. The notation is that of
/// X.680, clause 51.5; an extension marker may follow the sizes.
///
/// # Errors
/// The place of a fault is the first token with which no size within the limits can go on. The fault there is
/// - [`SyntaxFault::Limit`] at a number of 2 to the 127 or more without a minus before it, if a size could go on with a
///   smaller one;
/// - [`SyntaxFault::Unexpected`] or [`SyntaxFault::OutOfProfile`] if none could under any limits; `OutOfProfile` if
///   that token is a word or mark of a construct that this compiler leaves out.
///
/// Besides, the error is [`SyntaxFault::Memory`] if there is not enough memory.
pub fn size_at(
    alloc: Global,
    text: &[u8],
    tokens: &[Token],
    place: usize,
) -> Result<(ConstraintSyntax, usize), SyntaxFault>
    requires text { IsLexed text.now tokens.now }
    requires place { place ≤ length tokens.now }
    // The result is the size at that place.
    ensures found { IfOk result (λ x. IsThere (flat size) 0 text.now tokens.now place (constraint_of x.0) x.1) }
    // A size that is there is returned, unless memory runs out.
    ensures only { (v : ConstraintTree) (end : ℕ) → IsThere (flat size) 0 text.now tokens.now place v end
        → MatchResult result (λ x. (constraint_of x.0 ≡ v) × (x.1 ≡ end)) (λ f. f ≡ SyntaxFault.Memory) }
    // A fault is the right one, with its place.
    ensures fault { IfErr result (IsRightNotationFault (flat size) (lexemes text.now tokens.now) place (bounded 0)) }
{
    text::law::lemma_spans_within();
    match size(alloc, text, &tokens[place..]) {
        Ok((size, rest)) => Ok((size, tokens.len() - rest.len())),
        Err(ReadError::Memory) => Err(SyntaxFault::Memory),
        Err(ReadError::Unexpected(left)) => Err(unexpected(tokens, tokens.len() - left)),
        Err(ReadError::Limit(limit, left)) => Err(SyntaxFault::Limit(limit, tokens.len() - left)),
    }
}
