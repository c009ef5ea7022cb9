//! The value that begins at a place of a list of tokens.

ghost use Rattle.std.specs.Prelude.{◌≡◌, ◌-◌, ◌≤◌, ℕ, length, IfOk, IfErr, MatchResult};
ghost use Rattle.grammar.specs.Lexeme.{lexemes};
ghost use Rattle.grammar.specs.Places.{bounded};
ghost use Rattle.trees.specs.Values.{Tree, tree_of};
ghost use Rattle.notation.specs.Value.{values};
ghost use Rattle.parser_combinators.specs.Given.{IsLexed};
ghost use Rattle.notation.specs.Answer.{IsThere, IsRightNotationFault};

use crate::reading::value;
use crate::refused::unexpected;
use crate::syntax_fault::SyntaxFault;
use limits::MAX_NESTING;
use parser_combinators::ReadError;
use std::alloc::Global;
use text::Token;
use trees::ValueSyntax;

/// Reads the value that begins at a place, inside `opened` braces and alternatives that are open already.
///
/// The arguments are a text, its tokens as [`text::lex`] gives them, and the index of a token, which may be their
/// number. The result is the value and the index of the token after it; that token can't go on with the value. The
/// notation is that of X.680, clause 17.1, with the values of the types that this compiler knows.
///
/// # Errors
/// The place of a fault is the first token with which no value within the limits can go on. The fault there is
/// - [`SyntaxFault::Limit`] if a value could go on were this one limit higher. This happens at the brace or colon that
///   opens more than 128 braces and alternatives. It also happens at a number of 2 to the 127 or more without a minus
///   before it;
/// - [`SyntaxFault::Unexpected`] or [`SyntaxFault::OutOfProfile`] if none could under any limits; `OutOfProfile` if
///   that token is a word or mark of a construct that this compiler leaves out.
///
/// Besides, the error is [`SyntaxFault::Memory`] if there is not enough memory.
pub fn value_at(
    alloc: Global,
    text: &[u8],
    tokens: &[Token],
    place: usize,
    opened: usize,
) -> Result<(ValueSyntax, usize), SyntaxFault>
    requires text { IsLexed text.now tokens.now }
    requires place { place ≤ length tokens.now }
    requires room { opened ≤ 128 }
    // The result is the value at that place.
    ensures found { IfOk result (λ x. IsThere values (128 - opened) text.now tokens.now place (tree_of x.0) x.1) }
    // A value that is there is returned, unless memory runs out.
    ensures only { (v : Tree) (end : ℕ) → IsThere values (128 - opened) text.now tokens.now place v end
        → MatchResult result (λ x. (tree_of x.0 ≡ v) × (x.1 ≡ end)) (λ f. f ≡ SyntaxFault.Memory) }
    // A fault is the right one, with its place.
    ensures fault { IfErr result
        (IsRightNotationFault values (lexemes text.now tokens.now) place (bounded (128 - opened))) }
{
    text::law::lemma_spans_within();
    match value(alloc, text, &tokens[place..], MAX_NESTING - opened) {
        Ok((value, rest)) => Ok((value, tokens.len() - rest.len())),
        Err(ReadError::Memory) => Err(SyntaxFault::Memory),
        Err(ReadError::Unexpected(left)) => Err(unexpected(tokens, tokens.len() - left)),
        Err(ReadError::Limit(limit, left)) => Err(SyntaxFault::Limit(limit, tokens.len() - left)),
    }
}
