//! The notation of a value that a text is.

ghost use Rattle.std.specs.Prelude.{◌≡◌, ℕ, List, IfOk, IfErr, MatchResult};
ghost use Rattle.text.specs.declared.token.Token.{Token as Token'};
ghost use Rattle.grammar.specs.Lexeme.{lexemes};
ghost use Rattle.grammar.specs.Places.{bounded};
ghost use Rattle.parser_combinators.specs.Given.{IsLexed};
ghost use Rattle.notation.specs.Answer.{IsRightNotationFault};
ghost use Rattle.notation.specs.Value.{values};
ghost use Rattle.trees.specs.Values.{Tree, tree_of};
ghost use Rattle.written_values.specs.Written.{IsNoNotation, IsNotation};
ghost use Rattle.written_values.specs.declared.written.ValueTextFault.TheVariants.{Memory};

use crate::law::{lemma_one_notation, lemma_wrong_texts_are_none};
use limits::MAX_NESTING;
use notation::law::{lemma_lexed_tokens, lemma_values_are_read};
use notation::reading::value;
use notation::refused::unexpected;
use notation::{ReadError, SyntaxFault, ValueSyntax};
use std::alloc::Global;
use text::{LexFault, Token};
use thiserror::Error;

/// Why a text is no notation of a value, and where in the text.
#[derive(Debug, Drop, Error)]
pub enum ValueTextFault {
    /// An allocation failed.
    #[error("1 Memory: out of memory")]
    Memory,
    /// The text has no tokens (X.680, clause 12). The place is that of an octet, from 0.
    #[error("{0}")]
    Octets(LexFault),
    /// The tokens are not those of one value (X.680, clause 17). The place is that of a token, from 0. The number of
    /// tokens is the place of their end.
    #[error("{0}")]
    Tokens(SyntaxFault),
}

/// The tokens of a text.
fn tokens_of(alloc: Global, text: &[u8]) -> Result<Vec<Token>, ValueTextFault>
    ensures tokens { IfOk result (λ ts. IsLexed text.now ts.items) }
    ensures fault { IfErr result (IsNoNotation text.now) }
{
    match text::lex(alloc, text) {
        Ok(tokens) => Ok(tokens),
        Err(LexFault::Memory) => Err(ValueTextFault::Memory),
        Err(fault) => Err(ValueTextFault::Octets(fault)),
    }
}

/// The value that all tokens of a text are, in order.
fn whole(alloc: Global, text: &[u8], tokens: &[Token]) -> Result<ValueSyntax, SyntaxFault>
    requires { IsLexed text.now tokens.now }
    ensures found { IfOk result (λ v. (values (bounded 128)).Is (tree_of v) (lexemes text.now tokens.now)) }
    ensures fault { IfErr result (IsRightNotationFault values (lexemes text.now tokens.now) 0 (bounded 128)) }
{
    lemma_lexed_tokens();
    lemma_values_are_read();
    match value(alloc, text, tokens, MAX_NESTING) {
        Ok((value, rest)) => {
            if rest.is_empty() {
                Ok(value)
            } else {
                Err(unexpected(tokens, tokens.len() - rest.len()))
            }
        }
        Err(ReadError::Memory) => Err(SyntaxFault::Memory),
        Err(ReadError::Unexpected(left)) => Err(unexpected(tokens, tokens.len() - left)),
        Err(ReadError::Limit(limit, left)) => Err(SyntaxFault::Limit(limit, tokens.len() - left)),
    }
}

/// A fault of the tokens of a text, as one of the text.
fn wrong_tokens(fault: SyntaxFault) -> ValueTextFault
    ensures { (x : List ℕ) (ts : List Token') →
        IsLexed x ts →
        IsRightNotationFault values (lexemes x ts) 0 (bounded 128) fault →
        IsNoNotation x result }
{
    match fault {
        SyntaxFault::Memory => ValueTextFault::Memory,
        fault => ValueTextFault::Tokens(fault),
    }
}

/// Reads a text as the notation of one value (X.680, clause 17.1). White space and comments may be around it.
///
/// # Errors
/// The error is the first fault, with its place in the text.
/// - [`ValueTextFault::Octets`] if the octets are not those of tokens. These are the faults of [`text::lex`].
/// - [`ValueTextFault::Tokens`] if the tokens are not those of one value. The place is the first token with which no
///   value within the limits can go on, or the end of the tokens. [`SyntaxFault::Limit`]: a value could go on were this
///   one limit higher. [`SyntaxFault::OutOfProfile`]: that token is a word or mark of a construct that this compiler
///   leaves out. [`SyntaxFault::Unexpected`]: none of these.
/// - [`ValueTextFault::Memory`] if an allocation failed.
pub fn parse_value(alloc: Global, text: &[u8]) -> Result<ValueSyntax, ValueTextFault>
    // The result is the notation that the text is.
    ensures found { IfOk result (λ v. IsNotation text.now (tree_of v)) }
    // The notation that a text is is returned, unless an allocation fails.
    ensures only { (n : Tree) →
        IsNotation text.now n →
        MatchResult result (λ v. tree_of v ≡ n) (λ f. f ≡ Memory) }
    // A fault is true, with its place.
    ensures fault { IfErr result (IsNoNotation text.now) }
{
    lemma_one_notation();
    lemma_wrong_texts_are_none();
    let tokens = match tokens_of(alloc, text) {
        Ok(tokens) => tokens,
        Err(fault) => return Err(fault),
    };
    match whole(alloc, text, tokens.as_slice()) {
        Ok(value) => Ok(value),
        Err(fault) => Err(wrong_tokens(fault)),
    }
}
