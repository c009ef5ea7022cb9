//! The words and marks of constructs that this compiler leaves out.

ghost use Rattle.std.specs.Prelude.{◌≡◌, ℕ, List};
ghost use Rattle.grammar.specs.Lexeme.{lexeme_at, lexemes};
ghost use Rattle.notation.specs.Answer.{is_refused, is_refused_word, is_refused_mark, unexpected};

use crate::syntax_fault::SyntaxFault;
use text::reserved::Word;
use text::{Mark, Token, TokenKind};

fn is_refused_word(word: Word) -> bool
    ensures { result ≡ is_refused_word word }
{
    matches!(
        word,
        Word::Real
            | Word::GeneralizedTime
            | Word::UtcTime
            | Word::External
            | Word::Embedded
            | Word::Character
            | Word::OidIri
            | Word::ObjectDescriptor
            | Word::BmpString
            | Word::UniversalString
            | Word::TeletexString
            | Word::T61String
            | Word::GeneralString
            | Word::GraphicString
            | Word::VideotexString
            | Word::Class
            | Word::TypeIdentifier
            | Word::AbstractSyntax
            | Word::Instance
            | Word::Universal
            | Word::Components
            | Word::With
            | Word::Containing
            | Word::Pattern
            | Word::Includes
            | Word::Intersection
            | Word::Except
            | Word::Extensibility
            | Word::PlusInfinity
            | Word::MinusInfinity
    )
}

fn is_refused_mark(mark: Mark) -> bool
    ensures { result ≡ is_refused_mark mark }
{
    matches!(
        mark,
        Mark::Caret | Mark::Less | Mark::Exclamation | Mark::At | Mark::Ampersand | Mark::Ellipsis
    )
}

fn is_refused(kind: TokenKind) -> bool
    ensures { (x : List ℕ) (i j : ℕ) → result ≡ is_refused (lexeme_at x kind i j) }
{
    match kind {
        TokenKind::Reserved(word) => is_refused_word(word),
        TokenKind::Mark(mark) => is_refused_mark(mark),
        _ => false,
    }
}

/// The fault if the token at a place is the first with which nothing can go on, or if the tokens end there.
pub fn unexpected(tokens: &[Token], place: usize) -> SyntaxFault
    ensures { (x : List ℕ) → result ≡ unexpected (lexemes x tokens.now) place }
{
    match tokens.get(place) {
        Some(token) if is_refused(token.kind) => SyntaxFault::OutOfProfile(place),
        _ => SyntaxFault::Unexpected(place),
    }
}
