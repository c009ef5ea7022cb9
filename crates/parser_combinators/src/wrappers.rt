//! Parts in parentheses or braces, parts after a name, and parts that may be absent.

ghost use Rattle.std.specs.Prelude.{◌≡◌};
ghost use Rattle.grammar.specs.Lexeme.{lexemes};
ghost use Rattle.grammar.specs.Manies.{is_begun_by};
ghost use Rattle.grammar.specs.Lists.{is_ident};
ghost use Rattle.grammar.specs.Openings.{is_lbrace};
ghost use Rattle.grammar.specs.Reading.{is_open};
ghost use Rattle.parser_combinators.specs.Given.{AreTokens};

use crate::decode::name_at;
use crate::parser::{Parser, PeekParser};
use crate::punctuation::{close, closed, open};
use crate::read_error::{Limit, Read, ReadError};
use std::alloc::Global;
use text::{Token, kind, mark};
use trees::Named;

/// Whether there is an open parenthesis here.
fn is_opened(text: &[u8], tokens: &[Token]) -> bool
    requires tokens { AreTokens text.now tokens.now }
    ensures { result ≡ is_begun_by is_open (lexemes text.now tokens.now) }
{
    match tokens {
        [mark!(OpenParenthesis), ..] => true,
        _ => false,
    }
}

/// A part in parentheses.
#[derive(Drop)]
pub struct InParens<P> {
    pub part: P,
}

impl<'t, P: Parser<'t>> Parser<'t> for InParens<P> {
    ghost use Rattle.grammar.specs.Reading.{parens_at};
    ghost use Rattle.grammar.specs.Short.{parens_short};

    type Tree = P::Tree;

    ghost Shape = { P.Shape };

    ghost view = { P.view };

    ghost reader = { λ s. parens_at (P.reader s.part) };

    ghost is_ready = { λ s x. P.is_ready s.part x };

    ghost is_short = { λ s x r. parens_short (P.reader s.part) (P.is_short s.part x r) };

    #[tactic(auto, unfolding(grammar::specs::Reading::parens_at))]
    fn read(&self, alloc: Global, text: &[u8], tokens: &'t [Token]) -> Read<'t, P::Tree> {
        let rest = open(text, tokens)?;
        let (tree, rest) = self.part.read(alloc, text, rest)?;
        Ok((tree, close(text, rest)?))
    }
}

impl<'t, P: Parser<'t>> PeekParser<'t> for InParens<P> {
    ghost use Rattle.grammar.specs.Reading.{is_open};

    ghost begins = { is_open };

    fn starts_here(&self, text: &[u8], tokens: &'t [Token]) -> bool {
        is_opened(text, tokens)
    }
}

/// Whether there is an open brace here.
fn is_brace(text: &[u8], tokens: &[Token]) -> bool
    requires tokens { AreTokens text.now tokens.now }
    ensures { result ≡ is_begun_by is_lbrace (lexemes text.now tokens.now) }
{
    matches!(tokens, [mark!(OpenBrace), ..])
}

/// A part in braces, if `depth` more parts may be open.
#[derive(Drop)]
pub struct InBraces<P> {
    pub depth: usize,
    pub part: P,
}

impl<'t, P: Parser<'t>> Parser<'t> for InBraces<P> {
    ghost use Rattle.grammar.specs.Reading.{braces_at};
    ghost use Rattle.grammar.specs.Short.{braces_short};

    type Tree = P::Tree;

    ghost Shape = { P.Shape };

    ghost view = { P.view };

    ghost reader = { λ s. braces_at s.depth (P.reader s.part) };

    ghost is_ready = { λ s x. P.is_ready s.part x };

    ghost is_short = { λ s x r. braces_short (P.reader s.part) (P.is_short s.part x r) s.depth };

    #[tactic(auto, unfolding(grammar::specs::Reading::braces_at, grammar::specs::Reading::inside_at))]
    fn read(&self, alloc: Global, text: &[u8], tokens: &'t [Token]) -> Read<'t, P::Tree> {
        match tokens {
            [mark!(OpenBrace), rest @ ..] => {
                if self.depth == 0 {
                    return Err(ReadError::Limit(Limit::Nesting, tokens.len()));
                }
                let (tree, rest) = self.part.read(alloc, text, rest)?;
                Ok((tree, closed(text, rest)?))
            },
            _ => Err(ReadError::Unexpected(tokens.len())),
        }
    }
}

impl<'t, P: Parser<'t>> PeekParser<'t> for InBraces<P> {
    ghost use Rattle.grammar.specs.Openings.{is_lbrace};

    ghost begins = { is_lbrace };

    fn starts_here(&self, text: &[u8], tokens: &'t [Token]) -> bool {
        is_brace(text, tokens)
    }
}

/// Whether there is an identifier here.
fn is_named(text: &[u8], tokens: &[Token]) -> bool
    requires tokens { AreTokens text.now tokens.now }
    ensures { result ≡ is_begun_by is_ident (lexemes text.now tokens.now) }
{
    matches!(tokens, [kind!(Identifier), ..])
}

/// A part after a name.
#[derive(Drop)]
pub struct WithName<P> {
    pub part: P,
}

impl<'t, P: Parser<'t>> Parser<'t> for WithName<P> {
    ghost use Rattle.std.specs.Prelude.{ℕ, List};
    ghost use Rattle.trees.specs.Values.{name_at};
    ghost use Rattle.grammar.specs.Reading.{named_at};
    ghost use Rattle.grammar.specs.Short.{named_short};

    type Tree = Named<P::Tree>;

    ghost Shape = { List ℕ × P.Shape };

    ghost view = { λ n. (name_at n.name, P.view n.value) };

    ghost reader = { λ s. named_at (P.reader s.part) };

    ghost is_ready = { λ s x. P.is_ready s.part x };

    ghost is_short = { λ s x r. named_short (P.reader s.part) (P.is_short s.part x r) };

    #[tactic(auto, unfolding(grammar::specs::Reading::named_at))]
    fn read(&self, alloc: Global, text: &[u8], tokens: &'t [Token]) -> Read<'t, Named<P::Tree>> {
        match tokens {
            [name @ kind!(Identifier), rest @ ..] => {
                let (value, rest) = self.part.read(alloc, text, rest)?;
                let name = name_at(alloc, text, *name)?;
                Ok((Named { name, value }, rest))
            },
            _ => Err(ReadError::Unexpected(tokens.len())),
        }
    }
}

impl<'t, P: Parser<'t>> PeekParser<'t> for WithName<P> {
    ghost use Rattle.grammar.specs.Lists.{is_ident};

    ghost begins = { is_ident };

    fn starts_here(&self, text: &[u8], tokens: &'t [Token]) -> bool {
        is_named(text, tokens)
    }
}

/// A part that may be absent.
#[derive(Drop)]
pub struct Optional<P> {
    pub part: P,
}

impl<'t, P: PeekParser<'t>> Parser<'t> for Optional<P> {
    ghost use Rattle.std.specs.Prelude.{Option, option_map};
    ghost use Rattle.grammar.specs.Parts.{perhaps};
    ghost use Rattle.grammar.specs.Short.{optional_short};

    type Tree = Option<P::Tree>;

    ghost Shape = { Option P.Parser.Shape };

    ghost view = { λ o. option_map P.Parser.view o };

    ghost reader = { λ s. perhaps P.begins (P.Parser.reader s.part) };

    ghost is_ready = { λ s x. P.Parser.is_ready s.part x };

    ghost is_short = { λ s x r. optional_short (P.Parser.reader s.part) (P.Parser.is_short s.part x r) P.begins };

    #[tactic(auto, using(crate::proofs::Presence::starts_here, crate::proofs::Presence::is_absent))]
    fn read(&self, alloc: Global, text: &[u8], tokens: &'t [Token]) -> Read<'t, Option<P::Tree>> {
        if self.part.starts_here(text, tokens) {
            let (tree, rest) = self.part.read(alloc, text, tokens)?;
            Ok((Some(tree), rest))
        } else {
            Ok((None, tokens))
        }
    }
}
