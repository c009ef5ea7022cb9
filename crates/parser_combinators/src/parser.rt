//! Readers of productions.

ghost use Rattle.std.specs.Prelude.{◌≡◌, ℕ, List, Bool, IfOk};
ghost use Rattle.grammar.specs.Lexeme.{Lexeme, lexemes};
ghost use Rattle.grammar.specs.Manies.{is_begun_by};
ghost use Rattle.grammar.specs.Reading.{Reader};
ghost use Rattle.grammar.specs.Short.{Short};
ghost use Rattle.parser_combinators.specs.Given.{AreTokens};
ghost use Rattle.parser_combinators.specs.Reads.{ReadsAs};

use crate::read_error::Read;
use std::alloc::Global;
use std::marker::PhantomData;
use text::Token;

/// A production with its reader on lists.
pub trait Production {
    type Tree: Drop;

    ghost Shape: { Type 0 };

    ghost view: { Self.Tree → Shape };

    ghost reader: { ℕ → Reader Shape };
}

/// A reader of one production.
pub trait Parser<'t> {
    type Tree: Drop;

    /// The tree, apart from how memory holds it.
    ghost Shape: { Type 0 };

    ghost view: { Self.Tree → Shape };

    ghost reader: { Self → Reader Shape };

    /// What must hold of the reader and a text before it reads.
    ghost is_ready: { Self → List ℕ → Type 0 };

    ghost is_short: { (s : Self) (x : List ℕ) → is_ready s x → Short (reader s) };

    /// Reads the production from the first of these tokens on.
    fn read(&self, alloc: Global, text: &[u8], tokens: &'t [Token]) -> Read<'t, Self::Tree>
        requires ready { is_ready self.now text.now }
        requires tokens { AreTokens text.now tokens.now }
        ensures read { ReadsAs view (reader self.now) text.now tokens.now result }
        ensures rest { IfOk result (λ x. AreTokens text.now x.1.now) };
}

/// A reader that can decide by the first token whether its production is here.
pub trait PeekParser<'t>: Parser<'t> {
    ghost begins: { Lexeme → Bool };

    fn starts_here(&self, text: &[u8], tokens: &'t [Token]) -> bool
        requires tokens { AreTokens text.now tokens.now }
        ensures { result ≡ is_begun_by begins (lexemes text.now tokens.now) };
}

/// A reader by a function, for a production that contains itself.
#[derive(Drop)]
pub struct FnParser<'t, G: Production, F: Fn(&'t [Token]) -> Read<'t, G::Tree>> {
    f: F,
    depth: usize,
    of: PhantomData<(&'t u8, G)>,
}

/// The function reads the production, if `depth` more parts may be open.
pub fn fn_parser<'t, G: Production, F: Fn(&'t [Token]) -> Read<'t, G::Tree>>(
    _of: PhantomData<G>,
    f: F,
    depth: usize,
) -> FnParser<'t, G, F>
    ensures depth { result.depth ≡ depth }
    ensures f { result.f ≡ f }
{
    FnParser {
        f,
        depth,
        of: PhantomData,
    }
}

impl<'t, G: Production, F: Fn(&'t [Token]) -> Read<'t, G::Tree>> Parser<'t> for FnParser<'t, G, F> {
    ghost use Rattle.std.specs.Prelude.{IfOk};
    ghost use Rattle.grammar.specs.Short.{Short};
    ghost use Rattle.parser_combinators.specs.Given.{AreTokens};
    ghost use Rattle.parser_combinators.specs.Reads.{ReadsAs};

    type Tree = G::Tree;

    ghost Shape = { G.Shape };

    ghost view = { G.view };

    ghost reader = { λ s. G.reader s.depth };

    ghost is_ready = { λ s x. ((ts : _) → AreTokens x ts.now → F.pre s.f ts)
        × ((ts : _) (r : _) → AreTokens x ts.now → F.post s.f ts r
        → ReadsAs G.view (G.reader s.depth) x ts.now r × IfOk r (λ y. AreTokens x y.1.now))
        × Short (G.reader s.depth) };

    ghost is_short = { λ s x r. r.2 };

    fn read(&self, _alloc: Global, _text: &[u8], tokens: &'t [Token]) -> Read<'t, G::Tree> {
        (self.f)(tokens)
    }
}

impl<'t, 'p, P: Parser<'t>> Parser<'t> for &'p P {
    type Tree = P::Tree;

    ghost Shape = { P.Shape };

    ghost view = { P.view };

    ghost reader = { λ s. P.reader s.now };

    ghost is_ready = { λ s x. P.is_ready s.now x };

    ghost is_short = { λ s x r. P.is_short s.now x r };

    fn read(&self, alloc: Global, text: &[u8], tokens: &'t [Token]) -> Read<'t, P::Tree> {
        (**self).read(alloc, text, tokens)
    }
}

impl<'t, 'p, P: PeekParser<'t>> PeekParser<'t> for &'p P {
    ghost begins = { P.begins };

    fn starts_here(&self, text: &[u8], tokens: &'t [Token]) -> bool {
        (**self).starts_here(text, tokens)
    }
}
