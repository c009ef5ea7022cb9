//! Lists of parts with commas between them, with or without an extension marker.

ghost use Rattle.std.specs.Prelude.{◌≡◌, ◌++◌, ◌∷◌, [], map, length, IfOk, OnOk};
ghost use Rattle.grammar.specs.Reading.{with_front, after_commas_at, listed_at, additions_at, more_at, extensible_at, with_root, version_at};
ghost use Rattle.grammar.specs.Places.{small};
ghost use Rattle.parser_combinators.specs.Given.{AreTokens};
ghost use Rattle.parser_combinators.specs.Parts.{extensible_of};
ghost use Rattle.parser_combinators.specs.Reads.{ReadsAs, SkipsAs};

use crate::decode::small_number;
use crate::parser::{Parser, PeekParser};
use crate::punctuation::{close_version, colon, comma, marker};
use crate::read_error::{Read, ReadError};
use std::alloc::{AllocError, Global};
use text::{Token, kind, mark};

/// Adds a part to a list. The list has room for one or for two parts before it has room for more, since most lists are
/// short.
pub fn push_part<T: Drop>(items: &mut Vec<T>, part: T) -> Result<(), AllocError>
    ensures { OnOk result (items.new.items ≡ items.old.items ++ part ∷ []) }
{
    if items.len() == 1 {
        items.reserve_exact(1)?;
    }
    items.push(part)?;
    Ok(())
}

/// Reads the parts after the next commas, and appends them to those that are read. The list has no spare memory in the
/// end, since lists within lists may be as many as the tokens.
fn after_commas<'t, P: Parser<'t>>(
    alloc: Global,
    text: &[u8],
    part: &P,
    items: Vec<P::Tree>,
    tokens: &'t [Token],
) -> Read<'t, Vec<P::Tree>>
    requires ready { P.is_ready part.now text.now }
    requires tokens { AreTokens text.now tokens.now }
    ensures read { ReadsAs (λ v. map P.view v.items)
        (λ ts. with_front (map P.view items.items) (after_commas_at (P.reader part.now) (length ts) ts))
        text.now tokens.now result }
    ensures rest { IfOk result (λ x. AreTokens text.now x.1.now) }
{
    let mut items = items;
    let mut rest = tokens;
    while let Some(after) = comma(text, rest) {
        let (next, after) = part.read(alloc, text, after)?;
        push_part(&mut items, next)?;
        rest = after;
    }
    items.shrink_to_fit();
    Ok((items, rest))
}

/// Reads at least one part, with commas between parts.
#[tactic(auto, unfolding(grammar::specs::Reading::listed_at))]
fn one_or_more<'t, P: Parser<'t>>(
    alloc: Global,
    text: &[u8],
    part: &P,
    tokens: &'t [Token],
) -> Read<'t, Vec<P::Tree>>
    requires ready { P.is_ready part.now text.now }
    requires tokens { AreTokens text.now tokens.now }
    ensures read { ReadsAs (λ v. map P.view v.items) (listed_at (P.reader part.now)) text.now tokens.now result }
    ensures rest { IfOk result (λ x. AreTokens text.now x.1.now) }
{
    let (first, rest) = part.read(alloc, text, tokens)?;
    // Most lists have only one part.
    let mut items = Vec::with_capacity(alloc, 1)?;
    items.push(first)?;
    after_commas(alloc, text, part, items, rest)
}

/// At least one part, with commas between parts.
#[derive(Drop)]
pub struct CommaList<P> {
    pub part: P,
}

impl<'t, P: Parser<'t>> Parser<'t> for CommaList<P> {
    ghost use Rattle.std.specs.Prelude.{List, map};
    ghost use Rattle.grammar.specs.Reading.{listed_at};
    ghost use Rattle.grammar.specs.Short.{listed_short};

    type Tree = Vec<P::Tree>;

    ghost Shape = { List P.Shape };

    ghost view = { λ v. map P.view v.items };

    ghost reader = { λ s. listed_at (P.reader s.part) };

    ghost is_ready = { λ s x. P.is_ready s.part x };

    ghost is_short = { λ s x r. listed_short (P.reader s.part) (P.is_short s.part x r) };

    fn read(&self, alloc: Global, text: &[u8], tokens: &'t [Token]) -> Read<'t, Vec<P::Tree>> {
        one_or_more(alloc, text, &self.part, tokens)
    }
}

/// Parts with commas between them: those before an extension marker, and those after it, if there is one.
#[derive(Drop)]
pub struct Extensible<T, U> {
    pub root: Vec<T>,
    pub additions: Option<Vec<U>>,
}

/// A list that may have one extension marker, after the root, with additions after it.
#[derive(Drop)]
pub struct ExtensibleList<P, Q> {
    pub part: P,
    pub addition: Q,
}

/// Reads the parts after the marker.
#[tactic(auto, unfolding(grammar::specs::Reading::additions_at), using(crate::proofs::Extensions::no_front))]
fn additions<'t, P: Parser<'t>, Q: Parser<'t>>(
    alloc: Global,
    text: &[u8],
    list: &ExtensibleList<P, Q>,
    root: Vec<P::Tree>,
    tokens: &'t [Token],
) -> Read<'t, Extensible<P::Tree, Q::Tree>>
    requires ready { Q.is_ready list.now.addition text.now }
    requires tokens { AreTokens text.now tokens.now }
    ensures read { ReadsAs (extensible_of P.view Q.view)
        (λ ts. with_root (map P.view root.items) (additions_at (Q.reader list.now.addition) ts))
        text.now tokens.now result }
    ensures rest { IfOk result (λ x. AreTokens text.now x.1.now) }
{
    let (additions, rest) = after_commas(alloc, text, &list.addition, Vec::new(alloc), tokens)?;
    Ok((
        Extensible {
            root,
            additions: Some(additions),
        },
        rest,
    ))
}

/// Reads what comes after the parts that are read: more parts, and the marker with its own parts.
fn more<'t, P: Parser<'t>, Q: Parser<'t>>(
    alloc: Global,
    text: &[u8],
    list: &ExtensibleList<P, Q>,
    root: Vec<P::Tree>,
    tokens: &'t [Token],
) -> Read<'t, Extensible<P::Tree, Q::Tree>>
    requires ready { P.is_ready list.now.part text.now }
    requires added { Q.is_ready list.now.addition text.now }
    requires tokens { AreTokens text.now tokens.now }
    ensures read { ReadsAs (extensible_of P.view Q.view)
        (λ ts. with_root (map P.view root.items)
        (more_at (P.reader list.now.part) (Q.reader list.now.addition) (length ts) ts))
        text.now tokens.now result }
    ensures rest { IfOk result (λ x. AreTokens text.now x.1.now) }
{
    let mut root = root;
    let mut rest = tokens;
    while let Some(after) = comma(text, rest) {
        if let Some(after_marker) = marker(text, after) {
            return additions(alloc, text, list, root, after_marker);
        }
        let (next, after) = list.part.read(alloc, text, after)?;
        root.push(next)?;
        rest = after;
    }
    Ok((
        Extensible {
            root,
            additions: None,
        },
        rest,
    ))
}

/// Reads at least one part, and the marker with its own parts.
#[tactic(auto, unfolding(grammar::specs::Reading::extensible_at))]
fn root_first<'t, P: Parser<'t>, Q: Parser<'t>>(
    alloc: Global,
    text: &[u8],
    list: &ExtensibleList<P, Q>,
    tokens: &'t [Token],
) -> Read<'t, Extensible<P::Tree, Q::Tree>>
    requires ready { P.is_ready list.now.part text.now }
    requires added { Q.is_ready list.now.addition text.now }
    requires tokens { AreTokens text.now tokens.now }
    ensures read { ReadsAs (extensible_of P.view Q.view)
        (extensible_at (P.reader list.now.part) (Q.reader list.now.addition))
        text.now tokens.now result }
    ensures rest { IfOk result (λ x. AreTokens text.now x.1.now) }
{
    let (first, rest) = list.part.read(alloc, text, tokens)?;
    let mut root = Vec::new(alloc);
    root.push(first)?;
    more(alloc, text, list, root, rest)
}

impl<'t, P: Parser<'t>, Q: Parser<'t>> Parser<'t> for ExtensibleList<P, Q> {
    ghost use Rattle.std.specs.Prelude.{List, Option};
    ghost use Rattle.grammar.specs.Reading.{extensible_at};
    ghost use Rattle.grammar.specs.Short.{extensible_short};
    ghost use Rattle.parser_combinators.specs.Parts.{extensible_of};

    type Tree = Extensible<P::Tree, Q::Tree>;

    ghost Shape = { List P.Shape × Option (List Q.Shape) };

    ghost view = { λ e. extensible_of P.view Q.view e };

    ghost reader = { λ s. extensible_at (P.reader s.part) (Q.reader s.addition) };

    ghost is_ready = { λ s x. P.is_ready s.part x × Q.is_ready s.addition x };

    ghost is_short = { λ s x r. extensible_short (P.reader s.part) (Q.reader s.addition)
        (P.is_short s.part x r.0) (Q.is_short s.addition x r.1) };

    fn read(
        &self,
        alloc: Global,
        text: &[u8],
        tokens: &'t [Token],
    ) -> Read<'t, Extensible<P::Tree, Q::Tree>> {
        root_first(alloc, text, self, tokens)
    }
}

/// A list that may have one extension marker, after the root or at the start, with additions after it.
#[derive(Drop)]
pub struct RootlessList<P, Q> {
    pub part: P,
    pub addition: Q,
}

impl<'t, P: Parser<'t>, Q: Parser<'t>> Parser<'t> for RootlessList<P, Q> {
    ghost use Rattle.std.specs.Prelude.{List, Option};
    ghost use Rattle.grammar.specs.Reading.{rootless_at};
    ghost use Rattle.grammar.specs.Short.{rootless_short};
    ghost use Rattle.parser_combinators.specs.Parts.{extensible_of};

    type Tree = Extensible<P::Tree, Q::Tree>;

    ghost Shape = { List P.Shape × Option (List Q.Shape) };

    ghost view = { λ e. extensible_of P.view Q.view e };

    ghost reader = { λ s. rootless_at (P.reader s.part) (Q.reader s.addition) };

    ghost is_ready = { λ s x. P.is_ready s.part x × Q.is_ready s.addition x };

    ghost is_short = { λ s x r. rootless_short (P.reader s.part) (Q.reader s.addition)
        (P.is_short s.part x r.0) (Q.is_short s.addition x r.1) };

    #[tactic(auto, using(crate::proofs::Extensions::marker_first, crate::proofs::Extensions::no_marker))]
    fn read(
        &self,
        alloc: Global,
        text: &[u8],
        tokens: &'t [Token],
    ) -> Read<'t, Extensible<P::Tree, Q::Tree>> {
        let list = ExtensibleList {
            part: &self.part,
            addition: &self.addition,
        };
        match marker(text, tokens) {
            Some(after_marker) => additions(alloc, text, &list, Vec::new(alloc), after_marker),
            None => root_first(alloc, text, &list, tokens),
        }
    }
}

impl<'t, P: PeekParser<'t>, Q: Parser<'t>> PeekParser<'t> for RootlessList<P, Q> {
    ghost use Rattle.grammar.specs.Lexemes.{is_ellipsis};
    ghost use Rattle.grammar.specs.Rules.{either};

    ghost begins = { either is_ellipsis P.begins };

    #[tactic(auto, using(crate::proofs::Extensions::marker_begins, crate::proofs::Extensions::part_begins))]
    fn starts_here(&self, text: &[u8], tokens: &'t [Token]) -> bool {
        match marker(text, tokens) {
            Some(_) => true,
            None => self.part.starts_here(text, tokens),
        }
    }
}

/// A part, or parts in version brackets.
#[derive(Drop)]
pub enum Addition<T> {
    Alone(T),
    Bracket(Vec<T>),
}

/// The tokens after the number of version brackets and its colon, if they are there.
#[tactic(auto, unfolding(grammar::specs::Reading::version_at))]
fn version<'t>(text: &[u8], tokens: &'t [Token]) -> Result<&'t [Token], ReadError>
    requires tokens { AreTokens text.now tokens.now }
    ensures read { SkipsAs (version_at small) text.now tokens.now result }
    ensures rest { IfOk result (λ x. AreTokens text.now x.now) }
{
    match tokens {
        [number @ kind!(Number), rest @ ..] => {
            small_number(text, *number, tokens.len())?;
            colon(text, rest)
        },
        _ => Ok(tokens),
    }
}

/// A part, or at least one part in version brackets (X.680, clause 25.1).
#[derive(Drop)]
pub struct AdditionParser<P> {
    pub part: P,
}

impl<'t, P: Parser<'t>> Parser<'t> for AdditionParser<P> {
    ghost use Rattle.std.specs.Prelude.{◌⊎◌, List};
    ghost use Rattle.grammar.specs.Places.{small};
    ghost use Rattle.grammar.specs.Reading.{addition_at};
    ghost use Rattle.grammar.specs.Short.{addition_short};
    ghost use Rattle.parser_combinators.specs.Parts.{addition_of};

    type Tree = Addition<P::Tree>;

    ghost Shape = { P.Shape ⊎ List P.Shape };

    ghost view = { λ a. addition_of P.view a };

    ghost reader = { λ s. addition_at small (P.reader s.part) };

    ghost is_ready = { λ s x. P.is_ready s.part x };

    ghost is_short = { λ s x r. addition_short (P.reader s.part) (P.is_short s.part x r) small };

    #[tactic(auto, unfolding(grammar::specs::Reading::addition_at, grammar::specs::Reading::version_parts_at))]
    fn read(&self, alloc: Global, text: &[u8], tokens: &'t [Token]) -> Read<'t, Addition<P::Tree>> {
        match tokens {
            [mark!(OpenVersion), rest @ ..] => {
                let rest = version(text, rest)?;
                let (parts, rest) = one_or_more(alloc, text, &self.part, rest)?;
                Ok((Addition::Bracket(parts), close_version(text, rest)?))
            },
            _ => {
                let (part, rest) = self.part.read(alloc, text, tokens)?;
                Ok((Addition::Alone(part), rest))
            },
        }
    }
}
