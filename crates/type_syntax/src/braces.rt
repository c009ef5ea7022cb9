//! Reading what is in the braces of a list of members.

ghost use Rattle.std.specs.Prelude.{◌≡◌, option_map, IfOk};
ghost use Rattle.grammar.specs.Lexeme.{lexemes};
ghost use Rattle.grammar.specs.Manies.{is_begun_by};
ghost use Rattle.grammar.specs.Places.{small};
ghost use Rattle.grammar.specs.Reading.{inside_at, extensible_at, rootless_at, addition_at};
ghost use Rattle.parser_combinators.specs.Given.{Gives, AreTokens};
ghost use Rattle.parser_combinators.specs.Reads.{ReadsAs};
ghost use Rattle.parser_combinators.specs.Parts.{extensible_of, addition_of};
ghost use Rattle.type_syntax.specs.TypeReading.{is_listing, listing_at};

use parser_combinators::punctuation::closed;
use parser_combinators::{
    Addition, AdditionParser, Extensible, ExtensibleList, Parser, Read, RootlessList,
};
use std::alloc::Global;
use text::{Token, kind, mark};

/// Reads parts, at least one before an extension marker, which version brackets may follow.
fn rooted<'t, P: Parser<'t>>(
    alloc: Global,
    text: &[u8],
    part: &P,
    tokens: &'t [Token],
) -> Read<'t, Extensible<P::Tree, Addition<P::Tree>>>
    requires ready { P.is_ready part.now text.now }
    requires tokens { AreTokens text.now tokens.now }
    ensures read { ReadsAs (extensible_of P.view (addition_of P.view))
        (extensible_at (P.reader part.now) (addition_at small (P.reader part.now)))
        text.now tokens.now result }
    ensures rest { IfOk result (λ x. AreTokens text.now x.1.now) }
{
    let addition = AdditionParser { part };
    ExtensibleList { part, addition }.read(alloc, text, tokens)
}

/// Reads parts as `rooted` does, but the marker may come first.
fn rootless<'t, P: Parser<'t>>(
    alloc: Global,
    text: &[u8],
    part: &P,
    tokens: &'t [Token],
) -> Read<'t, Extensible<P::Tree, Addition<P::Tree>>>
    requires ready { P.is_ready part.now text.now }
    requires tokens { AreTokens text.now tokens.now }
    ensures read { ReadsAs (extensible_of P.view (addition_of P.view))
        (rootless_at (P.reader part.now) (addition_at small (P.reader part.now)))
        text.now tokens.now result }
    ensures rest { IfOk result (λ x. AreTokens text.now x.1.now) }
{
    let addition = AdditionParser { part };
    RootlessList { part, addition }.read(alloc, text, tokens)
}

/// Whether the next token begins a list of members.
fn begins(text: &[u8], tokens: &[Token]) -> bool
    ensures { result ≡ is_begun_by is_listing (lexemes text.now tokens.now) }
{
    matches!(tokens, [kind!(Identifier) | mark!(Ellipsis), ..])
}

/// Reads alternatives up to and with the closing brace, with an extension marker among them or not.
#[tactic(auto, unfolding(grammar::specs::Reading::inside_at))]
pub fn alternatives<'t, P: Parser<'t>>(
    alloc: Global,
    text: &[u8],
    part: &P,
    tokens: &'t [Token],
) -> Read<'t, Extensible<P::Tree, Addition<P::Tree>>>
    requires ready { P.is_ready part.now text.now }
    requires tokens { AreTokens text.now tokens.now }
    ensures read { Gives (λ x. (extensible_of P.view (addition_of P.view) x.0, lexemes text.now x.1.now)) result
        (inside_at (extensible_at (P.reader part.now) (addition_at small (P.reader part.now)))
        (lexemes text.now tokens.now)) }
    ensures rest { IfOk result (λ x. AreTokens text.now x.1.now) }
{
    let (list, rest) = rooted(alloc, text, part, tokens)?;
    Ok((list, closed(text, rest)?))
}

/// Reads members, if there are any, with an extension marker among them or not.
#[tactic(auto, using(crate::proofs::Begins::listing_begins, crate::proofs::Begins::no_listing))]
fn listing<'t, P: Parser<'t>>(
    alloc: Global,
    text: &[u8],
    part: &P,
    tokens: &'t [Token],
) -> Read<'t, Option<Extensible<P::Tree, Addition<P::Tree>>>>
    requires ready { P.is_ready part.now text.now }
    requires tokens { AreTokens text.now tokens.now }
    ensures read { Gives
        (λ x. (option_map (λ l. extensible_of P.view (addition_of P.view) l) x.0, lexemes text.now x.1.now))
        result
        (listing_at small (P.reader part.now) (lexemes text.now tokens.now)) }
    ensures rest { IfOk result (λ x. AreTokens text.now x.1.now) }
{
    if begins(text, tokens) {
        let (list, rest) = rootless(alloc, text, part, tokens)?;
        Ok((Some(list), rest))
    } else {
        Ok((None, tokens))
    }
}

/// Reads members up to and with the closing brace, if there are any, with an extension marker among them or not.
#[tactic(auto, unfolding(grammar::specs::Reading::inside_at))]
pub fn members<'t, P: Parser<'t>>(
    alloc: Global,
    text: &[u8],
    part: &P,
    tokens: &'t [Token],
) -> Read<'t, Option<Extensible<P::Tree, Addition<P::Tree>>>>
    requires ready { P.is_ready part.now text.now }
    requires tokens { AreTokens text.now tokens.now }
    ensures read { Gives
        (λ x. (option_map (λ l. extensible_of P.view (addition_of P.view) l) x.0, lexemes text.now x.1.now))
        result
        (inside_at (listing_at small (P.reader part.now)) (lexemes text.now tokens.now)) }
    ensures rest { IfOk result (λ x. AreTokens text.now x.1.now) }
{
    let (list, rest) = listing(alloc, text, part, tokens)?;
    Ok((list, closed(text, rest)?))
}
