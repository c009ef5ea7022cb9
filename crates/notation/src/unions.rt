//! Parts with `|` or `UNION` between them.

ghost use Rattle.std.specs.Prelude.{◌≡◌, ◌<◌, Some, None, MatchOption, length, map, IfOk};
ghost use Rattle.grammar.specs.Lexeme.{lexemes};
ghost use Rattle.parser_combinators.specs.Reads.{ReadsAs};
ghost use Rattle.parser_combinators.specs.Given.{AreTokens};
ghost use Rattle.notation.specs.ConstraintReading.{next_union_mark, by_union_mark_at};

use parser_combinators::lists::push_part;
use parser_combinators::{Parser, Read};
use std::alloc::Global;
use text::{Token, mark, word};

/// The tokens after `|` or `UNION`, if one of them is next.
#[tactic(auto, unfolding(crate::specs::ConstraintReading::next_union_mark))]
fn union_mark<'a>(text: &[u8], tokens: &'a [Token]) -> Option<&'a [Token]>
    requires tokens { AreTokens text.now tokens.now }
    ensures { MatchOption result (next_union_mark (lexemes text.now tokens.now) ≡ None)
        (λ x. (next_union_mark (lexemes text.now tokens.now) ≡ Some (lexemes text.now x.now))
        × AreTokens text.now x.now × (length x.now < length tokens.now)) }
{
    match tokens {
        [mark!(Bar) | word!(Union), rest @ ..] => Some(rest),
        _ => None,
    }
}

/// Reads one part or more with `|` or `UNION` between them. The list has no spare memory in the end, since constraints
/// may be nearly as many as the tokens.
pub fn by_union_mark<'t, P: Parser<'t>>(
    alloc: Global,
    text: &[u8],
    part: &P,
    tokens: &'t [Token],
) -> Read<'t, Vec<P::Tree>>
    requires ready { P.is_ready part.now text.now }
    requires tokens { AreTokens text.now tokens.now }
    ensures read { ReadsAs (λ x. map P.view x.items) (by_union_mark_at (P.reader part.now))
        text.now tokens.now result }
    ensures rest { IfOk result (λ x. AreTokens text.now x.1.now) }
{
    let (first, mut rest) = part.read(alloc, text, tokens)?;
    // Most constraints have only one part.
    let mut parts = Vec::with_capacity(alloc, 1)?;
    parts.push(first)?;
    while let Some(after) = union_mark(text, rest) {
        let (next, after) = part.read(alloc, text, after)?;
        push_part(&mut parts, next)?;
        rest = after;
    }
    parts.shrink_to_fit();
    Ok((parts, rest))
}
