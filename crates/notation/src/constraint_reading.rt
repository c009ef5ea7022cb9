//! Reading a constraint from its first token on.

ghost use Rattle.std.specs.Prelude.{◌≡◌, map, option_map, IfOk};
ghost use Rattle.text.specs.declared.token.TokenKind.TheVariants as kinds;
ghost use Rattle.grammar.specs.Places.{small};
ghost use Rattle.trees.specs.Constraints.{end_of, range_of, ranges_of, chars_of, constraint_tree, constraint_of};
ghost use Rattle.parser_combinators.specs.Reads.{ReadsAs, text_in};
ghost use Rattle.parser_combinators.specs.Given.{IsTokenIn, AreTokens};
ghost use Rattle.notation.specs.ConstraintReading.{last_chars_at, more_chars_at, from_at, minus_at, end_at, upper_at, after_min_at, after_end_at, marker_at, ranges_at, size_at, inside_at, constraint_at};

use crate::names::{qualified, unqualified};
use crate::numbers::{negative, positive};
use crate::unions::by_union_mark;
use parser_combinators::decode::chars_of;
use parser_combinators::punctuation::{close, open};
use parser_combinators::{Parser, Read, ReadError};
use std::alloc::{AllocError, Global};
use text::{Mark, Token, TokenKind, kind, mark, word};
use trees::{
    At, CharsSyntax, ConstraintForm, ConstraintSyntax, EndSyntax, RangeSyntax, RangesSyntax,
};

/// The text in quotes that a token is, with its offset.
fn quoted(alloc: Global, text: &[u8], token: Token) -> Result<At<Vec<u8>>, AllocError>
    requires token { IsTokenIn text.now token }
    requires chars { token.kind ≡ kinds.CharacterString }
    ensures { IfOk result (λ c. c.it.items ≡ text_in text.now token) }
{
    Ok(At {
        at: token.start(),
        it: chars_of(alloc, text, token)?,
    })
}

/// Reads the text after `..`.
#[tactic(auto, unfolding(crate::specs::ConstraintReading::last_chars_at))]
fn last_chars<'a>(
    alloc: Global,
    text: &[u8],
    first: Token,
    tokens: &'a [Token],
) -> Read<'a, CharsSyntax>
    requires tokens { AreTokens text.now tokens.now }
    requires before { IsTokenIn text.now first }
    requires chars { first.kind ≡ kinds.CharacterString }
    ensures read { ReadsAs chars_of (last_chars_at (text_in text.now first)) text.now tokens.now result }
    ensures rest { IfOk result (λ x. AreTokens text.now x.1.now) }
{
    match tokens {
        [last @ kind!(CharacterString), rest @ ..] => {
            let first = quoted(alloc, text, first)?;
            let last = Some(quoted(alloc, text, *last)?);
            Ok((CharsSyntax { first, last }, rest))
        }
        _ => Err(ReadError::Unexpected(tokens.len())),
    }
}

/// Reads what comes after a text.
#[tactic(auto, unfolding(crate::specs::ConstraintReading::more_chars_at))]
fn more_chars<'a>(
    alloc: Global,
    text: &[u8],
    first: Token,
    tokens: &'a [Token],
) -> Read<'a, CharsSyntax>
    requires tokens { AreTokens text.now tokens.now }
    requires before { IsTokenIn text.now first }
    requires chars { first.kind ≡ kinds.CharacterString }
    ensures read { ReadsAs chars_of (more_chars_at (text_in text.now first)) text.now tokens.now result }
    ensures rest { IfOk result (λ x. AreTokens text.now x.1.now) }
{
    match tokens {
        [mark!(Range), rest @ ..] => last_chars(alloc, text, first, rest),
        _ => {
            let first = quoted(alloc, text, first)?;
            Ok((CharsSyntax { first, last: None }, tokens))
        }
    }
}

/// A text or a range of characters, as a part of a union.
struct OneText;

impl<'t> Parser<'t> for OneText {
    ghost use Rattle.std.specs.Prelude.{List, ℕ, Option};
    ghost use Rattle.trees.specs.Constraints.{chars_of};
    ghost use Rattle.notation.specs.ConstraintReading.{chars_at};
    ghost use Rattle.grammar.specs.Short.{Short};

    type Tree = CharsSyntax;

    ghost Shape = { List ℕ × Option (List ℕ) };

    ghost view = { chars_of };

    ghost reader = { λ s. chars_at };

    ghost is_ready = { λ s x. Short chars_at };

    ghost is_short = { λ s x r. r };

    #[tactic(auto, unfolding(crate::specs::ConstraintReading::chars_at))]
    fn read(&self, alloc: Global, text: &[u8], tokens: &'t [Token]) -> Read<'t, CharsSyntax> {
        match tokens {
            [first @ kind!(CharacterString), rest @ ..] => more_chars(alloc, text, *first, rest),
            _ => Err(ReadError::Unexpected(tokens.len())),
        }
    }
}

/// Reads `FROM` and the characters after it.
#[tactic(auto, unfolding(crate::specs::ConstraintReading::from_at, grammar::specs::Reading::parens_at), using(crate::proofs::ConstraintParts::chars_short))]
fn from<'a>(alloc: Global, text: &[u8], tokens: &'a [Token]) -> Read<'a, Vec<CharsSyntax>>
    requires tokens { AreTokens text.now tokens.now }
    ensures read { ReadsAs (λ x. map chars_of x.items) from_at text.now tokens.now result }
    ensures rest { IfOk result (λ x. AreTokens text.now x.1.now) }
{
    match tokens {
        [word!(From), rest @ ..] => {
            let rest = open(text, rest)?;
            let (parts, rest) = by_union_mark(alloc, text, &OneText, rest)?;
            Ok((parts, close(text, rest)?))
        }
        _ => Err(ReadError::Unexpected(tokens.len())),
    }
}

/// Reads the number after a minus, whose offset is `at`.
#[tactic(auto, unfolding(crate::specs::ConstraintReading::minus_at))]
fn negative_end<'a>(text: &[u8], at: usize, tokens: &'a [Token]) -> Read<'a, EndSyntax>
    requires tokens { AreTokens text.now tokens.now }
    ensures read { ReadsAs end_of minus_at text.now tokens.now result }
    ensures rest { IfOk result (λ x. AreTokens text.now x.1.now) }
{
    match tokens {
        [number @ kind!(Number), rest @ ..] => {
            let it = negative(text, *number);
            Ok((EndSyntax::Number(At { at, it }), rest))
        }
        _ => Err(ReadError::Unexpected(tokens.len())),
    }
}

/// Reads an end of a range, or a value alone.
#[tactic(auto, unfolding(crate::specs::ConstraintReading::end_at))]
fn end<'a>(alloc: Global, text: &[u8], tokens: &'a [Token]) -> Read<'a, EndSyntax>
    requires tokens { AreTokens text.now tokens.now }
    ensures read { ReadsAs end_of (end_at small) text.now tokens.now result }
    ensures rest { IfOk result (λ x. AreTokens text.now x.1.now) }
{
    let [first, rest @ ..] = tokens else {
        return Err(ReadError::Unexpected(0));
    };
    let at = first.start();
    match first.kind {
        TokenKind::Number => {
            let it = positive(text, *first, tokens.len())?;
            Ok((EndSyntax::Number(At { at, it }), rest))
        }
        TokenKind::Mark(Mark::Minus) => negative_end(text, at, rest),
        TokenKind::Identifier => {
            let name = unqualified(alloc, text, *first)?;
            Ok((EndSyntax::Reference(name), rest))
        }
        TokenKind::TypeReference => {
            let (name, rest) = qualified(alloc, text, *first, rest)?;
            Ok((EndSyntax::Reference(name), rest))
        }
        _ => Err(ReadError::Unexpected(tokens.len())),
    }
}

/// Reads what comes after `..`.
#[tactic(auto, unfolding(crate::specs::ConstraintReading::upper_at, crate::specs::ConstraintReading::some_end_at))]
fn upper<'a>(alloc: Global, text: &[u8], tokens: &'a [Token]) -> Read<'a, Option<Box<EndSyntax>>>
    requires tokens { AreTokens text.now tokens.now }
    ensures read { ReadsAs (option_map (λ e. end_of e.value)) (upper_at small) text.now tokens.now result }
    ensures rest { IfOk result (λ x. AreTokens text.now x.1.now) }
{
    match tokens {
        [word!(Max), rest @ ..] => Ok((None, rest)),
        _ => {
            let (end, rest) = end(alloc, text, tokens)?;
            Ok((Some(Box::new(alloc, end)?), rest))
        }
    }
}

/// Reads what comes after `MIN`.
#[tactic(auto, unfolding(crate::specs::ConstraintReading::after_min_at))]
fn after_min<'a>(alloc: Global, text: &[u8], tokens: &'a [Token]) -> Read<'a, RangeSyntax>
    requires tokens { AreTokens text.now tokens.now }
    ensures read { ReadsAs range_of (after_min_at small) text.now tokens.now result }
    ensures rest { IfOk result (λ x. AreTokens text.now x.1.now) }
{
    match tokens {
        [mark!(Range), rest @ ..] => {
            let (last, rest) = upper(alloc, text, rest)?;
            Ok((RangeSyntax::Between(None, last), rest))
        }
        _ => Err(ReadError::Unexpected(tokens.len())),
    }
}

/// Reads what comes after an end of a range.
#[tactic(auto, unfolding(crate::specs::ConstraintReading::after_end_at))]
fn after_end<'a>(
    alloc: Global,
    text: &[u8],
    first: EndSyntax,
    tokens: &'a [Token],
) -> Read<'a, RangeSyntax>
    requires tokens { AreTokens text.now tokens.now }
    ensures read { ReadsAs range_of (after_end_at small (end_of first)) text.now tokens.now result }
    ensures rest { IfOk result (λ x. AreTokens text.now x.1.now) }
{
    match tokens {
        [mark!(Range), rest @ ..] => {
            let (last, rest) = upper(alloc, text, rest)?;
            let first = Some(Box::new(alloc, first)?);
            Ok((RangeSyntax::Between(first, last), rest))
        }
        _ => Ok((RangeSyntax::Single(first), tokens)),
    }
}

/// A value or a range, as a part of a union.
struct OneRange;

impl<'t> Parser<'t> for OneRange {
    ghost use Rattle.grammar.specs.Places.{small};
    ghost use Rattle.trees.specs.Constraints.{RangeTree, range_of};
    ghost use Rattle.notation.specs.ConstraintReading.{range_at};
    ghost use Rattle.grammar.specs.Short.{Short};

    type Tree = RangeSyntax;

    ghost Shape = { RangeTree };

    ghost view = { range_of };

    ghost reader = { λ s. range_at small };

    ghost is_ready = { λ s x. Short (range_at small) };

    ghost is_short = { λ s x r. r };

    #[tactic(auto, unfolding(crate::specs::ConstraintReading::range_at, crate::specs::ConstraintReading::single_at))]
    fn read(&self, alloc: Global, text: &[u8], tokens: &'t [Token]) -> Read<'t, RangeSyntax> {
        match tokens {
            [word!(Min), rest @ ..] => after_min(alloc, text, rest),
            _ => {
                let (first, rest) = end(alloc, text, tokens)?;
                after_end(alloc, text, first, rest)
            }
        }
    }
}

/// Reads a comma and an extension marker, `, ...`, if a comma comes next.
#[tactic(auto, unfolding(crate::specs::ConstraintReading::marker_at, crate::specs::ConstraintReading::ellipsis_at))]
fn marker<'a>(text: &[u8], tokens: &'a [Token]) -> Read<'a, bool>
    requires tokens { AreTokens text.now tokens.now }
    ensures read { ReadsAs (λ x. x) marker_at text.now tokens.now result }
    ensures rest { IfOk result (λ x. AreTokens text.now x.1.now) }
{
    match tokens {
        [mark!(Comma), mark!(Ellipsis), rest @ ..] => Ok((true, rest)),
        [mark!(Comma), rest @ ..] => Err(ReadError::Unexpected(rest.len())),
        _ => Ok((false, tokens)),
    }
}

/// Reads values and ranges with `|` or `UNION` between them, and the marker after them.
#[tactic(auto, unfolding(crate::specs::ConstraintReading::ranges_at), using(crate::proofs::ConstraintParts::range_short))]
fn ranges<'a>(alloc: Global, text: &[u8], tokens: &'a [Token]) -> Read<'a, RangesSyntax>
    requires tokens { AreTokens text.now tokens.now }
    ensures read { ReadsAs ranges_of (ranges_at small) text.now tokens.now result }
    ensures rest { IfOk result (λ x. AreTokens text.now x.1.now) }
{
    let (ranges, rest) = by_union_mark(alloc, text, &OneRange, tokens)?;
    let (marker, rest) = marker(text, rest)?;
    Ok((RangesSyntax { ranges, marker }, rest))
}

/// Reads `SIZE` and the sizes after it: the size before `OF`, or what is in the parentheses of a constraint.
#[tactic(auto, unfolding(crate::specs::ConstraintReading::size_at, grammar::specs::Reading::parens_at))]
pub fn size<'a>(alloc: Global, text: &[u8], tokens: &'a [Token]) -> Read<'a, ConstraintSyntax>
    requires tokens { AreTokens text.now tokens.now }
    ensures read { ReadsAs constraint_of (size_at small) text.now tokens.now result }
    ensures rest { IfOk result (λ x. AreTokens text.now x.1.now) }
{
    match tokens {
        [word @ word!(Size), rest @ ..] => {
            let rest = open(text, rest)?;
            let (sizes, rest) = ranges(alloc, text, rest)?;
            let form = ConstraintForm::Size(sizes);
            let at = word.start();
            Ok((ConstraintSyntax { at, form }, close(text, rest)?))
        }
        _ => Err(ReadError::Unexpected(tokens.len())),
    }
}

/// Reads what is in the parentheses of a constraint.
#[tactic(auto, unfolding(crate::specs::ConstraintReading::inside_at, crate::specs::ConstraintReading::from_in_at, crate::specs::ConstraintReading::values_in_at))]
fn inside<'a>(alloc: Global, text: &[u8], tokens: &'a [Token]) -> Read<'a, ConstraintForm>
    requires tokens { AreTokens text.now tokens.now }
    ensures read { ReadsAs constraint_tree (inside_at small) text.now tokens.now result }
    ensures rest { IfOk result (λ x. AreTokens text.now x.1.now) }
{
    match tokens {
        [word!(Size), ..] => {
            let (size, rest) = size(alloc, text, tokens)?;
            Ok((size.form, rest))
        }
        [word!(From), ..] => {
            let (chars, rest) = from(alloc, text, tokens)?;
            Ok((ConstraintForm::From(chars), rest))
        }
        _ => {
            let (ranges, rest) = ranges(alloc, text, tokens)?;
            Ok((ConstraintForm::Values(ranges), rest))
        }
    }
}

/// Reads a constraint.
#[tactic(auto, unfolding(crate::specs::ConstraintReading::constraint_at, grammar::specs::Reading::parens_at, grammar::specs::Reading::open_at))]
pub fn constraint<'a>(alloc: Global, text: &[u8], tokens: &'a [Token]) -> Read<'a, ConstraintSyntax>
    requires tokens { AreTokens text.now tokens.now }
    ensures read { ReadsAs constraint_of (constraint_at small) text.now tokens.now result }
    ensures rest { IfOk result (λ x. AreTokens text.now x.1.now) }
{
    match tokens {
        [first @ mark!(OpenParenthesis), rest @ ..] => {
            let (form, rest) = inside(alloc, text, rest)?;
            let at = first.start();
            let constraint = ConstraintSyntax { at, form };
            Ok((constraint, close(text, rest)?))
        }
        _ => Err(ReadError::Unexpected(tokens.len())),
    }
}
