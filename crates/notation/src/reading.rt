//! Reading a value from its first token on.

ghost use Rattle.std.specs.Prelude.{◌≡◌, [], Some, None, MatchOption, ◌-◌, ◌<◌, ◌∷◌, length, IfOk};
ghost use Rattle.text.specs.declared.token.TokenKind.TheVariants as kinds;
ghost use Rattle.grammar.specs.Lexeme.{lexemes, Number};
ghost use Rattle.grammar.specs.Reading.{with_front};
ghost use Rattle.grammar.specs.Places.{small};
ghost use Rattle.trees.specs.Values.{tree_of};
ghost use Rattle.parser_combinators.specs.Reads.{ReadsAs, name_in, number_in};
ghost use Rattle.parser_combinators.specs.Given.{IsTokenIn, AreTokens};
ghost use Rattle.notation.specs.Reading.{negative_at, next_number, numbers_at, two_numbers_at, by_name_at, braced_at, alternative_at, step_at, value_at};

use crate::names::{qualified, unqualified};
use crate::numbers::{negative, positive};
use parser_combinators::decode::{chars_of, digits_of, name_of, small_number};
use parser_combinators::punctuation::closed;
use parser_combinators::{
    CommaList, Limit, Parser, Production, Read, ReadError, WithName, fn_parser,
};
use std::alloc::Global;
use std::marker::PhantomData;
use text::reserved::Word;
use text::{Mark, Token, TokenKind, kind, mark};
use trees::{ValueForm, ValueSyntax};

/// The values, as a production that reads itself again inside.
pub struct Values;

impl Production for Values {
    ghost use Rattle.grammar.specs.Places.{small};
    ghost use Rattle.trees.specs.Values.{Tree as ValueTree, tree_of};
    ghost use Rattle.notation.specs.Reading.{value_at};

    type Tree = ValueSyntax;

    ghost Shape = { ValueTree };

    ghost view = { tree_of };

    ghost reader = { value_at small };
}

/// Reads the number after a minus, whose offset is `at`.
#[tactic(auto, unfolding(crate::specs::Reading::negative_at))]
fn negative_value<'a>(text: &[u8], at: usize, tokens: &'a [Token]) -> Read<'a, ValueSyntax>
    requires tokens { AreTokens text.now tokens.now }
    ensures read { ReadsAs tree_of negative_at text.now tokens.now result }
    ensures rest { IfOk result (λ x. AreTokens text.now x.1.now) }
{
    match tokens {
        [number @ kind!(Number), rest @ ..] => {
            let form = ValueForm::Number(negative(text, *number));
            Ok((ValueSyntax { at, form }, rest))
        }
        _ => Err(ReadError::Unexpected(tokens.len())),
    }
}

/// Reads what comes after an identifier: the value of an alternative, or nothing.
#[tactic(auto, unfolding(crate::specs::Reading::alternative_at))]
#[cycle(value)]
fn alternative<'a>(
    alloc: Global,
    text: &[u8],
    name: Token,
    tokens: &'a [Token],
    depth: usize,
) -> Read<'a, ValueSyntax>
    requires tokens { AreTokens text.now tokens.now }
    requires before { IsTokenIn text.now name }
    requires name { name.kind ≡ kinds.Identifier }
    ensures read { ReadsAs tree_of (alternative_at small depth (value_at small (depth - 1)) (name_in text.now name))
        text.now tokens.now result }
    ensures rest { IfOk result (λ x. AreTokens text.now x.1.now) }
{
    let at = name.start();
    match tokens {
        [mark!(Colon), rest @ ..] => {
            if depth == 0 {
                return Err(ReadError::Limit(Limit::Nesting, tokens.len()));
            }
            let (inner, rest) = value(alloc, text, rest, depth - 1)?;
            let chosen = name_of(alloc, text, name)?;
            let form = ValueForm::Chosen(chosen, Box::new(alloc, inner)?);
            Ok((ValueSyntax { at, form }, rest))
        }
        _ => {
            let form = ValueForm::Reference(unqualified(alloc, text, name)?);
            Ok((ValueSyntax { at, form }, tokens))
        }
    }
}

/// Reads a value, in which `depth` more braces and alternatives may be open.
#[tactic(auto, using(crate::proofs::Loop::value_step))]
#[cycle(value)]
pub fn value<'a>(
    alloc: Global,
    text: &[u8],
    tokens: &'a [Token],
    depth: usize,
) -> Read<'a, ValueSyntax>
    requires tokens { AreTokens text.now tokens.now }
    ensures read { ReadsAs tree_of (value_at small depth) text.now tokens.now result }
    ensures rest { IfOk result (λ x. AreTokens text.now x.1.now) }
{
    step(alloc, text, tokens, depth)
}

#[tactic(auto, unfolding(crate::specs::Reading::step_at))]
#[cycle(value)]
fn step<'a>(alloc: Global, text: &[u8], tokens: &'a [Token], depth: usize) -> Read<'a, ValueSyntax>
    requires tokens { AreTokens text.now tokens.now }
    ensures read { ReadsAs tree_of (step_at small depth (value_at small (depth - 1)))
        text.now tokens.now result }
    ensures rest { IfOk result (λ x. AreTokens text.now x.1.now) }
{
    let [first, rest @ ..] = tokens else {
        return Err(ReadError::Unexpected(0));
    };
    let at = first.start();
    let form = match first.kind {
        TokenKind::Reserved(Word::True) => ValueForm::True,
        TokenKind::Reserved(Word::False) => ValueForm::False,
        TokenKind::Reserved(Word::Null) => ValueForm::Null,
        TokenKind::Number => ValueForm::Number(positive(text, *first, tokens.len())?),
        TokenKind::BinaryString => ValueForm::BinaryString(digits_of(alloc, text, *first)?),
        TokenKind::HexString => ValueForm::HexString(digits_of(alloc, text, *first)?),
        TokenKind::CharacterString => ValueForm::CharacterString(chars_of(alloc, text, *first)?),
        TokenKind::TypeReference => {
            let (name, rest) = qualified(alloc, text, *first, rest)?;
            let form = ValueForm::Reference(name);
            return Ok((ValueSyntax { at, form }, rest));
        }
        TokenKind::Mark(Mark::Minus) => return negative_value(text, at, rest),
        TokenKind::Identifier => return alternative(alloc, text, *first, rest, depth),
        TokenKind::Mark(Mark::OpenBrace) => {
            if depth == 0 {
                return Err(ReadError::Limit(Limit::Nesting, tokens.len()));
            }
            return braced(alloc, text, at, rest, depth - 1);
        }
        _ => return Err(ReadError::Unexpected(tokens.len())),
    };
    Ok((ValueSyntax { at, form }, rest))
}

/// Reads what comes after an open brace, whose offset is `at`.
#[tactic(auto, unfolding(crate::specs::Reading::braced_at, crate::specs::Reading::by_number_at, crate::specs::Reading::by_name_at, crate::specs::Reading::follows_name))]
#[cycle(value)]
fn braced<'a>(
    alloc: Global,
    text: &[u8],
    at: usize,
    tokens: &'a [Token],
    depth: usize,
) -> Read<'a, ValueSyntax>
    requires tokens { AreTokens text.now tokens.now }
    ensures read { ReadsAs tree_of (braced_at small (value_at small depth)) text.now tokens.now result }
    ensures rest { IfOk result (λ x. AreTokens text.now x.1.now) }
{
    match tokens {
        [mark!(CloseBrace), rest @ ..] => {
            let form = ValueForm::Empty;
            Ok((ValueSyntax { at, form }, rest))
        }
        [first @ kind!(Number), second @ kind!(Number), rest @ ..] => {
            let first = small_number(text, *first, tokens.len())?;
            let second = small_number(text, *second, tokens.len() - 1)?;
            two_numbers(alloc, text, at, FirstTwo { first, second }, rest)
        }
        [number @ kind!(Number), ..] => {
            small_number(text, *number, tokens.len())?;
            listed(alloc, text, Braces { at, plain: true }, tokens, depth)
        }
        [kind!(Identifier), mark!(Comma | Colon | CloseBrace), ..] => {
            listed(alloc, text, Braces { at, plain: true }, tokens, depth)
        }
        [kind!(Identifier), ..] => {
            listed(alloc, text, Braces { at, plain: false }, tokens, depth)
        }
        _ => listed(alloc, text, Braces { at, plain: true }, tokens, depth),
    }
}

/// Braces in which values are, plain or each after a name.
#[derive(Clone, Copy)]
struct Braces {
    /// The offset of the open brace in the text.
    at: usize,
    plain: bool,
}

/// Reads values with commas between them, plain or each after a name, and the closing brace after them.
#[tactic(auto, unfolding(crate::specs::Reading::by_name_at, crate::specs::Reading::items_at, crate::specs::Reading::fields_at), using(crate::proofs::Loop::fields_tree, crate::proofs::Loop::value_short))]
#[cycle(value)]
fn listed<'a>(
    alloc: Global,
    text: &[u8],
    braces: Braces,
    tokens: &'a [Token],
    depth: usize,
) -> Read<'a, ValueSyntax>
    requires tokens { AreTokens text.now tokens.now }
    ensures read { ReadsAs tree_of (by_name_at braces.plain (value_at small depth)) text.now tokens.now result }
    ensures rest { IfOk result (λ x. AreTokens text.now x.1.now) }
{
    let part = fn_parser(
        PhantomData::<Values>,
        |ts|
            requires { AreTokens text.now ts.now }
            ensures read { ReadsAs tree_of (value_at small depth) text.entry.now ts.now result }
            ensures rest { IfOk result (λ x. AreTokens text.entry.now x.1.now) }
        { value(alloc, text, ts, depth) },
        depth,
    );
    let at = braces.at;
    if braces.plain {
        let (values, rest) = CommaList { part }.read(alloc, text, tokens)?;
        let rest = closed(text, rest)?;
        let form = ValueForm::Items(values);
        Ok((ValueSyntax { at, form }, rest))
    } else {
        let part = WithName { part };
        let (fields, rest) = CommaList { part }.read(alloc, text, tokens)?;
        let rest = closed(text, rest)?;
        let form = ValueForm::Fields(fields);
        Ok((ValueSyntax { at, form }, rest))
    }
}

/// The number that comes next, and the tokens after it, if one comes.
#[tactic(auto, unfolding(crate::specs::Reading::next_number))]
fn next_number<'a>(text: &[u8], tokens: &'a [Token]) -> Option<(Token, &'a [Token])>
    requires tokens { AreTokens text.now tokens.now }
    ensures { MatchOption result (next_number (lexemes text.now tokens.now) ≡ None)
        (λ x. (lexemes text.now tokens.now ≡ Number (number_in text.now x.0) ∷ lexemes text.now x.1.now)
        × (x.0.kind ≡ kinds.Number) × IsTokenIn text.now x.0
        × AreTokens text.now x.1.now × (length x.1.now < length tokens.now)) }
{
    match tokens {
        [number @ kind!(Number), rest @ ..] => Some((*number, rest)),
        _ => None,
    }
}

/// The first two of several numbers.
#[derive(Clone, Copy)]
struct FirstTwo {
    first: u128,
    second: u128,
}

/// Reads the numbers after the first two, and the closing brace.
#[tactic(auto, unfolding(crate::specs::Reading::two_numbers_at))]
fn two_numbers<'a>(
    alloc: Global,
    text: &[u8],
    at: usize,
    two: FirstTwo,
    tokens: &'a [Token],
) -> Read<'a, ValueSyntax>
    requires tokens { AreTokens text.now tokens.now }
    ensures read { ReadsAs tree_of (two_numbers_at small two.first two.second) text.now tokens.now result }
    ensures rest { IfOk result (λ x. AreTokens text.now x.1.now) }
{
    let (numbers, rest) = numbers(alloc, text, two.first, two.second, tokens)?;
    let rest = closed(text, rest)?;
    let form = ValueForm::Numbers(numbers);
    Ok((ValueSyntax { at, form }, rest))
}

fn numbers<'a>(
    alloc: Global,
    text: &[u8],
    first: u128,
    second: u128,
    tokens: &'a [Token],
) -> Read<'a, Vec<u128>>
    requires tokens { AreTokens text.now tokens.now }
    ensures read { ReadsAs (λ x. x.items) (λ ts. with_front (first ∷ second ∷ []) (numbers_at small ts))
        text.now tokens.now result }
    ensures rest { IfOk result (λ x. AreTokens text.now x.1.now) }
{
    let mut numbers = Vec::new(alloc);
    numbers.push(first)?;
    numbers.push(second)?;
    let mut rest = tokens;
    while let Some((number, after)) = next_number(text, rest) {
        numbers.push(small_number(text, number, rest.len())?)?;
        rest = after;
    }
    Ok((numbers, rest))
}
