//! What can follow the start of a text: each way to read it leaves a stack of parts that stand for the rest.

ghost use Rattle.std.specs.Prelude.{◌≡◌, ◌⊎◌, ◌↔◌, ◌++◌, ◌∷◌, ◌<◌, [], List, length, map};
ghost use Rattle.std.specs.Prelude.{IsTrue, IfOk, MatchOption, true, false};
ghost use Rattle.text.specs.declared.token.TokenKind.{TokenKind as TokenKind'};
ghost use Rattle.expected_tokens.specs.declared.rules.Term.{Term as Term'};
ghost use Rattle.expected_tokens.specs.Rules.{nothing, rules, rule_of};
ghost use Rattle.expected_tokens.specs.Leading.{IsOne, Derives, kinds_of, start_symbol};
ghost use Rattle.expected_tokens.specs.proving.Next.{AnyNext, ByAnyRule, ByRule, DerivesAny, Next, parts_of};

use crate::rules::{Rule, Symbol, Term, rules_of};
use std::alloc::{AllocError, Global};
use text::reserved::Word;
use text::{Mark, Token, TokenKind};

/// The parts that stand for what follows; the next one is first.
pub type Stack = Vec<Term>;

fn is_same_word(one: Word, other: Word) -> bool
    ensures same { result ≡ true → one ≡ other }
    ensures other { result ≡ false → one ≡ other → ⊥ }
{
    one == other
}

fn is_same_mark(one: Mark, other: Mark) -> bool
    ensures same { result ≡ true → one ≡ other }
    ensures other { result ≡ false → one ≡ other → ⊥ }
{
    one == other
}

/// Whether two kinds are the same.
pub fn is_same(one: TokenKind, other: TokenKind) -> bool
    ensures same { result ≡ true → one ≡ other }
    ensures other { result ≡ false → one ≡ other → ⊥ }
{
    match one {
        TokenKind::TypeReference => matches!(other, TokenKind::TypeReference),
        TokenKind::Identifier => matches!(other, TokenKind::Identifier),
        TokenKind::Number => matches!(other, TokenKind::Number),
        TokenKind::CharacterString => matches!(other, TokenKind::CharacterString),
        TokenKind::BinaryString => matches!(other, TokenKind::BinaryString),
        TokenKind::HexString => matches!(other, TokenKind::HexString),
        TokenKind::Reserved(word) => match other {
            TokenKind::Reserved(another) => is_same_word(word, another),
            _ => false,
        },
        TokenKind::Mark(mark) => match other {
            TokenKind::Mark(another) => is_same_mark(mark, another),
            _ => false,
        },
    }
}

/// Whether one of the rules is empty.
fn can_be_absent(rules: &[Rule]) -> bool
    ensures { IsTrue result ↔ IsOne (map rule_of rules.now) nothing }
{
    match rules {
        [rule, rest @ ..] => match *rule {
            Rule::Nothing => true,
            Rule::Begins(_, _) => can_be_absent(rest),
        },
        [] => false,
    }
}

/// A stack of the parts `above` on top of the parts `below`.
fn stacked(alloc: Global, above: &[Term], below: &[Term]) -> Result<Stack, AllocError>
    ensures { IfOk result (λ s. s.items ≡ above.now ++ below.now) }
{
    let mut stack = Vec::new(alloc);
    stack.extend_from_slice(above)?;
    stack.extend_from_slice(below)?;
    Ok(stack)
}

/// Appends to some stacks the one of the parts `above` on top of the parts `below`.
fn put(
    alloc: Global,
    above: &[Term],
    below: &[Term],
    to: Vec<Stack>,
) -> Result<Vec<Stack>, AllocError>
    ensures { IfOk result (λ v. (js : List Term') →
        IsOne (parts_of v) js ↔ (IsOne (parts_of to) js ⊎ (js ≡ above.now ++ below.now))) }
{
    let stack = stacked(alloc, above, below)?;
    let mut all = to;
    all.push(stack)?;
    Ok(all)
}

/// Appends to some stacks the one that a rule leaves after a token of a kind, on top of the parts below.
fn by_rule(
    alloc: Global,
    rule: Rule,
    kind: TokenKind,
    below: &[Term],
    to: Vec<Stack>,
) -> Result<Vec<Stack>, AllocError>
    ensures { IfOk result (λ v. (js : List Term') →
        IsOne (parts_of v) js ↔ (IsOne (parts_of to) js ⊎ ByRule (rule_of rule) kind below.now js)) }
{
    match rule {
        Rule::Nothing => Ok(to),
        Rule::Begins(first, parts) => {
            if is_same(first, kind) {
                put(alloc, parts, below, to)
            } else {
                Ok(to)
            }
        }
    }
}

/// Appends to some stacks those that some rules leave after a token of a kind, on top of the parts below.
fn by_rules(
    alloc: Global,
    rules: &[Rule],
    kind: TokenKind,
    below: &[Term],
    to: Vec<Stack>,
) -> Result<Vec<Stack>, AllocError>
    ensures { IfOk result (λ v. (js : List Term') →
        IsOne (parts_of v) js ↔ (IsOne (parts_of to) js ⊎ ByAnyRule (map rule_of rules.now) kind below.now js)) }
{
    match rules {
        [rule, rest @ ..] => {
            let to = by_rule(alloc, *rule, kind, below, to)?;
            by_rules(alloc, rest, kind, below, to)
        }
        [] => Ok(to),
    }
}

/// Appends to some stacks those that a stack leaves after a token of a kind.
fn next(
    alloc: Global,
    stack: &[Term],
    kind: TokenKind,
    to: Vec<Stack>,
) -> Result<Vec<Stack>, AllocError>
    ensures { IfOk result (λ v. (js : List Term') →
        IsOne (parts_of v) js ↔ (IsOne (parts_of to) js ⊎ Next stack.now kind js)) }
{
    match stack {
        [Term::Is(first), below @ ..] => {
            if is_same(*first, kind) {
                put(alloc, &[], below, to)
            } else {
                Ok(to)
            }
        }
        [Term::Of(symbol), below @ ..] => {
            let rules = rules_of(*symbol);
            let to = by_rules(alloc, rules, kind, below, to)?;
            if can_be_absent(rules) {
                next(alloc, below, kind, to)
            } else {
                Ok(to)
            }
        }
        [] => Ok(to),
    }
}

/// Appends to some stacks those that others leave after a token of a kind.
fn after_each(
    alloc: Global,
    stacks: &[Stack],
    kind: TokenKind,
    to: Vec<Stack>,
) -> Result<Vec<Stack>, AllocError>
    ensures { IfOk result (λ v. (js : List Term') →
        IsOne (parts_of v) js ↔ (IsOne (parts_of to) js ⊎ AnyNext (map (λ s. s.items) stacks.now) kind js)) }
{
    match stacks {
        [stack, rest @ ..] => {
            let to = next(alloc, stack.as_slice(), kind, to)?;
            after_each(alloc, rest, kind, to)
        }
        [] => Ok(to),
    }
}

/// Returns the stacks that some stacks leave after a token of a kind. `AllocError` comes only if an allocation fails.
pub fn after(alloc: Global, stacks: &[Stack], kind: TokenKind) -> Result<Vec<Stack>, AllocError>
    ensures { IfOk result (λ v. (js : List Term') →
        IsOne (parts_of v) js ↔ AnyNext (map (λ s. s.items) stacks.now) kind js) }
{
    after_each(alloc, stacks, kind, Vec::new(alloc))
}

/// The kind of the first token, and the tokens after it, or None if there is no token.
fn first_of(tokens: &[Token]) -> Option<(TokenKind, &[Token])>
    ensures { MatchOption result (kinds_of tokens.now ≡ [])
        (λ x. (kinds_of tokens.now ≡ x.0 ∷ kinds_of x.1.now) × (length x.1.now < length tokens.now)) }
{
    match tokens {
        [token, rest @ ..] => Some((token.kind, rest)),
        [] => None,
    }
}

/// Returns the stacks that a module leaves after some tokens. `AllocError` comes only if an allocation fails.
pub fn stacks_after(alloc: Global, tokens: &[Token]) -> Result<Vec<Stack>, AllocError>
    ensures { IfOk result (λ v. (ts : List TokenKind') (js : List Term') →
        Derives start_symbol (kinds_of tokens.now ++ ts) js ↔ DerivesAny (parts_of v) ts js) }
{
    let mut stacks = Vec::new(alloc);
    stacks.push(stacked(alloc, &[Term::Of(Symbol::Module)], &[])?)?;
    let mut left = tokens;
    while let Some((kind, rest)) = first_of(left) {
        stacks = after(alloc, stacks.as_slice(), kind)?;
        left = rest;
    }
    Ok(stacks)
}
