//! The kinds of tokens that can come next.

ghost use Rattle.std.specs.Prelude.{◌≡◌, ◌⊎◌, ◌↔◌, [], IsTrue, IfOk, List, map, true, false};
ghost use Rattle.text.specs.declared.token.TokenKind.{TokenKind as TokenKind'};
ghost use Rattle.expected_tokens.specs.Leading.{CanFollow, IsOne, kinds_of};
ghost use Rattle.expected_tokens.specs.proving.Next.{AnyGoesOn, GoesOn};

use crate::kinds::ALL;
use crate::stacks::{Stack, after, stacks_after};
use std::alloc::{AllocError, Global};
use text::{Token, TokenKind};

/// Whether there is a stack.
fn is_some_left(stacks: &[Stack]) -> bool
    ensures none { result ≡ false → map (λ s. s.items) stacks.now ≡ [] }
    ensures some { result ≡ true → map (λ s. s.items) stacks.now ≡ [] → ⊥ }
{
    match stacks {
        [_, ..] => true,
        [] => false,
    }
}

/// Whether a token of this kind can come next, by some stacks.
fn goes_on(alloc: Global, stacks: &[Stack], kind: TokenKind) -> Result<bool, AllocError>
    ensures { IfOk result (λ b. IsTrue b ↔ GoesOn (map (λ s. s.items) stacks.now) kind) }
{
    let left = after(alloc, stacks, kind)?;
    Ok(is_some_left(left.as_slice()))
}

/// Appends a kind to others, if a token of it can come next, by some stacks.
fn put_if_goes(
    alloc: Global,
    stacks: &[Stack],
    kind: TokenKind,
    to: Vec<TokenKind>,
) -> Result<Vec<TokenKind>, AllocError>
    ensures { IfOk result (λ v. (k : TokenKind') →
        IsOne v.items k ↔ (IsOne to.items k ⊎ ((kind ≡ k) × GoesOn (map (λ s. s.items) stacks.now) kind))) }
{
    if !goes_on(alloc, stacks, kind)? {
        return Ok(to);
    }
    let mut all = to;
    all.push(kind)?;
    Ok(all)
}

/// Appends to some kinds those of others of which a token can come next, by some stacks.
fn put_those_that_go(
    alloc: Global,
    stacks: &[Stack],
    kinds: &[TokenKind],
    to: Vec<TokenKind>,
) -> Result<Vec<TokenKind>, AllocError>
    ensures { IfOk result (λ v. (k : TokenKind') →
        IsOne v.items k ↔ (IsOne to.items k ⊎ AnyGoesOn (map (λ s. s.items) stacks.now) kinds.now k)) }
{
    match kinds {
        [kind, rest @ ..] => {
            let to = put_if_goes(alloc, stacks, *kind, to)?;
            put_those_that_go(alloc, stacks, rest, to)
        }
        [] => Ok(to),
    }
}

/// Returns the kinds of the tokens that can come next after some tokens in a module's text.
///
/// There are none if a module ends there, or if no module begins with these tokens. The time is linear in the number of
/// tokens, if parts are nested at most as deep as a module allows. `AllocError` comes only if an allocation fails.
pub fn expected(alloc: Global, tokens: &[Token]) -> Result<Vec<TokenKind>, AllocError>
    ensures { IfOk result (λ v. (k : TokenKind') → IsOne v.items k ↔ CanFollow (kinds_of tokens.now) k) }
{
    let stacks = stacks_after(alloc, tokens)?;
    let none = Vec::new(alloc);
    let kinds = put_those_that_go(alloc, stacks.as_slice(), &ALL, none)?;
    Ok(kinds)
}
