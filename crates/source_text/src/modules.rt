//! Texts by the names of their modules.

ghost use Rattle.source_text.specs.Modules.{HasNoText, IsFirstText, IsSpelled, IsTextOfModule};
ghost use Rattle.std.specs.Prelude.{◌↔◌, IfOk, IsTrue, MatchOption, length};
ghost use Rattle.text.specs.Text.{IsSpanWithin};

use crate::places::{spelling, tokens_in};
use std::alloc::{AllocError, Global};
use text::Token;
use text::law::lemma_spans_within;

/// Whether a token is spelled so.
fn is_spelled(text: &[u8], token: Token, name: &str) -> bool
    requires { IsSpanWithin (length text.now) token }
    ensures { IsTrue result ↔ IsSpelled text.now name.now token }
{
    spelling(text, token) == name.as_bytes()
}

/// Whether a text is that of the module with this name: its first token is the name.
#[tactic(auto, using(crate::proofs::Named::first_within, crate::proofs::Named::is_first, crate::proofs::Named::no_first))]
fn is_of_module(alloc: Global, text: &[u8], name: &str) -> Result<bool, AllocError>
    ensures { IfOk result (λ b. IsTrue b ↔ IsTextOfModule name.now text.now) }
{
    lemma_spans_within();
    let tokens = tokens_in(alloc, text)?;
    match tokens.as_slice().first() {
        Some(token) => Ok(is_spelled(text, *token, name)),
        None => Ok(false),
    }
}

/// The number of the first text, from number `from` on, that is that of the module with this name: its first token is
/// the name.
pub fn module_text(
    alloc: Global,
    texts: &[Vec<u8>],
    from: usize,
    name: &str,
) -> Result<Option<usize>, AllocError>
    // It is the first one; None only if there is none.
    ensures { IfOk result (λ found. MatchOption found
        (HasNoText texts.now from name.now)
        (IsFirstText texts.now from name.now)) }
{
    for number in from..texts.len() {
        if is_of_module(alloc, texts[number].as_slice(), name)? {
            return Ok(Some(number));
        }
    }
    Ok(None)
}
