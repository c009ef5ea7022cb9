//! The text and the octet at which a fault is.

ghost use Rattle.std.specs.Prelude.{◌≡◌, ◌+◌, ◌<◌, IfOk, option_map, true};
ghost use Rattle.diagnostics.specs.Locations.{module_of};
ghost use Rattle.diagnostics.specs.Places.{IsModuleText, module_in};
ghost use Rattle.diagnostics.specs.Reports.{IsTextOf};
ghost use Rattle.source_text.specs.Modules.{IsFirstText};

use crate::locations::{fault_octet, fault_text, is_second_module, or_first, source_location};
use crate::placing::{text_at, token_offset};
use messages::Fault;
use source_text::{is_kind, module_text, token_text};
use std::alloc::{AllocError, Global};
use text::{Mark, Token, TokenKind};

/// The module's name and the other name in `Module.name`.
pub(crate) fn parts(text: &str) -> (&str, &str)
    ensures { result.0.now ≡ module_in text.now }
{
    match text.split_once('.') {
        Some(parts) => parts,
        None => ("", text),
    }
}

/// Whether tokens assign a name: that of a value if `value` is true, else that of a type.
pub(crate) fn assigns(text: &[u8], tokens: &[Token], name: &str, value: bool) -> bool {
    for place in 0..tokens.len() {
        let next = place.saturating_add(1);
        let is_there = if value {
            is_kind(tokens, place, TokenKind::Identifier) && is_value_assigned(tokens, next)
        } else {
            is_kind(tokens, place, TokenKind::TypeReference)
                && is_kind(tokens, next, TokenKind::Mark(Mark::Assign))
        };
        if is_there && token_text(text, tokens, place) == name {
            return true;
        }
    }
    false
}

/// Whether the mark of an assignment follows the token at a place, which is taken as a type of one word.
fn is_value_assigned(tokens: &[Token], place: usize) -> bool {
    let next = place.saturating_add(1);
    is_kind(tokens, next, TokenKind::Mark(Mark::Assign))
}

/// The number after one of `count` numbers, which are counted from 0.
fn next_number(number: usize, count: usize) -> usize
    requires { number < count }
    ensures { result ≡ number + 1 }
{
    number + 1
}

/// The number of the text in which the name of a module is given again, at an octet: the second text of the module with
/// this name if its first token is there, otherwise the first one, which is given.
#[tactic(auto, using(crate::proofs::Found::number_within))]
fn second_text(
    alloc: Global,
    texts: &[Vec<u8>],
    name: &str,
    first: usize,
    at: usize,
) -> Result<Option<usize>, AllocError>
    requires { IsFirstText texts.now 0 name.now first }
    ensures { IfOk result (λ found. IsModuleText texts.now name.now at true found) }
{
    let after = next_number(first, texts.len());
    match module_text(alloc, texts, after, name)? {
        Some(second) => {
            let start = token_offset(alloc, text_at(texts, second), 0)?;
            if start == at {
                Ok(Some(second))
            } else {
                Ok(Some(first))
            }
        }
        None => Ok(Some(first)),
    }
}

/// The number of the text of the module with this name that has a fault at an octet. If `twice`, the name is given
/// again there: by a second text, or in the first one.
#[tactic(auto, using(crate::proofs::Found::module_none, crate::proofs::Found::module_first, crate::proofs::Found::module_twice))]
fn text_of_module(
    alloc: Global,
    texts: &[Vec<u8>],
    name: &str,
    twice: bool,
    at: usize,
) -> Result<Option<usize>, AllocError>
    ensures { IfOk result (λ found. IsModuleText texts.now name.now at twice found) }
{
    match module_text(alloc, texts, 0, name)? {
        None => Ok(None),
        Some(first) => {
            if twice {
                return second_text(alloc, texts, name, first, at);
            }
            Ok(Some(first))
        }
    }
}

/// The module in whose text a fault is, if the fault doesn't have the number of its text: the one in the fault, or the
/// one that a name of the command line has.
fn module_of(fault: &Fault) -> Option<&str>
    ensures { option_map (λ s. s.now) result ≡ module_of fault.now }
{
    match fault {
        Fault::NoType(name) | Fault::NoNewerType(name) | Fault::NoValue(name) => {
            let (module, _) = parts(name.as_str());
            Some(module)
        }
        other => match source_location(other) {
            Some(source_location) => Some(source_location.module.as_str()),
            None => None,
        },
    }
}

/// The number of the text that contains a fault, if one does.
#[tactic(auto, using(crate::proofs::Found::by_number, crate::proofs::Found::by_module, crate::proofs::Found::by_none))]
pub(crate) fn text_number(
    alloc: Global,
    texts: &[Vec<u8>],
    fault: &Fault,
) -> Result<Option<usize>, AllocError>
    ensures { IfOk result (λ found. IsTextOf texts.now fault.now found) }
{
    match fault_text(fault) {
        Some(number) => Ok(Some(number)),
        None => match module_of(fault) {
            Some(module) => {
                let at = or_first(fault_octet(fault));
                text_of_module(alloc, texts, module, is_second_module(fault), at)
            }
            None => Ok(None),
        },
    }
}
