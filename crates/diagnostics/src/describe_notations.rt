//! The words for a fault in the text of a notation, which the command line has in place of the name of a value.

ghost use Rattle.std.specs.Prelude.{IfOk, string_bytes};
ghost use Rattle.diagnostics.specs.Reports.{SaysInNotation};

use crate::describe_texts::{describe_octets, describe_tokens, found};
use crate::describe_values::describe_value;
use crate::diagnostic::Request;
use crate::locations::{notation_left_out, notation_octet, notation_token};
use crate::placing::{Place, describe_place};
use messages::NotationFault;
use notation::SyntaxFault;
use source_text::{token_text, tokens_in};
use std::alloc::{AllocError, Global};
use suggestions::wanted_in_value;

/// The words for tokens that are not those of one value.
fn describe_value_tokens(
    alloc: Global,
    text: &[u8],
    fault: &SyntaxFault,
) -> Result<String, AllocError> {
    let SyntaxFault::Unexpected(place) = fault else {
        return describe_tokens(alloc, text, fault);
    };
    let tokens = tokens_in(alloc, text)?;
    let mut words = found(alloc, text, tokens.as_slice(), *place)?;
    let spelled = token_text(text, tokens.as_slice(), *place);
    let wanted = wanted_in_value(alloc, tokens.as_slice(), *place, spelled)?;
    words.push_str(wanted.as_str())?;
    Ok(words)
}

/// The words of a fault in the text of a notation.
fn sentence(
    alloc: Global,
    texts: &[Vec<u8>],
    text: &[u8],
    fault: &NotationFault,
) -> Result<String, AllocError> {
    match fault {
        NotationFault::Octets(inner) => {
            let equals = "; a value follows the name of its component without a mark";
            describe_octets(alloc, text, inner, equals)
        }
        NotationFault::Tokens(inner) => describe_value_tokens(alloc, text, inner),
        NotationFault::Value(diagnostic) => {
            let under = ", under the type that was asked for";
            describe_value(alloc, texts, text, diagnostic, under)
        }
    }
}

/// What comes after the number and the name of a fault in the text of a notation: the line and the column in that text,
/// and what was found and expected there. `--notation` is in place of the name of a file.
pub(crate) fn describe_notation(
    alloc: Global,
    request: Request<'_>,
    fault: &NotationFault,
) -> Result<String, AllocError>
    ensures { IfOk result (λ s. SaysInNotation request.entry.notation.now fault.now (string_bytes s)) }
{
    let words = sentence(alloc, request.hints, request.notation, fault)?;
    let place = Place {
        file: "--notation",
        text: request.notation,
        left_out: notation_left_out(fault),
        token: notation_token(fault),
        octet: notation_octet(fault),
    };
    describe_place(alloc, place, words.as_str(), request.context)
}
