//! The words for a place in a text: the file, the line and the column.

ghost use Rattle.std.specs.Prelude.{◌≡◌, IfOk, string_bytes};
ghost use Rattle.std.specs.List.{slice_get};
ghost use Rattle.diagnostics.specs.Places.{IsConstruct, IsFileOf, IsOctet, IsTokenStart, SaysAt};
ghost use Rattle.diagnostics.specs.Places.{construct_words, located, text_at};

use crate::describe_texts::shown_token;
use source_text::{context, escaped, line_and_column, on_one_line, start, tokens_in};
use std::alloc::{AllocError, Global};

/// `: FILE:LINE:COLUMN: ` for an octet of a text, `: FILE: ` for none. `file` is shown as it is.
pub(crate) fn located(
    alloc: Global,
    file: &str,
    text: &[u8],
    octet: Option<usize>,
) -> Result<String, AllocError>
    ensures { IfOk result (λ s. string_bytes s ≡ located file.now text.now octet) }
{
    match octet {
        None => format!(in alloc; ": {file}: "),
        Some(octet) => {
            let (line, column) = line_and_column(text, octet);
            format!(in alloc; ": {file}:{line}:{column}: ")
        }
    }
}

/// The offset at which a token of a text begins.
#[tactic(auto, using(crate::proofs::Tokens::start_in))]
pub(crate) fn token_offset(alloc: Global, text: &[u8], place: usize) -> Result<usize, AllocError>
    ensures { IfOk result (λ n. IsTokenStart text.now place n) }
{
    let tokens = tokens_in(alloc, text)?;
    Ok(start(text, tokens.as_slice(), place))
}

/// The octets of a text, by its number; empty if there is none.
pub(crate) fn text_at(texts: &[Vec<u8>], number: usize) -> &[u8]
    ensures { result.now ≡ text_at texts.now number }
{
    match texts.get(number) {
        Some(text) => text.as_slice(),
        None => &[],
    }
}

/// The name of the file of a text, by the text's number, as a message shows it.
pub(crate) fn file_of(alloc: Global, names: &[String], number: usize) -> Result<String, AllocError>
    ensures { IfOk result (λ s. IsFileOf (slice_get names.now number) (string_bytes s)) }
{
    match names.get(number) {
        Some(file) => escaped(alloc, file.as_str()),
        None => String::from_str(alloc, "a text"),
    }
}

/// A construct after the name of its fault: a space and the construct. Empty for an empty one.
fn after_name(alloc: Global, construct: &str) -> Result<String, AllocError>
    ensures { IfOk result (λ s. string_bytes s ≡ construct_words construct.now) }
{
    if construct.is_empty() {
        return Ok(String::new(alloc));
    }
    format!(in alloc; " {construct}")
}

/// What follows the name of a fault: the construct that begins with a token and is left out. Empty for no token.
#[tactic(auto, using(crate::proofs::Tokens::left_out_there, crate::proofs::Tokens::none_left_out))]
fn construct(alloc: Global, text: &[u8], token: Option<usize>) -> Result<String, AllocError>
    ensures { IfOk result (λ s. IsConstruct text.now token (string_bytes s)) }
{
    match token {
        None => Ok(String::new(alloc)),
        Some(place) => {
            let spelled = shown_token(alloc, text, place)?;
            after_name(alloc, spelled.as_str())
        }
    }
}

/// The octet of a text at which something is: at the beginning of a token, or else at an octet, if it is at one.
#[tactic(auto, using(crate::proofs::Found::at_token, crate::proofs::Found::at_octet))]
fn octet_in(
    alloc: Global,
    text: &[u8],
    token: Option<usize>,
    octet: Option<usize>,
) -> Result<Option<usize>, AllocError>
    ensures { IfOk result (λ r. IsOctet text.now token octet r) }
{
    match token {
        Some(place) => Ok(Some(token_offset(alloc, text, place)?)),
        None => Ok(octet),
    }
}

/// A place in a text of a file, as a fault has it: the token with which a construct begins that is left out, if there
/// is one, and the token at which the fault is, or else the octet. `file` is shown as it is.
#[derive(Clone, Copy)]
pub(crate) struct Place<'a> {
    pub(crate) file: &'a str,
    pub(crate) text: &'a [u8],
    pub(crate) left_out: Option<usize>,
    pub(crate) token: Option<usize>,
    pub(crate) octet: Option<usize>,
}

/// What a line says after a place: words on one line. With `is_shown`, that line of the text and a line with a caret
/// follow, for a place at an octet.
fn words_after(
    alloc: Global,
    text: &[u8],
    octet: Option<usize>,
    words: &str,
    is_shown: bool,
) -> Result<String, AllocError> {
    let mut words = on_one_line(alloc, words)?;
    if let Some(octet) = octet {
        if is_shown {
            words.push_str(context(alloc, text, octet)?.as_str())?;
        }
    }
    Ok(words)
}

/// What follows the number and the name of a fault at a place of a text: the construct that is left out, the file, the
/// line and the column, and the words. With `is_shown`, that line of the text follows.
#[tactic(auto, using(crate::proofs::Reporting::placed))]
pub(crate) fn describe_place(
    alloc: Global,
    place: Place<'_>,
    words: &str,
    is_shown: bool,
) -> Result<String, AllocError>
    ensures { IfOk result (λ s. SaysAt place.entry.text.now place.entry.file.now place.entry.left_out
        place.entry.token place.entry.octet (string_bytes s)) }
{
    let construct = construct(alloc, place.text, place.left_out)?;
    let octet = octet_in(alloc, place.text, place.token, place.octet)?;
    let located = located(alloc, place.file, place.text, octet)?;
    let words = words_after(alloc, place.text, octet, words, is_shown)?;
    format!(in alloc; "{construct}{located}{words}")
}
