//! The words for names of the command line that mean nothing, and for files that can't be read.

ghost use Rattle.std.specs.Prelude.{◌≡◌, IfOk, string_bytes};
ghost use Rattle.diagnostics.specs.Places.{SaysAccount, stop_words};

use crate::finding::{assigns, parts};
use account_text::Stop;
use source_text::{escaped, module_text, shown, token_text, tokens_in};
use std::alloc::{AllocError, Global};
use suggestions::{did_you_mean, is_near, is_small};
use text::reserved::Word;

/// The words for a file that can't be read.
pub(crate) fn describe_file(alloc: Global, name: &str, what: &str) -> Result<String, AllocError> {
    if name.is_empty() {
        return format!(in alloc; "a file whose name is empty {what}");
    }
    let name = escaped(alloc, name)?;
    format!(in alloc; "{name} {what}")
}

/// The words for a text that stops being an account: where it does, and what was found and expected there.
fn describe_stop(alloc: Global, stop: &Stop) -> Result<String, AllocError>
    ensures { IfOk result (λ s. string_bytes s ≡ stop_words stop.now) }
{
    match stop {
        Stop::NotText(octet) => format!(in alloc;
            "at octet {octet}: found octets that are not UTF-8, expected text in JSON"
        ),
        Stop::NotArray => {
            String::from_str(
                alloc,
                "at octet 0: found no JSON array, expected an array of rows",
            )
        }
        Stop::NotRow { row, offset } => format!(in alloc;
            "at octet {offset}, in row {row}: found no row, expected a kind and its numbers in an array"
        ),
        Stop::Behind(octet) => format!(in alloc;
            "at octet {octet}: found more text after the rows, expected its end"
        ),
        Stop::NotOne(rows) => format!(in alloc;
            "found rows that are not those of one account, {rows} of them, \
            expected after each row as many members as it says, at most 400 deep"
        ),
    }
}

/// What follows the name of the fault if a file holds no account: `: FILE: ` and the words.
pub(crate) fn describe_account(alloc: Global, name: &str, stop: &Stop) -> Result<String, AllocError>
    ensures { IfOk result (λ s. SaysAccount name.now stop.now (string_bytes s)) }
{
    let file = escaped(alloc, name)?;
    let words = describe_stop(alloc, stop)?;
    format!(in alloc; ": {file}: {words}")
}

/// A question for the first module whose name is near another name: `; did you mean M?`. Empty if there is none.
fn near_module(alloc: Global, texts: &[Vec<u8>], name: &str) -> Result<String, AllocError> {
    for text in texts {
        let tokens = tokens_in(alloc, text.as_slice())?;
        let module = token_text(text.as_slice(), tokens.as_slice(), 0);
        if is_near(name.as_bytes(), module.as_bytes()) {
            let module = shown(alloc, module)?;
            return format!(in alloc; "; did you mean {module}?");
        }
    }
    Ok(String::new(alloc))
}

/// The words for the first module that assigns a name, except for one of this name. Empty if none does.
fn other_module(
    alloc: Global,
    texts: &[Vec<u8>],
    except: &str,
    name: &str,
    value: bool,
) -> Result<String, AllocError> {
    for text in texts {
        let tokens = tokens_in(alloc, text.as_slice())?;
        let module = token_text(text.as_slice(), tokens.as_slice(), 0);
        if module != except && assigns(text.as_slice(), tokens.as_slice(), name, value) {
            let module = shown(alloc, module)?;
            return format!(in alloc; "; the module {module} assigns one");
        }
    }
    Ok(String::new(alloc))
}

/// Whether a name is a word of the notation.
fn is_word(name: &str) -> bool {
    Word::ALL.iter().any(|word| word.text() == name)
}

/// A hint: which module has the name, except for one with the name `except`, or which name may have been meant.
pub(crate) fn hint(
    alloc: Global,
    texts: &[Vec<u8>],
    except: &str,
    name: &str,
    value: bool,
) -> Result<String, AllocError> {
    let other = other_module(alloc, texts, except, name, value)?;
    if !other.is_empty() {
        return Ok(other);
    }
    did_you_mean(alloc, texts, "", name)
}

/// Whether a module assigns a name: that of a value if `value` is true, else that of a type.
fn is_assigned(
    alloc: Global,
    texts: &[Vec<u8>],
    number: usize,
    name: &str,
    value: bool,
) -> Result<bool, AllocError> {
    let Some(text) = texts.get(number) else {
        return Ok(false);
    };
    let tokens = tokens_in(alloc, text.as_slice())?;
    Ok(assigns(text.as_slice(), tokens.as_slice(), name, value))
}

/// How a type or a value is named on the command line, for a name that isn't two names.
fn how_named(alloc: Global, name: &str, what: &str, kind: &str) -> Result<String, AllocError> {
    let quoted = if name.is_empty() {
        String::from_str(alloc, "an empty name")?
    } else {
        shown(alloc, name)?
    };
    format!(in alloc; "{quoted} {what}: a {kind} is named as MODULE, a dot, and its name")
}

/// Why a name, `Module.Name`, means nothing; the module is in the text with this number.
fn describe_unknown_in(
    alloc: Global,
    texts: &[Vec<u8>],
    number: usize,
    name: &str,
    value: bool,
) -> Result<String, AllocError> {
    let kind = if value { "value" } else { "type" };
    let (_, simple) = parts(name);
    if is_word(simple) {
        let word = shown(alloc, simple)?;
        return format!(in alloc;
            "{word} is a word of the notation, and not the name of a {kind} that a module assigns"
        );
    }
    let quoted = shown(alloc, name)?;
    if is_assigned(alloc, texts, number, simple, !value)? {
        let other = if value { "type" } else { "value" };
        return format!(in alloc; "{quoted} is the name of a {other}, and not of a {kind}");
    }
    if is_small(simple) != value {
        let letter = if value { "small" } else { "capital" };
        return format!(in alloc;
            "{quoted} can't be the name of a {kind}, which begins with a {letter} letter"
        );
    }
    let hint = hint(alloc, texts, "", simple, value)?;
    format!(in alloc;
        "the module has no {kind} {quoted}: it neither assigns nor imports one of this name{hint}"
    )
}

/// Why a name of the command line, as `Module.Name`, means nothing; `value` is whether it should be the name of a
/// value.
pub(crate) fn describe_unknown_name(
    alloc: Global,
    texts: &[Vec<u8>],
    name: &str,
    value: bool,
) -> Result<String, AllocError> {
    let kind = if value { "value" } else { "type" };
    let (within, simple) = parts(name);
    if within.is_empty() {
        return how_named(alloc, name, "names no module", kind);
    }
    if simple.is_empty() {
        return how_named(alloc, name, "has nothing after the dot", kind);
    }
    match module_text(alloc, texts, 0, within)? {
        Some(number) => describe_unknown_in(alloc, texts, number, name, value),
        None => {
            let quoted = shown(alloc, name)?;
            let module = shown(alloc, within)?;
            let near = near_module(alloc, texts, within)?;
            format!(in alloc; "there is no module {module} for {quoted}{near}")
        }
    }
}
