//! Faults of names in words.

use crate::describe_texts::LEFT_OUT_ANY;
use crate::request::hint;
use names::{Limit, NameFault};
use source_text::{shown, token_text, tokens_in, word_at};
use std::alloc::{AllocError, Global};
use suggestions::is_small;
use text::Token;
use trees::SourceLocation;

/// The words for a limit that is passed.
fn describe_limit(limit: Limit) -> &'static str {
    match limit {
        Limit::Modules => "found more modules, expected at most 256",
        Limit::Types =>
            "found more types, expected at most 4096 type assignments and 65536 types in them",
        Limit::Values => "found more value assignments, expected at most 65536",
        Limit::Members => "found a longer list, expected at most 256 members and 64 additions",
        Limit::Items => "found more items, expected at most 1024 and 64 additions",
        Limit::NamedBit => "found a greater number of a named bit, expected at most 65535",
        Limit::Integer => "found another number, expected one from -2^127 to 2^127 - 1",
    }
}

/// Words with the name in a fault between them: `found`, a space, `front`, the name, `end`.
fn with_name(
    alloc: Global,
    source_location: &SourceLocation,
    front: &str,
    end: &str,
) -> Result<String, AllocError> {
    let name = shown(alloc, source_location.name.as_str())?;
    format!(in alloc; "found {front}{name}{end}")
}

/// The words for a type that comes back to itself: a list through a DEFAULT in it, or a reference.
fn describe_circle(
    alloc: Global,
    text: &[u8],
    source_location: &SourceLocation,
) -> Result<String, AllocError> {
    match word_at(text, source_location.at) {
        "SEQUENCE" | "SET" => with_name(
            alloc,
            source_location,
            "a list in the type ",
            " to which a DEFAULT in it leads back, expected another DEFAULT",
        ),
        "" => with_name(
            alloc,
            source_location,
            "the type ",
            ", which leads back to itself, expected one that does not",
        ),
        word => {
            let reference = shown(alloc, word)?;
            let name = shown(alloc, source_location.name.as_str())?;
            format!(in alloc;
                "found {reference} in the type {name}, which leads back to itself, expected another type"
            )
        }
    }
}

/// The place of the first token with this spelling from a place on, or None.
fn next_word(text: &[u8], tokens: &[Token], from: usize, word: &str) -> Option<usize> {
    for place in from..tokens.len() {
        if token_text(text, tokens, place) == word {
            return Some(place);
        }
    }
    None
}

/// Whether the name at an octet is in the EXPORTS, which list names that the module assigns itself.
fn is_exported(text: &[u8], tokens: &[Token], octet: usize) -> bool {
    let place = place_of(tokens, octet);
    let Some(begin) = next_word(text, tokens, 0, "EXPORTS") else {
        return false;
    };
    match next_word(text, tokens, begin, ";") {
        Some(end) => begin < place && place < end,
        None => false,
    }
}

/// The module before the dot of a qualified name that begins at an octet, or None if the name there is another one.
fn qualifier<'a>(text: &'a [u8], tokens: &[Token], octet: usize) -> Option<&'a str> {
    let place = place_of(tokens, octet);
    if token_text(text, tokens, place.saturating_add(1)) == "." {
        Some(token_text(text, tokens, place))
    } else {
        None
    }
}

/// The module from which the name at an octet is imported, or None if the name is in no IMPORTS.
fn imported_from<'a>(text: &'a [u8], tokens: &[Token], octet: usize) -> Option<&'a str> {
    let place = place_of(tokens, octet);
    let begin = next_word(text, tokens, 0, "IMPORTS")?;
    let end = next_word(text, tokens, begin, ";")?;
    if place <= begin || end <= place {
        return None;
    }
    let from = next_word(text, tokens, place, "FROM")?;
    Some(token_text(text, tokens, from.saturating_add(1)))
}

/// What may be meant by a name that means nothing in a module: it is a word of older editions, another module assigns
/// it, or it is near to a name or a word.
fn unknown_hint(
    alloc: Global,
    texts: &[Vec<u8>],
    module: &str,
    name: &str,
) -> Result<String, AllocError> {
    if name == "ANY" {
        return String::from_str(alloc, LEFT_OUT_ANY);
    }
    hint(alloc, texts, module, name, is_small(name))
}

/// The words for a name that means nothing.
fn describe_unknown(
    alloc: Global,
    texts: &[Vec<u8>],
    text: &[u8],
    source_location: &SourceLocation,
) -> Result<String, AllocError> {
    let name = shown(alloc, source_location.name.as_str())?;
    let within = source_location.module.as_str();
    let hint = unknown_hint(alloc, texts, within, source_location.name.as_str())?;
    let tokens = tokens_in(alloc, text)?;
    match qualifier(text, &tokens, source_location.at) {
        Some(other) if other != within => {
            let (module, other) = (shown(alloc, within)?, shown(alloc, other)?);
            return format!(in alloc;
                "found {other}.{name}, expected a name that the module {module} imports from {other}"
            );
        }
        _ => {}
    }
    let from = imported_from(text, &tokens, source_location.at);
    let module = shown(alloc, from.unwrap_or(within))?;
    let verb = if from.is_some() || is_exported(text, &tokens, source_location.at) {
        "assigns"
    } else {
        "assigns or imports"
    };
    format!(in alloc; "found {name}, expected a name that the module {module} {verb}{hint}")
}

/// The number of the token that begins at an octet, or the number of tokens if none does.
fn place_of(tokens: &[Token], octet: usize) -> usize {
    tokens
        .iter()
        .position(|token| token.start() == octet)
        .unwrap_or(tokens.len())
}

/// Whether no item before this one has its name in the braces that contain it: going back from `place`, an opening
/// brace comes before the same name.
fn is_alone(text: &[u8], tokens: &[Token], place: usize) -> bool {
    let name = token_text(text, tokens, place);
    let mut depth: usize = 0;
    for back in 1..place.saturating_add(1) {
        let before = place.saturating_sub(back);
        match token_text(text, tokens, before) {
            "}" | ")" | "]" => depth = depth.saturating_add(1),
            "{" if depth == 0 => return true,
            "{" | "(" | "[" => depth = depth.saturating_sub(1),
            spelled if depth == 0 && spelled == name => return false,
            _ => {}
        }
    }
    false
}

/// The words for a name that is given twice, or for a number that is.
fn describe_repeated(
    alloc: Global,
    text: &[u8],
    source_location: &SourceLocation,
) -> Result<String, AllocError> {
    let tokens = tokens_in(alloc, text)?;
    let place = place_of(&tokens, source_location.at);
    let (front, end) = if place < tokens.len() && is_alone(text, &tokens, place) {
        ("the number of ", " a second time, expected another number")
    } else {
        ("the name ", " a second time, expected another name")
    };
    with_name(alloc, source_location, front, end)
}

/// The words for a fault of names.
pub(crate) fn describe_names(
    alloc: Global,
    texts: &[Vec<u8>],
    text: &[u8],
    fault: &NameFault,
) -> Result<String, AllocError> {
    match fault {
        NameFault::Memory => String::from_str(alloc, "out of memory"),
        NameFault::Limit(limit, _) => String::from_str(alloc, describe_limit(*limit)),
        NameFault::Twice(source_location) => describe_repeated(alloc, text, source_location),
        NameFault::UnknownName(source_location) => {
            describe_unknown(alloc, texts, text, source_location)
        }
        NameFault::NotExported(source_location) => with_name(
            alloc,
            source_location,
            "",
            ", which its module does not export, expected an exported name",
        ),
        NameFault::Circular(source_location) => describe_circle(alloc, text, source_location),
        NameFault::UnknownModule(source_location) => with_name(
            alloc,
            source_location,
            "imports from the module ",
            ", expected a text with that module",
        ),
    }
}
