//! The values that the constraints of types leave.

ghost use Rattle.std.specs.Prelude.{◌<◌, length};

use crate::answers;
use crate::linking::type_at;
use crate::marks::{put_range, put_ranges};
use asn_base::constraint::{Bounds, Range};
use asn_base::schema::TypeId;
use constraints::{
    Bounded, allows_character, allows_number, allows_size, alphabet, codes, constraint, range, size,
};
use std::alloc::{AllocError, Global};

/// Adds bounds after a text, if there are some.
fn put_seen(out: &mut String, before: &str, bounds: Option<Bounds>) -> Result<(), AllocError> {
    let Some(bounds) = bounds else {
        return Ok(());
    };
    let range = Range {
        least: bounds.least,
        greatest: bounds.greatest,
    };
    put_range(out, before, range, " to ")?;
    out.push_str(if bounds.extensible { ", ...;" } else { ";" })
}

/// Adds the characters of a string type, or only their number if some of them can't be printed.
fn put_characters(
    alloc: Global,
    out: &mut String,
    bounded: &Bounded<'_>,
    ty: TypeId,
) -> Result<(), AllocError>
    requires { ty.index < length bounded.now.program.types }
{
    let Some(seen) = alphabet(bounded, ty) else {
        return Ok(());
    };
    let count = seen.count();
    let kept = codes(alloc, bounded, ty)?;
    match str::from_utf8(kept.as_slice()) {
        Ok(text) if count < 96 => write!(out, " characters {text};"),
        _ => write!(out, " {count} characters;"),
    }
}

/// Adds what the constraints of a type leave: the bounds that the packed encoding uses, and the allowed values.
fn put_left(
    alloc: Global,
    out: &mut String,
    bounded: &Bounded<'_>,
    ty: TypeId,
) -> Result<(), AllocError>
    requires { ty.index < length bounded.now.program.types }
{
    put_seen(out, " range ", range(bounded, ty))?;
    put_seen(out, " size ", size(bounded, ty))?;
    put_characters(alloc, out, bounded, ty)?;
    let kept = constraint(alloc, bounded, ty)?;
    match &kept.allowed {
        None => out.push_str(" allows all"),
        Some(all) => {
            out.push_str(" allows")?;
            put_ranges(out, all.root())
        }
    }
}

/// Whether the type allows a number, or a size if it isn't an INTEGER.
fn allows(bounded: &Bounded<'_>, ty: TypeId, number: &str) -> bool
    requires { ty.index < length bounded.now.program.types }
{
    match (
        range(bounded, ty),
        number.parse::<i128>(),
        number.parse::<usize>(),
    ) {
        (Some(_), Ok(number), _) => allows_number(bounded, ty, number),
        (None, _, Ok(number)) => allows_size(bounded, ty, number),
        _ => false,
    }
}

/// Whether the type allows each character of a text.
fn allows_text(bounded: &Bounded<'_>, ty: TypeId, text: &str) -> bool
    requires { ty.index < length bounded.now.program.types }
{
    for character in text.chars() {
        if !allows_character(bounded, ty, u32::from(character)) {
            return false;
        }
    }
    true
}

/// The line for a word that asks what the constraints of a type leave.
fn left(alloc: Global, bounded: &Bounded<'_>, word: &str, ty: TypeId) -> Result<String, AllocError>
    requires { ty.index < length bounded.now.program.types }
{
    let mut line = format!(in alloc; "{word}:")?;
    put_left(alloc, &mut line, bounded, ty)?;
    Ok(line)
}

/// The line for `M.T`, `M.T=NUMBER` or `M.T:TEXT`.
pub fn line(alloc: Global, bounded: &Bounded<'_>, word: &str) -> Result<String, AllocError> {
    let (name, number) = match word.split_once('=') {
        Some((name, number)) => (name, Some(number)),
        None => (word, None),
    };
    let (name, text) = match name.split_once(':') {
        Some((name, text)) => (name, Some(text)),
        None => (name, None),
    };
    let Some(ty) = type_at(bounded.linked(), name) else {
        return answers::line(alloc, word, "no type");
    };
    if !bounded.has(ty) {
        return answers::line(alloc, word, "no number of a type");
    }
    let is_allowed = match (number, text) {
        (Some(number), _) => allows(bounded, ty, number),
        (None, Some(text)) => allows_text(bounded, ty, text),
        (None, None) => return left(alloc, bounded, word, ty),
    };
    answers::line(
        alloc,
        word,
        if is_allowed { "allowed" } else { "not allowed" },
    )
}
