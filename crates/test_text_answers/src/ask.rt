//! The answers to rows.

ghost use Rattle.parser_combinators.specs.Given.{IsLexed};

use crate::constraints::put_constraint;
use crate::modules::{put_assignments, put_module};
use crate::pieces::put_octets;
use crate::tokens::{put_spelling, put_tokens};
use crate::values::put_value;
use notation::{SyntaxFault, constraint_at, size_at, value_at};
use row_format::Row;
use std::alloc::{AllocError, Global};
use syntax::parse;
use text::{LexFault, Token};

/// The number after a word of a row, or 0 if there is none.
fn number_after(row: &Row, word: &str) -> usize {
    let mut is_next = false;
    for other in &row.words {
        if is_next {
            return other.as_str().parse::<usize>().unwrap_or(0);
        }
        is_next = other.as_str() == word;
    }
    0
}

/// Writes a fault, and the token at its place.
fn put_fault(
    out: &mut String,
    text: &[u8],
    tokens: &[Token],
    fault: &SyntaxFault,
) -> Result<(), AllocError> {
    write!(out, "{fault}: ")?;
    let place = match fault {
        SyntaxFault::Memory => return Ok(()),
        SyntaxFault::Limit(_, place) => *place,
        SyntaxFault::Unexpected(place) | SyntaxFault::OutOfProfile(place) => *place,
    };
    match tokens.get(place) {
        Some(token) => put_spelling(out, text, *token),
        None => out.push_str("the end"),
    }
}

fn put_value_answer(
    alloc: Global,
    out: &mut String,
    row: &Row,
    text: &[u8],
    tokens: &[Token],
) -> Result<(), AllocError>
    requires { IsLexed text.now tokens.now }
{
    let place = number_after(row, "at");
    let opened = number_after(row, "open");
    if place > tokens.len() || opened > 128 {
        return out.push_str("no such place");
    }
    match value_at(alloc, text, tokens, place, opened) {
        Ok((_, end)) if row.has("brief") => write!(out, "read, to token {end}"),
        Ok((value, end)) => {
            put_value(out, &value)?;
            write!(out, ", to token {end}")
        }
        Err(fault) => put_fault(out, text, tokens, &fault),
    }
}

/// Writes the constraint or the size at the place that a row asks about.
fn put_constraint_answer(
    alloc: Global,
    out: &mut String,
    row: &Row,
    text: &[u8],
    tokens: &[Token],
) -> Result<(), AllocError>
    requires { IsLexed text.now tokens.now }
{
    let place = number_after(row, "at");
    if place > tokens.len() {
        return out.push_str("no such place");
    }
    let found = if row.command() == "size" {
        size_at(alloc, text, tokens, place)
    } else {
        constraint_at(alloc, text, tokens, place)
    };
    match found {
        Ok((constraint, end)) => {
            put_constraint(out, &constraint)?;
            write!(out, ", to token {end}")
        }
        Err(fault) => put_fault(out, text, tokens, &fault),
    }
}

fn put_module_answer(
    alloc: Global,
    out: &mut String,
    row: &Row,
    text: &[u8],
    tokens: &[Token],
) -> Result<(), AllocError>
    requires { IsLexed text.now tokens.now }
{
    match parse(alloc, text, tokens) {
        Ok(_) if row.has("brief") => out.push_str("read"),
        Ok(module) if row.command() == "module" => put_module(out, &module),
        Ok(module) => put_assignments(out, &module.assignments),
        Err(fault) => put_fault(out, text, tokens, &fault),
    }
}

/// The text before and after a row's text in the module that a command asks for.
fn around(command: &str) -> Option<(&'static str, &'static str)> {
    match command {
        "module" => Some(("", "")),
        "type" => Some(("M DEFINITIONS ::= BEGIN T ::= ", " END")),
        "assigned" => Some(("M DEFINITIONS ::= BEGIN v U ::= ", " END")),
        "body" => Some(("M DEFINITIONS ::= BEGIN ", " END")),
        _ => None,
    }
}

/// A text with these texts before and after it.
fn joined(alloc: Global, before: &str, octets: &[u8], after: &str) -> Result<Vec<u8>, AllocError> {
    let mut text = Vec::new(alloc);
    text.extend_from_slice(before.as_bytes())?;
    text.extend_from_slice(octets)?;
    text.extend_from_slice(after.as_bytes())?;
    Ok(text)
}

/// Writes the module of a text.
fn answer_module(
    alloc: Global,
    out: &mut String,
    row: &Row,
    text: &[u8],
) -> Result<(), AllocError> {
    match text::lex(alloc, text) {
        Ok(tokens) => put_module_answer(alloc, out, row, text, &tokens),
        Err(fault) => write!(out, "{fault}"),
    }
}

/// Writes the answer to a row about the tokens of a text.
fn answer_part(alloc: Global, out: &mut String, row: &Row, text: &[u8]) -> Result<(), AllocError> {
    let tokens = match text::lex(alloc, text) {
        Ok(tokens) => tokens,
        Err(fault) => return write!(out, "{fault}"),
    };
    match row.command() {
        "tokens" => put_tokens(out, text, &tokens),
        "value" => put_value_answer(alloc, out, row, text, &tokens),
        "constraint" | "size" => put_constraint_answer(alloc, out, row, text, &tokens),
        _ => out.push_str("no such command"),
    }
}

/// Writes what is printed if an allocation fails.
fn put_memory(out: &mut String, what: &[u8]) -> Result<(), AllocError> {
    if what == b"lexical items".as_slice() {
        write!(out, "{}", LexFault::Memory)
    } else {
        write!(out, "{}", SyntaxFault::Memory)
    }
}

/// Writes the answer to a row about a text.
pub fn put_answer(
    alloc: Global,
    out: &mut String,
    row: &Row,
    octets: &[u8],
) -> Result<(), AllocError> {
    if let Some((before, after)) = around(row.command()) {
        let text = joined(alloc, before, octets, after)?;
        return answer_module(alloc, out, row, &text);
    }
    match row.command() {
        "octets" => put_octets(out, octets),
        "memory" => put_memory(out, octets),
        _ => answer_part(alloc, out, row, octets),
    }
}
