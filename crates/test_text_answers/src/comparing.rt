//! Compares the tokens that can come next in the text of a module by the rules of `expected_tokens` with those that the
//! parser takes.
//!
//! Each text of a row is a module. For each place from the start of the text to its end, and for each kind of token,
//! `compare` compares whether the text can go on with that kind. If the two always agree, the line of the text gives
//! the number of places, and how many kinds can come next at all places together. Otherwise a line before that gives
//! the place, the token, and which of the two takes it.

ghost use Rattle.std.specs.Prelude.{IfOk, map, string_bytes};
ghost use Rattle.row_format.specs.Rows.{IsEntry};

use crate::tokens::mark_text;
use expected_tokens::{ALL, expected};
use notation::SyntaxFault;
use row_format::Row;
use std::alloc::{AllocError, Global};
use syntax::parse;
use text::{LexFault, Token, TokenKind};

/// A spelling of a token of this kind.
fn sample(kind: TokenKind) -> &'static str {
    match kind {
        TokenKind::TypeReference => "Zz",
        TokenKind::Identifier => "zz",
        TokenKind::Number => "5",
        TokenKind::CharacterString => "\"z\"",
        TokenKind::BinaryString => "'1'B",
        TokenKind::HexString => "'F'H",
        TokenKind::Mark(mark) => mark_text(mark),
        TokenKind::Reserved(word) => word.text(),
    }
}

/// Whether the parser can go on with a piece of text after this number of tokens.
fn is_taken(alloc: Global, front: &[u8], tokens: usize, piece: &str) -> Result<bool, AllocError> {
    let mut text = Vec::new(alloc);
    text.extend_from_slice(front)?;
    text.push(b' ')?;
    text.extend_from_slice(piece.as_bytes())?;
    let lexed = match text::lex(alloc, text.as_slice()) {
        Ok(lexed) => lexed,
        Err(LexFault::Memory) => return Err(AllocError),
        Err(_) => return Ok(false),
    };
    match parse(alloc, text.as_slice(), lexed.as_slice()) {
        Ok(_) => Ok(true),
        Err(SyntaxFault::Memory) => Err(AllocError),
        Err(SyntaxFault::Unexpected(place)) => Ok(place > tokens),
        Err(_) => Ok(false),
    }
}

/// Whether a kind is in the list.
fn is_among(kinds: &[TokenKind], kind: TokenKind) -> bool {
    let wanted = sample(kind);
    for other in kinds {
        if sample(*other) == wanted {
            return true;
        }
    }
    false
}

/// Compares both at a place, and writes a line for each kind that only one of the two takes. The result is how many
/// kinds can come next.
fn compare_at(
    alloc: Global,
    out: &mut String,
    text: &[u8],
    tokens: &[Token],
    place: usize,
) -> Result<usize, AllocError> {
    let before = tokens.get(..place).unwrap_or(tokens);
    let end = match before.last() {
        Some(token) => token.end(),
        None => 0,
    };
    let front = text.get(..end).unwrap_or(text);
    let kinds = expected(alloc, before)?;
    for kind in &ALL {
        let piece = sample(*kind);
        let by_rules = is_among(kinds.as_slice(), *kind);
        let by_parser = is_taken(alloc, front, place, piece)?;
        if by_rules && !by_parser {
            write!(out, "at token {place} {piece} by the rules alone\n")?;
        }
        if by_parser && !by_rules {
            write!(out, "at token {place} {piece} by the parser alone\n")?;
        }
    }
    Ok(kinds.len())
}

/// Compares both at each place of a text, and writes the lines for it.
fn put_comparison(alloc: Global, out: &mut String, text: &[u8]) -> Result<(), AllocError> {
    let tokens = match text::lex(alloc, text) {
        Ok(tokens) => tokens,
        Err(LexFault::Memory) => return Err(AllocError),
        Err(_) => return out.push_str("no tokens\n"),
    };
    let mut count: usize = 0;
    let places = tokens.len().saturating_add(1);
    for place in 0..places {
        let kinds = compare_at(alloc, out, text, tokens.as_slice(), place)?;
        count = count.saturating_add(kinds);
    }
    write!(out, "{places} places, {count} kinds\n")
}

/// The entry of a row: its title, and below it what the comparison of each of its texts says.
pub fn compare(alloc: Global, row: &Row) -> Result<String, AllocError>
    ensures { IfOk result (λ s. IsEntry (map string_bytes row.now.words.items) (string_bytes s)) }
{
    let mut lines = String::new(alloc);
    for text in &row.texts {
        put_comparison(alloc, &mut lines, text.octets.as_slice())?;
    }
    row.entry(alloc, lines.as_str())
}
