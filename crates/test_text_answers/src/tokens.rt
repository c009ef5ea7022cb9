//! Tokens and places, in words.

use crate::pieces::put_octets;
use std::alloc::AllocError;
use text::{Mark, Token, TokenKind};

/// The spelling of a mark.
pub fn mark_text(mark: Mark) -> &'static str {
    match mark {
        Mark::Assign => "::=",
        Mark::Ellipsis => "...",
        Mark::Range => "..",
        Mark::OpenVersion => "[[",
        Mark::CloseVersion => "]]",
        Mark::Dot => ".",
        Mark::Comma => ",",
        Mark::Semicolon => ";",
        Mark::Colon => ":",
        Mark::OpenBrace => "{",
        Mark::CloseBrace => "}",
        Mark::OpenParenthesis => "(",
        Mark::CloseParenthesis => ")",
        Mark::OpenBracket => "[",
        Mark::CloseBracket => "]",
        Mark::Bar => "|",
        Mark::Minus => "-",
        Mark::Caret => "^",
        Mark::Less => "<",
        Mark::Exclamation => "!",
        Mark::At => "@",
        Mark::Ampersand => "&",
    }
}

/// The kind of a token: a mark or a reserved word by its spelling, any other kind in small letters.
fn kind_text(kind: TokenKind) -> &'static str {
    match kind {
        TokenKind::TypeReference => "type",
        TokenKind::Identifier => "name",
        TokenKind::Reserved(word) => word.text(),
        TokenKind::Number => "number",
        TokenKind::CharacterString => "string",
        TokenKind::BinaryString => "binary",
        TokenKind::HexString => "hex",
        TokenKind::Mark(mark) => mark_text(mark),
    }
}

/// Writes a token's octets.
pub fn put_spelling(out: &mut String, text: &[u8], token: Token) -> Result<(), AllocError> {
    match text.get(token.start()..token.end()) {
        Some(octets) => put_octets(out, octets),
        None => out.push_str("nowhere"),
    }
}

/// Writes tokens, or `nothing` if there are none.
pub fn put_tokens(out: &mut String, text: &[u8], tokens: &[Token]) -> Result<(), AllocError> {
    if tokens.is_empty() {
        return out.push_str("nothing");
    }
    let mut mark = "";
    for token in tokens {
        let kind = kind_text(token.kind);
        write!(out, "{mark}{kind} {}..{} ", token.start(), token.end())?;
        put_spelling(out, text, *token)?;
        mark = " | ";
    }
    Ok(())
}
