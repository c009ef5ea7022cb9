//! What can come at a place of a module's text, or of the text of a notation, in words.

ghost use Rattle.std.specs.Prelude.{◌≡◌, IfOk, codes, string_bytes};

use crate::near::is_near;
use expected_tokens::expected;
use std::alloc::{AllocError, Global};
use text::reserved::Word;
use text::{Mark, Span, Token, TokenKind};

/// The number of kinds of tokens with which a type can begin.
const TYPE_KINDS: usize = 19;

/// The number of kinds of tokens with which a value can begin.
const VALUE_KINDS: usize = 11;

/// Whether a type can begin with this word.
fn word_begins_type(word: Word) -> bool {
    match word {
        Word::Boolean | Word::Null | Word::Integer | Word::Enumerated | Word::Bit => true,
        Word::Octet | Word::Object | Word::RelativeOid | Word::Utf8String => true,
        Word::NumericString | Word::PrintableString | Word::Ia5String => true,
        Word::VisibleString | Word::Iso646String => true,
        Word::Sequence | Word::Set | Word::Choice => true,
        _ => false,
    }
}

/// Whether a type can begin with a token of this kind.
fn begins_type(kind: TokenKind) -> bool {
    match kind {
        TokenKind::TypeReference | TokenKind::Mark(Mark::OpenBracket) => true,
        TokenKind::Reserved(word) => word_begins_type(word),
        _ => false,
    }
}

/// Whether a value can begin with a token of this kind.
fn begins_value(kind: TokenKind) -> bool {
    match kind {
        TokenKind::TypeReference | TokenKind::Identifier | TokenKind::Number => true,
        TokenKind::CharacterString | TokenKind::BinaryString | TokenKind::HexString => true,
        TokenKind::Mark(mark) => matches!(mark, Mark::Minus | Mark::OpenBrace),
        TokenKind::Reserved(word) => matches!(word, Word::True | Word::False | Word::Null),
    }
}

/// Whether all kinds of tokens with which a type can begin are among these.
fn is_place_of_type(kinds: &[TokenKind]) -> bool {
    let mut count: usize = 0;
    for kind in kinds {
        if begins_type(*kind) {
            count = count.saturating_add(1);
        }
    }
    count == TYPE_KINDS
}

/// Whether all kinds of tokens with which a value can begin are among these.
fn is_place_of_value(kinds: &[TokenKind]) -> bool {
    let mut count: usize = 0;
    for kind in kinds {
        if begins_value(*kind) {
            count = count.saturating_add(1);
        }
    }
    count == VALUE_KINDS
}

/// The text of a mark.
fn mark_text(mark: Mark) -> &'static str {
    match mark {
        Mark::Assign => "'::='",
        Mark::Ellipsis => "'...'",
        Mark::Range => "'..'",
        Mark::OpenVersion => "'[['",
        Mark::CloseVersion => "']]'",
        Mark::Dot => "'.'",
        Mark::Comma => "','",
        Mark::Semicolon => "';'",
        Mark::Colon => "':'",
        Mark::OpenBrace => "'{'",
        Mark::CloseBrace => "'}'",
        Mark::OpenParenthesis => "'('",
        Mark::CloseParenthesis => "')'",
        Mark::OpenBracket => "'['",
        Mark::CloseBracket => "']'",
        Mark::Bar => "'|'",
        Mark::Minus => "'-'",
        Mark::Caret => "'^'",
        Mark::Less => "'<'",
        Mark::Exclamation => "'!'",
        Mark::At => "'@'",
        Mark::Ampersand => "'&'",
    }
}

/// The name of a kind of token.
fn called(kind: TokenKind) -> &'static str {
    match kind {
        TokenKind::TypeReference => "a type reference",
        TokenKind::Identifier => "an identifier",
        TokenKind::Number => "a number",
        TokenKind::CharacterString => "a string",
        TokenKind::BinaryString => "a binary string",
        TokenKind::HexString => "a hexadecimal string",
        TokenKind::Mark(mark) => mark_text(mark),
        TokenKind::Reserved(word) => word.text(),
    }
}

/// Appends one thing to the words of a list.
fn join(words: &mut String, thing: &str) -> Result<(), AllocError> {
    words.push_str(if words.is_empty() {
        ", expected "
    } else {
        " or "
    })?;
    words.push_str(thing)?;
    Ok(())
}

/// Kinds of tokens in words. If all kinds with which a type or a value can begin are among them, these are named as a
/// type or a value. The other kinds are named one by one.
fn list(alloc: Global, kinds: &[TokenKind]) -> Result<String, AllocError> {
    let mut words = String::new(alloc);
    let types = is_place_of_type(kinds);
    let values = is_place_of_value(kinds);
    if types {
        join(&mut words, "a type")?;
    }
    if values {
        join(&mut words, "a value")?;
    }
    for kind in kinds {
        let is_listed = (types && begins_type(*kind)) || (values && begins_value(*kind));
        if !is_listed {
            join(&mut words, called(*kind))?;
        }
    }
    if words.is_empty() {
        join(
            &mut words,
            "the end of the text, since a text has one module",
        )?;
    }
    Ok(words)
}

/// The word among these kinds that a name is near to, or None.
fn meant(kinds: &[TokenKind], name: &str) -> Option<&'static str> {
    for kind in kinds {
        if let TokenKind::Reserved(word) = *kind {
            let text = word.text();
            if is_near(name.as_bytes(), text.as_bytes()) {
                return Some(text);
            }
        }
    }
    None
}

/// Returns what can come at a place, in words, and what may have been meant by the token there. At the start of a text
/// only the name of a module can come. `AllocError` comes only if an allocation fails.
pub fn wanted(
    alloc: Global,
    tokens: &[Token],
    place: usize,
    found: &str,
) -> Result<String, AllocError>
    ensures front { place ≡ 0
        → IfOk result (λ s. string_bytes s ≡ codes ", expected a module, which begins with its name") }
{
    if place == 0 {
        return String::from_str(alloc, ", expected a module, which begins with its name");
    }
    let front = tokens.get(..place).unwrap_or(tokens);
    let kinds = expected(alloc, front)?;
    let mut words = list(alloc, kinds.as_slice())?;
    if let Some(word) = meant(kinds.as_slice(), found) {
        words.push_str("; did you mean ")?;
        words.push_str(word)?;
        words.push('?')?;
    }
    Ok(words)
}

/// The kinds of the tokens of a module up to the notation of a value, as in `M DEFINITIONS ::= BEGIN v T ::=`.
const BEFORE_VALUE: [TokenKind; 7] = [
    TokenKind::TypeReference,
    TokenKind::Reserved(Word::Definitions),
    TokenKind::Mark(Mark::Assign),
    TokenKind::Reserved(Word::Begin),
    TokenKind::Identifier,
    TokenKind::TypeReference,
    TokenKind::Mark(Mark::Assign),
];

/// Tokens with those of a module before them, up to the notation of a value.
fn in_module(alloc: Global, tokens: &[Token]) -> Result<Vec<Token>, AllocError> {
    let mut all = Vec::new(alloc);
    for kind in &BEFORE_VALUE {
        let span = Span { start: 0, end: 0 };
        all.push(Token { kind: *kind, span })?;
    }
    for token in tokens {
        all.push(*token)?;
    }
    Ok(all)
}

/// Whether a token of this kind comes after a value in a module: the next assignment begins with it, or the module
/// ends.
fn comes_after_value(kind: TokenKind) -> bool {
    matches!(
        kind,
        TokenKind::Identifier | TokenKind::TypeReference | TokenKind::Reserved(Word::End)
    )
}

/// Kinds of tokens after a whole value in words: those that go on with it, and the end of the notation.
fn list_after_value(alloc: Global, kinds: &[TokenKind]) -> Result<String, AllocError> {
    let mut words = String::new(alloc);
    for kind in kinds {
        if !comes_after_value(*kind) {
            join(&mut words, called(*kind))?;
        }
    }
    join(&mut words, "the end of the notation")?;
    Ok(words)
}

/// Returns what can come at a place of the notation of a value that is a text of its own, in words. `AllocError` comes
/// only if an allocation fails.
pub fn wanted_in_value(
    alloc: Global,
    tokens: &[Token],
    place: usize,
    found: &str,
) -> Result<String, AllocError> {
    let front = in_module(alloc, tokens.get(..place).unwrap_or(tokens))?;
    let kinds = expected(alloc, front.as_slice())?;
    if kinds
        .iter()
        .any(|kind| *kind == TokenKind::Reserved(Word::End))
    {
        return list_after_value(alloc, kinds.as_slice());
    }
    let mut words = list(alloc, kinds.as_slice())?;
    if let Some(word) = meant(kinds.as_slice(), found) {
        words.push_str("; did you mean ")?;
        words.push_str(word)?;
        words.push('?')?;
    }
    Ok(words)
}
