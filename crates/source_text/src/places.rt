//! Offsets and tokens in texts.

ghost use Rattle.source_text.specs.Lines.{begins_character, column_at, ends_line, line_at, place_words};
ghost use Rattle.source_text.specs.Modules.{token_start};
ghost use Rattle.source_text.specs.Strings.{IsOfKind, is_in_word, word_at};
ghost use Rattle.std.specs.List.{slice_get, slice_range};
ghost use Rattle.std.specs.Prelude.{
  ◌↔◌,
  IsTrue,
  drop,
  take_while,
  ◌≡◌,
  ◌≤◌,
  ◌<◌,
  ◌⊎◌,
  List,
  Some,
  None,
  [],
  IfOk,
  IsUtf8,
  length,
  string_bytes,
};
ghost use Rattle.text.specs.declared.token.Token.{Token};
ghost use Rattle.text.specs.Text.{IsText, IsWithinLimits};

use expected_tokens::is_same;
use std::alloc::{AllocError, Global};
use text::{LexFault, Token, TokenKind};

/// The octets of a token.
pub fn spelling<'a>(text: &'a [u8], token: Token) -> &'a [u8]
    ensures { token.span.start ≤ token.span.end → token.span.end ≤ length text.now
        → result.now ≡ slice_range text.now token.span.start token.span.end }
{
    text.get(token.start()..token.end()).unwrap_or(&[])
}

/// The spelling of a token; empty after the last token.
pub fn token_text<'a>(text: &'a [u8], tokens: &[Token], place: usize) -> &'a str
    ensures token { (t : Token) → slice_get tokens.now place ≡ Some t
        → t.span.start ≤ t.span.end → t.span.end ≤ length text.now
        → IsUtf8 (slice_range text.now t.span.start t.span.end)
        → result.now ≡ slice_range text.now t.span.start t.span.end }
    ensures after { slice_get tokens.now place ≡ None → result.now ≡ [] }
{
    match tokens.get(place) {
        Some(token) => std::str::from_utf8(spelling(text, *token)).unwrap_or("?"),
        None => "",
    }
}

/// The offset at which a token begins; after the last token, the length of the text.
pub fn start(text: &[u8], tokens: &[Token], place: usize) -> usize
    ensures token { (t : Token) → slice_get tokens.now place ≡ Some t → result ≡ t.span.start }
    ensures after { slice_get tokens.now place ≡ None → result ≡ length text.now }
{
    match tokens.get(place) {
        Some(token) => token.start(),
        None => text.len(),
    }
}

/// Whether a token is of this kind.
fn is_of_kind(token: Token, kind: TokenKind) -> bool
    ensures { IsTrue result ↔ token.kind ≡ kind }
{
    is_same(token.kind, kind)
}

/// Whether the token at a place is of this kind.
#[tactic(auto, using(crate::proofs::Words::kind_there, crate::proofs::Words::kind_after))]
pub fn is_kind(tokens: &[Token], place: usize, kind: TokenKind) -> bool
    ensures { IsTrue result ↔ IsOfKind kind (slice_get tokens.now place) }
{
    match tokens.get(place) {
        Some(token) => is_of_kind(*token, kind),
        None => false,
    }
}

/// The tokens of a text; empty if the text has a fault of its octets.
pub fn tokens_in(alloc: Global, text: &[u8]) -> Result<Vec<Token>, AllocError>
    // A text that has tokens within the limits gives them.
    ensures tokens { (ts : List Token) → IsText text.now ts → IsWithinLimits text.now ts
        → IfOk result (λ found. found.items ≡ ts) }
    // Another text gives none.
    ensures others { IfOk result (λ found. (found.items ≡ [])
        ⊎ (IsText text.now found.items × IsWithinLimits text.now found.items)) }
{
    match text::lex(alloc, text) {
        Ok(tokens) => Ok(tokens),
        Err(LexFault::Memory) => Err(AllocError),
        Err(_) => Ok(Vec::new(alloc)),
    }
}

/// Whether an octet can be in a name or a word.
fn is_in_word(octet: u8) -> bool
    ensures { result ≡ is_in_word octet }
{
    octet.is_ascii_alphanumeric() || octet == b'-'
}

/// The octets before the first that can't be in a name or a word.
fn word_front(octets: &[u8]) -> &[u8]
    ensures { result.now ≡ take_while is_in_word octets.now }
{
    for place in 0..octets.len() {
        if !is_in_word(octets[place]) {
            return &octets[..place];
        }
    }
    octets
}

/// The octets of a text from an offset on.
pub(crate) fn rest_from(text: &[u8], octet: usize) -> &[u8]
    ensures { result.now ≡ drop octet text.now }
{
    text.get(octet..).unwrap_or(&[])
}

/// The name or the word that begins at an offset; empty if none does.
pub fn word_at(text: &[u8], octet: usize) -> &str
    ensures { result.now ≡ word_at text.now octet }
{
    let word = word_front(rest_from(text, octet));
    match std::str::from_utf8(word) {
        Ok(word) => word,
        Err(_) => "",
    }
}

/// Whether a line ends with the octet at an offset: LF, or CR with no LF after it.
fn ends_line_at(text: &[u8], place: usize) -> bool
    requires { place < length text.now }
    ensures { result ≡ ends_line text.now place }
{
    match text[place] {
        b'\n' => true,
        b'\r' => {
            let next = place + 1;
            next >= text.len() || text[next] != b'\n'
        }
        _ => false,
    }
}

/// Whether a character begins with the octet at a place.
fn is_begin(text: &[u8], place: usize) -> bool
    requires { place < length text.now }
    ensures { result ≡ begins_character text.now place }
{
    text[place] < 128 || text[place] >= 192
}

/// The line and the column of an octet, both from 1, the column in characters; those of the end of the text if the
/// octet is after it.
#[tactic(auto, unfolding(crate::specs::Lines::line_of, crate::specs::Lines::column_of))]
pub fn line_and_column(text: &[u8], octet: usize) -> (usize, usize)
    ensures line { result.0 ≡ line_at text.now octet }
    ensures column { result.1 ≡ column_at text.now octet }
{
    let mut line: usize = 1;
    let mut column: usize = 1;
    let end = octet.min(text.len());
    for place in 0..end {
        if ends_line_at(text, place) {
            line = line.saturating_add(1);
            column = 1;
        } else if is_begin(text, place) {
            column = column.saturating_add(1);
        }
    }
    (line, column)
}

/// The line and the column of an octet as a message has them, as `:3:14`.
pub fn place_text(alloc: Global, text: &[u8], octet: usize) -> Result<String, AllocError>
    ensures { IfOk result (λ s. string_bytes s ≡ place_words text.now octet) }
{
    let (line, column) = line_and_column(text, octet);
    format!(in alloc; ":{line}:{column}")
}

/// The offset at which a token of a text begins; after the last token, the length of the text. It is that length also
/// for a text that has a fault of its octets.
pub fn token_octet(alloc: Global, text: &[u8], place: usize) -> Result<usize, AllocError>
    ensures { (ts : List Token) → IsText text.now ts → IsWithinLimits text.now ts
        → IfOk result (λ n. n ≡ token_start text.now ts place) }
{
    let tokens = tokens_in(alloc, text)?;
    Ok(start(text, tokens.as_slice(), place))
}
