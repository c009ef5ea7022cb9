//! The kinds of tokens that the rules name.

use text::reserved::Word;
use text::{Mark, TokenKind};

pub(crate) const TYPE_REFERENCE: TokenKind = TokenKind::TypeReference;

pub(crate) const DEFINITIONS_WORD: TokenKind = TokenKind::Reserved(Word::Definitions);

pub(crate) const ASSIGN: TokenKind = TokenKind::Mark(Mark::Assign);

pub(crate) const BEGIN_WORD: TokenKind = TokenKind::Reserved(Word::Begin);

pub(crate) const END_WORD: TokenKind = TokenKind::Reserved(Word::End);

pub(crate) const OPEN_BRACE: TokenKind = TokenKind::Mark(Mark::OpenBrace);

pub(crate) const CLOSE_BRACE: TokenKind = TokenKind::Mark(Mark::CloseBrace);

pub(crate) const NUMBER: TokenKind = TokenKind::Number;

pub(crate) const IDENTIFIER: TokenKind = TokenKind::Identifier;

pub(crate) const OPEN_PARENTHESIS: TokenKind = TokenKind::Mark(Mark::OpenParenthesis);

pub(crate) const CLOSE_PARENTHESIS: TokenKind = TokenKind::Mark(Mark::CloseParenthesis);

pub(crate) const EXPLICIT_WORD: TokenKind = TokenKind::Reserved(Word::Explicit);

pub(crate) const TAGS_WORD: TokenKind = TokenKind::Reserved(Word::Tags);

pub(crate) const IMPLICIT_WORD: TokenKind = TokenKind::Reserved(Word::Implicit);

pub(crate) const AUTOMATIC_WORD: TokenKind = TokenKind::Reserved(Word::Automatic);

pub(crate) const EXPORTS_WORD: TokenKind = TokenKind::Reserved(Word::Exports);

pub(crate) const SEMICOLON: TokenKind = TokenKind::Mark(Mark::Semicolon);

pub(crate) const ALL_WORD: TokenKind = TokenKind::Reserved(Word::All);

pub(crate) const COMMA: TokenKind = TokenKind::Mark(Mark::Comma);

pub(crate) const IMPORTS_WORD: TokenKind = TokenKind::Reserved(Word::Imports);

pub(crate) const FROM_WORD: TokenKind = TokenKind::Reserved(Word::From);

pub(crate) const BOOLEAN_WORD: TokenKind = TokenKind::Reserved(Word::Boolean);

pub(crate) const NULL_WORD: TokenKind = TokenKind::Reserved(Word::Null);

pub(crate) const INTEGER_WORD: TokenKind = TokenKind::Reserved(Word::Integer);

pub(crate) const ENUMERATED_WORD: TokenKind = TokenKind::Reserved(Word::Enumerated);

pub(crate) const BIT_WORD: TokenKind = TokenKind::Reserved(Word::Bit);

pub(crate) const STRING_WORD: TokenKind = TokenKind::Reserved(Word::String);

pub(crate) const OCTET_WORD: TokenKind = TokenKind::Reserved(Word::Octet);

pub(crate) const OBJECT_WORD: TokenKind = TokenKind::Reserved(Word::Object);

pub(crate) const IDENTIFIER_WORD: TokenKind = TokenKind::Reserved(Word::Identifier);

pub(crate) const RELATIVE_OID_WORD: TokenKind = TokenKind::Reserved(Word::RelativeOid);

pub(crate) const UTF8_STRING_WORD: TokenKind = TokenKind::Reserved(Word::Utf8String);

pub(crate) const NUMERIC_STRING_WORD: TokenKind = TokenKind::Reserved(Word::NumericString);

pub(crate) const PRINTABLE_STRING_WORD: TokenKind = TokenKind::Reserved(Word::PrintableString);

pub(crate) const IA5_STRING_WORD: TokenKind = TokenKind::Reserved(Word::Ia5String);

pub(crate) const VISIBLE_STRING_WORD: TokenKind = TokenKind::Reserved(Word::VisibleString);

pub(crate) const ISO646_STRING_WORD: TokenKind = TokenKind::Reserved(Word::Iso646String);

pub(crate) const SEQUENCE_WORD: TokenKind = TokenKind::Reserved(Word::Sequence);

pub(crate) const OF_WORD: TokenKind = TokenKind::Reserved(Word::Of);

pub(crate) const SET_WORD: TokenKind = TokenKind::Reserved(Word::Set);

pub(crate) const CHOICE_WORD: TokenKind = TokenKind::Reserved(Word::Choice);

pub(crate) const OPEN_BRACKET: TokenKind = TokenKind::Mark(Mark::OpenBracket);

pub(crate) const CLOSE_BRACKET: TokenKind = TokenKind::Mark(Mark::CloseBracket);

pub(crate) const DOT: TokenKind = TokenKind::Mark(Mark::Dot);

pub(crate) const APPLICATION_WORD: TokenKind = TokenKind::Reserved(Word::Application);

pub(crate) const PRIVATE_WORD: TokenKind = TokenKind::Reserved(Word::Private);

pub(crate) const MINUS: TokenKind = TokenKind::Mark(Mark::Minus);

pub(crate) const ELLIPSIS: TokenKind = TokenKind::Mark(Mark::Ellipsis);

pub(crate) const OPEN_VERSION: TokenKind = TokenKind::Mark(Mark::OpenVersion);

pub(crate) const CLOSE_VERSION: TokenKind = TokenKind::Mark(Mark::CloseVersion);

pub(crate) const COLON: TokenKind = TokenKind::Mark(Mark::Colon);

pub(crate) const OPTIONAL_WORD: TokenKind = TokenKind::Reserved(Word::Optional);

pub(crate) const DEFAULT_WORD: TokenKind = TokenKind::Reserved(Word::Default);

pub(crate) const SIZE_WORD: TokenKind = TokenKind::Reserved(Word::Size);

pub(crate) const MIN_WORD: TokenKind = TokenKind::Reserved(Word::Min);

pub(crate) const RANGE: TokenKind = TokenKind::Mark(Mark::Range);

pub(crate) const MAX_WORD: TokenKind = TokenKind::Reserved(Word::Max);

pub(crate) const BAR: TokenKind = TokenKind::Mark(Mark::Bar);

pub(crate) const UNION_WORD: TokenKind = TokenKind::Reserved(Word::Union);

pub(crate) const CHARACTER_STRING: TokenKind = TokenKind::CharacterString;

pub(crate) const TRUE_WORD: TokenKind = TokenKind::Reserved(Word::True);

pub(crate) const FALSE_WORD: TokenKind = TokenKind::Reserved(Word::False);

pub(crate) const BINARY_STRING: TokenKind = TokenKind::BinaryString;

pub(crate) const HEX_STRING: TokenKind = TokenKind::HexString;
