//! The rules of types, without their constraints.

use crate::rules::{Rule, Symbol, Term};
use crate::tokens::{
    APPLICATION_WORD, BIT_WORD, BOOLEAN_WORD, CHOICE_WORD, CLOSE_BRACE, CLOSE_BRACKET,
    CLOSE_PARENTHESIS, CLOSE_VERSION, COLON, COMMA, DEFAULT_WORD, DOT, ELLIPSIS, ENUMERATED_WORD,
    EXPLICIT_WORD, IA5_STRING_WORD, IDENTIFIER, IDENTIFIER_WORD, IMPLICIT_WORD, INTEGER_WORD,
    ISO646_STRING_WORD, MINUS, NULL_WORD, NUMBER, NUMERIC_STRING_WORD, OBJECT_WORD, OCTET_WORD,
    OF_WORD, OPEN_BRACE, OPEN_BRACKET, OPEN_PARENTHESIS, OPEN_VERSION, OPTIONAL_WORD,
    PRINTABLE_STRING_WORD, PRIVATE_WORD, RELATIVE_OID_WORD, SEQUENCE_WORD, SET_WORD, SIZE_WORD,
    STRING_WORD, TYPE_REFERENCE, UTF8_STRING_WORD, VISIBLE_STRING_WORD,
};

pub(crate) static TYPE_RULES: [Rule; 21] = [
    Rule::Begins(BOOLEAN_WORD, &[Term::Of(Symbol::Constraints)]),
    Rule::Begins(NULL_WORD, &[Term::Of(Symbol::Constraints)]),
    Rule::Begins(
        INTEGER_WORD,
        &[
            Term::Of(Symbol::NamedNumbers),
            Term::Of(Symbol::Constraints),
        ],
    ),
    Rule::Begins(
        ENUMERATED_WORD,
        &[
            Term::Is(OPEN_BRACE),
            Term::Of(Symbol::Item),
            Term::Of(Symbol::MoreItems),
            Term::Is(CLOSE_BRACE),
            Term::Of(Symbol::Constraints),
        ],
    ),
    Rule::Begins(
        BIT_WORD,
        &[
            Term::Is(STRING_WORD),
            Term::Of(Symbol::NamedBits),
            Term::Of(Symbol::Constraints),
        ],
    ),
    Rule::Begins(
        OCTET_WORD,
        &[Term::Is(STRING_WORD), Term::Of(Symbol::Constraints)],
    ),
    Rule::Begins(
        OBJECT_WORD,
        &[Term::Is(IDENTIFIER_WORD), Term::Of(Symbol::Constraints)],
    ),
    Rule::Begins(RELATIVE_OID_WORD, &[Term::Of(Symbol::Constraints)]),
    Rule::Begins(UTF8_STRING_WORD, &[Term::Of(Symbol::Constraints)]),
    Rule::Begins(NUMERIC_STRING_WORD, &[Term::Of(Symbol::Constraints)]),
    Rule::Begins(PRINTABLE_STRING_WORD, &[Term::Of(Symbol::Constraints)]),
    Rule::Begins(IA5_STRING_WORD, &[Term::Of(Symbol::Constraints)]),
    Rule::Begins(VISIBLE_STRING_WORD, &[Term::Of(Symbol::Constraints)]),
    Rule::Begins(ISO646_STRING_WORD, &[Term::Of(Symbol::Constraints)]),
    Rule::Begins(
        SEQUENCE_WORD,
        &[
            Term::Is(OPEN_BRACE),
            Term::Of(Symbol::Members),
            Term::Is(CLOSE_BRACE),
            Term::Of(Symbol::Constraints),
        ],
    ),
    Rule::Begins(
        SEQUENCE_WORD,
        &[
            Term::Of(Symbol::ListSize),
            Term::Is(OF_WORD),
            Term::Of(Symbol::Type),
        ],
    ),
    Rule::Begins(
        SET_WORD,
        &[
            Term::Is(OPEN_BRACE),
            Term::Of(Symbol::Members),
            Term::Is(CLOSE_BRACE),
            Term::Of(Symbol::Constraints),
        ],
    ),
    Rule::Begins(
        SET_WORD,
        &[
            Term::Of(Symbol::ListSize),
            Term::Is(OF_WORD),
            Term::Of(Symbol::Type),
        ],
    ),
    Rule::Begins(
        CHOICE_WORD,
        &[
            Term::Is(OPEN_BRACE),
            Term::Of(Symbol::Alternative),
            Term::Of(Symbol::MoreAlternatives),
            Term::Is(CLOSE_BRACE),
            Term::Of(Symbol::Constraints),
        ],
    ),
    Rule::Begins(
        TYPE_REFERENCE,
        &[Term::Of(Symbol::AfterModule), Term::Of(Symbol::Constraints)],
    ),
    Rule::Begins(
        OPEN_BRACKET,
        &[
            Term::Of(Symbol::TagClass),
            Term::Is(NUMBER),
            Term::Is(CLOSE_BRACKET),
            Term::Of(Symbol::Keyword),
            Term::Of(Symbol::Type),
        ],
    ),
];

pub(crate) static AFTER_MODULE_RULES: [Rule; 2] = [
    Rule::Begins(DOT, &[Term::Is(TYPE_REFERENCE)]),
    Rule::Nothing,
];

pub(crate) static TAG_CLASS_RULES: [Rule; 3] = [
    Rule::Begins(APPLICATION_WORD, &[]),
    Rule::Begins(PRIVATE_WORD, &[]),
    Rule::Nothing,
];

pub(crate) static KEYWORD_RULES: [Rule; 3] = [
    Rule::Begins(IMPLICIT_WORD, &[]),
    Rule::Begins(EXPLICIT_WORD, &[]),
    Rule::Nothing,
];

pub(crate) static NAMED_NUMBERS_RULES: [Rule; 2] = [
    Rule::Begins(
        OPEN_BRACE,
        &[
            Term::Of(Symbol::NamedNumber),
            Term::Of(Symbol::MoreNamedNumbers),
            Term::Is(CLOSE_BRACE),
        ],
    ),
    Rule::Nothing,
];

pub(crate) static NAMED_NUMBER_RULES: [Rule; 1] = [Rule::Begins(
    IDENTIFIER,
    &[
        Term::Is(OPEN_PARENTHESIS),
        Term::Of(Symbol::Signed),
        Term::Is(CLOSE_PARENTHESIS),
    ],
)];

pub(crate) static MORE_NAMED_NUMBERS_RULES: [Rule; 2] = [
    Rule::Begins(
        COMMA,
        &[
            Term::Of(Symbol::NamedNumber),
            Term::Of(Symbol::MoreNamedNumbers),
        ],
    ),
    Rule::Nothing,
];

pub(crate) static SIGNED_RULES: [Rule; 2] = [
    Rule::Begins(NUMBER, &[]),
    Rule::Begins(MINUS, &[Term::Is(NUMBER)]),
];

pub(crate) static NAMED_BITS_RULES: [Rule; 2] = [
    Rule::Begins(
        OPEN_BRACE,
        &[
            Term::Of(Symbol::NamedBit),
            Term::Of(Symbol::MoreNamedBits),
            Term::Is(CLOSE_BRACE),
        ],
    ),
    Rule::Nothing,
];

pub(crate) static NAMED_BIT_RULES: [Rule; 1] = [Rule::Begins(
    IDENTIFIER,
    &[
        Term::Is(OPEN_PARENTHESIS),
        Term::Is(NUMBER),
        Term::Is(CLOSE_PARENTHESIS),
    ],
)];

pub(crate) static MORE_NAMED_BITS_RULES: [Rule; 2] = [
    Rule::Begins(
        COMMA,
        &[Term::Of(Symbol::NamedBit), Term::Of(Symbol::MoreNamedBits)],
    ),
    Rule::Nothing,
];

pub(crate) static ITEM_RULES: [Rule; 1] = [Rule::Begins(
    IDENTIFIER,
    &[Term::Of(Symbol::ItemNumber)],
)];

pub(crate) static ITEM_NUMBER_RULES: [Rule; 2] = [
    Rule::Begins(
        OPEN_PARENTHESIS,
        &[Term::Of(Symbol::Signed), Term::Is(CLOSE_PARENTHESIS)],
    ),
    Rule::Nothing,
];

pub(crate) static MORE_ITEMS_RULES: [Rule; 3] = [
    Rule::Begins(
        COMMA,
        &[Term::Of(Symbol::Item), Term::Of(Symbol::MoreItems)],
    ),
    Rule::Begins(COMMA, &[Term::Is(ELLIPSIS), Term::Of(Symbol::AddedItems)]),
    Rule::Nothing,
];

pub(crate) static ADDED_ITEMS_RULES: [Rule; 2] = [
    Rule::Begins(
        COMMA,
        &[Term::Of(Symbol::Item), Term::Of(Symbol::AddedItems)],
    ),
    Rule::Nothing,
];

pub(crate) static MEMBERS_RULES: [Rule; 3] = [
    Rule::Begins(
        IDENTIFIER,
        &[
            Term::Of(Symbol::Type),
            Term::Of(Symbol::Presence),
            Term::Of(Symbol::MoreMembers),
        ],
    ),
    Rule::Begins(ELLIPSIS, &[Term::Of(Symbol::AddedMembers)]),
    Rule::Nothing,
];

pub(crate) static MEMBER_RULES: [Rule; 1] = [Rule::Begins(
    IDENTIFIER,
    &[Term::Of(Symbol::Type), Term::Of(Symbol::Presence)],
)];

pub(crate) static MORE_MEMBERS_RULES: [Rule; 3] = [
    Rule::Begins(
        COMMA,
        &[Term::Of(Symbol::Member), Term::Of(Symbol::MoreMembers)],
    ),
    Rule::Begins(COMMA, &[Term::Is(ELLIPSIS), Term::Of(Symbol::AddedMembers)]),
    Rule::Nothing,
];

pub(crate) static ADDED_MEMBERS_RULES: [Rule; 2] = [
    Rule::Begins(
        COMMA,
        &[
            Term::Of(Symbol::AddedMember),
            Term::Of(Symbol::AddedMembers),
        ],
    ),
    Rule::Nothing,
];

pub(crate) static ADDED_MEMBER_RULES: [Rule; 2] = [
    Rule::Begins(
        IDENTIFIER,
        &[Term::Of(Symbol::Type), Term::Of(Symbol::Presence)],
    ),
    Rule::Begins(
        OPEN_VERSION,
        &[
            Term::Of(Symbol::Version),
            Term::Of(Symbol::Member),
            Term::Of(Symbol::MembersInVersion),
            Term::Is(CLOSE_VERSION),
        ],
    ),
];

pub(crate) static MEMBERS_IN_VERSION_RULES: [Rule; 2] = [
    Rule::Begins(
        COMMA,
        &[Term::Of(Symbol::Member), Term::Of(Symbol::MembersInVersion)],
    ),
    Rule::Nothing,
];

pub(crate) static VERSION_RULES: [Rule; 2] = [
    Rule::Begins(NUMBER, &[Term::Is(COLON)]),
    Rule::Nothing,
];

pub(crate) static PRESENCE_RULES: [Rule; 3] = [
    Rule::Begins(OPTIONAL_WORD, &[]),
    Rule::Begins(DEFAULT_WORD, &[Term::Of(Symbol::Value)]),
    Rule::Nothing,
];

pub(crate) static ALTERNATIVE_RULES: [Rule; 1] = [Rule::Begins(
    IDENTIFIER,
    &[Term::Of(Symbol::Type)],
)];

pub(crate) static MORE_ALTERNATIVES_RULES: [Rule; 3] = [
    Rule::Begins(
        COMMA,
        &[
            Term::Of(Symbol::Alternative),
            Term::Of(Symbol::MoreAlternatives),
        ],
    ),
    Rule::Begins(
        COMMA,
        &[Term::Is(ELLIPSIS), Term::Of(Symbol::AddedAlternatives)],
    ),
    Rule::Nothing,
];

pub(crate) static ADDED_ALTERNATIVES_RULES: [Rule; 2] = [
    Rule::Begins(
        COMMA,
        &[
            Term::Of(Symbol::AddedAlternative),
            Term::Of(Symbol::AddedAlternatives),
        ],
    ),
    Rule::Nothing,
];

pub(crate) static ADDED_ALTERNATIVE_RULES: [Rule; 2] = [
    Rule::Begins(IDENTIFIER, &[Term::Of(Symbol::Type)]),
    Rule::Begins(
        OPEN_VERSION,
        &[
            Term::Of(Symbol::Version),
            Term::Of(Symbol::Alternative),
            Term::Of(Symbol::AlternativesInVersion),
            Term::Is(CLOSE_VERSION),
        ],
    ),
];

pub(crate) static ALTERNATIVES_IN_VERSION_RULES: [Rule; 2] = [
    Rule::Begins(
        COMMA,
        &[
            Term::Of(Symbol::Alternative),
            Term::Of(Symbol::AlternativesInVersion),
        ],
    ),
    Rule::Nothing,
];

pub(crate) static LIST_SIZE_RULES: [Rule; 3] = [
    Rule::Begins(
        SIZE_WORD,
        &[
            Term::Is(OPEN_PARENTHESIS),
            Term::Of(Symbol::Ranges),
            Term::Is(CLOSE_PARENTHESIS),
        ],
    ),
    Rule::Begins(
        OPEN_PARENTHESIS,
        &[
            Term::Is(SIZE_WORD),
            Term::Is(OPEN_PARENTHESIS),
            Term::Of(Symbol::Ranges),
            Term::Is(CLOSE_PARENTHESIS),
            Term::Is(CLOSE_PARENTHESIS),
        ],
    ),
    Rule::Nothing,
];
