//! The rules of constraints.

use crate::rules::{Rule, Symbol, Term};
use crate::tokens::{
    BAR, CHARACTER_STRING, CLOSE_PARENTHESIS, COMMA, DOT, ELLIPSIS, FROM_WORD, IDENTIFIER,
    MAX_WORD, MIN_WORD, MINUS, NUMBER, OPEN_PARENTHESIS, RANGE, SIZE_WORD, TYPE_REFERENCE,
    UNION_WORD,
};

pub(crate) static CONSTRAINTS_RULES: [Rule; 2] = [
    Rule::Begins(
        OPEN_PARENTHESIS,
        &[
            Term::Of(Symbol::Constraint),
            Term::Is(CLOSE_PARENTHESIS),
            Term::Of(Symbol::Constraints),
        ],
    ),
    Rule::Nothing,
];

pub(crate) static CONSTRAINT_RULES: [Rule; 7] = [
    Rule::Begins(
        NUMBER,
        &[
            Term::Of(Symbol::Upper),
            Term::Of(Symbol::MoreRanges),
            Term::Of(Symbol::Marker),
        ],
    ),
    Rule::Begins(
        MINUS,
        &[
            Term::Is(NUMBER),
            Term::Of(Symbol::Upper),
            Term::Of(Symbol::MoreRanges),
            Term::Of(Symbol::Marker),
        ],
    ),
    Rule::Begins(
        IDENTIFIER,
        &[
            Term::Of(Symbol::Upper),
            Term::Of(Symbol::MoreRanges),
            Term::Of(Symbol::Marker),
        ],
    ),
    Rule::Begins(
        TYPE_REFERENCE,
        &[
            Term::Is(DOT),
            Term::Is(IDENTIFIER),
            Term::Of(Symbol::Upper),
            Term::Of(Symbol::MoreRanges),
            Term::Of(Symbol::Marker),
        ],
    ),
    Rule::Begins(
        MIN_WORD,
        &[
            Term::Is(RANGE),
            Term::Of(Symbol::Last),
            Term::Of(Symbol::MoreRanges),
            Term::Of(Symbol::Marker),
        ],
    ),
    Rule::Begins(
        SIZE_WORD,
        &[
            Term::Is(OPEN_PARENTHESIS),
            Term::Of(Symbol::Ranges),
            Term::Is(CLOSE_PARENTHESIS),
        ],
    ),
    Rule::Begins(
        FROM_WORD,
        &[
            Term::Is(OPEN_PARENTHESIS),
            Term::Of(Symbol::Chars),
            Term::Of(Symbol::MoreChars),
            Term::Is(CLOSE_PARENTHESIS),
        ],
    ),
];

pub(crate) static RANGES_RULES: [Rule; 5] = [
    Rule::Begins(
        NUMBER,
        &[
            Term::Of(Symbol::Upper),
            Term::Of(Symbol::MoreRanges),
            Term::Of(Symbol::Marker),
        ],
    ),
    Rule::Begins(
        MINUS,
        &[
            Term::Is(NUMBER),
            Term::Of(Symbol::Upper),
            Term::Of(Symbol::MoreRanges),
            Term::Of(Symbol::Marker),
        ],
    ),
    Rule::Begins(
        IDENTIFIER,
        &[
            Term::Of(Symbol::Upper),
            Term::Of(Symbol::MoreRanges),
            Term::Of(Symbol::Marker),
        ],
    ),
    Rule::Begins(
        TYPE_REFERENCE,
        &[
            Term::Is(DOT),
            Term::Is(IDENTIFIER),
            Term::Of(Symbol::Upper),
            Term::Of(Symbol::MoreRanges),
            Term::Of(Symbol::Marker),
        ],
    ),
    Rule::Begins(
        MIN_WORD,
        &[
            Term::Is(RANGE),
            Term::Of(Symbol::Last),
            Term::Of(Symbol::MoreRanges),
            Term::Of(Symbol::Marker),
        ],
    ),
];

pub(crate) static RANGE_RULES: [Rule; 5] = [
    Rule::Begins(NUMBER, &[Term::Of(Symbol::Upper)]),
    Rule::Begins(MINUS, &[Term::Is(NUMBER), Term::Of(Symbol::Upper)]),
    Rule::Begins(IDENTIFIER, &[Term::Of(Symbol::Upper)]),
    Rule::Begins(
        TYPE_REFERENCE,
        &[Term::Is(DOT), Term::Is(IDENTIFIER), Term::Of(Symbol::Upper)],
    ),
    Rule::Begins(MIN_WORD, &[Term::Is(RANGE), Term::Of(Symbol::Last)]),
];

pub(crate) static UPPER_RULES: [Rule; 2] = [
    Rule::Begins(RANGE, &[Term::Of(Symbol::Last)]),
    Rule::Nothing,
];

pub(crate) static LAST_RULES: [Rule; 5] = [
    Rule::Begins(NUMBER, &[]),
    Rule::Begins(MINUS, &[Term::Is(NUMBER)]),
    Rule::Begins(IDENTIFIER, &[]),
    Rule::Begins(TYPE_REFERENCE, &[Term::Is(DOT), Term::Is(IDENTIFIER)]),
    Rule::Begins(MAX_WORD, &[]),
];

pub(crate) static MORE_RANGES_RULES: [Rule; 3] = [
    Rule::Begins(
        BAR,
        &[Term::Of(Symbol::Range), Term::Of(Symbol::MoreRanges)],
    ),
    Rule::Begins(
        UNION_WORD,
        &[Term::Of(Symbol::Range), Term::Of(Symbol::MoreRanges)],
    ),
    Rule::Nothing,
];

pub(crate) static MARKER_RULES: [Rule; 2] = [
    Rule::Begins(COMMA, &[Term::Is(ELLIPSIS)]),
    Rule::Nothing,
];

pub(crate) static CHARS_RULES: [Rule; 1] = [Rule::Begins(
    CHARACTER_STRING,
    &[Term::Of(Symbol::LastChars)],
)];

pub(crate) static LAST_CHARS_RULES: [Rule; 2] = [
    Rule::Begins(RANGE, &[Term::Is(CHARACTER_STRING)]),
    Rule::Nothing,
];

pub(crate) static MORE_CHARS_RULES: [Rule; 3] = [
    Rule::Begins(BAR, &[Term::Of(Symbol::Chars), Term::Of(Symbol::MoreChars)]),
    Rule::Begins(
        UNION_WORD,
        &[Term::Of(Symbol::Chars), Term::Of(Symbol::MoreChars)],
    ),
    Rule::Nothing,
];
