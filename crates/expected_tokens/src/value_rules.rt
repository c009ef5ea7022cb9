//! The rules of values.

use crate::rules::{Rule, Symbol, Term};
use crate::tokens::{
    BINARY_STRING, CHARACTER_STRING, CLOSE_BRACE, COLON, COMMA, DOT, FALSE_WORD, HEX_STRING,
    IDENTIFIER, MINUS, NULL_WORD, NUMBER, OPEN_BRACE, TRUE_WORD, TYPE_REFERENCE,
};

pub(crate) static VALUE_RULES: [Rule; 11] = [
    Rule::Begins(TRUE_WORD, &[]),
    Rule::Begins(FALSE_WORD, &[]),
    Rule::Begins(NULL_WORD, &[]),
    Rule::Begins(NUMBER, &[]),
    Rule::Begins(MINUS, &[Term::Is(NUMBER)]),
    Rule::Begins(BINARY_STRING, &[]),
    Rule::Begins(HEX_STRING, &[]),
    Rule::Begins(CHARACTER_STRING, &[]),
    Rule::Begins(IDENTIFIER, &[Term::Of(Symbol::Chosen)]),
    Rule::Begins(TYPE_REFERENCE, &[Term::Is(DOT), Term::Is(IDENTIFIER)]),
    Rule::Begins(
        OPEN_BRACE,
        &[Term::Of(Symbol::Braced), Term::Is(CLOSE_BRACE)],
    ),
];

pub(crate) static CHOSEN_RULES: [Rule; 2] = [
    Rule::Begins(COLON, &[Term::Of(Symbol::Value)]),
    Rule::Nothing,
];

pub(crate) static BRACED_RULES: [Rule; 14] = [
    Rule::Begins(TRUE_WORD, &[Term::Of(Symbol::MoreValues)]),
    Rule::Begins(FALSE_WORD, &[Term::Of(Symbol::MoreValues)]),
    Rule::Begins(NULL_WORD, &[Term::Of(Symbol::MoreValues)]),
    Rule::Begins(NUMBER, &[Term::Of(Symbol::MoreValues)]),
    Rule::Begins(MINUS, &[Term::Is(NUMBER), Term::Of(Symbol::MoreValues)]),
    Rule::Begins(BINARY_STRING, &[Term::Of(Symbol::MoreValues)]),
    Rule::Begins(HEX_STRING, &[Term::Of(Symbol::MoreValues)]),
    Rule::Begins(CHARACTER_STRING, &[Term::Of(Symbol::MoreValues)]),
    Rule::Begins(
        IDENTIFIER,
        &[Term::Of(Symbol::Chosen), Term::Of(Symbol::MoreValues)],
    ),
    Rule::Begins(
        TYPE_REFERENCE,
        &[
            Term::Is(DOT),
            Term::Is(IDENTIFIER),
            Term::Of(Symbol::MoreValues),
        ],
    ),
    Rule::Begins(
        OPEN_BRACE,
        &[
            Term::Of(Symbol::Braced),
            Term::Is(CLOSE_BRACE),
            Term::Of(Symbol::MoreValues),
        ],
    ),
    Rule::Begins(
        IDENTIFIER,
        &[Term::Of(Symbol::Value), Term::Of(Symbol::MoreFields)],
    ),
    Rule::Begins(NUMBER, &[Term::Is(NUMBER), Term::Of(Symbol::MoreNumbers)]),
    Rule::Nothing,
];

pub(crate) static MORE_VALUES_RULES: [Rule; 2] = [
    Rule::Begins(
        COMMA,
        &[Term::Of(Symbol::Value), Term::Of(Symbol::MoreValues)],
    ),
    Rule::Nothing,
];

pub(crate) static MORE_FIELDS_RULES: [Rule; 2] = [
    Rule::Begins(
        COMMA,
        &[
            Term::Is(IDENTIFIER),
            Term::Of(Symbol::Value),
            Term::Of(Symbol::MoreFields),
        ],
    ),
    Rule::Nothing,
];

pub(crate) static MORE_NUMBERS_RULES: [Rule; 2] = [
    Rule::Begins(NUMBER, &[Term::Of(Symbol::MoreNumbers)]),
    Rule::Nothing,
];
