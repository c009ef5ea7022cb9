//! The rules of modules: their names, what they export and import, and their assignments.

use crate::rules::{Rule, Symbol, Term};
use crate::tokens::{
    ALL_WORD, ASSIGN, AUTOMATIC_WORD, BEGIN_WORD, CLOSE_BRACE, CLOSE_PARENTHESIS, COMMA,
    DEFINITIONS_WORD, END_WORD, EXPLICIT_WORD, EXPORTS_WORD, FROM_WORD, IDENTIFIER, IMPLICIT_WORD,
    IMPORTS_WORD, NUMBER, OPEN_BRACE, OPEN_PARENTHESIS, SEMICOLON, TAGS_WORD, TYPE_REFERENCE,
};

pub(crate) static MODULE_RULES: [Rule; 1] = [Rule::Begins(
    TYPE_REFERENCE,
    &[
        Term::Of(Symbol::Oid),
        Term::Is(DEFINITIONS_WORD),
        Term::Of(Symbol::TagDefault),
        Term::Is(ASSIGN),
        Term::Is(BEGIN_WORD),
        Term::Of(Symbol::Exports),
        Term::Of(Symbol::Imports),
        Term::Of(Symbol::Assignments),
        Term::Is(END_WORD),
    ],
)];

pub(crate) static OID_RULES: [Rule; 2] = [
    Rule::Begins(
        OPEN_BRACE,
        &[
            Term::Of(Symbol::Arc),
            Term::Of(Symbol::MoreArcs),
            Term::Is(CLOSE_BRACE),
        ],
    ),
    Rule::Nothing,
];

pub(crate) static ARC_RULES: [Rule; 2] = [
    Rule::Begins(NUMBER, &[]),
    Rule::Begins(IDENTIFIER, &[Term::Of(Symbol::ArcNumber)]),
];

pub(crate) static MORE_ARCS_RULES: [Rule; 3] = [
    Rule::Begins(NUMBER, &[Term::Of(Symbol::MoreArcs)]),
    Rule::Begins(
        IDENTIFIER,
        &[Term::Of(Symbol::ArcNumber), Term::Of(Symbol::MoreArcs)],
    ),
    Rule::Nothing,
];

pub(crate) static ARC_NUMBER_RULES: [Rule; 2] = [
    Rule::Begins(
        OPEN_PARENTHESIS,
        &[Term::Is(NUMBER), Term::Is(CLOSE_PARENTHESIS)],
    ),
    Rule::Nothing,
];

pub(crate) static TAG_DEFAULT_RULES: [Rule; 4] = [
    Rule::Begins(EXPLICIT_WORD, &[Term::Is(TAGS_WORD)]),
    Rule::Begins(IMPLICIT_WORD, &[Term::Is(TAGS_WORD)]),
    Rule::Begins(AUTOMATIC_WORD, &[Term::Is(TAGS_WORD)]),
    Rule::Nothing,
];

pub(crate) static EXPORTS_RULES: [Rule; 2] = [
    Rule::Begins(
        EXPORTS_WORD,
        &[Term::Of(Symbol::Exported), Term::Is(SEMICOLON)],
    ),
    Rule::Nothing,
];

pub(crate) static EXPORTED_RULES: [Rule; 4] = [
    Rule::Begins(ALL_WORD, &[]),
    Rule::Begins(TYPE_REFERENCE, &[Term::Of(Symbol::MoreNames)]),
    Rule::Begins(IDENTIFIER, &[Term::Of(Symbol::MoreNames)]),
    Rule::Nothing,
];

pub(crate) static MORE_NAMES_RULES: [Rule; 2] = [
    Rule::Begins(
        COMMA,
        &[Term::Of(Symbol::Name), Term::Of(Symbol::MoreNames)],
    ),
    Rule::Nothing,
];

pub(crate) static NAME_RULES: [Rule; 2] = [
    Rule::Begins(TYPE_REFERENCE, &[]),
    Rule::Begins(IDENTIFIER, &[]),
];

pub(crate) static IMPORTS_RULES: [Rule; 2] = [
    Rule::Begins(
        IMPORTS_WORD,
        &[Term::Of(Symbol::Imported), Term::Is(SEMICOLON)],
    ),
    Rule::Nothing,
];

pub(crate) static IMPORTED_RULES: [Rule; 3] = [
    Rule::Begins(
        TYPE_REFERENCE,
        &[
            Term::Of(Symbol::MoreNames),
            Term::Is(FROM_WORD),
            Term::Is(TYPE_REFERENCE),
            Term::Of(Symbol::Oid),
            Term::Of(Symbol::Imported),
        ],
    ),
    Rule::Begins(
        IDENTIFIER,
        &[
            Term::Of(Symbol::MoreNames),
            Term::Is(FROM_WORD),
            Term::Is(TYPE_REFERENCE),
            Term::Of(Symbol::Oid),
            Term::Of(Symbol::Imported),
        ],
    ),
    Rule::Nothing,
];

pub(crate) static ASSIGNMENTS_RULES: [Rule; 3] = [
    Rule::Begins(
        TYPE_REFERENCE,
        &[
            Term::Is(ASSIGN),
            Term::Of(Symbol::Type),
            Term::Of(Symbol::Assignments),
        ],
    ),
    Rule::Begins(
        IDENTIFIER,
        &[
            Term::Of(Symbol::Type),
            Term::Is(ASSIGN),
            Term::Of(Symbol::Value),
            Term::Of(Symbol::Assignments),
        ],
    ),
    Rule::Nothing,
];
