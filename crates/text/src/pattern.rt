//! Tokens as patterns.

/// A token of one of these kinds: `kind!(Number)`.
#[macro_export]
macro_rules! kind {
    ($($kind:ident)|+) => {
        $crate::Token {
            kind: $($crate::TokenKind::$kind)|+,
            ..
        }
    };
}

/// A token that is one of these marks: `mark!(Comma | Colon)`.
#[macro_export]
macro_rules! mark {
    ($($mark:ident)|+) => {
        $crate::Token {
            kind: $crate::TokenKind::Mark($($crate::Mark::$mark)|+),
            ..
        }
    };
}

/// A token that is one of these reserved words: `word!(Size)`.
#[macro_export]
macro_rules! word {
    ($($word:ident)|+) => {
        $crate::Token {
            kind: $crate::TokenKind::Reserved($($crate::reserved::Word::$word)|+),
            ..
        }
    };
}
