//! Why a text has no tokens.

ghost use Rattle.std.specs.Prelude.{◌≡◌};
ghost use Rattle.text.specs.declared.lex_fault.LexFault.TheVariants.{Memory};

use std::alloc::{AllocError, AllocFailed};
use thiserror::Error;

/// A limit that is passed.
#[derive(Clone, Copy, Debug)]
pub enum Limit {
    /// A text has at most 16,777,216 octets.
    Text,
    /// A number is at most 2 to the 127.
    Integer,
}

/// Why a text has no tokens, and at which octet, counted from 0. A text has at most one fault: the first one. But
/// `NotUtf8` goes before all others, and `Limit(Text)` before all others of a UTF-8 text.
#[derive(Debug, Drop, Error)]
pub enum LexFault {
    /// There was not enough memory.
    #[error("1 Memory")]
    Memory,
    /// The text is too long (at the first octet too many), or a number too great (at its start).
    #[error("2 Limit({0:?}) at {1}")]
    Limit(Limit, usize),
    /// The first octets that are not UTF-8 begin here.
    #[error("10 NotUtf8 at {0}")]
    NotUtf8(usize),
    /// This character begins no token, white space or comment.
    #[error("11 BadCharacter at {0}")]
    BadCharacter(usize),
    /// A comment that `/*` begins here is not closed. Comments nest, and this is the outermost one.
    #[error("12 OpenComment at {0}")]
    OpenComment(usize),
    /// A string begins here that isn't closed on its line, or a binary or hexadecimal one with a wrong digit or without
    /// `B` or `H`.
    #[error("13 OpenString at {0}")]
    OpenString(usize),
    /// A number begins here with a 0 before further digits, or with a letter after it.
    #[error("14 BadNumber at {0}")]
    BadNumber(usize),
    /// A name begins here with a hyphen after it that neither a letter, a digit nor a hyphen follows.
    #[error("15 BadName at {0}")]
    BadName(usize),
}

impl From<AllocError> for LexFault {
    ghost from_gives = { λ _ e. e ≡ Memory };

    fn from(_e: AllocError) -> LexFault {
        LexFault::Memory
    }
}

impl<T: Drop> From<AllocFailed<T>> for LexFault {
    ghost from_gives = { λ _ e. e ≡ Memory };

    fn from(_e: AllocFailed<T>) -> LexFault {
        LexFault::Memory
    }
}
