//! What is wrong with a text of the notation.

ghost use Rattle.std.specs.Prelude.{◌≡◌};
ghost use Rattle.notation.specs.declared.syntax_fault.SyntaxFault.TheVariants as faults;

use parser_combinators::Limit;
use std::alloc::{AllocError, AllocFailed};
use thiserror::Error;

/// What is wrong, and at which token, counted from 0. The number of tokens is the place of their end.
#[derive(Debug, Drop, Error)]
pub enum SyntaxFault {
    /// There was not enough memory.
    #[error("1 Memory")]
    Memory,
    /// A limit is passed at this token.
    #[error("2 Limit({0:?}) at token {1}")]
    Limit(Limit, usize),
    /// Nothing valid begins with the tokens up to this one.
    #[error("20 Unexpected at token {0}")]
    Unexpected(usize),
    /// Nothing valid begins with the tokens up to this one, which is a word or mark of a construct that this compiler
    /// leaves out.
    #[error("21 OutOfProfile at token {0}")]
    OutOfProfile(usize),
}

impl From<AllocError> for SyntaxFault {
    ghost from_gives = { λ _ e. e ≡ faults.Memory };

    fn from(_e: AllocError) -> SyntaxFault {
        SyntaxFault::Memory
    }
}

impl<T: Drop> From<AllocFailed<T>> for SyntaxFault {
    ghost from_gives = { λ _ e. e ≡ faults.Memory };

    fn from(_e: AllocFailed<T>) -> SyntaxFault {
        SyntaxFault::Memory
    }
}
