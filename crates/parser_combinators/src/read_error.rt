//! Why tokens can't be read.

ghost use Rattle.std.specs.Prelude.{◌≡◌};
ghost use Rattle.parser_combinators.specs.declared.read_error.ReadError.TheVariants as errors;

use std::alloc::{AllocError, AllocFailed};
use text::Token;

/// A limit that is passed.
#[derive(Clone, Copy, Debug)]
pub enum Limit {
    /// At most 128 braces, tags, list types and values of alternatives are open at one place.
    Nesting,
    /// A number without a minus before it is less than 2^127.
    Integer,
    /// The number of a tag is less than 2^31.
    TagNumber,
}

/// Why a part can't be read, with the number of tokens from the first wrong one to the end.
#[derive(Drop)]
pub enum ReadError {
    /// An allocation failed.
    Memory,
    /// No part can go on with the first of these tokens.
    Unexpected(usize),
    /// The first of these tokens passes a limit.
    Limit(Limit, usize),
}

/// The result of a reader: a tree and the tokens after it, or a fault.
pub type Read<'t, T> = Result<(T, &'t [Token]), ReadError>;

impl From<AllocError> for ReadError {
    ghost from_gives = { λ _ e. e ≡ errors.Memory };

    fn from(_e: AllocError) -> ReadError {
        ReadError::Memory
    }
}

impl<T: Drop> From<AllocFailed<T>> for ReadError {
    ghost from_gives = { λ _ e. e ≡ errors.Memory };

    fn from(_e: AllocFailed<T>) -> ReadError {
        ReadError::Memory
    }
}
