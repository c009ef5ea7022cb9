//! Why a file has no rows.

ghost use Rattle.std.specs.Prelude.{◌≡◌};
ghost use Rattle.row_format.specs.declared.fault.RowFault.TheVariants as faults;

use std::alloc::{AllocError, AllocFailed};
use thiserror::Error;

/// What is wrong in a file of rows, and in which line, counted from 1.
#[derive(Debug, Error)]
pub enum RowFault {
    /// There was not enough memory.
    #[error("memory")]
    Memory,
    /// The file is not UTF-8.
    #[error("the file is not UTF-8")]
    NotUtf8,
    /// A row has no words, or a text is outside a row.
    #[error("line {0}: no row")]
    NoRow(usize),
    /// The line is outside a text, and is no comment.
    #[error("line {0}: no mark and no comment")]
    NoMark(usize),
    /// The text that begins here has a line without a number.
    #[error("line {0}: no number")]
    NoNumber(usize),
    /// The text that begins here is not hexadecimal octets.
    #[error("line {0}: no hexadecimal octets")]
    NoHex(usize),
}

impl From<AllocError> for RowFault {
    ghost from_gives = { λ _ e. e ≡ faults.Memory };

    fn from(_e: AllocError) -> RowFault {
        RowFault::Memory
    }
}

impl<T: Drop> From<AllocFailed<T>> for RowFault {
    ghost from_gives = { λ _ e. e ≡ faults.Memory };

    fn from(_e: AllocFailed<T>) -> RowFault {
        RowFault::Memory
    }
}

impl Drop for RowFault {
    fn drop(self) {
        match self {
            RowFault::Memory => {}
            RowFault::NotUtf8 => {}
            RowFault::NoRow(_) => {}
            RowFault::NoMark(_) => {}
            RowFault::NoNumber(_) => {}
            RowFault::NoHex(_) => {}
        }
    }
}
