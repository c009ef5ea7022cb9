//! Why octets were not written.

ghost use Rattle.octets.specs.declared.header_fault.Fault.TheVariants.{Memory};
ghost use Rattle.std.specs.Prelude.{◌≡◌};

use std::alloc::{AllocError, AllocFailed};
use thiserror::Error;

/// Why octets were not written: `Memory`, if there was not enough memory.
#[derive(Clone, Copy, Debug, PartialEq, Eq, Error)]
pub enum Fault {
    #[error("1 Memory")]
    Memory,
}

impl From<AllocError> for Fault {
    ghost from_gives = { λ _ e. e ≡ Memory };

    fn from(_e: AllocError) -> Fault {
        Fault::Memory
    }
}

impl<T: Drop> From<AllocFailed<T>> for Fault {
    ghost from_gives = { λ _ e. e ≡ Memory };

    fn from(_e: AllocFailed<T>) -> Fault {
        Fault::Memory
    }
}

/// Why no header is at the start of octets.
#[derive(Clone, Copy, Debug, PartialEq, Eq, Error)]
pub enum HeaderFault {
    /// The octets end within a header, or before the contents that it promises.
    #[error("80 Truncated")]
    Truncated,
    /// The length is in the indefinite form.
    #[error("81 Indefinite")]
    Indefinite,
    /// The first length octet is `FF`, or the length is greater than 16,777,216, the limit of a message.
    #[error("82 BadLength")]
    BadLength,
    /// The identifier octets are those of no tag: universal number 0, a number from 2^31, or a number to 30, or with
    /// leading zeros, in the long form.
    #[error("83 BadTag")]
    BadTag,
}
