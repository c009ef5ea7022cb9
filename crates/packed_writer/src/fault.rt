//! Why a value was not encoded.

ghost use Rattle.packed_writer.specs.declared.fault.WriteFault.TheVariants.{Memory};
ghost use Rattle.std.specs.Prelude.{◌≡◌};

use std::alloc::AllocError;
use thiserror::Error;

/// Why a value was not encoded. `Memory`: an allocation failed. `NotOfType`: the value isn't one of the type.
/// `TooLong`: its encoding has more than 16,777,216 octets, or its nodes and the octets of its character strings are
/// together more than 16,777,216.
#[derive(Clone, Copy, Debug, PartialEq, Eq, Error)]
pub enum WriteFault {
    #[error("1 Memory")]
    Memory,
    #[error("70 NotOfType")]
    NotOfType,
    #[error("71 TooLong")]
    TooLong,
}

impl From<AllocError> for WriteFault {
    ghost from_gives = { λ _ e. e ≡ Memory };

    fn from(_error: AllocError) -> WriteFault {
        WriteFault::Memory
    }
}
