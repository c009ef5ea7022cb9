//! Why a value was not written.

ghost use Rattle.der_writer.specs.declared.fault.WriteFault.TheVariants.{Memory};
ghost use Rattle.std.specs.Prelude.{◌≡◌};

use der_layout::EncodeFault;
use std::alloc::AllocError;
use thiserror::Error;

/// Why a value was not written. `Memory`: an allocation failed. `NotOfType`: the value isn't one of the type.
/// `TooLong`: its encoding has more than 16,777,216 octets. `Device`: the sink failed after it took this number of
/// octets of the encoding.
#[derive(Clone, Copy, Debug, PartialEq, Eq, Error)]
pub enum WriteFault {
    #[error("1 Memory")]
    Memory,
    #[error("70 NotOfType")]
    NotOfType,
    #[error("71 TooLong")]
    TooLong,
    #[error("72 Device({0})")]
    Device(u64),
}

impl From<EncodeFault> for WriteFault {
    ghost use Rattle.der_writer.specs.Faults.{fault_of};

    ghost from_gives = { λ f e. e ≡ fault_of f };

    fn from(fault: EncodeFault) -> WriteFault {
        match fault {
            EncodeFault::Memory => WriteFault::Memory,
            EncodeFault::NotOfType => WriteFault::NotOfType,
            EncodeFault::TooLong => WriteFault::TooLong,
        }
    }
}

impl From<AllocError> for WriteFault {
    ghost from_gives = { λ _ e. e ≡ Memory };

    fn from(_error: AllocError) -> WriteFault {
        WriteFault::Memory
    }
}
