//! Why a routine stopped before its end.

ghost use Rattle.codec_machine.specs.declared.fault.RunFault.TheVariants.{Memory};
ghost use Rattle.std.specs.Prelude.{◌≡◌};

use std::alloc::{AllocError, AllocFailed};
use thiserror::Error;

/// Why a routine stopped before its end. `Memory`: an allocation failed. `NotOfType`: the routine has no events for the
/// value, so the value isn't one of the type.
#[derive(Clone, Copy, Debug, PartialEq, Eq, Error)]
pub enum RunFault {
    #[error("1 Memory")]
    Memory,
    #[error("70 NotOfType")]
    NotOfType,
}

impl From<AllocError> for RunFault {
    ghost from_gives = { λ _ e. e ≡ Memory };

    fn from(_e: AllocError) -> RunFault {
        RunFault::Memory
    }
}

impl<T: Drop> From<AllocFailed<T>> for RunFault {
    ghost from_gives = { λ _ e. e ≡ Memory };

    fn from(_e: AllocFailed<T>) -> RunFault {
        RunFault::Memory
    }
}
