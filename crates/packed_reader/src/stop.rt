//! Why reading stops.

ghost use Rattle.packed_reader.specs.declared.stop.Stop.TheVariants.{Memory};
ghost use Rattle.packed_reader.specs.proving.Code.{IsStopAt, IsStopOf, IsWithin};
ghost use Rattle.std.specs.Prelude.{◌≡◌};

use crate::part::Part;
use decode_faults::Refusal;
use packed_readings::PackedFault;
use std::alloc::{AllocError, AllocFailed, Global};

/// Why reading stops: an allocation failed; or the bits have a fault, in these parts of the value, the outermost first.
#[derive(Drop)]
pub(crate) enum Stop {
    Memory,
    Refused(Refusal, Vec<Part>),
}

impl From<AllocError> for Stop {
    ghost from_gives = { λ _ e. e ≡ Memory };

    fn from(_e: AllocError) -> Stop {
        Stop::Memory
    }
}

impl<T: Drop> From<AllocFailed<T>> for Stop {
    ghost from_gives = { λ _ e. e ≡ Memory };

    fn from(_e: AllocFailed<T>) -> Stop {
        Stop::Memory
    }
}

impl Stop {
    /// A fault of the value itself.
    #[inline(always)]
    pub(crate) fn at(alloc: Global, refusal: Refusal) -> Stop
        ensures { IsStopAt refusal result }
    {
        Stop::Refused(refusal, Vec::new(alloc))
    }

    /// What a call without parts reports.
    pub(crate) fn of(alloc: Global, fault: PackedFault) -> Stop
        ensures { IsStopOf fault result }
    {
        match fault {
            PackedFault::Memory => Stop::Memory,
            PackedFault::Refused(refusal) => Stop::at(alloc, refusal),
        }
    }

    /// The same, within a part of the value.
    #[inline(never)]
    pub(crate) fn within(self, part: Part) -> Stop
        ensures { IsWithin part self result }
    {
        match self {
            Stop::Memory => Stop::Memory,
            Stop::Refused(refusal, path) => {
                let mut path = path;
                match path.insert(0, part) {
                    Ok(()) => Stop::Refused(refusal, path),
                    Err(_) => Stop::Memory,
                }
            }
        }
    }
}
