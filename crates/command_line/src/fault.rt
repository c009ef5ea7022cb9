//! Why words ask for no job.

ghost use Rattle.std.specs.Prelude.{◌≡◌};
ghost use Rattle.command_line.specs.declared.fault.WordsFault.TheVariants.{Memory};

use std::alloc::{AllocError, AllocFailed};

/// Why the words of a command line ask for no job.
#[derive(Debug, Drop)]
pub enum WordsFault {
    /// There was not enough memory.
    Memory,
    /// The words ask for help or for the version; the string is its text.
    Help(String),
    /// The words ask for nothing that the program does; the string says what is wrong with them.
    BadWords(String),
}

impl<T: Drop> From<AllocFailed<T>> for WordsFault {
    ghost from_gives = { λ _ e. e ≡ Memory };

    fn from(_error: AllocFailed<T>) -> WordsFault {
        WordsFault::Memory
    }
}

impl From<AllocError> for WordsFault {
    ghost from_gives = { λ _ e. e ≡ Memory };

    fn from(_error: AllocError) -> WordsFault {
        WordsFault::Memory
    }
}
