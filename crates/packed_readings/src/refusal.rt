//! Why bits can't be read.

use decode_faults::Refusal;
use thiserror::Error;

/// Why a value can't be read. `Memory`: there is not enough memory.
#[derive(Clone, Copy, Debug, PartialEq, Eq, Error)]
pub enum PackedFault {
    #[error("1 Memory")]
    Memory,
    /// The bits have a fault. The cursor that they were read from is at the place of the fault.
    #[error("{0}")]
    Refused(Refusal),
}
