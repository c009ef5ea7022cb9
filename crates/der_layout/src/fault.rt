//! Why a value was not encoded.

use thiserror::Error;

/// Why a value was not encoded. `Memory`: an allocation failed. `NotOfType`: the value isn't one of the type.
/// `TooLong`: its encoding has more than 16,777,216 octets.
#[derive(Clone, Copy, Debug, PartialEq, Eq, Error)]
pub enum EncodeFault {
    #[error("1 Memory")]
    Memory,
    #[error("70 NotOfType")]
    NotOfType,
    #[error("71 TooLong")]
    TooLong,
}
