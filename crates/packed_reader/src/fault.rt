//! Why messages can't be decoded.

use crate::part::Part;
use decode_faults::Refusal;
use thiserror::Error;

/// The first fault of a message: what it is, at which bit of the message, counted from 0, and the parts of the value
/// that it is in, the outermost first.
#[derive(Debug, Drop)]
pub struct RefusedBits {
    pub refusal: Refusal,
    pub bit: usize,
    pub path: Vec<Part>,
}

/// Why a message can't be decoded. `Memory`: there is not enough memory.
#[derive(Debug, Drop, Error)]
pub enum PerFault {
    #[error("1 Memory")]
    Memory,
    /// The message has more than 16,777,216 octets.
    #[error("2 Limit(Message)")]
    MessageLimit,
    /// The bits have a fault.
    #[error("{}", .0.refusal)]
    Refused(RefusedBits),
}
