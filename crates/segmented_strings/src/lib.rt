//! Contents octets of constructed strings: segments, which may be constructed again, joined to one string (X.690,
//! 8.6.4, 8.7.3 and 8.23).
#![tactic(auto)]

mod bits;
mod fault;
mod joined;
pub mod law;
mod read;
mod segment;
mod text;

pub use fault::{SegmentError, SegmentsFault};
pub use read::{Reassembled, read_segments};
