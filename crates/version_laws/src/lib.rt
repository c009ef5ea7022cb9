//! The laws of reading between versions of a type (X.680, 7, 25, 27 and 29; X.690, 8.9 and 8.11;
//! X.691, 19 to 23).
#![tactic(auto)]

mod earlier;
mod later;
pub mod law;
pub mod packed_law;

pub use earlier::read_of_later;
pub use later::{read_der_of_earlier, read_of_earlier};
