//! Items after their number, in the packed encodings (X.691, 11.9).
#![tactic(auto)]

mod count;
pub mod law;
mod number;
mod octets;
mod size;

pub use count::push_count;
pub use number::push_number;
pub use octets::{push_counted_octets, push_octets};
pub use size::push_size;
