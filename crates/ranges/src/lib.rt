//! Sets of numbers, as ranges in order, and sets of character codes (X.680, 41, 50 and 51).
#![tactic(auto)]

mod codes;
mod join;
pub mod law;
mod meet;
mod set;
mod shared;
mod tree;

pub use codes::Codes;
pub use set::Ranges;
pub use shared::SharedRanges;
