//! What notations of values stand for.
#![tactic(auto)]

mod bit_strings;
mod digits;
mod forms;
pub mod law;
mod leaf;
pub mod leaves;
pub mod opened;
pub mod references;
