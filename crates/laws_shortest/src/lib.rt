//! What a writer answers is right by the checker.
#![tactic(auto)]

pub mod law;
mod written;

pub use written::check_of_list;
