//! Components with a DEFAULT whose types lead back to the lists that hold them.
#![tactic(auto)]

mod ranks;
mod reach;
pub mod search;

pub use search::circle_of;
