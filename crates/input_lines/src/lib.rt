//! Lines of a reader, one at a time. A line that is too long is passed over, and takes no memory beyond the limit.
#![tactic(auto)]

mod fill;
mod lines;
mod step;

pub use lines::{InputLines, MAX_LINE, NextLine};
