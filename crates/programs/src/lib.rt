//! What the programs share: their words, the files that a job names, and how they end.
#![tactic(auto)]

mod ending;
mod files;
mod words;

pub use ending::{exit_with, exit_with_report};
pub use files::inputs_of;
pub use words::job_of;
