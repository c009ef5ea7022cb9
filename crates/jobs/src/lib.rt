//! Does what a command line asks for: from the job and the contents of its files to the octets on standard output.
#![tactic(auto)]

mod answers;
mod commands;
mod commands_of_lines;
mod line_jobs;
mod outputs;
mod refusals;
mod showing;
mod streams;
mod versions;

pub use answers::{Lines, answer};
pub use check_jobs::{Inputs, Output};
pub use commands::command_output;
pub use commands_of_lines::{LineCommand, line_command};
pub use line_jobs::{LineJob, work_lines};
pub use outputs::{output, work};
pub use refusals::LineFault;
pub use streams::stream;

// Libraries that crates above name through this one.
pub use asnc;
pub use asnc::messages;
pub use check_jobs::judging;
