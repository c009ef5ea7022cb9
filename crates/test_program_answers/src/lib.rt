//! Answers rows of tests by the calls that the programs asnc and octcheck make, and makes these calls again.
//!
//! The first word of a row is a command, and the second is the name of the row. `line`, `notation`, `asnc` and
//! `octcheck` ask for what the program prints, or for the line of its fault. `job` and `octjob` ask for what the words
//! of a command line say, and `faults` asks for the lines of all faults. Each is described at its function. A [`Task`]
//! is the job of a row, which is done again with sinks that fail and with less memory.
#![tactic(auto)]

mod programs;
mod requests;
mod tasks;

pub use programs::{Asked, asked_in, asked_of, call};
pub use requests::{is_wanted, text_octets};
pub use tasks::{Sent, Starving, Stopped, Task, Way};

// Libraries that crates above name through this one.
pub use check_jobs;
pub use command_line;
pub use jobs::{asnc, judging};
