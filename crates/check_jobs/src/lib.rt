//! Does the job of octcheck: it judges octets by the account beside them and writes the verdict to a sink. No codec
//! program is compiled or run.
#![tactic(auto)]

mod checks;
mod inputs;
mod lines;
mod words;

pub use checks::{check, check_output};
pub use inputs::{Inputs, Output, value_of};
pub use lines::{hex_line, with_line_end};
pub use words::refusal;

// Libraries that crates above name through this one.
pub use judging;
