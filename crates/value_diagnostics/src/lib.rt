//! What a user reads about a notation that stands for no value of its type: why, in which module, which name, at which
//! offset, and what was expected there.
#![tactic(auto)]

mod expected;
pub mod law;
mod naming;
mod value_diagnostic;

pub use expected::of_ranges;
pub use value_diagnostic::{Reason, ValueDiagnostic, diagnostic, number};

// Libraries that crates above name through this one.
pub use typed_values;
