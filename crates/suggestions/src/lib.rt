//! What can come at a place of a text, and what may have been meant by a name that means nothing.
#![tactic(auto)]

mod hint;
mod near;
mod wants;

pub use hint::{did_you_mean, is_small};
pub use near::is_near;
pub use wants::{wanted, wanted_in_value};
