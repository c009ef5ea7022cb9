//! Later versions of types: the same types with additions appended at extension markers (X.680, 7, 20, 25 and 29).
#![tactic(auto)]

mod bits;
mod components;
mod constraints;
mod kinds;
mod lists;
mod members;
mod pairs;
mod projection;
mod reason;
mod same_ranges;
mod sets;
mod tags;
mod text_of;
mod versions;

pub use reason::{Comparison, Difference, Explained, Reason};
pub use versions::{compare, explain, later};
