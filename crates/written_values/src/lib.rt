//! Reads texts that are notations of values. Such a text can be given in place of the name of a value.
#![tactic(auto)]

pub mod law;
mod written;

pub use written::{ValueTextFault, parse_value};
