//! The rows of an account that the routine of a type gives. The crate has definitions and laws, and no code that runs.
#![tactic(auto)]

pub mod law;
