//! Schemas of linked modules: definitions and laws, and no code that runs.
#![tactic(auto)]

pub mod law;

// Libraries that crates above name through this one.
pub use values;
