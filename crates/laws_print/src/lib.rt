//! What is printed is read back: laws, and no code that runs.
#![tactic(auto)]

pub mod law;
