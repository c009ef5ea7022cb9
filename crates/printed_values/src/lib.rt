//! What is printed is a notation of the same value: laws, and no code that runs.
#![tactic(auto)]

pub mod law;
