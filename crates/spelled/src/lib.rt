//! How names in modules are spelled, and that what is read is spelled so: definitions and laws, and no code that runs.
#![tactic(auto)]

pub mod law;
