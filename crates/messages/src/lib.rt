//! The faults of a request, with the number and the name of each and the exit status that it gives.
#![tactic(auto)]

mod classes;
mod fault;

pub use fault::{BitDecodeError, DecodeError, Fault, Finding, NotationFault, name, number, status};

// Libraries that crates above name through this one.
pub use front_end;
pub use front_end::value_diagnostics;
