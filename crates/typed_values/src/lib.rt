//! The value that a notation stands for under a type.
#![tactic(auto)]

mod chained;
mod chains;
mod fault;
mod followed;
mod forms;
pub mod law;
mod levels;
mod lists;
mod named;
mod naming;
mod outcome;
mod reader;
mod reading;
mod simple;
mod stops;
mod written;

pub use fault::{Cause, ValueFault, ValueSite};
pub use levels::Defaults;
pub use reading::{check_with, read_with, typed};

// Libraries that crates above name through this one.
pub use values::constraints;
