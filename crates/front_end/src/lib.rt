//! The front end as one library: from the texts of modules to their program and their types, or the first fault.
#![tactic(auto)]

mod building;
mod fault;
mod front;
pub mod law;
mod modules;
mod reading;

pub use fault::CompileError;
pub use front::{CheckedModules, open};
pub use modules::{Modules, ValueError};

// Libraries that crates above name through this one.
pub use constraints;
pub use extensions::additions;
pub use tagging;
pub use value_diagnostics;
