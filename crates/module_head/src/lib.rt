//! The notation of a module's head: its name, its tag default, its exports and its imports.
#![tactic(auto)]

pub mod head;
pub mod heading;
pub mod importing;
pub mod law;
