//! The parts of types that hold no type.
#![tactic(auto)]

pub mod constrained;
pub mod law;
pub mod named;
pub mod numbers;
pub mod presences;
pub mod references;
pub mod simple_types;
pub mod tags;
