//! Checks extension markers in bounded modules, and the order of the additions after them.
#![tactic(auto)]

mod check;
mod fault;
mod items;
mod keeping;
pub mod law;
mod members;
mod order;

pub use fault::ExtFault;
pub use keeping::additions;
