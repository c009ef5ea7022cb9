//! The check that an account describes how octets encode a value (X.690, 8.1, 8.9 to 8.14, 10 and 11).
#![tactic(auto)]

mod checking;
pub mod checks;
mod components;
mod elements;
mod follow;
mod header;
pub mod law;
mod leaf;
mod order;
mod places;
pub mod reason;
mod skipped;
mod walk;

pub use checking::check;
