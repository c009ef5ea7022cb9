//! The encoding of a value by the distinguished rules (X.690, 10 and 11), written once into one list of octets, and the
//! rows of its account.
#![tactic(auto)]

mod arcs;
mod backend;
mod closing;
mod encoding;
mod fault;
mod header;
pub mod law;
mod places;
mod rows;
mod sort;
mod spans;
mod steps;
mod table;
mod word;

pub use encoding::{Encoded, encode};
pub use fault::EncodeFault;
