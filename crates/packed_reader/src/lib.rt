//! The reader of packed encodings: what the bits of a message are read as, for a value of any type. The functions of
//! `specs` compute it, or the first fault with its place and the part of the value that it is in.
#![tactic(auto)]

mod absent;
mod addition_bits;
mod additions;
mod alternatives;
mod call;
mod components;
mod elements;
mod fault;
pub mod law;
mod laws_of_running;
mod list;
mod message;
mod open;
mod part;
mod plan;
mod presence;
mod reader;
mod row;
mod scalar;
mod sent;
mod stop;
mod value;

pub use call::{Call, read_call};
pub use fault::{PerFault, RefusedBits};
pub use message::read_uper;
pub use part::Part;
