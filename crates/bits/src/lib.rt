//! Lists of bits.
#![tactic(auto)]

mod append;
#[doc(hidden)]
pub mod block;
pub mod buffer;
pub mod cursor;
mod held;
mod load;
mod memory;
mod octets;
mod pack;
