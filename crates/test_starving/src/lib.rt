//! Calls whose allocations fail one after another. First all memory is taken, and then each turn leaves a call a few
//! octets more than the turn before.
#![tactic(auto)]

mod blocks;
mod pool;
mod turns;

pub use pool::Pool;
pub use turns::{Starved, Swept, Turn, sweep_in, turn_of};
