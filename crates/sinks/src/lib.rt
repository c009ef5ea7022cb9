//! Sinks take octets and count the calls that failed.
#![tactic(auto)]

mod counted;
mod memory;
mod send;
mod sink;
mod stops;

pub use counted::Counted;
pub use memory::InMemory;
pub use send::send_all;
pub use sink::Sink;
pub use stops::Stops;
