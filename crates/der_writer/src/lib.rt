//! Encodes values by the distinguished rules (X.690, 8, 10 and 11), into a list or to any sink. Before the first octet
//! goes to a sink, the whole encoding is in memory.
#![tactic(auto)]

mod fault;
pub mod law;
mod to_list;
mod to_sink;

pub use fault::WriteFault;
pub use sinks::{Counted, InMemory, Sink, Stops};
pub use to_list::write_der;
pub use to_sink::write_der_to;
