//! Why octets or bits can't be read, with the numbers of the faults. No code that reads is here, so that messages of
//! faults can be written without it.
#![tactic(auto)]

mod read_fault;
mod refusal;

pub use read_fault::ReadFault;
pub use refusal::Refusal;
