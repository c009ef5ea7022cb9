//! Accounts of encodings as text in JSON, written and read.
#![tactic(auto)]

mod account_fault;
mod kind;
pub mod law;
mod read;
mod stack;
mod stop;
mod write;

pub use account_fault::AccountFault;
pub use read::from_json;
pub use stop::{Stop, stop_of};
pub use write::to_json;
