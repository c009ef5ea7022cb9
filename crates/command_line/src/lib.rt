//! Reads the words of a command line: what they ask for, or what is wrong with them.
#![tactic(auto)]

mod arguments;
mod asked;
mod commands;
mod fault;
mod lines;
mod octets;
mod request;
mod values;
mod words;

pub use fault::WordsFault;
pub use request::{Command, Given, Job, ModuleTexts, ValueWords, Verb};
pub use words::{command, job};
