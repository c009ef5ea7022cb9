//! A machine that runs a routine over a source, to read a value. Whatever the source's answers mean, the machine takes
//! exactly the answers that the routine asks for, and fails only if a question has no answer or an allocation fails.
#![tactic(auto)]

mod ask;
mod frame;
mod machine;
mod source;
mod whole;

pub use machine::read;
pub use source::Source;
