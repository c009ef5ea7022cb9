//! A machine of frames, which runs a routine over a value.
#![tactic(auto)]

mod backend;
mod fault;
mod frame;
mod in_place;
mod machine;
mod open_row;
mod push;
mod run_step;
mod sequence;
mod value_parts;

pub use backend::Backend;
pub use fault::RunFault;
pub use machine::run;
pub use open_row::OpenRow;
