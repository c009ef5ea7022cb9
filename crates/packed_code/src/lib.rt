//! Packed routines: for each type of a schema the steps by which its values are written in the packed encodings.
#![tactic(auto)]

mod build;
mod choice;
mod code;
mod field;
mod routine;
mod routine_law;
mod step;
mod width;

pub use build::compile_packed;
pub use code::PackedCode;
pub use routine_law::routine_laws;
pub use step::{PackedField, PackedStep, RootCall};
pub use width::{fewest, span, width_of_place};
