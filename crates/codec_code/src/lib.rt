//! Codec programs: for each type of a schema a routine of steps, which encoders and decoders run.
#![tactic(auto)]

mod build;
mod by_leaves;
mod code;
mod default;
mod fault;
pub mod law;
mod lines;
mod routine;
mod step;
mod summary;

pub use build::compile;
pub use code::Code;
pub use fault::Fault;
pub use lines::{listing, push_steps};
pub use step::{Coding, Field, FieldPresence, Head, RowKind, Step};
pub use summary::Summary;
