//! Encodes values as messages of unaligned canonical PER (X.691). The steps of a type's packed routine are run over the
//! value.
#![tactic(auto)]

mod default;
mod fault;
mod fields;
mod items;
pub mod law;
mod message;
mod open;
mod run;
mod typed;
mod values;
mod weight;

pub use default::is_default;
pub use fault::WriteFault;
pub use fields::{after, field_of, first, next};
pub use message::write_uper;
pub use run::size_of;
