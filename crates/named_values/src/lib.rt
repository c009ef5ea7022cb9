//! Finds types and values of accepted modules by their names, as in texts of the form `Module.Name`. It also finds the
//! value of a notation under a named type: that of a named value, or a notation that is given as a text.
#![tactic(auto)]

mod given;
pub mod law;
mod meaning;
mod naming;

pub use given::ValueGiven;
pub use meaning::meant;
pub use naming::{named_type, notation_at, type_number, value_number};

// Libraries that crates above name through this one.
pub use messages;
pub use messages::front_end;
