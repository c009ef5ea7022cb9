//! Values made by the names of their components, alternatives, items and bits.
#![tactic(auto)]

mod bit_names;
mod build_fault;
mod fields;
pub mod names;
mod parts;

pub use bit_names::{bit_string, named_bits, set_bits};
pub use build_fault::BuildFault;
pub use fields::Fields;
pub use parts::{alternative, item};
