//! Values in value notation (X.680), as they are printed.
#![tactic(auto)]

pub mod leaf;
pub mod names;
mod print_fault;
pub mod string;
mod value;

pub use print_fault::Fault;
pub use value::{print, print_shown};
