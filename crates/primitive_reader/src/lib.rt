//! Primitive contents octets of kinds that hold no others. They are read by the basic rules and checked against the
//! distinguished ones (X.690, 8.2 to 8.8, 8.19, 8.20, 8.23, 10 and 11). Strings are slices of what is read.
#![tactic(auto)]

mod arcs;
mod bits;
mod der;
mod fault;
pub mod law;
mod leaf;
mod number;
mod septets;
mod text;

pub use bits::read_bits;
pub use der::is_distinguished;
pub use fault::LeafFault;
pub use leaf::{Leaf, read_leaf};
pub use number::worth;
pub use septets::read_arc;
