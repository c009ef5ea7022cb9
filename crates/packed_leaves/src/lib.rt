//! Values without other values in them, as bits of the packed encodings (X.691, 12 to 14, 16 to 18, 24, 25 and 30).
#![tactic(auto)]

mod bit_string;
mod item;
mod leaf;
mod number;
mod octets;
mod text;
pub mod value;

pub use leaf::push_leaf;
