//! The contents octets of values without other values in them, by the distinguished rules (X.690, 8.2 to 8.8, 8.19,
//! 8.20, 8.23, 10 and 11). They are pieces of the value and a few octets more, so they take no memory.
#![tactic(auto)]

mod arcs;
mod bits;
mod buffer;
pub mod law;
mod leaf;
mod len;
mod number;
mod push;
mod short;

pub use buffer::{Buffer, push_digits, push_septets};
pub use leaf::{PrimitiveContents, primitive_contents, short_contents};
pub use len::{octet_count, primitive_len};
pub use push::push_leaf;
pub use short::{ShortContents, short_len};
