//! A listing of a message, to be read by people: a line for each header, with its offset, its octets, and what it is in
//! the terms of the message's type (X.690, 8.1).
#![tactic(auto)]

mod first;
mod inside;
pub mod law;
mod line_text;
mod matching;
mod type_names;
mod values;
mod walk;

pub use first::{Encoding, first_encoding};
pub use inside::Types;
pub use line_text::push_hex;
pub use type_names::push_tag;
pub use value_text;
pub use values::kind_word;
pub use walk::list_headers;
