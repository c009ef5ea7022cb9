//! Octets as a source, read by the basic rules (X.690, 8.1 to 8.14). The questions of a routine are answered
//! exactly as `octet_answers` defines. What is read is given to a receiver in tokens, whose strings are slices of the
//! message. A `Viewer` builds the view of the value while it is read, and keeps no token.
#![tactic(auto)]

mod arcs;
pub mod asking;
mod build;
mod cursor;
mod judge;
mod leaf;
pub mod log;
pub mod moves;
mod open_contents;
mod outer;
mod passing;
pub mod reader_state;
mod rows;
mod shape;
mod small;
mod token;
mod token_sink;
mod view_sink;

pub use cursor::Viewer;
pub use open_contents::OpenContents;
pub use outer::OuterContents;
pub use token::{PrimitiveToken, PrimitiveValue, StructToken, Token};
pub use token_sink::TokenSink;
pub use view_sink::{Built, ViewSink, marked};
