//! Encodings of values: definitions in `specs`, and the laws about them that other crates use.
#![tactic(auto)]

mod encoding_law;
mod header_law;
mod leaf_kind;

pub use encoding_law::{
    account_laws, der_laws, existence_laws, leaf_laws, length_laws, level_laws, message_laws,
    reading_laws, schema_laws, unsorted_laws, writer_laws,
};
pub use header_law::{header_laws, part_laws};
pub use leaf_kind::LeafKind;
