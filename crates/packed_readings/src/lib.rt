//! What is read from the start of some bits, in the packed encodings: numbers of items, octets after their number, and
//! values of the kinds that hold no others. Each function of `specs` computes what is found, or the first fault.
#![tactic(auto)]

mod arcs;
mod bit_string;
mod character;
mod count;
mod field;
mod free;
mod integer;
mod item;
pub mod law;
mod leaf;
mod number;
mod range;
mod refusal;
mod size;
mod strings;
mod text;
mod within;

pub use arcs::{read_object_identifier, read_relative_oid};
pub use bit_string::{read_bit_string, read_named_bits};
pub use count::{Count, read_count};
pub use field::{read_bit, read_field, read_small};
pub use integer::read_integer;
pub use item::read_item;
pub use refusal::PackedFault;
pub use size::{Sizing, read_size, size_fault};
pub use strings::{read_octet_string, read_octets};
pub use text::{read_restricted_string, read_utf8_string};
pub use within::{characters, read_leaf};
