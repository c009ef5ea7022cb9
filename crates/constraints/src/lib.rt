//! Constraints of tagged types: which numbers, sizes and characters they allow, and which bounds the packed encoding
//! uses.
#![tactic(auto)]

mod bounded;
mod characters;
mod column;
mod fault;
mod kept;
pub mod law;
mod limit;
mod meaning;

pub use bounded::{
    Bounded, allows_character, allows_number, allows_size, alphabet, bound, bound_table, range,
    size,
};
pub use column::BoundTable;
pub use fault::BoundFault;
pub use kept::{codes, constraint};
