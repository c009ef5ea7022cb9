//! Decoded values by the names of their components, alternatives and items.
#![tactic(auto)]

mod elements;
mod named_fields;
mod part;

pub use elements::Elements;
pub use named_fields::NamedFields;
pub use part::NamedValueRef;
