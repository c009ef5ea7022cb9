//! A schema with types of each kind, for rows and tests of the crates that use schemas.
#![tactic(auto)]

mod types;

pub use types::{schema, type_named};
