//! When a schema is the one that linked modules stand for, and which rules it fulfils: definitions and laws, and no
//! code that runs.
#![tactic(auto)]

pub mod law;

// Libraries that crates above name through this one.
pub use additions;
pub use schema_of;
pub use schema_of::values;
pub use spelled;
