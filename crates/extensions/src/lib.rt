//! The schema of bounded modules, whose additions, DEFAULTs and value assignments are checked first (X.680, clauses 16,
//! 20, 25, 27 and 29).
#![tactic(auto)]

mod accepted;
mod assigned;
mod builder;
mod defaults;
mod each_type;
mod equal;
mod fault;
mod items;
pub mod law;
mod members;
mod pool;
mod schema;
mod simple;
mod tags;
mod types;
mod wrong;

pub use accepted::settle;
pub use fault::ExtFault;
pub use schema::settled_types;

// Libraries that crates above name through this one.
pub use settled::{additions, schema_of, spelled, values};
