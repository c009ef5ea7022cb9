//! What the calls of the codec answer, together, of any schema, type and value: one law, without texts of modules.
//! `calls` has these calls, and proves of each the clauses that the law asks of its result.
#![tactic(auto)]

pub mod calls;
mod law;

pub use law::headline;
