//! What the calls of the front end answer, together, of any texts of modules: one law. `calls` has these calls, and
//! proves of each the clauses that the law asks of its result.
#![tactic(auto)]

pub mod calls;
mod law;

pub use law::headline;
