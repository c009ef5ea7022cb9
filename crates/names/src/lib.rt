//! What the names of modules mean: their assignments, imports and exports.
#![tactic(auto)]

pub mod counts;
mod exports;
pub mod fault;
pub mod gather;
mod hashing;
pub mod law;
pub mod scope;
pub mod sources;
pub mod standing;

pub use counts::within_limits;
pub use fault::{Limit, NameFault};
pub use hashing::NameHasher;
pub use scope::{Assigned, Names, Origin, Scope};
pub use sources::{AssignedAt, Header, MemberIndex, Source, ValueAt};
pub use standing::check_all;
