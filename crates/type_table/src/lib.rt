//! The written types of modules, each with its number: what they refer to, what they unfold to, and the rules of their
//! lists (X.680, clauses 16 to 30).
#![tactic(auto)]

pub mod items;
pub mod law;
pub mod lists;
pub mod number;
pub mod table;
pub mod unfolding;

pub use items::{NumberFault, item_numbers};
pub use table::{ListMember, Shape, TypeNode};

// Libraries that crates above name through this one.
pub use asn_base;
pub use names;
pub use trees;
