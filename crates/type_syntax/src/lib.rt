//! The notation of ASN.1 types.
#![tactic(auto)]

mod braces;
pub mod law;
pub mod listing;
pub mod types;
