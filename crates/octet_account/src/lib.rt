//! Accounts of encodings. An account describes, header by header, how the octets are made up (X.690, 8.1).
#![tactic(auto)]

pub mod account;
mod ends;
pub mod law;
pub mod row;
