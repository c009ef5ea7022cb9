//! The law of reading: a routine reads exactly what octets mean (X.690, 8.1 to 8.14).
#![tactic(auto)]

pub mod law;
