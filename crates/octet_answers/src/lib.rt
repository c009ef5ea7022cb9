//! What octets answer when a routine reads them by the basic rules (X.690, 8.1 to 8.14): definitions in `specs`, and
//! their laws.
#![tactic(auto)]

pub mod law;
