//! The first rule of DER that octets break which encode a value by BER, and where, in words (X.690, 10 and 11).
//! `der_check` finds the rule; the part of the value that breaks it is found from the offset.
#![tactic(auto)]

mod broken;
mod label;
mod parts;
mod rule;
mod site;

pub use broken::{Encoded, Violation, broken_rule};
