//! Whether octets that encode a value by the basic rules fulfil the distinguished ones too (X.690, 10 and 11).
#![tactic(auto)]

mod default;
mod fields;
mod heads;
pub mod law;
mod leaf;
mod order;
mod quick;
mod refusal;
mod rule;
mod sets;
mod units;
mod value;

pub use rule::{Breach, RuleOfDer};
pub use value::{first_broken, is_strict};
