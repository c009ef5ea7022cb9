//! Which tokens can come next in a module's text: the rules of the notation, and what they allow after the start of a
//! text.
#![tactic(auto)]

mod constraint_rules;
mod following;
mod kinds;
mod module_rules;
mod rules;
mod stacks;
mod tokens;
mod type_rules;
mod value_rules;

pub use following::expected;
pub use kinds::ALL;
pub use stacks::is_same;
