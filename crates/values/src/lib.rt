//! The rules on notations of values in braces, and which alternative a notation chooses.
#![tactic(auto)]

mod allowed;
mod arranging;
pub mod law;
mod lookup;
mod order;

pub use allowed::is_allowed;
pub use arranging::{NamesFault, arranged};
pub use lookup::alternative;

// Libraries that crates above name through this one.
pub use constraints;
