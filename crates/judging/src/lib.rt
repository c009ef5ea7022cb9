//! Decides whether octets are a shortest encoding of a value, by the account beside them. The front end says what the
//! texts of modules and the names mean, and the checker judges. No codec program is compiled or run.
#![tactic(auto)]

mod judged;
pub mod law;
mod words;

pub use account_checker::reason::{Reason, Verdict};
pub use judged::judge;
pub use named_values::ValueGiven;
pub use words::answer;

// Libraries that crates above name through this one.
pub use named_values;
pub use named_values::{front_end, messages};
