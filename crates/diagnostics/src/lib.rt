//! What a user reads about a fault: one line, and the line of the text that contains it.
#![tactic(auto)]

mod describe_names;
mod describe_notations;
mod describe_readings;
mod describe_texts;
mod describe_types;
mod describe_values;
mod diagnostic;
mod finding;
mod heading;
mod locations;
mod placing;
mod request;

pub use diagnostic::{report, report_line};

// Libraries that crates above name through this one.
pub use messages;
pub use messages::front_end;
