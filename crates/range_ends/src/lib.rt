//! The numbers that ends of ranges stand for, and the numbers and characters that ranges allow.
#![tactic(auto)]

mod circle;
mod ends;
mod far;
mod finder;
mod forks;
mod keys;
pub mod law;
mod notes;
mod posting;
mod program;
mod reference_table;
mod signposts;
mod written_ranges;

pub use ends::EndFault;
pub use reference_table::ReferenceTable;
pub use written_ranges::{Counted, RangeContext, RangeFault, RangesFault, ranges_at};
