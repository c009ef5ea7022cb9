//! The lines of all faults, of which many would need a long text, for a row.
#![tactic(auto)]

mod faults;

pub use faults::fault_lines;
