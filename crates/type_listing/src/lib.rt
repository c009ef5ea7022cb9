//! A listing of the types of modules, to be read by people. For each type it has its number, the place where it is
//! written, its tags, and the steps of its routine.
#![tactic(auto)]

mod heading;
mod listing;
mod tags;

pub use listing::list;
