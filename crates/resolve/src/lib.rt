//! Linked modules: the meanings of their names, and their types with their numbers (X.680, clauses 13, 14 and 16). Each
//! name after a module's name in a notation is that of a value.
#![tactic(auto)]

pub mod law;
pub mod linked;
pub mod linking;
mod name_index;
mod named_shape;
mod qualified;
mod sound;

pub use linked::{Linked, QualifiedName, Referent};
pub use linking::link;
pub use named_shape::NamedShape;
pub use sound::lemma_faults_exclude_sound;
