//! The notation of ASN.1 values and constraints.
#![tactic(auto)]

pub mod answer;
pub mod constraint_answer;
pub mod constraint_reading;
pub mod law;
pub mod names;
pub mod numbers;
pub mod reading;
pub mod refused;
pub mod syntax_fault;
pub mod unions;

pub use answer::value_at;
pub use constraint_answer::{constraint_at, size_at};
pub use parser_combinators::{Limit, ReadError};
pub use syntax_fault::SyntaxFault;
pub use trees::{
    CharsSyntax, ConstraintForm, ConstraintSyntax, EndSyntax, Named, RangeSyntax, RangesSyntax,
    ValueForm, ValueSyntax,
};
