//! The trees of the notation: values, constraints, types and modules, with their offsets in the text.
#![tactic(auto)]

pub mod constraint;
pub mod location;
pub mod module;
pub mod types;
pub mod value;

pub use constraint::{
    CharsSyntax, ConstraintForm, ConstraintSyntax, EndSyntax, RangeSyntax, RangesSyntax,
};
pub use location::{At, QualifiedName, Reference, ReferenceNames, SourceLocation};
pub use module::{Assignment, Import, Module, TagDefault, TypeAssignment, ValueAssignment};
pub use types::{
    ElementsKind, EnumeratedItem, EnumeratedSyntax, Keyword, ListKind, Member, NamedBit,
    NamedNumber, PresenceSyntax, Simple, Standing, TypeForm, TypeSyntax,
};
pub use value::{Named, ValueForm, ValueSyntax};
