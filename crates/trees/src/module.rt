//! Trees of modules as they are written.

use crate::location::At;
use crate::types::TypeSyntax;
use crate::value::ValueSyntax;

/// A module as it is written (X.680, clause 13.1).
#[derive(Drop)]
pub struct Module {
    pub name: At<String>,
    /// The tag default, which holds for tags without a keyword.
    pub tag_default: TagDefault,
    /// The names that other modules may import (X.680, clause 13.7). None if the module has no list of exports: then
    /// all that it assigns is exported.
    pub exports: Option<Vec<At<String>>>,
    /// The names from other modules, in the order of the text (X.680, clause 13.12).
    pub imports: Vec<Import>,
    /// The assignments, in the order of the text.
    pub assignments: Vec<Assignment>,
}

/// The tag default, given by the word before `TAGS` (X.680, clause 13.2).
#[derive(Clone, Copy)]
pub enum TagDefault {
    /// `EXPLICIT TAGS`, or nothing.
    Explicit,
    /// `IMPLICIT TAGS`
    Implicit,
    /// `AUTOMATIC TAGS`
    Automatic,
}

/// Names, at least one, and the module that they are imported from: `a, B FROM Module` (X.680, clause 13.13).
#[derive(Drop)]
pub struct Import {
    pub names: Vec<At<String>>,
    pub module: At<String>,
}

/// An assignment (X.680, clause 13.1).
#[derive(Drop)]
pub enum Assignment {
    Type(TypeAssignment),
    Value(ValueAssignment),
}

/// `Name ::= Type` (X.680, clause 16.1).
#[derive(Drop)]
pub struct TypeAssignment {
    pub name: At<String>,
    pub syntax: TypeSyntax,
}

/// `name Type ::= value` (X.680, clause 16.2).
#[derive(Drop)]
pub struct ValueAssignment {
    pub name: At<String>,
    pub syntax: TypeSyntax,
    pub value: ValueSyntax,
}
