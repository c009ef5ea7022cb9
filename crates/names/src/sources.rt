//! What modules give, by number: headers, assignments, the types that are assigned, and the values.

use trees::{At, TagDefault, TypeSyntax, ValueSyntax};

/// The list that a type is a member of, by its type's number, and which member it is, counted from 0.
#[derive(Clone, Copy, Debug, PartialEq, Eq)]
pub struct MemberIndex {
    pub list: usize,
    pub number: usize,
}

/// A type that has a number and is still to be split into its parts, and the number of the assignment that contains it.
/// A member also has its place.
#[derive(Drop)]
pub struct Source {
    pub syntax: TypeSyntax,
    pub assignment: usize,
    pub place: Option<MemberIndex>,
}

/// A module: its name, and its tag default, which holds for tags without a keyword.
pub struct Header {
    pub name: At<String>,
    pub default: TagDefault,
}

/// The module and the name of an assignment: its module's number, and its name.
pub struct AssignedAt {
    pub module: usize,
    pub name: At<String>,
}

/// A value assignment: its number among all assignments, its type's number, and the value in its notation.
pub struct ValueAt {
    pub assignment: usize,
    pub ty: usize,
    pub syntax: ValueSyntax,
}

impl Drop for Header {
    fn drop(self) {
        let Header {
            name: _,
            default: _,
        } = self;
    }
}

impl Drop for AssignedAt {
    fn drop(self) {
        let AssignedAt { module: _, name: _ } = self;
    }
}

impl Drop for ValueAt {
    fn drop(self) {
        let ValueAt {
            assignment: _,
            ty: _,
            syntax: _,
        } = self;
    }
}
