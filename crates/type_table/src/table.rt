//! The written types, each by its number.

use asn_base::tag::Tag;
use names::MemberIndex;
use trees::{
    At, ConstraintSyntax, ElementsKind, Keyword, ListKind, PresenceSyntax, Simple, Standing,
    TagDefault,
};

/// A member of a list: its identifier, the number of its type, whether it may be absent, and whether it is in the root.
pub struct ListMember {
    pub name: At<String>,
    pub ty: usize,
    pub presence: PresenceSyntax,
    pub standing: Standing,
}

/// The shape of one written type. The types in it are given by their numbers.
pub enum Shape {
    /// A type that holds no other type.
    Simple(Simple),
    /// The number of the type that a name refers to.
    Reference(usize),
    /// A tag, the word after it, and the number of the tagged type.
    Tagged(Tag, Keyword, usize),
    /// SEQUENCE, SET or CHOICE. The flag says whether it has an extension marker. The members of the root come first,
    /// in order, and then the additions.
    Members(ListKind, bool, Vec<ListMember>),
    /// SEQUENCE OF or SET OF, and the number of the type of its elements.
    Elements(ElementsKind, usize),
}

/// A written type.
pub struct TypeNode {
    /// The offset in the text at which the type begins, in octets.
    pub at: usize,
    pub shape: Shape,
    /// The constraints after it, in order.
    pub constraints: Vec<ConstraintSyntax>,
    /// The tag default of its module.
    pub default: TagDefault,
    /// Its list and its place there, if it is a member.
    pub place: Option<MemberIndex>,
    /// The number of its assignment.
    pub assignment: usize,
}

impl Drop for ListMember {
    fn drop(self) {
        let ListMember {
            name: _,
            ty: _,
            presence: _,
            standing: _,
        } = self;
    }
}

impl Drop for Shape {
    fn drop(self) {
        match self {
            Shape::Simple(_) => {}
            Shape::Reference(_) => {}
            Shape::Tagged(_, _, _) => {}
            Shape::Members(_, _, _) => {}
            Shape::Elements(_, _) => {}
        }
    }
}

impl Drop for TypeNode {
    fn drop(self) {
        let TypeNode {
            at: _,
            shape: _,
            constraints: _,
            default: _,
            place: _,
            assignment: _,
        } = self;
    }
}
