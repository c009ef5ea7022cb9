//! Trees of types as they are written.

use crate::constraint::ConstraintSyntax;
use crate::location::{At, Reference};
use crate::value::ValueSyntax;
use asn_base::strings::StringKind;
use asn_base::tag::Tag;

/// A type as it is written (X.680, clause 17.1), with the constraints after it, in order (X.680, clause 49.1). The size
/// of a list type is its only constraint: `SEQUENCE SIZE (1..4) OF` says what a constraint after the list would say. A
/// tagged type has no constraints: they belong to the type after the tag.
#[derive(Drop)]
pub struct TypeSyntax {
    /// The offset of its first octet in the module's text.
    pub at: usize,
    pub form: TypeForm<TypeSyntax>,
    pub constraints: Vec<ConstraintSyntax>,
}

/// The forms of types. `T` is the type of the types inside a type.
#[derive(Drop)]
pub enum TypeForm<T> {
    /// A type that holds no other type.
    Simple(Simple),
    /// The name of a type.
    Reference(Reference),
    /// SEQUENCE, SET or CHOICE, whether it has an extension marker, and its members. Those of the root come first, in
    /// order, and then the additions (X.680, clauses 25.1, 27.1 and 29.1).
    List(ListKind, bool, Vec<Member<T>>),
    /// SEQUENCE OF or SET OF, and the type of the elements (X.680, clauses 26.1 and 28.1).
    Elements(ElementsKind, Box<T>),
    /// A tag, which is not universal, its keyword and the type after it (X.680, clause 31.2).
    Tagged(Tag, Keyword, Box<T>),
}

/// A type that holds no other type.
pub enum Simple {
    /// `BOOLEAN`
    Boolean,
    /// `INTEGER` with its named numbers, if there are any (X.680, clause 19.1).
    Integer(Vec<NamedNumber>),
    /// `BIT STRING` with its named bits, if there are any (X.680, clause 22.1).
    BitString(Vec<NamedBit>),
    /// `OCTET STRING`
    OctetString,
    /// `NULL`
    Null,
    /// `OBJECT IDENTIFIER`
    ObjectIdentifier,
    /// `RELATIVE-OID`
    RelativeOid,
    /// `ENUMERATED {..}` (X.680, clause 20.1).
    Enumerated(Box<EnumeratedSyntax>),
    /// `UTF8String`
    Utf8String,
    /// `NumericString`, `PrintableString`, `IA5String`, and `VisibleString` or `ISO646String`.
    Restricted(StringKind),
}

/// The kinds of lists of members.
#[derive(Clone, Copy, PartialEq, Eq)]
pub enum ListKind {
    Sequence,
    Set,
    Choice,
}

/// The kinds of types that have elements.
#[derive(Clone, Copy, PartialEq, Eq)]
pub enum ElementsKind {
    /// `SEQUENCE OF`
    SequenceOf,
    /// `SET OF`
    SetOf,
}

/// The keyword after a tag (X.680, clause 31.2.1).
#[derive(Clone, Copy, PartialEq, Eq)]
pub enum Keyword {
    /// No keyword.
    Absent,
    /// `IMPLICIT`
    Implicit,
    /// `EXPLICIT`
    Explicit,
}

/// `name (-1)`: a number's name, and the number.
pub struct NamedNumber {
    pub name: At<String>,
    pub number: i128,
}

/// `name (0)`: a bit's name and its place, counted from 0.
pub struct NamedBit {
    pub name: At<String>,
    pub place: u128,
}

/// The items of an enumeration: those of the root, at least one, and those after the extension marker, if there is one.
pub struct EnumeratedSyntax {
    pub root: Vec<EnumeratedItem>,
    pub additions: Option<Vec<EnumeratedItem>>,
}

/// `name` or `name (-1)`: an item's name and its number, if it is given.
pub struct EnumeratedItem {
    pub name: At<String>,
    pub number: Option<i128>,
}

/// A member of a SEQUENCE, a SET or a CHOICE (X.680, clauses 25.1 and 29.1). It has a name, a type, whether it may be
/// absent, and whether it is of the root or an addition. An alternative is mandatory.
#[derive(Drop)]
pub struct Member<T> {
    pub name: At<String>,
    pub syntax: T,
    pub presence: PresenceSyntax,
    pub standing: Standing,
}

/// What follows a member's type (X.680, clause 25.1).
pub enum PresenceSyntax {
    /// Nothing.
    Mandatory,
    /// `OPTIONAL`
    Optional,
    /// `DEFAULT` and a value.
    Default(Box<ValueSyntax>),
}

/// Whether a member is of the root of its list or an addition (X.680, clause 25.1).
#[derive(Clone, Copy, PartialEq, Eq)]
pub enum Standing {
    /// The member comes before the extension marker, or the list has no marker.
    Root,
    /// The member comes after the marker. If it is within version brackets, the number is that of the brackets, counted
    /// from 0 in the list.
    Addition(Option<usize>),
}

impl Drop for Simple {
    fn drop(self) {
        match self {
            Simple::Boolean => {}
            Simple::Integer(_) => {}
            Simple::BitString(_) => {}
            Simple::OctetString => {}
            Simple::Null => {}
            Simple::ObjectIdentifier => {}
            Simple::RelativeOid => {}
            Simple::Enumerated(_) => {}
            Simple::Utf8String => {}
            Simple::Restricted(_) => {}
        }
    }
}

impl Drop for NamedNumber {
    fn drop(self) {
        let NamedNumber { name: _, number: _ } = self;
    }
}

impl Drop for NamedBit {
    fn drop(self) {
        let NamedBit { name: _, place: _ } = self;
    }
}

impl Drop for EnumeratedSyntax {
    fn drop(self) {
        let EnumeratedSyntax {
            root: _,
            additions: _,
        } = self;
    }
}

impl Drop for EnumeratedItem {
    fn drop(self) {
        let EnumeratedItem { name: _, number: _ } = self;
    }
}

impl Drop for PresenceSyntax {
    fn drop(self) {
        match self {
            PresenceSyntax::Mandatory => {}
            PresenceSyntax::Optional => {}
            PresenceSyntax::Default(_) => {}
        }
    }
}
