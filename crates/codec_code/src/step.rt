//! The steps of codec programs.

use asn_base::schema::TypeId;
use asn_base::tag::Tag;
use encodings::LeafKind;

/// The kind of a header's row in an account: contents that hold no others, an explicit tag, or members.
#[derive(Clone, Copy, PartialEq, Eq, Debug)]
pub enum RowKind {
    Leaf,
    Wrap,
    Sequence,
    Set,
    SequenceOf,
    SetOf,
}

/// Whether a component may be absent, and whether it has a DEFAULT.
#[derive(Clone, Copy, PartialEq, Eq, Debug)]
pub enum FieldPresence {
    Mandatory,
    Optional,
    Default,
    Addition,
}

/// A header: its tag, whether it is constructed, and the kind of its row in an account.
#[derive(Clone, Copy, PartialEq, Eq, Debug)]
pub struct Head {
    pub tag: Tag,
    pub constructed: bool,
    pub row: RowKind,
}

/// A component: its place in order of definition, from 0, whether it may be absent, and its type.
#[derive(Clone, Copy, PartialEq, Eq, Debug)]
pub struct Field {
    pub place: usize,
    pub need: FieldPresence,
    pub ty: TypeId,
}

/// One step of a routine.
#[derive(Clone, Copy, PartialEq, Eq, Debug)]
pub enum Step {
    /// A header around the steps up to its `End`.
    Head(Head),
    /// Contents that hold no others.
    Leaf(LeafKind),
    /// A component of a SEQUENCE.
    Field(Field),
    /// A component of a SET, and the number of components that come before it in the canonical order of their tags.
    SetComponent(Field, usize),
    /// The elements in order, each by the routine of this type.
    Each(TypeId),
    /// The elements in ascending order of their encodings, each by the routine of this type.
    EachSorted(TypeId),
    /// Runs one of the calls after this step, chosen by the number of the alternative. The field is the number of
    /// calls.
    Pick(usize),
    /// The routine of this type.
    Call(TypeId),
    /// Skips additions that the type lacks when octets are read; writes none.
    Rest,
    /// Closes the nearest open header.
    End,
}

/// The encodings that a routine is for: those with tags, or the packed ones.
#[derive(Clone, Copy, PartialEq, Eq, Debug)]
pub enum Coding {
    Tagged,
    Per,
}
