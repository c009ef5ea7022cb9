//! The steps of packed routines.

use asn_base::schema::TypeId;

/// A component: its place in order of definition, from 0; whether a bit says that it is present; whether it has a
/// DEFAULT; and its type.
#[derive(Clone, Copy, PartialEq, Eq, Debug)]
pub struct PackedField {
    pub place: usize,
    pub with_bit: bool,
    pub with_default: bool,
    pub ty: TypeId,
}

/// An alternative of the root: whether the CHOICE is extensible, in how many bits the alternative's place is written,
/// its place in the canonical order of tags, and its type.
#[derive(Clone, Copy, PartialEq, Eq, Debug)]
pub struct RootCall {
    pub extensible: bool,
    pub width: usize,
    pub rank: usize,
    pub ty: TypeId,
}

/// One step of a packed routine.
#[derive(Clone, Copy, PartialEq, Eq, Debug)]
pub enum PackedStep {
    /// A BOOLEAN: one bit.
    Bit,
    /// An INTEGER with both bounds and without a marker: the number minus the least one, in as many bits as the second
    /// field says.
    Number(i128, usize),
    /// Any other value that holds no others, in the form that its type gives it.
    Leaf,
    /// A bit of an extensible SEQUENCE or SET: 1 if a component at this place or after it is present. Those are the
    /// additions.
    ExtensionBit(usize),
    /// A bit for each of the next fields that has one: 1 if the component is written. The number says how many fields
    /// there are.
    Map(usize),
    /// A component of the root.
    Field(PackedField),
    /// If an addition is present: how many additions there are, and a bit for each of them.
    Bitmap(usize),
    /// An addition by itself, as an open type.
    Added(PackedField),
    /// The next members, which are a group, as an open type, with their bits first, if one of them is present. The
    /// number says how many members there are.
    Group(usize),
    /// A member of the group before it, which the step of the group writes.
    Member(PackedField),
    /// Skips additions that the type lacks when bits are read; nothing is written.
    Rest,
    /// The elements after their number, each by the routine of this type.
    Each(TypeId),
    /// The same as `Each`, with the elements in ascending order of their encodings.
    EachSorted(TypeId),
    /// One of the next alternatives, by the number of the alternative. The field says how many alternatives there are.
    Pick(usize),
    /// An alternative of the root, after its place among the alternatives of the root.
    Root(RootCall),
    /// An alternative after the marker: its place among those after the marker, and then the alternative as an open
    /// type.
    More(usize, TypeId),
}
