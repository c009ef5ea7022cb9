//! The tokens of a message.

use asn_base::schema::TypeId;
use encodings::LeafKind;
use octets::Form;
use primitive_reader::Leaf;
use segmented_strings::Reassembled;

/// A part of what was read. The tokens of a message are in order of its values, each value with all that is in it.
#[derive(Clone, Copy)]
pub enum Token<'a> {
    /// The component at this place in order of definition, from 0, follows.
    Component(usize),
    /// The alternative with this number, from 0, follows.
    Chosen(usize),
    /// A value of the type begins.
    Begun(TypeId),
    /// The value that began last, of those that are open, ends.
    Ended,
    /// The contents octets of a value that holds no others, and the offset in the message, from 0, of the first of
    /// them.
    PrimitiveToken {
        kind: LeafKind,
        form: Form,
        octets: &'a [u8],
        at: usize,
    },
    /// An addition that the type lacks was skipped.
    Passed,
}

/// A token that has no contents octets.
#[derive(Clone, Copy)]
pub enum StructToken {
    /// The component at this place in order of definition, from 0, follows.
    Component(usize),
    /// The alternative with this number, from 0, follows.
    Chosen(usize),
    /// A value of the type begins.
    Begun(TypeId),
    /// The value that began last, of those that are open, ends.
    Ended,
    /// An addition that the type lacks was skipped.
    Passed,
}

/// The contents octets of a value that holds no others, and the offset in the message, from 0, of the first of them.
#[derive(Clone, Copy)]
pub struct PrimitiveToken<'a> {
    pub kind: LeafKind,
    pub form: Form,
    pub octets: &'a [u8],
    pub at: usize,
}

/// The meaning of contents octets: of primitive ones, or of those of a string in segments, which are joined.
#[derive(Drop)]
pub enum PrimitiveValue<'a> {
    Whole(Leaf<'a>),
    Reassembled(Reassembled),
}
