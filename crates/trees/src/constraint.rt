//! Trees of constraints as they are written.

use crate::location::{At, Reference};

/// A constraint after a type, or the size before the OF of a list type (X.680, clauses 49.6, 26.1 and 28.1).
#[derive(Drop)]
pub struct ConstraintSyntax {
    /// The offset of its first octet in the module's text.
    pub at: usize,
    pub form: ConstraintForm,
}

/// The forms of constraints.
pub enum ConstraintForm {
    /// Single values and ranges of them: `(0..7 | 9)` (X.680, clauses 51.2 and 51.4).
    Values(RangesSyntax),
    /// `(SIZE (..))`: how many bits, octets, characters or elements there may be (X.680, clause 51.5).
    Size(RangesSyntax),
    /// `(FROM (..))`: the characters and ranges of characters that are allowed, at least one (X.680, clause 51.7).
    From(Vec<CharsSyntax>),
}

/// At least one range, with `|` or `UNION` between ranges, and after them `, ...` or nothing (X.680, clauses 50.1 and
/// 50.2).
pub struct RangesSyntax {
    pub ranges: Vec<RangeSyntax>,
    /// Whether the extension marker follows the ranges.
    pub marker: bool,
}

/// A single value or a range (X.680, clauses 51.2 and 51.4).
pub enum RangeSyntax {
    /// `7`
    Single(EndSyntax),
    /// `0..7`. The lower end is None for `MIN`, and the upper end is None for `MAX`.
    Between(Option<Box<EndSyntax>>, Option<Box<EndSyntax>>),
}

/// An end of a range.
pub enum EndSyntax {
    /// A number. Its offset is that of its minus, if it has one.
    Number(At<i128>),
    /// The name of a value or of a number of the type.
    Reference(Reference),
}

/// The characters of a text, or those from one character to another (X.680, clauses 51.4 and 51.7).
pub struct CharsSyntax {
    /// The octets of the text in UTF-8. Two quotes in the notation are one in the text.
    pub first: At<Vec<u8>>,
    /// The text after `..`, if there is one.
    pub last: Option<At<Vec<u8>>>,
}

impl Drop for ConstraintForm {
    fn drop(self) {
        match self {
            ConstraintForm::Values(_) => {}
            ConstraintForm::Size(_) => {}
            ConstraintForm::From(_) => {}
        }
    }
}

impl Drop for RangesSyntax {
    fn drop(self) {
        let RangesSyntax {
            ranges: _,
            marker: _,
        } = self;
    }
}

impl Drop for RangeSyntax {
    fn drop(self) {
        match self {
            RangeSyntax::Single(_) => {}
            RangeSyntax::Between(_, _) => {}
        }
    }
}

impl Drop for EndSyntax {
    fn drop(self) {
        match self {
            EndSyntax::Number(_) => {}
            EndSyntax::Reference(_) => {}
        }
    }
}

impl Drop for CharsSyntax {
    fn drop(self) {
        let CharsSyntax { first: _, last: _ } = self;
    }
}
