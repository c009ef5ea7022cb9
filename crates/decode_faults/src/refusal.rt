//! Why bits can't be read.

use thiserror::Error;

/// Why bits can't be read: the first fault in them.
#[derive(Clone, Copy, Debug, PartialEq, Eq, Error)]
pub enum Refusal {
    /// The bits end within what is read.
    #[error("90 Truncated")]
    Truncated,
    /// The bits have another form than that of a canonical encoding.
    #[error("91 NotCanonical")]
    NotCanonical,
    /// A number, a size or an index is out of bounds, or contents are no value of the kind.
    #[error("92 OutsideConstraint")]
    Outside,
    /// The type lacks the alternative with this index after the marker.
    #[error("93 UnknownAlternative")]
    UnknownAlternative,
    /// The type lacks the item with this index after the marker.
    #[error("93 UnknownEnumeration")]
    UnknownEnumeration,
    /// A bit that fills an octet is 1, or there is an octet too many.
    #[error("94 Padding")]
    Padding,
    /// The levels of values pass the limit.
    #[error("95 TooDeep")]
    TooDeep,
    /// There are more than 64 additions.
    #[error("97 TooManyAdditions")]
    TooManyAdditions,
    /// A number is outside the range from -2^127 to 2^127 - 1.
    #[error("2 Limit(Integer)")]
    IntegerLimit,
    /// There are more than 64 numbers, or one is 2^64 or greater.
    #[error("2 Limit(Oid)")]
    OidLimit,
    /// The number of values passes the limit.
    #[error("2 Limit(Nodes)")]
    NodesLimit,
}
