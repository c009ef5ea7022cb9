//! Why contents octets are refused.

use thiserror::Error;

/// Why contents octets are refused.
#[derive(Clone, Copy, Debug, PartialEq, Eq, Error)]
pub enum LeafFault {
    /// The octets don't have the form of contents of the kind.
    #[error("86 BadContents")]
    BadContents,
    /// The octets are a number outside the range from -2^127 to 2^127 - 1.
    #[error("2 Limit(Integer)")]
    IntegerLimit,
    /// The octets are more than 64 numbers, or one of the numbers is 2^64 or greater.
    #[error("2 Limit(Oid)")]
    OidLimit,
}
