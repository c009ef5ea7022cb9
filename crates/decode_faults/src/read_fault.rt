//! Why a message can't be read.

ghost use Rattle.decode_faults.specs.declared.read_fault.ReadFault.TheVariants.{Memory};
ghost use Rattle.std.specs.Prelude.{◌≡◌};

use std::alloc::{AllocError, AllocFailed};
use thiserror::Error;

/// Why a message can't be read. `Memory`: an allocation failed. The machine itself has no other fault: the others are
/// those of its source.
#[derive(Clone, Copy, Debug, PartialEq, Eq, Error)]
pub enum ReadFault {
    /// An allocation failed.
    #[error("1 Memory")]
    Memory,
    /// The message has more than 16,777,216 octets.
    #[error("2 Limit(Message)")]
    MessageLimit,
    /// An integer is outside -2^127 to 2^127 - 1.
    #[error("2 Limit(Integer)")]
    IntegerLimit,
    /// An object identifier has more than 64 numbers, or one of them is 2^64 or greater.
    #[error("2 Limit(Oid)")]
    OidLimit,
    /// The octets end within a header, or before the contents octets that it promises.
    #[error("80 Truncated")]
    Truncated,
    /// The length is in the indefinite form.
    #[error("81 Indefinite")]
    Indefinite,
    /// The first length octet is `FF`, or the length is more than a message can have.
    #[error("82 BadLength")]
    BadLength,
    /// The identifier octets aren't those of a tag in an allowed form.
    #[error("83 BadTag")]
    BadTag,
    /// A tag or form that isn't allowed here.
    #[error("84 UnexpectedTag")]
    UnexpectedTag,
    /// Contents end before a mandatory component.
    #[error("85 Missing")]
    Missing,
    /// Contents octets of no value of the type.
    #[error("86 BadContents")]
    BadContents,
    /// A constructed BIT STRING has no segments.
    #[error("87 EmptySegments")]
    EmptySegments,
    /// The constraints don't allow the value.
    #[error("88 OutsideConstraint")]
    OutsideConstraint,
    /// There are octets after the whole value.
    #[error("89 Trailing")]
    Trailing,
    /// There are more levels of headers, or of values, than the limit.
    #[error("95 TooDeep")]
    TooDeep,
    /// The encoding isn't one by the distinguished rules.
    #[error("96 NotDer")]
    NotDer,
}

impl From<AllocError> for ReadFault {
    ghost from_gives = { λ _ e. e ≡ Memory };

    fn from(_e: AllocError) -> ReadFault {
        ReadFault::Memory
    }
}

impl<T: Drop> From<AllocFailed<T>> for ReadFault {
    ghost from_gives = { λ _ e. e ≡ Memory };

    fn from(_e: AllocFailed<T>) -> ReadFault {
        ReadFault::Memory
    }
}
