//! Why segments are refused.

ghost use Rattle.segmented_strings.specs.declared.fault.SegmentsFault.TheVariants.{Memory};
ghost use Rattle.std.specs.Prelude.{◌≡◌};

use octets::HeaderFault;
use std::alloc::AllocError;
use thiserror::Error;

/// What is wrong at a place.
#[derive(Clone, Copy, Debug, PartialEq, Eq, Error)]
pub enum SegmentError {
    /// No header is there with its contents, which must be within those of the header around it.
    #[error("{0}")]
    Header(HeaderFault),
    /// The header has another tag than a segment's.
    #[error("84 UnexpectedTag")]
    UnexpectedTag,
    /// Contents are not those of bits; or a segment that isn't the last has unused bits; or a joined string has a
    /// character that its type doesn't have.
    #[error("86 BadContents")]
    BadContents,
    /// A constructed BIT STRING, or a constructed segment of one, has no segments.
    #[error("87 EmptySegments")]
    EmptySegments,
    /// A header passes the limit on levels.
    #[error("95 TooDeep")]
    TooDeep,
}

/// Why contents octets are no string in segments: there is not enough memory, or what is wrong, and at which of the
/// octets, counted from 0.
#[derive(Clone, Copy, Debug, PartialEq, Eq, Error)]
pub enum SegmentsFault {
    #[error("1 Memory")]
    Memory,
    #[error("{1}, at octet {0}")]
    At(usize, SegmentError),
}

impl From<AllocError> for SegmentsFault {
    ghost from_gives = { λ _ e. e ≡ Memory };

    fn from(_e: AllocError) -> SegmentsFault {
        SegmentsFault::Memory
    }
}
