//! Ranges in few octets: ends that fit in 64 bits take no more. All other ranges are kept whole, and copies share them.

ghost use Rattle.std.specs.Prelude.{◌≡◌, ◌↔◌, IfOk, IfSome, IsTrue};
ghost use Rattle.asn_base.specs.Kept.{kept};
ghost use Rattle.asn_base.specs.Seen.{range_of};
ghost use Rattle.asn_base.specs.Typed.{IsInRange};
ghost use Rattle.asn_base.specs.proving.Searching.{is_below};

use crate::allowed::is_in_range;
use crate::constraint::Range;
use std::alloc::{AllocError, Global};
use std::marker::Model;
use std::rc::Rc;

/// The ends of a range.
#[derive(Drop)]
pub(crate) enum Ends {
    /// The least and the greatest number.
    Between(i64, i64),
    /// The least number alone.
    From(i64),
    /// The greatest number alone.
    UpTo(i64),
    /// Ends of which one does not fit in 64 bits, or no ends.
    Long(Rc<Range>),
}

/// A range of numbers or sizes, in 24 octets. If an end does not fit in 64 bits, the range has memory of its own, which
/// copies share.
pub struct KeptRange {
    ends: Ends,
}

impl Model for KeptRange {
    ghost use Rattle.asn_base.specs.Types.{Range};

    ghost Value = { Range };

    ghost use Rattle.asn_base.specs.Kept.{kept};

    ghost view = { λ r. kept r.ends };
}

impl Drop for KeptRange {
    fn drop(self) {
        let KeptRange { ends: _ } = self;
    }
}

/// The ends of a range without memory of their own, if they fit.
fn short(range: Range) -> Option<Ends>
    ensures { IfSome result (λ e. kept e ≡ range_of range) }
{
    match (range.least, range.greatest) {
        (Some(least), Some(greatest)) => match (i64::try_from(least), i64::try_from(greatest)) {
            (Ok(least), Ok(greatest)) => Some(Ends::Between(least, greatest)),
            _ => None,
        },
        (Some(least), None) => match i64::try_from(least) {
            Ok(least) => Some(Ends::From(least)),
            Err(_) => None,
        },
        (None, Some(greatest)) => match i64::try_from(greatest) {
            Ok(greatest) => Some(Ends::UpTo(greatest)),
            Err(_) => None,
        },
        (None, None) => None,
    }
}

impl KeptRange {
    /// Keeps the range. `AllocError` comes only if an allocation fails.
    pub(crate) fn of(alloc: Global, range: Range) -> Result<Self, AllocError>
        ensures { IfOk result (λ k. k ≡ range_of range) }
    {
        match short(range) {
            Some(ends) => Ok(KeptRange { ends }),
            None => Ok(KeptRange {
                ends: Ends::Long(Rc::new(alloc, range)?),
            }),
        }
    }

    /// Returns a copy, which shares the memory. `AllocError` comes only if there are too many copies.
    pub(crate) fn copy(&self) -> Result<Self, AllocError>
        ensures { IfOk result (λ k. k ≡ self.now) }
    {
        let ends = match &self.ends {
            Ends::Between(least, greatest) => Ends::Between(*least, *greatest),
            Ends::From(least) => Ends::From(*least),
            Ends::UpTo(greatest) => Ends::UpTo(*greatest),
            Ends::Long(range) => Ends::Long(range.clone()?),
        };
        Ok(KeptRange { ends })
    }

    /// The range.
    pub fn range(&self) -> Range
        ensures { range_of result ≡ self.now }
    {
        let (least, greatest) = match &self.ends {
            Ends::Between(least, greatest) => (Some(*least as i128), Some(*greatest as i128)),
            Ends::From(least) => (Some(*least as i128), None),
            Ends::UpTo(greatest) => (None, Some(*greatest as i128)),
            Ends::Long(range) => (range.least, range.greatest),
        };
        Range { least, greatest }
    }

    /// Whether the range has the number.
    #[inline(always)]
    pub(crate) fn has(&self, number: i128) -> bool
        ensures { IsTrue result ↔ IsInRange number self.now }
    {
        match &self.ends {
            Ends::Between(least, greatest) => *least as i128 <= number
                && number <= *greatest as i128,
            Ends::From(least) => *least as i128 <= number,
            Ends::UpTo(greatest) => number <= *greatest as i128,
            Ends::Long(range) => is_in_range(range, number),
        }
    }

    /// Whether the range ends below the number.
    #[inline(always)]
    pub(crate) fn ends_below(&self, number: i128) -> bool
        ensures { result ≡ is_below number self.now.greatest }
    {
        match &self.ends {
            Ends::Between(_, greatest) => (*greatest as i128) < number,
            Ends::From(_) => false,
            Ends::UpTo(greatest) => (*greatest as i128) < number,
            Ends::Long(range) => match range.greatest {
                Some(greatest) => greatest < number,
                None => false,
            },
        }
    }
}
