//! The numbers that ranges allow.

ghost use Rattle.std.specs.Prelude.{◌≡◌, Some, None, IfErr, IfOk, MatchResult, IsTrue, ◌↔◌, ◌++◌, ◌∷◌, [], ℤ, map};
ghost use Rattle.asn_base.specs.Typed.{IsInSome};
ghost use Rattle.asn_base.specs.Seen.{range_of as seen_of};
ghost use Rattle.trees.specs.Constraints.{range_of as tree_of_range, end_of, between as between'};
ghost use Rattle.type_table.specs.Seen.{kind_of};
ghost use Rattle.range_ends.specs.Answers.{IsOf, IsRangeOf, AreRangesOf, IsRangeFault, AreRangesWrong};
ghost use Rattle.range_ends.specs.Cores.{HasKind};
ghost use Rattle.range_ends.specs.First.{end_place, IsEndWrong, IsBetweenWrong, IsRangeWrong, IsFirst};
ghost use Rattle.range_ends.specs.proving.Bounds.{IsBoundOf, IsBoundFault, floor_of as floor'};

use crate::ends::{EndFault, end_at};
use crate::reference_table::ReferenceTable;
use asn_base::constraint::Range;
use ranges::Ranges;
use resolve::NamedShape;
use std::alloc::{AllocError, Global};
use trees::{EndSyntax, RangeSyntax};

/// What the numbers in ranges are.
#[derive(Clone, Copy, Debug, PartialEq, Eq)]
pub enum Counted {
    /// Numbers.
    Numbers,
    /// Sizes, which are not negative.
    Sizes,
}

/// Why a range has no meaning, at a place in the text.
#[derive(Clone, Copy, Debug, PartialEq, Eq)]
pub enum RangeFault {
    /// The end at this offset stands for no number, or, among sizes, for one below 0.
    NoEnd(usize),
    /// The lower end, at this offset, is above the upper one.
    Reversed(usize),
    /// The references from an end on come into a circle. This value, by its number, is the first that is met a second
    /// time.
    Circular(usize),
}

/// Why ranges have no meaning.
#[derive(Clone, Copy, Debug, PartialEq, Eq)]
pub enum RangesFault {
    /// There was not enough memory.
    Memory,
    /// One of the ranges has no meaning.
    At(RangeFault),
}

/// What ends of ranges are read by: a module, and the shape of the type that is constrained, with its named numbers.
/// `core` is the number of the type that has this shape, after all references and tags.
#[derive(Clone, Copy)]
pub struct RangeContext<'a> {
    pub scope: &'a ReferenceTable<'a>,
    pub shape: &'a NamedShape<'a>,
    pub core: usize,
    pub within: &'a str,
    pub of: Counted,
}

/// The offset of an end in the text.
fn place(end: &EndSyntax) -> usize
    ensures { result ≡ end_place end.now }
{
    match end {
        EndSyntax::Number(number) => number.at,
        EndSyntax::Reference(reference) => reference.at,
    }
}

/// Whether a number may be an end.
fn may_end(of: Counted, number: i128) -> bool
    ensures { IsTrue result ↔ IsOf of number }
{
    match of {
        Counted::Numbers => true,
        Counted::Sizes => 0 <= number,
    }
}

/// The least number that MIN means: the least size is 0.
fn floor_of(of: Counted) -> Option<i128>
    ensures { result ≡ floor' of }
{
    match of {
        Counted::Numbers => None,
        Counted::Sizes => Some(0),
    }
}

/// The number of an end.
fn bound_at(site: &RangeContext<'_>, end: &EndSyntax) -> Result<i128, RangeFault>
    requires core { HasKind site.now.scope.now.program.types site.now.core (kind_of site.now.shape.now) }
    ensures found { MatchResult result
        (IsBoundOf site.now.scope.now.program (kind_of site.now.shape.now) site.now.within.now site.now.of
        (end_of end.now))
        (IsBoundFault site.now.scope.now.program (kind_of site.now.shape.now) site.now.within.now site.now.of
        (end_of end.now)) }
    ensures wrong { IfErr result
        (IsEndWrong site.now.scope.now.program (kind_of site.now.shape.now) site.now.within.now site.now.of end.now) }
{
    match end_at(site.scope, site.shape, site.core, site.within, end) {
        Err(EndFault::NoMeaning) => Err(RangeFault::NoEnd(place(end))),
        Err(EndFault::Circular(value)) => Err(RangeFault::Circular(value)),
        Ok(number) => {
            if may_end(site.of, number) {
                Ok(number)
            } else {
                Err(RangeFault::NoEnd(place(end)))
            }
        }
    }
}

/// The range from one end to the other.
fn between(
    site: &RangeContext<'_>,
    first: &EndSyntax,
    last: &EndSyntax,
) -> Result<Range, RangeFault>
    requires core { HasKind site.now.scope.now.program.types site.now.core (kind_of site.now.shape.now) }
    ensures found { MatchResult result
        (λ r. IsRangeOf site.now.scope.now.program (kind_of site.now.shape.now) site.now.within.now site.now.of
        (between' (Some (end_of first.now)) (Some (end_of last.now))) (seen_of r))
        (IsRangeFault site.now.scope.now.program (kind_of site.now.shape.now) site.now.within.now site.now.of
        (between' (Some (end_of first.now)) (Some (end_of last.now)))) }
    ensures wrong { IfErr result
        (IsBetweenWrong site.now.scope.now.program
        (kind_of site.now.shape.now) site.now.within.now site.now.of first.now last.now) }
{
    let least = match bound_at(site, first) {
        Ok(least) => least,
        Err(fault) => return Err(fault),
    };
    let greatest = match bound_at(site, last) {
        Ok(greatest) => greatest,
        Err(fault) => return Err(fault),
    };
    if greatest < least {
        return Err(RangeFault::Reversed(place(first)));
    }
    Ok(Range {
        least: Some(least),
        greatest: Some(greatest),
    })
}

/// A range as numbers.
fn range_at(site: &RangeContext<'_>, range: &RangeSyntax) -> Result<Range, RangeFault>
    requires core { HasKind site.now.scope.now.program.types site.now.core (kind_of site.now.shape.now) }
    ensures found { MatchResult result
        (λ r. IsRangeOf site.now.scope.now.program (kind_of site.now.shape.now) site.now.within.now site.now.of
        (tree_of_range range.now) (seen_of r))
        (IsRangeFault site.now.scope.now.program (kind_of site.now.shape.now) site.now.within.now site.now.of
        (tree_of_range range.now)) }
    ensures wrong { IfErr result
        (IsRangeWrong site.now.scope.now.program (kind_of site.now.shape.now) site.now.within.now site.now.of
        range.now) }
{
    match range {
        RangeSyntax::Single(end) => match bound_at(site, end) {
            Ok(number) => Ok(Range {
                least: Some(number),
                greatest: Some(number),
            }),
            Err(fault) => Err(fault),
        },
        RangeSyntax::Between(Some(first), Some(last)) => between(site, first, last),
        RangeSyntax::Between(Some(first), None) => match bound_at(site, first) {
            Ok(least) => Ok(Range {
                least: Some(least),
                greatest: None,
            }),
            Err(fault) => Err(fault),
        },
        RangeSyntax::Between(None, Some(last)) => match bound_at(site, last) {
            Ok(greatest) => Ok(Range {
                least: floor_of(site.of),
                greatest: Some(greatest),
            }),
            Err(fault) => Err(fault),
        },
        RangeSyntax::Between(None, None) => Ok(Range {
            least: floor_of(site.of),
            greatest: None,
        }),
    }
}

/// How many ranges there are when they are joined for the first time.
const FEW: usize = 4096;

/// Adds a range to others, and joins them all if they are then `most` or more. The result is the ranges of the same
/// numbers, and how many there may be until they are joined again: twice as many as were left, or `most` if that is
/// more.
fn added(
    alloc: Global,
    ranges: Vec<Range>,
    range: Range,
    most: usize,
) -> Result<(Vec<Range>, usize), AllocError>
    ensures { IfOk result (λ r. (z : ℤ) →
        IsInSome z (map seen_of r.0.items) ↔ IsInSome z (map seen_of (ranges.items ++ range ∷ []))) }
{
    let mut all = ranges;
    all.push(range)?;
    if all.len() < most {
        return Ok((all, most));
    }
    let joined = Ranges::joined(alloc, all)?;
    let next = most.max(joined.len().saturating_mul(2));
    Ok((joined, next))
}

/// Ranges as numbers (X.680, clauses 50.1, 51.2 and 51.4): a number is in one of them exactly if the written ranges
/// allow it. Many written ranges are joined as they are read, so that few are held if they overlap. For n of them the
/// time grows as n log n.
///
/// The fault is that of the first range at fault: of its lower end before its upper one, and of each before their
/// order. `NoEnd` has the offset of the end, `Reversed` that of the lower end. `Memory`: there is not enough memory.
pub fn ranges_at(
    alloc: Global,
    site: &RangeContext<'_>,
    ranges: &[RangeSyntax],
) -> Result<Vec<Range>, RangesFault>
    requires core { HasKind site.now.scope.now.program.types site.now.core (kind_of site.now.shape.now) }
    ensures found { MatchResult result
        (λ v. AreRangesOf site.now.scope.now.program (kind_of site.now.shape.now) site.now.within.now site.now.of
        (map tree_of_range ranges.now) (map seen_of v.items))
        (AreRangesWrong site.now.scope.now.program (kind_of site.now.shape.now) site.now.within.now site.now.of
        (map tree_of_range ranges.now)) }
    ensures first { IfErr result
        (IsFirst site.now.scope.now.program (kind_of site.now.shape.now) site.now.within.now site.now.of ranges.now) }
{
    let mut all = Vec::new(alloc);
    let mut most = FEW;
    for range in ranges {
        match range_at(site, range) {
            Ok(found) => match added(alloc, all, found, most) {
                Ok((more, room)) => {
                    all = more;
                    most = room;
                }
                Err(_) => return Err(RangesFault::Memory),
            },
            Err(fault) => return Err(RangesFault::At(fault)),
        }
    }
    Ok(all)
}
