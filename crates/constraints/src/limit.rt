//! What the constraints of a type allow.

ghost use Rattle.std.specs.Prelude.{◌≡◌, ◌↔◌, ℕ, ℤ, IfErr, IfOk, MatchResult, map, length, true, false, MatchBool};
ghost use Rattle.trees.specs.Constraints.{constraint_of};
ghost use Rattle.type_table.specs.Seen.{kind_of};
ghost use Rattle.range_ends.specs.Cores.{HasKind};
ghost use Rattle.constraints.specs.First.{IsFirstConstraint, IsLimitWrong};
ghost use Rattle.constraints.specs.proving.Limits.{IsFirst, IsSame, Narrows, IsNarrowed, AreWrong, HasCodes, LeavesNothing, LeavesSome, IsLimitFault, InAny, AmongAny, floor as floor'};
ghost use Rattle.asn_base.specs.Names.{IsMember};
ghost use Rattle.asn_base.specs.Typed.{IsInSome};
ghost use Rattle.constraints.specs.Allowed.{IsCounted};

use crate::meaning::{
    ConstraintFault, ConstraintMeaning, Rule, has_alphabet, is_integer, meaning_of,
};
use asn_base::constraint::Range;
use range_ends::RangeContext;
use ranges::law::bounds;
use ranges::{Codes, Ranges, SharedRanges};
use std::alloc::{AllocError, Global};
use trees::{ConstraintSyntax, Simple};
use type_table::Shape;

/// What constraints allow of the numbers or sizes of a type, and of the characters of one of the four restricted
/// strings; and whether one has an extension marker.
#[derive(Drop)]
pub(crate) struct Limit {
    pub numbers: SharedRanges,
    pub codes: Codes,
    pub extensible: bool,
}

/// The codes of all characters of a type without constraints.
fn first_codes(shape: &Shape) -> Codes
    ensures { HasCodes (kind_of shape.now) result }
{
    match shape {
        Shape::Simple(Simple::Restricted(kind)) => Codes::of(*kind),
        _ => Codes::none(),
    }
}

/// The least number of a type without constraints: 0 for a size, and None for an INTEGER.
fn floor(shape: &Shape) -> Option<i128>
    ensures { result ≡ floor' (kind_of shape.now) }
{
    if is_integer(shape) { None } else { Some(0) }
}

/// All numbers or sizes of a type.
fn first_numbers(alloc: Global, shape: &Shape) -> Result<Ranges, AllocError>
    ensures { IfOk result (λ ns. (z : ℤ) → IsInSome z ns ↔ IsCounted (kind_of shape.now) z) }
{
    let mut all = Vec::new(alloc);
    all.push(Range {
        least: floor(shape),
        greatest: None,
    })?;
    match Ranges::union_of(alloc, all) {
        Ok(numbers) => Ok(numbers),
        Err(fault) => Err(fault),
    }
}

/// What is allowed without constraints.
pub(crate) fn first_limit(alloc: Global, shape: &Shape) -> Result<Limit, AllocError>
    ensures { IfOk result (IsFirst (kind_of shape.now)) }
{
    let numbers = first_numbers(alloc, shape)?;
    Ok(Limit {
        numbers: SharedRanges::of(alloc, &numbers)?,
        codes: first_codes(shape),
        extensible: false,
    })
}

impl Limit {
    /// An equal limit, which shares the numbers. `AllocError` comes only if there are too many copies.
    pub(crate) fn copy(&self) -> Result<Limit, AllocError>
        ensures { IfOk result (λ l. IsSame self.now l) }
    {
        Ok(Limit {
            numbers: self.numbers.copy()?,
            codes: self.codes.copy(),
            extensible: self.extensible,
        })
    }
}

/// The numbers or sizes that are allowed after one more constraint.
fn fewer_numbers(
    alloc: Global,
    numbers: SharedRanges,
    more: &Option<Ranges>,
) -> Result<SharedRanges, AllocError>
    ensures { IfOk result (λ ns. (z : ℤ) → IsInSome z ns ↔ (IsInSome z numbers × InAny more.now z)) }
{
    match more {
        None => Ok(numbers),
        Some(more) => numbers.meet(alloc, more),
    }
}

/// The characters that are allowed after one more constraint.
fn fewer_codes(codes: Codes, more: &Option<Codes>) -> Codes
    ensures { (c : ℕ) → IsMember c result ↔ (IsMember c codes × AmongAny more.now c) }
{
    match more {
        None => codes,
        Some(more) => codes.meet(more),
    }
}

/// What is allowed after one more constraint.
fn narrowed(alloc: Global, limit: Limit, meaning: &ConstraintMeaning) -> Result<Limit, AllocError>
    ensures { IfOk result (IsNarrowed limit meaning.now) }
{
    let Limit {
        numbers,
        codes,
        extensible,
    } = limit;
    let numbers = fewer_numbers(alloc, numbers, &meaning.numbers)?;
    Ok(Limit {
        numbers,
        codes: fewer_codes(codes, &meaning.codes),
        extensible: extensible || meaning.marker,
    })
}

/// Whether nothing is allowed.
fn is_empty(shape: &Shape, limit: &Limit) -> bool
    ensures { MatchBool result
        (LeavesNothing (kind_of shape.now) limit.now)
        (LeavesSome (kind_of shape.now) limit.now) }
{
    bounds();
    limit.numbers.in_order();
    limit.numbers.is_empty() || (has_alphabet(shape) && limit.codes.is_empty())
}

/// The values that the constraints of a type with this shape in a module leave of those that were allowed before. The
/// error is the fault of the first constraint with a fault.
fn narrowed_by(
    alloc: Global,
    site: &RangeContext<'_>,
    start: Limit,
    constraints: &[ConstraintSyntax],
) -> Result<Limit, ConstraintFault>
    requires core { HasKind site.now.scope.now.program.types site.now.core (kind_of site.now.shape.now) }
    ensures found { MatchResult result
        (Narrows site.now.scope.now.program (kind_of site.now.shape.now) site.now.within.now
        (map constraint_of constraints.now)
        (length constraints.now) start)
        (AreWrong site.now.scope.now.program (kind_of site.now.shape.now) site.now.within.now
        (map constraint_of constraints.now) start) }
    ensures first { IfErr result
        (IsFirstConstraint site.now.scope.now.program (kind_of site.now.shape.now)
        site.now.within.now constraints.now start) }
{
    let mut limit = start;
    for constraint in constraints {
        if limit.extensible {
            return Err(ConstraintFault::At(Rule::Reconstrained, constraint.at));
        }
        let meaning = match meaning_of(alloc, site, constraint) {
            Ok(meaning) => meaning,
            Err(wrong) => return Err(wrong),
        };
        limit = match narrowed(alloc, limit, &meaning) {
            Ok(limit) => limit,
            Err(_) => return Err(ConstraintFault::Memory),
        };
    }
    Ok(limit)
}

/// The same, with the fault `Empty` if nothing is allowed.
pub(crate) fn limit_of(
    alloc: Global,
    site: &RangeContext<'_>,
    start: Limit,
    constraints: &[ConstraintSyntax],
    at: usize,
) -> Result<Limit, ConstraintFault>
    requires core { HasKind site.now.scope.now.program.types site.now.core (kind_of site.now.shape.now) }
    ensures found { MatchResult result
        (λ l. Narrows site.now.scope.now.program (kind_of site.now.shape.now) site.now.within.now
        (map constraint_of constraints.now)
        (length constraints.now) start l
        × LeavesSome (kind_of site.now.shape.now) l)
        (IsLimitFault site.now.scope.now.program (kind_of site.now.shape.now) site.now.within.now
        (map constraint_of constraints.now) start) }
    ensures first { IfErr result
        (IsLimitWrong site.now.scope.now.program (kind_of site.now.shape.now)
        site.now.within.now constraints.now start at) }
{
    let limit = match narrowed_by(alloc, site, start, constraints) {
        Ok(limit) => limit,
        Err(wrong) => return Err(wrong),
    };
    if is_empty(site.shape.shape(), &limit) {
        return Err(ConstraintFault::At(Rule::Empty, at));
    }
    Ok(limit)
}
