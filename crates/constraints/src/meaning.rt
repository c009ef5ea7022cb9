//! What one constraint of a type means.

ghost use Rattle.std.specs.Prelude.{◌≡◌, ℕ, IfErr, MatchResult, map, false, true};
ghost use Rattle.trees.specs.Constraints.{constraint_of, constraint_tree, ranges_of};
ghost use Rattle.type_table.specs.Seen.{kind_of};
ghost use Rattle.constraints.specs.Constraints.{takes as takes', may_extend as may_extend', is_alone as is_alone', is_integer as is_integer', has_size as has_size', has_alphabet as has_alphabet', is_marked as is_marked'};
ghost use Rattle.range_ends.specs.Cores.{HasKind};
ghost use Rattle.range_ends.specs.declared.written_ranges.Counted.{Counted as Counted'};
ghost use Rattle.constraints.specs.First.{IsConstraintWrong};
ghost use Rattle.constraints.specs.proving.Reported.{AreRangesWrong};
ghost use Rattle.constraints.specs.proving.Meanings.{IsMeaningOf, AreNumbersOf, IsWrong, ranged};

use crate::characters::{CharsFault, codes_at};
use range_ends::{Counted, RangeContext, RangeFault, RangesFault, ranges_at};
use ranges::{Codes, Ranges};
use resolve::NamedShape;
use std::alloc::Global;
use trees::{ConstraintForm, ConstraintSyntax, RangesSyntax, Simple};
use type_table::Shape;

/// The rules that a constraint can break.
#[derive(Clone, Copy)]
pub(crate) enum Rule {
    Empty,
    WrongKind,
    Reconstrained,
    LowerAboveUpper,
    MarkerPlace,
}

/// What is wrong with a constraint.
#[derive(Clone, Copy)]
pub(crate) enum ConstraintFault {
    /// An allocation failed.
    Memory,
    /// An end leads into a circle of values. This one, by its number, is the first that is met a second time.
    Circular(usize),
    /// The constraint breaks the rule, at the place.
    At(Rule, usize),
}

/// What a constraint means: the numbers or sizes, or the characters, that it allows; and whether it has an extension
/// marker.
pub(crate) struct ConstraintMeaning {
    pub numbers: Option<Ranges>,
    pub codes: Option<Codes>,
    pub marker: bool,
}

pub(crate) fn is_integer(shape: &Shape) -> bool
    ensures { result ≡ is_integer' (kind_of shape.now) }
{
    matches!(shape, Shape::Simple(Simple::Integer(_)))
}

pub(crate) fn has_alphabet(shape: &Shape) -> bool
    ensures { result ≡ has_alphabet' (kind_of shape.now) }
{
    matches!(shape, Shape::Simple(Simple::Restricted(_)))
}

/// Whether a type takes SIZE.
pub(crate) fn has_size(shape: &Shape) -> bool
    ensures { result ≡ has_size' (kind_of shape.now) }
{
    match shape {
        Shape::Simple(simple) => match simple {
            Simple::BitString(bits) => bits.is_empty(),
            Simple::OctetString => true,
            Simple::Utf8String => true,
            Simple::Restricted(_) => true,
            _ => false,
        },
        Shape::Elements(_, _) => true,
        _ => false,
    }
}

/// Whether a constraint of the type may have an extension marker.
fn may_extend(shape: &Shape) -> bool
    ensures { result ≡ may_extend' (kind_of shape.now) }
{
    match shape {
        Shape::Simple(simple) => match simple {
            Simple::Integer(_) => true,
            Simple::BitString(_) => true,
            Simple::OctetString => true,
            _ => false,
        },
        Shape::Elements(_, _) => true,
        _ => false,
    }
}

/// Whether a type takes a constraint.
fn takes(shape: &Shape, form: &ConstraintForm) -> bool
    ensures { result ≡ takes' (kind_of shape.now) (constraint_tree form.now) }
{
    match form {
        ConstraintForm::Values(_) => is_integer(shape),
        ConstraintForm::Size(_) => has_size(shape),
        ConstraintForm::From(_) => has_alphabet(shape),
    }
}

/// Whether ranges have no marker, or their marker is at an allowed place.
fn is_marked(shape: &NamedShape<'_>, ranges: &RangesSyntax) -> bool
    ensures { (of : Counted') → result ≡ is_marked' (kind_of shape.now) (ranged of (ranges_of ranges.now)) }
{
    !ranges.marker || (may_extend(shape.shape()) && ranges.ranges.len() == 1)
}

/// The numbers or sizes that ranges allow, if their marker is at an allowed place.
fn numbers_of(
    alloc: Global,
    site: &RangeContext<'_>,
    at: usize,
    ranges: &RangesSyntax,
) -> Result<Ranges, ConstraintFault>
    requires { HasKind site.now.scope.now.program.types site.now.core (kind_of site.now.shape.now) }
    ensures found { MatchResult result
        (AreNumbersOf site.now.scope.now.program (kind_of site.now.shape.now) site.now.within.now site.now.of
        (ranges_of ranges.now))
        (IsWrong site.now.scope.now.program (kind_of site.now.shape.now) site.now.within.now
        (ranged site.now.of (ranges_of ranges.now))) }
    ensures wrong { IfErr result
        (AreRangesWrong site.now.scope.now.program (kind_of site.now.shape.now) site.now.within.now site.now.of
        at ranges.now) }
{
    if !is_marked(site.shape, ranges) {
        return Err(ConstraintFault::At(Rule::MarkerPlace, at));
    }
    match ranges_at(alloc, site, &ranges.ranges) {
        Ok(all) => match Ranges::union_of(alloc, all) {
            Ok(numbers) => Ok(numbers),
            Err(_) => Err(ConstraintFault::Memory),
        },
        Err(RangesFault::Memory) => Err(ConstraintFault::Memory),
        Err(RangesFault::At(RangeFault::NoEnd(place))) => Err(ConstraintFault::At(
            Rule::WrongKind,
            place,
        )),
        Err(RangesFault::At(RangeFault::Reversed(place))) => {
            Err(ConstraintFault::At(Rule::LowerAboveUpper, place))
        }
        Err(RangesFault::At(RangeFault::Circular(value))) => Err(ConstraintFault::Circular(value)),
    }
}

/// The meaning of a constraint that the type takes.
fn taken(
    alloc: Global,
    site: &RangeContext<'_>,
    constraint: &ConstraintSyntax,
) -> Result<ConstraintMeaning, ConstraintFault>
    requires core { HasKind site.now.scope.now.program.types site.now.core (kind_of site.now.shape.now) }
    requires takes { takes' (kind_of site.now.shape.now) (constraint_of constraint.now) ≡ true }
    ensures found { MatchResult result
        (IsMeaningOf site.now.scope.now.program (kind_of site.now.shape.now)
        site.now.within.now (constraint_of constraint.now))
        (IsWrong site.now.scope.now.program (kind_of site.now.shape.now)
        site.now.within.now (constraint_of constraint.now)) }
    ensures wrong { IfErr result (IsConstraintWrong site.now.scope.now.program (kind_of site.now.shape.now)
        site.now.within.now constraint.now) }
{
    match &constraint.form {
        ConstraintForm::Values(ranges) => {
            let counted = RangeContext {
                scope: site.scope,
                shape: site.shape,
                core: site.core,
                within: site.within,
                of: Counted::Numbers,
            };
            match numbers_of(alloc, &counted, constraint.at, ranges) {
                Ok(numbers) => Ok(ConstraintMeaning {
                    numbers: Some(numbers),
                    codes: None,
                    marker: ranges.marker,
                }),
                Err(wrong) => Err(wrong),
            }
        }
        ConstraintForm::Size(ranges) => {
            let counted = RangeContext {
                scope: site.scope,
                shape: site.shape,
                core: site.core,
                within: site.within,
                of: Counted::Sizes,
            };
            match numbers_of(alloc, &counted, constraint.at, ranges) {
                Ok(numbers) => Ok(ConstraintMeaning {
                    numbers: Some(numbers),
                    codes: None,
                    marker: ranges.marker,
                }),
                Err(wrong) => Err(wrong),
            }
        }
        ConstraintForm::From(chars) => match codes_at(chars) {
            Ok(codes) => Ok(ConstraintMeaning {
                numbers: None,
                codes: Some(codes),
                marker: false,
            }),
            Err(CharsFault::NoCharacter(place)) => Err(ConstraintFault::At(Rule::WrongKind, place)),
            Err(CharsFault::Reversed(place)) => Err(ConstraintFault::At(
                Rule::LowerAboveUpper,
                place,
            )),
        },
    }
}

/// The meaning of a constraint of a type with this shape, read in a module, or its first fault. Checked are whether the
/// type takes it, then its marker, then its ranges in order.
pub(crate) fn meaning_of(
    alloc: Global,
    site: &RangeContext<'_>,
    constraint: &ConstraintSyntax,
) -> Result<ConstraintMeaning, ConstraintFault>
    requires { HasKind site.now.scope.now.program.types site.now.core (kind_of site.now.shape.now) }
    ensures found { MatchResult result
        (IsMeaningOf site.now.scope.now.program (kind_of site.now.shape.now)
        site.now.within.now (constraint_of constraint.now))
        (IsWrong site.now.scope.now.program (kind_of site.now.shape.now)
        site.now.within.now (constraint_of constraint.now)) }
    ensures wrong { IfErr result (IsConstraintWrong site.now.scope.now.program (kind_of site.now.shape.now)
        site.now.within.now constraint.now) }
{
    if takes(site.shape.shape(), &constraint.form) {
        taken(alloc, site, constraint)
    } else {
        Err(ConstraintFault::At(Rule::WrongKind, constraint.at))
    }
}

impl Drop for ConstraintMeaning {
    fn drop(self) {
        let ConstraintMeaning {
            numbers: _,
            codes: _,
            marker: _,
        } = self;
    }
}
