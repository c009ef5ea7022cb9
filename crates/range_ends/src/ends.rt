//! The numbers that ends of ranges stand for.

ghost use Rattle.std.specs.Prelude.{◌≡◌, ◌<◌, true, ◌↔◌, ℕ, ℤ, Some, None, MatchResult, MatchOption, length, map};
ghost use Rattle.trees.specs.Names.{reference_module, reference_name};
ghost use Rattle.trees.specs.Constraints.{end_of};
ghost use Rattle.trees.specs.Values.{tree_of};
ghost use Rattle.type_table.specs.Seen.{kind_of};
ghost use Rattle.range_ends.specs.Answers.{DenotesOnly, IsEndFault};
ghost use Rattle.range_ends.specs.Ends.{named as named', direct_number as direct_number', notation_of};
ghost use Rattle.range_ends.specs.Cores.{HasKind};
ghost use Rattle.range_ends.specs.proving.Steps.{next, number_at, AreReferred};
ghost use Rattle.range_ends.specs.proving.Ways.{Ends, IsWayFault};
ghost use Rattle.range_ends.specs.proving.Far.{AreFar, IsNameless};
ghost use Rattle.range_ends.specs.proving.Noted.{AreRight};
ghost use Rattle.type_table.specs.Walks.{ArrivesAt};

use crate::circle::first_met_twice;
use crate::notes::known;
use crate::program::{named_value, notation_at};
use crate::reference_table::{ReferenceTable, Ways};
use resolve::{Linked, NamedShape};
use trees::{EndSyntax, Reference, Simple, ValueForm, ValueSyntax};
use type_table::Shape;

/// Why an end stands for no number.
#[derive(Clone, Copy, Debug, PartialEq, Eq)]
pub enum EndFault {
    /// The end is a name, or leads to one, that means no value; or it leads to a notation that is no number.
    NoMeaning,
    /// The references from the end on come into a circle. This value, by its number, is the first that is met a second
    /// time.
    Circular(usize),
}

/// The number that a name has in a type, or None if the type doesn't have it.
pub(crate) fn named(shape: &NamedShape<'_>, reference: &Reference) -> Option<i128>
    ensures { result
        ≡ named' (kind_of shape.now) (reference_module reference.now) (reference_name reference.now) }
{
    match reference.module() {
        None => shape.number(reference.name()),
        Some(_) => None,
    }
}

/// The number that a notation is by itself, or None.
pub(crate) fn direct_number(shape: &NamedShape<'_>, notation: &ValueSyntax) -> Option<i128>
    ensures { result ≡ direct_number' (kind_of shape.now) (tree_of notation.now) }
{
    match &notation.form {
        ValueForm::Number(number) => Some(*number),
        ValueForm::Reference(reference) => named(shape, reference),
        _ => None,
    }
}

/// Whether a type has no named number.
pub(crate) fn is_nameless(shape: &Shape) -> bool
    ensures { result ≡ true → IsNameless (kind_of shape.now) }
{
    match shape {
        Shape::Simple(Simple::Integer(numbers)) => numbers.is_empty(),
        _ => true,
    }
}

/// The number that a value stands for, in a constraint on a type without named numbers: the number at the end of the
/// value's references.
fn farthest_number(
    linked: &Linked,
    target: &[Option<usize>],
    far: &[usize],
    shape: &NamedShape<'_>,
    start: usize,
) -> Result<i128, EndFault>
    requires inside { start < length linked.now.program.values }
    requires referred { AreReferred linked.now.program target.now }
    requires far { AreFar target.now (length target.now) far.now }
    requires nameless { IsNameless (kind_of shape.now) }
    ensures { MatchResult result
        (Ends linked.now.program (kind_of shape.now) target.now start)
        (IsWayFault linked.now.program (kind_of shape.now) target.now start) }
{
    linked.lemma_whole();
    let at = far[start];
    let (_, notation) = notation_at(linked, at);
    match direct_number(shape, notation) {
        Some(number) => Ok(number),
        None => match target[at] {
            None => Err(EndFault::NoMeaning),
            Some(next) => Err(EndFault::Circular(first_met_twice(target, start, at))),
        },
    }
}

/// The number that a value stands for, in a constraint on a type of a shape. It is that of the first named number of
/// the type among the value's references, or the number at their end. The references lead to value `from` before that.
fn first_number(
    linked: &Linked,
    target: &[Option<usize>],
    shape: &NamedShape<'_>,
    start: usize,
    from: usize,
) -> Result<i128, EndFault>
    requires inside { start < length linked.now.program.values }
    requires referred { AreReferred linked.now.program target.now }
    requires goes { ArrivesAt (next linked.now.program (kind_of shape.now) target.now) start from }
    ensures { MatchResult result
        (Ends linked.now.program (kind_of shape.now) target.now start)
        (IsWayFault linked.now.program (kind_of shape.now) target.now start) }
{
    linked.lemma_whole();
    let mut at = from;
    for step in 0..target.len() {
        let (_, notation) = notation_at(linked, at);
        match direct_number(shape, notation) {
            Some(number) => return Ok(number),
            None => match target[at] {
                None => return Err(EndFault::NoMeaning),
                Some(next) => at = next,
            },
        }
    }
    Err(EndFault::Circular(first_met_twice(target, start, at)))
}

/// The number that a value stands for, in a constraint on type `core`, which has a shape.
fn followed(
    linked: &Linked,
    ways: &Ways<'_>,
    shape: &NamedShape<'_>,
    core: usize,
    start: usize,
) -> Result<i128, EndFault>
    requires inside { start < length linked.now.program.values }
    requires kind { HasKind linked.now.program.types core (kind_of shape.now) }
    requires referred { AreReferred linked.now.program ways.now.target.now }
    requires far { AreFar ways.now.target.now (length ways.now.target.now) ways.now.far.now }
    requires notes { AreRight linked.now.program ways.now.target.now ways.now.notes.now }
    ensures { MatchResult result
        (Ends linked.now.program (kind_of shape.now) ways.now.target.now start)
        (IsWayFault linked.now.program (kind_of shape.now) ways.now.target.now start) }
{
    if is_nameless(shape.shape()) {
        farthest_number(linked, ways.target, ways.far, shape, start)
    } else {
        let from = known(ways.notes, ways.order, core, start);
        first_number(linked, ways.target, shape, start, from)
    }
}

/// The number that an end of a range stands for, read in a module, in a constraint on type `core`, which has a shape.
pub(crate) fn end_at(
    scope: &ReferenceTable<'_>,
    shape: &NamedShape<'_>,
    core: usize,
    within: &str,
    end: &EndSyntax,
) -> Result<i128, EndFault>
    requires { HasKind scope.now.program.types core (kind_of shape.now) }
    ensures { MatchResult result
        (DenotesOnly scope.now.program (kind_of shape.now) within.now (notation_of (end_of end.now)))
        (IsEndFault scope.now.program (kind_of shape.now) within.now (notation_of (end_of end.now))) }
{
    let linked = scope.linked();
    linked.lemma_whole();
    match end {
        EndSyntax::Number(number) => Ok(number.it),
        EndSyntax::Reference(reference) => match named(shape, reference) {
            Some(number) => Ok(number),
            None => match named_value(linked, within, reference) {
                None => Err(EndFault::NoMeaning),
                Some(start) => {
                    let ways = scope.ways();
                    followed(linked, &ways, shape, core, start)
                }
            },
        },
    }
}
