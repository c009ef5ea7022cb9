//! Finds where references lead for all ends of ranges in constraints on types with named numbers. Types that lead to
//! one core are taken together, so that no value is passed twice for a core. Where there are many cores, few values are
//! passed for each: signposts show where a long way leads.

ghost use Rattle.std.specs.Prelude.{◌≡◌, ◌<◌, ℕ, IfOk, List, OnOk, Option, Some, length, slice_get};
ghost use Rattle.type_table.specs.Seen.{kind_of, type_of};
ghost use Rattle.type_table.specs.Walks.{ArrivesAt, follow};
ghost use Rattle.resolve.specs.Program.{Program};
ghost use Rattle.range_ends.specs.Cores.{HasKind};
ghost use Rattle.range_ends.specs.proving.Steps.{next, AreReferred};
ghost use Rattle.range_ends.specs.proving.Signs.{AreSigned};
ghost use Rattle.range_ends.specs.proving.Noted.{AreFound, AreRight, IsPath, Leads};

use crate::ends::{direct_number, is_nameless, named};
use crate::notes::{Note, key_at};
use crate::posting::signposts;
use crate::program::{named_value, notation_at};
use crate::signposts::{Signposts, nearest, numbers_of, post_at};
use asn_base::schema::TypeId;
use resolve::{Linked, NamedShape};
use std::alloc::{AllocError, Global};
use trees::{ConstraintForm, ConstraintSyntax, EndSyntax, RangeSyntax};
use type_table::TypeNode;

/// No type has this number.
const NO_TYPE: usize = 18_446_744_073_709_551_615;

/// So few references are followed again for each end.
const FEW_STEPS: usize = 16;

/// So many references are followed in the time in which the signposts are asked for one name.
const STEPS_A_NAME: usize = 8;

/// What was found so far.
#[derive(Drop)]
pub struct Finder {
    /// The latest note of each value.
    pub(crate) latest: Vec<Note>,
    /// For each value the latest type in a constraint on which it is an end.
    pub(crate) asked: Vec<usize>,
    /// The notes of ends.
    pub(crate) kept: Vec<Note>,
}

/// A type in whose constraints ends are read: its shape and its number. It is no reference and no tag.
#[derive(Clone, Copy)]
pub(crate) struct Course<'a> {
    linked: &'a Linked,
    target: &'a [Option<usize>],
    signs: &'a Signposts<'a>,
    shape: &'a NamedShape<'a>,
    core: usize,
}

/// Notes that each value leads to itself, in a constraint on no type.
fn first_notes(alloc: Global, count: usize) -> Result<Vec<Note>, AllocError>
    ensures { IfOk result (λ v. (p : Program) (os : List (Option ℕ)) → AreRight p os v.items) }
{
    let mut all = Vec::new(alloc);
    for value in 0..count {
        all.push(Note {
            core: NO_TYPE,
            start: value,
            reached: value,
        })?;
    }
    Ok(all)
}

/// Whether the latest note of a value is of a type.
fn is_noted(latest: &[Note], core: usize, at: usize) -> bool {
    match latest.get(at) {
        None => false,
        Some(note) => note.core == core,
    }
}

/// The value that a value leads to in a constraint on a type by its latest note, or the value itself.
fn noted(latest: &[Note], core: usize, at: usize) -> usize
    ensures { (p : Program) (os : List (Option ℕ)) → AreRight p os latest.now → Leads p os core at result }
{
    match latest.get(at) {
        None => at,
        Some(note) => {
            if note.core == core && note.start == at {
                note.reached
            } else {
                at
            }
        }
    }
}

/// How many references are followed one by one from a value on. If it has a signpost, they take about as long as to ask
/// the signposts for the names of the type.
fn most_steps(course: &Course<'_>, start: usize) -> usize {
    match post_at(course.signs, start) {
        None => course.target.len(),
        Some(_) => {
            let names = numbers_of(course.shape.shape()).len();
            names.saturating_mul(STEPS_A_NAME).saturating_add(FEW_STEPS)
        }
    }
}

/// Follows at most so many references from a value up to one that stands for a number by itself, refers to no value, or
/// was passed before in a constraint on the type. The result is how many references there are, and the value.
fn walked(course: &Course<'_>, latest: &[Note], start: usize, most: usize) -> (usize, usize)
    requires inside { start < length course.now.linked.now.program.values }
    requires referred { AreReferred course.now.linked.now.program course.now.target.now }
    ensures walk { follow (next course.now.linked.now.program (kind_of course.now.shape.now) course.now.target.now)
        result.0 start ≡ Some result.1 }
    ensures inside { result.1 < length course.now.linked.now.program.values }
{
    course.linked.lemma_whole();
    let mut at = start;
    for step in 0..most {
        if is_noted(latest, course.core, at) {
            return (step, at);
        }
        let (_, notation) = notation_at(course.linked, at);
        match direct_number(course.shape, notation) {
            Some(_) => return (step, at),
            None => match course.target[at] {
                None => return (step, at),
                Some(next) => at = next,
            },
        }
    }
    (most, at)
}

/// The value to which a value leads by the signposts. In a circle the way goes on once from the last value.
fn led(course: &Course<'_>, start: usize) -> usize
    requires inside { start < length course.now.linked.now.program.values }
    requires referred { AreReferred course.now.linked.now.program course.now.target.now }
    requires signed { AreSigned course.now.linked.now.program course.now.target.now course.now.signs.now }
    ensures { ArrivesAt (next course.now.linked.now.program (kind_of course.now.shape.now) course.now.target.now)
        start result }
{
    course.linked.lemma_whole();
    let at = nearest(course.signs, course.shape, start);
    let (_, notation) = notation_at(course.linked, at);
    match direct_number(course.shape, notation) {
        Some(_) => at,
        None => match course.target[at] {
            None => at,
            Some(next) => nearest(course.signs, course.shape, next),
        },
    }
}

/// The value to which a value leads by the signposts, or by its latest note.
fn reached_after(course: &Course<'_>, latest: &[Note], start: usize, by_signs: bool) -> usize
    requires inside { start < length course.now.linked.now.program.values }
    requires referred { AreReferred course.now.linked.now.program course.now.target.now }
    requires signed { AreSigned course.now.linked.now.program course.now.target.now course.now.signs.now }
    requires kind { HasKind course.now.linked.now.program.types course.now.core (kind_of course.now.shape.now) }
    requires right { AreRight course.now.linked.now.program course.now.target.now latest.now }
    ensures { ArrivesAt (next course.now.linked.now.program (kind_of course.now.shape.now) course.now.target.now)
        start result }
{
    if by_signs {
        led(course, start)
    } else {
        noted(latest, course.core, start)
    }
}

/// Puts a note in the place of the latest one of its value.
fn put(latest: &mut Vec<Note>, note: Note)
    ensures { (p : Program) (os : List (Option ℕ)) → AreRight p os latest.old.items
        → Leads p os note.core note.start note.reached
        → AreRight p os latest.new.items }
{
    if note.start < latest.len() {
        latest[note.start] = note;
    }
}

/// Notes of the first values of a walk where they lead.
fn mark(course: &Course<'_>, latest: &mut Vec<Note>, start: usize, steps: usize, reached: usize)
    requires kind { HasKind course.now.linked.now.program.types course.now.core (kind_of course.now.shape.now) }
    requires path { IsPath course.now.linked.now.program (kind_of course.now.shape.now) course.now.target.now
        steps start reached }
    requires right { AreRight course.now.linked.now.program course.now.target.now latest.old.items }
    ensures { AreRight course.now.linked.now.program course.now.target.now latest.new.items }
{
    let mut at = start;
    for step in 0..steps {
        if at >= course.target.len() {
            return;
        }
        put(
            latest,
            Note {
                core: course.core,
                start: at,
                reached,
            },
        );
        match course.target[at] {
            None => return,
            Some(next) => at = next,
        }
    }
}

/// Whether a value was not an end in a constraint on the type before. From now on it was.
fn ask(finder: &mut Finder, core: usize, start: usize) -> bool
    ensures latest { finder.new.latest ≡ finder.old.latest }
    ensures kept { finder.new.kept ≡ finder.old.kept }
{
    if start >= finder.asked.len() || finder.asked[start] == core {
        return false;
    }
    finder.asked[start] = core;
    true
}

/// Finds where a value leads in a constraint on the type, and keeps it if the way is long.
fn find(course: &Course<'_>, finder: &mut Finder, start: usize) -> Result<(), AllocError>
    requires inside { start < length course.now.linked.now.program.values }
    requires referred { AreReferred course.now.linked.now.program course.now.target.now }
    requires signed { AreSigned course.now.linked.now.program course.now.target.now course.now.signs.now }
    requires kind { HasKind course.now.linked.now.program.types course.now.core (kind_of course.now.shape.now) }
    requires found { AreFound course.now.linked.now.program course.now.target.now finder.old }
    ensures { OnOk result (AreFound course.now.linked.now.program course.now.target.now finder.new) }
{
    if !ask(finder, course.core, start) {
        return Ok(());
    }
    let most = most_steps(course, start);
    let (steps, at) = walked(course, &finder.latest, start, most);
    let reached = reached_after(course, &finder.latest, at, steps == most);
    mark(course, &mut finder.latest, start, steps, reached);
    if steps < FEW_STEPS && reached == at {
        return Ok(());
    }
    finder.kept.push(Note {
        core: course.core,
        start,
        reached,
    })?;
    Ok(())
}

/// The same for an end that is read in a module, if it is the name of a value.
fn find_end(
    course: &Course<'_>,
    finder: &mut Finder,
    within: &str,
    end: &EndSyntax,
) -> Result<(), AllocError>
    requires referred { AreReferred course.now.linked.now.program course.now.target.now }
    requires signed { AreSigned course.now.linked.now.program course.now.target.now course.now.signs.now }
    requires kind { HasKind course.now.linked.now.program.types course.now.core (kind_of course.now.shape.now) }
    requires found { AreFound course.now.linked.now.program course.now.target.now finder.old }
    ensures { OnOk result (AreFound course.now.linked.now.program course.now.target.now finder.new) }
{
    match end {
        EndSyntax::Number(_) => Ok(()),
        EndSyntax::Reference(reference) => match named(course.shape, reference) {
            Some(_) => Ok(()),
            None => match named_value(course.linked, within, reference) {
                None => Ok(()),
                Some(start) => find(course, finder, start),
            },
        },
    }
}

/// The same for the ends of a range.
fn find_range(
    course: &Course<'_>,
    finder: &mut Finder,
    within: &str,
    range: &RangeSyntax,
) -> Result<(), AllocError>
    requires referred { AreReferred course.now.linked.now.program course.now.target.now }
    requires signed { AreSigned course.now.linked.now.program course.now.target.now course.now.signs.now }
    requires kind { HasKind course.now.linked.now.program.types course.now.core (kind_of course.now.shape.now) }
    requires found { AreFound course.now.linked.now.program course.now.target.now finder.old }
    ensures { OnOk result (AreFound course.now.linked.now.program course.now.target.now finder.new) }
{
    match range {
        RangeSyntax::Single(end) => find_end(course, finder, within, end),
        RangeSyntax::Between(Some(first), Some(last)) => {
            match find_end(course, finder, within, first) {
                Ok(()) => find_end(course, finder, within, last),
                Err(fault) => Err(fault),
            }
        }
        RangeSyntax::Between(Some(first), None) => find_end(course, finder, within, first),
        RangeSyntax::Between(None, Some(last)) => find_end(course, finder, within, last),
        RangeSyntax::Between(None, None) => Ok(()),
    }
}

/// The same for the ends of ranges.
fn find_ranges(
    course: &Course<'_>,
    finder: &mut Finder,
    within: &str,
    ranges: &[RangeSyntax],
) -> Result<(), AllocError>
    requires referred { AreReferred course.now.linked.now.program course.now.target.now }
    requires signed { AreSigned course.now.linked.now.program course.now.target.now course.now.signs.now }
    requires kind { HasKind course.now.linked.now.program.types course.now.core (kind_of course.now.shape.now) }
    requires found { AreFound course.now.linked.now.program course.now.target.now finder.old }
    ensures { OnOk result (AreFound course.now.linked.now.program course.now.target.now finder.new) }
{
    for range in ranges {
        match find_range(course, finder, within, range) {
            Ok(()) => {}
            Err(fault) => return Err(fault),
        }
    }
    Ok(())
}

/// The same for the ends in constraints.
fn find_constraints(
    course: &Course<'_>,
    finder: &mut Finder,
    within: &str,
    constraints: &[ConstraintSyntax],
) -> Result<(), AllocError>
    requires referred { AreReferred course.now.linked.now.program course.now.target.now }
    requires signed { AreSigned course.now.linked.now.program course.now.target.now course.now.signs.now }
    requires kind { HasKind course.now.linked.now.program.types course.now.core (kind_of course.now.shape.now) }
    requires found { AreFound course.now.linked.now.program course.now.target.now finder.old }
    ensures { OnOk result (AreFound course.now.linked.now.program course.now.target.now finder.new) }
{
    for constraint in constraints {
        match &constraint.form {
            ConstraintForm::Values(ranges) => {
                match find_ranges(course, finder, within, &ranges.ranges) {
                    Ok(()) => {}
                    Err(fault) => return Err(fault),
                }
            }
            ConstraintForm::Size(_) => {}
            ConstraintForm::From(_) => {}
        }
    }
    Ok(())
}

/// A type as it is written in a text.
fn written_at(linked: &Linked, ty: usize) -> &TypeNode
    requires { ty < length linked.now.program.types }
    ensures there { slice_get linked.now.program.types ty ≡ Some (type_of result.now) }
    ensures written { slice_get linked.now.types ty ≡ Some result.now }
{
    &linked.types()[ty]
}

/// The shape of a type that is no reference and no tag.
fn core_shape(linked: &Linked, core: usize) -> NamedShape<'_>
    requires { core < length linked.now.program.types }
    ensures { HasKind linked.now.program.types core (kind_of result) }
{
    let _written = written_at(linked, core);
    linked.shape(TypeId { index: core })
}

/// The same for the ends in the constraints of a type, by its number.
fn find_type(
    linked: &Linked,
    target: &[Option<usize>],
    signs: &Signposts<'_>,
    finder: &mut Finder,
    ty: usize,
) -> Result<(), AllocError>
    requires there { ty < length linked.now.program.types }
    requires referred { AreReferred linked.now.program target.now }
    requires signed { AreSigned linked.now.program target.now signs.now }
    requires found { AreFound linked.now.program target.now finder.old }
    ensures { OnOk result (AreFound linked.now.program target.now finder.new) }
{
    let core = linked.core(TypeId { index: ty });
    let shape = core_shape(linked, core.index);
    let home = linked.home(TypeId { index: ty });
    let written = written_at(linked, ty);
    let course = Course {
        linked,
        target,
        signs,
        shape: &shape,
        core: core.index,
    };
    find_constraints(&course, finder, home.module, &written.constraints)
}

/// The same for all these types.
fn find_types(
    linked: &Linked,
    target: &[Option<usize>],
    signs: &Signposts<'_>,
    finder: &mut Finder,
    order: &[usize],
) -> Result<(), AllocError>
    requires referred { AreReferred linked.now.program target.now }
    requires signed { AreSigned linked.now.program target.now signs.now }
    requires found { AreFound linked.now.program target.now finder.old }
    ensures { OnOk result (AreFound linked.now.program target.now finder.new) }
{
    for step in 0..order.len() {
        let ty = order[step];
        if ty < linked.types().len() {
            match find_type(linked, target, signs, finder, ty) {
                Ok(()) => {}
                Err(fault) => return Err(fault),
            }
        }
    }
    Ok(())
}

/// The number of the type that a type's references and tags lead to.
fn core_of(linked: &Linked, ty: usize) -> usize {
    if ty < linked.types().len() {
        linked.core(TypeId { index: ty }).index
    } else {
        ty
    }
}

/// Whether a type has constraints, and leads to one with named numbers.
fn is_asked(linked: &Linked, ty: usize) -> bool
    requires { ty < length linked.now.program.types }
{
    let core = linked.core(TypeId { index: ty });
    let written = written_at(linked, ty);
    let shape = written_at(linked, core.index);
    !written.constraints.is_empty() && !is_nameless(&shape.shape)
}

/// The types with constraints that lead to types with named numbers, in the order of the types that they lead to.
fn asked_types(alloc: Global, linked: &Linked) -> Result<Vec<usize>, AllocError> {
    let mut all = Vec::new(alloc);
    for ty in 0..linked.types().len() {
        if is_asked(linked, ty) {
            all.push(ty)?;
        }
    }
    all.sort_by_key(|ty| core_of(linked, *ty))?;
    Ok(all)
}

/// The types that these types lead to, each once, if the types are in the order of those that they lead to.
fn cores_of(alloc: Global, linked: &Linked, order: &[usize]) -> Result<Vec<usize>, AllocError> {
    let mut all = Vec::new(alloc);
    let mut before = NO_TYPE;
    for ty in order {
        let core = core_of(linked, *ty);
        if core != before {
            all.push(core)?;
            before = core;
        }
    }
    Ok(all)
}

/// What is found for all ends of ranges in constraints on types with named numbers.
fn found(alloc: Global, linked: &Linked, target: &[Option<usize>]) -> Result<Vec<Note>, AllocError>
    requires { AreReferred linked.now.program target.now }
    ensures { IfOk result (λ v. AreRight linked.now.program target.now v.items) }
{
    let order = asked_types(alloc, linked)?;
    if order.is_empty() {
        return Ok(Vec::new(alloc));
    }
    let cores = cores_of(alloc, linked, &order)?;
    let signs = signposts(alloc, linked, target, &cores)?;
    let mut finder = Finder {
        latest: first_notes(alloc, target.len())?,
        asked: vec![in alloc; NO_TYPE; target.len()]?,
        kept: Vec::new(alloc),
    };
    find_types(linked, target, &signs, &mut finder, &order)?;
    let Finder {
        latest: _,
        asked: _,
        kept,
    } = finder;
    Ok(kept)
}

/// The places of notes, in the order of their types and values.
fn order_of(alloc: Global, notes: &[Note]) -> Result<Vec<usize>, AllocError> {
    let mut order = Vec::new(alloc);
    for place in 0..notes.len() {
        order.push(place)?;
    }
    order.sort_by_key(|place| key_at(notes, *place))?;
    Ok(order)
}

/// The notes of all ends of ranges in constraints on types with named numbers that have long ways, and the places of
/// the notes in the order of their types and values.
pub(crate) fn all_found(
    alloc: Global,
    linked: &Linked,
    target: &[Option<usize>],
) -> Result<(Vec<Note>, Vec<usize>), AllocError>
    requires { AreReferred linked.now.program target.now }
    ensures { IfOk result (λ r. AreRight linked.now.program target.now r.0.items) }
{
    let notes = found(alloc, linked, target)?;
    let order = order_of(alloc, &notes)?;
    Ok((notes, order))
}
