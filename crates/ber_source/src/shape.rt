//! Which node a view has for a value of each type.

ghost use Rattle.ber_source.specs.Shapes.{shape_in};
ghost use Rattle.codec_code.specs.Summaries.{fields_in as fields_in'};
ghost use Rattle.codec_code.specs.Routines.{routine_at};
ghost use Rattle.std.specs.Prelude.{◌≡◌, ◌≤◌, length};

use asn_base::schema::TypeId;
use codec_code::{Code, Coding, Step, Summary};

/// A row with the number of its components, a list of elements, or no node of its own. The last is for a value that
/// holds no others, and for a CHOICE, whose node opens when the number of the alternative comes.
#[derive(Clone, Copy)]
pub enum Shape {
    Row(usize),
    List,
    Bare,
}

/// The number of components that the steps read.
fn fields_in(steps: &[Step]) -> usize
    ensures few { result ≤ length steps.now }
    ensures as_many { result ≡ fields_in' steps.now }
{
    match steps.split_first() {
        Some((Step::Field(_), following)) => 1 + fields_in(following),
        Some((Step::SetComponent(_, _), following)) => 1 + fields_in(following),
        Some((_, following)) => fields_in(following),
        None => 0,
    }
}

/// The node of a value that these steps read.
pub(crate) fn shape_of(steps: &[Step]) -> Shape
    ensures { result ≡ shape_in steps.now }
{
    let Some((step, following)) = steps.split_first() else {
        return Shape::Bare;
    };
    match *step {
        Step::Head(_) => shape_of(following),
        Step::Leaf(_) => Shape::Bare,
        Step::Pick(_) => Shape::Bare,
        Step::Call(_) => Shape::Bare,
        Step::Each(_) => Shape::List,
        Step::EachSorted(_) => Shape::List,
        Step::Field(_) => Shape::Row(fields_in(steps)),
        Step::SetComponent(_, _) => Shape::Row(fields_in(steps)),
        Step::Rest => Shape::Row(0),
        Step::End => Shape::Row(0),
    }
}

/// The same as `shape_of`. Steps that begin with a choice aren't walked.
#[inline(always)]
fn shape_from(steps: &[Step]) -> Shape
    ensures { result ≡ shape_in steps.now }
{
    match steps.split_first() {
        Some((Step::Pick(_), _)) => Shape::Bare,
        _ => shape_of(steps),
    }
}

/// The node of a value of the type. If the brief of the type's routine is enough, the steps aren't walked.
#[inline(always)]
pub(crate) fn shape_at(code: &Code, id: TypeId) -> Shape
    ensures { result ≡ shape_in (routine_at code.now id.index) }
{
    match code.summary(id) {
        Summary::Leaf(_, _) => Shape::Bare,
        Summary::Components(_, count) => Shape::Row(count),
        Summary::Elements(_) => Shape::List,
        Summary::Any => shape_from(code.steps(id, Coding::Tagged)),
    }
}
