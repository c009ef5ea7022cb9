//! How a routine is read.

ghost use Rattle.asn_base.specs.Seen.{kind_of};
ghost use Rattle.asn_base.specs.Types.{Alternative, Resolved, a_choice};
ghost use Rattle.packed_encodings.specs.Lengths.{Bits};
ghost use Rattle.packed_code.specs.declared.step.PackedStep.TheVariants.{ExtensionBit};
ghost use Rattle.packed_reader.specs.proving.Plans.{IsNothing, PlanFits, run_plan};
ghost use Rattle.packed_reader.specs.proving.Running.{RunsValue, run_steps};
ghost use Rattle.packed_writer.specs.proving.Values.{StepsFit};
ghost use Rattle.std.specs.Prelude.{◌≡◌, ◌<◌, ◌^◌, ◌∷◌, [], Bool, List, drop, length, ℕ};

use asn_base::schema::{Core, TypeId};
use packed_code::PackedStep;
use packed_writer::{first, next};

/// The steps of a SEQUENCE or SET after the first ones, and how many of them are components of the root.
#[derive(Clone, Copy)]
pub(crate) struct Shape<'a> {
    pub extensible: bool,
    pub count: usize,
    pub steps: &'a [PackedStep],
}

/// What the steps of a routine are for: components; elements of a type, in ascending order or not; alternatives;
/// contents that hold no other values; or nothing.
#[derive(Clone, Copy)]
pub(crate) enum Plan<'a> {
    Fields(Shape<'a>),
    List(TypeId, bool),
    Choice(&'a [PackedStep]),
    Leaf,
    Nothing,
}

/// The plan of steps that begin with a mark.
#[inline(always)]
fn marked<'a>(steps: &'a [PackedStep]) -> Plan<'a>
    ensures is { (m : ℕ) (s : List Resolved) (l : ℕ) (value : RunsValue) (t k n : ℕ) (b : Bits)
        → run_steps s l value t (ExtensionBit m ∷ steps.now) k n b ≡ run_plan s l value t result k n b }
    ensures fits { (s : List Resolved) (t : ℕ) → StepsFit s t steps.now → PlanFits s t result }
    ensures some { IsNothing result → ⊥ }
{
    match first(steps) {
        Some((PackedStep::Map(count), rest)) => Plan::Fields(Shape {
            extensible: true,
            count,
            steps: rest,
        }),
        _ => Plan::Leaf,
    }
}

/// The plan of a routine's steps.
#[inline(always)]
pub(crate) fn plan_of<'a>(steps: &'a [PackedStep]) -> Plan<'a>
    ensures is { (s : List Resolved) (l : ℕ) (value : RunsValue) (t k n : ℕ) (b : Bits)
        → run_steps s l value t steps.now k n b ≡ run_plan s l value t result k n b }
    ensures fits { (s : List Resolved) (t : ℕ) → StepsFit s t steps.now → PlanFits s t result }
    ensures some { steps.now ≡ [] → IsNothing result }
{
    let Some((step, rest)) = first(steps) else {
        return Plan::Nothing;
    };
    match step {
        PackedStep::ExtensionBit(_) => marked(rest),
        PackedStep::Map(count) => Plan::Fields(Shape {
            extensible: false,
            count,
            steps: rest,
        }),
        PackedStep::Each(element) => Plan::List(element, false),
        PackedStep::EachSorted(element) => Plan::List(element, true),
        PackedStep::Pick(count) => Plan::Choice(next(rest, count)),
        PackedStep::Bit | PackedStep::Number(_, _) | PackedStep::Leaf => Plan::Leaf,
        PackedStep::Field(_) | PackedStep::Bitmap(_) | PackedStep::Added(_) => Plan::Leaf,
        PackedStep::Group(_) | PackedStep::Member(_) | PackedStep::Rest => Plan::Leaf,
        PackedStep::Root(_) | PackedStep::More(_, _) => Plan::Leaf,
    }
}

/// All steps after so many.
pub(crate) fn past(steps: &[PackedStep], count: usize) -> &[PackedStep]
    ensures { result.now ≡ drop count steps.now }
{
    if count <= steps.len() {
        &steps[count..]
    } else {
        &[]
    }
}

/// A CHOICE has fewer alternatives than there are numbers of 64 bits.
pub(crate) fn has_few(core: &Core)
    ensures { (root more : List Alternative) (e : Bool)
        → kind_of core.now ≡ a_choice root e more
        → length root < 2 ^ 64 }
{
    match core {
        Core::Choice(alternatives) => {
            let _count = alternatives.root.len();
        }
        _ => {}
    }
}
