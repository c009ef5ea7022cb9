//! One step of the machine.

ghost use Rattle.asn_base.specs.Abstract.{abstract};
ghost use Rattle.codec_code.specs.declared.step.Step.TheVariants.{Field as FieldStep, SetComponent};
ghost use Rattle.codec_machine.specs.Frames.{Acted, ActedBy, AllEmit, ElementsEmit, EmitsNothing, MembersEmit, NoEvents};
ghost use Rattle.codec_machine.specs.Frames.{Turned, and_next, elements_weight};
ghost use Rattle.codec_machine.specs.Weights.{total};
ghost use Rattle.std.specs.Prelude.{◌++◌, ◌∷◌, [], IfErr, IfOk};

use crate::backend::Backend;
use crate::fault::RunFault;
use crate::frame::{Frame, RoutineRest};
use crate::in_place::{take_elements, take_steps, whole_elements, whole_members};
use crate::push::{add, push_choice, push_each, push_sorted, push_sorted_elements};
use crate::value_parts::{first_step, has_default, leaf_routine, written_value};
use asn_base::schema::TypeId;
use asn_base::value::Value;
use codec_code::{Code, Coding, Field, Step};

/// Takes the next step of this frame, which was the last one. The result is the frame that comes next, or None if that
/// is the last one in `frames`.
pub(crate) fn run_frame<'a, B: Backend<'a>>(
    code: &'a Code,
    frame: Frame<'a>,
    frames: &mut Vec<Frame<'a>>,
    backend: &mut B,
) -> Result<Option<Frame<'a>>, RunFault>
    ensures ok { IfOk result (λ o. Turned code.now B.adds (frames.old.items ++ frame.entry ∷ []) backend.old
        (and_next frames.new.items o) backend.new) }
    ensures refused { IfErr result (EmitsNothing (AllEmit code.now (frames.old.items ++ frame.entry ∷ []))) }
{
    match frame {
        Frame::Routine(id, steps, value) => match leaf_routine(steps) {
            None => {
                let rest = RoutineRest {
                    code,
                    id,
                    steps,
                    value,
                };
                match run_routine(rest, frames, backend) {
                    Ok(next) => Ok(next),
                    Err(fault) => Err(fault),
                }
            }
            Some((head, kind)) => match backend.whole(head, kind, value) {
                Ok(()) => Ok(None),
                Err(fault) => Err(fault),
            },
        },
        Frame::Elements(id, values) => match run_elements(code, id, values, frames, backend) {
            Ok(next) => Ok(next),
            Err(fault) => Err(fault),
        },
        Frame::SortedElements(id, values) => match run_members(code, id, values, frames, backend) {
            Ok(next) => Ok(next),
            Err(fault) => Err(fault),
        },
        Frame::MemberEnd(rank) => {
            backend.part(rank)?;
            Ok(None)
        }
    }
}

/// Takes the steps of a routine up to one that needs frames, and that one. The result is the frame that comes next, or
/// None if that is the last one in `frames`.
fn run_routine<'a, B: Backend<'a>>(
    rest: RoutineRest<'a>,
    frames: &mut Vec<Frame<'a>>,
    backend: &mut B,
) -> Result<Option<Frame<'a>>, RunFault>
    ensures ok { IfOk result (λ o. ActedBy rest.entry.code.now B.adds rest.entry.id.index
        rest.entry.steps.now (abstract rest.entry.value.now)
        frames.old.items backend.old (and_next frames.new.items o) backend.new) }
    ensures refused { IfErr result (NoEvents rest.entry.code.now rest.entry.id.index
        rest.entry.steps.now (abstract rest.entry.value.now)) }
{
    let left = match take_steps(rest.code, rest.id, rest.steps, rest.value, backend) {
        Ok(left) => left,
        Err(fault) => return Err(fault),
    };
    match first_step(left) {
        Some((step, steps)) => match run_step(
            step,
            RoutineRest { steps, ..rest },
            frames,
            backend,
        ) {
            Ok(next) => Ok(Some(next)),
            Err(fault) => Err(fault),
        },
        None => Ok(None),
    }
}

/// Adds the events of elements, up to the first one that needs frames. The result is the frame that comes next, or None
/// if that is the last one in `frames`.
fn run_elements<'a, B: Backend<'a>>(
    code: &'a Code,
    id: TypeId,
    values: &'a [Value],
    frames: &mut Vec<Frame<'a>>,
    backend: &mut B,
) -> Result<Option<Frame<'a>>, RunFault>
    ensures ok { IfOk result (λ o. Acted code.now B.adds (ElementsEmit code.now id.index values.now)
        (elements_weight (total code.now) values.now)
        frames.old.items backend.old (and_next frames.new.items o) backend.new) }
    ensures refused { IfErr result (EmitsNothing (ElementsEmit code.now id.index values.now)) }
{
    let steps = code.steps(id, Coding::Tagged);
    match leaf_routine(steps) {
        Some(leaf) => match whole_elements(code, id, leaf, values, backend) {
            Ok(()) => Ok(None),
            Err(fault) => Err(fault),
        },
        None => match take_elements(code, id, steps, values, backend) {
            Ok(left) => match left {
                Some((others, next)) => {
                    add(frames, others)?;
                    Ok(Some(next))
                }
                None => Ok(None),
            },
            Err(fault) => Err(fault),
        },
    }
}

/// Adds the events of members of a SET OF, up to the first one that needs frames. The result is the frame that comes
/// next, or None if that is the last one in `frames`.
fn run_members<'a, B: Backend<'a>>(
    code: &'a Code,
    id: TypeId,
    values: &'a [Value],
    frames: &mut Vec<Frame<'a>>,
    backend: &mut B,
) -> Result<Option<Frame<'a>>, RunFault>
    ensures ok { IfOk result (λ o. Acted code.now B.adds (MembersEmit code.now id.index values.now)
        (elements_weight (total code.now) values.now)
        frames.old.items backend.old (and_next frames.new.items o) backend.new) }
    ensures refused { IfErr result (EmitsNothing (MembersEmit code.now id.index values.now)) }
{
    match leaf_routine(code.steps(id, Coding::Tagged)) {
        Some(leaf) => match whole_members(code, id, leaf, values, backend) {
            Ok(()) => Ok(None),
            Err(fault) => Err(fault),
        },
        None => {
            let next = push_sorted_elements(code, id, values, frames)?;
            Ok(next)
        }
    }
}

/// Takes a step of a routine. `rest` has the steps after it.
fn run_step<'a, B: Backend<'a>>(
    step: Step,
    rest: RoutineRest<'a>,
    frames: &mut Vec<Frame<'a>>,
    backend: &mut B,
) -> Result<Frame<'a>, RunFault>
    ensures ok { IfOk result (λ f. ActedBy rest.entry.code.now B.adds rest.entry.id.index
        (step ∷ rest.entry.steps.now) (abstract rest.entry.value.now)
        frames.old.items backend.old (frames.new.items ++ f ∷ []) backend.new) }
    ensures refused { IfErr result (NoEvents rest.entry.code.now rest.entry.id.index
        (step ∷ rest.entry.steps.now) (abstract rest.entry.value.now)) }
{
    match step {
        Step::Head(head) => {
            backend.open(head)?;
            Ok(Frame::Routine(rest.id, rest.steps, rest.value))
        }
        Step::End => {
            backend.close()?;
            Ok(Frame::Routine(rest.id, rest.steps, rest.value))
        }
        Step::Rest => Ok(Frame::Routine(rest.id, rest.steps, rest.value)),
        Step::Leaf(kind) => match backend.leaf(kind, rest.value) {
            Ok(()) => Ok(Frame::Routine(rest.id, rest.steps, rest.value)),
            Err(fault) => Err(fault),
        },
        Step::Field(field) => field_step(field, rest, frames, backend),
        Step::SetComponent(field, rank) => set_component_step(field, rank, rest, frames, backend),
        Step::Each(of) => match push_each(of, rest, frames) {
            Ok(next) => Ok(next),
            Err(fault) => Err(fault),
        },
        Step::EachSorted(of) => match push_sorted(of, rest, frames) {
            Ok(next) => Ok(next),
            Err(fault) => Err(fault),
        },
        Step::Pick(alternatives) => match push_choice(alternatives, rest, frames) {
            Ok(next) => Ok(next),
            Err(fault) => Err(fault),
        },
        Step::Call(_) => Err(RunFault::NotOfType),
    }
}

/// Takes the step of a component of a SEQUENCE.
fn field_step<'a, B: Backend<'a>>(
    field: Field,
    rest: RoutineRest<'a>,
    frames: &mut Vec<Frame<'a>>,
    backend: &mut B,
) -> Result<Frame<'a>, RunFault>
    ensures ok { IfOk result (λ f. ActedBy rest.entry.code.now B.adds rest.entry.id.index
        (FieldStep field ∷ rest.entry.steps.now) (abstract rest.entry.value.now)
        frames.old.items backend.old (frames.new.items ++ f ∷ []) backend.new) }
    ensures refused { IfErr result (NoEvents rest.entry.code.now rest.entry.id.index
        (FieldStep field ∷ rest.entry.steps.now) (abstract rest.entry.value.now)) }
{
    let written = match written_value(rest.code, rest.id, field, rest.value) {
        Ok(written) => written,
        Err(fault) => return Err(fault),
    };
    match written {
        None => {
            backend.leave_out(has_default(field.need))?;
            Ok(Frame::Routine(rest.id, rest.steps, rest.value))
        }
        Some(component) => {
            let steps = rest.code.steps(field.ty, Coding::Tagged);
            add(frames, Frame::Routine(rest.id, rest.steps, rest.value))?;
            Ok(Frame::Routine(field.ty, steps, component))
        }
    }
}

/// Takes the step of a component of a SET.
fn set_component_step<'a, B: Backend<'a>>(
    field: Field,
    rank: usize,
    rest: RoutineRest<'a>,
    frames: &mut Vec<Frame<'a>>,
    backend: &mut B,
) -> Result<Frame<'a>, RunFault>
    ensures ok { IfOk result
        (λ f. ActedBy rest.entry.code.now B.adds rest.entry.id.index
        (SetComponent field rank ∷ rest.entry.steps.now) (abstract rest.entry.value.now)
        frames.old.items backend.old (frames.new.items ++ f ∷ []) backend.new) }
    ensures refused { IfErr result
        (NoEvents rest.entry.code.now rest.entry.id.index
        (SetComponent field rank ∷ rest.entry.steps.now) (abstract rest.entry.value.now)) }
{
    let written = match written_value(rest.code, rest.id, field, rest.value) {
        Ok(written) => written,
        Err(fault) => return Err(fault),
    };
    match written {
        None => {
            backend.leave_out(has_default(field.need))?;
            Ok(Frame::Routine(rest.id, rest.steps, rest.value))
        }
        Some(component) => {
            add(frames, Frame::Routine(rest.id, rest.steps, rest.value))?;
            add(frames, Frame::MemberEnd(rank))?;
            let steps = rest.code.steps(field.ty, Coding::Tagged);
            Ok(Frame::Routine(field.ty, steps, component))
        }
    }
}
