//! Steps and elements that need no frame.

ghost use Rattle.asn_base.specs.Abstract.{abstract};
ghost use Rattle.codec_code.specs.Steps.{Steps};
ghost use Rattle.codec_code.specs.Routines.{routine_at};
ghost use Rattle.codec_code.specs.declared.step.RowKind.TheVariants.{Leaf as LeafRow};
ghost use Rattle.codec_code.specs.declared.step.Step.TheVariants.{End, Field as FieldStep, Head as HeadStep, Leaf as LeafStep};
ghost use Rattle.codec_machine.specs.Frames.{Acted, ElementsEmit, EmitsNothing, MembersEmit, NoEvents, NoStep};
ghost use Rattle.codec_machine.specs.Frames.{Progress, Ran, StepTaken, elements_weight, paired};
ghost use Rattle.codec_machine.specs.Weights.{total};
ghost use Rattle.std.specs.Prelude.{◌≡◌, ◌≤◌, ◌∷◌, [], IfErr, IfOk, MatchBool, OnOk, length};

use crate::backend::Backend;
use crate::fault::RunFault;
use crate::frame::{Frame, RoutineRest};
use crate::sequence::take_element;
use crate::value_parts::{first_step, first_value, has_default, leaf_chosen, written_value};
use asn_base::schema::TypeId;
use asn_base::value::Value;
use codec_code::{Code, Field, Head, Step, Summary};
use encodings::LeafKind;

/// Adds the events of a value of the type, if it is written with one header and holds no others. The result says
/// whether they were added; if not, nothing was done.
#[inline(always)]
fn value_at_once<'a, B: Backend<'a>>(
    code: &'a Code,
    id: TypeId,
    value: &'a Value,
    backend: &mut B,
) -> Result<bool, RunFault>
    ensures ok { IfOk result (λ taken. MatchBool taken
        (Ran code.now id.index (abstract value.now) B.adds backend.old backend.new)
        (backend.new ≡ backend.old)) }
    ensures refused { IfErr result (EmitsNothing (Steps code.now id.index (routine_at code.now id.index)
        (abstract value.now))) }
{
    match code.summary(id) {
        Summary::Leaf(head, kind) => match backend.whole(head, kind, value) {
            Ok(()) => Ok(true),
            Err(fault) => Err(fault),
        },
        Summary::Any => match choice_at_once(code, id, value, backend) {
            Ok(taken) => Ok(taken),
            Err(fault) => Err(fault),
        },
        Summary::Components(_, _) | Summary::Elements(_) => Ok(false),
    }
}

/// The same for a type that is a CHOICE without a tag. For other types nothing is done.
#[inline(never)]
fn choice_at_once<'a, B: Backend<'a>>(
    code: &'a Code,
    id: TypeId,
    value: &'a Value,
    backend: &mut B,
) -> Result<bool, RunFault>
    ensures ok { IfOk result (λ taken. MatchBool taken
        (Ran code.now id.index (abstract value.now) B.adds backend.old backend.new)
        (backend.new ≡ backend.old)) }
    ensures refused { IfErr result (EmitsNothing (Steps code.now id.index (routine_at code.now id.index)
        (abstract value.now))) }
{
    match leaf_chosen(code, id, value) {
        None => Ok(false),
        Some((head, kind, held)) => match backend.whole(head, kind, held) {
            Ok(()) => Ok(true),
            Err(fault) => Err(fault),
        },
    }
}

/// Takes the step of a component of a SEQUENCE if the component is left out, or is written with one header and holds no
/// others. The result says whether the step was taken; if not, nothing was done.
#[inline(always)]
fn field_at_once<'a, B: Backend<'a>>(
    code: &'a Code,
    id: TypeId,
    field: Field,
    value: &'a Value,
    backend: &mut B,
) -> Result<bool, RunFault>
    ensures ok { IfOk result (λ taken. MatchBool taken
        (StepTaken code.now B.adds id.index (FieldStep field) (abstract value.now) backend.old backend.new)
        (backend.new ≡ backend.old)) }
    ensures refused { IfErr result (NoStep code.now id.index (FieldStep field) (abstract value.now)) }
{
    let written = match written_value(code, id, field, value) {
        Ok(written) => written,
        Err(fault) => return Err(fault),
    };
    match written {
        None => {
            backend.leave_out(has_default(field.need))?;
            Ok(true)
        }
        Some(component) => match value_at_once(code, field.ty, component, backend) {
            Ok(taken) => Ok(taken),
            Err(fault) => Err(fault),
        },
    }
}

/// Takes a step if it needs no frame. The result says whether it was taken; if not, nothing was done.
#[inline(always)]
fn step_at_once<'a, B: Backend<'a>>(
    code: &'a Code,
    id: TypeId,
    step: Step,
    value: &'a Value,
    backend: &mut B,
) -> Result<bool, RunFault>
    ensures ok { IfOk result (λ taken. MatchBool taken
        (StepTaken code.now B.adds id.index step (abstract value.now) backend.old backend.new)
        (backend.new ≡ backend.old)) }
    ensures refused { IfErr result (NoStep code.now id.index step (abstract value.now)) }
{
    match step {
        Step::Field(field) => match field_at_once(code, id, field, value, backend) {
            Ok(taken) => Ok(taken),
            Err(fault) => Err(fault),
        },
        Step::Head(head) => {
            backend.open(head)?;
            Ok(true)
        }
        Step::End => {
            backend.close()?;
            Ok(true)
        }
        Step::Rest => Ok(true),
        Step::Leaf(kind) => match backend.leaf(kind, value) {
            Ok(()) => Ok(true),
            Err(fault) => Err(fault),
        },
        Step::SetComponent(_, _) | Step::Each(_) | Step::EachSorted(_) => Ok(false),
        Step::Pick(_) | Step::Call(_) => Ok(false),
    }
}

/// Takes steps, up to the first one that needs a frame. The result is that step with the steps after it.
#[inline(always)]
pub(crate) fn take_steps<'a, B: Backend<'a>>(
    code: &'a Code,
    id: TypeId,
    steps: &'a [Step],
    value: &'a Value,
    backend: &mut B,
) -> Result<&'a [Step], RunFault>
    ensures ok { IfOk result (λ left. Progress B.adds
        (Steps code.now id.index steps.now (abstract value.now)) backend.old
        (Steps code.now id.index left.now (abstract value.now)) backend.new) }
    ensures fewer { IfOk result (λ left. length left.now ≤ length steps.now) }
    ensures refused { IfErr result (NoEvents code.now id.index steps.now (abstract value.now)) }
{
    let mut left = steps;
    while let Some((step, rest)) = first_step(left) {
        match step_at_once(code, id, step, value, backend) {
            Ok(taken) => {
                if !taken {
                    return Ok(left);
                }
                left = rest;
            }
            Err(fault) => return Err(fault),
        }
    }
    Ok(left)
}

/// Adds the events of elements, up to the first one with a step that needs a frame. The result is None after the last
/// element, or else the frame for the elements after that one, and the frame for its steps that are left.
#[inline(never)]
pub(crate) fn take_elements<'a, B: Backend<'a>>(
    code: &'a Code,
    id: TypeId,
    steps: &'a [Step],
    values: &'a [Value],
    backend: &mut B,
) -> Result<Option<(Frame<'a>, Frame<'a>)>, RunFault>
    requires { steps.now ≡ routine_at code.now id.index }
    ensures ok { IfOk result (λ o. Acted code.now B.adds (ElementsEmit code.now id.index values.now)
        (elements_weight (total code.now) values.now) [] backend.old (paired o) backend.new) }
    ensures refused { IfErr result (EmitsNothing (ElementsEmit code.now id.index values.now)) }
{
    let mut left = values;
    while let Some((first, others)) = first_value(left) {
        let element = RoutineRest {
            code,
            id,
            steps,
            value: first,
        };
        let rest = match take_element(element, backend) {
            Ok(rest) => rest,
            Err(fault) => return Err(fault),
        };
        if !rest.is_empty() {
            return Ok(Some((Frame::Elements(id, others), Frame::Routine(id, rest, first))));
        }
        left = others;
    }
    Ok(None)
}

/// Adds the events of elements that hold no other values. Each has the same header and kind of contents.
pub(crate) fn whole_elements<'a, B: Backend<'a>>(
    code: &'a Code,
    id: TypeId,
    leaf: (Head, LeafKind),
    values: &'a [Value],
    backend: &mut B,
) -> Result<(), RunFault>
    requires steps { routine_at code.now id.index ≡ HeadStep leaf.0 ∷ LeafStep leaf.1 ∷ End ∷ [] }
    requires row { leaf.0.row ≡ LeafRow }
    ensures ok { OnOk result (Progress B.adds (ElementsEmit code.now id.index values.now) backend.old
        (λ es. es ≡ []) backend.new) }
    ensures refused { IfErr result (EmitsNothing (ElementsEmit code.now id.index values.now)) }
{
    let mut left = values;
    while let Some((first, others)) = first_value(left) {
        match backend.whole(leaf.0, leaf.1, first) {
            Ok(()) => left = others,
            Err(fault) => return Err(fault),
        }
    }
    Ok(())
}

/// Adds the events of members of a SET OF that hold no other values. Each has the same header and kind of contents.
pub(crate) fn whole_members<'a, B: Backend<'a>>(
    code: &'a Code,
    id: TypeId,
    leaf: (Head, LeafKind),
    values: &'a [Value],
    backend: &mut B,
) -> Result<(), RunFault>
    requires steps { routine_at code.now id.index ≡ HeadStep leaf.0 ∷ LeafStep leaf.1 ∷ End ∷ [] }
    requires row { leaf.0.row ≡ LeafRow }
    ensures ok { OnOk result (Progress B.adds (MembersEmit code.now id.index values.now) backend.old
        (λ es. es ≡ []) backend.new) }
    ensures refused { IfErr result (EmitsNothing (MembersEmit code.now id.index values.now)) }
{
    let mut left = values;
    while let Some((first, others)) = first_value(left) {
        match backend.whole(leaf.0, leaf.1, first) {
            Ok(()) => {
                backend.part(0)?;
                left = others;
            }
            Err(fault) => return Err(fault),
        }
    }
    Ok(())
}
