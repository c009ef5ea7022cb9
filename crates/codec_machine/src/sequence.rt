//! Elements whose components need no frames.

ghost use Rattle.asn_base.specs.Abstract.{abstract, fields, row_of_options};
ghost use Rattle.codec_code.specs.Steps.{Steps};
ghost use Rattle.codec_code.specs.Routines.{routine_at};
ghost use Rattle.codec_code.specs.declared.step.RowKind.TheVariants.{Sequence as SequenceRow};
ghost use Rattle.codec_code.specs.declared.step.Step.TheVariants.{Field as FieldStep, Head as HeadStep};
ghost use Rattle.codec_machine.specs.Frames.{EmitsNothing, NoEvents, NoStep, Progress, Ran, StepTaken};
ghost use Rattle.codec_machine.specs.OpenRows.{Carries};
ghost use Rattle.std.specs.Prelude.{◌≡◌, ◌≤◌, ◌∷◌, IfErr, IfOk, IfSome, MatchBool, length, map, option_map, suc};

use crate::backend::Backend;
use crate::fault::RunFault;
use crate::frame::RoutineRest;
use crate::in_place::take_steps;
use crate::open_row::OpenRow;
use crate::value_parts::{fields_of, first_step, has_default, leaf_chosen, written_at};
use asn_base::schema::TypeId;
use asn_base::value::Value;
use codec_code::{Code, Field, Head, RowKind, Step, Summary};

/// Adds the events of a component within the open row, if it is written with one header and holds no others. The result
/// says whether they were added; if not, nothing was done.
#[inline(always)]
fn value_in_row<'a, B: Backend<'a>>(
    code: &'a Code,
    id: TypeId,
    value: &'a Value,
    row: OpenRow,
    backend: &mut B,
) -> Result<bool, RunFault>
    ensures ok { IfOk result (λ taken. MatchBool taken
        (Ran code.now id.index (abstract value.now) (Carries B.opened row) backend.old backend.new)
        (backend.new ≡ backend.old)) }
    ensures refused { IfErr result (EmitsNothing (Steps code.now id.index (routine_at code.now id.index)
        (abstract value.now))) }
{
    match code.summary(id) {
        Summary::Leaf(head, kind) => match backend.whole_in_row(row, head, kind, value) {
            Ok(()) => Ok(true),
            Err(fault) => Err(fault),
        },
        Summary::Any => match choice_in_row(code, id, value, row, backend) {
            Ok(taken) => Ok(taken),
            Err(fault) => Err(fault),
        },
        Summary::Components(_, _) | Summary::Elements(_) => Ok(false),
    }
}

/// The same for a type that is a CHOICE without a tag. For other types nothing is done.
#[inline(never)]
fn choice_in_row<'a, B: Backend<'a>>(
    code: &'a Code,
    id: TypeId,
    value: &'a Value,
    row: OpenRow,
    backend: &mut B,
) -> Result<bool, RunFault>
    ensures ok { IfOk result (λ taken. MatchBool taken
        (Ran code.now id.index (abstract value.now) (Carries B.opened row) backend.old backend.new)
        (backend.new ≡ backend.old)) }
    ensures refused { IfErr result (EmitsNothing (Steps code.now id.index (routine_at code.now id.index)
        (abstract value.now))) }
{
    match leaf_chosen(code, id, value) {
        None => Ok(false),
        Some((head, kind, held)) => match backend.whole_in_row(row, head, kind, held) {
            Ok(()) => Ok(true),
            Err(fault) => Err(fault),
        },
    }
}

/// Takes the step of a component within the open row if the component is left out, or is written with one header and
/// holds no others. The result says whether the step was taken; if not, nothing was done.
#[inline(always)]
fn field_in_row<'a, B: Backend<'a>>(
    rest: RoutineRest<'a>,
    field: Field,
    values: &'a [Option<Value>],
    row: OpenRow,
    backend: &mut B,
) -> Result<bool, RunFault>
    requires { abstract rest.value.now ≡ fields (row_of_options (map (option_map abstract) values.now)) }
    ensures ok { IfOk result (λ taken. MatchBool taken
        (StepTaken rest.entry.code.now (Carries B.opened row) rest.entry.id.index (FieldStep field)
        (abstract rest.entry.value.now) backend.old backend.new)
        (backend.new ≡ backend.old)) }
    ensures refused { IfErr result (NoStep rest.entry.code.now rest.entry.id.index (FieldStep field)
        (abstract rest.entry.value.now)) }
{
    let written = match written_at(rest.code, rest.id, field, values, rest.value) {
        Ok(written) => written,
        Err(fault) => return Err(fault),
    };
    match written {
        None => {
            backend.leave_out_in_row(row, has_default(field.need))?;
            Ok(true)
        }
        Some(component) => match value_in_row(rest.code, field.ty, component, row, backend) {
            Ok(taken) => Ok(taken),
            Err(fault) => Err(fault),
        },
    }
}

/// Takes a step within the open row if it is that of such a component. The result says whether it was taken; if not,
/// nothing was done.
#[inline(always)]
fn step_in_row<'a, B: Backend<'a>>(
    rest: RoutineRest<'a>,
    step: Step,
    values: &'a [Option<Value>],
    row: OpenRow,
    backend: &mut B,
) -> Result<bool, RunFault>
    requires { abstract rest.value.now ≡ fields (row_of_options (map (option_map abstract) values.now)) }
    ensures ok { IfOk result (λ taken. MatchBool taken
        (StepTaken rest.entry.code.now (Carries B.opened row) rest.entry.id.index step
        (abstract rest.entry.value.now) backend.old backend.new)
        (backend.new ≡ backend.old)) }
    ensures refused { IfErr result (NoStep rest.entry.code.now rest.entry.id.index step
        (abstract rest.entry.value.now)) }
{
    match step {
        Step::Field(field) => match field_in_row(rest, field, values, row, backend) {
            Ok(taken) => Ok(taken),
            Err(fault) => Err(fault),
        },
        _ => Ok(false),
    }
}

/// Takes the steps of components within the open row, up to the first step that isn't taken so. The result is that step
/// with the steps after it.
#[inline(always)]
fn take_fields<'a, B: Backend<'a>>(
    rest: RoutineRest<'a>,
    values: &'a [Option<Value>],
    row: OpenRow,
    backend: &mut B,
) -> Result<&'a [Step], RunFault>
    requires { abstract rest.value.now ≡ fields (row_of_options (map (option_map abstract) values.now)) }
    ensures ok { IfOk result (λ left. Progress (Carries B.opened row)
        (Steps rest.entry.code.now rest.entry.id.index rest.entry.steps.now (abstract rest.entry.value.now))
        backend.old
        (Steps rest.entry.code.now rest.entry.id.index left.now (abstract rest.entry.value.now))
        backend.new) }
    ensures fewer { IfOk result (λ left. length left.now ≤ length rest.entry.steps.now) }
    ensures refused { IfErr result (NoEvents rest.entry.code.now rest.entry.id.index rest.entry.steps.now
        (abstract rest.entry.value.now)) }
{
    let mut left = rest.steps;
    while let Some((step, after)) = first_step(left) {
        match step_in_row(rest, step, values, row, backend) {
            Ok(taken) => {
                if !taken {
                    return Ok(left);
                }
                left = after;
            }
            Err(fault) => return Err(fault),
        }
    }
    Ok(left)
}

/// The same for a value that may be one of another type. Then no step is taken.
#[inline(always)]
fn take_components<'a, B: Backend<'a>>(
    rest: RoutineRest<'a>,
    row: OpenRow,
    backend: &mut B,
) -> Result<&'a [Step], RunFault>
    ensures ok { IfOk result (λ left. Progress (Carries B.opened row)
        (Steps rest.entry.code.now rest.entry.id.index rest.entry.steps.now (abstract rest.entry.value.now))
        backend.old
        (Steps rest.entry.code.now rest.entry.id.index left.now (abstract rest.entry.value.now))
        backend.new) }
    ensures fewer { IfOk result (λ left. length left.now ≤ length rest.entry.steps.now) }
    ensures refused { IfErr result (NoEvents rest.entry.code.now rest.entry.id.index rest.entry.steps.now
        (abstract rest.entry.value.now)) }
{
    match fields_of(rest.value) {
        Some(values) => match take_fields(rest, values, row, backend) {
            Ok(left) => Ok(left),
            Err(fault) => Err(fault),
        },
        None => Ok(rest.steps),
    }
}

/// Takes the header of a SEQUENCE and the steps after it, up to the first one that needs a frame. The result is that
/// step with the steps after it. `rest` has the steps after the header.
#[inline(always)]
fn take_sequence<'a, B: Backend<'a>>(
    head: Head,
    rest: RoutineRest<'a>,
    backend: &mut B,
) -> Result<&'a [Step], RunFault>
    requires { head.row ≡ SequenceRow }
    ensures ok { IfOk result (λ left. Progress B.adds
        (Steps rest.entry.code.now rest.entry.id.index (HeadStep head ∷ rest.entry.steps.now)
        (abstract rest.entry.value.now)) backend.old
        (Steps rest.entry.code.now rest.entry.id.index left.now (abstract rest.entry.value.now)) backend.new) }
    ensures fewer { IfOk result (λ left. length left.now ≤ suc (length rest.entry.steps.now)) }
    ensures refused { IfErr result (NoEvents rest.entry.code.now rest.entry.id.index
        (HeadStep head ∷ rest.entry.steps.now) (abstract rest.entry.value.now)) }
{
    let row = backend.open_row(head.tag, head.constructed)?;
    let left = match take_components(rest, row, backend) {
        Ok(left) => left,
        Err(fault) => return Err(fault),
    };
    match first_step(left) {
        Some((Step::End, after)) => {
            backend.close_row(row)?;
            Ok(after)
        }
        _ => {
            backend.keep_row(row)?;
            Ok(left)
        }
    }
}

/// The header of a SEQUENCE and the steps after it, or None if the steps begin with another one.
#[inline(always)]
fn sequence_head(steps: &[Step]) -> Option<(Head, &[Step])>
    ensures steps { IfSome result (λ p. steps.now ≡ HeadStep p.0 ∷ p.1.now) }
    ensures row { IfSome result (λ p. p.0.row ≡ SequenceRow) }
{
    match first_step(steps) {
        Some((Step::Head(head), after)) => if head.row == RowKind::Sequence {
            Some((head, after))
        } else {
            None
        },
        _ => None,
    }
}

/// Takes the steps of an element, up to the first one that needs a frame. The result is that step with the steps after
/// it.
#[inline(always)]
pub(crate) fn take_element<'a, B: Backend<'a>>(
    rest: RoutineRest<'a>,
    backend: &mut B,
) -> Result<&'a [Step], RunFault>
    ensures ok { IfOk result (λ left. Progress B.adds
        (Steps rest.entry.code.now rest.entry.id.index rest.entry.steps.now (abstract rest.entry.value.now))
        backend.old
        (Steps rest.entry.code.now rest.entry.id.index left.now (abstract rest.entry.value.now)) backend.new) }
    ensures fewer { IfOk result (λ left. length left.now ≤ length rest.entry.steps.now) }
    ensures refused { IfErr result (NoEvents rest.entry.code.now rest.entry.id.index rest.entry.steps.now
        (abstract rest.entry.value.now)) }
{
    match sequence_head(rest.steps) {
        Some((head, steps)) => match take_sequence(head, RoutineRest { steps, ..rest }, backend) {
            Ok(left) => Ok(left),
            Err(fault) => Err(fault),
        },
        None => match take_steps(rest.code, rest.id, rest.steps, rest.value, backend) {
            Ok(left) => Ok(left),
            Err(fault) => Err(fault),
        },
    }
}
