//! Frames for the work that steps leave.

ghost use Rattle.asn_base.specs.Abstract.{abstract, row_of_list};
ghost use Rattle.codec_code.specs.Steps as steps;
ghost use Rattle.codec_code.specs.declared.step.Step.TheVariants.{Each, EachSorted, Pick};
ghost use Rattle.codec_machine.specs.Frames.{NoEvents, Replaced, ReplacedBy, and_next};
ghost use Rattle.codec_machine.specs.Weights.{total, weights};
ghost use Rattle.std.specs.Prelude.{◌≡◌, ◌++◌, ◌∷◌, [], IfErr, IfOk, None, OnOk, map, suc};

use crate::fault::RunFault;
use crate::frame::{Frame, RoutineRest};
use crate::value_parts::{called, chosen, elements_of, first_value, steps_after};
use asn_base::schema::TypeId;
use asn_base::value::Value;
use codec_code::{Code, Coding};
use std::alloc::AllocError;

/// The frame that comes next: this one, or else the last one, which is removed from `frames`.
pub(crate) fn next_of<'a>(frames: &mut Vec<Frame<'a>>, next: Option<Frame<'a>>) -> Option<Frame<'a>>
    ensures same { and_next frames.new.items result ≡ and_next frames.old.items next.entry }
    ensures last { result ≡ None → frames.new.items ≡ [] }
{
    match next {
        Some(frame) => Some(frame),
        None => frames.pop(),
    }
}

/// Adds a frame. `AllocError` only if an allocation fails.
pub(crate) fn add<'a>(frames: &mut Vec<Frame<'a>>, frame: Frame<'a>) -> Result<(), AllocError>
    ensures { OnOk result (frames.new.items ≡ frames.old.items ++ frame.entry ∷ []) }
{
    frames.push(frame)?;
    Ok(())
}

/// Adds the frames for the members of a SET OF after the first one, and for the end of the first one. The result is the
/// frame for the first member, or None if there are no members.
pub(crate) fn push_sorted_elements<'a>(
    code: &'a Code,
    id: TypeId,
    values: &'a [Value],
    frames: &mut Vec<Frame<'a>>,
) -> Result<Option<Frame<'a>>, AllocError>
    ensures { IfOk result (λ o. Replaced code.now
        (steps.SortedElements code.now id.index (row_of_list (map abstract values.now)))
        (suc (weights (total code.now) (row_of_list (map abstract values.now)))) [] frames.old.items
        (and_next frames.new.items o)) }
{
    match first_value(values) {
        None => Ok(None),
        Some((first, others)) => {
            add(frames, Frame::SortedElements(id, others))?;
            add(frames, Frame::MemberEnd(0))?;
            let steps = code.steps(id, Coding::Tagged);
            Ok(Some(Frame::Routine(id, steps, first)))
        }
    }
}

/// Adds the frame for the steps after this one. The result is the frame for all elements.
pub(crate) fn push_each<'a>(
    of: TypeId,
    rest: RoutineRest<'a>,
    frames: &mut Vec<Frame<'a>>,
) -> Result<Frame<'a>, RunFault>
    ensures ok { IfOk result (λ f. ReplacedBy rest.entry.code.now rest.entry.id.index
        (Each of ∷ rest.entry.steps.now) (abstract rest.entry.value.now) []
        frames.old.items (frames.new.items ++ f ∷ [])) }
    ensures refused { IfErr result (NoEvents rest.entry.code.now rest.entry.id.index
        (Each of ∷ rest.entry.steps.now) (abstract rest.entry.value.now)) }
{
    match elements_of(rest.value) {
        None => Err(RunFault::NotOfType),
        Some(values) => {
            add(frames, Frame::Routine(rest.id, rest.steps, rest.value))?;
            Ok(Frame::Elements(of, values))
        }
    }
}

/// Adds the frame for the steps after this one. The result is the frame for all members of a SET OF.
pub(crate) fn push_sorted<'a>(
    of: TypeId,
    rest: RoutineRest<'a>,
    frames: &mut Vec<Frame<'a>>,
) -> Result<Frame<'a>, RunFault>
    ensures ok { IfOk result (λ f. ReplacedBy rest.entry.code.now rest.entry.id.index
        (EachSorted of ∷ rest.entry.steps.now) (abstract rest.entry.value.now) []
        frames.old.items (frames.new.items ++ f ∷ [])) }
    ensures refused { IfErr result (NoEvents rest.entry.code.now rest.entry.id.index
        (EachSorted of ∷ rest.entry.steps.now) (abstract rest.entry.value.now)) }
{
    match elements_of(rest.value) {
        None => Err(RunFault::NotOfType),
        Some(values) => {
            add(frames, Frame::Routine(rest.id, rest.steps, rest.value))?;
            Ok(Frame::SortedElements(of, values))
        }
    }
}

/// Adds the frame for the steps after all calls. The result is the frame for the alternative.
pub(crate) fn push_choice<'a>(
    alternatives: usize,
    rest: RoutineRest<'a>,
    frames: &mut Vec<Frame<'a>>,
) -> Result<Frame<'a>, RunFault>
    ensures ok { IfOk result (λ f. ReplacedBy rest.entry.code.now rest.entry.id.index
        (Pick alternatives ∷ rest.entry.steps.now) (abstract rest.entry.value.now) []
        frames.old.items (frames.new.items ++ f ∷ [])) }
    ensures refused { IfErr result (NoEvents rest.entry.code.now rest.entry.id.index
        (Pick alternatives ∷ rest.entry.steps.now) (abstract rest.entry.value.now)) }
{
    let (number, held) = match chosen(rest.value, alternatives) {
        Ok(found) => found,
        Err(fault) => return Err(fault),
    };
    let of = match called(rest.steps, number) {
        Ok(of) => of,
        Err(fault) => return Err(fault),
    };
    add(
        frames,
        Frame::Routine(rest.id, steps_after(rest.steps, alternatives), rest.value),
    )?;
    let steps = rest.code.steps(of, Coding::Tagged);
    Ok(Frame::Routine(of, steps, held))
}
