//! The machine.

ghost use Rattle.codec_code.specs.Routines.{routine_at, table_of};
ghost use Rattle.codec_source.specs.Reading.{Reads};
ghost use Rattle.decode_faults.specs.declared.read_fault.ReadFault.TheVariants.{Memory};
ghost use Rattle.codec_source.specs.Stopping.{StopsReading};
ghost use Rattle.decode_faults.specs.declared.read_fault.ReadFault.{ReadFault as ReadFault'};
ghost use Rattle.codec_source.specs.proving.Frames.{Before, BeforeStops, Goes, GoesStop, IfRefused, IfRefusedWith, Never, Same, ThenBefore, ThenBeforeStops, weighs};
ghost use Rattle.codec_source.specs.proving.Waiting.{and_next};
ghost use Rattle.codec_source.specs.proving.Wholes.{Chain, ReadsElement, ReadsInto, ReadsOn, StepsInto};
ghost use Rattle.std.specs.Prelude.{◌≡◌, ◌<◌, ◌+◌, ◌∷◌, ◌++◌, [], IfErr, IfOk, MatchOption, None, OnOk, Some, false, length, vec_capacity, vec_len};

use crate::ask::ask;
use crate::frame::Frame;
use crate::source::Source;
use crate::whole::{is_end, leaf_routine, read_end, read_head, read_next, read_value, read_whole};
use asn_base::schema::TypeId;
use codec_code::{Code, Coding, Field, Step, Summary};
use decode_faults::ReadFault;
use std::alloc::{AllocError, Global};

/// Reads a value by the type's routine for encodings with tags; what was read is in the source. A fault other than
/// `Memory` means that the routine reads nothing. The function doesn't call itself. It takes memory for one frame for
/// each open value that holds others.
pub fn read<S: Source>(
    alloc: Global,
    code: &Code,
    id: TypeId,
    source: &mut S,
) -> Result<(), ReadFault>
    ensures ok { OnOk result (Reads (routine_at code.now) S.takes id source.old source.new) }
    ensures only { OnOk result ((b : S) → Reads (routine_at code.now) S.takes id source.old b → b ≡ source.new) }
    ensures err { IfRefused result ((b : S) → Reads (routine_at code.now) S.takes id source.old b → ⊥) }
    // The routine came to a question without an answer, and the source is left there.
    ensures stopped { IfRefusedWith result (λ e.
        StopsReading (routine_at code.now) S.takes (λ a q b. S.refuses a q b e) id source.old source.new) }
{
    match source.begin(id) {
        Ok(()) => {}
        Err(fault) => return Err(fault),
    }
    let mut frames = Vec::new(alloc);
    let steps = code.steps(id, Coding::Tagged);
    let mut next = Some(Frame { steps });
    while let Some(frame) = next {
        match turn(code, frame, &mut frames, source) {
            Ok(after) => next = next_of(&mut frames, after),
            Err(fault) => return Err(fault),
        }
    }
    Ok(())
}

/// The frame that goes on: this one, or the last of the waiting frames, which is removed from them.
fn next_of<'a>(frames: &mut Vec<Frame<'a>>, next: Option<Frame<'a>>) -> Option<Frame<'a>>
    ensures same { and_next frames.new.items result ≡ and_next frames.old.items next.entry }
    ensures last { result ≡ None → frames.new.items ≡ [] }
{
    match next {
        Some(frame) => Some(frame),
        None => frames.pop(),
    }
}

/// How many more frames a full list makes room for, at least. Few messages have more frames that wait.
const FEW: usize = 16;

/// Makes room for one more frame, if there is none. `AllocError` only if an allocation fails.
#[inline(always)]
fn make_room(frames: &mut Vec<Frame<'_>>) -> Result<(), AllocError>
    ensures room { OnOk result (vec_len frames.new < vec_capacity frames.new) }
    ensures items { frames.new.items ≡ frames.old.items }
{
    if frames.len() >= frames.capacity() {
        frames.reserve(FEW)?;
    }
    Ok(())
}

/// Appends one frame. The test for room is a part of the caller, which `push` isn't.
#[inline(always)]
fn add<'a>(frames: &mut Vec<Frame<'a>>, frame: Frame<'a>) -> Result<(), ReadFault>
    ensures ok { OnOk result (frames.new.items ≡ frames.old.items ++ frame.entry ∷ []) }
    ensures err { IfErr result (λ e. e ≡ Memory) }
{
    make_room(frames)?;
    frames.push_reserved(frame);
    Ok(())
}

/// Reads at once what it can for the first steps of a frame above those that wait, and does the next step. Returns the
/// frame that goes on, unless it is the last waiting one.
#[inline(always)]
fn turn<'a, S: Source>(
    code: &'a Code,
    frame: Frame<'a>,
    frames: &mut Vec<Frame<'a>>,
    source: &mut S,
) -> Result<Option<Frame<'a>>, ReadFault>
    ensures ok { IfOk result (λ o. Same
        (Before (routine_at code.now) S.takes frame.entry.steps.now frames.old.items source.old)
        (Goes (routine_at code.now) S.takes (and_next frames.new.items o) source.new)) }
    ensures less { IfOk result (λ o.
        weighs (length (table_of code.now)) (S.budget source.new) (and_next frames.new.items o)
        < weighs (length (table_of code.now)) (S.budget source.old) (frames.old.items ++ frame.entry ∷ [])) }
    ensures err { IfRefused result
        (Never (Before (routine_at code.now) S.takes frame.entry.steps.now frames.old.items source.old)) }
    ensures on { IfOk result (λ o. (e : ReadFault') (z : S)
        → GoesStop (routine_at code.now) S.takes (λ a q b. S.refuses a q b e) (and_next frames.new.items o) source.new z
        → BeforeStops (routine_at code.now) S.takes (λ a q b. S.refuses a q b e) frame.entry.steps.now frames.old.items
        source.old z) }
    ensures stopped { IfRefusedWith result (λ e. BeforeStops (routine_at code.now) S.takes (λ a q b. S.refuses a q b e)
        frame.entry.steps.now frames.old.items source.old source.new) }
{
    match read_rows(code, frame, source) {
        Ok(Some(left)) => {
            add(frames, frame)?;
            Ok(Some(Frame { steps: left }))
        }
        Ok(None) => match turn_at_once(code, frame, frames, source) {
            Ok(after) => Ok(after),
            Err(fault) => Err(fault),
        },
        Err(fault) => Err(fault),
    }
}

/// Reads at once the elements that come next, if the first step is for elements that are SEQUENCEs, as long as the
/// source does so. The result is None if all that were begun were read. If not, the steps that are left of the last one
/// go on before those of the frame.
#[inline(always)]
fn read_rows<'a, S: Source>(
    code: &'a Code,
    frame: Frame<'a>,
    source: &mut S,
) -> Result<Option<&'a [Step]>, ReadFault>
    ensures ok { IfOk result (λ o. MatchOption o
        (ReadsOn (routine_at code.now) S.takes frame.entry.steps.now frame.entry.steps.now source.old source.new)
        (λ left. StepsInto (routine_at code.now) S.takes frame.entry.steps.now left.now source.old source.new)) }
    ensures err { IfErr result (λ e. e ≡ Memory) }
{
    match frame.steps.split_first() {
        Some((Step::Each(id), _)) => match rows_of(code, *id, source) {
            Ok(left) => Ok(left),
            Err(fault) => Err(fault),
        },
        _ => Ok(None),
    }
}

/// Whether values of the component's type hold no others, and have a header that may be read with them.
#[inline(always)]
fn is_plain(code: &Code, field: Field) -> bool {
    match code.summary(field.ty) {
        Summary::Leaf(head, _) => !head.constructed,
        Summary::Components(_, _) | Summary::Elements(_) | Summary::Any => false,
    }
}

/// Whether the steps are for plain components of a SEQUENCE alone, and its end. It looks at the last component first,
/// which is seldom plain if not all are.
#[inline(always)]
fn are_plain(code: &Code, fields: &[Step]) -> bool {
    for step in fields.iter().rev() {
        match step {
            Step::Field(field) => if !is_plain(code, *field) {
                return false;
            },
            Step::End => {}
            _ => return false,
        }
    }
    true
}

/// The same for elements of this type, if their components are plain. The others would only begin to be read so.
#[inline(always)]
fn rows_of<'a, S: Source>(
    code: &'a Code,
    id: TypeId,
    source: &mut S,
) -> Result<Option<&'a [Step]>, ReadFault>
    ensures ok { IfOk result (λ o. MatchOption o
        (Chain (ReadsElement (routine_at code.now) S.takes id false) source.old source.new)
        (λ left. ReadsInto (routine_at code.now) S.takes id left.now source.old source.new)) }
    ensures err { IfErr result (λ e. e ≡ Memory) }
{
    match code.summary(id) {
        Summary::Components(_, _) => match code.steps(id, Coding::Tagged).split_first() {
            Some((Step::Head(head), fields)) => {
                if !are_plain(code, fields) {
                    return Ok(None);
                }
                source.small_rows(code, id, *head, fields)
            }
            _ => Ok(None),
        },
        Summary::Leaf(_, _) | Summary::Elements(_) | Summary::Any => Ok(None),
    }
}

/// The same as `turn`, without elements that are SEQUENCEs.
#[inline(always)]
fn turn_at_once<'a, S: Source>(
    code: &'a Code,
    frame: Frame<'a>,
    frames: &mut Vec<Frame<'a>>,
    source: &mut S,
) -> Result<Option<Frame<'a>>, ReadFault>
    ensures ok { IfOk result (λ o. Same
        (Before (routine_at code.now) S.takes frame.entry.steps.now frames.old.items source.old)
        (Goes (routine_at code.now) S.takes (and_next frames.new.items o) source.new)) }
    ensures less { IfOk result (λ o.
        weighs (length (table_of code.now)) (S.budget source.new) (and_next frames.new.items o)
        < weighs (length (table_of code.now)) (S.budget source.old) (frames.old.items ++ frame.entry ∷ [])) }
    ensures err { IfRefused result
        (Never (Before (routine_at code.now) S.takes frame.entry.steps.now frames.old.items source.old)) }
    ensures on { IfOk result (λ o. (e : ReadFault') (z : S)
        → GoesStop (routine_at code.now) S.takes (λ a q b. S.refuses a q b e) (and_next frames.new.items o) source.new z
        → BeforeStops (routine_at code.now) S.takes (λ a q b. S.refuses a q b e) frame.entry.steps.now frames.old.items
        source.old z) }
    ensures stopped { IfRefusedWith result (λ e. BeforeStops (routine_at code.now) S.takes (λ a q b. S.refuses a q b e)
        frame.entry.steps.now frames.old.items source.old source.new) }
{
    let next = match read_next(code, frame, source) {
        Ok(next) => next,
        Err(fault) => return Err(fault),
    };
    match turn_on(code, next, frames, source) {
        Ok(after) => Ok(after),
        Err(fault) => Err(fault),
    }
}

/// The same as `turn`, without values that are read at once.
#[inline(always)]
fn turn_on<'a, S: Source>(
    code: &'a Code,
    frame: Frame<'a>,
    frames: &mut Vec<Frame<'a>>,
    source: &mut S,
) -> Result<Option<Frame<'a>>, ReadFault>
    ensures ok { IfOk result (λ o. Same
        (Before (routine_at code.now) S.takes frame.entry.steps.now frames.old.items source.old)
        (Goes (routine_at code.now) S.takes (and_next frames.new.items o) source.new)) }
    ensures less { IfOk result (λ o.
        weighs (length (table_of code.now)) (S.budget source.new) (and_next frames.new.items o)
        < weighs (length (table_of code.now)) (S.budget source.old) (frames.old.items ++ frame.entry ∷ [])) }
    ensures err { IfRefused result
        (Never (Before (routine_at code.now) S.takes frame.entry.steps.now frames.old.items source.old)) }
    ensures on { IfOk result (λ o. (e : ReadFault') (z : S)
        → GoesStop (routine_at code.now) S.takes (λ a q b. S.refuses a q b e) (and_next frames.new.items o) source.new z
        → BeforeStops (routine_at code.now) S.takes (λ a q b. S.refuses a q b e) frame.entry.steps.now frames.old.items
        source.old z) }
    ensures stopped { IfRefusedWith result (λ e. BeforeStops (routine_at code.now) S.takes (λ a q b. S.refuses a q b e)
        frame.entry.steps.now frames.old.items source.old source.new) }
{
    if is_end(frame.steps) {
        match read_end(source) {
            Ok(()) => Ok(None),
            Err(fault) => Err(fault),
        }
    } else {
        turn_by_questions(code, frame, frames, source)
    }
}

/// The same as `turn`, question by question.
#[inline(always)]
fn turn_by_questions<'a, S: Source>(
    code: &'a Code,
    frame: Frame<'a>,
    frames: &mut Vec<Frame<'a>>,
    source: &mut S,
) -> Result<Option<Frame<'a>>, ReadFault>
    ensures ok { IfOk result (λ o. Same
        (Before (routine_at code.now) S.takes frame.entry.steps.now frames.old.items source.old)
        (Goes (routine_at code.now) S.takes (and_next frames.new.items o) source.new)) }
    ensures less { IfOk result (λ o.
        weighs (length (table_of code.now)) (S.budget source.new) (and_next frames.new.items o)
        < weighs (length (table_of code.now)) (S.budget source.old) (frames.old.items ++ frame.entry ∷ [])) }
    ensures err { IfRefused result
        (Never (Before (routine_at code.now) S.takes frame.entry.steps.now frames.old.items source.old)) }
    ensures on { IfOk result (λ o. (e : ReadFault') (z : S)
        → GoesStop (routine_at code.now) S.takes (λ a q b. S.refuses a q b e) (and_next frames.new.items o) source.new z
        → BeforeStops (routine_at code.now) S.takes (λ a q b. S.refuses a q b e) frame.entry.steps.now frames.old.items
        source.old z) }
    ensures stopped { IfRefusedWith result (λ e. BeforeStops (routine_at code.now) S.takes (λ a q b. S.refuses a q b e)
        frame.entry.steps.now frames.old.items source.old source.new) }
{
    match frame.steps.split_first() {
        None => match source.end() {
            Ok(()) => Ok(None),
            Err(fault) => Err(fault),
        },
        Some((step, rest)) => {
            let answer = match ask(*step, rest, frame.steps, source) {
                Ok(answer) => answer,
                Err(fault) => return Err(fault),
            };
            match answer.value {
                None => Ok(Some(Frame {
                    steps: answer.following,
                })),
                Some(id) => match call(code, id, answer.following, frames, source) {
                    Ok(next) => Ok(Some(next)),
                    Err(fault) => Err(fault),
                },
            }
        }
    }
}

/// Begins a value of the type, after which these steps go on. A value that holds no others is read at once.
#[inline(always)]
fn call<'a, S: Source>(
    code: &'a Code,
    id: TypeId,
    following: &'a [Step],
    frames: &mut Vec<Frame<'a>>,
    source: &mut S,
) -> Result<Frame<'a>, ReadFault>
    ensures ok { IfOk result (λ f. Same
        (ThenBefore (routine_at code.now) S.takes (Some id) following.now frames.old.items source.old)
        (Goes (routine_at code.now) S.takes (frames.new.items ++ f ∷ []) source.new)) }
    ensures less { IfOk result (λ f.
        weighs (length (table_of code.now)) (S.budget source.new) (frames.new.items ++ f ∷ [])
        < weighs (length (table_of code.now)) (S.budget source.old) frames.old.items + (1 + length following.now)) }
    ensures err { IfRefused result
        (Never (ThenBefore (routine_at code.now) S.takes (Some id) following.now frames.old.items source.old)) }
    ensures on { IfOk result (λ f. (e : ReadFault') (z : S)
        → GoesStop (routine_at code.now) S.takes (λ a q b. S.refuses a q b e) (frames.new.items ++ f ∷ []) source.new z
        → ThenBeforeStops (routine_at code.now) S.takes (λ a q b. S.refuses a q b e)
        (Some id) following.now frames.old.items source.old z) }
    ensures stopped { IfRefusedWith result (λ e.
        ThenBeforeStops (routine_at code.now) S.takes (λ a q b. S.refuses a q b e)
        (Some id) following.now frames.old.items source.old source.new) }
{
    match code.summary(id) {
        Summary::Components(_, _) | Summary::Elements(_) => {
            call_steps(code, id, following, frames, source)
        }
        Summary::Leaf(_, _) | Summary::Any => match read_value(code, id, source) {
            Ok(true) => Ok(Frame { steps: following }),
            Ok(false) => call_by_questions(code, id, following, frames, source),
            Err(fault) => Err(fault),
        },
    }
}

/// The same as `call`, by the steps of the type's routine.
#[inline(always)]
fn call_steps<'a, S: Source>(
    code: &'a Code,
    id: TypeId,
    following: &'a [Step],
    frames: &mut Vec<Frame<'a>>,
    source: &mut S,
) -> Result<Frame<'a>, ReadFault>
    ensures ok { IfOk result (λ f. Same
        (ThenBefore (routine_at code.now) S.takes (Some id) following.now frames.old.items source.old)
        (Goes (routine_at code.now) S.takes (frames.new.items ++ f ∷ []) source.new)) }
    ensures less { IfOk result (λ f.
        weighs (length (table_of code.now)) (S.budget source.new) (frames.new.items ++ f ∷ [])
        < weighs (length (table_of code.now)) (S.budget source.old) frames.old.items + (1 + length following.now)) }
    ensures err { IfRefused result
        (Never (ThenBefore (routine_at code.now) S.takes (Some id) following.now frames.old.items source.old)) }
    ensures on { IfOk result (λ f. (e : ReadFault') (z : S)
        → GoesStop (routine_at code.now) S.takes (λ a q b. S.refuses a q b e) (frames.new.items ++ f ∷ []) source.new z
        → ThenBeforeStops (routine_at code.now) S.takes (λ a q b. S.refuses a q b e)
        (Some id) following.now frames.old.items source.old z) }
    ensures stopped { IfRefusedWith result (λ e.
        ThenBeforeStops (routine_at code.now) S.takes (λ a q b. S.refuses a q b e)
        (Some id) following.now frames.old.items source.old source.new) }
{
    match source.begin(id) {
        Ok(()) => {}
        Err(fault) => return Err(fault),
    }
    let steps = code.steps(id, Coding::Tagged);
    add(frames, Frame { steps: following })?;
    match read_head(steps, source) {
        Ok(left) => Ok(Frame { steps: left }),
        Err(fault) => Err(fault),
    }
}

/// The same as `call`, question by question.
#[inline(always)]
fn call_by_questions<'a, S: Source>(
    code: &'a Code,
    id: TypeId,
    following: &'a [Step],
    frames: &mut Vec<Frame<'a>>,
    source: &mut S,
) -> Result<Frame<'a>, ReadFault>
    ensures ok { IfOk result (λ f. Same
        (ThenBefore (routine_at code.now) S.takes (Some id) following.now frames.old.items source.old)
        (Goes (routine_at code.now) S.takes (frames.new.items ++ f ∷ []) source.new)) }
    ensures less { IfOk result (λ f.
        weighs (length (table_of code.now)) (S.budget source.new) (frames.new.items ++ f ∷ [])
        < weighs (length (table_of code.now)) (S.budget source.old) frames.old.items + (1 + length following.now)) }
    ensures err { IfRefused result
        (Never (ThenBefore (routine_at code.now) S.takes (Some id) following.now frames.old.items source.old)) }
    ensures on { IfOk result (λ f. (e : ReadFault') (z : S)
        → GoesStop (routine_at code.now) S.takes (λ a q b. S.refuses a q b e) (frames.new.items ++ f ∷ []) source.new z
        → ThenBeforeStops (routine_at code.now) S.takes (λ a q b. S.refuses a q b e)
        (Some id) following.now frames.old.items source.old z) }
    ensures stopped { IfRefusedWith result (λ e.
        ThenBeforeStops (routine_at code.now) S.takes (λ a q b. S.refuses a q b e)
        (Some id) following.now frames.old.items source.old source.new) }
{
    match leaf_routine(code, id) {
        Some((head, kind)) => {
            match source.begin(id) {
                Ok(()) => {}
                Err(fault) => return Err(fault),
            }
            match read_whole(head, kind, source) {
                Ok(()) => Ok(Frame { steps: following }),
                Err(fault) => Err(fault),
            }
        }
        None => call_steps(code, id, following, frames, source),
    }
}
