//! Reads at once the values that hold no others.

ghost use Rattle.codec_code.specs.Routines.{routine_at};
ghost use Rattle.codec_code.specs.declared.step.Step.{Step as Step'};
ghost use Rattle.codec_code.specs.declared.step.Step.TheVariants.{End, Field as Field', Head as Head', Leaf};
ghost use Rattle.decode_faults.specs.declared.read_fault.ReadFault.{ReadFault as ReadFault'};
ghost use Rattle.codec_source.specs.declared.frame.Frame.{Frame as Frame'};
ghost use Rattle.codec_source.specs.Reading.{Reads};
ghost use Rattle.codec_source.specs.Small.{TakesElement};
ghost use Rattle.codec_source.specs.proving.Wholes.{Chain, ReadsElement, ReadsField, ReadsOn};
ghost use Rattle.decode_faults.specs.declared.read_fault.ReadFault.TheVariants.{Memory};
ghost use Rattle.codec_source.specs.proving.Frames.{Before, BeforeStops, Goes, GoesStop, IfRefused, IfRefusedWith, Never, Same};
ghost use Rattle.std.specs.Prelude.{◌≡◌, ◌≤◌, ◌∷◌, [], false, IfErr, IfOk, IfSome, IsTrue, length, List, OnOk, true, ℕ};

use crate::frame::Frame;
use crate::source::Source;
use asn_base::schema::TypeId;
use codec_code::{Code, Coding, Field, Head, Step, Summary};
use decode_faults::ReadFault;
use encodings::LeafKind;

/// The header and the kind of contents, if the routine of the type is a header, contents and the end; otherwise None.
/// The type of such a routine has one tag, and its values hold no others.
#[inline(always)]
pub(crate) fn leaf_routine(code: &Code, id: TypeId) -> Option<(Head, LeafKind)>
    ensures { IfSome result (λ p. routine_at code.now id.index ≡ Head' p.0 ∷ Leaf p.1 ∷ End ∷ []) }
{
    match code.summary(id) {
        Summary::Leaf(head, kind) => Some((head, kind)),
        Summary::Components(_, _) | Summary::Elements(_) | Summary::Any => None,
    }
}

/// Takes the answers to the questions of these three steps and of the end of their value. Whatever frames wait, they go
/// on exactly as they would after the steps, whatever the routines of types are. It stays a call of its own: few values
/// aren't read at once.
#[inline(never)]
pub(crate) fn read_whole<S: Source>(
    head: Head,
    kind: LeafKind,
    source: &mut S,
) -> Result<(), ReadFault>
    ensures ok { OnOk result ((r : ℕ → List Step') (fs : List Frame') → Same
        (Before r S.takes (Head' head ∷ Leaf kind ∷ End ∷ []) fs source.old)
        (Goes r S.takes fs source.new)) }
    ensures budget { OnOk result (S.budget source.new ≤ S.budget source.old) }
    ensures err { IfRefused result ((r : ℕ → List Step') (fs : List Frame')
        → Never (Before r S.takes (Head' head ∷ Leaf kind ∷ End ∷ []) fs source.old)) }
    ensures on { OnOk result ((r : ℕ → List Step') (fs : List Frame') (e : ReadFault') (z : S)
        → GoesStop r S.takes (λ a q b. S.refuses a q b e) fs source.new z
        → BeforeStops r S.takes (λ a q b. S.refuses a q b e) (Head' head ∷ Leaf kind ∷ End ∷ []) fs source.old z) }
    ensures stopped { IfRefusedWith result (λ e. (r : ℕ → List Step') (fs : List Frame')
        → BeforeStops r S.takes (λ a q b. S.refuses a q b e)
        (Head' head ∷ Leaf kind ∷ End ∷ []) fs source.old source.new) }
{
    match source.open(head) {
        Ok(()) => {}
        Err(fault) => return Err(fault),
    }
    match source.leaf(kind) {
        Ok(()) => {}
        Err(fault) => return Err(fault),
    }
    match source.close() {
        Ok(()) => {}
        Err(fault) => return Err(fault),
    }
    match source.end() {
        Ok(()) => Ok(()),
        Err(fault) => Err(fault),
    }
}

/// Opens the header that the first step is, if it is one. Returns the steps that are left. Whatever frames wait, the
/// steps go on exactly as they would otherwise.
#[inline(always)]
pub(crate) fn read_head<'a, S: Source>(
    steps: &'a [Step],
    source: &mut S,
) -> Result<&'a [Step], ReadFault>
    ensures ok { IfOk result (λ left. (r : ℕ → List Step') (fs : List Frame') → Same
        (Before r S.takes steps.now fs source.old)
        (Before r S.takes left.now fs source.new)) }
    ensures budget { IfOk result (λ left. S.budget source.new ≤ S.budget source.old) }
    ensures few { IfOk result (λ left. length left.now ≤ length steps.now) }
    ensures err { IfRefused result ((r : ℕ → List Step') (fs : List Frame')
        → Never (Before r S.takes steps.now fs source.old)) }
    ensures on { IfOk result (λ left. (r : ℕ → List Step') (fs : List Frame') (e : ReadFault') (z : S)
        → BeforeStops r S.takes (λ a q b. S.refuses a q b e) left.now fs source.new z
        → BeforeStops r S.takes (λ a q b. S.refuses a q b e) steps.now fs source.old z) }
    ensures stopped { IfRefusedWith result (λ e. (r : ℕ → List Step') (fs : List Frame')
        → BeforeStops r S.takes (λ a q b. S.refuses a q b e) steps.now fs source.old source.new) }
{
    match steps.split_first() {
        Some((Step::Head(head), following)) => match source.open(*head) {
            Ok(()) => Ok(following),
            Err(fault) => Err(fault),
        },
        _ => Ok(steps),
    }
}

/// Reads at once a value of the type, if it holds no others but that of an alternative, and the source does so. False:
/// nothing was done.
#[inline(always)]
pub(crate) fn read_value<S: Source>(
    code: &Code,
    id: TypeId,
    source: &mut S,
) -> Result<bool, ReadFault>
    ensures taken { IfOk result (λ yes. yes ≡ true
        → Reads (routine_at code.now) S.takes id source.old source.new) }
    ensures same { IfOk result (λ yes. yes ≡ false → source.new ≡ source.old) }
    ensures err { IfErr result (λ e. e ≡ Memory) }
{
    match leaf_routine(code, id) {
        Some((head, kind)) => source.small_value(id, head, kind),
        None => match code.summary(id) {
            Summary::Any => read_choice(code, id, source),
            Summary::Leaf(_, _) | Summary::Components(_, _) | Summary::Elements(_) => Ok(false),
        },
    }
}

/// The same if the type is a CHOICE without a tag.
#[inline(never)]
fn read_choice<S: Source>(code: &Code, id: TypeId, source: &mut S) -> Result<bool, ReadFault>
    ensures taken { IfOk result (λ yes. yes ≡ true
        → Reads (routine_at code.now) S.takes id source.old source.new) }
    ensures same { IfOk result (λ yes. yes ≡ false → source.new ≡ source.old) }
    ensures err { IfErr result (λ e. e ≡ Memory) }
{
    match code.steps(id, Coding::Tagged).split_first() {
        Some((Step::Pick(count), calls)) => {
            if *count < calls.len() {
                return Ok(false);
            }
            source.small_choice(code, id, calls)
        }
        _ => Ok(false),
    }
}

/// Reads at once a component of a SEQUENCE, if it holds no others but that of an alternative, comes next, and the
/// source does so. False: nothing was done.
#[inline(always)]
fn read_field<S: Source>(code: &Code, field: Field, source: &mut S) -> Result<bool, ReadFault>
    ensures taken { IfOk result (λ yes. yes ≡ true
        → ReadsField (routine_at code.now) S.takes field source.old source.new) }
    ensures same { IfOk result (λ yes. yes ≡ false → source.new ≡ source.old) }
    ensures err { IfErr result (λ e. e ≡ Memory) }
{
    match leaf_routine(code, field.ty) {
        Some((head, kind)) => source.small_component(field, head, kind),
        None => match code.summary(field.ty) {
            Summary::Any => read_choice_field(code, field, source),
            Summary::Leaf(_, _) | Summary::Components(_, _) | Summary::Elements(_) => Ok(false),
        },
    }
}

/// The same if the component's type is a CHOICE without a tag.
#[inline(always)]
fn read_choice_field<S: Source>(
    code: &Code,
    field: Field,
    source: &mut S,
) -> Result<bool, ReadFault>
    ensures taken { IfOk result (λ yes. yes ≡ true
        → ReadsField (routine_at code.now) S.takes field source.old source.new) }
    ensures same { IfOk result (λ yes. yes ≡ false → source.new ≡ source.old) }
    ensures err { IfErr result (λ e. e ≡ Memory) }
{
    match code.steps(field.ty, Coding::Tagged).split_first() {
        Some((Step::Pick(count), calls)) => {
            if *count < calls.len() {
                return Ok(false);
            }
            source.small_choice_component(code, field, calls)
        }
        _ => Ok(false),
    }
}

/// Reads at once the elements that come next, as long as the source does so.
#[inline(always)]
fn read_elements<S: Source>(
    id: TypeId,
    sorted: bool,
    head: Head,
    kind: LeafKind,
    source: &mut S,
) -> Result<(), ReadFault>
    ensures ok { OnOk result (Chain (TakesElement S.takes id sorted head kind) source.old source.new) }
    ensures err { IfErr result (λ e. e ≡ Memory) }
{
    loop {
        match source.small_element(id, sorted, head, kind) {
            Ok(true) => {}
            Ok(false) => return Ok(()),
            Err(fault) => return Err(fault),
        }
    }
}

/// Reads at once the elements of a list that come next, if they hold no others, as long as the source does so.
#[inline(always)]
fn read_element<S: Source>(
    code: &Code,
    id: TypeId,
    sorted: bool,
    source: &mut S,
) -> Result<(), ReadFault>
    ensures ok { OnOk result (Chain (ReadsElement (routine_at code.now) S.takes id sorted) source.old source.new) }
    ensures err { IfErr result (λ e. e ≡ Memory) }
{
    match leaf_routine(code, id) {
        Some((head, kind)) => match read_elements(id, sorted, head, kind, source) {
            Ok(()) => Ok(()),
            Err(fault) => Err(fault),
        },
        None => Ok(()),
    }
}

/// The component of a SEQUENCE for which the first step asks, and the steps after it, if it asks for one.
#[inline(always)]
fn first_field(steps: &[Step]) -> Option<(Field, &[Step])>
    ensures { IfSome result (λ p. steps.now ≡ Field' p.0 ∷ p.1.now) }
{
    match steps.split_first() {
        Some((Step::Field(field), following)) => Some((*field, following)),
        _ => None,
    }
}

/// Reads at once the components of a SEQUENCE for which the first steps ask, as long as they come next, hold no others
/// but that of an alternative, and the source does so. Returns the steps that go on.
#[inline(always)]
fn read_fields<'a, S: Source>(
    code: &Code,
    steps: &'a [Step],
    source: &mut S,
) -> Result<&'a [Step], ReadFault>
    ensures ok { IfOk result (λ left.
        ReadsOn (routine_at code.now) S.takes steps.now left.now source.old source.new) }
    ensures err { IfErr result (λ e. e ≡ Memory) }
{
    let mut rest = steps;
    while let Some((field, following)) = first_field(rest) {
        match read_field(code, field, source) {
            Ok(true) => {}
            Ok(false) => return Ok(rest),
            Err(fault) => return Err(fault),
        }
        rest = following;
    }
    Ok(rest)
}

/// Reads at once the values for which the first steps ask, components of a SEQUENCE or elements of a list, as long as
/// they hold no others but that of an alternative, and the source does so. Returns the steps that go on.
#[inline(always)]
pub(crate) fn read_next<'a, S: Source>(
    code: &Code,
    frame: Frame<'a>,
    source: &mut S,
) -> Result<Frame<'a>, ReadFault>
    ensures ok { IfOk result (λ f.
        ReadsOn (routine_at code.now) S.takes frame.entry.steps.now f.steps.now source.old source.new) }
    ensures err { IfErr result (λ e. e ≡ Memory) }
{
    match frame.steps.split_first() {
        Some((Step::Field(_), _)) => match read_fields(code, frame.steps, source) {
            Ok(steps) => Ok(Frame { steps }),
            Err(fault) => Err(fault),
        },
        Some((Step::Each(id), _)) => match read_element(code, *id, false, source) {
            Ok(()) => Ok(frame),
            Err(fault) => Err(fault),
        },
        Some((Step::EachSorted(id), _)) => match read_element(code, *id, true, source) {
            Ok(()) => Ok(frame),
            Err(fault) => Err(fault),
        },
        _ => Ok(frame),
    }
}

/// Whether the steps are the end of a routine that began with a header.
#[inline(always)]
pub(crate) fn is_end(steps: &[Step]) -> bool
    ensures { IsTrue result → steps.now ≡ End ∷ [] }
{
    match steps.split_first() {
        Some((Step::End, following)) => following.is_empty(),
        _ => false,
    }
}

/// Closes the nearest open header, and ends the value that began last. Whatever frames wait, they go on exactly as they
/// would after the last step of that value.
#[inline(always)]
pub(crate) fn read_end<S: Source>(source: &mut S) -> Result<(), ReadFault>
    ensures ok { OnOk result ((r : ℕ → List Step') (fs : List Frame') → Same
        (Before r S.takes (End ∷ []) fs source.old)
        (Goes r S.takes fs source.new)) }
    ensures budget { OnOk result (S.budget source.new ≤ S.budget source.old) }
    ensures err { IfRefused result ((r : ℕ → List Step') (fs : List Frame')
        → Never (Before r S.takes (End ∷ []) fs source.old)) }
    ensures on { OnOk result ((r : ℕ → List Step') (fs : List Frame') (e : ReadFault') (z : S)
        → GoesStop r S.takes (λ a q b. S.refuses a q b e) fs source.new z
        → BeforeStops r S.takes (λ a q b. S.refuses a q b e) (End ∷ []) fs source.old z) }
    ensures stopped { IfRefusedWith result (λ e. (r : ℕ → List Step') (fs : List Frame')
        → BeforeStops r S.takes (λ a q b. S.refuses a q b e) (End ∷ []) fs source.old source.new) }
{
    match source.close() {
        Ok(()) => {}
        Err(fault) => return Err(fault),
    }
    match source.end() {
        Ok(()) => Ok(()),
        Err(fault) => Err(fault),
    }
}
