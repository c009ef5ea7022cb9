//! Answers about what comes next: components, elements and alternatives.

ghost use Rattle.asn_base.specs.declared.schema.TypeId.{TypeId as TypeId'};
ghost use Rattle.ber_source.specs.Seen.{IsValidState, as_token, state_of};
ghost use Rattle.codec_source.specs.Events.{to_skip, whether_comes, which_picked, which_comes};
ghost use Rattle.decode_faults.specs.declared.read_fault.ReadFault.TheVariants.{Memory};
ghost use Rattle.codec_source.specs.proving.Frames.{IfRefused, IfRefusedWith};
ghost use Rattle.octet_answers.specs.Answers.{NextInSet, Chooses, MoreNext, Skips, FieldNext};
ghost use Rattle.octet_answers.specs.Unanswered.{Leaves};
ghost use Rattle.octet_answers.specs.States.{State, marked, with_token};
ghost use Rattle.std.specs.Prelude.{◌≡◌, ◌++◌, ◌∷◌, [], Bool, IfErr, IfNone, IfOk, IfSome, OnOk, Option as Option', drop, List};

use crate::moves::from_header_fault;
use crate::passing::pass;
use crate::reader_state::ReaderState;
use crate::token::StructToken;
use crate::token_sink::TokenSink;
use asn_base::schema::TypeId;
use codec_code::{Coding, Field, Step};
use decode_faults::ReadFault;
use next_tags::{
    are_read, can_begin, choose, is_extensible, is_in, last_steps, may_be_absent, next_unit,
};
use octet_answers::law::lemma_one_unit;

/// Gives one more token to the receiver.
#[inline(always)]
pub(crate) fn emit<'c, 'a, T: TokenSink<'a>>(
    place: &mut ReaderState<'c, 'a, T>,
    mark: StructToken,
) -> Result<(), ReadFault>
    requires { IsValidState T.suits place.old }
    ensures within { IsValidState T.suits place.new }
    ensures ok { OnOk result (state_of T.tokens place.new ≡ with_token (state_of T.tokens place.old) (as_token mark)) }
    ensures err { IfErr result (λ e. e ≡ Memory) }
{
    match place.emitted.emit(mark) {
        Ok(()) => Ok(()),
        Err(fault) => Err(fault),
    }
}

/// Whether an encoding comes next, before the end of the contents.
pub fn has_more<'c, 'a, T: TokenSink<'a>>(place: &ReaderState<'c, 'a, T>) -> bool
    ensures { MoreNext (state_of T.tokens place.now) result (state_of T.tokens place.now) }
{
    !place.here.octets.is_empty()
}

/// Whether the component of a SEQUENCE comes next.
#[inline(always)]
pub fn is_component_next<'c, 'a, T: TokenSink<'a>>(
    place: &mut ReaderState<'c, 'a, T>,
    field: Field,
) -> Result<bool, ReadFault>
    requires { IsValidState T.suits place.old }
    ensures within { IsValidState T.suits place.new }
    ensures ok { IfOk result (λ yes. FieldNext (state_of T.tokens place.old) field yes (state_of T.tokens place.new)) }
    ensures err { IfRefused result ((yes : Bool) (b : State)
        → FieldNext (state_of T.tokens place.old) field yes b → ⊥) }
    ensures left { IfRefusedWith result
        (Leaves (state_of T.tokens place.old) (whether_comes field) (state_of T.tokens place.new)) }
{
    lemma_one_unit();
    if place.here.octets.is_empty() {
        if may_be_absent(field.need) {
            return Ok(false);
        }
        return Err(ReadFault::Missing);
    }
    let unit = match next_unit(place.here.octets) {
        Ok(unit) => unit,
        Err(fault) => return Err(from_header_fault(fault)),
    };
    if can_begin(place.code, field.ty, unit.tag) {
        emit(place, StructToken::Component(field.place))?;
        return Ok(true);
    }
    if may_be_absent(field.need) {
        return Ok(false);
    }
    Err(ReadFault::UnexpectedTag)
}

/// The alternative whose encoding comes next.
pub fn choose_next<'c, 'a, T: TokenSink<'a>>(
    place: &mut ReaderState<'c, 'a, T>,
    calls: &[Step],
) -> Result<TypeId, ReadFault>
    requires { IsValidState T.suits place.old }
    ensures within { IsValidState T.suits place.new }
    ensures ok { IfOk result (λ id. Chooses (state_of T.tokens place.old) calls.now id (state_of T.tokens place.new)) }
    ensures err { IfRefused result ((id : TypeId') (b : State)
        → Chooses (state_of T.tokens place.old) calls.now id b → ⊥) }
    ensures left { IfRefusedWith result
        (Leaves (state_of T.tokens place.old) (which_picked calls.now) (state_of T.tokens place.new)) }
{
    lemma_one_unit();
    let unit = match next_unit(place.here.octets) {
        Ok(unit) => unit,
        Err(fault) => return Err(from_header_fault(fault)),
    };
    match choose(place.code, calls, unit.tag) {
        Some((index, id)) => {
            emit(place, StructToken::Chosen(index))?;
            Ok(id)
        }
        None => Err(ReadFault::UnexpectedTag),
    }
}

/// Skips additions after the last mandatory component, to the end of the contents.
pub fn skip<'c, 'a, T: TokenSink<'a>>(place: &mut ReaderState<'c, 'a, T>) -> Result<(), ReadFault>
    requires { IsValidState T.suits place.old }
    ensures within { IsValidState T.suits place.new }
    ensures ok { OnOk result (Skips (state_of T.tokens place.old) (state_of T.tokens place.new)) }
    ensures err { IfRefused result ((b : State) → Skips (state_of T.tokens place.old) b → ⊥) }
    ensures left { IfRefusedWith result (Leaves (state_of T.tokens place.old) to_skip (state_of T.tokens place.new)) }
{
    let id = match innermost(place.values.as_slice()) {
        Some(id) => id,
        None => return Err(ReadFault::UnexpectedTag),
    };
    let code = place.code;
    let steps = last_steps(code.steps(id, Coding::Tagged));
    match pass(place, steps, true) {
        Ok(None) => Ok(()),
        Ok(Some(_)) => Err(ReadFault::UnexpectedTag),
        Err(fault) => Err(fault),
    }
}

/// The last one of the types, or None if there is none.
fn innermost(values: &[TypeId]) -> Option<TypeId>
    ensures some { IfSome result (λ id. (others : List TypeId') × (values.now ≡ others ++ id ∷ [])) }
    ensures none { IfNone result (values.now ≡ []) }
{
    match values.split_last() {
        Some((id, _)) => Some(*id),
        None => None,
    }
}

/// The marks after the first `from` ones.
fn marks_from(marks: &[usize], from: usize) -> &[usize]
    ensures { result.now ≡ drop from marks.now }
{
    if from < marks.len() {
        &marks[from..]
    } else {
        &[]
    }
}

/// Skips additions, and returns the component of a SET that comes next, of those with which the steps start. The result
/// is None at the end of the contents, if all mandatory ones were read; if not, `Missing`.
pub fn next_in_set<'c, 'a, T: TokenSink<'a>>(
    place: &mut ReaderState<'c, 'a, T>,
    steps: &[Step],
) -> Result<Option<TypeId>, ReadFault>
    requires { IsValidState T.suits place.old }
    ensures within { IsValidState T.suits place.new }
    ensures ok { IfOk result (λ id.
        NextInSet (state_of T.tokens place.old) steps.now id (state_of T.tokens place.new)) }
    ensures err { IfRefused result ((id : Option' TypeId') (b : State)
        → NextInSet (state_of T.tokens place.old) steps.now id b → ⊥) }
    ensures left { IfRefusedWith result
        (Leaves (state_of T.tokens place.old) (which_comes steps.now) (state_of T.tokens place.new)) }
{
    let found = match pass(place, steps, is_extensible(steps)) {
        Ok(found) => found,
        Err(fault) => return Err(fault),
    };
    match found {
        Some(field) => {
            if is_in(
                field.place,
                marks_from(place.marks.as_slice(), place.here.from),
            ) {
                return Err(ReadFault::UnexpectedTag);
            }
            mark(place, field.place)?;
            Ok(Some(field.ty))
        }
        None => {
            if !are_read(marks_from(place.marks.as_slice(), place.here.from), steps) {
                return Err(ReadFault::Missing);
            }
            Ok(None)
        }
    }
}

/// Notes that the component at a place of a SET was read.
fn mark<'c, 'a, T: TokenSink<'a>>(
    place: &mut ReaderState<'c, 'a, T>,
    at: usize,
) -> Result<(), ReadFault>
    requires { IsValidState T.suits place.old }
    ensures within { IsValidState T.suits place.new }
    ensures ok { OnOk result (state_of T.tokens place.new ≡ marked (state_of T.tokens place.old) at) }
    ensures err { IfErr result (λ e. e ≡ Memory) }
{
    push_mark(&mut place.marks, at)?;
    match place.emitted.emit(StructToken::Component(at)) {
        Ok(()) => Ok(()),
        Err(fault) => Err(fault),
    }
}

fn push_mark(list: &mut Vec<usize>, one: usize) -> Result<(), ReadFault>
    ensures ok { OnOk result (list.new.items ≡ list.old.items ++ one ∷ []) }
    ensures err { IfErr result (λ e. e ≡ Memory) }
{
    list.push(one)?;
    Ok(())
}
