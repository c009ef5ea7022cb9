//! Values that hold no others, read at once: primitive ones, with one identifier octet and one length octet.

ghost use Rattle.asn_base.specs.Types.{Resolved};
ghost use Rattle.ber_source.specs.Seen.{IsBare, IsValidState, value_token, state_of};
ghost use Rattle.ber_source.specs.ShortValue.{IsAlternativeNext, IsShortValue, choice_at, short_at};
ghost use Rattle.codec_code.specs.Routines.{routine_at};
ghost use Rattle.codec_code.specs.declared.step.Head.{Head as Head'};
ghost use Rattle.codec_code.specs.declared.step.Step.TheVariants.{End, Head as HeadStep, Leaf as LeafStep};
ghost use Rattle.codec_source.specs.Small.{TakesChoice, TakesChoiceComponent, TakesComponent, TakesElement, TakesValue};
ghost use Rattle.decode_faults.specs.declared.read_fault.ReadFault.TheVariants.{Memory};
ghost use Rattle.primitive_reader.specs.Leaves.{ReadsContents};
ghost use Rattle.octet_answers.specs.Answers.{Takes};
ghost use Rattle.octet_answers.specs.States.{begun, ended, with_token};
ghost use Rattle.octets.specs.declared.form.Form.TheVariants.{Primitive};
ghost use Rattle.std.specs.Prelude.{◌≡◌, ◌+◌, ◌-◌, ◌<◌, ◌≤◌, ◌++◌, ◌∷◌, [], false, IfErr, IfOk, IfSome, IsTrue, length, List, OnOk, true};

use crate::asking::emit;
use crate::reader_state::ReaderState;
use crate::token::{PrimitiveToken, PrimitiveValue, StructToken};
use crate::token_sink::TokenSink;
use asn_base::schema::TypeId;
use codec_code::{Code, Coding, Field, Head, Step, Summary};
use decode_faults::ReadFault;
use encodings::LeafKind;
use limits::{MAX_HEADERS, MAX_OPEN};
use next_tags::{can_begin, can_begin_by, choose, next_unit, short_unit};
use octet_answers::law::lemma_one_answer;
use octets::Form;
use primitive_reader::{Leaf, read_leaf};

/// The contents octets of a value that comes next, what they mean, and what follows them.
#[derive(Clone, Copy)]
pub struct ShortValue<'a> {
    pub contents: &'a [u8],
    pub rest: &'a [u8],
    pub leaf: Leaf<'a>,
}

/// An alternative of a CHOICE whose values hold no others: its number, its type, and the header and the kind of the
/// contents of its values.
#[derive(Clone, Copy)]
pub struct LeafAlternative {
    pub index: usize,
    pub ty: TypeId,
    pub head: Head,
    pub kind: LeafKind,
}

/// The value that comes next, if it has this header in two octets, primitive contents of this kind, and may begin. None
/// decides nothing.
#[inline(always)]
fn short_next<'c, 'a, T: TokenSink<'a>>(
    place: &ReaderState<'c, 'a, T>,
    head: Head,
    kind: LeafKind,
) -> Option<ShortValue<'a>>
    ensures { IfSome result (IsShortValue (state_of T.tokens place.now) head kind) }
{
    if head.constructed {
        return None;
    }
    if place.budget == 0 {
        return None;
    }
    if place.values.len() >= MAX_OPEN {
        return None;
    }
    if place.outer.len() >= MAX_HEADERS {
        return None;
    }
    let Some((contents, rest)) = short_unit(place.here.octets, head.tag, Form::Primitive) else {
        return None;
    };
    match read_leaf(kind, contents) {
        Ok(leaf) => Some(ShortValue {
            contents,
            rest,
            leaf,
        }),
        Err(_) => None,
    }
}

/// Whether the type's routine reads a value that holds no others.
#[inline(always)]
pub(crate) fn is_leaf(code: &Code, id: TypeId) -> bool
    ensures { IsTrue result → IsBare (routine_at code.now id.index) }
{
    match code.summary(id) {
        Summary::Leaf(_, _) => true,
        Summary::Components(_, _) | Summary::Elements(_) | Summary::Any => false,
    }
}

/// Whether the type's routine begins with a choice.
#[inline(always)]
fn is_choice(code: &Code, id: TypeId) -> bool
    ensures { IsTrue result → IsBare (routine_at code.now id.index) }
{
    match code.steps(id, Coding::Tagged).split_first() {
        Some((Step::Pick(_), _)) => true,
        _ => false,
    }
}

/// Gives the tokens of the value that comes next to the receiver.
#[inline(always)]
pub(crate) fn emit_short<'a, T: TokenSink<'a>>(
    emitted: &mut T,
    code: &Code,
    id: TypeId,
    held: PrimitiveToken<'a>,
    leaf: Leaf<'a>,
) -> Result<(), ReadFault>
    requires suits { T.suits emitted.old code.now }
    requires bare { IsBare (routine_at code.now id.index) }
    requires short { held.at + length held.octets.now ≤ 16777216 }
    requires form { held.form ≡ Primitive }
    requires read { ReadsContents held.kind held.octets.now leaf }
    ensures ok { OnOk result (T.tokens emitted.new
        ≡ ((T.tokens emitted.old ++ begun id ∷ []) ++ value_token held.entry ∷ []) ++ ended ∷ []) }
    ensures err { IfErr result (λ e. e ≡ Memory) }
    ensures suits { (s : List Resolved) → T.suits emitted.old s → T.suits emitted.new s }
{
    match emitted.begin_bare(code, id) {
        Ok(()) => {}
        Err(fault) => return Err(fault),
    }
    match emitted.hold(held, PrimitiveValue::Whole(leaf)) {
        Ok(()) => {}
        Err(fault) => return Err(fault),
    }
    match emitted.emit(StructToken::Ended) {
        Ok(()) => Ok(()),
        Err(fault) => Err(fault),
    }
}

/// Moves over the value that comes next, and gives its tokens to the receiver.
#[inline(always)]
fn pass_short<'c, 'a, T: TokenSink<'a>>(
    place: &mut ReaderState<'c, 'a, T>,
    id: TypeId,
    kind: LeafKind,
    short: ShortValue<'a>,
) -> Result<(), ReadFault>
    requires within { IsValidState T.suits place.old }
    requires bare { IsBare (routine_at place.old.code.now id.index) }
    requires short { (h : Head') × IsShortValue (state_of T.tokens place.old) h kind short }
    ensures within { IsValidState T.suits place.new }
    ensures ok { OnOk result (state_of T.tokens place.new
        ≡ short_at (state_of T.tokens place.old) id kind short.entry.contents.now short.entry.rest.now
        (place.old.budget - 1)) }
    ensures err { IfErr result (λ e. e ≡ Memory) }
{
    let at = place.here.at;
    let held = PrimitiveToken {
        kind,
        form: Form::Primitive,
        octets: short.contents,
        at: at + 2,
    };
    match emit_short(&mut place.emitted, place.code, id, held, short.leaf) {
        Ok(()) => {}
        Err(fault) => return Err(fault),
    }
    place.here.octets = short.rest;
    place.here.at = at + (2 + short.contents.len());
    place.budget -= 1;
    Ok(())
}

/// Reads at once a value of the type, which holds no others, if it has this header in two octets and contents of this
/// kind. True: it was read. False: nothing was done.
#[inline(always)]
pub fn small_value<'c, 'a, T: TokenSink<'a>>(
    place: &mut ReaderState<'c, 'a, T>,
    id: TypeId,
    head: Head,
    kind: LeafKind,
) -> Result<bool, ReadFault>
    requires { IsValidState T.suits place.old }
    ensures within { IsValidState T.suits place.new }
    ensures taken { IfOk result (λ yes. yes ≡ true
        → TakesValue Takes id head kind (state_of T.tokens place.old) (state_of T.tokens place.new)) }
    ensures same { IfOk result (λ yes. yes ≡ false → state_of T.tokens place.new ≡ state_of T.tokens place.old) }
    ensures err { IfErr result (λ e. e ≡ Memory) }
{
    lemma_one_answer();
    if !is_leaf(place.code, id) {
        return Ok(false);
    }
    let Some(short) = short_next(place, head, kind) else {
        return Ok(false);
    };
    match pass_short(place, id, kind, short) {
        Ok(()) => Ok(true),
        Err(fault) => Err(fault),
    }
}

/// The same as `small_value`, of one more element of a list.
#[inline(always)]
pub fn small_element<'c, 'a, T: TokenSink<'a>>(
    place: &mut ReaderState<'c, 'a, T>,
    id: TypeId,
    sorted: bool,
    head: Head,
    kind: LeafKind,
) -> Result<bool, ReadFault>
    requires { IsValidState T.suits place.old }
    ensures within { IsValidState T.suits place.new }
    ensures taken { IfOk result (λ yes. yes ≡ true
        → TakesElement Takes id sorted head kind (state_of T.tokens place.old) (state_of T.tokens place.new)) }
    ensures same { IfOk result (λ yes. yes ≡ false → state_of T.tokens place.new ≡ state_of T.tokens place.old) }
    ensures err { IfErr result (λ e. e ≡ Memory) }
{
    match kind {
        LeafKind::Integer => element_of(place, id, sorted, head, LeafKind::Integer),
        LeafKind::Boolean => element_of(place, id, sorted, head, LeafKind::Boolean),
        LeafKind::OctetString => element_of(place, id, sorted, head, LeafKind::OctetString),
        _ => element_of(place, id, sorted, head, kind),
    }
}

/// The same as `small_element`, which calls it with the kinds that come most often as constants.
#[inline(always)]
fn element_of<'c, 'a, T: TokenSink<'a>>(
    place: &mut ReaderState<'c, 'a, T>,
    id: TypeId,
    sorted: bool,
    head: Head,
    kind: LeafKind,
) -> Result<bool, ReadFault>
    requires { IsValidState T.suits place.old }
    ensures within { IsValidState T.suits place.new }
    ensures taken { IfOk result (λ yes. yes ≡ true
        → TakesElement Takes id sorted head kind (state_of T.tokens place.old) (state_of T.tokens place.new)) }
    ensures same { IfOk result (λ yes. yes ≡ false → state_of T.tokens place.new ≡ state_of T.tokens place.old) }
    ensures err { IfErr result (λ e. e ≡ Memory) }
{
    lemma_one_answer();
    if !is_leaf(place.code, id) {
        return Ok(false);
    }
    let Some(short) = short_next(place, head, kind) else {
        return Ok(false);
    };
    match pass_short(place, id, kind, short) {
        Ok(()) => Ok(true),
        Err(fault) => Err(fault),
    }
}

/// The same as `small_value`, of a component of a SEQUENCE.
#[inline(always)]
pub fn small_component<'c, 'a, T: TokenSink<'a>>(
    place: &mut ReaderState<'c, 'a, T>,
    field: Field,
    head: Head,
    kind: LeafKind,
) -> Result<bool, ReadFault>
    requires { IsValidState T.suits place.old }
    ensures within { IsValidState T.suits place.new }
    ensures taken { IfOk result (λ yes. yes ≡ true
        → TakesComponent Takes field head kind (state_of T.tokens place.old) (state_of T.tokens place.new)) }
    ensures same { IfOk result (λ yes. yes ≡ false → state_of T.tokens place.new ≡ state_of T.tokens place.old) }
    ensures err { IfErr result (λ e. e ≡ Memory) }
{
    match kind {
        LeafKind::Integer => component_of(place, field, head, LeafKind::Integer),
        LeafKind::Boolean => component_of(place, field, head, LeafKind::Boolean),
        LeafKind::OctetString => component_of(place, field, head, LeafKind::OctetString),
        _ => component_of(place, field, head, kind),
    }
}

/// The same as `small_component`, which calls it with the kinds that come most often as constants.
#[inline(always)]
fn component_of<'c, 'a, T: TokenSink<'a>>(
    place: &mut ReaderState<'c, 'a, T>,
    field: Field,
    head: Head,
    kind: LeafKind,
) -> Result<bool, ReadFault>
    requires { IsValidState T.suits place.old }
    ensures within { IsValidState T.suits place.new }
    ensures taken { IfOk result (λ yes. yes ≡ true
        → TakesComponent Takes field head kind (state_of T.tokens place.old) (state_of T.tokens place.new)) }
    ensures same { IfOk result (λ yes. yes ≡ false → state_of T.tokens place.new ≡ state_of T.tokens place.old) }
    ensures err { IfErr result (λ e. e ≡ Memory) }
{
    lemma_one_answer();
    if !is_leaf(place.code, field.ty) {
        return Ok(false);
    }
    if !can_begin(place.code, field.ty, head.tag) {
        return Ok(false);
    }
    let Some(short) = short_next(place, head, kind) else {
        return Ok(false);
    };
    match emit(place, StructToken::Component(field.place)) {
        Ok(()) => {}
        Err(fault) => return Err(fault),
    }
    match pass_short(place, field.ty, kind, short) {
        Ok(()) => Ok(true),
        Err(fault) => Err(fault),
    }
}

/// The alternative that comes next, of those that the calls are for, if its values hold no others. None decides
/// nothing.
#[inline(always)]
fn next_alternative<'c, 'a, T: TokenSink<'a>>(
    place: &ReaderState<'c, 'a, T>,
    code: &Code,
    calls: &[Step],
) -> Option<LeafAlternative>
    ensures next { IfSome result (λ l. IsAlternativeNext (state_of T.tokens place.now) calls.now l.index l.ty) }
    ensures routine { IfSome result (λ l.
        routine_at code.now l.ty.index ≡ HeadStep l.head ∷ LeafStep l.kind ∷ End ∷ []) }
{
    let unit = match next_unit(place.here.octets) {
        Ok(unit) => unit,
        Err(_) => return None,
    };
    let Some((index, ty)) = choose(place.code, calls, unit.tag) else {
        return None;
    };
    match code.summary(ty) {
        Summary::Leaf(head, kind) => Some(LeafAlternative {
            index,
            ty,
            head,
            kind,
        }),
        Summary::Components(_, _) | Summary::Elements(_) | Summary::Any => None,
    }
}

/// Gives the token that a value of the type begins to the receiver.
#[inline(always)]
fn begin_choice<'c, 'a, T: TokenSink<'a>>(
    place: &mut ReaderState<'c, 'a, T>,
    id: TypeId,
) -> Result<(), ReadFault>
    requires within { IsValidState T.suits place.old }
    requires bare { IsBare (routine_at place.old.code.now id.index) }
    ensures within { IsValidState T.suits place.new }
    ensures ok { OnOk result (state_of T.tokens place.new ≡ with_token (state_of T.tokens place.old) (begun id)) }
    ensures err { IfErr result (λ e. e ≡ Memory) }
{
    match place.emitted.begin_bare(place.code, id) {
        Ok(()) => Ok(()),
        Err(fault) => Err(fault),
    }
}

/// Moves over the value that comes next, which is that of an alternative of a value of the type, and gives the tokens
/// of both to the receiver.
#[inline(always)]
fn pass_choice<'c, 'a, T: TokenSink<'a>>(
    place: &mut ReaderState<'c, 'a, T>,
    id: TypeId,
    alternative: LeafAlternative,
    short: ShortValue<'a>,
) -> Result<(), ReadFault>
    requires within { IsValidState T.suits place.old }
    requires choice { IsBare (routine_at place.old.code.now id.index) }
    requires bare { IsBare (routine_at place.old.code.now alternative.ty.index) }
    requires short { IsShortValue (state_of T.tokens place.old) alternative.head alternative.kind short }
    requires budget { 1 < place.old.budget }
    ensures within { IsValidState T.suits place.new }
    ensures ok { OnOk result (state_of T.tokens place.new
        ≡ choice_at (state_of T.tokens place.old) id alternative.index alternative.ty alternative.kind
        short.entry.contents.now short.entry.rest.now ((place.old.budget - 1) - 1)) }
    ensures err { IfErr result (λ e. e ≡ Memory) }
{
    match begin_choice(place, id) {
        Ok(()) => {}
        Err(fault) => return Err(fault),
    }
    match emit(place, StructToken::Chosen(alternative.index)) {
        Ok(()) => {}
        Err(fault) => return Err(fault),
    }
    match pass_short(place, alternative.ty, alternative.kind, short) {
        Ok(()) => {}
        Err(fault) => return Err(fault),
    }
    match emit(place, StructToken::Ended) {
        Ok(()) => {}
        Err(fault) => return Err(fault),
    }
    place.budget -= 1;
    Ok(())
}

/// Reads at once a value of the type, a CHOICE without a tag whose alternatives these calls are for, if the one that
/// comes next is read so. True: it was read. False: nothing was done.
#[inline(always)]
pub fn small_choice<'c, 'a, T: TokenSink<'a>>(
    place: &mut ReaderState<'c, 'a, T>,
    code: &Code,
    id: TypeId,
    calls: &[Step],
) -> Result<bool, ReadFault>
    requires { IsValidState T.suits place.old }
    ensures within { IsValidState T.suits place.new }
    ensures taken { IfOk result (λ yes. yes ≡ true
        → TakesChoice (routine_at code.now) Takes id calls.now
        (state_of T.tokens place.old) (state_of T.tokens place.new)) }
    ensures same { IfOk result (λ yes. yes ≡ false → state_of T.tokens place.new ≡ state_of T.tokens place.old) }
    ensures err { IfErr result (λ e. e ≡ Memory) }
{
    lemma_one_answer();
    if place.budget < 2 || place.values.len() >= MAX_OPEN - 1 {
        return Ok(false);
    }
    let Some(alternative) = next_alternative(place, code, calls) else {
        return Ok(false);
    };
    if !is_choice(place.code, id) {
        return Ok(false);
    }
    if !is_leaf(place.code, alternative.ty) {
        return Ok(false);
    }
    let Some(short) = short_next(place, alternative.head, alternative.kind) else {
        return Ok(false);
    };
    match pass_choice(place, id, alternative, short) {
        Ok(()) => Ok(true),
        Err(fault) => Err(fault),
    }
}

/// The same of a component of a SEQUENCE.
#[inline(always)]
pub fn small_choice_component<'c, 'a, T: TokenSink<'a>>(
    place: &mut ReaderState<'c, 'a, T>,
    code: &Code,
    field: Field,
    calls: &[Step],
) -> Result<bool, ReadFault>
    requires { IsValidState T.suits place.old }
    ensures within { IsValidState T.suits place.new }
    ensures taken { IfOk result (λ yes. yes ≡ true
        → TakesChoiceComponent (routine_at code.now) Takes field calls.now
        (state_of T.tokens place.old) (state_of T.tokens place.new)) }
    ensures same { IfOk result (λ yes. yes ≡ false → state_of T.tokens place.new ≡ state_of T.tokens place.old) }
    ensures err { IfErr result (λ e. e ≡ Memory) }
{
    let Some(alternative) = next_alternative(place, code, calls) else {
        return Ok(false);
    };
    choice_of(place, code, field, calls, alternative)
}

/// The same as `small_choice_component`, for the alternative that comes next.
#[inline(always)]
fn choice_of<'c, 'a, T: TokenSink<'a>>(
    place: &mut ReaderState<'c, 'a, T>,
    code: &Code,
    field: Field,
    calls: &[Step],
    alternative: LeafAlternative,
) -> Result<bool, ReadFault>
    requires within { IsValidState T.suits place.old }
    requires next { IsAlternativeNext (state_of T.tokens place.old) calls.now alternative.index alternative.ty }
    requires routine { routine_at code.now alternative.ty.index
        ≡ HeadStep alternative.head ∷ LeafStep alternative.kind ∷ End ∷ [] }
    ensures within { IsValidState T.suits place.new }
    ensures taken { IfOk result (λ yes. yes ≡ true
        → TakesChoiceComponent (routine_at code.now) Takes field calls.now
        (state_of T.tokens place.old) (state_of T.tokens place.new)) }
    ensures same { IfOk result (λ yes. yes ≡ false → state_of T.tokens place.new ≡ state_of T.tokens place.old) }
    ensures err { IfErr result (λ e. e ≡ Memory) }
{
    lemma_one_answer();
    if place.budget <= 1 || MAX_OPEN <= place.values.len() + 1 {
        return Ok(false);
    }
    if !can_begin_by(
        place.code,
        field.ty,
        alternative.index,
        alternative.head.tag,
    ) {
        return Ok(false);
    }
    if !is_choice(place.code, field.ty) {
        return Ok(false);
    }
    if !is_leaf(place.code, alternative.ty) {
        return Ok(false);
    }
    let Some(short) = short_next(place, alternative.head, alternative.kind) else {
        return Ok(false);
    };
    match emit(place, StructToken::Component(field.place)) {
        Ok(()) => {}
        Err(fault) => return Err(fault),
    }
    match pass_choice(place, field.ty, alternative, short) {
        Ok(()) => Ok(true),
        Err(fault) => Err(fault),
    }
}
