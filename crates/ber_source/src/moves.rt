//! Answers that move on: values begin and end, headers open and close, and contents are read.

ghost use Rattle.asn_base.specs.Abstract.{AbstractValue};
ghost use Rattle.ber_source.specs.PrimitiveValue.{AreBad, AreReadAs};
ghost use Rattle.ber_source.specs.Seen.{IsValidState, state_of};
ghost use Rattle.codec_source.specs.Events.{to_begin, to_close, to_end, to_hold, to_open};
ghost use Rattle.decode_faults.specs.declared.read_fault.ReadFault.TheVariants.{Memory};
ghost use Rattle.codec_source.specs.proving.Frames.{IfRefused, IfRefusedWith};
ghost use Rattle.octet_answers.specs.Answers.{AreContents, Begins, Closes, Ends, Holds, Opens};
ghost use Rattle.octet_answers.specs.Unanswered.{Leaves, of_header, of_leaf, of_segments, advanced};
ghost use Rattle.octet_answers.specs.States.{State, held_at, opened_at};
ghost use Rattle.octet_answers.specs.Units.{UnitAt};
ghost use Rattle.octets.specs.Forms.{is_constructed};
ghost use Rattle.octets.specs.declared.form.Form.TheVariants.{Constructed};
ghost use Rattle.segmented_strings.specs.declared.fault.SegmentsFault.TheVariants.{At, Memory as NoMemory};
ghost use Rattle.segmented_strings.specs.declared.fault.SegmentError.{SegmentError as SegmentError'};
ghost use Rattle.std.specs.Prelude.{◌≡◌, ◌++◌, ◌∷◌, ◌<◌, ◌≤◌, [], IfErr, IfOk, IfSome, OnOk, drop, length, ℕ};

use crate::open_contents::OpenContents;
use crate::reader_state::ReaderState;
use crate::token::{PrimitiveToken, PrimitiveValue, StructToken};
use crate::token_sink::TokenSink;
use asn_base::schema::TypeId;
use codec_code::Head;
use decode_faults::ReadFault;
use encodings::LeafKind;
use limits::{MAX_HEADERS, MAX_OPEN};
use next_tags::{Unit, next_unit, same_tag, short_unit};
use octet_answers::law::lemma_one_unit;
use octets::{Form, HeaderFault};
use primitive_reader::{LeafFault, read_leaf};
use segmented_strings::{SegmentError, SegmentsFault, read_segments};
use std::alloc::Global;
use views::room::add_one;

/// The fault of a header, as that of a decoder.
pub(crate) fn from_header_fault(fault: HeaderFault) -> ReadFault
    ensures { result ≡ of_header fault }
{
    match fault {
        HeaderFault::Truncated => ReadFault::Truncated,
        HeaderFault::Indefinite => ReadFault::Indefinite,
        HeaderFault::BadLength => ReadFault::BadLength,
        HeaderFault::BadTag => ReadFault::BadTag,
    }
}

/// The fault of primitive contents, as that of a decoder.
fn from_leaf_fault(fault: LeafFault) -> ReadFault
    ensures { result ≡ of_leaf fault }
{
    match fault {
        LeafFault::BadContents => ReadFault::BadContents,
        LeafFault::IntegerLimit => ReadFault::IntegerLimit,
        LeafFault::OidLimit => ReadFault::OidLimit,
    }
}

/// The fault of segments, as that of a decoder.
fn from_segment_fault(why: SegmentError) -> ReadFault
    ensures { result ≡ of_segments why }
{
    match why {
        SegmentError::Header(header) => from_header_fault(header),
        SegmentError::UnexpectedTag => ReadFault::UnexpectedTag,
        SegmentError::BadContents => ReadFault::BadContents,
        SegmentError::EmptySegments => ReadFault::EmptySegments,
        SegmentError::TooDeep => ReadFault::TooDeep,
    }
}

/// Why contents octets aren't those of a kind, and the offset in them, from 0, of the octet that fails.
#[derive(Clone, Copy)]
struct ContentsFault {
    fault: ReadFault,
    at: usize,
}

/// The fault and the offset of segments that are refused.
fn from_segments_fault(fault: SegmentsFault) -> ContentsFault
    ensures memory { fault ≡ NoMemory → result.fault ≡ Memory }
    ensures at { (n : ℕ) (e : SegmentError') → fault ≡ At n e → (result.fault ≡ of_segments e) × (result.at ≡ n) }
{
    match fault {
        SegmentsFault::Memory => ContentsFault {
            fault: ReadFault::Memory,
            at: 0,
        },
        SegmentsFault::At(at, why) => ContentsFault {
            fault: from_segment_fault(why),
            at,
        },
    }
}

#[inline(always)]
fn push_value(list: &mut Vec<TypeId>, one: TypeId) -> Result<(), ReadFault>
    ensures ok { OnOk result (list.new.items ≡ list.old.items ++ one ∷ []) }
    ensures err { IfErr result (λ e. e ≡ Memory) }
{
    add_one(list, one)?;
    Ok(())
}

/// Begins a value of the type.
#[inline(always)]
pub fn begin<'c, 'a, T: TokenSink<'a>>(
    place: &mut ReaderState<'c, 'a, T>,
    id: TypeId,
) -> Result<(), ReadFault>
    requires { IsValidState T.suits place.old }
    ensures within { IsValidState T.suits place.new }
    ensures ok { OnOk result (Begins (state_of T.tokens place.old) id (state_of T.tokens place.new)) }
    ensures err { IfRefused result ((b : State) → Begins (state_of T.tokens place.old) id b → ⊥) }
    ensures left { IfRefusedWith result
        (Leaves (state_of T.tokens place.old) (to_begin id) (state_of T.tokens place.new)) }
{
    if place.budget == 0 {
        return Err(ReadFault::TooDeep);
    }
    if place.values.len() >= MAX_OPEN {
        return Err(ReadFault::TooDeep);
    }
    push_value(&mut place.values, id)?;
    match place.emitted.emit(StructToken::Begun(id)) {
        Ok(()) => {}
        Err(fault) => return Err(fault),
    }
    place.budget -= 1;
    Ok(())
}

/// Ends the value that began last, of those that are open.
#[inline(always)]
pub fn end<'c, 'a, T: TokenSink<'a>>(place: &mut ReaderState<'c, 'a, T>) -> Result<(), ReadFault>
    requires { IsValidState T.suits place.old }
    ensures within { IsValidState T.suits place.new }
    ensures ok { OnOk result (Ends (state_of T.tokens place.old) (state_of T.tokens place.new)) }
    ensures err { IfRefused result ((b : State) → Ends (state_of T.tokens place.old) b → ⊥) }
    ensures left { IfRefusedWith result (Leaves (state_of T.tokens place.old) to_end (state_of T.tokens place.new)) }
{
    match place.values.pop() {
        Some(_) => match place.emitted.emit(StructToken::Ended) {
            Ok(()) => Ok(()),
            Err(fault) => Err(fault),
        },
        None => Err(ReadFault::UnexpectedTag),
    }
}

/// The encoding that comes next, if it is constructed as the step requires, and has this tag in a header of two octets.
/// None decides nothing.
#[inline(always)]
fn short_header<'c, 'a, T: TokenSink<'a>>(
    place: &ReaderState<'c, 'a, T>,
    head: Head,
) -> Option<Unit<'a>>
    ensures tag { IfSome result (λ u. u.tag ≡ head.tag) }
    ensures unit { IfSome result (λ u. UnitAt u.tag (is_constructed u.form) u.count u.contents.now u.rest.now
        place.now.here.octets.now) }
    ensures form { IfSome result (λ u. u.form ≡ Constructed) }
    ensures few { IfSome result (λ u. length (state_of T.tokens place.now).outer < 400) }
{
    if !head.constructed || MAX_HEADERS <= place.outer.len() {
        return None;
    }
    match short_unit(place.here.octets, head.tag, Form::Constructed) {
        Some((contents, rest)) => Some(Unit {
            tag: head.tag,
            form: Form::Constructed,
            count: 2,
            contents,
            rest,
        }),
        None => None,
    }
}

/// Opens the header that comes next. It must have this tag, and must be constructed if the step requires it.
#[inline(always)]
pub fn open<'c, 'a, T: TokenSink<'a>>(
    place: &mut ReaderState<'c, 'a, T>,
    head: Head,
) -> Result<(), ReadFault>
    requires { IsValidState T.suits place.old }
    ensures within { IsValidState T.suits place.new }
    ensures ok { OnOk result (Opens (state_of T.tokens place.old) head (state_of T.tokens place.new)) }
    ensures err { IfRefused result ((b : State) → Opens (state_of T.tokens place.old) head b → ⊥) }
    ensures left { IfRefusedWith result
        (Leaves (state_of T.tokens place.old) (to_open head) (state_of T.tokens place.new)) }
{
    match short_header(place, head) {
        Some(unit) => {
            enter(place, unit)?;
            Ok(())
        }
        None => open_any(place, head),
    }
}

/// The same as `open`, for a header of any length.
fn open_any<'c, 'a, T: TokenSink<'a>>(
    place: &mut ReaderState<'c, 'a, T>,
    head: Head,
) -> Result<(), ReadFault>
    requires { IsValidState T.suits place.old }
    ensures within { IsValidState T.suits place.new }
    ensures ok { OnOk result (Opens (state_of T.tokens place.old) head (state_of T.tokens place.new)) }
    ensures err { IfRefused result ((b : State) → Opens (state_of T.tokens place.old) head b → ⊥) }
    ensures left { IfRefusedWith result
        (Leaves (state_of T.tokens place.old) (to_open head) (state_of T.tokens place.new)) }
{
    lemma_one_unit();
    let unit = match next_unit(place.here.octets) {
        Ok(unit) => unit,
        Err(fault) => return Err(from_header_fault(fault)),
    };
    if place.outer.len() >= MAX_HEADERS {
        return Err(ReadFault::TooDeep);
    }
    if !same_tag(unit.tag, head.tag) {
        return Err(ReadFault::UnexpectedTag);
    }
    if head.constructed && unit.form == Form::Primitive {
        return Err(ReadFault::UnexpectedTag);
    }
    enter(place, unit)?;
    Ok(())
}

/// Goes into the contents of the encoding that comes next.
#[inline(always)]
fn enter<'c, 'a, T: TokenSink<'a>>(
    place: &mut ReaderState<'c, 'a, T>,
    unit: Unit<'a>,
) -> Result<(), ReadFault>
    requires within { IsValidState T.suits place.old }
    requires unit { UnitAt unit.tag (is_constructed unit.form) unit.count unit.contents.now unit.rest.now
        place.old.here.octets.now }
    ensures within { IsValidState T.suits place.new }
    ensures ok { OnOk result (state_of T.tokens place.new
        ≡ opened_at (state_of T.tokens place.old) (is_constructed unit.entry.form)
        unit.entry.count unit.entry.contents.now unit.entry.rest.now) }
    ensures err { IfErr result (λ e. e ≡ Memory) }
{
    let at = place.here.at + unit.count;
    place.outer.push(OpenContents {
        form: place.here.form,
        octets: unit.rest,
        at: at + unit.contents.len(),
        from: place.here.from,
    })?;
    place.here = OpenContents {
        form: unit.form,
        octets: unit.contents,
        at,
        from: place.marks.len(),
    };
    Ok(())
}

/// Closes the nearest open header, whose contents were read to their end.
#[inline(always)]
pub fn close<'c, 'a, T: TokenSink<'a>>(place: &mut ReaderState<'c, 'a, T>) -> Result<(), ReadFault>
    requires { IsValidState T.suits place.old }
    ensures within { IsValidState T.suits place.new }
    ensures ok { OnOk result (Closes (state_of T.tokens place.old) (state_of T.tokens place.new)) }
    ensures err { IfRefused result ((b : State) → Closes (state_of T.tokens place.old) b → ⊥) }
    ensures left { IfRefusedWith result (Leaves (state_of T.tokens place.old) to_close (state_of T.tokens place.new)) }
{
    if !place.here.octets.is_empty() {
        return Err(ReadFault::UnexpectedTag);
    }
    match place.outer.pop() {
        Some(open_contents) => {
            place.marks.truncate(place.here.from);
            place.here = open_contents;
            Ok(())
        }
        None => Err(ReadFault::UnexpectedTag),
    }
}

/// Reads the contents octets of a value that holds no others.
#[inline(always)]
pub fn hold<'c, 'a, T: TokenSink<'a>>(
    place: &mut ReaderState<'c, 'a, T>,
    kind: LeafKind,
) -> Result<(), ReadFault>
    requires { IsValidState T.suits place.old }
    ensures within { IsValidState T.suits place.new }
    ensures ok { OnOk result (Holds (state_of T.tokens place.old) kind (state_of T.tokens place.new)) }
    ensures err { IfRefused result ((b : State) → Holds (state_of T.tokens place.old) kind b → ⊥) }
    ensures left { IfRefusedWith result
        (Leaves (state_of T.tokens place.old) (to_hold kind) (state_of T.tokens place.new)) }
{
    if place.outer.len() > MAX_HEADERS {
        return Err(ReadFault::TooDeep);
    }
    let budget = MAX_HEADERS - place.outer.len();
    match judge(
        place.alloc,
        kind,
        place.here.form,
        place.here.octets,
        budget,
    ) {
        Ok(decoded) => pass_contents(place, kind, decoded),
        Err(bad) => {
            advance(place, bad.at);
            Err(bad.fault)
        }
    }
}

/// The octets after the first `count` ones.
fn following(octets: &[u8], count: usize) -> &[u8]
    ensures { result.now ≡ drop count octets.now }
{
    if count < octets.len() {
        &octets[count..]
    } else {
        &[]
    }
}

/// Moves over `count` octets, if there are as many.
fn advance<'c, 'a, T: TokenSink<'a>>(place: &mut ReaderState<'c, 'a, T>, count: usize)
    requires { IsValidState T.suits place.old }
    ensures within { IsValidState T.suits place.new }
    ensures at { count ≤ length place.old.here.octets.now
        → state_of T.tokens place.new ≡ advanced (state_of T.tokens place.old) count }
{
    let here = place.here;
    if count <= here.octets.len() {
        place.here = OpenContents {
            form: here.form,
            octets: following(here.octets, count),
            at: here.at + count,
            from: here.from,
        };
    }
}

/// What the octets mean as contents of this kind, with at most `budget` levels of headers in them.
#[inline(always)]
fn judge<'a>(
    alloc: Global,
    kind: LeafKind,
    form: Form,
    octets: &'a [u8],
    budget: usize,
) -> Result<PrimitiveValue<'a>, ContentsFault>
    requires short { length octets.now ≤ 16777216 }
    requires few { budget ≤ 400 }
    ensures ok { IfOk result (λ h. (v : AbstractValue) × AreContents (is_constructed form) kind v budget octets.now) }
    ensures read { IfOk result (λ h. AreReadAs (is_constructed form) kind octets.now h) }
    ensures err { IfErr result (λ e. (e.fault ≡ Memory → ⊥)
        → (v : AbstractValue)
        → AreContents (is_constructed form) kind v budget octets.now
        → ⊥) }
    ensures why { IfErr result (λ e. (e.fault ≡ Memory → ⊥)
        → AreBad kind budget octets.now (is_constructed form) e.fault e.at) }
{
    match form {
        Form::Primitive => match read_leaf(kind, octets) {
            Ok(leaf) => Ok(PrimitiveValue::Whole(leaf)),
            Err(fault) => Err(ContentsFault {
                fault: from_leaf_fault(fault),
                at: 0,
            }),
        },
        Form::Constructed => match read_segments(alloc, kind, octets, budget) {
            Ok(joined) => Ok(PrimitiveValue::Reassembled(joined)),
            Err(fault) => Err(from_segments_fault(fault)),
        },
    }
}

/// Moves over the contents octets, and gives them to the receiver.
#[inline(always)]
fn pass_contents<'c, 'a, T: TokenSink<'a>>(
    place: &mut ReaderState<'c, 'a, T>,
    kind: LeafKind,
    decoded: PrimitiveValue<'a>,
) -> Result<(), ReadFault>
    requires within { IsValidState T.suits place.old }
    requires read { AreReadAs (is_constructed place.old.here.form) kind place.old.here.octets.now decoded }
    ensures within { IsValidState T.suits place.new }
    ensures ok { OnOk result (state_of T.tokens place.new ≡ held_at (state_of T.tokens place.old) kind) }
    ensures err { IfErr result (λ e. e ≡ Memory) }
{
    let here = place.here;
    let held = PrimitiveToken {
        kind,
        form: here.form,
        octets: here.octets,
        at: here.at,
    };
    match place.emitted.hold(held, decoded) {
        Ok(()) => {}
        Err(fault) => return Err(fault),
    }
    place.here = OpenContents {
        form: here.form,
        octets: &[],
        at: here.at + here.octets.len(),
        from: here.from,
    };
    Ok(())
}
