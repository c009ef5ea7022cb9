//! Elements of a list that are SEQUENCEs, read one after the other while nothing is kept of where they are open.

ghost use Rattle.asn_base.specs.Tags.{First};
ghost use Rattle.asn_base.specs.Types.{Resolved};
ghost use Rattle.ber_source.specs.Rows.{ArePlain, IsComponentRead, IsPlain, ReadsComponent, in_row, moved};
ghost use Rattle.ber_source.specs.Seen.{IsBare, IsValidState, state_of};
ghost use Rattle.codec_code.specs.Routines.{routine_at};
ghost use Rattle.codec_code.specs.declared.step.Step.TheVariants.{End, Field as FieldStep, Head as HeadStep};
ghost use Rattle.codec_source.specs.proving.Wholes.{Chain, ReadsElement, ReadsInto, ReadsOn};
ghost use Rattle.decode_faults.specs.declared.read_fault.ReadFault.TheVariants.{Memory};
ghost use Rattle.octet_answers.specs.Answers.{Takes};
ghost use Rattle.octet_answers.specs.States.{State, begun};
ghost use Rattle.octet_answers.specs.Units.{UnitAt};
ghost use Rattle.primitive_reader.specs.Leaves.{ReadsContents};
ghost use Rattle.std.specs.Prelude.{◌≡◌, ◌+◌, ◌<◌, ◌≤◌, ◌++◌, ◌∷◌, [], false, IfErr, IfOk, IfSome, IsTrue, List, MatchOption, OnOk, length};

use crate::open_contents::OpenContents;
use crate::reader_state::ReaderState;
use crate::small::{ShortValue, emit_short, is_leaf};
use crate::token::{PrimitiveToken, StructToken};
use crate::token_sink::TokenSink;
use asn_base::schema::TypeId;
use codec_code::{Code, Field, Head, Step, Summary};
use decode_faults::ReadFault;
use encodings::LeafKind;
use limits::{MAX_HEADERS, MAX_OPEN};
use next_tags::{can_begin, short_unit};
use octet_answers::law::lemma_one_answer;
use octets::Form;
use primitive_reader::read_leaf;
use views::room::add_one;

/// Contents octets that aren't read yet, with the offset in the message, from 0, of the first of them.
#[derive(Clone, Copy)]
pub struct ContentsLeft<'a> {
    pub octets: &'a [u8],
    pub at: usize,
}

/// The elements of a list: their type, and the header and the steps after it of the type's routine.
#[derive(Clone, Copy)]
pub struct Rows<'s> {
    pub id: TypeId,
    pub head: Head,
    pub fields: &'s [Step],
}

/// A place in an element: the steps that are left, the contents, and how many values may still begin.
#[derive(Clone, Copy)]
pub struct InRow<'s, 'a> {
    pub left: &'s [Step],
    pub here: ContentsLeft<'a>,
    pub budget: usize,
}

/// A place in a list: what follows the last header that was read, and how many values may still begin. Within an
/// element there are also the steps that are left, and its contents.
#[derive(Clone, Copy)]
pub struct InRows<'s, 'a> {
    pub next: ContentsLeft<'a>,
    pub budget: usize,
    pub inside: Option<(&'s [Step], ContentsLeft<'a>)>,
}

/// The value that comes next, if it has this tag in a header of two octets, and primitive contents of this kind. None
/// decides nothing.
#[inline(always)]
fn short_of<'a>(octets: &'a [u8], head: Head, kind: LeafKind) -> Option<ShortValue<'a>>
    ensures unit { IfSome result (λ v. UnitAt head.tag false 2 v.contents.now v.rest.now octets.now) }
    ensures read { IfSome result (λ v. ReadsContents kind v.contents.now v.leaf) }
{
    let Some((contents, rest)) = short_unit(octets, head.tag, Form::Primitive) else {
        return None;
    };
    match read_leaf(kind, contents) {
        Ok(leaf) => Some(ShortValue {
            contents,
            rest,
            leaf,
        }),
        Err(_) => None,
    }
}

/// Gives the tokens of a component to the receiver, if the component comes next, and is primitive contents of this kind
/// with this header in two octets. Returns what follows it. None: nothing was done.
#[inline(always)]
fn component_of<'a, T: TokenSink<'a>>(
    emitted: &mut T,
    own: &Code,
    field: Field,
    leaf: (Head, LeafKind),
    here: ContentsLeft<'a>,
) -> Result<Option<ContentsLeft<'a>>, ReadFault>
    requires suits { T.suits emitted.old own.now }
    requires primitive { leaf.0.constructed ≡ false }
    requires first { First own.now field.ty.index leaf.0.tag }
    requires bare { IsBare (routine_at own.now field.ty.index) }
    requires short { here.at + length here.octets.now ≤ 16777216 }
    ensures ok { IfOk result (λ o. MatchOption o (T.tokens emitted.new ≡ T.tokens emitted.old)
        (λ then. IsComponentRead own.now field leaf.0 leaf.1 here.entry.octets.now here.entry.at (T.tokens emitted.old)
        then.octets.now then.at (T.tokens emitted.new))) }
    ensures short { IfOk result (λ o. IfSome o (λ then. then.at + length then.octets.now ≤ 16777216)) }
    ensures err { IfErr result (λ e. e ≡ Memory) }
    ensures suits { (s : List Resolved) → T.suits emitted.old s → T.suits emitted.new s }
{
    let Some(short) = short_of(here.octets, leaf.0, leaf.1) else {
        return Ok(None);
    };
    match emitted.emit(StructToken::Component(field.place)) {
        Ok(()) => {}
        Err(fault) => return Err(fault),
    }
    let held = PrimitiveToken {
        kind: leaf.1,
        form: Form::Primitive,
        octets: short.contents,
        at: here.at + 2,
    };
    match emit_short(emitted, own, field.ty, held, short.leaf) {
        Ok(()) => Ok(Some(ContentsLeft {
            octets: short.rest,
            at: here.at + (2 + short.contents.len()),
        })),
        Err(fault) => Err(fault),
    }
}

/// The same as `component_of`, which it calls with the kinds that come most often as constants.
#[inline(always)]
fn component_by_kind<'a, T: TokenSink<'a>>(
    emitted: &mut T,
    own: &Code,
    field: Field,
    leaf: (Head, LeafKind),
    here: ContentsLeft<'a>,
) -> Result<Option<ContentsLeft<'a>>, ReadFault>
    requires suits { T.suits emitted.old own.now }
    requires primitive { leaf.0.constructed ≡ false }
    requires first { First own.now field.ty.index leaf.0.tag }
    requires bare { IsBare (routine_at own.now field.ty.index) }
    requires short { here.at + length here.octets.now ≤ 16777216 }
    ensures ok { IfOk result (λ o. MatchOption o (T.tokens emitted.new ≡ T.tokens emitted.old)
        (λ then. IsComponentRead own.now field leaf.0 leaf.1 here.entry.octets.now here.entry.at (T.tokens emitted.old)
        then.octets.now then.at (T.tokens emitted.new))) }
    ensures short { IfOk result (λ o. IfSome o (λ then. then.at + length then.octets.now ≤ 16777216)) }
    ensures err { IfErr result (λ e. e ≡ Memory) }
    ensures suits { (s : List Resolved) → T.suits emitted.old s → T.suits emitted.new s }
{
    match leaf.1 {
        LeafKind::Integer => component_of(emitted, own, field, (leaf.0, LeafKind::Integer), here),
        LeafKind::Boolean => component_of(emitted, own, field, (leaf.0, LeafKind::Boolean), here),
        LeafKind::OctetString => {
            component_of(emitted, own, field, (leaf.0, LeafKind::OctetString), here)
        }
        _ => component_of(emitted, own, field, leaf, here),
    }
}

/// The same for a component by its type's routine.
#[inline(always)]
fn component_next<'a, T: TokenSink<'a>>(
    emitted: &mut T,
    code: &Code,
    own: &Code,
    field: Field,
    here: ContentsLeft<'a>,
) -> Result<Option<ContentsLeft<'a>>, ReadFault>
    requires suits { T.suits emitted.old own.now }
    requires plain { IsPlain own.now (routine_at code.now field.ty.index) field }
    requires short { here.at + length here.octets.now ≤ 16777216 }
    ensures ok { IfOk result (λ o. MatchOption o (T.tokens emitted.new ≡ T.tokens emitted.old)
        (λ then. ReadsComponent code.now own.now field here.entry.octets.now here.entry.at (T.tokens emitted.old)
        then.octets.now then.at (T.tokens emitted.new))) }
    ensures short { IfOk result (λ o. IfSome o (λ then. then.at + length then.octets.now ≤ 16777216)) }
    ensures err { IfErr result (λ e. e ≡ Memory) }
    ensures suits { (s : List Resolved) → T.suits emitted.old s → T.suits emitted.new s }
{
    match code.summary(field.ty) {
        Summary::Leaf(head, kind) => {
            match component_by_kind(emitted, own, field, (head, kind), here) {
                Ok(then) => Ok(then),
                Err(fault) => Err(fault),
            }
        }
        Summary::Components(_, _) | Summary::Elements(_) | Summary::Any => Ok(None),
    }
}

/// The component of a SEQUENCE for which the first step asks, and the steps after it, if it asks for one.
#[inline(always)]
fn first_field(steps: &[Step]) -> Option<(Field, &[Step])>
    ensures { IfSome result (λ p. steps.now ≡ FieldStep p.0 ∷ p.1.now) }
{
    match steps.split_first() {
        Some((Step::Field(field), following)) => Some((*field, following)),
        _ => None,
    }
}

/// Reads components that come next, up to the first one that isn't read at once.
#[inline(always)]
fn components_from<'s, 'a, T: TokenSink<'a>>(
    emitted: &mut T,
    code: &Code,
    own: &Code,
    start: InRow<'s, 'a>,
) -> Result<InRow<'s, 'a>, ReadFault>
    requires suits { T.suits emitted.old own.now }
    requires plain { ArePlain code.now own.now start.left.now }
    requires short { start.here.at + length start.here.octets.now ≤ 16777216 }
    ensures ok { IfOk result (λ w. (a : State)
        → a.schema ≡ own.now
        → length a.values < 64
        → length a.outer < 400
        → ReadsOn (routine_at code.now) Takes start.entry.left.now w.left.now
        (moved a start.entry.here.octets.now start.entry.here.at (T.tokens emitted.old) start.entry.budget)
        (moved a w.here.octets.now w.here.at (T.tokens emitted.new) w.budget)) }
    ensures short { IfOk result (λ w. w.here.at + length w.here.octets.now ≤ 16777216) }
    ensures budget { IfOk result (λ w. w.budget ≤ start.entry.budget) }
    ensures err { IfErr result (λ e. e ≡ Memory) }
    ensures suits { (s : List Resolved) → T.suits emitted.old s → T.suits emitted.new s }
{
    lemma_one_answer();
    let mut row = start;
    while let Some((field, following)) = first_field(row.left) {
        if row.budget == 0 {
            return Ok(row);
        }
        match component_next(emitted, code, own, field, row.here) {
            Ok(Some(here)) => {
                row = InRow {
                    left: following,
                    here,
                    budget: row.budget - 1,
                };
            }
            Ok(None) => return Ok(row),
            Err(fault) => return Err(fault),
        }
    }
    Ok(row)
}

/// Whether the steps are the end of a routine that began with a header.
#[inline(always)]
fn is_end(steps: &[Step]) -> bool
    ensures { IsTrue result → steps.now ≡ End ∷ [] }
{
    match steps.split_first() {
        Some((Step::End, following)) => following.is_empty(),
        _ => false,
    }
}

/// Whether values of the component's type hold no others by both codes, and the header that the first code has for them
/// is primitive, with a tag with which they begin by the second one.
#[inline(always)]
fn is_plain(code: &Code, own: &Code, field: Field) -> bool
    ensures { IsTrue result → IsPlain own.now (routine_at code.now field.ty.index) field }
{
    match code.summary(field.ty) {
        Summary::Leaf(head, _) => {
            if head.constructed || !is_leaf(own, field.ty) {
                return false;
            }
            can_begin(own, field.ty, head.tag)
        }
        Summary::Components(_, _) | Summary::Elements(_) | Summary::Any => false,
    }
}

/// Whether the steps are for such components, and then the end.
fn are_plain(code: &Code, own: &Code, steps: &[Step]) -> bool
    ensures { IsTrue result → ArePlain code.now own.now steps.now }
{
    match first_field(steps) {
        Some((field, following)) => {
            if !is_plain(code, own, field) {
                return false;
            }
            are_plain(code, own, following)
        }
        None => is_end(steps),
    }
}

/// Whether all steps were done, and no contents are left.
#[inline(always)]
fn is_whole(row: InRow<'_, '_>) -> bool
    ensures end { IsTrue result → row.entry.left.now ≡ End ∷ [] }
    ensures none { IsTrue result → row.entry.here.octets.now ≡ [] }
{
    if !is_end(row.left) {
        return false;
    }
    row.here.octets.is_empty()
}

/// Gives the token that a value begins, and those of the components that come next, to the receiver.
#[inline(always)]
fn row_from<'s, 'a, T: TokenSink<'a>>(
    emitted: &mut T,
    code: &Code,
    own: &Code,
    id: TypeId,
    start: InRow<'s, 'a>,
) -> Result<InRow<'s, 'a>, ReadFault>
    requires suits { T.suits emitted.old own.now }
    requires plain { ArePlain code.now own.now start.left.now }
    requires short { start.here.at + length start.here.octets.now ≤ 16777216 }
    ensures ok { IfOk result (λ w. (a : State)
        → a.schema ≡ own.now
        → length a.values < 64
        → length a.outer < 400
        → ReadsOn (routine_at code.now) Takes start.entry.left.now w.left.now
        (moved a start.entry.here.octets.now start.entry.here.at (T.tokens emitted.old ++ begun id ∷ [])
        start.entry.budget)
        (moved a w.here.octets.now w.here.at (T.tokens emitted.new) w.budget)) }
    ensures short { IfOk result (λ w. w.here.at + length w.here.octets.now ≤ 16777216) }
    ensures budget { IfOk result (λ w. w.budget ≤ start.entry.budget) }
    ensures err { IfErr result (λ e. e ≡ Memory) }
    ensures suits { (s : List Resolved) → T.suits emitted.old s → T.suits emitted.new s }
{
    match emitted.emit(StructToken::Begun(id)) {
        Ok(()) => {}
        Err(fault) => return Err(fault),
    }
    match components_from(emitted, code, own, start) {
        Ok(last) => Ok(last),
        Err(fault) => Err(fault),
    }
}

/// Reads elements that come next, up to the first one that isn't read at once, or into it.
#[inline(always)]
fn rows_from<'s, 'a, T: TokenSink<'a>>(
    emitted: &mut T,
    code: &Code,
    own: &Code,
    rows: Rows<'s>,
    start: InRows<'s, 'a>,
) -> Result<InRows<'s, 'a>, ReadFault>
    requires suits { T.suits emitted.old own.now }
    requires plain { ArePlain code.now own.now rows.fields.now }
    requires short { start.next.at + length start.next.octets.now ≤ 16777216 }
    requires routine { routine_at code.now rows.id.index ≡ HeadStep rows.head ∷ rows.fields.now }
    ensures ok { IfOk result (λ w. (a : State)
        → a.schema ≡ own.now
        → length a.values < 63
        → length a.outer < 399
        → MatchOption w.inside
        (Chain (ReadsElement (routine_at code.now) Takes rows.entry.id false)
        (moved a start.entry.next.octets.now start.entry.next.at (T.tokens emitted.old) start.entry.budget)
        (moved a w.next.octets.now w.next.at (T.tokens emitted.new) w.budget))
        (λ p. ReadsInto (routine_at code.now) Takes rows.entry.id p.0.now
        (moved a start.entry.next.octets.now start.entry.next.at (T.tokens emitted.old) start.entry.budget)
        (in_row a rows.entry.id w.next.octets.now w.next.at p.1.octets.now p.1.at (T.tokens emitted.new) w.budget))) }
    ensures short { IfOk result (λ w. w.next.at + length w.next.octets.now ≤ 16777216) }
    ensures inside { IfOk result (λ w. IfSome w.inside (λ p. p.1.at + length p.1.octets.now ≤ 16777216)) }
    ensures err { IfErr result (λ e. e ≡ Memory) }
    ensures suits { (s : List Resolved) → T.suits emitted.old s → T.suits emitted.new s }
{
    lemma_one_answer();
    let mut next = start.next;
    let mut budget = start.budget;
    while budget > 0 {
        let Some((contents, rest)) = short_unit(next.octets, rows.head.tag, Form::Constructed)
        else {
            break;
        };
        let first = InRow {
            left: rows.fields,
            here: ContentsLeft {
                octets: contents,
                at: next.at + 2,
            },
            budget: budget - 1,
        };
        let last = match row_from(emitted, code, own, rows.id, first) {
            Ok(last) => last,
            Err(fault) => return Err(fault),
        };
        next = ContentsLeft {
            octets: rest,
            at: next.at + (2 + contents.len()),
        };
        budget = last.budget;
        if !is_whole(last) {
            return Ok(InRows {
                next,
                budget,
                inside: Some((last.left, last.here)),
            });
        }
        emitted.emit(StructToken::Ended)?;
    }
    Ok(InRows {
        next,
        budget,
        inside: None,
    })
}

/// Goes into an element, to the contents that aren't read yet.
fn go_into<'c, 'a, T: TokenSink<'a>>(
    place: &mut ReaderState<'c, 'a, T>,
    id: TypeId,
    next: ContentsLeft<'a>,
    here: ContentsLeft<'a>,
) -> Result<(), ReadFault>
    requires within { IsValidState T.suits place.old }
    requires next { next.at + length next.octets.now ≤ 16777216 }
    requires here { here.at + length here.octets.now ≤ 16777216 }
    ensures within { IsValidState T.suits place.new }
    ensures ok { OnOk result (state_of T.tokens place.new
        ≡ in_row (state_of T.tokens place.old) id next.entry.octets.now next.entry.at here.entry.octets.now
        here.entry.at (T.tokens place.old.emitted) place.old.budget) }
    ensures err { IfErr result (λ e. e ≡ Memory) }
{
    add_one(&mut place.values, id)?;
    place.outer.push(OpenContents {
        form: place.here.form,
        octets: next.octets,
        at: next.at,
        from: place.here.from,
    })?;
    place.here = OpenContents {
        form: Form::Constructed,
        octets: here.octets,
        at: here.at,
        from: place.marks.len(),
    };
    Ok(())
}

/// Reads elements of a list that come next, each with a header of two octets and components that hold no others. The
/// result is None if all that were begun were read. If not, it is the steps that are left of the last one, in which the
/// place is then.
#[inline(never)]
pub fn small_rows<'s, 'c, 'a, T: TokenSink<'a>>(
    place: &mut ReaderState<'c, 'a, T>,
    code: &Code,
    rows: Rows<'s>,
) -> Result<Option<&'s [Step]>, ReadFault>
    requires within { IsValidState T.suits place.old }
    requires routine { routine_at code.now rows.id.index ≡ HeadStep rows.head ∷ rows.fields.now }
    ensures within { IsValidState T.suits place.new }
    ensures ok { IfOk result (λ o. MatchOption o
        (Chain (ReadsElement (routine_at code.now) Takes rows.entry.id false)
        (state_of T.tokens place.old) (state_of T.tokens place.new))
        (λ left. ReadsInto (routine_at code.now) Takes rows.entry.id left.now
        (state_of T.tokens place.old) (state_of T.tokens place.new))) }
    ensures err { IfErr result (λ e. e ≡ Memory) }
{
    if place.values.len() >= MAX_OPEN - 1 {
        return Ok(None);
    }
    if place.outer.len() >= MAX_HEADERS - 1 {
        return Ok(None);
    }
    let start = InRows {
        next: ContentsLeft {
            octets: place.here.octets,
            at: place.here.at,
        },
        budget: place.budget,
        inside: None,
    };
    let own = place.code;
    if !are_plain(code, own, rows.fields) {
        return Ok(None);
    }
    let read = match rows_from(&mut place.emitted, code, own, rows, start) {
        Ok(read) => read,
        Err(fault) => return Err(fault),
    };
    place.budget = read.budget;
    match read.inside {
        None => {
            place.here.octets = read.next.octets;
            place.here.at = read.next.at;
            Ok(None)
        }
        Some((left, here)) => match go_into(place, rows.id, read.next, here) {
            Ok(()) => Ok(Some(left)),
            Err(fault) => Err(fault),
        },
    }
}
