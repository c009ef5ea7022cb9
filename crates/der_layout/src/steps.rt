//! The effect of each event on the table.

ghost use Rattle.std.specs.Prelude.{◌≡◌, ◌-◌, ◌<◌, ◌++◌, ◌∷◌, [], ◌⊎◌, List, IfErr, IfOk, OnOk, ℕ};
ghost use Rattle.std.specs.Prelude.{false, flat_map, length, set, suc};
ghost use Rattle.asn_base.specs.Abstract.{abstract};
ghost use Rattle.encodings.specs.Leaves.{HasContents};
ghost use Rattle.codec_code.specs.Events.{by_octets, by_rank};
ghost use Rattle.codec_machine.specs.Frames.{HasNoContents};
ghost use Rattle.codec_machine.specs.declared.fault.RunFault.TheVariants.{NotOfType};
ghost use Rattle.octet_account.specs.Seen.{flat, flat_row};
ghost use Rattle.der_layout.specs.Rows.{IsPlain, listed};
ghost use Rattle.der_layout.specs.Tables.{ContentsAdded, GroupBegins, GroupEnds, HeaderCloses, HeaderOpens};
ghost use Rattle.der_layout.specs.Tables.{LeftOut, MemberEnds, MembersBegin, MembersEndIfAny, State, WholeAdded, state_of};
ghost use Rattle.der_layout.specs.Tables.{LeftPut, WholePut, open_of as open_of', within_row};
ghost use Rattle.codec_code.specs.declared.step.RowKind.TheVariants.{Sequence as SequenceRow};
ghost use Rattle.encodings.specs.Header.{identifier, septets};
ghost use Rattle.primitive_writer.specs.Pieces.{joined_pieces, short_octets};

use crate::arcs::push_arcs;
use crate::closing::close_length;
use crate::header::{one_identifier, push_header, push_opening, push_short};
use crate::places::{Arrangement, arrangement_of};
use crate::rows::{header_row, leaf_row, plain_row, sum};
use crate::sort::{sort_by_octets, sort_by_rank};
use crate::spans::put_members;
use crate::table::{Group, Member, Open, Table, add_one};
use asn_base::tag::Tag;
use asn_base::value::Value;
use codec_code::{Head, RowKind};
use codec_machine::{OpenRow, RunFault};
use encodings::LeafKind;
use octet_account::row::{Row, RowLayout};
use primitive_writer::law::lemma_one_contents;
use primitive_writer::{
    PrimitiveContents, ShortContents, octet_count, primitive_contents, primitive_len, push_leaf,
    short_contents, short_len,
};
use std::alloc::AllocError;

/// From this number of rows on, the account finds by itself how many rows a member has.
const MOST_ROWS: usize = 1 << 30;

#[inline(always)]
pub(crate) fn add_open(list: &mut Vec<Open>, one: Open) -> Result<(), AllocError>
    ensures { OnOk result (list.new.items ≡ list.old.items ++ one ∷ []) }
{
    add_one(list, one)
}

fn add_group(list: &mut Vec<Group>, one: Group) -> Result<(), AllocError>
    ensures { OnOk result (list.new.items ≡ list.old.items ++ one ∷ []) }
{
    add_one(list, one)
}

#[inline(always)]
fn add_member(list: &mut Vec<Member>, one: Member) -> Result<(), AllocError>
    ensures { OnOk result (list.new.items ≡ list.old.items ++ one ∷ []) }
{
    add_one(list, one)
}

#[inline(always)]
fn add_row(list: &mut Vec<Row>, listed: RowLayout) -> Result<(), AllocError>
    ensures { OnOk result (flat list.new.items ≡ flat list.old.items ++ flat_row listed ∷ []) }
{
    add_one(list, Row::of(listed))?;
    Ok(())
}

/// Adds a header, whose number of contents octets isn't known yet: one octet is held open for the length.
#[inline(always)]
pub(crate) fn open_header(table: &mut Table, head: Head) -> Result<(), AllocError>
    ensures { OnOk result (HeaderOpens head.tag head.constructed head.row (state_of table.old) (state_of table.new)) }
{
    let place = push_opening(&mut table.octets, head.tag, head.constructed)?;
    add_open(
        &mut table.opened,
        Open {
            place,
            row: table.rows.len(),
            head,
            members_before: table.members,
        },
    )?;
    add_row(&mut table.rows, RowLayout::Absent)?;
    table.members = 0;
    Ok(())
}

/// Adds the row of a component that isn't encoded.
#[inline(always)]
pub(crate) fn add_left_out(table: &mut Table, with_default: bool) -> Result<(), AllocError>
    ensures { OnOk result (LeftOut with_default (state_of table.old) (state_of table.new)) }
{
    put_left_out(table, with_default)?;
    table.members = sum(table.members, 1);
    Ok(())
}

/// The same without counting it as a member.
#[inline(always)]
pub(crate) fn put_left_out(table: &mut Table, with_default: bool) -> Result<(), AllocError>
    ensures { OnOk result (LeftPut with_default (state_of table.old) (state_of table.new)) }
{
    let listed = if with_default {
        RowLayout::Default
    } else {
        RowLayout::Absent
    };
    add_row(&mut table.rows, listed)?;
    Ok(())
}

/// In a SET or SET OF, begins the list of its members.
#[inline(always)]
pub(crate) fn begin_group(table: &mut Table, row: RowKind) -> Result<(), AllocError>
    ensures { OnOk result (GroupBegins row (state_of table.old) (state_of table.new)) }
{
    match row {
        RowKind::Set => begin_members(table),
        RowKind::SetOf => begin_members(table),
        RowKind::Leaf => Ok(()),
        RowKind::Wrap => Ok(()),
        RowKind::Sequence => Ok(()),
        RowKind::SequenceOf => Ok(()),
    }
}

fn begin_members(table: &mut Table) -> Result<(), AllocError>
    ensures { OnOk result (MembersBegin (state_of table.old) (state_of table.new)) }
{
    let place = table.octets.len();
    add_group(
        &mut table.groups,
        Group {
            start: place,
            next: place,
            members: Vec::new(table.alloc),
        },
    )?;
    Ok(())
}

/// Adds the contents of a value. `NotOfType`: the value has no contents of this kind.
pub(crate) fn add_contents(table: &mut Table, kind: LeafKind, value: &Value) -> Result<(), RunFault>
    ensures adds { OnOk result ((x : List ℕ) × HasContents kind (abstract value.now) x
        × ContentsAdded x (state_of table.old) (state_of table.new)) }
    ensures not_of_type { IfErr result (λ e. e ≡ NotOfType → HasNoContents kind (abstract value.now)) }
{
    match primitive_len(kind, value) {
        Some(_) => {
            push_leaf(kind, value, &mut table.octets)?;
            Ok(())
        }
        None => Err(RunFault::NotOfType),
    }
}

/// Adds a header, the contents of a value without other values in it, and the end of the header. `NotOfType`: the value
/// has no contents of this kind.
#[inline(always)]
pub(crate) fn add_whole(
    table: &mut Table,
    head: Head,
    kind: LeafKind,
    value: &Value,
) -> Result<(), RunFault>
    ensures adds { OnOk result ((x : List ℕ) × HasContents kind (abstract value.now) x
        × WholeAdded head x (state_of table.old) (state_of table.new)) }
    ensures not_of_type { IfErr result (λ e. e ≡ NotOfType → HasNoContents kind (abstract value.now)) }
{
    match put_whole(table, head, kind, value) {
        Ok(()) => {
            table.members = sum(table.members, 1);
            Ok(())
        }
        Err(fault) => Err(fault),
    }
}

/// The same without counting it as a member.
#[inline(always)]
pub(crate) fn put_whole(
    table: &mut Table,
    head: Head,
    kind: LeafKind,
    value: &Value,
) -> Result<(), RunFault>
    ensures adds { OnOk result ((x : List ℕ) × HasContents kind (abstract value.now) x
        × WholePut head x (state_of table.old) (state_of table.new)) }
    ensures not_of_type { IfErr result (λ e. e ≡ NotOfType → HasNoContents kind (abstract value.now)) }
{
    match one_identifier(head.tag, head.constructed) {
        Some(first) => match short_contents(kind, value) {
            Some(octets) => {
                add_short(table, head, first, octets)?;
                Ok(())
            }
            None => add_any(table, head, kind, value),
        },
        None => add_any(table, head, kind, value),
    }
}

/// Adds a header with one identifier octet around one to four contents octets, and the end of the header.
#[inline(always)]
fn add_short(
    table: &mut Table,
    head: Head,
    first: u8,
    octets: ShortContents,
) -> Result<(), AllocError>
    requires { identifier head.tag.class head.tag.number head.constructed ≡ first ∷ [] }
    ensures { OnOk result (WholePut head (short_octets octets) (state_of table.old) (state_of table.new)) }
{
    push_short(&mut table.octets, first, octets)?;
    add_row(
        &mut table.rows,
        leaf_row(head.tag, short_len(octets) as usize),
    )?;
    Ok(())
}

/// Adds a header, contents of any length, and the end of the header.
fn add_any(table: &mut Table, head: Head, kind: LeafKind, value: &Value) -> Result<(), RunFault>
    ensures adds { OnOk result ((x : List ℕ) × HasContents kind (abstract value.now) x
        × WholePut head x (state_of table.old) (state_of table.new)) }
    ensures not_of_type { IfErr result (λ e. e ≡ NotOfType → HasNoContents kind (abstract value.now)) }
{
    match primitive_contents(kind, value) {
        Some(PrimitiveContents::Arcs(first, others)) => {
            add_arcs(table, head, first, others)?;
            Ok(())
        }
        Some(octets) => {
            let contents = octet_count(&octets) as usize;
            push_header(
                &mut table.octets,
                head.tag,
                head.constructed,
                contents as u64,
            )?;
            push_contents(&mut table.octets, kind, value, &octets)?;
            add_row(&mut table.rows, leaf_row(head.tag, contents))?;
            Ok(())
        }
        None => Err(RunFault::NotOfType),
    }
}

/// Adds a header, numbers in septets as its contents, and the end of the header. One octet is held open for the length
/// until the numbers are added.
fn add_arcs(table: &mut Table, head: Head, first: u128, others: &[u64]) -> Result<(), AllocError>
    ensures { OnOk result (WholePut head (septets first ++ flat_map septets others.now)
        (state_of table.old) (state_of table.new)) }
{
    let place = push_opening(&mut table.octets, head.tag, head.constructed)?;
    push_arcs(&mut table.octets, first, others)?;
    let contents = table.octets.len() - place - 1;
    close_length(&mut table.octets, place)?;
    add_row(&mut table.rows, leaf_row(head.tag, contents))?;
    Ok(())
}

/// Adds the contents octets of a value, which are these.
fn push_contents(
    out: &mut Vec<u8>,
    kind: LeafKind,
    value: &Value,
    octets: &PrimitiveContents,
) -> Result<(), AllocError>
    requires { HasContents kind (abstract value.now) (joined_pieces octets.now) }
    ensures { OnOk result (out.new.items ≡ out.old.items ++ joined_pieces octets.now) }
{
    match octets {
        PrimitiveContents::One(octet) => out.extend_from_slice(&[*octet]),
        PrimitiveContents::Few(few) => out.extend_from_slice(few.as_slice()),
        PrimitiveContents::Whole(whole) => out.extend_from_slice(whole),
        _ => push_leaf(kind, value, out),
    }
}

/// In a SET or SET OF, makes the octets since the last member a member of it.
pub(crate) fn end_member(table: &mut Table, rank: usize) -> Result<(), AllocError>
    ensures { OnOk result (((state_of table.old).groups ≡ []) × (state_of table.old ≡ state_of table.new)
        ⊎ MemberEnds rank (state_of table.old) (state_of table.new)) }
{
    let end = table.octets.len();
    match table.groups.last_mut() {
        Some(group) => {
            let number = group.members.len();
            let member = Member {
                rank,
                number,
                start: group.next,
                end,
            };
            add_member(&mut group.members, member)?;
            group.next = end;
            Ok(())
        }
        None => Ok(()),
    }
}

/// Whether the members of such a header are put in an order. Otherwise nothing is to be done at its end.
#[inline(always)]
pub(crate) fn is_arranged(row: RowKind) -> bool
    ensures ends { result ≡ false → (a : State) → GroupEnds row [] [] a a }
    ensures plain { result ≡ false → IsPlain row }
{
    match row {
        RowKind::Set | RowKind::SetOf => true,
        RowKind::Leaf | RowKind::Wrap => false,
        RowKind::Sequence | RowKind::SequenceOf => false,
    }
}

/// Ends a SET or SET OF: the octets of its members are put in their order.
pub(crate) fn end_group(table: &mut Table, row: RowKind) -> Result<Arrangement, AllocError>
    ensures { IfOk result (λ r.
        GroupEnds row r.places.items r.inverse.items (state_of table.old) (state_of table.new)) }
{
    match row {
        RowKind::Set => end_set(table),
        RowKind::SetOf => end_set_of(table),
        RowKind::Leaf => Ok(Arrangement::none(table.alloc)),
        RowKind::Wrap => Ok(Arrangement::none(table.alloc)),
        RowKind::Sequence => Ok(Arrangement::none(table.alloc)),
        RowKind::SequenceOf => Ok(Arrangement::none(table.alloc)),
    }
}

fn end_set(table: &mut Table) -> Result<Arrangement, AllocError>
    ensures { IfOk result (λ r.
        MembersEndIfAny by_rank r.places.items r.inverse.items (state_of table.old) (state_of table.new)) }
{
    match table.groups.pop() {
        Some(group) => {
            let mut members = group.members;
            sort_by_rank(&mut members)?;
            let sorted = members.as_slice();
            let arrangement = arrangement_of(table.alloc, sorted)?;
            put_members(
                table.alloc,
                &mut table.octets,
                group.start,
                group.next,
                sorted,
            )?;
            Ok(arrangement)
        }
        None => Ok(Arrangement::none(table.alloc)),
    }
}

fn end_set_of(table: &mut Table) -> Result<Arrangement, AllocError>
    ensures { IfOk result (λ r.
        MembersEndIfAny by_octets r.places.items r.inverse.items (state_of table.old) (state_of table.new)) }
{
    match table.groups.pop() {
        Some(group) => {
            let mut members = group.members;
            let octets = table.octets.as_slice();
            sort_by_octets(table.alloc, octets, &mut members)?;
            let sorted = members.as_slice();
            let arrangement = arrangement_of(table.alloc, sorted)?;
            put_members(
                table.alloc,
                &mut table.octets,
                group.start,
                group.next,
                sorted,
            )?;
            Ok(arrangement)
        }
        None => Ok(Arrangement::none(table.alloc)),
    }
}

/// Replaces the row at a place, if there is one. It gets 0 as the number of its rows, so that the account finds it.
#[inline(always)]
fn put_row(rows: &mut Vec<Row>, place: usize, listed: RowLayout)
    ensures { flat rows.new.items ≡ set (flat rows.old.items) place (flat_row listed) }
{
    if place < rows.len() {
        rows[place] = Row::of(listed);
    }
}

/// The number of rows of a member, or 0 if there are too many: then the account finds it.
#[inline(always)]
fn known_span(count: usize) -> u32 {
    if count < MOST_ROWS { count as u32 } else { 0 }
}

/// Replaces the row at a place, if there is one. All rows after it are those of its members.
#[inline(always)]
fn put_last_row(rows: &mut Vec<Row>, place: usize, listed: RowLayout)
    ensures { flat rows.new.items ≡ set (flat rows.old.items) place (flat_row listed) }
{
    if place < rows.len() {
        let span = known_span(rows.len() - place);
        rows[place] = Row::spanning(listed, span);
    }
}

/// Closes a header: the header gets its length octets, and its row gets its numbers and members.
#[inline(always)]
pub(crate) fn close_header(
    table: &mut Table,
    one: Open,
    arrangement: Arrangement,
) -> Result<(), AllocError>
    ensures { one.place < length (state_of table.old).octets
        → OnOk result (HeaderCloses one arrangement.places.items arrangement.inverse.items
        (state_of table.old) (state_of table.new)) }
{
    if one.place < table.octets.len() {
        let contents = table.octets.len() - one.place - 1;
        let row = header_row(table.alloc, one.head, contents, table.members, arrangement)?;
        put_row(&mut table.rows, one.row, row);
        close_length(&mut table.octets, one.place)?;
        table.members = sum(one.members_before, 1);
    }
    Ok(())
}

/// Closes a header whose members aren't put in an order: the header gets its length octets, and its row gets its
/// numbers and members.
#[inline(always)]
pub(crate) fn close_plain(table: &mut Table, one: Open) -> Result<(), AllocError>
    requires { IsPlain one.head.row }
    ensures { one.place < length (state_of table.old).octets
        → OnOk result (HeaderCloses one [] [] (state_of table.old) (state_of table.new)) }
{
    if one.place < table.octets.len() {
        let contents = table.octets.len() - one.place - 1;
        let row = plain_row(one.head, contents, table.members);
        put_last_row(&mut table.rows, one.row, row);
        close_length(&mut table.octets, one.place)?;
        table.members = sum(one.members_before, 1);
    }
    Ok(())
}

/// The header of an open row, as it is among the open headers. `members_before` is how many members are before it.
#[inline(always)]
pub(crate) fn open_of(row: OpenRow, members_before: usize) -> Open
    ensures same { result ≡ open_of' row members_before }
    ensures plain { IsPlain result.head.row }
{
    Open {
        place: row.place,
        row: row.row,
        head: Head {
            tag: row.tag,
            constructed: row.constructed,
            row: RowKind::Sequence,
        },
        members_before,
    }
}

/// Opens the header of a SEQUENCE, but not among the open headers.
#[inline(always)]
pub(crate) fn open_apart(
    table: &mut Table,
    tag: Tag,
    constructed: bool,
) -> Result<OpenRow, AllocError>
    ensures opens { IfOk result (λ row. HeaderOpens tag constructed SequenceRow (state_of table.old)
        (within_row row (state_of table.new))) }
    ensures placed { IfOk result (λ row. row.row < length (state_of table.new).rows) }
{
    let place = push_opening(&mut table.octets, tag, constructed)?;
    let row = table.rows.len();
    add_row(&mut table.rows, RowLayout::Absent)?;
    Ok(OpenRow {
        tag,
        constructed,
        place,
        row,
    })
}

/// How many members an open row has if there are so many rows: each has one row.
#[inline(always)]
pub(crate) fn members_in(row: OpenRow, rows: usize) -> usize
    ensures { result ≡ listed (rows - suc row.row) }
{
    if row.row < rows {
        sum(rows - row.row - 1, 0)
    } else {
        0
    }
}
