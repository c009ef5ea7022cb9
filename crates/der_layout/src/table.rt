//! The table while a routine runs.

ghost use Rattle.std.specs.Prelude.{◌≡◌, ◌<◌, ◌++◌, ◌∷◌, [], OnOk, vec_capacity, vec_len};

use codec_code::Head;
use octet_account::row::Row;
use std::alloc::{AllocError, Global};

/// An open header: the place of the octet that is held open for its length, the place of its row, and how many members
/// are before it within the header around it.
#[derive(Clone, Copy)]
pub(crate) struct Open {
    pub place: usize,
    pub row: usize,
    pub head: Head,
    pub members_before: usize,
}

/// A member of a SET OF, or a component of a SET with its rank. It has its number among the encoded ones, and the
/// places in the list of octets at which it starts and ends.
#[derive(Clone, Copy)]
pub(crate) struct Member {
    pub rank: usize,
    pub number: usize,
    pub start: usize,
    pub end: usize,
}

/// An open SET or SET OF: its members so far, where the first one starts, and where the next one starts.
#[derive(Drop)]
pub(crate) struct Group {
    pub start: usize,
    pub next: usize,
    pub members: Vec<Member>,
}

/// The octets and rows so far, and the open headers, SETs and SET OFs. `members` is how many members the innermost open
/// header has, where 16,777,217 means that number or any greater one.
#[derive(Drop)]
pub struct Table {
    pub(crate) alloc: Global,
    pub(crate) octets: Vec<u8>,
    pub(crate) opened: Vec<Open>,
    pub(crate) groups: Vec<Group>,
    pub(crate) rows: Vec<Row>,
    pub(crate) members: usize,
}

/// How many octets there is room for at first, for each row.
const OCTETS_A_ROW: usize = 4;

impl Table {
    /// An empty table, with room for this number of rows and for a few octets each if there is memory for them.
    pub(crate) fn new(alloc: Global, rows: usize) -> Self
        ensures octets { result.octets.items ≡ [] }
        ensures opened { result.opened.items ≡ [] }
        ensures groups { result.groups.items ≡ [] }
        ensures rows { result.rows.items ≡ [] }
        ensures members { result.members ≡ 0 }
    {
        Table {
            alloc,
            octets: with_room(alloc, rows.saturating_mul(OCTETS_A_ROW)),
            opened: Vec::new(alloc),
            groups: Vec::new(alloc),
            rows: with_room(alloc, rows),
            members: 0,
        }
    }
}

/// An empty list, with room for this number of elements if there is memory for them.
pub(crate) fn with_room<T: Drop>(alloc: Global, room: usize) -> Vec<T>
    ensures { result.items ≡ [] }
{
    match Vec::with_capacity(alloc, room) {
        Ok(list) => list,
        Err(_) => Vec::new(alloc),
    }
}

/// Makes room for one more element, if there is none. `AllocError` only if an allocation fails.
#[inline(always)]
fn make_room<T: Drop>(list: &mut Vec<T>) -> Result<(), AllocError>
    ensures room { OnOk result (vec_len list.new < vec_capacity list.new) }
    ensures items { list.new.items ≡ list.old.items }
{
    if list.len() >= list.capacity() {
        list.reserve(1)?;
    }
    Ok(())
}

/// Adds an element. `AllocError` only if an allocation fails. The test for room is a part of the caller, which `push`
/// isn't.
#[inline(always)]
pub(crate) fn add_one<T: Drop>(list: &mut Vec<T>, one: T) -> Result<(), AllocError>
    ensures { OnOk result (list.new.items ≡ list.old.items ++ one ∷ []) }
{
    make_room(list)?;
    list.push_reserved(one);
    Ok(())
}
