//! What named values come to, found once for all notations of some modules.

ghost use Rattle.std.specs.Prelude.{◌≡◌, ◌≤◌, ◌<◌, ℕ, [], true, IfOk, IfSome, length};
ghost use Rattle.typed_values.specs.Chains.{HasTurn};
ghost use Rattle.typed_values.specs.Known.{ComesTo};
ghost use Rattle.typed_values.specs.proving.Turns.{AreAlike, AreLower, AreTrue};

use crate::chained::is_reference;
use asn_base::schema::TypeId;
use std::alloc::{AllocError, Global};
use std::collections::BTreeMap;
use values::constraints::Bounded;

/// The turn of a value that was not read to its end yet, or that the table has no place for.
pub(crate) const UNREAD: u32 = 4_294_967_295;

/// The most entries of a table.
const MOST_ENTRIES: usize = 1_048_576;

/// How many entries the table may have for each value assignment if it notes entries of all kinds.
const MANY_ENTRIES: usize = 4;

/// How many names lead from an entry on a chain of names to the next one that is noted.
const NOTED_APART: usize = 8;

/// What the notation of a value assignment stands for under a type: a value with so many levels and nodes.
#[derive(Clone, Copy)]
pub struct NamedValue {
    /// The number of the value assignment.
    pub(crate) number: usize,
    /// The number of the type.
    pub(crate) ty: usize,
    pub(crate) levels: u8,
    pub(crate) nodes: u32,
    /// The latest turn of the value assignments to which the notation leads.
    pub(crate) latest: u32,
}

/// What named values come to, as far as they were read already. Value assignments get their turns in the order in which
/// they are first read to their end. So a value that is being read is none to which an entry leads, if its turn comes
/// after the latest one of the entry.
pub struct NamedValues {
    /// The turns, by the numbers of the value assignments. The table of a single notation has none.
    turns: Vec<u32>,
    /// The next turn.
    next: u32,
    /// The latest turn of a value that was named since a count started.
    latest: u32,
    entries: Vec<NamedValue>,
    /// The places of entries, by the numbers of their value assignments and of what the constraints of their types
    /// leave.
    places: BTreeMap<(usize, usize), usize>,
    /// Whether an entry was not noted, because there was not enough memory.
    lacks_memory: bool,
}

/// The earlier one of two turns.
fn earlier(one: u32, other: u32) -> u32
    ensures { result ≤ one }
{
    one.min(other)
}

/// The later one of two turns.
pub(crate) fn later(one: u32, other: u32) -> u32
    ensures one { one ≤ result }
    ensures other { other ≤ result }
{
    one.max(other)
}

/// Whether references and tags lead from two types to one, and their constraints are known to allow the same.
fn are_alike(bounded: &Bounded<'_>, one: TypeId, other: TypeId) -> bool
    requires one { one.index < length bounded.now.program.types }
    requires other { other.index < length bounded.now.program.types }
    ensures { result ≡ true → AreAlike bounded.now.program one.index other.index }
{
    let linked = bounded.linked();
    let core = linked.core(one);
    let same = linked.core(other);
    core.index == same.index && bounded.leave_the_same(one, other)
}

/// Whether the notation of a value assignment is a name, of whatever kind.
fn is_name(bounded: &Bounded<'_>, number: usize) -> bool {
    let values = bounded.linked().values();
    number < values.len() && is_reference(&values[number].syntax)
}

/// How many names lead from a value assignment to what was known before, if `closed` others after it were read: none if
/// its notation is no name.
pub(crate) fn names_after(bounded: &Bounded<'_>, number: usize, closed: usize) -> usize {
    if is_name(bounded, number) {
        closed.saturating_add(1)
    } else {
        0
    }
}

impl NamedValues {
    /// The table of modules of which no value assignment was read yet.
    pub(crate) fn of(alloc: Global, bounded: &Bounded<'_>) -> Result<Self, AllocError>
        ensures { IfOk result (λ n. n.entries.items ≡ []) }
    {
        let count = bounded.linked().values().len();
        Ok(NamedValues {
            turns: vec![in alloc; UNREAD; count]?,
            next: 0,
            latest: 0,
            entries: Vec::new(alloc),
            places: BTreeMap::new(alloc),
            lacks_memory: false,
        })
    }

    /// A table without turns, which notes no entries. It takes no memory.
    pub(crate) fn unturned(alloc: Global) -> Self
        ensures { result.entries.items ≡ [] }
    {
        NamedValues {
            turns: Vec::new(alloc),
            next: 0,
            latest: 0,
            entries: Vec::new(alloc),
            places: BTreeMap::new(alloc),
            lacks_memory: false,
        }
    }

    /// Whether an entry was not noted, because there was not enough memory.
    pub(crate) fn lacks_memory(&self) -> bool {
        self.lacks_memory
    }

    /// The turns, by the numbers of the value assignments.
    pub(crate) fn turns(&self) -> &[u32]
        ensures { result.now ≡ self.now.turns.items }
    {
        self.turns.as_slice()
    }

    /// The turn of a value assignment.
    pub(crate) fn turn(&self, number: usize) -> u32
        ensures { HasTurn self.now.turns.items number result }
    {
        if number < self.turns.len() {
            self.turns[number]
        } else {
            UNREAD
        }
    }

    /// The latest turn of a value that was named since the count started.
    pub(crate) fn latest(&self) -> u32
        ensures { result ≡ self.now.latest }
    {
        self.latest
    }

    /// Starts a new count of turns; returns the latest turn of the count before.
    pub(crate) fn begin(&mut self) -> u32
        ensures before { result ≡ self.old.latest }
        ensures turns { self.new.turns ≡ self.old.turns }
        ensures entries { self.new.entries ≡ self.old.entries }
    {
        let before = self.latest;
        self.latest = 0;
        before
    }

    /// Counts a turn.
    pub(crate) fn pass(&mut self, turn: u32)
        ensures turn { turn ≤ self.new.latest }
        ensures latest { self.old.latest ≤ self.new.latest }
        ensures turns { self.new.turns ≡ self.old.turns }
        ensures entries { self.new.entries ≡ self.old.entries }
    {
        self.latest = later(self.latest, turn);
    }

    /// Gives a value assignment the next turn, if it has none yet and there are more. Returns its turn.
    fn give_turn(&mut self, number: usize) -> u32
        ensures lower { AreLower self.old.turns.items self.new.turns.items }
        ensures has { HasTurn self.new.turns.items number result }
        ensures latest { self.new.latest ≡ self.old.latest }
        ensures entries { self.new.entries ≡ self.old.entries }
    {
        if number >= self.turns.len() {
            return UNREAD;
        }
        let had = self.turns[number];
        if had < UNREAD {
            return had;
        }
        let turn = earlier(had, self.next);
        self.turns[number] = turn;
        self.next = later(self.next, turn.saturating_add(1));
        turn
    }

    /// Gives a value assignment the next turn, if it has none yet and there are more. Returns its turn, or `latest` if
    /// that is later.
    pub(crate) fn take_turn(&mut self, number: usize, latest: u32) -> u32
        ensures lower { AreLower self.old.turns.items self.new.turns.items }
        ensures counted { (t : ℕ) × HasTurn self.new.turns.items number t × (t ≤ result) }
        ensures most { latest ≤ result }
        ensures latest { self.new.latest ≡ self.old.latest }
        ensures entries { self.new.entries ≡ self.old.entries }
    {
        later(latest, self.give_turn(number))
    }

    /// Ends the reading of a value assignment, which takes its turn. The turn is counted.
    pub(crate) fn close(&mut self, number: usize)
        ensures lower { AreLower self.old.turns.items self.new.turns.items }
        ensures counted { (t : ℕ) × HasTurn self.new.turns.items number t × (t ≤ self.new.latest) }
        ensures latest { self.old.latest ≤ self.new.latest }
        ensures entries { self.new.entries ≡ self.old.entries }
    {
        let latest = self.latest;
        self.latest = self.take_turn(number, latest);
    }

    /// What a value assignment comes to under a type, if the table says so.
    pub(crate) fn entry(
        &self,
        bounded: &Bounded<'_>,
        number: usize,
        ty: TypeId,
    ) -> Option<NamedValue>
        requires there { ty.index < length bounded.now.program.types }
        requires known { AreTrue bounded.now.program self.now }
        ensures comes { IfSome result (ComesTo bounded.now.program self.now.turns.items) }
        ensures number { IfSome result (λ e. e.number ≡ number) }
        ensures ty { IfSome result (λ e. e.ty ≡ ty.index) }
    {
        let Some(place) = self.place(bounded, number, ty) else {
            return None;
        };
        if place >= self.entries.len() {
            return None;
        }
        let entry = self.entries[place];
        let found = TypeId { index: entry.ty };
        if entry.number != number || !bounded.has(found) || !are_alike(bounded, found, ty) {
            return None;
        }
        Some(NamedValue {
            number,
            ty: ty.index,
            levels: entry.levels,
            nodes: entry.nodes,
            latest: entry.latest,
        })
    }

    /// The place where the entry of a value assignment under a type is, if there is one.
    fn place(&self, bounded: &Bounded<'_>, number: usize, ty: TypeId) -> Option<usize> {
        let Some(limit) = bounded.limit_number(ty) else {
            return None;
        };
        self.places.get(&(number, limit)).copied()
    }

    /// Whether the table has such an entry already, whose latest turn is no later.
    fn has(&self, bounded: &Bounded<'_>, entry: NamedValue) -> bool {
        let ty = TypeId { index: entry.ty };
        match self.place(bounded, entry.number, ty) {
            None => false,
            Some(place) => {
                place < self.entries.len() && self.entries[place].latest <= entry.latest
            }
        }
    }

    /// Whether the table may take one more entry. So many names lead from its value assignment to what was known
    /// before. Of the value assignments on a chain of names one in eight is noted, and only while there are few
    /// entries. So a chain that is read under many types leaves few entries for each of them.
    fn may_note(&self, names: usize) -> bool {
        self.entries.len() < MOST_ENTRIES
            && (names == 0 || (names % NOTED_APART == 0 && self.has_few()))
    }

    /// Whether the table has few entries, so that it takes those of value assignments on chains of names.
    pub(crate) fn has_few(&self) -> bool {
        self.entries.len() / MANY_ENTRIES < self.turns.len()
    }

    /// Notes what a value assignment comes to under a type, if the table may take one more entry. So many names lead
    /// from the value assignment to what was known before. An entry with the last turn of all isn't noted, since it
    /// can't be used. If there is not enough memory, the table says so from now on.
    pub(crate) fn note(&mut self, bounded: &Bounded<'_>, entry: NamedValue, names: usize)
        requires known { AreTrue bounded.now.program self.old }
        requires comes { ComesTo bounded.now.program self.old.turns.items entry }
        ensures known { AreTrue bounded.now.program self.new }
        ensures turns { self.new.turns ≡ self.old.turns }
        ensures latest { self.new.latest ≡ self.old.latest }
    {
        if entry.latest == UNREAD || !self.may_note(names) || self.has(bounded, entry) {
            return;
        }
        let place = self.entries.len();
        if self.add(bounded, entry) {
            self.keep(bounded, entry, place);
        }
    }

    /// Adds an entry. If there is not enough memory, the result is false, and the table says so from now on.
    fn add(&mut self, bounded: &Bounded<'_>, entry: NamedValue) -> bool
        requires known { AreTrue bounded.now.program self.old }
        requires comes { ComesTo bounded.now.program self.old.turns.items entry }
        ensures known { AreTrue bounded.now.program self.new }
        ensures turns { self.new.turns ≡ self.old.turns }
        ensures latest { self.new.latest ≡ self.old.latest }
    {
        match self.entries.push(entry) {
            Ok(()) => true,
            Err(_) => {
                self.lacks_memory = true;
                false
            }
        }
    }

    /// Keeps the place of an entry. If there is not enough memory, the table says so from now on.
    fn keep(&mut self, bounded: &Bounded<'_>, entry: NamedValue, place: usize)
        ensures entries { self.new.entries ≡ self.old.entries }
        ensures turns { self.new.turns ≡ self.old.turns }
        ensures latest { self.new.latest ≡ self.old.latest }
    {
        let ty = TypeId { index: entry.ty };
        let Some(limit) = bounded.limit_number(ty) else {
            return;
        };
        match self.places.insert((entry.number, limit), place) {
            Ok(_) => {}
            Err(_) => self.lacks_memory = true,
        }
    }
}

impl Drop for NamedValues {
    fn drop(self) {
        let NamedValues {
            turns: _,
            next: _,
            latest: _,
            entries: _,
            places: _,
            lacks_memory: _,
        } = self;
    }
}
