//! Values to which chains of names lead.

ghost use Rattle.std.specs.Prelude.{◌≡◌, ◌≤◌, ◌<◌, [], true, IfSome, length};
ghost use Rattle.trees.specs.Types.{Plain, plain_of};
ghost use Rattle.trees.specs.Values.{Name};
ghost use Rattle.range_ends.specs.Ends.{IsTypeOfKind};
ghost use Rattle.typed_values.specs.Faults.{HasKindIn};
ghost use Rattle.value_notations.specs.References.{own_names};
ghost use Rattle.type_table.specs.Seen.{kind_of};
ghost use Rattle.type_table.specs.Table.{simple as simple'};
ghost use Rattle.names.specs.Modules.{OccursIn};
ghost use Rattle.typed_values.specs.Chains.{LeadsUnder};
ghost use Rattle.typed_values.specs.Known.{AreKnown, ComesTo};
ghost use Rattle.typed_values.specs.proving.Reading.{GoesOn, IsLater, IsReadItself, IsReady};
ghost use Rattle.typed_values.specs.proving.Stopping.{GoesOnBy, IsLastUnder};
ghost use Rattle.typed_values.specs.proving.Turns.{AreLower};

use crate::chains::{NameChain, next_at, next_nameless};
use crate::fault::ValueSite;
use crate::followed::LastNotation;
use crate::levels::Defaults;
use crate::named::{NamedValue, UNREAD, later};
use crate::reader::{NotationReader, ReadAlone};
use crate::simple::simple_value;
use crate::written::written;
use asn_base::schema::TypeId;
use resolve::{Linked, NamedShape};
use std::alloc::Global;
use trees::{Simple, ValueForm, ValueSyntax};
use type_table::Shape;
use value_notations::opened::Opened;
use value_notations::references::{Next, next_of, notation_at};
use values::constraints::Bounded;

/// How many value assignments a chain has at least if it is foreseen under a type that holds others.
const LONG_CHAIN: usize = 64;

/// How many names a type may have if a chain is searched for them at once.
const FEW_NAMES: usize = 16;

/// How many names a type of this shape has of its own, if it has many; 0 if these are few.
fn many_names(shape: &Shape) -> usize {
    let Shape::Simple(simple) = shape else {
        return 0;
    };
    let names = match simple {
        Simple::Integer(numbers) => numbers.len(),
        Simple::Enumerated(given) => match &given.additions {
            None => given.root.len(),
            Some(additions) => given.root.len().saturating_add(additions.len()),
        },
        _ => 0,
    };
    if names > FEW_NAMES { names } else { 0 }
}

/// A value assignment to which a name leads.
#[derive(Clone, Copy)]
pub(crate) struct Reached {
    pub(crate) number: usize,
    /// Whether the chain of names from it is searched for the names of the type.
    pub(crate) is_searched: bool,
}

/// The empty chain before a value assignment.
fn no_chain(number: usize) -> NameChain
    ensures { result ≡
        record { number = number; end = number; latest = 0; earliest = 4294967295; count = 0; names = 0 } }
{
    NameChain {
        number,
        end: number,
        latest: 0,
        earliest: UNREAD,
        count: 0,
        names: 0,
    }
}

/// The earliest turn of the value assignments before the last one of a chain, after one more with a turn. None if that
/// has the last turn of all.
fn earliest_with(rest: NameChain, number: usize, turn: u32) -> Option<u32>
    ensures less { IfSome result (λ e. e ≤ rest.earliest) }
    ensures given { IfSome result (λ e. (number ≡ rest.end → ⊥) → turn < 4294967295) }
    ensures since { IfSome result (λ e. (number ≡ rest.end → ⊥) → e ≤ turn) }
{
    if number == rest.end {
        return Some(rest.earliest);
    }
    if turn >= UNREAD {
        return None;
    }
    Some(rest.earliest.min(turn))
}

/// Whether a notation is a name, of whatever kind.
pub(crate) fn is_reference(notation: &ValueSyntax) -> bool {
    match &notation.form {
        ValueForm::Reference(_) => true,
        _ => false,
    }
}

/// Whether a type of a shape holds others. It has no names of its own then.
fn holds_others(shape: &Shape) -> bool
    ensures { result ≡ true → own_names (kind_of shape.now) ≡ [] }
{
    match shape {
        Shape::Elements(_, _) => true,
        Shape::Members(_, _, _) => true,
        Shape::Simple(_) => false,
        Shape::Reference(_) => false,
        Shape::Tagged(_, _, _) => false,
    }
}

/// Whether there is a value assignment of a number whose notation is none of a value's names under a type of a shape.
fn is_last(linked: &Linked, opened: &Opened, shape: &NamedShape<'_>, number: usize) -> bool
    ensures inside { result ≡ true → number < length linked.now.program.values }
    ensures own { result ≡ true → IsLastUnder linked.now.program (kind_of shape.now) number }
{
    if number >= linked.values().len() {
        return false;
    }
    match next_at(linked, opened, shape, number) {
        Next::Itself => true,
        Next::Referred(_) | Next::Nothing | Next::Again(_) => false,
    }
}

impl Defaults {
    /// How many value assignments of a chain are followed before the chain is searched for the names of a type of this
    /// shape: as many as the type has names, since the search takes as long. It is searched at once if the names are
    /// few, or if those that are followed can't be noted.
    fn steps_before_search(&self, shape: &Shape) -> usize {
        if self.named.has_few() {
            many_names(shape)
        } else {
            0
        }
    }

    /// Whether a chain is searched for the names of a type of this shape, after `step` value assignments that were
    /// followed. It is searched once for as many value assignments as the type has names.
    pub(crate) fn is_search_step(&self, shape: &Shape, step: usize) -> bool {
        let apart = self.steps_before_search(shape);
        apart == 0 || step % apart == apart - 1
    }

    /// What a value assignment comes to under a type, if the tables say so.
    pub(crate) fn entry(
        &self,
        bounded: &Bounded<'_>,
        opened: &Opened,
        number: usize,
        ty: TypeId,
    ) -> Option<NamedValue>
        requires there { ty.index < length bounded.now.program.types }
        requires known { AreKnown bounded.now.program self.now }
        ensures comes { IfSome result (ComesTo bounded.now.program self.now.named.turns.items) }
        ensures number { IfSome result (λ e. e.number ≡ number) }
        ensures ty { IfSome result (λ e. e.ty ≡ ty.index) }
    {
        match self.named.entry(bounded, number, ty) {
            Some(entry) => Some(entry),
            None => match self.chained(bounded, opened, number, ty) {
                Some(entry) => Some(entry),
                None => self.chained_whole(bounded, opened, number, ty),
            },
        }
    }

    /// What a value assignment that was reached comes to under a type, if the tables say so.
    pub(crate) fn entry_on_way(
        &self,
        bounded: &Bounded<'_>,
        opened: &Opened,
        ty: TypeId,
        reached: Reached,
    ) -> Option<NamedValue>
        requires there { ty.index < length bounded.now.program.types }
        requires known { AreKnown bounded.now.program self.now }
        ensures comes { IfSome result (ComesTo bounded.now.program self.now.named.turns.items) }
        ensures number { IfSome result (λ e. e.number ≡ reached.number) }
        ensures ty { IfSome result (λ e. e.ty ≡ ty.index) }
    {
        if reached.is_searched {
            self.entry(bounded, opened, reached.number, ty)
        } else {
            self.named.entry(bounded, reached.number, ty)
        }
    }

    /// What a value assignment comes to under a type that holds others, if a chain of names leads from it to one of
    /// which the table says it. No value on the way may be one to which the notation of the last one leads, so their
    /// turns must be later.
    fn chained_whole(
        &self,
        bounded: &Bounded<'_>,
        opened: &Opened,
        number: usize,
        ty: TypeId,
    ) -> Option<NamedValue>
        requires there { ty.index < length bounded.now.program.types }
        requires known { AreKnown bounded.now.program self.now }
        ensures comes { IfSome result (ComesTo bounded.now.program self.now.named.turns.items) }
        ensures number { IfSome result (λ e. e.number ≡ number) }
        ensures ty { IfSome result (λ e. e.ty ≡ ty.index) }
    {
        let Some(chain) = self.chains.get(number) else {
            return None;
        };
        let (shape, _home) = written(bounded.linked(), ty);
        if !self.leads_whole(bounded, opened, chain, &shape) {
            return None;
        }
        let Some(entry) = self.named.entry(bounded, chain.end, ty) else {
            return None;
        };
        if entry.latest >= chain.earliest {
            return None;
        }
        Some(NamedValue {
            number,
            ty: ty.index,
            levels: entry.levels,
            nodes: entry.nodes,
            latest: later(chain.latest, entry.latest),
        })
    }

    /// Whether a chain leads to its last value assignment under a type of a shape, which holds others.
    fn leads_whole(
        &self,
        bounded: &Bounded<'_>,
        opened: &Opened,
        chain: NameChain,
        shape: &NamedShape<'_>,
    ) -> bool
        requires known { AreKnown bounded.now.program self.now }
        requires chain { OccursIn self.now.chains.chains.items chain }
        ensures { result ≡ true →
            LeadsUnder bounded.now.program self.now.named.turns.items (kind_of shape.now) chain chain.end }
    {
        holds_others(shape.shape()) && is_last(bounded.linked(), opened, shape, chain.end)
    }

    /// What a value assignment comes to under a type, if names lead from it to another one of which the table says it.
    fn chained(
        &self,
        bounded: &Bounded<'_>,
        opened: &Opened,
        number: usize,
        ty: TypeId,
    ) -> Option<NamedValue>
        requires there { ty.index < length bounded.now.program.types }
        requires known { AreKnown bounded.now.program self.now }
        ensures comes { IfSome result (ComesTo bounded.now.program self.now.named.turns.items) }
        ensures number { IfSome result (λ e. e.number ≡ number) }
        ensures ty { IfSome result (λ e. e.ty ≡ ty.index) }
    {
        let Some(chain) = self.chains.get(number) else {
            return None;
        };
        let (shape, _home) = written(bounded.linked(), ty);
        let Some(end) = self.end_under(bounded, opened, chain, &shape) else {
            return None;
        };
        let Some(entry) = self.named.entry(bounded, end, ty) else {
            return None;
        };
        Some(NamedValue {
            number,
            ty: ty.index,
            levels: entry.levels,
            nodes: entry.nodes,
            latest: chain.latest,
        })
    }

    /// The number of the value assignment at which a chain ends under a type of a shape, if the type holds no others.
    /// The chain is searched for each name of the type.
    fn end_under(
        &self,
        bounded: &Bounded<'_>,
        opened: &Opened,
        chain: NameChain,
        shape: &NamedShape<'_>,
    ) -> Option<usize>
        requires known { AreKnown bounded.now.program self.now }
        requires chain { OccursIn self.now.chains.chains.items chain }
        ensures leads { IfSome result
            (LeadsUnder bounded.now.program self.now.named.turns.items (kind_of shape.now) chain) }
        ensures inside { IfSome result (λ end. end < length bounded.now.program.values) }
        ensures plain { IfSome result (λ end. (k : Plain) × (kind_of shape.now ≡ simple' k)) }
    {
        let Shape::Simple(simple) = shape.shape() else {
            return None;
        };
        let stop = self.chains.stop(chain, simple);
        if is_last(bounded.linked(), opened, shape, stop.number) {
            Some(stop.number)
        } else {
            None
        }
    }

    /// Whether the table says what a value assignment comes to, or its notation is a name of another one of which the
    /// table says it.
    fn knows(&self, bounded: &Bounded<'_>, opened: &Opened, number: usize, ty: TypeId) -> bool
        requires there { ty.index < length bounded.now.program.types }
        requires inside { number < length bounded.now.program.values }
        requires known { AreKnown bounded.now.program self.now }
    {
        self.entry(bounded, opened, number, ty).is_some()
            || self.knows_next(bounded, opened, number, ty)
    }

    /// Whether the notation of a value assignment is a name of another one, of which the table says what it comes to.
    fn knows_next(&self, bounded: &Bounded<'_>, opened: &Opened, number: usize, ty: TypeId) -> bool
        requires there { ty.index < length bounded.now.program.types }
        requires inside { number < length bounded.now.program.values }
        requires known { AreKnown bounded.now.program self.now }
    {
        let linked = bounded.linked();
        let (shape, _home) = written(linked, ty);
        match next_at(linked, opened, &shape, number) {
            Next::Referred(next) => self.named.entry(bounded, next, ty).is_some(),
            Next::Itself | Next::Nothing | Next::Again(_) => false,
        }
    }

    /// Whether a chain of names from a value assignment ends, or reaches one that the table knows under this type,
    /// before the chain is searched for the names of the type.
    fn is_near(&self, bounded: &Bounded<'_>, opened: &Opened, number: usize, ty: TypeId) -> bool
        requires there { ty.index < length bounded.now.program.types }
        requires inside { number < length bounded.now.program.values }
        requires known { AreKnown bounded.now.program self.now }
    {
        let linked = bounded.linked();
        let (shape, _home) = written(linked, ty);
        let mut at = number;
        for step in 0..self.steps_before_search(shape.shape()) {
            if self.named.entry(bounded, at, ty).is_some() {
                return true;
            }
            let Next::Referred(next) = next_at(linked, opened, &shape, at) else {
                return true;
            };
            at = next;
        }
        false
    }

    /// Keeps the chain from a value assignment, which gets its turn. `rest` is the chain from the next one, or it is
    /// empty.
    fn keep(&mut self, bounded: &Bounded<'_>, number: usize, rest: NameChain)
        requires there { number < length bounded.now.program.values }
        requires known { AreKnown bounded.now.program self.old }
        requires goes { GoesOnBy bounded.now.program self.old.named.turns.items self.old.chains number rest }
        ensures known { AreKnown bounded.now.program self.new }
        ensures later { IsLater self.old self.new }
        ensures lowest { self.new.lowest ≡ self.old.lowest }
    {
        let latest = self.named.take_turn(number, rest.latest);
        let Some(earliest) = earliest_with(rest, number, self.named.turn(number)) else {
            return;
        };
        let (_, notation) = notation_at(bounded.linked(), number);
        let rest = NameChain {
            latest,
            earliest,
            ..rest
        };
        self.chains.grow(rest, number, notation);
    }

    /// The chain that goes on from the notation of a value assignment: an empty one if that is no name of a value. None
    /// if it is a name from which no chain is found, or none without the value assignment itself.
    fn rest_after(&self, bounded: &Bounded<'_>, opened: &Opened, number: usize) -> Option<NameChain>
        requires there { number < length bounded.now.program.values }
        requires known { AreKnown bounded.now.program self.now }
        ensures { IfSome result
            (GoesOnBy bounded.now.program self.now.named.turns.items self.now.chains number) }
    {
        match next_nameless(bounded.linked(), opened, number) {
            Next::Itself => Some(no_chain(number)),
            Next::Nothing => Some(no_chain(number)),
            Next::Referred(next) => {
                let Some(chain) = self.chains.get(next) else {
                    return None;
                };
                if self.named.turn(number) > chain.latest {
                    Some(chain)
                } else {
                    None
                }
            }
            Next::Again(_) => None,
        }
    }

    /// Finds the chain from a value assignment, if its notation is no name of a value, or a name from which the chain
    /// is found.
    #[tactic(auto, using(crate::proofs::Found::later_same, crate::proofs::Going::not_moved))]
    fn settle(&mut self, bounded: &Bounded<'_>, opened: &Opened, number: usize)
        requires known { AreKnown bounded.now.program self.old }
        ensures known { AreKnown bounded.now.program self.new }
        ensures later { IsLater self.old self.new }
        ensures lowest { self.new.lowest ≡ self.old.lowest }
    {
        if number >= bounded.linked().values().len() {
            return;
        }
        let Some(rest) = self.rest_after(bounded, opened, number) else {
            return;
        };
        self.keep(bounded, number, rest);
    }

    /// The value assignments from one on, as [`NameChains::walk`] returns them.
    #[tactic(auto, using(crate::proofs::Found::later_same))]
    pub(crate) fn path_from(
        &mut self,
        alloc: Global,
        bounded: &Bounded<'_>,
        opened: &Opened,
        number: usize,
    ) -> Vec<usize>
        requires there { number < length bounded.now.program.values }
        requires known { AreKnown bounded.now.program self.old }
        ensures known { AreKnown bounded.now.program self.new }
        ensures later { IsLater self.old self.new }
        ensures lowest { self.new.lowest ≡ self.old.lowest }
    {
        self.chains.walk(alloc, bounded.linked(), opened, number)
    }

    /// Finds the chains from value assignments, from the last one on.
    pub(crate) fn settle_all(&mut self, bounded: &Bounded<'_>, opened: &Opened, path: &[usize])
        requires known { AreKnown bounded.now.program self.old }
        ensures known { AreKnown bounded.now.program self.new }
        ensures later { IsLater self.old self.new }
        ensures lowest { self.new.lowest ≡ self.old.lowest }
    {
        let count = path.len();
        for step in 0..count {
            self.settle(bounded, opened, path[count - 1 - step]);
        }
    }

    /// The number of the value assignment that a notation under a type names, if the chain from it is worth finding:
    /// the type holds others, the chain is long, and the table doesn't say what the value assignment or the next one
    /// comes to.
    pub(crate) fn long_name(
        &self,
        bounded: &Bounded<'_>,
        opened: &Opened,
        at: ValueSite<'_>,
    ) -> Option<usize>
        requires there { at.ty.index < length bounded.now.program.types }
        requires known { AreKnown bounded.now.program self.now }
        ensures { IfSome result (λ i. i < length bounded.now.program.values) }
    {
        if !is_reference(at.notation) {
            return None;
        }
        let linked = bounded.linked();
        let (shape, _home) = written(linked, at.ty);
        if !holds_others(shape.shape()) {
            return None;
        }
        let Next::Referred(number) = next_of(linked, opened, &shape, at.within, at.notation) else {
            return None;
        };
        if self.knows(bounded, opened, number, at.ty) || !self.is_long(linked, opened, number) {
            return None;
        }
        Some(number)
    }

    /// Whether names lead from a value assignment over many others.
    fn is_long(&self, linked: &Linked, opened: &Opened, number: usize) -> bool
        requires there { number < length linked.now.program.values }
    {
        let mut at = number;
        for step in 0..LONG_CHAIN {
            if let Some(chain) = self.chains.get(at) {
                return chain.count >= LONG_CHAIN - step;
            }
            let Next::Referred(next) = next_nameless(linked, opened, at) else {
                return false;
            };
            at = next;
        }
        true
    }

    /// The value assignment to which names lead from the last one of a path, or from `number` if there is no path. None
    /// if that isn't known.
    pub(crate) fn end_of(
        &self,
        linked: &Linked,
        opened: &Opened,
        path: &[usize],
        number: usize,
    ) -> Option<usize>
        ensures { IfSome result (λ i. i < length linked.now.program.values) }
    {
        let count = path.len();
        let last = if count == 0 { number } else { path[count - 1] };
        if last >= linked.values().len() {
            return None;
        }
        match next_nameless(linked, opened, last) {
            Next::Itself => Some(last),
            Next::Referred(next) => match self.chains.get(next) {
                Some(chain) if chain.end < linked.values().len() => Some(chain.end),
                _ => None,
            },
            Next::Nothing | Next::Again(_) => None,
        }
    }

    /// Ends the reading of a value assignment that was read alone.
    pub(crate) fn close_itself(&mut self, bounded: &Bounded<'_>, read: ReadAlone)
        requires known { AreKnown bounded.now.program self.old }
        requires read { IsReadItself bounded.now.program read.number read.ty.index read.levels read.nodes self.old }
        ensures known { AreKnown bounded.now.program self.new }
        ensures turns { AreLower self.old.named.turns.items self.new.named.turns.items }
    {
        let used = self.used(read.levels);
        self.named.close(read.number);
        let entry = NamedValue {
            number: read.number,
            ty: read.ty.index,
            levels: used,
            nodes: read.nodes,
            latest: self.named.latest(),
        };
        self.named.note(bounded, entry, 0);
    }

    /// Finds the chain from a value assignment.
    fn chain_from(
        &mut self,
        alloc: Global,
        bounded: &Bounded<'_>,
        opened: &Opened,
        number: usize,
    ) -> Option<NameChain>
        requires there { number < length bounded.now.program.values }
        requires known { AreKnown bounded.now.program self.old }
        ensures there { IfSome result (OccursIn self.new.chains.chains.items) }
        ensures number { IfSome result (λ c. c.number ≡ number) }
        ensures known { AreKnown bounded.now.program self.new }
        ensures later { IsLater self.old self.new }
        ensures lowest { self.new.lowest ≡ self.old.lowest }
    {
        let path = self.path_from(alloc, bounded, opened, number);
        self.settle_all(bounded, opened, path.as_slice());
        self.chains.get(number)
    }
}

impl<'r, 'a> NotationReader<'r, 'a> {
    /// If a notation is a name, judges under the type the value to which the chain of names leads, so that the table
    /// knows what it comes to.
    #[tactic(auto, using(crate::proofs::Found::later_same, crate::proofs::Going::not_moved))]
    pub(crate) fn prepare(&mut self, at: ValueSite<'a>)
        requires there { at.ty.index < length self.old.bounded.now.program.types }
        requires ready { IsReady self.old }
        ensures later { IsLater self.old.defaults.now self.new.defaults.now }
        ensures lowest { self.new.defaults.now.lowest ≡ self.old.defaults.now.lowest }
        ensures opened { self.new.opened.now ≡ self.old.opened.now }
        ensures left { self.new.left ≡ self.old.left }
        ensures ready { GoesOn self.old self.new }
        ensures same_table { self.new.defaults.ghost_name ≡ self.old.defaults.ghost_name }
    {
        let linked = self.bounded.linked();
        let (shape, _home) = written(linked, at.ty);
        let Shape::Simple(simple) = shape.shape() else {
            return;
        };
        let Next::Referred(number) = next_of(linked, self.opened, &shape, at.within, at.notation)
        else {
            return;
        };
        self.judge_from(at.ty, &shape, simple, number);
    }

    /// Judges under a type the value to which a chain of names leads from a value assignment, unless the table knows
    /// what that or the next one comes to, or it takes less time to follow the chain.
    #[tactic(auto, using(crate::proofs::Found::later_same, crate::proofs::Found::later_on, crate::proofs::Going::not_moved))]
    fn judge_from(&mut self, ty: TypeId, shape: &NamedShape<'_>, simple: &Simple, number: usize)
        requires there { number < length self.old.bounded.now.program.values }
        requires is { kind_of shape.now ≡ simple' (plain_of simple.now) }
        requires written { (N : Name)
            × HasKindIn self.old.bounded.now.program ty.index (simple' (plain_of simple.now)) N }
        requires inside { ty.index < length self.old.bounded.now.program.types }
        requires ready { IsReady self.old }
        ensures later { IsLater self.old.defaults.now self.new.defaults.now }
        ensures lowest { self.new.defaults.now.lowest ≡ self.old.defaults.now.lowest }
        ensures opened { self.new.opened.now ≡ self.old.opened.now }
        ensures left { self.new.left ≡ self.old.left }
        ensures ready { GoesOn self.old self.new }
        ensures same_table { self.new.defaults.ghost_name ≡ self.old.defaults.ghost_name }
    {
        if self.defaults.is_near(self.bounded, self.opened, number, ty)
            || self.defaults.knows(self.bounded, self.opened, number, ty)
        {
            return;
        }
        let Some(chain) = self
            .defaults
            .chain_from(self.alloc, self.bounded, self.opened, number)
        else {
            return;
        };
        let Some(end) = self
            .defaults
            .end_under(self.bounded, self.opened, chain, shape)
        else {
            return;
        };
        self.judge(ty, simple, chain, end);
    }

    /// Judges under a type the value to which a chain of names leads, unless the table knows what that comes to.
    #[tactic(auto, using(crate::proofs::Found::later_same, crate::proofs::Going::not_moved))]
    fn judge(&mut self, ty: TypeId, simple: &Simple, chain: NameChain, end: usize)
        requires written { (N : Name)
            × HasKindIn self.old.bounded.now.program ty.index (simple' (plain_of simple.now)) N }
        requires inside { ty.index < length self.old.bounded.now.program.types }
        requires leads { LeadsUnder self.old.bounded.now.program self.old.defaults.now.named.turns.items
            (simple' (plain_of simple.now)) chain end }
        requires last { end < length self.old.bounded.now.program.values }
        requires ready { IsReady self.old }
        ensures later { IsLater self.old.defaults.now self.new.defaults.now }
        ensures lowest { self.new.defaults.now.lowest ≡ self.old.defaults.now.lowest }
        ensures opened { self.new.opened.now ≡ self.old.opened.now }
        ensures left { self.new.left ≡ self.old.left }
        ensures ready { GoesOn self.old self.new }
        ensures same_table { self.new.defaults.ghost_name ≡ self.old.defaults.ghost_name }
    {
        if self.defaults.named.entry(self.bounded, end, ty).is_some() {
            return;
        }
        let linked = self.bounded.linked();
        let (within, notation) = notation_at(linked, end);
        let at = ValueSite {
            ty,
            within,
            notation,
        };
        let last = LastNotation { within, notation };
        match simple_value(self.alloc, self.bounded, at, simple, last) {
            Err(_) => return,
            Ok(_) => {}
        }
        let entry = NamedValue {
            number: end,
            ty: ty.index,
            levels: 1,
            nodes: 1,
            latest: chain.latest,
        };
        self.defaults.named.note(self.bounded, entry, 0);
    }
}
