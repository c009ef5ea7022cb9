//! What the names of values lead to, found once for each value, whatever the types.

ghost use Rattle.std.specs.Prelude.{◌≡◌, ◌⊎◌, ◌≤◌, ◌<◌, ℕ, suc, [], ◌∷◌, ◌++◌, List, IfOk, IfSome, Some, length, map, slice_get};
ghost use Rattle.trees.specs.Types.{a_boolean, item_of, numbered_name, plain_of};
ghost use Rattle.trees.specs.Values.{Name, tree_of};
ghost use Rattle.names.specs.Modules.{OccursIn};
ghost use Rattle.names.specs.Names.{names_of};
ghost use Rattle.resolve.specs.Program.{Program};
ghost use Rattle.type_table.specs.Seen.{kind_of};
ghost use Rattle.type_table.specs.Table.{simple as simple'};
ghost use Rattle.value_notations.specs.References.{own_names};
ghost use Rattle.range_ends.specs.Ends.{IsValueAt};
ghost use Rattle.typed_values.specs.Chains.{AreLed, Has, HasTurn, HasTurnSince, number_of};
ghost use Rattle.typed_values.specs.declared.chains.NameChain.{NameChain as NameChain'};
ghost use Rattle.typed_values.specs.proving.Stopping.{FindsNearest, GoesOnBy, LeadsFrom};

use crate::stops::Stops;
use names::NameHasher;
use resolve::{Linked, NamedShape};
use std::alloc::{AllocError, Global};
use trees::{EnumeratedItem, NamedNumber, Simple, ValueSyntax};
use type_table::Shape;
use value_notations::opened::Opened;
use value_notations::references::{Next, next_of, notation_at};

/// The place of a value assignment that was not passed yet.
const UNSEEN: usize = 18_446_744_073_709_551_615;

/// The place of a value assignment that was passed, and has no chain yet.
const SEEN: usize = 18_446_744_073_709_551_614;

/// The names from the notation of a value assignment on lead to the notation of another one, which is no name of a
/// value.
#[derive(Clone, Copy)]
pub struct NameChain {
    /// The number of the value assignment.
    pub(crate) number: usize,
    /// The number of the value assignment whose notation is no name of a value.
    pub(crate) end: usize,
    /// The latest turn of the value assignments from the first one to the last one.
    pub(crate) latest: u32,
    /// The earliest turn of those before the last one.
    pub(crate) earliest: u32,
    /// How many value assignments there are from the first one to the last one.
    pub(crate) count: usize,
    /// The tree of the names that the chain leads through.
    pub(crate) names: usize,
}

/// A value assignment on a chain.
#[derive(Clone, Copy)]
pub(crate) struct Stop {
    /// How many value assignments there are from this one to the last one.
    pub(crate) count: usize,
    /// The number of the value assignment.
    pub(crate) number: usize,
}

/// What the notation of a value assignment leads to under a type of a shape.
pub(crate) fn next_at(
    linked: &Linked,
    opened: &Opened,
    shape: &NamedShape<'_>,
    number: usize,
) -> Next
    requires there { number < length linked.now.program.values }
    ensures { LeadsFrom linked.now.program (kind_of shape.now) opened.now number result }
{
    let (home, notation) = notation_at(linked, number);
    next_of(linked, opened, shape, home, notation)
}

/// What the notation of a value assignment leads to under a type without names of its own.
pub(crate) fn next_nameless(linked: &Linked, opened: &Opened, number: usize) -> Next
    requires there { number < length linked.now.program.values }
    ensures { LeadsFrom linked.now.program (simple' a_boolean) opened.now number result }
{
    let boolean = Shape::Simple(Simple::Boolean);
    let nameless = NamedShape::of(&boolean);
    next_at(linked, opened, &nameless, number)
}

/// The chains of names that were found already. A chain goes on to its end, whatever names a type has of its own.
pub struct NameChains {
    /// The places of chains, by the numbers of the value assignments.
    places: Vec<usize>,
    chains: Vec<NameChain>,
    /// The names that the chains lead through.
    stops: Stops,
}

impl NameChains {
    /// The table of modules with `count` value assignments, none of which was passed yet. `hasher` hashes their names.
    pub(crate) fn of(alloc: Global, hasher: NameHasher, count: usize) -> Result<Self, AllocError>
        ensures { IfOk result (λ n. (p : Program) (turns : List ℕ) → AreLed p turns n) }
    {
        Ok(NameChains {
            places: vec![in alloc; UNSEEN; count]?,
            chains: Vec::new(alloc),
            stops: Stops::of(alloc, hasher, count)?,
        })
    }

    /// A table without places for value assignments, which never has a chain. It takes no memory.
    pub(crate) fn none(alloc: Global) -> Self
        ensures { (p : Program) (turns : List ℕ) → AreLed p turns result }
    {
        NameChains {
            places: Vec::new(alloc),
            chains: Vec::new(alloc),
            stops: Stops::none(alloc),
        }
    }

    /// The chain from a value assignment, if it was found.
    pub(crate) fn get(&self, number: usize) -> Option<NameChain>
        ensures there { IfSome result (λ c. OccursIn self.now.chains.items c) }
        ensures number { IfSome result (λ c. c.number ≡ number) }
    {
        if number >= self.places.len() {
            return None;
        }
        let place = self.places[number];
        if place >= self.chains.len() {
            return None;
        }
        let chain = self.chains[place];
        if chain.number == number {
            Some(chain)
        } else {
            None
        }
    }

    /// Whether a value assignment was not passed before. From now on it was.
    fn pass(&mut self, number: usize) -> bool
        ensures chains { self.new.chains ≡ self.old.chains }
        ensures stops { self.new.stops ≡ self.old.stops }
    {
        if number >= self.places.len() || self.places[number] != UNSEEN {
            return false;
        }
        self.places[number] = SEEN;
        true
    }

    /// How many chains there are.
    pub(crate) fn count(&self) -> usize
        ensures { result ≡ length self.now.chains.items }
    {
        self.chains.len()
    }

    /// Adds a chain, if there is enough memory.
    fn add(&mut self, chain: NameChain)
        ensures chains { (self.new.chains.items ≡ self.old.chains.items)
            ⊎ (self.new.chains.items ≡ self.old.chains.items ++ chain ∷ []) }
        ensures stops { self.new.stops ≡ self.old.stops }
    {
        let place = self.chains.len();
        match self.chains.push(chain) {
            Ok(()) => {
                if chain.number < self.places.len() {
                    self.places[chain.number] = place;
                }
            }
            Err(_) => {}
        }
    }

    /// The value assignments from one on, along the names of their notations, up to the last one or to one that was
    /// passed before. They are passed.
    pub(crate) fn walk(
        &mut self,
        alloc: Global,
        linked: &Linked,
        opened: &Opened,
        number: usize,
    ) -> Vec<usize>
        requires there { number < length linked.now.program.values }
        ensures chains { self.new.chains ≡ self.old.chains }
        ensures stops { self.new.stops ≡ self.old.stops }
    {
        let mut path = Vec::new(alloc);
        let mut at = number;
        for step in 0..linked.values().len() {
            if !self.pass(at) {
                return path;
            }
            match path.push(at) {
                Ok(()) => {}
                Err(_) => return path,
            }
            let Next::Referred(next) = next_nameless(linked, opened, at) else {
                return path;
            };
            at = next;
        }
        path
    }

    /// The nearest chain with a name, from the tree of a chain.
    fn named(&self, names: usize, name: &str) -> Option<NameChain>
        ensures none { (i place : ℕ) (e : NameChain') → number_of self.now.stops name.now ≡ Some i
            → Has self.now.stops.branches.items self.now.stops.height names i (suc place)
            → slice_get self.now.chains.items place ≡ Some e
            → result ≡ Some e }
        ensures it { IfSome result (λ e. (i place : ℕ)
            × Has self.now.stops.branches.items self.now.stops.height names i (suc place)
            × (slice_get self.now.chains.items place ≡ Some e)) }
    {
        match self.stops.nearest(names, name) {
            None => None,
            Some(place) => {
                if place == 0 || place > self.chains.len() {
                    None
                } else {
                    Some(self.chains[place - 1])
                }
            }
        }
    }

    /// The nearer one of a value assignment on a chain and of the nearest one whose notation is a name.
    fn nearer(&self, chain: NameChain, best: Stop, name: &str) -> Stop
        ensures { FindsNearest self.now chain best (λ x. x ≡ name.now) result }
    {
        match self.named(chain.names, name) {
            None => best,
            Some(found) => {
                if found.count > best.count {
                    Stop {
                        count: found.count,
                        number: found.number,
                    }
                } else {
                    best
                }
            }
        }
    }

    /// The nearest one of a value assignment on a chain and of those whose notations are the names of numbers.
    fn nearest_number(&self, chain: NameChain, best: Stop, numbers: &[NamedNumber]) -> Stop
        ensures { FindsNearest self.now chain best (OccursIn (names_of (map numbered_name numbers.now))) result }
    {
        let mut best = best;
        for i in 0..numbers.len() {
            best = self.nearer(chain, best, numbers[i].name.it.as_str());
        }
        best
    }

    /// The nearest one of a value assignment on a chain and of those whose notations are the names of items.
    fn nearest_item(&self, chain: NameChain, best: Stop, items: &[EnumeratedItem]) -> Stop
        ensures { FindsNearest self.now chain best (OccursIn (names_of (map item_of items.now))) result }
    {
        let mut best = best;
        for i in 0..items.len() {
            best = self.nearer(chain, best, items[i].name.it.as_str());
        }
        best
    }

    /// The value assignment at which a chain ends under a type that holds no others: the nearest one whose notation is
    /// a name of the type, or else the last one.
    pub(crate) fn stop(&self, chain: NameChain, simple: &Simple) -> Stop
        ensures { FindsNearest self.now chain (record { count = 1; number = chain.end })
            (OccursIn (own_names (simple' (plain_of simple.now)))) result }
    {
        let last = Stop {
            count: 1,
            number: chain.end,
        };
        match simple {
            Simple::Integer(numbers) => self.nearest_number(chain, last, numbers.as_slice()),
            Simple::Enumerated(given) => {
                let best = self.nearest_item(chain, last, given.root.as_slice());
                match &given.additions {
                    None => best,
                    Some(additions) => self.nearest_item(chain, best, additions.as_slice()),
                }
            }
            Simple::Boolean => last,
            Simple::BitString(_) => last,
            Simple::OctetString => last,
            Simple::Null => last,
            Simple::ObjectIdentifier => last,
            Simple::RelativeOid => last,
            Simple::Utf8String => last,
            Simple::Restricted(_) => last,
        }
    }

    /// Adds the chain from a value assignment, if there is enough memory. Its notation is a name, and `rest` is the
    /// chain from the next value assignment; or `rest` is an empty chain. `rest` has the turns of the new chain.
    pub(crate) fn grow(&mut self, rest: NameChain, number: usize, notation: &ValueSyntax)
        ensures { (p : Program) (turns : List ℕ) (turn : ℕ) (N : Name)
            → AreLed p turns self.old
            → GoesOnBy p turns self.old number rest
            → IsValueAt p number N (tree_of notation.now)
            → HasTurn turns number turn
            → turn ≤ rest.latest
            → ((number ≡ rest.end → ⊥) → HasTurnSince turns rest.earliest number)
            → AreLed p turns self.new }
    {
        let place = self.chains.len();
        if rest.count == usize::MAX {
            return;
        }
        let Some(names) = self.stops.noted(rest.names, notation, place + 1) else {
            return;
        };
        self.add(NameChain {
            number,
            end: rest.end,
            latest: rest.latest,
            earliest: rest.earliest,
            count: rest.count + 1,
            names,
        });
    }
}

impl Drop for NameChains {
    fn drop(self) {
        let NameChains {
            places: _,
            chains: _,
            stops: _,
        } = self;
    }
}
