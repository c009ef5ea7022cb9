//! A reading of notations under types, and the values that are read.

ghost use Rattle.std.specs.Prelude.{◌≡◌, ◌≤◌, ◌<◌, ◌+◌, ℕ, List, length};
ghost use Rattle.trees.specs.Values.{Name, Tree};
ghost use Rattle.asn_base.specs.Abstract.{AbstractValue};
ghost use Rattle.typed_values.specs.proving.Reading.{CanClose, CanCloseTo, GoesOn, HasEnded, IsEnded, IsLater, IsRead, IsReadItself, IsReady, Returns};
ghost use Rattle.typed_values.specs.proving.Turns.{AreLower};

use crate::fault::ValueSite;
use crate::levels::Defaults;
use crate::named::{NamedValue, names_after};
use crate::outcome::Outcome;
use asn_base::schema::TypeId;
use std::alloc::Global;
use value_notations::opened::Opened;
use values::constraints::Bounded;

/// A reading of notations under types, from the modules and the table that a caller gives.
#[derive(Drop)]
pub(crate) struct NotationReader<'r, 'a> {
    pub(crate) alloc: Global,
    pub(crate) bounded: &'r Bounded<'a>,
    pub(crate) defaults: &'r mut Defaults,
    /// How many nodes are left.
    pub(crate) left: u32,
    /// The values whose notations are being read.
    pub(crate) opened: &'r mut Opened,
    /// Whether no chains of names are foreseen.
    pub(crate) plain: bool,
}

/// What was counted when the reading of a notation began.
#[derive(Clone, Copy)]
pub(crate) struct Counts {
    /// How many values were being read.
    pub(crate) opened: usize,
    pub(crate) left: u32,
    pub(crate) lowest: u8,
    pub(crate) latest: u32,
}

/// A value assignment whose notation was read under a type, alone.
#[derive(Clone, Copy)]
pub(crate) struct ReadAlone {
    /// The number of the value assignment.
    pub(crate) number: usize,
    pub(crate) ty: TypeId,
    /// How many levels were left for the notation.
    pub(crate) levels: u8,
    /// How many nodes the value has.
    pub(crate) nodes: u32,
}

impl<'r, 'a> NotationReader<'r, 'a> {
    /// Ends the reading of the latest value. The table may note that its notation stands under the type for a value
    /// with so many levels and nodes. `closed` is how many values were closed before it, to which its names lead.
    fn close_one(&mut self, ty: TypeId, levels: u8, nodes: u32, closed: usize)
        requires ended { CanClose self.old.bounded.now.program ty.index levels nodes self.old.opened.now
            self.old.defaults.now }
        requires ready { IsReady self.old }
        ensures closed { (most before after : ℕ) (os : List ℕ) (M : Name) (n : Tree) (v : AbstractValue)
            → length os < length self.old.opened.now
            → IsEnded self.old.bounded.now.program most before after os M ty.index n self.old.opened.now
            self.old.defaults.now v
            → IsEnded self.old.bounded.now.program most before after os M ty.index n self.new.opened.now
            self.new.defaults.now v }
        ensures one { length self.old.opened.now ≡ length self.new.opened.now + 1 }
        ensures later { IsLater self.old.defaults.now self.new.defaults.now }
        ensures lowest { self.new.defaults.now.lowest ≡ self.old.defaults.now.lowest }
        ensures left { self.new.left ≡ self.old.left }
        ensures ready { GoesOn self.old self.new }
        ensures same_table { self.new.defaults.ghost_name ≡ self.old.defaults.ghost_name }
    {
        match self.opened.close_latest() {
            None => {}
            Some(number) => {
                self.defaults.named.close(number);
                let latest = self.defaults.named.latest();
                let entry = NamedValue {
                    number,
                    ty: ty.index,
                    levels,
                    nodes,
                    latest,
                };
                let names = names_after(self.bounded, number, closed);
                self.defaults.named.note(self.bounded, entry, names);
            }
        }
    }

    /// Ends the reading of the values to which the references of a notation led, from the latest one on, until `count`
    /// are left.
    fn close_all(&mut self, ty: TypeId, levels: u8, nodes: u32, count: usize)
        requires ended { CanCloseTo self.old.bounded.now.program ty.index levels nodes count self.old.opened.now
            self.old.defaults.now }
        requires ready { IsReady self.old }
        ensures closed { (most before after : ℕ) (os : List ℕ) (M : Name) (n : Tree) (v : AbstractValue)
            → length os ≡ count
            → IsEnded self.old.bounded.now.program most before after os M ty.index n self.old.opened.now
            self.old.defaults.now v
            → (self.new.opened.now ≡ os)
            × IsRead self.old.bounded.now.program most before after os M ty.index n self.new.defaults.now v }
        ensures later { IsLater self.old.defaults.now self.new.defaults.now }
        ensures left { self.new.left ≡ self.old.left }
        ensures ready { GoesOn self.old self.new }
        ensures same_table { self.new.defaults.ghost_name ≡ self.old.defaults.ghost_name }
    {
        let many = self.opened.count();
        for step in count..many {
            self.close_one(ty, levels, nodes, step - count);
        }
    }

    /// Starts to count for a notation, for which `levels` levels are left. Returns the counts before.
    pub(crate) fn begin(&mut self, levels: u8) -> Counts
        requires ready { IsReady self.old }
        ensures count { result.opened ≡ length self.old.opened.now }
        ensures nodes { result.left ≡ self.old.left }
        ensures lowest { result.lowest ≡ self.old.defaults.now.lowest }
        ensures latest { result.latest ≡ self.old.defaults.now.named.latest }
        ensures begins { self.new.defaults.now.lowest ≡ levels }
        ensures turns { self.new.defaults.now.named.turns ≡ self.old.defaults.now.named.turns }
        ensures opened { self.new.opened.now ≡ self.old.opened.now }
        ensures left { self.new.left ≡ self.old.left }
        ensures ready { GoesOn self.old self.new }
        ensures same_table { self.new.defaults.ghost_name ≡ self.old.defaults.ghost_name }
    {
        let lowest = self.defaults.begin(levels);
        let latest = self.defaults.named.begin();
        Counts {
            opened: self.opened.count(),
            left: self.left,
            lowest,
            latest,
        }
    }

    /// Starts to count for a notation, for which `levels` levels are left. Returns the counts before. If no value is
    /// built, the value to which a chain of names leads is judged first.
    pub(crate) fn start<O: Outcome>(&mut self, levels: u8, at: ValueSite<'a>) -> Counts
        requires there { at.ty.index < length self.old.bounded.now.program.types }
        requires ready { IsReady self.old }
        ensures count { result.opened ≡ length self.old.opened.now }
        ensures nodes { result.left ≡ self.old.left }
        ensures lowest { result.lowest ≡ self.old.defaults.now.lowest }
        ensures latest { result.latest ≡ self.old.defaults.now.named.latest }
        ensures begins { self.new.defaults.now.lowest ≡ levels }
        ensures turns { AreLower self.old.defaults.now.named.turns.items self.new.defaults.now.named.turns.items }
        ensures opened { self.new.opened.now ≡ self.old.opened.now }
        ensures left { self.new.left ≡ self.old.left }
        ensures ready { GoesOn self.old self.new }
        ensures same_table { self.new.defaults.ghost_name ≡ self.old.defaults.ghost_name }
    {
        let before = self.begin(levels);
        match O::unbuilt() {
            None => {}
            Some(_) => self.prepare(at),
        }
        before
    }

    /// Finds the chains from the value assignments of a path, from the last one on. True if the table knows then what
    /// value assignment `number` comes to under a type.
    #[tactic(auto, using(crate::proofs::Found::later_same, crate::proofs::Going::not_moved))]
    pub(crate) fn settle_to(&mut self, path: &[usize], number: usize, ty: TypeId) -> bool
        requires there { ty.index < length self.old.bounded.now.program.types }
        requires ready { IsReady self.old }
        ensures returns { Returns self.old self.new }
        ensures left { self.new.left ≡ self.old.left }
        ensures ready { GoesOn self.old self.new }
        ensures same_table { self.new.defaults.ghost_name ≡ self.old.defaults.ghost_name }
    {
        self.defaults.settle_all(self.bounded, self.opened, path);
        match self.defaults.entry(self.bounded, self.opened, number, ty) {
            Some(_) => true,
            None => false,
        }
    }

    /// Ends the reading of a value assignment that was read alone. The counts before go on.
    pub(crate) fn close_itself(&mut self, read: ReadAlone, before: Counts)
        requires read { IsReadItself self.old.bounded.now.program read.number read.ty.index read.levels read.nodes
            self.old.defaults.now }
        requires ready { IsReady self.old }
        ensures lowest { self.new.defaults.now.lowest ≤ before.lowest }
        ensures latest { before.latest ≤ self.new.defaults.now.named.latest }
        ensures turns { AreLower self.old.defaults.now.named.turns.items self.new.defaults.now.named.turns.items }
        ensures opened { self.new.opened.now ≡ self.old.opened.now }
        ensures left { self.new.left ≡ self.old.left }
        ensures ready { GoesOn self.old self.new }
        ensures same_table { self.new.defaults.ghost_name ≡ self.old.defaults.ghost_name }
    {
        self.defaults.close_itself(self.bounded, read);
        self.defaults.reach(before.lowest);
        self.defaults.named.pass(before.latest);
    }

    /// Ends the counting for a notation, for which `levels` levels were left, and the reading of the values to which
    /// its references led. The counts before go on.
    pub(crate) fn end(&mut self, ty: TypeId, levels: u8, before: Counts)
        requires ended { HasEnded self.old.bounded.now.program levels before.left self.old.left before.opened ty.index
            self.old.opened.now self.old.defaults.now }
        requires ready { IsReady self.old }
        ensures read { (os : List ℕ) (M : Name) (n : Tree) (v : AbstractValue)
            → length os ≡ before.opened
            → IsEnded self.old.bounded.now.program levels before.left self.old.left os M ty.index n self.old.opened.now
            self.old.defaults.now v
            → (self.new.opened.now ≡ os)
            × IsRead self.old.bounded.now.program levels before.left self.new.left os M ty.index n
            self.new.defaults.now v }
        ensures lowest { self.new.defaults.now.lowest ≤ before.lowest }
        ensures latest { before.latest ≤ self.new.defaults.now.named.latest }
        ensures turns { AreLower self.old.defaults.now.named.turns.items self.new.defaults.now.named.turns.items }
        ensures left { self.new.left ≡ self.old.left }
        ensures ready { GoesOn self.old self.new }
        ensures same_table { self.new.defaults.ghost_name ≡ self.old.defaults.ghost_name }
    {
        let used = self.defaults.used(levels);
        let nodes = before.left - self.left;
        self.close_all(ty, used, nodes, before.opened);
        self.defaults.reach(before.lowest);
        self.defaults.named.pass(before.latest);
    }
}
