//! What is known of the values of some modules: the levels of DEFAULTs, and what named values come to.

ghost use Rattle.std.specs.Prelude.{◌≡◌, ◌≤◌, ◌+◌, IfOk, IfSome, true};
ghost use Rattle.names.specs.Modules.{OccursIn};
ghost use Rattle.resolve.specs.Program.{Program};
ghost use Rattle.type_table.specs.Seen.{part_of};
ghost use Rattle.value_notations.specs.Values.{MayLackValue};
ghost use Rattle.values.specs.Allowing.{Allows, AllowsCode};
ghost use Rattle.typed_values.specs.Known.{AreKnown, AreKnownDefaults, IsListed};
ghost use Rattle.typed_values.specs.proving.Reading.{MayBeLeftOut};

use crate::chains::NameChains;
use crate::named::NamedValues;
use std::alloc::{AllocError, Global};
use std::collections::BTreeMap;
use type_table::ListMember;
use values::constraints::Bounded;

/// How many levels the value of a DEFAULT has.
#[derive(Clone, Copy)]
pub struct DefaultLevels {
    /// The number of the component's type.
    pub(crate) ty: usize,
    pub(crate) levels: u8,
}

/// How many levels the values of the DEFAULTs of some modules have, and what their named values come to under their
/// types, as far as they were read already. One table serves all notations of the modules. A DEFAULT is read once,
/// however often its component is absent, and a named value is read once under a type, however often it is named.
pub struct Defaults {
    /// The levels of the DEFAULTs that were read.
    levels: Vec<DefaultLevels>,
    /// The places of levels, by the numbers of the components' types.
    places: BTreeMap<usize, usize>,
    /// How many levels were left below the deepest value that was read.
    lowest: u8,
    /// What named values come to.
    pub(crate) named: NamedValues,
    /// What the names of values lead to.
    pub(crate) chains: NameChains,
    /// Whether the levels of a DEFAULT were not noted, because there was not enough memory.
    lacks_memory: bool,
}

impl Defaults {
    /// The table of modules of which nothing was read yet: twelve octets for each value assignment. The error is that
    /// there is not enough memory.
    pub fn of(alloc: Global, bounded: &Bounded<'_>) -> Result<Self, AllocError>
        ensures { IfOk result (AreKnown bounded.now.program) }
    {
        let linked = bounded.linked();
        Ok(Defaults {
            levels: Vec::new(alloc),
            places: BTreeMap::new(alloc),
            lowest: 0,
            named: NamedValues::of(alloc, bounded)?,
            chains: NameChains::of(alloc, linked.name_hasher(), linked.values().len())?,
            lacks_memory: false,
        })
    }

    /// The table of modules of which one notation is read, whose value is built. It has no places for value
    /// assignments, and takes no memory, however many there are.
    pub(crate) fn of_one(alloc: Global) -> Self
        ensures { (p : Program) → AreKnown p result }
    {
        Defaults {
            levels: Vec::new(alloc),
            places: BTreeMap::new(alloc),
            lowest: 0,
            named: NamedValues::unturned(alloc),
            chains: NameChains::none(alloc),
            lacks_memory: false,
        }
    }

    /// The place where the levels of a component's DEFAULT are, by the number of its type, if there is one.
    fn place(&self, ty: usize) -> Option<usize> {
        self.places.get(&ty).copied()
    }

    /// Whether an entry was not noted, because there was not enough memory. What it says would be found again and
    /// again.
    pub(crate) fn lacks_memory(&self) -> bool {
        self.lacks_memory || self.named.lacks_memory()
    }

    /// Keeps the place of a DEFAULT's levels. If there is not enough memory, the table says so from now on.
    fn keep_place(&mut self, ty: usize, place: usize)
        ensures lowest { self.new.lowest ≡ self.old.lowest }
        ensures levels { self.new.levels ≡ self.old.levels }
        ensures named { self.new.named ≡ self.old.named }
        ensures chains { self.new.chains ≡ self.old.chains }
    {
        match self.places.insert(ty, place) {
            Ok(_) => {}
            Err(_) => self.lacks_memory = true,
        }
    }

    /// How many levels the value of a component's DEFAULT has, if the table says so.
    fn levels_of(&self, component: &ListMember) -> Option<u8>
        ensures { IfSome result
            (λ n. OccursIn self.now.levels.items (record { ty = component.now.ty; levels = n })) }
    {
        let Some(place) = self.place(component.ty) else {
            return None;
        };
        if place >= self.levels.len() {
            return None;
        }
        let entry = self.levels[place];
        if entry.ty == component.ty {
            Some(entry.levels)
        } else {
            None
        }
    }

    /// Whether the table says that a component may be absent if `levels` levels are left. If it does, the levels that
    /// are left below the component's DEFAULT are noted.
    pub(crate) fn allows(
        &mut self,
        bounded: &Bounded<'_>,
        component: &ListMember,
        home: &str,
        levels: u8,
    ) -> bool
        requires known { AreKnownDefaults bounded.now.program self.old.levels.items }
        requires listed { IsListed bounded.now.program home.now (part_of component.now) }
        ensures may { result ≡ true → MayBeLeftOut bounded.now.program levels self.new.lowest home.now
            (part_of component.now) }
        ensures lowest { self.new.lowest ≤ self.old.lowest }
        ensures levels { self.new.levels ≡ self.old.levels }
        ensures named { self.new.named ≡ self.old.named }
        ensures chains { self.new.chains ≡ self.old.chains }
    {
        let Some(needed) = self.levels_of(component) else {
            return false;
        };
        if needed > levels {
            return false;
        }
        self.reach(levels - needed);
        true
    }

    /// Notes that a component may be absent if `levels` levels are left. If there is not enough memory, the table says
    /// so from now on.
    pub(crate) fn note(
        &mut self,
        bounded: &Bounded<'_>,
        component: &ListMember,
        home: &str,
        levels: u8,
    )
        requires known { AreKnownDefaults bounded.now.program self.old.levels.items }
        requires listed { IsListed bounded.now.program home.now (part_of component.now) }
        requires may { MayLackValue bounded.now.program (Allows bounded.now.program) (AllowsCode bounded.now.program)
            levels home.now (part_of component.now) }
        ensures known { AreKnownDefaults bounded.now.program self.new.levels.items }
        ensures lowest { self.new.lowest ≡ self.old.lowest }
        ensures named { self.new.named ≡ self.old.named }
        ensures chains { self.new.chains ≡ self.old.chains }
    {
        bounded.linked().lemma_whole();
        let place = self.levels.len();
        let entry = DefaultLevels {
            ty: component.ty,
            levels,
        };
        match self.levels.push(entry) {
            Ok(()) => self.keep_place(component.ty, place),
            Err(_) => self.lacks_memory = true,
        }
    }

    /// Notes that `levels` levels are left below a value.
    pub(crate) fn reach(&mut self, levels: u8)
        ensures reached { self.new.lowest ≤ levels }
        ensures lowest { self.new.lowest ≤ self.old.lowest }
        ensures levels { self.new.levels ≡ self.old.levels }
        ensures named { self.new.named ≡ self.old.named }
        ensures chains { self.new.chains ≡ self.old.chains }
    {
        if levels < self.lowest {
            self.lowest = levels;
        }
    }

    /// Starts a new count with `levels` levels left; returns the count before.
    pub(crate) fn begin(&mut self, levels: u8) -> u8
        ensures before { result ≡ self.old.lowest }
        ensures lowest { self.new.lowest ≡ levels }
        ensures levels { self.new.levels ≡ self.old.levels }
        ensures named { self.new.named ≡ self.old.named }
        ensures chains { self.new.chains ≡ self.old.chains }
    {
        let before = self.lowest;
        self.lowest = levels;
        before
    }

    /// How many of `levels` levels the value has that was read since the count started.
    pub(crate) fn used(&self, levels: u8) -> u8
        ensures enough { levels ≤ result + self.now.lowest }
    {
        if self.lowest <= levels {
            levels - self.lowest
        } else {
            0
        }
    }
}

impl Drop for Defaults {
    fn drop(self) {
        let Defaults {
            levels: _,
            places: _,
            lowest: _,
            named: _,
            chains: _,
            lacks_memory: _,
        } = self;
    }
}
