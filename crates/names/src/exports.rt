//! What a module exports.

ghost use Rattle.std.specs.Prelude.{◌≡◌, ◌↔◌, true, [], IfOk, IfErr, OnOk, map};
ghost use Rattle.trees.specs.Values.{name_at};
ghost use Rattle.names.specs.proving.Tabled.{IsTableOf};
ghost use Rattle.names.specs.First.{name_spot};
ghost use Rattle.names.specs.Modules.{OccursIn};
ghost use Rattle.names.specs.Names.{names_of};
ghost use Rattle.names.specs.declared.fault.NameFault.TheVariants as faults;

use crate::fault::NameFault;
use crate::hashing::NameHasher;
use indexmap::IndexSet;
use std::alloc::Global;
use std::marker::Model;
use trees::At;

/// The names that a module exports, in order, with a table to look them up in.
pub struct Exports {
    names: Vec<At<String>>,
    table: IndexSet<String, NameHasher>,
}

impl Model for Exports {
    ghost use Rattle.std.specs.Prelude.{List, map, ℕ};
    ghost use Rattle.trees.specs.Values.{Name, name_at};

    ghost Value = { List (Name × ℕ) };

    ghost view = { λ e. map (λ n. (name_at n, n.at)) e.names.items };

    ghost use Rattle.names.specs.proving.Tabled.{IsTableOf};

    ghost invariant = { λ e. IsTableOf e.names.items e.table };
}

/// Puts names into a table.
fn fill(
    alloc: Global,
    names: &[At<String>],
    table: &mut IndexSet<String, NameHasher>,
) -> Result<(), NameFault>
    requires empty { table.old.keys ≡ [] }
    ensures ok { OnOk result (IsTableOf names.now table.new) }
    ensures fault { IfErr result (λ e. e ≡ faults.Memory) }
{
    for name in names {
        table.insert(String::from_str(alloc, name.it.as_str())?)?;
    }
    Ok(())
}

impl Exports {
    /// These names, with their table.
    pub(crate) fn of(
        alloc: Global,
        hasher: NameHasher,
        names: Vec<At<String>>,
    ) -> Result<Exports, NameFault>
        ensures ok { IfOk result (λ e. e ≡ map name_spot names.items) }
        ensures fault { IfErr result (λ e. e ≡ faults.Memory) }
    {
        let mut table = IndexSet::with_hasher(alloc, hasher);
        match fill(alloc, &names, &mut table) {
            Ok(()) => Ok(Exports { names, table }),
            Err(fault) => Err(fault),
        }
    }

    /// Whether this is one of the names.
    pub(crate) fn has(&self, name: &str) -> bool
        ensures { result ≡ true ↔ OccursIn (names_of self.now) name.now }
    {
        self.table.contains(name)
    }

    /// The names, in order, each with its offset.
    pub(crate) fn names(&self) -> &[At<String>]
        ensures { map name_spot result.now ≡ self.now }
    {
        &self.names
    }
}

impl Drop for Exports {
    fn drop(self) {
        let Exports { names: _, table: _ } = self;
    }
}
