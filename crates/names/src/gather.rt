//! What modules give: their names, and the types and values of their assignments, numbered in order.

ghost use Rattle.std.specs.Prelude.{ℕ, ◌≡◌, ◌++◌, ◌∷◌, [], IfOk, IfErr, OnOk, length, map, option_map, None, Some, List};
ghost use Rattle.trees.specs.Values.{name_at};
ghost use Rattle.trees.specs.Types.{type_tree_of};
ghost use Rattle.trees.specs.declared.module.Assignment.TheVariants as givens;
ghost use Rattle.trees.specs.Modules.{AssignmentTree, ModuleTree, assignment_tree_of as given_of, import_of, module_tree_of};
ghost use Rattle.names.specs.declared.fault.NameFault.TheVariants as faults;
ghost use Rattle.trees.specs.declared.module.Module.{Module as Module'};
ghost use Rattle.names.specs.First.{IsTwiceAt, IsTwiceOf, assigned_spots, import_spot, import_spots, name_place, name_spot, written_imports};
ghost use Rattle.names.specs.Modules.{AreDifferent, name_of, imports_of};
ghost use Rattle.names.specs.Names.{under, names_of};
ghost use Rattle.names.specs.Scopes.{module_of, origin_of, meanings, origin_spots, origins, spots_of};
ghost use Rattle.names.specs.Sources.{assignment_of, value_seen, sources_of};
ghost use Rattle.names.specs.proving.Gathering.{assignment_places, named_by, named_next, IsTwice, IsTaken, IsRepeated, Adds, AddsWritten, HasGathered, HasWritten, IsAgainIn, IsNamingFault, IsTwiceFirst, offsets, origin_offsets, syntaxes};

use crate::exports::Exports;
use crate::fault::{NameFault, source_location};
use crate::hashing::NameHasher;
use crate::scope::{Assigned, Origin, Scope, scope_of};
use crate::sources::{AssignedAt, Header, Source, ValueAt};
use indexmap::IndexMap;
use std::alloc::Global;
use std::collections::VecDeque;
use std::rc::Rc;
use trees::{Assignment, At, Import, Module, TypeAssignment, TypeSyntax, ValueAssignment};

/// The assignments of modules, with their types and values.
#[derive(Drop)]
pub struct Tables {
    pub assignments: Vec<AssignedAt>,
    pub roots: VecDeque<Source>,
    pub values: Vec<ValueAt>,
}

/// The names, headers, assignments, types and values of modules.
#[derive(Drop)]
pub struct ModuleTables {
    pub modules: IndexMap<String, Scope>,
    pub headers: Vec<Header>,
    pub tables: Tables,
}

/// A module that is gathered: its number, which is the place of its header, and its name, which faults report. The
/// memory of what is gathered is from this allocator.
#[derive(Clone, Copy)]
struct ModuleAt<'m> {
    alloc: Global,
    number: usize,
    name: &'m str,
    /// How its names are hashed.
    hasher: NameHasher,
}

/// What a name is assigned, with the offset of the name.
fn given_in<'a>(
    assigned: &'a IndexMap<String, At<Assigned>, NameHasher>,
    name: &str,
) -> Option<&'a At<Assigned>>
    ensures it { option_map (λ a. a.now.it) result ≡ under name.now (meanings assigned.now.entries) }
    ensures at { option_map (λ a. a.now.at) result ≡ under name.now (offsets assigned.now.entries) }
{
    assigned.get(name)
}

/// The module that a name is imported from.
fn origin_in<'a>(
    imports: &'a IndexMap<String, Origin, NameHasher>,
    name: &str,
) -> Option<&'a Origin>
    ensures { option_map (λ o. origin_of o.now) result ≡ under name.now (origins imports.now.entries) }
{
    imports.get(name)
}

/// The exports of a module, ready for look-ups.
fn exports_of(
    alloc: Global,
    hasher: NameHasher,
    given: Option<Vec<At<String>>>,
) -> Result<Option<Exports>, NameFault>
    ensures named { IfOk result (λ e. option_map names_of e ≡ option_map (λ xs. map name_at xs.items) given) }
    ensures written { IfOk result (λ e. e ≡ option_map (λ xs. map name_spot xs.items) given) }
    ensures fault { IfErr result (λ e. e ≡ faults.Memory) }
{
    match given {
        None => Ok(None),
        Some(names) => match Exports::of(alloc, hasher, names) {
            Ok(exports) => Ok(Some(exports)),
            Err(fault) => Err(fault),
        },
    }
}

impl ModuleAt<'_> {
    /// Gives a name its meaning, or refuses to give it a second one with `Twice`.
    fn name_once(
        self,
        name: &At<String>,
        meaning: Assigned,
        assigned: &mut IndexMap<String, At<Assigned>, NameHasher>,
    ) -> Result<(), NameFault>
        ensures ok { OnOk result
            (meanings assigned.new.entries ≡ meanings assigned.old.entries ++ (name_at name.now, meaning) ∷ []) }
        ensures spots { OnOk result
            (offsets assigned.new.entries ≡ offsets assigned.old.entries ++ name_spot name.now ∷ []) }
        ensures fresh { OnOk result (under (name_at name.now) (meanings assigned.old.entries) ≡ None) }
        ensures fault { IfErr result (IsTwice self.entry.name.now (name_at name.now) (meanings assigned.old.entries)) }
        ensures at { IfErr result (IsTwiceAt name.now.at) }
    {
        let text = name.it.as_str();
        match given_in(assigned, text) {
            Some(_) => Err(NameFault::Twice(source_location(
                self.alloc, self.name, text, name.at,
            )?)),
            None => {
                let given = At {
                    at: name.at,
                    it: meaning,
                };
                assigned.insert(String::from_str(self.alloc, text)?, given)?;
                Ok(())
            }
        }
    }

    /// Adds an assignment, with its type, after the others.
    fn place(
        self,
        name: At<String>,
        syntax: TypeSyntax,
        tables: &mut Tables,
    ) -> Result<(), NameFault>
        ensures owned { OnOk result
            (map assignment_of tables.new.assignments.items
            ≡ map assignment_of tables.old.assignments.items ++ (self.entry.number, name_at name) ∷ []) }
        ensures roots { OnOk result
            (sources_of tables.new.roots.items
            ≡ sources_of tables.old.roots.items
            ++ record {
              tree = type_tree_of syntax;
              assignment = length tables.old.assignments.items;
              place = None;
            } ∷ []) }
        ensures values { tables.new.values.items ≡ tables.old.values.items }
        ensures written { OnOk result
            (syntaxes tables.new.roots.items ≡ syntaxes tables.old.roots.items ++ syntax ∷ []) }
        ensures place { OnOk result
            (assignment_places tables.new.assignments.items
            ≡ assignment_places tables.old.assignments.items ++ name.at ∷ []) }
        ensures fault { IfErr result (λ e. e ≡ faults.Memory) }
    {
        let assignment = tables.assignments.len();
        tables.roots.push_back(Source {
            syntax,
            assignment,
            place: None,
        })?;
        tables.assignments.push(AssignedAt {
            module: self.number,
            name,
        })?;
        Ok(())
    }

    /// Adds the assignment of a type to the names and tables.
    fn add_type(
        self,
        given: TypeAssignment,
        assigned: &mut IndexMap<String, At<Assigned>, NameHasher>,
        tables: &mut Tables,
    ) -> Result<(), NameFault>
        ensures named { OnOk result
            (meanings assigned.new.entries
            ≡ meanings assigned.old.entries ++ named_next tables.old (given_of (givens.Type given) ∷ [])) }
        ensures spots { OnOk result
            (offsets assigned.new.entries ≡ offsets assigned.old.entries ++ name_spot given.name ∷ []) }
        ensures fresh { OnOk result (under (name_at given.name) (meanings assigned.old.entries) ≡ None) }
        ensures adds { OnOk result (Adds self.entry.number (given_of (givens.Type given) ∷ []) tables.old tables.new) }
        ensures written { OnOk result (AddsWritten (givens.Type given ∷ []) tables.old tables.new) }
        ensures fault { IfErr result
            (IsTwice self.entry.name.now (name_at given.name) (meanings assigned.old.entries)) }
        ensures at { IfErr result (IsTwiceAt given.name.at) }
    {
        let TypeAssignment { name, syntax } = given;
        let meaning = Assigned::Type(tables.assignments.len());
        match self.name_once(&name, meaning, assigned) {
            Ok(()) => {}
            Err(fault) => return Err(fault),
        }
        self.place(name, syntax, tables)?;
        Ok(())
    }

    /// Adds the assignment of a value to the names and tables.
    fn add_value(
        self,
        given: ValueAssignment,
        assigned: &mut IndexMap<String, At<Assigned>, NameHasher>,
        tables: &mut Tables,
    ) -> Result<(), NameFault>
        ensures named { OnOk result
            (meanings assigned.new.entries
            ≡ meanings assigned.old.entries ++ named_next tables.old (given_of (givens.Value given) ∷ [])) }
        ensures spots { OnOk result
            (offsets assigned.new.entries ≡ offsets assigned.old.entries ++ name_spot given.name ∷ []) }
        ensures fresh { OnOk result (under (name_at given.name) (meanings assigned.old.entries) ≡ None) }
        ensures adds { OnOk result (Adds self.entry.number (given_of (givens.Value given) ∷ []) tables.old tables.new) }
        ensures written { OnOk result (AddsWritten (givens.Value given ∷ []) tables.old tables.new) }
        ensures fault { IfErr result
            (IsTwice self.entry.name.now (name_at given.name) (meanings assigned.old.entries)) }
        ensures at { IfErr result (IsTwiceAt given.name.at) }
    {
        let ValueAssignment {
            name,
            syntax,
            value,
        } = given;
        let meaning = Assigned::Value(tables.values.len());
        match self.name_once(&name, meaning, assigned) {
            Ok(()) => {}
            Err(fault) => return Err(fault),
        }
        let number = tables.assignments.len();
        tables.values.push(ValueAt {
            assignment: number,
            ty: number,
            syntax: value,
        })?;
        self.place(name, syntax, tables)?;
        Ok(())
    }

    /// Adds an assignment to the names and tables.
    fn add(
        self,
        given: Assignment,
        assigned: &mut IndexMap<String, At<Assigned>, NameHasher>,
        tables: &mut Tables,
    ) -> Result<(), NameFault>
        ensures named { OnOk result
            (meanings assigned.new.entries
            ≡ meanings assigned.old.entries ++ named_next tables.old (given_of given ∷ [])) }
        ensures spots { OnOk result
            (offsets assigned.new.entries ≡ offsets assigned.old.entries ++ assigned_spots (given ∷ [])) }
        ensures fresh { OnOk result (under (name_of (given_of given)) (meanings assigned.old.entries) ≡ None) }
        ensures adds { OnOk result (Adds self.entry.number (given_of given ∷ []) tables.old tables.new) }
        ensures written { OnOk result (AddsWritten (given ∷ []) tables.old tables.new) }
        ensures fault { IfErr result
            (IsTwice self.entry.name.now (name_of (given_of given)) (meanings assigned.old.entries)) }
        ensures at { IfErr result (IsTwiceAt (name_place given)) }
    {
        match given {
            Assignment::Type(ty) => self.add_type(ty, assigned, tables),
            Assignment::Value(value) => self.add_value(value, assigned, tables),
        }
    }

    /// Adds the assignments of a module.
    fn add_all(
        self,
        givens: Vec<Assignment>,
        assigned: &mut IndexMap<String, At<Assigned>, NameHasher>,
        tables: &mut Tables,
    ) -> Result<(), NameFault>
        requires empty { assigned.old.entries ≡ [] }
        ensures named { OnOk result
            (meanings assigned.new.entries ≡ named_next tables.old (map given_of givens.items)) }
        ensures spots { OnOk result (offsets assigned.new.entries ≡ assigned_spots givens.items) }
        ensures distinct { OnOk result (AreDifferent (map name_of (map given_of givens.items))) }
        ensures adds { OnOk result (Adds self.entry.number (map given_of givens.items) tables.old tables.new) }
        ensures written { OnOk result (AddsWritten givens.items tables.old tables.new) }
        ensures fault { IfErr result (IsRepeated self.entry.name.now (map name_of (map given_of givens.items))) }
        ensures place { IfErr result (IsAgainIn self.entry.name.now (assigned_spots givens.items) []) }
    {
        for given in givens {
            match self.add(given, assigned, tables) {
                Ok(()) => {}
                Err(fault) => return Err(fault),
            }
        }
        Ok(())
    }

    /// Imports a name from a module, or refuses to give it a second meaning with `Twice`. Assignments come after the
    /// imports in a module's text, so the fault of an assigned name has the offset of its assignment.
    fn import_once(
        self,
        name: At<String>,
        from: &Rc<At<String>>,
        assigned: &IndexMap<String, At<Assigned>, NameHasher>,
        imports: &mut IndexMap<String, Origin, NameHasher>,
    ) -> Result<(), NameFault>
        ensures ok { OnOk result
            (origins imports.new.entries ≡ origins imports.old.entries ++ (name_at name, name_at from.now.value) ∷ []) }
        ensures spots { OnOk result
            (origin_offsets imports.new.entries ≡ origin_offsets imports.old.entries ++ name_spot name ∷ []) }
        ensures written { OnOk result
            (origin_spots imports.new.entries
            ≡ origin_spots imports.old.entries ++ import_spot from.now.value name ∷ []) }
        ensures unassigned { OnOk result (under (name_at name) (meanings assigned.now.entries) ≡ None) }
        ensures fresh { OnOk result (under (name_at name) (origins imports.old.entries) ≡ None) }
        ensures fault { IfErr result
            (IsTaken self.entry.name.now (name_at name) (named_by assigned.now.entries (origins imports.old.entries))) }
        ensures at { under (name_at name) (meanings assigned.now.entries) ≡ None → IfErr result (IsTwiceAt name.at) }
        ensures assigned_at { (n : ℕ) →
            under (name_at name) (offsets assigned.now.entries) ≡ Some n →
            IfErr result (IsTwiceAt n) }
    {
        match given_in(assigned, name.it.as_str()) {
            Some(given) => {
                return Err(NameFault::Twice(source_location(
                    self.alloc,
                    self.name,
                    name.it.as_str(),
                    given.at,
                )?));
            }
            None => {}
        }
        match origin_in(imports, name.it.as_str()) {
            Some(_) => Err(NameFault::Twice(source_location(
                self.alloc,
                self.name,
                name.it.as_str(),
                name.at,
            )?)),
            None => {
                let origin = Origin {
                    at: name.at,
                    module: from.clone()?,
                };
                imports.insert(name.it, origin)?;
                Ok(())
            }
        }
    }

    /// Imports names from one module.
    fn import_names(
        self,
        names: Vec<At<String>>,
        from: &Rc<At<String>>,
        assigned: &IndexMap<String, At<Assigned>, NameHasher>,
        imports: &mut IndexMap<String, Origin, NameHasher>,
    ) -> Result<(), NameFault>
        requires distinct { AreDifferent (named_by assigned.now.entries (origins imports.old.entries)) }
        ensures ok { OnOk result
            (origins imports.new.entries
            ≡ origins imports.old.entries ++ map (λ x. (x, name_at from.now.value)) (map name_at names.items)) }
        ensures spots { OnOk result
            (origin_offsets imports.new.entries ≡ origin_offsets imports.old.entries ++ map name_spot names.items) }
        ensures written { OnOk result
            (origin_spots imports.new.entries
            ≡ origin_spots imports.old.entries ++ map (import_spot from.now.value) names.items) }
        ensures distinct { OnOk result (AreDifferent (named_by assigned.now.entries (origins imports.new.entries))) }
        ensures fault { IfErr result
            (IsRepeated self.entry.name.now
            (named_by assigned.now.entries
            (origins imports.old.entries ++ map (λ x. (x, name_at from.now.value)) (map name_at names.items)))) }
        ensures place { IfErr result
            (IsAgainIn self.entry.name.now
            (offsets assigned.now.entries)
            (origin_offsets imports.old.entries ++ map name_spot names.items)) }
    {
        for name in names {
            match self.import_once(name, from, assigned, imports) {
                Ok(()) => {}
                Err(fault) => return Err(fault),
            }
        }
        Ok(())
    }

    /// Imports names from modules, in order.
    fn import_all(
        self,
        given: Vec<Import>,
        assigned: &IndexMap<String, At<Assigned>, NameHasher>,
        imports: &mut IndexMap<String, Origin, NameHasher>,
    ) -> Result<(), NameFault>
        requires distinct { AreDifferent (names_of (meanings assigned.now.entries)) }
        requires empty { imports.old.entries ≡ [] }
        ensures ok { OnOk result (origins imports.new.entries ≡ imports_of (map import_of given.items)) }
        ensures written { OnOk result (origin_spots imports.new.entries ≡ written_imports given.items) }
        ensures distinct { OnOk result
            (AreDifferent (named_by assigned.now.entries (imports_of (map import_of given.items)))) }
        ensures fault { IfErr result
            (IsRepeated self.entry.name.now (named_by assigned.now.entries (imports_of (map import_of given.items)))) }
        ensures place { IfErr result
            (IsAgainIn self.entry.name.now (offsets assigned.now.entries) (import_spots given.items)) }
    {
        for Import {
            names,
            module: from,
        } in given {
            let from = Rc::new(self.alloc, from)?;
            match self.import_names(names, &from, assigned, imports) {
                Ok(()) => {}
                Err(fault) => return Err(fault),
            }
        }
        Ok(())
    }

    /// The names of a module, whose types and values are added to the tables after the others.
    fn scope(
        self,
        exports: Option<Vec<At<String>>>,
        given: Vec<Import>,
        assignments: Vec<Assignment>,
        tables: &mut Tables,
    ) -> Result<Scope, NameFault>
        ensures scope { IfOk result (λ s.
            module_of s ≡ record {
              assigned = named_next tables.old (map given_of assignments.items);
              imports = imports_of (map import_of given.items);
              exports = option_map (λ xs. map name_at xs.items) exports;
            }) }
        ensures spots { IfOk result (λ s.
            spots_of s ≡ record {
              exports = option_map (λ xs. map name_spot xs.items) exports;
              imports = written_imports given.items;
            }) }
        ensures distinct { OnOk result
            (AreDifferent
            (map name_of (map given_of assignments.items) ++ names_of (imports_of (map import_of given.items)))) }
        ensures adds { OnOk result (Adds self.entry.number (map given_of assignments.items) tables.old tables.new) }
        ensures written { OnOk result (AddsWritten assignments.items tables.old tables.new) }
        ensures fault { IfErr result
            (IsRepeated self.entry.name.now
            (map name_of (map given_of assignments.items) ++ names_of (imports_of (map import_of given.items)))) }
        ensures place { IfErr result
            (IsAgainIn self.entry.name.now (assigned_spots assignments.items) (import_spots given.items)) }
    {
        let mut assigned = IndexMap::with_hasher(self.alloc, self.hasher);
        match self.add_all(assignments, &mut assigned, tables) {
            Ok(()) => {}
            Err(fault) => return Err(fault),
        }
        let mut imports = IndexMap::with_hasher(self.alloc, self.hasher);
        match self.import_all(given, &assigned, &mut imports) {
            Ok(()) => {}
            Err(fault) => return Err(fault),
        }
        match exports_of(self.alloc, self.hasher, exports) {
            Ok(exports) => Ok(Scope {
                assigned,
                imports,
                exports,
            }),
            Err(fault) => Err(fault),
        }
    }
}

/// Adds a module after the others.
fn add_module(
    alloc: Global,
    hasher: NameHasher,
    given: Module,
    gathered: &mut ModuleTables,
) -> Result<(), NameFault>
    ensures ok { OnOk result
        ((ms : List ModuleTree) →
        HasGathered ms gathered.old →
        HasGathered (ms ++ module_tree_of given ∷ []) gathered.new) }
    ensures written { OnOk result
        ((ws : List Module') → HasWritten ws gathered.old → HasWritten (ws ++ given ∷ []) gathered.new) }
    ensures fault { IfErr result (λ e.
        (ms rest : List ModuleTree) →
        HasGathered ms gathered.old →
        IsNamingFault (ms ++ module_tree_of given ∷ rest) e) }
    ensures first { IfErr result (λ e.
        (ms rest : List ModuleTree) →
        HasGathered ms gathered.old →
        IsTwiceFirst (ms ++ module_tree_of given ∷ rest) e) }
    ensures place { IfErr result (λ e.
        (ws rest : List Module') →
        HasGathered (map module_tree_of ws) gathered.old →
        IsTwiceOf (ws ++ given ∷ rest) e) }
{
    let Module {
        name,
        tag_default,
        exports,
        imports,
        assignments,
    } = given;
    match scope_of(&gathered.modules, name.it.as_str()) {
        Some(_) => {
            let reported = source_location(alloc, name.it.as_str(), name.it.as_str(), name.at)?;
            return Err(NameFault::Twice(reported));
        }
        None => {}
    }
    let number = gathered.headers.len();
    let at = ModuleAt {
        alloc,
        number,
        name: name.it.as_str(),
        hasher,
    };
    match at.scope(exports, imports, assignments, &mut gathered.tables) {
        Ok(scope) => {
            let text = String::from_str(alloc, name.it.as_str())?;
            gathered.headers.push(Header {
                name,
                default: tag_default,
            })?;
            gathered.modules.insert(text, scope)?;
            Ok(())
        }
        Err(fault) => Err(fault),
    }
}

/// Adds modules, in order.
fn add_modules(
    alloc: Global,
    hasher: NameHasher,
    modules: Vec<Module>,
    gathered: &mut ModuleTables,
) -> Result<(), NameFault>
    requires gathered { HasGathered [] gathered.old }
    requires written { HasWritten [] gathered.old }
    ensures ok { OnOk result (HasGathered (map module_tree_of modules.items) gathered.new) }
    ensures written { OnOk result (HasWritten modules.items gathered.new) }
    ensures fault { IfErr result (IsNamingFault (map module_tree_of modules.items)) }
    ensures first { IfErr result (IsTwiceFirst (map module_tree_of modules.items)) }
    ensures place { IfErr result (IsTwiceOf modules.items) }
{
    for given in modules {
        match add_module(alloc, hasher, given, gathered) {
            Ok(()) => {}
            Err(fault) => return Err(fault),
        }
    }
    Ok(())
}

/// Gathers the names, headers, assignments, types and values of these modules. `Twice`: the first name that is given
/// twice, module by module: the name of the module, then its assignments, then its imports. `Memory`: an allocation
/// failed.
pub fn gather(alloc: Global, modules: Vec<Module>) -> Result<ModuleTables, NameFault>
    ensures ok { IfOk result (HasGathered (map module_tree_of modules.items)) }
    ensures written { IfOk result (HasWritten modules.items) }
    ensures fault { IfErr result (IsNamingFault (map module_tree_of modules.items)) }
    ensures first { IfErr result (IsTwiceFirst (map module_tree_of modules.items)) }
    ensures place { IfErr result (IsTwiceOf modules.items) }
{
    let hasher = NameHasher::of(&modules);
    let mut gathered = ModuleTables {
        modules: IndexMap::new(alloc),
        headers: Vec::new(alloc),
        tables: Tables {
            assignments: Vec::new(alloc),
            roots: VecDeque::new(alloc),
            values: Vec::new(alloc),
        },
    };
    match add_modules(alloc, hasher, modules, &mut gathered) {
        Ok(()) => Ok(gathered),
        Err(fault) => Err(fault),
    }
}
