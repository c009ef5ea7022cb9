//! Linked modules.

ghost use Rattle.std.specs.Prelude.{◌≡◌, ◌↔◌, ◌<◌, ◌≤◌, Some, map, option_map, IfOk, IfErr, List, length, slice_get};
ghost use Rattle.trees.specs.Modules.{module_tree_of};
ghost use Rattle.trees.specs.declared.module.Module.{Module as Module'};
ghost use Rattle.names.specs.declared.scope.Assigned.{Assigned};
ghost use Rattle.names.specs.Names.{Meaning, Refers};
ghost use Rattle.names.specs.Sources.{value_seen, assignment_of, header_of};
ghost use Rattle.names.specs.Modules.{AreFew, AreNamed};
ghost use Rattle.names.specs.proving.Gathering.{HasGathered, HasWritten};
ghost use Rattle.names.specs.proving.Ready.{IsReady};
ghost use Rattle.type_table.specs.Seen.{type_of, types_of};
ghost use Rattle.type_table.specs.declared.table.TypeNode.{TypeNode as TypeNode'};
ghost use Rattle.type_table.specs.Table.{AllUnfold, IsUnderlying, IsLinked};
ghost use Rattle.resolve.specs.First.{IsFirstOfWritten};
ghost use Rattle.resolve.specs.Finds.{Finds};
ghost use Rattle.resolve.specs.Program.{IsAssignment, IsHome, IsWhole};
ghost use Rattle.resolve.specs.proving.Assembled.{ArePlaced, IsCircularAt, IsOf, IsTablesFault, IsTextFrom, ReportsType};

use crate::name_index::{NameIndex, indexes_of};
use crate::named_shape::NamedShape;
use asn_base::schema::TypeId;
use names::fault::source_location;
use names::gather::{ModuleTables, Tables};
use names::{Assigned, AssignedAt, Header, NameFault, NameHasher, Names, ValueAt};
use std::alloc::{AllocError, Global};
use std::marker::Model;
use trees::ValueSyntax;
use type_table::TypeNode;
use type_table::law::{lemma_numbered_linked, lemma_numbered_there};
use type_table::number::number_all;
use type_table::unfolding::unfold_all;

/// The meaning of a name.
#[derive(Drop)]
pub enum Referent<'a> {
    /// A type, by its number in the table of written types.
    TypeNamed(TypeId),
    /// A value in its notation.
    ValueNamed(&'a ValueSyntax),
}

/// The names of the module and of the assignment in which something is written.
#[derive(Clone, Copy, Debug, Drop)]
pub struct QualifiedName<'a> {
    pub module: &'a str,
    pub name: &'a str,
}

/// Linked modules: each of their names has a meaning and each of their types unfolds. The table of written types
/// belongs to them.
pub struct Linked {
    names: Names,
    headers: Vec<Header>,
    assignments: Vec<AssignedAt>,
    types: Vec<TypeNode>,
    values: Vec<ValueAt>,
    /// The core of each type.
    cores: Vec<usize>,
    /// Where the names are that types list, by the types' numbers.
    indexes: Vec<NameIndex>,
}

impl Model for Linked {
    ghost use Rattle.std.specs.Coded.{codes};
    ghost use Rattle.resolve.specs.Codes.{tree_code};
    ghost use Rattle.resolve.specs.Program.{WrittenProgram};
    ghost use Rattle.trees.specs.contracts.value.ValueSyntax as value_syntax;

    ghost coded = { Prim.hlevel (codes, tree_code, value_syntax.the_row.coded) };

    ghost Value = { WrittenProgram };

    ghost use Rattle.resolve.specs.Program.{program_seen};

    ghost view = { λ l.
        record {
          program = program_seen l.names l.headers.items l.assignments.items l.types.items l.values.items;
          types = l.types.items;
          values = l.values.items;
          assignments = l.assignments.items;
        } };

    ghost use Rattle.resolve.specs.proving.Assembled.{IsKept};

    ghost invariant = { λ l. IsKept l.names l.headers.items l.assignments.items l.types.items l.values.items l.cores
        l.indexes.items };
}

/// The fault `Circular` for a type that comes back to itself. `Memory` only if an allocation fails.
fn circular_at(
    alloc: Global,
    headers: &[Header],
    assignments: &[AssignedAt],
    written: &TypeNode,
) -> NameFault
    requires assigned { written.now.assignment < length assignments.now }
    requires placed { ArePlaced assignments.now headers.now }
    ensures fault { ReportsType (map header_of headers.now) (map assignment_of assignments.now)
        (type_of written.now) result }
    ensures at { IsCircularAt written.now.at result }
{
    let assignment = &assignments[written.assignment];
    let header = &headers[assignment.module];
    match source_location(
        alloc,
        header.name.it.as_str(),
        assignment.name.it.as_str(),
        written.at,
    ) {
        Ok(source_location) => NameFault::Circular(source_location),
        Err(_) => NameFault::Memory,
    }
}

impl Linked {
    /// The meaning of a name in a module (X.680, clause 13): what the module assigns to it, or what the name means in
    /// the module that it is imported from. The result is None if there is no such module, or if the name has no
    /// meaning in it.
    pub fn find(&self, within: &str, name: &str) -> Option<Referent<'_>>
        ensures { Finds self.now.program within.now name.now result }
    {
        match self.names.find(within, name) {
            None => None,
            Some(Assigned::Type(index)) => Some(Referent::TypeNamed(TypeId { index })),
            Some(Assigned::Value(number)) => Some(Referent::ValueNamed(
                &self.values[number].syntax,
            )),
        }
    }

    /// The meaning of a name in a module, as the number of a type or of a value. It is the answer of [`Linked::find`]
    /// without the notation of the value.
    pub fn meaning(&self, within: &str, name: &str) -> Option<Assigned>
        ensures { (a : Assigned) → (result ≡ Some a ↔ Meaning self.now.program.modules within.now name.now a) }
    {
        self.names.find(within, name)
    }

    /// The meaning of a name, or of a name after a module's name, in a module, as a number. `M.x` has a meaning in M
    /// itself and where x is imported from M (X.680, clause 14.2).
    pub fn refers(&self, within: &str, owner: Option<&str>, name: &str) -> Option<Assigned>
        ensures { (a : Assigned) → (result ≡ Some a
            ↔ Refers self.now.program.modules within.now (option_map (λ o. o.now) owner.entry) name.now a) }
    {
        self.names.refers(within, owner, name)
    }

    /// How the names of the modules are hashed.
    pub fn name_hasher(&self) -> NameHasher {
        self.names.hasher()
    }

    /// A property of all linked modules: all that names and types refer to is there, and each type unfolds.
    pub fn lemma_whole(&self)
        ensures { IsWhole self.now.program }
    {
        let _types = &self.types;
    }

    /// The core of a type: the type after all its references and tags. It is the type itself if that is neither. The
    /// cores were found when the modules were linked, so the call takes constant time.
    pub fn core(&self, ty: TypeId) -> TypeId
        requires { ty.index < length self.now.program.types }
        ensures core { IsUnderlying self.now.program.types ty.index result.index }
        ensures there { result.index < length self.now.program.types }
    {
        TypeId {
            index: self.cores[ty.index],
        }
    }

    /// The shape of a type. The names that it lists are found by an index, which was made when the modules were linked,
    /// so the call takes constant time.
    pub fn shape(&self, ty: TypeId) -> NamedShape<'_>
        requires { ty.index < length self.now.program.types }
        ensures { (w : TypeNode') → slice_get self.now.types ty.index ≡ Some w → result ≡ w.shape }
    {
        let shape = &self.types[ty.index].shape;
        match self.indexes.get(ty.index) {
            None => NamedShape::of(shape),
            Some(index) => NamedShape::with_index(shape, index),
        }
    }

    /// Makes the indexes of the names that types list. `AllocError`: an allocation failed.
    pub(crate) fn find_indexes(&mut self, alloc: Global) -> Result<(), AllocError>
        ensures { self.new ≡ self.old }
    {
        self.indexes = indexes_of(alloc, &self.types)?;
        Ok(())
    }

    /// The module and the name of an assignment.
    pub fn assigned(&self, assignment: usize) -> QualifiedName<'_>
        requires { assignment < length self.now.program.assignments }
        ensures { IsAssignment self.now.program assignment result.module.now result.name.now }
    {
        let assignment = &self.assignments[assignment];
        let header = &self.headers[assignment.module];
        QualifiedName {
            module: header.name.it.as_str(),
            name: assignment.name.it.as_str(),
        }
    }

    /// The module and the name of the assignment in which a type is written.
    pub fn home(&self, ty: TypeId) -> QualifiedName<'_>
        requires { ty.index < length self.now.program.types }
        ensures { IsHome self.now.program ty.index result.module.now result.name.now }
    {
        self.assigned(self.types[ty.index].assignment)
    }

    /// The names and tag defaults of the modules, in order.
    pub fn headers(&self) -> &[Header]
        ensures { map header_of result.now ≡ self.now.program.headers }
    {
        &self.headers
    }

    /// The written types, each at its number.
    pub fn types(&self) -> &[TypeNode]
        ensures written { result.now ≡ self.now.types }
        ensures types { types_of result.now ≡ self.now.program.types }
        ensures linked { IsLinked self.now.program.types }
    {
        &self.types
    }

    /// The assigned values, each at its number.
    pub fn values(&self) -> &[ValueAt]
        ensures written { result.now ≡ self.now.values }
        ensures values { map value_seen result.now ≡ self.now.program.values }
    {
        &self.values
    }

    /// The assignments, in order.
    pub fn assignments(&self) -> &[AssignedAt]
        ensures written { result.now ≡ self.now.assignments }
        ensures assigned { map assignment_of result.now ≡ self.now.program.assignments }
    {
        &self.assignments
    }

    /// Links the tables of modules. The type of assignment n gets the number n.
    ///
    /// `UnknownName`: a reference leads to no type. `Limit`: too many types are written. `Circular`: a type comes back
    /// to itself. `Memory`: an allocation failed.
    pub(crate) fn of(alloc: Global, gathered: ModuleTables) -> Result<Linked, NameFault>
        requires ready { IsReady gathered }
        requires few { length gathered.tables.roots.items ≤ 65536 }
        ensures program { IfOk result (λ p. IsOf gathered p.program) }
        ensures few { IfOk result (λ p. length p.program.types ≤ 65536) }
        ensures fault { IfErr result (IsTablesFault gathered) }
        ensures unfolds { IfOk result (λ p. AllUnfold p.program.types) }
        ensures text { IfOk result (IsTextFrom gathered) }
        ensures first { (ws : List Module') →
            HasGathered (map module_tree_of ws) gathered →
            HasWritten ws gathered →
            AreNamed (map module_tree_of ws) →
            AreFew (map module_tree_of ws) →
            IfErr result (IsFirstOfWritten ws) }
    {
        lemma_numbered_there();
        lemma_numbered_linked();
        let ModuleTables {
            modules,
            headers,
            tables,
        } = gathered;
        let Tables {
            assignments,
            roots,
            values,
        } = tables;
        let names = Names::of(modules);
        let types = match number_all(alloc, &names, &headers, &assignments, roots) {
            Ok(types) => types,
            Err(fault) => return Err(fault),
        };
        let count = types.len();
        let mut cores = vec![in alloc; count; count]?;
        match unfold_all(&types, &mut cores) {
            Ok(()) => Ok(Linked {
                names,
                headers,
                assignments,
                types,
                values,
                cores,
                indexes: Vec::new(alloc),
            }),
            Err(circular) => Err(circular_at(alloc, &headers, &assignments, &types[circular])),
        }
    }
}

impl Drop for Linked {
    fn drop(self) {
        let Linked {
            names: _,
            headers: _,
            assignments: _,
            types: _,
            values: _,
            cores: _,
            indexes: _,
        } = self;
    }
}
