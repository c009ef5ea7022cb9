//! Linking of modules.

ghost use Rattle.std.specs.Prelude.{◌≡◌, map, IfOk, IfErr, List};
ghost use Rattle.names.specs.declared.fault.NameFault.TheVariants as faults;
ghost use Rattle.trees.specs.Modules.{module_tree_of};
ghost use Rattle.trees.specs.declared.module.Module.{Module as Module'};
ghost use Rattle.names.specs.Modules.{AreFew, AreNamed};
ghost use Rattle.names.specs.proving.Gathering.{HasGathered, HasWritten};
ghost use Rattle.names.specs.proving.Ready.{IsReady};
ghost use Rattle.resolve.specs.First.{IsFirstOfWritten, IsTextOf};
ghost use Rattle.resolve.specs.Links.{Links, IsLinkFault};
ghost use Rattle.resolve.specs.proving.Assembled.{IsAssembled, IsAssemblyFault, IsTextFrom};

use crate::linked::Linked;
use crate::sound::sound;
use limits::MAX_WRITTEN;
use names::gather::{ModuleTables, gather};
use names::law::{lemma_all_named, lemma_ready};
use names::{NameFault, check_all, within_limits};
use std::alloc::Global;
use trees::Module;
use type_table::number::too_many;

/// Linked modules with the indexes of the names that their types list. `Memory`: an allocation failed.
fn indexed(alloc: Global, linked: Linked) -> Result<Linked, NameFault>
    ensures same { IfOk result (λ p. p ≡ linked) }
    ensures fault { IfErr result (λ e. e ≡ faults.Memory) }
{
    let mut linked = linked;
    match linked.find_indexes(alloc) {
        Ok(()) => Ok(linked),
        Err(_) => Err(NameFault::Memory),
    }
}

/// Links the tables of modules, and checks their lists and the names in their notations.
fn assemble(alloc: Global, gathered: ModuleTables) -> Result<Linked, NameFault>
    requires ready { IsReady gathered }
    ensures assembled { IfOk result (λ p. IsAssembled gathered p.program) }
    ensures text { IfOk result (IsTextFrom gathered) }
    ensures fault { IfErr result (IsAssemblyFault gathered) }
    ensures first { (ws : List Module') →
        HasGathered (map module_tree_of ws) gathered →
        HasWritten ws gathered →
        AreNamed (map module_tree_of ws) →
        AreFew (map module_tree_of ws) →
        IfErr result (IsFirstOfWritten ws) }
{
    if gathered.tables.roots.len() > MAX_WRITTEN {
        let source = &gathered.tables.roots[MAX_WRITTEN];
        let assignment = &gathered.tables.assignments[source.assignment];
        let header = &gathered.headers[assignment.module];
        return Err(too_many(alloc, header, assignment, source.syntax.at));
    }
    match Linked::of(alloc, gathered) {
        Ok(linked) => {
            linked.lemma_whole();
            match sound(alloc, &linked) {
                Ok(()) => indexed(alloc, linked),
                Err(fault) => Err(fault),
            }
        }
        Err(fault) => Err(fault),
    }
}

/// Links modules: gives each name its meaning and each type its number (X.680, clauses 13, 14, 16, 19, 20, 22, 25, 27
/// and 29).
///
/// - `Limit`: a limit is passed. `Memory`: an allocation failed.
/// - `Twice`: a name is given twice, or a list has a name or a number twice.
/// - `UnknownModule`: names are imported from a module that isn't given. `NotExported`: the other module doesn't export
///   the name.
/// - `UnknownName`: a name has no meaning, or not the meaning that is needed, in its module.
/// - `Circular`: a type comes back to itself, or a component with a DEFAULT leads back to the list that holds it.
///
/// The fault is the first one, in this order: limits, names that are given twice, exports and imports, references to
/// types and the number of types, types that come back to themselves, lists in types, circles of DEFAULTs, names in
/// types, names in values.
pub fn link(alloc: Global, modules: Vec<Module>) -> Result<Linked, NameFault>
    ensures linked { IfOk result (λ p. Links (map module_tree_of modules.items) p.program) }
    ensures text { IfOk result (IsTextOf modules.items) }
    ensures fault { IfErr result (IsLinkFault (map module_tree_of modules.items)) }
    ensures written { IfErr result (IsFirstOfWritten modules.items) }
{
    lemma_ready();
    lemma_all_named();
    match within_limits(alloc, &modules) {
        Ok(()) => {}
        Err(fault) => return Err(fault),
    }
    let gathered = match gather(alloc, modules) {
        Ok(gathered) => gathered,
        Err(fault) => return Err(fault),
    };
    match check_all(alloc, &gathered.modules) {
        Ok(()) => {}
        Err(fault) => return Err(fault),
    }
    match assemble(alloc, gathered) {
        Ok(linked) => Ok(linked),
        Err(fault) => Err(fault),
    }
}
