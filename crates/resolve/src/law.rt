//! Laws of linking.

ghost use Rattle.std.specs.Prelude.{◌≡◌, List, map};
ghost use Rattle.trees.specs.Values.{Name};
ghost use Rattle.trees.specs.Modules.{ModuleTree};
ghost use Rattle.trees.specs.declared.module.Module.{Module as Module'};
ghost use Rattle.names.specs.declared.fault.NameFault.{NameFault};
ghost use Rattle.names.specs.declared.sources.ValueAt.{ValueAt};
ghost use Rattle.names.specs.declared.scope.Assigned.{Assigned};
ghost use Rattle.names.specs.Modules.{AreNamed};
ghost use Rattle.names.specs.Names.{Meaning};
ghost use Rattle.type_table.specs.declared.table.TypeNode.{TypeNode};
ghost use Rattle.names.specs.Faults.{ReportsAlike};
ghost use Rattle.type_table.specs.Written.{text_kept};
ghost use Rattle.resolve.specs.First.{IsFirstLink, IsFirstOfProgram, IsTextOf, IsWrittenAs};
ghost use Rattle.resolve.specs.Links.{FaultsExclude, IsProgramOf, Links};
ghost use Rattle.resolve.specs.Program.{IsWhole, Program, WrittenProgram};

use names::law::{lemma_all_there, lemma_apart, lemma_name_faults_exclude};
use type_table::law::{
    lemma_numbered_linked, lemma_numbered_there, lemma_one_first_in_list, lemma_one_table,
    lemma_table_faults_exclude,
};

/// Modules have at most one program.
pub fn one_program()
    ensures { (ms : List ModuleTree) (p q : Program) → AreNamed ms → IsProgramOf ms p → IsProgramOf ms q → p ≡ q }
{
    lemma_apart();
    lemma_one_table();
}

/// Modules with a fault other than `Memory` can't be linked. So [`crate::link`] is Ok exactly if the modules can be
/// linked and no allocation fails.
pub fn lemma_link_faults_exclude()
    ensures { FaultsExclude }
{
    lemma_apart();
    lemma_one_table();
    lemma_name_faults_exclude();
    lemma_table_faults_exclude();
}

/// At most one fault is the first of a program: two first faults of a program whose types and values are written so are
/// of one rule, module, name and offset. The faults are those of lists, of circles of DEFAULTs, and of names after
/// modules' names.
pub fn one_fault()
    ensures { (p : Program) (ws : List TypeNode) (vs : List ValueAt) (e f : NameFault) →
        IsWrittenAs p ws vs →
        IsFirstOfProgram p ws vs e →
        IsFirstOfProgram p ws vs f →
        ReportsAlike e f }
{
    lemma_one_first_in_list();
}

/// Modules, as they are written, have at most one first fault of linking: two faults that are first are of one rule,
/// module, name and offset. `Memory` says nothing.
pub fn one_link_fault()
    ensures { (ws : List Module') (e f : NameFault) → IsFirstLink ws e → IsFirstLink ws f → ReportsAlike e f }
{
    lemma_apart();
    lemma_name_faults_exclude();
    lemma_one_table();
    lemma_numbered_there();
    lemma_one_first_in_list();
    type_table::law::one_text();
    type_table::law::one_first_fault();
    names::law::one_first_fault();
}

/// Modules have at most one text: the types of their program are at the same offsets, whatever their addresses in
/// memory, and its values are the same.
pub fn one_text()
    ensures types { (ws : List Module') (v w : WrittenProgram) →
        IsTextOf ws v →
        IsTextOf ws w →
        map text_kept v.types ≡ map text_kept w.types }
    ensures values { (ws : List Module') (v w : WrittenProgram) →
        v.program ≡ w.program →
        IsTextOf ws v →
        IsTextOf ws w →
        v.values ≡ w.values }
{
    type_table::law::one_text();
}

/// In linked modules a name has at most one meaning in a module. All that names and types refer to is there, and each
/// type unfolds. `constraints::law::one_fault` has these as premises.
pub fn linked()
    ensures meaning { (ms : List ModuleTree) (p : Program) →
        Links ms p →
        (M x : Name) (a b : Assigned) →
        Meaning p.modules M x a →
        Meaning p.modules M x b →
        a ≡ b }
    ensures whole { (ms : List ModuleTree) (p : Program) → Links ms p → IsWhole p }
{
    lemma_apart();
    lemma_all_there();
    lemma_numbered_there();
    lemma_numbered_linked();
}
