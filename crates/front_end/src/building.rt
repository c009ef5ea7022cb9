//! Builds the program of modules and its types, layer by layer: what each layer gives, or which fault is true.

ghost use Rattle.std.specs.Prelude.{◌≡◌, IfOk, IfErr, MatchResult, map};
ghost use Rattle.trees.specs.Modules.{module_tree_of};
ghost use Rattle.resolve.specs.First.{IsTextOf};
ghost use Rattle.resolve.specs.Links.{Links};
ghost use Rattle.tagging.specs.Tables.{AreTagsOf};
ghost use Rattle.tagging.specs.Tagged.{IsTagged};
ghost use Rattle.constraints.specs.Bounded.{AreBounded};
ghost use Rattle.constraints.specs.Tables.{AreBoundsOf};
ghost use Rattle.extensions.specs.Faults.{IsRightExtensionFault};
ghost use Rattle.extensions.specs.SchemaOfModules.{IsLinkedProgram, SchemaOfModules};
ghost use Rattle.front_end.specs.Accepted.{IsCheckedProgram};
ghost use Rattle.front_end.specs.Faults.{IsLinkedFault};
ghost use Rattle.front_end.specs.proving.Steps.{IsNamesFault};

use crate::fault::CompileError;
use crate::front::CheckedModules;
use crate::modules::Modules;
use asn_base::schema::Schema;
use constraints::{BoundFault, BoundTable, Bounded, bound_table};
use extensions::{ExtFault, settle};
use names::NameFault;
use resolve::{Linked, link};
use std::alloc::Global;
use syntax::Module;
use tagging::{TagFault, TagTable, Tagged, tag_table};
use value_diagnostics::diagnostic;

/// The linked modules, in which each name has one meaning.
pub(crate) fn linked(alloc: Global, modules: Vec<Module>) -> Result<Linked, CompileError>
    ensures linked { IfOk result (λ p. Links (map module_tree_of modules.items) p.program) }
    ensures text { IfOk result (IsTextOf modules.items) }
    ensures fault { IfErr result (IsNamesFault modules.items) }
{
    match link(alloc, modules) {
        Ok(linked) => Ok(linked),
        Err(NameFault::Memory) => Err(CompileError::Memory),
        Err(fault) => Err(CompileError::Name(fault)),
    }
}

/// What is found once for the tags of linked modules.
fn tags_of(alloc: Global, linked: &Linked) -> Result<TagTable, CompileError>
    ensures { MatchResult result (AreTagsOf linked.now.program) (IsLinkedFault linked.now) }
{
    match tag_table(alloc, linked) {
        Ok(tags) => Ok(tags),
        Err(TagFault::Memory) => Err(CompileError::Memory),
        Err(fault) => Err(CompileError::Tag(fault)),
    }
}

/// What is found once for the constraints of tagged modules.
fn bounds_of(alloc: Global, tagged: &Tagged<'_>) -> Result<BoundTable, CompileError>
    ensures { MatchResult result (AreBoundsOf tagged.now.program) (IsLinkedFault tagged.now) }
{
    tagged.linked();
    match bound_table(alloc, tagged) {
        Ok(bounds) => Ok(bounds),
        Err(BoundFault::Memory) => Err(CompileError::Memory),
        Err(fault) => Err(CompileError::Bound(fault)),
    }
}

/// What is reported for a fault of bounded modules.
fn compile_error<'a>(alloc: Global, bounded: &Bounded<'a>, fault: ExtFault<'a>) -> CompileError
    requires tagged { IsTagged bounded.now.program.types }
    requires bounded { AreBounded bounded.now.program }
    requires is_so { IsRightExtensionFault bounded.now fault }
    ensures { IsLinkedFault bounded.now result }
{
    value_diagnostics::law::lemma_types_exist();
    let linked = bounded.linked();
    linked.lemma_whole();
    match fault {
        ExtFault::Memory => CompileError::Memory,
        ExtFault::Additions(fault) => CompileError::Additions(fault),
        ExtFault::Default(fault) => match diagnostic(alloc, bounded, fault) {
            Ok(diagnostic) => CompileError::Default(diagnostic),
            Err(_) => CompileError::Memory,
        },
        ExtFault::Assigned(fault) => match diagnostic(alloc, bounded, fault) {
            Ok(diagnostic) => CompileError::Assigned(diagnostic),
            Err(_) => CompileError::Memory,
        },
    }
}

/// The types of bounded modules, settled.
fn settled(alloc: Global, bounded: &Bounded<'_>) -> Result<Schema, CompileError>
    requires read { IsLinkedProgram bounded.now.program }
    requires tagged { IsTagged bounded.now.program.types }
    requires bounded { AreBounded bounded.now.program }
    ensures { MatchResult result (SchemaOfModules bounded.now.program) (IsLinkedFault bounded.now) }
{
    match settle(alloc, bounded) {
        Ok(schema) => Ok(schema),
        Err(fault) => Err(compile_error(alloc, bounded, fault)),
    }
}

/// What is found once for the constraints of linked modules, which have these tags.
fn bounds_by(alloc: Global, linked: &Linked, tags: &TagTable) -> Result<BoundTable, CompileError>
    requires { AreTagsOf linked.now.program tags.now }
    ensures { MatchResult result (AreBoundsOf linked.now.program) (IsLinkedFault linked.now) }
{
    match bounds_of(alloc, &Tagged::with_table(linked, tags)) {
        Ok(bounds) => Ok(bounds),
        Err(fault) => Err(fault),
    }
}

/// The types of linked modules, which have these tags and bounds, settled.
fn schema_by(
    alloc: Global,
    linked: &Linked,
    tags: &TagTable,
    bounds: &BoundTable,
) -> Result<Schema, CompileError>
    requires read { IsLinkedProgram linked.now.program }
    requires tags { AreTagsOf linked.now.program tags.now }
    requires bounds { AreBoundsOf linked.now.program bounds.now }
    ensures { MatchResult result (SchemaOfModules linked.now.program) (IsLinkedFault linked.now) }
{
    let tagged = Tagged::with_table(linked, tags);
    tagged.linked();
    let bounded = Bounded::with_table(&tagged, bounds);
    bounded.lemma_whole();
    match settled(alloc, &bounded) {
        Ok(schema) => Ok(schema),
        Err(fault) => Err(fault),
    }
}

/// Linked modules and their types, after they are tagged, bounded and settled.
pub(crate) fn build_checked(alloc: Global, linked: Linked) -> Result<CheckedModules, CompileError>
    requires { IsLinkedProgram linked.program }
    ensures same { IfOk result (λ f. f.modules ≡ linked.program) }
    ensures kept { IfOk result (λ _. IsCheckedProgram linked.program) }
    ensures settled { IfOk result (λ f. SchemaOfModules linked.program f.schema) }
    ensures fault { IfErr result (IsLinkedFault linked) }
{
    let tags = match tags_of(alloc, &linked) {
        Ok(tags) => tags,
        Err(fault) => return Err(fault),
    };
    let bounds = match bounds_by(alloc, &linked, &tags) {
        Ok(bounds) => bounds,
        Err(fault) => return Err(fault),
    };
    let schema = match schema_by(alloc, &linked, &tags, &bounds) {
        Ok(schema) => schema,
        Err(fault) => return Err(fault),
    };
    let modules = Modules::of(linked, tags, bounds);
    Ok(CheckedModules { modules, schema })
}
