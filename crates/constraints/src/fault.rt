//! What can be wrong with constraints.

ghost use Rattle.std.specs.Prelude.{◌≡◌, ◌<◌, ℕ, List, length, Some, slice_get};
ghost use Rattle.names.specs.Faults.{fault_module, fault_name};
ghost use Rattle.names.specs.Sources.{value_seen};
ghost use Rattle.names.specs.declared.sources.AssignedAt.{AssignedAt as AssignedAt'};
ghost use Rattle.resolve.specs.Program.{Program, IsAssignment};
ghost use Rattle.tagging.specs.Faults.{IsWrittenIn};
ghost use Rattle.type_table.specs.declared.table.TypeNode.{TypeNode};
ghost use Rattle.constraints.specs.Faults.{IsRightFault};
ghost use Rattle.constraints.specs.First.{IsFirst, IsFirstFault};
ghost use Rattle.constraints.specs.proving.Reported.{IsAssignedAt, IsFirstOne, ReportsFirstOf};
ghost use Rattle.constraints.specs.declared.column.Fault.TheVariants as column;
ghost use Rattle.constraints.specs.proving.Columns.{Breaks, IsFault, IsRoundAt};

use crate::column::{Fault, written_at};
use crate::meaning::Rule;
use asn_base::schema::TypeId;
use names::fault::source_location;
use names::{AssignedAt, ValueAt};
use resolve::Linked;
use std::alloc::Global;
use thiserror::Error;
use trees::SourceLocation;

/// What is wrong, with the module, the name of the assignment, and the place in the module's text.
#[derive(Debug, Drop, Error)]
pub enum BoundFault {
    /// An allocation failed.
    #[error("1 Memory")]
    Memory,
    /// An end of a range leads into a circle of values. This one is the first that is met a second time.
    #[error("33 Circular: {0}")]
    Circular(SourceLocation),
    /// The constraints of the type at the place allow no number, no size or no character (X.680, clause 49.1). These
    /// constraints include those of the types to which references and tags lead from the type.
    #[error("50 Empty: {0}")]
    Empty(SourceLocation),
    /// The type doesn't take the constraint at the place. Or an end of a range at the place isn't a number, is a size
    /// below 0, or isn't a single character (X.680, clauses 51.2, 51.4, 51.5 and 51.7).
    #[error("51 WrongKind: {0}")]
    WrongKind(SourceLocation),
    /// The constraint at the place comes after one with an extension marker. X.680 allows it, but this compiler doesn't
    /// support it.
    #[error("52 Reconstrained: {0}")]
    Reconstrained(SourceLocation),
    /// The lower end of a range, at the place, is above its upper end (X.680, clause 51.4.3).
    #[error("53 LowerAboveUpper: {0}")]
    LowerAboveUpper(SourceLocation),
    /// The constraint at the place has an extension marker that this compiler doesn't take: after several values or
    /// ranges, or in the SIZE of a character string.
    #[error("55 MarkerPlace: {0}")]
    MarkerPlace(SourceLocation),
}

/// The fault that a type breaks a rule at a spot.
fn fault_of(rule: Rule, source_location: SourceLocation) -> BoundFault
    ensures is_so { (p : Program) (i : ℕ) →
        Breaks p rule i →
        IsWrittenIn p i (fault_module source_location) (fault_name source_location) →
        IsRightFault p result }
    ensures first { (p : Program) (ws : List TypeNode) (gs : List AssignedAt') (i : ℕ) →
        IsFirstFault p ws (column.At rule i source_location.at) →
        IsWrittenIn p i (fault_module source_location) (fault_name source_location) →
        IsFirst p ws gs result }
{
    match rule {
        Rule::Empty => BoundFault::Empty(source_location),
        Rule::WrongKind => BoundFault::WrongKind(source_location),
        Rule::Reconstrained => BoundFault::Reconstrained(source_location),
        Rule::LowerAboveUpper => BoundFault::LowerAboveUpper(source_location),
        Rule::MarkerPlace => BoundFault::MarkerPlace(source_location),
    }
}

/// The fault that a type breaks a rule.
fn broken(alloc: Global, linked: &Linked, rule: Rule, ty: usize, at: usize) -> BoundFault
    requires there { ty < length linked.now.program.types }
    requires breaks { Breaks linked.now.program rule ty }
    ensures is_so { IsRightFault linked.now.program result }
    ensures first { IsFirstOne linked.now (column.At rule ty at) →
        IsFirst linked.now.program linked.now.types linked.now.assignments result }
{
    let home = linked.home(TypeId { index: ty });
    let _written = written_at(linked, ty);
    match source_location(alloc, home.module, home.name, at) {
        Ok(source_location) => fault_of(rule, source_location),
        Err(_) => BoundFault::Memory,
    }
}

/// An assigned value, by its number.
fn value_at(linked: &Linked, value: usize) -> &ValueAt
    requires { value < length linked.now.program.values }
    ensures { slice_get linked.now.program.values value ≡ Some (value_seen result.now) }
{
    &linked.values()[value]
}

/// An assignment, by its number.
fn assigned_at(linked: &Linked, assignment: usize) -> &AssignedAt
    requires { assignment < length linked.now.program.assignments }
    ensures { IsAssignedAt linked.now assignment result.now }
{
    &linked.assignments()[assignment]
}

/// The fault that an end leads to a value which leads back to itself.
fn circular(alloc: Global, linked: &Linked, value: usize) -> BoundFault
    requires there { value < length linked.now.program.values }
    requires round { IsRoundAt linked.now.program value }
    ensures is_so { IsRightFault linked.now.program result }
    ensures first { IsFirstOne linked.now (column.Circular value) →
        IsFirst linked.now.program linked.now.types linked.now.assignments result }
{
    linked.lemma_whole();
    let written = value_at(linked, value);
    let home = linked.assigned(written.assignment);
    let assigned = assigned_at(linked, written.assignment);
    match source_location(alloc, home.module, home.name, assigned.name.at) {
        Ok(source_location) => BoundFault::Circular(source_location),
        Err(_) => BoundFault::Memory,
    }
}

/// The fault of the constraints of linked modules, with the names with which it is reported.
pub(crate) fn reported(alloc: Global, linked: &Linked, fault: Fault) -> BoundFault
    requires { IsFault linked.now.program fault }
    ensures is_so { IsRightFault linked.now.program result }
    ensures first { ReportsFirstOf linked.now fault →
        IsFirst linked.now.program linked.now.types linked.now.assignments result }
{
    match fault {
        Fault::Memory => BoundFault::Memory,
        Fault::Circular(value) => circular(alloc, linked, value),
        Fault::At(rule, ty, at) => broken(alloc, linked, rule, ty, at),
    }
}
