//! Checks bounded modules for what extension markers require.

ghost use Rattle.std.specs.Prelude.{◌≡◌, ◌<◌, Some, length, slice_get, MatchResult};
ghost use Rattle.type_table.specs.Seen.{type_of};
ghost use Rattle.type_table.specs.Lists.{AreSound};
ghost use Rattle.additions.specs.Additions.{KeepAdditions};
ghost use Rattle.additions.specs.Faults.{IsRightAdditionsFault};
ghost use Rattle.additions.specs.First.{IsFirstNamed};

use crate::check::{Fault, Rule, check};
use crate::fault::{ExtFault, fault_of};
use asn_base::schema::TypeId;
use constraints::Bounded;
use names::fault::source_location;
use resolve::Linked;
use std::alloc::Global;
use type_table::TypeNode;

/// A type as it is written in a text.
fn written_at(linked: &Linked, ty: usize) -> &TypeNode
    requires { ty < length linked.now.program.types }
    ensures { slice_get linked.now.program.types ty ≡ Some (type_of result.now) }
{
    &linked.types()[ty]
}

/// The fault that a type breaks a rule, with the names of its module and of the assignment in which it is written.
fn reported(alloc: Global, linked: &Linked, rule: Rule, ty: usize, at: usize) -> ExtFault
    requires there { ty < length linked.now.program.types }
    requires breaks { IsFirstNamed linked.now.program.types linked.now.types rule ty at }
    ensures { IsRightAdditionsFault linked.now result }
{
    let home = linked.home(TypeId { index: ty });
    let _written = written_at(linked, ty);
    match source_location(alloc, home.module, home.name, at) {
        Ok(source_location) => fault_of(rule, source_location),
        Err(_) => ExtFault::Memory,
    }
}

/// Whether bounded modules are as extension markers require (X.680, clauses 20, 25, 27 and 29). If not, the fault is
/// the first one, by the numbers of types, and in each type by the order of its text. It has the module, the name of
/// the assignment and the offset in the modules' text: `MarkerPlace`, `AdditionOrder` or `DefaultAddition`. `Memory`:
/// an allocation failed. The modules' lists are sound, as linking guarantees.
pub fn additions(alloc: Global, bounded: &Bounded<'_>) -> Result<(), ExtFault>
    requires sound { AreSound bounded.now.program.types }
    ensures { MatchResult result (λ _. KeepAdditions bounded.now.program.types) (IsRightAdditionsFault bounded.now) }
{
    let tagged = bounded.tagged();
    match check(alloc, tagged) {
        Ok(()) => Ok(()),
        Err(Fault::Memory) => Err(ExtFault::Memory),
        Err(Fault::At(rule, ty, at)) => Err(reported(alloc, tagged.linked(), rule, ty, at)),
    }
}
