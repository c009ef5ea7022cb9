//! The types of bounded modules, after all rules for them were checked.

ghost use Rattle.std.specs.Prelude.{MatchResult};
ghost use Rattle.asn_base.specs.Seen.{types_of};
ghost use Rattle.extensions.specs.Faults.{IsRightExtensionFault};
ghost use Rattle.extensions.specs.SchemaOfModules.{IsLinkedProgram, HaveSchema};

use crate::assigned::all_typed;
use crate::defaults::all_defaults;
use crate::each_type::all_types;
use crate::fault::{ExtFault, of_additions, of_assigned};
use crate::wrong::Wrong;
use asn_base::schema::Resolved;
use constraints::Bounded;
use settled::additions::additions;
use std::alloc::Global;
use typed_values::Defaults;

/// The types of the schema of bounded modules: one for each written type, with the same number. The modules must be
/// those that parsing and linking give. First markers and additions are checked, then each DEFAULT in the order of
/// written types (X.680, clause 25.1), and then each value assignment (clause 16.2).
///
/// The error is the first fault in this order: `Additions`, `Default` or `Assigned`. `Memory`: an allocation failed.
pub fn settled_types<'a>(
    alloc: Global,
    bounded: &Bounded<'a>,
) -> Result<Vec<Resolved>, ExtFault<'a>>
    requires { IsLinkedProgram bounded.now.program }
    ensures { MatchResult result
        (λ v. HaveSchema bounded.now.program (types_of v.items))
        (IsRightExtensionFault bounded.now) }
{
    match additions(alloc, bounded) {
        Ok(()) => {}
        Err(fault) => return Err(of_additions(fault)),
    }
    let mut known = match Defaults::of(alloc, bounded) {
        Ok(known) => known,
        Err(_) => return Err(ExtFault::Memory),
    };
    let table = match all_defaults(alloc, bounded, &mut known, bounded.linked().types()) {
        Ok(table) => table,
        Err(Wrong::Memory) => return Err(ExtFault::Memory),
        Err(Wrong::At(fault)) => return Err(ExtFault::Default(fault)),
    };
    match all_typed(alloc, bounded, &mut known, bounded.linked().values()) {
        Ok(()) => {}
        Err(wrong) => return Err(of_assigned(wrong)),
    }
    match all_types(alloc, bounded, &table) {
        Ok(types) => Ok(types),
        Err(_) => Err(ExtFault::Memory),
    }
}
