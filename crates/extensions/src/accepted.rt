//! The schema of bounded modules: their settled types are those of an accepted schema.

ghost use Rattle.std.specs.Prelude.{◌≡◌, MatchResult};
ghost use Rattle.asn_base.specs.Schemas.{IsSchema};
ghost use Rattle.asn_base.specs.Seen.{types_of};
ghost use Rattle.extensions.specs.Faults.{IsRightExtensionFault};
ghost use Rattle.extensions.specs.SchemaOfModules.{HaveSchema, IsLinkedProgram, SchemaOfModules};

use crate::fault::ExtFault;
use crate::schema::settled_types;
use asn_base::schema::{Resolved, Schema};
use constraints::Bounded;
use settled::law::{lemma_program_schema_is_schema, lemma_tags_are_kept};
use std::alloc::Global;

/// The schema with these settled types, for modules that keep all rules.
fn accepted(bounded: &Bounded<'_>, types: Vec<Resolved>) -> Schema
    requires read { IsLinkedProgram bounded.now.program }
    requires settled { HaveSchema bounded.now.program (types_of types.items) }
    ensures same { result ≡ types_of types.items }
    ensures accepted { IsSchema result }
{
    lemma_tags_are_kept();
    lemma_program_schema_is_schema();
    let tagged = bounded.tagged();
    let linked = tagged.linked();
    linked.lemma_whole();
    Schema::of(types)
}

/// The schema of bounded modules. It has a type for each written type, with the same number, as in [`settled_types`],
/// and has the properties of an accepted schema. The modules must be those that parsing and linking give.
///
/// The error is the first fault, in this order: `Additions` with `MarkerPlace`, `AdditionOrder` or `DefaultAddition`,
/// `Default` for a DEFAULT, and `Assigned` for a value assignment. `Memory`: an allocation failed.
pub fn settle<'a>(alloc: Global, bounded: &Bounded<'a>) -> Result<Schema, ExtFault<'a>>
    requires { IsLinkedProgram bounded.now.program }
    ensures { MatchResult result (SchemaOfModules bounded.now.program) (IsRightExtensionFault bounded.now) }
{
    match settled_types(alloc, bounded) {
        Ok(types) => Ok(accepted(bounded, types)),
        Err(fault) => Err(fault),
    }
}
