//! From a schema to its packed routines.

ghost use Rattle.asn_base.specs.Schemas.{IsSchema};
ghost use Rattle.asn_base.specs.Seen.{types_of};
ghost use Rattle.packed_code.specs.Routines.{starts_of, table_of};
ghost use Rattle.std.specs.Prelude.{◌≡◌, IfOk};

use crate::code::PackedCode;
use crate::routine::push_routine;
use crate::step::PackedStep;
use asn_base::schema::{Resolved, Schema};
use std::alloc::{AllocError, Global};

/// All routines in one table, and the index at which each begins.
#[derive(Drop)]
pub(crate) struct Table {
    pub steps: Vec<PackedStep>,
    pub starts: Vec<usize>,
}

/// The packed routines of a schema's types. `AllocError` only if an allocation fails.
pub fn compile_packed(alloc: Global, schema: &Schema) -> Result<PackedCode, AllocError>
    ensures { IfOk result (λ code. code ≡ schema.now) }
{
    schema.lemma_invariant();
    let table = all_routines(alloc, schema.types())?;
    let mut own = schema.copy(alloc)?;
    own.cache_default_depths(alloc)?;
    Ok(PackedCode::of(own, table))
}

fn all_routines(alloc: Global, types: &[Resolved]) -> Result<Table, AllocError>
    requires { IsSchema (types_of types.now) }
    ensures steps { IfOk result (λ t. t.steps.items ≡ table_of (types_of types.now)) }
    ensures starts { IfOk result (λ t. t.starts.items ≡ starts_of (types_of types.now)) }
{
    let mut steps = Vec::new(alloc);
    let mut starts = Vec::new(alloc);
    for i in 0..types.len() {
        starts.push(steps.len())?;
        push_routine(&mut steps, types, &types[i].core)?;
    }
    starts.push(steps.len())?;
    Ok(Table { steps, starts })
}
