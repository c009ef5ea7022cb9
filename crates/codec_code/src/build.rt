//! Compiles a schema to its routines.

ghost use Rattle.asn_base.specs.Seen.{types_of};
ghost use Rattle.codec_code.specs.Summaries.{AreSummaries};
ghost use Rattle.codec_code.specs.Routines.{starts_of, table_of};
ghost use Rattle.std.specs.Prelude.{◌≡◌, IfOk};

use crate::by_leaves::all_marks;
use crate::code::{Code, routine};
use crate::fault::Fault;
use crate::routine::push_routine;
use crate::step::Step;
use crate::summary::{Summary, summary_of};
use asn_base::schema::{Resolved, Schema, TypeId};
use std::alloc::Global;

/// All routines in one table, and the number of the step at which each starts.
#[derive(Drop)]
pub(crate) struct Table {
    pub steps: Vec<Step>,
    pub starts: Vec<usize>,
}

/// Compiles the routines of a schema's types. `Memory`: an allocation failed; there is no other fault.
pub fn compile(alloc: Global, schema: &Schema) -> Result<Code, Fault>
    ensures { IfOk result (λ code. code ≡ schema.now) }
{
    let table = all_routines(alloc, schema.types())?;
    let summaries = all_summaries(
        alloc,
        schema,
        table.steps.as_slice(),
        table.starts.as_slice(),
    )?;
    let marks = all_marks(alloc, schema.types())?;
    let mut own = schema.copy(alloc)?;
    own.cache_default_depths(alloc)?;
    Ok(Code::of(own, table, summaries, marks))
}

/// The description of the routine of each type.
fn all_summaries(
    alloc: Global,
    schema: &Schema,
    steps: &[Step],
    starts: &[usize],
) -> Result<Vec<Summary>, Fault>
    requires steps { steps.now ≡ table_of schema.now }
    requires starts { starts.now ≡ starts_of schema.now }
    ensures { IfOk result (λ bs. AreSummaries schema.now bs.items) }
{
    let mut summaries = Vec::new(alloc);
    for i in 0..schema.types().len() {
        let id = TypeId { index: i };
        summaries.push(summary_of(routine(schema, steps, starts, id)))?;
    }
    Ok(summaries)
}

fn all_routines(alloc: Global, types: &[Resolved]) -> Result<Table, Fault>
    ensures steps { IfOk result (λ t. t.steps.items ≡ table_of (types_of types.now)) }
    ensures starts { IfOk result (λ t. t.starts.items ≡ starts_of (types_of types.now)) }
{
    let mut steps = Vec::new(alloc);
    let mut starts = Vec::new(alloc);
    for i in 0..types.len() {
        starts.push(steps.len())?;
        push_routine(&mut steps, types, &types[i])?;
    }
    starts.push(steps.len())?;
    Ok(Table { steps, starts })
}
