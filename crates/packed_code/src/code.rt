//! Packed routines as values.

ghost use Rattle.asn_base.specs.Schemas.{IsSchema};
ghost use Rattle.packed_code.specs.Routines.{routine_at, starts_of, table_of};
ghost use Rattle.std.specs.Prelude.{◌≡◌, ◌-◌, ◌<◌, ◌≤◌, ◌↔◌, IsTrue, drop, length, slice_get, take};

use crate::build::Table;
use crate::step::PackedStep;
use asn_base::schema::{Schema, TypeId};
use std::marker::Model;

/// The packed routines of a schema's types, with a copy of the schema, by which contracts name its types.
pub struct PackedCode {
    schema: Schema,
    steps: Vec<PackedStep>,
    starts: Vec<usize>,
}

impl Drop for PackedCode {
    fn drop(self) {
        let PackedCode {
            schema: _,
            steps: _,
            starts: _,
        } = self;
    }
}

impl Model for PackedCode {
    ghost use Rattle.std.specs.Prelude.{List, ◌≡◌};
    ghost use Rattle.asn_base.specs.Types.{Resolved};
    ghost use Rattle.std.specs.Coded.{codes};
    ghost use Rattle.asn_base.specs.Codes.{abstract_value_code};

    ghost Value = { List Resolved };

    ghost coded = { Prim.hlevel (codes, abstract_value_code) };

    ghost view = { λ c. c.schema };

    ghost use Rattle.packed_code.specs.Routines.{starts_of, table_of};

    ghost invariant = { λ c. (c.steps.items ≡ table_of c.schema) × (c.starts.items ≡ starts_of c.schema) };
}

impl PackedCode {
    pub(crate) fn of(schema: Schema, table: Table) -> Self
        requires steps { table.steps.items ≡ table_of schema }
        requires starts { table.starts.items ≡ starts_of schema }
        ensures { result ≡ schema }
    {
        PackedCode {
            schema,
            steps: table.steps,
            starts: table.starts,
        }
    }

    /// What is true of the types of the code's schema.
    pub fn lemma_invariant(&self)
        ensures { IsSchema self.now }
    {
        self.schema.lemma_invariant();
    }

    /// The schema of the code.
    #[inline(always)]
    pub fn schema(&self) -> &Schema
        ensures { result.now ≡ self.now }
    {
        &self.schema
    }

    /// Whether the schema has the type.
    #[inline(always)]
    pub fn has(&self, id: TypeId) -> bool
        ensures { IsTrue result ↔ id.index < length self.now }
    {
        self.schema.has(id)
    }

    /// How many types the schema has.
    #[inline(always)]
    pub(crate) fn count(&self) -> usize
        ensures { result ≡ length self.now }
    {
        self.schema.types().len()
    }

    /// The packed routine of the type. There are no steps if there is no such type.
    #[inline(always)]
    pub fn steps(&self, id: TypeId) -> &[PackedStep]
        ensures { result.now ≡ routine_at self.now id.index }
    {
        routine(
            &self.schema,
            self.steps.as_slice(),
            self.starts.as_slice(),
            id,
        )
    }
}

/// The routine of the type, a slice of the table.
#[tactic(auto, using(crate::proofs::Table::is_order, crate::proofs::Table::is_within, crate::proofs::Table::is_routine, crate::proofs::Table::no_start, crate::proofs::Table::no_end))]
#[inline(always)]
fn routine<'a>(
    schema: &Schema,
    steps: &'a [PackedStep],
    starts: &[usize],
    id: TypeId,
) -> &'a [PackedStep]
    requires steps { steps.now ≡ table_of schema.now }
    requires starts { starts.now ≡ starts_of schema.now }
    ensures { result.now ≡ routine_at schema.now id.index }
{
    match start(starts, id.index) {
        Some(from) => match start(starts, id.index + 1) {
            Some(to) => part(steps, from, to),
            None => &[],
        },
        None => &[],
    }
}

#[inline(always)]
fn start(starts: &[usize], at: usize) -> Option<usize>
    ensures { result ≡ slice_get starts.now at }
{
    if at < starts.len() {
        Some(starts[at])
    } else {
        None
    }
}

#[inline(always)]
fn part(steps: &[PackedStep], from: usize, to: usize) -> &[PackedStep]
    requires order { from ≤ to }
    requires within { to ≤ length steps.now }
    ensures { result.now ≡ take (to - from) (drop from steps.now) }
{
    &steps[from..to]
}
