//! Codec programs as values.

ghost use Rattle.asn_base.specs.Abstract.{abstract, placed, row_of_options};
ghost use Rattle.asn_base.specs.Additions.{IsValueWithoutAdditions};
ghost use Rattle.asn_base.specs.Schemas.{IsSchema};
ghost use Rattle.asn_base.specs.Seen.{kind_of};
ghost use Rattle.asn_base.specs.declared.tag.Tag.{Tag as Tag'};
ghost use Rattle.asn_base.specs.Typed.{IsValue, IsValueWithoutNodes};
ghost use Rattle.codec_code.specs.ByLeaves.{AreMarks, IsByLeaves};
ghost use Rattle.codec_code.specs.Listing.{tags_of};
ghost use Rattle.codec_code.specs.Summaries.{AreSummaries, IsSummary};
ghost use Rattle.codec_code.specs.Routines.{routine_at, starts_of, steps_at, table_of};
ghost use Rattle.codec_code.specs.Steps.{IsDefaultAt};
ghost use Rattle.std.specs.Prelude.{◌≡◌, ◌-◌, ◌<◌, ◌≤◌, ◌↔◌, IsTrue, List, MatchOption, Some, drop, length, slice_get, take};

use crate::build::Table;
use crate::by_leaves::is_marked;
use crate::default::is_default_at;
use crate::step::{Coding, Step};
use crate::summary::{Summary, summary_in};
use asn_base::additions::is_value_without_additions;
use asn_base::decide::{is_shown_value, is_value};
use asn_base::node::ValueNode;
use asn_base::schema::{Core, Schema, TypeId};
use asn_base::tag::Tag;
use asn_base::value::Value;
use std::marker::Model;

/// The routines of a schema's types. The code keeps a copy of the schema, by which contracts name its types, and
/// doesn't lend it.
pub struct Code {
    schema: Schema,
    steps: Vec<Step>,
    starts: Vec<usize>,
    summaries: Vec<Summary>,
    marks: Vec<bool>,
}

impl Model for Code {
    ghost use Rattle.std.specs.Prelude.{List, ◌≡◌};
    ghost use Rattle.asn_base.specs.Types.{Resolved};
    ghost use Rattle.std.specs.Coded.{codes};
    ghost use Rattle.asn_base.specs.Codes.{abstract_value_code};

    ghost Value = { List Resolved };

    ghost coded = { Prim.hlevel (codes, abstract_value_code) };

    ghost view = { λ c. c.schema };

    ghost use Rattle.codec_code.specs.ByLeaves.{AreMarks};
    ghost use Rattle.codec_code.specs.Summaries.{AreSummaries};
    ghost use Rattle.codec_code.specs.Routines.{starts_of, table_of};

    ghost invariant = { λ c. (c.steps.items ≡ table_of c.schema) × (c.starts.items ≡ starts_of c.schema)
        × AreSummaries c.schema c.summaries.items × AreMarks c.schema c.marks.items };
}

impl Code {
    pub(crate) fn of(
        schema: Schema,
        table: Table,
        summaries: Vec<Summary>,
        marks: Vec<bool>,
    ) -> Self
        requires steps { table.steps.items ≡ table_of schema }
        requires starts { table.starts.items ≡ starts_of schema }
        requires summaries { AreSummaries schema summaries.items }
        requires marks { AreMarks schema marks.items }
        ensures { result ≡ schema }
    {
        Code {
            schema,
            steps: table.steps,
            starts: table.starts,
            summaries,
            marks,
        }
    }

    /// Each type of the code's schema keeps what `IsSchema` says.
    pub fn lemma_invariant(&self)
        ensures { IsSchema self.now }
    {
        self.schema.lemma_invariant();
    }

    /// Whether the code has the type.
    pub fn has(&self, id: TypeId) -> bool
        ensures { IsTrue result ↔ id.index < length self.now }
    {
        self.schema.has(id)
    }

    /// The number of types.
    pub(crate) fn count(&self) -> usize
        ensures { result ≡ length self.now }
    {
        self.schema.types().len()
    }

    /// Whether the value is one of the type; false if there is no such type. It takes no memory.
    pub fn is_value(&self, id: TypeId, value: &Value) -> bool
        ensures { IsTrue result ↔ IsValue self.now id.index (abstract value.now) }
    {
        is_value(value, &self.schema, id)
    }

    /// Whether the value that a node shows, such as a part of a view, is one of the type, except for the limit on
    /// nodes. The result is false if there is no such type. The call takes no memory, and its time grows with the
    /// nodes.
    pub fn is_shown_value<N: ValueNode>(&self, id: TypeId, node: &N) -> bool
        ensures { IsTrue result ↔ IsValueWithoutNodes self.now id.index (N.value_of node.now) }
    {
        is_shown_value(node, &self.schema, id)
    }

    /// Whether fields are the components of a value of the type if all additions are made absent, except for the limit
    /// on nodes. They are in a row of `size` places. The result is false if there is no such type. The call takes no
    /// memory, and its time grows with the nodes.
    pub fn is_value_without_additions<N: ValueNode>(
        &self,
        id: TypeId,
        size: usize,
        fields: N::Fields,
    ) -> bool
        ensures { IsTrue result ↔ IsValueWithoutAdditions self.now id.index
            (row_of_options (placed size (λ i. N.part_at fields i))) }
    {
        is_value_without_additions::<N>(size, fields, &self.schema, id)
    }

    /// Whether the component at this place of the type, from 0 in order of definition, has a DEFAULT that is the same
    /// as the value. The result is false if there is no such component, or it has no DEFAULT. The function takes no
    /// memory.
    #[inline(always)]
    pub fn is_default(&self, id: TypeId, place: usize, value: &Value) -> bool
        ensures { IsTrue result ↔ IsDefaultAt self.now id.index place (abstract value.now) }
    {
        is_default_at(&self.schema, id, place, value)
    }

    /// A short description of the routine of the type for encodings with tags. Unless it is `Any`, the steps needn't be
    /// read.
    #[inline(always)]
    pub fn summary(&self, id: TypeId) -> Summary
        ensures { IsSummary result (routine_at self.now id.index) }
    {
        summary_in(&self.schema, self.summaries.as_slice(), id)
    }

    /// Whether a quick test shows that values of the type are judged leaf by leaf: a value of the type's shape is one
    /// of the type if the values in it that hold no others are of their types, and the lists that must not be empty are
    /// not. False decides nothing.
    pub fn is_by_leaves(&self, id: TypeId) -> bool
        ensures { IsTrue result → IsByLeaves self.now id.index }
    {
        is_marked(self.marks.as_slice(), id.index)
    }

    /// The kind of the type's contents, or None if there is no such type.
    #[inline(always)]
    pub fn core(&self, id: TypeId) -> Option<&Core>
        ensures { MatchOption result (length self.now ≤ id.index) (λ core. (tags : List Tag')
            × (slice_get self.now id.index ≡ Some (record { tags = tags; kind = kind_of core.now }))) }
    {
        if self.schema.has(id) {
            Some(self.schema.core(id))
        } else {
            None
        }
    }

    /// The tags of the type, the outermost first. There are none for an untagged CHOICE, or if there is no such type.
    pub fn tags(&self, id: TypeId) -> &[Tag]
        ensures { result.now ≡ tags_of self.now id.index }
    {
        if self.schema.has(id) {
            return &self.schema.get(id).tags;
        }
        &[]
    }

    /// The routine of the type. It has no steps if there is no such type, or for packed encodings.
    pub fn steps(&self, id: TypeId, coding: Coding) -> &[Step]
        ensures { result.now ≡ steps_at self.now coding id.index }
    {
        match coding {
            Coding::Tagged => routine(
                &self.schema,
                self.steps.as_slice(),
                self.starts.as_slice(),
                id,
            ),
            Coding::Per => &[],
        }
    }
}

/// The routine of the type, as a part of the table.
#[tactic(auto, using(crate::proofs::Table::is_order, crate::proofs::Table::is_within, crate::proofs::Table::is_routine, crate::proofs::Table::no_start, crate::proofs::Table::no_end))]
pub(crate) fn routine<'a>(
    schema: &Schema,
    steps: &'a [Step],
    starts: &[usize],
    id: TypeId,
) -> &'a [Step]
    requires steps { steps.now ≡ table_of schema.now }
    requires starts { starts.now ≡ starts_of schema.now }
    ensures { result.now ≡ routine_at schema.now id.index }
{
    match start(starts, id.index) {
        Some(from) => match start(starts, id.index + 1) {
            Some(to) => part(steps, from, to),
            None => &[],
        },
        None => &[],
    }
}

fn start(starts: &[usize], at: usize) -> Option<usize>
    ensures { result ≡ slice_get starts.now at }
{
    if at < starts.len() {
        Some(starts[at])
    } else {
        None
    }
}

fn part(steps: &[Step], from: usize, to: usize) -> &[Step]
    requires order { from ≤ to }
    requires within { to ≤ length steps.now }
    ensures { result.now ≡ take (to - from) (drop from steps.now) }
{
    &steps[from..to]
}

impl Drop for Code {
    fn drop(self) {
        let Code {
            schema: _,
            steps: _,
            starts: _,
            summaries: _,
            marks: _,
        } = self;
    }
}
