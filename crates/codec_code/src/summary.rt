//! What is known of a routine without reading its steps.

ghost use Rattle.codec_code.specs.Summaries.{AreSummaries, IsSummary, fields_in as fields_in'};
ghost use Rattle.codec_code.specs.Routines.{routine_at};
ghost use Rattle.codec_code.specs.declared.step.Step.TheVariants.{Head as HeadStep, Leaf as LeafStep};
ghost use Rattle.std.specs.Prelude.{◌≡◌, ◌≤◌, ◌∷◌, length, slice_get};

use crate::step::{Head, RowKind, Step};
use asn_base::schema::{Schema, TypeId};
use encodings::LeafKind;

/// A short description of steps. `Leaf`: a header, contents that hold no others, and the end. `Components`: a header
/// around a number of components of a SEQUENCE. `Elements`: a header around elements in their order. `Any`: any steps.
#[derive(Clone, Copy, Debug)]
pub enum Summary {
    Leaf(Head, LeafKind),
    Components(Head, usize),
    Elements(Head),
    Any,
}

/// The number of components among the steps.
fn fields_in(steps: &[Step]) -> usize
    ensures few { result ≤ length steps.now }
    ensures as_many { result ≡ fields_in' steps.now }
{
    match steps.split_first() {
        Some((Step::Field(_), following)) => 1 + fields_in(following),
        Some((Step::SetComponent(_, _), following)) => 1 + fields_in(following),
        Some((_, following)) => fields_in(following),
        None => 0,
    }
}

/// The description of a header, contents that hold no others, and the steps after them.
fn with_contents(head: Head, kind: LeafKind, following: &[Step]) -> Summary
    ensures { IsSummary result (HeadStep head ∷ LeafStep kind ∷ following.now) }
{
    if head.row != RowKind::Leaf {
        return Summary::Any;
    }
    match following.split_first() {
        Some((Step::End, last)) => if last.is_empty() {
            Summary::Leaf(head, kind)
        } else {
            Summary::Any
        },
        _ => Summary::Any,
    }
}

/// The description of a header and the steps after it.
fn with_header(head: Head, following: &[Step]) -> Summary
    ensures { IsSummary result (HeadStep head ∷ following.now) }
{
    match following.split_first() {
        Some((Step::Leaf(kind), last)) => with_contents(head, *kind, last),
        Some((Step::Field(_), _)) => Summary::Components(head, fields_in(following)),
        Some((Step::Each(_), _)) => Summary::Elements(head),
        _ => Summary::Any,
    }
}

/// The description of steps.
pub(crate) fn summary_of(steps: &[Step]) -> Summary
    ensures { IsSummary result steps.now }
{
    match steps.split_first() {
        Some((Step::Head(head), following)) => with_header(*head, following),
        _ => Summary::Any,
    }
}

/// The description at a place of the list, or None after its end.
#[inline(always)]
fn summary_at(summaries: &[Summary], at: usize) -> Option<Summary>
    ensures { result ≡ slice_get summaries.now at }
{
    if at < summaries.len() {
        Some(summaries[at])
    } else {
        None
    }
}

/// The description of the routine of the type.
#[inline(always)]
pub(crate) fn summary_in(schema: &Schema, summaries: &[Summary], id: TypeId) -> Summary
    requires { AreSummaries schema.now summaries.now }
    ensures { IsSummary result (routine_at schema.now id.index) }
{
    match summary_at(summaries, id.index) {
        Some(summary) => summary,
        None => Summary::Any,
    }
}
