//! First tags of types, found at the beginning of their routines.

ghost use Rattle.asn_base.specs.Tags.{First};
ghost use Rattle.next_tags.specs.Firsts.{AnyBegins, Begins, BeginsBy, BeginsWith, head_tag, tag_in as tag_in'};
ghost use Rattle.asn_base.specs.Order.{tag_at};
ghost use Rattle.codec_code.specs.Routines.{routine_at};
ghost use Rattle.std.specs.Prelude.{◌≡◌, ◌↔◌, IfSome, IsTrue, Some, slice_get};

use asn_base::schema::TypeId;
use asn_base::tag::{Tag, same_tag};
use codec_code::{Code, Coding, Step, Summary};

/// The tag of the header that the step is.
#[inline(always)]
fn tag_in(step: Step) -> Option<Tag>
    ensures { result ≡ tag_in' step }
{
    match step {
        Step::Head(head) => Some(head.tag),
        _ => None,
    }
}

/// The tag of the header that steps begin with.
#[inline(always)]
fn head_of(steps: &[Step]) -> Option<Tag>
    ensures { result ≡ head_tag steps.now }
{
    match steps.split_first() {
        Some((step, _)) => tag_in(*step),
        None => None,
    }
}

/// The tag of the header that the routine of the type begins with, if the type's `Summary` has it.
#[inline(always)]
fn first_tag(code: &Code, id: TypeId) -> Option<Tag>
    ensures { IfSome result (λ g. head_tag (routine_at code.now id.index) ≡ Some g) }
{
    match code.summary(id) {
        Summary::Leaf(head, _) => Some(head.tag),
        Summary::Components(head, _) => Some(head.tag),
        Summary::Elements(head) => Some(head.tag),
        Summary::Any => None,
    }
}

/// The outermost tag of the type.
#[tactic(auto, using(crate::proofs::Firsts::head_outermost))]
#[inline(always)]
fn outermost(code: &Code, id: TypeId) -> Option<Tag>
    ensures { result ≡ tag_at code.now id.index }
{
    match first_tag(code, id) {
        Some(tag) => Some(tag),
        None => head_of(code.steps(id, Coding::Tagged)),
    }
}

/// Whether the tag is the outermost tag of the type.
#[inline(always)]
fn is_outermost(code: &Code, id: TypeId, tag: Tag) -> bool
    ensures { IsTrue result ↔ (tag_at code.now id.index ≡ Some tag) }
{
    match outermost(code, id) {
        Some(one) => same_tag(one, tag),
        None => false,
    }
}

/// Whether one of the calls is of a type with this outermost tag.
fn any_begins(code: &Code, calls: &[Step], tag: Tag) -> bool
    ensures { IsTrue result ↔ AnyBegins code.now tag calls.now }
{
    let Some((step, following)) = calls.split_first() else {
        return false;
    };
    if begins_call(code, *step, tag) {
        return true;
    }
    any_begins(code, following, tag)
}

/// Whether the step is the call of a type with this outermost tag.
#[inline(always)]
fn begins_call(code: &Code, step: Step, tag: Tag) -> bool
    ensures { IsTrue result ↔ Begins code.now tag step }
{
    match step {
        Step::Call(id) => is_outermost(code, id, tag),
        _ => false,
    }
}

/// Whether a step begins with the tag: a header does by itself, and a choice by one of the calls that follow it.
#[inline(always)]
fn begins_step(code: &Code, step: Step, following: &[Step], tag: Tag) -> bool
    ensures { IsTrue result ↔ BeginsBy code.now tag step following.now }
{
    match step {
        Step::Head(head) => same_tag(head.tag, tag),
        Step::Pick(_) => any_begins(code, following, tag),
        _ => false,
    }
}

/// Whether steps begin with the tag.
#[inline(always)]
fn begins_with(code: &Code, steps: &[Step], tag: Tag) -> bool
    ensures { IsTrue result ↔ BeginsWith code.now tag steps.now }
{
    match steps.split_first() {
        Some((step, following)) => begins_step(code, *step, following, tag),
        None => false,
    }
}

/// Whether the tag can be the first one of a value of the type: the type's outermost tag, or that of an alternative of
/// an untagged CHOICE.
#[inline(always)]
pub fn can_begin(code: &Code, id: TypeId, tag: Tag) -> bool
    ensures { IsTrue result ↔ First code.now id.index tag }
{
    code.lemma_invariant();
    match first_tag(code, id) {
        Some(first) => same_tag(first, tag),
        None => begins_with(code, code.steps(id, Coding::Tagged), tag),
    }
}

/// The step at a place of the list, or None after its end.
#[inline(always)]
pub fn step_at(steps: &[Step], at: usize) -> Option<Step>
    ensures { result ≡ slice_get steps.now at }
{
    if at < steps.len() {
        Some(steps[at])
    } else {
        None
    }
}

/// Whether the call at a place is of a type with this outermost tag.
#[inline(always)]
fn begins_at(code: &Code, calls: &[Step], at: usize, tag: Tag) -> bool
    ensures { IsTrue result → AnyBegins code.now tag calls.now }
{
    match step_at(calls, at) {
        Some(step) => begins_call(code, step, tag),
        None => false,
    }
}

/// Whether the type is a CHOICE without a tag whose alternative with this number has the tag as its outermost one, so
/// that it can be the first one of a value of the type. False decides nothing.
#[inline(always)]
pub fn can_begin_by(code: &Code, id: TypeId, index: usize, tag: Tag) -> bool
    ensures { IsTrue result → First code.now id.index tag }
{
    match code.steps(id, Coding::Tagged).split_first() {
        Some((Step::Pick(_), calls)) => begins_at(code, calls, index, tag),
        _ => false,
    }
}
