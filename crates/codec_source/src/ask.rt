//! One step over a source.

ghost use Rattle.codec_code.specs.declared.step.Step.TheVariants.{Call, Each, EachSorted, End, Field as Field', Head as Head', Leaf, Pick, SetComponent, Rest};
ghost use Rattle.codec_source.specs.Reading.{Asks, past_components};
ghost use Rattle.codec_source.specs.Stopping.{AsksNothing, asked};
ghost use Rattle.codec_source.specs.proving.Frames.{IfRefused, IfRefusedWith, is_ranked};
ghost use Rattle.std.specs.Prelude.{◌≡◌, ◌∷◌, IfOk, drop, take};

use crate::source::Source;
use asn_base::schema::TypeId;
use codec_code::{Field, Head, Step};
use decode_faults::ReadFault;
use encodings::LeafKind;

/// The steps that go on, and the type of the value that is read before they do, if there is one.
#[derive(Drop)]
pub(crate) struct Answer<'a> {
    pub(crate) following: &'a [Step],
    pub(crate) value: Option<TypeId>,
}

/// Takes the answer to the question of the first step; `all` has the step and the rest.
#[inline(always)]
pub(crate) fn ask<'a, S: Source>(
    step: Step,
    rest: &'a [Step],
    all: &'a [Step],
    source: &mut S,
) -> Result<Answer<'a>, ReadFault>
    requires { all.now ≡ step ∷ rest.now }
    ensures ok { IfOk result (λ a. Asks S.takes (step ∷ rest.now) source.old a.following.now a.value source.new) }
    ensures err { IfRefused result (AsksNothing S.takes (step ∷ rest.now) source.old) }
    ensures left { IfRefusedWith result (S.refuses source.old (asked (step ∷ rest.now)) source.new) }
{
    match step {
        Step::Head(head) => ask_head(head, rest, source),
        Step::End => ask_end(rest, source),
        Step::Leaf(kind) => ask_leaf(kind, rest, source),
        Step::Rest => ask_rest(rest, source),
        Step::Field(field) => ask_field(field, rest, source),
        Step::SetComponent(field, rank) => ask_ranked(field, rank, rest, all, source),
        Step::Each(id) => ask_each(id, rest, all, source),
        Step::EachSorted(id) => ask_sorted(id, rest, all, source),
        Step::Pick(count) => ask_pick(count, rest, source),
        Step::Call(id) => Ok(Answer {
            following: rest,
            value: Some(id),
        }),
    }
}

#[inline(always)]
fn ask_head<'a, S: Source>(
    head: Head,
    rest: &'a [Step],
    source: &mut S,
) -> Result<Answer<'a>, ReadFault>
    ensures ok { IfOk result (λ a. Asks S.takes (Head' head ∷ rest.now) source.old a.following.now a.value source.new) }
    ensures err { IfRefused result (AsksNothing S.takes (Head' head ∷ rest.now) source.old) }
    ensures left { IfRefusedWith result (S.refuses source.old (asked (Head' head ∷ rest.now)) source.new) }
{
    match source.open(head) {
        Ok(()) => Ok(Answer {
            following: rest,
            value: None,
        }),
        Err(fault) => Err(fault),
    }
}

#[inline(always)]
fn ask_end<'a, S: Source>(rest: &'a [Step], source: &mut S) -> Result<Answer<'a>, ReadFault>
    ensures ok { IfOk result (λ a. Asks S.takes (End ∷ rest.now) source.old a.following.now a.value source.new) }
    ensures err { IfRefused result (AsksNothing S.takes (End ∷ rest.now) source.old) }
    ensures left { IfRefusedWith result (S.refuses source.old (asked (End ∷ rest.now)) source.new) }
{
    match source.close() {
        Ok(()) => Ok(Answer {
            following: rest,
            value: None,
        }),
        Err(fault) => Err(fault),
    }
}

fn ask_leaf<'a, S: Source>(
    kind: LeafKind,
    rest: &'a [Step],
    source: &mut S,
) -> Result<Answer<'a>, ReadFault>
    ensures ok { IfOk result (λ a. Asks S.takes (Leaf kind ∷ rest.now) source.old a.following.now a.value source.new) }
    ensures err { IfRefused result (AsksNothing S.takes (Leaf kind ∷ rest.now) source.old) }
    ensures left { IfRefusedWith result (S.refuses source.old (asked (Leaf kind ∷ rest.now)) source.new) }
{
    match source.leaf(kind) {
        Ok(()) => Ok(Answer {
            following: rest,
            value: None,
        }),
        Err(fault) => Err(fault),
    }
}

fn ask_rest<'a, S: Source>(rest: &'a [Step], source: &mut S) -> Result<Answer<'a>, ReadFault>
    ensures ok { IfOk result (λ a. Asks S.takes (Rest ∷ rest.now) source.old a.following.now a.value source.new) }
    ensures err { IfRefused result (AsksNothing S.takes (Rest ∷ rest.now) source.old) }
    ensures left { IfRefusedWith result (S.refuses source.old (asked (Rest ∷ rest.now)) source.new) }
{
    match source.skip() {
        Ok(()) => Ok(Answer {
            following: rest,
            value: None,
        }),
        Err(fault) => Err(fault),
    }
}

#[inline(always)]
fn ask_field<'a, S: Source>(
    field: Field,
    rest: &'a [Step],
    source: &mut S,
) -> Result<Answer<'a>, ReadFault>
    ensures ok { IfOk result
        (λ a. Asks S.takes (Field' field ∷ rest.now) source.old a.following.now a.value source.new) }
    ensures err { IfRefused result (AsksNothing S.takes (Field' field ∷ rest.now) source.old) }
    ensures left { IfRefusedWith result (S.refuses source.old (asked (Field' field ∷ rest.now)) source.new) }
{
    match source.has_component(field) {
        Ok(true) => Ok(Answer {
            following: rest,
            value: Some(field.ty),
        }),
        Ok(false) => Ok(Answer {
            following: rest,
            value: None,
        }),
        Err(fault) => Err(fault),
    }
}

fn ask_ranked<'a, S: Source>(
    field: Field,
    rank: usize,
    rest: &'a [Step],
    all: &'a [Step],
    source: &mut S,
) -> Result<Answer<'a>, ReadFault>
    requires { all.now ≡ SetComponent field rank ∷ rest.now }
    ensures ok { IfOk result (λ a.
        Asks S.takes (SetComponent field rank ∷ rest.now) source.old a.following.now a.value source.new) }
    ensures err { IfRefused result (AsksNothing S.takes (SetComponent field rank ∷ rest.now) source.old) }
    ensures left { IfRefusedWith result (S.refuses source.old (asked (SetComponent field rank ∷ rest.now)) source.new) }
{
    match source.next_component(all) {
        Ok(Some(id)) => Ok(Answer {
            following: all,
            value: Some(id),
        }),
        Ok(None) => Ok(Answer {
            following: after_components(rest),
            value: None,
        }),
        Err(fault) => Err(fault),
    }
}

fn ask_each<'a, S: Source>(
    id: TypeId,
    rest: &'a [Step],
    all: &'a [Step],
    source: &mut S,
) -> Result<Answer<'a>, ReadFault>
    requires { all.now ≡ Each id ∷ rest.now }
    ensures ok { IfOk result (λ a. Asks S.takes (Each id ∷ rest.now) source.old a.following.now a.value source.new) }
    ensures err { IfRefused result (AsksNothing S.takes (Each id ∷ rest.now) source.old) }
    ensures left { IfRefusedWith result (S.refuses source.old (asked (Each id ∷ rest.now)) source.new) }
{
    match source.has_element(id, false) {
        Ok(true) => Ok(Answer {
            following: all,
            value: Some(id),
        }),
        Ok(false) => Ok(Answer {
            following: rest,
            value: None,
        }),
        Err(fault) => Err(fault),
    }
}

fn ask_sorted<'a, S: Source>(
    id: TypeId,
    rest: &'a [Step],
    all: &'a [Step],
    source: &mut S,
) -> Result<Answer<'a>, ReadFault>
    requires { all.now ≡ EachSorted id ∷ rest.now }
    ensures ok { IfOk result
        (λ a. Asks S.takes (EachSorted id ∷ rest.now) source.old a.following.now a.value source.new) }
    ensures err { IfRefused result (AsksNothing S.takes (EachSorted id ∷ rest.now) source.old) }
    ensures left { IfRefusedWith result (S.refuses source.old (asked (EachSorted id ∷ rest.now)) source.new) }
{
    match source.has_element(id, true) {
        Ok(true) => Ok(Answer {
            following: all,
            value: Some(id),
        }),
        Ok(false) => Ok(Answer {
            following: rest,
            value: None,
        }),
        Err(fault) => Err(fault),
    }
}

fn ask_pick<'a, S: Source>(
    count: usize,
    rest: &'a [Step],
    source: &mut S,
) -> Result<Answer<'a>, ReadFault>
    ensures ok { IfOk result (λ a. Asks S.takes (Pick count ∷ rest.now) source.old a.following.now a.value source.new) }
    ensures err { IfRefused result (AsksNothing S.takes (Pick count ∷ rest.now) source.old) }
    ensures left { IfRefusedWith result (S.refuses source.old (asked (Pick count ∷ rest.now)) source.new) }
{
    let calls = first_steps(count, rest);
    match source.alternative(calls) {
        Ok(id) => Ok(Answer {
            following: later_steps(count, rest),
            value: Some(id),
        }),
        Err(fault) => Err(fault),
    }
}

/// The first `count` steps, or all of them if there are fewer.
#[tactic(auto, using(crate::proofs::Asking::take_all))]
fn first_steps(count: usize, steps: &[Step]) -> &[Step]
    ensures { result.now ≡ take count steps.now }
{
    if count < steps.len() {
        &steps[..count]
    } else {
        steps
    }
}

/// The steps after the first `count` ones.
#[tactic(auto, using(crate::proofs::Asking::drop_all, crate::proofs::Asking::rest_is))]
fn later_steps(count: usize, steps: &[Step]) -> &[Step]
    ensures { result.now ≡ drop count steps.now }
{
    if count < steps.len() {
        &steps[count..]
    } else {
        &[]
    }
}

/// The steps after the components of a SET.
#[tactic(auto, using(crate::proofs::Asking::one_component, crate::proofs::Asking::other_step, crate::proofs::Asking::no_step))]
fn after_components(steps: &[Step]) -> &[Step]
    ensures { result.now ≡ past_components steps.now }
{
    let mut rest = steps;
    while let Some((step, following)) = rest.split_first() {
        if !is_component(*step) {
            return rest;
        }
        rest = following;
    }
    rest
}

/// Whether the step is a component of a SET.
fn is_component(step: Step) -> bool
    ensures { result ≡ is_ranked step }
{
    match step {
        Step::SetComponent(_, _) => true,
        Step::Head(_) => false,
        Step::Leaf(_) => false,
        Step::Field(_) => false,
        Step::Each(_) => false,
        Step::EachSorted(_) => false,
        Step::Pick(_) => false,
        Step::Call(_) => false,
        Step::Rest => false,
        Step::End => false,
    }
}
