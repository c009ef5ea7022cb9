//! Components and alternatives by the next tag.

ghost use Rattle.asn_base.specs.Names.{IsMember};
ghost use Rattle.asn_base.specs.Tags.{First};
ghost use Rattle.codec_code.specs.declared.step.Step.TheVariants.{Call};
ghost use Rattle.octet_answers.specs.Found.{AreRead, IsChosen, IsFound, field_in as field_in', is_extensible as is_extensible', is_rest as is_rest', last_from as last_from', last_steps as last_steps', must_be_present as must_be_present'};
ghost use Rattle.codec_code.specs.declared.step.Field.{Field as Field'};
ghost use Rattle.asn_base.specs.declared.schema.TypeId.{TypeId as TypeId'};
ghost use Rattle.codec_code.specs.Steps.{may_be_absent as may_be_absent'};
ghost use Rattle.std.specs.Prelude.{◌≡◌, ◌<◌, ◌↔◌, IfNone, IfSome, IsTrue, Some as Some', false as false', length, ℕ};

use crate::first::can_begin;
use asn_base::schema::TypeId;
use asn_base::tag::Tag;
use codec_code::{Code, Field, FieldPresence, Step};

/// Whether a component with this need may be absent.
pub fn may_be_absent(need: FieldPresence) -> bool
    ensures { result ≡ may_be_absent' need }
{
    match need {
        FieldPresence::Mandatory => false,
        FieldPresence::Optional => true,
        FieldPresence::Default => true,
        FieldPresence::Addition => true,
    }
}

/// The component that the step reads, or None if it reads no component.
pub fn field_in(step: Step) -> Option<Field>
    ensures { result ≡ field_in' step }
{
    match step {
        Step::Field(field) | Step::SetComponent(field, _) => Some(field),
        _ => None,
    }
}

/// Whether the step reads a component that must be present.
fn must_be_present(step: Step) -> bool
    ensures { result ≡ must_be_present' step }
{
    match step {
        Step::Field(field) => !may_be_absent(field.need),
        Step::SetComponent(field, _) => !may_be_absent(field.need),
        _ => false,
    }
}

/// Whether the step skips additions that the type lacks.
fn is_rest(step: Step) -> bool
    ensures { result ≡ is_rest' step }
{
    matches!(step, Step::Rest)
}

/// Whether one of the steps skips additions that the type lacks.
pub fn is_extensible(steps: &[Step]) -> bool
    ensures { result ≡ is_extensible' steps.now }
{
    let Some((step, following)) = steps.split_first() else {
        return false;
    };
    if is_rest(*step) {
        return true;
    }
    is_extensible(following)
}

/// The steps after the last one that reads a component that must be present; `others` if no step does.
fn last_from<'s>(others: &'s [Step], steps: &'s [Step]) -> &'s [Step]
    ensures { result.now ≡ last_from' others.now steps.now }
{
    let Some((step, following)) = steps.split_first() else {
        return others;
    };
    if must_be_present(*step) {
        last_from(following, following)
    } else {
        last_from(others, following)
    }
}

/// The steps after the last component that must be present, or all steps if no component must.
pub fn last_steps(steps: &[Step]) -> &[Step]
    ensures { result.now ≡ last_steps' steps.now }
{
    last_from(steps, steps)
}

/// The first component that these steps read and whose first tag can be this one.
pub fn find(code: &Code, steps: &[Step], tag: Tag) -> Option<Field>
    ensures some { IfSome result (λ f. IsFound code.now tag steps.now f) }
    ensures none { IfNone result ((f : Field') → IsFound code.now tag steps.now f → ⊥) }
{
    let Some((step, following)) = steps.split_first() else {
        return None;
    };
    match field_in(*step) {
        Some(field) => {
            if can_begin(code, field.ty, tag) {
                return Some(field);
            }
            find(code, following, tag)
        }
        None => find(code, following, tag),
    }
}

/// The type that the step calls, if the tag can be the first one of a value of it.
#[inline(always)]
fn called(code: &Code, step: Step, tag: Tag) -> Option<TypeId>
    ensures some { IfSome result (λ t. (step ≡ Call t) × First code.now t.index tag) }
    ensures none { IfNone result ((t : TypeId') → step ≡ Call t → First code.now t.index tag → ⊥) }
{
    match step {
        Step::Call(id) => {
            if can_begin(code, id, tag) {
                Some(id)
            } else {
                None
            }
        }
        _ => None,
    }
}

/// The first alternative that these steps call and whose first tag can be this one, and its number.
#[inline(always)]
pub fn choose(code: &Code, calls: &[Step], tag: Tag) -> Option<(usize, TypeId)>
    ensures some { IfSome result (λ r. IsChosen code.now tag calls.now r.0 r.1) }
    ensures below { IfSome result (λ r. r.0 < length calls.now) }
    ensures none { IfNone result ((i : ℕ) (t : TypeId') → IsChosen code.now tag calls.now i t → ⊥) }
{
    let mut rest = calls;
    let mut index = 0;
    while let Some((step, following)) = rest.split_first() {
        match called(code, *step, tag) {
            Some(id) => return Some((index, id)),
            None => {}
        }
        rest = following;
        index += 1;
    }
    None
}

/// Whether the place is in the list.
pub fn is_in(place: usize, marks: &[usize]) -> bool
    ensures { IsTrue result ↔ IsMember place marks.now }
{
    let Some((mark, following)) = marks.split_first() else {
        return false;
    };
    if *mark == place {
        return true;
    }
    is_in(place, following)
}

/// Whether each component that must be present was read.
pub fn are_read(marks: &[usize], steps: &[Step]) -> bool
    ensures { IsTrue result ↔ AreRead marks.now steps.now }
{
    let Some((step, following)) = steps.split_first() else {
        return true;
    };
    if !is_read(marks, *step) {
        return false;
    }
    are_read(marks, following)
}

/// Whether the component that the step reads was read, if it must be present.
fn is_read(marks: &[usize], step: Step) -> bool
    ensures { IsTrue result
        ↔ ((f : Field') → field_in' step ≡ Some' f → may_be_absent' f.need ≡ false' → IsMember f.place marks.now) }
{
    match field_in(step) {
        Some(field) => may_be_absent(field.need) || is_in(field.place, marks),
        None => true,
    }
}
