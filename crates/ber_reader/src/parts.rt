//! The types of a value's parts: components, elements and alternatives, as the steps of its type's routine read them.

ghost use Rattle.asn_base.specs.Schemas.{components};
ghost use Rattle.ber_reader.specs.Judged.{alternatives, element_of, kind_at};
ghost use Rattle.ber_reader.specs.Stepped.{after_heads, called_in as called_in', element_in as element_in'};
ghost use Rattle.codec_code.specs.Routines.{field_of, id_of, routine_at};
ghost use Rattle.std.specs.Prelude.{◌≡◌, option_map, slice_get, suc};

use asn_base::schema::TypeId;
use codec_code::{Code, Coding, Field, Step};
use next_tags::{field_in, step_at};

/// The type of the elements that a step reads, if it reads elements.
fn element_in(step: Step) -> Option<TypeId>
    ensures { result ≡ element_in' step }
{
    match step {
        Step::Each(id) => Some(id),
        Step::EachSorted(id) => Some(id),
        _ => None,
    }
}

/// The type whose routine a step calls, if it calls one.
fn called_in(step: Step) -> Option<TypeId>
    ensures { result ≡ called_in' step }
{
    match step {
        Step::Call(id) => Some(id),
        _ => None,
    }
}

/// The steps after the headers with which the steps start.
fn within(steps: &[Step]) -> &[Step]
    ensures { result.now ≡ after_heads steps.now }
{
    let Some((step, following)) = steps.split_first() else {
        return steps;
    };
    match *step {
        Step::Head(_) => within(following),
        _ => steps,
    }
}

/// The steps that read the contents of a type.
fn contents(code: &Code, id: TypeId) -> &[Step]
    ensures { result.now ≡ after_heads (routine_at code.now id.index) }
{
    within(code.steps(id, Coding::Tagged))
}

/// The step at a place after the first step: place 0 is the second step.
fn step_after(steps: &[Step], place: usize) -> Option<Step>
    ensures { result ≡ slice_get steps.now (suc place) }
{
    match steps.split_first() {
        Some((_, following)) => step_at(following, place),
        None => None,
    }
}

/// The component at a place of a type, from 0 in order of definition.
fn component_at(code: &Code, id: TypeId, place: usize) -> Option<Field>
    ensures { result ≡ option_map (field_of place) (slice_get (components (kind_at code.now id.index)) place) }
{
    match step_at(contents(code, id), place) {
        Some(step) => field_in(step),
        None => None,
    }
}

/// The type of the elements, or None if the type isn't a SEQUENCE OF or SET OF.
pub(crate) fn element_at(code: &Code, id: TypeId) -> Option<TypeId>
    ensures { result ≡ option_map id_of (element_of (kind_at code.now id.index)) }
{
    match step_at(contents(code, id), 0) {
        Some(step) => element_in(step),
        None => None,
    }
}

/// The type of the alternative with this number, from 0 in order of definition.
pub(crate) fn alternative_at(code: &Code, id: TypeId, index: usize) -> Option<TypeId>
    ensures { result
        ≡ option_map (λ a. id_of a.type) (slice_get (alternatives (kind_at code.now id.index)) index) }
{
    match step_after(contents(code, id), index) {
        Some(step) => called_in(step),
        None => None,
    }
}

/// The type of the component at a place.
pub(crate) fn component_type(code: &Code, id: TypeId, place: usize) -> Option<TypeId>
    ensures { result ≡ option_map (λ c. id_of c.type) (slice_get (components (kind_at code.now id.index)) place) }
{
    match component_at(code, id, place) {
        Some(field) => Some(field.ty),
        None => None,
    }
}
