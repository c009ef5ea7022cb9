//! The parts of values that steps need.

ghost use Rattle.asn_base.specs.Abstract.{AbstractValue, abstract, alternative, fields, list, row_of_list, row_of_options, Row};
ghost use Rattle.codec_code.specs.Routines.{routine_at};
ghost use Rattle.codec_code.specs.Steps.{component_at, IsDefaultAt};
ghost use Rattle.codec_code.specs.Steps as steps;
ghost use Rattle.codec_code.specs.declared.step.RowKind.TheVariants.{Leaf as LeafRow};
ghost use Rattle.codec_code.specs.declared.step.Step.TheVariants.{Call, End, Head as HeadStep, Leaf, Pick};
ghost use Rattle.asn_base.specs.declared.schema.TypeId.{TypeId as TypeId'};
ghost use Rattle.codec_machine.specs.Frames.{EmitsLeaf, HasNoField, LeavesOut, WritesIt};
ghost use Rattle.std.specs.Prelude.{◌≡◌, ◌<◌, ◌≤◌, ◌∷◌, [], ℕ, IfOk, IfSome, OnErr, MatchBool, MatchOption, None, Some, drop, length, true, map, option_map, slice_get};

use crate::fault::RunFault;
use asn_base::law::lemma_abstract_values;
use asn_base::schema::TypeId;
use asn_base::value::Value;
use codec_code::{Code, Coding, Field, FieldPresence, Head, RowKind, Step, Summary};
use encodings::LeafKind;

#[inline(always)]
fn may_be_absent(need: FieldPresence) -> bool
    ensures { result ≡ steps.may_be_absent need }
{
    match need {
        FieldPresence::Mandatory => false,
        FieldPresence::Optional => true,
        FieldPresence::Default => true,
        FieldPresence::Addition => true,
    }
}

#[inline(always)]
pub(crate) fn has_default(need: FieldPresence) -> bool
    ensures { result ≡ steps.has_default need }
{
    match need {
        FieldPresence::Mandatory => false,
        FieldPresence::Optional => false,
        FieldPresence::Default => true,
        FieldPresence::Addition => false,
    }
}

/// The components of a value of a SEQUENCE or SET, or None for another value.
#[inline(always)]
pub(crate) fn fields_of(value: &Value) -> Option<&[Option<Value>]>
    ensures { MatchOption result ((row : Row) → abstract value.now ≡ fields row → ⊥)
        (λ vs. abstract value.now ≡ fields (row_of_options (map (option_map abstract) vs.now))) }
{
    lemma_abstract_values();
    match value {
        Value::Fields(values) => Some(values.as_slice()),
        Value::Bool(_) | Value::Int(_) | Value::Enum(_) | Value::Bits(_) => None,
        Value::Octets(_) | Value::Text(_) | Value::Null => None,
        Value::Oid(_) | Value::RelativeOid(_) => None,
        Value::List(_) | Value::Alt(_, _) => None,
    }
}

/// The elements of a value of a SEQUENCE OF or SET OF, or None for another value.
pub(crate) fn elements_of(value: &Value) -> Option<&[Value]>
    ensures { MatchOption result ((row : Row) → abstract value.now ≡ list row → ⊥)
        (λ vs. abstract value.now ≡ list (row_of_list (map abstract vs.now))) }
{
    lemma_abstract_values();
    match value {
        Value::List(values) => Some(values.as_slice()),
        Value::Bool(_) | Value::Int(_) | Value::Enum(_) | Value::Bits(_) => None,
        Value::Octets(_) | Value::Text(_) | Value::Null => None,
        Value::Oid(_) | Value::RelativeOid(_) => None,
        Value::Fields(_) | Value::Alt(_, _) => None,
    }
}

/// The value of the component that is to be encoded, or None if the component is left out. `NotOfType`: there is no
/// such component, or it is absent and must be present.
#[inline(always)]
pub(crate) fn written_value<'a>(
    code: &Code,
    id: TypeId,
    field: Field,
    value: &'a Value,
) -> Result<Option<&'a Value>, RunFault>
    ensures ok { IfOk result (λ o. MatchOption o (LeavesOut code.now id.index field (abstract value.now))
        (λ w. WritesIt code.now id.index field (abstract value.now) (abstract w.now))) }
    ensures refused { OnErr result (HasNoField code.now id.index field (abstract value.now)) }
{
    match fields_of(value) {
        Some(values) => written_at(code, id, field, values, value),
        None => Err(RunFault::NotOfType),
    }
}

/// The value of the component at a place, or None if it is absent. `NotOfType`: there is no such place.
#[inline(always)]
fn value_at(values: &[Option<Value>], place: usize) -> Result<Option<&Value>, RunFault>
    ensures ok { IfOk result (λ o. component_at (row_of_options (map (option_map abstract) values.now)) place
        ≡ Some (option_map (λ w. abstract w.now) o)) }
    ensures refused { OnErr result (component_at (row_of_options (map (option_map abstract) values.now)) place ≡ None) }
{
    if place >= values.len() {
        return Err(RunFault::NotOfType);
    }
    match &values[place] {
        Some(component) => Ok(Some(component)),
        None => Ok(None),
    }
}

#[inline(always)]
pub(crate) fn written_at<'a>(
    code: &Code,
    id: TypeId,
    field: Field,
    values: &'a [Option<Value>],
    value: &'a Value,
) -> Result<Option<&'a Value>, RunFault>
    requires { abstract value.now ≡ fields (row_of_options (map (option_map abstract) values.now)) }
    ensures ok { IfOk result (λ o. MatchOption o (LeavesOut code.now id.index field (abstract value.now))
        (λ w. WritesIt code.now id.index field (abstract value.now) (abstract w.now))) }
    ensures refused { OnErr result (HasNoField code.now id.index field (abstract value.now)) }
{
    let at_place = match value_at(values, field.place) {
        Ok(at_place) => at_place,
        Err(fault) => return Err(fault),
    };
    match at_place {
        Some(component) => {
            if is_left_out(code, id, field, component) {
                Ok(None)
            } else {
                Ok(Some(component))
            }
        }
        None => {
            if may_be_absent(field.need) {
                Ok(None)
            } else {
                Err(RunFault::NotOfType)
            }
        }
    }
}

#[inline(always)]
fn is_left_out(code: &Code, id: TypeId, field: Field, value: &Value) -> bool
    ensures { MatchBool result
        ((steps.has_default field.need ≡ true) × IsDefaultAt code.now id.index field.place (abstract value.now))
        (steps.has_default field.need ≡ true → IsDefaultAt code.now id.index field.place (abstract value.now) → ⊥) }
{
    has_default(field.need) && code.is_default(id, field.place, value)
}

/// The first value, and the values after it, or None if there are no values.
#[inline(always)]
pub(crate) fn first_value(values: &[Value]) -> Option<(&Value, &[Value])>
    ensures { MatchOption result (values.now ≡ []) (λ p. values.now ≡ p.0.now ∷ p.1.now) }
{
    if values.is_empty() {
        None
    } else {
        Some((&values[0], &values[1..]))
    }
}

/// The steps after the first `count` ones.
pub(crate) fn steps_after(steps: &[Step], count: usize) -> &[Step]
    ensures steps_after { result.now ≡ drop count steps.now }
    ensures few { length (drop count steps.now) ≤ length steps.now }
{
    if count <= steps.len() {
        &steps[count..]
    } else {
        &[]
    }
}

/// The type of the call at a place. `NotOfType`: there is no call at that place.
pub(crate) fn called(steps: &[Step], at: usize) -> Result<TypeId, RunFault>
    ensures ok { IfOk result (λ t. slice_get steps.now at ≡ Some (Call t)) }
    ensures refused { OnErr result ((u : TypeId') → slice_get steps.now at ≡ Some (Call u) → ⊥) }
{
    if at >= steps.len() {
        return Err(RunFault::NotOfType);
    }
    match steps[at] {
        Step::Call(of) => Ok(of),
        _ => Err(RunFault::NotOfType),
    }
}

/// The number of the alternative, and its value. `NotOfType`: the value isn't one of a CHOICE, or there is no such
/// alternative.
pub(crate) fn chosen(value: &Value, alternatives: usize) -> Result<(usize, &Value), RunFault>
    ensures ok { IfOk result (λ p. (p.0 < alternatives) × (abstract value.now ≡ alternative p.0 (abstract p.1.now))) }
    ensures refused { OnErr result ((i : ℕ) (w : AbstractValue)
        → abstract value.now ≡ alternative i w
        → i < alternatives
        → ⊥) }
{
    lemma_abstract_values();
    match value {
        Value::Alt(number, held) => {
            if *number >= alternatives {
                return Err(RunFault::NotOfType);
            }
            Ok((*number, &**held))
        }
        Value::Bool(_) | Value::Int(_) | Value::Enum(_) | Value::Bits(_) => {
            Err(RunFault::NotOfType)
        }
        Value::Octets(_) | Value::Text(_) | Value::Null => Err(RunFault::NotOfType),
        Value::Oid(_) | Value::RelativeOid(_) => Err(RunFault::NotOfType),
        Value::Fields(_) | Value::List(_) => Err(RunFault::NotOfType),
    }
}

/// The first step, and the steps after it, or None if there are no steps.
#[inline(always)]
pub(crate) fn first_step(steps: &[Step]) -> Option<(Step, &[Step])>
    ensures { MatchOption result (steps.now ≡ []) (λ p. steps.now ≡ p.0 ∷ p.1.now) }
{
    if steps.is_empty() {
        None
    } else {
        Some((steps[0], &steps[1..]))
    }
}

/// The header and the kind of contents of a type with one tag whose values hold no others. Its routine has three steps:
/// a header, contents and the end. The result is None for another routine.
#[inline(always)]
fn leaf_of(code: &Code, id: TypeId) -> Option<(Head, LeafKind)>
    ensures steps { IfSome result (λ p. routine_at code.now id.index ≡ HeadStep p.0 ∷ Leaf p.1 ∷ End ∷ []) }
    ensures row { IfSome result (λ p. p.0.row ≡ LeafRow) }
{
    match code.summary(id) {
        Summary::Leaf(head, kind) => Some((head, kind)),
        Summary::Components(_, _) | Summary::Elements(_) | Summary::Any => None,
    }
}

/// The one header of a value of a type that is a CHOICE without a tag, the kind of the contents in it, and the value of
/// the alternative, which has these contents. The result is None for a type or an alternative with other steps.
pub(crate) fn leaf_chosen<'a>(
    code: &Code,
    id: TypeId,
    value: &'a Value,
) -> Option<(Head, LeafKind, &'a Value)>
    ensures { IfSome result (λ p. EmitsLeaf code.now id.index (abstract value.now) p.0 p.1 (abstract p.2.now)) }
{
    match first_step(code.steps(id, Coding::Tagged)) {
        Some((Step::Pick(count), calls)) => leaf_called(code, count, calls, value),
        _ => None,
    }
}

/// The same for the steps of such a type: a choice between so many calls, and these steps.
#[inline(always)]
fn leaf_called<'a>(
    code: &Code,
    count: usize,
    calls: &[Step],
    value: &'a Value,
) -> Option<(Head, LeafKind, &'a Value)>
    ensures { IfSome result (λ p. (t : ℕ)
        → routine_at code.now t ≡ Pick count ∷ calls.now
        → EmitsLeaf code.now t (abstract value.now) p.0 p.1 (abstract p.2.now)) }
{
    if count < calls.len() {
        return None;
    }
    match chosen(value, count) {
        Ok((number, held)) => match called(calls, number) {
            Ok(of) => match leaf_of(code, of) {
                Some((head, kind)) => Some((head, kind, held)),
                None => None,
            },
            Err(_) => None,
        },
        Err(_) => None,
    }
}

/// The header and the kind of contents, if the steps are those of a type with one tag whose values hold no others.
/// These are a header, contents and the end. The result is None for other steps.
pub(crate) fn leaf_routine(steps: &[Step]) -> Option<(Head, LeafKind)>
    ensures steps { IfSome result (λ p. steps.now ≡ HeadStep p.0 ∷ Leaf p.1 ∷ End ∷ []) }
    ensures row { IfSome result (λ p. p.0.row ≡ LeafRow) }
{
    if steps.len() != 3 {
        return None;
    }
    match steps[0] {
        Step::Head(head) => match steps[1] {
            Step::Leaf(kind) => match steps[2] {
                Step::End => if head.row == RowKind::Leaf {
                    Some((head, kind))
                } else {
                    None
                },
                _ => None,
            },
            _ => None,
        },
        _ => None,
    }
}
