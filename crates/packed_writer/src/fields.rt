//! The components of a value that are encoded, and the bits that say which these are (X.691, 19).

ghost use Rattle.asn_base.specs.Abstract.{abstract};
ghost use Rattle.packed_code.specs.Meaning as meaning;
ghost use Rattle.packed_code.specs.Meaning.{addition_map, bitmap_bits, map_bits, members_of, next_fields};
ghost use Rattle.packed_encodings.specs.Packing.{any_set};
ghost use Rattle.packed_writer.specs.proving.Values.{FieldFits, FieldOf, FieldsFit, IsIn};
ghost use Rattle.packed_writer.specs.proving.Values.{LeftOut, Written, fields_in, first_map};
ghost use Rattle.std.specs.Prelude.{◌≡◌, ◌≤◌, ◌++◌, ◌∷◌, [], MatchOption, OnOk, drop, length, take};

use crate::default::is_default;
use crate::typed::Typed;
use crate::values::component;
use asn_base::law::lemma_levels_grow;
use asn_base::value::Value;
use bits::buffer::BitBuf;
use packed_code::{PackedCode, PackedField, PackedStep};
use std::alloc::AllocError;

/// The value of a component that is encoded, which is present and not the same as its DEFAULT (X.691, 19.5). The result
/// is None for a component that isn't encoded.
pub(crate) fn written<'a>(
    code: &PackedCode,
    typed: Typed<'a>,
    field: PackedField,
) -> Option<&'a Value>
    requires value { IsIn code.now typed }
    requires field { FieldFits code.now typed.id.index field }
    ensures { MatchOption result
        (LeftOut code.now typed.entry.id.index (abstract typed.entry.value.now) field)
        (λ w. Written code.now typed.entry.id.index (abstract typed.entry.value.now) field typed.entry.levels
        (abstract w.now)) }
{
    lemma_levels_grow();
    let Some(value) = component(typed.value, field.place) else {
        return None;
    };
    if !field.with_default {
        return Some(value);
    }
    if is_default(code.schema(), typed.id, field.place, value) {
        return None;
    }
    Some(value)
}

/// Whether the component is encoded.
fn is_written(code: &PackedCode, typed: Typed<'_>, field: PackedField) -> bool
    requires value { IsIn code.now typed }
    requires field { FieldFits code.now typed.id.index field }
    ensures { result ≡ meaning.is_written
        (members_of code.now typed.entry.id.index (abstract typed.entry.value.now)) field.place }
{
    match written(code, typed, field) {
        Some(_) => true,
        None => false,
    }
}

/// The field of a step of the root or of a group, or None for another step.
#[inline(always)]
pub fn field_of(step: PackedStep) -> Option<PackedField>
    ensures { MatchOption result (fields_in (step ∷ []) ≡ []) (λ f. fields_in (step ∷ []) ≡ f ∷ []) }
{
    match step {
        PackedStep::Field(field) | PackedStep::Member(field) => Some(field),
        _ => None,
    }
}

/// The next `count` steps, or all if there are fewer.
#[inline(always)]
pub fn next(steps: &[PackedStep], count: usize) -> &[PackedStep]
    ensures { result.now ≡ take count steps.now }
{
    if count <= steps.len() {
        &steps[..count]
    } else {
        steps
    }
}

/// The steps after the first `count` ones.
pub fn after(steps: &[PackedStep], count: usize) -> &[PackedStep]
    requires { count ≤ length steps.now }
    ensures { result.now ≡ drop count steps.now }
{
    &steps[count..]
}

/// The first step, and the steps after it, or None if there are no steps.
#[inline(always)]
pub fn first(steps: &[PackedStep]) -> Option<(PackedStep, &[PackedStep])>
    ensures { MatchOption result (steps.now ≡ []) (λ p. steps.now ≡ p.0 ∷ p.1.now) }
{
    if steps.is_empty() {
        None
    } else {
        Some((steps[0], &steps[1..]))
    }
}

/// Adds a bit for each field of these steps, which is 1 if the component is encoded (19.2). `AllocError` only if an
/// allocation fails.
pub(crate) fn push_map(
    code: &PackedCode,
    out: &mut BitBuf,
    typed: Typed<'_>,
    steps: &[PackedStep],
) -> Result<(), AllocError>
    requires value { IsIn code.now typed }
    requires fields { FieldsFit code.now typed.id.index steps.now }
    ensures { OnOk result (out.new ≡ out.old
        ++ map_bits (members_of code.now typed.entry.id.index (abstract typed.entry.value.now)) (fields_in steps.now)) }
{
    for i in 0..steps.len() {
        push_presence(code, out, typed, steps[i])?;
    }
    Ok(())
}

/// Adds the bit of a step's field, if it has one.
fn push_presence(
    code: &PackedCode,
    out: &mut BitBuf,
    typed: Typed<'_>,
    step: PackedStep,
) -> Result<(), AllocError>
    requires value { IsIn code.now typed }
    requires field { FieldOf code.now typed.id.index step }
    ensures { OnOk result (out.new ≡ out.old
        ++ map_bits (members_of code.now typed.entry.id.index (abstract typed.entry.value.now))
        (fields_in (step ∷ []))) }
{
    match field_of(step) {
        Some(field) => {
            if field.with_bit {
                out.push(is_written(code, typed, field))?;
            }
            Ok(())
        }
        None => Ok(()),
    }
}

/// Whether a component of these steps is encoded.
pub(crate) fn any_written(code: &PackedCode, typed: Typed<'_>, steps: &[PackedStep]) -> bool
    requires value { IsIn code.now typed }
    requires fields { FieldsFit code.now typed.id.index steps.now }
    ensures { result ≡ meaning.any_written
        (members_of code.now typed.entry.id.index (abstract typed.entry.value.now)) (fields_in steps.now) }
{
    for i in 0..steps.len() {
        if is_field_written(code, typed, steps[i]) {
            return true;
        }
    }
    false
}

fn is_field_written(code: &PackedCode, typed: Typed<'_>, step: PackedStep) -> bool
    requires value { IsIn code.now typed }
    requires field { FieldOf code.now typed.id.index step }
    ensures { result ≡ meaning.any_written
        (members_of code.now typed.entry.id.index (abstract typed.entry.value.now)) (fields_in (step ∷ [])) }
{
    match field_of(step) {
        Some(field) => is_written(code, typed, field),
        None => false,
    }
}

/// Whether the addition of the first step is encoded, which is a component by itself or a group. The result is None if
/// the first step isn't that of an addition.
fn addition(code: &PackedCode, typed: Typed<'_>, steps: &[PackedStep]) -> Option<bool>
    requires value { IsIn code.now typed }
    requires fields { FieldsFit code.now typed.id.index steps.now }
    ensures { MatchOption result
        (first_map (members_of code.now typed.entry.id.index (abstract typed.entry.value.now)) steps.now ≡ [])
        (λ b. first_map (members_of code.now typed.entry.id.index (abstract typed.entry.value.now)) steps.now
        ≡ b ∷ []) }
{
    let Some((step, rest)) = first(steps) else {
        return None;
    };
    match step {
        PackedStep::Added(field) => Some(is_written(code, typed, field)),
        PackedStep::Group(count) => Some(any_written(code, typed, next(rest, count))),
        _ => None,
    }
}

/// Whether an addition of these steps is encoded.
fn any_addition(code: &PackedCode, typed: Typed<'_>, steps: &[PackedStep]) -> bool
    requires value { IsIn code.now typed }
    requires fields { FieldsFit code.now typed.id.index steps.now }
    ensures { result ≡ any_set (addition_map
        (members_of code.now typed.entry.id.index (abstract typed.entry.value.now)) steps.now) }
{
    for i in 0..steps.len() {
        if is_added(code, typed, after(steps, i)) {
            return true;
        }
    }
    false
}

/// Whether the first step is that of an addition that is encoded.
fn is_added(code: &PackedCode, typed: Typed<'_>, steps: &[PackedStep]) -> bool
    requires value { IsIn code.now typed }
    requires fields { FieldsFit code.now typed.id.index steps.now }
    ensures { result ≡ any_set (first_map
        (members_of code.now typed.entry.id.index (abstract typed.entry.value.now)) steps.now) }
{
    match addition(code, typed, steps) {
        Some(added) => added,
        None => false,
    }
}

/// Adds a bit for each addition of these steps (19.8).
fn push_addition_map(
    code: &PackedCode,
    out: &mut BitBuf,
    typed: Typed<'_>,
    steps: &[PackedStep],
) -> Result<(), AllocError>
    requires value { IsIn code.now typed }
    requires fields { FieldsFit code.now typed.id.index steps.now }
    ensures { OnOk result (out.new ≡ out.old
        ++ addition_map (members_of code.now typed.entry.id.index (abstract typed.entry.value.now)) steps.now) }
{
    for i in 0..steps.len() {
        push_addition_bit(code, out, typed, after(steps, i))?;
    }
    Ok(())
}

/// Adds the bit of the first step, if it is that of an addition.
fn push_addition_bit(
    code: &PackedCode,
    out: &mut BitBuf,
    typed: Typed<'_>,
    steps: &[PackedStep],
) -> Result<(), AllocError>
    requires value { IsIn code.now typed }
    requires fields { FieldsFit code.now typed.id.index steps.now }
    ensures { OnOk result (out.new ≡ out.old
        ++ first_map (members_of code.now typed.entry.id.index (abstract typed.entry.value.now)) steps.now) }
{
    match addition(code, typed, steps) {
        Some(added) => {
            out.push(added)?;
            Ok(())
        }
        None => Ok(()),
    }
}

/// If an addition is encoded, adds the number of additions and a bit for each of them (19.7 and 19.8). `AllocError`
/// only if an allocation fails.
pub(crate) fn push_bitmap(
    code: &PackedCode,
    out: &mut BitBuf,
    typed: Typed<'_>,
    count: usize,
    steps: &[PackedStep],
) -> Result<(), AllocError>
    requires value { IsIn code.now typed }
    requires fields { FieldsFit code.now typed.id.index steps.now }
    ensures { OnOk result (out.new ≡ out.old
        ++ bitmap_bits count (addition_map
        (members_of code.now typed.entry.id.index (abstract typed.entry.value.now)) steps.now)) }
{
    if !any_addition(code, typed, steps) {
        return Ok(());
    }
    out.push(false)?;
    out.push_word(count.saturating_sub(1) as u64, 6)?;
    push_addition_map(code, out, typed, steps)?;
    Ok(())
}
