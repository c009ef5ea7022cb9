//! Runs the steps of a routine over a value.

ghost use Rattle.asn_base.specs.Abstract.{Row, abstract, list, row_of_list};
ghost use Rattle.asn_base.specs.Same.{IsLeaf};
ghost use Rattle.asn_base.specs.Schemas.{AreBounds, IsSize};
ghost use Rattle.asn_base.specs.Seen.{bounds_of, constraint_of, kind_of};
ghost use Rattle.asn_base.specs.Types.{Constraint as Constraint', a_sequence_of, a_set_of};
ghost use Rattle.bits.specs.Words.{low_bits};
ghost use Rattle.packed_code.specs.Meaning.{call_bits, field_bits, group_bits, listed_bits};
ghost use Rattle.packed_code.specs.Meaning.{number_bits, pick_bits, step_bits, steps_bits};
ghost use Rattle.packed_code.specs.Meaning.{items_of, members_of};
ghost use Rattle.packed_code.specs.Meaning as meaning;
ghost use Rattle.packed_code.specs.Routines.{routine_at};
ghost use Rattle.packed_counts.specs.Counts.{Adds};
ghost use Rattle.packed_encodings.specs.Computed as computed;
ghost use Rattle.packed_encodings.specs.Computed.{bits_of, kind_at, leaf_bits, open_bits};
ghost use Rattle.packed_encodings.specs.Lengths.{Counted, all_bits};
ghost use Rattle.packed_encodings.specs.Leaves.{root_bit};
ghost use Rattle.packed_writer.specs.proving.Values.{AreIn, FieldFits, FieldOf, FieldsFit, IsCalled};
ghost use Rattle.packed_writer.specs.proving.Values.{IsIn, IsList, IsListOf, IsNumber, IsPick, StepsFit};
ghost use Rattle.packed_writer.specs.proving.Values.{added_bits, all_items, fields_in, first_bits};
ghost use Rattle.std.specs.Prelude.{◌≡◌, ◌++◌, ◌-◌, ◌<◌, ◌≤◌, ◌∷◌, [], IfSome, OnOk, Some, false, length, map};
ghost use Rattle.std.specs.Prelude.{slice_get, true};

use crate::fields::{after, any_written, field_of, first, next, push_bitmap, push_map, written};
use crate::items::{push_items, sort};
use crate::law::lemma_routines_fit;
use crate::open::push_open;
use crate::typed::{Elements, Typed};
use crate::values::{any_from, chosen, elements};
use asn_base::constraint::Constraint;
use asn_base::law::lemma_levels_grow;
use asn_base::schema::{Core, Schema, TypeId};
use asn_base::value::Value;
use bits::buffer::BitBuf;
use packed_code::{PackedCode, PackedField, PackedStep, RootCall, routine_laws, span};
use packed_counts::law::count_laws;
use packed_counts::{push_count, push_number, push_size};
use packed_encodings::{computing_laws, function_laws};
use packed_leaves::push_leaf;
use packed_leaves::value::number;
use std::alloc::{AllocError, Global};

/// The step, if there is exactly one.
#[inline(always)]
fn only(steps: &[PackedStep]) -> Option<PackedStep>
    ensures { IfSome result (λ s. steps.now ≡ s ∷ []) }
{
    if steps.len() == 1 {
        Some(steps[0])
    } else {
        None
    }
}

/// Adds the bits of a value by the routine of its type. `AllocError` only if an allocation fails.
#[cycle(writes)]
#[inline(always)]
pub(crate) fn push_value(
    alloc: Global,
    code: &PackedCode,
    out: &mut BitBuf,
    typed: Typed<'_>,
) -> Result<(), AllocError>
    requires { IsIn code.now typed }
    ensures { OnOk result (out.new ≡ out.old
        ++ bits_of code.now (abstract typed.entry.value.now) typed.entry.id.index) }
{
    code.lemma_invariant();
    routine_laws();
    lemma_levels_grow();
    lemma_routines_fit();
    let steps = code.steps(typed.id);
    match only(steps) {
        Some(PackedStep::Number(least, width)) => push_offset(out, typed.value, least, width),
        Some(PackedStep::Bit) => push_contents(alloc, code, out, typed),
        Some(PackedStep::Leaf) => push_contents(alloc, code, out, typed),
        _ => push_steps(alloc, code, out, typed, steps),
    }
}

/// Adds the bits of the steps, one step after another.
#[cycle(writes)]
#[inline(never)]
fn push_steps(
    alloc: Global,
    code: &PackedCode,
    out: &mut BitBuf,
    typed: Typed<'_>,
    steps: &[PackedStep],
) -> Result<(), AllocError>
    requires value { IsIn code.now typed }
    requires fit { StepsFit code.now typed.id.index steps.now }
    ensures { OnOk result (out.new ≡ out.old
        ++ steps_bits code.now typed.entry.id.index (abstract typed.entry.value.now) steps.now) }
{
    for i in 0..steps.len() {
        if let PackedStep::Field(field) = steps[i] {
            push_field(alloc, code, out, typed, field)?;
        } else {
            push_step(alloc, code, out, typed, after(steps, i))?;
        }
    }
    Ok(())
}

/// Adds the bits of the first step, which come before those of the later steps.
#[cycle(writes)]
#[inline(never)]
fn push_step(
    alloc: Global,
    code: &PackedCode,
    out: &mut BitBuf,
    typed: Typed<'_>,
    steps: &[PackedStep],
) -> Result<(), AllocError>
    requires value { IsIn code.now typed }
    requires fit { StepsFit code.now typed.id.index steps.now }
    ensures { OnOk result (out.new ≡ out.old
        ++ first_bits code.now typed.entry.id.index (abstract typed.entry.value.now) steps.now) }
{
    let Some((step, rest)) = first(steps) else {
        return Ok(());
    };
    match step {
        PackedStep::Bit => push_contents(alloc, code, out, typed),
        PackedStep::Leaf => push_contents(alloc, code, out, typed),
        PackedStep::Number(least, width) => push_offset(out, typed.value, least, width),
        PackedStep::ExtensionBit(from) => out.push(any_from(typed.value, from)),
        PackedStep::Map(count) => push_map(code, out, typed, next(rest, count)),
        PackedStep::Field(field) => push_field(alloc, code, out, typed, field),
        PackedStep::Bitmap(count) => push_bitmap(code, out, typed, count, rest),
        PackedStep::Added(field) => push_added(alloc, code, out, typed, field),
        PackedStep::Group(count) => push_group(alloc, code, out, typed, next(rest, count)),
        PackedStep::Each(element) => push_each(alloc, code, out, typed, element),
        PackedStep::EachSorted(element) => push_sorted(alloc, code, out, typed, element),
        PackedStep::Pick(_) => push_pick(alloc, code, out, typed, rest),
        PackedStep::Member(_) => Ok(()),
        PackedStep::Rest => Ok(()),
        PackedStep::Root(_) => Ok(()),
        PackedStep::More(_, _) => Ok(()),
    }
}

/// Adds the bits of a value without other values in it.
#[inline(never)]
fn push_contents(
    alloc: Global,
    code: &PackedCode,
    out: &mut BitBuf,
    typed: Typed<'_>,
) -> Result<(), AllocError>
    requires value { IsIn code.now typed }
    requires leaf { IsLeaf (kind_at code.now typed.id.index) }
    ensures { OnOk result (out.new ≡ out.old
        ++ leaf_bits (kind_at code.now typed.entry.id.index) (abstract typed.entry.value.now)) }
{
    let core = code.schema().core(typed.id);
    push_leaf(alloc, out, core, typed.value)?;
    Ok(())
}

/// Adds the bits of an INTEGER with both bounds: how far it is above the least number.
#[inline(always)]
fn push_offset(out: &mut BitBuf, value: &Value, least: i128, width: usize) -> Result<(), AllocError>
    requires { IsNumber (abstract value.now) }
    ensures { OnOk result (out.new ≡ out.old ++ number_bits least width (abstract value.now)) }
{
    push_number(out, span(least, number(value)), width)?;
    Ok(())
}

/// Adds a component of the root, if it is encoded.
#[cycle(writes)]
#[inline(always)]
fn push_field(
    alloc: Global,
    code: &PackedCode,
    out: &mut BitBuf,
    typed: Typed<'_>,
    field: PackedField,
) -> Result<(), AllocError>
    requires value { IsIn code.now typed }
    requires field { FieldFits code.now typed.id.index field }
    ensures { OnOk result (out.new ≡ out.old
        ++ meaning.bits_at (members_of code.now typed.entry.id.index (abstract typed.entry.value.now)) field.place) }
{
    match written(code, typed, field) {
        Some(value) => {
            push_value(alloc, code, out, part(typed, field.ty, value))?;
            Ok(())
        }
        None => Ok(()),
    }
}

/// A value in another value, which may have one level less.
fn part<'a>(typed: Typed<'_>, id: TypeId, value: &'a Value) -> Typed<'a>
    ensures id { result.id ≡ id }
    ensures value { result.value.now ≡ value.now }
    ensures levels { result.levels ≡ typed.entry.levels - 1 }
{
    Typed {
        id,
        value,
        levels: typed.levels.saturating_sub(1),
    }
}

/// Adds an addition by itself, if it is encoded.
#[cycle(writes)]
fn push_added(
    alloc: Global,
    code: &PackedCode,
    out: &mut BitBuf,
    typed: Typed<'_>,
    field: PackedField,
) -> Result<(), AllocError>
    requires value { IsIn code.now typed }
    requires field { FieldFits code.now typed.id.index field }
    ensures { OnOk result (out.new ≡ out.old
        ++ added_bits (members_of code.now typed.entry.id.index (abstract typed.entry.value.now)) field.place) }
{
    match written(code, typed, field) {
        Some(value) => {
            push_opened(alloc, code, out, part(typed, field.ty, value))?;
            Ok(())
        }
        None => Ok(()),
    }
}

/// Adds a value as an open type (11.2).
#[cycle(writes)]
fn push_opened(
    alloc: Global,
    code: &PackedCode,
    out: &mut BitBuf,
    typed: Typed<'_>,
) -> Result<(), AllocError>
    requires { IsIn code.now typed }
    ensures { OnOk result (out.new ≡ out.old
        ++ open_bits (bits_of code.now (abstract typed.entry.value.now) typed.entry.id.index)) }
{
    let mut inner = BitBuf::new(alloc);
    push_value(alloc, code, &mut inner, typed)?;
    push_open(alloc, out, inner)?;
    Ok(())
}

/// If a member of a group is encoded, adds the group as an open type, in which the bits for its members come first
/// (19.9).
#[cycle(writes)]
fn push_group(
    alloc: Global,
    code: &PackedCode,
    out: &mut BitBuf,
    typed: Typed<'_>,
    steps: &[PackedStep],
) -> Result<(), AllocError>
    requires value { IsIn code.now typed }
    requires fields { FieldsFit code.now typed.id.index steps.now }
    ensures { OnOk result (out.new ≡ out.old
        ++ group_bits (members_of code.now typed.entry.id.index (abstract typed.entry.value.now))
        (fields_in steps.now)) }
{
    if !any_written(code, typed, steps) {
        return Ok(());
    }
    let mut inner = BitBuf::new(alloc);
    push_map(code, &mut inner, typed, steps)?;
    push_fields(alloc, code, &mut inner, typed, steps)?;
    push_open(alloc, out, inner)?;
    Ok(())
}

/// Adds the members of a group that are encoded.
#[cycle(writes)]
fn push_fields(
    alloc: Global,
    code: &PackedCode,
    out: &mut BitBuf,
    typed: Typed<'_>,
    steps: &[PackedStep],
) -> Result<(), AllocError>
    requires value { IsIn code.now typed }
    requires fields { FieldsFit code.now typed.id.index steps.now }
    ensures { OnOk result (out.new ≡ out.old
        ++ field_bits (members_of code.now typed.entry.id.index (abstract typed.entry.value.now))
        (fields_in steps.now)) }
{
    for i in 0..steps.len() {
        push_member(alloc, code, out, typed, steps[i])?;
    }
    Ok(())
}

/// Adds the component of a step, if the step is that of one.
#[cycle(writes)]
fn push_member(
    alloc: Global,
    code: &PackedCode,
    out: &mut BitBuf,
    typed: Typed<'_>,
    step: PackedStep,
) -> Result<(), AllocError>
    requires value { IsIn code.now typed }
    requires field { FieldOf code.now typed.id.index step }
    ensures { OnOk result (out.new ≡ out.old
        ++ field_bits (members_of code.now typed.entry.id.index (abstract typed.entry.value.now))
        (fields_in (step ∷ []))) }
{
    match field_of(step) {
        Some(field) => {
            push_field(alloc, code, out, typed, field)?;
            Ok(())
        }
        None => Ok(()),
    }
}

/// The constraint on the size of a SEQUENCE OF or SET OF.
pub fn size_of(schema: &Schema, id: TypeId) -> &Constraint
    requires { IsList schema.now id.index }
    ensures { IsListOf schema.now id.index (constraint_of result.now) }
{
    match schema.core(id) {
        Core::SequenceOf(size, _) => size,
        Core::SetOf(size, _) => size,
        Core::Boolean | Core::Integer(_) | Core::Enumerated(_) | Core::BitString(_) =>
            unreachable!(),
        Core::NamedBits(_) | Core::OctetString(_) | Core::Null => unreachable!(),
        Core::ObjectIdentifier | Core::RelativeOid => unreachable!(),
        Core::Utf8String(_) | Core::RestrictedString(_, _, _) => unreachable!(),
        Core::Sequence(_, _) | Core::Set(_, _) | Core::Choice(_) => unreachable!(),
    }
}

/// The elements of a list.
fn elements_of<'a>(typed: Typed<'a>, id: TypeId) -> Elements<'a>
    requires { (r : Row) × (abstract typed.value.now ≡ list r) }
    ensures id { result.id ≡ id }
    ensures levels { result.levels ≡ typed.entry.levels - 1 }
    ensures values { abstract typed.entry.value.now ≡ list (row_of_list (map abstract result.values.now)) }
{
    Elements {
        id,
        values: elements(typed.value),
        levels: typed.levels.saturating_sub(1),
    }
}

/// Adds the elements of a SEQUENCE OF after their number (20).
#[cycle(writes)]
fn push_each(
    alloc: Global,
    code: &PackedCode,
    out: &mut BitBuf,
    typed: Typed<'_>,
    element: TypeId,
) -> Result<(), AllocError>
    requires value { IsIn code.now typed }
    requires list { (k : Constraint') × (kind_at code.now typed.id.index ≡ a_sequence_of k element.index) }
    ensures { OnOk result (out.new ≡ out.old
        ++ listed_bits (kind_at code.now typed.entry.id.index)
        (items_of code.now element.index (abstract typed.entry.value.now))) }
{
    function_laws();
    let size = size_of(code.schema(), typed.id);
    let elements = elements_of(typed, element);
    let once = push_size(out, &size.visible, elements.values.len())?;
    if once {
        push_all(alloc, code, out, elements)?;
        Ok(())
    } else {
        push_counted(alloc, code, out, elements)?;
        Ok(())
    }
}

/// Adds elements, one after another.
#[cycle(writes)]
fn push_all(
    alloc: Global,
    code: &PackedCode,
    out: &mut BitBuf,
    elements: Elements<'_>,
) -> Result<(), AllocError>
    requires { AreIn code.now elements }
    ensures { OnOk result (out.new ≡ out.old
        ++ all_bits (all_items code.now elements.entry.id.index (map abstract elements.entry.values.now))) }
{
    for i in 0..elements.values.len() {
        push_value(alloc, code, out, element(elements, i))?;
    }
    Ok(())
}

/// The element at a place.
fn element<'a>(elements: Elements<'a>, place: usize) -> Typed<'a>
    requires { place < length elements.values.now }
    ensures id { result.id ≡ elements.entry.id }
    ensures levels { result.levels ≡ elements.entry.levels }
    ensures value { slice_get (map abstract elements.entry.values.now) place ≡ Some (abstract result.value.now) }
{
    Typed {
        id: elements.id,
        value: &elements.values[place],
        levels: elements.levels,
    }
}

/// Adds elements after their number, in fragments if there are many (11.9.3).
#[cycle(writes)]
fn push_counted(
    alloc: Global,
    code: &PackedCode,
    out: &mut BitBuf,
    elements: Elements<'_>,
) -> Result<(), AllocError>
    requires { AreIn code.now elements }
    ensures { OnOk result (Adds
        (Counted (all_items code.now elements.entry.id.index (map abstract elements.entry.values.now)))
        out.old out.new) }
{
    count_laws();
    let mut rest = elements.values;
    while rest.len() >= 16384 {
        let next = push_count(out, rest.len())?;
        let (first, others) = rest.split_at(next);
        push_all(alloc, code, out, among(elements, first))?;
        rest = others;
    }
    push_count(out, rest.len())?;
    push_all(alloc, code, out, among(elements, rest))?;
    Ok(())
}

/// These elements, with the same type.
fn among<'a>(elements: Elements<'a>, values: &'a [Value]) -> Elements<'a>
    ensures id { result.id ≡ elements.entry.id }
    ensures values { result.values.now ≡ values.now }
    ensures levels { result.levels ≡ elements.entry.levels }
{
    Elements {
        id: elements.id,
        values,
        levels: elements.levels,
    }
}

/// Adds the members of a SET OF after their number, in ascending order of their bits (22).
#[cycle(writes)]
fn push_sorted(
    alloc: Global,
    code: &PackedCode,
    out: &mut BitBuf,
    typed: Typed<'_>,
    element: TypeId,
) -> Result<(), AllocError>
    requires value { IsIn code.now typed }
    requires list { (k : Constraint') × (kind_at code.now typed.id.index ≡ a_set_of k element.index) }
    ensures { OnOk result (out.new ≡ out.old
        ++ listed_bits (kind_at code.now typed.entry.id.index)
        (computed.sorted (items_of code.now element.index (abstract typed.entry.value.now)))) }
{
    code.lemma_invariant();
    computing_laws();
    lemma_levels_grow();
    function_laws();
    let size = size_of(code.schema(), typed.id);
    let elements = elements_of(typed, element);
    let mut items = Vec::new(alloc);
    collect(alloc, code, &mut items, elements)?;
    sort(&mut items)?;
    push_items(out, &size.visible, items.as_slice())?;
    Ok(())
}

/// Collects the bits of each element in a list.
#[cycle(writes)]
fn collect(
    alloc: Global,
    code: &PackedCode,
    items: &mut Vec<BitBuf>,
    elements: Elements<'_>,
) -> Result<(), AllocError>
    requires { AreIn code.now elements }
    ensures { OnOk result (items.new.items ≡ items.old.items
        ++ all_items code.now elements.entry.id.index (map abstract elements.entry.values.now)) }
{
    for i in 0..elements.values.len() {
        collect_one(alloc, code, items, element(elements, i))?;
    }
    Ok(())
}

#[cycle(writes)]
fn collect_one(
    alloc: Global,
    code: &PackedCode,
    items: &mut Vec<BitBuf>,
    typed: Typed<'_>,
) -> Result<(), AllocError>
    requires { IsIn code.now typed }
    ensures { OnOk result (items.new.items ≡ items.old.items
        ++ bits_of code.now (abstract typed.entry.value.now) typed.entry.id.index ∷ []) }
{
    let mut one = BitBuf::new(alloc);
    push_value(alloc, code, &mut one, typed)?;
    items.push(one)?;
    Ok(())
}

/// Adds the index of an alternative of a CHOICE, and then the alternative (23).
#[cycle(writes)]
fn push_pick(
    alloc: Global,
    code: &PackedCode,
    out: &mut BitBuf,
    typed: Typed<'_>,
    calls: &[PackedStep],
) -> Result<(), AllocError>
    requires value { IsIn code.now typed }
    requires pick { IsPick code.now typed.id.index calls.now }
    ensures { OnOk result (out.new ≡ out.old ++ pick_bits code.now (abstract typed.entry.value.now) calls.now) }
{
    let (index, value) = chosen(typed.value);
    match call_at(calls, index) {
        Some(call) => {
            push_call(alloc, code, out, part(typed, typed.id, value), call)?;
            Ok(())
        }
        None => Ok(()),
    }
}

/// Adds the index of an alternative, and its value, whose type the step names.
#[cycle(writes)]
fn push_call(
    alloc: Global,
    code: &PackedCode,
    out: &mut BitBuf,
    typed: Typed<'_>,
    call: PackedStep,
) -> Result<(), AllocError>
    requires few { typed.levels ≤ 64 }
    requires called { IsCalled code.now typed.levels (abstract typed.value.now) (Some call) }
    ensures { OnOk result (out.new ≡ out.old ++ call_bits code.now (abstract typed.entry.value.now) (Some call)) }
{
    match call {
        PackedStep::Root(call) => {
            push_place(out, call)?;
            push_value(alloc, code, out, retyped(typed, call.ty))?;
            Ok(())
        }
        PackedStep::More(place, ty) => {
            push_added_place(out, place)?;
            push_opened(alloc, code, out, retyped(typed, ty))?;
            Ok(())
        }
        PackedStep::Bit
        | PackedStep::Number(_, _)
        | PackedStep::Leaf
        | PackedStep::ExtensionBit(_) => Ok(()),
        PackedStep::Map(_) | PackedStep::Field(_) | PackedStep::Bitmap(_) => Ok(()),
        PackedStep::Added(_) | PackedStep::Group(_) | PackedStep::Member(_) => Ok(()),
        PackedStep::Rest | PackedStep::Each(_) | PackedStep::EachSorted(_) => Ok(()),
        PackedStep::Pick(_) => Ok(()),
    }
}

/// The same value, with this type.
fn retyped<'a>(typed: Typed<'a>, id: TypeId) -> Typed<'a>
    ensures id { result.id ≡ id }
    ensures value { result.value.now ≡ typed.entry.value.now }
    ensures levels { result.levels ≡ typed.entry.levels }
{
    Typed {
        id,
        value: typed.value,
        levels: typed.levels,
    }
}

/// The step at a place, or None if there is no such place.
fn call_at(calls: &[PackedStep], index: usize) -> Option<PackedStep>
    ensures { result ≡ slice_get calls.now index }
{
    if index < calls.len() {
        Some(calls[index])
    } else {
        None
    }
}

/// Adds the index of an alternative in the root (23.4 to 23.7).
fn push_place(out: &mut BitBuf, call: RootCall) -> Result<(), AllocError>
    ensures { OnOk result (out.new ≡ out.old ++ (root_bit call.extensible ++ low_bits call.width call.rank)) }
{
    if call.extensible {
        out.push(false)?;
    }
    push_number(out, call.rank as u128, call.width)?;
    Ok(())
}

/// Adds the index of an alternative after the marker (23.8).
fn push_added_place(out: &mut BitBuf, place: usize) -> Result<(), AllocError>
    ensures { OnOk result (out.new ≡ out.old ++ (true ∷ (false ∷ low_bits 6 place))) }
{
    out.push(true)?;
    out.push(false)?;
    out.push_word(place as u64, 6)?;
    Ok(())
}
