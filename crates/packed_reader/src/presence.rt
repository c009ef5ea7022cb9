//! Which components and additions are present (X.691, 19).

ghost use Rattle.bits.specs.Left.{bits_left};
ghost use Rattle.packed_encodings.specs.Packing.{any_set};
ghost use Rattle.packed_reader.specs.Readings.{plain, read};
ghost use Rattle.packed_reader.specs.Structures as structures;
ghost use Rattle.packed_reader.specs.Structures.{bitmap_from, mark_from, presence_from};
ghost use Rattle.packed_reader.specs.proving.Code.{IsBare, IsStop};
ghost use Rattle.packed_reader.specs.proving.Running as running;
ghost use Rattle.packed_reader.specs.proving.Running.{run_presences};
ghost use Rattle.packed_readings.specs.Counts.{several_bits};
ghost use Rattle.packed_readings.specs.Outcome.{found, outcome};
ghost use Rattle.packed_code.specs.declared.step.PackedField.{PackedField};
ghost use Rattle.packed_writer.specs.proving.Values.{fields_in};
ghost use Rattle.std.specs.Prelude.{◌≡◌, ◌++◌, ◌∷◌, ◌≤◌, ◌<◌, [], IfErr, IfOk, List, OnOk, length, map};

use crate::sent::Sent;
use crate::stop::Stop;
use bits::cursor::Bits;
use decode_faults::Refusal;
use packed_code::{PackedField, PackedStep};
use packed_readings::law::field_laws;
use packed_readings::{read_bit, read_field};
use packed_writer::field_of;
use std::alloc::Global;

/// Whether the component of the field is present: a bit says so, if it has one (19.2).
#[inline(always)]
fn read_presence(field: PackedField, bits: &mut Bits<'_>) -> Result<bool, Refusal>
    ensures is { presence_from field.with_bit (bits_left bits.old) ≡ plain (outcome result (bits_left bits.new)) }
    ensures shorter { IfOk result (λ x. length (bits_left bits.new) ≤ length (bits_left bits.old)) }
{
    field_laws();
    if field.with_bit {
        read_bit(bits)
    } else {
        Ok(true)
    }
}

/// Adds the field of the step, if it is one of the root or of a group, with its presence.
#[inline(always)]
fn push_presence(
    alloc: Global,
    step: PackedStep,
    bits: &mut Bits<'_>,
    sent: &mut Vec<Sent>,
) -> Result<(), Stop>
    ensures ok { OnOk result ((fs : List PackedField)
        → run_presences sent.old.items (fields_in (step ∷ []) ++ fs) (bits_left bits.old)
        ≡ run_presences sent.new.items fs (bits_left bits.new)) }
    ensures err { IfErr result (λ e. (fs : List PackedField)
        → IsStop (run_presences sent.old.items (fields_in (step ∷ []) ++ fs) (bits_left bits.old)) e
        (bits_left bits.new)) }
    ensures fields { OnOk result (map (λ x. x.field) sent.new.items
        ≡ map (λ x. x.field) sent.old.items ++ fields_in (step ∷ [])) }
    ensures shorter { OnOk result (length (bits_left bits.new) ≤ length (bits_left bits.old)) }
{
    match field_of(step) {
        Some(field) => match read_presence(field, bits) {
            Ok(present) => {
                sent.push(Sent { field, present })?;
                Ok(())
            }
            Err(refusal) => Err(Stop::at(alloc, refusal)),
        },
        None => Ok(()),
    }
}

/// Takes the bits that say which fields of the steps are present.
pub(crate) fn read_presences(
    alloc: Global,
    steps: &[PackedStep],
    bits: &mut Bits<'_>,
) -> Result<Vec<Sent>, Stop>
    ensures ok { IfOk result (λ v. run_presences [] (fields_in steps.now) (bits_left bits.old)
        ≡ read v.items (bits_left bits.new)) }
    ensures err { IfErr result (λ e. IsStop (run_presences [] (fields_in steps.now) (bits_left bits.old)) e
        (bits_left bits.new)) }
    ensures fields { IfOk result (λ v. map (λ x. x.field) v.items ≡ fields_in steps.now) }
    ensures shorter { IfOk result (λ x. length (bits_left bits.new) ≤ length (bits_left bits.old)) }
{
    let mut sent = Vec::with_capacity(alloc, steps.len())?;
    for i in 0..steps.len() {
        match push_presence(alloc, steps[i], bits, &mut sent) {
            Ok(()) => {}
            Err(stop) => return Err(stop),
        }
    }
    Ok(sent)
}

/// Whether a component is present.
pub(crate) fn any_sent(sent: &[Sent]) -> bool
    ensures { result ≡ running.any_sent sent.now }
{
    for i in 0..sent.len() {
        if sent[i].present {
            return true;
        }
    }
    false
}

/// The bit of an extensible type that says whether additions are present (19.1).
pub(crate) fn read_mark(extensible: bool, bits: &mut Bits<'_>) -> Result<bool, Refusal>
    ensures is { mark_from extensible (bits_left bits.old) ≡ plain (outcome result (bits_left bits.new)) }
    ensures shorter { IfOk result (λ x. length (bits_left bits.new) ≤ length (bits_left bits.old)) }
{
    field_laws();
    if extensible {
        read_bit(bits)
    } else {
        Ok(false)
    }
}

/// How many additions a message has, minus one (19.8): a bit 0, and six bits. `TooManyAdditions`: the bit is 1.
fn read_addition_count(bits: &mut Bits<'_>) -> Result<usize, Refusal>
    ensures is { structures.count_from (bits_left bits.old) ≡ plain (outcome result (bits_left bits.new)) }
    ensures small { IfOk result (λ n. n < 64) }
    ensures shorter { IfOk result (λ x. length (bits_left bits.new) ≤ length (bits_left bits.old)) }
{
    field_laws();
    let start = *bits;
    match read_bit(bits) {
        Ok(false) => match read_field(bits, 6) {
            Ok(number) => Ok(number as usize),
            Err(truncated) => Err(truncated),
        },
        Ok(true) => {
            *bits = start;
            Err(Refusal::TooManyAdditions)
        }
        Err(truncated) => Err(truncated),
    }
}

/// Takes so many bits.
fn read_bits(alloc: Global, count: usize, bits: &mut Bits<'_>) -> Result<Vec<bool>, Stop>
    ensures ok { IfOk result (λ v. several_bits count (bits_left bits.old) ≡ found v.items (bits_left bits.new)) }
    ensures err { IfErr result (IsBare (several_bits count (bits_left bits.old)) (bits_left bits.new)) }
    ensures shorter { IfOk result (λ x. length (bits_left bits.new) ≤ length (bits_left bits.old)) }
{
    if bits.len() < count {
        return Err(Stop::at(alloc, Refusal::Truncated));
    }
    let mut out = Vec::new(alloc);
    for _i in 0..count {
        out.push(bits.take(1) == 1)?;
    }
    Ok(out)
}

/// Whether a bit is 1.
fn any_one(bits: &[bool]) -> bool
    ensures { result ≡ any_set bits.now }
{
    for i in 0..bits.len() {
        if bits[i] {
            return true;
        }
    }
    false
}

/// Takes a bit for each addition, after their number (19.7 and 19.8). `NotCanonical`: none of them is present.
pub(crate) fn read_bitmap(alloc: Global, bits: &mut Bits<'_>) -> Result<Vec<bool>, Stop>
    ensures ok { IfOk result (λ v. bitmap_from (bits_left bits.old) ≡ read v.items (bits_left bits.new)) }
    ensures err { IfErr result (λ e. IsStop (bitmap_from (bits_left bits.old)) e (bits_left bits.new)) }
    ensures shorter { IfOk result (λ x. length (bits_left bits.new) ≤ length (bits_left bits.old)) }
{
    let count = match read_addition_count(bits) {
        Ok(count) => count,
        Err(refusal) => return Err(Stop::at(alloc, refusal)),
    };
    let start = *bits;
    let map = match read_bits(alloc, count + 1, bits) {
        Ok(map) => map,
        Err(stop) => return Err(stop),
    };
    if any_one(map.as_slice()) {
        Ok(map)
    } else {
        *bits = start;
        Err(Stop::at(alloc, Refusal::NotCanonical))
    }
}
