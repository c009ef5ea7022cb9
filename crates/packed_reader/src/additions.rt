//! The additions of SEQUENCE and SET types: which ones follow the root, by themselves and in groups.

ghost use Rattle.asn_base.specs.Schemas.{components};
ghost use Rattle.bits.specs.Left.{bits_left};
ghost use Rattle.packed_encodings.specs.Computed.{kind_at};
ghost use Rattle.packed_reader.specs.proving.Code.{HasRoom, IsGot, IsStop, Advanced, row_of_values};
ghost use Rattle.packed_reader.specs.proving.Running.{run_added, run_additions, run_first, run_group, run_group_inside};
ghost use Rattle.packed_reader.specs.proving.Running.{run_rest, run_value};
ghost use Rattle.packed_writer.specs.proving.Values.{FieldFits, FieldsFit, fields_in};
ghost use Rattle.std.specs.Prelude.{◌≡◌, ◌≤◌, IfErr, OnOk, length, true};

use crate::addition_bits::{first_bit, is_addition, other_bits};
use crate::components::read_members;
use crate::laws_of_running::inside_laws;
use crate::open::{fault_place, fills, skip_unknown, take_octets};
use crate::part::Part;
use crate::presence::{any_sent, read_bitmap, read_presences};
use crate::reader::{Progress, Reader};
use crate::row::put;
use crate::stop::Stop;
use crate::value::read_opened;
use asn_base::value::Value;
use bits::cursor::Bits;
use decode_faults::Refusal;
use packed_code::{PackedField, PackedStep};
use packed_writer::{after, first, next};

/// What follows the root of a message that has additions: which ones, and those (19.6 to 19.9).
#[cycle(reads)]
#[tactic(none)]
#[inline(never)]
pub(crate) fn read_extension(
    reader: Reader<'_>,
    progress: &mut Progress,
    bits: &mut Bits<'_>,
    row: &mut Vec<Option<Value>>,
    steps: &[PackedStep],
) -> Result<(), Stop>
    requires few { reader.levels ≤ 63 }
    requires room { HasRoom progress.old (bits_left bits.old) }
    requires fit { FieldsFit reader.code.now reader.id.index steps.now }
    requires places { length row.old.items ≡ length (components (kind_at reader.code.now reader.id.index)) }
    ensures ok { OnOk result (IsGot
        (run_rest reader.entry.code.now reader.entry.levels (run_value reader.entry.code.now reader.entry.levels)
        (components (kind_at reader.entry.code.now reader.entry.id.index)) true steps.now (row_of_values row.old.items)
        progress.old.skipped progress.old.left (bits_left bits.old))
        (row_of_values row.new.items) progress.new (bits_left bits.new)) }
    ensures err { IfErr result (λ e. IsStop
        (run_rest reader.entry.code.now reader.entry.levels (run_value reader.entry.code.now reader.entry.levels)
        (components (kind_at reader.entry.code.now reader.entry.id.index)) true steps.now (row_of_values row.old.items)
        progress.old.skipped progress.old.left (bits_left bits.old))
        e (bits_left bits.new)) }
    ensures advanced { OnOk result (Advanced progress.old (bits_left bits.old) progress.new (bits_left bits.new)) }
{
    let map = match read_bitmap(reader.alloc, bits) {
        Ok(map) => map,
        Err(stop) => return Err(stop),
    };
    let additions = Additions {
        steps,
        map: map.as_slice(),
    };
    read_additions(reader, progress, bits, row, additions)
}

/// The steps of additions, and a bit for each that says whether it is present; further bits are those of additions that
/// the type lacks.
#[derive(Clone, Copy)]
struct Additions<'a> {
    steps: &'a [PackedStep],
    map: &'a [bool],
}

/// The additions that are present. Those that the type lacks are skipped.
#[cycle(reads)]
#[tactic(none)]
fn read_additions(
    reader: Reader<'_>,
    progress: &mut Progress,
    bits: &mut Bits<'_>,
    row: &mut Vec<Option<Value>>,
    additions: Additions<'_>,
) -> Result<(), Stop>
    requires few { reader.levels ≤ 63 }
    requires room { HasRoom progress.old (bits_left bits.old) }
    requires fit { FieldsFit reader.code.now reader.id.index additions.steps.now }
    requires places { length row.old.items ≡ length (components (kind_at reader.code.now reader.id.index)) }
    ensures ok { OnOk result (IsGot
        (run_additions reader.entry.code.now reader.entry.levels (run_value reader.entry.code.now reader.entry.levels)
        (components (kind_at reader.entry.code.now reader.entry.id.index))
        additions.entry.steps.now additions.entry.map.now (row_of_values row.old.items)
        progress.old.skipped progress.old.left (bits_left bits.old))
        (row_of_values row.new.items) progress.new (bits_left bits.new)) }
    ensures err { IfErr result (λ e. IsStop
        (run_additions reader.entry.code.now reader.entry.levels (run_value reader.entry.code.now reader.entry.levels)
        (components (kind_at reader.entry.code.now reader.entry.id.index))
        additions.entry.steps.now additions.entry.map.now (row_of_values row.old.items)
        progress.old.skipped progress.old.left (bits_left bits.old))
        e (bits_left bits.new)) }
    ensures advanced { OnOk result (Advanced progress.old (bits_left bits.old) progress.new (bits_left bits.new)) }
{
    let mut map = additions.map;
    for i in 0..additions.steps.len() {
        if is_addition(additions.steps[i]) {
            if first_bit(map) {
                match read_addition(reader, progress, bits, row, after(additions.steps, i)) {
                    Ok(()) => {}
                    Err(stop) => return Err(stop),
                }
            }
            map = other_bits(map);
        }
    }
    skip_unknown(reader.alloc, map, progress, bits)
}

/// The addition of the first step, if it is one: a component by itself, or a group.
#[cycle(reads)]
#[tactic(none)]
fn read_addition(
    reader: Reader<'_>,
    progress: &mut Progress,
    bits: &mut Bits<'_>,
    row: &mut Vec<Option<Value>>,
    steps: &[PackedStep],
) -> Result<(), Stop>
    requires few { reader.levels ≤ 63 }
    requires room { HasRoom progress.old (bits_left bits.old) }
    requires fit { FieldsFit reader.code.now reader.id.index steps.now }
    requires places { length row.old.items ≡ length (components (kind_at reader.code.now reader.id.index)) }
    ensures ok { OnOk result (IsGot
        (run_first reader.entry.code.now reader.entry.levels (run_value reader.entry.code.now reader.entry.levels)
        (components (kind_at reader.entry.code.now reader.entry.id.index)) steps.now (row_of_values row.old.items)
        progress.old.skipped progress.old.left (bits_left bits.old))
        (row_of_values row.new.items) progress.new (bits_left bits.new)) }
    ensures err { IfErr result (λ e. IsStop
        (run_first reader.entry.code.now reader.entry.levels (run_value reader.entry.code.now reader.entry.levels)
        (components (kind_at reader.entry.code.now reader.entry.id.index)) steps.now (row_of_values row.old.items)
        progress.old.skipped progress.old.left (bits_left bits.old))
        e (bits_left bits.new)) }
    ensures advanced { OnOk result (Advanced progress.old (bits_left bits.old) progress.new (bits_left bits.new)) }
    ensures places { length row.new.items ≡ length row.old.items }
{
    let Some((step, rest)) = first(steps) else {
        return Ok(());
    };
    match step {
        PackedStep::Added(field) => read_added(reader, progress, bits, row, field),
        PackedStep::Group(count) => read_group(reader, progress, bits, row, next(rest, count)),
        PackedStep::Bit
        | PackedStep::Number(_, _)
        | PackedStep::Leaf
        | PackedStep::ExtensionBit(_) => Ok(()),
        PackedStep::Map(_) | PackedStep::Bitmap(_) | PackedStep::Field(_) => Ok(()),
        PackedStep::Member(_) | PackedStep::Rest | PackedStep::Each(_) => Ok(()),
        PackedStep::EachSorted(_) | PackedStep::Pick(_) => Ok(()),
        PackedStep::Root(_) | PackedStep::More(_, _) => Ok(()),
    }
}

/// An addition by itself.
#[cycle(reads)]
#[tactic(none)]
fn read_added(
    reader: Reader<'_>,
    progress: &mut Progress,
    bits: &mut Bits<'_>,
    row: &mut Vec<Option<Value>>,
    field: PackedField,
) -> Result<(), Stop>
    requires few { reader.levels ≤ 63 }
    requires room { HasRoom progress.old (bits_left bits.old) }
    requires fits { FieldFits reader.code.now reader.id.index field }
    requires places { length row.old.items ≡ length (components (kind_at reader.code.now reader.id.index)) }
    ensures ok { OnOk result (IsGot
        (run_added (run_value reader.entry.code.now reader.entry.levels) field (row_of_values row.old.items)
        progress.old.skipped progress.old.left (bits_left bits.old))
        (row_of_values row.new.items) progress.new (bits_left bits.new)) }
    ensures err { IfErr result (λ e. IsStop
        (run_added (run_value reader.entry.code.now reader.entry.levels) field (row_of_values row.old.items)
        progress.old.skipped progress.old.left (bits_left bits.old))
        e (bits_left bits.new)) }
    ensures advanced { OnOk result (Advanced progress.old (bits_left bits.old) progress.new (bits_left bits.new)) }
    ensures places { length row.new.items ≡ length row.old.items }
{
    let value = match read_opened(
        Reader {
            id: field.ty,
            ..reader
        },
        progress,
        bits,
    ) {
        Ok(value) => value,
        Err(stop) => return Err(stop.within(Part::Component(field.place))),
    };
    put(row, field.place, value);
    Ok(())
}

/// The members of a group, as an open type (19.9). The faults are placed as in `read_opened`.
#[cycle(reads)]
#[tactic(none)]
fn read_group(
    reader: Reader<'_>,
    progress: &mut Progress,
    bits: &mut Bits<'_>,
    row: &mut Vec<Option<Value>>,
    steps: &[PackedStep],
) -> Result<(), Stop>
    requires few { reader.levels ≤ 63 }
    requires room { HasRoom progress.old (bits_left bits.old) }
    requires fit { FieldsFit reader.code.now reader.id.index steps.now }
    requires places { length row.old.items ≡ length (components (kind_at reader.code.now reader.id.index)) }
    ensures ok { OnOk result (IsGot
        (run_group reader.entry.code.now reader.entry.levels (run_value reader.entry.code.now reader.entry.levels)
        (components (kind_at reader.entry.code.now reader.entry.id.index)) (fields_in steps.now)
        (row_of_values row.old.items) progress.old.skipped progress.old.left (bits_left bits.old))
        (row_of_values row.new.items) progress.new (bits_left bits.new)) }
    ensures err { IfErr result (λ e. IsStop
        (run_group reader.entry.code.now reader.entry.levels (run_value reader.entry.code.now reader.entry.levels)
        (components (kind_at reader.entry.code.now reader.entry.id.index)) (fields_in steps.now)
        (row_of_values row.old.items) progress.old.skipped progress.old.left (bits_left bits.old))
        e (bits_left bits.new)) }
    ensures advanced { OnOk result (Advanced progress.old (bits_left bits.old) progress.new (bits_left bits.new)) }
    ensures places { length row.new.items ≡ length row.old.items }
{
    reader.code.lemma_invariant();
    inside_laws();
    let start = *bits;
    let octets = match take_octets(reader.alloc, bits) {
        Ok(octets) => octets,
        Err(stop) => return Err(stop),
    };
    let mut inner = Bits::of(octets.as_slice());
    let all = inner.len();
    let stop = match read_group_members(reader, progress, &mut inner, row, steps) {
        Ok(()) => {
            if fills(all - inner.len(), inner) {
                return Ok(());
            }
            Stop::at(reader.alloc, Refusal::Padding)
        }
        Err(stop) => stop,
    };
    // Where an allocation failed, nothing is known of the bits that are left.
    let left = inner.len().min(all);
    *bits = fault_place(start, *bits, octets.len(), left);
    Err(stop)
}

/// The members of a group after their bits. `NotCanonical`: none of them is present.
#[cycle(reads)]
#[tactic(none)]
fn read_group_members(
    reader: Reader<'_>,
    progress: &mut Progress,
    bits: &mut Bits<'_>,
    row: &mut Vec<Option<Value>>,
    steps: &[PackedStep],
) -> Result<(), Stop>
    requires few { reader.levels ≤ 63 }
    requires room { HasRoom progress.old (bits_left bits.old) }
    requires fit { FieldsFit reader.code.now reader.id.index steps.now }
    requires places { length row.old.items ≡ length (components (kind_at reader.code.now reader.id.index)) }
    ensures ok { OnOk result (IsGot
        (run_group_inside reader.entry.code.now reader.entry.levels
        (run_value reader.entry.code.now reader.entry.levels)
        (components (kind_at reader.entry.code.now reader.entry.id.index)) (fields_in steps.now)
        (row_of_values row.old.items) progress.old.skipped progress.old.left (bits_left bits.old))
        (row_of_values row.new.items) progress.new (bits_left bits.new)) }
    ensures err { IfErr result (λ e. IsStop
        (run_group_inside reader.entry.code.now reader.entry.levels
        (run_value reader.entry.code.now reader.entry.levels)
        (components (kind_at reader.entry.code.now reader.entry.id.index)) (fields_in steps.now)
        (row_of_values row.old.items) progress.old.skipped progress.old.left (bits_left bits.old))
        e (bits_left bits.new)) }
    ensures advanced { OnOk result (Advanced progress.old (bits_left bits.old) progress.new (bits_left bits.new)) }
    ensures places { length row.new.items ≡ length row.old.items }
{
    let start = *bits;
    let sent = match read_presences(reader.alloc, steps, bits) {
        Ok(sent) => sent,
        Err(stop) => return Err(stop),
    };
    if !any_sent(sent.as_slice()) {
        *bits = start;
        return Err(Stop::at(reader.alloc, Refusal::NotCanonical));
    }
    read_members(reader, progress, bits, row, sent.as_slice())
}
