//! The components of SEQUENCE and SET types: which ones a message has, and their values.

ghost use Rattle.asn_base.specs.Abstract.{abstract};
ghost use Rattle.asn_base.specs.Schemas.{components};
ghost use Rattle.bits.specs.Left.{bits_left};
ghost use Rattle.packed_encodings.specs.Computed.{kind_at};
ghost use Rattle.packed_reader.specs.Structures.{no_row};
ghost use Rattle.packed_reader.specs.proving.Code.{AreSent, HasRoom, IsGot, IsStop, Advanced, row_of_values};
ghost use Rattle.packed_reader.specs.proving.Running.{run_fields, run_member, run_members, run_present, run_structure};
ghost use Rattle.packed_reader.specs.proving.Running.{run_value};
ghost use Rattle.packed_writer.specs.proving.Values.{FieldFits, FieldsFit};
ghost use Rattle.std.specs.Prelude.{◌≡◌, ◌≤◌, ◌<◌, IfErr, IfOk, OnOk, length};

use crate::absent::may_lack;
use crate::additions::read_extension;
use crate::part::Part;
use crate::plan::{Shape, past};
use crate::presence::{read_mark, read_presences};
use crate::reader::{Progress, Reader};
use crate::row::{empty_row, put};
use crate::scalar::next_scalar;
use crate::sent::Sent;
use crate::stop::Stop;
use crate::value::read_value;
use asn_base::law::{lemma_abstract_values, lemma_levels_grow};
use asn_base::schema::components_of;
use asn_base::value::Value;
use bits::cursor::Bits;
use decode_faults::Refusal;
use packed_code::PackedField;
use packed_writer::{is_default, next};

/// The components of a SEQUENCE or SET (19 and 21).
#[cycle(reads)]
#[tactic(none)]
#[inline(never)]
pub(crate) fn read_fields(
    reader: Reader<'_>,
    progress: &mut Progress,
    bits: &mut Bits<'_>,
    shape: Shape<'_>,
) -> Result<Value, Stop>
    requires few { reader.levels ≤ 63 }
    requires room { HasRoom progress.old (bits_left bits.old) }
    requires there { reader.id.index < length reader.code.now }
    requires fit { FieldsFit reader.code.now reader.id.index shape.steps.now }
    ensures ok { IfOk result (λ v. IsGot
        (run_fields reader.entry.code.now reader.entry.levels (run_value reader.entry.code.now reader.entry.levels)
        reader.entry.id.index shape.entry.extensible shape.entry.count shape.entry.steps.now
        progress.old.skipped progress.old.left (bits_left bits.old))
        (abstract v) progress.new (bits_left bits.new)) }
    ensures err { IfErr result (λ e. IsStop
        (run_fields reader.entry.code.now reader.entry.levels (run_value reader.entry.code.now reader.entry.levels)
        reader.entry.id.index shape.entry.extensible shape.entry.count shape.entry.steps.now
        progress.old.skipped progress.old.left (bits_left bits.old))
        e (bits_left bits.new)) }
    ensures advanced { IfOk result (λ v. Advanced progress.old (bits_left bits.old) progress.new (bits_left bits.new)) }
{
    lemma_abstract_values();
    let components = components_of(reader.code.schema().core(reader.id));
    let mut row = match empty_row(reader.alloc, components.len()) {
        Ok(row) => row,
        Err(_) => return Err(Stop::Memory),
    };
    match read_row(reader, progress, bits, &mut row, shape) {
        Ok(()) => {}
        Err(stop) => return Err(stop),
    }
    Ok(Value::Fields(row))
}

/// Puts the components into a row in which none is present.
#[cycle(reads)]
#[tactic(none)]
#[inline(always)]
fn read_row(
    reader: Reader<'_>,
    progress: &mut Progress,
    bits: &mut Bits<'_>,
    row: &mut Vec<Option<Value>>,
    shape: Shape<'_>,
) -> Result<(), Stop>
    requires few { reader.levels ≤ 63 }
    requires room { HasRoom progress.old (bits_left bits.old) }
    requires fit { FieldsFit reader.code.now reader.id.index shape.steps.now }
    requires places { length row.old.items ≡ length (components (kind_at reader.code.now reader.id.index)) }
    requires empty { row_of_values row.old.items ≡ no_row (components (kind_at reader.code.now reader.id.index)) }
    ensures ok { OnOk result (IsGot
        (run_structure reader.entry.code.now reader.entry.levels (run_value reader.entry.code.now reader.entry.levels)
        (components (kind_at reader.entry.code.now reader.entry.id.index))
        shape.entry.extensible shape.entry.count shape.entry.steps.now
        progress.old.skipped progress.old.left (bits_left bits.old))
        (row_of_values row.new.items) progress.new (bits_left bits.new)) }
    ensures err { IfErr result (λ e. IsStop
        (run_structure reader.entry.code.now reader.entry.levels (run_value reader.entry.code.now reader.entry.levels)
        (components (kind_at reader.entry.code.now reader.entry.id.index))
        shape.entry.extensible shape.entry.count shape.entry.steps.now
        progress.old.skipped progress.old.left (bits_left bits.old))
        e (bits_left bits.new)) }
    ensures advanced { OnOk result (Advanced progress.old (bits_left bits.old) progress.new (bits_left bits.new)) }
{
    let more = match read_mark(shape.extensible, bits) {
        Ok(more) => more,
        Err(refusal) => return Err(Stop::at(reader.alloc, refusal)),
    };
    let sent = match read_presences(reader.alloc, next(shape.steps, shape.count), bits) {
        Ok(sent) => sent,
        Err(stop) => return Err(stop),
    };
    match read_members(reader, progress, bits, row, sent.as_slice()) {
        Ok(()) => {}
        Err(stop) => return Err(stop),
    }
    if more {
        read_extension(reader, progress, bits, row, past(shape.steps, shape.count))
    } else {
        Ok(())
    }
}

/// Components that are present or not, one after the other.
#[cycle(reads)]
#[inline(never)]
pub(crate) fn read_members(
    reader: Reader<'_>,
    progress: &mut Progress,
    bits: &mut Bits<'_>,
    row: &mut Vec<Option<Value>>,
    sent: &[Sent],
) -> Result<(), Stop>
    requires few { reader.levels ≤ 63 }
    requires room { HasRoom progress.old (bits_left bits.old) }
    requires fit { AreSent reader.code.now reader.id.index sent.now }
    requires places { length row.old.items ≡ length (components (kind_at reader.code.now reader.id.index)) }
    ensures ok { OnOk result (IsGot
        (run_members reader.entry.code.now reader.entry.levels (run_value reader.entry.code.now reader.entry.levels)
        (components (kind_at reader.entry.code.now reader.entry.id.index)) sent.now (row_of_values row.old.items)
        progress.old.skipped progress.old.left (bits_left bits.old))
        (row_of_values row.new.items) progress.new (bits_left bits.new)) }
    ensures err { IfErr result (λ e. IsStop
        (run_members reader.entry.code.now reader.entry.levels (run_value reader.entry.code.now reader.entry.levels)
        (components (kind_at reader.entry.code.now reader.entry.id.index)) sent.now (row_of_values row.old.items)
        progress.old.skipped progress.old.left (bits_left bits.old))
        e (bits_left bits.new)) }
    ensures advanced { OnOk result (Advanced progress.old (bits_left bits.old) progress.new (bits_left bits.new)) }
    ensures places { length row.new.items ≡ length row.old.items }
{
    for i in 0..sent.len() {
        match read_member(reader, progress, bits, row, sent[i]) {
            Ok(()) => {}
            Err(stop) => return Err(stop),
        }
    }
    Ok(())
}

/// A component that is present or not. `TooDeep`: it is absent, and its DEFAULT has too many levels.
#[cycle(reads)]
#[tactic(none)]
#[inline(always)]
fn read_member(
    reader: Reader<'_>,
    progress: &mut Progress,
    bits: &mut Bits<'_>,
    row: &mut Vec<Option<Value>>,
    sent: Sent,
) -> Result<(), Stop>
    requires few { reader.levels ≤ 63 }
    requires room { HasRoom progress.old (bits_left bits.old) }
    requires fits { FieldFits reader.code.now reader.id.index sent.field }
    requires places { length row.old.items ≡ length (components (kind_at reader.code.now reader.id.index)) }
    ensures ok { OnOk result (IsGot
        (run_member reader.entry.code.now reader.entry.levels (run_value reader.entry.code.now reader.entry.levels)
        (components (kind_at reader.entry.code.now reader.entry.id.index)) sent (row_of_values row.old.items)
        progress.old.skipped progress.old.left (bits_left bits.old))
        (row_of_values row.new.items) progress.new (bits_left bits.new)) }
    ensures err { IfErr result (λ e. IsStop
        (run_member reader.entry.code.now reader.entry.levels (run_value reader.entry.code.now reader.entry.levels)
        (components (kind_at reader.entry.code.now reader.entry.id.index)) sent (row_of_values row.old.items)
        progress.old.skipped progress.old.left (bits_left bits.old))
        e (bits_left bits.new)) }
    ensures advanced { OnOk result (Advanced progress.old (bits_left bits.old) progress.new (bits_left bits.new)) }
    ensures places { length row.new.items ≡ length row.old.items }
{
    if sent.present {
        return read_present(reader, progress, bits, row, sent.field);
    }
    if may_lack(reader.code, reader.id, sent.field.place, reader.levels) {
        return Ok(());
    }
    let stop = Stop::at(reader.alloc, Refusal::TooDeep);
    Err(stop.within(Part::Component(sent.field.place)))
}

/// The value of a component. `NotCanonical`: it is the same as the component's DEFAULT, and no additions were skipped
/// within it (19.5).
#[cycle(reads)]
#[tactic(none)]
#[inline(always)]
fn read_present(
    reader: Reader<'_>,
    progress: &mut Progress,
    bits: &mut Bits<'_>,
    row: &mut Vec<Option<Value>>,
    field: PackedField,
) -> Result<(), Stop>
    requires few { reader.levels ≤ 63 }
    requires room { HasRoom progress.old (bits_left bits.old) }
    requires fits { FieldFits reader.code.now reader.id.index field }
    requires places { length row.old.items ≡ length (components (kind_at reader.code.now reader.id.index)) }
    ensures ok { OnOk result (IsGot
        (run_present reader.entry.code.now (run_value reader.entry.code.now reader.entry.levels)
        (components (kind_at reader.entry.code.now reader.entry.id.index)) field (row_of_values row.old.items)
        progress.old.skipped progress.old.left (bits_left bits.old))
        (row_of_values row.new.items) progress.new (bits_left bits.new)) }
    ensures err { IfErr result (λ e. IsStop
        (run_present reader.entry.code.now (run_value reader.entry.code.now reader.entry.levels)
        (components (kind_at reader.entry.code.now reader.entry.id.index)) field (row_of_values row.old.items)
        progress.old.skipped progress.old.left (bits_left bits.old))
        e (bits_left bits.new)) }
    ensures advanced { OnOk result (Advanced progress.old (bits_left bits.old) progress.new (bits_left bits.new)) }
    ensures places { length row.new.items ≡ length row.old.items }
{
    let before = *progress;
    let start = *bits;
    let part = Reader {
        id: field.ty,
        ..reader
    };
    match next_scalar(part, field.with_default, progress, bits) {
        Some(scalar) => {
            put(row, field.place, scalar.value());
            Ok(())
        }
        None => {
            *progress = before;
            *bits = start;
            read_component(reader, progress, bits, row, field)
        }
    }
}

/// The same for every type, whether its values have few bits or many.
#[cycle(reads)]
#[tactic(none)]
#[inline(never)]
fn read_component(
    reader: Reader<'_>,
    progress: &mut Progress,
    bits: &mut Bits<'_>,
    row: &mut Vec<Option<Value>>,
    field: PackedField,
) -> Result<(), Stop>
    requires few { reader.levels ≤ 63 }
    requires room { HasRoom progress.old (bits_left bits.old) }
    requires fits { FieldFits reader.code.now reader.id.index field }
    requires places { length row.old.items ≡ length (components (kind_at reader.code.now reader.id.index)) }
    ensures ok { OnOk result (IsGot
        (run_present reader.entry.code.now (run_value reader.entry.code.now reader.entry.levels)
        (components (kind_at reader.entry.code.now reader.entry.id.index)) field (row_of_values row.old.items)
        progress.old.skipped progress.old.left (bits_left bits.old))
        (row_of_values row.new.items) progress.new (bits_left bits.new)) }
    ensures err { IfErr result (λ e. IsStop
        (run_present reader.entry.code.now (run_value reader.entry.code.now reader.entry.levels)
        (components (kind_at reader.entry.code.now reader.entry.id.index)) field (row_of_values row.old.items)
        progress.old.skipped progress.old.left (bits_left bits.old))
        e (bits_left bits.new)) }
    ensures advanced { OnOk result (Advanced progress.old (bits_left bits.old) progress.new (bits_left bits.new)) }
    ensures places { length row.new.items ≡ length row.old.items }
{
    lemma_levels_grow();
    let start = *bits;
    let skipped = progress.skipped;
    let value = match read_value(
        Reader {
            id: field.ty,
            ..reader
        },
        progress,
        bits,
    ) {
        Ok(value) => value,
        Err(stop) => return Err(stop.within(Part::Component(field.place))),
    };
    if progress.skipped == skipped
        && field.with_default
        && is_default(reader.code.schema(), reader.id, field.place, &value)
    {
        *bits = start;
        let stop = Stop::at(reader.alloc, Refusal::NotCanonical);
        return Err(stop.within(Part::Component(field.place)));
    }
    put(row, field.place, value);
    Ok(())
}
