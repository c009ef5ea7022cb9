//! Values of all types, read by the steps of their routines: a value, its contents, and a value as an open type.
//!
//! The functions that read parts of values call each other, in this module and in `alternatives`, `components`,
//! `additions` and `elements`. Each of them computes the function of `specs` that its clauses name. If it answers Ok,
//! it has read what that function reads, and the bits after it are left. If it refuses the bits, that function refuses
//! them for the same reason, in the same parts, and the bits from the fault's place on are left.

ghost use Rattle.asn_base.specs.Abstract.{abstract};
ghost use Rattle.asn_base.specs.Typed.{ValueIn};
ghost use Rattle.bits.specs.Left.{bits_left};
ghost use Rattle.packed_code.specs.Routines.{routine_at};
ghost use Rattle.packed_encodings.specs.Computed.{kind_at};
ghost use Rattle.packed_reader.specs.Structures.{open_from};
ghost use Rattle.packed_reader.specs.proving.Code.{HasRoom, IsGot, IsStop, Advanced};
ghost use Rattle.packed_reader.specs.proving.Running.{run_leaf, run_steps, run_value};
ghost use Rattle.std.specs.Prelude.{◌≤◌, ◌<◌, IfErr, IfOk, length};

use crate::alternatives::read_pick;
use crate::components::read_fields;
use crate::elements::read_each;
use crate::law::{step_laws, value_laws};
use crate::laws_of_running::{inside_laws, running_laws};
use crate::open::{fault_place, fills, take_octets};
use crate::plan::{Plan, plan_of};
use crate::reader::{Progress, Reader};
use crate::scalar::read_scalar;
use crate::stop::Stop;
use asn_base::value::Value;
use bits::cursor::Bits;
use decode_faults::Refusal;
use packed_readings::law::leaf_laws;
use packed_readings::{characters, read_leaf};
use packed_writer::law::lemma_routines_fit;

/// A value of the type. `TooDeep`: no level is left for it. `NodesLimit`: no value may begin any more.
#[cycle(reads)]
#[tactic(none)]
#[inline(always)]
pub(crate) fn read_value(
    reader: Reader<'_>,
    progress: &mut Progress,
    bits: &mut Bits<'_>,
) -> Result<Value, Stop>
    requires few { reader.levels ≤ 64 }
    requires room { HasRoom progress.old (bits_left bits.old) }
    ensures ok { IfOk result (λ v. IsGot
        (run_value reader.entry.code.now reader.entry.levels reader.entry.id.index
        progress.old.skipped progress.old.left (bits_left bits.old))
        (abstract v) progress.new (bits_left bits.new)) }
    ensures err { IfErr result (λ e. IsStop
        (run_value reader.entry.code.now reader.entry.levels reader.entry.id.index
        progress.old.skipped progress.old.left (bits_left bits.old))
        e (bits_left bits.new)) }
    ensures advanced { IfOk result (λ v. Advanced progress.old (bits_left bits.old) progress.new (bits_left bits.new)) }
    ensures fewer { IfOk result (λ v. progress.new.left < progress.old.left) }
    ensures value { IfOk result (λ v.
        ValueIn reader.entry.code.now reader.entry.levels reader.entry.id.index (abstract v)) }
{
    reader.code.lemma_invariant();
    running_laws();
    step_laws();
    value_laws();
    if reader.levels == 0 {
        return Err(Stop::at(reader.alloc, Refusal::TooDeep));
    }
    if progress.left == 0 {
        return Err(Stop::at(reader.alloc, Refusal::NodesLimit));
    }
    progress.left -= 1;
    read_steps(
        Reader {
            levels: reader.levels - 1,
            ..reader
        },
        progress,
        bits,
    )
}

/// A value by the steps of its type's routine. The values within it have the reader's levels.
#[cycle(reads)]
#[tactic(none)]
#[inline(always)]
fn read_steps(
    reader: Reader<'_>,
    progress: &mut Progress,
    bits: &mut Bits<'_>,
) -> Result<Value, Stop>
    requires few { reader.levels ≤ 63 }
    requires room { HasRoom progress.old (bits_left bits.old) }
    ensures ok { IfOk result (λ v. IsGot
        (run_steps reader.entry.code.now reader.entry.levels (run_value reader.entry.code.now reader.entry.levels)
        reader.entry.id.index (routine_at reader.entry.code.now reader.entry.id.index)
        progress.old.skipped progress.old.left (bits_left bits.old))
        (abstract v) progress.new (bits_left bits.new)) }
    ensures err { IfErr result (λ e. IsStop
        (run_steps reader.entry.code.now reader.entry.levels (run_value reader.entry.code.now reader.entry.levels)
        reader.entry.id.index (routine_at reader.entry.code.now reader.entry.id.index)
        progress.old.skipped progress.old.left (bits_left bits.old))
        e (bits_left bits.new)) }
    ensures advanced { IfOk result (λ v. Advanced progress.old (bits_left bits.old) progress.new (bits_left bits.new)) }
{
    let start = *bits;
    match read_scalar(reader, bits) {
        Some(scalar) => Ok(scalar.value()),
        None => {
            *bits = start;
            read_plan(reader, progress, bits)
        }
    }
}

/// The same for every type, whether its values have few bits or many.
#[cycle(reads)]
#[tactic(none)]
#[inline(never)]
fn read_plan(
    reader: Reader<'_>,
    progress: &mut Progress,
    bits: &mut Bits<'_>,
) -> Result<Value, Stop>
    requires few { reader.levels ≤ 63 }
    requires room { HasRoom progress.old (bits_left bits.old) }
    ensures ok { IfOk result (λ v. IsGot
        (run_steps reader.entry.code.now reader.entry.levels (run_value reader.entry.code.now reader.entry.levels)
        reader.entry.id.index (routine_at reader.entry.code.now reader.entry.id.index)
        progress.old.skipped progress.old.left (bits_left bits.old))
        (abstract v) progress.new (bits_left bits.new)) }
    ensures err { IfErr result (λ e. IsStop
        (run_steps reader.entry.code.now reader.entry.levels (run_value reader.entry.code.now reader.entry.levels)
        reader.entry.id.index (routine_at reader.entry.code.now reader.entry.id.index)
        progress.old.skipped progress.old.left (bits_left bits.old))
        e (bits_left bits.new)) }
    ensures advanced { IfOk result (λ v. Advanced progress.old (bits_left bits.old) progress.new (bits_left bits.new)) }
{
    reader.code.lemma_invariant();
    lemma_routines_fit();
    match plan_of(reader.code.steps(reader.id)) {
        Plan::Fields(shape) => read_fields(reader, progress, bits, shape),
        Plan::List(element, sorted) => read_each(reader, progress, bits, element, sorted),
        Plan::Choice(calls) => read_pick(reader, progress, bits, calls),
        Plan::Leaf => read_contents(reader, progress, bits),
        Plan::Nothing => Err(Stop::at(reader.alloc, Refusal::Outside)),
    }
}

/// A value that holds no others. Each octet of a character string counts like a value. `NodesLimit`: it has more octets
/// than values may still begin.
fn read_contents(
    reader: Reader<'_>,
    progress: &mut Progress,
    bits: &mut Bits<'_>,
) -> Result<Value, Stop>
    requires there { reader.id.index < length reader.code.now }
    ensures ok { IfOk result (λ v. IsGot
        (run_leaf (kind_at reader.entry.code.now reader.entry.id.index)
        progress.old.skipped progress.old.left (bits_left bits.old))
        (abstract v) progress.new (bits_left bits.new)) }
    ensures err { IfErr result (λ e. IsStop
        (run_leaf (kind_at reader.entry.code.now reader.entry.id.index)
        progress.old.skipped progress.old.left (bits_left bits.old))
        e (bits_left bits.new)) }
    ensures advanced { IfOk result (λ v. Advanced progress.old (bits_left bits.old) progress.new (bits_left bits.new)) }
{
    leaf_laws();
    let core = reader.code.schema().core(reader.id);
    match read_leaf(reader.alloc, core, progress.left as usize, bits) {
        Ok(value) => {
            progress.left -= characters(&value) as u32;
            Ok(value)
        }
        Err(fault) => Err(Stop::of(reader.alloc, fault)),
    }
}

/// A value as an open type (11.2). `Padding`: other bits follow it in the octets than those that fill the last one. The
/// place of a fault within octets in one piece is its own, and that within octets in fragments is their end.
#[cycle(reads)]
#[tactic(none)]
#[inline(never)]
pub(crate) fn read_opened(
    reader: Reader<'_>,
    progress: &mut Progress,
    bits: &mut Bits<'_>,
) -> Result<Value, Stop>
    requires few { reader.levels ≤ 63 }
    requires room { HasRoom progress.old (bits_left bits.old) }
    ensures ok { IfOk result (λ v. IsGot
        (open_from
        (run_value reader.entry.code.now reader.entry.levels reader.entry.id.index
        progress.old.skipped progress.old.left)
        (bits_left bits.old))
        (abstract v) progress.new (bits_left bits.new)) }
    ensures err { IfErr result (λ e. IsStop
        (open_from
        (run_value reader.entry.code.now reader.entry.levels reader.entry.id.index
        progress.old.skipped progress.old.left)
        (bits_left bits.old))
        e (bits_left bits.new)) }
    ensures advanced { IfOk result (λ v. Advanced progress.old (bits_left bits.old) progress.new (bits_left bits.new)) }
{
    reader.code.lemma_invariant();
    inside_laws();
    let start = *bits;
    let octets = match take_octets(reader.alloc, bits) {
        Ok(octets) => octets,
        Err(stop) => return Err(stop),
    };
    let mut inner = Bits::of(octets.as_slice());
    let all = inner.len();
    let stop = match read_value(reader, progress, &mut inner) {
        Ok(value) => {
            if fills(all - inner.len(), inner) {
                return Ok(value);
            }
            Stop::at(reader.alloc, Refusal::Padding)
        }
        Err(stop) => stop,
    };
    // Where an allocation failed, nothing is known of the bits that are left.
    let left = inner.len().min(all);
    *bits = fault_place(start, *bits, octets.len(), left);
    Err(stop)
}
