//! The alternatives of CHOICE types: which one a message has, and its value.

ghost use Rattle.asn_base.specs.Abstract.{abstract, alternative as alternative'};
ghost use Rattle.bits.specs.Left.{bits_left};
ghost use Rattle.packed_reader.specs.Code.{chosen_of};
ghost use Rattle.packed_reader.specs.Readings.{next as onward, plain};
ghost use Rattle.packed_reader.specs.declared.stop.Stop.TheVariants.{Memory};
ghost use Rattle.packed_reader.specs.Steps.{call_from};
ghost use Rattle.packed_reader.specs.proving.Code.{HasRoom, IsGot, IsStop, Advanced};
ghost use Rattle.packed_reader.specs.proving.Plans.{AreCalls};
ghost use Rattle.packed_reader.specs.proving.Running.{run_chosen, run_value};
ghost use Rattle.std.specs.Prelude.{◌≡◌, ◌≤◌, ◌<◌, IfErr, IfOk, length};

use crate::call::{Call, read_call};
use crate::part::Part;
use crate::plan::has_few;
use crate::reader::{Progress, Reader};
use crate::stop::Stop;
use crate::value::{read_opened, read_value};
use asn_base::law::lemma_abstract_values;
use asn_base::value::Value;
use bits::cursor::Bits;
use packed_code::PackedStep;
use std::alloc::Global;

/// The alternative of a CHOICE (X.691, 23).
#[cycle(reads)]
#[tactic(none)]
#[inline(never)]
pub(crate) fn read_pick(
    reader: Reader<'_>,
    progress: &mut Progress,
    bits: &mut Bits<'_>,
    calls: &[PackedStep],
) -> Result<Value, Stop>
    requires few { reader.levels ≤ 63 }
    requires room { HasRoom progress.old (bits_left bits.old) }
    requires pick { AreCalls reader.code.now reader.id.index calls.now }
    requires there { reader.id.index < length reader.code.now }
    ensures ok { IfOk result (λ v. IsGot
        (onward (plain (call_from calls.now (bits_left bits.old)))
        (λ c r. run_chosen (run_value reader.entry.code.now reader.entry.levels) c
        progress.old.skipped progress.old.left r))
        (abstract v) progress.new (bits_left bits.new)) }
    ensures err { IfErr result (λ e. IsStop
        (onward (plain (call_from calls.now (bits_left bits.old)))
        (λ c r. run_chosen (run_value reader.entry.code.now reader.entry.levels) c
        progress.old.skipped progress.old.left r))
        e (bits_left bits.new)) }
    ensures advanced { IfOk result (λ v. Advanced progress.old (bits_left bits.old) progress.new (bits_left bits.new)) }
{
    has_few(reader.code.schema().core(reader.id));
    let call = match read_call(bits, calls) {
        Ok(call) => call,
        Err(refusal) => return Err(Stop::at(reader.alloc, refusal)),
    };
    read_chosen(reader, progress, bits, call)
}

/// The value of an alternative.
#[cycle(reads)]
#[tactic(none)]
fn read_chosen(
    reader: Reader<'_>,
    progress: &mut Progress,
    bits: &mut Bits<'_>,
    call: Call,
) -> Result<Value, Stop>
    requires few { reader.levels ≤ 63 }
    requires room { HasRoom progress.old (bits_left bits.old) }
    ensures ok { IfOk result (λ v. IsGot
        (run_chosen (run_value reader.entry.code.now reader.entry.levels) (chosen_of call)
        progress.old.skipped progress.old.left (bits_left bits.old))
        (abstract v) progress.new (bits_left bits.new)) }
    ensures err { IfErr result (λ e. IsStop
        (run_chosen (run_value reader.entry.code.now reader.entry.levels) (chosen_of call)
        progress.old.skipped progress.old.left (bits_left bits.old))
        e (bits_left bits.new)) }
    ensures advanced { IfOk result (λ v. Advanced progress.old (bits_left bits.old) progress.new (bits_left bits.new)) }
{
    let part = Reader {
        id: call.ty,
        ..reader
    };
    if call.open {
        match read_opened(part, progress, bits) {
            Ok(value) => alternative(reader.alloc, call.number, value),
            Err(stop) => Err(stop.within(Part::Alternative(call.number))),
        }
    } else {
        match read_value(part, progress, bits) {
            Ok(value) => alternative(reader.alloc, call.number, value),
            Err(stop) => Err(stop.within(Part::Alternative(call.number))),
        }
    }
}

/// The value of a CHOICE.
fn alternative(alloc: Global, number: usize, value: Value) -> Result<Value, Stop>
    ensures ok { IfOk result (λ v. abstract v ≡ alternative' number (abstract value)) }
    ensures err { IfErr result (λ e. e ≡ Memory) }
{
    lemma_abstract_values();
    match Box::new(alloc, value) {
        Ok(value) => Ok(Value::Alt(number, value)),
        Err(_) => Err(Stop::Memory),
    }
}
