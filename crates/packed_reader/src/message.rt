//! Messages.

ghost use Rattle.asn_base.specs.Abstract.{AbstractValue, abstract};
ghost use Rattle.packed_encodings.specs.Packing.{Reads};
ghost use Rattle.packed_reader.specs.Answers.{BeginsMessage, IsRefusal, IsTruncated};
ghost use Rattle.bits.specs.Left.{bits_left};
ghost use Rattle.packed_reader.specs.Readings.{read, taken};
ghost use Rattle.packed_reader.specs.Structures.{filled_from};
ghost use Rattle.packed_reader.specs.Values.{answers, message_from};
ghost use Rattle.packed_reader.specs.proving.Code.{HasRoom, IsRefusalAt, IsStop};
ghost use Rattle.packed_reader.specs.proving.Running.{run_value};
ghost use Rattle.packed_reader.specs.declared.fault.PerFault.TheVariants.{Memory, MessageLimit};
ghost use Rattle.std.specs.Int.Digits.{AllBelowBase};
ghost use Rattle.std.specs.Prelude.{◌≡◌, ◌<◌, ◌≤◌, [], Err, IfErr, IfOk, MatchResult, length, ℕ};

use crate::fault::{PerFault, RefusedBits};
use crate::law::{message_laws_of_reading, step_laws};
use crate::laws_of_running::inside_laws;
use crate::open::fills;
use crate::reader::{Progress, Reader};
use crate::stop::Stop;
use crate::value::read_value;
use asn_base::schema::TypeId;
use asn_base::value::Value;
use bits::cursor::Bits;
use decode_faults::Refusal;
use limits::{MAX_LEVELS, MAX_MESSAGE, MAX_NODES};
use packed_code::PackedCode;
use std::alloc::Global;

/// A value alone, and the bits that fill its last octet.
fn read_message(
    reader: Reader<'_>,
    progress: &mut Progress,
    bits: &mut Bits<'_>,
) -> Result<Value, Stop>
    requires few { reader.levels ≤ 64 }
    requires room { HasRoom progress.old (bits_left bits.old) }
    ensures ok { IfOk result (λ v. filled_from
        (run_value reader.entry.code.now reader.entry.levels reader.entry.id.index
        progress.old.skipped progress.old.left)
        (bits_left bits.old)
        ≡ read (taken (abstract v) progress.new.skipped progress.new.left) []) }
    ensures err { IfErr result (λ e. IsStop (filled_from
        (run_value reader.entry.code.now reader.entry.levels reader.entry.id.index
        progress.old.skipped progress.old.left)
        (bits_left bits.old)) e (bits_left bits.new)) }
{
    reader.code.lemma_invariant();
    inside_laws();
    let all = bits.len();
    let value = match read_value(reader, progress, bits) {
        Ok(value) => value,
        Err(stop) => return Err(stop),
    };
    if fills(all - bits.len(), *bits) {
        Ok(value)
    } else {
        Err(Stop::at(reader.alloc, Refusal::Padding))
    }
}

/// They are octets.
fn are_octets(octets: &[u8])
    ensures { AllBelowBase 256 octets.now }
{}

/// The fault of a message whose reading stops at this bit.
fn refusal_at(stop: Stop, bit: usize) -> PerFault
    ensures { IsRefusalAt stop bit result }
{
    match stop {
        Stop::Memory => PerFault::Memory,
        Stop::Refused(refusal, path) => PerFault::Refused(RefusedBits { refusal, bit, path }),
    }
}

/// The value of a message, and how many additions were skipped. `MessageLimit`: the message is too long.
fn decode(
    alloc: Global,
    code: &PackedCode,
    id: TypeId,
    octets: &[u8],
) -> Result<(Value, u64), PerFault>
    ensures ok { IfOk result (λ r. message_from code.now id.index octets.now ≡ answers (abstract r.0) r.1) }
    ensures err { IfErr result (IsRefusal (message_from code.now id.index octets.now)) }
    ensures limit { 16777216 < length octets.now → result ≡ Err MessageLimit }
{
    code.lemma_invariant();
    step_laws();
    if octets.len() > MAX_MESSAGE {
        return Err(PerFault::MessageLimit);
    }
    if octets.is_empty() {
        return Err(PerFault::Refused(RefusedBits {
            refusal: Refusal::Truncated,
            bit: 0,
            path: Vec::new(alloc),
        }));
    }
    let mut progress = Progress {
        left: MAX_NODES,
        skipped: 0,
    };
    let mut bits = Bits::of(octets);
    let all = bits.len();
    let reader = Reader {
        alloc,
        code,
        id,
        levels: MAX_LEVELS,
    };
    match read_message(reader, &mut progress, &mut bits) {
        Ok(value) => Ok((value, progress.skipped)),
        Err(stop) => Err(refusal_at(stop, all.saturating_sub(bits.len()))),
    }
}

/// Decodes a message in canonical unaligned PER (X.691): the value of the type, and how many additions that the type
/// lacks were skipped. A value is decoded if and only if the octets are a canonical encoding of it, filled to octets.
///
/// `MessageLimit`: there are more than 16,777,216 octets. `Refused`: the first fault, with the bit and the part of the
/// value where it is. `Truncated` if the octets are the beginning of a longer message; `Padding` if a message comes
/// first and other bits than those that fill its last octet follow. `Memory`: there is not enough memory.
pub fn read_uper(
    alloc: Global,
    code: &PackedCode,
    id: TypeId,
    octets: &[u8],
) -> Result<(Value, u64), PerFault>
    // The octets are a canonical encoding of the value, and of no other.
    ensures reads { IfOk result (λ r. Reads code.now id.index (abstract r.0) r.1 octets.now) }
    ensures only { IfOk result (λ r. (w : AbstractValue) (k : ℕ)
        → Reads code.now id.index w k octets.now
        → (w ≡ abstract r.0) × (k ≡ r.1)) }
    ensures few { IfOk result (λ r. length octets.now ≤ 16777216) }
    // Such octets are decoded, unless an allocation fails.
    ensures read { (w : AbstractValue) (k : ℕ)
        → Reads code.now id.index w k octets.now
        → length octets.now ≤ 16777216
        → IfErr result (λ e. e ≡ Memory) }
    ensures limit { 16777216 < length octets.now → result ≡ Err MessageLimit }
    ensures long { result ≡ Err MessageLimit → 16777216 < length octets.now }
    // The value is the one that the bits are read as; the fault is the first one, at its bit and in its parts.
    ensures ok { IfOk result (λ r. message_from code.now id.index octets.now ≡ answers (abstract r.0) r.1) }
    ensures err { IfErr result (IsRefusal (message_from code.now id.index octets.now)) }
    ensures truncated { BeginsMessage code.now id.index octets.now → MatchResult result (λ r. ⊥) IsTruncated }
{
    code.lemma_invariant();
    are_octets(octets);
    message_laws_of_reading();
    decode(alloc, code, id, octets)
}
