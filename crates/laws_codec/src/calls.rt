//! The calls of the codec, each with the clauses that the headline asks of its result. A program that makes its calls
//! here has the headline of their results.

ghost use Rattle.account_checker.specs.Reasons.{Fails};
ghost use Rattle.account_checker.specs.declared.reason.Reason.{Reason};
ghost use Rattle.account_checker.specs.declared.reason.Verdict.TheVariants.{No};
ghost use Rattle.asn_base.specs.Abstract.{abstract};
ghost use Rattle.asn_base.specs.Typed.{IsValue};
ghost use Rattle.ber_reader.specs.Messages.{IsEncoding};
ghost use Rattle.ber_reader.specs.Readings.{IsRefused};
ghost use Rattle.decode_faults.specs.declared.read_fault.ReadFault.TheVariants.{Memory as no_memory, NotDer};
ghost use Rattle.der_writer.specs.declared.fault.WriteFault.TheVariants.{Device, NotOfType, TooLong};
ghost use Rattle.encodings.specs.Encoding.{Der, EncodesTo};
ghost use Rattle.encodings.specs.Rules.{Distinguished};
ghost use Rattle.laws_codec.specs.Calls.{IsBerResult, IsDerResult, IsPacked, IsUperResult, IsVerdict, IsWritten};
ghost use Rattle.packed_reader.specs.Answers.{IsRefusal};
ghost use Rattle.packed_reader.specs.Values.{message_from};
ghost use Rattle.packed_writer.specs.Message.{IsTooLong};
ghost use Rattle.packed_writer.specs.declared.fault.WriteFault.TheVariants as packing;
ghost use Rattle.std.specs.Prelude.{◌≡◌, ◌↔◌, ◌<◌, Err, IfErr, IfOk, List, length, ℕ};

use account_checker::reason::Verdict;
use asn_base::schema::{Schema, TypeId};
use asn_base::value::Value;
use ber_reader::Read;
use codec_code::Code;
use decode_faults::ReadFault;
use der_writer::WriteFault;
use octet_account::account::Account;
use packed_code::PackedCode;
use packed_reader::PerFault;
use std::alloc::Global;

/// Encodes a value by DER: [`der_writer::write_der`].
pub fn written(
    alloc: Global,
    code: &Code,
    id: TypeId,
    value: &Value,
) -> Result<(Vec<u8>, Account), WriteFault>
    ensures written { IfOk result (λ w. IsWritten code.now id.index (abstract value.now) w.0.items w.1) }
    ensures not_of_type { IfErr result (λ e. e ≡ NotOfType → IsValue code.now id.index (abstract value.now) → ⊥) }
    ensures no_value { (IsValue code.now id.index (abstract value.now) → ⊥) → result ≡ Err NotOfType }
    ensures longer { IfErr result (λ e. e ≡ TooLong → (o : List ℕ)
        → Der code.now id.index (abstract value.now) 0 o
        → 16777216 < length o) }
    ensures no_device { IfErr result (λ e. (n : ℕ) → e ≡ Device n → ⊥) }
{
    der_writer::write_der(alloc, code, id, value)
}

/// Judges an account of octets: [`account_checker::check`].
pub fn verdict(
    schema: &Schema,
    id: TypeId,
    value: &Value,
    octets: &[u8],
    account: &Account,
) -> Verdict
    ensures verdict { IsVerdict schema.now id.index (abstract value.now) octets.now account.now result }
    ensures no { (r : Reason)
        → (result ≡ No r ↔ Fails schema.now id.index (abstract value.now) octets.now account.now r) }
{
    account_checker::check(schema, id, value, octets, account)
}

/// Decodes octets by BER: [`ber_reader::read_ber`].
pub fn read<'a>(
    alloc: Global,
    code: &Code,
    id: TypeId,
    octets: &'a [u8],
) -> Result<Read<'a>, ReadFault>
    ensures read { IsBerResult code.now id.index octets.now result }
    ensures refused { IfErr result (λ e. (e ≡ no_memory → ⊥) → IsRefused code.now id octets.now e) }
{
    ber_reader::read_ber(alloc, code, id, octets)
}

/// Decodes octets by DER: [`ber_reader::read_der`].
pub fn read_strictly<'a>(
    alloc: Global,
    code: &Code,
    id: TypeId,
    octets: &'a [u8],
) -> Result<Read<'a>, ReadFault>
    ensures read { IsDerResult code.now id.index octets.now result }
    ensures not_der { result ≡ Err NotDer
        → (i : IsEncoding code.now id.index octets.now)
        × (EncodesTo code.now Distinguished id.index i.value i.count octets.now → ⊥) }
    ensures refused { IfErr result (λ e. (e ≡ no_memory → ⊥)
        → (e ≡ NotDer → ⊥)
        → IsRefused code.now id octets.now e) }
{
    ber_reader::read_der(alloc, code, id, octets)
}

/// Encodes a value by canonical PER: [`packed_writer::write_uper`].
pub fn packed(
    alloc: Global,
    code: &PackedCode,
    id: TypeId,
    value: &Value,
) -> Result<Vec<u8>, packed_writer::WriteFault>
    ensures packed { IfOk result (λ o. IsPacked code.now id.index (abstract value.now) o.items) }
    ensures not_of_type { IfErr result (λ e. e ≡ packing.NotOfType
        → IsValue code.now id.index (abstract value.now)
        → ⊥) }
    ensures no_value { (IsValue code.now id.index (abstract value.now) → ⊥) → result ≡ Err packing.NotOfType }
    ensures longer { IfErr result (λ e. e ≡ packing.TooLong → IsTooLong code.now id.index (abstract value.now)) }
{
    packed_writer::write_uper(alloc, code, id, value)
}

/// Decodes octets by canonical PER: [`packed_reader::read_uper`].
pub fn unpacked(
    alloc: Global,
    code: &PackedCode,
    id: TypeId,
    octets: &[u8],
) -> Result<(Value, u64), PerFault>
    ensures unpacked { IsUperResult code.now id.index octets.now result }
    ensures err { IfErr result (IsRefusal (message_from code.now id.index octets.now)) }
{
    packed_reader::read_uper(alloc, code, id, octets)
}
