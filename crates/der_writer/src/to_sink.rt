//! Encodes a value to a sink.

ghost use Rattle.asn_base.specs.Abstract.{abstract};
ghost use Rattle.asn_base.specs.Typed.{IsValue};
ghost use Rattle.der_writer.specs.Encoded.{Went, WentInPart};
ghost use Rattle.der_writer.specs.declared.fault.WriteFault.TheVariants.{Device, Memory, NotOfType, TooLong};
ghost use Rattle.encodings.specs.Encoding.{Der};
ghost use Rattle.sinks.specs.Sent.{state};
ghost use Rattle.std.specs.Prelude.{◌≡◌, ◌<◌, ◌⊎◌, Err, IfErr, IfOk, List, length, ℕ};

use crate::fault::WriteFault;
use crate::law::lemma_encodings_of_values;
use asn_base::schema::TypeId;
use asn_base::value::Value;
use codec_code::Code;
use der_layout::encode;
use octet_account::account::Account;
use octet_account::law::lemma_one_account;
use sinks::{Sink, send_all};
use std::alloc::Global;

/// Encodes a value of the type by the distinguished rules (X.690, 8, 10 and 11), and writes the octets to the sink in
/// order. The result is their account, whose first row gives their number. All allocations, and the faults `Memory`,
/// `NotOfType` and `TooLong`, come before the first octet. A call of the sink may take only the first part of its
/// octets; the rest is written next.
///
/// - `NotOfType`: exactly if the value isn't one of the type, or there is no such type.
/// - `TooLong`: the value is one of the type, and its encoding has more than 16,777,216 octets.
/// - `Memory`: an allocation failed.
/// - `Device`: a call of the sink failed, and isn't tried again. The fault has the exact number of octets that the sink
///   took before.
pub fn write_der_to<S: Sink>(
    alloc: Global,
    code: &Code,
    id: TypeId,
    value: &Value,
    sink: &mut S,
) -> Result<Account, WriteFault>
    requires room { S.failed sink.old < u64.MAX }
    // The sink took exactly the value's only encoding, no call failed, and the account is that of the encoding.
    ensures sent { IfOk result (λ account. Went code.now id.index (abstract value.now)
        (state (S.taken sink.old) (S.failed sink.old))
        (state (S.taken sink.new) (S.failed sink.new))
        account) }
    // The sink took exactly the first n octets of the encoding, which are fewer than all, and one call failed.
    ensures device { IfErr result (λ e. (n : ℕ) → e ≡ Device n → WentInPart code.now id.index (abstract value.now)
        (state (S.taken sink.old) (S.failed sink.old))
        (state (S.taken sink.new) (S.failed sink.new))
        n) }
    // After any other fault the sink has taken nothing.
    ensures refused { IfErr result (λ e. (e ≡ Memory) ⊎ ((e ≡ NotOfType) ⊎ (e ≡ TooLong)) → sink.new ≡ sink.old) }
    // `NotOfType` exactly if the value isn't one of the type.
    ensures not_of_type { IfErr result (λ e. e ≡ NotOfType → IsValue code.now id.index (abstract value.now) → ⊥) }
    ensures no_value { (IsValue code.now id.index (abstract value.now) → ⊥) → result ≡ Err NotOfType }
    // After `TooLong` each encoding by the distinguished rules has more than 16,777,216 octets.
    ensures longer { IfErr result (λ e. e ≡ TooLong → (o : List ℕ)
        → Der code.now id.index (abstract value.now) 0 o
        → 16777216 < length o) }
{
    code.lemma_invariant();
    lemma_encodings_of_values();
    lemma_one_account();
    let encoded = match encode(alloc, code, id, value) {
        Ok(encoded) => encoded,
        Err(fault) => return Err(WriteFault::from(fault)),
    };
    match send_all(sink, encoded.octets.as_slice()) {
        Ok(()) => Ok(Account::of(encoded.rows)),
        Err(count) => Err(WriteFault::Device(count)),
    }
}
