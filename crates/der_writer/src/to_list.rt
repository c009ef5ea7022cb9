//! Encodes a value into a list.

ghost use Rattle.asn_base.specs.Abstract.{abstract};
ghost use Rattle.asn_base.specs.Typed.{IsValue};
ghost use Rattle.der_writer.specs.Encoded.{IsEncoding};
ghost use Rattle.der_writer.specs.declared.fault.WriteFault.TheVariants.{Device, NotOfType, TooLong};
ghost use Rattle.encodings.specs.Account.{Describes};
ghost use Rattle.encodings.specs.Encoding.{Der};
ghost use Rattle.std.specs.Prelude.{◌≡◌, ◌<◌, Err, IfErr, IfOk, List, length, ℕ};

use crate::fault::WriteFault;
use crate::law::lemma_encodings_of_values;
use asn_base::schema::TypeId;
use asn_base::value::Value;
use codec_code::Code;
use der_layout::encode;
use octet_account::account::Account;
use octet_account::law::lemma_one_account;
use std::alloc::Global;

/// Encodes a value of the type by the distinguished rules (X.690, 8, 10 and 11). The results are the octets and their
/// account.
///
/// - `NotOfType`: exactly if the value isn't one of the type, or there is no such type.
/// - `TooLong`: the value is one of the type, and its encoding has more than 16,777,216 octets.
/// - `Memory`: an allocation failed.
pub fn write_der(
    alloc: Global,
    code: &Code,
    id: TypeId,
    value: &Value,
) -> Result<(Vec<u8>, Account), WriteFault>
    // The octets are the only encoding of the value by the distinguished rules.
    ensures encoding { IfOk result (λ w. IsEncoding code.now id.index (abstract value.now) w.0.items) }
    // The account is that of these octets.
    ensures account { IfOk result (λ w. Describes code.now id.index (abstract value.now) w.0.items w.1) }
    // `NotOfType` exactly if the value isn't one of the type.
    ensures not_of_type { IfErr result (λ e. e ≡ NotOfType → IsValue code.now id.index (abstract value.now) → ⊥) }
    ensures no_value { (IsValue code.now id.index (abstract value.now) → ⊥) → result ≡ Err NotOfType }
    // After `TooLong` each encoding by the distinguished rules has more than 16,777,216 octets.
    ensures longer { IfErr result (λ e. e ≡ TooLong → (o : List ℕ)
        → Der code.now id.index (abstract value.now) 0 o
        → 16777216 < length o) }
    // `Device` is never the error.
    ensures no_device { IfErr result (λ e. (n : ℕ) → e ≡ Device n → ⊥) }
{
    code.lemma_invariant();
    lemma_encodings_of_values();
    lemma_one_account();
    match encode(alloc, code, id, value) {
        Ok(encoded) => Ok((encoded.octets, Account::of(encoded.rows))),
        Err(fault) => Err(WriteFault::from(fault)),
    }
}
