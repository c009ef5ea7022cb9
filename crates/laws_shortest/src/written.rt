//! Checks of what is written.

ghost use Rattle.account_checker.specs.declared.reason.Verdict.TheVariants.{Yes};
ghost use Rattle.asn_base.specs.Abstract.{abstract};
ghost use Rattle.asn_base.specs.Typed.{IsValue};
ghost use Rattle.der_writer.specs.declared.fault.WriteFault.TheVariants.{Device, NotOfType, TooLong};
ghost use Rattle.encodings.specs.Encoding.{Der};
ghost use Rattle.std.specs.Prelude.{◌≡◌, ◌<◌, Err, IfErr, IfOk, List, length, ℕ};

use crate::law::lemma_written_are_right;
use account_checker::check;
use account_checker::reason::Verdict;
use asn_base::schema::{Schema, TypeId};
use asn_base::value::Value;
use codec_code::Code;
use der_writer::{WriteFault, write_der};
use std::alloc::Global;

/// Encodes the value by the distinguished rules, and checks the octets with their account: the verdict is always yes.
/// It is refused as `write_der` is.
pub fn check_of_list(
    alloc: Global,
    schema: &Schema,
    code: &Code,
    id: TypeId,
    value: &Value,
) -> Result<Verdict, WriteFault>
    // The codec program is the schema's.
    requires { code.now ≡ schema.now }
    ensures yes { IfOk result (λ v. v ≡ Yes) }
    // `NotOfType` if and only if the value isn't one of the type.
    ensures not_of_type { IfErr result (λ e. e ≡ NotOfType → IsValue code.now id.index (abstract value.now) → ⊥) }
    ensures no_value { (IsValue code.now id.index (abstract value.now) → ⊥) → result ≡ Err NotOfType }
    // After `TooLong` each encoding by the distinguished rules has more than 16,777,216 octets.
    ensures longer { IfErr result (λ e. e ≡ TooLong → (o : List ℕ)
        → Der code.now id.index (abstract value.now) 0 o
        → 16777216 < length o) }
    // `Device` is never the error.
    ensures no_device { IfErr result (λ e. (n : ℕ) → e ≡ Device n → ⊥) }
{
    lemma_written_are_right();
    let (octets, account) = write_der(alloc, code, id, value)?;
    Ok(check(schema, id, value, octets.as_slice(), &account))
}
