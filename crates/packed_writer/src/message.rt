//! The message of a value.

ghost use Rattle.asn_base.specs.Abstract.{abstract};
ghost use Rattle.asn_base.specs.Typed.{IsValue};
ghost use Rattle.packed_encodings.specs.Weights.{weight};
ghost use Rattle.packed_writer.specs.Message.{IsMessage, IsTooLong};
ghost use Rattle.packed_writer.specs.declared.fault.WriteFault.TheVariants.{NotOfType, TooLong};
ghost use Rattle.std.specs.Prelude.{◌≡◌, ◌<◌, Err, IfErr, IfOk};

use crate::fault::WriteFault;
use crate::open::filled;
use crate::run::push_value;
use crate::typed::Typed;
use crate::weight::is_light;
use asn_base::decide::is_value;
use asn_base::law::lemma_sameness;
use asn_base::schema::TypeId;
use asn_base::value::Value;
use bits::buffer::BitBuf;
use limits::{MAX_LEVELS, MAX_MESSAGE};
use packed_code::PackedCode;
use packed_encodings::{computing_laws, message_laws, writing_laws};
use std::alloc::Global;

/// The message of a value in unaligned canonical PER: its bits, filled to octets with zero bits (X.691, 11.1).
///
/// - `NotOfType`: exactly if the value isn't one of the type, or there is no such type.
/// - `TooLong`: the value is one of the type. Its message has more than 16,777,216 octets; or its nodes and the octets
///   of its character strings are together more than that, since characters and elements may take no bits.
/// - `Memory`: an allocation failed.
pub fn write_uper(
    alloc: Global,
    code: &PackedCode,
    id: TypeId,
    value: &Value,
) -> Result<Vec<u8>, WriteFault>
    // The octets are the only message of the value.
    ensures message { IfOk result (λ o. IsMessage code.now id.index (abstract value.now) o.items) }
    // `NotOfType` exactly if the value isn't one of the type.
    ensures not_of_type { IfErr result (λ e. e ≡ NotOfType → IsValue code.now id.index (abstract value.now) → ⊥) }
    ensures no_value { (IsValue code.now id.index (abstract value.now) → ⊥) → result ≡ Err NotOfType }
    // After `TooLong` the value is too heavy, or its message has more than 16,777,216 octets.
    ensures longer { IfErr result (λ e. e ≡ TooLong → IsTooLong code.now id.index (abstract value.now)) }
    // A value of the type that is too heavy is refused before anything is written.
    ensures heavy { IsValue code.now id.index (abstract value.now)
        → 16777216 < weight (abstract value.now)
        → result ≡ Err TooLong }
{
    code.lemma_invariant();
    computing_laws();
    writing_laws();
    message_laws();
    lemma_sameness();
    if !is_value(value, code.schema(), id) {
        return Err(WriteFault::NotOfType);
    }
    if !is_light(value) {
        return Err(WriteFault::TooLong);
    }
    let mut bits = BitBuf::new(alloc);
    push_value(
        alloc,
        code,
        &mut bits,
        Typed {
            id,
            value,
            levels: MAX_LEVELS as usize,
        },
    )?;
    let octets = filled(alloc, bits)?;
    if octets.len() > MAX_MESSAGE {
        return Err(WriteFault::TooLong);
    }
    Ok(octets)
}
