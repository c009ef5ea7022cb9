//! Decodes messages by the distinguished rules.

ghost use Rattle.asn_base.specs.Abstract.{AbstractValue};
ghost use Rattle.ber_reader.specs.Messages.{BeginsEncoding, HasEncodingFirst, HasMessageFirst, IsEncoding, IsRead, EncodesNoValue};
ghost use Rattle.ber_reader.specs.Judged.{IsJudged};
ghost use Rattle.ber_reader.specs.Readings.{IsRefused, IsStrictReading};
ghost use Rattle.decode_faults.specs.declared.read_fault.ReadFault.TheVariants.{Memory, MessageLimit, NotDer};
ghost use Rattle.decode_faults.specs.declared.read_fault.ReadFault.TheVariants.{Trailing, Truncated};
ghost use Rattle.encodings.specs.Encoding.{EncodesTo};
ghost use Rattle.encodings.specs.Reading.{Encodes};
ghost use Rattle.encodings.specs.Rules.{Basic, Distinguished};
ghost use Rattle.std.specs.Prelude.{◌≡◌, ◌<◌, ◌⊎◌, Err, IfErr, IfOk, length, MatchResult, ℕ};
ghost use Rattle.views.specs.Tree.{value_of};

use crate::read::{Read, read_ber};
use asn_base::schema::TypeId;
use codec_code::Code;
use decode_faults::ReadFault;
use der_check::is_strict;
use encodings::schema_laws;
use std::alloc::Global;

/// Decodes the value of the type that the octets encode by the distinguished rules (X.690, 10 and 11), exactly as
/// `read_ber` does. Additions that the type lacks aren't judged, nor is their place in a SET. A component that is the
/// same as its DEFAULT may be present if additions were skipped within it.
///
/// `NotDer`: the octets encode a value of the type by the basic rules, but not by the distinguished rules. The other
/// faults are those of `read_ber`.
pub fn read_der<'a>(
    alloc: Global,
    code: &Code,
    id: TypeId,
    octets: &'a [u8],
) -> Result<Read<'a>, ReadFault>
    ensures ok { IfOk result (λ r. IsStrictReading code.now id.index octets.now r) }
    // The octets exactly encode no other value, and have no other number of unknown additions.
    ensures only { IfOk result (λ r. (w : AbstractValue) (k : ℕ)
        → Encodes code.now Basic id.index w k octets.now
        → (w ≡ value_of r.view) × (k ≡ r.skipped)) }
    ensures limit { 16777216 < length octets.now → result ≡ Err MessageLimit }
    ensures long { result ≡ Err MessageLimit → 16777216 < length octets.now }
    ensures trailing { result ≡ Err Trailing → HasMessageFirst code.now id.index octets.now }
    // `NotDer` if and only if the octets encode a value by the basic rules, and not by the distinguished ones. Instead
    // `Memory` may come.
    ensures not_der { result ≡ Err NotDer
        → (i : IsEncoding code.now id.index octets.now)
        × (EncodesTo code.now Distinguished id.index i.value i.count octets.now → ⊥) }
    ensures basic { (i : IsEncoding code.now id.index octets.now)
        → (EncodesTo code.now Distinguished id.index i.value i.count octets.now → ⊥)
        → (result ≡ Err NotDer) ⊎ (result ≡ Err Memory) }
    // Octets that encode a value of the type by the distinguished rules are decoded, unless an allocation fails.
    // `Trailing` if the octets start with a complete encoding by the basic rules and go on; `Truncated` if they are the
    // start of one.
    ensures read { (i : IsEncoding code.now id.index octets.now)
        → EncodesTo code.now Distinguished id.index i.value i.count octets.now
        → IfErr result (λ e. e ≡ Memory) }
    ensures more { HasEncodingFirst code.now id.index octets.now → (result ≡ Err Trailing) ⊎ (result ≡ Err Memory) }
    ensures truncated_value { BeginsEncoding code.now id.index octets.now → result ≡ Err Truncated }
    // If the octets encode no value of the type, the fault is the one that `read_ber` reports.
    ensures judged { IsRead code.now id octets.now
        → (n : EncodesNoValue code.now id.index octets.now)
        → MatchResult result (λ r. ⊥) (λ e. (e ≡ Memory) ⊎ IsJudged code.now id.index n.value e) }
    // Any other fault refuses the octets by the basic rules too.
    ensures refused { IfErr result (λ e. (e ≡ Memory → ⊥)
        → (e ≡ NotDer → ⊥)
        → IsRefused code.now id octets.now e) }
{
    code.lemma_invariant();
    schema_laws();
    let read = match read_ber(alloc, code, id, octets) {
        Ok(read) => read,
        Err(fault) => return Err(fault),
    };
    let strict = match is_strict(alloc, code, id, &read.view.top(), octets) {
        Ok(strict) => strict,
        Err(_) => return Err(ReadFault::Memory),
    };
    if !strict {
        return Err(ReadFault::NotDer);
    }
    Ok(read)
}
