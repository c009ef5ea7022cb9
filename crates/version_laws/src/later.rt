//! Messages of an earlier version, read as the later one.

ghost use Rattle.asn_base.specs.Abstract.{AbstractValue};
ghost use Rattle.asn_base.specs.Same.{Same};
ghost use Rattle.asn_base.specs.Types.{Resolved};
ghost use Rattle.ber_reader.specs.Readings.{IsStrictReading};
ghost use Rattle.decode_faults.specs.declared.read_fault.ReadFault.TheVariants.{Memory};
ghost use Rattle.encodings.specs.Encoding.{Der};
ghost use Rattle.encodings.specs.Reading.{Encodes};
ghost use Rattle.encodings.specs.Rules.{Basic};
ghost use Rattle.later_versions.specs.Later.{Later};
ghost use Rattle.std.specs.Prelude.{◌≡◌, ◌<◌, ◌≤◌, IfErr, IfOk, List, length, ℕ};
ghost use Rattle.version_laws.specs.Versions.{IsReadAs};
ghost use Rattle.version_laws.specs.Lifted.{lifted};
ghost use Rattle.views.specs.Tree.{value_of};

use crate::law::lemma_later_reads;
use asn_base::schema::TypeId;
use ber_reader::{Read, read_ber, read_der};
use codec_code::Code;
use decode_faults::ReadFault;
use std::alloc::Global;

/// What `read_ber` returns, with a later type, for an encoding of a value of an earlier version, of at most 16,777,216
/// octets. It is the value with the components that were appended absent, and no skipped additions. The only error is
/// `Memory`.
pub fn read_of_earlier<'a>(
    alloc: Global,
    code: &Code,
    id: TypeId,
    octets: &'a [u8],
) -> Result<Read<'a>, ReadFault>
    ensures read { (s : List Resolved) (t : ℕ) (v : AbstractValue)
        → Later s t code.now id.index
        → id.index < length code.now
        → Der s t v 0 octets.now
        → length octets.now ≤ 16777216
        → IfErr result (λ e. e ≡ Memory) }
    ensures same { IfOk result (λ r. (s : List Resolved) (t : ℕ) (v : AbstractValue)
        → Later s t code.now id.index
        → id.index < length code.now
        → Der s t v 0 octets.now
        → Same code.now id.index (lifted code.now id.index v) (value_of r.view) × (r.skipped ≡ 0)) }
    // The same is true of each encoding by the basic rules without unknown additions, within 400 levels of headers.
    ensures basic { (s : List Resolved) (t : ℕ) (v : AbstractValue)
        → Later s t code.now id.index
        → id.index < length code.now
        → IsReadAs s t v 0 octets.now
        → length octets.now ≤ 16777216
        → IfErr result (λ e. e ≡ Memory) }
    // The value that the octets encode is read exactly, widened to the later type.
    ensures is_so { IfOk result (λ r. (s : List Resolved) (t : ℕ) (w : AbstractValue)
        → Later s t code.now id.index
        → id.index < length code.now
        → Encodes s Basic t w 0 octets.now
        → (value_of r.view ≡ lifted code.now id.index w) × (r.skipped ≡ 0)) }
{
    code.lemma_invariant();
    lemma_later_reads();
    read_ber(alloc, code, id, octets)
}

/// What `read_der` returns, with a later type, for the encoding by the distinguished rules of a value of an earlier
/// version, of at most 16,777,216 octets. It is the value with the components that were appended absent, and no skipped
/// additions. The only error is `Memory`.
pub fn read_der_of_earlier<'a>(
    alloc: Global,
    code: &Code,
    id: TypeId,
    octets: &'a [u8],
) -> Result<Read<'a>, ReadFault>
    ensures read { (s : List Resolved) (t : ℕ) (v : AbstractValue)
        → Later s t code.now id.index
        → id.index < length code.now
        → Der s t v 0 octets.now
        → length octets.now ≤ 16777216
        → IfErr result (λ e. e ≡ Memory) }
    ensures same { IfOk result (λ r. (s : List Resolved) (t : ℕ) (v : AbstractValue)
        → Later s t code.now id.index
        → id.index < length code.now
        → Der s t v 0 octets.now
        → Same code.now id.index (lifted code.now id.index v) (value_of r.view) × (r.skipped ≡ 0)) }
    // Whatever else the octets are, the value that is read is the one that they encode by the distinguished rules.
    ensures strict { IfOk result (λ r. IsStrictReading code.now id.index octets.now r) }
{
    code.lemma_invariant();
    lemma_later_reads();
    read_der(alloc, code, id, octets)
}
