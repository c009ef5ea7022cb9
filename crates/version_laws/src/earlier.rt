//! Messages of a later version, read as the earlier one.

ghost use Rattle.asn_base.specs.Abstract.{AbstractValue};
ghost use Rattle.asn_base.specs.Same.{Same};
ghost use Rattle.asn_base.specs.Schemas.{IsSchema};
ghost use Rattle.asn_base.specs.Types.{Resolved};
ghost use Rattle.decode_faults.specs.declared.read_fault.ReadFault.TheVariants.{Memory};
ghost use Rattle.encodings.specs.Encoding.{Der};
ghost use Rattle.later_versions.specs.Projected.{projected, left_out};
ghost use Rattle.later_versions.specs.Later.{Later};
ghost use Rattle.std.specs.Int.Digits.{AllBelowBase};
ghost use Rattle.std.specs.Prelude.{◌≡◌, ◌≤◌, IfErr, IfOk, List, length, ℕ};
ghost use Rattle.version_laws.specs.Versions.{IsKnown};
ghost use Rattle.views.specs.Tree.{value_of};

use crate::law::lemma_earlier_reads;
use asn_base::schema::TypeId;
use ber_reader::{Read, read_ber};
use codec_code::Code;
use decode_faults::ReadFault;
use std::alloc::Global;

/// Each item of a slice of octets is below 256.
fn lemma_are_octets(octets: &[u8])
    ensures { AllBelowBase 256 octets.now }
{}

/// What `read_ber` returns, with the type of the earlier version, for an encoding of a value of a later one. The
/// encoding is by the distinguished rules, and has at most 16,777,216 octets. The value is the same as what the earlier
/// type keeps of it, and as many additions are skipped as the earlier type leaves out. The only error is `Memory`.
pub fn read_of_later<'a>(
    alloc: Global,
    code: &Code,
    id: TypeId,
    octets: &'a [u8],
) -> Result<Read<'a>, ReadFault>
    ensures read { (s' : List Resolved) (t' : ℕ) (v : AbstractValue)
        → IsSchema s'
        → Later code.now id.index s' t'
        → IsKnown code.now id.index v
        → Der s' t' v 0 octets.now
        → length octets.now ≤ 16777216
        → IfErr result (λ e. e ≡ Memory) }
    ensures same { IfOk result (λ r. (s' : List Resolved) (t' : ℕ) (v : AbstractValue)
        → IsSchema s'
        → Later code.now id.index s' t'
        → IsKnown code.now id.index v
        → Der s' t' v 0 octets.now
        → Same code.now id.index (projected code.now id.index v) (value_of r.view)
        × (r.skipped ≡ left_out code.now id.index v)) }
{
    lemma_earlier_reads();
    lemma_are_octets(octets);
    read_ber(alloc, code, id, octets)
}
