//! What packed routines write.

ghost use Rattle.asn_base.specs.Abstract.{AbstractValue};
ghost use Rattle.asn_base.specs.Schemas.{IsSchema};
ghost use Rattle.asn_base.specs.Typed.{IsValueWithoutNodes};
ghost use Rattle.asn_base.specs.Types.{Resolved};
ghost use Rattle.packed_code.specs.Meaning.{steps_bits};
ghost use Rattle.packed_code.specs.Routines.{routine_at};
ghost use Rattle.packed_encodings.specs.Computed.{bits_of};
ghost use Rattle.packed_encodings.specs.Packing.{Packed};
ghost use Rattle.std.specs.Prelude.{◌≡◌, ℕ, List};

use packed_encodings::computing_laws;

/// The routine of each type writes its values: the bits that it writes are the only bits of the value
/// (`packed_encodings::writing_laws`).
pub fn routine_laws()
    ensures bits { (s : List Resolved) (t : ℕ) (v : AbstractValue)
        → IsSchema s
        → IsValueWithoutNodes s t v
        → steps_bits s t v (routine_at s t) ≡ bits_of s v t }
    ensures packed { (s : List Resolved) (t : ℕ) (v : AbstractValue)
        → IsSchema s
        → IsValueWithoutNodes s t v
        → Packed s t v (steps_bits s t v (routine_at s t)) }
{
    computing_laws();
}
