//! The laws of routines.

ghost use Rattle.asn_base.specs.Abstract.{AbstractValue};
ghost use Rattle.asn_base.specs.Schemas.{IsSchema};
ghost use Rattle.asn_base.specs.Typed.{IsValueWithoutNodes};
ghost use Rattle.asn_base.specs.Types.{Resolved};
ghost use Rattle.codec_code.specs.Events.{Event};
ghost use Rattle.codec_code.specs.Meaning.{Describes};
ghost use Rattle.codec_code.specs.Routines.{routine_at};
ghost use Rattle.codec_code.specs.Steps.{Steps};
ghost use Rattle.std.specs.Prelude.{List, ℕ};

use asn_base::law::{lemma_alike_values, lemma_sameness};
use encodings::{header_laws, leaf_laws};

/// The routine of each type is right. It emits events for each value of the type. The octets that the events mean are
/// the value's encoding by the distinguished rules, which is the only one (`encodings::schema_laws`).
pub fn routine_laws()
    // The routine emits events for each value.
    ensures some { (s : List Resolved) (t : ℕ) (v : AbstractValue)
        → IsSchema s
        → IsValueWithoutNodes s t v
        → (es : List Event) × Steps s t (routine_at s t) v es }
    ensures describes { (s : List Resolved) (t : ℕ) (v : AbstractValue) (es : List Event)
        → IsSchema s
        → IsValueWithoutNodes s t v
        → Steps s t (routine_at s t) v es
        → Describes s t v es }
{
    lemma_sameness();
    lemma_alike_values();
    header_laws();
    leaf_laws();
}
