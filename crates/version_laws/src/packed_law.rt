//! What is written of one version in packed encodings can be read by the other.

ghost use Rattle.asn_base.specs.Abstract.{AbstractValue};
ghost use Rattle.asn_base.specs.Same.{Same};
ghost use Rattle.asn_base.specs.Schemas.{IsSchema};
ghost use Rattle.asn_base.specs.Typed.{IsValue, IsValueWithoutNodes};
ghost use Rattle.asn_base.specs.Types.{Resolved};
ghost use Rattle.later_versions.specs.Projected.{projected, left_out};
ghost use Rattle.later_versions.specs.Later.{Later};
ghost use Rattle.packed_encodings.specs.Packing.{Packed, Reads, EncodesPer, lenient};
ghost use Rattle.packed_encodings.specs.Padding.{Padded};
ghost use Rattle.packed_encodings.specs.Weights.{weight};
ghost use Rattle.std.specs.Prelude.{◌≡◌, ◌<◌, ◌≤◌, Bool, List, length, ℕ};
ghost use Rattle.version_laws.specs.LeftOut.{left_out_packed};
ghost use Rattle.version_laws.specs.Versions.{IsKnown};
ghost use Rattle.version_laws.specs.Lifted.{lifted};

use asn_base::law::{lemma_alike_values, lemma_sameness};
use packed_encodings::{reading_laws, writing_laws};

/// The earlier type leaves as many additions out of values that are the same. It leaves no addition out if and only if
/// it leaves no component out, and so of each value of its own.
pub fn packed_counts()
    ensures same { (s s' : List Resolved) (t t' : ℕ) (v w : AbstractValue)
        → Later s t s' t'
        → IsKnown s t v
        → Same s' t' v w
        → left_out_packed s t s' t' v ≡ left_out_packed s t s' t' w }
    ensures none { (s s' : List Resolved) (t t' : ℕ) (v : AbstractValue)
        → IsValueWithoutNodes s' t' v
        → left_out s t v ≡ 0
        → left_out_packed s t s' t' v ≡ 0 }
    ensures whole { (s s' : List Resolved) (t t' : ℕ) (v : AbstractValue)
        → IsValueWithoutNodes s' t' v
        → left_out_packed s t s' t' v ≡ 0
        → left_out s t v ≡ 0 }
    ensures back { (s s' : List Resolved) (t t' : ℕ) (v : AbstractValue)
        → IsSchema s'
        → Later s t s' t'
        → t' < length s'
        → IsValueWithoutNodes s t v
        → left_out_packed s t s' t' (lifted s' t' v) ≡ 0 }
{
    lemma_sameness();
    lemma_alike_values();
}

/// Packed bits of a value of a later version are bits of what the earlier type keeps of the value. They have as many
/// additions that the earlier type lacks as it leaves out, where those in version brackets count as one. Such additions
/// are not inspected, so what they lack or contain isn't counted.
pub fn lemma_earlier_reads_packed()
    // The bits encode exactly what is kept.
    ensures exactly { (s s' : List Resolved) (t t' : ℕ) (w : AbstractValue) (b : List Bool)
        → IsSchema s
        → IsSchema s'
        → Later s t s' t'
        → IsKnown s t w
        → IsValueWithoutNodes s' t' w
        → EncodesPer s' lenient t' w 0 b
        → EncodesPer s lenient t (projected s t w) (left_out_packed s t s' t' w) b }
    ensures packed { (s s' : List Resolved) (t t' : ℕ) (v : AbstractValue) (b : List Bool)
        → IsSchema s
        → IsSchema s'
        → Later s t s' t'
        → IsKnown s t v
        → Packed s' t' v b
        → (w : AbstractValue) × Same s t (projected s t v) w
        × EncodesPer s lenient t w (left_out_packed s t s' t' v) b }
    // The same is true of messages.
    ensures reads { (s s' : List Resolved) (t t' : ℕ) (w : AbstractValue) (o : List ℕ)
        → IsSchema s
        → IsSchema s'
        → Later s t s' t'
        → IsKnown s t w
        → Reads s' t' w 0 o
        → Reads s t (projected s t w) (left_out_packed s t s' t' w) o }
    ensures message { (s s' : List Resolved) (t t' : ℕ) (v : AbstractValue) (b : List Bool) (o : List ℕ)
        → IsSchema s
        → IsSchema s'
        → Later s t s' t'
        → IsKnown s t v
        → IsValue s' t' v
        → weight v ≤ 16777216
        → Packed s' t' v b
        → Padded b o
        → (w : AbstractValue) × Same s t (projected s t v) w × Reads s t w (left_out_packed s t s' t' v) o }
{
    lemma_sameness();
    lemma_alike_values();
    reading_laws();
    writing_laws();
}

/// Packed bits of a value of an earlier version are bits of what the value is under the later type, with no additions
/// that the later type lacks.
pub fn lemma_later_reads_packed()
    // The bits encode exactly the value with the components that were appended absent.
    ensures exactly { (s s' : List Resolved) (t t' : ℕ) (w : AbstractValue) (b : List Bool)
        → IsSchema s
        → IsSchema s'
        → Later s t s' t'
        → t' < length s'
        → IsValueWithoutNodes s t w
        → EncodesPer s lenient t w 0 b
        → EncodesPer s' lenient t' (lifted s' t' w) 0 b }
    ensures packed { (s s' : List Resolved) (t t' : ℕ) (v : AbstractValue) (b : List Bool)
        → IsSchema s
        → IsSchema s'
        → Later s t s' t'
        → t' < length s'
        → Packed s t v b
        → (w : AbstractValue) × Same s' t' (lifted s' t' v) w × EncodesPer s' lenient t' w 0 b }
    // The same is true of messages.
    ensures reads { (s s' : List Resolved) (t t' : ℕ) (w : AbstractValue) (o : List ℕ)
        → IsSchema s
        → IsSchema s'
        → Later s t s' t'
        → t' < length s'
        → Reads s t w 0 o
        → Reads s' t' (lifted s' t' w) 0 o }
    ensures message { (s s' : List Resolved) (t t' : ℕ) (v : AbstractValue) (b : List Bool) (o : List ℕ)
        → IsSchema s
        → IsSchema s'
        → Later s t s' t'
        → t' < length s'
        → IsValue s t v
        → weight v ≤ 16777216
        → Packed s t v b
        → Padded b o
        → (w : AbstractValue) × Same s' t' (lifted s' t' v) w × Reads s' t' w 0 o }
{
    lemma_sameness();
    lemma_alike_values();
    reading_laws();
    writing_laws();
}
