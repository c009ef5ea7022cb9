//! Laws of decoding bits.

ghost use Rattle.asn_base.specs.Abstract.{AbstractValue};
ghost use Rattle.asn_base.specs.Same.{Same};
ghost use Rattle.asn_base.specs.Schemas.{IsSchema};
ghost use Rattle.asn_base.specs.Typed.{IsValue};
ghost use Rattle.asn_base.specs.Types.{Resolved};
ghost use Rattle.bits.specs.Words.{octet_bits};
ghost use Rattle.packed_encodings.specs.Packing.{Packed, Reads, EncodesPer, lenient};
ghost use Rattle.packed_encodings.specs.Padding.{Padded};
ghost use Rattle.packed_encodings.specs.Weights.{weight};
ghost use Rattle.packed_reader.specs.Readings.{Fault, IsExact};
ghost use Rattle.packed_reader.specs.Steps.{value_by};
ghost use Rattle.packed_reader.specs.Values.{IsValueRead, answers, faulty, message_from, too_long, value_from};
ghost use Rattle.decode_faults.specs.declared.refusal.Refusal.TheVariants.{Padding, Truncated};
ghost use Rattle.std.specs.Int.Digits.{AllBelowBase};
ghost use Rattle.std.specs.Prelude.{◌≡◌, ◌↔◌, ◌*◌, ◌<◌, ◌≤◌, ℕ, Bool, List, [], ◌++◌, length};

use packed_encodings::{
    computing_laws, message_laws, part_laws, place_laws, reading_laws, weight_laws, writing_laws,
};
use packed_readings::law::{count_laws, field_laws, leaf_laws, octets_laws};

/// A value of any type is decoded as bits encode it, within the limits on levels and on values. Each octet of a
/// character string counts like a value. A decoded value is at the front. A value at the front is decoded, whatever
/// follows it. A fault other than `Truncated` stays, whatever follows.
pub fn value_laws()
    ensures { (s : List Resolved) (l t n : ℕ) → IsSchema s → IsExact (IsValueRead s l t n) (value_from s l t n) }
{
    reading_laws();
    part_laws();
    place_laws();
    computing_laws();
    field_laws();
    count_laws();
    octets_laws();
    leaf_laws();
}

/// The steps of routines, if each type has its own, decode what the types say.
pub fn step_laws()
    ensures { (s : List Resolved) (l t n : ℕ) (b : List Bool)
        → IsSchema s
        → value_by s l t n b ≡ value_from s l t n b }
{}

/// The result of decoding octets as a message of a type. There is at most one, since a function gives it.
pub fn message_laws_of_reading()
    // A value is decoded exactly if the octets are a message that encodes it, with this number of additions that the
    // type lacks.
    ensures answered { (s : List Resolved) (t k : ℕ) (w : AbstractValue) (o : List ℕ)
        → IsSchema s
        → AllBelowBase 256 o
        → message_from s t o ≡ answers w k
        → Reads s t w k o × (length o ≤ 16777216) }
    ensures read { (s : List Resolved) (t k : ℕ) (w : AbstractValue) (o : List ℕ)
        → IsSchema s
        → Reads s t w k o
        → length o ≤ 16777216
        → message_from s t o ≡ answers w k }
    ensures too_long { (s : List Resolved) (t : ℕ) (o : List ℕ)
        → IsSchema s
        → message_from s t o ≡ too_long ↔ 16777216 < length o }
    // Octets that end within a message have the fault `Truncated`.
    ensures truncated { (s : List Resolved) (t k : ℕ) (w : AbstractValue) (o m : List ℕ)
        → IsSchema s
        → Reads s t w k (o ++ m)
        → length (o ++ m) ≤ 16777216
        → 1 ≤ length m
        → (e : Fault) × (i : ℕ) × (message_from s t o ≡ faulty e i) × (e.why ≡ Truncated) }
    // The fault `Padding` if the bits after those of a value aren't the ones that fill its last octet.
    ensures padding { (s : List Resolved) (t k : ℕ) (w : AbstractValue) (x p : List Bool) (o : List ℕ)
        → IsSchema s
        → AllBelowBase 256 o
        → 1 ≤ length o
        → length o ≤ 16777216
        → EncodesPer s lenient t w k x
        → IsValue s t w
        → weight w ≤ 16777216
        → octet_bits o ≡ x ++ p
        → (Padded x o → ⊥)
        → message_from s t o ≡ faulty (record { why = Padding; path = [] }) (length x) }
    // The message of a value is decoded as a value that is the same, without additions that the type lacks.
    ensures written { (s : List Resolved) (t : ℕ) (v : AbstractValue) (x : List Bool) (o : List ℕ)
        → IsSchema s
        → IsValue s t v
        → weight v ≤ 16777216
        → Packed s t v x
        → Padded x o
        → length o ≤ 16777216
        → (w : AbstractValue) × Same s t v w × (message_from s t o ≡ answers w 0) }
    // Any other fault is the first one. It stays, at its place, whatever octets follow.
    ensures stays { (s : List Resolved) (t i : ℕ) (e : Fault) (o m : List ℕ)
        → IsSchema s
        → message_from s t o ≡ faulty e i
        → (e.why ≡ Truncated → ⊥)
        → length (o ++ m) ≤ 16777216
        → message_from s t (o ++ m) ≡ faulty e i }
    // The place of a fault is one of the bits, or their end.
    ensures within { (s : List Resolved) (t i : ℕ) (e : Fault) (o : List ℕ)
        → IsSchema s
        → message_from s t o ≡ faulty e i
        → i ≤ 8 * length o }
{
    part_laws();
    message_laws();
    writing_laws();
    value_laws();
    weight_laws();
}
