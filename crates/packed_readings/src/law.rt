//! Laws of what is read from the start of bits.

ghost use Rattle.asn_base.specs.Schemas.{AreBounds, IsSize, IsSound};
ghost use Rattle.asn_base.specs.Typed.{IsAllowedSize};
ghost use Rattle.asn_base.specs.Types.{Constraint, Kind, Resolved};
ghost use Rattle.packed_encodings.specs.Lengths.{Counted, CountedOctets, Sized};
ghost use Rattle.decode_faults.specs.declared.refusal.Refusal.{Refusal};
ghost use Rattle.packed_readings.specs.Counts.{InParts, InSize, IsCount, IsSizing, count_from, octets_from, size_from};
ghost use Rattle.packed_readings.specs.Leaves.{IsLeafWithin, leaf_within};
ghost use Rattle.packed_readings.specs.Outcome.{IsBit, IsField, IsReading, IsSmall, bit_from, field_from, small_from};
ghost use Rattle.std.specs.Prelude.{ℕ, Bool, List, length, true};

/// Bits, numbers of some bits and small numbers are read exactly.
pub fn field_laws()
    ensures bit { IsReading IsBit bit_from }
    ensures field { (n : ℕ) → IsReading (IsField n) (field_from n) }
    ensures small { (e : Refusal) → IsReading IsSmall (small_from e) }
{}

/// Numbers of items are read exactly. Items after their number come part by part, and the bits of a size come before
/// them.
pub fn count_laws()
    ensures count { (full : Bool) → IsReading (IsCount full) (count_from full) }
    ensures in_parts { (xs : List (List Bool)) (b : List Bool) → Counted xs b → InParts true xs b }
    ensures counted { (xs : List (List Bool)) (b : List Bool) → InParts true xs b → Counted xs b }
    ensures size { (c : Constraint) → AreBounds IsSize c → IsReading (IsSizing c) (size_from c) }
    ensures in_size { (c : Constraint) (xs : List (List Bool)) (b : List Bool)
        → Sized c.visible xs b
        → IsAllowedSize c (length xs)
        → InSize c xs b }
    ensures sized { (c : Constraint) (xs : List (List Bool)) (b : List Bool)
        → InSize c xs b
        → Sized c.visible xs b × IsAllowedSize c (length xs) }
{}

/// Octets after their number, such as those of an open type, are read exactly.
pub fn octets_laws()
    ensures { IsReading CountedOctets octets_from }
{}

/// A value of a kind that holds no others is read exactly, if the kind's constraints allow it, and if it has at most n
/// octets where it is a character string.
pub fn leaf_laws()
    ensures { (s : List Resolved) (n : ℕ) (k : Kind)
        → IsSound s k
        → IsReading (IsLeafWithin n k) (leaf_within n k) }
{}
