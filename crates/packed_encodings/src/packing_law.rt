//! The laws of packed encodings (X.691, 11 to 30).

ghost use Rattle.asn_base.specs.Abstract.{AbstractValue};
ghost use Rattle.asn_base.specs.Same.{AlikeBy, Same};
ghost use Rattle.asn_base.specs.Schemas.{IsSchema, IsSound};
ghost use Rattle.asn_base.specs.Typed.{IsValue, IsValueWithoutNodes, nodes};
ghost use Rattle.asn_base.specs.Types.{Alternative, Bounds, Is, Kind, Resolved, a_choice};
ghost use Rattle.asn_base.specs.declared.tag.Tag.{Tag};
ghost use Rattle.bits.specs.Words.{octet_bits};
ghost use Rattle.packed_encodings.specs.Computed.{DefaultTest, DecidesDefaults, at_least_one, bits_by, bits_of};
ghost use Rattle.packed_encodings.specs.Computed.{counted_bits, is_default, leaf_bits, open_bits, padded_octets};
ghost use Rattle.packed_encodings.specs.Computed.{IsEncoding, sized_bits, sorted};
ghost use Rattle.packed_encodings.specs.Leaves.{LeafPer, place_width};
ghost use Rattle.packed_encodings.specs.Lengths.{Counted, CountedOctets, Sized};
ghost use Rattle.packed_encodings.specs.Numbers.{FewestUnsigned};
ghost use Rattle.packed_encodings.specs.Orders.{BitsAscend, BitsAtMost, canonical_place};
ghost use Rattle.packed_encodings.specs.Packing.{Form, Packed, Reads, EncodesPer, exact, lenient};
ghost use Rattle.packed_encodings.specs.Padding.{Open, Padded};
ghost use Rattle.packed_encodings.specs.Weights.{weight};
ghost use Rattle.std.specs.Int.Digits.{digits_of};
ghost use Rattle.std.specs.List.{AllByRecursion};
ghost use Rattle.std.specs.List.Sorted.{IsPermutation};
ghost use Rattle.std.specs.Prelude.{◌≡◌, ◌⊎◌, ◌<◌, ◌≤◌, ◌^◌, ℕ, Bool, List, [], ◌++◌, Some, length, slice_get};

use asn_base::law::{lemma_alike_values, lemma_sameness};
use encodings::leaf_laws;

/// Bits mean one value, and no encoding of a type is the start of another one, in the form that is written and in the
/// form that is read.
pub fn reading_laws()
    // If two sequences of bits are equal and each begins with an encoding of the type, the two encodings are one, of
    // one value.
    ensures none_begins_another { (s : List Resolved) (f : Form) (t j k : ℕ) (v w : AbstractValue)
        (x y p q : List Bool)
        → IsSchema s
        → EncodesPer s f t v j x
        → EncodesPer s f t w k y
        → x ++ p ≡ y ++ q
        → (v ≡ w) × (j ≡ k) × (x ≡ y) × (p ≡ q) }
    // Written bits are read, with no additions that the type lacks.
    ensures written_is_read { (s : List Resolved) (t k : ℕ) (w : AbstractValue) (x : List Bool)
        → EncodesPer s exact t w k x
        → EncodesPer s lenient t w k x }
    ensures none_lacking { (s : List Resolved) (t k : ℕ) (w : AbstractValue) (x : List Bool)
        → EncodesPer s exact t w k x
        → k ≡ 0 }
{}

/// The parts of encodings: leaves, items and octets after their number, and open types. Each part has one list of bits,
/// and no part is the start of another. An open type and a count of octets exist for any contents.
pub fn part_laws()
    ensures one_leaf { (s : List Resolved) (k : Kind) (v w : AbstractValue) (a b : List Bool)
        → IsSound s k
        → AlikeBy s k v w
        → LeafPer k v a
        → LeafPer k w b
        → b ≡ a }
    ensures leaf_front { (k : Kind) (v w : AbstractValue) (a b p q : List Bool)
        → LeafPer k v a
        → LeafPer k w b
        → a ++ p ≡ b ++ q
        → (v ≡ w) × (p ≡ q) }
    ensures one_sized { (z : Bounds) (xs : List (List Bool)) (a b : List Bool) → Sized z xs a → Sized z xs b → b ≡ a }
    ensures one_counted { (xs : List (List Bool)) (a b : List Bool) → Counted xs a → Counted xs b → b ≡ a }
    ensures some_counted { (xs : List (List Bool)) → (a : List Bool) × Counted xs a }
    ensures octets_front { (o r : List ℕ) (a b p q : List Bool)
        → CountedOctets o a
        → CountedOctets r b
        → a ++ p ≡ b ++ q
        → (o ≡ r) × (p ≡ q) }
    ensures one_open { (x y z : List Bool) → Open x y → Open x z → z ≡ y }
    ensures some_open { (x : List Bool) → (y : List Bool) × Open x y }
    ensures some_filling { (x : List Bool) → (o : List ℕ) × Padded x o }
{}

/// The place of an alternative of the root in the canonical order of tags identifies it. The place is below the number
/// of alternatives, and fits in the bits of a place among them (X.691, 23.4 to 23.6).
pub fn place_laws()
    ensures one { (s : List Resolved) (t i j : ℕ) (tags : List Tag) (root more : List Alternative) (e : Bool)
        (a b : Alternative)
        → IsSchema s
        → Is s t tags (a_choice root e more)
        → slice_get root i ≡ Some a
        → slice_get root j ≡ Some b
        → canonical_place s root a.type ≡ canonical_place s root b.type
        → i ≡ j }
    ensures below { (s : List Resolved) (t i : ℕ) (tags : List Tag) (root more : List Alternative) (e : Bool)
        (a : Alternative)
        → IsSchema s
        → Is s t tags (a_choice root e more)
        → slice_get root i ≡ Some a
        → canonical_place s root a.type < length root }
    ensures fits { (n i : ℕ) → i < n → i < 2 ^ place_width n }
{}

/// Two lists that ascend and contain the same encodings of one type are one list.
pub fn order_laws()
    ensures either { (x y : List Bool) → BitsAtMost x y ⊎ BitsAtMost y x }
    ensures joined { (x y z : List Bool) → BitsAtMost x y → BitsAtMost y z → BitsAtMost x z }
    ensures one { (s : List Resolved) (f : Form) (t j k : ℕ) (v w : AbstractValue) (x y : List Bool)
        → IsSchema s
        → EncodesPer s f t v j x
        → EncodesPer s f t w k y
        → BitsAtMost x y
        → BitsAtMost y x
        → x ≡ y }
{}

/// A message is read as one value, and no message is the start of another one.
pub fn message_laws()
    ensures one_value { (s : List Resolved) (t j k : ℕ) (v w : AbstractValue) (o : List ℕ)
        → IsSchema s
        → Reads s t v j o
        → Reads s t w k o
        → (v ≡ w) × (j ≡ k) }
    ensures none_begins_another { (s : List Resolved) (t j k : ℕ) (v w : AbstractValue) (o r : List ℕ)
        → IsSchema s
        → Reads s t v j o
        → Reads s t w k (o ++ r)
        → r ≡ [] }
    // Octets whose bits begin with an encoding are read only if they are that encoding, filled. They have no further
    // octet, and no filling bit 1.
    ensures only_filled { (s : List Resolved) (t j k : ℕ) (v w : AbstractValue) (x p : List Bool) (o : List ℕ)
        → IsSchema s
        → EncodesPer s lenient t v j x
        → octet_bits o ≡ x ++ p
        → Reads s t w k o
        → Padded x o × (w ≡ v) × (k ≡ j) }
    // Bits are filled to only one list of octets.
    ensures one_filling { (x : List Bool) (o r : List ℕ) → Padded x o → Padded x r → r ≡ o }
{}

/// A value weighs at least as much as it has nodes.
pub fn weight_laws()
    ensures { (v : AbstractValue) → nodes v ≤ weight v }
{}

/// Values that are the same have one list of bits, and other values have other bits.
pub fn writing_laws()
    // The bits that are written of a value are bits that encode it.
    ensures packed { (s : List Resolved) (t : ℕ) (v : AbstractValue) (x : List Bool)
        → IsValueWithoutNodes s t v
        → EncodesPer s exact t v 0 x
        → Packed s t v x }
    ensures one_list { (s : List Resolved) (t : ℕ) (v w : AbstractValue) (x y : List Bool)
        → IsSchema s
        → Same s t v w
        → Packed s t v x
        → Packed s t w y
        → y ≡ x }
    ensures one_value { (s : List Resolved) (t : ℕ) (v w : AbstractValue) (x : List Bool)
        → IsSchema s
        → Packed s t v x
        → Packed s t w x
        → Same s t v w }
    // A message of a value, if the value isn't too heavy, is read as a value that is the same, with no additions that
    // the type lacks.
    ensures message { (s : List Resolved) (t : ℕ) (v : AbstractValue) (x : List Bool) (o : List ℕ)
        → IsValue s t v
        → weight v ≤ 16777216
        → Packed s t v x
        → Padded x o
        → (w : AbstractValue) × Same s t v w × Reads s t w 0 o }
{
    lemma_sameness();
}

/// Each value of a type of a schema has bits, and a message if it isn't too heavy.
pub fn existence_laws()
    ensures bits { (s : List Resolved) (t : ℕ) (v : AbstractValue)
        → IsSchema s
        → IsValueWithoutNodes s t v
        → (x : List Bool) × Packed s t v x }
    ensures message { (s : List Resolved) (t : ℕ) (v : AbstractValue)
        → IsSchema s
        → IsValue s t v
        → weight v ≤ 16777216
        → (o : List ℕ) × (w : AbstractValue) × Same s t v w × Reads s t w 0 o }
{
    lemma_sameness();
    lemma_alike_values();
    leaf_laws();
    writing_laws();
}

/// A function computes the bits of a value with any right test of defaults, and `is_default` is such a test.
pub fn computing_laws()
    ensures only { (s : List Resolved) (test : DefaultTest) (t : ℕ) (v : AbstractValue) (x : List Bool)
        → IsSchema s
        → DecidesDefaults s test
        → Packed s t v x
        → bits_by test s v t ≡ x }
    ensures defaults { (s : List Resolved) → DecidesDefaults s (is_default s) }
    ensures packed { (s : List Resolved) (t : ℕ) (v : AbstractValue)
        → IsSchema s
        → IsValueWithoutNodes s t v
        → Packed s t v (bits_of s v t) }
{
    lemma_sameness();
    lemma_alike_values();
    existence_laws();
}

/// The functions compute the parts of an encoding as the definitions have them. The parts are leaves, items after their
/// number, open types, filled octets, the octets of a number that isn't negative, and the order in a SET OF.
pub fn function_laws()
    ensures leaf { (s : List Resolved) (k : Kind) (v w : AbstractValue) (b : List Bool)
        → IsSound s k
        → AlikeBy s k v w
        → LeafPer k w b
        → leaf_bits k v ≡ b }
    ensures sized { (z : Bounds) (xs : List (List Bool)) (b : List Bool) → Sized z xs b → sized_bits z xs ≡ b }
    ensures counted { (xs : List (List Bool)) (b : List Bool) → Counted xs b → counted_bits xs ≡ b }
    ensures open_type { (x y : List Bool) → Open x y → open_bits x ≡ y }
    ensures filled { (x : List Bool) → Padded x (padded_octets x) }
    ensures fewest { (n : ℕ) → FewestUnsigned n (at_least_one (digits_of 256 n)) }
    // The function sorts encodings of one type in ascending order.
    ensures sorted { (s : List Resolved) (t : ℕ) (xs ys : List (List Bool))
        → IsSchema s
        → AllByRecursion (IsEncoding s t) xs
        → IsPermutation xs ys
        → BitsAscend ys
        → sorted xs ≡ ys }
{}
