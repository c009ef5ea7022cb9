//! Laws of strings in segments.

ghost use Rattle.asn_base.specs.Abstract.{AbstractValue};
ghost use Rattle.encodings.specs.declared.leaf_kind.LeafKind.{LeafKind};
ghost use Rattle.segmented_strings.specs.Joining.{Fails, IsJoinedAs};
ghost use Rattle.segmented_strings.specs.declared.fault.SegmentError.{SegmentError};
ghost use Rattle.std.specs.Prelude.{◌≡◌, ◌≤◌, List, length, ℕ};

use encodings::header_laws;
use octets::law::lemma_one_front;

/// Constructed contents octets of a kind, of at most 16,777,216 octets, are those of at most one value, or else they
/// have one fault at one place, and never both.
pub fn lemma_one_joining()
    ensures value { (k : LeafKind) (v w : AbstractValue) (room : ℕ) (x : List ℕ)
        → IsJoinedAs k v room x
        → IsJoinedAs k w room x
        → v ≡ w }
    ensures fault { (k : LeafKind) (room i j : ℕ) (e f : SegmentError) (x : List ℕ)
        → length x ≤ 16777216
        → Fails k room e i x
        → Fails k room f j x
        → (e ≡ f) × (i ≡ j) }
    ensures either { (k : LeafKind) (room i : ℕ) (e : SegmentError) (v : AbstractValue) (x : List ℕ)
        → length x ≤ 16777216
        → Fails k room e i x
        → IsJoinedAs k v room x
        → ⊥ }
{
    header_laws();
    lemma_one_front();
}
