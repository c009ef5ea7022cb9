//! Laws of the values as which contents octets are read.

ghost use Rattle.asn_base.specs.Abstract.{AbstractValue};
ghost use Rattle.encodings.specs.declared.leaf_kind.LeafKind.{LeafKind};
ghost use Rattle.primitive_reader.specs.Leaves.{IsReadAs};
ghost use Rattle.primitive_reader.specs.Refused.{IsRightFault};
ghost use Rattle.primitive_reader.specs.declared.fault.LeafFault.{LeafFault};
ghost use Rattle.std.specs.Prelude.{◌≡◌, List, ℕ};

/// Contents octets of a kind are those of at most one value, or else they have one fault, and never both.
pub fn lemma_one_reading()
    ensures value { (k : LeafKind) (v w : AbstractValue) (x : List ℕ) → IsReadAs k v x → IsReadAs k w x → v ≡ w }
    ensures fault { (e f : LeafFault) (k : LeafKind) (x : List ℕ) → IsRightFault e k x → IsRightFault f k x → e ≡ f }
    ensures either { (e : LeafFault) (k : LeafKind) (v : AbstractValue) (x : List ℕ)
        → IsRightFault e k x
        → IsReadAs k v x
        → ⊥ }
{}
