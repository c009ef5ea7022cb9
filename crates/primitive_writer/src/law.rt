//! Laws of contents octets.

ghost use Rattle.asn_base.specs.Abstract.{AbstractValue};
ghost use Rattle.encodings.specs.Leaves.{HasContents};
ghost use Rattle.encodings.specs.declared.leaf_kind.LeafKind.{LeafKind};
ghost use Rattle.std.specs.Prelude.{◌≡◌, List, ℕ};

use encodings::leaf_laws;

/// A value has at most one string of contents octets of a kind.
pub fn lemma_one_contents()
    ensures { (k : LeafKind) (v : AbstractValue) (x y : List ℕ) → HasContents k v x → HasContents k v y → x ≡ y }
{
    leaf_laws();
}
