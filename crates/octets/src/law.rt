//! The laws of the shortest header (X.690, 10.1), and of the start of octets.

ghost use Rattle.asn_base.specs.declared.tag.Tag.{Tag};
ghost use Rattle.encodings.specs.Header.{Header, HeaderBy};
ghost use Rattle.encodings.specs.Fewest.{shortest_header};
ghost use Rattle.encodings.specs.Rules.{Distinguished};
ghost use Rattle.octets.specs.Fronts.{HeaderAt, IsRightFault};
ghost use Rattle.octets.specs.declared.header_fault.HeaderFault.{HeaderFault};
ghost use Rattle.std.specs.Prelude.{◌≡◌, ◌≤◌, Bool, List, length, ℕ};

use encodings::{header_laws, part_laws};

/// No header of a tag, form and length has fewer octets than the one that is written, and two with the fewest are
/// equal.
pub fn lemma_shortest_headers()
    ensures fewest { (t : Tag) (c : Bool) (n : ℕ) (h : List ℕ)
        → Header t c n h → length (shortest_header t c n) ≤ length h }
    ensures one { (t : Tag) (c : Bool) (n : ℕ) (h g : List ℕ)
        → HeaderBy Distinguished t c n h → HeaderBy Distinguished t c n g → h ≡ g }
{
    header_laws();
}

/// At most one header is at the start of octets, or else one fault of a header, and never both.
pub fn lemma_one_front()
    ensures header { (t u : Tag) (c d : Bool) (n m k j : ℕ) (o : List ℕ)
        → HeaderAt t c n k o
        → HeaderAt u d m j o
        → (t ≡ u) × (c ≡ d) × (n ≡ m) × (k ≡ j) }
    ensures fault { (e f : HeaderFault) (o : List ℕ) → IsRightFault e o → IsRightFault f o → e ≡ f }
    ensures either { (e : HeaderFault) (t : Tag) (c : Bool) (n k : ℕ) (o : List ℕ)
        → IsRightFault e o
        → HeaderAt t c n k o
        → ⊥ }
{
    header_laws();
    part_laws();
}
