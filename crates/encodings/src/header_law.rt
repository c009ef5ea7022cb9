//! The laws of headers (X.690, 8.1.2, 8.1.3 and 10.1).

ghost use Rattle.std.specs.Prelude.{◌≡◌, ℕ, ◌<◌, ◌≤◌, ◌^◌, Bool, List, ◌++◌, length};
ghost use Rattle.asn_base.specs.declared.tag.Class.{Class};
ghost use Rattle.asn_base.specs.declared.tag.Tag.{Tag};
ghost use Rattle.encodings.specs.Header.{Header, HeaderBy, LengthOf, identifier};
ghost use Rattle.encodings.specs.Fewest.{shortest_header};
ghost use Rattle.encodings.specs.Rules.{Rules, Distinguished};

/// The shortest header is the only one by the distinguished rules. No header of the same tag for as many contents
/// octets, or more, has fewer octets.
pub fn header_laws()
    ensures is { (t : Tag) (c : Bool) (n : ℕ) → n < 2 ^ 64 → HeaderBy Distinguished t c n (shortest_header t c n) }
    ensures only { (t : Tag) (c : Bool) (n : ℕ) (h : List ℕ)
        → HeaderBy Distinguished t c n h
        → h ≡ shortest_header t c n }
    // No header starts another one, whatever their tags, forms and lengths.
    ensures none_begins_another { (t u : Tag) (b c : Bool) (n m : ℕ) (h g x y : List ℕ)
        → Header t b n h
        → Header u c m g
        → h ++ x ≡ g ++ y
        → (t ≡ u) × (b ≡ c) × (n ≡ m) × (h ≡ g) × (x ≡ y) }
    ensures least { (r : Rules) (t : Tag) (b c : Bool) (n m : ℕ) (h : List ℕ)
        → n ≤ m
        → HeaderBy r t c m h
        → length (shortest_header t b n) ≤ length h }
{}

/// No identifier octets start others, and no length octets start others, whatever octets follow them.
pub fn part_laws()
    ensures identifiers { (b c : Class) (m n : ℕ) (f g : Bool) (x y : List ℕ)
        → identifier b m f ++ x ≡ identifier c n g ++ y
        → (b ≡ c) × (m ≡ n) × (f ≡ g) × (x ≡ y) }
    ensures lengths { (m n : ℕ) (p q x y : List ℕ)
        → LengthOf m p
        → LengthOf n q
        → p ++ x ≡ q ++ y
        → (m ≡ n) × (p ≡ q) × (x ≡ y) }
{}
