//! Laws of sets of numbers and of codes, for the crates above.

ghost use Rattle.std.specs.Prelude.{◌≡◌, ◌↔◌, ◌<◌, ℕ, ℤ, List, [], length, IsTrue};
ghost use Rattle.std.specs.List.{AllByRecursion};
ghost use Rattle.asn_base.specs.Names.{IsMember};
ghost use Rattle.asn_base.specs.Types.{Range, Constraint, any_number, any_size};
ghost use Rattle.asn_base.specs.Typed.{IsInSome};
ghost use Rattle.asn_base.specs.Schemas.{IsLeast, IsGreatest, AreBounds, IsNumber, IsSize, CodesAscend, is_character};
ghost use Rattle.asn_base.specs.declared.strings.StringKind.{StringKind};
ghost use Rattle.ranges.specs.Numbers.{AreApart, AreSizes, HasRoot};

/// Ranges that are apart contain a number if there is at least one of them. The least and the greatest number of a root
/// are a constraint's bounds, for numbers and for sizes. Without a root all numbers and all sizes have their bounds.
pub fn bounds()
    ensures some { (rs : List Range)
        → AreApart rs
        → 0 < length rs
        → (z : ℤ) × IsInSome z rs }
    ensures numbers { (c : Constraint) (rs : List Range)
        → HasRoot c rs
        → IsLeast (λ z. IsInSome z rs) c.visible.least
        → IsGreatest (λ z. IsInSome z rs) c.visible.greatest
        → AreBounds IsNumber c }
    ensures sizes { (c : Constraint) (rs : List Range)
        → HasRoot c rs
        → AreSizes rs
        → IsLeast (λ z. IsInSome z rs) c.visible.least
        → IsGreatest (λ z. IsInSome z rs) c.visible.greatest
        → AreBounds IsSize c }
    ensures any_number_ { AreBounds IsNumber any_number }
    ensures any_size_ { AreBounds IsSize any_size }
{}

/// The characters of the four string types have codes below 128 (X.680, 41).
pub fn characters_below_128()
    ensures { (k : StringKind) (c : ℕ) → IsTrue (is_character k c) → c < 128 }
{}

/// Two lists of ascending codes with the same members are the same list.
pub fn same_codes()
    ensures { (cs ds : List ℕ)
        → CodesAscend cs
        → CodesAscend ds
        → ((c : ℕ) → IsMember c cs ↔ IsMember c ds)
        → cs ≡ ds }
{}
