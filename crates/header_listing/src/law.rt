//! Laws of the lines that show headers.

ghost use Rattle.header_listing.specs.Listing.{IsListing};
ghost use Rattle.header_listing.specs.Shown.{octets_of};
ghost use Rattle.std.specs.Prelude.{◌≡◌, ◌≤◌, ℕ, List, flat_map, length, take};

/// The octets of the lines in order are exactly those before the place where the lines stop: none is lost, and none is
/// added.
pub fn lemma_lines_are_exact()
    ensures joined { (o : List ℕ) (limit stop : ℕ) (text : List ℕ)
        → (l : IsListing o limit stop text)
        → flat_map octets_of l.lines ≡ take stop o }
    ensures there { (o : List ℕ) (limit stop : ℕ) (text : List ℕ)
        → IsListing o limit stop text
        → stop ≤ length o }
    // If nothing limits the lines, they show all octets.
    ensures all { (o : List ℕ) (stop : ℕ) (text : List ℕ)
        → (l : IsListing o (length o) stop text)
        → flat_map octets_of l.lines ≡ o }
{}
