//! Items after their number, in one piece or in fragments (X.691, 11.9).

ghost use Rattle.packed_counts.specs.Counts.{count_bits, items_next};
ghost use Rattle.packed_encodings.specs.Lengths.{Counted, all_bits};
ghost use Rattle.std.specs.Prelude.{ℕ, ◌<◌, ◌≤◌, ◌++◌, Bool, List, drop, length, take};

/// A number before items, and then the items, are an encoding of the items. Fewer than 16,384 items have one number.
/// Otherwise the number is that of the next fragment, and the other items follow with numbers of their own.
pub fn count_laws()
    ensures at_once { (xs : List (List Bool))
        → length xs < 16384
        → Counted xs (count_bits (length xs) ++ all_bits xs) }
    ensures part { (xs : List (List Bool)) (b : List Bool)
        → 16384 ≤ length xs
        → Counted (drop (items_next (length xs)) xs) b
        → Counted xs (count_bits (length xs) ++ (all_bits (take (items_next (length xs)) xs) ++ b)) }
    ensures at_most { (n : ℕ) → items_next n ≤ n }
    ensures some { (n : ℕ) → 16384 ≤ n → 16384 ≤ items_next n }
{}
