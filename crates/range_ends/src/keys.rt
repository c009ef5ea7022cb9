//! Names as numbers.

ghost use Rattle.std.specs.Prelude.{◌≡◌};
ghost use Rattle.range_ends.specs.proving.Keys.{key_in, texts};

use std::cmp::Ordering;

/// The place of a name in a list of names in order, or None if a search by halves doesn't find it.
pub(crate) fn key_of(names: &[&str], name: &str) -> Option<usize>
    ensures { result ≡ key_in (texts names.now) name.now }
{
    let mut low = 0;
    let mut high = names.len();
    for round in 0..names.len() {
        if low >= high {
            return None;
        }
        let middle = low + (high - low) / 2;
        match names[middle].cmp(name) {
            Ordering::Less => low = middle + 1,
            Ordering::Equal => return Some(middle),
            Ordering::Greater => high = middle,
        }
    }
    None
}

/// How many times a number can be halved until nothing is left.
pub(crate) fn bits_in(number: usize) -> usize {
    let mut rest = number;
    for bits in 0..64 {
        if rest == 0 {
            return bits;
        }
        rest = rest / 2;
    }
    64
}
