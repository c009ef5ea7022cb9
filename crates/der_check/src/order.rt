//! The order of encodings in SET and SET OF (X.690, 10.3 and 11.6).

ghost use Rattle.encodings.specs.Orders.{Ascending, AtMost};
ghost use Rattle.std.specs.Prelude.{◌≡◌, ◌↔◌, ◌∷◌, IsTrue, List, MatchOption, slice_index, ℕ};
ghost use Rattle.der_check.specs.Strict.{FallsAt};
ghost use Rattle.der_check.specs.Units.{AreUnits};

use crate::units::{distance, next_encoding};
use encodings::header_laws;

/// The octet at an index, or 0 after the end.
#[inline(always)]
fn octet_at(octets: &[u8], i: usize) -> u8
    ensures { result ≡ slice_index octets.now i }
{
    if i < octets.len() { octets[i] } else { 0 }
}

/// Whether the first octets are at most the second ones, after the shorter ones are filled with zeros.
#[inline(always)]
pub(crate) fn is_at_most(first: &[u8], second: &[u8]) -> bool
    ensures { IsTrue result ↔ AtMost first.now second.now }
{
    for i in 0..first.len() {
        let other = octet_at(second, i);
        if first[i] < other {
            return true;
        }
        if other < first[i] {
            return false;
        }
    }
    true
}

/// The offset of the first encoding that is less than the one before it, or None if encodings ascend.
pub(crate) fn first_fall(contents: &[u8]) -> Option<usize>
    ensures { (ys : List (List ℕ)) → AreUnits ys contents.now
        → MatchOption result (Ascending AtMost ys) (FallsAt AtMost ys contents.now) }
{
    header_laws();
    let mut rest = contents;
    let mut last: &[u8] = &[];
    while !rest.is_empty() {
        let Some(next) = next_encoding(rest) else {
            return Some(0);
        };
        if !is_at_most(last, next.octets) {
            return Some(distance(contents, rest));
        }
        last = next.octets;
        rest = next.rest;
    }
    None
}
