//! The number of contents octets.

ghost use Rattle.asn_base.specs.Abstract.{abstract};
ghost use Rattle.encodings.specs.Leaves.{HasContents};
ghost use Rattle.encodings.specs.Header.{septets};
ghost use Rattle.primitive_writer.specs.Held.{HasNone};
ghost use Rattle.primitive_writer.specs.Pieces.{joined_pieces};
ghost use Rattle.std.specs.Prelude.{◌≡◌, ◌≤◌, ◌<◌, ◌^◌, ◌*◌, MatchOption, List, ℕ, flat_map, length};

use crate::buffer::push_septets;
use crate::leaf::{PrimitiveContents, primitive_contents};
use arrayvec::ArrayVec;
use asn_base::value::Value;
use encodings::LeafKind;

/// How many contents octets of this kind the value has, or None if it has none of this kind. It takes no memory.
pub fn primitive_len(kind: LeafKind, value: &Value) -> Option<u64>
    ensures { MatchOption result (HasNone kind (abstract value.now))
        (λ n. (x : List ℕ) × HasContents kind (abstract value.now) x × (length x ≡ n)) }
{
    match primitive_contents(kind, value) {
        Some(octets) => Some(octet_count(&octets)),
        None => None,
    }
}

/// How many octets the pieces have. It takes no memory.
pub fn octet_count(octets: &PrimitiveContents) -> u64
    ensures { length (joined_pieces octets.now) ≡ result }
{
    match octets {
        PrimitiveContents::One(_) => 1,
        PrimitiveContents::Few(few) => few.len() as u64,
        PrimitiveContents::Whole(whole) => whole.len() as u64,
        PrimitiveContents::Bits(_, whole, Some(_)) => whole.len() as u64 + 2,
        PrimitiveContents::Bits(_, whole, None) => whole.len() as u64 + 1,
        PrimitiveContents::Arcs(first, others) => septet_count(*first) + all_septets(others),
    }
}

/// How many septets the number has.
#[tactic(auto, using(crate::proofs::Digits::one_septet))]
fn septet_count(number: u128) -> u64
    ensures count { length (septets number) ≡ result }
    ensures most { result ≤ 19 }
    ensures few { number < 2 ^ 64 → result ≤ 10 }
{
    if number < 128 {
        return 1;
    }
    let mut out = ArrayVec::new();
    push_septets(&mut out, number);
    out.len() as u64
}

/// How many septets the numbers have together.
fn all_septets(numbers: &[u64]) -> u64
    ensures count { length (flat_map septets numbers.now) ≡ result }
    ensures most { result ≤ 10 * length numbers.now }
{
    let mut count = 0;
    for i in 0..numbers.len() {
        count += septet_count(numbers[i] as u128);
    }
    count
}
