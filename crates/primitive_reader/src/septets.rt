//! Numbers in septets (X.690, 8.19.2).

ghost use Rattle.primitive_reader.specs.Arcs.{Front};
ghost use Rattle.encodings.specs.proving.Septets.{Septets};
ghost use Rattle.primitive_reader.specs.proving.Spelled.{SeptetsAfter};
ghost use Rattle.encodings.specs.Header.{septets};
ghost use Rattle.std.specs.List.{AllByRecursion};
ghost use Rattle.std.specs.Prelude.{◌≡◌, ◌<◌, ◌++◌, ◌^◌, ◌↔◌, IfNone, IfSome, IsTrue, List, length, ℕ, None};

/// A number is greater than any number of an OBJECT IDENTIFIER if its septets before the last one are worth this or
/// more.
const GREAT: u128 = 18_446_744_073_709_551_616;

/// Whether each octet is all of a number in septets.
#[inline(always)]
pub(crate) fn are_single(octets: &[u8]) -> bool
    ensures { IsTrue result ↔ AllByRecursion (λ d. d < 128) octets.now }
{
    for i in 0..octets.len() {
        if octets[i] >= 128 {
            return false;
        }
    }
    true
}

/// The number in septets at the start of octets, without leading zeros, and what follows it. The inner None is a number
/// of 2^64 + 80 or greater; the outer None is octets that don't start with such a number.
#[tactic(auto, using(crate::proofs::OneOctet::one_front))]
#[inline(always)]
pub fn read_arc(octets: &[u8]) -> Option<(Option<u128>, &[u8])>
    ensures some { IfSome result (λ r. Front r.0 r.1.now octets.now) }
    ensures shorter { IfSome result (λ r. length r.1.now < length octets.now) }
    ensures none { IfNone result ((n : ℕ) (rest : List ℕ) → octets.now ≡ septets n ++ rest → ⊥) }
{
    if octets.len() == 0 {
        return None;
    }
    let first = octets[0];
    if first < 128 {
        return Some((Some(first as u128), &octets[1..]));
    }
    if first == 128 {
        return None;
    }
    match read_septets(octets, 0) {
        Some((number, rest)) => Some((number, rest)),
        None => None,
    }
}

/// Reads septets after some that are worth `high`.
#[tactic(auto, using(crate::proofs::Spelling::one_last, crate::proofs::Spelling::one_more, crate::proofs::Spelling::one_great, crate::proofs::Spelling::none_there, crate::proofs::Spelling::none_after))]
fn read_septets(octets: &[u8], high: u128) -> Option<(Option<u128>, &[u8])>
    requires { high < 2 ^ 64 }
    ensures some { IfSome result (λ r. SeptetsAfter high r.0 r.1.now octets.now) }
    ensures none { IfNone result ((n : ℕ) (rest : List ℕ) → Septets high octets.now n rest → ⊥) }
{
    let Some((octet, following)) = octets.split_first() else {
        return None;
    };
    let octet = *octet;
    if octet < 128 {
        return Some((Some(high * 128 + octet as u128), following));
    }
    let worth = high * 128 + (octet - 128) as u128;
    if worth < GREAT {
        return read_septets(following, worth);
    }
    match after_septets(following) {
        Some(rest) => Some((None, rest)),
        None => None,
    }
}

/// What follows septets, whatever they are worth. The result is None if the octets end within them.
#[tactic(auto, using(crate::proofs::Spelling::high_more, crate::proofs::Spelling::ends_before, crate::proofs::Spelling::none_ends))]
fn after_septets(octets: &[u8]) -> Option<&[u8]>
    ensures some { IfSome result (λ r. (high : ℕ) → (n : ℕ) × Septets high octets.now n r.now) }
    ensures none { IfNone result ((high n : ℕ) (rest : List ℕ) → Septets high octets.now n rest → ⊥) }
{
    for i in 0..octets.len() {
        if octets[i] < 128 {
            return Some(&octets[i + 1..]);
        }
    }
    None
}
