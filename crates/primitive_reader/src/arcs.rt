//! The numbers of OBJECT IDENTIFIER and RELATIVE-OID (X.690, 8.19 and 8.20).

ghost use Rattle.asn_base.specs.Typed.{IsObjectIdentifier, IsRelativeOid};
ghost use Rattle.encodings.specs.declared.leaf_kind.LeafKind.TheVariants.{ObjectIdentifier, RelativeOid};
ghost use Rattle.encodings.specs.Contents.{joined};
ghost use Rattle.encodings.specs.Header.{septets};
ghost use Rattle.primitive_reader.specs.Refused.{IsRightFault};
ghost use Rattle.primitive_reader.specs.Arcs.{IsArcOf};
ghost use Rattle.primitive_reader.specs.proving.Spelled.{Counted, IsJudged};
ghost use Rattle.std.specs.Prelude.{◌≡◌, ◌<◌, ◌++◌, ◌∷◌, ◌↔◌, IfErr, IfNone, IfOk, IfSome, IsTrue, List, [], flat_map, ℕ};

use crate::fault::LeafFault;
use crate::septets::{are_single, read_arc};
use limits::MAX_ARCS;

/// Whether some numbers and one more are all below 2^64; `small` says so of the first ones.
#[tactic(auto, using(crate::proofs::Spelling::judged_small, crate::proofs::Spelling::judged_great, crate::proofs::Spelling::judged_before))]
#[inline(always)]
fn stays_small(small: bool, number: Option<u128>) -> bool
    ensures { (ns : List ℕ) (n : ℕ) → IsJudged small ns → IsArcOf number n → IsJudged result (ns ++ n ∷ []) }
{
    match number {
        Some(number) => small && number < 18_446_744_073_709_551_616,
        None => false,
    }
}

/// How many numbers in septets the octets are, and whether each is below 2^64. The result is None if the octets aren't
/// such numbers.
#[tactic(auto, using(crate::proofs::Spelling::none_counted, crate::proofs::Spelling::one_counted, crate::proofs::Spelling::no_numbers, crate::proofs::OneOctet::single_counted))]
#[inline(always)]
fn count_arcs(octets: &[u8]) -> Option<(usize, bool)>
    ensures some { IfSome result (λ r. Counted r.0 r.1 [] octets.now) }
    ensures none { IfNone result ((ns : List ℕ) → octets.now ≡ flat_map septets ns → ⊥) }
{
    if are_single(octets) {
        return Some((octets.len(), true));
    }
    let mut rest = octets;
    let mut count = 0;
    let mut small = true;
    while !rest.is_empty() {
        let Some((number, following)) = read_arc(rest) else {
            return None;
        };
        small = stays_small(small, number);
        count += 1;
        rest = following;
    }
    Some((count, small))
}

/// Checks that octets are those of an OBJECT IDENTIFIER, whose first two numbers are encoded as one (8.19.4).
pub(crate) fn judge_object_identifier(octets: &[u8]) -> Result<(), LeafFault>
    ensures ok { IfOk result
        (λ u. (ns : List ℕ) × IsObjectIdentifier ns × (octets.now ≡ flat_map septets (joined ns))) }
    ensures err { IfErr result (λ e. IsRightFault e ObjectIdentifier octets.now) }
{
    let Some((first, others)) = read_arc(octets) else {
        return Err(LeafFault::BadContents);
    };
    let Some((count, small)) = count_arcs(others) else {
        return Err(LeafFault::BadContents);
    };
    if !is_first(first) {
        return Err(LeafFault::OidLimit);
    }
    if !small {
        return Err(LeafFault::OidLimit);
    }
    if count > 62 {
        return Err(LeafFault::OidLimit);
    }
    Ok(())
}

/// Whether the number may be the first one, which encodes the first two numbers of the value.
#[inline(always)]
fn is_first(number: Option<u128>) -> bool
    ensures { (n : ℕ) → IsArcOf number n → IsTrue result ↔ (n < 18446744073709551696) }
{
    match number {
        Some(number) => number < 18_446_744_073_709_551_696,
        None => false,
    }
}

/// Checks that octets are those of a RELATIVE-OID.
pub(crate) fn judge_relative_oid(octets: &[u8]) -> Result<(), LeafFault>
    ensures ok { IfOk result (λ u. (ns : List ℕ) × IsRelativeOid ns × (octets.now ≡ flat_map septets ns)) }
    ensures err { IfErr result (λ e. IsRightFault e RelativeOid octets.now) }
{
    let Some((count, small)) = count_arcs(octets) else {
        return Err(LeafFault::BadContents);
    };
    if count == 0 {
        return Err(LeafFault::BadContents);
    }
    if !small {
        return Err(LeafFault::OidLimit);
    }
    if count > MAX_ARCS {
        return Err(LeafFault::OidLimit);
    }
    Ok(())
}
