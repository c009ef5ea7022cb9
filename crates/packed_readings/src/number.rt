//! Numbers as octets (X.691, 11.3 and 11.4).

ghost use Rattle.packed_readings.specs.Leaves.{signed_number, unsigned_number};
ghost use Rattle.packed_readings.specs.Outcome.{bad, good};
ghost use Rattle.packed_readings.specs.proving.Numbers.{HasZeroFirst, limited};
ghost use Rattle.std.specs.Int.Digits.{number_from_digits_after};
ghost use Rattle.std.specs.Prelude.{◌≡◌, ◌<◌, ◌≤◌, ◌^◌, ◌↔◌, IfErr, IfNone, IfOk, IfSome, IsTrue, ℕ};

use crate::character::are_octets;
use decode_faults::Refusal;
use encodings::LeafKind;
use primitive_reader::{Leaf, LeafFault, read_leaf, worth};

/// The number that octets encode in two's complement, if no fewer octets are enough. `Outside`: there are no octets.
/// `NotCanonical`: fewer are enough. `IntegerLimit`: the number is outside the range from -2^127 to 2^127 - 1.
pub(crate) fn signed(octets: &[u8]) -> Result<i128, Refusal>
    ensures ok { IfOk result (λ z. limited (signed_number octets.now) ≡ good z) }
    ensures err { IfErr result (λ e. limited (signed_number octets.now) ≡ bad e) }
{
    if octets.is_empty() {
        return Err(Refusal::Outside);
    }
    are_octets(octets);
    match read_leaf(LeafKind::Integer, octets) {
        Ok(Leaf::Int(number)) => Ok(number),
        Ok(Leaf::Bool(_) | Leaf::Enum(_) | Leaf::Bits(_, _) | Leaf::Octets(_)) => Err(
            Refusal::NotCanonical,
        ),
        Ok(Leaf::Text(_) | Leaf::Null | Leaf::Oid(_) | Leaf::RelativeOid(_)) => Err(
            Refusal::NotCanonical,
        ),
        Err(LeafFault::IntegerLimit) => Err(Refusal::IntegerLimit),
        Err(LeafFault::BadContents) => Err(Refusal::NotCanonical),
        Err(LeafFault::OidLimit) => Err(Refusal::NotCanonical),
    }
}

/// Whether the first octet is 0 and others follow.
fn has_zero_first(octets: &[u8]) -> bool
    ensures { IsTrue result ↔ HasZeroFirst octets.now }
{
    let Some((first, others)) = octets.split_first() else {
        return false;
    };
    if others.len() == 0 {
        return false;
    }
    *first == 0
}

/// The number without a sign that octets encode, if no fewer octets are enough; None if it is 2^128 or greater.
/// `Outside`: there are no octets. `NotCanonical`: fewer are enough.
pub(crate) fn unsigned(octets: &[u8]) -> Result<Option<u128>, Refusal>
    ensures some { IfOk result (λ o. IfSome o (λ n. unsigned_number octets.now ≡ good n)) }
    ensures none { IfOk result (λ o. IfNone o ((n : ℕ) × (2 ^ 128 ≤ n) × (unsigned_number octets.now ≡ good n))) }
    ensures err { IfErr result (λ e. unsigned_number octets.now ≡ bad e) }
{
    if octets.is_empty() {
        return Err(Refusal::Outside);
    }
    if has_zero_first(octets) {
        return Err(Refusal::NotCanonical);
    }
    are_octets(octets);
    if octets.len() > 16 {
        return Ok(None);
    }
    Ok(Some(worth(octets, 0)))
}
