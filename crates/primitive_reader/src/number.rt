//! The octets of INTEGER and ENUMERATED (X.690, 8.3 and 8.4).

ghost use Rattle.primitive_reader.specs.proving.Numbers.{IsNone, IsNumber, IsShort, turned_after};
ghost use Rattle.std.specs.Int.Digits.{AllBelowBase, number_from_digits_after};
ghost use Rattle.std.specs.Prelude.{◌≡◌, ◌<◌, ◌≤◌, ◌^◌, ◌↔◌, IfErr, IfOk, IsTrue, length, negsuc, pos};

use crate::fault::LeafFault;

/// The most octets of a number within the limit.
const MOST: usize = 16;

/// The number that octets are in two's complement, in the fewest octets. `BadContents`: there are no octets, or fewer
/// are enough. `IntegerLimit`: the number is outside the range from -2^127 to 2^127 - 1.
#[inline(always)]
pub(crate) fn read_number(octets: &[u8]) -> Result<i128, LeafFault>
    ensures ok { IfOk result (λ z. IsNumber z octets.now) }
    ensures err { IfErr result (λ e. IsNone e octets.now) }
{
    if !is_shortest(octets) {
        return Err(LeafFault::BadContents);
    }
    are_octets(octets);
    if octets.len() > MOST {
        return Err(LeafFault::IntegerLimit);
    }
    Ok(number_of(octets))
}

/// Whether there are octets whose first nine bits aren't all alike (8.3.2).
#[inline(always)]
fn is_shortest(octets: &[u8]) -> bool
    ensures { IsTrue result ↔ IsShort octets.now }
{
    let Some((first, following)) = octets.split_first() else {
        return false;
    };
    let Some((second, _)) = following.split_first() else {
        return true;
    };
    if *first == 0 {
        return *second >= 128;
    }
    *first < 255 || *second < 128
}

/// The number that octets are in two's complement.
#[inline(always)]
fn number_of(octets: &[u8]) -> i128
    requires short { IsShort octets.now }
    requires few { length octets.now ≤ 16 }
    ensures { IsNumber result octets.now }
{
    are_octets(octets);
    if octets[0] < 128 {
        not_negative(whole_worth(octets))
    } else {
        negative(whole_turned(octets))
    }
}

/// The number itself, with a sign.
fn not_negative(number: u128) -> i128
    requires { number < 2 ^ 127 }
    ensures { result ≡ pos number }
{
    number as i128
}

/// The negated number, less one.
fn negative(number: u128) -> i128
    requires { number < 2 ^ 127 }
    ensures { result ≡ negsuc number }
{
    -1 - number as i128
}

/// The most octets whose number in base 256 has at most 64 bits.
const FEW: usize = 8;

/// The number that octets are in base 256. Few octets are added up in 64 bits.
#[inline(always)]
fn whole_worth(octets: &[u8]) -> u128
    requires { length octets.now ≤ 16 }
    ensures { result ≡ number_from_digits_after 256 0 octets.now }
{
    are_octets(octets);
    if octets.len() <= FEW {
        return short_worth(octets, 0) as u128;
    }
    worth(octets, 0)
}

/// The same with each bit inverted.
#[inline(always)]
fn whole_turned(octets: &[u8]) -> u128
    requires { length octets.now ≤ 16 }
    ensures { result ≡ turned_after 0 octets.now }
{
    if octets.len() <= FEW {
        return short_turned(octets, 0) as u128;
    }
    turned_worth(octets, 0)
}

/// The number that `high` and the octets after it are in base 256, if it has at most 64 bits.
#[tactic(auto, using(crate::proofs::Few::worth_fits, crate::proofs::Few::worth_small, crate::proofs::Few::worth_step, crate::proofs::Few::worth_none))]
fn short_worth(octets: &[u8], high: u64) -> u64
    requires { number_from_digits_after 256 high octets.now < 2 ^ 64 }
    ensures { result ≡ number_from_digits_after 256 high octets.now }
{
    let Some((octet, following)) = octets.split_first() else {
        return high;
    };
    short_worth(following, high * 256 + *octet as u64)
}

/// The same with each bit of the octets inverted.
#[tactic(auto, using(crate::proofs::Few::turned_fits, crate::proofs::Few::turned_small, crate::proofs::Few::turned_step, crate::proofs::Few::turned_none))]
fn short_turned(octets: &[u8], high: u64) -> u64
    requires { turned_after high octets.now < 2 ^ 64 }
    ensures { result ≡ turned_after high octets.now }
{
    let Some((octet, following)) = octets.split_first() else {
        return high;
    };
    short_turned(following, high * 256 + (255 - *octet) as u64)
}

/// The number that `high` and the octets after it are, in base 256.
#[tactic(auto, using(crate::proofs::Shortest::worth_fits, crate::proofs::Shortest::worth_small, crate::proofs::Shortest::worth_step, crate::proofs::Shortest::worth_none))]
pub fn worth(octets: &[u8], high: u128) -> u128
    requires { number_from_digits_after 256 high octets.now < 2 ^ 128 }
    ensures { result ≡ number_from_digits_after 256 high octets.now }
{
    let Some((octet, following)) = octets.split_first() else {
        return high;
    };
    worth(following, high * 256 + *octet as u128)
}

/// The number that `high` and the octets after it, each bit of these inverted, are in base 256.
#[tactic(auto, using(crate::proofs::Shortest::turned_fits, crate::proofs::Shortest::turned_small, crate::proofs::Shortest::turned_step, crate::proofs::Shortest::turned_none))]
fn turned_worth(octets: &[u8], high: u128) -> u128
    requires { turned_after high octets.now < 2 ^ 128 }
    ensures { result ≡ turned_after high octets.now }
{
    let Some((octet, following)) = octets.split_first() else {
        return high;
    };
    turned_worth(following, high * 256 + (255 - *octet) as u128)
}

/// Each item of a slice of octets is below 256.
pub(crate) fn are_octets(octets: &[u8])
    ensures { AllBelowBase 256 octets.now }
{}
