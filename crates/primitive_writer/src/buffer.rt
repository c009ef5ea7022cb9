//! The octets of numbers, in a small buffer that takes no memory.

ghost use Rattle.encodings.specs.Header.{septets};
ghost use Rattle.std.specs.Int.Digits.{digits_of};
ghost use Rattle.std.specs.Prelude.{◌≡◌, ◌+◌, ◌-◌, ◌≤◌, ◌++◌, length, map};

use arrayvec::ArrayVec;

/// A list of at most 24 octets that is stored in place.
pub type Buffer = ArrayVec<u8, 24>;

/// Adds the digits of a number in base 256, the most significant one first. There are no digits for 0. The buffer must
/// have room for them.
#[tactic(auto, using(crate::proofs::Digits::step_256, crate::proofs::Digits::room_256))]
pub fn push_digits(out: &mut ArrayVec<u8, 24>, number: u128)
    requires { length out.old.items + length (digits_of 256 number) ≤ 24 }
    ensures { out.new.items ≡ out.old.items ++ digits_of 256 number }
{
    if number == 0 {
        return;
    }
    push_digits(out, number / 256);
    out.push((number % 256) as u8);
}

/// Adds the digits of a number in base 128, the most significant one first, each with the top bit set. There are no
/// digits for 0.
#[tactic(auto, using(crate::proofs::Digits::step_128, crate::proofs::Digits::room_128))]
fn push_high_septets(out: &mut ArrayVec<u8, 24>, number: u128)
    requires { length out.old.items + length (digits_of 128 number) ≤ 24 }
    ensures { out.new.items ≡ out.old.items ++ map (λ d. 128 + d) (digits_of 128 number) }
{
    if number == 0 {
        return;
    }
    push_high_septets(out, number / 128);
    out.push((number % 128) as u8 + 128);
}

/// Adds a number in septets, the most significant one first. The top bit is set in all but the last one (X.690,
/// 8.1.2.4.2 and 8.19.2). The buffer must have room for them.
#[tactic(auto, using(crate::proofs::Digits::room_septets, crate::proofs::Digits::length_high))]
pub fn push_septets(out: &mut ArrayVec<u8, 24>, number: u128)
    requires { length out.old.items + length (septets number) ≤ 24 }
    ensures { out.new.items ≡ out.old.items ++ septets number }
{
    push_high_septets(out, number / 128);
    out.push((number % 128) as u8);
}

/// Each octet subtracted from 255.
pub(crate) fn turned(octets: &[u8]) -> ArrayVec<u8, 24>
    requires { length octets.now ≤ 24 }
    ensures { result.items ≡ map (λ d. 255 - d) octets.now }
{
    let mut out = ArrayVec::new();
    for i in 0..octets.len() {
        out.push(255 - octets[i]);
    }
    out
}
