//! Numbers in octets of eight and of seven bits, the most significant first.

ghost use Rattle.encodings.specs.Header.{septets};
ghost use Rattle.std.specs.Int.Digits.{digits_of};
ghost use Rattle.std.specs.Prelude.{◌≡◌, ◌+◌, ◌≤◌, ◌++◌, IfOk, OnOk, length, map};

use crate::header_fault::Fault;
use std::alloc::{AllocError, Global};

/// The octets of a number, the most significant first, and none for 0.
pub fn octets_of(alloc: Global, number: u128) -> Result<Vec<u8>, Fault>
    ensures { IfOk result (λ o. o.items ≡ digits_of 256 number) }
{
    let mut out = Vec::new(alloc);
    push_octets(&mut out, number)?;
    Ok(out)
}

/// Adds the octets of a number, the most significant first, and none for 0. An `Err` may have added some.
#[tactic(auto, using(crate::proofs::DigitSteps::step_256))]
pub fn push_octets(out: &mut Vec<u8>, number: u128) -> Result<(), AllocError>
    ensures { OnOk result (out.new.items ≡ out.old.items ++ digits_of 256 number) }
{
    if number == 0 {
        return Ok(());
    }
    push_octets(out, number / 256)?;
    out.push((number % 256) as u8)?;
    Ok(())
}

/// How many octets a number has, none for 0.
#[tactic(auto, using(crate::proofs::DigitSteps::count_step, crate::proofs::DigitSteps::count_most))]
pub fn octet_count(number: u64) -> usize
    ensures count { result ≡ length (digits_of 256 number) }
    ensures most { result ≤ 8 }
{
    if number == 0 {
        0
    } else {
        octet_count(number / 256) + 1
    }
}

/// Adds a number's digits in base 128, the most significant first, each with the top bit set, and none for 0.
#[tactic(auto, using(crate::proofs::DigitSteps::step_128))]
pub fn push_high_septets(out: &mut Vec<u8>, number: u32) -> Result<(), AllocError>
    ensures { OnOk result (out.new.items ≡ out.old.items ++ map (λ d. 128 + d) (digits_of 128 number)) }
{
    if number == 0 {
        return Ok(());
    }
    push_high_septets(out, number / 128)?;
    out.push((number % 128) as u8 + 128)?;
    Ok(())
}

/// How many septets a number takes.
#[tactic(auto, using(crate::proofs::Lengths::septets_short, crate::proofs::Lengths::septets_step, crate::proofs::Lengths::septets_most))]
pub fn septet_count(number: u32) -> usize
    ensures count { result ≡ length (septets number) }
    ensures most { result ≤ 5 }
{
    if number < 128 {
        1
    } else {
        septet_count(number / 128) + 1
    }
}
