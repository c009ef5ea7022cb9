//! Few contents octets, which are passed without memory.

ghost use Rattle.encodings.specs.Contents.{Number};
ghost use Rattle.encodings.specs.proving.TwosComplement.{complement};
ghost use Rattle.primitive_writer.specs.Pieces.{short_octets};
ghost use Rattle.std.specs.Prelude.{◌≡◌, ◌<◌, ◌≤◌, ◌∷◌, ◌^◌, [], IfSome, length, map, pos};

/// One to four contents octets, in order.
#[derive(Clone, Copy)]
pub enum ShortContents {
    One(u8),
    Two(u8, u8),
    Three(u8, u8, u8),
    Four(u8, u8, u8, u8),
}

/// How many octets these are: 1 to 4.
#[inline(always)]
pub fn short_len(octets: ShortContents) -> u8
    ensures count { result ≡ length (short_octets octets) }
    ensures few { result ≤ 4 }
{
    match octets {
        ShortContents::One(_) => 1,
        ShortContents::Two(_, _) => 2,
        ShortContents::Three(_, _, _) => 3,
        ShortContents::Four(_, _, _, _) => 4,
    }
}

/// The fewest octets for a number from 128 to 32,767.
#[inline(always)]
fn two_octets(number: u32) -> ShortContents
    requires least { 128 ≤ number }
    requires most { number < 32768 }
    ensures { Number (pos number) (short_octets result) }
{
    ShortContents::Two((number / 256) as u8, (number % 256) as u8)
}

/// The fewest octets for a number from 32,768 to 8,388,607.
#[inline(always)]
fn three_octets(number: u32) -> ShortContents
    requires least { 32768 ≤ number }
    requires most { number < 8388608 }
    ensures { Number (pos number) (short_octets result) }
{
    ShortContents::Three(
        (number / 65536) as u8,
        (number / 256 % 256) as u8,
        (number % 256) as u8,
    )
}

/// The fewest octets for a number from 8,388,608 to 2,147,483,647.
#[inline(always)]
fn four_octets(number: u32) -> ShortContents
    requires least { 8388608 ≤ number }
    requires most { number < 2147483648 }
    ensures { Number (pos number) (short_octets result) }
{
    ShortContents::Four(
        (number / 16777216) as u8,
        (number / 65536 % 256) as u8,
        (number / 256 % 256) as u8,
        (number % 256) as u8,
    )
}

/// The fewest octets for a number below 2^31 that isn't negative.
#[inline(always)]
#[tactic(auto, using(crate::proofs::TwosComplement::one_number))]
fn few_octets(number: u32) -> ShortContents
    requires { number < 2147483648 }
    ensures { Number (pos number) (short_octets result) }
{
    if number < 128 {
        ShortContents::One(number as u8)
    } else if number < 32768 {
        two_octets(number)
    } else if number < 8388608 {
        three_octets(number)
    } else {
        four_octets(number)
    }
}

/// Each octet subtracted from 255.
#[inline(always)]
fn turned_short(octets: ShortContents) -> ShortContents
    ensures { short_octets result ≡ map complement (short_octets octets) }
{
    match octets {
        ShortContents::One(a) => ShortContents::One(255 - a),
        ShortContents::Two(a, b) => ShortContents::Two(255 - a, 255 - b),
        ShortContents::Three(a, b, c) => ShortContents::Three(255 - a, 255 - b, 255 - c),
        ShortContents::Four(a, b, c, d) => ShortContents::Four(255 - a, 255 - b, 255 - c, 255 - d),
    }
}

/// The fewest octets for a number that isn't negative (8.3.2), or None if it needs more than four.
#[inline(always)]
fn short_unsigned(number: u128) -> Option<ShortContents>
    ensures { IfSome result (λ s. Number (pos number) (short_octets s)) }
{
    if number < 2147483648 {
        Some(few_octets(number as u32))
    } else {
        None
    }
}

/// The fewest octets for the number in two's complement (8.3.2), or None if it needs more than four.
#[inline(always)]
pub(crate) fn short_number(number: i128) -> Option<ShortContents>
    ensures { IfSome result (λ s. Number number (short_octets s)) }
{
    if number < 0 {
        match short_unsigned((-1 - number) as u128) {
            Some(octets) => Some(turned_short(octets)),
            None => None,
        }
    } else {
        short_unsigned(number as u128)
    }
}
