//! Eight octets as one number.

ghost use Rattle.std.specs.Int.Digits.{AllBelowBase};
ghost use Rattle.std.specs.Prelude.{◌≡◌, ◌<◌, slice_index};
ghost use Rattle.der_layout.specs.proving.Words.{pair_in, word};

/// The octet at a place, or 0 past the end.
#[inline(always)]
fn octet_at(octets: &[u8], i: usize) -> u8
    ensures { result ≡ slice_index octets.now i }
{
    if i < octets.len() { octets[i] } else { 0 }
}

/// The octet at a place and the one after it as one number.
#[inline(always)]
fn pair_at(octets: &[u8], at: usize) -> u64
    requires { at < 8 }
    ensures is { result ≡ pair_in octets.now at }
    ensures few { result < 65536 }
{
    256 * octet_at(octets, at) as u64 + octet_at(octets, at + 1) as u64
}

/// The first eight octets as one number, the first octet the highest, with zeros in place of octets that are missing.
#[inline(always)]
pub(crate) fn first_word(octets: &[u8]) -> u64
    ensures below { AllBelowBase 256 octets.now }
    ensures is { result ≡ word octets.now }
{
    let high = 65536 * pair_at(octets, 0) + pair_at(octets, 2);
    let low = 65536 * pair_at(octets, 4) + pair_at(octets, 6);
    4294967296 * high + low
}
