//! Whether characters are in an alphabet (X.680, 41 and 51.7).

ghost use Rattle.asn_base.specs.Names.{IsMember};
ghost use Rattle.std.specs.List.{AllByRecursion};
ghost use Rattle.std.specs.Prelude.{◌↔◌, IsTrue};

/// Whether the alphabet has the code at this place.
#[inline(always)]
fn has_code_at(alphabet: &[u8], place: usize, code: u8) -> bool
    ensures { IsTrue result → IsMember code alphabet.now }
{
    match alphabet.get(place) {
        Some(other) => *other == code,
        None => false,
    }
}

/// Whether the code is in the alphabet, if its codes ascend. If they don't, the answer may be a wrong false.
fn finds_code(alphabet: &[u8], code: u8) -> bool
    ensures { IsTrue result → IsMember code alphabet.now }
{
    let place = alphabet.partition_point(|other| *other < code);
    has_code_at(alphabet, place, code)
}

/// Whether the code is in the alphabet.
fn has_code(alphabet: &[u8], code: u8) -> bool
    ensures { IsTrue result ↔ IsMember code alphabet.now }
{
    for i in 0..alphabet.len() {
        if alphabet[i] == code {
            return true;
        }
    }
    false
}

/// Whether the code is where it would be if the alphabet had each code from its first one on. False decides nothing.
#[inline(always)]
fn is_in_row(alphabet: &[u8], code: u8) -> bool
    ensures { IsTrue result → IsMember code alphabet.now }
{
    match alphabet.first() {
        Some(first) => has_code_at(alphabet, code.saturating_sub(*first) as usize, code),
        None => false,
    }
}

/// The place of a letter, a digit or one of a few marks among all characters of PrintableString, in ascending order.
#[inline(always)]
fn printable_place(code: u8) -> usize {
    if code >= 97 {
        return (code - 49) as usize;
    }
    if code >= 65 {
        return (code - 43) as usize;
    }
    if code >= 43 {
        return (code - 39) as usize;
    }
    0
}

/// Whether the code is where all characters of PrintableString would have it. False decides nothing.
#[inline(always)]
fn is_printable_code(alphabet: &[u8], code: u8) -> bool
    ensures { IsTrue result → IsMember code alphabet.now }
{
    has_code_at(alphabet, printable_place(code), code)
}

/// Whether the code is in the alphabet, by a search. If the codes ascend, all are read only if none is the code.
fn is_found(alphabet: &[u8], code: u8) -> bool
    ensures { IsTrue result ↔ IsMember code alphabet.now }
{
    finds_code(alphabet, code) || has_code(alphabet, code)
}

/// Whether the alphabet has the character with this code. It is searched for only if it isn't at one of two likely
/// places. If the codes ascend, all of them are read only if none is the code.
#[inline(always)]
pub fn is_code(alphabet: &[u8], code: u8) -> bool
    ensures { IsTrue result ↔ IsMember code alphabet.now }
{
    is_in_row(alphabet, code) || is_printable_code(alphabet, code) || is_found(alphabet, code)
}

/// Whether the alphabet has a character with each of these codes.
pub fn are_codes(alphabet: &[u8], octets: &[u8]) -> bool
    ensures { IsTrue result ↔ AllByRecursion (λ x. IsMember x alphabet.now) octets.now }
{
    for i in 0..octets.len() {
        if !is_code(alphabet, octets[i]) {
            return false;
        }
    }
    true
}
