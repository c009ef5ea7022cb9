//! Names of components, alternatives, items and bits (X.680, 12.3).

ghost use Rattle.std.specs.Prelude.{◌≡◌, false};
ghost use Rattle.asn_base.specs.Names.{goes_on, is_identifier as is_name};
ghost use Rattle.asn_base.specs.proving.Listing.{next_flag};

/// Whether the octet is a hyphen, if it can follow in a name. `after_hyphen` says whether it comes after a hyphen.
fn next_flag(after_hyphen: bool, octet: u8) -> Option<bool>
    ensures { result ≡ next_flag after_hyphen octet }
{
    if octet == b'-' && !after_hyphen {
        return Some(true);
    }
    if octet.is_ascii_alphanumeric() {
        return Some(false);
    }
    None
}

/// Whether the octets can continue a name: letters, digits and single hyphens, of which none is last.
fn goes_on(octets: &[u8]) -> bool
    ensures { result ≡ goes_on false octets.now }
{
    let mut after_hyphen = false;
    for i in 0..octets.len() {
        match next_flag(after_hyphen, octets[i]) {
            Some(hyphen) => after_hyphen = hyphen,
            None => return false,
        }
    }
    !after_hyphen
}

/// Whether the name is an identifier: a small letter, then letters, digits and single hyphens, of which none is last.
pub fn is_identifier(name: &str) -> bool
    ensures { result ≡ is_name name.now }
{
    let octets = name.as_bytes();
    if octets.is_empty() {
        return false;
    }
    octets[0].is_ascii_lowercase() && goes_on(&octets[1..])
}
