//! The characters of UTF8String and of the four restricted strings (X.690, 8.23).

ghost use Rattle.asn_base.specs.Schemas.{is_character};
ghost use Rattle.asn_base.specs.declared.strings.StringKind.TheVariants.{Printable};
ghost use Rattle.std.specs.List.{AllByRecursion};
ghost use Rattle.std.specs.Prelude.{◌≡◌, ◌↔◌, IfNone, IfSome, IsTrue, IsUtf8};

use asn_base::strings::StringKind;

/// The text of octets, or None if they are not UTF-8.
pub(crate) fn read_utf8(octets: &[u8]) -> Option<&str>
    ensures some { IfSome result (λ s. (s.now ≡ octets.now) × IsUtf8 octets.now) }
    ensures none { IfNone result (IsUtf8 octets.now → ⊥) }
{
    match simdutf8::compat::from_utf8(octets) {
        Ok(text) => Some(text),
        Err(_) => None,
    }
}

/// The text of octets, or None if one of them is no character of the type.
pub(crate) fn read_restricted(kind: StringKind, octets: &[u8]) -> Option<&str>
    ensures some { IfSome result
        (λ s. (s.now ≡ octets.now) × AllByRecursion (λ c. IsTrue (is_character kind c)) octets.now) }
    ensures none { IfNone result (AllByRecursion (λ c. IsTrue (is_character kind c)) octets.now → ⊥) }
{
    if !are_characters(kind, octets) {
        return None;
    }
    match read_utf8(octets) {
        Some(text) => Some(text),
        None => None,
    }
}

/// Whether each octet is a character of the type.
fn are_characters(kind: StringKind, octets: &[u8]) -> bool
    ensures { IsTrue result ↔ AllByRecursion (λ c. IsTrue (is_character kind c)) octets.now }
{
    for i in 0..octets.len() {
        if !is_one(kind, octets[i]) {
            return false;
        }
    }
    true
}

/// Whether the octet is a character of the type (X.680, 41).
fn is_one(kind: StringKind, octet: u8) -> bool
    ensures { result ≡ is_character kind octet }
{
    match kind {
        StringKind::Numeric => octet.is_ascii_digit() || octet == 32,
        StringKind::Printable => is_printable(octet),
        StringKind::Ia5 => octet.is_ascii(),
        StringKind::Visible => octet.is_ascii_graphic() || octet == 32,
    }
}

/// Whether the octet is a character of PrintableString.
fn is_printable(octet: u8) -> bool
    ensures { result ≡ is_character Printable octet }
{
    octet.is_ascii_alphanumeric()
        || octet == 32
        || octet == 39
        || octet == 40
        || octet == 41
        || octet == 43
        || octet == 44
        || octet == 45
        || octet == 46
        || octet == 47
        || octet == 58
        || octet == 61
        || octet == 63
}
