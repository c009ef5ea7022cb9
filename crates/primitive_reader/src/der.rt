//! Whether contents octets fulfil the distinguished rules (X.690, 11.1 and 11.2).

ghost use Rattle.asn_base.specs.Abstract.{AbstractValue, bits_of_octet};
ghost use Rattle.encodings.specs.Leaves.{plain};
ghost use Rattle.encodings.specs.Contents.{Contents, EndsInOne, FilledWithZeros};
ghost use Rattle.encodings.specs.Rules.{Basic, Distinguished};
ghost use Rattle.encodings.specs.Strings.{WholeBits};
ghost use Rattle.primitive_reader.specs.proving.Zeros.{IsTruth, low_bits, one_bit};
ghost use Rattle.std.specs.Prelude.{◌≡◌, ◌<◌, ◌↔◌, Bool, IsTrue, List, false, replicate, true};

use encodings::LeafKind;

/// Whether primitive contents octets of this kind, which are valid by the basic rules, fulfil the distinguished ones
/// too. All bits of TRUE are set (11.1), the unused bits of a BIT STRING are zeros (11.2.1), and named bits end in a
/// one (11.2.2). The call takes no memory.
pub fn is_distinguished(kind: LeafKind, contents: &[u8]) -> bool
    ensures { (v : AbstractValue) → Contents Basic (plain kind) v false contents.now
        → IsTrue result ↔ Contents Distinguished (plain kind) v false contents.now }
{
    match kind {
        LeafKind::Boolean => is_truth(contents),
        LeafKind::BitString => is_filled(contents),
        LeafKind::NamedBits => is_trimmed(contents),
        LeafKind::Integer => true,
        LeafKind::Enumerated => true,
        LeafKind::OctetString => true,
        LeafKind::Null => true,
        LeafKind::ObjectIdentifier => true,
        LeafKind::RelativeOid => true,
        LeafKind::Utf8String => true,
        LeafKind::RestrictedString(_) => true,
    }
}

/// Whether the octet has all bits set, or none.
fn is_truth(contents: &[u8]) -> bool
    ensures { IsTrue result ↔ IsTruth contents.now }
{
    match contents.split_first() {
        Some((octet, _)) => *octet == 0 || *octet == 255,
        None => false,
    }
}

/// Whether the unused bits are zeros.
fn is_filled(contents: &[u8]) -> bool
    ensures { (s : List Bool) → WholeBits s contents.now → IsTrue result ↔ FilledWithZeros s contents.now }
{
    let Some((unused, octets)) = contents.split_first() else {
        return false;
    };
    if *unused > 7 {
        return false;
    }
    match octets.split_last() {
        Some((last, _)) => has_zeros(*last, *unused),
        None => true,
    }
}

/// Whether the bits end in a one, or there are none.
fn ends_in_one(contents: &[u8]) -> bool
    ensures { (s : List Bool) → WholeBits s contents.now → IsTrue result ↔ EndsInOne s }
{
    let Some((unused, octets)) = contents.split_first() else {
        return false;
    };
    if *unused > 7 {
        return false;
    }
    match octets.split_last() {
        Some((last, _)) => has_one(*last, *unused),
        None => true,
    }
}

/// Whether the unused bits are zeros, and the bits end in a one or there are none.
fn is_trimmed(contents: &[u8]) -> bool
    ensures { (s : List Bool) → WholeBits s contents.now
        → IsTrue result ↔ (FilledWithZeros s contents.now × EndsInOne s) }
{
    is_filled(contents) && ends_in_one(contents)
}

/// Whether the last `count` bits of the octet are zeros.
fn has_zeros(octet: u8, count: u8) -> bool
    requires { count < 8 }
    ensures { IsTrue result ↔ (low_bits count octet ≡ replicate count false) }
{
    match count {
        0 => true,
        1 => octet % 2 == 0,
        2 => octet % 4 == 0,
        3 => octet % 8 == 0,
        4 => octet % 16 == 0,
        5 => octet % 32 == 0,
        6 => octet % 64 == 0,
        _ => octet % 128 == 0,
    }
}

/// Whether the bit before the last `count` bits of the octet is a one.
fn has_one(octet: u8, count: u8) -> bool
    requires { count < 8 }
    ensures { IsTrue result ↔ (one_bit count octet ≡ true) }
{
    match count {
        0 => octet % 2 == 1,
        1 => octet / 2 % 2 == 1,
        2 => octet / 4 % 2 == 1,
        3 => octet / 8 % 2 == 1,
        4 => octet / 16 % 2 == 1,
        5 => octet / 32 % 2 == 1,
        6 => octet / 64 % 2 == 1,
        _ => octet / 128 == 1,
    }
}
