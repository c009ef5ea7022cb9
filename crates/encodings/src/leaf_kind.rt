//! The kinds of contents that hold no others: those of the primitive types (X.690, 8.2, 8.3 and the like).

use asn_base::strings::StringKind;

/// The kinds of contents that hold no others.
#[derive(Clone, Copy, PartialEq, Eq, Debug)]
pub enum LeafKind {
    Boolean,
    Integer,
    Enumerated,
    BitString,
    NamedBits,
    OctetString,
    Null,
    ObjectIdentifier,
    RelativeOid,
    Utf8String,
    RestrictedString(StringKind),
}
