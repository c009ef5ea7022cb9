//! The numbers of OBJECT IDENTIFIER and RELATIVE-OID (X.690, 8.19 and 8.20).

ghost use Rattle.asn_base.specs.Typed.{IsObjectIdentifier, IsRelativeOid};
ghost use Rattle.encodings.specs.Contents.{joined};
ghost use Rattle.encodings.specs.Header.{septets};
ghost use Rattle.primitive_writer.specs.Pieces.{joined_pieces};
ghost use Rattle.std.specs.Prelude.{◌≡◌, flat_map};

use crate::leaf::PrimitiveContents;

/// The contents octets of an OBJECT IDENTIFIER, which encode its first two numbers as one (8.19.4).
pub(crate) fn object_identifier(numbers: &[u64]) -> PrimitiveContents<'_>
    requires { IsObjectIdentifier numbers.now }
    ensures { joined_pieces result ≡ flat_map septets (joined numbers.now) }
{
    let first = 40 * numbers[0] as u128 + numbers[1] as u128;
    PrimitiveContents::Arcs(first, &numbers[2..])
}

/// The contents octets of a RELATIVE-OID.
pub(crate) fn relative_oid(numbers: &[u64]) -> PrimitiveContents<'_>
    requires { IsRelativeOid numbers.now }
    ensures { joined_pieces result ≡ flat_map septets numbers.now }
{
    PrimitiveContents::Arcs(numbers[0] as u128, &numbers[1..])
}
