//! Strings of octets, and contents octets (X.691, 17, 24, 25 and 30.6).

ghost use Rattle.asn_base.specs.Abstract.{abstract};
ghost use Rattle.asn_base.specs.Schemas.{AreBounds, IsSize};
ghost use Rattle.asn_base.specs.Seen.{constraint_of};
ghost use Rattle.asn_base.specs.Typed.{IsPrimitive};
ghost use Rattle.asn_base.specs.Types.{a_null, a_relative_oid, a_utf8_string, an_object_identifier, an_octet_string};
ghost use Rattle.encodings.specs.Leaves.{HasContents};
ghost use Rattle.primitive_writer.specs.Held.{HasSome};
ghost use Rattle.packed_counts.specs.Counts.{Adds};
ghost use Rattle.packed_encodings.specs.Computed.{leaf_bits};
ghost use Rattle.packed_encodings.specs.Lengths.{CountedOctets};
ghost use Rattle.packed_leaves.specs.proving.Contents.{AddsContents};
ghost use Rattle.std.specs.Int.Digits.{AllBelowBase};
ghost use Rattle.std.specs.Prelude.{◌≡◌, ◌++◌, OnOk};

use crate::value::{octets, text};
use asn_base::constraint::Constraint;
use asn_base::value::Value;
use bits::buffer::BitBuf;
use encodings::LeafKind;
use packed_counts::{push_counted_octets, push_octets, push_size};
use packed_encodings::function_laws;
use primitive_writer::{PrimitiveContents, primitive_contents, push_leaf};
use std::alloc::{AllocError, Global};

/// A law: each of the octets is below 256.
pub(crate) fn are_octets(octets: &[u8])
    ensures { AllBelowBase 256 octets.now }
{}

/// Adds octets after their number.
fn push_counted(out: &mut BitBuf, octets: &[u8]) -> Result<(), AllocError>
    ensures { OnOk result (Adds (CountedOctets octets.now) out.old out.new) }
{
    are_octets(octets);
    push_counted_octets(out, octets)
}

/// Adds the contents octets of a value (X.690, 8) after their number.
pub(crate) fn push_contents(
    alloc: Global,
    out: &mut BitBuf,
    kind: LeafKind,
    value: &Value,
) -> Result<(), AllocError>
    requires { HasSome kind (abstract value.now) }
    ensures { OnOk result (AddsContents kind (abstract value.now) out.old out.new) }
{
    match primitive_contents(kind, value) {
        Some(PrimitiveContents::One(octet)) => push_counted(out, &[octet]),
        Some(PrimitiveContents::Few(octets)) => push_counted(out, octets.as_slice()),
        Some(PrimitiveContents::Whole(octets)) => push_counted(out, octets),
        Some(PrimitiveContents::Bits(_, _, _)) => push_collected(alloc, out, kind, value),
        Some(PrimitiveContents::Arcs(_, _)) => push_collected(alloc, out, kind, value),
        None => unreachable!(),
    }
}

/// Adds the same contents octets, which are first collected in a list.
fn push_collected(
    alloc: Global,
    out: &mut BitBuf,
    kind: LeafKind,
    value: &Value,
) -> Result<(), AllocError>
    requires { HasSome kind (abstract value.now) }
    ensures { OnOk result (AddsContents kind (abstract value.now) out.old out.new) }
{
    let mut octets = Vec::new(alloc);
    push_leaf(kind, value, &mut octets)?;
    push_counted(out, octets.as_slice())
}

/// Adds the octets of an OCTET STRING after their number, by the bounds of SIZE (17.3 to 17.8).
pub(crate) fn push_octet_string(
    out: &mut BitBuf,
    size: &Constraint,
    value: &Value,
) -> Result<(), AllocError>
    requires bounds { AreBounds IsSize (constraint_of size.now) }
    requires fits { IsPrimitive (an_octet_string (constraint_of size.now)) (abstract value.now) }
    ensures { OnOk result (out.new ≡ out.old
        ++ leaf_bits (an_octet_string (constraint_of size.now)) (abstract value.now)) }
{
    function_laws();
    let octets = octets(value);
    let once = push_size(out, &size.visible, octets.len())?;
    if once {
        push_octets(out, octets)?;
        Ok(())
    } else {
        push_counted_octets(out, octets)?;
        Ok(())
    }
}

/// Adds the octets of a UTF8String after their number. Its SIZE makes no difference (30.6).
pub(crate) fn push_utf8(
    out: &mut BitBuf,
    size: &Constraint,
    value: &Value,
) -> Result<(), AllocError>
    requires { IsPrimitive (a_utf8_string (constraint_of size.now)) (abstract value.now) }
    ensures { OnOk result (out.new ≡ out.old
        ++ leaf_bits (a_utf8_string (constraint_of size.now)) (abstract value.now)) }
{
    function_laws();
    push_counted_octets(out, text(value))?;
    Ok(())
}

/// Adds the contents octets of an OBJECT IDENTIFIER after their number (24).
pub(crate) fn push_object_identifier(
    alloc: Global,
    out: &mut BitBuf,
    value: &Value,
) -> Result<(), AllocError>
    requires { IsPrimitive an_object_identifier (abstract value.now) }
    ensures { OnOk result (out.new ≡ out.old ++ leaf_bits an_object_identifier (abstract value.now)) }
{
    function_laws();
    push_contents(alloc, out, LeafKind::ObjectIdentifier, value)?;
    Ok(())
}

/// Adds the contents octets of a RELATIVE-OID after their number (25).
pub(crate) fn push_relative_oid(
    alloc: Global,
    out: &mut BitBuf,
    value: &Value,
) -> Result<(), AllocError>
    requires { IsPrimitive a_relative_oid (abstract value.now) }
    ensures { OnOk result (out.new ≡ out.old ++ leaf_bits a_relative_oid (abstract value.now)) }
{
    function_laws();
    push_contents(alloc, out, LeafKind::RelativeOid, value)?;
    Ok(())
}
