//! Values without other values in them, of all kinds.

ghost use Rattle.asn_base.specs.Abstract.{abstract};
ghost use Rattle.asn_base.specs.Schemas.{IsSound};
ghost use Rattle.asn_base.specs.Seen.{kind_of};
ghost use Rattle.asn_base.specs.Typed.{IsPrimitive};
ghost use Rattle.asn_base.specs.Types.{Resolved, a_boolean};
ghost use Rattle.packed_encodings.specs.Computed.{leaf_bits};
ghost use Rattle.std.specs.Prelude.{◌≡◌, ◌++◌, List, OnOk};

use crate::bit_string::{push_bit_string, push_named_bits};
use crate::item::push_enumerated;
use crate::number::push_integer;
use crate::octets::{push_object_identifier, push_octet_string, push_relative_oid, push_utf8};
use crate::text::push_text;
use crate::value::truth;
use asn_base::schema::Core;
use asn_base::value::Value;
use bits::buffer::BitBuf;
use std::alloc::{AllocError, Global};

/// Adds the bits of a value without other values in it (X.691, 12 to 14, 16 to 18, 24, 25 and 30). `AllocError` only if
/// an allocation fails.
pub fn push_leaf(
    alloc: Global,
    out: &mut BitBuf,
    core: &Core,
    value: &Value,
) -> Result<(), AllocError>
    // The kind is that of a type in some schema.
    requires sound { (s : List Resolved) × IsSound s (kind_of core.now) }
    requires fits { IsPrimitive (kind_of core.now) (abstract value.now) }
    ensures { OnOk result (out.new ≡ out.old ++ leaf_bits (kind_of core.now) (abstract value.now)) }
{
    match core {
        Core::Boolean => push_boolean(out, value),
        Core::Integer(constraint) => push_integer(alloc, out, constraint, value),
        Core::Enumerated(items) => push_enumerated(out, items, value),
        Core::BitString(size) => push_bit_string(out, size, value),
        Core::NamedBits(names) => push_named_bits(alloc, out, names.as_slice(), value),
        Core::OctetString(size) => push_octet_string(out, size, value),
        Core::Null => Ok(()),
        Core::ObjectIdentifier => push_object_identifier(alloc, out, value),
        Core::RelativeOid => push_relative_oid(alloc, out, value),
        Core::Utf8String(size) => push_utf8(out, size, value),
        Core::RestrictedString(kind, codes, size) => push_text(
            out,
            *kind,
            codes.as_slice(),
            size,
            value,
        ),
        Core::Sequence(_, _) | Core::Set(_, _) => unreachable!(),
        Core::SequenceOf(_, _) | Core::SetOf(_, _) | Core::Choice(_) => unreachable!(),
    }
}

/// Adds the value of a BOOLEAN, which is one bit (12.1).
fn push_boolean(out: &mut BitBuf, value: &Value) -> Result<(), AllocError>
    requires { IsPrimitive a_boolean (abstract value.now) }
    ensures { OnOk result (out.new ≡ out.old ++ leaf_bits a_boolean (abstract value.now)) }
{
    out.push(truth(value))
}
