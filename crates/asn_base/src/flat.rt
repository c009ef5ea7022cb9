//! Values that hold no others, compared.

ghost use Rattle.asn_base.specs.Abstract.{abstract};
ghost use Rattle.asn_base.specs.Decided.{IsFlat};
ghost use Rattle.asn_base.specs.Same.{AlikeBy};
ghost use Rattle.asn_base.specs.Seen.{kind_of};
ghost use Rattle.asn_base.specs.Typed.{IsPrimitive};
ghost use Rattle.asn_base.specs.Types.{Resolved};
ghost use Rattle.std.specs.Prelude.{◌≡◌, ◌↔◌, IsTrue, List};

use crate::bits::{are_alike_bits, are_equal_bits};
use crate::law::lemma_abstract_values;
use crate::schema::Core;
use crate::value::Value;

/// Whether two values that hold no others are equal. A value that holds others is equal to none here.
pub(crate) fn are_equal(first: &Value, second: &Value) -> bool
    ensures { IsFlat (abstract first.now) → (IsTrue result ↔ (abstract first.now ≡ abstract second.now)) }
{
    lemma_abstract_values();
    match first {
        Value::Bool(one) => match second {
            Value::Bool(other) => one == other,
            _ => false,
        },
        Value::Int(one) => match second {
            Value::Int(other) => one == other,
            _ => false,
        },
        Value::Enum(one) => match second {
            Value::Enum(other) => one == other,
            _ => false,
        },
        Value::Bits(one) => match second {
            Value::Bits(other) => are_equal_bits(one, other),
            _ => false,
        },
        Value::Octets(one) => match second {
            Value::Octets(other) => one.as_slice() == other.as_slice(),
            _ => false,
        },
        Value::Text(one) => match second {
            Value::Text(other) => one.as_bytes() == other.as_bytes(),
            _ => false,
        },
        Value::Null => match second {
            Value::Null => true,
            _ => false,
        },
        Value::Oid(one) => match second {
            Value::Oid(other) => one.as_slice() == other.as_slice(),
            _ => false,
        },
        Value::RelativeOid(one) => match second {
            Value::RelativeOid(other) => one.as_slice() == other.as_slice(),
            _ => false,
        },
        Value::Fields(_) | Value::List(_) | Value::Alt(_, _) => false,
    }
}

/// Whether two values of a kind that holds no others are alike.
pub(crate) fn are_alike_leaves(core: &Core, first: &Value, second: &Value) -> bool
    ensures { (s : List Resolved)
        → IsPrimitive (kind_of core.now) (abstract first.now)
        → IsPrimitive (kind_of core.now) (abstract second.now)
        → (IsTrue result ↔ AlikeBy s (kind_of core.now) (abstract first.now) (abstract second.now)) }
{
    lemma_abstract_values();
    match core {
        Core::NamedBits(_) => match first {
            Value::Bits(one) => match second {
                Value::Bits(other) => are_alike_bits(one, other),
                _ => false,
            },
            _ => false,
        },
        _ => are_equal(first, second),
    }
}
