//! Values of the kinds that hold no others, with a limit on the octets of character strings.

ghost use Rattle.asn_base.specs.Abstract.{abstract};
ghost use Rattle.asn_base.specs.Schemas.{IsSound};
ghost use Rattle.asn_base.specs.Seen.{kind_of};
ghost use Rattle.asn_base.specs.Types.{Resolved};
ghost use Rattle.bits.specs.Left.{bits_left};
ghost use Rattle.packed_encodings.specs.Weights.{characters};
ghost use Rattle.packed_readings.specs.Leaves.{leaf_within};
ghost use Rattle.packed_readings.specs.Outcome.{IsFault, found, stops};
ghost use Rattle.std.specs.Prelude.{◌≡◌, ◌≤◌, IfErr, IfOk, List, OnOk};

use crate::free::count_characters;
use crate::leaf::read_any_leaf;
use crate::refusal::PackedFault;
use asn_base::law::lemma_abstract_values;
use asn_base::schema::Core;
use asn_base::value::Value;
use bits::cursor::Bits;
use decode_faults::Refusal;
use std::alloc::Global;

/// The number of octets of a character string, and 0 for any other value.
#[inline(always)]
pub fn characters(value: &Value) -> usize
    ensures { result ≡ characters (abstract value.now) }
{
    lemma_abstract_values();
    match value {
        Value::Text(text) => text.len(),
        Value::Bool(_) | Value::Int(_) | Value::Enum(_) | Value::Bits(_) => 0,
        Value::Octets(_) | Value::Null | Value::Oid(_) | Value::RelativeOid(_) => 0,
        Value::Fields(_) | Value::List(_) | Value::Alt(_, _) => 0,
    }
}

/// Refuses a string of an alphabet of one code, whose characters take no bits, before memory is taken for it. The fault
/// is that of the string, at its place. No bits are taken if there is none.
#[inline(always)]
fn judge_free(core: &Core, room: usize, bits: &mut Bits<'_>) -> Result<(), Refusal>
    requires { (s : List Resolved) × IsSound s (kind_of core.now) }
    ensures ok { OnOk result (bits_left bits.new ≡ bits_left bits.old) }
    ensures err { IfErr result (λ e. leaf_within room (kind_of core.now) (bits_left bits.old)
        ≡ stops e (bits_left bits.new)) }
{
    let Core::RestrictedString(_, alphabet, constraint) = core else {
        return Ok(());
    };
    if alphabet.len() != 1 {
        return Ok(());
    }
    let mut ahead = *bits;
    match count_characters(constraint, &mut ahead) {
        Ok(count) => {
            if count > room as u128 {
                return Err(Refusal::NodesLimit);
            }
            Ok(())
        }
        Err(refusal) => {
            *bits = ahead;
            Err(refusal)
        }
    }
}

/// Takes a value of a kind that holds no others (X.691, 12 to 14, 16 to 18, 24, 25 and 30), of which a character string
/// has at most `room` octets. The kind must be one that a schema can have. Memory grows with what is read; `room`
/// bounds the characters of an alphabet of one code, which take no bits.
///
/// The value is one that the kind's constraints allow. A refusal is the first fault, and the cursor is at its place.
/// `Truncated`: the bits end before. `NotCanonical`, `Outside`, `UnknownEnumeration`, `IntegerLimit` and `OidLimit`
/// come as the functions of each kind say. `NodesLimit`: the string has more octets; the place is its first bit.
/// `Outside` comes also if the kind holds others. `Memory`: there is not enough memory; the cursor may have moved on.
#[inline(always)]
pub fn read_leaf(
    alloc: Global,
    core: &Core,
    room: usize,
    bits: &mut Bits<'_>,
) -> Result<Value, PackedFault>
    requires { (s : List Resolved) × IsSound s (kind_of core.now) }
    ensures ok { IfOk result
        (λ v. leaf_within room (kind_of core.now) (bits_left bits.old) ≡ found (abstract v) (bits_left bits.new)) }
    ensures few { IfOk result (λ v. characters (abstract v) ≤ room) }
    ensures err { IfErr result
        (λ e. IsFault (leaf_within room (kind_of core.now) (bits_left bits.old)) e (bits_left bits.new)) }
{
    match judge_free(core, room, bits) {
        Ok(()) => {}
        Err(refusal) => return Err(PackedFault::Refused(refusal)),
    }
    let start = *bits;
    let value = match read_any_leaf(alloc, core, bits) {
        Ok(value) => value,
        Err(fault) => return Err(fault),
    };
    if characters(&value) > room {
        *bits = start;
        return Err(PackedFault::Refused(Refusal::NodesLimit));
    }
    Ok(value)
}
