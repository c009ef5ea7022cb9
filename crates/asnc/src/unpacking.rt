//! The value that octets are a message of in canonical PER, printed.

ghost use Rattle.std.specs.Prelude.{◌≡◌, ◌<◌, ℕ, Err, List, [], IfOk, IfErr, length, string_bytes};
ghost use Rattle.asn_base.specs.Abstract.{abstract};
ghost use Rattle.packed_reader.specs.declared.fault.PerFault.TheVariants.{MessageLimit};
ghost use Rattle.asnc.specs.Unpacking.{IsNotUnpacked, IsNotUnpackedAs, IsNotUnpackedBy, IsUnpacked, IsUnpackedAs, with_parts};
ghost use Rattle.asnc.specs.Unpacking.{IsUnpackedBy};

use crate::error_site::{path_to_part, type_at};
use asn_base::schema::{Schema, TypeId};
use asn_base::value::Value;
use decode_faults::Refusal;
use judging::front_end::Modules;
use judging::messages::{BitDecodeError, Fault};
use judging::named_values::named_type;
use octet_findings::allowed_in_bits;
use packed_code::PackedCode;
use packed_reader::{PerFault, RefusedBits, read_uper};
use std::alloc::{AllocError, Global};
use value_text::print;

/// The modules of a kit, and its types with their programs of canonical PER.
#[derive(Clone, Copy)]
pub(crate) struct PackedTypes<'a> {
    pub(crate) modules: &'a Modules,
    pub(crate) schema: &'a Schema,
    pub(crate) code: &'a PackedCode,
    ghost same: { schema.now ≡ code.now },
}

/// The value of a type that octets are a message of, and the number of skipped additions.
pub(crate) fn unpacked(
    alloc: Global,
    code: &PackedCode,
    id: TypeId,
    octets: &[u8],
) -> Result<(Value, u64), PerFault>
    ensures read { IfOk result (λ r. IsUnpackedBy code.now id.index octets.now (abstract r.0) r.1) }
    ensures refused { IfErr result (IsNotUnpackedBy code.now id.index octets.now) }
    ensures limit { 16777216 < length octets.now → result ≡ Err MessageLimit }
{
    match read_uper(alloc, code, id, octets) {
        Ok(read) => Ok(read),
        Err(fault) => Err(fault),
    }
}

/// What the constraints of the type at the place of a fault allow, in words, if they are why bits are refused.
fn allowed_at(
    alloc: Global,
    schema: &Schema,
    id: TypeId,
    refused: &RefusedBits,
) -> Result<Option<String>, AllocError> {
    if refused.refusal != Refusal::Outside {
        return Ok(None);
    }
    let ty = type_at(schema, id, refused.path.as_slice());
    match schema.types().get(ty.index) {
        Some(resolved) => allowed_in_bits(alloc, &*resolved.core),
        None => Ok(None),
    }
}

/// A fault of bits with the path at which it is, and what is allowed there.
pub(crate) fn locate_bit_fault(
    alloc: Global,
    schema: &Schema,
    id: TypeId,
    refused: RefusedBits,
) -> Result<BitDecodeError, AllocError>
    ensures refusal { IfOk result (λ u. u.refusal ≡ refused.refusal) }
    ensures bit { IfOk result (λ u. u.bit ≡ refused.bit) }
    ensures path { IfOk result (λ u. string_bytes u.path ≡ with_parts schema.now id.index [] refused.path.items) }
{
    let path = path_to_part(alloc, schema, id, refused.path.as_slice())?;
    let allowed = allowed_at(alloc, schema, id, &refused)?;
    Ok(BitDecodeError {
        refusal: refused.refusal,
        bit: refused.bit,
        path,
        allowed,
    })
}

/// A fault of bits, as a user sees it, with the path at which it is.
fn refusal(alloc: Global, schema: &Schema, id: TypeId, fault: PerFault) -> Fault
    ensures valid { (o : List ℕ)
        → IsNotUnpackedBy schema.now id.index o fault
        → IsNotUnpacked schema.now id.index o result }
{
    let refused = match fault {
        PerFault::Memory => return Fault::Memory,
        PerFault::MessageLimit => return Fault::MessageLimit,
        PerFault::Refused(refused) => refused,
    };
    match locate_bit_fault(alloc, schema, id, refused) {
        Ok(unread) => Fault::BitDecodeError(unread),
        Err(_) => Fault::Memory,
    }
}

/// The printed value of a type that octets are a message of, and the number of skipped additions. `BitDecodeError`:
/// they are a message of no value of the type. `MessageLimit`: there are more than 16,777,216. `Memory`: an allocation
/// failed.
fn unpacked_text(
    alloc: Global,
    schema: &Schema,
    code: &PackedCode,
    id: TypeId,
    octets: &[u8],
) -> Result<(String, u64), Fault>
    requires same { schema.now ≡ code.now }
    ensures read { IfOk result (λ r. IsUnpacked code.now id.index octets.now (string_bytes r.0) r.1) }
    ensures refused { IfErr result (IsNotUnpacked code.now id.index octets.now) }
{
    let (value, skipped) = match unpacked(alloc, code, id, octets) {
        Ok(read) => read,
        Err(fault) => return Err(refusal(alloc, schema, id, fault)),
    };
    match print(alloc, schema, id, &value) {
        Ok(text) => Ok((text, skipped)),
        Err(value_text::Fault::Memory) => Err(Fault::Memory),
        Err(value_text::Fault::NotOfType) => unreachable!(),
    }
}

/// The printed value of the type that a text names. `NoType`: the text names no type. `BitDecodeError` and
/// `MessageLimit`: the octets are a message of no value of the type. `Memory`: an allocation failed.
pub(crate) fn unpacked_as(
    alloc: Global,
    types: PackedTypes<'_>,
    ty: &str,
    octets: &[u8],
) -> Result<(String, u64), Fault>
    ensures read { IfOk result (λ r.
        IsUnpackedAs types.entry.modules.now types.entry.code.now ty.now octets.now (string_bytes r.0) r.1) }
    ensures refused { IfErr result
        (IsNotUnpackedAs types.entry.modules.now types.entry.code.now ty.now octets.now) }
{
    match named_type(alloc, types.modules, ty) {
        Ok(id) => unpacked_text(alloc, types.schema, types.code, id, octets),
        Err(fault) => Err(fault),
    }
}
