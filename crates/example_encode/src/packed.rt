//! Values in canonical PER: packed, unpacked, and where bits are refused.

use crate::print_octets;
use anyhow::Result;
use asnc::{Kit, PerFault, TypeId, Value};
use named_views::NamedValueRef;

/// Bits that are no news: the first one chooses the alternative `battery`, and the other seven are the number 127.
const NO_NEWS: [u8; 1] = [0xFF];

/// Packs a part of a decoded value alone: the part is copied, and it knows its type.
pub fn pack_part(rt: &HostRuntime, kit: &Kit, part: &NamedValueRef<'_, '_>) -> Result<()> {
    let value = part.part().to_value(rt.alloc())?;
    let bits = kit.pack(rt.alloc(), part.type_id(), &value)?;
    print_octets(rt, "packed alone", bits.as_slice())
}

/// Packs a value, unpacks its bits, and encodes what they are by the distinguished rules: the octets are the same as
/// before.
pub fn pack_again(rt: &HostRuntime, kit: &Kit, id: TypeId, value: &Value) -> Result<()> {
    let alloc = rt.alloc();
    let bits = kit.pack(alloc, id, value)?;
    print_octets(rt, "packed", bits.as_slice())?;
    let (unpacked, skipped) = kit.unpack(alloc, id, bits.as_slice())?;
    println!(rt; "{skipped} additions skipped")?;
    let (octets, _account) = kit.encode(alloc, id, &unpacked)?;
    print_octets(rt, "again", octets.as_slice())
}

/// Prints why bits are no news, in which part, and what the constraints allow there.
pub fn explain_bits(rt: &HostRuntime, kit: &Kit, news: TypeId) -> Result<()> {
    match kit.unpack(rt.alloc(), news, &NO_NEWS) {
        Ok(_unpacked) => println!(rt; "news")?,
        Err(PerFault::Refused(refused)) => {
            let error = kit.locate_bits(rt.alloc(), news, refused)?;
            println!(rt; "{error}, in {}", error.path)?;
            if let Some(allowed) = &error.allowed {
                println!(rt; "expected {allowed}")?;
            }
        }
        Err(fault) => println!(rt; "{fault}")?,
    }
    Ok(())
}
