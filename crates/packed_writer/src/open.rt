//! Open types (X.691, 11.2).

ghost use Rattle.packed_encodings.specs.Computed.{open_bits};
ghost use Rattle.packed_encodings.specs.Padding.{Padded};
ghost use Rattle.std.specs.Int.Digits.{AllBelowBase};
ghost use Rattle.std.specs.Prelude.{◌≡◌, ◌++◌, [], IfOk, OnOk};

use bits::buffer::BitBuf;
use packed_counts::push_counted_octets;
use packed_encodings::function_laws;
use std::alloc::{AllocError, Global};

/// A law: each of the octets is below 256.
fn are_octets(octets: &[u8])
    ensures { AllBelowBase 256 octets.now }
{}

/// The octets of bits. Zero bits fill the last octet, and no bits are one octet 0 (11.1). `AllocError` only if an
/// allocation fails.
pub(crate) fn filled(alloc: Global, bits: BitBuf) -> Result<Vec<u8>, AllocError>
    ensures { IfOk result (λ o. Padded bits o.items) }
{
    let mut bits = bits;
    if bits.len() == 0 {
        let mut octets = Vec::new(alloc);
        octets.push(0)?;
        return Ok(octets);
    }
    bits.pad()?;
    let octets = bits.into_octets()?;
    are_octets(octets.as_slice());
    Ok(octets)
}

/// Adds a complete encoding as an open type: its octets after their number (11.2). `AllocError` only if an allocation
/// fails.
pub(crate) fn push_open(alloc: Global, out: &mut BitBuf, inner: BitBuf) -> Result<(), AllocError>
    ensures { OnOk result (out.new ≡ out.old ++ open_bits inner) }
{
    function_laws();
    let octets = filled(alloc, inner)?;
    are_octets(octets.as_slice());
    push_counted_octets(out, octets.as_slice())?;
    Ok(())
}
