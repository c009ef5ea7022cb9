//! The length of a header in place of the octet that was held open for it.

ghost use Rattle.std.specs.Prelude.{◌≡◌, ◌+◌, ◌<◌, ◌++◌, OnOk, drop, length, set, take};
ghost use Rattle.der_layout.specs.Tables.{with_size};

use crate::header::size_octets;
use std::alloc::AllocError;

/// Puts the fewest length octets (X.690, 8.1.3 and 10.1) in place of the octet that was held open for them. All octets
/// after it are the contents. `AllocError` only if an allocation fails.
#[inline(always)]
pub(crate) fn close_length(out: &mut Vec<u8>, place: usize) -> Result<(), AllocError>
    requires { place < length out.old.items }
    ensures { OnOk result (out.new.items ≡ with_size place out.old.items) }
{
    let contents = out.len() - place - 1;
    if contents < 128 {
        put_short(out, place, contents);
        Ok(())
    } else {
        let size = size_octets(contents as u64);
        put_octets(out, place, size.as_slice())
    }
}

/// Puts a length below 128 in place of the octet.
#[inline(always)]
fn put_short(out: &mut Vec<u8>, place: usize, contents: usize)
    requires place { place < length out.old.items }
    requires few { contents < 128 }
    ensures { out.new.items ≡ set out.old.items place contents }
{
    out[place] = contents as u8;
}

/// Puts octets in place of one octet. What follows moves once. `AllocError` only if an allocation fails.
fn put_octets(out: &mut Vec<u8>, place: usize, octets: &[u8]) -> Result<(), AllocError>
    requires place { place < length out.old.items }
    requires some { 0 < length octets.now }
    ensures { OnOk result (out.new.items ≡ take place out.old.items ++ (octets.now ++ drop (place + 1) out.old.items)) }
{
    let end = out.len();
    out.extend_from_slice(&octets[1..])?;
    let from = place + octets.len();
    out.copy_within(place + 1..end, from);
    out[place..from].copy_from_slice(octets);
    Ok(())
}
