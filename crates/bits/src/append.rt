//! Copies bits of octets as octets.

ghost use Rattle.bits.specs.Left.{Appends};
ghost use Rattle.bits.specs.Words.{octet_bits};
ghost use Rattle.std.specs.Int.{to_be_bytes, w64};
ghost use Rattle.std.specs.Prelude.{◌≡◌, ◌+◌, ◌*◌, ◌%◌, ◌^◌, ◌≤◌, ◌++◌, OnErr, OnOk, drop, length};
ghost use Rattle.std.specs.Vec.{vec_capacity, vec_len};

use crate::load::load;
use std::alloc::AllocError;

/// Appends `count` octets, from the bit `at` on, to `out`. An `Err` leaves `out` as it was.
pub(crate) fn append(
    octets: &[u8],
    at: usize,
    count: usize,
    out: &mut Vec<u8>,
) -> Result<(), AllocError>
    requires inside { at + 8 * count ≤ 8 * length octets.now }
    requires short { length octets.now ≤ 2 ^ 60 }
    ensures ok { OnOk result (Appends octets.now at count out.old.items out.new.items) }
    ensures err { OnErr result (out.new.items ≡ out.old.items) }
{
    if at % 8 == 0 {
        return append_whole(octets, at, count, out);
    }
    out.reserve(count)?;
    append_shifted(octets, at, count, out);
    Ok(())
}

/// The same, if the first bit is the highest bit of an octet.
fn append_whole(octets: &[u8], at: usize, count: usize, out: &mut Vec<u8>) -> Result<(), AllocError>
    requires whole { at % 8 ≡ 0 }
    requires inside { at + 8 * count ≤ 8 * length octets.now }
    requires short { length octets.now ≤ 2 ^ 60 }
    ensures ok { OnOk result (Appends octets.now at count out.old.items out.new.items) }
    ensures err { OnErr result (out.new.items ≡ out.old.items) }
{
    let from = at / 8;
    out.extend_from_slice(&octets[from..from + count])?;
    Ok(())
}

/// The same from any bit, if `out` has room.
fn append_shifted(octets: &[u8], at: usize, count: usize, out: &mut Vec<u8>)
    requires inside { at + 8 * count ≤ 8 * length octets.now }
    requires short { length octets.now ≤ 2 ^ 60 }
    requires room { vec_len out.old + count ≤ vec_capacity out.old }
    ensures { Appends octets.now at count out.old.items out.new.items }
{
    let mut done = 0;
    while count - done >= 8 {
        push_eight(out, load(octets, at + 8 * done, 64));
        done += 8;
    }
    while done < count {
        out.push_reserved(load(octets, at + 8 * done, 8) as u8);
        done += 1;
    }
}

/// Appends the eight octets of a number, the highest first, if `out` has room.
fn push_eight(out: &mut Vec<u8>, number: u64)
    requires { vec_len out.old + 8 ≤ vec_capacity out.old }
    ensures items { out.new.items ≡ out.old.items ++ to_be_bytes w64 number }
    ensures len { vec_len out.new ≡ vec_len out.old + 8 }
    ensures capacity { vec_capacity out.old ≤ vec_capacity out.new }
{
    match out.extend_from_slice(&number.to_be_bytes()) {
        Ok(()) => (),
        Err(_) => (),
    }
}
