//! Encodes values and decodes the encodings, by the distinguished and the basic rules and in canonical PER.

use crate::calls::{Call, measure_each};
use crate::lines::{print_count, print_finding, refused};
use crate::modules::Target;
use asn_base::value::Value;
use ber_reader::read_ber;
use der_writer::write_der;
use packed_reader::read_uper;
use packed_writer::write_uper;
use std::alloc::Global;
use std::io;

/// The encoding of a value, and how many rows its account has. None after a fault.
fn encoded(alloc: Global, target: Target<'_>, value: &Value) -> Option<(Vec<u8>, usize)> {
    match write_der(alloc, &target.kit.code, target.id, value) {
        Ok((octets, account)) => Some((octets, account.rows().len())),
        Err(_) => None,
    }
}

/// Whether the value that octets encode is encoded to the same octets.
fn is_read_back(alloc: Global, target: Target<'_>, octets: &[u8]) -> io::Result<bool> {
    let Ok(read) = read_ber(alloc, &target.kit.code, target.id, octets) else {
        return Ok(false);
    };
    let value = read.view.to_value(alloc)?;
    match encoded(alloc, target, &value) {
        Some((again, _)) => Ok(again.as_slice() == octets),
        None => Ok(false),
    }
}

/// Measures a value by the distinguished and the basic rules. It prints how many octets its encoding has, how many rows
/// the account, and whether the decoded value is encoded the same.
pub fn measure_codec<'t>(
    rt: &HostRuntime,
    target: Target<'t>,
    name: &str,
    value: &'t Value,
) -> io::Result<()> {
    let Some((encoding, rows)) = encoded(rt.alloc(), target, value) else {
        return refused(rt, name, "not written");
    };
    let octets = encoding.as_slice();
    print_count(rt, name, octets.len(), "octets")?;
    print_count(rt, name, rows, "rows")?;
    let calls = [
        Call::Write(target, value),
        Call::Send(target, value),
        Call::Read(target, octets),
    ];
    measure_each(rt, name, octets.len(), &calls)?;
    if is_read_back(rt.alloc(), target, octets)? {
        print_finding(rt, name, "read back")
    } else {
        print_finding(rt, name, "another value is read")
    }
}

/// Whether the value that octets encode in canonical PER is encoded to the same octets.
fn is_unpacked(alloc: Global, target: Target<'_>, octets: &[u8]) -> bool {
    let Ok((value, _)) = read_uper(alloc, &target.kit.packed, target.id, octets) else {
        return false;
    };
    match write_uper(alloc, &target.kit.packed, target.id, &value) {
        Ok(again) => again.as_slice() == octets,
        Err(_) => false,
    }
}

/// Measures a value in canonical PER. It prints how many octets its encoding has, and whether the decoded value is
/// encoded the same.
pub fn measure_packed<'t>(
    rt: &HostRuntime,
    target: Target<'t>,
    name: &str,
    value: &'t Value,
) -> io::Result<()> {
    let Ok(encoding) = write_uper(rt.alloc(), &target.kit.packed, target.id, value) else {
        return refused(rt, name, "not written in PER");
    };
    let octets = encoding.as_slice();
    print_count(rt, name, octets.len(), "octets in PER")?;
    let calls = [Call::Pack(target, value), Call::Unpack(target, octets)];
    measure_each(rt, name, octets.len(), &calls)?;
    if is_unpacked(rt.alloc(), target, octets) {
        print_finding(rt, name, "read back from PER")
    } else {
        print_finding(rt, name, "another value is read from PER")
    }
}
