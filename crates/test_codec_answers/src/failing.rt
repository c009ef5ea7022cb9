//! Writers of which one call fails. It must be the last one: a call that failed isn't tried again.

use crate::words::{type_of, value_at, word};
use crate::written::shown;
use asn_base::schema::TypeId;
use asn_base::value::Value;
use codec_code::Code;
use der_writer::{Counted, Sink, WriteFault, write_der_to};
use row_format::Row;
use row_format::refusal::Refusal;
use std::alloc::{AllocError, Global};
use std::io;
use std::io::{ErrorKind, Write};

/// The greatest number of octets that a writer holds, and of calls that are tried.
const ROOM: usize = 64;

/// A writer that takes at most two octets in a call. The call with the number `fails` fails, by an error or by taking
/// none, and later calls would take octets again.
#[derive(Drop)]
struct FailsOnce {
    octets: Vec<u8>,
    calls: usize,
    fails: usize,
    silent: bool,
}

impl Write for FailsOnce {
    fn write(&mut self, buf: &[u8]) -> io::Result<usize> {
        let call = self.calls;
        self.calls = call.saturating_add(1);
        if call == self.fails {
            return if self.silent {
                Ok(0)
            } else {
                Err(io::Error::from(ErrorKind::Other))
            };
        }
        let count = buf.len().min(2);
        match self.octets.extend_from_slice(&buf[..count]) {
            Ok(()) => Ok(count),
            Err(_) => Err(io::Error::from(ErrorKind::OutOfMemory)),
        }
    }

    fn flush(&mut self) -> io::Result<()> {
        Ok(())
    }
}

/// A value of a type, which is encoded.
#[derive(Clone, Copy)]
struct Encoded<'a> {
    code: &'a Code,
    id: TypeId,
    value: &'a Value,
}

/// Adds the line for a value that is encoded to a writer. The result is whether a call failed.
fn push_line(
    alloc: Global,
    text: &mut String,
    encoded: Encoded<'_>,
    writer: FailsOnce,
) -> Result<bool, AllocError> {
    let Encoded { code, id, value } = encoded;
    let mut sink = Counted::of(writer);
    let answer = write_der_to(alloc, code, id, value, &mut sink);
    let failures = sink.failures();
    let FailsOnce { octets, calls, .. } = sink.into_writer();
    let held = shown(alloc, octets.as_slice())?;
    match answer {
        Ok(_) => {
            write!(text, "all in {calls} calls, {failures} failed: {held}")?;
            Ok(false)
        }
        Err(WriteFault::Memory) => Err(AllocError),
        Err(fault) => {
            write!(
                text,
                "{fault} in {calls} calls, {failures} failed: {held}\n"
            )?;
            Ok(true)
        }
    }
}

/// `calls NAME TYPE [silent]`: encodes the value to a writer that takes two octets in a call, and of whose calls one
/// fails, by an error or silently: first the first call, then the second one, until no call fails. Each line has the
/// fault, the number of calls, how many of them failed, and the octets that the writer holds.
pub fn answer(alloc: Global, code: &Code, row: &Row) -> Result<String, Refusal> {
    let id = type_of(alloc, row)?;
    let value = value_at(alloc, row, 0)?;
    let encoded = Encoded {
        code,
        id,
        value: &value,
    };
    let mut text = String::new(alloc);
    for fails in 0..ROOM {
        let writer = FailsOnce {
            octets: Vec::with_capacity(alloc, ROOM)?,
            calls: 0,
            fails,
            silent: word(row, 3) == "silent",
        };
        if !push_line(alloc, &mut text, encoded, writer)? {
            break;
        }
    }
    Ok(text)
}
