//! Parts of what a reader gives.

ghost use Rattle.std.specs.Prelude.{◌≡◌, ◌<◌, ◌≤◌, IfOk, OnOk, OnErr, [], length, take};
ghost use Rattle.std.specs.Io.KnownBytes.{Consumes, IsAtEnd, Keeps};

use std::io;
use std::io::{ErrorKind, Read};

/// How many octets are asked for in one read.
const READ_SIZE: usize = 65_536;

/// One read, which is tried again if a signal interrupts it.
fn read_once<R: Read>(reader: &mut R, room: &mut [u8]) -> io::Result<usize>
    ensures within { IfOk result (λ n. n ≤ length room.new) }
    ensures taken { IfOk result (λ n. Consumes (R.remaining reader.old) (R.remaining reader.new) (take n room.new)) }
    ensures end { IfOk result (λ n. n ≡ 0 → 0 < length room.old → IsAtEnd (R.remaining reader.new)) }
    ensures kept { OnErr result (Keeps (R.remaining reader.old) (R.remaining reader.new)) }
{
    for _ in 0..u64::MAX {
        match reader.read(room) {
            Ok(count) => return Ok(count),
            Err(error) => {
                if error.kind() != ErrorKind::Interrupted {
                    return Err(error);
                }
            }
        }
    }
    Err(io::Error::from(ErrorKind::Interrupted))
}

/// Replaces a part by the next octets of the reader. The part is empty at the end, and only then.
pub(crate) fn fill<R: Read>(reader: &mut R, part: &mut Vec<u8>) -> io::Result<()>
    ensures taken { OnOk result (Consumes (R.remaining reader.old) (R.remaining reader.new) part.new.items) }
    ensures end { OnOk result (part.new.items ≡ [] → IsAtEnd (R.remaining reader.new)) }
{
    part.resize(READ_SIZE, 0)?;
    match read_once(reader, part.as_mut_slice()) {
        Ok(count) => {
            part.truncate(count);
            Ok(())
        }
        Err(error) => {
            part.clear();
            Err(error)
        }
    }
}
