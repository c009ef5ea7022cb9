//! A sink over any writer.

ghost use Rattle.std.specs.Prelude.{◌≡◌};

use crate::sink::Sink;
use std::io;
use std::io::Write;

/// A sink over a writer. A call of `put` is one call of its `write`, and its octets are the writer's, if those are
/// known.
#[derive(Drop)]
pub struct Counted<W: Write> {
    writer: W,
    failures: u64,
}

impl<W: Write> Counted<W> {
    /// A sink over this writer, of which no call has failed.
    pub fn of(writer: W) -> Self
        ensures writer { result.writer ≡ writer }
        ensures failures { result.failures ≡ 0 }
    {
        Counted {
            writer,
            failures: 0,
        }
    }

    /// The writer, after what the sink has written to it.
    pub fn into_writer(self) -> W
        ensures { result ≡ self.writer }
    {
        self.writer
    }
}

impl<W: Write> Sink for Counted<W> {
    ghost taken = { λ s. W.contents s.writer };

    ghost failed = { λ s. s.failures };

    fn failures(&self) -> u64 {
        self.failures
    }

    fn put(&mut self, octets: &[u8]) -> io::Result<usize> {
        match self.writer.write(octets) {
            Ok(0) => {
                self.failures += 1;
                Ok(0)
            }
            Ok(count) => Ok(count),
            Err(error) => {
                self.failures += 1;
                Err(error)
            }
        }
    }
}
