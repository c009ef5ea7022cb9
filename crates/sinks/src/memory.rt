//! A sink in memory.

ghost use Rattle.std.specs.Prelude.{◌≡◌};

use crate::sink::Sink;
use std::io;
use std::io::ErrorKind;

/// A sink that keeps octets in a list. A call of `put` takes all its octets, or none if there is not enough memory.
#[derive(Drop)]
pub struct InMemory {
    octets: Vec<u8>,
    failures: u64,
}

impl InMemory {
    /// A sink that adds to the octets of a list, and of which no call has failed.
    pub fn of(octets: Vec<u8>) -> Self
        ensures octets { result.octets ≡ octets }
        ensures failures { result.failures ≡ 0 }
    {
        InMemory {
            octets,
            failures: 0,
        }
    }

    /// The octets of the list.
    pub fn into_octets(self) -> Vec<u8>
        ensures { result ≡ self.octets }
    {
        self.octets
    }
}

impl Sink for InMemory {
    ghost use Rattle.std.specs.Prelude.{Some};

    ghost taken = { λ s. Some s.octets.items };

    ghost failed = { λ s. s.failures };

    fn failures(&self) -> u64 {
        self.failures
    }

    fn put(&mut self, octets: &[u8]) -> io::Result<usize> {
        match self.octets.extend_from_slice(octets) {
            Ok(()) => Ok(octets.len()),
            Err(_) => {
                self.failures += 1;
                Err(io::Error::from(ErrorKind::OutOfMemory))
            }
        }
    }
}
