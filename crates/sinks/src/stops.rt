//! A sink for tests.

ghost use Rattle.std.specs.Prelude.{◌≡◌, ◌+◌, ◌-◌, ◌<◌, ◌≤◌, IfOk, length, min};

use crate::sink::Sink;
use std::io;
use std::io::ErrorKind;

/// A sink for tests. It keeps octets in a list, takes at most `most` of them in a call, and fails once it has `limit`
/// of them, by an error or by taking none.
#[derive(Drop)]
pub struct Stops {
    octets: Vec<u8>,
    limit: usize,
    most: usize,
    silent: bool,
    failures: u64,
}

impl Stops {
    /// A sink that takes `limit` octets, at most `most` of them in a call, and then fails: by taking none if it is
    /// silent, else by an error.
    pub fn at(octets: Vec<u8>, limit: usize, most: usize, silent: bool) -> Self
        ensures octets { result.octets ≡ octets }
        ensures limit { result.limit ≡ limit }
        ensures most { result.most ≡ most }
        ensures silent { result.silent ≡ silent }
        ensures failures { result.failures ≡ 0 }
    {
        Stops {
            octets,
            limit,
            most,
            silent,
            failures: 0,
        }
    }

    /// The octets that the sink has taken.
    pub fn octets(&self) -> &[u8]
        ensures { result.now ≡ self.now.octets.items }
    {
        self.octets.as_slice()
    }

    /// How many of `octets` octets the sink takes now: all, unless it takes fewer in a call, or its limit is nearer.
    fn room(&self, octets: usize) -> usize
        ensures within { result ≤ octets }
        ensures least { result ≡ min (min (self.now.limit - length self.now.octets.items) self.now.most) octets }
    {
        let left = self.limit.saturating_sub(self.octets.len());
        left.min(self.most).min(octets)
    }

    /// Counts a failure and returns it.
    fn fail(&mut self) -> io::Result<usize>
        requires { self.old.failures < u64.MAX }
        ensures octets { self.new.octets ≡ self.old.octets }
        ensures counted { self.new.failures ≡ self.old.failures + 1 }
        ensures none { IfOk result (λ n. n ≡ 0) }
    {
        self.failures += 1;
        if self.silent {
            Ok(0)
        } else {
            Err(io::Error::from(ErrorKind::Other))
        }
    }
}

impl Sink for Stops {
    ghost use Rattle.std.specs.Prelude.{Some};

    ghost taken = { λ s. Some s.octets.items };

    ghost failed = { λ s. s.failures };

    fn failures(&self) -> u64 {
        self.failures
    }

    fn put(&mut self, octets: &[u8]) -> io::Result<usize> {
        let count = self.room(octets.len());
        if count == 0 {
            return self.fail();
        }
        match self.octets.extend_from_slice(&octets[..count]) {
            Ok(()) => Ok(count),
            Err(_) => self.fail(),
        }
    }
}
