//! What a sink is.

ghost use Rattle.std.specs.Io.KnownBytes.{WriteAppends};
ghost use Rattle.std.specs.Prelude.{◌≡◌, ◌+◌, ◌<◌, ◌≤◌, IfOk, List, OnErr, Option, length, ℕ};

use std::io;

/// Takes octets, and counts the calls of `put` that failed.
pub trait Sink {
    /// The octets that the sink has taken, if they are known.
    ghost taken: { Self → Option (List ℕ) };

    /// How many calls failed.
    ghost failed: { Self → ℕ };

    /// How many calls failed: those that returned an error, and those that took nothing. Nothing else changes the
    /// count.
    fn failures(&self) -> u64
        ensures { result ≡ failed self.now };

    /// Takes as many of the first octets as it returns, which may be fewer than there are. A call that returns an error
    /// takes none. At least one octet must be given, and fewer than 2^64 - 1 calls must have failed.
    fn put(&mut self, octets: &[u8]) -> io::Result<usize>
        requires some { 0 < length octets.now }
        requires room { failed self.old < u64.MAX }
        ensures within { IfOk result (λ n. n ≤ length octets.now) }
        ensures takes { WriteAppends (taken self.old) (taken self.new) result octets.now }
        ensures goes_on { IfOk result (λ n. 0 < n → failed self.new ≡ failed self.old) }
        ensures nothing { IfOk result (λ n. n ≡ 0 → failed self.new ≡ failed self.old + 1) }
        ensures fails { OnErr result (failed self.new ≡ failed self.old + 1) };
}
