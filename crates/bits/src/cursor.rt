//! Reads octets as bits.

ghost use Rattle.bits.specs.Words.{octet_bits, low_bits};
ghost use Rattle.std.specs.Prelude.{◌≡◌, ◌*◌, ◌^◌, ◌<◌, ◌≤◌, ◌++◌, OnErr, OnOk, drop, length, take};

use crate::append::append;
use crate::load::load;
use std::alloc::AllocError;

/// Some bits of octets, read from the first on, the highest bit of each octet first. A copy reads on independently.
#[derive(Clone, Copy)]
pub struct Bits<'a> {
    octets: &'a [u8],
    at: usize,
    end: usize,
    ghost few: { length octets.now ≤ 2 ^ 60 },
    ghost inside: { at ≤ end },
    ghost within: { end ≤ 8 * length octets.now },
}

impl<'a> Bits<'a> {
    ghost use Rattle.bits.specs.Left.{Took, bits_left};

    /// All the bits of octets, of which there are at most 2^60.
    pub fn of(octets: &'a [u8]) -> Self
        requires { length octets.now ≤ 2 ^ 60 }
        ensures { bits_left result ≡ octet_bits octets.now }
    {
        let end = octets.len() * 8;
        Bits { octets, at: 0, end }
    }

    /// The number of bits that are left.
    pub fn len(&self) -> usize
        ensures { result ≡ length (bits_left self.now) }
    {
        self.end - self.at
    }

    /// A cursor over the next n bits alone. At least n bits must be left. This cursor doesn't move.
    pub fn front(&self, n: usize) -> Bits<'a>
        requires { n ≤ length (bits_left self.now) }
        ensures { bits_left result ≡ take n (bits_left self.now) }
    {
        Bits {
            octets: self.octets,
            at: self.at,
            end: self.at + n,
        }
    }

    /// Skips the next n bits. At least n bits must be left.
    pub fn skip(&mut self, n: usize)
        requires { n ≤ length (bits_left self.old) }
        ensures { bits_left self.new ≡ drop n (bits_left self.old) }
    {
        self.at += n;
    }

    /// Takes the next n bits as a number, the highest first. n is at most 64, and at least n bits must be left.
    pub fn take(&mut self, n: usize) -> u64
        requires few { n ≤ 64 }
        requires left { n ≤ length (bits_left self.old) }
        ensures taken { bits_left self.old ≡ low_bits n result ++ bits_left self.new }
        ensures small { result < 2 ^ n }
    {
        let number = load(self.octets, self.at, n);
        self.at += n;
        number
    }

    /// Takes the next `count` octets, from any bit on, and appends them to `out`. At least 8 * `count` bits must be
    /// left. An `Err` takes none, and leaves `out` as it was.
    pub fn take_octets(&mut self, count: usize, out: &mut Vec<u8>) -> Result<(), AllocError>
        requires { 8 * count ≤ length (bits_left self.old) }
        ensures ok { OnOk result (Took count out.old.items out.new.items (bits_left self.old) (bits_left self.new)) }
        ensures err { OnErr result ((out.new.items ≡ out.old.items) × (self.new ≡ self.old)) }
    {
        append(self.octets, self.at, count, out)?;
        self.at += 8 * count;
        Ok(())
    }
}
