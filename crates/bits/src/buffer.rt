//! A list of bits that grows at its end.

ghost use Rattle.bits.specs.Adds.{Pads};
ghost use Rattle.bits.specs.Packed.{Fills};
ghost use Rattle.bits.specs.Words.{octet_bits, low_bits};
ghost use Rattle.std.specs.Prelude.{◌≡◌, ◌%◌, ◌≤◌, ◌++◌, [], ◌∷◌, IfOk, OnErr, OnOk, length, slice_get};

use crate::block::Words;
use crate::octets::octets_of;
use crate::pack::{bit_count, put, put_octets, put_words, reserve};
use std::alloc::{AllocError, Global};
use std::marker::Model;

/// A list of bits.
pub struct BitBuf {
    words: Words,
    len: usize,
}

impl Drop for BitBuf {
    fn drop(self) {
        let BitBuf { words: _, len: _ } = self;
    }
}

impl Model for BitBuf {
    ghost use Rattle.bits.specs.Packed.{Holds, first_bits};
    ghost use Rattle.std.specs.Prelude.{Bool, List};

    ghost Value = { List Bool };

    ghost view = { λ b. first_bits b.words.items b.len };

    ghost invariant = { λ b. Holds b.words.items b.len (first_bits b.words.items b.len) };
}

impl BitBuf {
    /// The empty list. It takes no memory.
    pub fn new(alloc: Global) -> Self
        ensures { result ≡ [] }
    {
        BitBuf {
            words: Words::new(alloc),
            len: 0,
        }
    }

    /// The number of bits.
    pub fn len(&self) -> usize
        ensures { result ≡ length self.now }
    {
        self.len
    }

    /// Appends a bit. An `Err` appends nothing.
    pub fn push(&mut self, bit: bool) -> Result<(), AllocError>
        ensures ok { OnOk result (self.new ≡ self.old ++ bit ∷ []) }
        ensures err { OnErr result (self.new ≡ self.old) }
    {
        self.push_word(bit as u64, 1)
    }

    /// Appends the low n bits of a number, the highest first; n is at most 64. An `Err` appends nothing.
    pub fn push_word(&mut self, number: u64, n: usize) -> Result<(), AllocError>
        requires { n ≤ 64 }
        ensures ok { OnOk result (self.new ≡ self.old ++ low_bits n number) }
        ensures err { OnErr result (self.new ≡ self.old) }
    {
        if n == 0 {
            return Ok(());
        }
        reserve(&mut self.words, self.len, n)?;
        put(&mut self.words, self.len, number, n);
        self.len += n;
        Ok(())
    }

    /// Appends zero bits up to a whole number of octets. An empty list stays empty. An `Err` appends nothing.
    #[tactic(auto, using(crate::proofs::WordLaws::pads))]
    pub fn pad(&mut self) -> Result<(), AllocError>
        ensures ok { OnOk result (Pads self.old self.new) }
        ensures err { OnErr result (self.new ≡ self.old) }
    {
        let zeros = (8 - self.len % 8) % 8;
        self.push_word(0, zeros)
    }

    /// The bits in order, 64 per word, the highest first. The last word is filled with zero bits. It takes no memory.
    pub fn words(&self) -> &[u64]
        ensures { Fills self.now result.now }
    {
        self.words.as_slice()
    }

    /// The bit at a place, from 0, or None after the end. It takes no memory.
    pub fn get(&self, place: usize) -> Option<bool>
        ensures { result ≡ slice_get self.now place }
    {
        if place >= self.len {
            return None;
        }
        let word = self.words.at(place / 64);
        Some((word >> (63 - place % 64)) % 2 == 1)
    }

    /// The octets of the bits, whose number must be a multiple of eight. `AllocError` comes only if an allocation
    /// fails.
    pub fn into_octets(self) -> Result<Vec<u8>, AllocError>
        requires { length self % 8 ≡ 0 }
        ensures { IfOk result (λ o. octet_bits o.items ≡ self) }
    {
        octets_of(self.words.allocator(), self.words.as_slice(), self.len)
    }

    /// Appends the bits of octets, the highest bit of each octet first. An `Err` appends nothing.
    pub fn push_octets(&mut self, octets: &[u8]) -> Result<(), AllocError>
        ensures ok { OnOk result (self.new ≡ self.old ++ octet_bits octets.now) }
        ensures err { OnErr result (self.new ≡ self.old) }
    {
        let more = bit_count(octets)?;
        reserve(&mut self.words, self.len, more)?;
        put_octets(&mut self.words, self.len, octets);
        self.len += more;
        Ok(())
    }

    /// Appends the bits of another list. An `Err` appends nothing.
    pub fn push_bits(&mut self, other: &BitBuf) -> Result<(), AllocError>
        ensures ok { OnOk result (self.new ≡ self.old ++ other.now) }
        ensures err { OnErr result (self.new ≡ self.old) }
    {
        reserve(&mut self.words, self.len, other.len)?;
        put_words(&mut self.words, self.len, other.words.as_slice(), other.len);
        self.len += other.len;
        Ok(())
    }
}
