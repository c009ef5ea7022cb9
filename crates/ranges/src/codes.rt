//! A set of character codes.

ghost use Rattle.std.specs.Prelude.{◌≡◌, ◌⊎◌, ◌↔◌, ◌<◌, ◌≤◌, ◌==◌, ℕ, true, [], length, IfOk, IsTrue, MatchBool};
ghost use Rattle.std.specs.List.{AllByRecursion};
ghost use Rattle.std.specs.Int.{bit_at};
ghost use Rattle.asn_base.specs.Names.{IsMember};
ghost use Rattle.asn_base.specs.Schemas.{is_character, CodesAscend};
ghost use Rattle.ranges.specs.Codes.{codes_of};
ghost use Rattle.ranges.specs.proving.Masking.{IsBetween};

use asn_base::strings::StringKind;
use std::alloc::{AllocError, Global};
use std::marker::Model;

/// A set of character codes below 128, seen as those codes in ascending order. The set takes no memory of its own.
pub struct Codes {
    bits: u128,
}

impl Model for Codes {
    ghost use Rattle.std.specs.Prelude.{ℕ, List};

    ghost Value = { List ℕ };

    ghost use Rattle.ranges.specs.Codes.{codes_of};

    ghost view = { λ c. codes_of c.bits };
}

/// Whether the bit of a code below 128 is set.
fn is_set(bits: u128, code: u32) -> bool
    requires { code < 128 }
    ensures { result ≡ (bit_at bits code == 1) }
{
    (bits >> code) & 1 == 1
}

/// The bits of the codes from the first one to the last one below 128.
fn between(first: u32, last: u32) -> u128
    requires { first < 128 }
    ensures { (c : ℕ) → c < 128 → bit_at result c ≡ 1 ↔ IsBetween first last c }
{
    let up_to = u128::MAX >> (127 - last.min(127));
    let from = u128::MAX << first;
    up_to & from
}

/// The bits of the codes of a string type's characters (X.680, 41).
fn characters(kind: StringKind) -> u128
    ensures { (c : ℕ) → c < 128 → bit_at result c ≡ 1 ↔ IsTrue (is_character kind c) }
{
    match kind {
        StringKind::Numeric => 0x03ff_0001_0000_0000,
        StringKind::Printable => 0x07ff_fffe_07ff_fffe_a7ff_fb81_0000_0000,
        StringKind::Ia5 => 0xffff_ffff_ffff_ffff_ffff_ffff_ffff_ffff,
        StringKind::Visible => 0x7fff_ffff_ffff_ffff_ffff_ffff_0000_0000,
    }
}

/// Whether no code is set.
fn none_set(bits: u128) -> bool
    ensures { MatchBool result (codes_of bits ≡ []) (0 < length (codes_of bits)) }
{
    bits == 0
}

/// How many of the codes are set.
fn count_set(bits: u128) -> usize
    ensures { result ≡ length (codes_of bits) }
{
    let mut count: usize = 0;
    for code in 0..128u32 {
        if is_set(bits, code) {
            count += 1;
        }
    }
    count
}

/// The codes that are set, in ascending order.
fn list_set(alloc: Global, bits: u128) -> Result<Vec<u8>, AllocError>
    ensures { IfOk result (λ all. all.items ≡ codes_of bits) }
{
    let mut all = Vec::new(alloc);
    for code in 0..128u8 {
        if is_set(bits, u32::from(code)) {
            all.push(code)?;
        }
    }
    Ok(all)
}

impl Codes {
    /// The empty set.
    pub fn none() -> Self
        ensures { result ≡ [] }
    {
        Codes { bits: 0 }
    }

    /// The codes of a string type's characters (X.680, 41).
    pub fn of(kind: StringKind) -> Self
        ensures { (c : ℕ) → IsMember c result ↔ IsTrue (is_character kind c) }
    {
        Codes {
            bits: characters(kind),
        }
    }

    /// Adds the codes from the first to the last one to the set, as far as they are below 128; none if the first is
    /// above the last.
    pub fn add(&mut self, first: u32, last: u32)
        ensures { (c : ℕ) → IsMember c self.new ↔ (IsMember c self.old ⊎ (IsBetween first last c × (c < 128))) }
    {
        if first < 128 {
            self.bits |= between(first, last);
        }
    }

    /// The codes that are in both sets.
    pub fn meet(&self, other: &Codes) -> Self
        ensures { (c : ℕ) → IsMember c result ↔ (IsMember c self.now × IsMember c other.now) }
    {
        Codes {
            bits: self.bits & other.bits,
        }
    }

    /// A copy of the set.
    pub fn copy(&self) -> Self
        ensures { result ≡ self.now }
    {
        Codes { bits: self.bits }
    }

    /// Whether the code is in the set.
    pub fn has(&self, code: u32) -> bool
        ensures { result ≡ true ↔ IsMember code self.now }
    {
        if code < 128 {
            return is_set(self.bits, code);
        }
        false
    }

    /// Whether no code is in the set.
    pub fn is_empty(&self) -> bool
        ensures { MatchBool result (self.now ≡ []) (0 < length self.now) }
    {
        none_set(self.bits)
    }

    /// How many codes are in the set.
    pub fn count(&self) -> usize
        ensures { result ≡ length self.now }
    {
        count_set(self.bits)
    }

    /// The codes of the set in ascending order. The error is that there is not enough memory.
    pub fn list(&self, alloc: Global) -> Result<Vec<u8>, AllocError>
        ensures { IfOk result (λ all. all.items ≡ self.now) }
    {
        list_set(alloc, self.bits)
    }

    /// The codes of a set ascend, and are below 128.
    pub fn in_order(&self)
        ensures ascend { CodesAscend self.now }
        ensures below_128 { AllByRecursion (λ c. c < 128) self.now }
    {
        let _ = &self.bits;
    }
}

impl Drop for Codes {
    fn drop(self) {
        let Codes { bits: _ } = self;
    }
}
