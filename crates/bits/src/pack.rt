//! Bits put into words.

ghost use Rattle.bits.specs.Block.{max_words};
ghost use Rattle.bits.specs.Packed.{Extends, Holds, first_bits};
ghost use Rattle.bits.specs.Words.{octet_bits, low_bits, word_bits};
ghost use Rattle.std.specs.Prelude.{◌≡◌, ◌+◌, ◌*◌, ◌<◌, ◌≤◌, ◌++◌, IfOk, OnErr, OnOk, length};

use crate::block::Words;
use std::alloc::AllocError;

/// The largest number of bits for which room is asked at once.
const MAX_BITS: usize = 1 << 61;

/// Makes room for n bits after the first `len`. An `Err` changes nothing.
#[inline(always)]
pub(crate) fn reserve(words: &mut Words, len: usize, n: usize) -> Result<(), AllocError>
    requires { len ≤ 64 * length words.old.items }
    ensures items { words.new.items ≡ words.old.items }
    ensures ok { OnOk result (len + n ≤ 64 * words.new.room) }
    ensures err { OnErr result (words.new ≡ words.old) }
    ensures few { OnOk result (words.new.room ≤ max_words) }
{
    let most = words.room() * 64;
    if n <= most - len {
        return Ok(());
    }
    if n > MAX_BITS {
        return Err(AllocError);
    }
    words.grow((len + n) / 64 + 1)?;
    let _room = words.room();
    Ok(())
}

/// Puts the low n bits of a number, the highest first, after the first `len` bits. There must be room.
pub(crate) fn put(words: &mut Words, len: usize, number: u64, n: usize)
    requires some { (0 < n) × (n ≤ 64) }
    requires held { Holds words.old.items len (first_bits words.old.items len) }
    requires room { len + n ≤ 64 * words.old.room }
    ensures held { Extends words.old.items len words.new.items n (low_bits n number) }
    ensures room { words.new.room ≡ words.old.room }
{
    let used = len % 64;
    let left = number << (64 - n);
    if used == 0 {
        words.add(left);
    } else if used + n <= 64 {
        words.mix(len / 64, left >> used);
    } else {
        words.add(left << (64 - used));
        words.mix(len / 64, left >> used);
    }
}

/// The number of bits in the octets, or `AllocError` if that is more than a list may have.
pub(crate) fn bit_count(octets: &[u8]) -> Result<usize, AllocError>
    ensures { IfOk result (λ n. n ≡ 8 * length octets.now) }
{
    if octets.len() > MAX_BITS / 8 {
        return Err(AllocError);
    }
    Ok(octets.len() * 8)
}

/// Eight octets as a number, the first one highest.
pub(crate) fn word_of(octets: [u8; 8]) -> u64
    ensures { low_bits 64 result ≡ octet_bits octets }
{
    u64::from_be_bytes(octets)
}

/// Puts the bits of octets after the first `len` bits. There must be room.
pub(crate) fn put_octets(words: &mut Words, len: usize, octets: &[u8])
    requires held { Holds words.old.items len (first_bits words.old.items len) }
    requires room { len + 8 * length octets.now ≤ 64 * words.old.room }
    ensures held { Extends words.old.items len words.new.items (8 * length octets.now) (octet_bits octets.now) }
    ensures room { words.new.room ≡ words.old.room }
{
    let _room = words.room();
    let mut at = len;
    let mut rest = octets;
    while let Some((front, after)) = rest.split_first_chunk::<8>() {
        put(words, at, word_of(*front), 64);
        at += 64;
        rest = after;
    }
    while let Some((octet, after)) = rest.split_first() {
        put(words, at, *octet as u64, 8);
        at += 8;
        rest = after;
    }
}

/// Puts the first `count` bits of other words after the first `len` bits. There must be room.
pub(crate) fn put_words(words: &mut Words, len: usize, others: &[u64], count: usize)
    requires held { Holds words.old.items len (first_bits words.old.items len) }
    requires room { len + count ≤ 64 * words.old.room }
    requires inside { count ≤ 64 * length others.now }
    ensures held { Extends words.old.items len words.new.items count (first_bits others.now count) }
    ensures room { words.new.room ≡ words.old.room }
{
    let _room = words.room();
    let whole = count / 64;
    put_whole(words, len, &others[..whole]);
    let rest = count % 64;
    if rest > 0 {
        put(words, len + 64 * whole, others[whole] >> (64 - rest), rest);
    }
}

/// Puts all bits of other words after the first `len` bits. There must be room.
fn put_whole(words: &mut Words, len: usize, others: &[u64])
    requires held { Holds words.old.items len (first_bits words.old.items len) }
    requires room { len + 64 * length others.now ≤ 64 * words.old.room }
    ensures held { Extends words.old.items len words.new.items (64 * length others.now) (word_bits others.now) }
    ensures room { words.new.room ≡ words.old.room }
{
    let _room = words.room();
    let mut at = len;
    for word in others {
        put(words, at, *word, 64);
        at += 64;
    }
}
