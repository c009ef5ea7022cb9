//! One block of memory for words, reached through a raw pointer.

ghost use Rattle.bits.specs.Block.{max_words};
ghost use Rattle.bits.specs.Ownership.{memory_owns, memory_lends};
ghost use Rattle.std.specs.Prelude.{◌≡◌, ◌<◌, ◌≤◌, ◌++◌, ℕ, List, [], ◌∷◌, IfOk, OnErr, OnOk, length, slice_set};

use std::alloc::{AllocError, Allocator, Global};
use std::marker::{Model, Send, Sync};
use std::slice;

/// A block of memory with room for words of 64 bits. The first places hold words, and the others hold nothing yet. The
/// owner of the block keeps the number of words and of places, and passes them to each call.
pub(crate) struct Memory {
    start: *mut u64,
    ghost words: { List ℕ },
    ghost room: { ℕ },
    ghost fits: { (length words ≤ room) × (room ≤ max_words) },
}

impl Model for Memory {
    ghost also_owns = { λ m. memory_owns m.start m.words m.room };

    ghost also_shares = { λ m _ κ. memory_lends m.start m.words κ };
}

unsafe impl Send for Memory {}

unsafe impl Sync for Memory {}

impl Memory {
    /// A block without words, in which `room` words fit. `Err`: the heap has no such block.
    pub(crate) fn allocate(alloc: &Global, room: usize) -> Result<Memory, AllocError>
        requires { room ≤ max_words }
        ensures { IfOk result (λ m. (m.words ≡ []) × (m.room ≡ room)) }
    {
        match alloc.allocate(room * 8, 8) {
            Ok(start) => Ok(Memory {
                start: start as *mut u64,
            }),
            Err(error) => Err(error),
        }
    }

    /// Gives the block back to the heap.
    pub(crate) fn free(self, alloc: &Global, room: usize)
        requires { room ≡ self.room }
    {
        let Memory { start } = self;
        unsafe { alloc.deallocate(start as *mut u8, room * 8, 8) }
    }

    /// Makes the block larger. It may move. An `Err` changes nothing.
    pub(crate) fn grow(
        &mut self,
        alloc: &Global,
        len: usize,
        room: usize,
        more: usize,
    ) -> Result<(), AllocError>
        requires words { len ≡ length self.old.words }
        requires room { room ≡ self.old.room }
        requires more { room ≤ more }
        requires few { more ≤ max_words }
        ensures words { self.new.words ≡ self.old.words }
        ensures ok { OnOk result (self.new.room ≡ more) }
        ensures err { OnErr result (self.new ≡ self.old) }
    {
        match unsafe { alloc.grow(self.start, len, room, more) } {
            Ok(start) => {
                self.start = start;
                Ok(())
            }
            Err(error) => Err(error),
        }
    }

    /// Writes a word after those that are there.
    pub(crate) fn add(&mut self, len: usize, word: u64)
        requires words { len ≡ length self.old.words }
        requires room { len < self.old.room }
        ensures words { self.new.words ≡ self.old.words ++ word ∷ [] }
        ensures room { self.new.room ≡ self.old.room }
    {
        // The place after the words is in the block, and holds nothing that must be dropped.
        unsafe { self.start.add(len).write(word) }
    }

    /// Writes a word in the place of another.
    pub(crate) fn write(&mut self, place: usize, word: u64)
        requires { place < length self.old.words }
        ensures words { self.new.words ≡ slice_set self.old.words place word }
        ensures room { self.new.room ≡ self.old.room }
    {
        // The place holds a word.
        unsafe { *self.start.add(place) = word }
    }

    /// The words in order, as a slice that borrows the block.
    pub(crate) fn lend(&self, len: usize) -> &[u64]
        requires { len ≡ length self.now.words }
        ensures { result.now ≡ self.now.words }
    {
        // All these places hold words, and no word is written as long as the slice exists.
        unsafe { slice::from_raw_parts(self.start, len) }
    }
}
