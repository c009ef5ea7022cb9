//! A block of words, got from the heap and freed by itself.

ghost use Rattle.bits.specs.Block.{block, max_words, mixed};
ghost use Rattle.std.specs.Prelude.{◌≡◌, ◌<◌, ◌≤◌, ◌++◌, [], ◌∷◌, IfOk, OnErr, OnOk, length, slice_index};

use crate::memory::Memory;
use std::alloc::{AllocError, Global};
use std::marker::Model;

/// Words in a block of memory, and the number of words that fit in the block.
pub struct Held {
    memory: Memory,
    len: usize,
    room: usize,
    alloc: Global,
}

impl Model for Held {
    ghost use Rattle.bits.specs.Block.{Block, block, block_code};

    ghost Value = { Block };

    ghost coded = { block_code };

    ghost use Rattle.bits.specs.Held.{Counts};

    ghost view = { λ h. block h.memory.words h.memory.room };

    ghost invariant = { λ h. Counts h.memory h.len h.room };
}

impl Held {
    /// A block without words, in which `room` words fit.
    pub(crate) fn with_room(alloc: Global, room: usize) -> Result<Self, AllocError>
        requires { room ≤ max_words }
        ensures { IfOk result (λ h. h ≡ block [] room) }
    {
        let memory = Memory::allocate(&alloc, room)?;
        Ok(Held {
            memory,
            len: 0,
            room,
            alloc,
        })
    }

    /// The number of words that fit in the block.
    pub(crate) fn room(&self) -> usize
        ensures room { result ≡ self.now.room }
        ensures few { self.now.room ≤ max_words }
        ensures inside { length self.now.items ≤ self.now.room }
    {
        self.room
    }

    /// The words in order.
    pub(crate) fn as_slice(&self) -> &[u64]
        ensures { result.now ≡ self.now.items }
    {
        self.memory.lend(self.len)
    }

    /// Makes room for `room` words in all. An `Err` changes nothing.
    pub(crate) fn grow(&mut self, room: usize) -> Result<(), AllocError>
        requires more { self.old.room ≤ room }
        requires few { room ≤ max_words }
        ensures ok { OnOk result (self.new ≡ block self.old.items room) }
        ensures err { OnErr result (self.new ≡ self.old) }
    {
        self.memory.grow(&self.alloc, self.len, self.room, room)?;
        self.room = room;
        Ok(())
    }

    /// Appends a word. There must be room.
    pub(crate) fn add(&mut self, word: u64)
        requires { length self.old.items < self.old.room }
        ensures { self.new ≡ block (self.old.items ++ word ∷ []) self.old.room }
    {
        self.memory.add(self.len, word);
        self.len += 1;
    }

    /// Adds the one bits of a word to the word at a place.
    pub(crate) fn mix(&mut self, place: usize, word: u64)
        requires { place < length self.old.items }
        ensures { self.new ≡ mixed self.old place word }
    {
        let old = self.memory.lend(self.len)[place];
        self.memory.write(place, old | word);
    }
}

impl Drop for Held {
    fn drop(self) {
        let Held {
            memory,
            len: _,
            room,
            alloc,
        } = self;
        memory.free(&alloc, room);
    }
}
