//! Words in memory.

ghost use Rattle.bits.specs.Block.{block, max_words, mixed};
ghost use Rattle.std.specs.Prelude.{◌≡◌, ◌<◌, ◌≤◌, ◌++◌, [], ◌∷◌, OnErr, OnOk, length, slice_index};

use crate::held::Held;
use std::alloc::{AllocError, Global};
use std::marker::Model;

/// The most words that a block may have.
const MAX_WORDS: usize = 1 << 56;

/// Words in a row, and the number of words that fit in their block. If no word fits, there is no block.
pub struct Words {
    held: Option<Held>,
    alloc: Global,
}

impl Drop for Words {
    fn drop(self) {
        let Words { held: _, alloc: _ } = self;
    }
}

impl Model for Words {
    ghost use Rattle.bits.specs.Block.{Block, block_code, block_or};

    ghost Value = { Block };

    ghost coded = { block_code };

    ghost view = { λ w. block_or w.held };
}

impl Words {
    /// The empty list of words. It takes no memory.
    pub(crate) fn new(alloc: Global) -> Self
        ensures { result ≡ block [] 0 }
    {
        Words { held: None, alloc }
    }

    /// The number of words that fit in the block.
    pub(crate) fn room(&self) -> usize
        ensures room { result ≡ self.now.room }
        ensures few { self.now.room ≤ max_words }
        ensures inside { length self.now.items ≤ self.now.room }
    {
        match &self.held {
            Some(held) => held.room(),
            None => 0,
        }
    }

    /// The words in order. The call takes no memory.
    pub(crate) fn as_slice(&self) -> &[u64]
        ensures { result.now ≡ self.now.items }
    {
        match &self.held {
            Some(held) => held.as_slice(),
            None => &[],
        }
    }

    /// The word at a place. The call takes no memory.
    pub(crate) fn at(&self, place: usize) -> u64
        requires { place < length self.now.items }
        ensures { result ≡ slice_index self.now.items place }
    {
        self.as_slice()[place]
    }

    /// The allocator that the words come from.
    pub(crate) fn allocator(&self) -> Global {
        self.alloc
    }

    /// Makes room for at least `least` words. An `Err` changes nothing.
    #[inline(never)]
    pub(crate) fn grow(&mut self, least: usize) -> Result<(), AllocError>
        requires { length self.old.items ≤ least }
        ensures items { self.new.items ≡ self.old.items }
        ensures ok { OnOk result (least ≤ self.new.room) }
        ensures err { OnErr result (self.new ≡ self.old) }
    {
        if least > MAX_WORDS {
            return Err(AllocError);
        }
        let room = wanted(self.room(), least);
        match &mut self.held {
            Some(held) => held.grow(room)?,
            None => self.held = Some(Held::with_room(self.alloc, room)?),
        }
        Ok(())
    }

    /// Appends a word. There must be room.
    pub(crate) fn add(&mut self, word: u64)
        requires { length self.old.items < self.old.room }
        ensures { self.new ≡ block (self.old.items ++ word ∷ []) self.old.room }
    {
        if let Some(held) = &mut self.held {
            held.add(word);
        }
    }

    /// Adds the one bits of a word to the word at a place.
    pub(crate) fn mix(&mut self, place: usize, word: u64)
        requires { place < length self.old.items }
        ensures { self.new ≡ mixed self.old place word }
    {
        if let Some(held) = &mut self.held {
            held.mix(place, word);
        }
    }
}

/// The number of words to ask room for: twice the room that there is, or `least`, if that is more.
fn wanted(room: usize, least: usize) -> usize
    requires { (room ≤ max_words) × (least ≤ max_words) }
    ensures { (room ≤ result) × (least ≤ result) × (result ≤ max_words) }
{
    (room * 2).max(least).max(8).min(MAX_WORDS)
}
