//! A pool of memory. A call is left as much of it as it may have, while all other memory is taken.

use crate::blocks::{Blocks, MOST_BLOCKS, take_blocks, take_powers, take_small_blocks};
use std::alloc::{AllocError, Global};

/// The number of octets of a block of the pool. Blocks of 32 MiB and more would not be next to each other.
const BLOCK: usize = 31 << 20;

/// A block of the pool with what the allocator adds to it.
const WHOLE_BLOCK: usize = BLOCK + ADDED;

/// How many octets the allocator adds to a block.
const ADDED: usize = 16;

/// How many sizes of small blocks the allocator keeps for itself when they are freed.
const SIZES: usize = 64;

/// How many blocks of one size the allocator keeps when they are freed.
const KEPT: usize = 7;

/// How many small blocks the allocator keeps when they are freed.
const SMALL_BLOCKS: usize = SIZES * KEPT;

/// The greatest number of blocks that fill the pool.
const MOST_FILLERS: usize = 64;

/// The greatest number of pieces between blocks that are in use.
const MOST_CRUMBS: usize = 100_000;

/// Memory that calls can be left, while all other memory is taken.
#[derive(Drop)]
pub struct Pool {
    others: Blocks,
    small: Blocks,
    exchanged: Blocks,
    fillers: Blocks,
    crumbs: Blocks,
    octets: usize,
}

/// Takes as many small blocks of each size as the allocator keeps when they are freed.
fn take_kept(alloc: Global, blocks: &mut Blocks) {
    for size in 0..SIZES {
        take_blocks(alloc, blocks, 16 * size + 24, KEPT);
    }
}

impl Pool {
    /// Takes all memory, except this number of blocks of 31 MiB. There is no pool if memory has no end.
    pub fn new(alloc: Global, blocks: usize) -> Result<Option<Pool>, AllocError> {
        let mut pool = Pool {
            others: Vec::with_capacity(alloc, MOST_BLOCKS)?,
            small: Vec::with_capacity(alloc, SMALL_BLOCKS)?,
            exchanged: Vec::with_capacity(alloc, SMALL_BLOCKS)?,
            fillers: Vec::with_capacity(alloc, MOST_FILLERS)?,
            crumbs: Vec::with_capacity(alloc, MOST_CRUMBS)?,
            octets: 0,
        };
        // Once a block of this size was freed that has pages of its own, the allocator puts smaller ones next to each
        // other. The first of these blocks may be in memory that was freed before.
        take_blocks(alloc, &mut pool.fillers, BLOCK + 65536, MOST_FILLERS);
        pool.fillers.clear();
        take_kept(alloc, &mut pool.small);
        take_blocks(alloc, &mut pool.fillers, BLOCK, blocks);
        take_powers(alloc, &mut pool.others, 42);
        take_small_blocks(alloc, &mut pool.others);
        if pool.others.len() >= MOST_BLOCKS {
            return Ok(None);
        }
        pool.fillers.clear();
        Ok(Some(pool))
    }

    /// Frees what fills the pool, so that calls have as many octets as were measured.
    pub fn open(&mut self) {
        self.fillers.clear();
    }

    /// Frees the whole pool.
    pub fn free(&mut self) {
        self.fillers.clear();
        self.crumbs.clear();
    }

    /// Joins the pieces of the pool: the small blocks that the allocator kept are exchanged for others, which were
    /// taken before. Returns false if it can't.
    fn join(&mut self, alloc: Global) -> bool {
        take_kept(alloc, &mut self.exchanged);
        let all = self.exchanged.len() == SMALL_BLOCKS;
        self.small.clear();
        self.exchanged.clear();
        take_kept(alloc, &mut self.small);
        all && self.small.len() == SMALL_BLOCKS
    }

    /// Takes a block of this size, if there is room for it.
    fn fill(&mut self, alloc: Global, octets: usize) -> bool {
        let before = self.fillers.len();
        take_blocks(alloc, &mut self.fillers, octets, 1);
        self.fillers.len() != before
    }

    /// Takes the largest block that there is room for, and returns its size.
    fn fill_rest(&mut self, alloc: Global) -> usize {
        let mut octets: usize = 0;
        for shift in (4u32..25).rev() {
            let more = octets.saturating_add(1 << shift);
            if self.fill(alloc, more) {
                let _ = self.fillers.pop();
                octets = more;
            }
        }
        let _ = self.fill(alloc, octets);
        octets
    }

    /// Takes all pieces between blocks that are in use, and finds how many octets are left. Returns false if it can't.
    pub fn measure(&mut self, alloc: Global) -> bool {
        self.free();
        let joined = self.join(alloc);
        take_blocks(alloc, &mut self.fillers, BLOCK, MOST_FILLERS);
        let blocks = self.fillers.len();
        let rest = self.fill_rest(alloc).saturating_add(ADDED);
        self.octets = blocks.saturating_mul(WHOLE_BLOCK).saturating_add(rest);
        take_powers(alloc, &mut self.crumbs, 25);
        take_small_blocks(alloc, &mut self.crumbs);
        self.fillers.clear();
        joined
    }

    /// How many octets calls can be left.
    pub fn octets(&self) -> usize {
        self.octets
    }

    /// Leaves about this many octets, in one piece, until the pool is opened. Returns false if it can't.
    pub fn leave(&mut self, alloc: Global, octets: usize) -> bool {
        self.fillers.clear();
        if !self.join(alloc) {
            return false;
        }
        let filled = self.octets.saturating_sub(octets);
        let (blocks, rest) = (filled / WHOLE_BLOCK, filled % WHOLE_BLOCK);
        take_blocks(alloc, &mut self.fillers, BLOCK, blocks);
        if self.fillers.len() != blocks {
            return false;
        }
        rest <= 2 * ADDED || self.fill(alloc, rest - ADDED)
    }
}
