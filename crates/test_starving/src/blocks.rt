//! Blocks of memory, taken until the allocator gives no more.

ghost use Rattle.std.specs.Prelude.{◌≤◌};

use std::alloc::Global;

/// Blocks to which nothing is written.
pub type Blocks = Vec<Vec<u8>>;

/// The greatest number of blocks.
pub const MOST_BLOCKS: usize = 200_000;

/// The greatest number of blocks of one size.
const MOST_OF_A_SIZE: usize = 100_000;

/// Takes blocks of a size, at most so many, until an allocation fails.
pub fn take_blocks(alloc: Global, blocks: &mut Blocks, size: usize, most: usize) {
    for _ in 0..most {
        if blocks.len() >= blocks.capacity() {
            return;
        }
        let Ok(block) = Vec::with_capacity(alloc, size) else {
            return;
        };
        let _ = blocks.push(block);
    }
}

/// Takes blocks whose sizes are powers of two, from the one before 2^`end` down to 2^3.
pub fn take_powers(alloc: Global, blocks: &mut Blocks, end: u32)
    requires { end ≤ 42 }
{
    for shift in (3..end).rev() {
        take_blocks(alloc, blocks, 1 << shift, MOST_OF_A_SIZE);
    }
}

/// Takes blocks of each small size.
pub fn take_small_blocks(alloc: Global, blocks: &mut Blocks) {
    for step in (0usize..130).rev() {
        take_blocks(alloc, blocks, 16 * step + 8, MOST_OF_A_SIZE);
    }
}
