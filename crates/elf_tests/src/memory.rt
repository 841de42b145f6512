//! Allocations that fail.
use std::alloc::{AllocError, Global};

/// More blocks than fill the memory of a process.
const MOST_BLOCKS: usize = 200_000;

/// Blocks that together take all the memory that the process can have.
pub(crate) fn all_memory(alloc: Global) -> Result<Vec<Vec<u8>>, AllocError> {
    let mut blocks = Vec::with_capacity(alloc, MOST_BLOCKS)?;
    let mut size = 1usize << 46;
    for _ in 0..MOST_BLOCKS {
        match Vec::with_capacity(alloc, size) {
            Ok(block) => blocks.push(block)?,
            Err(_) if size > 1 => size /= 2,
            Err(_) => break,
        }
    }
    Ok(blocks)
}

/// The same, except for a block of this many bytes.
pub(crate) fn all_memory_but(alloc: Global, room: usize) -> Result<Vec<Vec<u8>>, AllocError> {
    let free = Vec::<u8>::with_capacity(alloc, room)?;
    let blocks = all_memory(alloc)?;
    drop(free);
    Ok(blocks)
}
