//! A heap that refuses requests for memory, for tests. It can't be had under an address sanitizer, which keeps a heap of its own.

ghost use Rattle.std.specs.Prelude.{◌≡◌, vec_len};

use std::alloc::{AllocError, Global};

/// The most blocks that the heap is taken in.
const BLOCKS: usize = 200_000;

/// The size of the first block that is asked for, in bytes: more than there is.
const LARGEST: usize = 1 << 40;

/// Blocks up to this size are asked for in every size, since a heap keeps small ones that were given back by their size.
const SMALL: usize = 1024;

/// How much smaller the next small block is, in bytes: no heap tells sizes apart more finely.
const STEP: usize = 8;

/// All that the heap can give, until it is dropped. The pages of a block are never touched, so that this costs address
/// space and little memory.
#[derive(Drop)]
pub struct FullHeap {
    blocks: Vec<Vec<u8>>,
}

impl FullHeap {
    /// Takes the whole heap but for one block of so many bytes.
    pub fn but(alloc: Global, spare: usize) -> Result<FullHeap, AllocError> {
        let mut blocks = Vec::with_capacity(alloc, BLOCKS)?;
        let left: Vec<u8> = Vec::with_capacity(alloc, spare)?;
        let mut size = LARGEST;
        for _ in 0..BLOCKS {
            match Vec::with_capacity(alloc, size) {
                Ok(block) => {
                    let _ = blocks.push(block);
                }
                Err(_) if size > SMALL => size /= 2,
                Err(_) if size > STEP => size -= STEP,
                Err(_) => break,
            }
        }
        drop(left);
        Ok(FullHeap { blocks })
    }

    /// How many blocks were taken.
    pub fn blocks(&self) -> usize
        ensures { result ≡ vec_len self.now.blocks }
    {
        self.blocks.len()
    }
}
