//! A heap that refuses requests for memory, and readers and writers for tests: they give and take bytes in pieces, fail at some call,
//! or take no memory.
#![tactic(auto)]

mod full_heap;
mod page;
mod pieces;

pub use full_heap::FullHeap;
pub use page::Page;
pub use pieces::{ONE_BYTE, Pieces, Sips, WELL, Way};

/// How many lines a text has.
pub fn lines_in(text: &[u8]) -> usize {
    text.iter().filter(|byte| **byte == b'\n').count()
}
