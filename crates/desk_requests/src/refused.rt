//! Lines that are refused.

use desk_wire::Word;

/// A line that `serve` refuses.
#[derive(Clone, Copy, Debug, PartialEq, Eq)]
pub struct RefusedLine {
    /// The number of the line; that of the first is 1.
    pub number: u64,
    /// The word with which it is refused.
    pub why: Word,
    /// Of a model, the word of its fault.
    pub fault: Option<Word>,
}
