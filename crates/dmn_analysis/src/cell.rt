//! Values of one column of a table.
ghost use Rattle.std.specs.Prelude.{◌≡◌};
ghost use Rattle.dmn_analysis.specs.Cells.{words_within};

use std::sync::ArcStr;

/// The texts by which the values of a column are told.
#[derive(Drop)]
pub struct Words {
    /// These texts, each once.
    pub texts: Vec<ArcStr>,
}

/// Of the texts that are no word of a column some, told by the words that they lie between.
#[derive(Clone, Copy, Debug, PartialEq, Eq)]
pub enum Others {
    /// None of them.
    None,
    /// All of them.
    All,
    /// Those in UTF-8 that are greater than each of the words before the first place, and less than each from the second place on.
    Between(usize, usize),
}

/// Values of one column. Its texts are told by the places of the column's words.
#[derive(Clone, Copy, Debug, PartialEq, Eq)]
pub struct Cell {
    /// Whether null is one of them.
    pub null: bool,
    /// Whether true is.
    pub yes: bool,
    /// Whether false is.
    pub no: bool,
    /// The numbers from this one to `high`, both included; none where it is above that.
    pub low: i64,
    /// The highest of the numbers.
    pub high: i64,
    /// The words from this place on, counted from 0, and before `to`.
    pub from: usize,
    /// The place behind the last of the words.
    pub to: usize,
    /// Which of the texts are that are no word of the column.
    pub others: Others,
    /// Whether lists and contexts are.
    pub parted: bool,
}

/// The words from a place on, and before another.
pub(crate) fn within(words: &[ArcStr], from: usize, to: usize) -> &[ArcStr]
    ensures { result.now ≡ words_within words.now from to }
{
    let head = if to < words.len() {
        &words[..to]
    } else {
        words
    };
    if from < head.len() {
        &head[from..]
    } else {
        &[]
    }
}
