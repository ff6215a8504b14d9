//! The values of the columns in a gap or an overlap, as JSON.
ghost use Rattle.std.specs.Prelude.{◌≡◌, ◌++◌, OnOk, option_map};
ghost use Rattle.std.specs.List.{slice_get};
ghost use Rattle.serde_json.specs.Data.{array, number};
ghost use Rattle.serde_json.specs.Find.{of_integer};
ghost use Rattle.serde_json.specs.Written.{compact_text};
ghost use Rattle.dmn_analysis.specs.Cells.{words_within};
ghost use Rattle.desk_checking.specs.TablePieces.{bound_text, flags_text, numbers_text, others_text};
ghost use Rattle.desk_checking.specs.TableTold.{asks_numbers, asks_texts, cell_told, cells_told, has_others, have_others, is_other, texts_of, word_before, words_told};

use crate::parts::{add_bool, add_comma};
use dmn_analysis::{Asked, Cell, Numbers, Others, Texts, Words};
use json_writer::add_quoted;
use std::alloc::{AllocError, Global};
use std::sync::ArcStr;

fn is_other(others: Others) -> bool
    ensures { result ≡ is_other others }
{
    match others {
        Others::None => false,
        Others::All => true,
        Others::Between(_, _) => true,
    }
}

fn asks_numbers(numbers: Numbers) -> bool
    ensures { result ≡ asks_numbers numbers }
{
    match numbers {
        Numbers::None => false,
        Numbers::Between(_, _) => true,
        Numbers::All => true,
    }
}

fn asks_texts(texts: &Texts) -> bool
    ensures { result ≡ asks_texts texts.now }
{
    match texts {
        Texts::None => false,
        Texts::These(_) => true,
        Texts::Utf8 => true,
        Texts::All => true,
    }
}

/// Whether a cell has values of other kinds than those asked.
fn has_others(cell: Cell, asked: &Asked) -> bool
    ensures { result ≡ has_others cell asked.now }
{
    if cell.null && !asked.null {
        return true;
    }
    if (cell.yes || cell.no) && !asked.truths {
        return true;
    }
    if cell.low <= cell.high && !asks_numbers(asked.numbers) {
        return true;
    }
    let has_texts = cell.from < cell.to || is_other(cell.others);
    if has_texts && !asks_texts(&asked.texts) {
        return true;
    }
    cell.parted && !asked.parted
}

/// Whether one of the cells has values of other kinds than those asked in its column.
pub(crate) fn have_others(cells: &[Cell], kinds: &[Asked]) -> bool
    ensures { result ≡ have_others cells.now kinds.now }
{
    for place in 0..cells.len() {
        if place >= kinds.len() {
            return false;
        }
        if has_others(cells[place], &kinds[place]) {
            return true;
        }
    }
    false
}

/// Adds an array of these texts.
fn add_words(alloc: Global, words: &[ArcStr], text: &mut Vec<u8>) -> Result<(), AllocError>
    ensures { OnOk result (text.new.items ≡ text.old.items ++ compact_text (array (words_told words.now))) }
{
    let mut later = false;
    text.push(b'[')?;
    for word in words {
        add_comma(later, text)?;
        add_quoted(alloc, word.as_str(), text)?;
        later = true;
    }
    text.push(b']')?;
    Ok(())
}

/// Of these words those from a place on, and before another.
fn within(words: &[ArcStr], from: usize, to: usize) -> &[ArcStr]
    ensures { result.now ≡ words_within words.now from to }
{
    let head = if to < words.len() {
        &words[..to]
    } else {
        words
    };
    if from < head.len() {
        &head[from..]
    } else {
        &[]
    }
}

/// The word at a place.
fn word_at(words: &[ArcStr], place: usize) -> Option<&ArcStr>
    ensures { option_map (λ w. w.now) result ≡ slice_get words.now place }
{
    if place >= words.len() {
        return None;
    }
    Some(&words[place])
}

/// The word before a place.
fn word_before(words: &[ArcStr], place: usize) -> Option<&ArcStr>
    ensures { option_map (λ w. w.now) result ≡ word_before words.now place }
{
    if place == 0 {
        return None;
    }
    word_at(words, place - 1)
}

/// Adds the member of a word, if there is one, behind others.
fn add_bound(
    alloc: Global,
    key: &[u8],
    word: Option<&ArcStr>,
    text: &mut Vec<u8>,
) -> Result<(), AllocError>
    ensures { OnOk result (text.new.items ≡ text.old.items ++ bound_text key.now (option_map (λ w. w.now) word.entry)) }
{
    let Some(word) = word else {
        return Ok(());
    };
    text.extend_from_slice(key)?;
    add_quoted(alloc, word.as_str(), text)?;
    Ok(())
}

/// Adds those that are greater than the words before a place, and less than those from another on.
fn add_between(
    alloc: Global,
    words: &[ArcStr],
    from: usize,
    to: usize,
    text: &mut Vec<u8>,
) -> Result<(), AllocError>
    ensures { OnOk result (text.new.items ≡ text.old.items ++ others_text words.now (Others.Between from to)) }
{
    text.extend_from_slice(b",\"but\":")?;
    add_words(alloc, within(words, from, to), text)?;
    add_bound(alloc, b",\"above\":", word_before(words, from), text)?;
    add_bound(alloc, b",\"below\":", word_at(words, to), text)?;
    Ok(())
}

/// Adds which of the texts are that are no word of the column.
fn add_others(
    alloc: Global,
    words: &[ArcStr],
    others: Others,
    text: &mut Vec<u8>,
) -> Result<(), AllocError>
    ensures { OnOk result (text.new.items ≡ text.old.items ++ others_text words.now others) }
{
    match others {
        Others::None => Ok(()),
        Others::All => {
            text.extend_from_slice(b",\"texts_but\":")?;
            add_words(alloc, words, text)?;
            Ok(())
        }
        Others::Between(from, to) => {
            add_between(alloc, words, from, to, text)?;
            Ok(())
        }
    }
}

/// Adds a number.
fn add_integer(value: i64, text: &mut Vec<u8>) -> Result<(), AllocError>
    ensures { OnOk result (text.new.items ≡ text.old.items ++ compact_text (number (of_integer value))) }
{
    text.extend_from_slice(itoa::Buffer::new().format(value).as_bytes())
}

/// Adds the numbers of a cell, where there are some.
fn add_numbers(cell: Cell, text: &mut Vec<u8>) -> Result<(), AllocError>
    ensures { OnOk result (text.new.items ≡ text.old.items ++ numbers_text cell) }
{
    let (low, high) = (cell.low, cell.high);
    if low > high {
        return Ok(());
    }
    text.extend_from_slice(b",\"from\":")?;
    add_integer(low, text)?;
    text.extend_from_slice(b",\"to\":")?;
    add_integer(high, text)?;
    Ok(())
}

/// Adds which values of a cell are neither numbers nor texts.
#[tactic(auto, using(crate::proofs::TableLines::eight))]
fn add_flags(cell: Cell, text: &mut Vec<u8>) -> Result<(), AllocError>
    ensures { OnOk result (text.new.items ≡ text.old.items ++ flags_text cell) }
{
    text.extend_from_slice(b"{\"null\":")?;
    add_bool(cell.null, text)?;
    text.extend_from_slice(b",\"true\":")?;
    add_bool(cell.yes, text)?;
    text.extend_from_slice(b",\"false\":")?;
    add_bool(cell.no, text)?;
    text.extend_from_slice(b",\"parted\":")?;
    add_bool(cell.parted, text)?;
    Ok(())
}

/// Adds a cell of a column that has these words.
#[tactic(auto, using(crate::proofs::TableLines::cell_pieces))]
fn add_cell(
    alloc: Global,
    words: &[ArcStr],
    cell: Cell,
    text: &mut Vec<u8>,
) -> Result<(), AllocError>
    ensures { OnOk result (text.new.items ≡ text.old.items ++ compact_text (cell_told words.now cell)) }
{
    add_flags(cell, text)?;
    add_numbers(cell, text)?;
    text.extend_from_slice(b",\"texts\":")?;
    add_words(alloc, within(words, cell.from, cell.to), text)?;
    add_others(alloc, words, cell.others, text)?;
    text.extend_from_slice(b"}")?;
    Ok(())
}

/// The words of the column at a place.
fn texts_at(words: &[Words], place: usize) -> &[ArcStr]
    ensures { result.now ≡ texts_of (slice_get words.now place) }
{
    if place >= words.len() {
        return &[];
    }
    &words[place].texts
}

/// Adds the cells, one of each column, as an array.
pub(crate) fn add_cells(
    alloc: Global,
    words: &[Words],
    cells: &[Cell],
    text: &mut Vec<u8>,
) -> Result<(), AllocError>
    ensures { OnOk result (text.new.items ≡ text.old.items ++ compact_text (array (cells_told words.now 0 cells.now))) }
{
    let mut later = false;
    text.push(b'[')?;
    for (place, cell) in cells.iter().enumerate() {
        add_comma(later, text)?;
        add_cell(alloc, texts_at(words, place), *cell, text)?;
        later = true;
    }
    text.push(b']')?;
    Ok(())
}
