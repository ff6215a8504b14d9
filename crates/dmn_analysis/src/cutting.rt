//! Cells cut in two.
ghost use Rattle.std.specs.Prelude.{◌≡◌, ◌<◌, IfOk, IfSome, length, set};
ghost use Rattle.dmn_analysis.specs.Cutting.{AreHalves, MakeUp, between_alone, kept_of, numbers_alone, other_kinds_of, with_from, with_low, with_others as with_others_of, words_alone};

use crate::cell::{Cell, Others};
use std::alloc::{AllocError, Global};

/// Some of the kinds of values.
#[derive(Clone, Copy)]
pub(crate) struct Kinds {
    pub(crate) null: bool,
    pub(crate) yes: bool,
    pub(crate) no: bool,
    pub(crate) numbers: bool,
    pub(crate) words: bool,
    pub(crate) others: bool,
    pub(crate) parted: bool,
}

/// How a cell is cut in two.
#[derive(Clone, Copy)]
pub(crate) enum Cut {
    /// These kinds of values, and the others.
    Kinds(Kinds),
    /// The numbers below this one, and all else.
    Number(i64),
    /// The words before this place, and all else.
    Word(usize),
    /// The other texts that are less than the word before this place, and all else.
    Between(usize),
}

/// The kinds that are none of these.
fn other_kinds(kinds: Kinds) -> Kinds
    ensures { result ≡ other_kinds_of kinds }
{
    Kinds {
        null: !kinds.null,
        yes: !kinds.yes,
        no: !kinds.no,
        numbers: !kinds.numbers,
        words: !kinds.words,
        others: !kinds.others,
        parted: !kinds.parted,
    }
}

/// The values of the cell that are of these kinds.
pub(crate) fn of_kinds(cell: Cell, kinds: Kinds) -> Cell
    ensures { result ≡ kept_of cell kinds }
{
    Cell {
        null: cell.null && kinds.null,
        yes: cell.yes && kinds.yes,
        no: cell.no && kinds.no,
        low: if kinds.numbers { cell.low } else { 1 },
        high: if kinds.numbers { cell.high } else { 0 },
        from: if kinds.words { cell.from } else { 0 },
        to: if kinds.words { cell.to } else { 0 },
        others: if kinds.others {
            cell.others
        } else {
            Others::None
        },
        parted: cell.parted && kinds.parted,
    }
}

/// The values of the cell that are of other kinds.
pub(crate) fn of_other_kinds(cell: Cell, kinds: Kinds) -> Cell
    ensures { result ≡ kept_of cell (other_kinds_of kinds) }
{
    of_kinds(cell, other_kinds(kinds))
}

// The numbers between two, both included.
fn only_numbers(low: i64, high: i64) -> Cell
    ensures { result ≡ numbers_alone low high }
{
    Cell {
        null: false,
        yes: false,
        no: false,
        low,
        high,
        from: 0,
        to: 0,
        others: Others::None,
        parted: false,
    }
}

// The words between two places.
fn only_words(from: usize, to: usize) -> Cell
    ensures { result ≡ words_alone from to }
{
    Cell {
        null: false,
        yes: false,
        no: false,
        low: 1,
        high: 0,
        from,
        to,
        others: Others::None,
        parted: false,
    }
}

// The texts that are no words, between the words before a place and those from another on.
fn only_between(from: usize, to: usize) -> Cell
    ensures { result ≡ between_alone from to }
{
    Cell {
        null: false,
        yes: false,
        no: false,
        low: 1,
        high: 0,
        from: 0,
        to: 0,
        others: Others::Between(from, to),
        parted: false,
    }
}

// The cell with these of the texts that are no words.
fn with_others(cell: Cell, others: Others) -> Cell
    ensures { result ≡ with_others_of cell others }
{
    Cell { others, ..cell }
}

// The cell without the numbers below this one.
fn numbers_from(cell: Cell, low: i64) -> Cell
    ensures { result ≡ with_low cell low }
{
    Cell { low, ..cell }
}

// The cell without the words before this place.
fn words_from(cell: Cell, from: usize) -> Cell
    ensures { result ≡ with_from cell from }
{
    Cell { from, ..cell }
}

fn cut_at_number(cell: Cell, number: i64) -> Option<(Cell, Cell)>
    ensures { IfSome result (λ halves. MakeUp cell halves.0 halves.1) }
{
    if number <= cell.low || number > cell.high {
        return None;
    }
    let lower = only_numbers(cell.low, number - 1);
    let upper = numbers_from(cell, number);
    Some((lower, upper))
}

fn cut_at_word(cell: Cell, place: usize) -> Option<(Cell, Cell)>
    ensures { IfSome result (λ halves. MakeUp cell halves.0 halves.1) }
{
    if place <= cell.from || place >= cell.to {
        return None;
    }
    let lower = only_words(cell.from, place);
    let upper = words_from(cell, place);
    Some((lower, upper))
}

fn cut_between(cell: Cell, place: usize) -> Option<(Cell, Cell)>
    ensures { IfSome result (λ halves. MakeUp cell halves.0 halves.1) }
{
    let Others::Between(from, to) = cell.others else {
        return None;
    };
    if place <= from || place > to {
        return None;
    }
    let lower = only_between(from, place - 1);
    let upper = with_others(cell, Others::Between(place, to));
    Some((lower, upper))
}

/// The two parts of a cell; None where it can't be cut so.
pub(crate) fn cut_cell(cell: Cell, cut: Cut) -> Option<(Cell, Cell)>
    ensures { IfSome result (λ halves. MakeUp cell halves.0 halves.1) }
{
    match cut {
        Cut::Kinds(kinds) => Some((of_kinds(cell, kinds), of_other_kinds(cell, kinds))),
        Cut::Number(number) => cut_at_number(cell, number),
        Cut::Word(place) => cut_at_word(cell, place),
        Cut::Between(place) => cut_between(cell, place),
    }
}

/// The cells with another one at a place.
pub(crate) fn with_cell(
    alloc: Global,
    cells: &[Cell],
    place: usize,
    cell: Cell,
) -> Result<Vec<Cell>, AllocError>
    requires { place < length cells.now }
    ensures { IfOk result (λ all. all.items ≡ set cells.now place cell) }
{
    let mut all = Vec::from_slice(alloc, cells)?;
    all[place] = cell;
    Ok(all)
}

/// Two lists of cells, each like this one but at a place, that have all of its values between them; None where the cell at the
/// place can't be cut so.
pub(crate) fn cut_cells(
    alloc: Global,
    cells: &[Cell],
    place: usize,
    cut: Cut,
) -> Result<Option<(Vec<Cell>, Vec<Cell>)>, AllocError>
    ensures { IfOk result (λ found. IfSome found (λ halves. AreHalves cells.now halves.0.items halves.1.items)) }
{
    if place >= cells.len() {
        return Ok(None);
    }
    let Some((lower, upper)) = cut_cell(cells[place], cut) else {
        return Ok(None);
    };
    let below = with_cell(alloc, cells, place, lower)?;
    let above = with_cell(alloc, cells, place, upper)?;
    Ok(Some((below, above)))
}
