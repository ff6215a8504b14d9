//! Cells joined where they differ in one column alone. Nothing is promised of them: what is joined is asked of the rules again.
use crate::cell::{Cell, Others};
use crate::gaps::Bare;
use std::alloc::{AllocError, Global};

/// The most cells that are joined.
const MOST_JOINED: usize = 300;

/// How often the cells are gone through.
const PASSES: usize = 6;

// The numbers of both, where they stand side by side or are the same.
fn joined_numbers(a: Cell, b: Cell) -> Option<(i64, i64)> {
    if a.low > a.high {
        return Some((b.low, b.high));
    }
    if b.low > b.high || a.low == b.low && a.high == b.high {
        return Some((a.low, a.high));
    }
    if a.high < b.low && a.high == b.low.saturating_sub(1) {
        return Some((a.low, b.high));
    }
    if b.high < a.low && b.high == a.low.saturating_sub(1) {
        return Some((b.low, a.high));
    }
    None
}

// The words of both, where they stand side by side or are the same.
fn joined_words(a: Cell, b: Cell) -> Option<(usize, usize)> {
    if a.from >= a.to {
        return Some((b.from, b.to));
    }
    if b.from >= b.to || a.from == b.from && a.to == b.to {
        return Some((a.from, a.to));
    }
    if a.to == b.from {
        return Some((a.from, b.to));
    }
    if b.to == a.from {
        return Some((b.from, a.to));
    }
    None
}

// The texts of both that are no words, where they stand side by side or are the same.
fn joined_others(a: Others, b: Others) -> Option<Others> {
    match (a, b) {
        (Others::None, other) | (other, Others::None) => Some(other),
        (Others::All, _) | (_, Others::All) => Some(Others::All),
        (Others::Between(from, to), Others::Between(first, end)) => {
            if from == first && to == end {
                Some(a)
            } else if to.saturating_add(1) == first {
                Some(Others::Between(from, end))
            } else if end.saturating_add(1) == from {
                Some(Others::Between(first, to))
            } else {
                None
            }
        }
    }
}

// The values of both, where they make one cell.
fn joined_cell(a: Cell, b: Cell) -> Option<Cell> {
    let (low, high) = joined_numbers(a, b)?;
    let (from, to) = joined_words(a, b)?;
    let others = joined_others(a.others, b.others)?;
    Some(Cell {
        null: a.null || b.null,
        yes: a.yes || b.yes,
        no: a.no || b.no,
        low,
        high,
        from,
        to,
        others,
        parted: a.parted || b.parted,
    })
}

// The only place at which two lists of cells differ; None where there is none, or there are several.
fn only_difference(a: &[Cell], b: &[Cell]) -> Option<usize> {
    let mut found = None;
    for place in 0..a.len() {
        if place >= b.len() {
            return None;
        }
        if a[place] == b[place] {
            continue;
        }
        if found.is_some() {
            return None;
        }
        found = Some(place);
    }
    found
}

// The cells of both, where they differ at one place alone and can be joined there.
fn joined(alloc: Global, a: &[Cell], b: &[Cell]) -> Result<Option<Vec<Cell>>, AllocError> {
    let Some(place) = only_difference(a, b) else {
        return Ok(None);
    };
    if place >= a.len() || place >= b.len() {
        return Ok(None);
    }
    let Some(cell) = joined_cell(a[place], b[place]) else {
        return Ok(None);
    };
    let mut all = Vec::from_slice(alloc, a)?;
    if place < all.len() {
        all[place] = cell;
    }
    Ok(Some(all))
}

// Joins cells to the first of these that they can be joined to, or else adds them.
fn add_joined(alloc: Global, all: &mut Vec<Bare>, cells: &[Cell]) -> Result<(), AllocError> {
    for place in 0..all.len() {
        if let Some(cells) = joined(alloc, &all[place].cells, cells)? {
            all[place] = Bare { cells };
            return Ok(());
        }
    }
    all.push(Bare {
        cells: Vec::from_slice(alloc, cells)?,
    })?;
    Ok(())
}

// The cells, each joined to one before it, where that can be; None where they stay too many.
fn pass(alloc: Global, bare: &[Bare]) -> Result<Option<Vec<Bare>>, AllocError> {
    let mut all = Vec::new(alloc);
    for one in bare {
        if all.len() >= MOST_JOINED {
            return Ok(None);
        }
        add_joined(alloc, &mut all, &one.cells)?;
    }
    Ok(Some(all))
}

/// The cells, joined where they differ in one column alone; None where they stay too many.
pub(crate) fn join(alloc: Global, bare: &[Bare]) -> Result<Option<Vec<Bare>>, AllocError> {
    let Some(mut all) = pass(alloc, bare)? else {
        return Ok(None);
    };
    for _ in 0..PASSES {
        let count = all.len();
        let Some(next) = pass(alloc, &all)? else {
            return Ok(Some(all));
        };
        all = next;
        if all.len() >= count {
            return Ok(Some(all));
        }
    }
    Ok(Some(all))
}
