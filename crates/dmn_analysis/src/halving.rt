//! Cells cut in two whatever the tests are: by kind, or else in the middle.
ghost use Rattle.std.specs.Prelude.{◌<◌, IfOk, length};
ghost use Rattle.dmn_analysis.specs.Cutting.{AreHalves, MakeUp};

use crate::cell::{Cell, Others};
use crate::choosing::{EACH_KIND, NO_KINDS, is_empty};
use crate::cutting::{Cut, Kinds, cut_cell, of_kinds, of_other_kinds, with_cell};
use std::alloc::{AllocError, Global};

// A kind of which the cell has values, where it has others too.
fn kind_apart(cell: Cell) -> Option<Kinds> {
    for kind in &EACH_KIND {
        if is_empty(of_kinds(cell, *kind)) || is_empty(of_other_kinds(cell, *kind)) {
            continue;
        }
        return Some(*kind);
    }
    None
}

// The number in the middle of two.
pub(crate) fn middle(from: usize, to: usize) -> usize {
    from.saturating_add(to.saturating_sub(from) / 2)
}

// How the values of a cell are parted; what is one value alone isn't.
fn middle_cut(cell: Cell) -> Cut {
    if let Some(kind) = kind_apart(cell) {
        return Cut::Kinds(kind);
    }
    if cell.low < cell.high {
        let half = (cell.high.abs_diff(cell.low) / 2) as i64;
        return Cut::Number(cell.high.saturating_sub(half));
    }
    if let Others::Between(from, to) = cell.others {
        return Cut::Between(middle(from, to).saturating_add(1));
    }
    Cut::Word(middle(cell.from, cell.to))
}

/// The cell cut in two. Where it has but one value, one part has none.
fn in_two(cell: Cell) -> (Cell, Cell)
    ensures { MakeUp cell result.0 result.1 }
{
    match cut_cell(cell, middle_cut(cell)) {
        Some(halves) => halves,
        None => (of_kinds(cell, NO_KINDS), of_other_kinds(cell, NO_KINDS)),
    }
}

/// The cells, of which the one at a place is cut in two.
pub(crate) fn cells_in_two(
    alloc: Global,
    cells: &[Cell],
    place: usize,
) -> Result<(Vec<Cell>, Vec<Cell>), AllocError>
    requires { place < length cells.now }
    ensures { IfOk result (λ halves. AreHalves cells.now halves.0.items halves.1.items) }
{
    let (lower, upper) = in_two(cells[place]);
    let below = with_cell(alloc, cells, place, lower)?;
    let above = with_cell(alloc, cells, place, upper)?;
    Ok((below, above))
}
