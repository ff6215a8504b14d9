//! Cells within others.
ghost use Rattle.std.specs.Prelude.{◌≡◌, ◌&&◌, ℕ, ℤ, List, true, IsTrue, int_le};
ghost use Rattle.std.specs.List.{All};
ghost use Rattle.std.specs.declared.alloc.Global.{Global as GlobalData};
ghost use Rattle.std.specs.declared.sync.ArcStr.{ArcStr as ArcStrData};
ghost use Rattle.dmn_analysis.specs.Cells.{is_one_of, is_text_among, words_within};
ghost use Rattle.dmn_analysis.specs.Joining.{AreCovered, AreWithin, IsCellWithin};

use crate::cell::{Cell, Others};
use crate::gaps::Bare;

fn flags_within(a: Cell, b: Cell) -> bool
    ensures null { IsTrue result → IsTrue a.null → IsTrue b.null }
    ensures yes { IsTrue result → IsTrue a.yes → IsTrue b.yes }
    ensures no { IsTrue result → IsTrue a.no → IsTrue b.no }
    ensures parted { IsTrue result → IsTrue a.parted → IsTrue b.parted }
{
    if a.null && !b.null {
        return false;
    }
    if a.yes && !b.yes {
        return false;
    }
    if a.no && !b.no {
        return false;
    }
    !a.parted || b.parted
}

fn numbers_within(a: Cell, b: Cell) -> bool
    ensures { IsTrue result → (z : ℤ) → (int_le a.low z && int_le z a.high) ≡ true → (int_le b.low z && int_le z b.high) ≡ true }
{
    if a.low > a.high {
        return true;
    }
    b.low <= a.low && a.high <= b.high
}

fn words_are_within(a: Cell, b: Cell) -> bool
    ensures { IsTrue result → (ws : List (ArcStrData GlobalData)) (s : List ℕ) → is_text_among (words_within ws a.from a.to) s ≡ true → is_text_among (words_within ws b.from b.to) s ≡ true }
{
    if a.from >= a.to {
        return true;
    }
    if b.from > a.from {
        return false;
    }
    if a.to > b.to {
        return false;
    }
    true
}

fn others_are_within(a: Others, b: Others) -> bool
    ensures { IsTrue result → (ws : List (ArcStrData GlobalData)) (s : List ℕ) → is_one_of ws a s ≡ true → is_one_of ws b s ≡ true }
{
    match (a, b) {
        (Others::None, _) | (_, Others::All) => true,
        (Others::Between(from, to), Others::Between(first, end)) => first <= from && to <= end,
        (Others::All | Others::Between(_, _), _) => false,
    }
}

/// Whether each value of the first cell is one of the second.
fn cell_within(a: Cell, b: Cell) -> bool
    ensures { IsTrue result → IsCellWithin a b }
{
    if !flags_within(a, b) {
        return false;
    }
    if !numbers_within(a, b) {
        return false;
    }
    if !others_are_within(a.others, b.others) {
        return false;
    }
    words_are_within(a, b)
}

/// The same of cells, one a column.
fn cells_within(a: &[Cell], b: &[Cell]) -> bool
    ensures { IsTrue result → AreWithin a.now b.now }
{
    if a.len() != b.len() {
        return false;
    }
    for place in 0..b.len() {
        if !cell_within(a[place], b[place]) {
            return false;
        }
    }
    true
}

/// Whether the cells are within one of these.
fn is_covered(cells: &[Cell], all: &[Bare]) -> bool
    ensures { IsTrue result → AreCovered cells.now all.now }
{
    for one in all {
        if cells_within(cells, &one.cells) {
            return true;
        }
    }
    false
}

/// Whether each of these cells are within one of the others.
pub(crate) fn are_covered(bare: &[Bare], all: &[Bare]) -> bool
    ensures { IsTrue result → All (λ b. AreCovered b.cells.items all.now) bare.now }
{
    for one in bare {
        if !is_covered(&one.cells, all) {
            return false;
        }
    }
    true
}
