//! Whether all rules that hit for the same values are of one group.
ghost use Rattle.std.specs.Prelude.{◌≡◌, ◌<◌, ℕ, List, [], IsTrue, IfOk, OnOk, length};
ghost use Rattle.std.specs.List.{All};
ghost use Rattle.dmn_analysis.specs.Cells.{AllInOrder};
ghost use Rattle.dmn_analysis.specs.Cutting.{AreHalves};
ghost use Rattle.dmn_analysis.specs.Grouping.{AreOfOneGroup, HitInOneGroup, KnowsGroups, KnowsGroupsBut};
ghost use Rattle.dmn_analysis.specs.Searching.{AreLeft, Scene};
ghost use Rattle.dmn_analysis.specs.Telling.{IsVoid};
ghost use Rattle.dmn_analysis.specs.declared.cell.Cell.{Cell as CellData};

use crate::asked::Asked;
use crate::cell::{Cell, Words};
use crate::choosing::is_empty;
use crate::gap_answers::{are_none, places};
use crate::gaps::Pending;
use crate::row::{Row, rows_of};
use crate::searching::{first_unsure, halves, possible};
use crate::whole::whole;
use crate::witness::values_of;
use crate::words::all_words;
use dmn_table::Table;
use std::alloc::{AllocError, Global};

// Whether these rules are all of one group.
fn are_of_one_group(groups: &[usize], left: &[usize]) -> bool
    requires { All (λ r. r < length groups.now) left.now }
    ensures { IsTrue result → AreOfOneGroup groups.now left.now }
{
    for number in left {
        let group = groups[*number];
        let first = groups[left[0]];
        if group != first {
            return false;
        }
    }
    true
}

// Whether it is known that the cells have no values.
fn are_void(alloc: Global, words: &[Words], cells: &[Cell]) -> Result<bool, AllocError>
    requires { AllInOrder words.now }
    ensures { IfOk result (λ void. IsTrue void → IsVoid words.now cells.now) }
{
    let None = values_of(alloc, words, cells)? else {
        return Ok(false);
    };
    Ok(true)
}

// Cells that were cut in two.
fn put(
    alloc: Global,
    lower: Vec<Cell>,
    upper: Vec<Cell>,
    left: Vec<usize>,
    pending: &mut Vec<Pending>,
) -> Result<(), AllocError>
    ensures { OnOk result ((s : Scene) (groups : List ℕ) (cells : List CellData) → AllInOrder s.words → KnowsGroupsBut s groups cells pending.old.items → AreHalves cells lower.items upper.items → AreLeft s cells left.items → KnowsGroups s groups pending.new.items) }
{
    let copy = Vec::from_slice(alloc, &left)?;
    pending.push(Pending {
        cells: upper,
        left: copy,
    })?;
    pending.push(Pending { cells: lower, left })?;
    Ok(())
}

// Whether one of the cells has no value: so are those that nothing is known to part cut.
fn has_none(cells: &[Cell]) -> bool {
    cells.iter().any(|cell| is_empty(*cell))
}

// One turn of the search: cells for whose values all rules that hit are of one group, or that were cut in two. False
// where that isn't known.
fn turn(
    alloc: Global,
    words: &[Words],
    rows: &[Row],
    groups: &[usize],
    next: Pending,
    pending: &mut Vec<Pending>,
    steps: &mut u64,
) -> Result<bool, AllocError>
    requires order { AllInOrder words.now }
    requires groups { length groups.now ≡ length rows.now }
    ensures { IfOk result (λ known. IsTrue known → (s : Scene) → s.words ≡ words.now → s.rules ≡ rows.now → KnowsGroupsBut s groups.now next.cells.items pending.old.items → AreLeft s next.cells.items next.left.items → KnowsGroups s groups.now pending.new.items) }
{
    let left = possible(alloc, words, rows, &next.cells, &next.left, steps)?;
    if are_of_one_group(groups, &left) {
        return Ok(true);
    }
    let Some(unsure) = first_unsure(words, rows, &next.cells, &left, steps) else {
        let void = are_void(alloc, words, &next.cells)?;
        return Ok(void);
    };
    let Some((lower, upper)) = halves(alloc, words, rows, &next.cells, &left, unsure, steps)? else {
        return Ok(false);
    };
    if has_none(&lower) {
        return Ok(false);
    }
    put(alloc, lower, upper, left, pending)?;
    Ok(true)
}

// Searches these cells for values for which rules of two groups hit: whether it is known that there are none.
fn go_through(
    alloc: Global,
    words: &[Words],
    rows: &[Row],
    groups: &[usize],
    first: Pending,
    steps: &mut u64,
) -> Result<bool, AllocError>
    requires order { AllInOrder words.now }
    requires groups { length groups.now ≡ length rows.now }
    ensures { IfOk result (λ known. IsTrue known → (s : Scene) → s.words ≡ words.now → s.rules ≡ rows.now → s.first ≡ first.left.items → s.whole ≡ first.cells.items → KnowsGroups s groups.now []) }
{
    let mut pending = Vec::new(alloc);
    pending.push(first)?;
    let turns = *steps;
    for _turn in 0..turns {
        if *steps == 0 {
            return Ok(false);
        }
        if are_none(&pending) {
            return Ok(true);
        }
        let Some(next) = pending.pop() else {
            return Ok(false);
        };
        let known = turn(alloc, words, rows, groups, next, &mut pending, steps)?;
        if !known {
            return Ok(false);
        }
    }
    Ok(false)
}

/// The same as `hit_in_one_group`. What the search leaves of the steps is told.
pub(crate) fn known_in_one_group(
    alloc: Global,
    table: &Table,
    asked: &[Asked],
    groups: &[usize],
    steps: &mut u64,
) -> Result<bool, AllocError>
    ensures { IfOk result (λ known. IsTrue known → HitInOneGroup table.now asked.now groups.now) }
{
    let rules = table.rules();
    let count = table.inputs().len();
    if groups.len() != rules.len() {
        return Ok(false);
    }
    let words = all_words(alloc, rules, asked, count)?;
    let Some(cells) = whole(alloc, &words, asked, count)? else {
        return Ok(false);
    };
    let rows = rows_of(alloc, rules)?;
    let left = places(alloc, rules.len())?;
    let first = Pending { cells, left };
    let known = go_through(alloc, &words, &rows, groups, first, steps)?;
    Ok(known)
}

/// Whether it is known that all rules that hit are of one group, whatever the values of the table's input columns that
/// are asked about and whatever the names stand for. Each rule has the number of its group; `asked` has an entry for
/// each input column, as for `find_gaps`. The search takes at most so many steps.
pub fn hit_in_one_group(
    alloc: Global,
    table: &Table,
    asked: &[Asked],
    groups: &[usize],
    steps: u64,
) -> Result<bool, AllocError>
    ensures { IfOk result (λ known. IsTrue known → HitInOneGroup table.now asked.now groups.now) }
{
    let mut rest = steps;
    let known = known_in_one_group(alloc, table, asked, groups, &mut rest)?;
    Ok(known)
}
