//! What a search through the cells of a table does at each turn.
ghost use Rattle.std.specs.Prelude.{◌≡◌, ◌<◌, ◌≤◌, false, IsTrue, IfOk, IfSome, None, length, map};
ghost use Rattle.std.specs.List.{All};
ghost use Rattle.dmn_analysis.specs.Constant.{AreConstant};
ghost use Rattle.dmn_analysis.specs.Cutting.{AreHalves};
ghost use Rattle.dmn_analysis.specs.Searching.{AreLeft, HasEntry, Scene, TellsOutlook};
ghost use Rattle.dmn_analysis.specs.Sharing.{IsMustHit, IsRising};

use crate::cell::{Cell, Words};
use crate::choosing::choose;
use crate::constant::are_constant;
use crate::cutting::cut_cells;
use crate::halving::cells_in_two;
use crate::row::Row;
use crate::rule_on::{cannot_hit, first_unsettled, must_hit};
use std::alloc::{AllocError, Global};

/// Whether at most one rule is left.
pub(crate) fn are_few(left: &[usize]) -> bool
    ensures few { IsTrue result → length left.now < 2 }
    ensures several { result ≡ false → 2 ≤ length left.now }
{
    left.len() < 2
}

/// Of these rules those that may hit for values of the cells.
pub(crate) fn possible(
    alloc: Global,
    words: &[Words],
    rows: &[Row],
    cells: &[Cell],
    left: &[usize],
    steps: &mut u64,
) -> Result<Vec<usize>, AllocError>
    ensures left { IfOk result (λ kept. (s : Scene) → s.words ≡ words.now → s.rules ≡ rows.now → AreLeft s cells.now left.now → AreLeft s cells.now kept.items) }
    ensures there { IfOk result (λ kept. All (λ r. r < length rows.now) kept.items) }
    ensures rising { IfOk result (λ kept. IsRising left.now → IsRising kept.items) }
{
    let mut kept = Vec::with_capacity(alloc, left.len())?;
    for number in left {
        if *number >= rows.len() {
            continue;
        }
        if cannot_hit(words, cells, &rows[*number], steps) {
            continue;
        }
        kept.push(*number)?;
    }
    Ok(kept)
}

/// An entry of a rule of which it isn't known whether the values of the cell meet it.
#[derive(Clone, Copy)]
pub(crate) struct Unsure {
    pub(crate) rule: usize,
    /// The place of the entry's column.
    pub(crate) place: usize,
}

/// What is known of the rules that may hit for values of some cells.
pub(crate) enum Outlook {
    /// There is none.
    Nothing,
    /// This one hits for all of the values.
    Sure(usize),
    /// None is known to.
    Unsure(Unsure),
}

/// What is known of the rules that are left.
pub(crate) fn outlook_for(
    words: &[Words],
    rows: &[Row],
    cells: &[Cell],
    left: &[usize],
    steps: &mut u64,
) -> Outlook
    requires { All (λ r. r < length rows.now) left.now }
    ensures { TellsOutlook words.now rows.now cells.now left.now result }
{
    if left.is_empty() {
        return Outlook::Nothing;
    }
    let rule = left[0];
    let Some(place) = first_unsettled(words, cells, &rows[rule], steps) else {
        return Outlook::Sure(rule);
    };
    for other in 1..left.len() {
        let rule = left[other];
        if must_hit(words, cells, &rows[rule], steps) {
            return Outlook::Sure(rule);
        }
    }
    Outlook::Unsure(Unsure { rule, place })
}

/// An entry of the first of these rules that isn't known to hit for all values of the cells; None where each of them hits for all.
pub(crate) fn first_unsure(
    words: &[Words],
    rows: &[Row],
    cells: &[Cell],
    left: &[usize],
    steps: &mut u64,
) -> Option<Unsure>
    requires { All (λ r. r < length rows.now) left.now }
    ensures entry { IfSome result (HasEntry rows.now cells.now) }
    ensures must { result ≡ None → All (IsMustHit words.now rows.now cells.now) left.now }
{
    for number in left {
        let rule = *number;
        if let Some(place) = first_unsettled(words, cells, &rows[rule], steps) {
            return Some(Unsure { rule, place });
        }
    }
    None
}

/// Of these rules those that are known to hit for all values of the cells.
pub(crate) fn sure_rules(
    alloc: Global,
    words: &[Words],
    rows: &[Row],
    cells: &[Cell],
    left: &[usize],
    steps: &mut u64,
) -> Result<Vec<usize>, AllocError>
    requires { All (λ r. r < length rows.now) left.now }
    ensures must { IfOk result (λ sure. All (IsMustHit words.now rows.now cells.now) sure.items) }
    ensures rising { IfOk result (λ sure. IsRising left.now → IsRising sure.items) }
{
    let mut sure = Vec::with_capacity(alloc, left.len())?;
    for number in left {
        let rule = *number;
        if !must_hit(words, cells, &rows[rule], steps) {
            continue;
        }
        sure.push(rule)?;
    }
    Ok(sure)
}

/// The cells cut in two where that parts the rules that are left best; None where nothing is known to part them.
fn best_halves(
    alloc: Global,
    words: &[Words],
    rows: &[Row],
    cells: &[Cell],
    left: &[usize],
    steps: &mut u64,
) -> Result<Option<(Vec<Cell>, Vec<Cell>)>, AllocError>
    ensures { IfOk result (λ found. IfSome found (λ halves. AreHalves cells.now halves.0.items halves.1.items)) }
{
    let Some(choice) = choose(alloc, words, rows, cells, left, steps)? else {
        return Ok(None);
    };
    let found = cut_cells(alloc, cells, choice.place, choice.cut)?;
    Ok(found)
}

/// The cells cut in two at this entry's column, where the entry is constant.
fn plain_halves(
    alloc: Global,
    rows: &[Row],
    cells: &[Cell],
    unsure: Unsure,
) -> Result<Option<(Vec<Cell>, Vec<Cell>)>, AllocError>
    requires { HasEntry rows.now cells.now unsure }
    ensures halves { IfOk result (λ found. IfSome found (λ halves. AreHalves cells.now halves.0.items halves.1.items)) }
    ensures unless { IfOk result (λ found. found ≡ None → AreConstant rows.now → ⊥) }
{
    let tests = &rows[unsure.rule].rule().tests;
    if !are_constant(&tests[unsure.place]) {
        return Ok(None);
    }
    let halves = cells_in_two(alloc, cells, unsure.place)?;
    Ok(Some(halves))
}

/// The cells cut in two where that parts the rules that are left best, or else at the column of an entry of which it isn't known
/// whether the values meet it. None where the entry isn't constant.
pub(crate) fn halves(
    alloc: Global,
    words: &[Words],
    rows: &[Row],
    cells: &[Cell],
    left: &[usize],
    unsure: Unsure,
    steps: &mut u64,
) -> Result<Option<(Vec<Cell>, Vec<Cell>)>, AllocError>
    requires { HasEntry rows.now cells.now unsure }
    ensures halves { IfOk result (λ found. IfSome found (λ halves. AreHalves cells.now halves.0.items halves.1.items)) }
    ensures unless { IfOk result (λ found. found ≡ None → AreConstant rows.now → ⊥) }
{
    if let Some(halves) = best_halves(alloc, words, rows, cells, left, steps)? {
        return Ok(Some(halves));
    }
    let found = plain_halves(alloc, rows, cells, unsure)?;
    Ok(found)
}
