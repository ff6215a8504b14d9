//! Cells for whose values no rule hits, joined where that is borne out by the rules.
ghost use Rattle.std.specs.Prelude.{◌≡◌, IsTrue, IfOk, length, map};
ghost use Rattle.std.specs.List.{All};
ghost use Rattle.dmn_analysis.specs.Joining.{AreCovered, AreMissed};
ghost use Rattle.dmn_analysis.specs.Searching.{CannotHit, IsBare, Scene};

use crate::cell::{Cell, Words};
use crate::gaps::Bare;
use crate::joining::join;
use crate::row::Row;
use crate::rule_on::cannot_hit;
use crate::within::are_covered;
use std::alloc::{AllocError, Global};

/// How many steps it takes at most to find that the rules bear out the cells.
const STEPS: u64 = 2_000_000;

// Whether no rule hits for any of the values of the cells, of which there are so many. False where the steps ran out.
fn are_missed(words: &[Words], rows: &[Row], cells: &[Cell], count: usize, steps: &mut u64) -> bool
    ensures long { IsTrue result → length cells.now ≡ count }
    ensures missed { IsTrue result → All (λ r. CannotHit words.now cells.now r) rows.now }
{
    if cells.len() != count || *steps == 0 {
        return false;
    }
    for row in rows {
        if !cannot_hit(words, cells, row, steps) {
            return false;
        }
    }
    true
}

// The same of each of these.
fn are_all_missed(words: &[Words], rows: &[Row], all: &[Bare], count: usize) -> bool
    ensures { IsTrue result → All (AreMissed words.now rows.now count) all.now }
{
    let mut steps = STEPS;
    for one in all {
        if !are_missed(words, rows, &one.cells, count, &mut steps) {
            return false;
        }
    }
    true
}

/// The cells, joined where the rules bear that out; otherwise as they are.
pub(crate) fn joined_where_right(
    alloc: Global,
    words: &[Words],
    rows: &[Row],
    bare: Vec<Bare>,
    count: usize,
) -> Result<Vec<Bare>, AllocError>
    ensures bare { IfOk result (λ all. (s : Scene) → s.words ≡ words.now → s.rules ≡ rows.now → length s.whole ≡ count → All (IsBare s) bare.items → All (IsBare s) all.items) }
    ensures covered { IfOk result (λ all. All (λ b. AreCovered b.cells.items all.items) bare.items) }
{
    let Some(all) = join(alloc, &bare)? else {
        return Ok(bare);
    };
    if !are_all_missed(words, rows, &all, count) {
        return Ok(bare);
    }
    if !are_covered(&bare, &all) {
        return Ok(bare);
    }
    Ok(all)
}
