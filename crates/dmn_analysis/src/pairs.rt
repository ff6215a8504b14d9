//! A search for values for which two rules hit.
ghost use Rattle.std.specs.Prelude.{◌≡◌, ◌<◌, ◌≤◌, List, [], OnOk, IfOk, length, map};
ghost use Rattle.std.specs.List.{All};
ghost use Rattle.dmn_analysis.specs.Cells.{AllInOrder};
ghost use Rattle.dmn_analysis.specs.Constant.{AreConstant};
ghost use Rattle.dmn_analysis.specs.Cutting.{AreHalves};
ghost use Rattle.dmn_analysis.specs.Searching.{AreLeft, Scene};
ghost use Rattle.dmn_analysis.specs.Sharing.{IsMustHit, IsRising, KnowsPairs, KnowsPairsBut};
ghost use Rattle.dmn_analysis.specs.declared.cell.Cell.{Cell as CellData};

use crate::cell::{Cell, Words};
use crate::gaps::Pending;
use crate::row::Row;
use crate::searching::{are_few, first_unsure, halves, possible, sure_rules};
use crate::witness::values_of;
use std::alloc::{AllocError, Global};

/// Cells for whose values each of these rules hits.
#[derive(Drop)]
pub(crate) struct Shared {
    pub(crate) cells: Vec<Cell>,
    pub(crate) rules: Vec<usize>,
}

/// What a search for two rules has found so far.
#[derive(Drop)]
pub(crate) struct PairSearch {
    pub(crate) pending: Vec<Pending>,
    pub(crate) shared: Vec<Shared>,
    /// Rules of which it isn't known whether they hit where another may.
    pub(crate) open: Vec<usize>,
}

impl PairSearch {
    // Cells that were cut in two.
    fn put(
        &mut self,
        alloc: Global,
        lower: Vec<Cell>,
        upper: Vec<Cell>,
        left: Vec<usize>,
    ) -> Result<(), AllocError>
        ensures known { OnOk result ((s : Scene) (cells : List CellData) → AllInOrder s.words → KnowsPairsBut s cells self.old → AreHalves cells lower.items upper.items → AreLeft s cells left.items → IsRising left.items → KnowsPairs s self.new) }
        ensures opened { OnOk result (self.new.open.items ≡ self.old.open.items) }
    {
        let copy = Vec::from_slice(alloc, &left)?;
        self.pending.push(Pending {
            cells: upper,
            left: copy,
        })?;
        self.pending.push(Pending { cells: lower, left })?;
        Ok(())
    }

    // Cells for all of whose values each of these rules hits. They are left out where they have none.
    fn share(
        &mut self,
        alloc: Global,
        words: &[Words],
        cells: Vec<Cell>,
        rules: Vec<usize>,
    ) -> Result<(), AllocError>
        requires several { 2 ≤ length rules.items }
        requires order { AllInOrder words.now }
        ensures known { OnOk result ((s : Scene) → s.words ≡ words.now → KnowsPairsBut s cells.items self.old → All (IsMustHit s.words s.rules cells.items) rules.items → IsRising rules.items → KnowsPairs s self.new) }
        ensures opened { OnOk result (self.new.open.items ≡ self.old.open.items) }
    {
        let Some(_) = values_of(alloc, words, &cells)? else {
            return Ok(());
        };
        self.shared.push(Shared { cells, rules })?;
        Ok(())
    }

    // Cells of whose values it isn't known for each of these rules whether it hits: those that hit for all of them are shared.
    fn leave(
        &mut self,
        alloc: Global,
        words: &[Words],
        rows: &[Row],
        cells: Vec<Cell>,
        left: Vec<usize>,
        unsure: usize,
        steps: &mut u64,
    ) -> Result<(), AllocError>
        requires there { All (λ r. r < length rows.now) left.items }
        requires order { AllInOrder words.now }
        ensures { OnOk result ((s : Scene) → s.words ≡ words.now → s.rules ≡ rows.now → KnowsPairsBut s cells.items self.old → IsRising left.items → KnowsPairs s self.new) }
    {
        self.open.push(unsure)?;
        let sure = sure_rules(alloc, words, rows, &cells, &left, steps)?;
        if are_few(&sure) {
            return Ok(());
        }
        self.share(alloc, words, cells, sure)?;
        Ok(())
    }

    // One turn of the search.
    fn turn(
        &mut self,
        alloc: Global,
        words: &[Words],
        rows: &[Row],
        next: Pending,
        steps: &mut u64,
    ) -> Result<(), AllocError>
        requires { AllInOrder words.now }
        ensures known { OnOk result ((s : Scene) → s.words ≡ words.now → s.rules ≡ rows.now → KnowsPairsBut s next.cells.items self.old → AreLeft s next.cells.items next.left.items → IsRising next.left.items → KnowsPairs s self.new) }
        ensures decided { OnOk result (AreConstant rows.now → self.old.open.items ≡ [] → self.new.open.items ≡ []) }
    {
        let left = possible(alloc, words, rows, &next.cells, &next.left, steps)?;
        if are_few(&left) {
            return Ok(());
        }
        let Some(unsure) = first_unsure(words, rows, &next.cells, &left, steps) else {
            let Pending { cells, left: _ } = next;
            self.share(alloc, words, cells, left)?;
            return Ok(());
        };
        let Some((lower, upper)) = halves(alloc, words, rows, &next.cells, &left, unsure, steps)?
        else {
            let Pending { cells, left: _ } = next;
            self.leave(alloc, words, rows, cells, left, unsure.rule, steps)?;
            return Ok(());
        };
        self.put(alloc, lower, upper, left)?;
        Ok(())
    }
}

/// Searches these cells for values for which two of the rules that are left hit. It ends where nothing is pending, where the steps
/// ran out, or where as many cells were found as are wanted.
pub(crate) fn find_shared(
    alloc: Global,
    words: &[Words],
    rows: &[Row],
    first: Pending,
    most: usize,
    steps: &mut u64,
) -> Result<PairSearch, AllocError>
    requires { AllInOrder words.now }
    ensures known { IfOk result (λ search. (s : Scene) → s.words ≡ words.now → s.rules ≡ rows.now → s.first ≡ first.left.items → s.whole ≡ first.cells.items → IsRising first.left.items → KnowsPairs s search) }
    ensures decided { IfOk result (λ search. AreConstant rows.now → search.open.items ≡ []) }
    ensures ended { IfOk result (λ search. 0 < most → 0 < steps.new → search.shared.items ≡ [] → search.pending.items ≡ []) }
{
    let mut search = PairSearch {
        pending: Vec::new(alloc),
        shared: Vec::new(alloc),
        open: Vec::new(alloc),
    };
    search.pending.push(first)?;
    let turns = *steps;
    for _turn in 0..turns {
        if *steps == 0 || search.shared.len() >= most {
            return Ok(search);
        }
        let Some(next) = search.pending.pop() else {
            return Ok(search);
        };
        search.turn(alloc, words, rows, next, steps)?;
    }
    // So many turns have taken all of the steps.
    *steps = 0;
    Ok(search)
}
