//! A search for values for which no rule hits.
ghost use Rattle.std.specs.Prelude.{◌≡◌, ◌<◌, List, [], OnOk, IfOk, false, map};
ghost use Rattle.dmn_analysis.specs.Cells.{AllInOrder};
ghost use Rattle.dmn_analysis.specs.Constant.{AreConstant};
ghost use Rattle.dmn_analysis.specs.Cutting.{AreHalves};
ghost use Rattle.dmn_analysis.specs.Searching.{AreLeft, HasEntry, Knows, KnowsBut, Scene, TellsChosen};
ghost use Rattle.dmn_analysis.specs.declared.cell.Cell.{Cell as CellData};

use crate::cell::{Cell, Words};
use crate::row::Row;
use crate::rule_on::{cannot_hit, first_unsettled};
use crate::searching::{Outlook, Unsure, halves, outlook_for, possible};
use crate::witness::is_void;
use std::alloc::{AllocError, Global};

/// Cells, with the rules that may hit for values of them.
#[derive(Drop)]
pub(crate) struct Pending {
    pub(crate) cells: Vec<Cell>,
    pub(crate) left: Vec<usize>,
}

/// Cells for whose values none of the rules hits.
#[derive(Drop)]
pub(crate) struct Bare {
    pub(crate) cells: Vec<Cell>,
}

/// What a search has found so far.
#[derive(Drop)]
pub(crate) struct Search {
    pub(crate) pending: Vec<Pending>,
    pub(crate) bare: Vec<Bare>,
    /// Rules of which it isn't known whether they hit.
    pub(crate) open: Vec<usize>,
    /// Rules that were known to hit.
    pub(crate) sure: Vec<usize>,
}

/// What a chosen rule does for the values of some cells.
pub(crate) enum Chosen {
    Misses,
    Hits,
    Cut(Vec<Cell>, Vec<Cell>),
    Open,
}

// What the rule does, if there is one of this number.
fn chosen_in(
    alloc: Global,
    words: &[Words],
    rows: &[Row],
    chosen: usize,
    cells: &[Cell],
    steps: &mut u64,
) -> Result<Chosen, AllocError>
    ensures { IfOk result (TellsChosen words.now rows.now chosen cells.now) }
{
    if chosen >= rows.len() {
        return Ok(Chosen::Hits);
    }
    if cannot_hit(words, cells, &rows[chosen], steps) {
        return Ok(Chosen::Misses);
    }
    let Some(place) = first_unsettled(words, cells, &rows[chosen], steps) else {
        return Ok(Chosen::Hits);
    };
    let unsure = Unsure {
        rule: chosen,
        place,
    };
    match halves(alloc, words, rows, cells, &[chosen], unsure, steps)? {
        Some((lower, upper)) => Ok(Chosen::Cut(lower, upper)),
        None => Ok(Chosen::Open),
    }
}

impl Search {
    // Cells that were cut in two.
    fn put(
        &mut self,
        alloc: Global,
        lower: Vec<Cell>,
        upper: Vec<Cell>,
        left: Vec<usize>,
    ) -> Result<(), AllocError>
        ensures known { OnOk result ((s : Scene) (cells : List CellData) → AllInOrder s.words → KnowsBut s cells self.old → AreHalves cells lower.items upper.items → AreLeft s cells left.items → Knows s self.new) }
        ensures opened { OnOk result (self.new.open.items ≡ self.old.open.items) }
    {
        let copy = Vec::from_slice(alloc, &left)?;
        self.pending.push(Pending {
            cells: upper,
            left: copy,
        })?;
        self.pending.push(Pending { cells: lower, left })?;
        Ok(())
    }

    // Cells of which it isn't known for all values whether one of the rules hits: they are cut in two.
    fn part(
        &mut self,
        alloc: Global,
        words: &[Words],
        rows: &[Row],
        cells: &[Cell],
        left: Vec<usize>,
        unsure: Unsure,
        steps: &mut u64,
    ) -> Result<(), AllocError>
        requires { HasEntry rows.now cells.now unsure }
        ensures known { OnOk result ((s : Scene) → AllInOrder s.words → KnowsBut s cells.now self.old → AreLeft s cells.now left.items → Knows s self.new) }
        ensures decided { OnOk result (AreConstant rows.now → self.old.open.items ≡ [] → self.new.open.items ≡ []) }
    {
        let Some((lower, upper)) = halves(alloc, words, rows, cells, &left, unsure, steps)? else {
            self.open.push(unsure.rule)?;
            return Ok(());
        };
        self.put(alloc, lower, upper, left)?;
        Ok(())
    }

    // Cells for all of whose values the chosen rule hits. They are left out where they have none.
    fn look(
        &mut self,
        alloc: Global,
        words: &[Words],
        rows: &[Row],
        next: Pending,
        steps: &mut u64,
    ) -> Result<(), AllocError>
        requires { AllInOrder words.now }
        ensures known { OnOk result ((s : Scene) → s.words ≡ words.now → s.rules ≡ rows.now → KnowsBut s next.cells.items self.old → AreLeft s next.cells.items next.left.items → Knows s self.new) }
        ensures decided { OnOk result (AreConstant rows.now → self.old.open.items ≡ [] → self.new.open.items ≡ []) }
    {
        let void = is_void(alloc, words, &next.cells)?;
        if void {
            return Ok(());
        }
        let left = possible(alloc, words, rows, &next.cells, &next.left, steps)?;
        match outlook_for(words, rows, &next.cells, &left, steps) {
            Outlook::Nothing => {
                let Pending { cells, left: _ } = next;
                self.bare.push(Bare { cells })?;
                Ok(())
            }
            Outlook::Sure(rule) => {
                self.sure.push(rule)?;
                Ok(())
            }
            Outlook::Unsure(unsure) => {
                self.part(alloc, words, rows, &next.cells, left, unsure, steps)?;
                Ok(())
            }
        }
    }

    // One turn of the search.
    fn turn(
        &mut self,
        alloc: Global,
        words: &[Words],
        rows: &[Row],
        chosen: usize,
        next: Pending,
        steps: &mut u64,
    ) -> Result<(), AllocError>
        requires { AllInOrder words.now }
        ensures known { OnOk result ((s : Scene) → s.words ≡ words.now → s.rules ≡ rows.now → s.chosen ≡ chosen → KnowsBut s next.cells.items self.old → AreLeft s next.cells.items next.left.items → Knows s self.new) }
        ensures decided { OnOk result (AreConstant rows.now → self.old.open.items ≡ [] → self.new.open.items ≡ []) }
    {
        match chosen_in(alloc, words, rows, chosen, &next.cells, steps)? {
            Chosen::Misses => Ok(()),
            Chosen::Hits => {
                self.look(alloc, words, rows, next, steps)?;
                Ok(())
            }
            Chosen::Cut(lower, upper) => {
                let Pending { cells: _, left } = next;
                self.put(alloc, lower, upper, left)?;
                Ok(())
            }
            Chosen::Open => {
                self.open.push(chosen)?;
                Ok(())
            }
        }
    }
}

/// Whether as many are found as are wanted, where that is not all of them.
fn is_enough(found: usize, most: usize) -> bool
    ensures { most ≡ 18446744073709551615 → result ≡ false }
{
    most < usize::MAX && found >= most
}

/// Searches these cells for values for which the chosen rule hits, if there is one of this number, and none of the rules that are
/// left. It ends where nothing is pending, where the steps ran out, or where as many were found as are wanted, unless that is
/// `usize::MAX`.
pub(crate) fn go_through(
    alloc: Global,
    words: &[Words],
    rows: &[Row],
    chosen: usize,
    first: Pending,
    most: usize,
    steps: &mut u64,
) -> Result<Search, AllocError>
    requires { AllInOrder words.now }
    ensures known { IfOk result (λ search. (s : Scene) → s.words ≡ words.now → s.rules ≡ rows.now → s.chosen ≡ chosen → s.first ≡ first.left.items → s.whole ≡ first.cells.items → Knows s search) }
    ensures decided { IfOk result (λ search. AreConstant rows.now → search.open.items ≡ []) }
    ensures ended { IfOk result (λ search. most ≡ 18446744073709551615 → 0 < steps.new → search.pending.items ≡ []) }
{
    let mut search = Search {
        pending: Vec::new(alloc),
        bare: Vec::new(alloc),
        open: Vec::new(alloc),
        sure: Vec::new(alloc),
    };
    search.pending.push(first)?;
    let turns = *steps;
    for _turn in 0..turns {
        if *steps == 0 {
            return Ok(search);
        }
        if is_enough(search.bare.len(), most) {
            return Ok(search);
        }
        let Some(next) = search.pending.pop() else {
            return Ok(search);
        };
        search.turn(alloc, words, rows, chosen, next, steps)?;
    }
    // So many turns have taken all of the steps.
    *steps = 0;
    Ok(search)
}
