//! What is told of single rules of a table: that they never hit, or never before others do.
ghost use Rattle.std.specs.Prelude.{◌≡◌, [], IsTrue, IfOk, IfSome};
ghost use Rattle.std.specs.List.{All};
ghost use Rattle.dmn_analysis.specs.Cells.{AllInOrder};
ghost use Rattle.dmn_analysis.specs.Claims.{GoesBefore, IsMaskedAmong, IsNeverMetAmong};
ghost use Rattle.dmn_analysis.specs.Ranking.{AreRanks};
ghost use Rattle.dmn_analysis.specs.Telling.{IsBehind, IsMaskedOn};

use crate::asked::Asked;
use crate::cell::{Cell, Words};
use crate::found::{Mask, Masks};
use crate::gap_answers::{distinct, is_done, places};
use crate::gaps::{Bare, Pending, go_through};
use crate::ranking::{Rank, ranks, rules_ahead, unranked};
use crate::row::{Row, rows_of};
use crate::whole::whole;
use crate::words::all_words;
use dmn_table::{HitPolicy, Table};
use std::alloc::{AllocError, Global};

/// How many steps it takes at most to find whether a rule ever hits.
const STEPS_A_RULE: u64 = 20_000;

fn are_covered(bare: &[Bare]) -> bool
    ensures { IsTrue result → bare.now ≡ [] }
{
    bare.first().is_none()
}

/// Whether wherever a rule hits for values of these cells one of some others does; and which of them. Where there are no others, it is
/// told that it never hits. Otherwise None, or where that isn't known.
pub(crate) fn behind(
    alloc: Global,
    words: &[Words],
    rows: &[Row],
    cells: &[Cell],
    rule: usize,
    others: Vec<usize>,
    steps: &mut u64,
) -> Result<Option<Vec<usize>>, AllocError>
    requires { AllInOrder words.now }
    ensures { IfOk result (λ found. IfSome found (λ sure. IsBehind words.now rows.now cells.now rule others.items)) }
{
    let copy = Vec::from_slice(alloc, cells)?;
    let first = Pending {
        cells: copy,
        left: others,
    };
    let search = go_through(alloc, words, rows, rule, first, 1, steps)?;
    if !are_covered(&search.bare) {
        return Ok(None);
    }
    if !is_done(&search.pending, &search.open) {
        return Ok(None);
    }
    Ok(Some(distinct(search.sure)))
}

fn rules_out(
    alloc: Global,
    words: &[Words],
    rows: &[Row],
    cells: &[Cell],
) -> Result<Vec<usize>, AllocError>
    requires { AllInOrder words.now }
    ensures { IfOk result (λ out. All (λ i. IsBehind words.now rows.now cells.now i []) out.items) }
{
    let mut out = Vec::new(alloc);
    for rule in 0..rows.len() {
        let mut steps = STEPS_A_RULE;
        let none = Vec::new(alloc);
        let Some(_) = behind(alloc, words, rows, cells, rule, none, &mut steps)? else {
            continue;
        };
        out.push(rule)?;
    }
    Ok(out)
}

/// The places of the rules, counted from 0, of which it is known that they never hit, whatever the values of the input columns that are
/// asked about and whatever the names stand for.
pub fn never_met(alloc: Global, table: &Table, asked: &[Asked]) -> Result<Vec<usize>, AllocError>
    ensures { IfOk result (λ out. All (IsNeverMetAmong table.now asked.now) out.items) }
{
    let rules = table.rules();
    let count = table.inputs().len();
    let words = all_words(alloc, rules, asked, count)?;
    let Some(cells) = whole(alloc, &words, asked, count)? else {
        return Ok(Vec::new(alloc));
    };
    let rows = rows_of(alloc, rules)?;
    let out = rules_out(alloc, &words, &rows, &cells)?;
    Ok(out)
}

// The ranks of the rules, where these decide which goes before another.
fn ranks_under_policy(alloc: Global, table: &Table) -> Result<Vec<Rank>, AllocError>
    ensures { IfOk result (λ found. AreRanks table.now.outputs table.now.rules found.items) }
{
    let HitPolicy::Priority = table.policy() else {
        return Ok(Vec::new(alloc));
    };
    let found = ranks(alloc, table)?;
    Ok(found)
}

// The rules that are known to go before this one under the table's hit policy.
fn rules_before(
    alloc: Global,
    table: &Table,
    ranks: &[Rank],
    rule: usize,
    steps: &mut u64,
) -> Result<Vec<usize>, AllocError>
    requires { AreRanks table.now.outputs table.now.rules ranks.now }
    ensures { IfOk result (λ first. All (λ j. GoesBefore table.now j rule) first.items) }
{
    match table.policy() {
        HitPolicy::First => {
            let first = places(alloc, rule)?;
            Ok(first)
        }
        HitPolicy::Priority => {
            let first = rules_ahead(alloc, table, ranks, rule, steps)?;
            Ok(first)
        }
        _ => Ok(Vec::new(alloc)),
    }
}

fn masks(
    alloc: Global,
    table: &Table,
    ranks: &[Rank],
    words: &[Words],
    cells: &[Cell],
    steps: &mut u64,
) -> Result<Vec<Mask>, AllocError>
    requires ranks { AreRanks table.now.outputs table.now.rules ranks.now }
    requires order { AllInOrder words.now }
    ensures { IfOk result (λ found. All (λ k. IsMaskedOn table.now words.now cells.now k.rule) found.items) }
{
    let rows = rows_of(alloc, table.rules())?;
    let mut found = Vec::new(alloc);
    for rule in 0..rows.len() {
        if *steps == 0 {
            return Ok(found);
        }
        let others = rules_before(alloc, table, ranks, rule, steps)?;
        if others.is_empty() {
            continue;
        }
        let Some(behind) = behind(alloc, words, &rows, cells, rule, others, steps)? else {
            continue;
        };
        if behind.is_empty() {
            continue;
        }
        found.push(Mask { rule, behind })?;
    }
    Ok(found)
}

/// The rules of which it is known that wherever they hit a rule hits that goes before them, whatever the values of the input columns
/// that are asked about and whatever the names stand for; but not those that never hit. Under `F` the rules go as they stand, under
/// `P` by the priority of their outputs, where no names decide these, and then as they stand; under the other policies none is found.
/// The search takes at most so many steps.
pub fn find_masked(
    alloc: Global,
    table: &Table,
    asked: &[Asked],
    steps: u64,
) -> Result<Masks, AllocError>
    ensures { IfOk result (λ masks. All (λ m. IsMaskedAmong table.now asked.now m.rule) masks.found.items) }
{
    let count = table.inputs().len();
    let words = all_words(alloc, table.rules(), asked, count)?;
    let ranks = ranks_under_policy(alloc, table)?;
    let mut rest = steps;
    let Some(cells) = whole(alloc, &words, asked, count)? else {
        return Ok(Masks {
            found: Vec::new(alloc),
            is_all: false,
            unranked: Vec::new(alloc),
            steps: 0,
        });
    };
    let found = masks(alloc, table, &ranks, &words, &cells, &mut rest)?;
    let unranked = unranked(alloc, &ranks)?;
    Ok(Masks {
        found,
        is_all: rest > 0 && unranked.is_empty(),
        unranked,
        steps: steps.saturating_sub(rest),
    })
}
