//! Whether some rule hits whatever the values are, or for which values none does.
ghost use Rattle.std.specs.Prelude.{◌≡◌, ◌<◌, ◌++◌, ℕ, [], IsTrue, IfOk, IfSome, None, false, length, map};
ghost use Rattle.std.specs.List.{All};
ghost use Rattle.dmn_table.specs.Parts.{rule_view};
ghost use Rattle.dmn_analysis.specs.Cells.{AllInOrder};
ghost use Rattle.dmn_analysis.specs.Claims.{AreKnown, DecidesGaps, IsGapIn, TellsGaps};
ghost use Rattle.dmn_analysis.specs.Constant.{AreConstant, IsConstant};
ghost use Rattle.dmn_analysis.specs.Joining.{AreMissed};
ghost use Rattle.dmn_analysis.specs.Searching.{IsAmong, IsBare, Scene};
ghost use Rattle.dmn_analysis.specs.Sharing.{IsRising};
ghost use Rattle.dmn_analysis.specs.Telling.{IsDealtWith, IsToldGap};

use crate::asked::Asked;
use crate::asking::all_miss;
use crate::broken::broken_rules;
use crate::cell::{Cell, Words};
use crate::found::{Gap, Gaps};
use crate::gaps::{Bare, Pending, Search, go_through};
use crate::joined::joined_where_right;
use crate::row::rows_of;
use crate::whole::whole;
use crate::witness::values_of;
use crate::words::all_words;
use dmn_table::{Rule, Table};
use feel_value::Feel;
use std::alloc::{AllocError, Global};

/// The places of so many rules.
pub(crate) fn places(alloc: Global, count: usize) -> Result<Vec<usize>, AllocError>
    ensures below { IfOk result (λ places. All (λ r. r < count) places.items) }
    ensures each { IfOk result (λ places. (r : ℕ) → r < count → IsAmong places.items r) }
    ensures rising { IfOk result (λ places. IsRising places.items) }
    ensures long { IfOk result (λ places. length places.items ≡ count) }
{
    let mut places = Vec::with_capacity(alloc, count)?;
    for place in 0..count {
        places.push(place)?;
    }
    Ok(places)
}

// The gap of these cells with some of their values; None where the rules don't say that none hits for these where no name stands for
// anything.
fn gap_of(
    alloc: Global,
    rules: &[Rule],
    cells: &[Cell],
    values: Vec<Feel>,
    count: usize,
) -> Result<Option<Gap>, AllocError>
    ensures cells { IfOk result (λ found. IfSome found (λ gap. gap.cells.items ≡ cells.now)) }
    ensures witness { IfOk result (λ found. IfSome found (λ gap. IsGapIn count (map rule_view rules.now) gap.values.items)) }
    ensures unless { IfOk result (λ found. found ≡ None → IsGapIn count (map rule_view rules.now) values.items → ⊥) }
{
    if values.len() != count {
        return Ok(None);
    }
    if !all_miss(alloc, rules, &values)? {
        return Ok(None);
    }
    let copy = Vec::from_slice(alloc, cells)?;
    Ok(Some(Gap {
        cells: copy,
        values,
    }))
}

/// Gaps that are told, and how many others there are.
#[derive(Drop)]
struct Told {
    found: Vec<Gap>,
    more: usize,
    // Whether the rules bore out each of those that were to be told.
    is_all: bool,
}

// A gap for each of these cells that have values, at most so many.
fn tell(
    alloc: Global,
    words: &[Words],
    rules: &[Rule],
    bare: &[Bare],
    count: usize,
    most: usize,
) -> Result<Told, AllocError>
    requires { AllInOrder words.now }
    ensures each { IfOk result (λ told. (s : Scene) → s.rules ≡ map rule_view rules.now → All (IsBare s) bare.now → All (IsToldGap s count) told.found.items) }
    ensures all { IfOk result (λ told. IsTrue told.is_all → told.more ≡ 0 → All (λ b. IsDealtWith words.now told.found.items b.cells.items) bare.now) }
    ensures one { IfOk result (λ told. 0 < most → told.found.items ≡ [] → told.more ≡ 0) }
    ensures decided { IfOk result (λ told. AreConstant (map rule_view rules.now) → All (AreMissed words.now (map rule_view rules.now) count) bare.now → IsTrue told.is_all) }
{
    let mut found = Vec::new(alloc);
    let mut is_all = true;
    for place in 0..bare.len() {
        if found.len() >= most {
            let more = bare.len() - place;
            return Ok(Told {
                found,
                more,
                is_all,
            });
        }
        let cells = &bare[place].cells;
        let Some(values) = values_of(alloc, words, cells)? else {
            continue;
        };
        let Some(gap) = gap_of(alloc, rules, cells, values, count)? else {
            is_all = false;
            continue;
        };
        found.push(gap)?;
    }
    Ok(Told {
        found,
        more: 0,
        is_all,
    })
}

// Whether nothing is pending.
pub(crate) fn are_none(pending: &[Pending]) -> bool
    ensures none { IsTrue result → pending.now ≡ [] }
    ensures all { pending.now ≡ [] → IsTrue result }
{
    pending.is_empty()
}

// Whether a search went through all, and met no rule of which it isn't known whether it hits.
pub(crate) fn is_done(pending: &[Pending], unsure: &[usize]) -> bool
    ensures done { IsTrue result → (pending.now ≡ []) × (unsure.now ≡ []) }
    ensures all { pending.now ≡ [] → unsure.now ≡ [] → IsTrue result }
{
    if !are_none(pending) {
        return false;
    }
    unsure.is_empty()
}

// Whether each gap is told, or counted among the others.
fn are_all(told: &Told, pending: &[Pending], unsure: &[usize]) -> bool
    ensures done { IsTrue result → (pending.now ≡ []) × (unsure.now ≡ []) }
    ensures told { IsTrue result → IsTrue told.now.is_all }
    ensures all { IsTrue told.now.is_all → pending.now ≡ [] → unsure.now ≡ [] → IsTrue result }
{
    if !told.is_all {
        return false;
    }
    is_done(pending, unsure)
}

/// These numbers, each once, in order.
pub(crate) fn distinct(numbers: Vec<usize>) -> Vec<usize> {
    let mut numbers = numbers;
    numbers.sort_unstable();
    numbers.dedup();
    numbers
}

// These rules and those.
fn with_rules(unsure: Vec<usize>, broken: &[usize]) -> Result<Vec<usize>, AllocError>
    ensures { IfOk result (λ all. all.items ≡ unsure.items ++ broken.now) }
{
    let mut all = unsure;
    all.extend_from_slice(broken)?;
    Ok(all)
}

fn nothing_told(alloc: Global, words: Vec<Words>) -> Gaps
    ensures words { result.words.items ≡ words.items }
    ensures found { result.found.items ≡ [] }
    ensures undecided { result.is_all ≡ false }
{
    Gaps {
        words,
        found: Vec::new(alloc),
        more: 0,
        is_all: false,
        open: Vec::new(alloc),
        steps: 0,
    }
}

/// Whether some rule of the table hits, whatever the values of its input columns that are asked about and whatever the names stand
/// for: the gaps among them, of which at most so many are told. `asked` has an entry for each input column; otherwise nothing is
/// decided. Of some texts more are asked about: each that stands in the column's tests, and all where one of them doesn't. The search
/// takes at most so many steps: a step is one entry of a rule asked of some values, or eight tests of a long one that isn't a list of
/// constants.
pub fn find_gaps(
    alloc: Global,
    table: &Table,
    asked: &[Asked],
    most: usize,
    steps: u64,
) -> Result<Gaps, AllocError>
    ensures tells { IfOk result (TellsGaps table.now asked.now) }
    ensures decides { IfOk result (λ gaps. IsConstant table.now → AreKnown (length table.now.inputs) gaps.words.items asked.now → 0 < most → gaps.steps < steps → DecidesGaps gaps) }
{
    let rules = table.rules();
    let count = table.inputs().len();
    let words = all_words(alloc, rules, asked, count)?;
    let Some(cells) = whole(alloc, &words, asked, count)? else {
        return Ok(nothing_told(alloc, words));
    };
    let rows = rows_of(alloc, rules)?;
    let left = places(alloc, rules.len())?;
    let first = Pending { cells, left };
    let mut rest = steps;
    let search = go_through(
        alloc,
        &words,
        &rows,
        rules.len(),
        first,
        usize::MAX,
        &mut rest,
    )?;
    let Search {
        pending,
        bare,
        open,
        sure: _,
    } = search;
    let all = joined_where_right(alloc, &words, &rows, bare, count)?;
    let told = tell(alloc, &words, rules, &all, count, most)?;
    let broken = broken_rules(alloc, rules)?;
    let open = with_rules(open, &broken)?;
    let is_all = are_all(&told, &pending, &open);
    let Told { found, more, .. } = told;
    Ok(Gaps {
        words,
        found,
        more,
        is_all,
        open: distinct(open),
        steps: steps.saturating_sub(rest),
    })
}
