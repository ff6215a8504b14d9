//! Whether no two rules hit whatever the values are, or for which values two do.
ghost use Rattle.std.specs.Prelude.{◌≡◌, ◌<◌, List, [], None, false, IsTrue, IfOk, IfSome, length, map};
ghost use Rattle.std.specs.List.{All};
ghost use Rattle.dmn_table.specs.Parts.{rule_view};
ghost use Rattle.dmn_analysis.specs.Cells.{AllInOrder};
ghost use Rattle.dmn_analysis.specs.Claims.{AreKnown, AreOverlappingIn, DecidesOverlaps, Hits, TellsOverlaps};
ghost use Rattle.dmn_analysis.specs.Constant.{IsConstant};
ghost use Rattle.dmn_analysis.specs.Sharing.{IsPairOf, IsShared, MustOverlap};
ghost use Rattle.dmn_analysis.specs.declared.cell.Words.{Words as WordsData};

use crate::asked::Asked;
use crate::asking::hits;
use crate::cell::{Cell, Words};
use crate::found::{Overlap, Overlaps};
use crate::gap_answers::{distinct, is_done, places};
use crate::gaps::Pending;
use crate::pairing::{Pair, pairs_of};
use crate::pairs::{PairSearch, Shared, find_shared};
use crate::row::rows_of;
use crate::whole::whole;
use crate::witness::values_of;
use crate::words::all_words;
use dmn_table::{Rule, Table};
use feel_value::Feel;
use std::alloc::{AllocError, Global};

/// The most cells with several rules that are looked for.
const MOST_SHARED: usize = 100_000;

// Values of the cells for which both rules hit where no name stands for anything; None where the rules don't say so.
fn witness(
    alloc: Global,
    words: &[Words],
    rules: &[Rule],
    cells: &[Cell],
    i: usize,
    j: usize,
    count: usize,
) -> Result<Option<Vec<Feel>>, AllocError>
    requires { AllInOrder words.now }
    ensures one_each { IfOk result (λ found. IfSome found (λ values. length values.items ≡ count)) }
    ensures first { IfOk result (λ found. IfSome found (λ values. Hits (map rule_view rules.now) i values.items)) }
    ensures second { IfOk result (λ found. IfSome found (λ values. Hits (map rule_view rules.now) j values.items)) }
    ensures unless { IfOk result (λ found. found ≡ None → MustOverlap words.now (map rule_view rules.now) count cells.now i j → ⊥) }
{
    let Some(values) = values_of(alloc, words, cells)? else {
        return Ok(None);
    };
    if values.len() != count {
        return Ok(None);
    }
    if !hits(alloc, rules, i, &values)? {
        return Ok(None);
    }
    if !hits(alloc, rules, j, &values)? {
        return Ok(None);
    }
    Ok(Some(values))
}

fn overlap_of(
    alloc: Global,
    words: &[Words],
    rules: &[Rule],
    cells: &[Cell],
    pair: Pair,
    count: usize,
) -> Result<Option<Overlap>, AllocError>
    requires { AllInOrder words.now }
    ensures overlap { IfOk result (λ found. IfSome found (λ o. AreOverlappingIn count (map rule_view rules.now) o.first o.second o.values.items)) }
    ensures unless { IfOk result (λ found. found ≡ None → MustOverlap words.now (map rule_view rules.now) count cells.now pair.first pair.second → ⊥) }
{
    let (first, second) = (pair.first, pair.second);
    if first >= second {
        return Ok(None);
    }
    let Some(values) = witness(alloc, words, rules, cells, first, second, count)? else {
        return Ok(None);
    };
    let copy = Vec::from_slice(alloc, cells)?;
    Ok(Some(Overlap {
        first,
        second,
        cells: copy,
        values,
    }))
}

// The overlaps of these pairs, at most so many.
fn tell(
    alloc: Global,
    words: &[Words],
    rules: &[Rule],
    all: &[Shared],
    pairs: &[Pair],
    count: usize,
    most: usize,
) -> Result<Vec<Overlap>, AllocError>
    requires { AllInOrder words.now }
    ensures each { IfOk result (λ found. All (λ o. AreOverlappingIn count (map rule_view rules.now) o.first o.second o.values.items) found.items) }
    ensures some { IfOk result (λ found. 0 < most → All (IsShared words.now (map rule_view rules.now) count) all.now → All (IsPairOf all.now) pairs.now → found.items ≡ [] → pairs.now ≡ []) }
{
    let mut found = Vec::new(alloc);
    for pair in pairs {
        if found.len() >= most {
            return Ok(found);
        }
        let Some(shared) = all.get(pair.shared) else {
            continue;
        };
        let Some(overlap) = overlap_of(alloc, words, rules, &shared.cells, *pair, count)? else {
            continue;
        };
        found.push(overlap)?;
    }
    Ok(found)
}

fn nothing_told(alloc: Global, words: Vec<Words>) -> Overlaps
    ensures found { result.found.items ≡ [] }
    ensures undecided { result.is_all ≡ false }
{
    Overlaps {
        words,
        found: Vec::new(alloc),
        more: 0,
        is_all: false,
        open: Vec::new(alloc),
        steps: 0,
    }
}

fn are_unshared(shared: &[Shared]) -> bool
    ensures none { IsTrue result → shared.now ≡ [] }
    ensures all { shared.now ≡ [] → IsTrue result }
{
    shared.is_empty()
}

fn are_untold(found: &[Overlap]) -> bool
    ensures { found.now ≡ [] → IsTrue result }
{
    found.is_empty()
}

// Whether it is known that there are no other pairs than those that are told, where these are all of those that share cells or
// not; where none is told, none were found.
fn are_all(search: &PairSearch, is_all: bool, found: &[Overlap]) -> bool
    ensures pairs { IsTrue result → IsTrue is_all }
    ensures done { IsTrue result → (search.now.pending.items ≡ []) × (search.now.open.items ≡ []) }
    ensures none { IsTrue result → found.now ≡ [] → search.now.shared.items ≡ [] }
    ensures all { IsTrue is_all → search.now.shared.items ≡ [] → search.now.pending.items ≡ [] → search.now.open.items ≡ [] → IsTrue result }
{
    if !is_all {
        return false;
    }
    if are_untold(found) && !are_unshared(&search.shared) {
        return false;
    }
    is_done(&search.pending, &search.open)
}

/// Whether no two rules of the table hit, whatever the values of its input columns that are asked about and whatever the names stand
/// for: the pairs that do, of which at most so many are told, each once. `asked` has an entry for each input column, as for
/// `find_gaps`. The search takes at most so many steps.
pub fn find_overlaps(
    alloc: Global,
    table: &Table,
    asked: &[Asked],
    most: usize,
    steps: u64,
) -> Result<Overlaps, AllocError>
    ensures tells { IfOk result (TellsOverlaps table.now asked.now) }
    ensures decides { IfOk result (λ overlaps. IsConstant table.now → ((words : List WordsData) → AreKnown (length table.now.inputs) words asked.now) → 0 < most → overlaps.steps < steps → DecidesOverlaps overlaps) }
{
    let rules = table.rules();
    let count = table.inputs().len();
    let words = all_words(alloc, rules, asked, count)?;
    let Some(cells) = whole(alloc, &words, asked, count)? else {
        return Ok(nothing_told(alloc, words));
    };
    let rows = rows_of(alloc, rules)?;
    let left = places(alloc, rules.len())?;
    let first = Pending { cells, left };
    let mut rest = steps;
    let search = find_shared(alloc, &words, &rows, first, MOST_SHARED, &mut rest)?;
    let pairs = pairs_of(alloc, &search.shared)?;
    let found = tell(
        alloc,
        &words,
        rules,
        &search.shared,
        &pairs.found,
        count,
        most,
    )?;
    let is_all = are_all(&search, pairs.is_all, &found);
    Ok(Overlaps {
        words,
        more: pairs.found.len().saturating_sub(found.len()),
        found,
        is_all,
        open: distinct(search.open),
        steps: steps.saturating_sub(rest),
    })
}
