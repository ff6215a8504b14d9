//! Which rules go before others by the priority of their outputs.
ghost use Rattle.std.specs.Prelude.{◌≡◌, ◌<◌, IsTrue, IfOk, IfSome, length, map};
ghost use Rattle.std.specs.List.{All};
ghost use Rattle.feel_value.specs.declared.feel.Outcome.TheVariants.{Is};
ghost use Rattle.feel_text.specs.Meaning.{Bindings, den};
ghost use Rattle.feel_text.specs.View.{view};
ghost use Rattle.dmn_table.specs.Parts.{column_view, rule_view};
ghost use Rattle.dmn_table.specs.Priority.{is_higher as is_higher_of, listed_values, place};
ghost use Rattle.dmn_analysis.specs.Claims.{IsAhead};
ghost use Rattle.dmn_analysis.specs.Ranking.{AreRanks, HasPlace, HavePlaces, IsRank, RanksBefore};

use crate::folded::number_of;
use dmn_table::{Listed, Output, Rule, Table, lists_of};
use feel_lang::Expr;
use feel_text::Tree;
use feel_value::{Feel, Value};
use std::alloc::{AllocError, Global};

/// So many rules cost one step to compare.
const RANKS_A_STEP: usize = 16;

/// The places of the values of a rule's outputs in the lists of output values, where they are known.
#[derive(Drop)]
pub(crate) struct Rank {
    pub(crate) is_known: bool,
    pub(crate) places: Vec<usize>,
}

// The place of a value in a list of so many.
fn place_of(listed: &Listed<'_>, count: usize, value: &Feel) -> usize
    requires { count ≡ length listed.now }
    ensures { result ≡ place listed.now value.now }
{
    match listed.listed_place(value) {
        Some(place) => place - 1,
        None => count,
    }
}

// The number that an expression is, as a value.
fn number_value(expr: &Tree) -> Option<Feel>
    ensures { IfSome result (λ value. (m : Bindings) → den (view expr.now) m ≡ Is value) }
{
    let number = number_of(expr)?;
    let value = Feel::of(Value::Number(number))?;
    Some(value)
}

// The place of what an expression is in a list of so many values; None where names decide it.
fn constant_place(listed: &Listed<'_>, count: usize, expr: &Expr) -> Option<usize>
    requires { count ≡ length listed.now }
    ensures { IfSome result (HasPlace listed.now expr.now) }
{
    if count == 0 {
        return Some(0);
    }
    if let Some(value) = number_value(expr.tree()) {
        let place = place_of(listed, count, &value);
        return Some(place);
    }
    let Tree::Constant(constant) = expr.tree() else {
        return None;
    };
    let place = place_of(listed, count, constant.value());
    Some(place)
}

// The places of the values of these expressions, one a column; None where names decide one.
fn places_of(
    alloc: Global,
    lists: &[Listed<'_>],
    outputs: &[Output],
    gives: &[Expr],
) -> Result<Option<Vec<usize>>, AllocError>
    requires { lists.now ≡ listed_values (map column_view outputs.now) }
    ensures { IfOk result (λ found. IfSome found (λ places. HavePlaces (map column_view outputs.now) gives.now places.items)) }
{
    let mut places = Vec::with_capacity(alloc, outputs.len())?;
    for column in 0..outputs.len() {
        if column >= lists.len() || column >= gives.len() {
            return Ok(None);
        }
        let values: &[Feel] = &outputs[column].values;
        let Some(place) = constant_place(&lists[column], values.len(), &gives[column]) else {
            return Ok(None);
        };
        places.push(place)?;
    }
    Ok(Some(places))
}

fn rank_of(
    alloc: Global,
    lists: &[Listed<'_>],
    outputs: &[Output],
    rule: &Rule,
) -> Result<Rank, AllocError>
    requires { lists.now ≡ listed_values (map column_view outputs.now) }
    ensures { IfOk result (λ rank. IsRank (map column_view outputs.now) (rule_view rule.now) rank) }
{
    let Some(places) = places_of(alloc, lists, outputs, &rule.gives)? else {
        return Ok(Rank {
            is_known: false,
            places: Vec::new(alloc),
        });
    };
    Ok(Rank {
        is_known: true,
        places,
    })
}

/// The rank of each rule of a table.
pub(crate) fn ranks(alloc: Global, table: &Table) -> Result<Vec<Rank>, AllocError>
    ensures { IfOk result (λ ranks. AreRanks table.now.outputs table.now.rules ranks.items) }
{
    let rules = table.rules();
    let outputs = table.outputs();
    let lists = lists_of(alloc, outputs, rules.len())?;
    let mut ranks = Vec::with_capacity(alloc, rules.len())?;
    for place in 0..rules.len() {
        let rank = rank_of(alloc, &lists, outputs, &rules[place])?;
        ranks.push(rank)?;
    }
    Ok(ranks)
}

// Whether the first is known to be the higher.
fn is_higher(one: &Rank, other: &Rank) -> bool
    requires { length one.now.places.items ≡ length other.now.places.items }
    ensures { result ≡ is_higher_of one.now.places.items other.now.places.items }
{
    one.places.cmp(&other.places).is_lt()
}

// Whether a rule of the first rank is known to go before one of the other, which it stands before or not.
fn ranks_before(one: &Rank, other: &Rank, stands_before: bool) -> bool
    ensures { IsTrue result → RanksBefore one.now other.now (IsTrue stands_before) }
{
    if !one.is_known {
        return false;
    }
    if !other.is_known {
        return false;
    }
    if one.places.len() != other.places.len() {
        return false;
    }
    if is_higher(one, other) {
        return true;
    }
    if is_higher(other, one) {
        return false;
    }
    stands_before
}

/// The rules that are known to go before this one by the priority of their outputs. It takes steps.
pub(crate) fn rules_ahead(
    alloc: Global,
    table: &Table,
    ranks: &[Rank],
    rule: usize,
    steps: &mut u64,
) -> Result<Vec<usize>, AllocError>
    requires { AreRanks table.now.outputs table.now.rules ranks.now }
    ensures { IfOk result (λ first. All (λ j. IsAhead table.now.outputs table.now.rules j rule) first.items) }
{
    *steps = steps.saturating_sub((ranks.len() / RANKS_A_STEP) as u64);
    let mut first = Vec::new(alloc);
    if rule >= ranks.len() {
        return Ok(first);
    }
    for place in 0..ranks.len() {
        if !ranks_before(&ranks[place], &ranks[rule], place < rule) {
            continue;
        }
        first.push(place)?;
    }
    Ok(first)
}

/// The rules whose rank isn't known.
pub(crate) fn unranked(alloc: Global, ranks: &[Rank]) -> Result<Vec<usize>, AllocError> {
    let mut found = Vec::new(alloc);
    for (place, rank) in ranks.iter().enumerate() {
        if !rank.is_known {
            found.push(place)?;
        }
    }
    Ok(found)
}
