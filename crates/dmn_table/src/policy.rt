//! What each hit policy makes of the rules that hit.
ghost use Rattle.std.specs.Prelude.{◌≡◌, IfOk, map, true, length};
ghost use Rattle.feel_value.specs.declared.feel.Outcome.TheVariants.{Is};
ghost use Rattle.feel_value.specs.Found.{each, outcome_from};
ghost use Rattle.dmn_table.specs.Hits.{hit_of};
ghost use Rattle.feel_value.specs.Distinct.{are_distinct};
ghost use Rattle.dmn_table.specs.Parts.{column_view, names_of};
ghost use Rattle.dmn_table.specs.Priority.{in_priority as in_priority_of};
ghost use Rattle.dmn_table.specs.Result.{policy_result, first_of, list_of as list_of_values};
ghost use Rattle.dmn_table.specs.RuleOutputs.{rules_view, have_entries};
ghost use Rattle.dmn_table.specs.View.{hit_view};

use crate::collected::{common_one, count, first, list_of, only_one};
use crate::hit_policy::HitPolicy;
use crate::hits::{fitting_hits, rank};
use crate::listed::lists_of;
use crate::numbers::{greatest, least, sum};
use crate::output::one_or_context;
use crate::priority::{Hit, Ranked, in_priority};
use crate::table::{Output, Rule};
use feel_lang::Env;
use feel_value::{Outcome, Value};
use std::alloc::{AllocError, Global};
use std::mem;

/// The result that a hit policy makes of the rules that hit.
#[tactic(auto, using(crate::proofs::ByOutputs::by_outputs))]
pub(crate) fn result_of(
    alloc: Global,
    policy: HitPolicy,
    rules: &[&Rule],
    outputs: &[Output],
    env: &Env,
) -> Result<Outcome, AllocError>
    requires entries { have_entries (length outputs.now) (rules_view rules.now) ≡ true }
    requires distinct { are_distinct (names_of outputs.now) ≡ true }
    ensures { IfOk result (λ o. o ≡ outcome_from (policy_result policy) (each (hit_of (map column_view outputs.now) env.now) (rules_view rules.now))) }
{
    match policy {
        HitPolicy::Unique => only_one(alloc, rules, outputs, env),
        HitPolicy::Any => common_one(alloc, rules, outputs, env),
        HitPolicy::Priority => highest(alloc, rules, outputs, env),
        HitPolicy::First => first(alloc, rules, outputs, env),
        HitPolicy::OutputOrder => ordered(alloc, rules, outputs, env),
        HitPolicy::RuleOrder | HitPolicy::Collect => list_of(alloc, rules, outputs, env),
        HitPolicy::Sum => sum(alloc, rules, outputs, env),
        HitPolicy::Least => least(alloc, rules, outputs, env),
        HitPolicy::Greatest => greatest(alloc, rules, outputs, env),
        HitPolicy::Count => count(alloc, rules, outputs, env),
    }
}

/// The output of the highest priority. The output entries of each rule are evaluated; of the hits, only the best so far is kept,
/// and its output is made at the end.
fn highest(
    alloc: Global,
    rules: &[&Rule],
    outputs: &[Output],
    env: &Env,
) -> Result<Outcome, AllocError>
    requires entries { have_entries (length outputs.now) (rules_view rules.now) ≡ true }
    requires distinct { are_distinct (names_of outputs.now) ≡ true }
    ensures { IfOk result (λ o. o ≡ outcome_from (λ hs. Is (first_of (map (λ h. h.output) (in_priority_of hs)))) (each (hit_of (map column_view outputs.now) env.now) (rules_view rules.now))) }
{
    let Some((rule, rest)) = rules.split_first() else {
        return Ok(Outcome::of(Value::Null));
    };
    let lists = lists_of(alloc, outputs, rules.len())?;
    let mut best = Ranked::new(alloc);
    let is_hit = rank(alloc, rule, &lists, outputs, env, &mut best)?;
    if !is_hit {
        return Ok(Outcome::Limit);
    }
    let mut next = Ranked::new(alloc);
    for rule in rest {
        let is_hit = rank(alloc, rule, &lists, outputs, env, &mut next)?;
        if !is_hit {
            return Ok(Outcome::Limit);
        }
        if next.is_higher(&best) {
            mem::swap(&mut best, &mut next);
        }
    }
    one_or_context(alloc, outputs, best.values)
}

/// The list of the outputs in decreasing priority. The evaluation ends where they are too many for a value, whatever their
/// order.
fn ordered(
    alloc: Global,
    rules: &[&Rule],
    outputs: &[Output],
    env: &Env,
) -> Result<Outcome, AllocError>
    requires entries { have_entries (length outputs.now) (rules_view rules.now) ≡ true }
    requires distinct { are_distinct (names_of outputs.now) ≡ true }
    ensures { IfOk result (λ o. o ≡ outcome_from (λ hs. list_of_values (map (λ h. h.output) (in_priority_of hs))) (each (hit_of (map column_view outputs.now) env.now) (rules_view rules.now))) }
{
    match fitting_hits(alloc, rules, outputs, env)? {
        Some(hits) => list_of_hits(alloc, in_priority(hits)?),
        None => Ok(Outcome::Limit),
    }
}

/// The list of the outputs.
fn list_of_hits(alloc: Global, hits: Vec<Hit>) -> Result<Outcome, AllocError>
    ensures { IfOk result (λ o. o ≡ list_of_values (map (λ h. h.output) (map hit_view hits.items))) }
{
    let mut items = Vec::with_capacity(alloc, hits.len())?;
    for hit in hits {
        items.push(hit.output.into_value())?;
    }
    Outcome::list(alloc, items)
}
