//! Whether a rule can decide: values for which it does, of which the rules themselves are asked.
ghost use Rattle.std.specs.Prelude.{◌≡◌, ◌≢◌, ◌<◌, ℕ, [], IfOk, IfSome, IsTrue, None, OnOk, Some, length, map, true};
ghost use Rattle.std.specs.Arc.{arc_str_bytes};
ghost use Rattle.std.specs.List.{All, slice_get};
ghost use Rattle.std.specs.Str.{is_utf8};
ghost use Rattle.feel_value.specs.Limits.{is_value};
ghost use Rattle.dmn_table.specs.declared.hit_policy.HitPolicy.TheVariants.{Priority};
ghost use Rattle.dmn_table.specs.Hits.{does_hit as does_hit_of};
ghost use Rattle.dmn_table.specs.Parts.{rule_view};
ghost use Rattle.dmn_table.specs.Table.{Rule as RuleSpec};
ghost use Rattle.dmn_analysis.specs.Asked.{is_in_utf8};
ghost use Rattle.desk_checking.specs.Deciding.{CanDecide, EachCanDecide, Hits, HitsBefore, IsFirst, IsPicked, has_no_order};

use crate::cost::{of_rules, take_for};
use crate::trying::{meet_apart, met_values, names_as};
use dmn_table::{HitPolicy, Rule, Table, deciding, first_miss};
use feel_lang::Env;
use feel_value::{Feel, Value};
use std::alloc::{AllocError, Global};
use std::sync::ArcStr;

/// What names are bound to, where the values for which a rule decides are looked for.
const NUMBERS: [i64; 2] = [0, 1_000_000_000_000];

/// How often values are changed, at most, for which another rule goes before.
const MOST_TURNS: usize = 64;

// A text is in UTF-8.
fn see_text(text: &ArcStr)
    ensures { is_utf8 (arc_str_bytes text.now) ≡ true }
{
    let _text = text.as_str();
}

fn see_value(value: &Feel)
    ensures lawful { is_value value.now ≡ true }
    ensures utf8 { is_in_utf8 value.now ≡ true }
{
    match value.value() {
        Value::Text(text) => see_text(text),
        Value::Null | Value::Bool(_) | Value::Number(_) | Value::List(_) | Value::Context(_) => {}
    }
}

// Each value keeps the limits, and is no text that isn't in UTF-8.
fn see_values(values: &[Feel])
    ensures { All (λ v. (is_value v ≡ true) × (is_in_utf8 v ≡ true)) values.now }
{
    for value in values {
        see_value(value);
    }
}

// Whether the rule hits for these values; None where an entry breaks a limit.
fn does_hit(
    alloc: Global,
    rule: &Rule,
    values: &[Feel],
    env: &Env,
) -> Result<Option<bool>, AllocError>
    ensures { IfOk result (λ hit. hit ≡ does_hit_of env.now values.now (rule_view rule.now)) }
{
    let Some(miss) = first_miss(alloc, rule, values, env)? else {
        return Ok(None);
    };
    match miss {
        None => Ok(Some(true)),
        Some(_) => Ok(Some(false)),
    }
}

// Whether it is known that a rule doesn't hit.
fn misses(
    alloc: Global,
    rules: &[Rule],
    other: usize,
    values: &[Feel],
    env: &Env,
) -> Result<bool, AllocError>
    requires { other < length rules.now }
    ensures { IfOk result (λ yes. IsTrue yes → (r : RuleSpec) → slice_get (map rule_view rules.now) other ≡ Some r → does_hit_of env.now values.now r ≢ Some true) }
{
    let Some(hit) = does_hit(alloc, &rules[other], values, env)? else {
        return Ok(false);
    };
    Ok(!hit)
}

// The first of the rules before this one of which it isn't known that it misses, or this one where the steps ran out;
// None where each misses.
fn hit_before(
    alloc: Global,
    rules: &[Rule],
    rule: usize,
    values: &[Feel],
    env: &Env,
    costs: &[u64],
    steps: &mut u64,
) -> Result<Option<usize>, AllocError>
    requires { rule < length rules.now }
    ensures { IfOk result (λ found. found ≡ None → (j : ℕ) (r : RuleSpec) → j < rule → slice_get (map rule_view rules.now) j ≡ Some r → does_hit_of env.now values.now r ≢ Some true) }
{
    for other in 0..rule {
        if !take_for(steps, costs, other) {
            return Ok(Some(rule));
        }
        let missed = misses(alloc, rules, other, values, env)?;
        if !missed {
            return Ok(Some(other));
        }
    }
    Ok(None)
}

// Of two rules that hit, in their order, the number of the one that decides under `P`; None where that isn't known.
fn first_of_two(
    alloc: Global,
    table: &Table,
    first: usize,
    second: usize,
    env: &Env,
) -> Result<Option<usize>, AllocError>
    requires policy { table.now.policy ≡ Priority }
    requires first { first < length table.now.rules }
    requires second { second < length table.now.rules }
    ensures { IfOk result (λ found. IfSome found (λ n. (r s : RuleSpec) → slice_get table.now.rules first ≡ Some r → slice_get table.now.rules second ≡ Some s → IsPicked table.now.outputs env.now first second r s n)) }
{
    let rules = table.rules();
    let (one, other) = (&rules[first], &rules[second]);
    let Some(found) = deciding(alloc, table, &[one, other], &[first, second], env)? else {
        return Ok(None);
    };
    if found.is_empty() {
        return Ok(None);
    }
    Ok(Some(found[0]))
}

// Whether of two rules that hit this one goes before the other under `P`, by what both give under these bindings.
fn goes_before(
    alloc: Global,
    table: &Table,
    rule: usize,
    other: usize,
    env: &Env,
) -> Result<bool, AllocError>
    requires policy { table.now.policy ≡ Priority }
    requires rule { rule < length table.now.rules }
    requires other { other < length table.now.rules }
    requires apart { other ≢ rule }
    ensures { IfOk result (λ yes. IsTrue yes → (r s : RuleSpec) → slice_get table.now.rules other ≡ Some r → slice_get table.now.rules rule ≡ Some s → HitsBefore Priority table.now.outputs env.now other rule r s → ⊥) }
{
    if other < rule {
        let Some(number) = first_of_two(alloc, table, other, rule, env)? else {
            return Ok(false);
        };
        return Ok(number == rule);
    }
    let Some(number) = first_of_two(alloc, table, rule, other, env)? else {
        return Ok(false);
    };
    Ok(number == rule)
}

// Whether another rule is this one, doesn't hit, or comes after it under `P`.
fn comes_after(
    alloc: Global,
    table: &Table,
    rule: usize,
    other: usize,
    values: &[Feel],
    env: &Env,
) -> Result<bool, AllocError>
    requires policy { table.now.policy ≡ Priority }
    requires rule { rule < length table.now.rules }
    requires other { other < length table.now.rules }
    ensures { IfOk result (λ yes. IsTrue yes → (r s : RuleSpec) → slice_get table.now.rules other ≡ Some r → slice_get table.now.rules rule ≡ Some s → does_hit_of env.now values.now r ≡ Some true → HitsBefore Priority table.now.outputs env.now other rule r s → ⊥) }
{
    if other == rule {
        return Ok(true);
    }
    let missed = misses(alloc, table.rules(), other, values, env)?;
    if missed {
        return Ok(true);
    }
    let first = goes_before(alloc, table, rule, other, env)?;
    Ok(first)
}

// The first of the other rules of which it isn't known that it comes after this one under `P`, or this one where the
// steps ran out; None where each does.
fn ahead(
    alloc: Global,
    table: &Table,
    rule: usize,
    values: &[Feel],
    env: &Env,
    costs: &[u64],
    steps: &mut u64,
) -> Result<Option<usize>, AllocError>
    requires policy { table.now.policy ≡ Priority }
    requires rule { rule < length table.now.rules }
    ensures { IfOk result (λ found. found ≡ None → (s : RuleSpec) → slice_get table.now.rules rule ≡ Some s → (j : ℕ) (r : RuleSpec) → slice_get table.now.rules j ≡ Some r → does_hit_of env.now values.now r ≡ Some true → HitsBefore Priority table.now.outputs env.now j rule r s → ⊥) }
{
    let rules = table.rules();
    for other in 0..rules.len() {
        if !take_for(steps, costs, other) {
            return Ok(Some(rule));
        }
        let after = comes_after(alloc, table, rule, other, values, env)?;
        if !after {
            return Ok(Some(other));
        }
    }
    Ok(None)
}

fn has_no_order(policy: HitPolicy) -> bool
    ensures { result ≡ has_no_order policy }
{
    match policy {
        HitPolicy::First => false,
        HitPolicy::Priority => false,
        HitPolicy::Unique
        | HitPolicy::Any
        | HitPolicy::OutputOrder
        | HitPolicy::RuleOrder
        | HitPolicy::Collect
        | HitPolicy::Sum
        | HitPolicy::Least
        | HitPolicy::Greatest
        | HitPolicy::Count => true,
    }
}

// A rule that may go before this one for these values, or this one where that isn't known; None where no rule that hits
// does.
fn in_the_way(
    alloc: Global,
    table: &Table,
    rule: usize,
    values: &[Feel],
    env: &Env,
    costs: &[u64],
    steps: &mut u64,
) -> Result<Option<usize>, AllocError>
    requires { rule < length table.now.rules }
    ensures { IfOk result (λ found. found ≡ None → (s : RuleSpec) → slice_get table.now.rules rule ≡ Some s → IsFirst table.now env.now values.now rule s) }
{
    match table.policy() {
        HitPolicy::First => {
            let found = hit_before(alloc, table.rules(), rule, values, env, costs, steps)?;
            Ok(found)
        }
        HitPolicy::Priority => {
            let found = ahead(alloc, table, rule, values, env, costs, steps)?;
            Ok(found)
        }
        policy => {
            if has_no_order(policy) {
                return Ok(None);
            }
            Ok(Some(rule))
        }
    }
}

// Whether the rule is known to hit for these values, one a column.
fn hits(
    alloc: Global,
    table: &Table,
    rule: usize,
    values: &[Feel],
    env: &Env,
) -> Result<bool, AllocError>
    requires { rule < length table.now.rules }
    ensures { IfOk result (λ yes. IsTrue yes → Hits table.now env.now values.now rule) }
{
    let count = table.inputs().len();
    if values.len() != count {
        return Ok(false);
    }
    see_values(values);
    let rules = table.rules();
    let Some(hit) = does_hit(alloc, &rules[rule], values, env)? else {
        return Ok(false);
    };
    Ok(hit)
}

// Whether the rule decides for these values, or for some that are found by changing them where another rule goes
// before.
fn decides_from(
    alloc: Global,
    table: &Table,
    rule: usize,
    mut values: Vec<Feel>,
    env: &Env,
    costs: &[u64],
    steps: &mut u64,
) -> Result<bool, AllocError>
    requires { rule < length table.now.rules }
    ensures { IfOk result (λ yes. IsTrue yes → CanDecide table.now rule) }
{
    let rules = table.rules();
    for turn in 0..MOST_TURNS {
        let hit = hits(alloc, table, rule, &values, env)?;
        if !hit {
            return Ok(false);
        }
        let Some(other) = in_the_way(alloc, table, rule, &values, env, costs, steps)? else {
            return Ok(true);
        };
        if other >= rules.len() {
            return Ok(false);
        }
        let changed = meet_apart(
            alloc,
            &rules[rule],
            &rules[other],
            env,
            turn,
            &mut values,
            steps,
        )?;
        if !changed {
            return Ok(false);
        }
    }
    Ok(false)
}

// Whether the rule decides for some values, under these bindings.
fn decides_under(
    alloc: Global,
    table: &Table,
    rule: usize,
    env: &Env,
    costs: &[u64],
    steps: &mut u64,
) -> Result<bool, AllocError>
    requires { rule < length table.now.rules }
    ensures { IfOk result (λ yes. IsTrue yes → CanDecide table.now rule) }
{
    let Some(values) = met_values(alloc, &table.rules()[rule], env, steps)? else {
        return Ok(false);
    };
    let decides = decides_from(alloc, table, rule, values, env, costs, steps)?;
    Ok(decides)
}

// Whether it is known that the rule can decide.
fn can_decide(
    alloc: Global,
    table: &Table,
    rule: usize,
    costs: &[u64],
    steps: &mut u64,
) -> Result<bool, AllocError>
    requires { rule < length table.now.rules }
    ensures { IfOk result (λ yes. IsTrue yes → CanDecide table.now rule) }
{
    let decides = decides_under(alloc, table, rule, &Env::new(alloc), costs, steps)?;
    if decides {
        return Ok(true);
    }
    for number in NUMBERS {
        let env = names_as(alloc, &table.rules()[rule], number)?;
        if env.len() == 0 {
            return Ok(false);
        }
        let decides = decides_under(alloc, table, rule, &env, costs, steps)?;
        if decides {
            return Ok(true);
        }
    }
    Ok(false)
}

// Adds the rule, unless it decides.
fn add_unless(decides: bool, rule: usize, idle: &mut Vec<usize>) -> Result<(), AllocError>
    ensures { OnOk result (idle.new.items ≡ [] → (idle.old.items ≡ []) × IsTrue decides) }
{
    if decides {
        return Ok(());
    }
    idle.push(rule)?;
    Ok(())
}

/// The rules, counted from 0, of which it isn't known that they can decide: that they hit, and go before each other
/// that does, for some values of the input columns and of the names. Under `F` the rules go by their order, under `P` by
/// the priority of their outputs; under the other policies none goes before another. The steps are those of `cost`.
pub(crate) fn find_idle(alloc: Global, table: &Table, steps: u64) -> Result<Vec<usize>, AllocError>
    ensures { IfOk result (λ idle. idle.items ≡ [] → EachCanDecide table.now) }
{
    let rules = table.rules();
    let costs = of_rules(alloc, table)?;
    let mut rest = steps;
    let mut idle = Vec::new(alloc);
    for rule in 0..rules.len() {
        let decides = can_decide(alloc, table, rule, &costs, &mut rest)?;
        add_unless(decides, rule, &mut idle)?;
    }
    Ok(idle)
}
