//! Which of the rules that hit make the result.
ghost use Rattle.std.specs.Prelude.{◌≡◌, [], List, IfOk, Some, map, option_map, take, length, nat_eq, true, if◌then◌else◌};
ghost use Rattle.std.specs.List.{zip};
ghost use Rattle.std.specs.Option.{is_some};
ghost use Rattle.std.specs.Ordering.{int_eq};
ghost use Rattle.feel_value.specs.Found.{each};
ghost use Rattle.feel_value.specs.Distinct.{are_distinct};
ghost use Rattle.dmn_table.specs.declared.hit_policy.HitPolicy.TheVariants.{Priority};
ghost use Rattle.dmn_table.specs.Deciding.{deciding as deciding_of, are_equal, IsMadeByDeciders};
ghost use Rattle.dmn_table.specs.Hits.{hit_of, kept};
ghost use Rattle.dmn_table.specs.Parts.{column_view, names_of, rules_view, have_entries};
ghost use Rattle.dmn_table.specs.Priority.{Hit};
ghost use Rattle.dmn_table.specs.Picked.{numbers_with};
ghost use Rattle.dmn_table.specs.Result.{numbers_of, least_of, greatest_of};
ghost use Rattle.dmn_table.specs.RuleOutputs.{outputs_of};

use crate::collected::{all_equal, have_outputs};
use crate::hit_policy::HitPolicy;
use crate::hits::rank;
use crate::listed::lists_of;
use crate::numbers::{greatest_number, least_number, numbers as output_numbers};
use crate::output::rule_output;
use crate::priority::Ranked;
use crate::table::{Output, Rule, Table};
use feel_lang::Env;
use feel_value::Outcome;
use std::alloc::{AllocError, Global};
use std::mem;

/// The numbers of those rules whose outputs make the result under the table's hit policy, in their order; None where an output
/// breaks a limit. The numbers of all rules are given. The output entries of each rule are evaluated.
pub fn deciding(
    alloc: Global,
    table: &Table,
    rules: &[&Rule],
    numbers: &[usize],
    env: &Env,
) -> Result<Option<Vec<usize>>, AllocError>
    requires entries { have_entries (length table.now.outputs) (rules_view rules.now) ≡ true }
    requires numbers { length numbers.now ≡ length rules.now }
    ensures numbers { IfOk result (λ found. option_map (λ v. v.items) found ≡ option_map (deciding_of table.now.policy numbers.now) (each (hit_of table.now.outputs env.now) (rules_view rules.now))) }
    ensures made { IfOk result (λ found. (hs : List Hit) → each (hit_of table.now.outputs env.now) (rules_view rules.now) ≡ Some hs → IsMadeByDeciders table.now.policy (zip numbers.now hs)) }
{
    let found = deciding_under(alloc, table.policy, rules, numbers, &table.outputs, env)?;
    Ok(found)
}

/// The numbers of those rules whose outputs make the result under this policy; None where an output breaks a limit.
fn deciding_under(
    alloc: Global,
    policy: HitPolicy,
    rules: &[&Rule],
    numbers: &[usize],
    outputs: &[Output],
    env: &Env,
) -> Result<Option<Vec<usize>>, AllocError>
    requires entries { have_entries (length outputs.now) (rules_view rules.now) ≡ true }
    requires distinct { are_distinct (names_of outputs.now) ≡ true }
    requires numbers { length numbers.now ≡ length rules.now }
    ensures { IfOk result (λ found. option_map (λ v. v.items) found ≡ option_map (deciding_of policy numbers.now) (each (hit_of (map column_view outputs.now) env.now) (rules_view rules.now))) }
{
    match policy {
        HitPolicy::Unique => only_one(alloc, rules, numbers, outputs, env),
        HitPolicy::Any => equal_ones(alloc, rules, numbers, outputs, env),
        HitPolicy::Priority => highest(alloc, rules, numbers, outputs, env),
        HitPolicy::First => first(alloc, rules, numbers, outputs, env),
        HitPolicy::OutputOrder => all(alloc, rules, numbers, outputs, env),
        HitPolicy::RuleOrder => all(alloc, rules, numbers, outputs, env),
        HitPolicy::Collect => all(alloc, rules, numbers, outputs, env),
        HitPolicy::Sum => summands(alloc, rules, numbers, outputs, env),
        HitPolicy::Least => least(alloc, rules, numbers, outputs, env),
        HitPolicy::Greatest => greatest(alloc, rules, numbers, outputs, env),
        HitPolicy::Count => all(alloc, rules, numbers, outputs, env),
    }
}

/// All of them.
fn all(
    alloc: Global,
    rules: &[&Rule],
    numbers: &[usize],
    outputs: &[Output],
    env: &Env,
) -> Result<Option<Vec<usize>>, AllocError>
    requires { are_distinct (names_of outputs.now) ≡ true }
    ensures { IfOk result (λ found. option_map (λ v. v.items) found ≡ option_map (λ ds. numbers.now) (outputs_of (map column_view outputs.now) env.now (rules_view rules.now))) }
{
    if !have_outputs(alloc, rules, outputs, env)? {
        return Ok(None);
    }
    Ok(Some(Vec::from_slice(alloc, numbers)?))
}

/// The only one; none where there are two or more.
fn only_one(
    alloc: Global,
    rules: &[&Rule],
    numbers: &[usize],
    outputs: &[Output],
    env: &Env,
) -> Result<Option<Vec<usize>>, AllocError>
    requires { are_distinct (names_of outputs.now) ≡ true }
    ensures { IfOk result (λ found. option_map (λ v. v.items) found ≡ option_map (λ ds. if nat_eq (length ds) 1 then numbers.now else []) (outputs_of (map column_view outputs.now) env.now (rules_view rules.now))) }
{
    if !have_outputs(alloc, rules, outputs, env)? {
        return Ok(None);
    }
    if rules.len() != 1 {
        return Ok(Some(Vec::new(alloc)));
    }
    Ok(Some(Vec::from_slice(alloc, numbers)?))
}

/// The first.
fn first(
    alloc: Global,
    rules: &[&Rule],
    numbers: &[usize],
    outputs: &[Output],
    env: &Env,
) -> Result<Option<Vec<usize>>, AllocError>
    requires { are_distinct (names_of outputs.now) ≡ true }
    ensures { IfOk result (λ found. option_map (λ v. v.items) found ≡ option_map (λ ds. take 1 numbers.now) (outputs_of (map column_view outputs.now) env.now (rules_view rules.now))) }
{
    if !have_outputs(alloc, rules, outputs, env)? {
        return Ok(None);
    }
    let Some((number, _)) = numbers.split_first() else {
        return Ok(Some(Vec::new(alloc)));
    };
    Ok(Some(Vec::from_slice(alloc, &[*number])?))
}

/// All of them where their outputs are equal, otherwise none.
fn equal_ones(
    alloc: Global,
    rules: &[&Rule],
    numbers: &[usize],
    outputs: &[Output],
    env: &Env,
) -> Result<Option<Vec<usize>>, AllocError>
    requires { are_distinct (names_of outputs.now) ≡ true }
    ensures { IfOk result (λ found. option_map (λ v. v.items) found ≡ option_map (λ ds. if are_equal ds then numbers.now else []) (outputs_of (map column_view outputs.now) env.now (rules_view rules.now))) }
{
    let Some((rule, rest)) = rules.split_first() else {
        return Ok(Some(Vec::from_slice(alloc, numbers)?));
    };
    let Outcome::Is(output) = rule_output(alloc, rule, outputs, env)? else {
        return Ok(None);
    };
    match all_equal(alloc, &output, rest, outputs, env)? {
        Some(true) => Ok(Some(Vec::from_slice(alloc, numbers)?)),
        Some(false) => Ok(Some(Vec::new(alloc))),
        None => Ok(None),
    }
}

/// All of them where each output is a number, otherwise none.
fn summands(
    alloc: Global,
    rules: &[&Rule],
    numbers: &[usize],
    outputs: &[Output],
    env: &Env,
) -> Result<Option<Vec<usize>>, AllocError>
    requires { are_distinct (names_of outputs.now) ≡ true }
    ensures { IfOk result (λ found. option_map (λ v. v.items) found ≡ option_map (λ ds. if is_some (numbers_of ds) then numbers.now else []) (outputs_of (map column_view outputs.now) env.now (rules_view rules.now))) }
{
    match output_numbers(alloc, rules, outputs, env)? {
        Some(Some(_)) => Ok(Some(Vec::from_slice(alloc, numbers)?)),
        Some(None) => Ok(Some(Vec::new(alloc))),
        None => Ok(None),
    }
}

/// Those whose output is the least; none where one output is no number.
fn least(
    alloc: Global,
    rules: &[&Rule],
    numbers: &[usize],
    outputs: &[Output],
    env: &Env,
) -> Result<Option<Vec<usize>>, AllocError>
    requires { are_distinct (names_of outputs.now) ≡ true }
    ensures { IfOk result (λ found. option_map (λ v. v.items) found ≡ option_map (λ ds. numbers_with least_of numbers.now (numbers_of ds)) (outputs_of (map column_view outputs.now) env.now (rules_view rules.now))) }
{
    match output_numbers(alloc, rules, outputs, env)? {
        Some(Some(values)) => {
            let least = least_number(&values);
            Ok(Some(with_value(alloc, least, &values, numbers)?))
        }
        Some(None) => Ok(Some(Vec::new(alloc))),
        None => Ok(None),
    }
}

/// Those whose output is the greatest; none where one output is no number.
fn greatest(
    alloc: Global,
    rules: &[&Rule],
    numbers: &[usize],
    outputs: &[Output],
    env: &Env,
) -> Result<Option<Vec<usize>>, AllocError>
    requires { are_distinct (names_of outputs.now) ≡ true }
    ensures { IfOk result (λ found. option_map (λ v. v.items) found ≡ option_map (λ ds. numbers_with greatest_of numbers.now (numbers_of ds)) (outputs_of (map column_view outputs.now) env.now (rules_view rules.now))) }
{
    match output_numbers(alloc, rules, outputs, env)? {
        Some(Some(values)) => {
            let greatest = greatest_number(&values);
            Ok(Some(with_value(alloc, greatest, &values, numbers)?))
        }
        Some(None) => Ok(Some(Vec::new(alloc))),
        None => Ok(None),
    }
}

/// Whether the two are one number.
fn is_same(value: i64, other: i64) -> bool
    ensures { result ≡ int_eq value other }
{
    value == other
}

/// The numbers beside those values that are this one.
fn with_value(
    alloc: Global,
    value: i64,
    values: &[i64],
    numbers: &[usize],
) -> Result<Vec<usize>, AllocError>
    ensures { IfOk result (λ v. v.items ≡ kept numbers.now (map (int_eq value) values.now)) }
{
    let mut found = Vec::new(alloc);
    for (number, other) in numbers.iter().zip(values) {
        if is_same(value, *other) {
            found.push(*number)?;
        }
    }
    Ok(found)
}

/// The first of the highest priority. Of the hits only the best so far is kept.
fn highest(
    alloc: Global,
    rules: &[&Rule],
    numbers: &[usize],
    outputs: &[Output],
    env: &Env,
) -> Result<Option<Vec<usize>>, AllocError>
    requires entries { have_entries (length outputs.now) (rules_view rules.now) ≡ true }
    requires distinct { are_distinct (names_of outputs.now) ≡ true }
    requires numbers { length numbers.now ≡ length rules.now }
    ensures { IfOk result (λ found. option_map (λ v. v.items) found ≡ option_map (deciding_of Priority numbers.now) (each (hit_of (map column_view outputs.now) env.now) (rules_view rules.now))) }
{
    let Some((rule, rest)) = rules.split_first() else {
        return Ok(Some(Vec::new(alloc)));
    };
    let lists = lists_of(alloc, outputs, rules.len())?;
    let mut best = Ranked::new(alloc);
    let is_hit = rank(alloc, rule, &lists, outputs, env, &mut best)?;
    if !is_hit {
        return Ok(None);
    }
    let mut number = numbers[0];
    let mut next = Ranked::new(alloc);
    for (i, rule) in rest.iter().enumerate() {
        let is_hit = rank(alloc, rule, &lists, outputs, env, &mut next)?;
        if !is_hit {
            return Ok(None);
        }
        if next.is_higher(&best) {
            mem::swap(&mut best, &mut next);
            number = numbers[i + 1];
        }
    }
    Ok(Some(Vec::from_slice(alloc, &[number])?))
}
