//! Sums and extremes of outputs.
ghost use Rattle.std.specs.Prelude.{◌≡◌, IfOk, map, option_map, true};
ghost use Rattle.feel_value.specs.Datum.{number};
ghost use Rattle.feel_value.specs.Outcome.{held};
ghost use Rattle.feel_value.specs.Found.{outcome_from};
ghost use Rattle.feel_value.specs.Distinct.{are_distinct};
ghost use Rattle.dmn_table.specs.Parts.{column_view, names_of};
ghost use Rattle.dmn_table.specs.RuleOutputs.{outputs_of, rules_view};
ghost use Rattle.dmn_table.specs.Result.{number_in, numbers_of, of_numbers, sum_of, least_of, greatest_of};

use crate::collected::have_outputs;
use crate::output::rule_output;
use crate::table::{Output, Rule};
use feel_lang::Env;
use feel_value::{Feel, Outcome, Value};
use std::alloc::{AllocError, Global};

/// The sum of the outputs; null where one is no number.
pub(crate) fn sum(
    alloc: Global,
    rules: &[&Rule],
    outputs: &[Output],
    env: &Env,
) -> Result<Outcome, AllocError>
    requires { are_distinct (names_of outputs.now) ≡ true }
    ensures { IfOk result (λ o. o ≡ outcome_from (λ ds. of_numbers sum_of (numbers_of ds)) (outputs_of (map column_view outputs.now) env.now (rules_view rules.now))) }
{
    match numbers(alloc, rules, outputs, env)? {
        Some(Some(numbers)) => Ok(in_range(total(&numbers))),
        Some(None) => Ok(Outcome::of(Value::Null)),
        None => Ok(Outcome::Limit),
    }
}

/// The least output; null where one is no number.
pub(crate) fn least(
    alloc: Global,
    rules: &[&Rule],
    outputs: &[Output],
    env: &Env,
) -> Result<Outcome, AllocError>
    requires { are_distinct (names_of outputs.now) ≡ true }
    ensures { IfOk result (λ o. o ≡ outcome_from (λ ds. of_numbers least_of (numbers_of ds)) (outputs_of (map column_view outputs.now) env.now (rules_view rules.now))) }
{
    match numbers(alloc, rules, outputs, env)? {
        Some(Some(numbers)) => Ok(Outcome::of(Value::Number(least_number(&numbers)))),
        Some(None) => Ok(Outcome::of(Value::Null)),
        None => Ok(Outcome::Limit),
    }
}

/// The greatest output; null where one is no number.
pub(crate) fn greatest(
    alloc: Global,
    rules: &[&Rule],
    outputs: &[Output],
    env: &Env,
) -> Result<Outcome, AllocError>
    requires { are_distinct (names_of outputs.now) ≡ true }
    ensures { IfOk result (λ o. o ≡ outcome_from (λ ds. of_numbers greatest_of (numbers_of ds)) (outputs_of (map column_view outputs.now) env.now (rules_view rules.now))) }
{
    match numbers(alloc, rules, outputs, env)? {
        Some(Some(numbers)) => Ok(Outcome::of(Value::Number(greatest_number(&numbers)))),
        Some(None) => Ok(Outcome::of(Value::Null)),
        None => Ok(Outcome::Limit),
    }
}

/// The outputs as numbers; Some(None) where one is no number, None where a rule breaks a limit. The outputs that follow one
/// that is no number are evaluated, and not kept.
pub(crate) fn numbers(
    alloc: Global,
    rules: &[&Rule],
    outputs: &[Output],
    env: &Env,
) -> Result<Option<Option<Vec<i64>>>, AllocError>
    requires { are_distinct (names_of outputs.now) ≡ true }
    ensures { IfOk result (λ found. option_map (option_map (λ v. v.items)) found ≡ option_map numbers_of (outputs_of (map column_view outputs.now) env.now (rules_view rules.now))) }
{
    let mut numbers = Vec::new(alloc);
    for (i, rule) in rules.iter().enumerate() {
        let Outcome::Is(output) = rule_output(alloc, rule, outputs, env)? else {
            return Ok(None);
        };
        match as_number(&output) {
            Some(n) => numbers.push(n)?,
            None => {
                if !have_outputs(alloc, &rules[i + 1..], outputs, env)? {
                    return Ok(None);
                }
                return Ok(Some(None));
            }
        }
    }
    Ok(Some(Some(numbers)))
}

/// The number that the value is, if it is one.
fn as_number(value: &Feel) -> Option<i64>
    ensures { result ≡ number_in value.now }
{
    match value.value() {
        Value::Number(n) => Some(*n),
        _ => None,
    }
}

/// The number, held against the range.
fn in_range(n: i128) -> Outcome
    ensures { result ≡ held (number n) }
{
    match i64::try_from(n) {
        Ok(n) => Outcome::of(Value::Number(n)),
        Err(_) => Outcome::Limit,
    }
}

fn total(numbers: &[i64]) -> i128
    ensures { result ≡ sum_of numbers.now }
{
    let mut total = 0;
    for n in numbers {
        total += i128::from(*n);
    }
    total
}

pub(crate) fn least_number(numbers: &[i64]) -> i64
    ensures { result ≡ least_of numbers.now }
{
    let Some((first, rest)) = numbers.split_first() else {
        return 0;
    };
    let mut least = *first;
    for n in rest {
        least = least.min(*n);
    }
    least
}

pub(crate) fn greatest_number(numbers: &[i64]) -> i64
    ensures { result ≡ greatest_of numbers.now }
{
    let Some((first, rest)) = numbers.split_first() else {
        return 0;
    };
    let mut greatest = *first;
    for n in rest {
        greatest = greatest.max(*n);
    }
    greatest
}
