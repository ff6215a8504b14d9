//! What hit policies make of the outputs of the rules that hit, where it takes no places. The output of each rule is evaluated,
//! and no more outputs are kept than the result needs.
ghost use Rattle.std.specs.Prelude.{◌≡◌, IfOk, map, option_map, length, pos, true};
ghost use Rattle.std.specs.List.{list_all};
ghost use Rattle.std.specs.Option.{is_some};
ghost use Rattle.feel_value.specs.Datum.{number};
ghost use Rattle.feel_value.specs.Logic.{is_yes};
ghost use Rattle.feel_value.specs.Comparison.{equal as equal_of};
ghost use Rattle.feel_value.specs.Outcome.{held};
ghost use Rattle.feel_value.specs.declared.feel.Outcome.TheVariants.{Is};
ghost use Rattle.feel_value.specs.Found.{outcome_from};
ghost use Rattle.feel_value.specs.Distinct.{are_distinct};
ghost use Rattle.dmn_table.specs.Parts.{column_view, names_of};
ghost use Rattle.dmn_table.specs.Result.{first_of, only_one as only_one_of, common_one as common_one_of, list_of as list_of_values};
ghost use Rattle.dmn_table.specs.RuleOutputs.{outputs_of, rules_view};

use crate::output::{lawful_values, rule_output};
use crate::table::{Output, Rule};
use feel_lang::Env;
use feel_value::{Feel, Members, Outcome, Truth, Value, equal};
use std::alloc::{AllocError, Global};

/// The list of the outputs. The evaluation ends where they are too many for a value.
pub(crate) fn list_of(
    alloc: Global,
    rules: &[&Rule],
    outputs: &[Output],
    env: &Env,
) -> Result<Outcome, AllocError>
    requires { are_distinct (names_of outputs.now) ≡ true }
    ensures { IfOk result (λ o. o ≡ outcome_from list_of_values (outputs_of (map column_view outputs.now) env.now (rules_view rules.now))) }
{
    let mut values = Members::new(alloc);
    for rule in rules {
        let Outcome::Is(value) = rule_output(alloc, rule, outputs, env)? else {
            return Ok(Outcome::Limit);
        };
        if !values.push(value)? {
            return Ok(Outcome::Limit);
        }
    }
    Ok(Outcome::Is(values.into_list(alloc)?))
}

/// Whether each rule has an output; false where one breaks a limit. None is kept.
pub(crate) fn have_outputs(
    alloc: Global,
    rules: &[&Rule],
    outputs: &[Output],
    env: &Env,
) -> Result<bool, AllocError>
    requires { are_distinct (names_of outputs.now) ≡ true }
    ensures { IfOk result (λ all. all ≡ is_some (outputs_of (map column_view outputs.now) env.now (rules_view rules.now))) }
{
    let mut values = Vec::new(alloc);
    for rule in rules {
        let are_lawful = lawful_values(alloc, rule, outputs, env, &mut values)?;
        if !are_lawful {
            return Ok(false);
        }
    }
    Ok(true)
}

/// The first output.
pub(crate) fn first(
    alloc: Global,
    rules: &[&Rule],
    outputs: &[Output],
    env: &Env,
) -> Result<Outcome, AllocError>
    requires { are_distinct (names_of outputs.now) ≡ true }
    ensures { IfOk result (λ o. o ≡ outcome_from (λ ds. Is (first_of ds)) (outputs_of (map column_view outputs.now) env.now (rules_view rules.now))) }
{
    let Some((rule, rest)) = rules.split_first() else {
        return Ok(Outcome::of(Value::Null));
    };
    let Outcome::Is(output) = rule_output(alloc, rule, outputs, env)? else {
        return Ok(Outcome::Limit);
    };
    if !have_outputs(alloc, rest, outputs, env)? {
        return Ok(Outcome::Limit);
    }
    Ok(Outcome::Is(output))
}

/// The only output; null where there are two or more.
pub(crate) fn only_one(
    alloc: Global,
    rules: &[&Rule],
    outputs: &[Output],
    env: &Env,
) -> Result<Outcome, AllocError>
    requires { are_distinct (names_of outputs.now) ≡ true }
    ensures { IfOk result (λ o. o ≡ outcome_from (λ ds. Is (only_one_of ds)) (outputs_of (map column_view outputs.now) env.now (rules_view rules.now))) }
{
    if rules.len() <= 1 {
        return first(alloc, rules, outputs, env);
    }
    if !have_outputs(alloc, rules, outputs, env)? {
        return Ok(Outcome::Limit);
    }
    Ok(Outcome::of(Value::Null))
}

/// The first output where it equals each, otherwise null.
pub(crate) fn common_one(
    alloc: Global,
    rules: &[&Rule],
    outputs: &[Output],
    env: &Env,
) -> Result<Outcome, AllocError>
    requires { are_distinct (names_of outputs.now) ≡ true }
    ensures { IfOk result (λ o. o ≡ outcome_from (λ ds. Is (common_one_of ds)) (outputs_of (map column_view outputs.now) env.now (rules_view rules.now))) }
{
    let Some((rule, rest)) = rules.split_first() else {
        return Ok(Outcome::of(Value::Null));
    };
    let Outcome::Is(output) = rule_output(alloc, rule, outputs, env)? else {
        return Ok(Outcome::Limit);
    };
    match all_equal(alloc, &output, rest, outputs, env)? {
        Some(true) => Ok(Outcome::Is(output)),
        Some(false) => Ok(Outcome::of(Value::Null)),
        None => Ok(Outcome::Limit),
    }
}

/// Whether each output equals the first; None where a rule breaks a limit.
pub(crate) fn all_equal(
    alloc: Global,
    first: &Feel,
    rules: &[&Rule],
    outputs: &[Output],
    env: &Env,
) -> Result<Option<bool>, AllocError>
    requires { are_distinct (names_of outputs.now) ≡ true }
    ensures { IfOk result (λ found. found ≡ option_map (list_all (λ d. is_yes (equal_of first.now d))) (outputs_of (map column_view outputs.now) env.now (rules_view rules.now))) }
{
    let mut all = true;
    for rule in rules {
        let Outcome::Is(output) = rule_output(alloc, rule, outputs, env)? else {
            return Ok(None);
        };
        if equal(first, &output) != Truth::Yes {
            all = false;
        }
    }
    Ok(Some(all))
}

/// The number of the outputs.
pub(crate) fn count(
    alloc: Global,
    rules: &[&Rule],
    outputs: &[Output],
    env: &Env,
) -> Result<Outcome, AllocError>
    requires { are_distinct (names_of outputs.now) ≡ true }
    ensures { IfOk result (λ o. o ≡ outcome_from (λ ds. held (number (pos (length ds)))) (outputs_of (map column_view outputs.now) env.now (rules_view rules.now))) }
{
    if !have_outputs(alloc, rules, outputs, env)? {
        return Ok(Outcome::Limit);
    }
    Ok(number_of(rules))
}

/// The number of the rules.
fn number_of(rules: &[&Rule]) -> Outcome
    ensures { result ≡ held (number (pos (length rules.now))) }
{
    match i64::try_from(rules.len()) {
        Ok(count) => Outcome::of(Value::Number(count)),
        Err(_) => Outcome::Limit,
    }
}
