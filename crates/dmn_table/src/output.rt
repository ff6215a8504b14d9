//! The output of a rule, and what stands where none hits.
ghost use Rattle.std.specs.Prelude.{◌≡◌, All, IfOk, IsTrue, None, Some, true, if◌then◌else◌, map, option_map};
ghost use Rattle.feel_value.specs.Outcome.{held};
ghost use Rattle.feel_value.specs.Datum.{context, entries_of};
ghost use Rattle.std.specs.List.{zip, list_all};
ghost use Rattle.std.specs.Option.{is_none, is_some};
ghost use Rattle.feel_value.specs.Distinct.{are_distinct};
ghost use Rattle.feel_value.specs.declared.feel.Outcome.TheVariants.{Is};
ghost use Rattle.feel_value.specs.View.{datum_of, entries_view};
ghost use Rattle.dmn_table.specs.Hits.{values_of, output_of};
ghost use Rattle.dmn_table.specs.Result.{first_of, default_of, default_values as default_values_of};
ghost use Rattle.dmn_table.specs.Parts.{column_view, names_of, rule_view};
ghost use Rattle.dmn_table.specs.RuleOutputs.{IsScalar, lawful_values as lawful_values_of, rule_output as rule_output_of};
ghost use Rattle.feel_value.specs.Found.{value_of};

use crate::table::{Output, Rule};
use feel_lang::{Env, Expr, eval};
use feel_value::{Feel, Outcome, Value};
use std::alloc::{AllocError, Global};
use std::sync::ArcStr;

/// So many values are too many for a context: each is a node, and so is the context.
const MOST_NODES: usize = 10_000;

/// Puts the values of the expressions in the place of those that are there; false where one breaks a limit.
fn evaluate(
    alloc: Global,
    expressions: &[Expr],
    env: &Env,
    values: &mut Vec<Feel>,
) -> Result<bool, AllocError>
    ensures { IfOk result (λ all. (if all then Some values.new.items else None) ≡ values_of env.now expressions.now) }
{
    values.clear();
    for expression in expressions {
        match eval(alloc, expression, env)? {
            Outcome::Is(value) => values.push(value)?,
            Outcome::Limit => return Ok(false),
        }
    }
    Ok(true)
}

/// The values of the expressions, in their order; None where one breaks a limit.
pub fn evaluated(
    alloc: Global,
    expressions: &[Expr],
    env: &Env,
) -> Result<Option<Vec<Feel>>, AllocError>
    ensures { IfOk result (λ found. option_map (λ v. v.items) found ≡ values_of env.now expressions.now) }
{
    let mut values = Vec::with_capacity(alloc, expressions.len())?;
    let all = evaluate(alloc, expressions, env, &mut values)?;
    if !all {
        return Ok(None);
    }
    Ok(Some(values))
}

/// The output of a rule.
pub(crate) fn rule_output(
    alloc: Global,
    rule: &Rule,
    outputs: &[Output],
    env: &Env,
) -> Result<Outcome, AllocError>
    requires { are_distinct (names_of outputs.now) ≡ true }
    ensures { IfOk result (λ o. value_of o ≡ rule_output_of (map column_view outputs.now) env.now (rule_view rule.now)) }
{
    match evaluated(alloc, &rule.gives, env)? {
        Some(values) => one_or_context(alloc, outputs, values),
        None => Ok(Outcome::Limit),
    }
}

/// Whether the value has no parts; false says nothing.
fn is_scalar(value: &Feel) -> bool
    ensures { IsTrue result → IsScalar value.now }
{
    match value.value() {
        Value::Null | Value::Bool(_) | Value::Number(_) | Value::Text(_) => true,
        Value::List(_) | Value::Context(_) => false,
    }
}

/// Whether no value has parts; false says nothing.
fn are_scalars(values: &[Feel]) -> bool
    ensures { IsTrue result → All IsScalar values.now }
{
    values.iter().all(|value| is_scalar(value))
}

/// Whether the values are known to make an output, without making it; false says nothing.
fn fit(outputs: &[Output], values: &[Feel]) -> bool
    requires { are_distinct (names_of outputs.now) ≡ true }
    ensures { IsTrue result → is_some (value_of (output_of (map column_view outputs.now) values.now)) ≡ true }
{
    if outputs.len() == 1 && values.len() == 1 {
        return true;
    }
    values.len() < MOST_NODES && are_scalars(values)
}

/// Copies of the values.
fn copies(alloc: Global, values: &[Feel]) -> Result<Vec<Feel>, AllocError>
    ensures { IfOk result (λ v. v.items ≡ values.now) }
{
    let mut copies = Vec::with_capacity(alloc, values.len())?;
    for value in values {
        copies.push(value.try_clone()?)?;
    }
    Ok(copies)
}

/// Whether the values make an output; false where that breaks a limit. None is made where that is known without.
fn make_output(alloc: Global, outputs: &[Output], values: &[Feel]) -> Result<bool, AllocError>
    requires { are_distinct (names_of outputs.now) ≡ true }
    ensures { IfOk result (λ b. b ≡ is_some (value_of (output_of (map column_view outputs.now) values.now))) }
{
    if fit(outputs, values) {
        return Ok(true);
    }
    let values = copies(alloc, values)?;
    let output = one_or_context(alloc, outputs, values)?;
    Ok(output.value().is_some())
}

/// Puts the values of a rule in the place of those that are there; false where one breaks a limit, or the output that they make.
pub(crate) fn lawful_values(
    alloc: Global,
    rule: &Rule,
    outputs: &[Output],
    env: &Env,
    values: &mut Vec<Feel>,
) -> Result<bool, AllocError>
    requires { are_distinct (names_of outputs.now) ≡ true }
    ensures { IfOk result (λ all. (if all then Some values.new.items else None) ≡ lawful_values_of (map column_view outputs.now) env.now (rule_view rule.now)) }
{
    let all = evaluate(alloc, &rule.gives, env, values)?;
    if !all {
        return Ok(false);
    }
    make_output(alloc, outputs, values)
}

/// The value of a column's default, null where it has none.
fn default_value(alloc: Global, output: &Output, env: &Env) -> Result<Outcome, AllocError>
    ensures { IfOk result (λ o. o ≡ default_of env.now (column_view output.now).fallback) }
{
    match &output.fallback {
        Some(expression) => eval(alloc, expression, env),
        None => Ok(Outcome::of(Value::Null)),
    }
}

/// The values of the columns' defaults; None where one breaks a limit.
pub(crate) fn default_values(
    alloc: Global,
    outputs: &[Output],
    env: &Env,
) -> Result<Option<Vec<Feel>>, AllocError>
    ensures { IfOk result (λ found. option_map (λ v. v.items) found ≡ default_values_of (map column_view outputs.now) env.now) }
{
    let mut values = Vec::with_capacity(alloc, outputs.len())?;
    for output in outputs {
        match default_value(alloc, output, env)? {
            Outcome::Is(value) => values.push(value)?,
            Outcome::Limit => return Ok(None),
        }
    }
    Ok(Some(values))
}

/// The values of the output columns as one value: the only one itself, otherwise a context of them under the columns' names.
/// `Limit` where that context would be no value.
pub(crate) fn one_or_context(
    alloc: Global,
    outputs: &[Output],
    values: Vec<Feel>,
) -> Result<Outcome, AllocError>
    requires { are_distinct (names_of outputs.now) ≡ true }
    ensures { IfOk result (λ o. o ≡ output_of (map column_view outputs.now) values.items) }
{
    if outputs.len() != 1 {
        return named(alloc, outputs, values);
    }
    if values.len() != 1 {
        return named(alloc, outputs, values);
    }
    Ok(only(values))
}

/// The first value.
fn only(values: Vec<Feel>) -> Outcome
    ensures { result ≡ Is (first_of values.items) }
{
    match values.into_iter().next() {
        Some(value) => Outcome::Is(value),
        None => Outcome::of(Value::Null),
    }
}

/// Whether no column has a default.
pub fn has_no_default(outputs: &[Output]) -> bool
    ensures { result ≡ list_all (λ c. is_none c.fallback) (map column_view outputs.now) }
{
    for output in outputs {
        if output.fallback.is_some() {
            return false;
        }
    }
    true
}

/// The context of the values under the columns' names, which are not compared.
fn named(alloc: Global, outputs: &[Output], values: Vec<Feel>) -> Result<Outcome, AllocError>
    requires { are_distinct (names_of outputs.now) ≡ true }
    ensures { IfOk result (λ o. o ≡ held (context (entries_of (zip (names_of outputs.now) values.items)))) }
{
    let entries = named_values(alloc, outputs, values)?;
    Outcome::context_of_distinct(alloc, entries)
}

/// The values under the columns' names.
fn named_values(
    alloc: Global,
    outputs: &[Output],
    values: Vec<Feel>,
) -> Result<Vec<(ArcStr, Value)>, AllocError>
    ensures { IfOk result (λ es. entries_view es.items ≡ entries_of (zip (names_of outputs.now) values.items)) }
{
    let mut entries = Vec::with_capacity(alloc, outputs.len())?;
    let mut values = values.into_iter();
    for output in outputs {
        let Some(value) = values.next() else {
            break;
        };
        let name = output.name.clone()?;
        entries.push((name, value.into_value()))?;
    }
    Ok(entries)
}
