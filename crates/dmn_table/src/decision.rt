//! What a table decides.
ghost use Rattle.std.specs.Prelude.{◌≡◌, IfOk, map, option_map, true};
ghost use Rattle.feel_value.specs.Distinct.{are_distinct};
ghost use Rattle.dmn_table.specs.Hits.{hits};
ghost use Rattle.dmn_table.specs.RuleOutputs.{rules_view};
ghost use Rattle.dmn_table.specs.Result.{table_result, defaults as defaults_of};
ghost use Rattle.dmn_table.specs.Parts.{column_view, names_of};

use crate::columns::{are_kept, hits_by_columns};
use crate::hits::rules_that_hit;
use crate::output::{default_values, evaluated, has_no_default, one_or_context};
use crate::policy::result_of;
use crate::table::{Output, Rule, Table};
use feel_lang::Env;
use feel_value::{Outcome, Value};
use std::alloc::{AllocError, Global};

/// The outcome of a table under an environment. All input expressions are evaluated, and all input entries of all rules but
/// those after a miss in their rule that are known to break no limit; then the output entries of the rules that hit, or,
/// where none hits, the defaults.
pub fn decide(alloc: Global, table: &Table, env: &Env) -> Result<Outcome, AllocError>
    ensures { IfOk result (λ o. o ≡ table_result table.now env.now) }
{
    let Some(rules) = rules_of(alloc, table, env)? else {
        return Ok(Outcome::Limit);
    };
    if rules.is_empty() {
        return defaults(alloc, &table.outputs, env);
    }
    result_of(alloc, table.policy, &rules, &table.outputs, env)
}

/// The rules of a table that hit, in their order; None where an input expression or an entry breaks a limit. The values of the
/// columns are kept together where this takes little memory.
fn rules_of<'a>(
    alloc: Global,
    table: &'a Table,
    env: &Env,
) -> Result<Option<Vec<&'a Rule>>, AllocError>
    ensures { IfOk result (λ found. option_map (λ v. rules_view v.items) found ≡ hits table.now env.now) }
{
    let keep_limits = table.entries_keep_limits;
    if !are_kept(&table.inputs) {
        return hits_by_columns(alloc, &table.inputs, &table.rules, keep_limits, env);
    }
    let Some(values) = evaluated(alloc, &table.inputs, env)? else {
        return Ok(None);
    };
    rules_that_hit(
        alloc,
        &table.rules,
        keep_limits,
        &table.classes,
        &values,
        env,
    )
}

/// The result where no rule hits.
fn defaults(alloc: Global, outputs: &[Output], env: &Env) -> Result<Outcome, AllocError>
    requires { are_distinct (names_of outputs.now) ≡ true }
    ensures { IfOk result (λ o. o ≡ defaults_of (map column_view outputs.now) env.now) }
{
    if has_no_default(outputs) {
        return Ok(Outcome::of(Value::Null));
    }
    match default_values(alloc, outputs, env)? {
        Some(values) => one_or_context(alloc, outputs, values),
        None => Ok(Outcome::Limit),
    }
}
