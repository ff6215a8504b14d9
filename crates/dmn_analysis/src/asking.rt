//! Values of which a finding is told, asked of the rules themselves.
ghost use Rattle.std.specs.Prelude.{◌≡◌, [], IsTrue, IfOk, Some, false, map};
ghost use Rattle.std.specs.List.{All};
ghost use Rattle.dmn_table.specs.Hits.{does_hit as does_hit_of};
ghost use Rattle.dmn_table.specs.Parts.{rule_view};
ghost use Rattle.dmn_analysis.specs.Claims.{Hits};

use dmn_table::{Rule, first_miss};
use feel_lang::Env;
use feel_value::Feel;
use std::alloc::{AllocError, Global};

/// Whether the rule hits for these values; None where an entry breaks a limit.
fn does_hit(
    alloc: Global,
    rule: &Rule,
    values: &[Feel],
    env: &Env,
) -> Result<Option<bool>, AllocError>
    ensures { IfOk result (λ hit. hit ≡ does_hit_of env.now values.now (rule_view rule.now)) }
{
    let Some(miss) = first_miss(alloc, rule, values, env)? else {
        return Ok(None);
    };
    match miss {
        None => Ok(Some(true)),
        Some(_) => Ok(Some(false)),
    }
}

/// Whether none of the rules hits for these values, where no name stands for anything.
pub(crate) fn all_miss(alloc: Global, rules: &[Rule], values: &[Feel]) -> Result<bool, AllocError>
    ensures each { IfOk result (λ all. IsTrue all → All (λ r. does_hit_of [] values.now (rule_view r) ≡ Some false) rules.now) }
    ensures all { IfOk result (λ all. All (λ r. does_hit_of [] values.now (rule_view r) ≡ Some false) rules.now → IsTrue all) }
{
    let env = Env::new(alloc);
    for rule in rules {
        let Some(hit) = does_hit(alloc, rule, values, &env)? else {
            return Ok(false);
        };
        if hit {
            return Ok(false);
        }
    }
    Ok(true)
}

/// Whether the rule hits for these values, where no name stands for anything.
pub(crate) fn hits(
    alloc: Global,
    rules: &[Rule],
    i: usize,
    values: &[Feel],
) -> Result<bool, AllocError>
    ensures hits { IfOk result (λ hit. IsTrue hit → Hits (map rule_view rules.now) i values.now) }
    ensures all { IfOk result (λ hit. Hits (map rule_view rules.now) i values.now → IsTrue hit) }
{
    let env = Env::new(alloc);
    if i >= rules.len() {
        return Ok(false);
    }
    let rule = &rules[i];
    let Some(hit) = does_hit(alloc, rule, values, &env)? else {
        return Ok(false);
    };
    Ok(hit)
}
