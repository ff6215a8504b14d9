//! The rules that hit in a table of many columns, whose values are not kept together.
ghost use Rattle.std.specs.Prelude.{◌≡◌, ◌∷◌, ◌+◌, List, IsTrue, IfOk, IfSome, MatchOption, None, map, option_map};
ghost use Rattle.feel_value.specs.Datum.{Datum};
ghost use Rattle.dmn_table.specs.Columns.{asked_view, unasked as unasked_of, hits_by, hits_from, once_asked, left_hits, hitting as hitting_of, KeepTheirLimits};
ghost use Rattle.dmn_table.specs.Parts.{rule_view};
ghost use Rattle.dmn_table.specs.RuleOutputs.{rules_view};
ghost use Rattle.dmn_table.specs.Unbroken.{AllKeepLimits};

use crate::table::Rule;
use feel_lang::{Env, Expr, Held, eval, holds};
use feel_text::Tree;
use feel_value::{Feel, Outcome};
use std::alloc::{AllocError, Global};

/// The most columns with values of their own that are kept together: of the largest lists they take 30 MB.
const MOST_KEPT: usize = 128;

/// Whether the values of these columns are kept together. A name's value is shared, and takes no memory.
pub(crate) fn are_kept(inputs: &[Expr]) -> bool {
    let mut made: usize = 0;
    for input in inputs {
        if !matches!(input.tree(), Tree::Name(_)) {
            made = made.saturating_add(1);
        }
    }
    made <= MOST_KEPT
}

/// A rule, and whether each of its entries that was asked is met.
#[derive(Drop)]
pub(crate) struct Asked<'a> {
    rule: &'a Rule,
    is_hit: bool,
}

/// The rules, of which no entry was asked.
fn unasked<'a>(alloc: Global, rules: &'a [Rule]) -> Result<Vec<Asked<'a>>, AllocError>
    ensures { IfOk result (λ asked. asked_view asked.items ≡ unasked_of rules.now) }
{
    let mut asked = Vec::with_capacity(alloc, rules.len())?;
    for rule in rules {
        asked.push(Asked { rule, is_hit: true })?;
    }
    Ok(asked)
}

/// Whether a rule still hits once its entry in a column is asked; None where the entry breaks a limit. Behind a miss an entry
/// that is known to break none is not asked.
fn ask_rule(
    alloc: Global,
    asked: &Asked,
    column: usize,
    value: &Feel,
    env: &Env,
) -> Result<Option<bool>, AllocError>
    ensures { IfOk result (λ hit. (values : List Datum) → hits_from env.now (value.now ∷ values) column (asked.now.rule.now, asked.now.is_hit) ≡ once_asked env.now values (column + 1) asked.now.rule.now hit) }
{
    let Some(tests) = asked.rule.tests.get(column) else {
        return Ok(Some(asked.is_hit));
    };
    if !asked.is_hit && tests.keep_limits() {
        return Ok(Some(false));
    }
    match holds(alloc, tests, value, env)? {
        Held::Yes => Ok(Some(asked.is_hit)),
        Held::No => Ok(Some(false)),
        Held::Limit => Ok(None),
    }
}

/// The rules once the entry of each in a column is asked; None where one breaks a limit. A rule that misses is left out where all
/// entries are known to break none, which `keep_limits` says.
fn ask_rules<'a>(
    alloc: Global,
    asked: &[Asked<'a>],
    keep_limits: bool,
    column: usize,
    value: &Feel,
    env: &Env,
) -> Result<Option<Vec<Asked<'a>>>, AllocError>
    requires { IsTrue keep_limits → KeepTheirLimits (asked_view asked.now) }
    ensures left { IfOk result (λ found. MatchOption found ((values : List Datum) → left_hits env.now (value.now ∷ values) column (asked_view asked.now) ≡ None) (λ left. (values : List Datum) → left_hits env.now (value.now ∷ values) column (asked_view asked.now) ≡ left_hits env.now values (column + 1) (asked_view left.items))) }
    ensures keep { IfOk result (λ found. IfSome found (λ left. IsTrue keep_limits → KeepTheirLimits (asked_view left.items))) }
{
    let mut left = Vec::with_capacity(alloc, asked.len())?;
    for one in asked {
        let Some(is_hit) = ask_rule(alloc, one, column, value, env)? else {
            return Ok(None);
        };
        if !is_hit && keep_limits {
            continue;
        }
        let rule = one.rule;
        left.push(Asked { rule, is_hit })?;
    }
    Ok(Some(left))
}

/// The rules of which each entry that was asked is met.
fn hitting<'a>(alloc: Global, asked: &[Asked<'a>]) -> Result<Vec<&'a Rule>, AllocError>
    ensures { IfOk result (λ hits. rules_view hits.items ≡ hitting_of (asked_view asked.now)) }
{
    let mut hits = Vec::new(alloc);
    for one in asked {
        if one.is_hit {
            hits.push(one.rule)?;
        }
    }
    Ok(hits)
}

/// The rules that hit, in their order; None where an input expression or an entry breaks a limit. One column after another is
/// evaluated and asked about, so that one value is held at a time.
pub(crate) fn hits_by_columns<'a>(
    alloc: Global,
    inputs: &[Expr],
    rules: &'a [Rule],
    keep_limits: bool,
    env: &Env,
) -> Result<Option<Vec<&'a Rule>>, AllocError>
    requires { IsTrue keep_limits → AllKeepLimits rules.now }
    ensures { IfOk result (λ found. option_map (λ v. rules_view v.items) found ≡ hits_by env.now inputs.now (map rule_view rules.now)) }
{
    let mut asked = unasked(alloc, rules)?;
    for (column, input) in inputs.iter().enumerate() {
        let Outcome::Is(value) = eval(alloc, input, env)? else {
            return Ok(None);
        };
        let Some(left) = ask_rules(alloc, &asked, keep_limits, column, &value, env)? else {
            return Ok(None);
        };
        asked = left;
    }
    let hits = hitting(alloc, &asked)?;
    Ok(Some(hits))
}
