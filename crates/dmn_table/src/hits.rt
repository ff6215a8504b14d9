//! The rules that hit, and their outputs and places.
ghost use Rattle.std.specs.Prelude.{◌≡◌, ◌≤◌, ◌++◌, IsTrue, IfOk, IfSome, OnOk, Some, None, true, if◌then◌else◌, length, map, option_map};
ghost use Rattle.dmn_table.specs.Classes.{MissUnset, input_entries};
ghost use Rattle.feel_value.specs.Distinct.{are_distinct};
ghost use Rattle.feel_value.specs.Found.{each};
ghost use Rattle.feel_value.specs.declared.feel.Outcome.TheVariants.{Is};
ghost use Rattle.dmn_table.specs.Hits.{does_hit as does_hit_of, hit_of as hit_of_rule, output_of};
ghost use Rattle.dmn_table.specs.Listed.{listed_values, places_among};
ghost use Rattle.dmn_table.specs.Parts.{rule_view, column_view, names_of};
ghost use Rattle.dmn_table.specs.RuleOutputs.{rules_view, hits_among, fitting};
ghost use Rattle.dmn_table.specs.Unbroken.{AllKeepLimits};
ghost use Rattle.dmn_table.specs.View.{hit_view, ranked_hit};
ghost use Rattle.table_classes.specs.Classes.{TellsColumns};
ghost use Rattle.table_classes.specs.Unbroken.{KeepLimits};

use crate::listed::{Listed, lists_of};
use crate::output::{evaluated, lawful_values, one_or_context};
use crate::priority::{Hit, Ranked};
use crate::table::{Output, Rule};
use feel_lang::{Env, Held, holds};
use feel_value::{Feel, Members, Outcome};
use std::alloc::{AllocError, Global};
use table_classes::{ColumnClasses, WORD, common, rows_of};

/// Whether the rule hits, for these values of the input expressions; None where an entry breaks a limit. All entries are
/// evaluated but those after a miss that are known to break no limit, since these change nothing: where all are known to
/// (`keeps_limits`), a miss is the end.
fn is_matched(
    alloc: Global,
    rule: &Rule,
    keeps_limits: bool,
    values: &[Feel],
    env: &Env,
) -> Result<Option<bool>, AllocError>
    requires { IsTrue keeps_limits → KeepLimits rule.now.tests.items }
    ensures { IfOk result (λ hit. hit ≡ does_hit_of env.now values.now (rule_view rule.now)) }
{
    let mut hit = true;
    for (tests, value) in rule.tests.iter().zip(values) {
        if !hit && tests.keep_limits() {
            continue;
        }
        match holds(alloc, tests, value, env)? {
            Held::Yes => {}
            Held::No if keeps_limits => return Ok(Some(false)),
            Held::No => hit = false,
            Held::Limit => return Ok(None),
        }
    }
    Ok(Some(hit))
}

/// Adds those of these rules that hit; false where an entry breaks a limit. A rule whose bit is not set is known to miss and is
/// not asked; the first rule has the lowest bit. `keep_limits` says that all entries are known to break none.
fn add_hits<'a>(
    alloc: Global,
    rules: &'a [Rule],
    word: u64,
    keep_limits: bool,
    values: &[Feel],
    env: &Env,
    hits: &mut Vec<&'a Rule>,
) -> Result<bool, AllocError>
    requires few { length rules.now ≤ 64 }
    requires keep { IsTrue keep_limits → AllKeepLimits rules.now }
    requires others { MissUnset env.now values.now rules.now word }
    ensures { IfOk result (λ all. (if all then Some (rules_view hits.new.items) else None) ≡ option_map (λ more. rules_view hits.old.items ++ more) (hits_among env.now values.now (map rule_view rules.now))) }
{
    if word == 0 {
        return Ok(true);
    }
    for i in 0..rules.len() {
        if (word >> i) & 1 == 0 {
            continue;
        }
        let rule = &rules[i];
        let Some(is_hit) = is_matched(alloc, rule, keep_limits, values, env)? else {
            return Ok(false);
        };
        if is_hit {
            hits.push(rule)?;
        }
    }
    Ok(true)
}

/// The rules that hit, in their order; None where an entry breaks a limit. Only those rules are asked that may meet the class of
/// each value in its column, or an entry of which may break a limit.
fn hits_by_classes<'a>(
    alloc: Global,
    rules: &'a [Rule],
    keep_limits: bool,
    columns: &[ColumnClasses],
    values: &[Feel],
    env: &Env,
) -> Result<Option<Vec<&'a Rule>>, AllocError>
    requires keep { IsTrue keep_limits → AllKeepLimits rules.now }
    requires tell { TellsColumns (input_entries rules.now) columns.now }
    ensures { IfOk result (λ found. option_map (λ v. rules_view v.items) found ≡ hits_among env.now values.now (map rule_view rules.now)) }
{
    let rows = rows_of(alloc, columns, values)?;
    let mut hits = Vec::new(alloc);
    let mut place = 0;
    let mut rest = rules;
    while !rest.is_empty() {
        let (block, others) = rest.split_at(WORD.min(rest.len()));
        let word = common(&rows, place);
        let all = add_hits(alloc, block, word, keep_limits, values, env, &mut hits)?;
        if !all {
            return Ok(None);
        }
        rest = others;
        place += 1;
    }
    Ok(Some(hits))
}

/// The rules that hit, in their order; None where an entry breaks a limit. The entries of all rules are evaluated, but those
/// after a miss in their rule that are known to break no limit; `keep_limits` says that all are known to.
fn hits_by_scan<'a>(
    alloc: Global,
    rules: &'a [Rule],
    keep_limits: bool,
    values: &[Feel],
    env: &Env,
) -> Result<Option<Vec<&'a Rule>>, AllocError>
    requires { IsTrue keep_limits → AllKeepLimits rules.now }
    ensures { IfOk result (λ found. option_map (λ v. rules_view v.items) found ≡ hits_among env.now values.now (map rule_view rules.now)) }
{
    let mut hits = Vec::new(alloc);
    for rule in rules {
        let Some(hit) = is_matched(alloc, rule, keep_limits, values, env)? else {
            return Ok(None);
        };
        if hit {
            hits.push(rule)?;
        }
    }
    Ok(Some(hits))
}

/// The rules that hit, in their order; None where an entry breaks a limit: by the classes of the columns where these are known,
/// and else by each rule's entries. `keep_limits` says that all entries are known to break none.
pub(crate) fn rules_that_hit<'a>(
    alloc: Global,
    rules: &'a [Rule],
    keep_limits: bool,
    classes: &Option<Vec<ColumnClasses>>,
    values: &[Feel],
    env: &Env,
) -> Result<Option<Vec<&'a Rule>>, AllocError>
    requires keep { IsTrue keep_limits → AllKeepLimits rules.now }
    requires tell { IfSome classes.now (λ columns. TellsColumns (input_entries rules.now) columns.items) }
    ensures { IfOk result (λ found. option_map (λ v. rules_view v.items) found ≡ hits_among env.now values.now (map rule_view rules.now)) }
{
    let Some(columns) = classes else {
        return hits_by_scan(alloc, rules, keep_limits, values, env);
    };
    hits_by_classes(alloc, rules, keep_limits, columns, values, env)
}

/// Puts the places of a rule's values in the columns' lists of output values in the place of those that are there.
fn put_places(lists: &[Listed], values: &[Feel], places: &mut Vec<usize>) -> Result<(), AllocError>
    ensures { OnOk result (places.new.items ≡ places_among lists.now values.now) }
{
    places.clear();
    for (listed, value) in lists.iter().zip(values) {
        places.push(listed.place(value))?;
    }
    Ok(())
}

/// A rule that hit, with its output and the places of its values; None where a limit is broken.
#[tactic(auto, using(crate::proofs::Listing::places_by_lists))]
pub(crate) fn found_hit(
    alloc: Global,
    rule: &Rule,
    lists: &[Listed],
    outputs: &[Output],
    env: &Env,
) -> Result<Option<Hit>, AllocError>
    requires lists { lists.now ≡ listed_values (map column_view outputs.now) }
    requires distinct { are_distinct (names_of outputs.now) ≡ true }
    ensures { IfOk result (λ hit. option_map hit_view hit ≡ hit_of_rule (map column_view outputs.now) env.now (rule_view rule.now)) }
{
    let Some(values) = evaluated(alloc, &rule.gives, env)? else {
        return Ok(None);
    };
    let mut places = Vec::with_capacity(alloc, lists.len())?;
    put_places(lists, &values, &mut places)?;
    match one_or_context(alloc, outputs, values)? {
        Outcome::Is(output) => Ok(Some(Hit { places, output })),
        Outcome::Limit => Ok(None),
    }
}

/// Puts the values of a rule that hit, and their places, in the place of those that are there; false where a limit is broken.
pub(crate) fn rank(
    alloc: Global,
    rule: &Rule,
    lists: &[Listed],
    outputs: &[Output],
    env: &Env,
    ranked: &mut Ranked,
) -> Result<bool, AllocError>
    requires lists { lists.now ≡ listed_values (map column_view outputs.now) }
    requires distinct { are_distinct (names_of outputs.now) ≡ true }
    ensures hit { IfOk result (λ all. (if all then Some (ranked_hit (map column_view outputs.now) ranked.new) else None) ≡ hit_of_rule (map column_view outputs.now) env.now (rule_view rule.now)) }
    ensures output { IfOk result (λ all. IsTrue all → output_of (map column_view outputs.now) ranked.new.values.items ≡ Is (ranked_hit (map column_view outputs.now) ranked.new).output) }
{
    let are_lawful = lawful_values(alloc, rule, outputs, env, &mut ranked.values)?;
    if !are_lawful {
        return Ok(false);
    }
    put_places(lists, &ranked.values, &mut ranked.places)?;
    Ok(true)
}

/// These rules, with their outputs and places; None where a limit is broken, or the list of the outputs would be no value. The
/// evaluation ends at the first output too many.
pub(crate) fn fitting_hits(
    alloc: Global,
    rules: &[&Rule],
    outputs: &[Output],
    env: &Env,
) -> Result<Option<Vec<Hit>>, AllocError>
    requires { are_distinct (names_of outputs.now) ≡ true }
    ensures { IfOk result (λ found. option_map (λ v. map hit_view v.items) found ≡ fitting (each (hit_of_rule (map column_view outputs.now) env.now) (rules_view rules.now))) }
{
    let lists = lists_of(alloc, outputs, rules.len())?;
    let mut hits = Vec::new(alloc);
    let mut values = Members::new(alloc);
    for rule in rules {
        let Some(hit) = found_hit(alloc, rule, &lists, outputs, env)? else {
            return Ok(None);
        };
        if !values.push(hit.output.try_clone()?)? {
            return Ok(None);
        }
        hits.push(hit)?;
    }
    Ok(Some(hits))
}
