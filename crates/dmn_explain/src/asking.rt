//! Which rules of a table hit, and by which column the others miss.
ghost use Rattle.std.specs.Prelude.{◌≡◌, OnOk, IfOk, map, option_map};
ghost use Rattle.dmn_table.specs.Hits.{first_miss as first_miss_of};
ghost use Rattle.dmn_table.specs.MayHit.{LeavesOutOf};
ghost use Rattle.dmn_table.specs.Parts.{rule_view, rules_view};
ghost use Rattle.dmn_explain.specs.Numbered.{asked_view, found_from, hit_view, one_more};

use dmn_table::{MayHit, Rule, first_miss};
use feel_lang::{Env, Held, holds};
use feel_value::Feel;
use std::alloc::{AllocError, Global};
use table_classes::keep_limits;

/// As many rules hit mostly, or fewer.
const FEW_HITS: usize = 16;

/// A rule that hits, with its number, which counts from 1 on.
#[derive(Clone, Copy)]
pub(crate) struct Hit<'a> {
    pub(crate) number: usize,
    pub(crate) rule: &'a Rule,
}

/// A rule that misses: its number, and that of the first input column whose entry is not met. Both count from 1 on.
#[derive(Clone, Copy)]
pub(crate) struct Miss {
    pub(crate) number: usize,
    pub(crate) column: usize,
}

/// The rules that hit, and those that miss where they are asked for.
#[derive(Drop)]
pub(crate) struct Asked<'a> {
    pub(crate) hits: Vec<Hit<'a>>,
    pub(crate) misses: Vec<Miss>,
}

impl<'a> Asked<'a> {
    /// Adds a rule that misses by this column, where misses are asked for, or that hits.
    fn add(
        &mut self,
        number: usize,
        rule: &'a Rule,
        miss: Option<usize>,
        with_misses: bool,
    ) -> Result<(), AllocError>
        ensures { OnOk result (asked_view self.new ≡ one_more with_misses number (rule_view rule.now) miss (asked_view self.old)) }
    {
        let Some(column) = miss else {
            self.hits.push(Hit { number, rule })?;
            return Ok(());
        };
        if !with_misses {
            return Ok(());
        }
        self.misses.push(Miss { number, column })?;
        Ok(())
    }
}

/// The first input column, from 1 on, whose entry in the rule is not met: none where the rule hits. None alone where an entry breaks
/// a limit. It ends at the first miss, unless an entry behind that may break one.
fn miss_of(
    alloc: Global,
    rule: &Rule,
    values: &[Feel],
    env: &Env,
) -> Result<Option<Option<usize>>, AllocError>
    ensures { IfOk result (λ found. found ≡ first_miss_of env.now values.now (rule_view rule.now)) }
{
    for (i, tests) in rule.tests.iter().enumerate() {
        let Some(value) = values.get(i) else {
            return Ok(Some(None));
        };
        match holds(alloc, tests, value, env)? {
            Held::Yes => {}
            Held::No if keep_limits(&rule.tests[i + 1..]) => return Ok(Some(Some(i + 1))),
            Held::No | Held::Limit => return first_miss(alloc, rule, values, env),
        }
    }
    Ok(Some(None))
}

/// The rules that hit, in their order and with their numbers, and those that miss, where these are asked for; None where an entry
/// breaks a limit. Each rule is asked once; where misses aren't asked for, only those that may hit.
pub(crate) fn ask_rules<'a>(
    alloc: Global,
    rules: &'a [Rule],
    some: &MayHit,
    values: &[Feel],
    with_misses: bool,
    env: &Env,
) -> Result<Option<Asked<'a>>, AllocError>
    requires { LeavesOutOf (map rule_view rules.now) values.now some.now }
    ensures { IfOk result (λ found. option_map asked_view found ≡ found_from with_misses 1 env.now values.now (map rule_view rules.now)) }
{
    let mut asked = Asked {
        hits: Vec::with_capacity(alloc, FEW_HITS)?,
        misses: Vec::new(alloc),
    };
    for (i, rule) in rules.iter().enumerate() {
        if !with_misses && some.leaves_out(i) {
            continue;
        }
        let Some(miss) = miss_of(alloc, rule, values, env)? else {
            return Ok(None);
        };
        asked.add(i + 1, rule, miss, with_misses)?;
    }
    Ok(Some(asked))
}

/// The numbers of the rules that hit.
pub(crate) fn numbers_of(alloc: Global, hits: &[Hit<'_>]) -> Result<Vec<usize>, AllocError>
    ensures { IfOk result (λ numbers. numbers.items ≡ map (λ h. h.0) (map hit_view hits.now)) }
{
    let mut numbers = Vec::with_capacity(alloc, hits.len())?;
    for hit in hits {
        numbers.push(hit.number)?;
    }
    Ok(numbers)
}

/// The rules that hit themselves.
pub(crate) fn rules_of<'a>(alloc: Global, hits: &[Hit<'a>]) -> Result<Vec<&'a Rule>, AllocError>
    ensures { IfOk result (λ rules. rules_view rules.items ≡ map (λ h. h.1) (map hit_view hits.now)) }
{
    let mut rules = Vec::with_capacity(alloc, hits.len())?;
    for hit in hits {
        rules.push(hit.rule)?;
    }
    Ok(rules)
}
