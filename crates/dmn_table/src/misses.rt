//! By which input entry a rule misses.
ghost use Rattle.std.specs.Prelude.{◌≡◌, List, Bool, Option, IfOk};
ghost use Rattle.feel_text.specs.Satisfied.{satisfied};
ghost use Rattle.dmn_table.specs.Hits.{first_miss as first_miss_of, is_satisfied};
ghost use Rattle.dmn_table.specs.Misses.{missed_by, once_answered};
ghost use Rattle.dmn_table.specs.Parts.{rule_view};

use crate::table::Rule;
use feel_lang::{Env, Held, Tests, holds};
use feel_value::Feel;
use std::alloc::{AllocError, Global};

/// The first miss of a rule once its entry in a column is asked, where this one stands before the column; None where the entry
/// breaks a limit. Behind a miss an entry that is known to break none is not asked.
fn once_asked(
    alloc: Global,
    tests: &Tests,
    value: &Feel,
    column: usize,
    miss: Option<usize>,
    env: &Env,
) -> Result<Option<Option<usize>>, AllocError>
    ensures { IfOk result (λ found. (rest : Option (List Bool)) → missed_by column miss (is_satisfied (satisfied tests.now value.now env.now)) rest ≡ once_answered column found rest) }
{
    if miss.is_some() && tests.keep_limits() {
        return Ok(Some(miss));
    }
    match holds(alloc, tests, value, env)? {
        Held::Yes => Ok(Some(miss)),
        Held::No if miss.is_none() => Ok(Some(Some(column))),
        Held::No => Ok(Some(miss)),
        Held::Limit => Ok(None),
    }
}

/// The first input column, from 1 on, whose entry in the rule is not met, for these values of the input expressions of its table:
/// none where the rule hits. None alone where an entry breaks a limit. All its input entries are evaluated but those after a miss
/// that are known to break no limit.
pub fn first_miss(
    alloc: Global,
    rule: &Rule,
    values: &[Feel],
    env: &Env,
) -> Result<Option<Option<usize>>, AllocError>
    ensures { IfOk result (λ found. found ≡ first_miss_of env.now values.now (rule_view rule.now)) }
{
    let mut miss = None;
    for (i, tests) in rule.tests.iter().enumerate() {
        let Some(value) = values.get(i) else {
            return Ok(Some(miss));
        };
        let column = i + 1;
        let Some(next) = once_asked(alloc, tests, value, column, miss, env)? else {
            return Ok(None);
        };
        miss = next;
    }
    Ok(Some(miss))
}
