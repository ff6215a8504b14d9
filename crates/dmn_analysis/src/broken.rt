//! Rules with tests that break a limit.
ghost use Rattle.std.specs.Prelude.{◌≡◌, ◌≢◌, [], false, IsTrue, IfOk, map};
ghost use Rattle.std.specs.List.{All};
ghost use Rattle.feel_value.specs.Datum.{null as null_value};
ghost use Rattle.feel_text.specs.Satisfied.{Broken, satisfied};
ghost use Rattle.dmn_table.specs.Parts.{rule_view};
ghost use Rattle.dmn_analysis.specs.Claims.{KeepLimits};
ghost use Rattle.dmn_analysis.specs.Constant.{AreConstant};

use dmn_table::Rule;
use feel_lang::{Env, Held, holds};
use feel_text::Tests;
use feel_value::{Feel, Value};
use std::alloc::{AllocError, Global};

// Whether the tests break no limit for this value, where the names have these values.
#[tactic(auto, using(crate::proofs::WithoutNames::limit_is_broken))]
fn keep_limits(alloc: Global, tests: &Tests, value: &Feel, env: &Env) -> Result<bool, AllocError>
    ensures kept { IfOk result (λ kept. IsTrue kept → satisfied tests.now value.now env.now ≢ Broken) }
    ensures unless { IfOk result (λ kept. kept ≡ false → satisfied tests.now value.now env.now ≡ Broken) }
{
    if tests.keep_limits() {
        return Ok(true);
    }
    match holds(alloc, tests, value, env)? {
        Held::Yes => Ok(true),
        Held::No => Ok(true),
        Held::Limit => Ok(false),
    }
}

// Whether the tests of each column do.
fn all_keep_limits(
    alloc: Global,
    all: &[Tests],
    value: &Feel,
    env: &Env,
) -> Result<bool, AllocError>
    ensures kept { IfOk result (λ kept. IsTrue kept → All (λ ts. satisfied ts value.now env.now ≢ Broken) all.now) }
    ensures all { IfOk result (λ kept. All (λ ts. satisfied ts value.now env.now ≢ Broken) all.now → IsTrue kept) }
{
    for tests in all {
        let kept = keep_limits(alloc, tests, value, env)?;
        if !kept {
            return Ok(false);
        }
    }
    Ok(true)
}

fn null() -> Feel
    ensures { result ≡ null_value }
{
    match Feel::of(Value::Null) {
        Some(null) => null,
        None => unreachable!(),
    }
}

/// The rules that have a test in which no name stands, and which breaks a limit; and others with tests that do where no name stands for
/// anything.
pub(crate) fn broken_rules(alloc: Global, rules: &[Rule]) -> Result<Vec<usize>, AllocError>
    ensures kept { IfOk result (λ broken. broken.items ≡ [] → KeepLimits (map rule_view rules.now)) }
    ensures none { IfOk result (λ broken. AreConstant (map rule_view rules.now) → broken.items ≡ []) }
{
    let env = Env::new(alloc);
    let null = null();
    let mut broken = Vec::new(alloc);
    for place in 0..rules.len() {
        let kept = all_keep_limits(alloc, &rules[place].tests, &null, &env)?;
        if kept {
            continue;
        }
        broken.push(place)?;
    }
    Ok(broken)
}
