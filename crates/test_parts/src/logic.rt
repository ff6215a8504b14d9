//! Boxed contexts in which a name stands twice, which are no part of a model.
use crate::form::{form_of, model_text};
use dmn_logic::{Logic, evaluate, read_decision_logic};
use feel_lang::Env;
use feel_value::{Feel, Outcome, Value};
use std::alloc::{AllocError, Global};
use std::test::Fail;

/// The logic of a decision with this expression, which is JSON.
pub fn logic(alloc: Global, expression: &str) -> Result<Logic, Fail> {
    let model = form_of(alloc, model_text(alloc, expression)?.as_str())?;
    let mut logics = read_decision_logic(alloc, &model.decisions, &[])?;
    Ok(logics.pop().ok_or("no logic")?)
}

const OUTCOMES: &[(&str, &str)] = &[
    (
        r#"{"context":[{"name":"x","expr":"1"},{"name":"x","expr":"2"}]}"#,
        "limit",
    ),
    (
        r#"{"context":[{"name":"x","expr":"1"},{"name":"x","expr":"x + 1"}],"result":"x"}"#,
        "2",
    ),
    (
        r#"{"context":[{"name":"a","expr":"a + 1"},{"name":"b","expr":"a"}]}"#,
        r#"{"a":4,"b":4}"#,
    ),
];

/// An environment in which `a` is this number.
pub fn env_of<'a>(alloc: Global, a: i64) -> Result<Env<'a>, Fail> {
    let mut env = Env::new(alloc);
    env.bind("a", Feel::of(Value::Number(a)).ok_or("no number")?)?;
    Ok(env)
}

/// The outcome as JSON text, or `limit`.
pub fn shown(alloc: Global, outcome: &Outcome) -> Result<String, AllocError> {
    match outcome {
        Outcome::Is(value) => value.to_json(alloc)?.to_string(alloc),
        Outcome::Limit => String::from_str(alloc, "limit"),
    }
}

/// What an expression, which is JSON, comes to where `a` is 3, and how many names are bound then.
fn outcome_of(alloc: Global, expression: &str) -> Result<(String, usize), Fail> {
    let logic = logic(alloc, expression)?;
    let mut env = env_of(alloc, 3)?;
    let outcome = evaluate(alloc, &logic, &mut env)?;
    Ok((shown(alloc, &outcome)?, env.len()))
}

/// Each expression comes to its outcome. Behind an evaluation no more names are bound than before.
#[test]
fn contexts_with_a_name_twice(rt: HostRuntime) -> Result<(), Fail> {
    for (expression, want) in OUTCOMES {
        let (found, bound) = outcome_of(rt.alloc(), expression)?;
        assert_eq!(rt; found.as_str(), *want, "{expression}");
        assert_eq!(rt; bound, 1, "{expression}");
    }
    Ok(())
}
