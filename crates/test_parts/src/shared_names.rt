//! Names are shared with what an evaluation forms and binds: it has no room for copies of them.
use crate::logic::{logic, shown};
use dmn_logic::{Logic, evaluate};
use feel_lang::Env;
use feel_value::Outcome;
use std::alloc::{AllocError, Global};
use std::test::Fail;
use test_devices::FullHeap;

/// How long the names are, in bytes.
const LENGTH: usize = 100_000;

/// The room that an evaluation has, in bytes.
const ROOM: usize = 16_384;

/// Expressions in which NAME stands for the long name, and what they come to.
const OUTCOMES: &[(&str, &str)] = &[
    (
        r#"{"context":[{"name":"NAME","expr":"1"},{"name":"m","expr":"2"}]}"#,
        r#"{"m":2,"NAME":1}"#,
    ),
    (
        r#"{"context":[{"name":"NAME","expr":"1"}],"result":"2"}"#,
        "2",
    ),
    (
        r#"{"context":[{"name":"a","expr":"1"},{"name":"b","expr":"1"},{"name":"c","expr":"1"},{"name":"d","expr":"1"},
            {"name":"e","expr":"1"},{"name":"f","expr":"1"},{"name":"g","expr":"1"},{"name":"h","expr":"1"},
            {"name":"NAME","expr":"1"}],"result":"2"}"#,
        "2",
    ),
    (
        r#"{"table":{"hit":"U","inputs":["1"],"outputs":[{"name":"NAME"},{"name":"m"}],
            "rules":[{"when":["-"],"then":["1","2"]}]}}"#,
        r#"{"m":2,"NAME":1}"#,
    ),
];

/// The text with the long name in the place of NAME.
fn named(alloc: Global, text: &str, name: &str) -> Result<String, AllocError> {
    match text.split_once("NAME") {
        Some((before, after)) => format!(in alloc; "{before}{name}{after}"),
        None => String::from_str(alloc, text),
    }
}

/// The outcome, where the heap has little room left.
fn evaluated_in_little_room(
    alloc: Global,
    logic: &Logic,
) -> Result<Result<Outcome, AllocError>, AllocError> {
    let mut env = Env::new(alloc);
    let full = FullHeap::but(alloc, ROOM)?;
    let first = evaluate(alloc, logic, &mut env);
    drop(full);
    Ok(first)
}

/// What an expression comes to with a long name in it.
fn outcome_of(alloc: Global, expression: &str, name: &str) -> Result<String, Fail> {
    let logic = logic(alloc, named(alloc, expression, name)?.as_str())?;
    let outcome = evaluated_in_little_room(alloc, &logic)??;
    Ok(shown(alloc, &outcome)?)
}

#[test]
fn no_name_is_copied(rt: HostRuntime) -> Result<(), Fail> {
    let name = "n".repeat(rt.alloc(), LENGTH)?;
    for (expression, want) in OUTCOMES {
        let found = outcome_of(rt.alloc(), expression, name.as_str())?;
        let want = named(rt.alloc(), want, name.as_str())?;
        assert!(rt; found == want, "{expression}");
    }
    Ok(())
}
