//! A table of more columns than have values of their own that are kept together.
use crate::logic::{env_of, logic, shown};
use dmn_logic::Logic;
use dmn_table::{Table, decide};
use std::alloc::{AllocError, Global};
use std::process::Abort;
use std::test::Fail;

const COLUMNS: usize = 129;

/// The entries of a rule: one text in each column but the last.
fn entries(alloc: Global, entry: &str, last: &str) -> Result<String, AllocError> {
    let before = format!(in alloc; "\"{entry}\",")?.repeat(alloc, COLUMNS - 1)?;
    format!(in alloc; "[{before}\"{last}\"]")
}

/// A table over this expression in each column that collects 1 where `a` is above 0, 2 where it is 0, and 3 where it is below and the last entry is met.
fn table(alloc: Global, input: &str, last: &str) -> Result<Table, Fail> {
    let inputs = entries(alloc, input, input)?;
    let above = entries(alloc, "> 0", "> 0")?;
    let zero = entries(alloc, "-", "0")?;
    let below = entries(alloc, "< 0", last)?;
    let text = format!(in alloc;
        r#"{{"table":{{"hit":"C","inputs":{inputs},"outputs":[{{"name":"r"}}],"rules":[{{"when":{above},"then":["1"]}},{{"when":{zero},"then":["2"]}},{{"when":{below},"then":["3"]}}]}}}}"#
    )?;
    match logic(alloc, &text)? {
        Logic::Table(table) => Ok(table),
        _ => Err("no table".into()),
    }
}

/// By the last entry of the third rule, and by what `a` is, what the table comes to. An entry behind a miss may break a limit.
const OUTCOMES: &[(&str, i64, &str)] = &[
    ("-", 1, "[1]"),
    ("-", 0, "[2]"),
    ("-", -1, "[3]"),
    ("0", -1, "null"),
    ("> a * 9223372036854775807", 1, "[1]"),
    ("> a * 9223372036854775807", 2, "limit"),
    ("> a * 9223372036854775807", -1, "[3]"),
];

/// Values that are kept together, and values that are not.
const INPUTS: &[&str] = &["a", "a + 0"];

fn many_columns_of(rt: &impl Abort, alloc: Global, input: &str) -> Result<(), Fail> {
    for (last, a, want) in OUTCOMES {
        let table = table(alloc, input, last)?;
        let outcome = decide(alloc, &table, &env_of(alloc, *a)?)?;
        assert_eq!(rt;
            shown(alloc, &outcome)?.as_str(),
            *want,
            "{input} {last} {a}"
        );
    }
    Ok(())
}

#[test]
fn many_columns(rt: HostRuntime) -> Result<(), Fail> {
    for input in INPUTS {
        many_columns_of(&rt, rt.alloc(), input)?;
    }
    Ok(())
}
