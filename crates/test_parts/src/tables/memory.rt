//! Calls while the heap refuses requests.
use super::{inputs, rules};
use crate::logic::{env_of, logic, shown};
use dmn_logic::Logic;
use dmn_table::{Output, Table, decide};
use feel_lang::{Env, read_expr, read_literal};
use feel_value::{Feel, Outcome};
use std::alloc::{AllocError, Global};
use std::process::Abort;
use std::sync::ArcStr;
use std::test::Fail;
use test_devices::FullHeap;

/// The one value of an output column.
fn values(alloc: Global) -> Result<Vec<Feel>, Fail> {
    Ok(vec![in alloc; read_literal(alloc, "1")?]?)
}

/// Output columns, of which the one has values and a default.
fn full_columns(alloc: Global) -> Result<Vec<Output>, Fail> {
    let values = values(alloc)?;
    let fallback = Some(read_expr(alloc, "3")?);
    let name = ArcStr::from_str(alloc, "r")?;
    Ok(vec![in alloc;
        Output {
            name,
            values,
            fallback
        },
    ]?)
}

#[test]
fn a_table_is_made_without_memory(rt: HostRuntime) -> Result<(), Fail> {
    let outputs = full_columns(rt.alloc())?;
    let rules = rules(rt.alloc(), &[(1, 1)])?;
    let inputs = inputs(rt.alloc())?;
    let full = FullHeap::but(rt.alloc(), 0)?;
    let is_full = full.blocks() > 0;
    let made = Table::new("P", inputs, outputs, rules);
    drop(full);
    assert!(rt; is_full && made.is_ok());
    Ok(())
}

/// Three rules that all hit.
const RULES: &str =
    r#"{"when":["> 0"],"then":["1"]},{"when":["-"],"then":["2"]},{"when":["1"],"then":["1"]}"#;

/// The text of a table of this hit policy whose rules are these, and so often again.
fn table_text(alloc: Global, hit: &str, times: usize) -> Result<String, AllocError> {
    let more = format!(in alloc; ",{RULES}")?.repeat(alloc, times)?;
    format!(in alloc;
        r#"{{"table":{{"hit":"{hit}","inputs":["a"],"outputs":[{{"name":"r","values":["2","1"]}}],"rules":[{RULES}{more}]}}}}"#
    )
}

/// The table of that text.
fn table(alloc: Global, hit: &str, times: usize) -> Result<Table, Fail> {
    match logic(alloc, table_text(alloc, hit, times)?.as_str())? {
        Logic::Table(table) => Ok(table),
        _ => Err("no table".into()),
    }
}

/// What a decision came to; one that was refused memory is made again.
fn settled(
    alloc: Global,
    table: &Table,
    env: &Env,
    first: Result<Outcome, AllocError>,
) -> Result<String, AllocError> {
    match first {
        Ok(found) => shown(alloc, &found),
        Err(AllocError) => shown(alloc, &decide(alloc, table, env)?),
    }
}

/// What each hit policy makes of thirty rules that all hit.
const OF_THIRTY: &[(&str, &str)] = &[
    ("F", "1"),
    ("P", "2"),
    (
        "O",
        "[2,2,2,2,2,2,2,2,2,2,1,1,1,1,1,1,1,1,1,1,1,1,1,1,1,1,1,1,1,1]",
    ),
    ("C+", "40"),
];

/// Sizes of what the heap still gives, from nothing to more than enough.
const SPARES: &[usize] = &[0, 1040, 1600, 2080, 4096, 8192, 16384, 65536];

/// A decision while the heap gives no more than this.
fn decided(
    alloc: Global,
    table: &Table,
    env: &Env,
    spare: usize,
) -> Result<Result<Outcome, AllocError>, AllocError> {
    let full = FullHeap::but(alloc, spare)?;
    let first = decide(alloc, table, env);
    drop(full);
    Ok(first)
}

/// The first of these sizes with which a decision is neither refused memory nor right at once, or isn't right when it is made
/// again; with nothing left it has to be refused, and with the most it must not.
fn wrong_spare(
    alloc: Global,
    table: &Table,
    env: &Env,
    want: &str,
) -> Result<Option<usize>, AllocError> {
    for spare in SPARES {
        let first = decided(alloc, table, env, *spare)?;
        let is_lawful = if first.is_ok() {
            *spare > 0
        } else {
            *spare < 65536
        };
        if !is_lawful || settled(alloc, table, env, first)?.as_str() != want {
            return Ok(Some(*spare));
        }
    }
    Ok(None)
}

/// The first size with which a decision of thirty rules is wrong, if there is one.
fn wrong_of_thirty(alloc: Global, hit: &str, env: &Env, want: &str) -> Result<Option<usize>, Fail> {
    let table = table(alloc, hit, 9)?;
    Ok(wrong_spare(alloc, &table, env, want)?)
}

#[test]
fn a_decision_is_right_or_finds_no_memory(rt: HostRuntime) -> Result<(), Fail> {
    let env = env_of(rt.alloc(), 1)?;
    for (hit, want) in OF_THIRTY {
        assert_eq!(rt;
            wrong_of_thirty(rt.alloc(), hit, &env, want)?,
            None,
            "{hit}"
        );
    }
    Ok(())
}

/// What each hit policy makes of three rules that all hit.
const OF_THREE: &[(&str, &str)] = &[("F", "1"), ("P", "2"), ("O", "[2,1,1]"), ("C+", "4")];

/// The tables of three rules.
fn tables_of_three(alloc: Global) -> Result<Vec<Table>, Fail> {
    let mut tables = Vec::with_capacity(alloc, OF_THREE.len())?;
    for (hit, _) in OF_THREE {
        tables.push(table(alloc, hit, 0)?)?;
    }
    Ok(tables)
}

/// Says whether a request of the first decision was refused, and tells what it came to in the end.
fn told<R: Print>(
    rt: &R,
    alloc: Global,
    hit: &str,
    table: &Table,
    env: &Env,
    first: Result<Outcome, AllocError>,
) -> Result<String, Fail> {
    println!(rt; "{hit} refused: {}", first.is_err())?;
    Ok(settled(alloc, table, env, first)?)
}

/// Each table's decision comes to what it should.
fn each_is_right<R: Abort + Print>(
    rt: &R,
    alloc: Global,
    tables: &[Table],
    env: &Env,
) -> Result<(), Fail> {
    for (table, (hit, want)) in tables.iter().zip(OF_THREE) {
        let first = decide(alloc, table, env);
        let found = told(rt, alloc, hit, table, env, first)?;
        assert!(rt; found.as_str() == *want, "{hit}");
    }
    Ok(())
}

/// The decisions of three rules do.
fn decisions_of_three_are_right<R: Abort + Print>(
    rt: &R,
    alloc: Global,
    env: &Env,
) -> Result<(), Fail> {
    let tables = tables_of_three(alloc)?;
    println!(rt; "made")?;
    each_is_right(rt, alloc, &tables, env)
}

/// Decisions whose requests are refused one after another, by hand: each says whether one of its own was. One that was
/// refused is right when it is made again.
#[test]
fn a_refused_decision_answers_nothing_else(rt: HostRuntime) -> Result<(), Fail> {
    let env = env_of(rt.alloc(), 1)?;
    decisions_of_three_are_right(&rt, rt.alloc(), &env)
}
