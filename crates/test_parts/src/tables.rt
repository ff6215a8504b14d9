//! Tables that are refused, each for its own reason; wide tables; and calls while the heap refuses requests.
mod memory;
mod wide;

use dmn_table::{Output, Rule, Table, TableFault};
use feel_lang::{Expr, Tests, read_expr, read_tests};
use std::alloc::{AllocError, Global};
use std::sync::ArcStr;
use std::test::Fail;

/// So many tests that always hold.
fn tests(alloc: Global, count: usize) -> Result<Vec<Tests>, Fail> {
    let mut tests = Vec::new(alloc);
    for _ in 0..count {
        tests.push(read_tests(alloc, "-")?)?;
    }
    Ok(tests)
}

/// So many outputs.
fn gives(alloc: Global, count: usize) -> Result<Vec<Expr>, Fail> {
    let mut gives = Vec::new(alloc);
    for _ in 0..count {
        gives.push(read_expr(alloc, "1")?)?;
    }
    Ok(gives)
}

/// A rule of so many tests and so many outputs.
fn rule(alloc: Global, (test_count, give_count): (usize, usize)) -> Result<Rule, Fail> {
    let tests = tests(alloc, test_count)?;
    let gives = gives(alloc, give_count)?;
    Ok(Rule { tests, gives })
}

/// Rules of so many tests and so many outputs each.
fn rules(alloc: Global, counts: &[(usize, usize)]) -> Result<Vec<Rule>, Fail> {
    let mut rules = Vec::new(alloc);
    for count in counts {
        rules.push(rule(alloc, *count)?)?;
    }
    Ok(rules)
}

/// An output column of this name.
fn column(alloc: Global, name: &str) -> Result<Output, AllocError> {
    Ok(Output {
        name: ArcStr::from_str(alloc, name)?,
        values: Vec::new(alloc),
        fallback: None,
    })
}

/// Output columns of these names.
fn columns(alloc: Global, names: &[&str]) -> Result<Vec<Output>, AllocError> {
    let mut columns = Vec::new(alloc);
    for name in names {
        columns.push(column(alloc, name)?)?;
    }
    Ok(columns)
}

/// The one input expression.
fn inputs(alloc: Global) -> Result<Vec<Expr>, Fail> {
    Ok(vec![in alloc; read_expr(alloc, "a")?]?)
}

/// Why there is no table of this hit policy, one input expression, output columns of these names, and rules of so many tests
/// and outputs.
fn refused(
    alloc: Global,
    hit: &str,
    names: &[&str],
    rules: &[(usize, usize)],
) -> Result<Option<TableFault>, Fail> {
    let rules = self::rules(alloc, rules)?;
    let columns = columns(alloc, names)?;
    Ok(Table::new(hit, inputs(alloc)?, columns, rules).err())
}

/// Hit policies, output columns and rules, and why they make no table, in the order of the reasons.
const REFUSALS: &[(&[&str], &[&str], &[(usize, usize)], TableFault)] = &[
    (&["X", "u", "CC", "C+C"], &["r"], &[(2, 1)], TableFault::Hit),
    (&["X"], &[], &[(2, 1)], TableFault::Hit),
    (&["U"], &["r"], &[(2, 1)], TableFault::Columns),
    (&["U"], &["r"], &[(1, 1), (0, 1)], TableFault::Columns),
    (&["U"], &["r"], &[(1, 2)], TableFault::Columns),
    (&["U"], &["r", "q"], &[(1, 1)], TableFault::Columns),
    (&["U"], &["r", "q"], &[(1, 2), (1, 0)], TableFault::Columns),
    (&["U", "C+"], &[], &[], TableFault::Columns),
    (&["U", "C+"], &["r", "q", "r"], &[], TableFault::Columns),
    (&["C+"], &["r", "q"], &[(2, 2)], TableFault::Columns),
    (
        &["C+", "C<", "C>", "C#"],
        &["r", "q"],
        &[(1, 2)],
        TableFault::Operator,
    ),
    (
        &["C+", "C<", "C>", "C#"],
        &["r", "q"],
        &[],
        TableFault::Operator,
    ),
    (
        &["C+", "C<", "C>", "C#"],
        &["r", "q"],
        &[(1, 2), (1, 2), (1, 2), (1, 2)],
        TableFault::Operator,
    ),
];

/// The first of these hit policies that isn't refused for this reason.
fn other_refusal(
    alloc: Global,
    hits: &[&'static str],
    names: &[&str],
    rules: &[(usize, usize)],
    fault: TableFault,
) -> Result<Option<&'static str>, Fail> {
    for hit in hits {
        if refused(alloc, hit, names, rules)? != Some(fault) {
            return Ok(Some(*hit));
        }
    }
    Ok(None)
}

#[test]
fn refused_tables(rt: HostRuntime) -> Result<(), Fail> {
    for (hits, names, rules, fault) in REFUSALS {
        let found = other_refusal(rt.alloc(), hits, names, rules, *fault)?;
        assert_eq!(rt; found, None, "{fault:?}");
    }
    Ok(())
}
