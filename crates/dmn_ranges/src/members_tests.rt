//! What paths into a parameter can give, worked out by hand.
use crate::expression::outcomes;
use crate::names::Names;
use crate::tests::words;
use crate::{Interval, MemberRange, ParameterRange, Range};
use feel_lang::read_expr;
use std::alloc::{AllocError, Global};
use std::process::Abort;
use std::test::Fail;

const ANY: &str = "null true false -9223372036854775807..9223372036854775807 text list context ";

fn numbers(low: i64, high: i64) -> Range {
    Range::numbers_or_null(false, Some(Interval { low, high }))
}

/// A member; the last name of its path comes first.
fn member(alloc: Global, names: &[&str], range: Range) -> Result<MemberRange, AllocError> {
    let mut path = Vec::new(alloc);
    for name in names {
        path.push(String::from_str(alloc, name)?)?;
    }
    Ok(MemberRange { path, range })
}

/// A parameter with `age` twice, `address.zip`, and `income`, which may be missing.
fn parameter(alloc: Global) -> Result<ParameterRange, AllocError> {
    let mut members = Vec::new(alloc);
    members.push(member(alloc, &["age"], numbers(0, 120))?)?;
    members.push(member(alloc, &["age"], numbers(7, 7))?)?;
    members.push(member(alloc, &["zip", "address"], numbers(1, 9))?)?;
    let income = Range::numbers_or_null(true, Some(Interval { low: 5, high: 6 }));
    members.push(member(alloc, &["income"], income)?)?;
    Ok(ParameterRange {
        range: Range::any(),
        members,
    })
}

/// A path, and what it can give.
const ROWS: &[(&str, &str)] = &[
    ("p", ANY),
    ("p.age", "0..120 "),
    ("p.age + 1", "1..121 "),
    ("(p).age", "0..120 "),
    ("((p.age))", "0..120 "),
    ("p.income", "null 5..6 "),
    ("p.address.zip", "1..9 "),
    ("(p.address).zip", "1..9 "),
    ("p.address", ANY),
    ("p.zip", ANY),
    ("p.address.age", ANY),
    ("p.age.zip", "null "),
    ("p.zip.address", ANY),
    ("if p.age < 0 then 1 else 2", "2..2 "),
    ("q.age", "null "),
    ("hidden.age", "null "),
    ("other.age", ANY),
];

fn hold(rt: &impl Abort, alloc: Global) -> Result<(), Fail> {
    let parameter = parameter(alloc)?;
    let mut names = Names::new(alloc);
    names.bind(alloc, "p", parameter.range, Some(&parameter))?;
    names.bind(alloc, "hidden", parameter.range, Some(&parameter))?;
    names.bind(alloc, "hidden", numbers(5, 5), None)?;
    names.bind(alloc, "other", Range::any(), None)?;
    for (text, want) in ROWS {
        let expr = read_expr(alloc, text)?;
        let got = words(alloc, outcomes(expr.tree(), &names))?;
        assert_eq!(rt; (*text, got.as_str()), (*text, *want));
    }
    Ok(())
}

#[test]
fn paths_into_a_parameter(rt: HostRuntime) -> Result<(), Fail> {
    hold(&rt, rt.alloc())
}
