//! What boxed expressions can give, worked out by hand.
use crate::range_of_logic;
use crate::tests::{names, words};
use dmn_logic::Logic;
use feel_lang::read_expr;
use std::alloc::Global;
use std::process::Abort;
use std::sync::ArcStr;
use std::test::Fail;

/// The entries of a context, its result, and what that can give.
type Row = (
    &'static [(&'static str, &'static str)],
    &'static str,
    &'static str,
);

fn entries(alloc: Global, written: &[(&str, &str)]) -> Result<Vec<(ArcStr, Logic)>, Fail> {
    let mut entries = Vec::new(alloc);
    for (name, text) in written {
        let name = ArcStr::from_str(alloc, name)?;
        entries.push((name, Logic::Expression(read_expr(alloc, text)?)))?;
    }
    Ok(entries)
}

fn hold(rt: &impl Abort, alloc: Global, rows: &[Row]) -> Result<(), Fail> {
    let names = names(alloc)?;
    for (written, result, want) in rows {
        let last = Box::new(alloc, Logic::Expression(read_expr(alloc, result)?))?;
        let logic = Logic::ContextWith(entries(alloc, written)?, last);
        let got = words(alloc, range_of_logic(alloc, &logic, &names, 100_000)?)?;
        assert_eq!(rt; (*result, got.as_str()), (*result, *want));
    }
    Ok(())
}

const ROWS: &[Row] = &[
    (&[], "small", "1..10 "),
    (&[("a", "small + 1"), ("b", "a * 2")], "b - a", "-7..20 "),
    (&[("small", "5")], "small", "5..5 "),
    (&[("small", "small + 1")], "small", "2..11 "),
    (&[("a", "b"), ("b", "7")], "a", "null "),
    (&[("a", "full + 1")], "1", "1..1 limit "),
    (&[("a", "1"), ("a", "2")], "a", "2..2 "),
    (&[("a", "word")], "a + 1", "null "),
];

#[test]
fn entries_in_order(rt: HostRuntime) -> Result<(), Fail> {
    hold(&rt, rt.alloc(), ROWS)
}

#[test]
fn parts_of_unknown_size(rt: HostRuntime) -> Result<(), Fail> {
    let alloc = rt.alloc();
    let names = names(alloc)?;
    let list = Logic::List(Vec::new(alloc));
    let told = words(alloc, range_of_logic(alloc, &list, &names, 100_000)?)?;
    assert_eq!(&rt; told.as_str(), "list ");
    let context = Logic::Context(Vec::new(alloc));
    let told = words(alloc, range_of_logic(alloc, &context, &names, 100_000)?)?;
    assert_eq!(&rt; told.as_str(), "context limit ");
    Ok(())
}
