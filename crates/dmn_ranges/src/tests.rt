//! What expressions can give, worked out by hand.
use crate::range::joined;
use crate::{Interval, NamedRange, Outcomes, Range, Size, Texts, range_of_expression};
use feel_text::read_expr;
use std::alloc::{AllocError, Global};
use std::process::Abort;
use std::sync::ArcStr;
use std::test::Fail;

fn numbers(low: i64, high: i64) -> Range {
    Range::numbers_or_null(false, Some(Interval { low, high }))
}

fn others(trues: bool, falses: bool, texts: bool, lists: bool, contexts: bool) -> Range {
    let size = if lists || contexts {
        Size::any()
    } else {
        Size::none()
    };
    Range {
        nulls: false,
        trues,
        falses,
        numbers: None,
        texts: Texts::any_if(texts),
        lists,
        contexts,
        size,
    }
}

// One of three texts.
fn grades() -> Range {
    joined(
        joined(Range::text("low"), Range::text("middle")),
        Range::text("high"),
    )
}

/// The names that the rows have. `missing` is none of them, and `none` has no value.
pub(crate) fn names(alloc: Global) -> Result<Vec<NamedRange>, AllocError> {
    let maybe = Range::numbers_or_null(true, Some(Interval { low: 0, high: 5 }));
    let ranges = [
        ("small", numbers(7, 7)),
        ("small", numbers(1, 10)),
        ("wide", numbers(-3, 10)),
        ("full", numbers(-i64::MAX, i64::MAX)),
        ("maybe", maybe),
        ("word", others(false, false, true, false, false)),
        ("grade", grades()),
        ("yesno", others(true, true, false, false, false)),
        ("sure", others(true, false, false, false, false)),
        ("items", others(false, false, false, true, false)),
        ("parts", others(false, false, false, false, true)),
        ("any", Range::any()),
        ("none", Range::nothing()),
    ];
    let mut names = Vec::new(alloc);
    for (name, range) in ranges {
        let name = ArcStr::from_str(alloc, name)?;
        names.push(NamedRange { name, range })?;
    }
    Ok(names)
}

/// Adds the texts of a set.
fn add_texts(texts: &Texts, text: &mut String) -> Result<(), AllocError> {
    let Texts::Few(words) = texts else {
        return text.push_str("text ");
    };
    for word in words {
        let Some(word) = word else {
            continue;
        };
        text.push_str("\"")?;
        text.push_str(word.as_str().unwrap_or("?"))?;
        text.push_str("\" ")?;
    }
    Ok(())
}

/// What can be given, in words.
pub(crate) fn words(alloc: Global, told: Outcomes) -> Result<String, AllocError> {
    let range = told.range;
    let mut text = String::new(alloc);
    for (is_told, word) in [
        (range.nulls, "null "),
        (range.trues, "true "),
        (range.falses, "false "),
    ] {
        if is_told {
            text.push_str(word)?;
        }
    }
    if let Some(numbers) = range.numbers {
        let (low, high) = (numbers.low, numbers.high);
        let interval = format!(in alloc; "{low}..{high} ")?;
        text.push_str(interval.as_str())?;
    }
    add_texts(&range.texts, &mut text)?;
    for (is_told, word) in [
        (range.lists, "list "),
        (range.contexts, "context "),
        (told.limit, "limit "),
    ] {
        if is_told {
            text.push_str(word)?;
        }
    }
    Ok(text)
}

/// Holds each expression against what it can give.
fn hold(rt: &impl Abort, alloc: Global, rows: &[(&str, &str)]) -> Result<(), Fail> {
    let names = names(alloc)?;
    for (text, want) in rows {
        let expr = read_expr(alloc, text)?;
        let got = words(alloc, range_of_expression(alloc, expr.tree(), &names)?)?;
        assert_eq!(rt; (*text, got.as_str()), (*text, *want));
    }
    Ok(())
}

const LITERALS: &[(&str, &str)] = &[
    ("null", "null "),
    ("true", "true "),
    ("false", "false "),
    ("7", "7..7 "),
    ("-7", "-7..-7 "),
    ("-0", "0..0 "),
    ("\"a\"", "\"a\" "),
    ("\"\"", "\"\" "),
    ("word", "text "),
    ("grade", "\"low\" \"middle\" \"high\" "),
    (
        "\"a text with just 32 bytes: 45678\"",
        "\"a text with just 32 bytes: 45678\" ",
    ),
    ("\"a text with 33 bytes, one more: .\"", "text "),
    ("missing", "null "),
    ("(small)", "1..10 "),
    ("[1, 2]", "list "),
    ("[1, full + 1]", "list limit "),
    (
        "parts.a",
        "null true false -9223372036854775807..9223372036854775807 text list context ",
    ),
    (
        "items.a",
        "null true false -9223372036854775807..9223372036854775807 text list context ",
    ),
    ("word.a", "null "),
    ("missing.a", "null "),
    ("word.a.b", "null "),
    (
        "-9223372036854775807",
        "-9223372036854775807..-9223372036854775807 ",
    ),
];

const EMPTY: &[(&str, &str)] = &[
    ("none", ""),
    ("none + 1", ""),
    ("-none", ""),
    ("abs(none)", ""),
    ("modulo(none, 3)", ""),
    ("none < 1", ""),
    ("none = 1", ""),
    ("none = null", ""),
    ("none and sure", ""),
    ("not(none)", ""),
    ("none between 1 and 2", ""),
    ("if none then 1 else 2", ""),
    ("if yesno then none else 2", "2..2 "),
    ("none + (full + 1)", "limit "),
];

const LISTS: &[(&str, &str)] = &[
    ("[[1, 2], []]", "list "),
    ("[items]", "list limit "),
    ("[any]", "list limit "),
    ("[none]", "list "),
    ("[[1], [2]] = [[1], [2]]", "null true false "),
    ("[[1]] = null", "false "),
    ("items < items", "null "),
    ("items + 1", "null "),
    ("-items", "null "),
    ("count([[1, 2], []])", "2..2 "),
    ("count([])", "0..0 "),
    ("count(any)", "null 0..9999 "),
    ("abs(items)", "null "),
    ("sum([[1]])", "null "),
    (
        "[[1], [2]].a",
        "null true false -9223372036854775807..9223372036854775807 text list context ",
    ),
    (
        "[parts].a",
        "null true false -9223372036854775807..9223372036854775807 text list context limit ",
    ),
    (
        "parts.a.b",
        "null true false -9223372036854775807..9223372036854775807 text list context ",
    ),
    (
        "parts.a + 1",
        "null -9223372036854775806..9223372036854775807 limit ",
    ),
    ("if parts.a = 1 then 1 else 2", "1..2 "),
];

const ARITHMETIC: &[(&str, &str)] = &[
    ("small + small", "2..20 "),
    ("small - small", "-9..9 "),
    ("small * small", "1..100 "),
    ("wide * wide", "-30..100 "),
    ("wide * -2", "-20..6 "),
    ("small * -1", "-10..-1 "),
    ("-wide", "-10..3 "),
    ("-missing", "null "),
    ("maybe + small", "null 1..15 "),
    ("maybe * maybe", "null 0..25 "),
    ("word + 1", "null "),
    ("small + yesno", "null "),
    (
        "full + 1",
        "-9223372036854775806..9223372036854775807 limit ",
    ),
    (
        "full - 1",
        "-9223372036854775807..9223372036854775806 limit ",
    ),
    ("full + 0", "-9223372036854775807..9223372036854775807 "),
    ("full * 0", "0..0 "),
    (
        "full * 2",
        "-9223372036854775807..9223372036854775807 limit ",
    ),
    ("full * -1", "-9223372036854775807..9223372036854775807 "),
    ("-full", "-9223372036854775807..9223372036854775807 "),
    (
        "9223372036854775807 + 1",
        "9223372036854775807..9223372036854775807 limit ",
    ),
    (
        "any + small",
        "null -9223372036854775806..9223372036854775807 limit ",
    ),
    (
        "full - full",
        "-9223372036854775807..9223372036854775807 limit ",
    ),
    (
        "-9223372036854775807 - 1",
        "-9223372036854775807..-9223372036854775807 limit ",
    ),
    ("0 * -1", "0..0 "),
];

const REMAINDERS: &[(&str, &str)] = &[
    ("modulo(small, 3)", "0..2 "),
    ("modulo(small, -3)", "-2..0 "),
    ("modulo(-7, 3)", "0..2 "),
    ("modulo(small, 1)", "0..0 "),
    ("modulo(small, -1)", "0..0 "),
    ("modulo(small, 0)", "null "),
    ("modulo(small, -0)", "null "),
    ("modulo(missing, 0)", "null "),
    ("modulo(small, small)", "0..9 "),
    ("modulo(small, wide)", "null -2..9 "),
    ("modulo(small, maybe)", "null 0..4 "),
    ("modulo(maybe, 3)", "null 0..2 "),
    ("modulo(any, 3)", "null 0..2 "),
    (
        "modulo(full, full)",
        "null -9223372036854775806..9223372036854775806 ",
    ),
    ("modulo(full + 1, 3)", "0..2 limit "),
    ("modulo(word, 3)", "null "),
    ("modulo(small, word)", "null "),
];

/// What is added to the three grades, and what can be given then: eight texts at most are told.
const MANY: &[(&str, &str)] = &[
    (
        "if yesno then grade else if yesno then \"4\" else if yesno then \"5\" else if yesno then \"6\" else if yesno then \"7\" else \"8\"",
        "\"low\" \"middle\" \"high\" \"4\" \"5\" \"6\" \"7\" \"8\" ",
    ),
    (
        "if yesno then grade else if yesno then \"4\" else if yesno then \"5\" else if yesno then \"6\" else if yesno then \"7\" else if yesno then \"8\" else \"low\"",
        "\"low\" \"middle\" \"high\" \"4\" \"5\" \"6\" \"7\" \"8\" ",
    ),
    (
        "if yesno then grade else if yesno then \"4\" else if yesno then \"5\" else if yesno then \"6\" else if yesno then \"7\" else if yesno then \"8\" else \"9\"",
        "text ",
    ),
];

const CALLS: &[(&str, &str)] = &[
    ("abs(wide)", "0..10 "),
    ("abs(-5)", "5..5 "),
    ("abs(small)", "1..10 "),
    ("abs(small - 20)", "10..19 "),
    ("abs(maybe)", "null 0..5 "),
    ("abs(full)", "0..9223372036854775807 "),
    (
        "abs(-9223372036854775807)",
        "9223372036854775807..9223372036854775807 ",
    ),
    ("abs(word)", "null "),
    ("count(items)", "0..9999 "),
    ("count(word)", "null "),
    (
        "sum(items)",
        "null -9223372036854775807..9223372036854775807 limit ",
    ),
    ("min(small)", "null "),
    (
        "max(items)",
        "null -9223372036854775807..9223372036854775807 ",
    ),
    (
        "max(if yesno then [1] else [2])",
        "null -9223372036854775807..9223372036854775807 ",
    ),
];

/// Functions of written lists, whose members are followed.
const FOLDS: &[(&str, &str)] = &[
    ("max([1, 2])", "2..2 "),
    ("min([1, 2])", "1..1 "),
    ("max([0, wide])", "0..10 "),
    ("min([0, wide])", "-3..0 "),
    ("min([wide, small])", "-3..10 "),
    ("max([wide, small])", "1..10 "),
    ("max([wide])", "-3..10 "),
    ("max(([1, 2]))", "2..2 "),
    ("max((([wide])))", "-3..10 "),
    ("max([0, min([wide, 5])])", "0..5 "),
    ("max([0, maybe])", "null 0..5 "),
    ("max([maybe, 9])", "null 9..9 "),
    ("max([0, missing])", "null "),
    ("max([missing, 0])", "null "),
    ("max([word, 1])", "null "),
    ("max([[1]])", "null "),
    ("max([])", "null "),
    ("min([])", "null "),
    ("sum([])", "null "),
    ("abs([])", "null "),
    ("abs([1])", "null "),
    ("max([none, 1])", ""),
    ("sum([none])", ""),
    ("max([any, 1])", "null 1..9223372036854775807 limit "),
    ("max([full + 1, 0])", "0..9223372036854775807 limit "),
    ("sum([small, wide, 5])", "3..25 "),
    ("sum([small, -small])", "-9..9 "),
    ("sum([maybe, 1])", "null 1..6 "),
    ("sum([7])", "7..7 "),
    (
        "sum([9223372036854775807, 1])",
        "9223372036854775807..9223372036854775807 limit ",
    ),
    // A sum is held against the range at its end alone.
    (
        "sum([9223372036854775807, 1, -1])",
        "9223372036854775807..9223372036854775807 ",
    ),
    (
        "sum([-9223372036854775807, -9223372036854775807, full])",
        "-9223372036854775807..-9223372036854775807 limit ",
    ),
    ("count([word, missing, [1, 2]])", "3..3 "),
    ("count([none])", "1..1 "),
    ("count([any])", "1..1 limit "),
    ("count([full + 1])", "1..1 limit "),
];

const COMPARISONS: &[(&str, &str)] = &[
    ("small < 20", "true "),
    ("small < 1", "false "),
    ("small < 5", "true false "),
    ("small <= 10", "true "),
    ("small <= 0", "false "),
    ("small > 0", "true "),
    ("small > 10", "false "),
    ("small >= 11", "false "),
    ("small >= 1", "true "),
    ("maybe < 9", "null true "),
    ("missing < 9", "null "),
    ("word < \"b\"", "true false "),
    ("word < 1", "null "),
    ("any < 1", "null true false "),
    ("small = 5", "true false "),
    ("maybe = 5", "true false "),
    ("any = null", "true false "),
    ("word = \"a\"", "true false "),
    ("grade = \"low\"", "true false "),
    ("grade = \"none\"", "false "),
    ("grade != \"none\"", "true "),
    ("grade = grade", "true false "),
    ("\"low\" = \"low\"", "true "),
    ("\"low\" != \"low\"", "false "),
    ("\"low\" = \"lo\"", "false "),
    ("grade < \"m\"", "true false "),
    ("grade = null", "false "),
    ("yesno = true", "true false "),
    ("small = 20", "false "),
    ("small != 20", "true "),
    ("sure = true", "true "),
    ("sure = false", "false "),
    ("missing = null", "true "),
    ("missing = 1", "false "),
    ("7 = 7", "true "),
    ("-0 = 0", "true "),
    ("full < 9223372036854775807", "true false "),
    ("full <= 9223372036854775807", "true "),
    ("small = \"a\"", "null "),
    ("small != \"a\"", "null "),
    ("items = items", "null true false "),
    ("small between 1 and 10", "true "),
    ("small between 11 and 12", "false "),
    ("small between 5 and 8", "true false "),
    ("maybe between 0 and 5", "null true "),
    ("small between full + 1 and 20", "true false limit "),
];

const LOGIC: &[(&str, &str)] = &[
    ("yesno and sure", "true false "),
    ("sure and sure", "true "),
    ("sure and missing", "null "),
    ("yesno and missing", "null false "),
    ("sure or any", "true "),
    ("yesno or missing", "null true "),
    ("missing or missing", "null "),
    ("not(yesno)", "true false "),
    ("not(sure)", "false "),
    ("not(missing)", "null "),
    ("not(small)", "null "),
    ("if yesno then 1 else 5", "1..5 "),
    ("if sure then 1 else \"a\"", "1..1 "),
    ("if missing then 1 else 2", "2..2 "),
    ("if null then small else wide", "-3..10 "),
    ("if 1 then 2 else 3", "3..3 "),
    ("if word = 1 then 1 else 2", "2..2 "),
    ("if maybe < 9 then 1 else 2", "1..2 "),
    ("if maybe > 1 then \"a\" else null", "null \"a\" "),
    ("if yesno then \"a\" else \"b\"", "\"a\" \"b\" "),
    (
        "if yesno then \"low\" else grade",
        "\"low\" \"middle\" \"high\" ",
    ),
    ("if yesno then word else \"a\"", "text "),
    ("if yesno then \"a\" else word", "text "),
    ("if grade = \"none\" then \"a\" else \"b\"", "\"b\" "),
    ("if small < 20 then small else full", "1..10 "),
    ("if sure then 1 else full + 1", "1..1 "),
    ("if full + 1 > 0 then 1 else 2", "1..2 limit "),
];

#[test]
fn literals_names_and_paths(rt: HostRuntime) -> Result<(), Fail> {
    hold(&rt, rt.alloc(), LITERALS)
}

#[test]
fn no_value(rt: HostRuntime) -> Result<(), Fail> {
    hold(&rt, rt.alloc(), EMPTY)
}

#[test]
fn lists(rt: HostRuntime) -> Result<(), Fail> {
    hold(&rt, rt.alloc(), LISTS)
}

#[test]
fn remainders(rt: HostRuntime) -> Result<(), Fail> {
    hold(&rt, rt.alloc(), REMAINDERS)
}

#[test]
fn arithmetic(rt: HostRuntime) -> Result<(), Fail> {
    hold(&rt, rt.alloc(), ARITHMETIC)
}

#[test]
fn many_texts(rt: HostRuntime) -> Result<(), Fail> {
    hold(&rt, rt.alloc(), MANY)
}

#[test]
fn calls(rt: HostRuntime) -> Result<(), Fail> {
    hold(&rt, rt.alloc(), CALLS)
}

#[test]
fn functions_of_written_lists(rt: HostRuntime) -> Result<(), Fail> {
    hold(&rt, rt.alloc(), FOLDS)
}

#[test]
fn comparisons(rt: HostRuntime) -> Result<(), Fail> {
    hold(&rt, rt.alloc(), COMPARISONS)
}

#[test]
fn logic(rt: HostRuntime) -> Result<(), Fail> {
    hold(&rt, rt.alloc(), LOGIC)
}
