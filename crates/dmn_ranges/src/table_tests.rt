//! What decision tables can give, worked out by hand.
use crate::range_of_table;
use crate::tests::{names, words};
use dmn_table::{Output, Rule, Table};
use feel_lang::{Expr, Tests, read_expr, read_tests};
use std::alloc::Global;
use std::process::Abort;
use std::sync::ArcStr;
use std::test::Fail;

/// A hit policy, inputs, the defaults of the output columns (an empty text for none), rules, and what the table can give.
type Row = (
    &'static str,
    &'static [&'static str],
    &'static [&'static str],
    &'static [(&'static [&'static str], &'static [&'static str])],
    &'static str,
);

fn expressions(alloc: Global, texts: &[&str]) -> Result<Vec<Expr>, Fail> {
    let mut expressions = Vec::new(alloc);
    for text in texts {
        expressions.push(read_expr(alloc, text)?)?;
    }
    Ok(expressions)
}

fn entries(alloc: Global, texts: &[&str]) -> Result<Vec<Tests>, Fail> {
    let mut entries = Vec::new(alloc);
    for text in texts {
        entries.push(read_tests(alloc, text)?)?;
    }
    Ok(entries)
}

fn columns(alloc: Global, defaults: &[&str]) -> Result<Vec<Output>, Fail> {
    let mut columns = Vec::new(alloc);
    for (i, text) in defaults.iter().enumerate() {
        let name = format!(in alloc; "column{i}")?;
        let name = ArcStr::from_str(alloc, name.as_str())?;
        let values = Vec::new(alloc);
        let fallback = if text.is_empty() {
            None
        } else {
            Some(read_expr(alloc, text)?)
        };
        columns.push(Output {
            name,
            values,
            fallback,
        })?;
    }
    Ok(columns)
}

fn hold(rt: &impl Abort, alloc: Global, rows: &[Row], steps: u64) -> Result<(), Fail> {
    let names = names(alloc)?;
    for (place, (hit, inputs, defaults, written, want)) in rows.iter().enumerate() {
        let mut rules = Vec::new(alloc);
        for (tests, gives) in *written {
            let tests = entries(alloc, tests)?;
            let gives = expressions(alloc, gives)?;
            rules.push(Rule { tests, gives })?;
        }
        let inputs = expressions(alloc, inputs)?;
        let Ok(table) = Table::new(hit, inputs, columns(alloc, defaults)?, rules) else {
            assert_eq!(rt; (place, "a table"), (place, *want));
            continue;
        };
        let got = words(alloc, range_of_table(alloc, &table, &names, steps)?)?;
        assert_eq!(rt; (place, got.as_str()), (place, *want));
    }
    Ok(())
}

const FIRST: &[Row] = &[
    (
        "F",
        &["small"],
        &[""],
        &[(&["< 5"], &["1"]), (&["-"], &["2"])],
        "1..2 ",
    ),
    (
        "F",
        &["small"],
        &[""],
        &[(&["<= 10"], &["1"]), (&["-"], &["2"])],
        "1..1 ",
    ),
    (
        "F",
        &["small"],
        &[""],
        &[(&["> 10"], &["1"]), (&["-"], &["2"])],
        "2..2 ",
    ),
    ("F", &["small"], &["7"], &[(&["< 5"], &["1"])], "1..7 "),
    ("F", &["small"], &[""], &[(&["< 5"], &["1"])], "null 1..1 "),
    ("F", &["small"], &[""], &[(&["< 0"], &["1"])], "null "),
    ("F", &["small"], &["7"], &[], "7..7 "),
    ("F", &["none"], &[""], &[(&["< 5"], &["1"])], ""),
    ("F", &["none"], &["7"], &[(&["-"], &["1"])], "1..1 "),
    (
        "F",
        &["small"],
        &[""],
        &[(&["[1, 2, 3]"], &["1"])],
        "null 1..1 ",
    ),
    (
        "F",
        &["items"],
        &[""],
        &[(&["[1, 2]"], &["1"])],
        "null 1..1 ",
    ),
    ("F", &["parts.a"], &[""], &[(&["-"], &["1"])], "1..1 "),
    (
        "F",
        &["modulo(small, 2)"],
        &[""],
        &[(&["0"], &["1"]), (&["1"], &["2"])],
        "1..2 ",
    ),
    ("F", &["small"], &["full + 1"], &[(&["-"], &["1"])], "1..1 "),
    (
        "F",
        &["small"],
        &[""],
        &[(&["< full + 1"], &["1"]), (&["-"], &["2"])],
        "1..2 limit ",
    ),
    (
        "F",
        &["small"],
        &[""],
        &[(&["< 0"], &["full + 1"]), (&["-"], &["2"])],
        "2..2 ",
    ),
    (
        "F",
        &["full + 1"],
        &[""],
        &[(&["-"], &["1"])],
        "1..1 limit ",
    ),
    (
        "F",
        &["maybe"],
        &[""],
        &[(&["null"], &["0"]), (&["-"], &["1"])],
        "0..1 ",
    ),
    (
        "F",
        &["missing"],
        &[""],
        &[(&["null"], &["0"]), (&["-"], &["1"])],
        "0..0 ",
    ),
    ("F", &["maybe"], &[""], &[(&[">= 0"], &["1"])], "null 1..1 "),
    ("F", &["small"], &[""], &[(&["not(30)"], &["1"])], "1..1 "),
    (
        "F",
        &["small"],
        &[""],
        &[(&["not(3)"], &["1"])],
        "null 1..1 ",
    ),
    ("F", &["small"], &[""], &[(&["[1..10]"], &["1"])], "1..1 "),
    (
        "F",
        &["small"],
        &[""],
        &[(&["(1..10]"], &["1"])],
        "null 1..1 ",
    ),
    (
        "F",
        &["small"],
        &[""],
        &[(&["20, 30, <= 10"], &["1"])],
        "1..1 ",
    ),
    (
        "F",
        &["word"],
        &[""],
        &[(&["\"a\""], &["\"b\""])],
        "null \"b\" ",
    ),
    (
        "F",
        &["grade"],
        &[""],
        &[(&["\"low\""], &["\"a\""]), (&["-"], &["\"b\""])],
        "\"a\" \"b\" ",
    ),
    (
        "F",
        &["grade"],
        &[""],
        &[(&["\"none\""], &["\"a\""]), (&["-"], &["\"b\""])],
        "\"b\" ",
    ),
    (
        "F",
        &["\"low\""],
        &[""],
        &[(&["\"high\", \"low\""], &["\"a\""])],
        "\"a\" ",
    ),
    (
        "F",
        &["small", "wide"],
        &[""],
        &[(&["> 0", "> -4"], &["small"])],
        "1..10 ",
    ),
    (
        "F",
        &["small", "wide"],
        &[""],
        &[(&["> 0", "> 0"], &["small"])],
        "null 1..10 ",
    ),
];

const OTHERS: &[Row] = &[
    (
        "U",
        &["small"],
        &[""],
        &[(&["< 5"], &["1"]), (&[">= 5"], &["2"])],
        "1..2 ",
    ),
    (
        "U",
        &["small"],
        &[""],
        &[(&["<= 10"], &["1"]), (&["> 10"], &["2"])],
        "1..1 ",
    ),
    (
        "U",
        &["small"],
        &[""],
        &[(&["-"], &["1"]), (&["< 5"], &["2"])],
        "null 1..2 ",
    ),
    ("A", &["small"], &[""], &[(&["-"], &["1"])], "1..1 "),
    (
        "A",
        &["small"],
        &[""],
        &[(&["-"], &["1"]), (&["-"], &["1"])],
        "null 1..1 ",
    ),
    (
        "P",
        &["small"],
        &["0"],
        &[(&["-"], &["1"]), (&["< 5"], &["3"])],
        "1..3 ",
    ),
    ("P", &["small"], &["0"], &[(&["< 5"], &["3"])], "0..3 "),
    (
        "P",
        &["small"],
        &["\"d\""],
        &[(&["< 5"], &["\"b\""]), (&["> 7"], &["\"a\""])],
        "\"b\" \"a\" \"d\" ",
    ),
    (
        "P",
        &["small"],
        &["9"],
        &[(&["<= 10"], &["1"]), (&["> 10"], &["2"])],
        "1..1 ",
    ),
    (
        "P",
        &["maybe"],
        &["7"],
        &[(&["> 2"], &["maybe"])],
        "null 0..7 ",
    ),
    (
        "C+",
        &["small"],
        &[""],
        &[(&["-"], &["-9223372036854775807"]), (&["-"], &["-1"])],
        "-9223372036854775807..9223372036854775807 limit ",
    ),
    ("C+", &["small"], &["9"], &[(&["< 5"], &["5"])], "0..9 "),
    ("C#", &["small"], &[""], &[], "null "),
    (
        "C+",
        &["small"],
        &[""],
        &[(&["-"], &["5"]), (&["< 5"], &["3"])],
        "5..8 ",
    ),
    (
        "C+",
        &["small"],
        &[""],
        &[(&["< 5"], &["5"]), (&["> 20"], &["100"])],
        "null 0..5 ",
    ),
    (
        "C+",
        &["small"],
        &[""],
        &[(&["-"], &["wide"]), (&["-"], &["small"])],
        "-2..20 ",
    ),
    (
        "C+",
        &["small"],
        &[""],
        &[(&["-"], &["maybe"])],
        "null 0..5 ",
    ),
    ("C+", &["small"], &[""], &[(&["-"], &["word"])], "null "),
    (
        "C+",
        &["small"],
        &[""],
        &[(&["-"], &["9223372036854775807"]), (&["-"], &["1"])],
        "-9223372036854775807..9223372036854775807 limit ",
    ),
    (
        "C<",
        &["small"],
        &[""],
        &[(&["-"], &["small"]), (&["-"], &["wide"])],
        "-3..10 ",
    ),
    (
        "C>",
        &["small"],
        &[""],
        &[(&["-"], &["small"]), (&["-"], &["full"])],
        "-9223372036854775807..9223372036854775807 ",
    ),
    (
        "C#",
        &["small"],
        &[""],
        &[(&["-"], &["1"]), (&["-"], &["2"])],
        "1..2 ",
    ),
    (
        "C#",
        &["small"],
        &["0"],
        &[(&["< 5"], &["1"]), (&["> 5"], &["2"])],
        "0..2 ",
    ),
    ("C", &["small"], &[""], &[(&["-"], &["1"])], "list "),
    (
        "C",
        &["small"],
        &[""],
        &[(&["-"], &["items"])],
        "list limit ",
    ),
    (
        "O",
        &["small"],
        &["", ""],
        &[(&["-"], &["1", "2"]), (&["< 5"], &["3", "word"])],
        "list ",
    ),
    ("R", &["small"], &[""], &[(&["< 5"], &["1"])], "null list "),
    ("O", &["small"], &["1"], &[(&["> 20"], &["1"])], "1..1 "),
    (
        "F",
        &["small"],
        &["", ""],
        &[(&["-"], &["1", "2"])],
        "context ",
    ),
    (
        "F",
        &["small"],
        &["", ""],
        &[(&["-"], &["1", "items"])],
        "context limit ",
    ),
    (
        "F",
        &["small"],
        &["", ""],
        &[(&["> 20"], &["1", "2"])],
        "null ",
    ),
    (
        "F",
        &["small"],
        &["1", ""],
        &[(&["> 20"], &["1", "2"])],
        "context ",
    ),
];

const NUMBERS_TOGETHER: &[Row] = &[
    (
        "F",
        &["small"],
        &[""],
        &[(&["<= 5"], &["1"]), (&[">= 6"], &["2"])],
        "1..2 ",
    ),
    (
        "F",
        &["small"],
        &[""],
        &[(&["< 5"], &["1"]), (&["> 5"], &["2"])],
        "null 1..2 ",
    ),
    (
        "F",
        &["small"],
        &["9"],
        &[(&["< 5"], &["1"]), (&[">= 5"], &["2"])],
        "1..2 ",
    ),
    (
        "U",
        &["small"],
        &[""],
        &[(&["<= 5"], &["1"]), (&[">= 5"], &["2"])],
        "null 1..2 ",
    ),
    (
        "U",
        &["small"],
        &["9"],
        &[(&["<= 5"], &["1"]), (&[">= 7"], &["2"])],
        "1..9 ",
    ),
    (
        "A",
        &["small"],
        &[""],
        &[
            (&["< 3"], &["1"]),
            (&["[3..7]"], &["2"]),
            (&["> 7"], &["3"]),
        ],
        "1..3 ",
    ),
    (
        "A",
        &["small"],
        &[""],
        &[(&["< 5"], &["1"]), (&[">= 5"], &["1"]), (&["7"], &["1"])],
        "null 1..1 ",
    ),
    (
        "C+",
        &["small"],
        &[""],
        &[(&["< 5"], &["1"]), (&[">= 5"], &["2"])],
        "0..3 ",
    ),
    (
        "C+",
        &["small"],
        &[""],
        &[(&["< 5"], &["1"]), (&["> 5"], &["2"])],
        "null 0..3 ",
    ),
    (
        "U",
        &["maybe"],
        &[""],
        &[(&["null"], &["1"]), (&["[0..5]"], &["2"])],
        "1..2 ",
    ),
    (
        "U",
        &["maybe"],
        &[""],
        &[(&["< 3"], &["1"]), (&[">= 3"], &["2"])],
        "null 1..2 ",
    ),
    (
        "U",
        &["full"],
        &[""],
        &[(&["< 0"], &["1"]), (&["0"], &["2"]), (&["> 0"], &["3"])],
        "1..3 ",
    ),
];

const KINDS_TOGETHER: &[Row] = &[
    (
        "U",
        &["any"],
        &[""],
        &[(&["null"], &["1"]), (&["not(null)"], &["2"])],
        "1..2 ",
    ),
    (
        "U",
        &["any"],
        &[""],
        &[(&["< 0"], &["1"]), (&[">= 0"], &["2"])],
        "null 1..2 ",
    ),
    (
        "U",
        &["yesno"],
        &[""],
        &[(&["true"], &["1"]), (&["false"], &["2"])],
        "1..2 ",
    ),
    (
        "U",
        &["grade"],
        &[""],
        &[
            (&["\"low\""], &["1"]),
            (&["\"middle\""], &["2"]),
            (&["\"high\""], &["3"]),
        ],
        "1..3 ",
    ),
    (
        "U",
        &["grade"],
        &[""],
        &[(&["\"low\""], &["1"]), (&["\"high\""], &["3"])],
        "null 1..3 ",
    ),
    (
        "U",
        &["grade"],
        &[""],
        &[
            (&["\"low\", \"high\""], &["1"]),
            (&["\"middle\""], &["2"]),
            (&["\"none\""], &["3"]),
        ],
        "1..2 ",
    ),
    (
        "U",
        &["grade"],
        &[""],
        &[(&["\"low\""], &["1"]), (&["not(\"low\")"], &["2"])],
        "1..2 ",
    ),
    (
        "U",
        &["word"],
        &[""],
        &[(&["\"a\""], &["1"]), (&["not(\"a\")"], &["2"])],
        "1..2 ",
    ),
    (
        "U",
        &["word"],
        &[""],
        &[(&["\"a\""], &["1"]), (&["\"b\""], &["2"])],
        "null 1..2 ",
    ),
];

const COLUMNS_TOGETHER: &[Row] = &[
    (
        "U",
        &["small", "yesno"],
        &[""],
        &[
            (&["< 5", "true"], &["1"]),
            (&["< 5", "false"], &["2"]),
            (&[">= 5", "-"], &["3"]),
        ],
        "1..3 ",
    ),
    (
        "U",
        &["small", "yesno"],
        &[""],
        &[
            (&["< 5", "true"], &["1"]),
            (&["< 6", "false"], &["2"]),
            (&[">= 5", "-"], &["3"]),
        ],
        "null 1..3 ",
    ),
    (
        "U",
        &["small", "yesno"],
        &[""],
        &[(&["< 5", "true"], &["1"]), (&[">= 5", "-"], &["3"])],
        "null 1..3 ",
    ),
    (
        "U",
        &["small", "wide"],
        &[""],
        &[(&["-", "< 5"], &["small"]), (&["-", ">= 5"], &["wide"])],
        "-3..10 ",
    ),
    (
        "F",
        &["small"],
        &[""],
        &[(&["< wide"], &["1"]), (&[">= wide"], &["2"])],
        "null 1..2 ",
    ),
    (
        "F",
        &["small"],
        &[""],
        &[
            (&["< wide"], &["0"]),
            (&["< 5"], &["1"]),
            (&[">= 5"], &["2"]),
        ],
        "0..2 ",
    ),
    (
        "F",
        &["small"],
        &[""],
        &[
            (&["< full + 1"], &["1"]),
            (&["< 5"], &["2"]),
            (&[">= 5"], &["3"]),
        ],
        "1..3 limit ",
    ),
];

const INPUTS_TOGETHER: &[Row] = &[
    (
        "F",
        &["full + 1"],
        &[""],
        &[(&["< 5"], &["1"]), (&[">= 5"], &["2"])],
        "1..2 limit ",
    ),
    (
        "O",
        &["small"],
        &[""],
        &[(&["< 5"], &["1"]), (&[">= 5"], &["2"])],
        "list ",
    ),
    (
        "C#",
        &["small"],
        &[""],
        &[(&["< 5"], &["1"]), (&[">= 5"], &["2"])],
        "1..2 ",
    ),
    (
        "C<",
        &["small"],
        &[""],
        &[(&["< 5"], &["small"]), (&[">= 5"], &["2"])],
        "1..10 ",
    ),
    (
        "P",
        &["small"],
        &["\"d\""],
        &[(&["< 5"], &["\"b\""]), (&[">= 5"], &["\"a\""])],
        "\"b\" \"a\" ",
    ),
    (
        "U",
        &["none"],
        &[""],
        &[(&["< 5"], &["1"]), (&[">= 5"], &["2"])],
        "",
    ),
    (
        "F",
        &["items"],
        &[""],
        &[(&["[1, 2]"], &["1"]), (&["not([1, 2])"], &["2"])],
        "null 1..2 ",
    ),
];

// With so few steps that the rules can't be read.
const WITHOUT_STEPS: &[Row] = &[
    (
        "F",
        &["small"],
        &[""],
        &[(&["< 5"], &["1"]), (&[">= 5"], &["2"])],
        "null 1..2 ",
    ),
    (
        "U",
        &["small"],
        &["7"],
        &[(&["< 5"], &["1"]), (&[">= 5"], &["2"])],
        "null 1..7 ",
    ),
];

#[test]
fn first_hits(rt: HostRuntime) -> Result<(), Fail> {
    hold(&rt, rt.alloc(), FIRST, 100_000)
}

#[test]
fn other_policies(rt: HostRuntime) -> Result<(), Fail> {
    hold(&rt, rt.alloc(), OTHERS, 100_000)
}

#[test]
fn numbers_together(rt: HostRuntime) -> Result<(), Fail> {
    hold(&rt, rt.alloc(), NUMBERS_TOGETHER, 100_000)
}

#[test]
fn kinds_together(rt: HostRuntime) -> Result<(), Fail> {
    hold(&rt, rt.alloc(), KINDS_TOGETHER, 100_000)
}

#[test]
fn columns_together(rt: HostRuntime) -> Result<(), Fail> {
    hold(&rt, rt.alloc(), COLUMNS_TOGETHER, 100_000)
}

#[test]
fn inputs_together(rt: HostRuntime) -> Result<(), Fail> {
    hold(&rt, rt.alloc(), INPUTS_TOGETHER, 100_000)
}

#[test]
fn no_steps_left(rt: HostRuntime) -> Result<(), Fail> {
    hold(&rt, rt.alloc(), WITHOUT_STEPS, 3)
}
