//! The trees that texts are read as, and texts of a megabyte.
use feel_lang::{Expr, ReadFault, read_expr, read_tests};
use std::alloc::Global;
use std::process::Abort;
use std::test::Fail;

/// Expressions, and the trees that they are read as.
const GROUPINGS: &[(&str, &str)] = &[
    (
        "2 - 3 - 4",
        "Binary(Subtract, Binary(Subtract, Constant(2), Constant(3)), Constant(4))",
    ),
    (
        "1 + 2 * 3",
        "Binary(Add, Constant(1), Binary(Multiply, Constant(2), Constant(3)))",
    ),
    (
        "-2 * 3",
        "Binary(Multiply, Negate(Constant(2)), Constant(3))",
    ),
    ("--1", "Negate(Negate(Constant(1)))"),
    ("-a.b", "Negate(Path(Name(\"a\"), \"b\"))"),
    ("a.b.c", "Path(Path(Name(\"a\"), \"b\"), \"c\")"),
    ("1 . a", "Path(Constant(1), \"a\")"),
    (
        "a or b and c",
        "Binary(Or, Name(\"a\"), Binary(And, Name(\"b\"), Name(\"c\")))",
    ),
    (
        "a or b or c",
        "Binary(Or, Binary(Or, Name(\"a\"), Name(\"b\")), Name(\"c\"))",
    ),
    (
        "2 between 1 and 3 and false",
        "Binary(And, Between(Constant(2), Constant(1), Constant(3)), Constant(false))",
    ),
    (
        "1 + 1 < 2",
        "Binary(Less, Binary(Add, Constant(1), Constant(1)), Constant(2))",
    ),
    (
        "if a then 1 else 2 or b",
        "If(Name(\"a\"), Constant(1), Binary(Or, Constant(2), Name(\"b\")))",
    ),
    (
        "(1 = 2) = 3",
        "Binary(Equal, Group(Binary(Equal, Constant(1), Constant(2))), Constant(3))",
    ),
    ("not(1)", "Not(Constant(1))"),
    (
        "if(true)then(1)else(2)",
        "If(Group(Constant(true)), Group(Constant(1)), Group(Constant(2)))",
    ),
    (
        "- 1 - -1",
        "Binary(Subtract, Negate(Constant(1)), Negate(Constant(1)))",
    ),
    ("1.a", "Path(Constant(1), \"a\")"),
    ("modulo(7, 2)", "Modulo(Constant(7), Constant(2))"),
    ("abs - 1", "Binary(Subtract, Name(\"abs\"), Constant(1))"),
    ("count([])", "Call(Count, List([]))"),
    (
        "[1, \"a\", null]",
        "List([Constant(1), Constant(\"a\"), Constant(null)])",
    ),
    (
        "1!=-1",
        "Binary(NotEqual, Constant(1), Negate(Constant(1)))",
    ),
    ("000000000000000000000000000007", "Constant(7)"),
    ("9223372036854775807", "Constant(9223372036854775807)"),
    (
        "\t a\r\n>=\n1 ",
        "Binary(GreaterEqual, Name(\"a\"), Constant(1))",
    ),
    ("_a9", "Name(\"_a9\")"),
    ("\"a\u{e9}b\"", "Constant(\"a\u{e9}b\")"),
];

/// How the expression is shown.
fn shown(alloc: Global, expr: &Expr) -> Result<String, Fail> {
    Ok(format!(in alloc; "{expr:?}")?)
}

/// How the text's expression is shown.
fn shown_expr(alloc: Global, text: &str) -> Result<String, Fail> {
    let expr = read_expr(alloc, text)?;
    shown(alloc, &expr)
}

/// What is shown of the text is this type's name with this tree and the fields behind it.
fn is_shown(
    rt: &impl Abort,
    alloc: Global,
    text: &str,
    shown: &str,
    name: &str,
    tree: &str,
) -> Result<(), Fail> {
    let want = format!(in alloc; "{name} {{ tree: {tree} }}")?;
    assert_eq!(rt; shown, want.as_str(), "at {text}");
    Ok(())
}

#[test]
fn expressions_group_as_the_grammar_says(rt: HostRuntime) -> Result<(), Fail> {
    for (text, tree) in GROUPINGS {
        let shown = shown_expr(rt.alloc(), text)?;
        is_shown(&rt, rt.alloc(), text, &shown, "Expr", tree)?;
    }
    Ok(())
}

/// Unary tests, the forms that they are read as, and whether they are known to break no limit.
const FORMS: &[(&str, &str, bool)] = &[
    ("-", "Any", true),
    (
        "< 3, >= 7",
        "OneOf([Compares(Below, Constant(3)), Compares(AtLeast, Constant(7))])",
        true,
    ),
    (
        "<= -1",
        "OneOf([Compares(AtMost, Negate(Constant(1)))])",
        true,
    ),
    (
        "[1..5)",
        "OneOf([Interval(true, Constant(1), Constant(5), false)])",
        true,
    ),
    (
        "]1..5[",
        "OneOf([Interval(false, Constant(1), Constant(5), false)])",
        true,
    ),
    (
        "(1..5]",
        "OneOf([Interval(false, Constant(1), Constant(5), true)])",
        true,
    ),
    (
        "[1 .. a + 1]",
        "OneOf([Interval(true, Constant(1), Binary(Add, Name(\"a\"), Constant(1)), true)])",
        false,
    ),
    (
        "[[1]..[2]]",
        "OneOf([Interval(true, List([Constant(1)]), List([Constant(2)]), true)])",
        false,
    ),
    (
        "[1, 5]",
        "OneOf([Equals(List([Constant(1), Constant(5)]))])",
        false,
    ),
    (
        "(1), [2..3]",
        "OneOf([Equals(Group(Constant(1))), Interval(true, Constant(2), Constant(3), true)])",
        true,
    ),
    (
        "not(< 3, > 7)",
        "NoneOf([Compares(Below, Constant(3)), Compares(Above, Constant(7))])",
        true,
    ),
    ("not(true)", "NoneOf([Equals(Constant(true))])", true),
    (
        "not((1..5))",
        "NoneOf([Interval(false, Constant(1), Constant(5), false)])",
        true,
    ),
    ("not(not(1))", "NoneOf([Equals(Not(Constant(1)))])", true),
    (
        "not(1), 2",
        "OneOf([Equals(Not(Constant(1))), Equals(Constant(2))])",
        true,
    ),
    (
        "not(1) = 2",
        "OneOf([Equals(Binary(Equal, Not(Constant(1)), Constant(2)))])",
        true,
    ),
    (
        "\"a\", null",
        "OneOf([Equals(Constant(\"a\")), Equals(Constant(null))])",
        true,
    ),
    (
        "a > 3",
        "OneOf([Equals(Binary(Greater, Name(\"a\"), Constant(3)))])",
        true,
    ),
    ("-1", "OneOf([Equals(Negate(Constant(1)))])", true),
    ("null", "OneOf([Equals(Constant(null))])", true),
    ("< \"b\"", "OneOf([Compares(Below, Constant(\"b\"))])", true),
    (
        "]1..5]",
        "OneOf([Interval(false, Constant(1), Constant(5), true)])",
        true,
    ),
    (
        "[1..5[",
        "OneOf([Interval(true, Constant(1), Constant(5), false)])",
        true,
    ),
    (
        "(1..5)",
        "OneOf([Interval(false, Constant(1), Constant(5), false)])",
        true,
    ),
    (
        "[[1, 5]]",
        "OneOf([Equals(List([List([Constant(1), Constant(5)])]))])",
        false,
    ),
    (
        "9223372036854775807 + 1",
        "OneOf([Equals(Binary(Add, Constant(9223372036854775807), Constant(1)))])",
        false,
    ),
    ("-a", "OneOf([Equals(Negate(Name(\"a\")))])", false),
    ("a.b", "OneOf([Equals(Path(Name(\"a\"), \"b\"))])", false),
    (
        "a between -1 and b",
        "OneOf([Equals(Between(Name(\"a\"), Negate(Constant(1)), Name(\"b\")))])",
        true,
    ),
    (
        "if a then 1 else not(b)",
        "OneOf([Equals(If(Name(\"a\"), Constant(1), Not(Name(\"b\"))))])",
        true,
    ),
    (
        "if a then 1 else abs(b)",
        "OneOf([Equals(If(Name(\"a\"), Constant(1), Call(Abs, Name(\"b\"))))])",
        false,
    ),
];

/// How the unary tests are shown.
fn shown_tests(alloc: Global, text: &str) -> Result<String, Fail> {
    let tests = read_tests(alloc, text)?;
    Ok(format!(in alloc; "{tests:?}")?)
}

#[test]
fn unary_tests_have_one_form(rt: HostRuntime) -> Result<(), Fail> {
    for (text, tree, keep_limits) in FORMS {
        let shown = shown_tests(rt.alloc(), text)?;
        let fields = format!(in rt.alloc(); "{tree}, keep_limits: {keep_limits:?}")?;
        is_shown(&rt, rt.alloc(), text, &shown, "Tests", &fields)?;
    }
    Ok(())
}

/// Texts of a megabyte: how often a text stands before another, and one behind it, what stands at the end, and why the whole
/// isn't read as an expression.
const MEGABYTES: &[(usize, &str, &str, &str, &str, Option<ReadFault>)] = &[
    (1 << 19, "[", "1", "]", "", Some(ReadFault::Syntax)),
    (1 << 20, "(", "", "", "", Some(ReadFault::Syntax)),
    (1 << 20, "-", "1", "", "", Some(ReadFault::Syntax)),
    (1 << 19, "", "1", "+1", "", Some(ReadFault::Syntax)),
    (1 << 19, "", "a", ".b", "", Some(ReadFault::Syntax)),
    (1 << 20, "9", "", "", "", Some(ReadFault::Syntax)),
    (1 << 20, "0", "1", "", "", None),
    (1 << 20, "a", "", "", "", Some(ReadFault::Syntax)),
    (1 << 19, " ", "1", " ", "", None),
    (1 << 19, "", "\"", "\\n", "", Some(ReadFault::Syntax)),
    (1 << 19, "", "[1", ",1", "", Some(ReadFault::Syntax)),
    (1 << 19, "", "[1", ",1", "]", None),
];

/// So many of a text before another, so many of a third behind it, and an end.
fn wrapped(
    alloc: Global,
    count: usize,
    open: &str,
    text: &str,
    close: &str,
    end: &str,
) -> Result<String, Fail> {
    let before = open.repeat(alloc, count)?;
    let behind = close.repeat(alloc, count)?;
    Ok(format!(in alloc; "{before}{text}{behind}{end}")?)
}

/// A text of a megabyte is read, or refused, as fast as it is scanned.
#[test]
fn a_megabyte_ends(rt: HostRuntime) -> Result<(), Fail> {
    for (count, open, text, close, end, want) in MEGABYTES {
        let whole = wrapped(rt.alloc(), *count, open, text, close, end)?;
        let fault = read_expr(rt.alloc(), &whole).err();
        assert_eq!(rt; fault, *want, "at {open}{text}{close}{end}");
    }
    Ok(())
}

#[test]
fn unary_tests_of_a_megabyte_end(rt: HostRuntime) -> Result<(), Fail> {
    let tests = wrapped(rt.alloc(), 1 << 19, "", "not(1", ",1", "")?;
    let fault = read_tests(rt.alloc(), &tests).err();
    assert_eq!(rt; fault, Some(ReadFault::Syntax));
    Ok(())
}
