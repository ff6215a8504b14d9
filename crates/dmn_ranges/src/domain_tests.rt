//! Which values domains have, worked out by hand.
use crate::tests::words;
use crate::{Outcomes, range_of_domain};
use feel_text::read_tests;
use std::process::Abort;
use std::test::Fail;

const ANY: &str = "null true false -9223372036854775807..9223372036854775807 text list context ";

const ANY_BUT_NULL: &str =
    "true false -9223372036854775807..9223372036854775807 text list context ";

/// A domain, and its values.
const DOMAINS: &[(&str, &str)] = &[
    ("-", ANY),
    ("[0..120]", "0..120 "),
    ("(0..120)", "1..119 "),
    ("]0..120[", "1..119 "),
    ("(0..1)", ""),
    ("[5..1]", ""),
    ("[-3..-3]", "-3..-3 "),
    ("< 5", "-9223372036854775807..4 "),
    ("<= 5", "-9223372036854775807..5 "),
    ("> 5", "6..9223372036854775807 "),
    (">= 5", "5..9223372036854775807 "),
    ("< 60 * 24", "-9223372036854775807..1439 "),
    ("< -9223372036854775807", ""),
    ("> 9223372036854775807", ""),
    (
        "<= -9223372036854775807",
        "-9223372036854775807..-9223372036854775807 ",
    ),
    ("1, 3", "1..3 "),
    ("3, 1, null", "null 1..3 "),
    ("[0..9], > 90", "0..9223372036854775807 "),
    ("\"ja\", \"nein\"", "\"ja\" \"nein\" "),
    ("\"ja\", 7", "7..7 \"ja\" "),
    ("\"ja\", < \"b\"", "text "),
    ("< \"b\"", "text "),
    ("[\"a\"..\"c\"]", "text "),
    ("[1..\"c\"]", ""),
    ("null", "null "),
    ("missing", "null "),
    ("< null", ""),
    ("< true", ""),
    ("true", "true "),
    ("true, false", "true false "),
    ("[1, 5]", ANY),
    ("not(null)", ANY_BUT_NULL),
    ("not(1, null)", ANY_BUT_NULL),
    ("not(missing)", ANY_BUT_NULL),
    ("not(1)", ANY),
    ("not(\"a\", \"b\")", ANY),
    ("not(< 5)", ANY),
];

#[test]
fn domains_have_their_values(rt: HostRuntime) -> Result<(), Fail> {
    let alloc = rt.alloc();
    for (text, want) in DOMAINS {
        let tests = read_tests(alloc, text)?;
        let got = words(alloc, Outcomes::given(range_of_domain(alloc, &tests)))?;
        assert_eq!(&rt; (*text, got.as_str()), (*text, *want));
    }
    Ok(())
}
