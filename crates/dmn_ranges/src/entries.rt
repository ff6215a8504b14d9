//! What unary tests can answer of a value.
ghost use Rattle.std.specs.Prelude.{◌≡◌, map};
ghost use Rattle.feel_text.specs.TestsView.{bound_view, test_view};
ghost use Rattle.feel_text.specs.View.{view};
ghost use Rattle.dmn_ranges.specs.Entries.{stands as stands_of, among as among_of, compared as compared_of, test_answers as test_answers_of, always as always_answers, never as never_answers, both_answers, or_test as or_test_of, any_answers as any_answers_of, opposite_answers as opposite_of_answers, entry_answers as entry_answers_of};
ghost use Rattle.dmn_ranges.specs.Steps.{outcomes as outcomes_of, and_truths as and_of_truths, or_truths as or_of_truths};

use crate::comparison::{equal_truths, less_truths};
use crate::expression::outcomes;
use crate::names::Names;
use crate::range::{Range, either};
use crate::truths::{Truths, and_truths, opposite, or_truths};
use feel_text::{Bound, Test, Tests, TestsTree, Tree, high_end, low_end};

/// What tests can answer: truth values, or, where this is said, that a limit is broken.
#[derive(Clone, Copy)]
pub(crate) struct Answers {
    pub(crate) truth: Truths,
    pub(crate) limit: bool,
}

impl Answers {
    // Yes.
    fn always() -> Answers
        ensures { result ≡ always_answers }
    {
        Answers {
            truth: Truths {
                yes: true,
                no: false,
                unknown: false,
            },
            limit: false,
        }
    }

    // No.
    fn never() -> Answers
        ensures { result ≡ never_answers }
    {
        Answers {
            truth: Truths {
                yes: false,
                no: true,
                unknown: false,
            },
            limit: false,
        }
    }

    // Whether both hold.
    fn and(self, other: Answers) -> Answers
        ensures { result ≡ both_answers and_of_truths self other }
    {
        Answers {
            truth: and_truths(self.truth, other.truth),
            limit: either(self.limit, other.limit),
        }
    }

    // Whether one of them holds.
    fn or(self, other: Answers) -> Answers
        ensures { result ≡ both_answers or_of_truths self other }
    {
        Answers {
            truth: or_truths(self.truth, other.truth),
            limit: either(self.limit, other.limit),
        }
    }

    // Whether it doesn't hold.
    fn opposite(self) -> Answers
        ensures { result ≡ opposite_of_answers self }
    {
        Answers {
            truth: opposite(self.truth),
            limit: self.limit,
        }
    }
}

// Whether a value stands so to another.
fn stands(bound: Bound, value: Range, other: Range) -> Truths
    ensures { result ≡ stands_of (bound_view bound) value other }
{
    match bound {
        Bound::Below => less_truths(value, other),
        Bound::AtMost => opposite(less_truths(other, value)),
        Bound::Above => less_truths(other, value),
        Bound::AtLeast => opposite(less_truths(value, other)),
    }
}

// Whether a value is another, or a member of the list that the other one is.
fn among(value: Range, other: Range) -> Truths
    ensures { result ≡ among_of value other }
{
    let equal = equal_truths(value, other);
    Truths {
        yes: either(equal.yes, other.lists),
        no: either(equal.no, equal.unknown),
        unknown: false,
    }
}

// Whether a value stands so to that of an expression.
fn compared(bound: Bound, value: Range, expr: &Tree, names: &Names) -> Answers
    ensures { result ≡ compared_of (bound_view bound) value (outcomes_of (view expr.now) names.now) }
{
    let other = outcomes(expr, names);
    Answers {
        truth: stands(bound, value, other.range),
        limit: other.limit,
    }
}

// What one test answers.
fn test_answers(test: &Test, value: Range, names: &Names) -> Answers
    ensures { result ≡ test_answers_of value names.now (test_view test.now) }
{
    match test {
        Test::Compares(bound, expr) => compared(*bound, value, expr, names),
        Test::Interval(closed_low, low, high, closed_high) => {
            let above = compared(low_end(*closed_low), value, low, names);
            let below = compared(high_end(*closed_high), value, high, names);
            above.and(below)
        }
        Test::Equals(expr) => {
            let other = outcomes(expr, names);
            Answers {
                truth: among(value, other.range),
                limit: other.limit,
            }
        }
    }
}

// Whether this is so, or one test more is met.
fn or_test(answers: Answers, test: &Test, value: Range, names: &Names) -> Answers
    ensures { result ≡ or_test_of value names.now answers (test_view test.now) }
{
    answers.or(test_answers(test, value, names))
}

// Whether one of the tests is met.
fn any_answers(tests: &[Test], value: Range, names: &Names) -> Answers
    ensures { result ≡ any_answers_of value names.now (map test_view tests.now) }
{
    let mut answers = Answers::never();
    for test in tests {
        answers = or_test(answers, test, value, names);
    }
    answers
}

/// What an input entry answers of a value.
pub(crate) fn entry_answers(entry: &Tests, value: Range, names: &Names) -> Answers
    ensures { result ≡ entry_answers_of value names.now entry.now }
{
    match entry.tree() {
        TestsTree::Any => Answers::always(),
        TestsTree::OneOf(tests) => any_answers(tests, value, names),
        TestsTree::NoneOf(tests) => any_answers(tests, value, names).opposite(),
    }
}
