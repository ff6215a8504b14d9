//! Which values a domain has: those that meet its unary tests.
ghost use Rattle.std.specs.Prelude.{◌≡◌, map, true};
ghost use Rattle.feel_text.specs.TestsView.{bound_view, test_view};
ghost use Rattle.feel_text.specs.View.{view};
ghost use Rattle.feel_value.specs.Datum.{Datum};
ghost use Rattle.feel_value.specs.Limits.{is_value};
ghost use Rattle.dmn_ranges.specs.Constraints.{standing as standing_of, standing_if as standing_if_of, between_ends as between_ends_of, shared as shared_of, numbers_and_texts as numbers_and_texts_of, compared_values as compared_values_of, between_values as between_values_of, equal_values as equal_values_of, alone as alone_of, test_values as test_values_of, with_test as with_test_of, any_values as any_values_of, is_of_null as is_of_null_of, or_null as or_null_of, has_null as has_null_of, anything_but as anything_but_of, domain_values};
ghost use Rattle.dmn_ranges.specs.Domains.{meets};
ghost use Rattle.dmn_ranges.specs.Ranges.{lies_in};

use crate::comparison::is_not_null;
use crate::expression::outcomes;
use crate::interval::{Interval, higher, lower};
use crate::names::Names;
use crate::range::{Range, both, either, every_number, joined};
use crate::size::Size;
use crate::texts::Texts;
use feel_text::{Bound, Test, Tests, TestsTree, Tree, high_end, low_end};
use std::alloc::Global;

/// The values of a domain that unary tests describe.
///
/// Each value that satisfies the tests lies in the range that is answered. A name in them stands for null.
#[tactic(auto, using(crate::proofs::SoundDomains::domain_sound))]
pub fn range_of_domain(alloc: Global, tests: &Tests) -> Range
    ensures { (d : Datum) → is_value d ≡ true → meets tests.now d ≡ true → lies_in result d ≡ true }
{
    values_of(alloc, tests)
}

// The numbers that stand so to some number of these.
fn standing(bound: Bound, numbers: Interval) -> Option<Interval>
    ensures { result ≡ standing_of (bound_view bound) numbers }
{
    let (least, most) = (-i64::MAX, i64::MAX);
    match bound {
        Bound::Below if least < numbers.high => Some(Interval {
            low: least,
            high: numbers.high - 1,
        }),
        Bound::AtMost => Some(Interval {
            low: least,
            high: numbers.high,
        }),
        Bound::Above if numbers.low < most => Some(Interval {
            low: numbers.low + 1,
            high: most,
        }),
        Bound::AtLeast => Some(Interval {
            low: numbers.low,
            high: most,
        }),
        Bound::Below | Bound::Above => None,
    }
}

fn standing_if(bound: Bound, numbers: Option<Interval>) -> Option<Interval>
    ensures { result ≡ standing_if_of (bound_view bound) numbers }
{
    match numbers {
        Some(numbers) => standing(bound, numbers),
        None => None,
    }
}

// The numbers between two, unless there are none.
fn between_ends(low: i64, high: i64) -> Option<Interval>
    ensures { result ≡ between_ends_of low high }
{
    if low <= high {
        Some(Interval { low, high })
    } else {
        None
    }
}

// The numbers that both have.
fn shared(x: Option<Interval>, y: Option<Interval>) -> Option<Interval>
    ensures { result ≡ shared_of x y }
{
    match (x, y) {
        (Some(x), Some(y)) => between_ends(higher(x.low, y.low), lower(x.high, y.high)),
        _ => None,
    }
}

// Numbers, and any text where this is said.
fn numbers_and_texts(numbers: Option<Interval>, texts: bool) -> Range
    ensures { result ≡ numbers_and_texts_of numbers texts }
{
    Range {
        nulls: false,
        trues: false,
        falses: false,
        numbers,
        texts: Texts::any_if(texts),
        lists: false,
        contexts: false,
        size: Size::none(),
    }
}

// The values that stand so to a value of the range.
fn compared_values(bound: Bound, range: Range) -> Range
    ensures { result ≡ compared_values_of (bound_view bound) range }
{
    numbers_and_texts(standing_if(bound, range.numbers), range.texts.is_some())
}

// The values that stand so to a value of either range.
fn between_values(above: Bound, low: Range, below: Bound, high: Range) -> Range
    ensures { result ≡ between_values_of (bound_view above) low (bound_view below) high }
{
    let numbers = shared(
        standing_if(above, low.numbers),
        standing_if(below, high.numbers),
    );
    numbers_and_texts(numbers, both(low.texts.is_some(), high.texts.is_some()))
}

// The values that are a value of the range, or a member of one.
fn equal_values(range: Range) -> Range
    ensures { result ≡ equal_values_of range }
{
    if either(range.lists, range.contexts) {
        Range::any()
    } else {
        range
    }
}

// What an expression can give in which each name stands for null.
fn alone(alloc: Global, expr: &Tree) -> Range
    ensures { result ≡ alone_of (view expr.now) }
{
    let names = Names::new(alloc);
    outcomes(expr, &names).range
}

// The values that satisfy a test.
fn test_values(alloc: Global, test: &Test) -> Range
    ensures { result ≡ test_values_of (test_view test.now) }
{
    match test {
        Test::Compares(bound, expr) => compared_values(*bound, alone(alloc, expr)),
        Test::Interval(closed_low, low, high, closed_high) => {
            let (above, below) = (low_end(*closed_low), high_end(*closed_high));
            between_values(above, alone(alloc, low), below, alone(alloc, high))
        }
        Test::Equals(expr) => equal_values(alone(alloc, expr)),
    }
}

// Those too that satisfy one test more.
fn with_test(alloc: Global, range: Range, test: &Test) -> Range
    ensures { result ≡ with_test_of range (test_view test.now) }
{
    joined(range, test_values(alloc, test))
}

// The values that satisfy one of the tests.
fn any_values(alloc: Global, tests: &[Test]) -> Range
    ensures { result ≡ any_values_of (map test_view tests.now) }
{
    let mut range = Range::nothing();
    for test in tests {
        range = with_test(alloc, range, test);
    }
    range
}

// Whether null is the only value that satisfies the test.
fn is_of_null(alloc: Global, test: &Test) -> bool
    ensures { result ≡ is_of_null_of (test_view test.now) }
{
    match test {
        Test::Equals(expr) => !is_not_null(alone(alloc, expr)),
        Test::Compares(_, _) | Test::Interval(_, _, _, _) => false,
    }
}

// Whether this is so, or null is the only value that satisfies one test more.
fn or_null(alloc: Global, null: bool, test: &Test) -> bool
    ensures { result ≡ or_null_of null (test_view test.now) }
{
    either(null, is_of_null(alloc, test))
}

// Whether null is the only value that satisfies some test.
fn has_null(alloc: Global, tests: &[Test]) -> bool
    ensures { result ≡ has_null_of (map test_view tests.now) }
{
    let mut null = false;
    for test in tests {
        null = or_null(alloc, null, test);
    }
    null
}

// Any value, but null where this is said.
fn anything_but(null: bool) -> Range
    ensures { result ≡ anything_but_of null }
{
    Range {
        nulls: !null,
        trues: true,
        falses: true,
        numbers: every_number(),
        texts: Texts::Any,
        lists: true,
        contexts: true,
        size: Size::any(),
    }
}

// The values that satisfy tests.
fn values_of(alloc: Global, tests: &Tests) -> Range
    ensures { result ≡ domain_values tests.now }
{
    match tests.tree() {
        TestsTree::Any => Range::any(),
        TestsTree::OneOf(tests) => any_values(alloc, tests),
        TestsTree::NoneOf(tests) => anything_but(has_null(alloc, tests)),
    }
}
