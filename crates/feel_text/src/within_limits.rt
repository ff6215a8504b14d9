//! Expressions and unary tests whose evaluation breaks no limit, whatever the names stand for.

ghost use Rattle.std.specs.Prelude.{◌≡◌};
ghost use Rattle.std.specs.List.{list_all};
ghost use Rattle.feel_text.specs.TestsView.{test_view, tests_view};
ghost use Rattle.feel_text.specs.View.{view};
ghost use Rattle.feel_text.specs.WithinLimits.{forms_truth as forms_truth_of, is_literal as is_literal_of, stays_within as stays_within_of, test_stays as test_stays_of, tests_stay as tests_stay_of};

use crate::expr::{Operator, Tree};
use crate::unary::{Test, TestsTree};

// Whether an operator forms truth values.
fn forms_truth(operator: Operator) -> bool
    ensures { result ≡ forms_truth_of operator }
{
    !matches!(
        operator,
        Operator::Add | Operator::Subtract | Operator::Multiply
    )
}

// Whether the expression is a literal whose number, if it is one, is in range.
fn is_literal(expr: &Tree) -> bool
    ensures { result ≡ is_literal_of (view expr.now) }
{
    match expr {
        Tree::Constant(constant) => {
            let _value = constant.value();
            true
        }
        Tree::Number(n) => i64::try_from(*n).is_ok(),
        _ => false,
    }
}

// Whether the expression is known to break no limit.
#[cycle(stays_within)]
fn stays_within(expr: &Tree) -> bool
    ensures { result ≡ stays_within_of (view expr.now) }
{
    match expr {
        Tree::Constant(_) | Tree::Number(_) => is_literal(expr),
        Tree::Name(_) => true,
        Tree::Group(inner) | Tree::Not(inner) => stays_within(inner),
        Tree::Negate(inner) => is_literal(inner),
        Tree::Binary(operator, left, right) => {
            forms_truth(*operator) && stays_within(left) && stays_within(right)
        }
        Tree::Between(first, second, third) | Tree::If(first, second, third) => {
            stays_within(first) && stays_within(second) && stays_within(third)
        }
        Tree::List(_) | Tree::Call(..) | Tree::Modulo(..) | Tree::Path(..) => false,
    }
}

fn test_stays(test: &Test) -> bool
    ensures { result ≡ test_stays_of (test_view test.now) }
{
    match test {
        Test::Compares(_, expr) | Test::Equals(expr) => stays_within(expr),
        Test::Interval(_, low, high, _) => stays_within(low) && stays_within(high),
    }
}

fn all_stay(tests: &[Test]) -> bool
    ensures { result ≡ list_all (λ t. test_stays_of (test_view t)) tests.now }
{
    tests.iter().all(|test| test_stays(test))
}

/// Whether each expression of the tests is known to break no limit.
#[tactic(auto, using(crate::proofs::WithinLimits::all_seen))]
pub(crate) fn tests_stay(tests: &TestsTree) -> bool
    ensures { result ≡ tests_stay_of (tests_view tests.now) }
{
    match tests {
        TestsTree::Any => true,
        TestsTree::OneOf(tests) | TestsTree::NoneOf(tests) => all_stay(tests),
    }
}
