//! Tests of constants alone: of one value it is known whether it meets them.
ghost use Rattle.std.specs.Prelude.{◌≡◌, true, IsTrue};
ghost use Rattle.feel_text.specs.TestsView.{test_view, tests_view};
ghost use Rattle.feel_text.specs.View.{view};
ghost use Rattle.std.specs.List.{list_all};
ghost use Rattle.dmn_analysis.specs.Constant.{bare, is_constant, is_constant_test, is_literal as is_literal_expr, is_scalar as is_scalar_expr};

use crate::folded::{literal, number_of};
use feel_text::{Test, Tests, TestsTree, Tree};

// Null, a truth value or a text, which may be in parentheses.
fn is_scalar(expr: &Tree) -> bool
    ensures { is_scalar_expr (bare (view expr.now)) ≡ true → IsTrue result }
{
    match literal(expr) {
        Some(_) => true,
        None => false,
    }
}

// One of these, or a number.
fn is_literal(expr: &Tree) -> bool
    ensures { is_literal_expr (view expr.now) ≡ true → IsTrue result }
{
    match number_of(expr) {
        Some(_) => true,
        None => is_scalar(expr),
    }
}

fn is_constant_one(test: &Test) -> bool
    ensures { is_constant_test (test_view test.now) ≡ true → IsTrue result }
{
    match test {
        Test::Compares(_, expr) => is_literal(expr),
        Test::Interval(_, low, high, _) => {
            if !is_literal(low) {
                return false;
            }
            is_literal(high)
        }
        Test::Equals(expr) => is_literal(expr),
    }
}

fn are_all_constant(tests: &[Test]) -> bool
    ensures { list_all (λ t. is_constant_test (test_view t)) tests.now ≡ true → IsTrue result }
{
    for test in tests {
        if !is_constant_one(test) {
            return false;
        }
    }
    true
}

fn is_constant_tree(tests: &TestsTree) -> bool
    ensures { is_constant (tests_view tests.now) ≡ true → IsTrue result }
{
    match tests {
        TestsTree::Any => true,
        TestsTree::OneOf(tests) => are_all_constant(tests),
        TestsTree::NoneOf(tests) => are_all_constant(tests),
    }
}

/// Whether the tests are of constants alone.
pub(crate) fn are_constant(tests: &Tests) -> bool
    ensures { is_constant tests.now ≡ true → IsTrue result }
{
    is_constant_tree(tests.tree())
}
