//! Unary tests in which no name stands.
ghost use Rattle.std.specs.Prelude.{◌≡◌};
ghost use Rattle.std.specs.List.{list_all};
ghost use Rattle.feel_text.specs.Constants.{expr_of_constant};
ghost use Rattle.feel_text.specs.TestsView.{test_view};
ghost use Rattle.feel_text.specs.View.{view, views};
ghost use Rattle.desk_checking.specs.Domains.{are_constant as are_constant_of, has_constants as has_constants_of, have_constants as have_constants_of, is_constant as is_constant_of};

use feel_text::{Constant, Test, Tests, TestsTree, Tree};

/// A literal has no name.
#[tactic(auto, using(crate::proofs::Constants::literal_is))]
fn literal_is_constant(literal: &Constant) -> bool
    ensures { result ≡ is_constant_of (expr_of_constant literal.now) }
{
    let _value = literal.value();
    true
}

/// Whether no name stands in an expression. It goes as deep as that is.
#[cycle(constant)]
fn is_constant(expr: &Tree) -> bool
    ensures { result ≡ is_constant_of (view expr.now) }
{
    match expr {
        Tree::Constant(literal) => literal_is_constant(literal),
        Tree::Number(_) => true,
        Tree::Name(_) => false,
        Tree::Group(inner) => is_constant(inner),
        Tree::List(members) => are_constant(members),
        Tree::Call(_, inner) => is_constant(inner),
        Tree::Modulo(one, by) => is_constant(one) && is_constant(by),
        Tree::Not(inner) => is_constant(inner),
        Tree::Negate(inner) => is_constant(inner),
        Tree::Path(inner, _) => is_constant(inner),
        Tree::Binary(_, one, by) => is_constant(one) && is_constant(by),
        Tree::Between(one, low, high) => is_constant(one) && is_constant(low) && is_constant(high),
        Tree::If(test, one, other) => is_constant(test) && is_constant(one) && is_constant(other),
    }
}

/// Whether no name stands in these.
#[cycle(constant)]
fn are_constant(exprs: &[Tree]) -> bool
    ensures { result ≡ are_constant_of (views exprs.now) }
{
    for expr in exprs {
        if !is_constant(expr) {
            return false;
        }
    }
    true
}

fn has_constants(test: &Test) -> bool
    ensures { result ≡ has_constants_of (test_view test.now) }
{
    match test {
        Test::Compares(_, expr) => is_constant(expr),
        Test::Interval(_, low, high, _) => is_constant(low) && is_constant(high),
        Test::Equals(expr) => is_constant(expr),
    }
}

fn all_have_constants(tests: &[Test]) -> bool
    ensures { result ≡ list_all (λ t. has_constants_of (test_view t)) tests.now }
{
    tests.iter().all(|test| has_constants(test))
}

/// Whether no name stands in the tests.
#[tactic(auto, using(crate::proofs::Constants::all_seen))]
pub(crate) fn have_constants(tests: &Tests) -> bool
    ensures { result ≡ have_constants_of tests.now }
{
    match tests.tree() {
        TestsTree::Any => true,
        TestsTree::OneOf(tests) => all_have_constants(tests),
        TestsTree::NoneOf(tests) => all_have_constants(tests),
    }
}
