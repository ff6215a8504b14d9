//! What unary tests answer of all values of a class, whatever the names stand for.
ghost use Rattle.std.specs.Prelude.{◌≡◌, true, IfSome};
ghost use Rattle.feel_value.specs.Datum.{Datum};
ghost use Rattle.feel_value.specs.Logic.{decided};
ghost use Rattle.feel_value.specs.View.{datum_of};
ghost use Rattle.feel_text.specs.Meaning.{Bindings, den};
ghost use Rattle.feel_text.specs.Satisfied.{Told, answer, is_in, satisfied, stands_to, tested, tested_any};
ghost use Rattle.feel_text.specs.TestsView.{bound_view, test_view, test_views, tests_view};
ghost use Rattle.feel_text.specs.View.{view};
ghost use Rattle.dmn_analysis.specs.Classes.{is_list as is_list_of, is_of};

use crate::class::Class;
use crate::folded::{bare, literal, number_of};
use crate::members::is_listed;
use feel_text::{Bound, Test, Tests, TestsTree, Tree, high_end, low_end};
use feel_value::{Truth, Value, and3, decided as truth_of, not3, or3};

// How each value of the class stands to this one.
fn stands(class: &Class, bound: Bound, value: &Value) -> Option<Truth>
    ensures { IfSome result (λ t. (v : Datum) → is_of class.now v ≡ true → stands_to (bound_view bound) v (datum_of value.now) ≡ t) }
{
    match bound {
        Bound::Below => {
            let below = class.below(value)?;
            Some(below)
        }
        Bound::AtMost => {
            let above = class.above(value)?;
            Some(not3(above))
        }
        Bound::Above => {
            let above = class.above(value)?;
            Some(above)
        }
        Bound::AtLeast => {
            let below = class.below(value)?;
            Some(not3(below))
        }
    }
}

// How each value of the class stands to what an expression is.
fn compared(class: &Class, bound: Bound, expr: &Tree) -> Option<Truth>
    ensures { IfSome result (λ t. (v : Datum) (m : Bindings) → is_of class.now v ≡ true → answer (den (view expr.now) m) (stands_to (bound_view bound) v) ≡ Told t) }
{
    if let Some(n) = number_of(expr) {
        let truth = stands(class, bound, &Value::Number(n))?;
        return Some(truth);
    }
    let value = literal(expr)?;
    let truth = stands(class, bound, value)?;
    Some(truth)
}

fn is_list(value: &Value) -> bool
    ensures { result ≡ is_list_of (datum_of value.now) }
{
    match value {
        Value::List(_) => true,
        Value::Null | Value::Bool(_) | Value::Number(_) | Value::Text(_) | Value::Context(_) =>
            false,
    }
}

// Whether each value of the class is this one, which is no list.
fn is_value(class: &Class, value: &Value) -> Option<bool>
    ensures { IfSome result (λ b. (v : Datum) → is_of class.now v ≡ true → is_in v (datum_of value.now) ≡ b) }
{
    if is_list(value) {
        return None;
    }
    let same = class.equals(value)?;
    Some(same)
}

// Whether each value of the class is in the list that an expression is; None where it is another expression, or that isn't known.
fn listed(class: &Class, expr: &Tree) -> Option<bool>
    ensures { IfSome result (λ b. (v : Datum) (m : Bindings) → is_of class.now v ≡ true → answer (den (view expr.now) m) (λ d. decided (is_in v d)) ≡ Told (decided b)) }
{
    let Tree::List(members) = bare(expr) else {
        return None;
    };
    let found = is_listed(class, members)?;
    Some(found)
}

// Whether each value of the class is what an expression is, or in the list that it is.
fn matched(class: &Class, expr: &Tree) -> Option<Truth>
    ensures { IfSome result (λ t. (v : Datum) (m : Bindings) → is_of class.now v ≡ true → answer (den (view expr.now) m) (λ d. decided (is_in v d)) ≡ Told t) }
{
    if let Some(n) = number_of(expr) {
        let same = is_value(class, &Value::Number(n))?;
        return Some(truth_of(same));
    }
    if let Some(found) = listed(class, expr) {
        return Some(truth_of(found));
    }
    let value = literal(expr)?;
    let same = is_value(class, value)?;
    Some(truth_of(same))
}

// What a test answers of each value of the class.
fn one(class: &Class, test: &Test) -> Option<Truth>
    ensures { IfSome result (λ t. (v : Datum) (m : Bindings) → is_of class.now v ≡ true → tested (test_view test.now) v m ≡ Told t) }
{
    match test {
        Test::Compares(bound, expr) => {
            let truth = compared(class, *bound, expr)?;
            Some(truth)
        }
        Test::Interval(closed_low, low, high, closed_high) => {
            let above = compared(class, low_end(*closed_low), low)?;
            let below = compared(class, high_end(*closed_high), high)?;
            Some(and3(above, below))
        }
        Test::Equals(expr) => {
            let truth = matched(class, expr)?;
            Some(truth)
        }
    }
}

// What the `or` of these tests answers of each value of the class.
fn any(class: &Class, tests: &[Test]) -> Option<Truth>
    ensures { IfSome result (λ t. (v : Datum) (m : Bindings) → is_of class.now v ≡ true → tested_any (test_views tests.now) v m ≡ Told t) }
{
    let mut answer = Truth::No;
    for test in tests {
        let next = one(class, test)?;
        answer = or3(answer, next);
    }
    Some(answer)
}

// What unary tests answer of each value of the class.
fn all_tests(class: &Class, tests: &TestsTree) -> Option<Truth>
    ensures { IfSome result (λ t. (v : Datum) (m : Bindings) → is_of class.now v ≡ true → satisfied (tests_view tests.now) v m ≡ Told t) }
{
    match tests {
        TestsTree::Any => Some(Truth::Yes),
        TestsTree::OneOf(tests) => {
            let truth = any(class, tests)?;
            Some(truth)
        }
        TestsTree::NoneOf(tests) => {
            let truth = any(class, tests)?;
            Some(not3(truth))
        }
    }
}

/// What unary tests answer of each value of the class, whatever the names stand for; None where that isn't known, or they don't
/// all get one answer.
pub(crate) fn answer_on(class: &Class, tests: &Tests) -> Option<Truth>
    ensures { IfSome result (λ t. (v : Datum) (m : Bindings) → is_of class.now v ≡ true → satisfied tests.now v m ≡ Told t) }
{
    let truth = all_tests(class, tests.tree())?;
    Some(truth)
}
