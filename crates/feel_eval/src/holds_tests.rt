//! Whether a value meets unary tests.
ghost use Rattle.std.specs.Prelude.{◌≡◌, IfOk, IfSome, IsTrue, Some, option_map};
ghost use Rattle.feel_value.specs.Logic.{and_of, or_of, decided as decided_of};
ghost use Rattle.feel_value.specs.View.{datum_of};
ghost use Rattle.feel_text.specs.Meaning.{den};
ghost use Rattle.feel_eval.specs.Operands.{answer_of};
ghost use Rattle.feel_text.specs.Satisfied.{satisfied, held_of, tested, tested_any, answer, Told, joined, stands_to, is_in, is_listed, opposite_answer};
ghost use Rattle.feel_text.specs.TestsView.{tests_view, test_view, test_views, bound_view};
ghost use Rattle.feel_text.specs.View.{view};

use crate::env::Env;
use crate::eval_expr::operand;
use crate::scalar::{Scalar, scalar_value};
use feel_text::{Bound, Held, Test, TestsTree, Tree, contains, high_end, low_end};
use feel_value::{Feel, Truth, Value, and3, decided, not3, or3};
use std::alloc::{AllocError, Global};

/// Whether the value meets the tests. All of them count, whatever the first ones answer. The only error is that memory was
/// refused.
#[inline(never)]
pub(crate) fn holds(
    alloc: Global,
    tests: &TestsTree,
    value: &Feel,
    env: &Env,
) -> Result<Held, AllocError>
    ensures { IfOk result (λ h. h ≡ held_of (satisfied (tests_view tests.now) value.now env.now)) }
{
    let answer = match tests {
        TestsTree::Any => Some(Truth::Yes),
        TestsTree::OneOf(tests) => any(alloc, tests, value, env)?,
        TestsTree::NoneOf(tests) => negated(any(alloc, tests, value, env)?),
    };
    Ok(match answer {
        Some(Truth::Yes) => Held::Yes,
        Some(_) => Held::No,
        None => Held::Limit,
    })
}

// The `or` of all tests; None where a limit is broken, here and below. All of them are evaluated, but one that is the same as the
// one before it: its answer is in the `or` already.
fn any(alloc: Global, tests: &[Test], value: &Feel, env: &Env) -> Result<Option<Truth>, AllocError>
    ensures { IfOk result (λ a. answer_of a ≡ tested_any (test_views tests.now) value.now env.now) }
{
    let mut answer = Some(Truth::No);
    let mut last = None;
    for test in tests {
        if is_again(last, test) {
            continue;
        }
        let next = one(alloc, test, value, env)?;
        answer = either(answer, next);
        last = Some(test);
    }
    Ok(answer)
}

// Whether a test is known to be the same as the last one. False says nothing.
fn is_again(last: Option<&Test>, test: &Test) -> bool
    ensures { IsTrue result → option_map (λ t. test_view t.now) last.entry ≡ Some (test_view test.now) }
{
    match (last, test) {
        (Some(Test::Equals(last)), Test::Equals(expr)) => is_same_name(last, expr),
        _ => false,
    }
}

// Whether two expressions are known to be the same: a name, in parentheses or not, or a path from one. False says nothing.
#[cycle(is_same_name)]
fn is_same_name(expr: &Tree, other: &Tree) -> bool
    ensures { IsTrue result → view expr.now ≡ view other.now }
{
    match (expr, other) {
        (Tree::Name(name), Tree::Name(other)) => name.name.is(&other.name),
        (Tree::Group(inner), Tree::Group(other)) => is_same_name(inner, other),
        (Tree::Path(inner, name), Tree::Path(other, other_name)) => {
            is_same_name(inner, other) && name.as_str() == other_name.as_str()
        }
        _ => false,
    }
}

fn either(first: Option<Truth>, second: Option<Truth>) -> Option<Truth>
    ensures { answer_of result ≡ joined or_of (answer_of first) (answer_of second) }
{
    match (first, second) {
        (Some(s), Some(t)) => Some(or3(s, t)),
        _ => None,
    }
}

fn both(first: Option<Truth>, second: Option<Truth>) -> Option<Truth>
    ensures { answer_of result ≡ joined and_of (answer_of first) (answer_of second) }
{
    match (first, second) {
        (Some(s), Some(t)) => Some(and3(s, t)),
        _ => None,
    }
}

fn negated(answer: Option<Truth>) -> Option<Truth>
    ensures { answer_of result ≡ opposite_answer (answer_of answer) }
{
    Some(not3(answer?))
}

// What one test answers.
fn one(alloc: Global, test: &Test, value: &Feel, env: &Env) -> Result<Option<Truth>, AllocError>
    ensures { IfOk result (λ a. answer_of a ≡ tested (test_view test.now) value.now env.now) }
{
    match test {
        Test::Compares(bound, expr) => compared(alloc, *bound, value, expr, env),
        Test::Interval(closed_low, low, high, closed_high) => {
            let low = compared(alloc, low_end(*closed_low), value, low, env)?;
            let high = compared(alloc, high_end(*closed_high), value, high, env)?;
            Ok(both(low, high))
        }
        Test::Equals(expr) => matched(alloc, value, expr, env),
    }
}

// Whether the input stands so to the value of an expression. A literal is compared as it lies there.
fn compared(
    alloc: Global,
    bound: Bound,
    input: &Feel,
    expr: &Tree,
    env: &Env,
) -> Result<Option<Truth>, AllocError>
    ensures { IfOk result (λ a. answer_of a ≡ answer (den (view expr.now) env.now) (λ d. stands_to (bound_view bound) input.now d)) }
{
    if let Tree::Constant(constant) = expr {
        return Ok(Some(stands(bound, input.value(), constant.value().value())));
    }
    match operand(alloc, expr, env)? {
        Some(operand) => Ok(Some(stands(bound, input.value(), operand.value()))),
        None => Ok(None),
    }
}

fn stands(bound: Bound, input: &Value, value: &Value) -> Truth
    ensures { result ≡ stands_to (bound_view bound) (datum_of input.now) (datum_of value.now) }
{
    match bound {
        Bound::Below => input.less(value),
        Bound::AtMost => not3(value.less(input)),
        Bound::Above => value.less(input),
        Bound::AtLeast => not3(input.less(value)),
    }
}

// Whether the input is the value of an expression, or a member of it.
fn matched(alloc: Global, input: &Feel, expr: &Tree, env: &Env) -> Result<Option<Truth>, AllocError>
    ensures { IfOk result (λ a. answer_of a ≡ answer (den (view expr.now) env.now) (λ d. decided_of (is_in input.now d))) }
{
    if let Tree::Constant(constant) = expr {
        return Ok(Some(decided(found(input.value(), constant.value().value()))));
    }
    if let Some(is_same) = same_number(input.value(), expr, env) {
        return Ok(Some(decided(is_same)));
    }
    match operand(alloc, expr, env)? {
        Some(operand) => Ok(Some(decided(found(input.value(), operand.value())))),
        None => Ok(None),
    }
}

// Whether the input is the value of an expression, where both are numbers, and nothing has to be formed for it. None says nothing.
fn same_number(input: &Value, expr: &Tree, env: &Env) -> Option<bool>
    ensures { IfSome result (λ b. answer (den (view expr.now) env.now) (λ d. decided_of (is_in (datum_of input.now) d)) ≡ Told (decided_of b)) }
{
    let Value::Number(input) = input else {
        return None;
    };
    match scalar_value(expr, env) {
        Scalar::Number(value) => Some(*input == value),
        _ => None,
    }
}

// Whether the input is the value, or a member of it.
fn found(input: &Value, value: &Value) -> bool
    ensures { result ≡ is_in (datum_of input.now) (datum_of value.now) }
{
    input.is_equal(value) || listed(input, value)
}

// Whether the value is a list with a member that the input is equal to.
fn listed(input: &Value, value: &Value) -> bool
    ensures { result ≡ is_listed (datum_of input.now) (datum_of value.now) }
{
    match value {
        Value::List(list) => contains(list.values(), input),
        _ => false,
    }
}
