//! Operators on values.
ghost use Rattle.std.specs.Prelude.{◌≡◌, pos, ◌+ℤ◌, ◌-ℤ◌};
ghost use Rattle.feel_value.specs.Datum.{number as number_of};
ghost use Rattle.feel_value.specs.Logic.{truth_datum, not_of, truth_of};
ghost use Rattle.feel_value.specs.Outcome.{held};
ghost use Rattle.feel_value.specs.View.{datum_of};
ghost use Rattle.feel_value.specs.declared.feel.Outcome.TheVariants.{Is};
ghost use Rattle.feel_text.specs.Meaning.{with_value, with_values, operation as operation_of, of_number, modulo as modulo_is, modulo_of, between_of};
ghost use Rattle.feel_eval.specs.Operands.{outcome_of};
ghost use Rattle.feel_text.specs.declared.expr.Operator.TheVariants.{Add, Subtract, Multiply};

use crate::eval_outcome::{null, number, told, whole};
use crate::operands::{Operand, Operands};
use feel_text::Operator;
use feel_value::{Outcome, Value, and3, not3, or3};

// An operator between two operands. None stands for an operand that breaks a limit, here and below.
#[inline(never)]
pub(crate) fn operation(operator: Operator, operands: Operands<'_>) -> Outcome
    ensures { result ≡ with_values (outcome_of operands.entry.0) (outcome_of operands.entry.1) (λ d e. held (operation_of operator d e)) }
{
    let outcome = match &operands {
        (Some(left), Some(right)) => applied(operator, left.value(), right.value()),
        _ => Outcome::Limit,
    };
    drop(operands);
    outcome
}

fn applied(operator: Operator, left: &Value, right: &Value) -> Outcome
    ensures { result ≡ held (operation_of operator (datum_of left.now) (datum_of right.now)) }
{
    match operator {
        Operator::Or => told(or3(left.truth(), right.truth())),
        Operator::And => told(and3(left.truth(), right.truth())),
        Operator::Equal => told(left.equal(right)),
        Operator::NotEqual => told(not3(left.equal(right))),
        Operator::Less => told(left.less(right)),
        Operator::LessEqual => told(not3(right.less(left))),
        Operator::Greater => told(right.less(left)),
        Operator::GreaterEqual => told(not3(left.less(right))),
        Operator::Add => sum(left, right),
        Operator::Subtract => difference(left, right),
        Operator::Multiply => product(left, right),
    }
}

// The sum of two numbers; null where an operand is none.
fn sum(left: &Value, right: &Value) -> Outcome
    ensures { result ≡ held (operation_of Add (datum_of left.now) (datum_of right.now)) }
{
    match (left, right) {
        (Value::Number(x), Value::Number(y)) => added(*x, *y),
        _ => null(),
    }
}

fn added(x: i64, y: i64) -> Outcome
    ensures { result ≡ held (number_of (x +ℤ y)) }
{
    number(x.checked_add(y))
}

// The difference of two numbers; null where an operand is none.
fn difference(left: &Value, right: &Value) -> Outcome
    ensures { result ≡ held (operation_of Subtract (datum_of left.now) (datum_of right.now)) }
{
    match (left, right) {
        (Value::Number(x), Value::Number(y)) => number(x.checked_sub(*y)),
        _ => null(),
    }
}

// The product of two numbers; null where an operand is none.
fn product(left: &Value, right: &Value) -> Outcome
    ensures { result ≡ held (operation_of Multiply (datum_of left.now) (datum_of right.now)) }
{
    match (left, right) {
        (Value::Number(x), Value::Number(y)) => number(x.checked_mul(*y)),
        _ => null(),
    }
}

// The number with its sign turned; null for anything else.
#[inline(never)]
pub(crate) fn negated(operand: Option<Operand<'_>>) -> Outcome
    ensures { result ≡ with_value (outcome_of operand.entry) (λ d. held (of_number (λ x. number_of (pos 0 -ℤ x)) d)) }
{
    match operand {
        Some(operand) => opposite_number(operand.value()),
        None => Outcome::Limit,
    }
}

fn opposite_number(value: &Value) -> Outcome
    ensures { result ≡ held (of_number (λ x. number_of (pos 0 -ℤ x)) (datum_of value.now)) }
{
    match value {
        Value::Number(x) => number(x.checked_neg()),
        _ => null(),
    }
}

// What is left of one number by another, with the sign of the divisor; null where the divisor is 0 or an operand is no number.
#[inline(never)]
pub(crate) fn modulo(operands: Operands<'_>) -> Outcome
    ensures { result ≡ with_values (outcome_of operands.entry.0) (outcome_of operands.entry.1) (λ d e. held (modulo_of d e)) }
{
    let outcome = match &operands {
        (Some(left), Some(right)) => modulo_of_values(left.value(), right.value()),
        _ => Outcome::Limit,
    };
    drop(operands);
    outcome
}

fn modulo_of_values(left: &Value, right: &Value) -> Outcome
    ensures { result ≡ held (modulo_of (datum_of left.now) (datum_of right.now)) }
{
    match (left, right) {
        (Value::Number(x), Value::Number(y)) => remainder(*x, *y),
        _ => null(),
    }
}

fn remainder(x: i64, y: i64) -> Outcome
    ensures { result ≡ held (modulo_is x y) }
{
    if y == 0 {
        return null();
    }
    let (x, y) = (i128::from(x), i128::from(y));
    if y < 0 {
        whole(-(-x).rem_euclid(-y))
    } else {
        whole(x.rem_euclid(y))
    }
}

// Whether a value lies between two others.
#[inline(never)]
pub(crate) fn between(value: Option<Operand<'_>>, bounds: Operands<'_>) -> Outcome
    ensures { result ≡ with_value (outcome_of value.entry) (λ d. with_values (outcome_of bounds.entry.0) (outcome_of bounds.entry.1) (λ l h. Is (between_of d l h))) }
{
    let outcome = lies_between(&value, &bounds);
    drop((value, bounds));
    outcome
}

fn lies_between(value: &Option<Operand<'_>>, bounds: &Operands<'_>) -> Outcome
    ensures { result ≡ with_value (outcome_of value.now) (λ d. with_values (outcome_of bounds.now.0) (outcome_of bounds.now.1) (λ l h. Is (between_of d l h))) }
{
    match (value, bounds) {
        (Some(value), (Some(low), Some(high))) => {
            within(value.value(), low.value(), high.value())
        }
        _ => Outcome::Limit,
    }
}

fn within(value: &Value, low: &Value, high: &Value) -> Outcome
    ensures { result ≡ Is (between_of (datum_of value.now) (datum_of low.now) (datum_of high.now)) }
{
    let reaches_low = not3(value.less(low));
    let reaches_high = not3(high.less(value));
    told(and3(reaches_low, reaches_high))
}

// Whether the operand isn't true.
#[inline(never)]
pub(crate) fn inverted(operand: Option<Operand<'_>>) -> Outcome
    ensures { result ≡ with_value (outcome_of operand.entry) (λ d. Is (truth_datum (not_of (truth_of d)))) }
{
    match operand {
        Some(operand) => told(not3(operand.value().truth())),
        None => Outcome::Limit,
    }
}
