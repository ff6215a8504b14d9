//! The functions of one argument.
ghost use Rattle.std.specs.Prelude.{◌≡◌, ◌+ℤ◌};
ghost use Rattle.feel_value.specs.Datum.{list};
ghost use Rattle.feel_value.specs.Outcome.{held};
ghost use Rattle.feel_value.specs.View.{datum_of, items_view};
ghost use Rattle.feel_eval.specs.Operands.{outcome_of};
ghost use Rattle.feel_text.specs.Meaning.{with_value, call_of, of_number, absolute, fold_of, least, greatest, count_of};

use crate::eval_outcome::{natural, null, number, whole};
use crate::operands::Operand;
use feel_text::Function;
use feel_value::{Outcome, Value};

// A function of its argument.
#[inline(never)]
pub(crate) fn call(function: Function, argument: Option<Operand<'_>>) -> Outcome
    ensures { result ≡ with_value (outcome_of argument.entry) (λ d. held (call_of function d)) }
{
    match argument {
        Some(argument) => called(function, argument.value()),
        None => Outcome::Limit,
    }
}

fn called(function: Function, argument: &Value) -> Outcome
    ensures { result ≡ held (call_of function (datum_of argument.now)) }
{
    match function {
        Function::Abs => absolute_value(argument),
        Function::Sum => sum(argument),
        Function::Min => minimum(argument),
        Function::Max => maximum(argument),
        Function::Count => count(argument),
    }
}

// How far a number is from 0; null for anything else.
fn absolute_value(value: &Value) -> Outcome
    ensures { result ≡ held (of_number absolute (datum_of value.now)) }
{
    match value {
        Value::Number(x) => number(i64::try_from(x.unsigned_abs()).ok()),
        _ => null(),
    }
}

// The length of a list; null for anything else.
fn count(value: &Value) -> Outcome
    ensures { result ≡ held (count_of (datum_of value.now)) }
{
    match value {
        Value::List(list) => length_of(list.values()),
        _ => null(),
    }
}

fn length_of(items: &[Value]) -> Outcome
    ensures { result ≡ held (count_of (list (items_view items.now))) }
{
    natural(items.len())
}

// The sum of a list of numbers; null where it is empty, where a member is no number, and for anything but a list.
fn sum(value: &Value) -> Outcome
    ensures { result ≡ held (fold_of (λ x y. x +ℤ y) (datum_of value.now)) }
{
    match value {
        Value::List(list) => sum_of(list.values()),
        _ => null(),
    }
}

fn sum_of(items: &[Value]) -> Outcome
    ensures { result ≡ held (fold_of (λ x y. x +ℤ y) (list (items_view items.now))) }
{
    let Some((Value::Number(first), rest)) = items.split_first() else {
        return null();
    };
    let mut total = i128::from(*first);
    for item in rest {
        let Value::Number(x) = item else {
            return null();
        };
        total += i128::from(*x);
    }
    whole(total)
}

// The least of a list of numbers, where the sum has a number too.
fn minimum(value: &Value) -> Outcome
    ensures { result ≡ held (fold_of least (datum_of value.now)) }
{
    match value {
        Value::List(list) => least_of(list.values()),
        _ => null(),
    }
}

fn least_of(items: &[Value]) -> Outcome
    ensures { result ≡ held (fold_of least (list (items_view items.now))) }
{
    let Some((Value::Number(first), rest)) = items.split_first() else {
        return null();
    };
    let mut best = *first;
    for item in rest {
        let Value::Number(x) = item else {
            return null();
        };
        if *x < best {
            best = *x;
        }
    }
    number(Some(best))
}

// The greatest of a list of numbers, where the sum has a number too.
fn maximum(value: &Value) -> Outcome
    ensures { result ≡ held (fold_of greatest (datum_of value.now)) }
{
    match value {
        Value::List(list) => greatest_of(list.values()),
        _ => null(),
    }
}

fn greatest_of(items: &[Value]) -> Outcome
    ensures { result ≡ held (fold_of greatest (list (items_view items.now))) }
{
    let Some((Value::Number(first), rest)) = items.split_first() else {
        return null();
    };
    let mut best = *first;
    for item in rest {
        let Value::Number(x) = item else {
            return null();
        };
        if best < *x {
            best = *x;
        }
    }
    number(Some(best))
}
