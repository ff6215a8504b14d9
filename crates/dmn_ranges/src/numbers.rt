//! Arithmetic on sets of values.
ghost use Rattle.std.specs.Prelude.{◌≡◌, pos};
ghost use Rattle.dmn_ranges.specs.Ranges.{within};
ghost use Rattle.dmn_ranges.specs.Steps.{worked_out as worked_out_of, paired as paired_of, arithmetic as arithmetic_of, negated as negated_of, absolutes as absolutes_of, left_by as left_by_of, divided as divided_of, remainders as remainders_of};

use crate::bounded::{Bounded, absolute, difference, has_divisor, product, remainder, sum};
use crate::interval::Interval;
use crate::outcomes::{Outcomes, numbers_given};
use crate::range::{Range, either};
use feel_text::Operator;

// What an operator makes of two numbers. It is asked of operators that work numbers out.
fn worked_out(operator: Operator, x: Interval, y: Interval) -> Bounded
    ensures { result ≡ worked_out_of operator x y }
{
    match operator {
        Operator::Add => sum(x, y),
        Operator::Subtract => difference(x, y),
        _ => product(x, y),
    }
}

fn paired(operator: Operator, x: Option<Interval>, y: Option<Interval>) -> Option<Bounded>
    ensures { result ≡ paired_of operator x y }
{
    match (x, y) {
        (Some(x), Some(y)) => Some(worked_out(operator, x, y)),
        _ => None,
    }
}

/// What an operator that works numbers out makes of two values.
pub(crate) fn arithmetic(operator: Operator, a: Range, b: Range) -> Outcomes
    ensures { result ≡ arithmetic_of operator a b }
{
    let nulls = either(a.is_other(), b.is_other());
    numbers_given(nulls, paired(operator, a.numbers, b.numbers))
}

/// The opposite of a number.
pub(crate) fn negated(a: Range) -> Outcomes
    ensures { result ≡ negated_of a }
{
    let zero = Interval { low: 0, high: 0 };
    numbers_given(
        a.is_other(),
        paired(Operator::Subtract, Some(zero), a.numbers),
    )
}

/// How far a number is from 0.
pub(crate) fn absolutes(a: Range) -> Outcomes
    ensures { result ≡ absolutes_of a }
{
    match a.numbers {
        Some(numbers) => numbers_given(a.is_other(), Some(absolute(numbers))),
        None => numbers_given(a.is_other(), None),
    }
}

fn has_zero(numbers: Option<Interval>) -> bool
    ensures { result ≡ within numbers (pos 0) }
{
    match numbers {
        Some(numbers) => numbers.low <= 0 && 0 <= numbers.high,
        None => false,
    }
}

// What is left by the numbers that are not 0.
fn left_by(y: Interval) -> Option<Bounded>
    ensures { result ≡ left_by_of y }
{
    if has_divisor(y) {
        Some(remainder(y))
    } else {
        None
    }
}

fn divided(x: Option<Interval>, y: Option<Interval>) -> Option<Bounded>
    ensures { result ≡ divided_of x y }
{
    match (x, y) {
        (Some(_), Some(y)) => left_by(y),
        _ => None,
    }
}

/// What is left of a number by another.
pub(crate) fn remainders(a: Range, b: Range) -> Outcomes
    ensures { result ≡ remainders_of a b }
{
    let nulls = either(either(a.is_other(), b.is_other()), has_zero(b.numbers));
    numbers_given(nulls, divided(a.numbers, b.numbers))
}
