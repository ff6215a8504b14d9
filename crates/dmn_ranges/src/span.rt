//! Numbers that functions work out from those of lists.
ghost use Rattle.std.specs.Prelude.{◌≡◌, ◌+◌, ◌+ℤ◌, ℕ, Some};
ghost use Rattle.dmn_ranges.specs.Numbers.{AreNear, IsNear, folded_if as folded_if_of, folded_span as folded_span_of, held_if as held_if_of, widened as widened_of, widened_if as widened_if_of};

use crate::bounded::{Bounded, held_between, higher, lower};
use crate::interval::Interval;
use feel_text::Function;

/// The whole numbers from `low` to `high`, which may be past the range of numbers.
#[derive(Clone, Copy)]
pub(crate) struct Span {
    pub(crate) low: i128,
    pub(crate) high: i128,
}

fn widened(numbers: Interval) -> Span
    ensures { result ≡ widened_of numbers }
{
    Span {
        low: i128::from(numbers.low),
        high: i128::from(numbers.high),
    }
}

/// The same numbers, if there are some.
pub(crate) fn widened_if(numbers: Option<Interval>) -> Option<Span>
    ensures same { result ≡ widened_if_of numbers }
    ensures near { AreNear 1 result }
{
    match numbers {
        Some(numbers) => Some(widened(numbers)),
        None => None,
    }
}

fn added(x: i128, y: i128) -> i128
    requires x { IsNear 9223372036854775808 x }
    requires y { IsNear 1 y }
    ensures { result ≡ x +ℤ y }
{
    x + y
}

// What a function makes of a number of each. A list has no more members than 63 bits count.
fn folded_span(function: Function, a: Span, b: Span) -> Span
    requires a { AreNear 9223372036854775808 (Some a) }
    requires b { AreNear 1 (Some b) }
    ensures { result ≡ folded_span_of function a b }
{
    match function {
        Function::Min => Span {
            low: lower(a.low, b.low),
            high: lower(a.high, b.high),
        },
        Function::Max => Span {
            low: higher(a.low, b.low),
            high: higher(a.high, b.high),
        },
        Function::Abs | Function::Count | Function::Sum => Span {
            low: added(a.low, b.low),
            high: added(a.high, b.high),
        },
    }
}

/// What a function makes of a number of each, if both have some.
pub(crate) fn folded_if(function: Function, a: Option<Span>, b: Option<Span>) -> Option<Span>
    requires a { AreNear 9223372036854775808 a }
    requires b { AreNear 1 b }
    ensures same { result ≡ folded_if_of function a b }
    ensures near { (n : ℕ) → AreNear n a → AreNear (n + 1) result }
{
    match (a, b) {
        (Some(a), Some(b)) => Some(folded_span(function, a, b)),
        _ => None,
    }
}

/// The numbers, held against the range of numbers.
pub(crate) fn held_if(numbers: Option<Span>) -> Option<Bounded>
    ensures { result ≡ held_if_of numbers }
{
    match numbers {
        Some(numbers) => Some(held_between(numbers.low, numbers.high)),
        None => None,
    }
}
