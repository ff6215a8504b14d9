//! Numbers that are worked out, held against the range of numbers.
ghost use Rattle.std.specs.Prelude.{◌≡◌, ◌+ℤ◌, ◌-ℤ◌, ◌*ℤ◌, pos};
ghost use Rattle.dmn_ranges.specs.Numbers.{clamped as clamped_of, is_past as is_past_of, bounded as bounded_of, sum as sum_of, difference as difference_of, product as product_of, absolute as absolute_of, remainder as remainder_of, has_divisor as has_divisor_of, nearest as nearest_of, furthest as furthest_of, least_times as least_times_of, greatest_times as greatest_times_of, least_product as least_product_of, greatest_product as greatest_product_of};
ghost use Rattle.feel_text.specs.Meaning.{least, greatest};

use crate::interval::Interval;

const LEAST: i128 = -9_223_372_036_854_775_807;

const MOST: i128 = 9_223_372_036_854_775_807;

/// What a number can be that is worked out: in the interval, or, where this is said, past the range of numbers.
#[derive(Clone, Copy)]
pub(crate) struct Bounded {
    pub(crate) numbers: Interval,
    pub(crate) limit: bool,
}

// The number of the range that is nearest.
fn clamped(z: i128) -> i64
    ensures { result ≡ clamped_of z }
{
    if z < LEAST {
        -i64::MAX
    } else if MOST < z {
        i64::MAX
    } else {
        z as i64
    }
}

fn is_past(z: i128) -> bool
    ensures { result ≡ is_past_of z }
{
    z < LEAST || MOST < z
}

/// The numbers between two.
pub(crate) fn held_between(low: i128, high: i128) -> Bounded
    ensures { result ≡ bounded_of low high }
{
    Bounded {
        numbers: Interval {
            low: clamped(low),
            high: clamped(high),
        },
        limit: is_past(low) || is_past(high),
    }
}

fn added(x: i64, y: i64) -> i128
    ensures { result ≡ x +ℤ y }
{
    i128::from(x) + i128::from(y)
}

fn less_by(x: i64, y: i64) -> i128
    ensures { result ≡ x -ℤ y }
{
    i128::from(x) - i128::from(y)
}

fn multiplied(x: i64, y: i64) -> i128
    ensures { result ≡ x *ℤ y }
{
    i128::from(x) * i128::from(y)
}

pub(crate) fn lower(x: i128, y: i128) -> i128
    ensures { result ≡ least x y }
{
    if y < x { y } else { x }
}

pub(crate) fn higher(x: i128, y: i128) -> i128
    ensures { result ≡ greatest x y }
{
    if x < y { y } else { x }
}

pub(crate) fn sum(x: Interval, y: Interval) -> Bounded
    ensures { result ≡ sum_of x y }
{
    held_between(added(x.low, y.low), added(x.high, y.high))
}

pub(crate) fn difference(x: Interval, y: Interval) -> Bounded
    ensures { result ≡ difference_of x y }
{
    held_between(less_by(x.low, y.high), less_by(x.high, y.low))
}

fn least_times(z: i64, y: Interval) -> i128
    ensures { result ≡ least_times_of z y }
{
    lower(multiplied(z, y.low), multiplied(z, y.high))
}

fn greatest_times(z: i64, y: Interval) -> i128
    ensures { result ≡ greatest_times_of z y }
{
    higher(multiplied(z, y.low), multiplied(z, y.high))
}

fn least_product(x: Interval, y: Interval) -> i128
    ensures { result ≡ least_product_of x y }
{
    lower(least_times(x.low, y), least_times(x.high, y))
}

fn greatest_product(x: Interval, y: Interval) -> i128
    ensures { result ≡ greatest_product_of x y }
{
    higher(greatest_times(x.low, y), greatest_times(x.high, y))
}

pub(crate) fn product(x: Interval, y: Interval) -> Bounded
    ensures { result ≡ product_of x y }
{
    held_between(least_product(x, y), greatest_product(x, y))
}

// The least that a number of the interval is from 0.
fn nearest(x: Interval) -> i128
    ensures { result ≡ nearest_of x }
{
    if 0 < x.low {
        added(0, x.low)
    } else if x.high < 0 {
        less_by(0, x.high)
    } else {
        0
    }
}

// The most that a number of the interval is from 0.
fn furthest(x: Interval) -> i128
    ensures { result ≡ furthest_of x }
{
    higher(less_by(0, x.low), added(0, x.high))
}

pub(crate) fn absolute(x: Interval) -> Bounded
    ensures { result ≡ absolute_of x }
{
    held_between(nearest(x), furthest(x))
}

/// What is left of a number by one of the interval.
pub(crate) fn remainder(y: Interval) -> Bounded
    ensures { result ≡ remainder_of y }
{
    held_between(lower(added(y.low, 1), 0), higher(less_by(y.high, 1), 0))
}

/// Whether some number is not 0.
pub(crate) fn has_divisor(y: Interval) -> bool
    ensures { result ≡ has_divisor_of y }
{
    y.low < 0 || 0 < y.high
}

/// The numbers of an interval, where the range of numbers holds them.
pub(crate) fn between_bounds(x: Interval) -> Bounded
    ensures { result ≡ bounded_of x.low x.high }
{
    held_between(i128::from(x.low), i128::from(x.high))
}

/// The numbers from 1 to this.
pub(crate) fn counted_to(most: usize) -> Bounded
    ensures { result ≡ bounded_of (pos 1) (pos most) }
{
    held_between(1, most as i128)
}
