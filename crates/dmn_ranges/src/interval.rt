//! Intervals of whole numbers.
ghost use Rattle.std.specs.Prelude.{◌≡◌, int_lt, int_le, if◌then◌else◌};
ghost use Rattle.feel_text.specs.Meaning.{least, greatest};
ghost use Rattle.dmn_ranges.specs.Numbers.{hull as hull_of, are_less as are_less_of, reach as reach_of};

/// The whole numbers from `low` to `high`.
#[derive(Clone, Copy, Debug, PartialEq, Eq)]
pub struct Interval {
    pub low: i64,
    pub high: i64,
}

pub(crate) fn lower(x: i64, y: i64) -> i64
    ensures { result ≡ least x y }
{
    if y < x { y } else { x }
}

pub(crate) fn higher(x: i64, y: i64) -> i64
    ensures { result ≡ greatest x y }
{
    if x < y { y } else { x }
}

/// An interval with the numbers of both.
pub(crate) fn hull(x: Option<Interval>, y: Option<Interval>) -> Option<Interval>
    ensures { result ≡ hull_of x y }
{
    match (x, y) {
        (Some(x), Some(y)) => Some(Interval {
            low: lower(x.low, y.low),
            high: higher(x.high, y.high),
        }),
        (Some(x), None) => Some(x),
        (None, y) => y,
    }
}

/// Whether some number of the first is less than some number of the second.
pub(crate) fn are_less(x: Option<Interval>, y: Option<Interval>) -> bool
    ensures { result ≡ are_less_of x y }
{
    match (x, y) {
        (Some(x), Some(y)) => x.low < y.high,
        _ => false,
    }
}

/// Whether some number of the first is not less than some number of the second.
pub(crate) fn reach(x: Option<Interval>, y: Option<Interval>) -> bool
    ensures { result ≡ reach_of x y }
{
    match (x, y) {
        (Some(x), Some(y)) => y.low <= x.high,
        _ => false,
    }
}
