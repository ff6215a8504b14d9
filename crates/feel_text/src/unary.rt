//! Unary tests, the input entries of decision tables.
ghost use Rattle.std.specs.Prelude.{◌≡◌};
ghost use Rattle.feel_text.specs.Satisfied.{low_bound, high_bound};
ghost use Rattle.feel_text.specs.TestsView.{bound_view};

use crate::expr::Tree;

/// How an input stands to a value: `<`, `<=`, `>` and `>=`.
#[derive(Clone, Copy, Debug, PartialEq, Eq)]
pub enum Bound {
    Below,
    AtMost,
    Above,
    AtLeast,
}

/// One test of an input.
#[derive(Debug, Drop)]
pub enum Test {
    /// The input stands so to the value.
    Compares(Bound, Tree),
    /// The input lies between two ends, each closed where its flag says so.
    Interval(bool, Tree, Tree, bool),
    /// The input is the value, or a member of it.
    Equals(Tree),
}

/// Unary tests.
#[derive(Debug, Drop)]
pub enum TestsTree {
    /// `-`, which every input meets.
    Any,
    /// Some test is met.
    OneOf(Vec<Test>),
    /// No test is met.
    NoneOf(Vec<Test>),
}

/// How an input stands to the low end of an interval that it lies in.
pub fn low_end(closed: bool) -> Bound
    ensures { bound_view result ≡ low_bound closed }
{
    if closed { Bound::AtLeast } else { Bound::Above }
}

/// How an input stands to the high end of an interval that it lies in.
pub fn high_end(closed: bool) -> Bound
    ensures { bound_view result ≡ high_bound closed }
{
    if closed { Bound::AtMost } else { Bound::Below }
}
