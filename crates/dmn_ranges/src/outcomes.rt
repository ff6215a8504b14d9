//! What an evaluation can give.
ghost use Rattle.std.specs.Prelude.{◌≡◌};
ghost use Rattle.dmn_ranges.specs.Steps.{given as given_of, limited as limited_of, numbers_given as numbers_given_of, either_outcomes, when as when_of};

use crate::bounded::Bounded;
use crate::range::{Range, either, joined};

/// What an evaluation can give: a value of the range, or, where this is said, that a limit is broken.
#[derive(Clone, Copy, Debug, PartialEq, Eq)]
pub struct Outcomes {
    pub range: Range,
    pub limit: bool,
}

impl Outcomes {
    /// A value of the range.
    pub fn given(range: Range) -> Outcomes
        ensures { result ≡ given_of range }
    {
        Outcomes {
            range,
            limit: false,
        }
    }

    /// The same, and that a limit is broken, where this is said.
    pub(crate) fn limited(self, limit: bool) -> Outcomes
        ensures { result ≡ limited_of limit self }
    {
        Outcomes {
            range: self.range,
            limit: either(limit, self.limit),
        }
    }
}

/// A number that is worked out, if there is one, and null where this is said.
pub(crate) fn numbers_given(nulls: bool, numbers: Option<Bounded>) -> Outcomes
    ensures { result ≡ numbers_given_of nulls numbers }
{
    match numbers {
        Some(bounded) => Outcomes {
            range: Range::numbers_or_null(nulls, Some(bounded.numbers)),
            limit: bounded.limit,
        },
        None => Outcomes::given(Range::numbers_or_null(nulls, None)),
    }
}

/// What either can give.
pub(crate) fn either_of(a: Outcomes, b: Outcomes) -> Outcomes
    ensures { result ≡ either_outcomes a b }
{
    Outcomes {
        range: joined(a.range, b.range),
        limit: either(a.limit, b.limit),
    }
}

/// What this can give where the test may hold, and otherwise nothing.
pub(crate) fn when(holds: bool, a: Outcomes) -> Outcomes
    ensures { result ≡ when_of holds a }
{
    if holds {
        a
    } else {
        Outcomes::given(Range::nothing())
    }
}
