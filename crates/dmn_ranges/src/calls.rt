//! The functions of one argument on sets of values.
ghost use Rattle.std.specs.Prelude.{◌≡◌};
ghost use Rattle.dmn_ranges.specs.Steps.{summed as summed_of, picked as picked_of, counted as counted_of, called as called_of, paths as paths_of};

use crate::interval::Interval;
use crate::numbers::absolutes;
use crate::outcomes::Outcomes;
use crate::range::{Range, every_number};
use feel_text::Function;

// The sum of a list; null for anything else.
fn summed(a: Range) -> Outcomes
    ensures { result ≡ summed_of a }
{
    if a.lists {
        Outcomes {
            range: Range::numbers_or_null(true, every_number()),
            limit: true,
        }
    } else {
        Outcomes::given(Range::null())
    }
}

// The least or the greatest of a list, which is one of its numbers; null for anything else.
fn picked(a: Range) -> Outcomes
    ensures { result ≡ picked_of a }
{
    if a.lists {
        Outcomes::given(Range::numbers_or_null(true, every_number()))
    } else {
        Outcomes::given(Range::null())
    }
}

// How many members a list has, which is a node beside them; null for anything else.
fn counted(a: Range) -> Outcomes
    ensures { result ≡ counted_of a }
{
    if a.lists {
        let numbers = Interval {
            low: 0,
            high: i64::from(a.size.nodes) - 1,
        };
        Outcomes::given(Range::numbers_or_null(a.is_other_than_list(), Some(numbers)))
    } else {
        Outcomes::given(Range::null())
    }
}

/// What a function gives.
pub(crate) fn called(function: Function, a: Range) -> Outcomes
    ensures { result ≡ called_of function a }
{
    match function {
        Function::Abs => absolutes(a),
        Function::Count => counted(a),
        Function::Sum => summed(a),
        Function::Min | Function::Max => picked(a),
    }
}

/// What the path to an entry gives.
pub(crate) fn paths(a: Range) -> Outcomes
    ensures { result ≡ paths_of a }
{
    if a.contexts || a.lists {
        Outcomes::given(Range::any_of_size(a.size))
    } else {
        Outcomes::given(Range::null())
    }
}
