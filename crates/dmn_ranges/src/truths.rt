//! Sets of truth values.
ghost use Rattle.std.specs.Prelude.{◌≡◌};
ghost use Rattle.dmn_ranges.specs.Steps.{truths as truths_of, opposite as opposite_of, and_truths as and_of_truths, or_truths as or_of_truths, told as told_of};

use crate::outcomes::Outcomes;
use crate::range::{Range, both, either};
use crate::size::Size;
use crate::texts::Texts;

/// A set of truth values.
#[derive(Clone, Copy)]
pub(crate) struct Truths {
    pub(crate) yes: bool,
    pub(crate) no: bool,
    pub(crate) unknown: bool,
}

/// The truth values of these values.
pub(crate) fn truths_in(range: Range) -> Truths
    ensures { result ≡ truths_of range }
{
    Truths {
        yes: range.trues,
        no: range.falses,
        unknown: either(
            either(range.nulls, range.numbers.is_some()),
            either(range.texts.is_some(), either(range.lists, range.contexts)),
        ),
    }
}

pub(crate) fn opposite(a: Truths) -> Truths
    ensures { result ≡ opposite_of a }
{
    Truths {
        yes: a.no,
        no: a.yes,
        unknown: a.unknown,
    }
}

pub(crate) fn and_truths(a: Truths, b: Truths) -> Truths
    ensures { result ≡ and_of_truths a b }
{
    Truths {
        yes: both(a.yes, b.yes),
        no: either(a.no, b.no),
        unknown: either(
            both(a.unknown, either(b.yes, b.unknown)),
            both(a.yes, b.unknown),
        ),
    }
}

pub(crate) fn or_truths(a: Truths, b: Truths) -> Truths
    ensures { result ≡ or_of_truths a b }
{
    Truths {
        yes: either(a.yes, b.yes),
        no: both(a.no, b.no),
        unknown: either(
            both(a.unknown, either(b.no, b.unknown)),
            both(a.no, b.unknown),
        ),
    }
}

/// The truth values as values.
pub(crate) fn told(a: Truths) -> Outcomes
    ensures { result ≡ told_of a }
{
    Outcomes::given(Range {
        nulls: a.unknown,
        trues: a.yes,
        falses: a.no,
        numbers: None,
        texts: Texts::none(),
        lists: false,
        contexts: false,
        size: Size::none(),
    })
}
