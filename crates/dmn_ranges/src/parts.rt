//! Lists and contexts that are formed of parts.
ghost use Rattle.std.specs.Prelude.{◌≡◌};
ghost use Rattle.dmn_ranges.specs.Steps.{listed as listed_of, named_parts as named_parts_of, no_parts, with_part as with_part_of, list_of as list_of_parts, context_of as context_of_parts};

use crate::outcomes::Outcomes;
use crate::range::{Range, both, either};
use crate::size::Size;

/// The parts of a list or a context: how large they are together, and whether a limit can be broken at one of them.
#[derive(Clone, Copy)]
pub(crate) struct Parts {
    pub(crate) size: Size,
    pub(crate) limit: bool,
}

/// A list of parts of this size.
pub(crate) fn listed(size: Size) -> Outcomes
    ensures { result ≡ listed_of size }
{
    Outcomes {
        range: Range::lists_of(size.around()),
        limit: !size.fits(),
    }
}

/// A context of parts of this size, under names that are distinct where this is said.
pub(crate) fn named_parts(distinct: bool, size: Size) -> Outcomes
    ensures { result ≡ named_parts_of distinct size }
{
    Outcomes {
        range: Range::contexts_of(size.around()),
        limit: !both(distinct, size.fits()),
    }
}

impl Parts {
    pub(crate) fn none() -> Parts
        ensures { result ≡ no_parts }
    {
        Parts {
            size: Size::none(),
            limit: false,
        }
    }

    /// With one part more.
    pub(crate) fn with(self, part: Outcomes) -> Parts
        ensures { result ≡ with_part_of self part }
    {
        Parts {
            size: self.size.beside(part.range.size_of()),
            limit: either(self.limit, part.limit),
        }
    }

    /// The list of the parts.
    pub(crate) fn list(self) -> Outcomes
        ensures { result ≡ list_of_parts self }
    {
        listed(self.size).limited(self.limit)
    }

    /// The context of the parts, under names that are distinct where this is said.
    pub(crate) fn context(self, distinct: bool) -> Outcomes
        ensures { result ≡ context_of_parts distinct self }
    {
        named_parts(distinct, self.size).limited(self.limit)
    }
}
