//! The order of hits by their output values.
ghost use Rattle.std.specs.Prelude.{◌≡◌, [], IfOk, map, length};
ghost use Rattle.std.specs.List.{AllPairs};
ghost use Rattle.dmn_table.specs.Priority.{is_higher as is_higher_of, in_priority as in_priority_of};
ghost use Rattle.dmn_table.specs.View.{hit_view};

use feel_value::Feel;
use std::alloc::{AllocError, Global};

/// A rule that hit: the place of each of its values in its column's list of output values, and its output.
#[derive(Drop)]
pub(crate) struct Hit {
    pub(crate) places: Vec<usize>,
    pub(crate) output: Feel,
}

/// The values of a rule that hit, which make an output, and the place of each in its column's list of output values.
#[derive(Drop)]
pub(crate) struct Ranked {
    pub(crate) places: Vec<usize>,
    pub(crate) values: Vec<Feel>,
}

impl Ranked {
    /// No values and no places. It takes no memory.
    pub(crate) fn new(alloc: Global) -> Ranked
        ensures { result.values.items ≡ [] }
    {
        Ranked {
            places: Vec::new(alloc),
            values: Vec::new(alloc),
        }
    }

    /// Whether this one has the higher priority: its places are less.
    pub(crate) fn is_higher(&self, other: &Ranked) -> bool
        requires { length self.now.places.items ≡ length other.now.places.items }
        ensures { result ≡ is_higher_of self.now.places.items other.now.places.items }
    {
        self.places.cmp(&other.places).is_lt()
    }
}

/// The hits in decreasing priority, ties in their order.
pub(crate) fn in_priority(mut hits: Vec<Hit>) -> Result<Vec<Hit>, AllocError>
    requires { AllPairs (λ hit other. length hit.places.items ≡ length other.places.items) hits.items }
    ensures { IfOk result (λ sorted. map hit_view sorted.items ≡ in_priority_of (map hit_view hits.items)) }
{
    hits.sort_by(|hit, other| hit.places.cmp(&other.places))?;
    Ok(hits)
}
