//! An order of places in which each stands behind all that it needs.
ghost use Rattle.std.specs.Prelude.{ℕ, nat_eq, length, IfOk, IsNone, IfNone, IfSome, ◌↔◌};
ghost use Rattle.dmn_graph.specs.Reach.{Leads};
ghost use Rattle.dmn_graph.specs.Needs.{needs_view, needs_of, AreNeedsBelow, HasCycle, HasNoCycle, IsOrderOf};

use crate::search::{Mark, Search};
use std::alloc::{AllocError, Global};

/// An order of all places in which each stands once, and behind all that it needs, or None where a place needs itself, directly or
/// through others. `needs` has a list for each place, of the places that it needs. It takes time and memory in the number of places
/// and needs, and goes no deeper itself, however deep they go.
pub fn order_of(alloc: Global, needs: &[Vec<usize>]) -> Result<Option<Vec<usize>>, AllocError>
    requires { AreNeedsBelow (length needs.now) (needs_view needs.now) }
    ensures exactly { IfOk result (λ o. IsNone o ↔ ((x : ℕ) × Leads nat_eq (needs_of (needs_view needs.now)) x x)) }
    ensures cycle { IfOk result (λ o. IfNone o (HasCycle (needs_view needs.now))) }
    ensures sound { IfOk result (λ o. IfSome o (λ v. HasNoCycle (needs_view needs.now))) }
    ensures order { IfOk result (λ o. IfSome o (λ v. IsOrderOf (needs_view needs.now) v.items)) }
{
    let mut search = Search {
        marks: vec![in alloc; Mark::Untouched; needs.len()]?,
        trail: Vec::new(alloc),
        order: Vec::with_capacity(alloc, needs.len())?,
    };
    for place in 0..needs.len() {
        if !search.look_at(needs, place)? {
            return Ok(None);
        }
    }
    Ok(Some(search.order))
}
