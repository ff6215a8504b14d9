//! The rank of each place in an order, and orders of some of the places by rank.
ghost use Rattle.std.specs.Prelude.{◌≡◌, ◌≤◌, ◌<◌, ℕ, nat_eq, length, is_some, slice_index, vec_len, OnOk, IfOk, IfSome, All};
ghost use Rattle.std.specs.List.Sorted.{IsPermutation, IsNonDecreasingBy};
ghost use Rattle.dmn_graph.specs.Reach.{IsInOrder};
ghost use Rattle.dmn_graph.specs.Needs.{needs_view, needs_of, AreNeedsBelow, count_needing, IsOrderOf, AreRanks, DoRanksFall};
ghost use Rattle.dmn_graph.specs.Within.{reaches_only, IsReachOf};

use crate::walk::reach;
use std::alloc::{AllocError, Global};

/// The rank of each place in an order of all of them. `needs` is what the order was made of.
pub fn ranks_of(
    alloc: Global,
    needs: &[Vec<usize>],
    order: &[usize],
) -> Result<Vec<usize>, AllocError>
    requires { IsOrderOf (needs_view needs.now) order.now }
    ensures each { IfOk result (λ v. vec_len v ≡ length needs.now) }
    ensures ranks { IfOk result (λ v. AreRanks order.now v.items) }
    ensures falls { IfOk result (λ v. DoRanksFall (needs_view needs.now) v.items) }
{
    let mut ranks = vec![in alloc; 0; needs.len()]?;
    for (rank, place) in order.iter().enumerate() {
        ranks[*place] = rank;
    }
    Ok(ranks)
}

/// The rank of a place.
fn rank_of(ranks: &[usize], place: usize) -> usize
    ensures { result ≡ slice_index ranks.now place }
{
    ranks.get(place).copied().unwrap_or(0)
}

/// Sorts places by rank. Where no memory is left, they may stay in another order.
fn sort_by_rank(ranks: &[usize], places: &mut Vec<usize>) -> Result<(), AllocError>
    ensures same { IsPermutation places.old.items places.new.items }
    ensures sorted { OnOk result (IsNonDecreasingBy (λ q. slice_index ranks.now q) places.new.items) }
{
    places.sort_by_key(|place| rank_of(ranks, *place))?;
    Ok(())
}

/// The places that the starts lead to and that are not given, each once, and behind all that it needs but what is given; or None where
/// a place that is reached stands neither in `through` nor in `given`. What is given is reached and not gone through. `needs` has a list
/// for each place, of the places that it needs, and `ranks` the rank of each place in an order. It takes memory in the lengths of the
/// lists, and time in these and in what the places of `through` need, times the logarithm of the lengths, however large the graph is.
pub fn reached_order(
    alloc: Global,
    needs: &[Vec<usize>],
    ranks: &[usize],
    starts: &[usize],
    through: &[usize],
    given: &[usize],
) -> Result<Option<Vec<usize>>, AllocError>
    requires inside { AreNeedsBelow (length needs.now) (needs_view needs.now) }
    requires starts { All (λ q. q < length needs.now) starts.now }
    requires ranks { DoRanksFall (needs_view needs.now) ranks.now }
    ensures listed { IfOk result (λ o. (steps : ℕ) → count_needing (needs_view needs.now) ≤ steps
        → is_some o ≡ reaches_only steps through.now given.now (needs_view needs.now) starts.now) }
    ensures found { IfOk result (λ o. IfSome o (λ v. IsReachOf given.now (needs_view needs.now) starts.now v.items)) }
    ensures order { IfOk result (λ o. IfSome o (λ v. IsInOrder nat_eq (needs_of (needs_view needs.now)) given.now v.items)) }
{
    let Some(mut found) = reach(alloc, needs, starts, through, given)? else {
        return Ok(None);
    };
    sort_by_rank(ranks, &mut found)?;
    Ok(Some(found))
}
