//! What places lead to within the lists of a decision service.
ghost use Rattle.std.specs.Prelude.{◌≡◌, ◌≤◌, ◌<◌, ◌∷◌, [], ℕ, nat_eq, length, slice_index, is_some, IfOk, IfSome, MatchBool, All};
ghost use Rattle.std.specs.BTreeSet.{contains};
ghost use Rattle.std.specs.Ordering.{nat_cmp};
ghost use Rattle.dmn_graph.specs.Reach.{has_same};
ghost use Rattle.dmn_graph.specs.Needs.{needs_view, needs_of, AreNeedsBelow, count_needing};
ghost use Rattle.dmn_graph.specs.Within.{reaches_only, IsReachOf};
ghost use Rattle.dmn_graph.specs.Members.{IsIn};
ghost use Rattle.dmn_graph.specs.WalkState.{IsWalk, IsNewWalk, HasMet, IsUnlisted, has_place};

use crate::needs::needed_by;
use std::alloc::{AllocError, Global};
use std::collections::BTreeSet;

/// A walk along needs within two lists of places.
#[derive(Drop)]
pub(crate) struct Walk {
    /// The places that may be gone through.
    pub(crate) through: BTreeSet<usize>,
    /// The places that are reached and not gone through.
    pub(crate) given: BTreeSet<usize>,
    /// The places that were found.
    pub(crate) seen: BTreeSet<usize>,
    /// The same, in the order in which they were found.
    pub(crate) found: Vec<usize>,
}

impl Walk {
    /// A walk that has found nothing.
    fn new(alloc: Global, through: &[usize], given: &[usize]) -> Result<Walk, AllocError>
        ensures { IfOk result (λ w. IsNewWalk through.now given.now w) }
    {
        let through = set_of(alloc, through)?;
        let given = set_of(alloc, given)?;
        Ok(Walk {
            through,
            given,
            seen: BTreeSet::new(alloc),
            found: Vec::new(alloc),
        })
    }

    /// Whether a place is given.
    fn is_given(&self, place: usize) -> bool
        ensures { result ≡ has_place self.now.given place }
    {
        self.given.contains(&place)
    }

    /// Whether a place may be gone through.
    fn is_listed(&self, place: usize) -> bool
        ensures { result ≡ has_place self.now.through place }
    {
        self.through.contains(&place)
    }

    /// Takes a place in, unless it is given or was found before. It answers false where the place is in neither list.
    fn meet(&mut self, place: usize) -> Result<bool, AllocError>
        requires { IsWalk self.old }
        ensures { IfOk result (λ b. MatchBool b (HasMet self.old (place ∷ []) self.new) (IsUnlisted self.old (place ∷ []))) }
    {
        if self.is_given(place) {
            return Ok(true);
        }
        if !self.is_listed(place) {
            return Ok(false);
        }
        if self.seen.insert(place)? {
            self.found.push(place)?;
        }
        Ok(true)
    }

    /// Takes these places in. It answers false where one of them is in neither list.
    fn meet_all(&mut self, places: &[usize]) -> Result<bool, AllocError>
        requires { IsWalk self.old }
        ensures { IfOk result (λ b. MatchBool b (HasMet self.old places.now self.new) (IsUnlisted self.old places.now)) }
    {
        for place in places {
            if !self.meet(*place)? {
                return Ok(false);
            }
        }
        Ok(true)
    }

    /// Takes in what the found place at an index needs. It answers false where one of these needs is in neither list.
    fn pass(&mut self, needs: &[Vec<usize>], next: usize) -> Result<bool, AllocError>
        requires state { IsWalk self.old }
        requires next { next < length self.old.found.items }
        requires places { (q : ℕ) → IsIn q self.old.found.items → q < length needs.now }
        ensures { let qs = needs_of (needs_view needs.now) (slice_index self.old.found.items next)
            in IfOk result (λ b. MatchBool b (HasMet self.old qs self.new) (IsUnlisted self.old qs)) }
    {
        let place = self.found[next];
        let is_met = self.meet_all(needed_by(needs, place))?;
        Ok(is_met)
    }
}

/// The set of these places. It takes memory in their number.
pub fn set_of(alloc: Global, places: &[usize]) -> Result<BTreeSet<usize>, AllocError>
    ensures { IfOk result (λ s. (q : ℕ) → contains nat_cmp s q ≡ has_same nat_eq places.now q) }
{
    let mut set = BTreeSet::new(alloc);
    for place in places {
        set.insert(*place)?;
    }
    Ok(set)
}

/// The places that the starts lead to and that are not given, each once, or None where a place that is reached stands neither in
/// `through` nor in `given`. What is given is reached and not gone through. `needs` has a list for each place, of the places that it
/// needs. It takes memory in the lengths of the lists, and time in these and in what the places of `through` need, times the logarithm
/// of the lengths, however large the graph is.
pub fn reach(
    alloc: Global,
    needs: &[Vec<usize>],
    starts: &[usize],
    through: &[usize],
    given: &[usize],
) -> Result<Option<Vec<usize>>, AllocError>
    requires inside { AreNeedsBelow (length needs.now) (needs_view needs.now) }
    requires starts { All (λ q. q < length needs.now) starts.now }
    ensures listed { IfOk result (λ o. (steps : ℕ) → count_needing (needs_view needs.now) ≤ steps
        → is_some o ≡ reaches_only steps through.now given.now (needs_view needs.now) starts.now) }
    ensures found { IfOk result (λ o. IfSome o (λ v. IsReachOf given.now (needs_view needs.now) starts.now v.items)) }
{
    let mut walk = Walk::new(alloc, through, given)?;
    if !walk.meet_all(starts)? {
        return Ok(None);
    }
    let mut next = 0;
    while next < walk.found.len() {
        if !walk.pass(needs, next)? {
            return Ok(None);
        }
        next += 1;
    }
    Ok(Some(walk.found))
}
