//! A search along needs, place by place, that goes as deep as the graph with a trail of its own.
ghost use Rattle.std.specs.Prelude.{◌≡◌, ◌<◌, ◌++◌, ◌∷◌, [], length, slice_set, OnOk, IfOk, MatchBool, MatchOption, reverse};
ghost use Rattle.dmn_graph.specs.Needs.{needs_view, needs_of, AreNeedsBelow, HasCycle};
ghost use Rattle.dmn_graph.specs.SearchState.{ahead, IsNextNeed, IsSearch, IsSearchOf, IsStepped, IsFollowed, IsLookedAt};

use std::alloc::AllocError;

/// How far a search has come with a place.
#[derive(Clone, Copy)]
pub(crate) enum Mark {
    /// It was not looked at.
    Untouched,
    /// It is being looked at.
    Open,
    /// It stands in the order.
    Done,
}

/// A place that is being looked at, and how many of its needs were.
#[derive(Clone, Copy)]
pub(crate) struct Visit {
    /// The place.
    pub(crate) place: usize,
    /// How many of its needs were looked at.
    pub(crate) looked_at: usize,
}

/// A search for an order.
#[derive(Drop)]
pub(crate) struct Search {
    /// How far it has come with each place.
    pub(crate) marks: Vec<Mark>,
    /// The places being looked at, each of which needs the next one.
    pub(crate) trail: Vec<Visit>,
    /// The places that are done, each behind all that it needs.
    pub(crate) order: Vec<usize>,
}

impl Search {
    /// Begins to look at an untouched place.
    pub(crate) fn open(&mut self, place: usize) -> Result<(), AllocError>
        requires { place < length self.old.marks.items }
        ensures marks { OnOk result (self.new.marks.items ≡ slice_set self.old.marks.items place Mark.Open) }
        ensures trail { OnOk result (self.new.trail.items ≡ self.old.trail.items ++ record { place = place; looked_at = 0 } ∷ []) }
        ensures order { OnOk result (self.new.order.items ≡ self.old.order.items) }
    {
        self.marks[place] = Mark::Open;
        self.trail.push(Visit {
            place,
            looked_at: 0,
        })?;
        Ok(())
    }

    /// Puts a place behind the order so far.
    fn close(&mut self, place: usize) -> Result<(), AllocError>
        requires { place < length self.old.marks.items }
        ensures marks { OnOk result (self.new.marks.items ≡ slice_set self.old.marks.items place Mark.Done) }
        ensures trail { OnOk result (self.new.trail.items ≡ self.old.trail.items) }
        ensures order { OnOk result (self.new.order.items ≡ self.old.order.items ++ place ∷ []) }
    {
        self.marks[place] = Mark::Done;
        self.order.push(place)?;
        Ok(())
    }

    /// Looks at the next need of the place that was taken off the trail, or puts the place behind the order where none is left.
    /// It answers false where the need is being looked at itself, so that it needs itself.
    fn step(&mut self, needs: &[Vec<usize>], visit: Visit) -> Result<bool, AllocError>
        requires inside { AreNeedsBelow (length needs.now) (needs_view needs.now) }
        requires search { IsSearch (needs_view needs.now) self.old.marks.items (visit ∷ reverse self.old.trail.items) self.old.order.items }
        ensures { IfOk result (λ b. MatchBool b (IsStepped (needs_view needs.now) self.old visit self.new) (HasCycle (needs_view needs.now))) }
    {
        let Some((need, later)) = next_need(needs, visit) else {
            self.close(visit.place)?;
            return Ok(true);
        };
        self.trail.push(later)?;
        match self.marks[need] {
            Mark::Open => Ok(false),
            Mark::Done => Ok(true),
            Mark::Untouched => {
                self.open(need)?;
                Ok(true)
            }
        }
    }

    /// Goes on until no place is being looked at. It answers false where a place needs itself.
    fn follow(&mut self, needs: &[Vec<usize>]) -> Result<bool, AllocError>
        requires inside { AreNeedsBelow (length needs.now) (needs_view needs.now) }
        requires search { IsSearchOf (needs_view needs.now) self.old }
        ensures { IfOk result (λ b. MatchBool b (IsFollowed (needs_view needs.now) self.old self.new) (HasCycle (needs_view needs.now))) }
    {
        while let Some(visit) = self.trail.pop() {
            if !self.step(needs, visit)? {
                return Ok(false);
            }
        }
        Ok(true)
    }

    /// Puts a place into the order, behind all that it leads to, unless it stands there. It answers false where a place needs itself.
    pub(crate) fn look_at(&mut self, needs: &[Vec<usize>], place: usize) -> Result<bool, AllocError>
        requires inside { AreNeedsBelow (length needs.now) (needs_view needs.now) }
        requires search { IsSearchOf (needs_view needs.now) self.old }
        requires rest { self.old.trail.items ≡ [] }
        requires place { place < length needs.now }
        ensures { IfOk result (λ b. MatchBool b (IsLookedAt (needs_view needs.now) self.old place self.new) (HasCycle (needs_view needs.now))) }
    {
        let Mark::Untouched = self.marks[place] else {
            return Ok(true);
        };
        self.open(place)?;
        let is_done = self.follow(needs)?;
        Ok(is_done)
    }
}

/// The next need of a place that is being looked at, and the visit once that need was looked at.
fn next_need(needs: &[Vec<usize>], visit: Visit) -> Option<(usize, Visit)>
    requires { visit.place < length needs.now }
    ensures { MatchOption result (ahead (needs_of (needs_view needs.now)) visit ≡ []) (λ r. IsNextNeed (needs_of (needs_view needs.now)) visit r.0 r.1) }
{
    let need = needs[visit.place].get(visit.looked_at)?;
    let later = Visit {
        place: visit.place,
        looked_at: visit.looked_at + 1,
    };
    Some((*need, later))
}
