//! Whether a place needs itself.
ghost use Rattle.std.specs.Prelude.{◌≡◌, ◌<◌, ◌≤◌, ◌∷◌, [], ℕ, length, replicate, false, All, OnOk, IfOk};
ghost use Rattle.dmn_graph.specs.Needs.{needs_view, needs_of, AreNeedsBelow, count_needing, needs_itself as needs_itself_in};
ghost use Rattle.dmn_check.specs.Chase.{HasMet};

use std::alloc::{AllocError, Global};

/// A chase along needs, that meets each place once.
#[derive(Drop)]
pub(crate) struct Chase {
    /// For each place whether it was met.
    pub(crate) met: Vec<bool>,
    /// The places that were met and whose needs were not looked at.
    pub(crate) waiting: Vec<usize>,
}

impl Chase {
    /// A chase that has met none of so many places.
    fn new(alloc: Global, places: usize) -> Result<Chase, AllocError>
        ensures met { IfOk result (λ w. w.met.items ≡ replicate places false) }
        ensures waiting { IfOk result (λ w. w.waiting.items ≡ []) }
    {
        Ok(Chase {
            met: vec![in alloc; false; places]?,
            waiting: Vec::new(alloc),
        })
    }

    /// Meets a place.
    fn meet(&mut self, place: usize) -> Result<(), AllocError>
        requires { place < length self.old.met.items }
        ensures { OnOk result (HasMet self.old (place ∷ []) self.new) }
    {
        if self.met[place] {
            return Ok(());
        }
        self.met[place] = true;
        self.waiting.push(place)?;
        Ok(())
    }

    /// Meets these places.
    fn meet_all(&mut self, places: &[usize]) -> Result<(), AllocError>
        requires { All (λ q. q < length self.old.met.items) places.now }
        ensures { OnOk result (HasMet self.old places.now self.new) }
    {
        for place in places {
            self.meet(*place)?;
        }
        Ok(())
    }
}

/// What a place needs.
fn needed_by(needs: &[Vec<usize>], place: usize) -> &[usize]
    requires { place < length needs.now }
    ensures { result.now ≡ needs_of (needs_view needs.now) place }
{
    needs[place].as_slice()
}

/// Whether a place needs itself, directly or through others. `needs` has a list for each place, of the places that it needs. It
/// takes time in the number of places and needs.
pub(crate) fn needs_itself(
    alloc: Global,
    needs: &[Vec<usize>],
    place: usize,
) -> Result<bool, AllocError>
    requires inside { AreNeedsBelow (length needs.now) (needs_view needs.now) }
    requires place { place < length needs.now }
    ensures { IfOk result (λ b. (steps : ℕ) → count_needing (needs_view needs.now) ≤ steps → b ≡ needs_itself_in steps (needs_view needs.now) place) }
{
    let mut chase = Chase::new(alloc, needs.len())?;
    chase.meet_all(needed_by(needs, place))?;
    while let Some(next) = chase.waiting.pop() {
        chase.meet_all(needed_by(needs, next))?;
    }
    Ok(chase.met[place])
}
