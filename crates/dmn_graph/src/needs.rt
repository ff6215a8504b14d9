//! What places need, and whether these are places.
ghost use Rattle.std.specs.Prelude.{◌≡◌, ◌<◌, ◌↔◌, IsTrue, All, length};
ghost use Rattle.dmn_graph.specs.Needs.{needs_view, needs_of, AreNeedsBelow};

/// Whether each of these places is one of the first so many.
pub fn are_below(places: &[usize], count: usize) -> bool
    ensures { IsTrue result ↔ All (λ q. q < count) places.now }
{
    places.iter().all(|place| *place < count)
}

/// Whether each needed place is a place. `needs` has a list for each place, of the places that it needs.
pub fn are_needs_below(needs: &[Vec<usize>]) -> bool
    ensures { IsTrue result ↔ AreNeedsBelow (length needs.now) (needs_view needs.now) }
{
    for place in 0..needs.len() {
        if !are_below(needed_by(needs, place), needs.len()) {
            return false;
        }
    }
    true
}

/// What a place needs.
pub(crate) fn needed_by(needs: &[Vec<usize>], place: usize) -> &[usize]
    requires { place < length needs.now }
    ensures { result.now ≡ needs_of (needs_view needs.now) place }
{
    needs[place].as_slice()
}
