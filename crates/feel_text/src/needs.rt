//! The names that a decision needs.
ghost use Rattle.std.specs.Prelude.{◌≡◌, ◌≤◌, ◌<◌, ◌^◌, IsTrue, [], ◌∷◌, ◌++◌, ℕ, List, Some, length, take, is_some, option_map, MatchResult};
ghost use Rattle.std.specs.List.{list_all};
ghost use Rattle.feel_text.specs.NameOrder.{IsInOrder};
ghost use Rattle.feel_text.specs.Needed.{is_found, found_at, need_at, named_places, names_of};
ghost use Rattle.feel_text.specs.Places.{last_place};

use crate::name::Name;
use crate::name_order::{HasName, found_by_halves, is_behind_all, order_by_name};
use feel_value::{Feel, Outcome};
use std::alloc::{AllocError, Global};
use std::marker::Model;

// More needs lie in no memory that a machine can address.
const MOST_NEEDS: usize = usize::MAX / 32;

// A name that is needed, and the place where its value is found.
#[derive(Drop)]
struct Need {
    name: Name,
    place: usize,
}

/// The names that a decision needs, each with the place of its value among what a run finds. They are listed once, when a model
/// is read; a text that is read under them knows where its names stand in this list.
///
/// Where no name stands twice, and the names were put in order or came in order, a name is found in steps in proportion to the
/// logarithm of how many there are.
#[derive(Drop)]
pub struct Needs {
    needs: Vec<Need>,
    // The positions in the order of their names. Where it has none for a rank, the need of this rank stands at the rank itself.
    order: Vec<usize>,
    // The order is right, and no name stands twice.
    is_ordered: bool,
}

impl HasName for Need {
    ghost name_of = { λ n. n.name };

    fn name(&self) -> &str {
        self.name.as_str()
    }
}

impl Model for Needs {
    ghost use Rattle.std.specs.Prelude.{List, ℕ};
    ghost use Rattle.std.specs.Coded.{coded_list, coded×, coded_ℕ};

    ghost Value = { List (List ℕ × ℕ) };

    ghost coded = { coded_list (coded× (coded_list coded_ℕ) coded_ℕ) };

    ghost use Rattle.feel_text.specs.Needed.{named_places, IsListed};

    ghost view = { λ n. named_places n.needs.items };

    ghost invariant = { λ n. IsListed n.needs.items n.order.items n.is_ordered };
}

impl Needs {
    /// No names. It takes no memory, and keeps the allocator for its names.
    pub fn new(alloc: Global) -> Needs
        ensures { result ≡ [] }
    {
        Needs {
            needs: Vec::new(alloc),
            order: Vec::new(alloc),
            is_ordered: true,
        }
    }

    /// Adds a name with the place of its value. Where memory is refused nothing changes.
    pub fn push(&mut self, name: &str, place: usize) -> Result<(), AllocError>
        ensures { MatchResult result (λ _. self.new ≡ self.old ++ (name.now, place) ∷ []) (λ _. self.new ≡ self.old) }
    {
        if self.needs.len() >= MOST_NEEDS {
            return Err(AllocError);
        }
        let is_ordered = self.is_ordered && is_behind_all(&self.needs, &self.order, name);
        let name = String::from_str(*self.needs.allocator(), name)?;
        self.needs.push(Need {
            name: Name::of(name),
            place,
        })?;
        self.is_ordered = is_ordered;
        Ok(())
    }

    /// Puts the names in order, if they did not come in order, so that each is found quickly from here on. The needs stay as
    /// they are.
    pub fn put_in_order(&mut self) -> Result<(), AllocError>
        ensures { self.new ≡ self.old }
    {
        if self.is_ordered {
            return Ok(());
        }
        if let Some(order) = order_by_name(*self.needs.allocator(), &self.needs)? {
            self.order = order;
            self.is_ordered = true;
        }
        Ok(())
    }

    /// How many names there are.
    pub fn len(&self) -> usize
        ensures number { result ≡ length self.now }
        ensures small { result < 2 ^ 60 }
    {
        self.needs.len()
    }

    /// Where the last need of the name stands.
    pub fn position(&self, name: &str) -> Option<usize>
        ensures { result ≡ last_place name.now self.now }
    {
        if !self.is_ordered {
            return self.position_among(self.needs.len(), name);
        }
        position_in_order(&self.needs, &self.order, name)
    }

    /// Where the last of the first `len` needs of the name stands.
    pub fn position_among(&self, len: usize, name: &str) -> Option<usize>
        requires { len ≤ length self.now }
        ensures { result ≡ last_place name.now (take len self.now) }
    {
        let mut i = len;
        while i > 0 {
            i -= 1;
            if name == self.needs[i].name.as_str() {
                return Some(i);
            }
        }
        None
    }

    /// Whether the last need of the name is known to stand at this position.
    pub fn stands_at(&self, position: usize, name: &Name) -> bool
        ensures { IsTrue result → last_place name.now self.now ≡ Some position }
    {
        match self.needs.get(position) {
            Some(need) => name.is(&need.name) && self.is_ordered,
            None => false,
        }
    }

    /// The same with no look at the bytes of the names, so that longer ones are not known.
    #[inline(always)]
    pub fn stands_at_once(&self, position: usize, name: &Name) -> bool
        ensures { IsTrue result → last_place name.now self.now ≡ Some position }
    {
        match self.needs.get(position) {
            Some(need) => name.is_at_once(&need.name) && self.is_ordered,
            None => false,
        }
    }

    /// The same of the bytes of a name.
    pub fn is_at(&self, position: usize, name: &str) -> bool
        ensures { IsTrue result → last_place name.now self.now ≡ Some position }
    {
        match self.needs.get(position) {
            Some(need) => name == need.name.as_str() && self.is_ordered,
            None => false,
        }
    }

    /// The place of the need at a position.
    pub fn place(&self, position: usize) -> usize
        requires { position < length self.now }
        ensures { result ≡ (need_at self.now position).1 }
    {
        self.needs[position].place
    }

    /// Whether a value was found at the place of each.
    pub fn are_found(&self, found: &[Outcome]) -> bool
        ensures { result ≡ list_all (is_found found.now) self.now }
    {
        have_values(&self.needs, found)
    }
}

// Where the last need of the name stands, among needs that are in this order.
fn position_in_order(needs: &[Need], order: &[usize], name: &str) -> Option<usize>
    requires { IsInOrder (names_of needs.now) order.now }
    ensures { result ≡ last_place name.now (named_places needs.now) }
{
    found_by_halves(needs, order, name)
}

// Whether a value was found at the place of each.
fn have_values(needs: &[Need], found: &[Outcome]) -> bool
    ensures { result ≡ list_all (λ n. is_some (found_at found.now n.place)) needs.now }
{
    needs.iter().all(|need| is_value_found(found, need.place))
}

/// The value found at a place, if one was.
pub fn value_found(found: &[Outcome], place: usize) -> Option<&Feel>
    ensures { option_map (λ v. v.now) result ≡ found_at found.now place }
{
    found.get(place)?.value()
}

fn is_value_found(found: &[Outcome], place: usize) -> bool
    ensures { result ≡ is_some (found_at found.now place) }
{
    value_found(found, place).is_some()
}
