//! Needed names with the values that were found for them.
ghost use Rattle.std.specs.Prelude.{◌≡◌, ◌≤◌, ◌<◌, ◌^◌, Some, true, length, take, option_map};
ghost use Rattle.std.specs.List.{list_all};
ghost use Rattle.feel_text.specs.Meaning.{bound};
ghost use Rattle.feel_text.specs.Needed.{bindings_from, is_found, value_at};
ghost use Rattle.feel_text.specs.Places.{last_place};

use feel_text::{Needs, Reference, value_found};
use feel_value::{Feel, Outcome};
use std::marker::Model;

/// Names with values that are looked at where they lie: nothing is copied, and it takes no memory.
#[derive(Drop)]
pub(crate) struct Lent<'a> {
    needs: &'a Needs,
    found: &'a [Outcome],
    // So many of the names count.
    count: usize,
}

impl<'a> Model for Lent<'a> {
    ghost use Rattle.std.specs.Prelude.{List, ℕ, take};
    ghost use Rattle.std.specs.Coded.{coded_list, coded×, coded_ℕ};
    ghost use Rattle.feel_value.specs.Datum.{Datum};
    ghost use Rattle.feel_value.specs.Code.{datum_code};

    ghost Value = { List (List ℕ × Datum) };

    ghost coded = { coded_list (coded× (coded_list coded_ℕ) datum_code) };

    ghost use Rattle.feel_text.specs.Needed.{lent_to, AreLent};

    ghost view = { λ l. take l.count (lent_to l.found.now l.needs.now) };

    ghost invariant = { λ l. AreLent l.found.now l.needs.now l.count };
}

impl<'a> Lent<'a> {
    /// These names, with what was found at their places; None where nothing was found for one of them.
    pub(crate) fn of(needs: &'a Needs, found: &'a [Outcome]) -> Option<Lent<'a>>
        ensures { result ≡ bindings_from found.now needs.now }
    {
        if !needs.are_found(found) {
            return None;
        }
        let lent = Lent::of_found(needs, found);
        Some(lent)
    }

    /// The same, where a value is known to be found for each.
    pub(crate) fn of_found(needs: &'a Needs, found: &'a [Outcome]) -> Lent<'a>
        requires { list_all (is_found found.now) needs.now ≡ true }
        ensures { bindings_from found.now needs.now ≡ Some result }
    {
        let count = needs.len();
        Lent {
            needs,
            found,
            count,
        }
    }

    /// The value of the last of the names that is this one.
    #[inline(never)]
    #[tactic(auto, using(feel_text::proofs::Needed::bound_at, feel_text::proofs::Needed::last_within))]
    pub(crate) fn find(&self, name: &str) -> Option<&Feel>
        ensures { option_map (λ v. v.now) result ≡ bound name.now self.now }
    {
        let position = self.position(name)?;
        self.value_at(position)
    }

    /// The same of a name as it stands in a text.
    pub(crate) fn find_at(&self, reference: &Reference) -> Option<&Feel>
        ensures { option_map (λ v. v.now) result ≡ bound reference.now.name self.now }
    {
        if let Some(position) = reference.position {
            if position < self.count && self.needs.stands_at_once(position, &reference.name) {
                return self.value_at(position);
            }
        }
        self.find_by_bytes(reference)
    }

    // The same, where the bytes of the name are looked at.
    #[inline(never)]
    fn find_by_bytes(&self, reference: &Reference) -> Option<&Feel>
        ensures { option_map (λ v. v.now) result ≡ bound reference.now.name self.now }
    {
        if let Some(position) = reference.position {
            if position < self.count && self.needs.stands_at(position, &reference.name) {
                let value = self.value_at(position);
                return value;
            }
        }
        self.find(reference.name.as_str())
    }

    // Where the last of the names that is this one stands.
    fn position(&self, name: &str) -> Option<usize>
        ensures { result ≡ last_place name.now self.now }
    {
        if self.count < self.needs.len() {
            return self.needs.position_among(self.count, name);
        }
        self.needs.position(name)
    }

    // The value at a position.
    fn value_at(&self, position: usize) -> Option<&Feel>
        requires { position < length self.now }
        ensures { option_map (λ v. v.now) result ≡ Some (value_at self.now position) }
    {
        value_found(self.found, self.needs.place(position))
    }

    /// How many names count.
    pub(crate) fn len(&self) -> usize
        ensures number { result ≡ length self.now }
        ensures small { result < 2 ^ 60 }
    {
        self.count
    }

    /// Lets only the first `len` names count.
    pub(crate) fn cut(&mut self, len: usize)
        requires { len ≤ length self.old }
        ensures { self.new ≡ take len self.old }
    {
        self.count = len;
    }
}
