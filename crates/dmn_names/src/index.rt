//! Where names stand in a list.
ghost use Rattle.std.specs.Prelude.{◌≡◌, ℕ, List, IfOk, OnOk, IsTrue, bytes_eq, map};
ghost use Rattle.std.specs.BTreeMap.{get_by_text};
ghost use Rattle.feel_text.specs.NameOrder.{IsInOrder, IsNameAt};
ghost use Rattle.dmn_names.specs.Index.{names_in, first_of, place_if, AreFirstPlaces};
ghost use Rattle.dmn_names.specs.Places.{place_among};

use crate::named::Named;
use feel_lang::{found_by_halves, order_by_name};
use std::alloc::{AllocError, Global};
use std::collections::BTreeMap;
use std::marker::Model;

/// By what the place of a name is found.
#[derive(Drop)]
enum Order {
    /// No name stands twice: the places of all, in the order of their names.
    OfAll(Vec<usize>),
    /// Some name stands twice: the first place of each.
    OfFirst(BTreeMap<String, usize>),
}

/// Names in a list. One is found in steps in proportion to the logarithm of how many there are, and in a few steps where its
/// place was guessed and no name stands twice.
#[derive(Drop)]
pub(crate) struct Index<'a> {
    names: Vec<&'a str>,
    order: Order,
}

impl<'a> Model for Index<'a> {
    ghost use Rattle.std.specs.Prelude.{List, ℕ};
    ghost use Rattle.std.specs.Coded.{coded_list, coded_ℕ};

    ghost Value = { List (List ℕ) };

    ghost coded = { coded_list (coded_list coded_ℕ) };

    ghost use Rattle.dmn_names.specs.Index.{names_in, IsIndexed};

    ghost view = { λ i. names_in i.names.items };

    ghost invariant = { λ i. IsIndexed (names_in i.names.items) i.order };
}

/// The names of these.
fn names_of<'a, T: Named>(alloc: Global, items: &'a [T]) -> Result<Vec<&'a str>, AllocError>
    ensures { IfOk result (λ v. names_in v.items ≡ map T.name_of items.now) }
{
    let mut names = Vec::with_capacity(alloc, items.len())?;
    for item in items {
        names.push(item.name())?;
    }
    Ok(names)
}

/// Whether the name stands at this place.
fn is_at(names: &[&str], place: usize, name: &str) -> bool
    ensures { IsTrue result → IsNameAt (names_in names.now) name.now place }
{
    match names.get(place) {
        Some(other) => *other == name,
        None => false,
    }
}

/// Puts in a name with its place, unless the name is there.
fn put_first(
    alloc: Global,
    places: &mut BTreeMap<String, usize>,
    name: &str,
    place: usize,
) -> Result<(), AllocError>
    ensures { OnOk result ((other : List ℕ) → get_by_text places.new other ≡ first_of (get_by_text places.old other) (place_if (bytes_eq name.now other) place)) }
{
    if !places.contains_key(name) {
        let key = String::from_str(alloc, name)?;
        places.insert(key, place)?;
    }
    Ok(())
}

/// The first place of each of these names.
fn first_places(alloc: Global, names: &[&str]) -> Result<BTreeMap<String, usize>, AllocError>
    ensures { IfOk result (AreFirstPlaces (names_in names.now)) }
{
    let mut places = BTreeMap::new(alloc);
    for (place, name) in names.iter().enumerate() {
        put_first(alloc, &mut places, name, place)?;
    }
    Ok(places)
}

/// The place of a name among names that are in this order.
fn place_in_order(names: &[&str], order: &[usize], name: &str) -> Option<usize>
    requires { IsInOrder (names_in names.now) order.now }
    ensures { result ≡ place_among (names_in names.now) name.now }
{
    found_by_halves(names, order, name)
}

/// The same, looked for first where it is guessed to be.
fn place_near(names: &[&str], order: &[usize], guess: usize, name: &str) -> Option<usize>
    requires { IsInOrder (names_in names.now) order.now }
    ensures { result ≡ place_among (names_in names.now) name.now }
{
    if is_at(names, guess, name) {
        return Some(guess);
    }
    place_in_order(names, order, name)
}

impl<'a> Index<'a> {
    /// The names of these, in the order in which they stand.
    pub(crate) fn of<T: Named>(alloc: Global, items: &'a [T]) -> Result<Index<'a>, AllocError>
        ensures { IfOk result (λ i. i ≡ map T.name_of items.now) }
    {
        let names = names_of(alloc, items)?;
        let Some(order) = order_by_name(alloc, &names)? else {
            let places = first_places(alloc, &names)?;
            let order = Order::OfFirst(places);
            return Ok(Index { names, order });
        };
        let order = Order::OfAll(order);
        Ok(Index { names, order })
    }

    /// The place of a name; where it stands twice, the first. It is looked for first where it is guessed to be.
    pub(crate) fn place(&self, guess: usize, name: &str) -> Option<usize>
        ensures { result ≡ place_among self.now name.now }
    {
        match &self.order {
            Order::OfFirst(places) => places.get(name).copied(),
            Order::OfAll(order) => place_near(&self.names, order, guess, name),
        }
    }
}
