//! Names with values, found by an index.
ghost use Rattle.std.specs.Prelude.{◌≡◌, ◌≤◌, ◌<◌, [], ◌∷◌, ◌++◌, ◌^◌, List, ℕ, length, take, option_map, MatchResult, IfOk, OnOk, OnErr, IsSome, Some, vec_len, vec_capacity, bytes_eq, if◌then◌else◌};
ghost use Rattle.std.specs.BTreeMap.{IsUnchanged};
ghost use Rattle.std.specs.Cow.{cow_str_bytes};
ghost use Rattle.feel_text.specs.Meaning.{bound};
ghost use Rattle.feel_eval.specs.Index.{place_in};

use feel_value::Feel;
use std::alloc::{AllocError, Global};
use std::borrow::CowStr;
use std::collections::BTreeMap;
use std::marker::Model;

// A name with its value.
#[derive(Drop)]
struct Binding<'a> {
    name: CowStr<'a>,
    value: Feel,
    // Where the binding stands that this one hides.
    hidden: Option<usize>,
}

/// A list of names with values, of which the last binding of a name counts.
///
/// Binding, finding and cutting off one name take steps in proportion to the logarithm of how many names there are.
#[derive(Drop)]
pub(crate) struct Indexed<'a> {
    bindings: Vec<Binding<'a>>,
    // Where the last binding of each name stands.
    places: BTreeMap<CowStr<'a>, usize>,
}

impl<'a> Model for Indexed<'a> {
    ghost use Rattle.std.specs.Prelude.{List, ℕ};
    ghost use Rattle.std.specs.Coded.{coded_list, coded×, coded_ℕ};
    ghost use Rattle.feel_value.specs.Datum.{Datum};
    ghost use Rattle.feel_value.specs.Code.{datum_code};

    ghost Value = { List (List ℕ × Datum) };

    ghost coded = { coded_list (coded× (coded_list coded_ℕ) datum_code) };

    ghost use Rattle.feel_eval.specs.Index.{bindings_of, name_of, value_of, hidden_of, place_in, IsIndexed};

    ghost view = { λ e. bindings_of e.bindings.items };

    ghost invariant = { λ e. IsIndexed name_of value_of hidden_of e.bindings.items (place_in e.places) };
}

impl<'a> Indexed<'a> {
    /// No names. It takes no memory, and keeps the allocator for its bindings.
    pub(crate) fn new(alloc: Global) -> Indexed<'a>
        ensures { result ≡ [] }
    {
        Indexed {
            bindings: Vec::new(alloc),
            places: BTreeMap::new(alloc),
        }
    }

    /// Binds a name to a value, which hides what the name was bound to before. Where memory is refused nothing changes,
    /// and the value is gone.
    pub(crate) fn bind(&mut self, name: CowStr<'a>, value: Feel) -> Result<(), AllocError>
        ensures { MatchResult result (λ _. self.new ≡ self.old ++ (cow_str_bytes name.entry, value) ∷ []) (λ _. self.new ≡ self.old) }
    {
        let hidden = placed(&mut self.bindings, &mut self.places, &name)?;
        self.bindings.push(Binding {
            name,
            value,
            hidden,
        })?;
        Ok(())
    }

    /// The value of the last binding of the name.
    pub(crate) fn find(&self, name: &str) -> Option<&Feel>
        ensures { option_map (λ v. v.now) result ≡ bound name.now self.now }
    {
        let place = *self.places.get(name)?;
        Some(&self.bindings[place].value)
    }

    /// How many bindings there are, hidden ones included.
    pub(crate) fn len(&self) -> usize
        ensures number { result ≡ length self.now }
        ensures small { result < 2 ^ 63 }
    {
        self.bindings.len()
    }

    /// Drops all bindings but the first `len`; what they hid counts again. It takes no memory.
    pub(crate) fn cut(&mut self, len: usize)
        requires { len ≤ length self.old }
        ensures { self.new ≡ take len self.old }
    {
        while self.bindings.len() > len {
            if let Some(binding) = self.bindings.pop() {
                let Binding {
                    name,
                    value,
                    hidden,
                } = binding;
                drop(value);
                uncover(&mut self.places, name, hidden);
            }
        }
    }
}

/// Gives the name the place behind the items, where there is then room. Tells the place that it had.
fn placed<'a, T>(
    items: &mut Vec<T>,
    places: &mut BTreeMap<CowStr<'a>, usize>,
    name: &CowStr<'a>,
) -> Result<Option<usize>, AllocError>
    ensures items { items.new.items ≡ items.old.items }
    ensures room { OnOk result (vec_len items.new < vec_capacity items.new) }
    ensures hidden { IfOk result (λ p. p ≡ place_in places.old (cow_str_bytes name.now)) }
    ensures place { OnOk result ((other : List ℕ) → place_in places.new other ≡ (if bytes_eq (cow_str_bytes name.now) other then Some (length items.old.items) else place_in places.old other)) }
    ensures refused { OnErr result (IsUnchanged places.old places.new) }
{
    let key = name.clone()?;
    items.reserve(1)?;
    let hidden = places.insert(key, items.len())?;
    Ok(hidden)
}

// Gives the name the place that its last binding has hidden, where there is one.
fn uncover<'a>(places: &mut BTreeMap<CowStr<'a>, usize>, name: CowStr<'a>, hidden: Option<usize>)
    requires { IsSome (place_in places.old (cow_str_bytes name)) }
    ensures { (other : List ℕ) → place_in places.new other ≡ (if bytes_eq (cow_str_bytes name.entry) other then hidden else place_in places.old other) }
{
    match hidden {
        // The name is there, so this takes no memory.
        Some(place) => drop(places.insert(name, place)),
        None => drop(places.remove(name.as_str())),
    }
}
