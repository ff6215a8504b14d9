//! Names with what they can stand for, found by an index.
ghost use Rattle.std.specs.Prelude.{◌≡◌, ◌≤◌, ◌<◌, [], ◌∷◌, ◌++◌, ◌^◌, List, ℕ, length, take, IfOk, OnOk, OnErr, IsSome, Some, vec_len, vec_capacity, bytes_eq, if◌then◌else◌};
ghost use Rattle.std.specs.BTreeMap.{IsUnchanged};
ghost use Rattle.std.specs.Cow.{cow_str_bytes};
ghost use Rattle.feel_eval.specs.Index.{place_in};
ghost use Rattle.dmn_ranges.specs.Names.{members_if};
ghost use Rattle.dmn_ranges.specs.Ranges.{extent_named, scope as scope_of};

use crate::range::{NamedRange, ParameterRange, Range};
use std::alloc::{AllocError, Global};
use std::borrow::CowStr;
use std::collections::BTreeMap;
use std::marker::Model;

// A name with its range.
#[derive(Drop)]
struct Binding<'a> {
    name: CowStr<'static>,
    range: Range,
    // The parameter that it stands for, if it does.
    parameter: Option<&'a ParameterRange>,
    // Where the binding is that this one hides.
    hidden: Option<usize>,
}

/// A list of names with what they can stand for, of which the last of a name counts.
///
/// Binding a name, finding one and cutting one off take steps in proportion to the logarithm of how many names there are.
#[derive(Drop)]
pub(crate) struct Names<'a> {
    bindings: Vec<Binding<'a>>,
    // Where the last binding of each name is.
    places: BTreeMap<CowStr<'static>, usize>,
}

impl<'a> Model for Names<'a> {
    ghost use Rattle.std.specs.Prelude.{List, ℕ};
    ghost use Rattle.dmn_ranges.specs.Ranges.{Scope};
    ghost use Rattle.dmn_ranges.specs.Names.{coded_scope, scope_of, name_of, no_value, hidden_of};
    ghost use Rattle.feel_eval.specs.Index.{place_in, IsIndexed};

    ghost Value = { Scope };

    ghost coded = { coded_scope };

    ghost view = { λ e. scope_of e.bindings.items };

    ghost invariant = { λ e. IsIndexed name_of no_value hidden_of e.bindings.items (place_in e.places) };
}

impl<'a> Names<'a> {
    /// No names.
    pub(crate) fn new(alloc: Global) -> Names<'a>
        ensures { result ≡ [] }
    {
        Names {
            bindings: Vec::new(alloc),
            places: BTreeMap::new(alloc),
        }
    }

    /// These names.
    pub(crate) fn listed(alloc: Global, names: &[NamedRange]) -> Result<Names<'a>, AllocError>
        ensures { IfOk result (λ n. n ≡ scope_of names.now) }
    {
        let mut listed = Names::new(alloc);
        for one in names {
            listed.bind(alloc, one.name.as_str(), one.range, None)?;
        }
        Ok(listed)
    }

    /// Binds a name, which hides what the name was bound to before.
    pub(crate) fn bind(
        &mut self,
        alloc: Global,
        name: &str,
        range: Range,
        parameter: Option<&'a ParameterRange>,
    ) -> Result<(), AllocError>
        ensures { OnOk result (self.new ≡ self.old ++ (name.now, (range, members_if parameter.entry)) ∷ []) }
    {
        let text = String::from_str(alloc, name)?;
        let name = CowStr::Owned(text);
        let hidden = placed(&mut self.bindings, &mut self.places, &name)?;
        self.bindings.push(Binding {
            name,
            range,
            parameter,
            hidden,
        })?;
        Ok(())
    }

    /// What a name stands for; null where it is bound to nothing.
    pub(crate) fn range(&self, name: &str) -> Range
        ensures { result ≡ (extent_named self.now name.now).0 }
    {
        match self.places.get(name) {
            Some(place) => self.bindings[*place].range,
            None => Range::null(),
        }
    }

    /// The parameter that a name stands for, if it does.
    pub(crate) fn parameter(&self, name: &str) -> Option<&'a ParameterRange>
        ensures { members_if result ≡ (extent_named self.now name.now).1 }
    {
        match self.places.get(name) {
            Some(place) => self.bindings[*place].parameter,
            None => None,
        }
    }

    /// How many bindings there are, hidden ones included.
    pub(crate) fn len(&self) -> usize
        ensures { result ≡ length self.now }
    {
        self.bindings.len()
    }

    /// Drops all bindings but the first `len`; what they hid counts again.
    pub(crate) fn cut(&mut self, len: usize)
        requires { len ≤ length self.old }
        ensures { self.new ≡ take len self.old }
    {
        while self.bindings.len() > len {
            if let Some(binding) = self.bindings.pop() {
                let Binding {
                    name,
                    range: _,
                    parameter: _,
                    hidden,
                } = binding;
                uncover(&mut self.places, name, hidden);
            }
        }
    }
}

// Gives the name the place behind the items, where there is then room. Answers the place that it had.
fn placed(
    items: &mut Vec<Binding<'_>>,
    places: &mut BTreeMap<CowStr<'static>, usize>,
    name: &CowStr<'static>,
) -> Result<Option<usize>, AllocError>
    ensures items { items.new.items ≡ items.old.items }
    ensures room { OnOk result (vec_len items.new < vec_capacity items.new) }
    ensures hidden { IfOk result (λ p. p ≡ place_in places.old (cow_str_bytes name.now)) }
    ensures place { OnOk result ((other : List ℕ) → place_in places.new other ≡ (if bytes_eq (cow_str_bytes name.now) other then Some (length items.old.items) else place_in places.old other)) }
    ensures refused { OnErr result (IsUnchanged places.old places.new) }
{
    let key = name.clone()?;
    items.reserve(1)?;
    let hidden = places.insert(key, items.len())?;
    Ok(hidden)
}

// Gives the name the place that its last binding has hidden, where there is one.
fn uncover(
    places: &mut BTreeMap<CowStr<'static>, usize>,
    name: CowStr<'static>,
    hidden: Option<usize>,
)
    requires { IsSome (place_in places.old (cow_str_bytes name)) }
    ensures { (other : List ℕ) → place_in places.new other ≡ (if bytes_eq (cow_str_bytes name.entry) other then hidden else place_in places.old other) }
{
    match hidden {
        // The name is there, so this takes no memory.
        Some(place) => drop(places.insert(name, place)),
        None => drop(places.remove(name.as_str())),
    }
}
