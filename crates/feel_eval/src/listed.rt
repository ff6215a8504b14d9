//! Values of names that are known beforehand, each found by the position of its name.
ghost use Rattle.std.specs.Prelude.{◌≡◌, ◌≤◌, ◌<◌, [], ◌∷◌, ◌++◌, ◌^◌, ℕ, Some, length, take, option_map, slice_index_or, MatchOption, MatchResult, OnOk};
ghost use Rattle.feel_text.specs.Meaning.{bound};
ghost use Rattle.feel_text.specs.Places.{last_place};
ghost use Rattle.feel_eval.specs.Listed.{listed_of, AreListed};

use feel_text::{Needs, Reference};
use feel_value::{Feel, Value};
use std::alloc::{AllocError, Global};
use std::marker::Model;
use std::mem::forget;

// More bindings lie in no memory that a machine can address.
const MOST_BINDINGS: usize = 1 << 60;

// The value of the name at a position.
#[derive(Drop)]
struct Placed {
    value: Feel,
    position: usize,
    // The number of the binding that this one hides, counted from 1; 0 where it hides none.
    hidden: usize,
}

/// Names of a list that are bound to values, of which the last binding of a name counts.
///
/// Binding, finding and cutting off a name take the same few steps however many there are, where the position of the name is
/// known, or it comes in the order of the list.
#[derive(Drop)]
pub(crate) struct Listed<'a> {
    scope: &'a Needs,
    bindings: Vec<Placed>,
    // At the position of each name the number of its last binding; 0 where it has none. There are none before the first
    // binding.
    slots: Vec<usize>,
    // Where a name is looked for first.
    next: usize,
}

impl<'a> Model for Listed<'a> {
    ghost use Rattle.std.specs.Prelude.{List, ℕ};
    ghost use Rattle.std.specs.Coded.{coded_list, coded×, coded_ℕ};
    ghost use Rattle.feel_value.specs.Datum.{Datum};
    ghost use Rattle.feel_value.specs.Code.{datum_code};

    ghost Value = { List (List ℕ × Datum) };

    ghost coded = { coded_list (coded× (coded_list coded_ℕ) datum_code) };

    ghost use Rattle.feel_eval.specs.Listed.{listed_of, AreListed};

    ghost view = { λ l. listed_of l.scope.now l.bindings.items };

    ghost invariant = { λ l. AreListed l.scope.now l.bindings.items l.slots.items };
}

impl<'a> Listed<'a> {
    /// No name is bound. It takes no memory, and keeps the allocator for its bindings.
    pub(crate) fn new(alloc: Global, scope: &'a Needs) -> Listed<'a>
        ensures { result ≡ [] }
    {
        Listed {
            scope,
            bindings: Vec::new(alloc),
            slots: Vec::new(alloc),
            next: 0,
        }
    }

    /// Binds a name of the list to a value, which hides what the name was bound to before. The value of any other name comes
    /// back. Where memory is refused nothing changes, and the value is gone.
    #[inline(always)]
    pub(crate) fn bind(&mut self, name: &str, value: Feel) -> Result<Option<Feel>, AllocError>
        ensures { MatchResult result (λ left. MatchOption left (self.new ≡ self.old ++ (name.now, value) ∷ []) (λ v. (self.new ≡ self.old) × (v ≡ value))) (λ _. self.new ≡ self.old) }
    {
        let Some(position) = position_from(self.scope, self.next, name) else {
            return Ok(Some(value));
        };
        let count = self.bindings.len();
        if count >= MOST_BINDINGS {
            return Err(AllocError);
        }
        make_room(&mut self.bindings, &mut self.slots, self.scope.len())?;
        let hidden = self.slots[position];
        self.bindings.push(Placed {
            value,
            position,
            hidden,
        })?;
        self.slots[position] = count + 1;
        self.next = position + 1;
        Ok(None)
    }

    /// The value of the last binding of the name.
    pub(crate) fn find(&self, name: &str) -> Option<&Feel>
        ensures { option_map (λ v. v.now) result ≡ bound name.now self.now }
    {
        let position = self.scope.position(name)?;
        value_at(self.scope, &self.bindings, &self.slots, position, name)
    }

    /// The same of a name as it stands in a text.
    #[inline(always)]
    pub(crate) fn find_at(&self, reference: &Reference) -> Option<&Feel>
        ensures { option_map (λ v. v.now) result ≡ bound reference.now.name self.now }
    {
        let name = &reference.name;
        if let Some(position) = reference.position {
            if self.scope.stands_at_once(position, name) {
                return value_at(
                    self.scope,
                    &self.bindings,
                    &self.slots,
                    position,
                    name.as_str(),
                );
            }
        }
        self.find_by_bytes(reference)
    }

    // The same, where the bytes of the name are looked at.
    #[inline(never)]
    fn find_by_bytes(&self, reference: &Reference) -> Option<&Feel>
        ensures { option_map (λ v. v.now) result ≡ bound reference.now.name self.now }
    {
        let name = &reference.name;
        if let Some(position) = reference.position {
            if self.scope.stands_at(position, name) {
                return value_at(
                    self.scope,
                    &self.bindings,
                    &self.slots,
                    position,
                    name.as_str(),
                );
            }
        }
        self.find(name.as_str())
    }

    /// How many bindings there are, hidden ones included.
    pub(crate) fn len(&self) -> usize
        ensures number { result ≡ length self.now }
        ensures small { result ≤ 2 ^ 60 }
    {
        self.bindings.len()
    }

    /// Drops all bindings but the first `len`; what they hid counts again. It takes no memory.
    pub(crate) fn cut(&mut self, len: usize)
        requires { len ≤ length self.old }
        ensures { self.new ≡ take len self.old }
    {
        while self.bindings.len() > len {
            if let Some(binding) = self.bindings.pop() {
                let Placed {
                    value,
                    position,
                    hidden,
                } = binding;
                let_go(value);
                self.slots[position] = hidden;
                self.next = position;
            }
        }
    }
}

// Where the name stands in a list, which is known at once where it stands at this position.
#[inline(always)]
fn position_from(scope: &Needs, position: usize, name: &str) -> Option<usize>
    ensures { result ≡ last_place name.now scope.now }
{
    if scope.is_at(position, name) {
        return Some(position);
    }
    scope.position(name)
}

// The value of the last binding of the name that stands at this position.
#[inline(always)]
fn value_at<'b>(
    scope: &Needs,
    bindings: &'b Vec<Placed>,
    slots: &Vec<usize>,
    position: usize,
    name: &str,
) -> Option<&'b Feel>
    requires listed { AreListed scope.now bindings.now.items slots.now.items }
    requires position { last_place name.now scope.now ≡ Some position }
    ensures { option_map (λ v. v.now) result ≡ bound name.now (listed_of scope.now bindings.now.items) }
{
    let number = slot(slots, position);
    if number == 0 {
        return None;
    }
    Some(&bindings[number - 1].value)
}

// What lies in a slot; 0 where there is none.
#[inline(always)]
fn slot(slots: &Vec<usize>, position: usize) -> usize
    ensures { result ≡ slice_index_or slots.now.items position 0 }
{
    match slots.get(position) {
        Some(slot) => *slot,
        None => 0,
    }
}

// Makes so many slots, and room for as many items. There is nothing in new slots.
#[inline(always)]
fn make_room<T>(items: &mut Vec<T>, slots: &mut Vec<usize>, count: usize) -> Result<(), AllocError>
    ensures items { items.new.items ≡ items.old.items }
    ensures same { (i : ℕ) → slice_index_or slots.new.items i 0 ≡ slice_index_or slots.old.items i 0 }
    ensures count { OnOk result (count ≤ length slots.new.items) }
{
    if slots.len() >= count {
        return Ok(());
    }
    make_all(items, slots, count)
}

#[inline(never)]
fn make_all<T>(items: &mut Vec<T>, slots: &mut Vec<usize>, count: usize) -> Result<(), AllocError>
    requires { length slots.old.items < count }
    ensures items { items.new.items ≡ items.old.items }
    ensures same { (i : ℕ) → slice_index_or slots.new.items i 0 ≡ slice_index_or slots.old.items i 0 }
    ensures count { OnOk result (count ≤ length slots.new.items) }
{
    items.reserve(count)?;
    slots.resize(count, 0)?;
    Ok(())
}

// Lets a value go. One that is on no heap takes no call.
#[inline(always)]
fn let_go(value: Feel) {
    if is_on_no_heap(&value) {
        forget(value);
        return;
    }
    drop(value);
}

#[inline(always)]
fn is_on_no_heap(value: &Feel) -> bool {
    matches!(
        value.value(),
        Value::Null | Value::Bool(_) | Value::Number(_)
    )
}
