//! Whether a name stands twice where it may stand once.
ghost use Rattle.std.specs.Prelude.{◌≡◌, IfOk, map};
ghost use Rattle.dmn_form.specs.ModelView.{model_view};
ghost use Rattle.feel_value.specs.Distinct.{is_among};
ghost use Rattle.dmn_names.specs.Rising.{are_rising as names_rise};
ghost use Rattle.dmn_names.specs.Names.{have_twice as twice_among, has_name_twice as name_twice_in};
ghost use Rattle.dmn_names.specs.Parts.{value_names};

use crate::named::{Named, names_of_values};
use crate::walk::{Question, is_in_model};
use dmn_form::WrittenModel;
use feel_lang::compare_names;
use std::alloc::{AllocError, Global};
use std::collections::BTreeSet;

// Up to so many names are compared each with each, which takes no memory.
const FEW: usize = 8;

/// Whether each name comes behind the one before it.
fn are_rising<T: Named>(items: &[T]) -> bool
    ensures { result ≡ names_rise (map T.name_of items.now) }
{
    let Some((first, others)) = items.split_first() else {
        return true;
    };
    let mut last = first.name();
    for item in others {
        let name = item.name();
        if !compare_names(last, name).is_lt() {
            return false;
        }
        last = name;
    }
    true
}

/// Whether one of these has the name.
fn is_name_of_one<T: Named>(items: &[T], name: &str) -> bool
    ensures { result ≡ is_among (map T.name_of items.now) name.now }
{
    for item in items {
        if name == item.name() {
            return true;
        }
    }
    false
}

/// Whether two of these have one name, each compared with each.
fn few_have_twice<T: Named>(items: &[T]) -> bool
    ensures { result ≡ twice_among (map T.name_of items.now) }
{
    for (place, item) in items.iter().enumerate() {
        let (_, others) = items.split_at(place + 1);
        if is_name_of_one(others, item.name()) {
            return true;
        }
    }
    false
}

/// Whether two of these have one name, by a set of the names that were seen.
fn many_have_twice<T: Named>(alloc: Global, items: &[T]) -> Result<bool, AllocError>
    ensures { IfOk result (λ b. b ≡ twice_among (map T.name_of items.now)) }
{
    let mut seen = BTreeSet::new(alloc);
    for item in items {
        let is_new = seen.insert(item.name())?;
        if !is_new {
            return Ok(true);
        }
    }
    Ok(false)
}

/// Whether two of these have one name.
pub fn have_twice<T: Named>(alloc: Global, items: &[T]) -> Result<bool, AllocError>
    ensures { IfOk result (λ b. b ≡ twice_among (map T.name_of items.now)) }
{
    if are_rising(items) {
        return Ok(false);
    }
    if items.len() <= FEW {
        return Ok(few_have_twice(items));
    }
    let is_twice = many_have_twice(alloc, items)?;
    Ok(is_twice)
}

/// Whether a name stands twice in a list.
#[derive(Drop)]
struct HasTwice {
    alloc: Global,
}

impl Question for HasTwice {
    type Error = AllocError;

    ghost use Rattle.dmn_names.specs.Names.{have_twice as twice_among};

    ghost is_so = { twice_among };

    fn is_so_of<T: Named>(&self, items: &[T]) -> Result<bool, AllocError> {
        let is_twice = have_twice(self.alloc, items)?;
        Ok(is_twice)
    }
}

/// Whether two inputs, two decisions, or an input and a decision have one name.
fn values_have_twice(alloc: Global, model: &WrittenModel) -> Result<bool, AllocError>
    ensures { IfOk result (λ b. b ≡ twice_among (value_names (model_view model.now))) }
{
    let names = names_of_values(alloc, model)?;
    let is_twice = have_twice(alloc, &names)?;
    Ok(is_twice)
}

/// Whether a name stands twice among the inputs and decisions together, among the services, among the needs of a decision,
/// in one list of a service, among the entries of one context or among the outputs of one table. The steps are in
/// proportion to how many names there are, times the logarithm of that.
pub fn has_name_twice(alloc: Global, model: &WrittenModel) -> Result<bool, AllocError>
    ensures { IfOk result (λ b. b ≡ name_twice_in (model_view model.now)) }
{
    if values_have_twice(alloc, model)? {
        return Ok(true);
    }
    let is_twice = is_in_model(&HasTwice { alloc }, model)?;
    Ok(is_twice)
}
