//! Values within the limits of the profile.
ghost use Rattle.std.specs.Prelude.{option_map, ◌≡◌, ◌+◌, ◌≤◌, ◌&&◌, nat_le, true, Some, None, if◌then◌else◌, is_some, IfOk, IfSome};
ghost use Rattle.serde_json.specs.View.{view};
ghost use Rattle.feel_value.specs.Faults.{json_reading, IsDueUnlessMemory};
ghost use Rattle.feel_value.specs.Json.{json_of};
ghost use Rattle.feel_value.specs.Limits.{is_value, names_differ, nodes, depth, most_nodes, most_depth};
ghost use Rattle.feel_value.specs.Datum.{list, context};
ghost use Rattle.feel_value.specs.Sizes.{size as size_of_datum, IsGrown};
ghost use Rattle.feel_value.specs.View.{datum_of, items_view, entries_view};

use crate::copy::copy;
use crate::fault::ValueFault;
use crate::json::{read, write};
use crate::limits::is_in_range;
use crate::logic::Truth;
use crate::size::Size;
use crate::sizes::size_of_entries;
use crate::value::{Value, ValueContext, ValueList};
use std::alloc::{AllocError, Global};
use std::marker::Model;
use std::sync::{Arc, ArcStr};

/// A value that keeps the limits, and whose contexts have distinct names.
///
/// A number is at most 9223372036854775807 and at least its opposite, there are at most 10,000 nodes, and the depth is at
/// most 100. No call on a `Feel` goes deeper than that.
#[derive(Drop)]
pub struct Feel {
    value: Value,
}

impl Model for Feel {
    ghost use Rattle.std.specs.Prelude.{◌≡◌, true};
    ghost use Rattle.feel_value.specs.Datum.{Datum};
    ghost use Rattle.feel_value.specs.Code.{datum_code};

    ghost Value = { Datum };

    ghost coded = { datum_code };

    ghost use Rattle.feel_value.specs.Limits.{is_value};
    ghost use Rattle.feel_value.specs.View.{datum_of};

    ghost view = { λ f. datum_of f.value };

    ghost invariant = { λ f. is_value (datum_of f.value) ≡ true };
}

impl Feel {
    /// The value, where it keeps the limits and each context has distinct names.
    ///
    /// The time is constant, since each list and each context keeps its size.
    pub fn of(value: Value) -> Option<Feel>
        ensures { result ≡ (if is_value (datum_of value) then Some (datum_of value) else None) }
    {
        if value.is_lawful() {
            Some(Feel { value })
        } else {
            None
        }
    }

    // The list of these members, which is a value of that size.
    pub(crate) fn of_members(
        alloc: Global,
        members: Vec<Value>,
        size: Size,
    ) -> Result<Feel, AllocError>
        requires lawful { is_value (list (items_view members.items)) ≡ true }
        requires size { size ≡ size_of_datum (list (items_view members.items)) }
        ensures { IfOk result (λ f. f ≡ list (items_view members.items)) }
    {
        let list = ValueList::of_size(members, Some(size));
        let value = Value::List(Arc::new(alloc, list)?);
        Ok(Feel { value })
    }

    // The context of these entries, which is a value of that size.
    pub(crate) fn of_entries(
        alloc: Global,
        entries: Vec<(ArcStr, Value)>,
        size: Size,
    ) -> Result<Feel, AllocError>
        requires lawful { is_value (context (entries_view entries.items)) ≡ true }
        requires size { size ≡ size_of_datum (context (entries_view entries.items)) }
        ensures { IfOk result (λ f. f ≡ context (entries_view entries.items)) }
    {
        let context = ValueContext::of_size(entries, Some(size));
        let value = Value::Context(Arc::new(alloc, context)?);
        Ok(Feel { value })
    }

    /// The value that a JSON value stands for. An object is a context of its members in the order of their keys.
    ///
    /// `Number` where some number is no whole number in range, otherwise `Size` where there are too many nodes or they are too
    /// deep. The time is linear in the size of the JSON value, whose keys need no search.
    pub fn from_json(alloc: Global, json: &serde_json::Value) -> Result<Feel, ValueFault>
        ensures { IsDueUnlessMemory result (json_reading (view json.now)) }
    {
        let value = read(alloc, json)?;
        if !value.is_lawful() {
            return Err(ValueFault::Size);
        }
        Ok(Feel { value })
    }

    /// The same value in JSON, with each context as an object.
    pub fn to_json(&self, alloc: Global) -> Result<serde_json::Value, AllocError>
        ensures { IfOk result (λ j. view j ≡ json_of self.now) }
    {
        write(alloc, self.value())
    }

    // A copy of a part of a value.
    pub(crate) fn copy_of(part: &Value) -> Result<Feel, AllocError>
        requires { is_value (datum_of part.now) ≡ true }
        ensures { IfOk result (λ f. f ≡ datum_of part.now) }
    {
        let value = copy(part)?;
        Ok(Feel { value })
    }

    /// A copy, which shares its texts, lists and contexts with this value. The time is constant.
    pub fn try_clone(&self) -> Result<Feel, AllocError>
        ensures { IfOk result (λ f. f ≡ self.now) }
    {
        let value = copy(&self.value)?;
        Ok(Feel { value })
    }

    // The size of a list or a context that takes this value as one part more, where it is none too large and none too deep.
    pub(crate) fn grown(&self, whole: Size) -> Option<Size>
        ensures within { is_some result ≡ (nat_le (1 + depth self.now) most_depth && nat_le (whole.nodes + nodes self.now) most_nodes) }
        ensures size { IfSome result (λ s. IsGrown whole self.now s) }
        ensures lawful { is_value self.now ≡ true }
    {
        whole.grown(self.value.size()?)
    }

    /// The value itself.
    pub fn value(&self) -> &Value
        ensures same { datum_of result.now ≡ self.now }
        ensures lawful { is_value self.now ≡ true }
    {
        &self.value
    }

    /// The value itself, no longer held to the limits.
    pub fn into_value(self) -> Value
        ensures same { datum_of result ≡ self }
        ensures lawful { is_value self ≡ true }
    {
        let Feel { value } = self;
        value
    }
}

/// What an evaluation gives: a value, or that a limit was broken.
#[derive(Drop)]
pub enum Outcome {
    Is(Feel),
    Limit,
}

impl Outcome {
    ghost use Rattle.feel_value.specs.Datum.{null, number, list, context};
    ghost use Rattle.feel_value.specs.Logic.{truth_datum};
    ghost use Rattle.feel_value.specs.Found.{value_of};
    ghost use Rattle.feel_value.specs.Outcome.{held};
    ghost use Rattle.feel_value.specs.declared.feel.Outcome.TheVariants.{Is};
    ghost use Rattle.feel_value.specs.View.{items_view, entries_view};

    /// Null.
    pub fn null() -> Outcome
        ensures { result ≡ Is null }
    {
        Outcome::Is(Feel { value: Value::Null })
    }

    /// The number held against the range.
    pub fn number(n: i64) -> Outcome
        ensures { result ≡ held (number n) }
    {
        if is_in_range(n) {
            Outcome::Is(Feel {
                value: Value::Number(n),
            })
        } else {
            Outcome::Limit
        }
    }

    /// A truth value as a value.
    pub fn truth(truth: Truth) -> Outcome
        ensures { result ≡ Is (truth_datum truth) }
    {
        let value = match truth {
            Truth::Yes => Value::Bool(true),
            Truth::No => Value::Bool(false),
            Truth::Unknown => Value::Null,
        };
        Outcome::Is(Feel { value })
    }

    /// The list of the members, held against the limits.
    pub fn list(alloc: Global, members: Vec<Value>) -> Result<Outcome, AllocError>
        ensures { IfOk result (λ o. o ≡ held (list (items_view members.items))) }
    {
        Ok(Outcome::of(Value::list(alloc, members)?))
    }

    /// The context of the entries, in their order, held against the limits.
    pub fn context(alloc: Global, entries: Vec<(ArcStr, Value)>) -> Result<Outcome, AllocError>
        ensures { IfOk result (λ o. o ≡ held (context (entries_view entries.items))) }
    {
        Ok(Outcome::of(Value::context(alloc, entries)?))
    }

    /// The same of entries whose names are known to be distinct: they are not compared.
    pub fn context_of_distinct(
        alloc: Global,
        entries: Vec<(ArcStr, Value)>,
    ) -> Result<Outcome, AllocError>
        requires { names_differ (entries_view entries.items) ≡ true }
        ensures { IfOk result (λ o. o ≡ held (context (entries_view entries.items))) }
    {
        let Some(size) = size_of_entries(&entries) else {
            return Ok(Outcome::Limit);
        };
        let value = Feel::of_entries(alloc, entries, size)?;
        Ok(Outcome::Is(value))
    }

    /// The value, unless a limit was broken.
    pub fn value(&self) -> Option<&Feel>
        ensures { option_map (λ v. v.now) result ≡ value_of self.now }
    {
        match self {
            Outcome::Is(value) => Some(value),
            Outcome::Limit => None,
        }
    }

    /// The value held against the limits.
    pub fn of(value: Value) -> Outcome
        ensures { result ≡ held (datum_of value) }
    {
        match Feel::of(value) {
            Some(value) => Outcome::Is(value),
            None => Outcome::Limit,
        }
    }
}
