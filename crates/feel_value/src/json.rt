//! Values from JSON, and JSON from values.
ghost use Rattle.std.specs.Prelude.{◌≡◌, true, IfOk, OnOk, Some, MatchResult};
ghost use Rattle.serde_json.specs.View.{view as json_view, number_view, items_view as json_items_view, members_view as json_members_view};
ghost use Rattle.serde_json.specs.Data.{number as json_number};
ghost use Rattle.feel_value.specs.Json.{value_of_json, items_of_json, entries_of_json, json_of, json_items, json_members};
ghost use Rattle.feel_value.specs.JsonKeys.{keys_rise, items_rise, in_order, members_rise};
ghost use Rattle.feel_value.specs.ReadFaults.{IsNumberOrMemory};
ghost use Rattle.feel_value.specs.View.{datum_of, items_view, entries_view};

use crate::fault::ValueFault;
use crate::limits::is_in_range;
use crate::size::Size;
use crate::sizes::grown_by;
use crate::value::{Value, ValueContext, ValueList};
use serde_json::{Map, Number};
use std::alloc::{AllocError, Global};
use std::sync::{Arc, ArcStr};

#[cycle(read)]
pub(crate) fn read(alloc: Global, json: &serde_json::Value) -> Result<Value, ValueFault>
    ensures due { MatchResult result (λ v. value_of_json (json_view json.now) ≡ Some (datum_of v))
        (λ e. IsNumberOrMemory e (value_of_json (json_view json.now))) }
    ensures rising { OnOk result (keys_rise (json_view json.now) ≡ true) }
{
    match json {
        serde_json::Value::Null => Ok(Value::Null),
        serde_json::Value::Bool(b) => Ok(Value::Bool(*b)),
        serde_json::Value::Number(n) => whole(n),
        serde_json::Value::String(text) => {
            Ok(Value::Text(ArcStr::from_str(alloc, text.as_str())?))
        }
        serde_json::Value::Array(items) => {
            let list = read_items(alloc, items)?;
            Ok(Value::List(Arc::new(alloc, list)?))
        }
        serde_json::Value::Object(members) => {
            let context = read_members(alloc, members)?;
            Ok(Value::Context(Arc::new(alloc, context)?))
        }
    }
}

// The number, where it is a whole one in range.
fn whole(n: &Number) -> Result<Value, ValueFault>
    ensures { MatchResult result (λ v. value_of_json (json_number (number_view n.now)) ≡ Some (datum_of v))
        (λ e. IsNumberOrMemory e (value_of_json (json_number (number_view n.now)))) }
{
    match n.as_i64() {
        Some(n) if is_in_range(n) => Ok(Value::Number(n)),
        _ => Err(ValueFault::Number),
    }
}

#[cycle(read)]
fn read_items(alloc: Global, items: &[serde_json::Value]) -> Result<ValueList, ValueFault>
    ensures due { MatchResult result (λ v. items_of_json (json_items_view items.now) ≡ Some v)
        (λ e. IsNumberOrMemory e (items_of_json (json_items_view items.now))) }
    ensures rising { OnOk result (items_rise (json_items_view items.now) ≡ true) }
{
    let mut values = Vec::with_capacity(alloc, items.len())?;
    let mut size = Some(Size::of_one_node());
    for item in items {
        let value = read(alloc, item)?;
        size = grown_by(size, &value);
        values.push(value)?;
    }
    Ok(ValueList::of_size(values, size))
}

// The keys rise, so the names need no search.
#[cycle(read)]
fn read_members(
    alloc: Global,
    members: &Map<String, serde_json::Value>,
) -> Result<ValueContext, ValueFault>
    ensures due { MatchResult result (λ v. entries_of_json (json_members_view members.now.entries) ≡ Some v)
        (λ e. IsNumberOrMemory e (entries_of_json (json_members_view members.now.entries))) }
    ensures rising { OnOk result ((in_order (json_members_view members.now.entries) ≡ true)
        × (members_rise (json_members_view members.now.entries) ≡ true)) }
{
    let mut entries = Vec::with_capacity(alloc, members.len())?;
    let mut size = Some(Size::of_one_node());
    for (key, member) in members.iter() {
        let name = ArcStr::from_str(alloc, key.as_str())?;
        let value = read(alloc, member)?;
        size = grown_by(size, &value);
        entries.push((name, value))?;
    }
    Ok(ValueContext::of_size(entries, size))
}

#[cycle(write)]
pub(crate) fn write(alloc: Global, value: &Value) -> Result<serde_json::Value, AllocError>
    ensures { IfOk result (λ j. json_view j ≡ json_of (datum_of value.now)) }
{
    match value {
        Value::Null => Ok(serde_json::Value::Null),
        Value::Bool(b) => Ok(serde_json::Value::Bool(*b)),
        Value::Number(n) => Ok(serde_json::Value::Number(Number::from(*n))),
        Value::Text(text) => {
            Ok(serde_json::Value::String(String::from_str(alloc, text.as_str())?))
        }
        Value::List(list) => { Ok(serde_json::Value::Array(write_items(alloc, list.values())?)) }
        Value::Context(context) => {
            Ok(serde_json::Value::Object(write_entries(alloc, context.entries())?))
        }
    }
}

#[cycle(write)]
fn write_items(alloc: Global, items: &[Value]) -> Result<Vec<serde_json::Value>, AllocError>
    ensures { IfOk result (λ v. json_items_view v.items ≡ json_items (items_view items.now)) }
{
    let mut values = Vec::with_capacity(alloc, items.len())?;
    for item in items {
        values.push(write(alloc, item)?)?;
    }
    Ok(values)
}

// From the last entry to the first, so that the first of a name would be the one that stays.
#[cycle(write)]
fn write_entries(
    alloc: Global,
    entries: &[(ArcStr, Value)],
) -> Result<Map<String, serde_json::Value>, AllocError>
    ensures { IfOk result (λ m. json_members_view m.entries ≡ json_members (entries_view entries.now)) }
{
    let mut members = Map::new(alloc);
    let mut i = entries.len();
    while i > 0 {
        i -= 1;
        let (name, value) = &entries[i];
        let key = String::from_str(alloc, name.as_str())?;
        drop(members.insert(key, write(alloc, value)?)?);
    }
    Ok(members)
}
