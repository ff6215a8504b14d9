//! The values of a service's parameters out of JSON.
ghost use Rattle.std.specs.Prelude.{◌≡◌, ◌<◌, IfOk, length, map, option_map};
ghost use Rattle.std.specs.List.{All};
ghost use Rattle.serde_json.specs.Find.{get};
ghost use Rattle.serde_json.specs.View.{view};
ghost use Rattle.feel_value.specs.Faults.{json_reading};
ghost use Rattle.feel_value.specs.Found.{each};
ghost use Rattle.dmn_service.specs.Places.{name_at};
ghost use Rattle.dmn_plan.specs.Classes.{class_of as class, AreClassesOf};
ghost use Rattle.dmn_plan.specs.Request.{if_ok, value_under, values_under};

use dmn_service::Item;
use feel_value::{Feel, Outcome, Value, ValueFault};
use std::alloc::{AllocError, Global};

// So many names are looked up one by one.
const FEW: usize = 16;

// Names fall into so many classes.
const CLASSES: usize = 64;

/// The value that JSON stands for; None where it stands for none.
fn read_value(alloc: Global, json: &serde_json::Value) -> Result<Option<Feel>, AllocError>
    ensures { IfOk result (λ o. o ≡ if_ok (json_reading (view json.now))) }
{
    match Feel::from_json(alloc, json) {
        Ok(value) => Ok(Some(value)),
        Err(ValueFault::Memory) => Err(AllocError),
        Err(_) => Ok(None),
    }
}

/// The value under a name, and null where there is none; None where what stands there is no value.
fn named_value(
    alloc: Global,
    inputs: &serde_json::Value,
    name: &str,
) -> Result<Option<Feel>, AllocError>
    ensures { IfOk result (λ o. o ≡ value_under (get name.now (view inputs.now))) }
{
    let Some(json) = inputs.get(name) else {
        return Ok(Feel::of(Value::Null));
    };
    let value = read_value(alloc, json)?;
    Ok(value)
}

/// The class of a name, by its length and its last byte.
fn class_of(name: &str) -> usize
    ensures small { result < 64 }
    ensures class { result ≡ class name.now }
{
    let bytes = name.as_bytes();
    let len = bytes.len();
    if len == 0 {
        return 0;
    }
    (len + usize::from(bytes[len - 1])) % CLASSES
}

/// Which classes the names of an object fall into.
fn classes_in(inputs: &serde_json::Value) -> [bool; CLASSES]
    ensures { AreClassesOf result (view inputs.now) }
{
    let mut classes = [false; CLASSES];
    let serde_json::Value::Object(members) = inputs else {
        return classes;
    };
    for (key, _member) in members.iter() {
        classes[class_of(key.as_str())] = true;
    }
    classes
}

/// The value under a name, and null where there is none. A name whose class no name of the object has is not looked up.
#[tactic(auto, using(crate::proofs::NameClasses::missing_value))]
fn value_in_class(
    alloc: Global,
    inputs: &serde_json::Value,
    classes: &[bool; CLASSES],
    name: &str,
) -> Result<Option<Feel>, AllocError>
    requires { AreClassesOf classes.now (view inputs.now) }
    ensures { IfOk result (λ o. o ≡ value_under (get name.now (view inputs.now))) }
{
    if classes[class_of(name)] {
        return named_value(alloc, inputs, name);
    }
    match Outcome::null() {
        Outcome::Is(value) => Ok(Some(value)),
        Outcome::Limit => Ok(None),
    }
}

/// The values under the names of many places, of which most are missing; None where what stands under one is no value.
fn values_by_class(
    alloc: Global,
    inputs: &serde_json::Value,
    items: &[Item],
    places: &[usize],
) -> Result<Option<Vec<Feel>>, AllocError>
    requires { All (λ q. q < length items.now) places.now }
    ensures { IfOk result (λ o. option_map (λ v. v.items) o ≡ each (λ q. value_under (get (name_at items.now q) (view inputs.now))) places.now) }
{
    let classes = classes_in(inputs);
    let mut values = Vec::with_capacity(alloc, places.len())?;
    for place in places {
        let name = items[*place].name.as_str();
        let Some(value) = value_in_class(alloc, inputs, &classes, name)? else {
            return Ok(None);
        };
        values.push(value)?;
    }
    Ok(Some(values))
}

/// The values under the names of these places; None where what stands under one is no value.
fn place_values(
    alloc: Global,
    inputs: &serde_json::Value,
    items: &[Item],
    places: &[usize],
) -> Result<Option<Vec<Feel>>, AllocError>
    requires { All (λ q. q < length items.now) places.now }
    ensures { IfOk result (λ o. option_map (λ v. v.items) o ≡ each (λ q. value_under (get (name_at items.now q) (view inputs.now))) places.now) }
{
    let mut values = Vec::with_capacity(alloc, places.len())?;
    for place in places {
        let Some(value) = named_value(alloc, inputs, items[*place].name.as_str())? else {
            return Ok(None);
        };
        values.push(value)?;
    }
    Ok(Some(values))
}

/// The values under the names of few places or of many; None where what stands under one is no value.
fn values_of_places(
    alloc: Global,
    inputs: &serde_json::Value,
    items: &[Item],
    places: &[usize],
) -> Result<Option<Vec<Feel>>, AllocError>
    requires { All (λ q. q < length items.now) places.now }
    ensures { IfOk result (λ o. option_map (λ v. v.items) o ≡ each (λ q. value_under (get (name_at items.now q) (view inputs.now))) places.now) }
{
    if places.len() > FEW {
        return values_by_class(alloc, inputs, items, places);
    }
    place_values(alloc, inputs, items, places)
}

/// The values under the names of these places of an object; None where there is no object, or what stands under a name is no
/// value.
pub(crate) fn values_at(
    alloc: Global,
    inputs: &serde_json::Value,
    items: &[Item],
    places: &[usize],
) -> Result<Option<Vec<Feel>>, AllocError>
    requires { All (λ q. q < length items.now) places.now }
    ensures { IfOk result (λ o. option_map (λ v. v.items) o ≡ values_under (map (name_at items.now) places.now) (view inputs.now)) }
{
    if !inputs.is_object() {
        return Ok(None);
    }
    let values = values_of_places(alloc, inputs, items, places)?;
    Ok(values)
}

/// The names of these places.
pub(crate) fn names_at<'a>(
    alloc: Global,
    items: &'a [Item],
    places: &[usize],
) -> Result<Vec<&'a str>, AllocError>
    requires { All (λ q. q < length items.now) places.now }
    ensures { IfOk result (λ names. map (λ n. n.now) names.items ≡ map (name_at items.now) places.now) }
{
    let mut names = Vec::with_capacity(alloc, places.len())?;
    for place in places {
        names.push(items[*place].name.as_str())?;
    }
    Ok(names)
}
