//! Values under names that other values have too, each of these added as an object.
ghost use Rattle.std.specs.Prelude.{◌≡◌, OnOk, IfOk, map};
ghost use Rattle.serde_json.specs.Data.{object};
ghost use Rattle.serde_json.specs.View.{view, members_view};
ghost use Rattle.serde_json.specs.Written.{compact_text};
ghost use Rattle.json_writer.specs.Bounded.{longer};
ghost use Rattle.dmn_explain.specs.ByName.{ArePlaces, each_member, json_among};

use crate::key::add_comma;
use feel_value::Feel;
use json_writer::BoundedText;
use serde_json::{Map, Number, Value};
use std::alloc::{AllocError, Global};

/// The place of each name, in the order of an object's members: that of the bytes of the names.
///
/// From the last name to the first, so that the first of equal ones would be the one that stays.
pub(crate) fn places_of_names(
    alloc: Global,
    names: &[&str],
) -> Result<Map<String, Value>, AllocError>
    ensures { IfOk result (λ places. ArePlaces (map (λ n. n.now) names.now) places.entries) }
{
    let mut places = Map::new(alloc);
    let mut i = names.len();
    while i > 0 {
        i -= 1;
        let key = String::from_str(alloc, names[i])?;
        drop(places.insert(key, Value::Number(Number::from(i as u64)))?);
    }
    Ok(places)
}

/// Adds the one of these values that stands at a place.
fn add_among(
    alloc: Global,
    values: &[Feel],
    place: &Value,
    text: &mut BoundedText,
) -> Result<(), AllocError>
    ensures { OnOk result (text.new ≡ longer text.old (compact_text (json_among values.now (view place.now)))) }
{
    let Some(place) = place.as_u64() else {
        return text.add(b"null");
    };
    match values.get(place as usize) {
        Some(value) => text.add_value(alloc, value),
        None => text.add(b"null"),
    }
}

/// Adds an object of the values under the names that have these places.
pub(crate) fn add_named(
    alloc: Global,
    places: &Map<String, Value>,
    values: &[Feel],
    text: &mut BoundedText,
) -> Result<(), AllocError>
    ensures { OnOk result (text.new ≡ longer text.old (compact_text (object (each_member (json_among values.now) (members_view places.now.entries))))) }
{
    let mut later = false;
    text.push(b'{')?;
    for (name, place) in places.iter() {
        if text.is_long() {
            return Ok(());
        }
        add_comma(later, text)?;
        text.add_quoted(alloc, name.as_str())?;
        text.push(b':')?;
        add_among(alloc, values, place, text)?;
        later = true;
    }
    text.push(b'}')?;
    Ok(())
}
