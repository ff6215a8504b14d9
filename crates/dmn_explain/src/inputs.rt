//! The values that a request gives.
ghost use Rattle.std.specs.Prelude.{◌≡◌, ◌<◌, ◌++◌, OnOk, length};
ghost use Rattle.std.specs.List.{All, zip};
ghost use Rattle.serde_json.specs.Data.{object};
ghost use Rattle.serde_json.specs.Written.{comma_if, compact_text};
ghost use Rattle.feel_text.specs.Needed.{found_at};
ghost use Rattle.dmn_service.specs.Decision.{parameters_of};
ghost use Rattle.dmn_service.specs.Plan.{HasPlacesWithin};
ghost use Rattle.dmn_plan.specs.Course.{IsCourseOf};
ghost use Rattle.dmn_plan.specs.Request.{Request};
ghost use Rattle.dmn_explain.specs.Explanation.{inputs_told};
ghost use Rattle.dmn_explain.specs.Placed.{inputs_by_place, value_told};
ghost use Rattle.dmn_explain.specs.Text.{input_text};

use dmn_plan::Course;
use dmn_service::Item;
use feel_value::Outcome;
use json_writer::{add_quoted, add_value};
use std::alloc::{AllocError, Global};

/// Adds a comma, where something stands before.
fn add_comma(later: bool, text: &mut Vec<u8>) -> Result<(), AllocError>
    ensures { OnOk result (text.new.items ≡ text.old.items ++ comma_if later) }
{
    if later {
        text.extend_from_slice(b",")
    } else {
        text.extend_from_slice(b"")
    }
}

/// Adds the value found at a place; null where there is none.
fn add_found(
    alloc: Global,
    found: &[Outcome],
    place: usize,
    text: &mut Vec<u8>,
) -> Result<(), AllocError>
    ensures { OnOk result (text.new.items ≡ text.old.items ++ compact_text (value_told (found_at found.now place))) }
{
    let Some(outcome) = found.get(place) else {
        return text.extend_from_slice(b"null");
    };
    match outcome {
        Outcome::Is(value) => add_value(alloc, value, text),
        Outcome::Limit => text.extend_from_slice(b"null"),
    }
}

/// Adds the member of a parameter; with a comma where a member stands before.
fn add_input(
    alloc: Global,
    later: bool,
    name: &str,
    found: &[Outcome],
    place: usize,
    text: &mut Vec<u8>,
) -> Result<(), AllocError>
    ensures { OnOk result (text.new.items ≡ text.old.items ++ input_text later name.now (found_at found.now place)) }
{
    add_comma(later, text)?;
    add_quoted(alloc, name, text)?;
    text.push(b':')?;
    add_found(alloc, found, place, text)
}

/// Adds the object of the values found at these places.
fn add_all_inputs(
    alloc: Global,
    items: &[Item],
    places: &[usize],
    found: &[Outcome],
    text: &mut Vec<u8>,
) -> Result<(), AllocError>
    requires { All (λ q. q < length items.now) places.now }
    ensures { OnOk result (text.new.items ≡ text.old.items ++ compact_text (object (inputs_by_place found.now items.now places.now))) }
{
    let mut later = false;
    text.push(b'{')?;
    for place in places {
        let name = items[*place].name.as_str();
        add_input(alloc, later, name, found, *place, text)?;
        later = true;
    }
    text.push(b'}')?;
    Ok(())
}

/// Adds the values that a request gives for the parameters of its service, as an object in compact JSON: the input decisions and
/// then the input data, in the service's order. One that is missing in the request is null.
///
/// The contract speaks of requests that give a value for each parameter, as those do that are made from JSON.
pub fn add_inputs(alloc: Global, course: &Course<'_>, text: &mut Vec<u8>) -> Result<(), AllocError>
    requires { HasPlacesWithin course.now.items.now course.now.service.now }
    ensures { OnOk result ((q : Request) (c : IsCourseOf q course.now) → length q.values ≡ length (parameters_of c.service) → text.new.items ≡ text.old.items ++ compact_text (object (inputs_told (zip (parameters_of c.service) q.values)))) }
{
    let places = &course.service.parameters;
    add_all_inputs(alloc, course.items, places, &course.outcomes, text)
}
