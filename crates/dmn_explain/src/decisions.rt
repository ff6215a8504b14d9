//! The decisions on the way to an answer.
ghost use Rattle.std.specs.Prelude.{◌≡◌, ◌<◌, ◌++◌, OnOk, IfOk, length, option_map, false};
ghost use Rattle.std.specs.List.{All, zip};
ghost use Rattle.serde_json.specs.Data.{Items, array};
ghost use Rattle.serde_json.specs.Written.{compact_text, items_text};
ghost use Rattle.feel_text.specs.Needed.{found_at};
ghost use Rattle.dmn_logic.specs.LogicView.{logic_view};
ghost use Rattle.dmn_service.specs.Decision.{parameters_of, outcome_of};
ghost use Rattle.dmn_service.specs.Plan.{HasPlacesWithin};
ghost use Rattle.dmn_plan.specs.Course.{IsCourseOf};
ghost use Rattle.dmn_plan.specs.Request.{Request};
ghost use Rattle.json_writer.specs.Bounded.{longer};
ghost use Rattle.dmn_explain.specs.Explanation.{decisions_told};
ghost use Rattle.dmn_explain.specs.Placed.{decided_here, given_here, decided_by_place, given_by_place};

use crate::boxed::add_how;
use crate::key::{Key, add_comma};
use crate::named::add_name;
use crate::needed::needed_places;
use crate::value::add_valued;
use dmn_logic::Logic;
use dmn_plan::Course;
use dmn_service::Item;
use feel_lang::Env;
use feel_value::{Feel, Outcome};
use json_writer::BoundedText;
use std::alloc::{AllocError, Global};

/// The value found at a place; None where a limit was broken, or nothing was found.
fn value_at(found: &[Outcome], place: usize) -> Option<&Feel>
    ensures { option_map (λ v. v.now) result ≡ found_at found.now place }
{
    found.get(place)?.value()
}

/// Adds an input decision, whose value was given.
fn add_given(
    alloc: Global,
    item: &Item,
    place: usize,
    found: &[Outcome],
    text: &mut BoundedText,
) -> Result<(), AllocError>
    ensures { OnOk result (text.new ≡ longer text.old (compact_text (given_here found.now item.now place))) }
{
    add_name(alloc, item.name.as_str(), text)?;
    add_valued(alloc, true, Key::Given, value_at(found, place), text)?;
    text.push(b'}')?;
    Ok(())
}

/// Adds a decision with the outcome that was found for it, and how its logic comes to that from what was found for its needs.
fn add_decided(
    alloc: Global,
    item: &Item,
    logic: &Logic,
    place: usize,
    found: &[Outcome],
    with_misses: bool,
    text: &mut BoundedText,
) -> Result<(), AllocError>
    ensures { OnOk result (text.new ≡ longer text.old (compact_text (decided_here with_misses found.now item.now place (logic_view logic.now)))) }
{
    add_name(alloc, item.name.as_str(), text)?;
    add_valued(alloc, true, Key::Value, value_at(found, place), text)?;
    let Some(mut env) = Env::over_scope(alloc, &item.named, &item.scope, found) else {
        text.push(b'}')?;
        return Ok(());
    };
    add_how(alloc, logic, with_misses, &mut env, text)?;
    Ok(())
}

/// Begins the list of decisions with those at the places of the parameters; true where there is one.
fn add_all_given(
    alloc: Global,
    items: &[Item],
    places: &[usize],
    found: &[Outcome],
    text: &mut BoundedText,
) -> Result<bool, AllocError>
    requires { All (λ q. q < length items.now) places.now }
    ensures { IfOk result (λ later. (rest : Items) → longer text.new (items_text later rest) ≡ longer text.old (compact_text (array (given_by_place found.now items.now places.now rest)))) }
{
    text.push(b'[')?;
    let mut later = false;
    for place in places {
        if text.is_long() {
            return Ok(later);
        }
        let item = &items[*place];
        let Some(_) = &item.logic else {
            continue;
        };
        add_comma(later, text)?;
        add_given(alloc, item, *place, found, text)?;
        later = true;
    }
    Ok(later)
}

/// Adds the decisions at these places, and ends the list.
fn add_all_decided(
    alloc: Global,
    items: &[Item],
    places: &[usize],
    found: &[Outcome],
    with_misses: bool,
    some_before: bool,
    text: &mut BoundedText,
) -> Result<(), AllocError>
    requires { All (λ q. q < length items.now) places.now }
    ensures { OnOk result (text.new ≡ longer text.old (items_text some_before (decided_by_place with_misses found.now items.now places.now))) }
{
    let mut later = some_before;
    for place in places {
        if text.is_long() {
            return Ok(());
        }
        let item = &items[*place];
        let Some(logic) = &item.logic else {
            continue;
        };
        add_comma(later, text)?;
        add_decided(alloc, item, logic, *place, found, with_misses, text)?;
        later = true;
    }
    text.push(b']')?;
    Ok(())
}

/// Adds the list of the decisions on the way to an answer, in compact JSON.
///
/// First stand the input decisions that some of the others need, with the values that were given for them, and then each decision
/// that was evaluated, behind those that it needs: with its outcome as it was found, and how its logic comes to that. The parts of
/// the logic are evaluated again, each as often as it lies in others. The rules of tables that missed are told where `with_misses`
/// says so.
pub fn add_decisions(
    alloc: Global,
    course: &Course<'_>,
    with_misses: bool,
    text: &mut BoundedText,
) -> Result<(), AllocError>
    requires { HasPlacesWithin course.now.items.now course.now.service.now }
    ensures { OnOk result ((q : Request) (c : IsCourseOf q course.now) → text.new ≡ longer text.old (compact_text (array (decisions_told with_misses (outcome_of c.model (zip (parameters_of c.service) q.values)) course.now.items.now course.now.service.now)))) }
{
    let found = &course.outcomes;
    let needed = needed_places(alloc, course.items, course.service)?;
    let later = add_all_given(alloc, course.items, &needed, found, text)?;
    add_all_decided(
        alloc,
        course.items,
        &course.service.order,
        found,
        with_misses,
        later,
        text,
    )?;
    Ok(())
}
