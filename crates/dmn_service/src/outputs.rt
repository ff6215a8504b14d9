//! The outputs of a decision service.
ghost use Rattle.std.specs.Prelude.{◌≡◌, ◌<◌, IfOk, length, map, option_map};
ghost use Rattle.std.specs.List.{All, zip};
ghost use Rattle.feel_value.specs.Datum.{context, entries_of};
ghost use Rattle.feel_value.specs.Outcome.{held};
ghost use Rattle.feel_value.specs.declared.feel.Outcome.TheVariants.{Is};
ghost use Rattle.feel_value.specs.Found.{each, outcome_from};
ghost use Rattle.dmn_service.specs.Places.{name_at};
ghost use Rattle.dmn_service.specs.Run.{values_in, outputs_at};

use crate::found::value_at;
use crate::plan::Item;
use feel_value::{Feel, Outcome};
use std::alloc::{AllocError, Global};

/// The outcome of the outputs: the value of the only one, or the context of all in their order.
#[tactic(auto, using(crate::proofs::OneOrContext::only_output, crate::proofs::OneOrContext::many_outputs))]
pub(crate) fn output_outcome(
    alloc: Global,
    items: &[Item],
    outputs: &[usize],
    found: &[Outcome],
) -> Result<Outcome, AllocError>
    requires { All (λ q. q < length items.now) outputs.now }
    ensures { IfOk result (λ o. o ≡ outputs_at (name_at items.now) (values_in found.now) outputs.now) }
{
    if outputs.len() == 1 {
        return outcome_found(found, outputs[0]);
    }
    let Some(values) = values(alloc, outputs, found)? else {
        return Ok(Outcome::Limit);
    };
    let outcome = named(alloc, items, outputs, values)?;
    Ok(outcome)
}

/// A copy of the value found at a place, as an outcome.
fn outcome_found(found: &[Outcome], place: usize) -> Result<Outcome, AllocError>
    ensures { IfOk result (λ o. o ≡ outcome_from Is (values_in found.now place)) }
{
    match value_at(found, place) {
        Some(value) => Ok(Outcome::Is(value.try_clone()?)),
        None => Ok(Outcome::Limit),
    }
}

/// Copies of the values found at these places; None where one breaks a limit.
fn values(
    alloc: Global,
    places: &[usize],
    found: &[Outcome],
) -> Result<Option<Vec<Feel>>, AllocError>
    ensures { IfOk result (λ copies. option_map (λ v. v.items) copies ≡ each (values_in found.now) places.now) }
{
    let mut values = Vec::with_capacity(alloc, places.len())?;
    for place in places {
        let Some(value) = value_at(found, *place) else {
            return Ok(None);
        };
        values.push(value.try_clone()?)?;
    }
    Ok(Some(values))
}

/// The context of the values under the outputs' names, which it shares with the items.
fn named(
    alloc: Global,
    items: &[Item],
    outputs: &[usize],
    values: Vec<Feel>,
) -> Result<Outcome, AllocError>
    requires { All (λ q. q < length items.now) outputs.now }
    ensures { IfOk result (λ o. o ≡ held (context (entries_of (zip (map (name_at items.now) outputs.now) values.items)))) }
{
    let mut entries = Vec::with_capacity(alloc, outputs.len())?;
    let mut values = values.into_iter();
    for output in outputs {
        let Some(value) = values.next() else {
            break;
        };
        let name = items[*output].name.clone()?;
        entries.push((name, value.into_value()))?;
    }
    Outcome::context(alloc, entries)
}
