//! The result of a decision service.
ghost use Rattle.std.specs.Prelude.{◌≡◌, ◌<◌, ◌&&◌, IfOk, OnOk, true, is_some, nat_eq, length, option_map};
ghost use Rattle.std.specs.List.{All, list_all};
ghost use Rattle.feel_value.specs.Found.{value_of};
ghost use Rattle.feel_text.specs.Needed.{is_found};
ghost use Rattle.dmn_graph.specs.Reach.{IsInOrder};
ghost use Rattle.dmn_logic.specs.LogicView.{logic_view};
ghost use Rattle.dmn_service.specs.Places.{name_at, needs_at, named_places};
ghost use Rattle.dmn_service.specs.Outcomes.{AreOutcomesOf};
ghost use Rattle.dmn_service.specs.Run.{values_in, nothing_found, outcome_under, filled_by, given_at, AreKnown};
ghost use Rattle.dmn_service.specs.Plan.{HasPlacesWithin, IsServiceOutcome, IsOutcomeWithin, IsRecursionOutcome};

use crate::found::{keep, nothing};
use crate::outputs::output_outcome;
use crate::plan::{Item, ServicePlan};
use dmn_logic::evaluate;
use feel_lang::Env;
use feel_value::{Feel, Outcome};
use std::alloc::{AllocError, Global};

/// What a request to a decision service comes to: the result, and the outcome at each place on the way to it.
#[derive(Drop)]
pub struct Evaluation {
    /// An outcome for each item, at its place. Only those of the parameters and of the plan's order say something: what was not
    /// asked for has none.
    pub outcomes: Vec<Outcome>,
    /// The result of the service.
    pub result: Outcome,
}

/// The outcome of a decision service, for these values of its parameters in their order.
///
/// Each decision of the plan's order is evaluated once, also behind one that breaks a limit. So the steps are those of the
/// decisions' own logic, and for each need of each of them a look at its place. Values and names are looked at where they lie: a
/// decision that needs them takes no memory for that.
pub fn service_outcome(
    alloc: Global,
    items: &[Item],
    service: &ServicePlan,
    values: &[Feel],
) -> Result<Outcome, AllocError>
    requires places { HasPlacesWithin items.now service.now }
    requires values { length values.now ≡ length service.now.parameters.items }
    ensures result { IfOk result (IsServiceOutcome items.now service.now values.now) }
    ensures steps { IfOk result (IsOutcomeWithin items.now service.now values.now) }
    ensures recursion { IfOk result (IsRecursionOutcome items.now service.now values.now) }
{
    let found = found_along(alloc, items, service, values)?;
    let outcome = output_outcome(alloc, items, &service.outputs, &found)?;
    Ok(outcome)
}

/// The same, where each decision of the plan's order is known to come after all that it needs. So long as no limit is broken, a
/// value was found for each need, and none is looked at before the decision's logic asks for it.
pub fn service_outcome_in_order(
    alloc: Global,
    items: &[Item],
    service: &ServicePlan,
    values: &[Feel],
) -> Result<Outcome, AllocError>
    requires places { HasPlacesWithin items.now service.now }
    requires values { length values.now ≡ length service.now.parameters.items }
    requires order { IsInOrder nat_eq (needs_at items.now) service.now.parameters.items service.now.order.items }
    ensures result { IfOk result (IsServiceOutcome items.now service.now values.now) }
    ensures steps { IfOk result (IsOutcomeWithin items.now service.now values.now) }
    ensures recursion { IfOk result (IsRecursionOutcome items.now service.now values.now) }
{
    let found = found_in_order(alloc, items, service, values)?;
    let value = output_outcome(alloc, items, &service.outputs, &found)?;
    Ok(value)
}

/// The same with the outcome of each decision on the way.
pub fn service_evaluation(
    alloc: Global,
    items: &[Item],
    service: &ServicePlan,
    values: &[Feel],
) -> Result<Evaluation, AllocError>
    requires places { HasPlacesWithin items.now service.now }
    requires values { length values.now ≡ length service.now.parameters.items }
    ensures outcomes { IfOk result (λ e. AreOutcomesOf items.now service.now values.now e.outcomes.items) }
    ensures result { IfOk result (λ e. IsServiceOutcome items.now service.now values.now e.result) }
{
    let found = found_along(alloc, items, service, values)?;
    let outcome = output_outcome(alloc, items, &service.outputs, &found)?;
    Ok(Evaluation {
        outcomes: found,
        result: outcome,
    })
}

/// What is found at each place: the value given for a parameter, and the outcome of each decision of the plan's order.
fn found_along(
    alloc: Global,
    items: &[Item],
    service: &ServicePlan,
    values: &[Feel],
) -> Result<Vec<Outcome>, AllocError>
    requires places { HasPlacesWithin items.now service.now }
    requires values { length values.now ≡ length service.now.parameters.items }
    ensures { IfOk result (λ found. values_in found.items ≡ filled_by items.now service.now.order.items (given_at service.now.parameters.items values.now nothing_found)) }
{
    let mut found = nothing(alloc, items.len())?;
    give(&service.parameters, values, &mut found)?;
    fill(alloc, items, &service.order, &mut found)?;
    Ok(found)
}

/// The same, where each decision comes after all that it needs.
fn found_in_order(
    alloc: Global,
    items: &[Item],
    service: &ServicePlan,
    values: &[Feel],
) -> Result<Vec<Outcome>, AllocError>
    requires places { HasPlacesWithin items.now service.now }
    requires values { length values.now ≡ length service.now.parameters.items }
    requires order { IsInOrder nat_eq (needs_at items.now) service.now.parameters.items service.now.order.items }
    ensures { IfOk result (λ found. values_in found.items ≡ filled_by items.now service.now.order.items (given_at service.now.parameters.items values.now nothing_found)) }
{
    let mut found = nothing(alloc, items.len())?;
    give(&service.parameters, values, &mut found)?;
    fill_in_order(alloc, items, &service.order, &mut found)?;
    Ok(found)
}

/// Keeps at each parameter a copy of the value given for it.
fn give(parameters: &[usize], values: &[Feel], found: &mut Vec<Outcome>) -> Result<(), AllocError>
    requires parameters { All (λ q. q < length found.old.items) parameters.now }
    requires values { length values.now ≡ length parameters.now }
    ensures given { OnOk result (values_in found.new.items ≡ given_at parameters.now values.now (values_in found.old.items)) }
    ensures count { OnOk result (length found.new.items ≡ length found.old.items) }
{
    for (i, place) in parameters.iter().enumerate() {
        let value = values[i].try_clone()?;
        keep(found, *place, Outcome::Is(value));
    }
    Ok(())
}

/// Evaluates the items at these places one after another, each from what was found before it.
fn fill(
    alloc: Global,
    items: &[Item],
    order: &[usize],
    found: &mut Vec<Outcome>,
) -> Result<(), AllocError>
    requires order { All (λ q. q < length items.now) order.now }
    requires named { All (λ x. x.named ≡ named_places (name_at items.now) x.needs.items) items.now }
    requires count { length found.old.items ≡ length items.now }
    ensures { OnOk result (values_in found.new.items ≡ filled_by items.now order.now (values_in found.old.items)) }
{
    for place in order {
        let outcome = item_outcome(alloc, &items[*place], found)?;
        keep(found, *place, outcome);
    }
    Ok(())
}

/// The same, where each comes after all that it needs, and values were found at the other places that are needed.
fn fill_in_order(
    alloc: Global,
    items: &[Item],
    order: &[usize],
    found: &mut Vec<Outcome>,
) -> Result<(), AllocError>
    requires order { All (λ q. q < length items.now) order.now }
    requires named { All (λ x. x.named ≡ named_places (name_at items.now) x.needs.items) items.now }
    requires count { length found.old.items ≡ length items.now }
    requires known { AreKnown items.now (values_in found.old.items) order.now }
    ensures { OnOk result (values_in found.new.items ≡ filled_by items.now order.now (values_in found.old.items)) }
{
    // No limit was broken so far.
    let mut all = true;
    for place in order {
        let outcome = outcome_known(alloc, &items[*place], found, all)?;
        all = are_all(all, &outcome);
        keep(found, *place, outcome);
    }
    Ok(())
}

/// Whether all before have a value, and this one.
fn are_all(all: bool, outcome: &Outcome) -> bool
    ensures { result ≡ (all && is_some (value_of outcome.now)) }
{
    all && outcome.value().is_some()
}

/// The outcome of a decision's logic, from what was found for its needs, which is looked at where it lies; null for an input.
fn item_outcome(alloc: Global, item: &Item, found: &[Outcome]) -> Result<Outcome, AllocError>
    ensures { IfOk result (λ o. o ≡ outcome_under found.now item.now.named (option_map logic_view item.now.logic)) }
{
    let Some(logic) = &item.logic else {
        return Ok(Outcome::null());
    };
    let Some(mut env) = Env::over_scope(alloc, &item.named, &item.scope, found) else {
        return Ok(Outcome::Limit);
    };
    evaluate(alloc, logic, &mut env)
}

/// The same, where `all` says that a value was found for each need.
fn outcome_known(
    alloc: Global,
    item: &Item,
    found: &[Outcome],
    all: bool,
) -> Result<Outcome, AllocError>
    requires { all ≡ true → list_all (is_found found.now) item.now.named ≡ true }
    ensures { IfOk result (λ o. o ≡ outcome_under found.now item.now.named (option_map logic_view item.now.logic)) }
{
    if !all {
        return item_outcome(alloc, item, found);
    }
    let Some(logic) = &item.logic else {
        return Ok(Outcome::null());
    };
    let mut known = Env::over_found(alloc, &item.named, &item.scope, found);
    evaluate(alloc, logic, &mut known)
}
