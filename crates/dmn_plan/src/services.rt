//! Plans of decision services.
ghost use Rattle.std.specs.Prelude.{◌≡◌, ◌≤◌, ◌<◌, ◌++◌, ℕ, List, [], false, Some, Bool, IfOk, IfSome, is_none, length, string_bytes, All};
ghost use Rattle.std.specs.List.{list_any};
ghost use Rattle.dmn_form.specs.ModelView.{model_view, service_view, services_view};
ghost use Rattle.dmn_graph.specs.Needs.{needs_view, count_needing, AreNeedsBelow, IsOrderOf, DoRanksFall};
ghost use Rattle.dmn_names.specs.Names.{has_name_twice, have_twice};
ghost use Rattle.dmn_names.specs.Parts.{service_lists};
ghost use Rattle.dmn_names.specs.Places.{needs_by_place};
ghost use Rattle.dmn_names.specs.PlacedModel.{placed_model, placed_service_view};
ghost use Rattle.dmn_plan.specs.Faults.{has_bad_service, is_bad_service};
ghost use Rattle.dmn_plan.specs.Plans.{IsRouteOf, AreRoutesOf};
ghost use Rattle.dmn_plan.specs.ServicesByPlace.{do_share, is_bad_by_place, IsPlacedPlan};

use dmn_form::{WrittenModel, WrittenService};
use dmn_graph::{ranks_of, reached_order, set_of};
use dmn_names::{Places, ServicePlaces};
use dmn_service::ServicePlan;
use std::alloc::{AllocError, Global};

/// Whether one of these places is among the others.
fn share(alloc: Global, places: &[usize], others: &[usize]) -> Result<bool, AllocError>
    ensures { IfOk result (λ b. b ≡ do_share places.now others.now) }
{
    let set = set_of(alloc, others)?;
    for place in places {
        if set.contains(place) {
            return Ok(true);
        }
    }
    Ok(false)
}

/// The first places, and then the second.
fn joined(alloc: Global, first: &[usize], second: &[usize]) -> Result<Vec<usize>, AllocError>
    ensures { IfOk result (λ v. v.items ≡ first.now ++ second.now) }
{
    let mut places = Vec::new(alloc);
    places.extend_from_slice(first)?;
    places.extend_from_slice(second)?;
    Ok(places)
}

/// The plan of a service by places, or None where it has no output, where an input decision is also an output or encapsulated,
/// or where a place that is reached isn't listed. `ranks` has the rank of each place in an order.
fn placed_plan(
    alloc: Global,
    needs: &[Vec<usize>],
    ranks: &[usize],
    name: &str,
    lists: ServicePlaces,
) -> Result<Option<ServicePlan>, AllocError>
    requires inside { AreNeedsBelow (length needs.now) (needs_view needs.now) }
    requires starts { All (λ q. q < length needs.now) lists.outputs.items }
    requires ranks { DoRanksFall (needs_view needs.now) ranks.now }
    ensures bad { IfOk result (λ o. (steps : ℕ) → count_needing (needs_view needs.now) ≤ steps
        → is_none o ≡ is_bad_by_place steps (needs_view needs.now) (placed_service_view lists)) }
    ensures name { IfOk result (λ o. IfSome o (λ p. string_bytes p.name ≡ name.now)) }
    ensures plan { IfOk result (λ o. IfSome o (IsPlacedPlan (needs_view needs.now) (placed_service_view lists))) }
{
    if lists.outputs.is_empty() {
        return Ok(None);
    }
    let inner = joined(alloc, &lists.outputs, &lists.encapsulated)?;
    if share(alloc, &lists.input_decisions, &inner)? {
        return Ok(None);
    }
    let parameters = joined(alloc, &lists.input_decisions, &lists.input_data)?;
    let Some(order) = reached_order(alloc, needs, ranks, &lists.outputs, &inner, &parameters)?
    else {
        return Ok(None);
    };
    Ok(Some(ServicePlan {
        name: String::from_str(alloc, name)?,
        parameters,
        order,
        outputs: lists.outputs,
    }))
}

/// The plan of a service, or None where it doesn't fit the decisions. `ranks` has the rank of each place in an order.
fn service_plan(
    alloc: Global,
    places: &Places,
    needs: &[Vec<usize>],
    ranks: &[usize],
    service: &WrittenService,
) -> Result<Option<ServicePlan>, AllocError>
    requires distinct { has_name_twice (placed_model places.now) ≡ false }
    requires lists { list_any have_twice (service_lists (service_view service.now)) ≡ false }
    requires known { needs_by_place (placed_model places.now) ≡ Some (needs_view needs.now) }
    requires ranks { DoRanksFall (needs_view needs.now) ranks.now }
    ensures bad { IfOk result (λ o. is_none o ≡ is_bad_service (placed_model places.now) (service_view service.now)) }
    ensures route { IfOk result (λ o. IfSome o (IsRouteOf (placed_model places.now) (needs_view needs.now) (service_view service.now))) }
{
    let Some(lists) = places.service(alloc, service)? else {
        return Ok(None);
    };
    let plan = placed_plan(alloc, needs, ranks, service.name.as_str(), lists)?;
    Ok(plan)
}

/// The plan of each service, or None where a service doesn't fit the decisions.
pub(crate) fn service_plans(
    alloc: Global,
    model: &WrittenModel,
    places: &Places,
    needs: &[Vec<usize>],
    order: &[usize],
) -> Result<Option<Vec<ServicePlan>>, AllocError>
    requires placed { placed_model places.now ≡ model_view model.now }
    requires distinct { has_name_twice (model_view model.now) ≡ false }
    requires known { needs_by_place (model_view model.now) ≡ Some (needs_view needs.now) }
    requires order { IsOrderOf (needs_view needs.now) order.now }
    ensures bad { IfOk result (λ o. is_none o ≡ has_bad_service (model_view model.now)) }
    ensures routes { IfOk result (λ o. IfSome o (λ plans. AreRoutesOf (model_view model.now) (needs_view needs.now) (services_view model.now.services) plans.items)) }
{
    let ranks = ranks_of(alloc, needs, order)?;
    let mut plans = Vec::new(alloc);
    for service in &model.services {
        let Some(plan) = service_plan(alloc, places, needs, &ranks, service)? else {
            return Ok(None);
        };
        plans.push(plan)?;
    }
    Ok(Some(plans))
}
