//! Services that don't fit the decisions.
ghost use Rattle.std.specs.Prelude.{◌≡◌, not, ◌≤◌, ◌<◌, ◌++◌, ℕ, false, Some, OnOk, IfOk, IfSome, is_none, map, length, nat_lt, All};
ghost use Rattle.dmn_form.specs.ModelView.{service_view, model_view};
ghost use Rattle.dmn_graph.specs.Needs.{needs_view, count_needing, AreNeedsBelow};
ghost use Rattle.dmn_names.specs.Names.{has_name_twice};
ghost use Rattle.dmn_names.specs.Places.{needs_by_place};
ghost use Rattle.dmn_names.specs.PlacedModel.{placed_model, placed_service_view};
ghost use Rattle.dmn_plan.specs.Faults.{has_bad_service};
ghost use Rattle.dmn_plan.specs.ServicesByPlace.{do_share};
ghost use Rattle.dmn_check.specs.Findings.{each_of};
ghost use Rattle.dmn_check.specs.Graphs.{has_no_graph};
ghost use Rattle.dmn_check.specs.Notes.{with_all};
ghost use Rattle.dmn_check.specs.NotesView.{notes_view};
ghost use Rattle.dmn_check.specs.Services.{service_fault, bad_service, bad_services as bad_services_in};
ghost use Rattle.dmn_check.specs.ServicesByPlace.{fault_by_place};
ghost use Rattle.dmn_check.specs.Told.{first_of};
ghost use Rattle.dmn_check.specs.ToldView.{told_view};

use crate::finding::{Mistake, ServiceFault};
use crate::graph::needs_of;
use crate::notes::Notes;
use crate::place::{Key, Step};
use crate::told::Told;
use dmn_form::{WrittenModel, WrittenService};
use dmn_graph::{reach, set_of};
use dmn_names::{Places, ServicePlaces};
use std::alloc::{AllocError, Global};

/// Whether one of these places is among the others.
fn share(alloc: Global, places: &[usize], others: &[usize]) -> Result<bool, AllocError>
    ensures { IfOk result (λ b. b ≡ do_share places.now others.now) }
{
    let set = set_of(alloc, others)?;
    for place in places {
        if set.contains(place) {
            return Ok(true);
        }
    }
    Ok(false)
}

/// The first places, and then the second.
fn joined(alloc: Global, first: &[usize], second: &[usize]) -> Result<Vec<usize>, AllocError>
    ensures { IfOk result (λ v. v.items ≡ first.now ++ second.now) }
{
    let mut places = Vec::new(alloc);
    places.extend_from_slice(first)?;
    places.extend_from_slice(second)?;
    Ok(places)
}

/// The fault of a service with outputs by its places: an input decision is also an output or encapsulated, or it reaches a place
/// that it doesn't list.
fn placed_fault(
    alloc: Global,
    needs: &[Vec<usize>],
    lists: &ServicePlaces,
) -> Result<Option<ServiceFault>, AllocError>
    requires inside { AreNeedsBelow (length needs.now) (needs_view needs.now) }
    requires starts { All (λ q. q < length needs.now) lists.now.outputs.items }
    ensures { IfOk result (λ o. (steps : ℕ) → count_needing (needs_view needs.now) ≤ steps
        → o ≡ fault_by_place steps (needs_view needs.now) (placed_service_view lists.now)) }
{
    let inner = joined(alloc, &lists.outputs, &lists.encapsulated)?;
    if share(alloc, &lists.input_decisions, &inner)? {
        return Ok(Some(ServiceFault::Shared));
    }
    let parameters = joined(alloc, &lists.input_decisions, &lists.input_data)?;
    let Some(_) = reach(alloc, needs, &lists.outputs, &inner, &parameters)? else {
        return Ok(Some(ServiceFault::Unlisted));
    };
    Ok(None)
}

/// Whether a service has no output.
fn has_no_output(service: &WrittenService) -> bool
    ensures { result ≡ not (nat_lt 0 (length (service_view service.now).outputs)) }
{
    service.outputs.is_empty()
}

/// The fault of a service, if it doesn't fit the decisions.
fn fault_of(
    alloc: Global,
    places: &Places,
    needs: &[Vec<usize>],
    service: &WrittenService,
) -> Result<Option<ServiceFault>, AllocError>
    requires distinct { has_name_twice (placed_model places.now) ≡ false }
    requires known { needs_by_place (placed_model places.now) ≡ Some (needs_view needs.now) }
    ensures { IfOk result (λ o. o ≡ service_fault (placed_model places.now) (service_view service.now)) }
{
    if has_no_output(service) {
        return Ok(Some(ServiceFault::NoOutput));
    }
    let Some(lists) = places.service(alloc, service)? else {
        return Ok(Some(ServiceFault::Stranger));
    };
    let fault = placed_fault(alloc, needs, &lists)?;
    Ok(fault)
}

/// Notes the service that is here, if it doesn't fit the decisions.
fn note_service(
    alloc: Global,
    notes: &mut Notes,
    places: &Places,
    needs: &[Vec<usize>],
    service: &WrittenService,
) -> Result<(), AllocError>
    requires distinct { has_name_twice (placed_model places.now) ≡ false }
    requires known { needs_by_place (placed_model places.now) ≡ Some (needs_view needs.now) }
    ensures { OnOk result (with_all (notes_view notes.old) (bad_service (placed_model places.now) (service_view service.now)) ≡ notes_view notes.new) }
{
    let Some(fault) = fault_of(alloc, places, needs, service)? else {
        return Ok(());
    };
    notes.note(Mistake::Service(fault))?;
    Ok(())
}

fn note_services(
    alloc: Global,
    notes: &mut Notes,
    places: &Places,
    needs: &[Vec<usize>],
    services: &[WrittenService],
) -> Result<(), AllocError>
    requires distinct { has_name_twice (placed_model places.now) ≡ false }
    requires known { needs_by_place (placed_model places.now) ≡ Some (needs_view needs.now) }
    ensures { OnOk result (with_all (notes_view notes.old) (each_of (bad_service (placed_model places.now)) (map service_view services.now)) ≡ notes_view notes.new) }
{
    for (index, service) in services.iter().enumerate() {
        notes.enter(Step::Index(index))?;
        note_service(alloc, notes, places, needs, service)?;
        notes.leave();
    }
    Ok(())
}

fn told_services(
    alloc: Global,
    model: &WrittenModel,
    places: &Places,
    needs: &[Vec<usize>],
) -> Result<Told, AllocError>
    requires placed { placed_model places.now ≡ model_view model.now }
    requires distinct { has_name_twice (placed_model places.now) ≡ false }
    requires known { needs_by_place (placed_model places.now) ≡ Some (needs_view needs.now) }
    ensures { IfOk result (λ t. told_view t ≡ first_of (bad_services_in (model_view model.now))) }
{
    let mut notes = Notes::new(alloc);
    notes.enter(Step::Key(Key::Services))?;
    note_services(alloc, &mut notes, places, needs, &model.services)?;
    notes.leave();
    Ok(Told::of(notes))
}

/// The services that don't fit the decisions, or None where a name stands twice, a needed name is unknown or the model is too
/// large: then this is not looked for.
pub fn bad_services(alloc: Global, model: &WrittenModel) -> Result<Option<Told>, AllocError>
    ensures none { IfOk result (λ o. is_none o ≡ has_no_graph (model_view model.now)) }
    ensures places { IfOk result (λ o. IfSome o (λ t. told_view t ≡ first_of (bad_services_in (model_view model.now)))) }
    ensures fault { IfOk result (λ o. IfSome o (λ t. nat_lt 0 t.count ≡ has_bad_service (model_view model.now))) }
{
    let places = Places::new(alloc, model)?;
    let Some(needs) = needs_of(alloc, model, &places)? else {
        return Ok(None);
    };
    let told = told_services(alloc, model, &places, &needs)?;
    Ok(Some(told))
}
