//! From a model as it is written to its items and the plans of its services.
ghost use Rattle.std.specs.Prelude.{◌≡◌, false, map, option_map, is_none, IfOk, IfErr, OnOk};
ghost use Rattle.dmn_form.specs.ModelView.{model_view};
ghost use Rattle.dmn_graph.specs.Needs.{needs_view};
ghost use Rattle.dmn_logic.specs.LogicView.{logic_view};
ghost use Rattle.dmn_names.specs.Names.{has_bad_name as has_bad_name_in, has_name_twice as has_name_twice_in, has_unknown_name};
ghost use Rattle.dmn_names.specs.Places.{needs_by_place};
ghost use Rattle.dmn_names.specs.PlacedModel.{placed_model};
ghost use Rattle.dmn_plan.specs.Due.{IsDue};
ghost use Rattle.dmn_plan.specs.Parts.{reading_of, IsReadable, AreLogicsOf, AreRequirementsOf};
ghost use Rattle.dmn_plan.specs.Plans.{HaveLogicOf, IsPlanned};
ghost use Rattle.dmn_plan.specs.ReadModel.{unless, first_fault};

use crate::fault::ModelFault;
use crate::items::{items_of, needs_of_decisions};
use crate::requirements::requirement_order;
use crate::scopes::{known_names, scopes_of};
use crate::services::service_plans;
use dmn_form::WrittenModel;
use dmn_logic::{Logic, read_decision_logic};
use dmn_names::{Places, has_bad_name, has_name_twice, is_large};
use dmn_service::{Item, ServicePlan};
use feel_lang::Needs;
use std::alloc::Global;

/// The inputs and decisions of a model by places, and the plans of its services.
#[derive(Drop)]
pub(crate) struct ModelPlan {
    /// First the inputs, and then the decisions.
    pub(crate) items: Vec<Item>,
    /// A plan for each service.
    pub(crate) services: Vec<ServicePlan>,
}

/// What is needed at each place, and the plan of each service.
#[derive(Drop)]
struct Requirements {
    needs: Vec<Vec<usize>>,
    services: Vec<ServicePlan>,
}

/// Sees that the names of a model are lawful and stand once each; otherwise tells the model's first fault.
fn check_names(alloc: Global, model: &WrittenModel) -> Result<(), ModelFault>
    ensures lawful { OnOk result (has_bad_name_in (model_view model.now) ≡ false) }
    ensures once { OnOk result (has_name_twice_in (model_view model.now) ≡ false) }
    ensures err { IfErr result (IsDue (reading_of (model_view model.now))) }
{
    if has_bad_name(model) {
        return Err(ModelFault::Name);
    }
    if has_name_twice(alloc, model)? {
        return Err(ModelFault::Twice);
    }
    Ok(())
}

/// The logic of each decision of a model whose names are lawful and stand once each, or the model's first fault. It is read under
/// what the decisions need and may bind.
fn readable_logic(
    alloc: Global,
    model: &WrittenModel,
    named: &[Needs],
    scopes: &[Needs],
) -> Result<Vec<Logic>, ModelFault>
    requires lawful { has_bad_name_in (model_view model.now) ≡ false }
    requires once { has_name_twice_in (model_view model.now) ≡ false }
    ensures readable { IfOk result (λ _. IsReadable (model_view model.now)) }
    ensures logic { IfOk result (λ v. AreLogicsOf (model_view model.now) (map logic_view v.items)) }
    ensures err { IfErr result (IsDue (reading_of (model_view model.now))) }
{
    let names = known_names(alloc, named, scopes)?;
    let logics = read_decision_logic(alloc, &model.decisions, &names)?;
    Ok(logics)
}

/// What the decisions of a readable model need, if it is known, and the plans of its services, or the model's first fault.
fn requirements_of(
    alloc: Global,
    model: &WrittenModel,
    places: &Places,
    needs: Option<Vec<Vec<usize>>>,
) -> Result<Requirements, ModelFault>
    requires readable { IsReadable (model_view model.now) }
    requires placed { placed_model places.now ≡ model_view model.now }
    requires needs { option_map (λ v. needs_view v.items) needs ≡ needs_by_place (model_view model.now) }
    requires unknown { is_none needs ≡ has_unknown_name (model_view model.now) }
    ensures ok { IfOk result (λ r. AreRequirementsOf (model_view model.now) (needs_view r.needs.items) r.services.items) }
    ensures err { IfErr result (IsDue (reading_of (model_view model.now))) }
{
    let Some(needs) = needs else {
        return Err(ModelFault::Unknown);
    };
    let Some(order) = requirement_order(alloc, model, &needs)? else {
        return Err(ModelFault::Cycle);
    };
    let Some(services) = service_plans(alloc, model, places, &needs, &order)? else {
        return Err(ModelFault::Service);
    };
    Ok(Requirements { needs, services })
}

/// The items and plans of a model that has the form, or its first fault. What a decision needs, and what its logic may bind, is
/// listed by names once: its texts are read under these lists, and evaluated over them.
pub(crate) fn plan_of(alloc: Global, model: &WrittenModel) -> Result<ModelPlan, ModelFault>
    ensures ok { IfOk result (λ p. IsPlanned (unless (first_fault (model_view model.now)) (model_view model.now)) p.items.items p.services.items) }
    ensures logic { IfOk result (λ p. HaveLogicOf (unless (first_fault (model_view model.now)) (model_view model.now)) p.items.items) }
    ensures err { IfErr result (IsDue (unless (first_fault (model_view model.now)) (model_view model.now))) }
{
    check_names(alloc, model)?;
    let places = Places::new(alloc, model)?;
    let needs = places.needs(alloc)?;
    let named = needs_of_decisions(alloc, model, &needs)?;
    let scopes = scopes_of(alloc, &model.decisions)?;
    let logics = readable_logic(alloc, model, &named, &scopes)?;
    let requirements = requirements_of(alloc, model, &places, needs)?;
    if is_large(model) {
        return Err(ModelFault::Large);
    }
    let items = items_of(alloc, model, requirements.needs, named, scopes, logics)?;
    Ok(ModelPlan {
        items,
        services: requirements.services,
    })
}
