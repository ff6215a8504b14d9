//! The inputs and decisions of a model, by places.
ghost use Rattle.std.specs.Prelude.{◌≡◌, [], None, Some, IfOk, map, length, drop, option_map};
ghost use Rattle.std.specs.List.{filter_map};
ghost use Rattle.dmn_form.specs.ModelView.{model_view};
ghost use Rattle.dmn_graph.specs.Needs.{needs_view};
ghost use Rattle.dmn_logic.specs.LogicView.{logic_view};
ghost use Rattle.dmn_names.specs.Parts.{value_names};
ghost use Rattle.dmn_names.specs.Places.{needs_by_place};
ghost use Rattle.dmn_plan.specs.Plans.{AreItemsOf, AreNamed, AreNeedsOf, needed_by_name, place_name};
ghost use Rattle.dmn_service.specs.Places.{named_places};
ghost use Rattle.dmn_plan.specs.Items.{IsAfterInputs, have_names, have_needs, have_logic};

use dmn_form::WrittenModel;
use dmn_logic::Logic;
use dmn_service::Item;
use feel_lang::Needs;
use std::alloc::{AllocError, Global};
use std::sync::ArcStr;

/// The inputs: each needs nothing and has no logic.
fn input_items(alloc: Global, model: &WrittenModel) -> Result<Vec<Item>, AllocError>
    ensures names { IfOk result (λ v. have_names v.items ≡ (model_view model.now).inputs) }
    ensures needs { IfOk result (λ v. have_needs v.items ≡ map (λ n. []) (model_view model.now).inputs) }
    ensures logic { IfOk result (λ v. have_logic v.items ≡ map (λ n. None) (model_view model.now).inputs) }
    ensures named { IfOk result (λ v. AreNamed (model_view model.now) v.items) }
{
    let mut items = Vec::with_capacity(alloc, model.inputs.len())?;
    for input in &model.inputs {
        let name = ArcStr::from_str(alloc, input.as_str())?;
        items.push(Item {
            name,
            needs: Vec::new(alloc),
            named: Needs::new(alloc),
            scope: Needs::new(alloc),
            logic: None,
        })?;
    }
    Ok(items)
}

/// The name at a place; an empty text where there is none.
fn name_of_place(model: &WrittenModel, place: usize) -> &str
    ensures { result.now ≡ place_name (model_view model.now) place }
{
    let inputs = model.inputs.len();
    if place < inputs {
        return model.inputs[place].as_str();
    }
    match model.decisions.get(place - inputs) {
        Some(decision) => decision.name.as_str(),
        None => "",
    }
}

/// The needed places under their names.
fn named_needs(alloc: Global, model: &WrittenModel, places: &[usize]) -> Result<Needs, AllocError>
    ensures { IfOk result (λ n. n ≡ named_places (place_name (model_view model.now)) places.now) }
{
    let mut needs = Needs::new(alloc);
    for place in places {
        needs.push(name_of_place(model, *place), *place)?;
    }
    needs.put_in_order()?;
    Ok(needs)
}

/// The places that each of these needs, under their names.
fn all_named(
    alloc: Global,
    model: &WrittenModel,
    needs: &[Vec<usize>],
) -> Result<Vec<Needs>, AllocError>
    ensures { IfOk result (λ v. v.items ≡ needed_by_name (model_view model.now) (needs_view needs.now)) }
{
    let mut named = Vec::with_capacity(alloc, needs.len())?;
    for places in needs {
        named.push(named_needs(alloc, model, places)?)?;
    }
    Ok(named)
}

/// What each decision needs, under its names; nothing is listed where a needed name is unknown. `needs` has what each input and each
/// decision needs, if all of it is known.
pub(crate) fn needs_of_decisions(
    alloc: Global,
    model: &WrittenModel,
    needs: &Option<Vec<Vec<usize>>>,
) -> Result<Vec<Needs>, AllocError>
    requires { option_map (λ v. needs_view v.items) needs.now ≡ needs_by_place (model_view model.now) }
    ensures { IfOk result (λ v. AreNeedsOf (model_view model.now) v.items) }
{
    let Some(needs) = needs else {
        return Ok(Vec::new(alloc));
    };
    let (_, needs) = needs.split_at(model.inputs.len());
    let named = all_named(alloc, model, needs)?;
    Ok(named)
}

/// The inputs, and then the decisions with what each needs and its logic. `needs` has a list for each input and each decision,
/// those of inputs being empty, `named` the same under names for each decision, `scopes` the names that its logic may bind, if it
/// is long enough, and `logics` the logic of each decision.
pub(crate) fn items_of(
    alloc: Global,
    model: &WrittenModel,
    mut needs: Vec<Vec<usize>>,
    named: Vec<Needs>,
    scopes: Vec<Needs>,
    logics: Vec<Logic>,
) -> Result<Vec<Item>, AllocError>
    requires needs { IsAfterInputs (model_view model.now) (needs_view needs.items) }
    requires named { named.items ≡ needed_by_name (model_view model.now) (drop (length (model_view model.now).inputs) (needs_view needs.items)) }
    requires logics { length logics.items ≡ length (model_view model.now).decisions }
    ensures { IfOk result (λ v. AreItemsOf (model_view model.now) (needs_view needs.items) (map logic_view logics.items) v.items) }
{
    let mut items = input_items(alloc, model)?;
    let mut needs = needs.split_off(model.inputs.len())?.into_iter();
    let mut named = named.into_iter();
    let mut scopes = scopes.into_iter();
    let mut logics = logics.into_iter();
    for decision in &model.decisions {
        let Some(needs) = needs.next() else {
            break;
        };
        let Some(named) = named.next() else {
            break;
        };
        let Some(logic) = logics.next() else {
            break;
        };
        let name = ArcStr::from_str(alloc, decision.name.as_str())?;
        let scope = scopes.next().unwrap_or(Needs::new(alloc));
        items.push(Item {
            name,
            needs,
            named,
            scope,
            logic: Some(logic),
        })?;
    }
    Ok(items)
}

/// The logic of those that have some.
pub(crate) fn logics_in<'a>(alloc: Global, items: &'a [Item]) -> Result<Vec<&'a Logic>, AllocError>
    ensures { IfOk result (λ found. map (λ l. logic_view l.now) found.items ≡ filter_map (λ x. option_map logic_view x.logic) items.now) }
{
    let mut found = Vec::with_capacity(alloc, items.len())?;
    for item in items {
        if let Some(logic) = &item.logic {
            found.push(logic)?;
        }
    }
    Ok(found)
}
