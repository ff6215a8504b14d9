//! The form of a whole model.
ghost use Rattle.std.specs.Prelude.{◌≡◌, IfOk, option_map};
ghost use Rattle.serde_json.specs.View.{view};
ghost use Rattle.dmn_form.specs.Draft.{logic_of as logic_from, decision_of as decision_from, service_of as service_from, model_form, draft_of};
ghost use Rattle.dmn_form.specs.LogicView.{logic_view};
ghost use Rattle.dmn_form.specs.ModelView.{decision_view, decisions_view, service_view, services_view, model_view, logic_at_view, decisions_at_view, services_at_view};

use crate::fields::{has_only, text_at, texts_at};
use crate::logic::logic_of;
use crate::nesting::nests_within;
use crate::written::{WrittenDecision, WrittenLogic, WrittenModel, WrittenService};
use serde_json::Value;
use std::alloc::{AllocError, Global};

/// The most that lists and objects of a model may stand in each other.
const MOST_NESTING: usize = 127;

/// The boxed expression under the key `expr`.
fn logic_at(alloc: Global, json: &Value) -> Result<Option<WrittenLogic>, AllocError>
    ensures { IfOk result (λ o. option_map logic_view o ≡ logic_at_view (view json.now)) }
{
    let Some(found) = json.get("expr") else {
        return Ok(None);
    };
    let logic = logic_of(alloc, found)?;
    Ok(logic)
}

/// A decision.
fn decision_of(alloc: Global, json: &Value) -> Result<Option<WrittenDecision>, AllocError>
    ensures { IfOk result (λ o. option_map decision_view o ≡ decision_from (view json.now)) }
{
    if !has_only(json, &["name", "needs", "expr"]) {
        return Ok(None);
    }
    let Some(name) = text_at(alloc, json, "name")? else {
        return Ok(None);
    };
    let Some(needs) = texts_at(alloc, json, "needs")? else {
        return Ok(None);
    };
    let Some(logic) = logic_at(alloc, json)? else {
        return Ok(None);
    };
    Ok(Some(WrittenDecision { name, needs, logic }))
}

/// The decisions under the key `decisions`.
fn decisions_at(alloc: Global, json: &Value) -> Result<Option<Vec<WrittenDecision>>, AllocError>
    ensures { IfOk result (λ o. option_map decisions_view o ≡ decisions_at_view (view json.now)) }
{
    let Some(Value::Array(items)) = json.get("decisions") else {
        return Ok(None);
    };
    let mut decisions = Vec::with_capacity(alloc, items.len())?;
    for item in items {
        let Some(decision) = decision_of(alloc, item)? else {
            return Ok(None);
        };
        decisions.push(decision)?;
    }
    Ok(Some(decisions))
}

/// A decision service.
fn service_of(alloc: Global, json: &Value) -> Result<Option<WrittenService>, AllocError>
    ensures { IfOk result (λ o. option_map service_view o ≡ service_from (view json.now)) }
{
    let keys = [
        "name",
        "outputs",
        "encapsulated",
        "inputDecisions",
        "inputData",
    ];
    if !has_only(json, &keys) {
        return Ok(None);
    }
    let Some(name) = text_at(alloc, json, "name")? else {
        return Ok(None);
    };
    let Some(outputs) = texts_at(alloc, json, "outputs")? else {
        return Ok(None);
    };
    let Some(encapsulated) = texts_at(alloc, json, "encapsulated")? else {
        return Ok(None);
    };
    let Some(input_decisions) = texts_at(alloc, json, "inputDecisions")? else {
        return Ok(None);
    };
    let Some(input_data) = texts_at(alloc, json, "inputData")? else {
        return Ok(None);
    };
    Ok(Some(WrittenService {
        name,
        outputs,
        encapsulated,
        input_decisions,
        input_data,
    }))
}

/// The services under the key `services`.
fn services_at(alloc: Global, json: &Value) -> Result<Option<Vec<WrittenService>>, AllocError>
    ensures { IfOk result (λ o. option_map services_view o ≡ services_at_view (view json.now)) }
{
    let Some(Value::Array(items)) = json.get("services") else {
        return Ok(None);
    };
    let mut services = Vec::with_capacity(alloc, items.len())?;
    for item in items {
        let Some(service) = service_of(alloc, item)? else {
            return Ok(None);
        };
        services.push(service)?;
    }
    Ok(Some(services))
}

/// A model of the right keys and kinds, however deep.
fn model_of(alloc: Global, json: &Value) -> Result<Option<WrittenModel>, AllocError>
    ensures { IfOk result (λ o. option_map model_view o ≡ model_form (view json.now)) }
{
    if !has_only(json, &["inputs", "decisions", "services"]) {
        return Ok(None);
    }
    let Some(inputs) = texts_at(alloc, json, "inputs")? else {
        return Ok(None);
    };
    let Some(decisions) = decisions_at(alloc, json)? else {
        return Ok(None);
    };
    let Some(services) = services_at(alloc, json)? else {
        return Ok(None);
    };
    Ok(Some(WrittenModel {
        inputs,
        decisions,
        services,
    }))
}

/// The model as it is written, or None where the JSON value is no model in its keys and kinds, or nests over 127 deep.
pub fn read_form(alloc: Global, json: &Value) -> Result<Option<WrittenModel>, AllocError>
    ensures { IfOk result (λ o. option_map model_view o ≡ draft_of (view json.now)) }
{
    if !nests_within(json, MOST_NESTING) {
        return Ok(None);
    }
    let model = model_of(alloc, json)?;
    Ok(model)
}
