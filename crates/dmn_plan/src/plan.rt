//! Decision models that were read.
ghost use Rattle.std.specs.Prelude.{◌≡◌, Some, IfOk, IfErr, IsUtf8};
ghost use Rattle.serde_json.specs.Read.{read};
ghost use Rattle.serde_json.specs.View.{view};
ghost use Rattle.dmn_plan.specs.Due.{IsReadDue};

use crate::course::Course;
use crate::fault::{ModelFault, TaskFault};
use crate::index::{plans_among, plans_by_name};
use crate::items::logics_in;
use crate::planning::plan_of;
use crate::values::{names_at, values_at};
use dmn_form::{WrittenModel, read_form};
use dmn_logic::Logic;
use dmn_service::{Item, ServicePlan, service_evaluation, service_outcome_in_order};
use feel_value::{Feel, Outcome};
use std::alloc::{AllocError, Global};
use std::collections::BTreeMap;
use std::marker::Model;

/// A decision model without a fault, ready for requests to its services. Contracts see the bytes of its text.
#[derive(Drop)]
pub struct Plan {
    text: String,
    items: Vec<Item>,
    services: BTreeMap<String, ServicePlan>,
}

/// Services of a model: its items, and the plans of some services among them.
#[derive(Drop)]
pub struct Services<'a> {
    /// The inputs of the model and then its decisions, each at its place.
    pub items: &'a [Item],
    /// The plans.
    pub plans: Vec<&'a ServicePlan>,
}

impl Model for Plan {
    ghost use Rattle.std.specs.Prelude.{List, ℕ, string_bytes};
    ghost use Rattle.dmn_plan.specs.Indexed.{IsIndexed};
    ghost use Rattle.dmn_plan.specs.Plans.{HaveLogicOf};
    ghost use Rattle.dmn_plan.specs.ReadModel.{read_text};

    ghost Value = { List ℕ };

    ghost view = { λ p. string_bytes p.text };

    ghost invariant = { λ p. IsIndexed (read_text (string_bytes p.text)) p.items.items p.services × HaveLogicOf (read_text (string_bytes p.text)) p.items.items };
}

impl Plan {
    ghost use Rattle.std.specs.Prelude.{◌≡◌, Some, true, is_ok, option_map, IfOk, IfErr, IsUtf8};
    ghost use Rattle.feel_text.specs.Expr.{Expr};
    ghost use Rattle.dmn_table.specs.Table.{Table};
    ghost use Rattle.dmn_form.specs.Draft.{draft_of};
    ghost use Rattle.dmn_form.specs.Model.{Model};
    ghost use Rattle.dmn_form.specs.ModelView.{model_view};
    ghost use Rattle.dmn_logic.specs.LogicView.{logic_view};
    ghost use Rattle.serde_json.specs.Data.{Data};
    ghost use Rattle.serde_json.specs.Read.{read};
    ghost use Rattle.serde_json.specs.View.{view};
    ghost use Rattle.serde_json.specs.Written.{compact_text};
    ghost use Rattle.dmn_plan.specs.Due.{IsDue, IsReadDue, IsTaskDue};
    ghost use Rattle.dmn_plan.specs.ReadModel.{read_model, read_text};
    ghost use Rattle.dmn_plan.specs.Request.{TakesValues, request_of, request_result, service_in};
    ghost use Rattle.dmn_service.specs.Decision.{parameters_of};
    ghost use Rattle.std.specs.Prelude.{length, map, Ok, IfSome, is_some};
    ghost use Rattle.dmn_plan.specs.Course.{IsCourseOf};
    ghost use Rattle.dmn_plan.specs.Served.{ArePlansOf, IsServicePlan};

    /// The plan of a model in JSON, or its first fault: Shape, Name, Twice, Expression, Table, Unknown, Cycle, Service, Large, in
    /// this order. Its text is the compact text of the value, with the keys of each object in the order of their bytes.
    pub fn of(alloc: Global, json: &serde_json::Value) -> Result<Plan, ModelFault>
        ensures same { IfOk result (λ p. read p ≡ Some (view json.now)) }
        ensures model { IfOk result (λ p. read_text p ≡ read_model (view json.now)) }
        ensures read { IfOk result (λ _. is_ok (read_model (view json.now)) ≡ true) }
        ensures compact { IfOk result (λ p. p ≡ compact_text (view json.now)) }
        ensures err { IfErr result (IsDue (read_model (view json.now))) }
    {
        let Some(model) = read_form(alloc, json)? else {
            return Err(ModelFault::Shape);
        };
        let plan = Plan::of_form(alloc, json, &model)?;
        Ok(plan)
    }

    /// The same of a model whose form was read: its first fault is none of Shape.
    pub fn of_form(
        alloc: Global,
        json: &serde_json::Value,
        model: &WrittenModel,
    ) -> Result<Plan, ModelFault>
        requires { draft_of (view json.now) ≡ Some (model_view model.now) }
        ensures same { IfOk result (λ p. read p ≡ Some (view json.now)) }
        ensures model { IfOk result (λ p. read_text p ≡ read_model (view json.now)) }
        ensures read { IfOk result (λ _. is_ok (read_model (view json.now)) ≡ true) }
        ensures compact { IfOk result (λ p. p ≡ compact_text (view json.now)) }
        ensures err { IfErr result (IsDue (read_model (view json.now))) }
    {
        let plan = plan_of(alloc, model)?;
        let services = plans_by_name(alloc, plan.services)?;
        let text = json.to_string(alloc)?;
        Ok(Plan {
            text,
            items: plan.items,
            services,
        })
    }

    /// The plan of a model in the bytes of a JSON text, or its first fault: first Syntax, and then the others.
    pub fn read(alloc: Global, text: &[u8]) -> Result<Plan, ModelFault>
        ensures utf8 { IfOk result (λ _. IsUtf8 text.now) }
        ensures same { IfOk result (λ p. read p ≡ read text.now) }
        ensures model { IfOk result (λ p. read_text p ≡ read_text text.now) }
        ensures read { IfOk result (λ _. is_ok (read_text text.now) ≡ true) }
        ensures compact { IfOk result (λ p. option_map compact_text (read text.now) ≡ Some p) }
        ensures err { IfErr result (IsReadDue text.now) }
    {
        let json = value_of(alloc, text)?;
        let plan = Plan::of(alloc, &json)?;
        Ok(plan)
    }

    /// The outcome of the service of this name, for these values of its parameters: its input decisions, then its input data.
    pub fn outcome(
        &self,
        alloc: Global,
        service: &str,
        values: &[Feel],
    ) -> Result<Outcome, AllocError>
        requires { TakesValues self.now service.now (length values.now) }
        ensures { IfOk result (λ o. o ≡ request_result (record { text = self.now; service = service.now; values = values.now })) }
    {
        let Some(plan) = self.services.get(service) else {
            return Ok(Outcome::Limit);
        };
        let outcome = service_outcome_in_order(alloc, &self.items, plan, values)?;
        Ok(outcome)
    }

    /// How the service of this name is answered, for these values of its parameters.
    pub(crate) fn course<'a>(
        &'a self,
        alloc: Global,
        service: &str,
        values: &[Feel],
    ) -> Result<Option<Course<'a>>, AllocError>
        requires { TakesValues self.now service.now (length values.now) }
        ensures there { IfOk result (λ c. is_some c ≡ true) }
        ensures course { IfOk result (λ c. IfSome c (IsCourseOf (record { text = self.now; service = service.now; values = values.now }))) }
    {
        let Some(plan) = self.services.get(service) else {
            return Ok(None);
        };
        let evaluation = service_evaluation(alloc, &self.items, plan, values)?;
        Ok(Some(Course {
            items: &self.items,
            service: plan,
            outcomes: evaluation.outcomes,
            result: evaluation.result,
        }))
    }

    /// The values that the service of this name takes, out of JSON: first Service, then Value. A parameter whose name is missing
    /// is null, and a name that the service doesn't take is ignored.
    pub(crate) fn values_for(
        &self,
        alloc: Global,
        service: &str,
        inputs: &serde_json::Value,
    ) -> Result<Vec<Feel>, TaskFault>
        ensures ok { IfOk result (λ v. request_of self.now service.now (view inputs.now) ≡ Ok (record { text = self.now; service = service.now; values = v.items })) }
        ensures err { IfErr result (IsTaskDue (request_of self.now service.now (view inputs.now))) }
    {
        let Some(plan) = self.services.get(service) else {
            return Err(TaskFault::Service);
        };
        let Some(values) = values_at(alloc, inputs, &self.items, &plan.parameters)? else {
            return Err(TaskFault::Value);
        };
        Ok(values)
    }

    /// The names of what the service of this name takes values of: its input decisions, and then its input data. None where there is no
    /// such service.
    pub fn parameters<'a>(
        &'a self,
        alloc: Global,
        service: &str,
    ) -> Result<Option<Vec<&'a str>>, AllocError>
        ensures { IfOk result (λ found. option_map (λ names. map (λ n. n.now) names.items) found ≡ option_map parameters_of (service_in (read_text self.now) service.now)) }
    {
        let Some(plan) = self.services.get(service) else {
            return Ok(None);
        };
        let names = names_at(alloc, &self.items, &plan.parameters)?;
        Ok(Some(names))
    }

    /// The items of the model, and the plan of the service of this name among them. None where there is no such service.
    pub fn service_plan(&self, service: &str) -> Option<(&[Item], &ServicePlan)>
        ensures plan { IfSome result (λ p. IsServicePlan (read_text self.now) service.now p.0.now p.1.now) }
        ensures there { is_some result ≡ is_some (service_in (read_text self.now) service.now) }
    {
        let plan = self.services.get(service)?;
        Some((&self.items, plan))
    }

    /// The plans of the services of these names, in their order. None where there is no such service.
    pub fn services<'a>(
        &'a self,
        alloc: Global,
        names: &[&str],
    ) -> Result<Option<Services<'a>>, AllocError>
        ensures { IfOk result (λ found. IfSome found (λ s. ArePlansOf (read_text self.now) s.items.now (map (λ n. n.now) names.now) (map (λ p. p.now) s.plans.items))) }
    {
        let Some(plans) = plans_among(alloc, &self.services, names)? else {
            return Ok(None);
        };
        Ok(Some(Services {
            items: &self.items,
            plans,
        }))
    }

    /// The logic of each decision, in the order of the model.
    pub fn logics<'a>(&'a self, alloc: Global) -> Result<Vec<&'a Logic>, AllocError>
        ensures { IfOk result (λ found. (m : Model Expr Table) → read_text self.now ≡ Ok m → map (λ l. logic_view l.now) found.items ≡ map (λ d. d.logic) m.decisions) }
    {
        let found = logics_in(alloc, &self.items)?;
        Ok(found)
    }

    /// The compact text of the model, with the keys of each object in the order of their bytes.
    pub fn text(&self) -> &[u8]
        ensures { result.now ≡ self.now }
    {
        self.text.as_bytes()
    }
}

/// The JSON value of a text.
#[tactic(auto, using(crate::proofs::Indexing::model_of_text))]
fn value_of(alloc: Global, text: &[u8]) -> Result<serde_json::Value, ModelFault>
    ensures utf8 { IfOk result (λ _. IsUtf8 text.now) }
    ensures value { IfOk result (λ v. read text.now ≡ Some (view v)) }
    ensures err { IfErr result (IsReadDue text.now) }
{
    match serde_json::Value::from_slice(alloc, text) {
        Ok(json) => Ok(json),
        Err(error) if error.is_memory() => Err(ModelFault::Memory),
        Err(_) => Err(ModelFault::Syntax),
    }
}
