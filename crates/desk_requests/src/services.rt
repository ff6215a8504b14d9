//! What the services of a model take, and whether a request to one is lawful.
ghost use Rattle.std.specs.Prelude.{◌≡◌, ℕ, List, IfOk, IsTrue, OnOk, None, false, is_some, map, true};
ghost use Rattle.std.specs.BTreeMap.{get_by_text};
ghost use Rattle.std.specs.BTreeSet.{contains_text};
ghost use Rattle.serde_json.specs.Find.{get};
ghost use Rattle.serde_json.specs.View.{view};
ghost use Rattle.feel_value.specs.Distinct.{is_among};
ghost use Rattle.feel_value.specs.Faults.{json_reading};
ghost use Rattle.dmn_plan.specs.ReadModel.{read_text};
ghost use Rattle.dmn_plan.specs.Request.{if_ok, request_of, service_in, value_under};
ghost use Rattle.desk_requests.specs.Services.{HasNoValue, HaveValues, KnowsServices, fault_in};

use dmn_plan::{Plan, TaskFault};
use feel_value::{Feel, ValueFault};
use serde_json::Value;
use std::alloc::{AllocError, Global};
use std::collections::{BTreeMap, BTreeSet};

/// Of each service of a model that was asked so far the names of what it takes values of.
#[derive(Drop)]
pub(crate) struct Services {
    pub(crate) known: BTreeMap<String, BTreeSet<String>>,
}

/// These names, in order.
fn set_of(alloc: Global, names: &[&str]) -> Result<BTreeSet<String>, AllocError>
    ensures { IfOk result (λ set. (n : List ℕ) → contains_text set n ≡ is_among (map (λ k. k.now) names.now) n) }
{
    let mut set = BTreeSet::new(alloc);
    for name in names {
        let name = String::from_str(alloc, *name)?;
        set.insert(name)?;
    }
    Ok(set)
}

/// Whether the JSON value stands for a value.
fn is_value(alloc: Global, json: &Value) -> Result<bool, AllocError>
    ensures { IfOk result (λ is. is ≡ is_some (if_ok (json_reading (view json.now)))) }
{
    match Feel::from_json(alloc, json) {
        Ok(_) => Ok(true),
        Err(ValueFault::Memory) => Err(AllocError),
        Err(_) => Ok(false),
    }
}

/// Whether what stands under a name, if anything does, stands for a value.
fn has_value(alloc: Global, inputs: &Value, name: &str) -> Result<bool, AllocError>
    ensures { IfOk result (λ has. has ≡ is_some (value_under (get name.now (view inputs.now)))) }
{
    let Some(json) = inputs.get(name) else {
        return Ok(true);
    };
    let is = is_value(alloc, json)?;
    Ok(is)
}

/// Whether the inputs are an object, and each of these names stands over a value there or not at all. The time is in proportion to
/// the inputs, times the logarithm of how many names there are.
fn have_values(alloc: Global, inputs: &Value, names: &BTreeSet<String>) -> Result<bool, AllocError>
    ensures all { IfOk result (λ have. IsTrue have → HaveValues names.now (view inputs.now)) }
    ensures none { IfOk result (λ have. have ≡ false → HasNoValue names.now (view inputs.now)) }
{
    let Value::Object(members) = inputs else {
        return Ok(false);
    };
    for (key, _member) in members.iter() {
        if !names.contains(key.as_str()) {
            continue;
        }
        if !has_value(alloc, inputs, key.as_str())? {
            return Ok(false);
        }
    }
    Ok(true)
}

impl Services {
    /// Before any is asked.
    pub(crate) fn new(alloc: Global) -> Services
        ensures { (text : List ℕ) → KnowsServices text result }
    {
        Services {
            known: BTreeMap::new(alloc),
        }
    }

    /// Keeps what a service takes. False where the plan has no such service.
    fn learn(&mut self, alloc: Global, plan: &Plan, service: &str) -> Result<bool, AllocError>
        ensures known { OnOk result (KnowsServices plan.now self.old → KnowsServices plan.now self.new) }
        ensures there { IfOk result (λ is. IsTrue is → is_some (get_by_text self.new.known service.now) ≡ true) }
        ensures lacks { IfOk result (λ is. is ≡ false → service_in (read_text plan.now) service.now ≡ None) }
    {
        if self.known.get(service).is_some() {
            return Ok(true);
        }
        let Some(names) = plan.parameters(alloc, service)? else {
            return Ok(false);
        };
        let set = set_of(alloc, &names)?;
        let name = String::from_str(alloc, service)?;
        self.known.insert(name, set)?;
        Ok(true)
    }

    /// Why the plan has no request to a service with these inputs, if it has none. What a service takes is looked up once.
    pub(crate) fn fault_of(
        &mut self,
        alloc: Global,
        plan: &Plan,
        service: &str,
        inputs: &Value,
    ) -> Result<Option<TaskFault>, AllocError>
        ensures known { OnOk result (KnowsServices plan.now self.old → KnowsServices plan.now self.new) }
        ensures fault { IfOk result (λ fault. KnowsServices plan.now self.old → fault ≡ fault_in (request_of plan.now service.now (view inputs.now))) }
    {
        let is_there = self.learn(alloc, plan, service)?;
        if !is_there {
            return Ok(Some(TaskFault::Service));
        }
        let Some(names) = self.known.get(service) else {
            return Ok(Some(TaskFault::Service));
        };
        let have = have_values(alloc, inputs, names)?;
        if have {
            return Ok(None);
        }
        Ok(Some(TaskFault::Value))
    }
}
