//! Tasks: a service of a model with the values that it takes.
ghost use Rattle.std.specs.Prelude.{◌≡◌, IfOk, IfErr, IsSomeAnd, IsTrue, Some};
ghost use Rattle.std.specs.Arc.{arc_value};

use crate::course::Course;
use crate::fault::TaskFault;
use crate::plan::Plan;
use crate::same::same_values;
use box_core::Work;
use feel_value::{Feel, Outcome};
use model_marks::{Catalog, Mark, Unmarked};
use std::alloc::{AllocError, Global};
use std::marker::Model;
use std::sync::Arc;

/// A service of a model, with a value for each of its input decisions and then for each of its input data. Contracts see it as
/// the request that it stands for. Of two tasks with one mark no text is compared.
#[derive(Drop)]
pub struct Task<C: Catalog = Unmarked> {
    plan: Arc<Plan>,
    service: String,
    values: Vec<Feel>,
    /// The mark of the model's text, if it has one.
    mark: Option<Mark<C>>,
}

impl<C: Catalog> Model for Task<C> {
    ghost use Rattle.std.specs.Prelude.{◌≡◌, IfSome, length, string_bytes};
    ghost use Rattle.std.specs.Arc.{arc_value};
    ghost use Rattle.dmn_plan.specs.Code.{request_code};
    ghost use Rattle.dmn_plan.specs.Request.{Request, TakesValues};

    ghost Value = { Request };

    ghost coded = { request_code };

    ghost view = { λ t. record { text = arc_value t.plan; service = string_bytes t.service; values = t.values.items } };

    ghost invariant = { λ t. TakesValues (arc_value t.plan) (string_bytes t.service) (length t.values.items) × IfSome t.mark (λ mark. mark ≡ arc_value t.plan) };
}

/// Whether both marks are there, and are the same.
fn are_same<C: Catalog>(one: &Option<Mark<C>>, other: &Option<Mark<C>>) -> bool
    ensures { IsTrue result → IsSomeAnd one.now (λ mark. other.now ≡ Some mark) }
{
    let Some(one) = one else {
        return false;
    };
    let Some(other) = other else {
        return false;
    };
    one.is_same(other)
}

impl Task {
    ghost use Rattle.std.specs.Prelude.{◌≡◌, Ok, IfOk, IfErr};
    ghost use Rattle.std.specs.Arc.{arc_value};
    ghost use Rattle.serde_json.specs.View.{view};
    ghost use Rattle.dmn_plan.specs.Due.{IsTaskDue};
    ghost use Rattle.dmn_plan.specs.Request.{request_of};

    /// The task of a service of the plan, with values out of JSON: first Service, then Value. A parameter whose name is missing
    /// among the inputs is null, and a name that the service doesn't take is ignored.
    pub fn new(
        alloc: Global,
        plan: Arc<Plan>,
        service: &str,
        inputs: &serde_json::Value,
    ) -> Result<Task, TaskFault>
        ensures ok { IfOk result (λ t. request_of (arc_value plan) service.now (view inputs.now) ≡ Ok t) }
        ensures err { IfErr result (IsTaskDue (request_of (arc_value plan) service.now (view inputs.now))) }
    {
        let task = Task::marked(alloc, plan, None, service, inputs)?;
        Ok(task)
    }
}

impl<C: Catalog> Task<C> {
    ghost use Rattle.std.specs.Prelude.{◌≡◌, ◌↔◌, Ok, IfOk, IfErr, IfSome, IsTrue, is_some, true};
    ghost use Rattle.std.specs.Arc.{arc_value};
    ghost use Rattle.dmn_plan.specs.Course.{IsCourseOf};
    ghost use Rattle.serde_json.specs.View.{view};
    ghost use Rattle.dmn_plan.specs.Due.{IsTaskDue};
    ghost use Rattle.dmn_plan.specs.Request.{request_of};

    /// The same, with a mark of the model's text, if it has one.
    pub(crate) fn marked(
        alloc: Global,
        plan: Arc<Plan>,
        mark: Option<Mark<C>>,
        service: &str,
        inputs: &serde_json::Value,
    ) -> Result<Task<C>, TaskFault>
        requires { IfSome mark (λ m. m ≡ arc_value plan) }
        ensures ok { IfOk result (λ t. request_of (arc_value plan) service.now (view inputs.now) ≡ Ok t) }
        ensures err { IfErr result (IsTaskDue (request_of (arc_value plan) service.now (view inputs.now))) }
    {
        let values = plan.values_for(alloc, service, inputs)?;
        let service = String::from_str(alloc, service)?;
        Ok(Task {
            plan,
            service,
            values,
            mark,
        })
    }

    /// Whether two tasks are under one model.
    fn has_same_text(&self, other: &Task<C>) -> bool
        ensures { IsTrue result ↔ (self.now.text ≡ other.now.text) }
    {
        if are_same(&self.mark, &other.mark) {
            return true;
        }
        self.plan.text() == other.plan.text()
    }

    /// Whether two tasks under one model stand for one request.
    fn has_same_values(&self, other: &Task<C>) -> bool
        requires { self.now.text ≡ other.now.text }
        ensures { IsTrue result ↔ (self.now ≡ other.now) }
    {
        if self.service != other.service {
            return false;
        }
        same_values(&self.values, &other.values)
    }

    /// How the request is answered, with the outcome of each decision on the way. There is always one.
    pub fn course<'a>(&'a self, alloc: Global) -> Result<Option<Course<'a>>, AllocError>
        ensures there { IfOk result (λ c. is_some c ≡ true) }
        ensures course { IfOk result (λ c. IfSome c (IsCourseOf self.now)) }
    {
        let course = self
            .plan
            .course(alloc, self.service.as_str(), &self.values)?;
        Ok(course)
    }
}

impl<C: Catalog> Work for Task<C> {
    ghost use Rattle.dmn_plan.specs.Request as request;

    type Out = Outcome;

    ghost Request = { request.Request };

    ghost request = { λ t. t };

    ghost result_of = { request.request_result };

    fn same(&self, other: &Self) -> bool {
        if !self.has_same_text(other) {
            return false;
        }
        self.has_same_values(other)
    }

    fn run(&self, alloc: Global) -> Result<Outcome, AllocError> {
        let outcome = self
            .plan
            .outcome(alloc, self.service.as_str(), &self.values)?;
        Ok(outcome)
    }
}
