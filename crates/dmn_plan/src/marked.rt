//! Plans with a mark.
ghost use Rattle.std.specs.Prelude.{◌≡◌, IfOk, IfErr, OnErr};

use crate::fault::TaskFault;
use crate::plan::Plan;
use crate::task::Task;
use model_marks::{Catalog, Mark, Marks};
use std::alloc::{AllocError, Global};
use std::marker::Model;
use std::sync::Arc;

/// A plan that tasks share, and the mark of its text, if there was one left. Contracts see the bytes of its text.
#[derive(Drop)]
pub struct MarkedPlan<C: Catalog> {
    plan: Arc<Plan>,
    mark: Option<Mark<C>>,
}

impl<C: Catalog> Model for MarkedPlan<C> {
    ghost use Rattle.std.specs.Prelude.{◌≡◌, List, ℕ, IfSome};
    ghost use Rattle.std.specs.Arc.{arc_value};

    ghost Value = { List ℕ };

    ghost view = { λ p. arc_value p.plan };

    ghost invariant = { λ p. IfSome p.mark (λ mark. mark ≡ arc_value p.plan) };
}

impl<C: Catalog> MarkedPlan<C> {
    ghost use Rattle.std.specs.Prelude.{Ok};
    ghost use Rattle.serde_json.specs.View.{view};
    ghost use Rattle.dmn_plan.specs.Due.{IsTaskDue};
    ghost use Rattle.dmn_plan.specs.Request.{request_of};

    /// The plan with the next mark, if one is left.
    pub fn of(alloc: Global, marks: &mut Marks<C>, plan: Plan) -> Result<MarkedPlan<C>, AllocError>
        ensures plan { IfOk result (λ marked. marked ≡ plan) }
        ensures same { OnErr result (marks.new ≡ marks.old) }
    {
        let plan = Arc::new(alloc, plan)?;
        let mark = marks.mark(plan.text());
        Ok(MarkedPlan { plan, mark })
    }

    /// The task of a service of the plan, with values out of JSON: first Service, then Value.
    pub fn task(
        &self,
        alloc: Global,
        service: &str,
        inputs: &serde_json::Value,
    ) -> Result<Task<C>, TaskFault>
        ensures ok { IfOk result (λ t. request_of self.now service.now (view inputs.now) ≡ Ok t) }
        ensures err { IfErr result (IsTaskDue (request_of self.now service.now (view inputs.now))) }
    {
        let plan = Arc::try_clone(&self.plan)?;
        let task = Task::marked(alloc, plan, again(&self.mark), service, inputs)?;
        Ok(task)
    }
}

/// A mark once more.
fn again<C: Catalog>(mark: &Option<Mark<C>>) -> Option<Mark<C>>
    ensures { result ≡ mark.now }
{
    match mark {
        Some(mark) => Some(mark.again()),
        None => None,
    }
}
