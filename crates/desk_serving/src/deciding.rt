//! What decides: the model in force, and the lanes.
use crate::state::State;
use desk_requests::{Decider, Due, Seat};
use desk_wire::Word;
use dmn_plan::{MarkedPlan, ModelFault, Plan, Task, TaskFault};
use model_marks::Catalog;
use serde_json::Value;
use std::alloc::{AllocError, Global};
use std::sync::{Arc, Wait};

/// What is due to a line.
pub type DueHere<'a, C> = Due<'a, MarkedPlan<C>, Arc<Task<C>>>;

impl<'a, C: Catalog, R: Wait> Decider for State<'a, C, R> {
    ghost use Rattle.std.specs.Prelude.{◌≡◌, ℕ, List};
    ghost use Rattle.lanes.specs.Links.{Link};
    ghost use Rattle.desk_serving.specs.LanesView.{links_in};
    ghost use Rattle.desk_serving.specs.StateView.{IsSeat, IsTask, model_of};

    type Plan = MarkedPlan<C>;

    type Made = Arc<Task<C>>;

    ghost Kept = { List (List Link) };

    ghost kept = { λ state. links_in state.lanes };

    ghost text_of = { λ text. text };

    ghost force = { model_of };

    ghost Knows = { λ _. Unit {0} };

    ghost Keeps = { λ old new. new.lanes ≡ old.lanes };

    ghost Asks = { λ old _ new. new ≡ old };

    ghost IsSeat = { IsSeat };

    ghost IsMade = { IsTask };

    fn load(
        &mut self,
        alloc: Global,
        model: &Value,
    ) -> Result<Result<MarkedPlan<C>, Word>, AllocError> {
        match Plan::of(alloc, model) {
            Ok(plan) => {
                let kept = MarkedPlan::of(alloc, &mut self.marks, plan)?;
                Ok(Ok(kept))
            }
            Err(fault) => match fault {
                ModelFault::Memory => Err(AllocError),
                fault => Ok(Err(Word::of_fault(fault))),
            },
        }
    }

    fn make(
        &mut self,
        alloc: Global,
        service: &str,
        inputs: &Value,
    ) -> Result<Option<Result<Arc<Task<C>>, TaskFault>>, AllocError> {
        let Some(plan) = &self.plan else {
            return Ok(None);
        };
        match plan.task(alloc, service, inputs) {
            Ok(task) => {
                let work = Arc::new(alloc, task)?;
                Ok(Some(Ok(work)))
            }
            Err(fault) => match fault {
                TaskFault::Memory => Err(AllocError),
                fault => Ok(Some(Err(fault))),
            },
        }
    }

    fn seat(&mut self, _alloc: Global, name: &str) -> Result<Option<Seat>, AllocError> {
        Ok(self.lanes.seat(name))
    }
}
