//! Requests that can be run.
ghost use Rattle.std.specs.Prelude.{◌≡◌, ◌↔◌, ℕ, IfOk, IfErr, IsTrue};
ghost use Rattle.std.specs.Arc.{arc_value};

use std::alloc::{AllocError, Global};
use std::marker::Model;
use std::sync::Arc;

/// A piece of work that stands for a request, and can be run for its result.
pub trait Work: Drop {
    /// What a run gives.
    type Out: Drop;

    /// The requests that works of this type stand for.
    ghost Request: { Type 0 };

    /// The request that a work stands for.
    ghost request: { Self → Request };

    /// The result of a request. No work stands in it, so works for one request have one result.
    ghost result_of: { Request → Self.Out };

    /// Whether two works stand for one request.
    fn same(&self, other: &Self) -> bool
        ensures { IsTrue result ↔ (request self.now ≡ request other.now) };

    /// The result of the work's request.
    fn run(&self, alloc: Global) -> Result<Self::Out, AllocError>
        ensures { IfOk result (λ out. out ≡ result_of (request self.now)) };
}

/// A work that was run, with its ticket and its outcome. Only a run makes one, so its outcome is the result of its
/// work's request, whichever thread or ring it came through.
#[derive(Drop)]
pub struct Done<W: Work> {
    ticket: u64,
    work: Arc<W>,
    outcome: W::Out,
}

impl<W: Work> Model for Done<W> {
    ghost use Rattle.std.specs.Prelude.{◌≡◌};
    ghost use Rattle.std.specs.Arc.{arc_value};
    ghost use Rattle.box_core.specs.Answer.{Ticketed};

    ghost Value = { Ticketed W };

    ghost view = { λ done. record { ticket = done.ticket; work = arc_value done.work } };

    ghost invariant = { λ done. done.outcome ≡ W.result_of (W.request (arc_value done.work)) };
}

/// The outcome of one accepted request.
#[derive(Drop)]
pub struct Reply<W: Work> {
    /// The ticket that the request was given.
    pub ticket: u64,
    /// What its work's run gave.
    pub outcome: W::Out,
}

impl<W: Work> Done<W> {
    /// Runs the work. Where memory is refused, the work comes back.
    pub fn of(alloc: Global, ticket: u64, work: Arc<W>) -> Result<Done<W>, (AllocError, Arc<W>)>
        ensures ticket { IfOk result (λ done. done.ticket ≡ ticket) }
        ensures work { IfOk result (λ done. done.work ≡ arc_value work) }
        ensures returned { IfErr result (λ refused. refused.1 ≡ work) }
    {
        match work.run(alloc) {
            Ok(outcome) => Ok(Done {
                ticket,
                work,
                outcome,
            }),
            Err(refused) => Err((refused, work)),
        }
    }

    /// The ticket.
    pub fn ticket(&self) -> u64
        ensures { result ≡ self.now.ticket }
    {
        self.ticket
    }

    /// The work.
    pub fn work(&self) -> &Arc<W>
        ensures { arc_value result.now ≡ self.now.work }
    {
        &self.work
    }

    /// The outcome, which is the result of the work's request.
    pub fn outcome(&self) -> &W::Out
        ensures { result.now ≡ W.result_of (W.request self.now.work) }
    {
        &self.outcome
    }

    /// The outcome, out of its answer.
    pub(crate) fn into_outcome(self) -> W::Out
        ensures { result ≡ W.result_of (W.request self.work) }
    {
        let Done { outcome, .. } = self;
        outcome
    }
}
