//! What a worker does in a step, and who sees its runs.
ghost use Rattle.std.specs.Prelude.{◌≡◌, ℕ};

use box_core::{Done, Job, Work};

/// What one step of a worker did.
#[derive(Clone, Copy, Debug, Drop, PartialEq, Eq)]
pub enum Stepped {
    /// One answer was posted.
    Answered,
    /// No lane gave a job.
    Idle,
    /// No lane gave a job, and a steal met another thread.
    Again,
    /// A run was refused memory. The worker holds the job.
    NoMemory,
    /// The answer could not be posted. The worker holds it.
    RingFull,
}

impl Stepped {
    ghost use Rattle.lanes.specs.Steps.{keeps};

    // Whether the worker holds a job or an answer after the step.
    pub(crate) fn keeps(self) -> bool
        ensures { result ≡ keeps self }
    {
        matches!(self, Stepped::NoMemory | Stepped::RingFull)
    }
}

/// It sees each run of a job of one worker, in that worker's thread.
pub trait Watch {
    /// What a call before a run does: by client and ticket, before it and after it.
    ghost entered: { ℕ → ℕ → Self → Self → Type 0 };

    /// What a call after a run does, likewise.
    ghost left: { ℕ → ℕ → Self → Self → Type 0 };

    /// Before each run, which then takes the job.
    fn enter<W: Work>(&mut self, client: u32, job: &Job<W>)
        ensures { entered client job.now.ticket self.old self.new };

    /// After each run that gave an outcome, before this answer is posted.
    fn leave<W: Work>(&mut self, client: u32, done: &Done<W>)
        ensures { left client done.now.ticket self.old self.new };
}

/// It sees each run of a job of any worker, from all their threads. What it keeps stands in cells, of which no clause can
/// speak: what it is shown is stated of a `Watch`, and `AtGate` passes that on.
pub trait Gate {
    /// Before each run.
    fn enter(&self, client: u32, ticket: u64);

    /// After each run that gave an outcome, before the answer is posted.
    fn leave(&self, client: u32, ticket: u64);
}

/// A worker's watch by a gate that all workers share.
#[derive(Clone, Copy, Drop)]
pub struct AtGate<'a, G>(pub &'a G);

impl<G: Gate> Watch for AtGate<'_, G> {
    ghost entered = { λ _ _ _ _. Unit {0} };

    ghost left = { λ _ _ _ _. Unit {0} };

    fn enter<W: Work>(&mut self, client: u32, job: &Job<W>) {
        self.0.enter(client, job.ticket());
    }

    fn leave<W: Work>(&mut self, client: u32, done: &Done<W>) {
        self.0.leave(client, done.ticket());
    }
}

/// The gate that does nothing.
#[derive(Clone, Copy, Drop)]
pub struct OpenGate;

impl Gate for OpenGate {
    fn enter(&self, _client: u32, _ticket: u64) {}

    fn leave(&self, _client: u32, _ticket: u64) {}
}
