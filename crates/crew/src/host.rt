//! What runs on the calling thread beside the workers.
use crate::crew::Crew;
use std::sync::Wait;

/// What runs on the calling thread while the workers run in theirs: it has the clients' ends, so it submits requests and
/// hands out their results. It may stop the workers before it ends, and wait until they have ended.
pub trait Host {
    /// What a run answers.
    type Out: Drop;

    /// What a host needs to run.
    ghost ready: { Self → Type 0 };

    /// What a run promises of the host before it, the host after it and its answer.
    ghost done: { Self → Self → Self.Out → Type 0 };

    /// Runs to its end. The workers run until the crew is stopped, which is done after the run where the run doesn't.
    fn run<R: Wait>(&mut self, rt: &R, crew: &Crew) -> Self::Out
        requires { ready self.old }
        ensures { done self.old self.new result };
}
