//! What a host and the workers beside it share.
use lanes::Signals;
use std::sync::Arc;
use std::sync::atomic::{AtomicBool, AtomicUsize, Ordering};

/// What a host and the workers' threads beside it share: whether the workers are to stop, and how many have ended.
#[derive(Drop)]
pub struct Crew {
    size: usize,
    stopping: AtomicBool,
    ended: AtomicUsize,
    signals: Arc<Signals>,
}

impl Crew {
    // A crew of so many workers of some lanes, none of which has ended.
    pub(crate) fn of(size: usize, signals: Arc<Signals>) -> Crew {
        Crew {
            size,
            stopping: AtomicBool::new(false),
            ended: AtomicUsize::new(0),
            signals,
        }
    }

    /// Tells the workers to stop, and wakes those that sleep. Each goes on while its steps post answers or meet another
    /// thread. It ends with the first step begun after this that finds no job, or keeps hold of a job or of an answer.
    pub fn stop(&self) {
        // A worker that is told to stop passes no lane.
        self.signals.mark_all();
        self.stopping.store(true, Ordering::SeqCst);
        self.signals.wake_workers();
    }

    /// Whether every worker has ended, so that no further answer is sent.
    pub fn has_ended(&self) -> bool {
        self.ended.load(Ordering::SeqCst) == self.size
    }

    /// What wakes the threads of the lanes.
    pub fn signals(&self) -> &Signals {
        &self.signals
    }

    // Whether the workers were told to stop.
    pub(crate) fn is_stopping(&self) -> bool {
        self.stopping.load(Ordering::SeqCst)
    }

    // One worker more has ended. A host that waits for answers is woken, also one that waits for many.
    pub(crate) fn add_ended(&self) {
        self.ended.fetch_add(1, Ordering::SeqCst);
        self.signals.add_answer();
        self.signals.end_to_post();
    }
}
