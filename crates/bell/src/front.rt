//! The bell on which the front sleeps.
use crate::bell::Bell;
use crossbeam_utils::CachePadded;
use std::sync::Wait;
use std::sync::atomic::{AtomicU64, Ordering};

/// What wakes the front: answers that are posted, and calls. A call counts as an answer, so that a front that is about to sleep
/// sees another count; how many there were is counted too.
#[derive(Drop)]
pub struct FrontBell {
    answers: CachePadded<Bell>,
    calls: AtomicU64,
}

impl FrontBell {
    /// A bell that nobody rang.
    pub fn new() -> FrontBell {
        FrontBell {
            answers: CachePadded::new(Bell::new()),
            calls: AtomicU64::new(0),
        }
    }

    /// The count of answers and calls, and who sleeps on it.
    pub fn answers(&self) -> &Bell {
        &self.answers
    }

    /// How often the front was called.
    pub fn calls(&self) -> u64 {
        self.calls.load(Ordering::SeqCst)
    }

    /// Wakes a front that sleeps, or is about to.
    pub fn call(&self) {
        self.calls.fetch_add(1, Ordering::SeqCst);
        self.answers.add();
        self.answers.wake_one();
    }

    /// The front sleeps while as many answers and calls as this were counted, at most for so many milliseconds.
    pub fn sleep<R: Wait>(&self, rt: &R, seen: u64, millis: u64) {
        self.answers.add_sleeper();
        self.answers.sleep(rt, seen, millis);
    }
}
