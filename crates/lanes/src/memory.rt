//! When a worker that found no memory for a job tries again, and when that is of no use.
use bell::Bell;
use std::sync::Wait;
use std::sync::atomic::{AtomicU64, Ordering};

/// How often a worker may be refused memory for the job that it holds, with nothing freed between, before it counts as starved. Its
/// pauses make that some second.
const TRIES: u64 = 12;

/// What workers share that hold a job for which there was no memory.
///
/// What this process holds comes free where a job that runs ends, or where an answer is handed out and written. Then those that
/// lack memory are woken and try again, and their tries count anew. Other processes may free some at any time, so they also try
/// again after pauses that grow. A worker reads the count of what was freed before each try, so it does not sleep over what came
/// free since, as `Bell` says.
#[derive(Drop)]
pub struct Memory {
    // How many workers hold a job that was refused memory.
    lacking: AtomicU64,
    // How often they were refused it since something was freed.
    tries: AtomicU64,
    // How often something was freed while a worker lacked memory.
    freed: Bell,
}

impl Memory {
    /// No worker lacks any.
    pub fn new() -> Memory {
        Memory {
            lacking: AtomicU64::new(0),
            tries: AtomicU64::new(0),
            freed: Bell::new(),
        }
    }

    /// One worker more holds a job that was refused memory.
    pub fn begin_to_lack(&self) {
        self.lacking.fetch_add(1, Ordering::SeqCst);
    }

    /// One worker less does.
    pub fn end_to_lack(&self) {
        self.lacking.fetch_sub(1, Ordering::SeqCst);
    }

    /// A try found no memory.
    pub fn add_try(&self) {
        self.tries.fetch_add(1, Ordering::SeqCst);
    }

    /// Whether it is of no use to try again, where so many jobs are taken and not answered: each of them was refused memory, and
    /// often enough.
    pub fn is_used_up(&self, taken: u64) -> bool {
        let lacking = self.lacking.load(Ordering::SeqCst);
        lacking > 0
            && taken <= lacking
            && self.tries.load(Ordering::SeqCst) >= TRIES.saturating_mul(lacking)
    }

    /// How often something was freed while a worker lacked memory.
    pub fn freed(&self) -> u64 {
        self.freed.count()
    }

    /// Something was freed. Where no worker lacks memory this costs a read.
    pub fn free(&self) {
        if self.lacking.load(Ordering::SeqCst) > 0 {
            self.tries.store(0, Ordering::SeqCst);
            self.freed.add();
            self.freed.wake_all();
        }
    }

    /// Sleeps while something was freed no more often than this, for so many milliseconds at most.
    pub fn sleep<R: Wait>(&self, rt: &R, seen: u64, millis: u64) {
        self.freed.add_sleeper();
        self.freed.sleep(rt, seen, millis);
    }
}
