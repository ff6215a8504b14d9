//! When a worker that found no place for an answer tries again.
use bell::Bell;
use crossbeam_utils::CachePadded;
use std::alloc::{AllocError, Global};
use std::sync::Wait;

/// For each lane, how often its client took answers out of the lane's rings. A worker that holds an answer for which its ring
/// had no place sleeps on this count.
///
/// No wake-up is lost: the client takes answers first, then counts, then wakes. The worker reads the count first, then tries to
/// post its answer, and sleeps only where the ring was full at that try, with that count. The take that makes room for the
/// answer was not counted by then, or the try had found the room. So it is counted later, and then the worker is woken, or sees
/// another count than its own and does not sleep, as `Bell` says.
///
/// The count of a lane stands on cache lines of its own: a client changes it each time that it takes answers.
#[derive(Drop)]
pub struct Places {
    takes: Vec<CachePadded<Bell>>,
}

impl Places {
    /// Of no lane.
    pub fn new(alloc: Global) -> Places {
        Places {
            takes: Vec::new(alloc),
        }
    }

    /// Of so many lanes, from which nothing was taken.
    pub fn of(alloc: Global, lanes: u32) -> Result<Places, AllocError> {
        let mut takes = Vec::new(alloc);
        for _ in 0..lanes {
            takes.push(CachePadded::new(Bell::new()))?;
        }
        Ok(Places { takes })
    }

    /// How often a lane's client took answers.
    pub fn takes(&self, lane: u32) -> u64 {
        match self.takes.get(lane as usize) {
            Some(takes) => takes.count(),
            None => 0,
        }
    }

    /// A lane's client took answers: the workers that sleep over one for it are woken.
    pub fn add(&self, lane: u32) {
        if let Some(takes) = self.takes.get(lane as usize) {
            takes.add();
            takes.wake_all();
        }
    }

    /// The workers that sleep over an answer are woken, of all lanes.
    pub fn wake_all(&self) {
        for takes in &self.takes {
            takes.add();
            takes.wake_all();
        }
    }

    /// Sleeps while the lane's client took answers no more often than this, for so many milliseconds at most.
    pub fn sleep<R: Wait>(&self, rt: &R, lane: u32, seen: u64, millis: u64) {
        if let Some(takes) = self.takes.get(lane as usize) {
            takes.add_sleeper();
            takes.sleep(rt, seen, millis);
        }
    }
}
