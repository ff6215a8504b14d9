//! A count on which threads sleep.
use std::hint;
use std::sync::Wait;
use std::sync::atomic::{AtomicU64, Ordering};
use std::time::Duration;

/// It counts things, and threads sleep on it until there is one more.
///
/// Who puts a thing puts it first, then counts it by `add`, then wakes. Who looks for things reads the count first, then
/// looks, and sleeps only where it found nothing, by `sleep` with that count. No wake-up is lost by this: each step is
/// sequentially consistent. A thing that was counted before the count was read was there for the look. For one that is
/// counted later, either the sleeper was already one of `sleepers` when the waker read these, and is woken, or it
/// became one after the count rose, and then the system sees another count than the one given, and does not sleep.
#[derive(Drop)]
pub struct Bell {
    count: AtomicU64,
    sleepers: AtomicU64,
}

impl Bell {
    /// A bell for which nothing was counted.
    pub fn new() -> Bell {
        Bell {
            count: AtomicU64::new(0),
            sleepers: AtomicU64::new(0),
        }
    }

    /// How many things were counted.
    pub fn count(&self) -> u64 {
        self.count.load(Ordering::SeqCst)
    }

    /// Counts one thing more, and tells how many there are.
    pub fn add(&self) -> u64 {
        self.count.fetch_add(1, Ordering::SeqCst).wrapping_add(1)
    }

    /// Wakes one thread that sleeps. It costs a read where none does.
    pub fn wake_one(&self) {
        if self.has_sleepers() {
            self.count.wake_one();
        }
    }

    /// Wakes all threads that sleep.
    pub fn wake_all(&self) {
        if self.has_sleepers() {
            self.count.wake_all();
        }
    }

    /// Whether a thread sleeps, or is about to.
    pub fn has_sleepers(&self) -> bool {
        self.sleepers.load(Ordering::SeqCst) > 0
    }

    /// Looks at the count for so many turns, as long as it is this one, and gives how many turns are left.
    pub fn watch(&self, seen: u64, turns: u32) -> u32 {
        for turn in 0..turns {
            if self.count() != seen {
                return turns - turn;
            }
            hint::spin_loop();
        }
        0
    }

    /// Counts one thread more that sleeps.
    pub fn add_sleeper(&self) {
        self.sleepers.fetch_add(1, Ordering::SeqCst);
    }

    /// Sleeps while as many things as this were counted, at most for so many milliseconds, as one who was counted among the
    /// sleepers.
    pub fn sleep<R: Wait>(&self, rt: &R, seen: u64, millis: u64) {
        let longest = Duration::from_millis(millis);
        self.count
            .park_timeout(rt, (seen & 0xffff_ffff) as u32, longest);
        self.end_sleep();
    }

    /// Counts one thread less that sleeps.
    pub fn end_sleep(&self) {
        self.sleepers.fetch_sub(1, Ordering::SeqCst);
    }
}
