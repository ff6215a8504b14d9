//! Which lanes may hold a job.
use std::sync::atomic::{AtomicU64, Ordering};

/// Which lanes may hold a job: a mark for each, a bit of one word. A worker passes a lane that has none.
///
/// No job is passed for good: each step is sequentially consistent. A client puts a job first and marks its lane after
/// that, unless it is marked. A worker that finds a lane empty takes the mark away, and who took it away looks once more: a
/// job that was put between the two looks may have found the mark still there. Where this look doesn't find the lane empty,
/// the lane is marked again. So a lane whose mark stays away was empty at the second look, and a job that is put later
/// finds no mark.
#[derive(Drop)]
pub struct Marks {
    marked: AtomicU64,
    // The marks of all lanes that there are.
    all: u64,
}

impl Marks {
    /// No mark, for so many lanes, at most 64.
    pub fn of(lanes: u32) -> Marks {
        Marks {
            marked: AtomicU64::new(0),
            all: !u64::MAX.checked_shl(lanes).unwrap_or(0),
        }
    }

    /// The lanes that are marked: a bit for each, the lowest for the first.
    pub fn marked(&self) -> u64 {
        self.marked.load(Ordering::SeqCst)
    }

    /// Marks a lane. Where it is marked already this costs a read.
    pub fn mark(&self, lane: u32) {
        let mark = mark_of(lane);
        if self.marked() & mark == 0 {
            self.marked.fetch_or(mark, Ordering::SeqCst);
        }
    }

    /// Takes a lane's mark away, and tells whether there was one. Where another thread did it already this costs a read.
    pub fn unmark(&self, lane: u32) -> bool {
        let mark = mark_of(lane);
        if self.marked() & mark == 0 {
            return false;
        }
        self.marked.fetch_and(!mark, Ordering::SeqCst) & mark != 0
    }

    /// Marks each lane.
    pub fn mark_all(&self) {
        self.marked.fetch_or(self.all, Ordering::SeqCst);
    }
}

// The bit of a lane, one of the first 64.
fn mark_of(lane: u32) -> u64 {
    1u64.wrapping_shl(lane)
}
