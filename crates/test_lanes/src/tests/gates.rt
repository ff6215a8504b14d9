//! What a gate sees of a worker's runs.
use super::{ANSWERED, Call, Reply, Seen, Task, are_seen, ends_of, seen_by};
use lanes::{Gate, Stepped, Worker};
use std::alloc::{AllocError, Global};
use std::cell::Cell;
use std::process::Abort;
use std::sync::Arc;
use std::sync::atomic::{AtomicU64, Ordering};
use std::test::Fail;

/// How many calls a gate keeps.
const CALLS: usize = 16;

/// A call on a gate: of which client and ticket, and how many runs had given an outcome before it.
#[derive(Clone, Copy, Debug, PartialEq, Eq)]
enum Passed {
    Entered(u32, u64, u64),
    Left(u32, u64, u64),
}

use Passed::{Entered, Left};

/// A gate that keeps its first calls, in order.
#[derive(Drop)]
struct Watching {
    runs: Arc<AtomicU64>,
    calls: Vec<Cell<Option<Passed>>>,
    next: Cell<usize>,
}

impl Watching {
    fn of(alloc: Global, runs: &Arc<AtomicU64>) -> Result<Watching, AllocError> {
        let mut calls = Vec::new(alloc);
        for _ in 0..CALLS {
            calls.push(Cell::new(None))?;
        }
        Ok(Watching {
            runs: Arc::try_clone(runs)?,
            calls,
            next: Cell::new(0),
        })
    }

    fn runs(&self) -> u64 {
        self.runs.load(Ordering::SeqCst)
    }

    fn keep(&self, passed: Passed) {
        let next = self.next.get();
        if let Some(call) = self.calls.get(next) {
            call.set(Some(passed));
        }
        self.next.set(next.saturating_add(1));
    }

    // Whether these were its calls.
    fn saw(&self, due: &[Passed]) -> bool {
        let mut is_right = self.next.get() == due.len();
        for (call, passed) in self.calls.iter().zip(due) {
            is_right = is_right && call.get() == Some(*passed);
        }
        is_right
    }
}

impl Gate for Watching {
    fn enter(&self, client: u32, ticket: u64) {
        self.keep(Entered(client, ticket, self.runs()));
    }

    fn leave(&self, client: u32, ticket: u64) {
        self.keep(Left(client, ticket, self.runs()));
    }
}

// Each step of the first worker through the gate answers this.
fn steps(rt: &impl Abort, workers: &mut Vec<Worker<Task>>, gate: &Watching, due: &[Stepped]) {
    for stepped in due {
        let Some(worker) = workers.get_mut(0) else {
            panic!(rt; "there is a worker");
        };
        assert_eq!(rt; worker.step(gate), *stepped);
    }
}

const MIXED_CALLS: &[Call] = &[
    Call::Refusing(0, 10, 1),
    Call::Submit(1, 20),
    Call::Submit(1, 21),
];

const MIXED_STEPS: &[Stepped] = &[
    Stepped::NoMemory,
    Stepped::Answered,
    Stepped::Answered,
    Stepped::Answered,
    Stepped::Idle,
];

const MIXED_PASSED: &[Passed] = &[
    Entered(0, 0, 0),
    Entered(0, 0, 0),
    Left(0, 0, 1),
    Entered(1, 0, 1),
    Left(1, 0, 2),
    Entered(1, 1, 2),
    Left(1, 1, 3),
];

#[test]
fn a_run_stands_between_its_two_calls(rt: HostRuntime) -> Result<(), Fail> {
    let alloc = rt.alloc();
    let runs = Arc::new(alloc, AtomicU64::new(0))?;
    let gate = Watching::of(alloc, &runs)?;
    let (mut clients, mut workers) = ends_of(alloc, 2, 1, 4)?;
    seen_by(alloc, &mut clients, &mut workers, &runs, MIXED_CALLS)?;
    steps(&rt, &mut workers, &gate, MIXED_STEPS);
    assert!(rt; gate.saw(MIXED_PASSED));
    Ok(())
}

const FIVE_CALLS: &[Call] = &[
    Call::Submit(0, 0),
    Call::Submit(0, 1),
    Call::Submit(0, 2),
    Call::Submit(0, 3),
    Call::Submit(0, 4),
];

const FIVE_STEPS: &[Stepped] = &[
    Stepped::Answered,
    Stepped::Answered,
    Stepped::Answered,
    Stepped::Answered,
    Stepped::RingFull,
    Stepped::RingFull,
];

const FIVE_PASSED: &[Passed] = &[
    Entered(0, 0, 0),
    Left(0, 0, 1),
    Entered(0, 1, 1),
    Left(0, 1, 2),
    Entered(0, 2, 2),
    Left(0, 2, 3),
    Entered(0, 3, 3),
    Left(0, 3, 4),
    Entered(0, 4, 4),
    Left(0, 4, 5),
];

#[test]
fn an_answer_that_waits_for_room_passes_no_gate(rt: HostRuntime) -> Result<(), Fail> {
    let alloc = rt.alloc();
    let runs = Arc::new(alloc, AtomicU64::new(0))?;
    let gate = Watching::of(alloc, &runs)?;
    let (mut clients, mut workers) = ends_of(alloc, 1, 1, 8)?;
    seen_by(alloc, &mut clients, &mut workers, &runs, FIVE_CALLS)?;
    steps(&rt, &mut workers, &gate, FIVE_STEPS);
    let seen = seen_by(alloc, &mut clients, &mut workers, &runs, &[Call::Poll(0)])?;
    are_seen(&rt, &seen, &[Reply(0, 0)]);
    steps(
        &rt,
        &mut workers,
        &gate,
        &[Stepped::Answered, Stepped::Idle],
    );
    assert!(rt; gate.saw(FIVE_PASSED));
    Ok(())
}
