//! A job that was put is found, whatever a worker does with its lane's mark at that moment.
use super::{Task, ends_of};
use lanes::{Client, OpenGate, Stepped, Worker};
use std::alloc::{AllocError, Global};
use std::hint;
use std::process::Abort;
use std::sync::Arc;
use std::sync::atomic::{AtomicBool, AtomicU64, Ordering};
use std::test::Fail;
use std::thread::{self, Threads};
use std::time::{Clock, Duration, Instant};

/// How often two jobs are put into an empty lane at most, and for how many milliseconds that is tried. What is looked for needs a
/// worker that loses its processor between two instructions, for as long as it takes to put the jobs.
const ROUNDS: u64 = 50_000_000;

const MOST_MILLIS: u64 = 4_000;
/// After so many rounds the time is asked for.
const BETWEEN: u64 = 64;
/// How often the worker is made to look at the empty lane before the jobs are put, and how many turns it has for each look.
const LOOKS: u64 = 32;

const TURNS: u64 = 4;
/// How often a client asks for a result before it counts as lost: for longer than any thread waits for a processor.
const PATIENCE: u64 = 100_000_000;

// Whether a result comes.
fn is_answered(client: &mut Client<Task>) -> bool {
    for _ in 0..PATIENCE {
        if client.poll().is_some() {
            return true;
        }
        hint::spin_loop();
    }
    false
}

// Marks the empty lane again and again.
fn keep_looking(client: &Client<Task>) {
    for turn in 0..LOOKS.wrapping_mul(TURNS) {
        if turn % TURNS == 0 {
            client.signals().mark_all();
        }
        hint::spin_loop();
    }
}

// Has the worker look at the empty lane again and again, and take its mark away, and then puts two jobs: where the worker stands
// still between these two, both find the mark that it is about to take away. Tells whether both are answered.
fn are_found(
    alloc: Global,
    client: &mut Client<Task>,
    runs: &Arc<AtomicU64>,
    round: u64,
) -> Result<bool, AllocError> {
    let first = Task::asking(alloc, round, 0, runs)?;
    let second = Task::asking(alloc, round, 0, runs)?;
    keep_looking(client);
    if client.submit(first).is_err() || client.submit(second).is_err() {
        return Ok(false);
    }
    Ok(is_answered(client) && is_answered(client))
}

// The first round of which a job was lost, if one was.
fn first_lost<R: Clock>(
    rt: &R,
    alloc: Global,
    client: &mut Client<Task>,
    runs: &Arc<AtomicU64>,
) -> Result<Option<u64>, Fail> {
    let begun = Instant::now(rt)?;
    for round in 0..ROUNDS {
        if !are_found(alloc, client, runs, round)? {
            return Ok(Some(round));
        }
        if round % BETWEEN == 0 && begun.elapsed(rt)? > Duration::from_millis(MOST_MILLIS) {
            break;
        }
    }
    Ok(None)
}

// The same, and tells the worker to stop then.
fn ask<R: Clock>(
    rt: &R,
    alloc: Global,
    client: &mut Client<Task>,
    runs: Arc<AtomicU64>,
    stopping: Arc<AtomicBool>,
) -> Result<Option<u64>, Fail> {
    let found = first_lost(rt, alloc, client, &runs);
    stopping.store(true, Ordering::SeqCst);
    found
}

// Steps until it is told to stop, and never sleeps.
fn step_on(worker: &mut Worker<Task>, stopping: Arc<AtomicBool>) {
    for _ in 0..u64::MAX {
        if worker.step(&OpenGate) == Stepped::Idle && stopping.load(Ordering::SeqCst) {
            break;
        }
    }
}

// A client asks beside a worker in a thread of its own.
fn first_lost_beside<R: Threads + Clock + Sync>(
    rt: &R,
    alloc: Global,
    client: &mut Client<Task>,
    worker: &mut Worker<Task>,
) -> Result<Option<u64>, Fail> {
    let runs = Arc::new(alloc, AtomicU64::new(0))?;
    let stopping = Arc::new(alloc, AtomicBool::new(false))?;
    let theirs = Arc::try_clone(&stopping)?;
    let (found, ()) = thread::join(
        rt,
        move || ask(rt, alloc, client, runs, stopping),
        move || step_on(worker, theirs),
    );
    found
}

#[test]
fn no_job_is_passed_for_good(rt: HostRuntime) -> Result<(), Fail> {
    let alloc = rt.alloc();
    let (mut clients, mut workers) = ends_of(alloc, 1, 1, 4)?;
    let (Some(client), Some(worker)) = (clients.first_mut(), workers.first_mut()) else {
        panic!(rt; "there are a client and a worker");
    };
    assert_eq!(rt; first_lost_beside(&rt, alloc, client, worker)?, None);
    Ok(())
}
