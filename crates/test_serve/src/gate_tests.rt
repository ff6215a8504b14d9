//! A gate holds one request until another has left: the results come in order all the same.
ghost use Rattle.std.specs.Prelude.{◌≡◌, None};
ghost use Rattle.lanes.specs.Made.{fault_in};

use crate::runs::{Ended, is_due, serve_once, with_model};
use desk_front::Options;
use lanes::Gate;
use std::alloc::{AllocError, Global};
use std::sync::Wait;
use std::sync::atomic::{AtomicBool, AtomicU64, Ordering};
use std::test::Fail;
use std::thread::{self, Threads};

/// How often ticket 0 looks whether ticket 1 has left, at most.
pub const TURNS: u64 = 10_000_000;

/// Counts how often each ticket enters and leaves, and keeps ticket 0 from its run until ticket 1 has left.
#[derive(Drop)]
pub struct Holding {
    turns: u64,
    entered: Vec<AtomicU64>,
    left: Vec<AtomicU64>,
    gave_up: AtomicBool,
}

fn count(counts: &Vec<AtomicU64>, ticket: u64) {
    if let Some(count) = counts.get(ticket as usize) {
        count.fetch_add(1, Ordering::SeqCst);
    }
}

fn counted(counts: &Vec<AtomicU64>, ticket: u64) -> u64 {
    match counts.get(ticket as usize) {
        Some(count) => count.load(Ordering::SeqCst),
        None => 0,
    }
}

fn zeros(alloc: Global, tickets: u64) -> Result<Vec<AtomicU64>, AllocError> {
    let mut counts = Vec::new(alloc);
    for _ in 0..tickets {
        counts.push(AtomicU64::new(0))?;
    }
    Ok(counts)
}

impl Holding {
    /// Ticket 0 looks so often at most.
    pub fn new(alloc: Global, tickets: u64, turns: u64) -> Result<Holding, AllocError> {
        Ok(Holding {
            turns,
            entered: zeros(alloc, tickets)?,
            left: zeros(alloc, tickets)?,
            gave_up: AtomicBool::new(false),
        })
    }

    /// Waits until ticket 1 has left.
    fn hold(&self) {
        for _ in 0..self.turns {
            if counted(&self.left, 1) > 0 {
                return;
            }
            thread::yield_now();
        }
        self.gave_up.store(true, Ordering::SeqCst);
    }

    /// Whether ticket 0 was kept for as long as it took.
    pub fn was_patient(&self) -> bool {
        !self.gave_up.load(Ordering::SeqCst)
    }

    /// Whether a ticket entered once and left once.
    fn saw_once(&self, ticket: u64) -> bool {
        counted(&self.entered, ticket) == 1 && counted(&self.left, ticket) == 1
    }
}

impl Gate for Holding {
    fn enter(&self, _client: u32, ticket: u64) {
        count(&self.entered, ticket);
        if ticket == 0 {
            self.hold();
        }
    }

    fn leave(&self, _client: u32, ticket: u64) {
        count(&self.left, ticket);
    }
}

/// The model and a request for each of these numbers, and what is due to their client.
pub fn requests(alloc: Global, first: u64, last: u64) -> Result<(Vec<u8>, String), AllocError> {
    let mut input = with_model(alloc, b"")?;
    let mut due = String::new(alloc);
    for number in first..last {
        let request = format!(in alloc;
            "{{\"client\":\"a\",\"service\":\"s\",\"inputs\":{{\"a\":{number}}}}}\n"
        )?;
        input.extend_from_slice(request.as_bytes())?;
        let result = number.saturating_add(1);
        let ticket = number.saturating_sub(first);
        due.push_str(format!(in alloc;
            "{{\"client\":\"a\",\"result\":{result},\"ticket\":{ticket}}}\n"
        )?.as_str())?;
    }
    Ok((input, due))
}

/// Whether the requests are answered in order while ticket 0 is held, and the gate saw each of so many tickets once.
fn holds<T: Threads + Wait + Sync>(
    alloc: Global,
    rt: &T,
    options: Options,
    first: u64,
    last: u64,
    seen: u64,
) -> Result<bool, AllocError>
    requires { fault_in options.clients options.workers options.capacity ≡ None }
{
    let (input, of_a) = requests(alloc, first, last)?;
    let gate = Holding::new(alloc, last, TURNS)?;
    let (ended, output) = serve_once(alloc, rt, input.as_slice(), Vec::new(alloc), &gate, options);
    let due = [("a", of_a.as_str()), ("", "{\"line\":1,\"model\":true}\n")];
    let mut is_right = ended == Ended::Whole(options.clients as usize) && is_due(&output, &due);
    for ticket in 0..seen {
        is_right = is_right && gate.saw_once(ticket);
    }
    Ok(is_right && !gate.gave_up.load(Ordering::SeqCst))
}

/// The last two requests may be left when the workers stop; then the front runs them, past the gate.
#[test]
fn a_hundred_results_wait_for_the_first(rt: HostRuntime) -> Result<(), Fail> {
    let options = Options {
        clients: 1,
        workers: 8,
        capacity: 2,
    };
    assert!(rt; holds(rt.alloc(), &rt, options, 0, 100, 98)?);
    Ok(())
}

/// Two workers look for jobs until both requests have left, although the input ended at once.
#[test]
fn two_requests_pass_each_other(rt: HostRuntime) -> Result<(), Fail> {
    let options = Options {
        clients: 1,
        workers: 2,
        capacity: 2,
    };
    for _ in 0..10 {
        assert!(rt; holds(rt.alloc(), &rt, options, 1, 3, 2)?);
    }
    Ok(())
}
