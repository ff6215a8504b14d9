ghost use Rattle.std.specs.Prelude.{◌≡◌, ℕ, map, IfOk};
ghost use Rattle.lanes.specs.Links.{AreOfOneCall};
ghost use Rattle.lanes.specs.Clients.{client_links};
ghost use Rattle.lanes.specs.Workers.{worker_links, SameEnds};

use box_core::{Answered, Refusal, Work};
use lanes::{Client, LaneFault, OpenGate, Settled, Stepped, Worker, lanes, settle};
use std::alloc::{AllocError, Global};
use std::process::Abort;
use std::sync::Arc;
use std::sync::atomic::{AtomicU64, Ordering};
use std::test::Fail;
use std::thread::{self, Threads};

mod full;
mod gates;
mod marks;
mod places;
mod refused;

/// A request for a number. Its run counts itself, and is refused memory as often as it was told.
#[derive(Drop)]
struct Task {
    number: u64,
    refusals: AtomicU64,
    runs: Arc<AtomicU64>,
}

impl Task {
    fn asking(
        alloc: Global,
        number: u64,
        refusals: u64,
        runs: &Arc<AtomicU64>,
    ) -> Result<Arc<Task>, AllocError> {
        let task = Task {
            number,
            refusals: AtomicU64::new(refusals),
            runs: Arc::try_clone(runs)?,
        };
        let work = Arc::new(alloc, task)?;
        Ok(work)
    }
}

impl Work for Task {
    type Out = u64;

    ghost Request = { ℕ };

    ghost request = { λ task. task.number };

    ghost result_of = { λ number. number };

    fn same(&self, other: &Self) -> bool {
        self.number == other.number
    }

    fn run(&self, alloc: Global) -> Result<u64, AllocError> {
        let before = Arc::new(alloc, self.number)?;
        drop(before);
        if self.refusals.load(Ordering::SeqCst) > 0 {
            self.refusals.fetch_sub(1, Ordering::SeqCst);
            return Err(AllocError);
        }
        self.runs.fetch_add(1, Ordering::SeqCst);
        Ok(self.number)
    }
}

/// One call on an end, by its number.
#[derive(Clone, Copy)]
enum Call {
    Submit(usize, u64),
    /// A submit whose run is refused memory so often.
    Refusing(usize, u64, u64),
    Step(usize),
    Poll(usize),
    Resize(usize, u32),
}

/// What a call answered.
#[derive(Clone, Copy, Debug, PartialEq, Eq)]
enum Seen {
    Ticket(u64),
    Refused(Refusal),
    Stepped(Stepped),
    Reply(u64, u64),
    Nothing,
    Resized,
    NoEnd,
}

use Seen::{Nothing, Reply, Resized, Ticket};

const ANSWERED: Seen = Seen::Stepped(Stepped::Answered);

fn submitted(
    alloc: Global,
    clients: &mut Vec<Client<Task>>,
    runs: &Arc<AtomicU64>,
    client: usize,
    number: u64,
    refusals: u64,
) -> Result<Seen, AllocError>
    ensures { map client_links clients.new.items ≡ map client_links clients.old.items }
{
    let work = Task::asking(alloc, number, refusals, runs)?;
    let Some(end) = clients.get_mut(client) else {
        return Ok(Seen::NoEnd);
    };
    match end.submit(work) {
        Ok(ticket) => Ok(Ticket(ticket)),
        Err((why, _)) => Ok(Seen::Refused(why)),
    }
}

fn polled(clients: &mut Vec<Client<Task>>, client: usize) -> Seen
    ensures { map client_links clients.new.items ≡ map client_links clients.old.items }
{
    let Some(end) = clients.get_mut(client) else {
        return Seen::NoEnd;
    };
    match end.poll() {
        Some(reply) => Reply(reply.ticket, reply.outcome),
        None => Nothing,
    }
}

fn resized(clients: &mut Vec<Client<Task>>, client: usize, capacity: u32) -> Seen
    ensures { map client_links clients.new.items ≡ map client_links clients.old.items }
{
    let Some(end) = clients.get_mut(client) else {
        return Seen::NoEnd;
    };
    match end.resize(capacity) {
        Ok(()) => Resized,
        Err(why) => Seen::Refused(why),
    }
}

fn stepped(workers: &mut Vec<Worker<Task>>, worker: usize) -> Seen
    ensures { map worker_links workers.new.items ≡ map worker_links workers.old.items }
{
    let Some(end) = workers.get_mut(worker) else {
        return Seen::NoEnd;
    };
    Seen::Stepped(end.step(&OpenGate))
}

// What the calls answer, one after another.
fn seen_by(
    alloc: Global,
    clients: &mut Vec<Client<Task>>,
    workers: &mut Vec<Worker<Task>>,
    runs: &Arc<AtomicU64>,
    calls: &[Call],
) -> Result<Vec<Seen>, AllocError>
    ensures clients { map client_links clients.new.items ≡ map client_links clients.old.items }
    ensures workers { map worker_links workers.new.items ≡ map worker_links workers.old.items }
{
    let mut seen = Vec::new(alloc);
    for call in calls {
        let answer = match *call {
            Call::Submit(client, number) => submitted(alloc, clients, runs, client, number, 0)?,
            Call::Refusing(client, number, often) => {
                submitted(alloc, clients, runs, client, number, often)?
            }
            Call::Step(worker) => stepped(workers, worker),
            Call::Poll(client) => polled(clients, client),
            Call::Resize(client, capacity) => resized(clients, client, capacity),
        };
        seen.push(answer)?;
    }
    Ok(seen)
}

fn ends_of(
    alloc: Global,
    clients: u32,
    workers: u32,
    capacity: u32,
) -> Result<(Vec<Client<Task>>, Vec<Worker<Task>>), AllocError>
    ensures { IfOk result (λ ends. AreOfOneCall (map client_links ends.0.items) (map worker_links ends.1.items)) }
{
    match lanes(alloc, clients, workers, capacity) {
        Ok(ends) => Ok(ends),
        Err(_) => Err(AllocError),
    }
}

// What the calls answer on the ends of new lanes.
fn seen_of(
    alloc: Global,
    clients: u32,
    workers: u32,
    capacity: u32,
    calls: &[Call],
) -> Result<Vec<Seen>, AllocError> {
    let runs = Arc::new(alloc, AtomicU64::new(0))?;
    let (mut clients, mut workers) = ends_of(alloc, clients, workers, capacity)?;
    seen_by(alloc, &mut clients, &mut workers, &runs, calls)
}

// Settles the ends, once more where memory is refused, and says whether it was.
fn settled(
    clients: Vec<Client<Task>>,
    workers: Vec<Worker<Task>>,
) -> Result<(bool, Vec<Settled<Task>>), AllocError>
    requires { AreOfOneCall (map client_links clients.items) (map worker_links workers.items) }
{
    match settle(clients, workers) {
        Ok(ends) => Ok((false, ends)),
        Err((_, clients, workers)) => match settle(clients, workers) {
            Ok(ends) => Ok((true, ends)),
            Err((refused, _, _)) => Err(refused),
        },
    }
}

// The calls answer this on the ends of new lanes, which are settled then.
fn settled_after(
    rt: &impl Abort,
    alloc: Global,
    clients: u32,
    workers: u32,
    runs: &Arc<AtomicU64>,
    calls: &[Call],
    due: &[Seen],
) -> Result<Vec<Settled<Task>>, AllocError> {
    let (mut clients, mut workers) = ends_of(alloc, clients, workers, 4)?;
    let seen = seen_by(alloc, &mut clients, &mut workers, runs, calls)?;
    are_seen(rt, &seen, due);
    let (_, ends) = settled(clients, workers)?;
    Ok(ends)
}

// The results that are handed out until there is none.
fn handed_out(alloc: Global, end: &mut Settled<Task>) -> Result<Vec<u64>, AllocError> {
    let mut outcomes = Vec::new(alloc);
    for _ in 0..1000 {
        match end.release() {
            Some(reply) => outcomes.push(reply.outcome)?,
            None => break,
        }
    }
    Ok(outcomes)
}

// Runs the jobs that are left, and gives the tickets of those that were kept, the least first.
fn run_left(alloc: Global, end: &mut Settled<Task>) -> Result<Vec<u64>, AllocError> {
    let mut kept = Vec::new(alloc);
    for _ in 0..1000u64 {
        let Some(job) = end.next_left() else {
            break;
        };
        let ticket = job.ticket();
        if let Ok(done) = job.run(alloc)
            && end.answer(done) == Answered::Kept
        {
            kept.push(ticket)?;
        }
    }
    kept.sort()?;
    Ok(kept)
}

fn are_seen(rt: &impl Abort, seen: &[Seen], due: &[Seen]) {
    assert_eq!(rt; seen, due);
}

// The end hands out these outcomes, and is whole then.
fn hands_out(
    rt: &impl Abort,
    alloc: Global,
    end: &mut Settled<Task>,
    due: &[u64],
) -> Result<(), AllocError> {
    let outcomes = handed_out(alloc, end)?;
    assert_eq!(rt; outcomes.as_slice(), due);
    assert!(rt; end.is_whole());
    Ok(())
}

// Each end has the last two of three jobs left, and hands out the results of all three once these have run.
fn all_hand_out(
    rt: &impl Abort,
    alloc: Global,
    ends: &mut Vec<Settled<Task>>,
) -> Result<(), AllocError> {
    for end in ends.iter_mut() {
        let left = run_left(alloc, end)?;
        assert_eq!(rt; left.as_slice(), [1, 2].as_slice());
        hands_out(rt, alloc, end, &[10, 11, 12])?;
    }
    Ok(())
}

const HELD_CALLS: &[Call] = &[
    Call::Submit(0, 10),
    Call::Refusing(0, 11, 1),
    Call::Submit(0, 12),
    Call::Step(0),
    Call::Step(1),
];

const HELD_DUE: &[Seen] = &[
    Ticket(0),
    Ticket(1),
    Ticket(2),
    Seen::Stepped(Stepped::Answered),
    Seen::Stepped(Stepped::NoMemory),
];

#[test]
fn a_job_that_is_held_and_one_that_waits_are_left(rt: HostRuntime) -> Result<(), Fail> {
    let alloc = rt.alloc();
    let runs = Arc::new(alloc, AtomicU64::new(0))?;
    let mut ends = settled_after(&rt, alloc, 1, 2, &runs, HELD_CALLS, HELD_DUE)?;
    all_hand_out(&rt, alloc, &mut ends)?;
    Ok(())
}

const RING_CALLS: &[Call] = &[
    Call::Submit(0, 0),
    Call::Submit(0, 1),
    Call::Submit(0, 2),
    Call::Submit(0, 3),
    Call::Submit(0, 4),
    Call::Step(0),
    Call::Step(0),
    Call::Step(0),
    Call::Step(0),
    Call::Step(0),
    Call::Poll(0),
    Call::Step(0),
    Call::Step(0),
    Call::Poll(0),
    Call::Poll(0),
    Call::Poll(0),
    Call::Poll(0),
    Call::Poll(0),
];

const RING_DUE: &[Seen] = &[
    Ticket(0),
    Ticket(1),
    Ticket(2),
    Ticket(3),
    Ticket(4),
    ANSWERED,
    ANSWERED,
    ANSWERED,
    ANSWERED,
    Seen::Stepped(Stepped::RingFull),
    Reply(0, 0),
    ANSWERED,
    Seen::Stepped(Stepped::Idle),
    Reply(1, 1),
    Reply(2, 2),
    Reply(3, 3),
    Reply(4, 4),
    Nothing,
];

#[test]
fn a_ring_takes_four_answers(rt: HostRuntime) -> Result<(), Fail> {
    let alloc = rt.alloc();
    let seen = seen_of(alloc, 1, 1, 8, RING_CALLS)?;
    are_seen(&rt, &seen, RING_DUE);
    Ok(())
}

fn fault_of(alloc: Global, clients: u32, workers: u32, capacity: u32) -> Option<LaneFault> {
    match lanes::<Task>(alloc, clients, workers, capacity) {
        Ok(_) => None,
        Err(fault) => Some(fault),
    }
}

/// Numbers of clients, of workers and of places, and why there are no such lanes.
const LIMITS: &[(u32, u32, u32, Option<LaneFault>)] = &[
    (0, 1, 8, Some(LaneFault::Count)),
    (1, 9, 8, Some(LaneFault::Count)),
    (1, 1, 4097, Some(LaneFault::Capacity)),
    (64, 8, 1, None),
];

#[test]
fn numbers_beyond_the_limits_are_refused(rt: HostRuntime) -> Result<(), Fail> {
    for (clients, workers, capacity, fault) in LIMITS {
        assert_eq!(rt; fault_of(rt.alloc(), *clients, *workers, *capacity), *fault);
    }
    Ok(())
}

const SENT_CALLS: &[Call] = &[
    Call::Submit(0, 10),
    Call::Submit(0, 11),
    Call::Submit(1, 20),
    Call::Step(0),
    Call::Step(0),
    Call::Step(0),
];

const SENT_DUE: &[Seen] = &[
    Ticket(0),
    Ticket(1),
    Ticket(0),
    ANSWERED,
    ANSWERED,
    ANSWERED,
];

const SENT_RESULTS: &[&[u64]] = &[&[10, 11], &[20]];

// No job is left, and each end hands out its results.
fn all_were_sent(
    rt: &impl Abort,
    alloc: Global,
    ends: &mut Vec<Settled<Task>>,
) -> Result<(), AllocError> {
    assert_eq!(rt; ends.len(), 2);
    for (end, due) in ends.iter_mut().zip(SENT_RESULTS) {
        assert!(rt; end.next_left().is_none());
        hands_out(rt, alloc, end, due)?;
    }
    Ok(())
}

#[test]
fn what_was_sent_is_taken_in_when_settled(rt: HostRuntime) -> Result<(), Fail> {
    let alloc = rt.alloc();
    let runs = Arc::new(alloc, AtomicU64::new(0))?;
    let mut ends = settled_after(&rt, alloc, 2, 2, &runs, SENT_CALLS, SENT_DUE)?;
    all_were_sent(&rt, alloc, &mut ends)?;
    assert_eq!(rt; runs.load(Ordering::SeqCst), 3);
    Ok(())
}

const AGAIN_CALLS: &[Call] = &[
    Call::Refusing(0, 10, 2),
    Call::Submit(0, 11),
    Call::Step(0),
    Call::Step(0),
    Call::Step(0),
    Call::Step(0),
    Call::Step(0),
    Call::Poll(0),
    Call::Poll(0),
    Call::Poll(0),
];

const AGAIN_DUE: &[Seen] = &[
    Ticket(0),
    Ticket(1),
    Seen::Stepped(Stepped::NoMemory),
    Seen::Stepped(Stepped::NoMemory),
    Seen::Stepped(Stepped::Answered),
    Seen::Stepped(Stepped::Answered),
    Seen::Stepped(Stepped::Idle),
    Reply(0, 10),
    Reply(1, 11),
    Nothing,
];

#[test]
fn a_refused_run_is_tried_again(rt: HostRuntime) -> Result<(), Fail> {
    let alloc = rt.alloc();
    let seen = seen_of(alloc, 1, 1, 4, AGAIN_CALLS)?;
    are_seen(&rt, &seen, AGAIN_DUE);
    Ok(())
}

const WIDER_CALLS: &[Call] = &[
    Call::Submit(0, 10),
    Call::Submit(0, 11),
    Call::Resize(0, 2),
    Call::Submit(0, 11),
    Call::Step(0),
    Call::Step(0),
    Call::Poll(0),
    Call::Poll(0),
    Call::Poll(0),
];

const WIDER_DUE: &[Seen] = &[
    Ticket(0),
    Seen::Refused(Refusal::Full),
    Resized,
    Ticket(1),
    Seen::Stepped(Stepped::Answered),
    Seen::Stepped(Stepped::Answered),
    Reply(0, 10),
    Reply(1, 11),
    Nothing,
];

#[test]
fn a_wider_lane_takes_more(rt: HostRuntime) -> Result<(), Fail> {
    let alloc = rt.alloc();
    let seen = seen_of(alloc, 1, 1, 1, WIDER_CALLS)?;
    are_seen(&rt, &seen, WIDER_DUE);
    Ok(())
}

// Steps until no lane gives a job, or an answer has no room.
fn work_off(worker: &mut Worker<Task>)
    ensures { worker_links worker.new ≡ worker_links worker.old }
{
    for _ in 0..1000 {
        match worker.step(&OpenGate) {
            Stepped::Answered | Stepped::Again => {}
            _ => break,
        }
    }
}

// All workers step, each in a thread of its own.
fn work_off_all<R: Threads + Sync>(rt: &R, workers: &mut [Worker<Task>])
    ensures { SameEnds workers.old workers.new }
{
    thread::for_each_mut(rt, workers, 8, &|_, worker| work_off(worker));
}

// So many requests of each of three clients.
fn requests_of_three(alloc: Global, requests: u64) -> Result<Vec<Call>, AllocError> {
    let mut calls = Vec::new(alloc);
    for number in 0..requests {
        for client in 0..3 {
            calls.push(Call::Submit(client, number))?;
        }
    }
    Ok(calls)
}

// Three clients put so many requests each, eight threads step until nothing waits, and all ends are settled.
fn settled_after_threads<R: Threads + Sync>(
    rt: &R,
    alloc: Global,
    runs: &Arc<AtomicU64>,
    capacity: u32,
    requests: u64,
) -> Result<Vec<Settled<Task>>, AllocError> {
    let (mut clients, mut workers) = ends_of(alloc, 3, 8, capacity)?;
    let calls = requests_of_three(alloc, requests)?;
    seen_by(alloc, &mut clients, &mut workers, runs, &calls)?;
    work_off_all(rt, workers.as_mut_slice());
    match settle(clients, workers) {
        Ok(ends) => Ok(ends),
        Err((refused, _, _)) => Err(refused),
    }
}

// Whether the end hands out these outcomes, once what is left has run, and is whole then.
fn is_whole_with(alloc: Global, end: &mut Settled<Task>, due: &[u64]) -> Result<bool, AllocError> {
    drop(run_left(alloc, end)?);
    let outcomes = handed_out(alloc, end)?;
    Ok(outcomes.as_slice() == due && end.is_whole())
}

// The numbers below this one.
fn numbers(alloc: Global, count: u64) -> Result<Vec<u64>, AllocError> {
    let mut numbers = Vec::new(alloc);
    for number in 0..count {
        numbers.push(number)?;
    }
    Ok(numbers)
}

// Whether each end hands out the results of so many requests.
fn each_is_whole(
    alloc: Global,
    ends: &mut Vec<Settled<Task>>,
    requests: u64,
) -> Result<bool, AllocError> {
    let due = numbers(alloc, requests)?;
    let mut all_are = true;
    for end in ends.iter_mut() {
        all_are = is_whole_with(alloc, end, &due)? && all_are;
    }
    Ok(all_are)
}

// Each of so many requests of three clients is run once by eight threads, and its result handed out.
fn each_runs_once<R: Threads + Sync + Abort>(
    rt: &R,
    alloc: Global,
    capacity: u32,
    requests: u64,
) -> Result<(), AllocError> {
    let runs = Arc::new(alloc, AtomicU64::new(0))?;
    let mut ends = settled_after_threads(rt, alloc, &runs, capacity, requests)?;
    assert!(rt; each_is_whole(alloc, &mut ends, requests)?);
    assert_eq!(rt; runs.load(Ordering::SeqCst), requests.wrapping_mul(3));
    Ok(())
}

#[test]
fn eight_threads_give_each_job_once(rt: HostRuntime) -> Result<(), Fail> {
    each_runs_once(&rt, rt.alloc(), 16, 10)?;
    Ok(())
}

#[test]
fn eight_threads_give_each_of_many_jobs_once(rt: HostRuntime) -> Result<(), Fail> {
    for _ in 0..20 {
        each_runs_once(&rt, rt.alloc(), 256, 200)?;
    }
    Ok(())
}
