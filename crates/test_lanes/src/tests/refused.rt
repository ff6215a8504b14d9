//! Each call that takes memory, where a request for it is refused: the answer says so, and the same call repeated gives what it
//! gives with ample memory. In a plain run nothing is refused. A run that refuses the Nth request of each test shows the rest:
//! past the requests of the set-up a test then ends well with "refused: true", once for each request of its call, and later
//! with "refused: false".
use super::{
    ANSWERED, Call, Nothing, Reply, Seen, Task, Ticket, all_hand_out, are_seen, ends_of, seen_by,
    settled, stepped,
};
use box_core::Refusal;
use lanes::{Client, LaneFault, Settled, Stepped, Worker, lanes};
use std::alloc::{AllocError, Global};
use std::process::Abort;
use std::sync::Arc;
use std::sync::atomic::AtomicU64;
use std::test::Fail;

const OPENED_CALLS: &[Call] = &[
    Call::Submit(1, 7),
    Call::Step(0),
    Call::Poll(0),
    Call::Poll(1),
];

const OPENED_DUE: &[Seen] = &[Ticket(0), ANSWERED, Nothing, Reply(0, 7)];

// Whether memory was refused, and the ends of new lanes.
type Opened = (bool, Vec<Client<Task>>, Vec<Worker<Task>>);

// Opens lanes, once more where memory is refused.
fn opened(rt: &impl Abort, alloc: Global) -> Result<Opened, AllocError> {
    match lanes::<Task>(alloc, 2, 2, 4) {
        Ok((clients, workers)) => Ok((false, clients, workers)),
        Err(LaneFault::Memory) => {
            let (clients, workers) = ends_of(alloc, 2, 2, 4)?;
            Ok((true, clients, workers))
        }
        Err(_) => panic!(rt; "a refused request is no fault of the numbers"),
    }
}

// The calls answer this.
fn are_answered(
    rt: &impl Abort,
    alloc: Global,
    clients: &mut Vec<Client<Task>>,
    workers: &mut Vec<Worker<Task>>,
    runs: &Arc<AtomicU64>,
    calls: &[Call],
    due: &[Seen],
) -> Result<(), AllocError> {
    let seen = seen_by(alloc, clients, workers, runs, calls)?;
    are_seen(rt, &seen, due);
    Ok(())
}

#[test]
fn a_refused_opening(rt: HostRuntime) -> Result<(), Fail> {
    let alloc = rt.alloc();
    let runs = Arc::new(alloc, AtomicU64::new(0))?;
    let (refused, mut clients, mut workers) = opened(&rt, alloc)?;
    are_answered(
        &rt,
        alloc,
        &mut clients,
        &mut workers,
        &runs,
        OPENED_CALLS,
        OPENED_DUE,
    )?;
    println!(rt; "refused: {refused}")?;
    Ok(())
}

// Puts as many requests on the second lane as it has room for at first.
pub(super) fn fill(
    alloc: Global,
    clients: &mut Vec<Client<Task>>,
    workers: &mut Vec<Worker<Task>>,
    runs: &Arc<AtomicU64>,
) -> Result<(), AllocError> {
    for number in 0..64 {
        seen_by(alloc, clients, workers, runs, &[Call::Submit(1, number)])?;
    }
    Ok(())
}

// Submits once more where memory was refused, and says whether it was.
fn submit_again(
    rt: &impl Abort,
    end: &mut Client<Task>,
    work: Arc<Task>,
) -> Result<bool, AllocError> {
    match end.submit(work) {
        Ok(ticket) => {
            assert_eq!(rt; ticket, 64);
            Ok(false)
        }
        Err((Refusal::Memory, work)) => {
            assert_eq!(rt; end.accepted(), 64);
            assert!(rt; matches!(end.submit(work), Ok(64)));
            Ok(true)
        }
        Err(_) => Err(AllocError),
    }
}

// Each of the requests is run, and its result handed out.
pub(super) fn are_handed(
    rt: &impl Abort,
    alloc: Global,
    clients: &mut Vec<Client<Task>>,
    workers: &mut Vec<Worker<Task>>,
    runs: &Arc<AtomicU64>,
) -> Result<(), AllocError> {
    for number in 0..65 {
        let seen = seen_by(
            alloc,
            clients,
            workers,
            runs,
            &[Call::Step(0), Call::Poll(1)],
        )?;
        assert!(rt; seen.as_slice().last() == Some(&Reply(number, number)));
    }
    Ok(())
}

// Submits one more request than the second lane has room for at first, and says whether memory was refused.
fn submit_more(
    rt: &impl Abort,
    alloc: Global,
    clients: &mut Vec<Client<Task>>,
    runs: &Arc<AtomicU64>,
) -> Result<bool, AllocError> {
    let work = Task::asking(alloc, 64, 0, runs)?;
    let Some(end) = clients.get_mut(1) else {
        panic!(rt; "there are two clients");
    };
    let refused = submit_again(rt, end, work)?;
    assert_eq!(rt; end.accepted(), 65);
    Ok(refused)
}

// All of that, and says whether memory was refused.
fn fill_and_hand(
    rt: &impl Abort,
    alloc: Global,
    clients: &mut Vec<Client<Task>>,
    workers: &mut Vec<Worker<Task>>,
    runs: &Arc<AtomicU64>,
) -> Result<bool, AllocError> {
    fill(alloc, clients, workers, runs)?;
    let refused = submit_more(rt, alloc, clients, runs)?;
    are_handed(rt, alloc, clients, workers, runs)?;
    Ok(refused)
}

#[test]
fn a_refused_submit(rt: HostRuntime) -> Result<(), Fail> {
    let alloc = rt.alloc();
    let runs = Arc::new(alloc, AtomicU64::new(0))?;
    let (mut clients, mut workers) = ends_of(alloc, 2, 2, 100)?;
    let refused = fill_and_hand(&rt, alloc, &mut clients, &mut workers, &runs)?;
    println!(rt; "refused: {refused}")?;
    Ok(())
}

// Steps the second worker, once more where memory is refused, and says whether it was.
fn step_again(rt: &impl Abort, workers: &mut Vec<Worker<Task>>) -> bool {
    let first = stepped(workers, 1);
    let refused = first == Seen::Stepped(Stepped::NoMemory);
    let second = if refused { stepped(workers, 1) } else { first };
    assert!(rt; second == ANSWERED);
    refused
}

const IDLE: Seen = Seen::Stepped(Stepped::Idle);

// A request is submitted, run and handed out, and says whether memory was refused for its run.
fn submit_and_step(
    rt: &impl Abort,
    alloc: Global,
    clients: &mut Vec<Client<Task>>,
    workers: &mut Vec<Worker<Task>>,
    runs: &Arc<AtomicU64>,
) -> Result<bool, AllocError> {
    seen_by(alloc, clients, workers, runs, &[Call::Submit(1, 7)])?;
    let refused = step_again(rt, workers);
    let calls = [Call::Poll(1), Call::Step(0), Call::Step(1)];
    let due = [Reply(0, 7), IDLE, IDLE];
    are_answered(rt, alloc, clients, workers, runs, &calls, &due)?;
    Ok(refused)
}

#[test]
fn a_refused_step(rt: HostRuntime) -> Result<(), Fail> {
    let alloc = rt.alloc();
    let runs = Arc::new(alloc, AtomicU64::new(0))?;
    let (mut clients, mut workers) = ends_of(alloc, 2, 2, 4)?;
    let refused = submit_and_step(&rt, alloc, &mut clients, &mut workers, &runs)?;
    println!(rt; "refused: {refused}")?;
    Ok(())
}

const SETTLED_CALLS: &[Call] = &[
    Call::Submit(0, 10),
    Call::Refusing(0, 11, 1),
    Call::Submit(0, 12),
    Call::Step(0),
    Call::Step(1),
];

// Settles ends with a job that is held and one that waits, and says whether memory was refused.
fn settled_later(
    alloc: Global,
    runs: &Arc<AtomicU64>,
) -> Result<(bool, Vec<Settled<Task>>), AllocError> {
    let (mut clients, mut workers) = ends_of(alloc, 1, 2, 4)?;
    seen_by(alloc, &mut clients, &mut workers, runs, SETTLED_CALLS)?;
    settled(clients, workers)
}

#[test]
fn a_refused_settling(rt: HostRuntime) -> Result<(), Fail> {
    let alloc = rt.alloc();
    let runs = Arc::new(alloc, AtomicU64::new(0))?;
    let (refused, mut ends) = settled_later(alloc, &runs)?;
    assert_eq!(rt; ends.len(), 1);
    all_hand_out(&rt, alloc, &mut ends)?;
    println!(rt; "refused: {refused}")?;
    Ok(())
}
