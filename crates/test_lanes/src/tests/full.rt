//! Each call that takes memory, over a heap that gives none: the answer says so, and once there is memory the same call gives
//! what it gives with ample memory.
ghost use Rattle.std.specs.Prelude.{map};
ghost use Rattle.lanes.specs.Clients.{client_links};
ghost use Rattle.lanes.specs.Links.{AreOfOneCall};
ghost use Rattle.lanes.specs.Workers.{worker_links};

use super::refused::{are_handed, fill};
use super::{HELD_CALLS, HELD_DUE, Task, all_hand_out, are_seen, ends_of, fault_of, seen_by};
use box_core::Refusal;
use lanes::{Client, LaneFault, Settled, Worker, settle};
use std::alloc::{AllocError, Global};
use std::process::Abort;
use std::sync::Arc;
use std::sync::atomic::AtomicU64;
use std::test::Fail;
use test_devices::FullHeap;

#[test]
fn a_full_heap_gives_no_lanes(rt: HostRuntime) -> Result<(), Fail> {
    let alloc = rt.alloc();
    let full = FullHeap::but(alloc, 0)?;
    let fault = fault_of(alloc, 2, 2, 4);
    drop(full);
    assert_eq!(rt; fault, Some(LaneFault::Memory));
    assert_eq!(rt; fault_of(alloc, 2, 2, 4), None);
    Ok(())
}

// Submits over a full heap, which is refused, and then once more.
fn submit_twice(
    rt: &impl Abort,
    alloc: Global,
    end: &mut Client<Task>,
    work: Arc<Task>,
) -> Result<(), AllocError> {
    let full = FullHeap::but(alloc, 0)?;
    let submitted = end.submit(work);
    drop(full);
    let Err((Refusal::Memory, work)) = submitted else {
        panic!(rt; "a deque of 64 places takes no more over a full heap");
    };
    assert_eq!(rt; end.accepted(), 64);
    assert!(rt; matches!(end.submit(work), Ok(64)));
    Ok(())
}

#[test]
fn a_full_heap_refuses_the_65th_submit(rt: HostRuntime) -> Result<(), Fail> {
    let alloc = rt.alloc();
    let runs = Arc::new(alloc, AtomicU64::new(0))?;
    let (mut clients, mut workers) = ends_of(alloc, 2, 2, 100)?;
    fill(alloc, &mut clients, &mut workers, &runs)?;
    let work = Task::asking(alloc, 64, 0, &runs)?;
    let Some(end) = clients.get_mut(1) else {
        panic!(rt; "there are two clients");
    };
    submit_twice(&rt, alloc, end, work)?;
    are_handed(&rt, alloc, &mut clients, &mut workers, &runs)?;
    Ok(())
}

// Settles the ends over a full heap, which is refused, and then once more.
fn settled_twice(
    rt: &impl Abort,
    alloc: Global,
    clients: Vec<Client<Task>>,
    workers: Vec<Worker<Task>>,
) -> Result<Vec<Settled<Task>>, AllocError>
    requires { AreOfOneCall (map client_links clients.items) (map worker_links workers.items) }
{
    let full = FullHeap::but(alloc, 0)?;
    match settle(clients, workers) {
        Ok(_) => panic!(rt; "ends take memory to settle"),
        Err((_, clients, workers)) => {
            drop(full);
            match settle(clients, workers) {
                Ok(ends) => Ok(ends),
                Err((refused, _, _)) => Err(refused),
            }
        }
    }
}

// Ends with a job that is held and one that waits, settled over a full heap and then once more.
fn settled_later(
    rt: &impl Abort,
    alloc: Global,
    runs: &Arc<AtomicU64>,
) -> Result<Vec<Settled<Task>>, AllocError> {
    let (mut clients, mut workers) = ends_of(alloc, 1, 2, 4)?;
    let seen = seen_by(alloc, &mut clients, &mut workers, runs, HELD_CALLS)?;
    are_seen(rt, &seen, HELD_DUE);
    settled_twice(rt, alloc, clients, workers)
}

#[test]
fn a_full_heap_settles_no_ends(rt: HostRuntime) -> Result<(), Fail> {
    let alloc = rt.alloc();
    let runs = Arc::new(alloc, AtomicU64::new(0))?;
    let mut ends = settled_later(&rt, alloc, &runs)?;
    assert_eq!(rt; ends.len(), 1);
    all_hand_out(&rt, alloc, &mut ends)?;
    Ok(())
}
