//! A host beside the workers.
ghost use Rattle.std.specs.Prelude.{◌≡◌, ◌≤◌, [], IfOk, OnErr, map, vec_len, vec_capacity};
ghost use Rattle.lanes.specs.Workers.{worker_links};

use crate::crew::Crew;
use crate::host::Host;
use crate::threads::{finish, start};
use box_core::Work;
use lanes::{Gate, Signals, Worker};
use std::alloc::AllocError;
use std::sync::{Arc, Wait};
use std::thread;
use std::thread::Threads;

/// Runs the host on the calling thread, while each worker's end runs in a thread of its own, and then stops and joins
/// the workers: their ends come back in order, as the ends that they were.
///
/// Where memory or a thread is refused, the host doesn't run, and the workers' ends are dropped.
pub fn beside<R: Threads + Wait + Sync, G: Gate + Sync, W: Work + Send + Sync, H: Host>(
    rt: &R,
    gate: &G,
    workers: Vec<Worker<W>>,
    host: &mut H,
) -> Result<(H::Out, Vec<Worker<W>>), AllocError>
where
    W::Out: Send,
    requires ready { H.ready host.old }
    ensures done { IfOk result (λ r. H.done host.old host.new r.0) }
    ensures ends { IfOk result (λ r. map worker_links r.1.items ≡ map worker_links workers.items) }
    ensures refused { OnErr result (host.new ≡ host.old) }
{
    let joined = Vec::with_capacity(*workers.allocator(), workers.len())?;
    let signals = signals_of(&workers)?;
    let crew = Crew::of(workers.len(), signals);
    let (host, ran) = run_beside(rt, gate, &crew, workers, joined, Lent { host });
    take_back(host);
    ran
}

// What wakes the workers.
fn signals_of<W: Work>(workers: &Vec<Worker<W>>) -> Result<Arc<Signals>, AllocError> {
    if workers.is_empty() {
        let signals = Signals::new(*workers.allocator())?;
        return Ok(Arc::new(*workers.allocator(), signals)?);
    }
    Arc::try_clone(workers[0].signals())
}

// A host that is lent.
#[derive(Drop)]
struct Lent<'a, H> {
    host: &'a mut H,
}

// The same, with the list that the ends are joined into. The reference to the host comes back.
fn run_beside<'a, R: Threads + Wait + Sync, G: Gate + Sync, W: Work + Send + Sync, H: Host>(
    rt: &R,
    gate: &G,
    crew: &Crew,
    workers: Vec<Worker<W>>,
    joined: Vec<Worker<W>>,
    lent: Lent<'a, H>,
) -> (&'a mut H, Result<(H::Out, Vec<Worker<W>>), AllocError>)
where
    W::Out: Send,
    requires room { (joined.items ≡ []) × (vec_len workers ≤ vec_capacity joined) }
    requires ready { H.ready lent.host.now }
    ensures same { result.0.ghost_name ≡ lent.entry.host.ghost_name }
    ensures done { IfOk result.1 (λ r. H.done lent.entry.host.now result.0.now r.0) }
    ensures ends { IfOk result.1 (λ r. map worker_links r.1.items ≡ map worker_links workers.items) }
    ensures refused { OnErr result.1 (result.0.now ≡ lent.entry.host.now) }
{
    let (lent, ran) = thread::scope(
        thread::scope_env(),
        rt,
        move |scope| -> (Lent<H>, Result<(H::Out, Vec<Worker<W>>), AllocError>)
            requires room { (joined.items ≡ []) × (vec_len workers ≤ vec_capacity joined) }
            requires ready { H.ready lent.host.now }
            ensures same { result.0.host.ghost_name ≡ lent.entry.host.ghost_name }
            ensures done { IfOk result.1 (λ r. H.done lent.entry.host.now result.0.host.now r.0) }
            ensures ends { IfOk result.1 (λ r. map worker_links r.1.items ≡ map worker_links workers.items) }
            ensures refused { OnErr result.1 (result.0.host.now ≡ lent.entry.host.now) }
        {
            let lent = lent;
            let handles = match start(rt, scope, crew, gate, workers) {
                Ok(handles) => handles,
                Err(refused) => return (lent, Err(refused)),
            };
            let (lent, answer) = run(rt, crew, lent);
            crew.stop();
            (lent, Ok((answer, finish(rt, handles, joined))))
        },
    );
    let Lent { host } = lent;
    (host, ran)
}

// Runs a host that is lent, and gives it back.
fn run<'a, R: Wait, H: Host>(rt: &R, crew: &Crew, lent: Lent<'a, H>) -> (Lent<'a, H>, H::Out)
    requires { H.ready lent.host.now }
    ensures same { result.0.host.ghost_name ≡ lent.entry.host.ghost_name }
    ensures done { H.done lent.entry.host.now result.0.host.now result.1 }
{
    let answer = lent.host.run(rt, crew);
    (lent, answer)
}

// Does nothing, but this use of a returned reference ties it, for the borrow checker, to the parameter that lent it.
fn take_back<T>(x: &mut T)
    ensures { x.new ≡ x.old }
{}
