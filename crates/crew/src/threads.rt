//! The workers' threads: started, run and joined.
ghost use Rattle.std.specs.Prelude.{◌≡◌, ◌+◌, ◌++◌, ◌≤◌, IfOk, map, vec_len, vec_capacity};
ghost use Rattle.lanes.specs.Workers.{worker_links};
ghost use Rattle.crew.specs.Promised.{promised_links};

use crate::crew::Crew;
use crate::post::Post;
use crate::promise::SameEnd;
use box_core::Work;
use lanes::{AtGate, Gate, Stepped, Worker};
use std::alloc::AllocError;
use std::snapshot::Snapshot;
use std::sync::Wait;
use std::thread::{PromisedHandle, Scope, Threads};

// Steps until the crew is to stop and a step finds no job or can't finish one. Between steps that find none it sleeps.
pub(crate) fn work<R: Wait, G: Gate, W: Work>(
    rt: &R,
    mut worker: Worker<W>,
    crew: &Crew,
    gate: &G,
) -> Worker<W>
    ensures { worker_links result ≡ worker_links worker }
{
    let mut post = Post::of(crew, AtGate(gate));
    for _ in rt.forever() {
        let seen = post.jobs();
        let stopping = crew.is_stopping();
        let stepped = worker.step_watched(&mut post);
        if stopping && !matches!(stepped, Stepped::Answered | Stepped::Again) {
            break;
        }
        post.follow(rt, stepped, seen);
    }
    post.end();
    crew.add_ended();
    worker
}

// Starts a thread for each worker, in order. Where one can't be started, those that were started are stopped and joined,
// and all ends are dropped.
pub(crate) fn start<'s, E, R: Threads + Wait + Sync, G: Gate + Sync, W: Work + Send + Sync + 's>(
    rt: &'s R,
    scope: &Scope<'s, E>,
    crew: &'s Crew,
    gate: &'s G,
    workers: Vec<Worker<W>>,
) -> Result<Vec<PromisedHandle<Worker<W>, SameEnd<W>>>, AllocError>
where
    W::Out: Send,
    ensures ends { IfOk result (λ handles. promised_links handles.items ≡ map worker_links workers.items) }
    ensures len { IfOk result (λ handles. vec_len handles ≡ vec_len workers) }
{
    let mut handles = Vec::with_capacity(*workers.allocator(), workers.len())?;
    for worker in workers {
        let promise = SameEnd(Snapshot::of(&worker));
        match scope.spawn_with(promise, move || work(rt, worker, crew, gate)) {
            Ok(handle) => handles.push_reserved(handle),
            Err(_) => {
                crew.stop();
                discard(rt, handles);
                return Err(AllocError);
            }
        }
    }
    Ok(handles)
}

// Joins the threads, and drops their ends.
fn discard<R: Threads, W: Work>(rt: &R, handles: Vec<PromisedHandle<Worker<W>, SameEnd<W>>>) {
    for handle in handles {
        handle.join(rt);
    }
}

// Joins the threads, in order, and puts their ends into a list that has room for them.
pub(crate) fn finish<R: Threads, W: Work>(
    rt: &R,
    handles: Vec<PromisedHandle<Worker<W>, SameEnd<W>>>,
    mut joined: Vec<Worker<W>>,
) -> Vec<Worker<W>>
    requires { vec_len joined + vec_len handles ≤ vec_capacity joined }
    ensures { map worker_links result.items ≡ map worker_links joined.items ++ promised_links handles.items }
{
    for handle in handles {
        joined.push_reserved(handle.join(rt));
    }
    joined
}
