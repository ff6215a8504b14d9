ghost use Rattle.std.specs.Prelude.{◌≡◌, ℕ, map, IfOk};
ghost use Rattle.lanes.specs.Clients.{client_links};
ghost use Rattle.lanes.specs.Links.{AreOfOneCall};
ghost use Rattle.lanes.specs.Workers.{worker_links};

use box_core::Work;
use crew::{Crew, Host, beside};
use lanes::{Client, OpenGate, Settled, Worker, lanes, settle};
use std::alloc::{AllocError, Global};
use std::sync::{Arc, Wait};
use std::test::Fail;
use std::thread::{self, Parker, Threads};
use std::time::Duration;

mod still;

/// How many requests each client puts.
const REQUESTS: u64 = 50;

/// A request for a number. One that is too large is refused memory each time that it runs.
#[derive(Drop)]
struct Task {
    number: u64,
    is_too_large: bool,
}

impl Work for Task {
    type Out = u64;

    ghost Request = { ℕ };

    ghost request = { λ task. task.number };

    ghost result_of = { λ number. number };

    fn same(&self, other: &Self) -> bool {
        self.number == other.number
    }

    fn run(&self, _alloc: Global) -> Result<u64, AllocError> {
        if self.is_too_large {
            return Err(AllocError);
        }
        Ok(self.number)
    }
}

/// When a host that put its requests ends.
#[derive(Clone, Copy, Drop, PartialEq, Eq)]
enum Until {
    /// Each client was handed all its results.
    Whole,
    /// The workers have ended, which it stops once the requests are put.
    Ended,
    /// The workers starve, and each client but the first was handed all its results. The first client's first request is too
    /// large.
    Starved,
}

/// Puts the requests of its clients, in turn, and keeps what each is handed out.
#[derive(Drop)]
struct Asking {
    alloc: Global,
    clients: Vec<Client<Task>>,
    outcomes: Vec<Vec<u64>>,
    until: Until,
}

impl Asking {
    // With so many lists of outcomes as clients.
    fn of(alloc: Global, clients: Vec<Client<Task>>, until: Until) -> Result<Asking, AllocError>
        ensures { IfOk result (λ asking. asking.clients ≡ clients) }
    {
        let mut outcomes = Vec::new(alloc);
        for _ in 0..clients.len() {
            outcomes.push(Vec::new(alloc))?;
        }
        Ok(Asking {
            alloc,
            clients,
            outcomes,
            until,
        })
    }

    // Puts a request, once there is a place for it.
    fn put<R: Wait>(&mut self, rt: &R, client: usize, task: Task) -> Result<(), AllocError>
        ensures { map client_links self.new.clients.items ≡ map client_links self.old.clients.items }
    {
        let mut work = Arc::new(self.alloc, task)?;
        for _ in rt.forever() {
            match submitted(&mut self.clients, client, work) {
                Ok(()) => break,
                Err(refused) => work = refused,
            }
            self.take(client)?;
            thread::yield_now();
        }
        Ok(())
    }

    // Keeps the results of a client that are there.
    fn take(&mut self, client: usize) -> Result<(), AllocError>
        ensures { map client_links self.new.clients.items ≡ map client_links self.old.clients.items }
    {
        for _ in 0..REQUESTS {
            let Some(outcome) = polled(&mut self.clients, client) else {
                break;
            };
            if let Some(outcomes) = self.outcomes.get_mut(client) {
                outcomes.push(outcome)?;
            }
        }
        Ok(())
    }

    // Whether each client was handed all its results.
    fn is_whole(&self) -> bool {
        self.clients.iter().all(|client| client.is_whole())
    }

    // Whether each client but the first was handed all its results.
    fn rest_is_whole(&self) -> bool {
        self.clients.iter().skip(1).all(|client| client.is_whole())
    }

    // Whether no result that it waits for will come any more.
    fn is_done(&self, crew: &Crew) -> bool {
        match self.until {
            Until::Whole => self.is_whole(),
            Until::Ended => crew.has_ended(),
            Until::Starved => self.rest_is_whole() && crew.signals().is_starved(),
        }
    }

    // Puts all requests, then takes results to the end.
    fn ask<R: Wait>(&mut self, rt: &R, crew: &Crew) -> Result<(), AllocError>
        ensures { map client_links self.new.clients.items ≡ map client_links self.old.clients.items }
    {
        for number in 0..REQUESTS {
            for client in 0..self.clients.len() {
                let is_too_large = self.until == Until::Starved && client == 0 && number == 0;
                let task = Task {
                    number,
                    is_too_large,
                };
                self.put(rt, client, task)?;
            }
        }
        if self.until == Until::Ended {
            crew.stop();
        }
        for _ in rt.forever() {
            let is_last = self.is_done(crew);
            for client in 0..self.clients.len() {
                self.take(client)?;
            }
            if is_last {
                break;
            }
            thread::yield_now();
        }
        Ok(())
    }
}

impl Host for Asking {
    type Out = Result<(), AllocError>;

    ghost ready = { λ _. Unit {0} };

    ghost done = { λ old new _. map client_links new.clients.items ≡ map client_links old.clients.items };

    fn run<R: Wait>(&mut self, rt: &R, crew: &Crew) -> Result<(), AllocError> {
        self.ask(rt, crew)
    }
}

fn submitted(
    clients: &mut Vec<Client<Task>>,
    client: usize,
    work: Arc<Task>,
) -> Result<(), Arc<Task>>
    ensures { map client_links clients.new.items ≡ map client_links clients.old.items }
{
    let Some(end) = clients.get_mut(client) else {
        return Err(work);
    };
    match end.submit(work) {
        Ok(_) => Ok(()),
        Err((_, work)) => Err(work),
    }
}

fn polled(clients: &mut Vec<Client<Task>>, client: usize) -> Option<u64>
    ensures { map client_links clients.new.items ≡ map client_links clients.old.items }
{
    let Some(end) = clients.get_mut(client) else {
        return None;
    };
    match end.poll() {
        Some(reply) => Some(reply.outcome),
        None => None,
    }
}

fn ends_of(
    alloc: Global,
    clients: u32,
    workers: u32,
    capacity: u32,
) -> Result<(Vec<Client<Task>>, Vec<Worker<Task>>), AllocError>
    ensures { IfOk result (λ ends. AreOfOneCall (map client_links ends.0.items) (map worker_links ends.1.items)) }
{
    match lanes(alloc, clients, workers, capacity) {
        Ok(ends) => Ok(ends),
        Err(_) => Err(AllocError),
    }
}

/// What was handed out while the workers ran, how many clients had a result after that, and the settled ends.
#[derive(Drop)]
struct Handed {
    outcomes: Vec<Vec<u64>>,
    late: u64,
    ends: Vec<Settled<Task>>,
}

// Two clients ask four workers.
fn answered_to<R: Threads + Wait + Sync>(
    rt: &R,
    alloc: Global,
    capacity: u32,
    until: Until,
) -> Result<Handed, AllocError> {
    let (clients, workers) = ends_of(alloc, 2, 4, capacity)?;
    let mut host = Asking::of(alloc, clients, until)?;
    let (ran, workers) = beside(rt, &OpenGate, workers, &mut host)?;
    ran?;
    let Asking {
        mut clients,
        outcomes,
        ..
    } = host;
    let late = late_in(&mut clients);
    match settle(clients, workers) {
        Ok(ends) => Ok(Handed {
            outcomes,
            late,
            ends,
        }),
        Err((refused, _, _)) => Err(refused),
    }
}

// How many clients have a result to hand out.
fn late_in(clients: &mut Vec<Client<Task>>) -> u64
    ensures { map client_links clients.new.items ≡ map client_links clients.old.items }
{
    let mut late: u64 = 0;
    for client in 0..clients.len() {
        if polled(clients, client).is_some() {
            late = late.wrapping_add(1);
        }
    }
    late
}

// Runs the jobs that are left, and adds the results that were not handed out.
fn hand_out_rest(
    alloc: Global,
    end: &mut Settled<Task>,
    outcomes: &mut Vec<u64>,
) -> Result<(), AllocError> {
    for _ in 0..REQUESTS {
        let Some(job) = end.next_left() else {
            break;
        };
        if let Ok(done) = job.run(alloc) {
            end.answer(done);
        }
    }
    for _ in 0..REQUESTS {
        let Some(reply) = end.release() else {
            break;
        };
        outcomes.push(reply.outcome)?;
    }
    Ok(())
}

// The results of one client's requests, in their order.
fn all_results(alloc: Global) -> Result<Vec<u64>, AllocError> {
    let mut results = Vec::new(alloc);
    for number in 0..REQUESTS {
        results.push(number)?;
    }
    Ok(results)
}

#[test]
fn all_is_handed_out_beside_four_workers(rt: HostRuntime) -> Result<(), Fail> {
    let alloc = rt.alloc();
    let results = all_results(alloc)?;
    let handed_out = answered_to(&rt, alloc, 8, Until::Whole)?;
    assert_eq!(rt; handed_out.outcomes.len(), 2);
    for handed in &handed_out.outcomes {
        assert_eq!(rt; handed.as_slice(), results.as_slice());
    }
    assert_eq!(rt; handed_out.ends.len(), 2);
    for end in &handed_out.ends {
        assert!(rt; end.is_whole());
    }
    Ok(())
}

#[test]
fn what_a_stop_leaves_is_handed_out_after_it(rt: HostRuntime) -> Result<(), Fail> {
    let alloc = rt.alloc();
    let results = all_results(alloc)?;
    for _ in 0..20 {
        let Handed {
            mut outcomes,
            late,
            mut ends,
        } = answered_to(&rt, alloc, 64, Until::Ended)?;
        assert_eq!(rt; late, 0);
        assert_eq!(rt; ends.len(), 2);
        for (end, handed) in ends.iter_mut().zip(outcomes.iter_mut()) {
            hand_out_rest(alloc, end, handed)?;
            assert_eq!(rt; handed.as_slice(), results.as_slice());
            assert!(rt; end.is_whole());
        }
    }
    Ok(())
}

// The tickets of the jobs that are left.
fn left_in(alloc: Global, end: &mut Settled<Task>) -> Result<Vec<u64>, AllocError> {
    let mut tickets = Vec::new(alloc);
    for _ in 0..REQUESTS {
        let Some(job) = end.next_left() else {
            break;
        };
        tickets.push(job.ticket())?;
    }
    Ok(tickets)
}

/// How many results each client is handed, and which of its jobs are left, where the first client's first request never fits.
const HANDED: &[u64] = &[0, REQUESTS];

const LEFT: &[&[u64]] = &[&[0], &[]];

#[test]
fn a_job_that_never_fits_keeps_no_other_client(rt: HostRuntime) -> Result<(), Fail> {
    let alloc = rt.alloc();
    let results = all_results(alloc)?;
    let Handed {
        outcomes,
        late,
        mut ends,
    } = answered_to(&rt, alloc, 64, Until::Starved)?;
    assert_eq!(rt; late, 0);
    assert_eq!(rt; outcomes.len(), 2);
    for (handed, count) in outcomes.iter().zip(HANDED) {
        assert_eq!(rt; handed.len() as u64, *count);
        assert!(rt; results.as_slice().starts_with(handed.as_slice()));
    }
    assert_eq!(rt; ends.len(), 2);
    for (end, due) in ends.iter_mut().zip(LEFT) {
        assert_eq!(rt; left_in(alloc, end)?.as_slice(), *due);
    }
    Ok(())
}

/// How long a host gives the workers to fall asleep, in milliseconds.
const ASLEEP: u64 = 20;

/// Stops the workers while they sleep, and waits until they have ended.
#[derive(Drop)]
struct Stopping;

impl Host for Stopping {
    type Out = ();

    ghost ready = { λ _. Unit {0} };

    ghost done = { λ _ _ _. Unit {0} };

    fn run<R: Wait>(&mut self, rt: &R, crew: &Crew) {
        Parker::new().park_timeout(rt, Duration::from_millis(ASLEEP));
        crew.stop();
        for _ in rt.forever() {
            if crew.has_ended() {
                break;
            }
            thread::yield_now();
        }
    }
}

#[test]
fn workers_that_sleep_end_when_they_are_stopped(rt: HostRuntime) -> Result<(), Fail> {
    for _ in 0..5 {
        let (_, workers) = ends_of(rt.alloc(), 2, 8, 1)?;
        let ((), workers) = beside(&rt, &OpenGate, workers, &mut Stopping)?;
        assert_eq!(rt; workers.len(), 8);
    }
    Ok(())
}
