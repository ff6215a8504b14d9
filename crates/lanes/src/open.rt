//! The making of all ends.
ghost use Rattle.std.specs.Prelude.{◌≡◌, ◌⊎◌, ◌+◌, ◌<◌, ◌≤◌, All, List, [], ◌∷◌, ◌++◌, length, map, vec_len, Some, None, IfOk, IfErr, OnOk};
ghost use Rattle.crossbeam_deque.specs.Handles.{stealer_deque, worker_deque, worker_port, worker_view, worker_flavor, SameWorker};
ghost use Rattle.rtrb.specs.Ring.{received, IsPair};
ghost use Rattle.box_core.specs.Mail.{fresh, IsCapacity};
ghost use Rattle.lanes.specs.Books.{book};
ghost use Rattle.lanes.specs.Clients.{put_of, mail_of, came_to, client_links};
ghost use Rattle.lanes.specs.Joined.{received_of};
ghost use Rattle.lanes.specs.Identities.{add_each, links_of, ring_of, link};
ghost use Rattle.lanes.specs.Links.{AreOfOneCall, empties};
ghost use Rattle.lanes.specs.Made.{fault_in, AreNew, AreIdle};
ghost use Rattle.lanes.specs.Ports.{taken_at, held_at};
ghost use Rattle.lanes.specs.Workers.{worker_links, ports_of, port_link};

use crate::book::{ForWorker, Owner};
use crate::client::Client;
use crate::fault::LaneFault;
use crate::port::{Held, Port};
use crate::signals::Signals;
use crate::worker::Worker;
use box_core::{Done, LARGEST_CAPACITY, Mailbox, Work};
use rtrb::{Consumer, RingBuffer};
use std::alloc::{AllocError, Global};
use std::sync::Arc;

/// The most clients that there may be.
pub const MOST_CLIENTS: u32 = 64;
/// The most workers that there may be.
pub const MOST_WORKERS: u32 = 8;
/// The answers that the ring of one worker and one client has room for.
const ANSWERS: usize = 4;
/// The jobs that a lane's deque has room for before it grows.
const FIRST_SLOTS: usize = 64;

/// The ends of new lanes, one lane for each client: the clients' ends, and the ends of the workers, each of which serves
/// every lane. It is refused by the first that applies of `Count`, `Capacity` and `Memory`.
pub fn lanes<W: Work>(
    alloc: Global,
    clients: u32,
    workers: u32,
    capacity: u32,
) -> Result<(Vec<Client<W>>, Vec<Worker<W>>), LaneFault>
    ensures admitted { OnOk result (fault_in clients workers capacity ≡ None) }
    ensures refused { IfErr result (λ fault. (fault_in clients workers capacity ≡ Some fault) ⊎ ((fault_in clients workers capacity ≡ None) × (fault ≡ LaneFault.Memory))) }
    ensures count { IfOk result (λ ends. (vec_len ends.0 ≡ clients) × (vec_len ends.1 ≡ workers)) }
    ensures one_call { IfOk result (λ ends. AreOfOneCall (map client_links ends.0.items) (map worker_links ends.1.items)) }
    ensures new { IfOk result (λ ends. AreNew capacity ends.0.items × AreIdle ends.1.items) }
{
    if clients == 0 || clients > MOST_CLIENTS || workers == 0 || workers > MOST_WORKERS {
        return Err(LaneFault::Count);
    }
    if capacity == 0 || capacity > LARGEST_CAPACITY {
        return Err(LaneFault::Capacity);
    }
    match open_all(alloc, clients, workers, capacity) {
        Ok(ends) => Ok(ends),
        Err(_) => Err(LaneFault::Memory),
    }
}

// All ends, for lawful numbers.
fn open_all<W: Work>(
    alloc: Global,
    clients: u32,
    workers: u32,
    capacity: u32,
) -> Result<(Vec<Client<W>>, Vec<Worker<W>>), AllocError>
    requires { (clients ≤ 64) × IsCapacity capacity }
    ensures count { IfOk result (λ ends. (vec_len ends.0 ≡ clients) × (vec_len ends.1 ≡ workers)) }
    ensures one_call { IfOk result (λ ends. AreOfOneCall (map client_links ends.0.items) (map worker_links ends.1.items)) }
    ensures new { IfOk result (λ ends. AreNew capacity ends.0.items × AreIdle ends.1.items) }
{
    let mut ends = Vec::new(alloc);
    let signals = signals_of(alloc, clients)?;
    let mut crew = crew_of(alloc, workers, &signals)?;
    for lane in 0..clients {
        let client = open_lane(alloc, lane, capacity, &mut crew, &signals)?;
        ends.push(client)?;
    }
    Ok((ends, crew))
}

// Workers without a lane.
fn crew_of<W: Work>(
    alloc: Global,
    workers: u32,
    signals: &Arc<Signals>,
) -> Result<Vec<Worker<W>>, AllocError>
    ensures empty { IfOk result (λ crew. map ports_of crew.items ≡ empties workers) }
    ensures len { IfOk result (λ crew. vec_len crew ≡ workers) }
{
    let mut crew = Vec::new(alloc);
    for _ in 0..workers {
        let theirs = Arc::try_clone(signals)?;
        crew.push(Worker::without_lanes(alloc, theirs))?;
    }
    Ok(crew)
}

// What wakes the threads of so many lanes.
fn signals_of(alloc: Global, lanes: u32) -> Result<Arc<Signals>, AllocError> {
    let signals = Signals::of_lanes(alloc, lanes)?;
    let shared = Arc::new(alloc, signals)?;
    Ok(shared)
}

// One lane more, with a port for each worker.
fn open_lane<W: Work>(
    alloc: Global,
    lane: u32,
    capacity: u32,
    crew: &mut Vec<Worker<W>>,
    signals: &Arc<Signals>,
) -> Result<Client<W>, AllocError>
    requires lawful { IsCapacity capacity }
    requires few { All (λ ports. length ports < 64) (map ports_of crew.old.items) }
    ensures new { IfOk result (λ client. (put_of client ≡ []) × (came_to client ≡ []) × (mail_of client ≡ fresh 0 capacity)) }
    ensures links { IfOk result (λ client. (length (client_links client) ≡ vec_len crew.old) × (map worker_links crew.new.items ≡ add_each (map worker_links crew.old.items) (client_links client))) }
    ensures idle { OnOk result (AreIdle crew.old.items → AreIdle crew.new.items) }
    ensures len { vec_len crew.new ≡ vec_len crew.old }
{
    let mailbox = empty_mailbox(alloc, capacity)?;
    let mut owner = Owner::fifo_as(alloc, FIRST_SLOTS)?;
    let signals = Arc::try_clone(signals)?;
    let rings = open_ports(alloc, &mut owner, crew)?;
    Ok(Client {
        owner,
        mailbox,
        rings,
        signals,
        lane,
    })
}

// A port of a new lane for each worker, and the other ends of their rings.
fn open_ports<W: Work>(
    alloc: Global,
    owner: &mut Owner<W>,
    crew: &mut Vec<Worker<W>>,
) -> Result<Vec<Consumer<Done<W>>>, AllocError>
    requires owner { (worker_port owner.old ≡ 0) × (worker_flavor owner.old ≡ 0) × (worker_view owner.old ≡ book 1 0 [] []) }
    requires few { All (λ ports. length ports < 64) (map ports_of crew.old.items) }
    ensures owner { IfOk result (λ rings. (worker_port owner.new ≡ 0) × (worker_flavor owner.new ≡ 0) × (worker_view owner.new ≡ book 1 (vec_len rings) [] [])) }
    ensures links { IfOk result (λ rings. map worker_links crew.new.items ≡ add_each (map worker_links crew.old.items) (links_of (worker_deque owner.new) rings.items)) }
    ensures rings { IfOk result (λ rings. (vec_len rings ≡ vec_len crew.old) × (received_of rings.items ≡ [])) }
    ensures idle { OnOk result (AreIdle crew.old.items → AreIdle crew.new.items) }
    ensures len { vec_len crew.new ≡ vec_len crew.old }
{
    let mut rings = Vec::with_capacity(alloc, crew.len())?;
    for index in 0..crew.len() {
        let (port, ring) = open_port(alloc, owner)?;
        crew[index].add(port)?;
        rings.push_reserved(ring);
    }
    Ok(rings)
}

fn empty_mailbox<W: Work>(alloc: Global, capacity: u32) -> Result<Mailbox<W>, AllocError>
    requires { IsCapacity capacity }
    ensures { IfOk result (λ mailbox. mailbox ≡ fresh 0 capacity) }
{
    match Mailbox::new(alloc, capacity) {
        Ok(mailbox) => Ok(mailbox),
        Err(_) => Err(AllocError),
    }
}

// One more port of a lane, and the other end of its ring.
fn open_port<W: Work>(
    alloc: Global,
    owner: &mut Owner<W>,
) -> Result<(Port<W>, Consumer<Done<W>>), AllocError>
    requires { worker_port owner.old ≡ 0 }
    ensures same { SameWorker owner.old owner.new }
    ensures split { IfOk result (λ r. worker_view owner.new ≡ book (worker_view owner.old).live ((worker_view owner.old).out + 1) (worker_view owner.old).put (worker_view owner.old).taken) }
    ensures link { IfOk result (λ r. port_link r.0 ≡ link (worker_deque owner.old) (ring_of r.1)) }
    ensures fresh { IfOk result (λ r. (taken_at r.0 ≡ []) × (held_at r.0 ≡ []) × (received r.1 ≡ [])) }
{
    let (sender, ring) = RingBuffer::new(alloc, ANSWERS)?;
    let thief = owner.stealer()?;
    let seat = owner.another::<ForWorker>();
    let port = Port {
        thief,
        seat,
        sender,
        held: Held::Nothing,
    };
    Ok((port, ring))
}
