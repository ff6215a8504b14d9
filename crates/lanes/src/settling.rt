//! All ends come together.
ghost use Rattle.std.specs.Prelude.{◌≡◌, ◌≤◌, List, [], ◌∷◌, ◌++◌, length, map, vec_len, vec_capacity, IfOk, IfErr};
ghost use Rattle.lanes.specs.Clients.{client_links};
ghost use Rattle.lanes.specs.Identities.{add_each};
ghost use Rattle.lanes.specs.Links.{AreOfOneCall};
ghost use Rattle.lanes.specs.Rooms.{HasRoom, AllHaveRoom, HavePorts};
ghost use Rattle.lanes.specs.Settling.{AllSettle};
ghost use Rattle.lanes.specs.Workers.{worker_links, ports_of};

use crate::client::Client;
use crate::ending::settle_lane;
use crate::port::Port;
use crate::settled::Settled;
use crate::worker::Worker;
use box_core::{Job, Work};
use std::alloc::{AllocError, Global};

/// Brings all ends of one call of `lanes` together again: each answer that was sent or is held is taken in, and each
/// request without one is left as a job. The results are the clients', in their order.
///
/// All memory is asked for first. Where it is refused, the ends come back as they were.
pub fn settle<W: Work>(
    clients: Vec<Client<W>>,
    workers: Vec<Worker<W>>,
) -> Result<Vec<Settled<W>>, (AllocError, Vec<Client<W>>, Vec<Worker<W>>)>
    requires { AreOfOneCall (map client_links clients.items) (map worker_links workers.items) }
    ensures settled { IfOk result (λ ends. AllSettle W.request W.result_of 0 (map ports_of workers.items) clients.items ends.items) }
    ensures refused { IfErr result (λ refused. (refused.1 ≡ clients) × (refused.2 ≡ workers)) }
{
    let alloc = *clients.allocator();
    match Room::of(alloc, &clients, workers.len()) {
        Ok(room) => Ok(settle_all(clients, workers, room)),
        Err(refused) => Err((refused, clients, workers)),
    }
}

// The memory that the ends of some clients and workers take to settle.
#[derive(Drop)]
struct Room<W: Work> {
    column: Vec<Port<W>>,
    lefts: Vec<Vec<Job<W>>>,
    ends: Vec<Settled<W>>,
}

impl<W: Work> Room<W> {
    // Room in each lane for the requests that can be without an answer, and for what each worker can hold.
    fn of(alloc: Global, clients: &Vec<Client<W>>, workers: usize) -> Result<Room<W>, AllocError>
        ensures column { IfOk result (λ room. (room.column.items ≡ []) × (vec_capacity room.column ≡ workers)) }
        ensures lefts { IfOk result (λ room. AllHaveRoom workers clients.now.items room.lefts.items) }
        ensures ends { IfOk result (λ room. (room.ends.items ≡ []) × (vec_capacity room.ends ≡ vec_len clients.now)) }
    {
        let column = Vec::with_capacity(alloc, workers)?;
        let ends = Vec::with_capacity(alloc, clients.len())?;
        let mut lefts = Vec::with_capacity(alloc, clients.len())?;
        for client in clients {
            lefts.push_reserved(room_for(alloc, client, workers)?);
        }
        Ok(Room {
            column,
            lefts,
            ends,
        })
    }
}

// Room for the jobs of one lane that can be left.
fn room_for<W: Work>(
    alloc: Global,
    client: &Client<W>,
    workers: usize,
) -> Result<Vec<Job<W>>, AllocError>
    ensures { IfOk result (λ left. HasRoom workers client.now left) }
{
    let open = (client.accepted() - client.handed()) as usize;
    Vec::with_capacity(alloc, open.max(workers))
}

// Settles the lanes, the last one first.
fn settle_all<W: Work>(
    mut clients: Vec<Client<W>>,
    mut workers: Vec<Worker<W>>,
    room: Room<W>,
) -> Vec<Settled<W>>
    requires ends { AreOfOneCall (map client_links clients.items) (map worker_links workers.items) }
    requires column { (room.column.items ≡ []) × (vec_capacity room.column ≡ vec_len workers) }
    requires lefts { AllHaveRoom (vec_len workers) clients.items room.lefts.items }
    requires room { (room.ends.items ≡ []) × (vec_capacity room.ends ≡ vec_len clients) }
    ensures { AllSettle W.request W.result_of 0 (map ports_of workers.items) clients.items result.items }
{
    let Room {
        mut column,
        mut lefts,
        mut ends,
    } = room;
    while let Some(client) = clients.pop() {
        let Some(left) = lefts.pop() else {
            unreachable!()
        };
        take_column(&mut workers, &mut column);
        ends.push_reserved(settle_lane(client, &mut column, left));
    }
    ends.reverse();
    ends
}

// Takes the last port of each worker.
fn take_column<W: Work>(workers: &mut Vec<Worker<W>>, column: &mut Vec<Port<W>>)
    requires empty { column.old.items ≡ [] }
    requires room { vec_capacity column.old ≡ vec_len workers.old }
    requires ports { HavePorts workers.old.items }
    ensures taken { map ports_of workers.old.items ≡ add_each (map ports_of workers.new.items) column.new.items }
    ensures column { vec_len column.new ≡ vec_len workers.old }
    ensures workers { vec_len workers.new ≡ vec_len workers.old }
    ensures room { vec_capacity column.new ≡ vec_capacity column.old }
{
    for index in 0..workers.len() {
        let Some(port) = workers[index].remove() else {
            unreachable!()
        };
        column.push_reserved(port);
    }
}
