//! Lanes of clients' ends, and back.
ghost use Rattle.std.specs.Prelude.{◌≡◌, map, IfOk};
ghost use Rattle.lanes.specs.Clients.{client_links};
ghost use Rattle.desk_serving.specs.LanesView.{client_held, lane_held, links_held};
ghost use Rattle.desk_serving.specs.Owed.{queue_of};

use crate::client_lane::ClientLane;
use dmn_plan::Task;
use lanes::Client;
use model_marks::Catalog;
use std::alloc::{AllocError, Global};

/// The clients' lanes, in which nothing waits.
pub fn lanes_of<C: Catalog>(
    alloc: Global,
    clients: Vec<Client<Task<C>>>,
) -> Result<Vec<ClientLane<C>>, AllocError>
    ensures { IfOk result (λ lanes. (map lane_held lanes.items ≡ map queue_of clients.items) × (map links_held lanes.items ≡ map client_links clients.items)) }
{
    let mut lanes = Vec::with_capacity(alloc, clients.len())?;
    for client in clients {
        lanes.push_reserved(ClientLane::of(alloc, client));
    }
    Ok(lanes)
}

/// The clients' ends of lanes.
pub fn clients_of<C: Catalog>(
    alloc: Global,
    lanes: Vec<ClientLane<C>>,
) -> Result<Vec<Client<Task<C>>>, AllocError>
    ensures { IfOk result (λ clients. clients.items ≡ map client_held lanes.items) }
{
    let mut clients = Vec::with_capacity(alloc, lanes.len())?;
    for lane in lanes {
        clients.push_reserved(lane.into_client());
    }
    Ok(clients)
}
