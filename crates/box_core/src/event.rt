//! What may be asked of a broker, and what it reports.
use crate::faults::{AddRefusal, Refusal};
use crate::job::Job;
use crate::work::{Done, Reply, Work};
use std::sync::Arc;

/// One call on a broker. Clients go by their numbers.
#[derive(Drop)]
pub enum Event<W: Work> {
    /// Adds a client with this capacity.
    AddClient(u32),
    /// Submits a request.
    Submit(u32, Arc<W>),
    /// Takes the job of a ticket.
    Take(u32, u64),
    /// Answers a request.
    Answer(u32, Done<W>),
    /// Releases the next result.
    Release(u32),
    /// Closes the client.
    Close(u32),
    /// Gives the client this capacity.
    Resize(u32, u32),
}

/// What a broker reports to an event.
#[derive(Drop)]
pub enum Report<W: Work> {
    /// The client has this number.
    Added(u32),
    /// The client is not added, for this reason.
    NotAdded(AddRefusal),
    /// The request has this ticket.
    Accepted(u64),
    /// The job of the ticket.
    Taken(Job<W>),
    /// The answer is kept.
    Kept,
    /// The answer is for no ticket that was taken, or for another request.
    Strange,
    /// An answer for its ticket was kept before.
    Repeated,
    /// The next result.
    Handed(Reply<W>),
    /// The next result is not there yet.
    Nothing,
    /// The client is closed.
    Closed,
    /// The client has this capacity.
    Resized(u32),
    /// Nothing is changed, for this reason.
    Refused(Refusal),
}
