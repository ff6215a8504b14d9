//! Why calls are refused, and what becomes of an answer.
use thiserror::Error;

/// Why a mailbox is not made.
#[derive(Clone, Copy, Debug, PartialEq, Eq, Error)]
pub enum BoxFault {
    /// The capacity is 0 or over 4096.
    #[error("a mailbox has room for 1 to 4096 requests")]
    Capacity,
    /// There is no memory.
    #[error("out of memory")]
    Memory,
}

/// Why a client is not added.
#[derive(Clone, Copy, Debug, PartialEq, Eq, Error)]
pub enum AddRefusal {
    /// The capacity is 0 or over 4096.
    #[error("a client has room for 1 to 4096 requests")]
    Capacity,
    /// There are 64 clients.
    #[error("a broker has at most 64 clients")]
    Many,
    /// There is no memory.
    #[error("out of memory")]
    Memory,
}

/// Why a call on a mailbox or a broker is refused.
#[derive(Clone, Copy, Debug, PartialEq, Eq, Error)]
pub enum Refusal {
    /// The client was never added.
    #[error("there is no such client")]
    NoClient,
    /// The client is closed.
    #[error("the client is closed")]
    Closed,
    /// There are as many outstanding requests as the capacity.
    #[error("the mailbox is full")]
    Full,
    /// All tickets were given.
    #[error("all tickets of the client were given")]
    Spent,
    /// The ticket was never accepted, or was taken already.
    #[error("no request waits under this ticket")]
    NotWaiting,
    /// The new capacity is 0 or over 4096.
    #[error("a client has room for 1 to 4096 requests")]
    Capacity,
    /// There are more outstanding requests than the new capacity.
    #[error("more requests are outstanding than the new capacity")]
    Small,
    /// There is no memory.
    #[error("out of memory")]
    Memory,
}

/// What becomes of an answer.
#[derive(Clone, Copy, Debug, PartialEq, Eq)]
pub enum Answered {
    /// It is kept until its turn comes.
    Kept,
    /// Its ticket was never accepted or still waits, or it is for another request than the accepted one.
    Strange,
    /// An answer for its ticket was kept or handed before.
    Repeated,
}
