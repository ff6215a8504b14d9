//! How a ticket stands.
use crate::work::Work;
use std::sync::Arc;

/// Where a ticket stands.
#[derive(Drop)]
pub enum Standing<W: Work> {
    /// It was never accepted.
    Unknown,
    /// Its request was accepted, and waits to be taken.
    Waiting(Arc<W>),
    /// Its request was taken, and no answer was kept.
    Running(Arc<W>),
    /// An answer was kept for it.
    Settled,
}
