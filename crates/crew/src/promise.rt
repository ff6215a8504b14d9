//! What a worker's thread promises.
ghost use Rattle.std.specs.Prelude.{◌≡◌};
ghost use Rattle.lanes.specs.Workers.{worker_links};

use box_core::Work;
use lanes::Worker;
use std::snapshot::Snapshot;
use std::thread::Promise;

/// The promise of a worker's thread: it gives back the end that it was started with.
#[derive(Drop)]
pub(crate) struct SameEnd<W: Work>(pub(crate) Snapshot<Worker<W>>);

impl<W: Work> Promise<Worker<W>> for SameEnd<W> {
    ghost kept_by = { λ p r. worker_links r ≡ worker_links p.0.value };
}
