//! The front waits for answers, and wakes the workers before it does something that takes long.
ghost use Rattle.std.specs.Prelude.{◌≡◌};

use crate::named_lanes::Lanes;
use desk_lines::Source;
use model_marks::Catalog;
use std::alloc::AllocError;
use std::sync::Wait;

impl<C: Catalog> Lanes<C> {
    /// The reader rings the bell on which the front sleeps.
    pub fn tie<R: Source>(&self, reader: &mut R)
        ensures { R.seen reader.new ≡ R.seen reader.old }
    {
        if let Some(client) = self.clients.first() {
            reader.ring(client.signals().front());
        }
    }

    /// How many answers were posted to the lanes so far.
    pub fn answers(&self) -> u64 {
        match self.clients.first() {
            Some(client) => client.signals().answers(),
            None => 0,
        }
    }

    /// Where requests wait and no worker looks for them, one that sleeps is woken.
    pub fn call_worker(&self) {
        if let Some(client) = self.clients.first() {
            client.signals().call_for_jobs();
        }
    }

    /// Results were handed out, so what they held is free.
    pub fn free_memory(&self) {
        if let Some(client) = self.clients.first() {
            client.signals().free_memory();
        }
    }

    /// The front does something that takes long: workers are woken until one looks, or no request waits.
    pub fn call_workers(&self) {
        if let Some(client) = self.clients.first() {
            client.signals().go_away();
        }
    }

    /// A request may be put soon: a worker that sleeps is woken, so that it is awake by then.
    pub fn expect_request(&self) {
        if let Some(client) = self.clients.first() {
            client.signals().expect_job();
        }
    }

    /// Where nothing came since so many answers were posted, waits until there are more. It may return early.
    pub fn rest<R: Wait>(&self, rt: &R, came: bool, seen: u64) {
        if came {
            return;
        }
        if let Some(client) = self.clients.first() {
            client.signals().await_answer(rt, seen);
        }
    }

    /// The same, but answers an error where nothing will come: where the workers have been refused memory for what they
    /// hold again and again, and nothing was answered between.
    pub fn rest_fed<R: Wait>(&self, rt: &R, came: bool, seen: u64) -> Result<(), AllocError> {
        if !came && self.is_starved() {
            return Err(AllocError);
        }
        self.rest(rt, came, seen);
        Ok(())
    }

    /// Whether the workers find no memory for what they hold.
    fn is_starved(&self) -> bool {
        match self.clients.first() {
            Some(client) => client.signals().is_starved(),
            None => false,
        }
    }
}
