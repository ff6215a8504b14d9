//! One client's lane: its end, and what waits behind what is in its mailbox.
ghost use Rattle.std.specs.Prelude.{◌≡◌, [], length};
ghost use Rattle.desk_serving.specs.Owed.{queue_of};
ghost use Rattle.desk_serving.specs.Waits.{closes, with_waits};

use box_core::Refusal;
use desk_wire::{Report, Told};
use dmn_plan::Task;
use lanes::{Client, Signals};
use model_marks::Catalog;
use std::alloc::{AllocError, Global};
use std::sync::Arc;

/// What waits in a lane, with how long its line is.
#[derive(Drop)]
pub enum Waiting<C: Catalog> {
    /// A request waits for a place in the mailbox.
    Request(Arc<Task<C>>, usize),
    /// What comes of another line, with its number, waits until the mailbox is whole.
    Told(u64, Told, usize),
}

impl<C: Catalog> Waiting<C> {
    /// Whether the client is closed by it.
    fn closes(&self) -> bool
        ensures { result ≡ closes self.now }
    {
        match self {
            Waiting::Request(_, _) => false,
            Waiting::Told(_, told, _) => match told {
                Told::Closed => true,
                _ => false,
            },
        }
    }
}

/// What became of a request that was put.
#[derive(Drop)]
pub enum Submitted<C: Catalog> {
    /// It was accepted.
    Accepted,
    /// There is no place for it, and it comes back.
    Full(Arc<Task<C>>),
}

/// A client's end of its lane, and what waits, in order: it stands behind what is in the mailbox.
#[derive(Drop)]
pub struct ClientLane<C: Catalog> {
    client: Client<Task<C>>,
    waits: Vec<Waiting<C>>,
    // Something waits only behind a request.
    ghost behind: { (with_waits (queue_of client) waits.items).put ≡ [] → length waits.items ≡ 0 },
}

impl<C: Catalog> ClientLane<C> {
    ghost use Rattle.std.specs.Prelude.{◌<◌, ◌^◌, false, true, IfOk, IsTrue, OnErr, OnOk};
    ghost use Rattle.std.specs.Arc.{arc_value};
    ghost use Rattle.std.specs.List.{remove};
    ghost use Rattle.lanes.specs.Clients.{client_links, put_of};
    ghost use Rattle.desk_serving.specs.LanesView.{IsPolled, lane_held};
    ghost use Rattle.desk_serving.specs.Owed.{HandsOwn, Queue, shut_by, with_put, with_told};
    ghost use Rattle.desk_serving.specs.Submits.{Submits};

    /// A lane in which nothing waits.
    pub fn of(alloc: Global, client: Client<Task<C>>) -> ClientLane<C>
        ensures client { result.client ≡ client }
        ensures waits { result.waits.items ≡ [] }
    {
        ClientLane {
            client,
            waits: Vec::new(alloc),
        }
    }

    /// The client's end.
    pub fn into_client(self) -> Client<Task<C>>
        ensures { result ≡ self.client }
    {
        let ClientLane { client, .. } = self;
        client
    }

    /// What wakes the threads of all lanes.
    pub fn signals(&self) -> &Signals {
        self.client.signals()
    }

    /// Whether the client is closed, or will be by what waits.
    pub fn is_closed(&self) -> bool
        ensures { result ≡ (lane_held self.now).closed }
    {
        for place in 0..self.waits.len() {
            if self.waits[place].closes() {
                return true;
            }
        }
        self.client.is_closed()
    }

    /// Whether something waits.
    pub fn has_waiting(&self) -> bool
        ensures clear { result ≡ false → self.now.waits.items ≡ [] }
        ensures some { result ≡ true → 0 < length self.now.waits.items }
    {
        !self.waits.is_empty()
    }

    /// Whether nothing is owed to the client.
    pub fn is_whole(&self) -> bool
        ensures clear { IsTrue result → self.now.waits.items ≡ [] }
        ensures whole { IsTrue result → (lane_held self.now).owed ≡ [] }
        ensures idle { (lane_held self.now).put ≡ [] → IsTrue result }
    {
        if self.has_waiting() {
            return false;
        }
        self.client.is_whole()
    }

    /// How many requests are in the mailbox.
    pub fn outstanding(&self) -> u64 {
        self.client.accepted().saturating_sub(self.client.handed())
    }

    /// Puts a request into a lane that is open. Where it waits, that gives how long its line is.
    pub fn put(&mut self, work: Arc<Task<C>>, bytes: usize) -> Result<Option<usize>, AllocError>
        requires few { length (lane_held self.old).put < 2 ^ 60 }
        requires open { (lane_held self.old).closed ≡ false }
        ensures same { client_links self.new.client ≡ client_links self.old.client }
        ensures put { OnOk result (lane_held self.new ≡ with_put (lane_held self.old) (arc_value work)) }
    {
        if self.has_waiting() {
            return self.wait(work, bytes);
        }
        self.put_first(work, bytes)
    }

    /// The same where nothing waits: the request waits only where the mailbox is full.
    fn put_first(&mut self, work: Arc<Task<C>>, bytes: usize) -> Result<Option<usize>, AllocError>
        requires few { length (lane_held self.old).put < 2 ^ 60 }
        requires open { (lane_held self.old).closed ≡ false }
        requires clear { self.old.waits.items ≡ [] }
        ensures same { client_links self.new.client ≡ client_links self.old.client }
        ensures put { OnOk result (lane_held self.new ≡ with_put (lane_held self.old) (arc_value work)) }
    {
        match ClientLane::submit(&mut self.client, work)? {
            Submitted::Accepted => Ok(None),
            Submitted::Full(work) => self.wait(work, bytes),
        }
    }

    /// Puts a request into a mailbox that is open.
    fn submit(client: &mut Client<Task<C>>, work: Arc<Task<C>>) -> Result<Submitted<C>, AllocError>
        requires few { length (queue_of client.old).put < 2 ^ 60 }
        requires open { (queue_of client.old).closed ≡ false }
        ensures same { client_links client.new ≡ client_links client.old }
        ensures refused { OnErr result (queue_of client.new ≡ queue_of client.old) }
        ensures submits { IfOk result (λ submitted. Submits (queue_of client.old) (arc_value work) submitted (queue_of client.new)) }
    {
        match client.submit(work) {
            Ok(_) => Ok(Submitted::Accepted),
            Err((Refusal::Full, work)) => Ok(Submitted::Full(work)),
            Err((Refusal::Memory, _)) => Err(AllocError),
            Err(_) => unreachable!(),
        }
    }

    /// A request waits behind what does.
    fn wait(&mut self, work: Arc<Task<C>>, bytes: usize) -> Result<Option<usize>, AllocError>
        ensures client { self.new.client ≡ self.old.client }
        ensures put { OnOk result (lane_held self.new ≡ with_put (lane_held self.old) (arc_value work)) }
    {
        self.waits.push(Waiting::Request(work, bytes))?;
        Ok(Some(bytes))
    }

    /// Tells what comes of a line behind all that is owed: where that is nothing it takes effect at once, and stands at the end of
    /// the text. Else it waits, and that gives how long the line is.
    pub fn tell(
        &mut self,
        alloc: Global,
        number: u64,
        name: &str,
        told: Told,
        bytes: usize,
        text: &mut Vec<u8>,
    ) -> Result<Option<usize>, AllocError>
        ensures same { client_links self.new.client ≡ client_links self.old.client }
        ensures hands { OnOk result (HandsOwn name.now (with_told number told (lane_held self.old)) (lane_held self.new) text.old.items text.new.items) }
    {
        if self.is_whole() {
            ClientLane::take_effect(&mut self.client, told)?;
            Report::Of(name, number, told).add_to(alloc, text)?;
            return Ok(None);
        }
        self.waits.push(Waiting::Told(number, told, bytes))?;
        Ok(Some(bytes))
    }

    /// What is told of a line takes effect in the mailbox.
    fn take_effect(client: &mut Client<Task<C>>, told: Told) -> Result<(), AllocError>
        ensures same { client_links client.new ≡ client_links client.old }
        ensures put { put_of client.new ≡ put_of client.old }
        ensures shut { OnOk result (queue_of client.new ≡ shut_by told (queue_of client.old)) }
    {
        match told {
            Told::Closed => {
                client.close();
                Ok(())
            }
            Told::Resized(capacity) => ClientLane::resize(client, capacity),
            _ => Ok(()),
        }
    }

    /// Gives a mailbox a capacity. Where the mailbox is whole and open, a lawful one is only refused for want of memory.
    fn resize(client: &mut Client<Task<C>>, capacity: u32) -> Result<(), AllocError>
        ensures same { client_links client.new ≡ client_links client.old }
        ensures put { put_of client.new ≡ put_of client.old }
        ensures queue { queue_of client.new ≡ queue_of client.old }
    {
        match client.resize(capacity) {
            Ok(()) => Ok(()),
            Err(why) => match why {
                Refusal::Memory => Err(AllocError),
                _ => Ok(()),
            },
        }
    }

    /// What waits first goes on, if its turn is there: a request into the mailbox, if there is a place for it; what is told of a line,
    /// at the end of the text, once the mailbox is whole. That gives what went.
    pub fn go_first(
        &mut self,
        alloc: Global,
        name: &str,
        text: &mut Vec<u8>,
    ) -> Result<Option<Waiting<C>>, AllocError>
        ensures same { client_links self.new.client ≡ client_links self.old.client }
        ensures clear { self.old.waits.items ≡ [] → self.new.waits.items ≡ [] }
        ensures hands { OnOk result (HandsOwn name.now (lane_held self.old) (lane_held self.new) text.old.items text.new.items) }
    {
        if self.waits.is_empty() {
            return Ok(None);
        }
        match &self.waits[0] {
            Waiting::Request(work, _) => {
                let work = Arc::try_clone(work)?;
                self.enter(work)
            }
            Waiting::Told(number, told, _) => {
                let (number, told) = (*number, *told);
                self.tell_first(alloc, number, name, told, text)
            }
        }
    }

    /// The request that waits first goes into the mailbox, if there is a place for it. Who looks at the lane sees no change.
    fn enter(&mut self, work: Arc<Task<C>>) -> Result<Option<Waiting<C>>, AllocError>
        requires some { 0 < length self.old.waits.items }
        requires first { (lane : Queue) → with_waits lane self.old.waits.items ≡ with_waits (with_put lane (arc_value work)) (remove self.old.waits.items 0) }
        ensures same { client_links self.new.client ≡ client_links self.old.client }
        ensures lane { OnOk result (lane_held self.new ≡ lane_held self.old) }
    {
        match self.client.submit(work) {
            Ok(_) => {
                let gone = self.waits.remove(0);
                Ok(Some(gone))
            }
            Err((Refusal::Memory, _)) => Err(AllocError),
            Err(_) => Ok(None),
        }
    }

    /// What is told of a line, and waits first, takes effect and is said, if the mailbox is whole.
    fn tell_first(
        &mut self,
        alloc: Global,
        number: u64,
        name: &str,
        told: Told,
        text: &mut Vec<u8>,
    ) -> Result<Option<Waiting<C>>, AllocError>
        requires some { 0 < length self.old.waits.items }
        requires first { (lane : Queue) → with_waits lane self.old.waits.items ≡ with_waits (with_told number told lane) (remove self.old.waits.items 0) }
        ensures same { client_links self.new.client ≡ client_links self.old.client }
        ensures hands { OnOk result (HandsOwn name.now (lane_held self.old) (lane_held self.new) text.old.items text.new.items) }
    {
        if !self.client.is_whole() {
            return Ok(None);
        }
        ClientLane::take_effect(&mut self.client, told)?;
        let gone = self.waits.remove(0);
        Report::Of(name, number, told).add_to(alloc, text)?;
        Ok(Some(gone))
    }

    /// Hands out the next result, if it is there, as a line at the end of the text. A whole lane costs a look at two numbers.
    pub fn hand_out_next(
        &mut self,
        alloc: Global,
        name: &str,
        text: &mut Vec<u8>,
    ) -> Result<(), AllocError>
        ensures same { client_links self.new.client ≡ client_links self.old.client }
        ensures polled { IsPolled self.old self.new }
        ensures waits { self.new.waits ≡ self.old.waits }
        ensures hands { OnOk result (HandsOwn name.now (lane_held self.old) (lane_held self.new) text.old.items text.new.items) }
    {
        if self.client.is_whole() {
            return Ok(());
        }
        let Some(reply) = self.client.poll() else {
            return Ok(());
        };
        Report::Reply(name, reply.ticket, &reply.outcome).add_to(alloc, text)
    }
}
