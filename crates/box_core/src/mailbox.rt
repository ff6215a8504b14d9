//! One client's outstanding requests, in the order of their acceptance.
ghost use Rattle.std.specs.Prelude.{◌≡◌, ◌⊎◌, Err, ℕ, ◌+◌, ◌-◌, ◌^◌, ◌<◌, ◌≤◌, Some, None, IfOk, IfErr, OnOk, OnErr, IfSome, IfNone, MatchOption, IsTrue, ◌↔◌, length, slice_get, not, true, ◌≢◌};
ghost use Rattle.std.specs.Arc.{arc_value};
ghost use Rattle.box_core.specs.Table.{AnswerReport, OrMemory, take_report};
ghost use Rattle.box_core.specs.Views.{answered_report, taken_report, status_of_standing};
ghost use Rattle.box_core.specs.declared.faults.Answered.TheVariants as answered;
ghost use Rattle.box_core.specs.Own.{own_answer};
ghost use Rattle.box_core.specs.Mail.{IsCapacity, is_no_capacity, fresh, accepted_in, refusal_in, status_in, next_in, with_request, with_taken, with_kept, with_handed, with_close, with_capacity, resize_refusal_in, status_of_place, open_in, Status, Waiting, Unknown, Running, Settled};

use crate::faults::{Answered, BoxFault, Refusal};
use crate::job::Job;
use crate::standing::Standing;
use crate::work::{Done, Reply, Work};
use circular_buffer::HeapCircularBuffer;
use std::alloc::{AllocError, Global};
use std::marker::Model;
use std::sync::Arc;

/// The tickets that a client may be given.
const TICKETS: u64 = 1 << 60;
/// The most requests that may be outstanding in one mailbox.
pub const LARGEST_CAPACITY: u32 = 4096;

/// Whether a mailbox may have this capacity.
pub(crate) fn is_capacity(capacity: u32) -> bool
    ensures { result ≡ not (is_no_capacity capacity) }
{
    capacity != 0 && capacity <= LARGEST_CAPACITY
}

/// An outstanding request, whether it was taken, and the outcome that was kept for it.
#[derive(Drop)]
struct Place<W: Work> {
    work: Arc<W>,
    taken: bool,
    kept: Option<W::Out>,
}

impl<W: Work> Model for Place<W> {
    ghost use Rattle.std.specs.Arc.{arc_value};
    ghost use Rattle.box_core.specs.Mail.{Place as Entry};

    ghost Value = { Entry W W.Out };

    ghost view = { λ place. record { work = arc_value place.work; taken = place.taken; kept = place.kept } };
}

/// The outstanding requests of one client, and the answers that wait for those before them.
///
/// Tickets rise by one from request to request. All places are reserved when the mailbox is made or resized, so that
/// no other call takes memory.
#[derive(Drop)]
pub struct Mailbox<W: Work> {
    places: HeapCircularBuffer<Place<W>>,
    handed: u64,
    capacity: u32,
    closed: bool,
}

impl<W: Work> Model for Mailbox<W> {
    ghost use Rattle.std.specs.Prelude.{ℕ, ◌≡◌, ◌+◌, ◌^◌, ◌≤◌, length};
    ghost use Rattle.box_core.specs.Mail.{Mail, IsCapacity};

    ghost Value = { Mail W W.Out };

    ghost view = { λ mailbox. record { capacity = mailbox.capacity; closed = mailbox.closed; handed = mailbox.handed; outstanding = mailbox.places.items } };

    // Each request that may be outstanding has its place reserved.
    ghost invariant = { λ mailbox.
        IsCapacity mailbox.capacity × (mailbox.places.capacity ≡ mailbox.capacity)
        × (length mailbox.places.items ≤ mailbox.capacity) × (mailbox.handed + length mailbox.places.items ≤ 2 ^ 60) };
}

impl<W: Work> Place<W> {
    // Takes in an answer for this place.
    fn settle(&mut self, done: Done<W>) -> Answered
        ensures answered { AnswerReport W.request (status_of_place (Some self.old)) done.work (answered_report {O = W.Out} result) }
        ensures kept { result ≡ answered.Kept → self.new ≡ record { work = self.old.work; taken = self.old.taken; kept = Some (W.result_of (W.request done.work)) } }
        ensures dropped { result ≢ answered.Kept → self.new ≡ self.old }
    {
        if !self.taken {
            return Answered::Strange;
        }
        if self.kept.is_some() {
            return Answered::Repeated;
        }
        if !self.work.same(done.work()) {
            return Answered::Strange;
        }
        self.kept = Some(done.into_outcome());
        Answered::Kept
    }

    // Runs the work of this place, if it was taken and no outcome is kept, and keeps the outcome.
    fn settle_own(&mut self, alloc: Global) -> Result<Answered, AllocError>
        ensures answered { IfOk result (λ told. told ≡ own_answer (status_of_place (Some self.old))) }
        ensures kept { IfOk result (λ told. told ≡ answered.Kept → self.new ≡ record { work = self.old.work; taken = self.old.taken; kept = Some (W.result_of (W.request self.old.work)) }) }
        ensures dropped { IfOk result (λ told. told ≢ answered.Kept → self.new ≡ self.old) }
        ensures unchanged { OnErr result (self.new ≡ self.old) }
    {
        match (self.taken, self.kept.is_some()) {
            (false, _) => Ok(Answered::Strange),
            (true, true) => Ok(Answered::Repeated),
            (true, false) => {
                let outcome = self.work.run(alloc)?;
                self.kept = Some(outcome);
                Ok(Answered::Kept)
            }
        }
    }

    // Where the ticket of this place stands.
    fn standing(&self) -> Result<Standing<W>, AllocError>
        ensures { IfOk result (λ standing. status_of_standing standing ≡ status_of_place (Some self.now)) }
    {
        match (self.taken, self.kept.is_some()) {
            (true, true) => Ok(Standing::Settled),
            (true, false) => Ok(Standing::Running(Arc::try_clone(&self.work)?)),
            (false, _) => Ok(Standing::Waiting(Arc::try_clone(&self.work)?)),
        }
    }

    // The job of this place, if it waits.
    fn take(&mut self, ticket: u64) -> Result<Job<W>, Refusal>
        ensures reported { OrMemory (take_report {O = W.Out} ticket (status_of_place (Some self.old))) (taken_report result) }
        ensures taken { IfOk result (λ _. self.new ≡ record { work = self.old.work; taken = true; kept = self.old.kept }) }
        ensures refused { IfErr result (λ _. self.new ≡ self.old) }
    {
        if self.taken {
            return Err(Refusal::NotWaiting);
        }
        match Arc::try_clone(&self.work) {
            Ok(work) => {
                self.taken = true;
                Ok(Job::of(ticket, work))
            }
            Err(_) => Err(Refusal::Memory),
        }
    }
}

impl<W: Work> Mailbox<W> {
    /// A mailbox with no request, whose first ticket is 0. A capacity is 1 to 4096.
    pub fn new(alloc: Global, capacity: u32) -> Result<Mailbox<W>, BoxFault>
        ensures made { IfOk result (λ mailbox. mailbox ≡ fresh 0 capacity) }
        ensures lawful { IsCapacity capacity → IfErr result (λ fault. fault ≡ BoxFault.Memory) }
        ensures unlawful { ¬ IsCapacity capacity → result ≡ Err BoxFault.Capacity }
    {
        Mailbox::starting_at(alloc, 0, capacity)
    }

    /// A mailbox as if this many requests had been accepted and handed their results, so that its first ticket is
    /// this one.
    pub fn starting_at(alloc: Global, ticket: u64, capacity: u32) -> Result<Mailbox<W>, BoxFault>
        requires { ticket ≤ 2 ^ 60 }
        ensures made { IfOk result (λ mailbox. mailbox ≡ fresh ticket capacity) }
        ensures lawful { IsCapacity capacity → IfErr result (λ fault. fault ≡ BoxFault.Memory) }
        ensures unlawful { ¬ IsCapacity capacity → result ≡ Err BoxFault.Capacity }
    {
        if !is_capacity(capacity) {
            return Err(BoxFault::Capacity);
        }
        match HeapCircularBuffer::with_capacity(alloc, capacity as usize) {
            Ok(places) => Ok(Mailbox {
                places,
                handed: ticket,
                capacity,
                closed: false,
            }),
            Err(_) => Err(BoxFault::Memory),
        }
    }

    /// How many requests may be outstanding at once.
    pub fn capacity(&self) -> u32
        ensures { result ≡ self.now.capacity }
    {
        self.capacity
    }

    /// Whether the mailbox is closed. It accepts nothing then.
    pub fn is_closed(&self) -> bool
        ensures { result ≡ self.now.closed }
    {
        self.closed
    }

    /// How many requests were accepted, which is also the next ticket.
    pub fn accepted(&self) -> u64
        ensures { result ≡ accepted_in self.now }
    {
        self.handed + self.places.len() as u64
    }

    /// How many results were handed, which is also the ticket that is handed next.
    pub fn handed(&self) -> u64
        ensures { result ≡ self.now.handed }
    {
        self.handed
    }

    /// Whether each accepted request was handed its result.
    pub fn is_whole(&self) -> bool
        ensures { IsTrue result ↔ (accepted_in self.now ≡ self.now.handed) }
    {
        self.places.is_empty()
    }

    /// Why `admit` would refuse, if it would: the first that applies of `Closed`, `Full` and `Spent`.
    pub fn admits(&self) -> Result<(), Refusal>
        ensures admitted { OnOk result (refusal_in self.now ≡ None) }
        ensures refused { IfErr result (λ why. refusal_in self.now ≡ Some why) }
    {
        if self.closed {
            return Err(Refusal::Closed);
        }
        if self.places.len() == self.capacity as usize {
            return Err(Refusal::Full);
        }
        if self.accepted() == TICKETS {
            return Err(Refusal::Spent);
        }
        Ok(())
    }

    /// Accepts a request, which counts as taken, and gives its ticket. A refused work comes back, with the first that
    /// applies of `Closed`, `Full` and `Spent`, and nothing is changed.
    pub fn admit(&mut self, work: Arc<W>) -> Result<u64, (Refusal, Arc<W>)>
        ensures admitted { IfOk result (λ ticket. (refusal_in self.old ≡ None) × (ticket ≡ accepted_in self.old) × (self.new ≡ with_request (arc_value work) true self.old)) }
        ensures refused { IfErr result (λ refused. (refusal_in self.old ≡ Some refused.0) × (refused.1 ≡ work) × (self.new ≡ self.old)) }
    {
        self.place(work, true)
    }

    /// Accepts a request, which was taken or waits to be, and gives its ticket. A refused work comes back.
    pub(crate) fn place(&mut self, work: Arc<W>, taken: bool) -> Result<u64, (Refusal, Arc<W>)>
        ensures admitted { IfOk result (λ ticket. (refusal_in self.old ≡ None) × (ticket ≡ accepted_in self.old) × (self.new ≡ with_request (arc_value work) taken self.old)) }
        ensures refused { IfErr result (λ refused. (refusal_in self.old ≡ Some refused.0) × (refused.1 ≡ work) × (self.new ≡ self.old)) }
    {
        match self.admits() {
            Ok(()) => {}
            Err(why) => return Err((why, work)),
        }
        let ticket = self.accepted();
        let _ = self.places.try_push_back(Place {
            work,
            taken,
            kept: None,
        });
        Ok(ticket)
    }

    /// Hands out the job of a ticket that waits.
    pub(crate) fn take(&mut self, ticket: u64) -> Result<Job<W>, Refusal>
        ensures reported { OrMemory (take_report {O = W.Out} ticket (status_in self.old ticket)) (taken_report result) }
        ensures taken { IfOk result (λ _. self.new ≡ with_taken ticket self.old) }
        ensures refused { IfErr result (λ _. self.new ≡ self.old) }
    {
        if ticket < self.handed {
            return Err(Refusal::NotWaiting);
        }
        let index = (ticket - self.handed) as usize;
        let Some(place) = self.places.get_mut(index) else {
            return Err(Refusal::NotWaiting);
        };
        place.take(ticket)
    }

    /// Where a ticket stands, with its work where the request is still to be answered.
    pub fn standing(&self, ticket: u64) -> Result<Standing<W>, AllocError>
        ensures { IfOk result (λ standing. status_of_standing standing ≡ status_in self.now ticket) }
    {
        if ticket < self.handed {
            return Ok(Standing::Settled);
        }
        let index = (ticket - self.handed) as usize;
        let Some(place) = self.places.get(index) else {
            return Ok(Standing::Unknown);
        };
        place.standing()
    }

    /// Takes in an answer. One that is not kept is dropped and changes nothing. What it is called is decided in this
    /// order: `Strange` where its ticket was never accepted or still waits, `Repeated` where an answer was kept for it
    /// or handed, `Strange` where it is for another request than the accepted one, `Kept`.
    pub fn answer(&mut self, done: Done<W>) -> Answered
        ensures answered { AnswerReport W.request (status_in self.old done.ticket) done.work (answered_report {O = W.Out} result) }
        ensures kept { result ≡ answered.Kept → self.new ≡ with_kept (W.result_of (W.request done.work)) done.ticket self.old }
        ensures dropped { result ≢ answered.Kept → self.new ≡ self.old }
    {
        let ticket = done.ticket();
        if ticket < self.handed {
            return Answered::Repeated;
        }
        let index = (ticket - self.handed) as usize;
        let Some(place) = self.places.get_mut(index) else {
            return Answered::Strange;
        };
        place.settle(done)
    }

    /// Runs the work that was taken under a ticket, and keeps its outcome: as `answer` does with that work, which is not
    /// compared with itself. What else it is called is decided in the order of `answer`, and changes nothing.
    pub(crate) fn answer_own(&mut self, alloc: Global, ticket: u64) -> Result<Answered, AllocError>
        ensures answered { IfOk result (λ told. told ≡ own_answer (status_in self.old ticket)) }
        ensures kept { IfOk result (λ told. (work : W) → status_in self.old ticket ≡ Running work → self.new ≡ with_kept (W.result_of (W.request work)) ticket self.old) }
        ensures dropped { IfOk result (λ told. told ≢ answered.Kept → self.new ≡ self.old) }
        ensures unchanged { OnErr result (self.new ≡ self.old) }
    {
        if ticket < self.handed {
            return Ok(Answered::Repeated);
        }
        let index = (ticket - self.handed) as usize;
        let Some(place) = self.places.get_mut(index) else {
            return Ok(Answered::Strange);
        };
        place.settle_own(alloc)
    }

    /// Hands out the next result, in the order of the tickets, if it is kept.
    pub fn release(&mut self) -> Option<Reply<W>>
        ensures handed { IfSome result (λ reply. (next_in self.old ≡ Some reply.outcome) × (reply.ticket ≡ self.old.handed) × (self.new ≡ with_handed self.old)) }
        ensures nothing { IfNone result ((next_in self.old ≡ None) × (self.new ≡ self.old)) }
    {
        let ready = match self.places.front() {
            Some(place) => place.kept.is_some(),
            None => false,
        };
        if !ready {
            return None;
        }
        let Some(place) = self.places.pop_front() else {
            return None;
        };
        let Place { kept, .. } = place;
        let Some(outcome) = kept else {
            return None;
        };
        let ticket = self.handed;
        self.handed += 1;
        Some(Reply { ticket, outcome })
    }

    /// The least accepted ticket from this one on that has no kept answer and was not handed its result, with its work.
    pub fn first_open(&self, from: u64) -> Option<(u64, &Arc<W>)>
        ensures found { IfSome result (λ found. (from ≤ found.0) × (open_in self.now found.0 ≡ Some (arc_value found.1.now))) }
        ensures least { IfSome result (λ found. (t : ℕ) → from ≤ t → t < found.0 → open_in self.now t ≡ None) }
        ensures none { IfNone result ((t : ℕ) → from ≤ t → open_in self.now t ≡ None) }
    {
        let first = from.max(self.handed);
        for ticket in first..self.accepted() {
            let index = (ticket - self.handed) as usize;
            let Some(place) = self.places.get(index) else {
                return None;
            };
            if place.kept.is_none() {
                return Some((ticket, &place.work));
            }
        }
        None
    }

    /// Changes the capacity, and nothing else. With the capacity that stands it takes no memory. It is refused by the
    /// first that applies of `Closed`, `Capacity`, `Small` and `Memory`.
    pub fn resize(&mut self, capacity: u32) -> Result<(), Refusal>
        ensures resized { OnOk result ((resize_refusal_in self.old capacity ≡ None) × (self.new ≡ with_capacity capacity self.old)) }
        ensures refused { IfErr result (λ why. (resize_refusal_in self.old capacity ≡ Some why) ⊎ ((resize_refusal_in self.old capacity ≡ None) × (capacity ≢ self.old.capacity) × (why ≡ Refusal.Memory))) }
        ensures unchanged { OnErr result (self.new ≡ self.old) }
    {
        if self.is_closed() {
            return Err(Refusal::Closed);
        }
        if !is_capacity(capacity) {
            return Err(Refusal::Capacity);
        }
        if self.places.len() > capacity as usize {
            return Err(Refusal::Small);
        }
        if capacity == self.capacity {
            return Ok(());
        }
        match self.places.resize(capacity as usize) {
            Ok(()) => {
                self.capacity = capacity;
                Ok(())
            }
            Err(_) => Err(Refusal::Memory),
        }
    }

    /// Closes the mailbox for further requests, and answers whether it was open.
    pub fn close(&mut self) -> bool
        ensures open { result ≡ not self.old.closed }
        ensures closed { self.new ≡ with_close self.old }
    {
        let open = !self.closed;
        self.closed = true;
        open
    }
}
