//! Clients by their numbers, each with a mailbox, and the requests that wait to be taken.
ghost use Rattle.std.specs.Prelude.{◌≡◌, List, [], Err, IfOk, IfErr, OnErr, length};
ghost use Rattle.std.specs.Arc.{arc_value};
ghost use Rattle.box_core.specs.History as history;
ghost use Rattle.box_core.specs.Table.{Step, Legal};
ghost use Rattle.box_core.specs.Own.{AnswersOwn};
ghost use Rattle.box_core.specs.Claims.{HandedInOrder, HandedWhole, ClosedRefuses, Continues};
ghost use Rattle.box_core.specs.Views.{event_of, report_of, history_of, added_report, submitted_report, taken_report, answer_report, released_report, closed_report, resized_report, standing_of};
ghost use Rattle.box_core.specs.Mail.{standing_at};

use crate::event::{Event, Report};
use crate::faults::{AddRefusal, Answered, Refusal};
use crate::job::Job;
use crate::mailbox::{Mailbox, is_capacity};
use crate::standing::Standing;
use crate::work::{Done, Reply, Work};
use std::alloc::{AllocError, Global};
use std::marker::Model;
use std::sync::Arc;

/// The clients that a broker may have.
const CLIENTS: usize = 64;

/// The mailboxes of up to 64 clients, whose requests wait until they are taken. Clients go by their numbers, 0, 1, 2
/// and so on in the order in which they were added.
#[derive(Drop)]
pub struct Broker<W: Work> {
    boxes: Vec<Mailbox<W>>,
}

impl<W: Work> Model for Broker<W> {
    ghost use Rattle.std.specs.Prelude.{List, length, ◌≤◌};
    ghost use Rattle.box_core.specs.Mail.{Mail};

    ghost Value = { List (Mail W W.Out) };

    ghost view = { λ broker. broker.boxes.items };

    ghost invariant = { λ broker. length broker.boxes.items ≤ 64 };
}

impl<W: Work> Broker<W> {
    /// A broker with no client.
    pub fn new(alloc: Global) -> Broker<W>
        ensures { result ≡ [] }
    {
        Broker {
            boxes: Vec::new(alloc),
        }
    }

    /// Adds a client, and gives its number. It is refused by the first that applies of `Capacity`, `Many` and `Memory`.
    pub fn add_client(&mut self, capacity: u32) -> Result<u32, AddRefusal>
        ensures { Step W.request W.result_of self.old (history.AddClient capacity) (added_report result) self.new }
    {
        if !is_capacity(capacity) {
            return Err(AddRefusal::Capacity);
        }
        let client = self.boxes.len();
        if client >= CLIENTS {
            return Err(AddRefusal::Many);
        }
        let alloc = *self.boxes.allocator();
        let Ok(mailbox) = Mailbox::new(alloc, capacity) else {
            return Err(AddRefusal::Memory);
        };
        match self.boxes.push(mailbox) {
            Ok(()) => Ok(client as u32),
            Err(_) => Err(AddRefusal::Memory),
        }
    }

    /// Submits a request, and gives its ticket. A refused work comes back, with the first that applies of `NoClient`,
    /// `Closed`, `Full` and `Spent`. No memory is taken.
    pub fn submit(&mut self, client: u32, work: Arc<W>) -> Result<u64, (Refusal, Arc<W>)>
        ensures step { Step W.request W.result_of self.old (history.Submit client (arc_value work)) (submitted_report result) self.new }
        ensures returned { IfErr result (λ refused. refused.1 ≡ work) }
    {
        let Some(mailbox) = self.boxes.get_mut(client as usize) else {
            return Err((Refusal::NoClient, work));
        };
        mailbox.place(work, false)
    }

    /// Takes the job of a ticket that waits. It is refused by the first that applies of `NoClient`, `NotWaiting` and
    /// `Memory`.
    pub fn take(&mut self, client: u32, ticket: u64) -> Result<Job<W>, Refusal>
        ensures { Step W.request W.result_of self.old (history.Take client ticket) (taken_report result) self.new }
    {
        let Some(mailbox) = self.boxes.get_mut(client as usize) else {
            return Err(Refusal::NoClient);
        };
        mailbox.take(ticket)
    }

    /// Where a ticket of a client stands, as `Mailbox::standing` says; none where the broker has no such client.
    pub fn standing(&self, client: u32, ticket: u64) -> Result<Option<Standing<W>>, AllocError>
        ensures { IfOk result (λ standing. standing_of standing ≡ standing_at self.now client ticket) }
    {
        match self.boxes.get(client as usize) {
            Some(mailbox) => Ok(Some(mailbox.standing(ticket)?)),
            None => Ok(None),
        }
    }

    /// Answers a request, as `Mailbox::answer` does. It is refused only as `NoClient`. No memory is taken.
    pub fn answer(&mut self, client: u32, done: Done<W>) -> Result<Answered, Refusal>
        ensures { Step W.request W.result_of self.old (history.Answer client done) (answer_report result) self.new }
    {
        let Some(mailbox) = self.boxes.get_mut(client as usize) else {
            return Err(Refusal::NoClient);
        };
        Ok(mailbox.answer(done))
    }

    /// Runs the work that was taken under a client's ticket, and keeps its outcome: as `answer` does with that work, which is
    /// not compared with itself. None where the broker has no such client.
    pub fn answer_own(&mut self, client: u32, ticket: u64) -> Result<Option<Answered>, AllocError>
        ensures answered { IfOk result (λ told. AnswersOwn W.request W.result_of self.old client ticket (standing_at self.old client ticket) told self.new) }
        ensures unchanged { OnErr result (self.new ≡ self.old) }
        ensures clients { length self.new ≡ length self.old }
    {
        let alloc = *self.boxes.allocator();
        let Some(mailbox) = self.boxes.get_mut(client as usize) else {
            return Ok(None);
        };
        let told = mailbox.answer_own(alloc, ticket)?;
        Ok(Some(told))
    }

    /// Hands out the client's next result, if it is kept. It is refused only as `NoClient`. No memory is taken.
    pub fn release(&mut self, client: u32) -> Result<Option<Reply<W>>, Refusal>
        ensures { Step W.request W.result_of self.old (history.Release client) (released_report result) self.new }
    {
        let Some(mailbox) = self.boxes.get_mut(client as usize) else {
            return Err(Refusal::NoClient);
        };
        Ok(mailbox.release())
    }

    /// Closes a client for further requests. What was accepted can still be taken, answered and released. It is refused
    /// as `NoClient`, or `Closed` where it was closed. No memory is taken.
    pub fn close(&mut self, client: u32) -> Result<(), Refusal>
        ensures { Step W.request W.result_of self.old (history.Close client) (closed_report result) self.new }
    {
        let Some(mailbox) = self.boxes.get_mut(client as usize) else {
            return Err(Refusal::NoClient);
        };
        if mailbox.close() {
            return Ok(());
        }
        Err(Refusal::Closed)
    }

    /// Changes a client's capacity, as `Mailbox::resize` does. It is refused by the first that applies of `NoClient`,
    /// `Closed`, `Capacity`, `Small` and `Memory`.
    pub fn resize(&mut self, client: u32, capacity: u32) -> Result<(), Refusal>
        ensures { Step W.request W.result_of self.old (history.Resize client capacity) (resized_report capacity result) self.new }
    {
        let Some(mailbox) = self.boxes.get_mut(client as usize) else {
            return Err(Refusal::NoClient);
        };
        mailbox.resize(capacity)
    }

    /// Does what an event says, and reports it. A work that is refused is dropped.
    pub fn apply(&mut self, event: Event<W>) -> Report<W>
        ensures { Step W.request W.result_of self.old (event_of event) (report_of result) self.new }
    {
        match event {
            Event::AddClient(capacity) => self.added(capacity),
            Event::Submit(client, work) => self.submitted(client, work),
            Event::Take(client, ticket) => self.taken(client, ticket),
            Event::Answer(client, done) => self.answered(client, done),
            Event::Release(client) => self.released(client),
            Event::Close(client) => self.closed(client),
            Event::Resize(client, capacity) => self.resized(client, capacity),
        }
    }

    /// Does what the events say, one after another, and reports each. The list of reports is reserved first:
    /// where that is refused, the events come back and nothing is done.
    ///
    /// From a new broker, whatever events come, each client was handed a prefix of the results of its accepted
    /// requests, in order and each once; a request after its client's close is refused and never answered; and once
    /// as many results were handed as requests accepted, they are all the results.
    pub fn run(
        &mut self,
        events: Vec<Event<W>>,
    ) -> Result<Vec<Report<W>>, (AllocError, Vec<Event<W>>)>
        ensures in_order { IfOk result (λ reports. self.old ≡ [] → HandedInOrder W.request W.result_of (history_of events.items reports.items)) }
        ensures closed { IfOk result (λ reports. self.old ≡ [] → ClosedRefuses (history_of events.items reports.items)) }
        ensures whole { IfOk result (λ reports. self.old ≡ [] → HandedWhole W.request W.result_of (history_of events.items reports.items)) }
        ensures legal { IfOk result (λ reports. self.old ≡ [] → Legal W.request W.result_of (history_of events.items reports.items)) }
        // From a broker that was used, whichever legal history it comes from.
        ensures continues { IfOk result (λ reports. Continues W.request W.result_of self.old (history_of events.items reports.items) self.new) }
        ensures each { IfOk result (λ reports. length reports.items ≡ length events.items) }
        ensures returned { IfErr result (λ refused. (refused.1 ≡ events) × (self.new ≡ self.old)) }
    {
        let alloc = *self.boxes.allocator();
        let mut reports = match Vec::with_capacity(alloc, events.len()) {
            Ok(reports) => reports,
            Err(refused) => return Err((refused, events)),
        };
        for event in events {
            let report = self.apply(event);
            let _ = reports.push(report);
        }
        Ok(reports)
    }

    fn added(&mut self, capacity: u32) -> Report<W>
        ensures { Step W.request W.result_of self.old (history.AddClient capacity) (report_of result) self.new }
    {
        match self.add_client(capacity) {
            Ok(client) => Report::Added(client),
            Err(why) => Report::NotAdded(why),
        }
    }

    fn submitted(&mut self, client: u32, work: Arc<W>) -> Report<W>
        ensures { Step W.request W.result_of self.old (history.Submit client (arc_value work)) (report_of result) self.new }
    {
        match self.submit(client, work) {
            Ok(ticket) => Report::Accepted(ticket),
            Err((why, _)) => Report::Refused(why),
        }
    }

    fn taken(&mut self, client: u32, ticket: u64) -> Report<W>
        ensures { Step W.request W.result_of self.old (history.Take client ticket) (report_of result) self.new }
    {
        match self.take(client, ticket) {
            Ok(job) => Report::Taken(job),
            Err(why) => Report::Refused(why),
        }
    }

    fn answered(&mut self, client: u32, done: Done<W>) -> Report<W>
        ensures { Step W.request W.result_of self.old (history.Answer client done) (report_of result) self.new }
    {
        match self.answer(client, done) {
            Ok(Answered::Kept) => Report::Kept,
            Ok(Answered::Strange) => Report::Strange,
            Ok(Answered::Repeated) => Report::Repeated,
            Err(why) => Report::Refused(why),
        }
    }

    fn released(&mut self, client: u32) -> Report<W>
        ensures { Step W.request W.result_of self.old (history.Release client) (report_of result) self.new }
    {
        match self.release(client) {
            Ok(Some(reply)) => Report::Handed(reply),
            Ok(None) => Report::Nothing,
            Err(why) => Report::Refused(why),
        }
    }

    fn closed(&mut self, client: u32) -> Report<W>
        ensures { Step W.request W.result_of self.old (history.Close client) (report_of result) self.new }
    {
        match self.close(client) {
            Ok(()) => Report::Closed,
            Err(why) => Report::Refused(why),
        }
    }

    fn resized(&mut self, client: u32, capacity: u32) -> Report<W>
        ensures { Step W.request W.result_of self.old (history.Resize client capacity) (report_of result) self.new }
    {
        match self.resize(client, capacity) {
            Ok(()) => Report::Resized(capacity),
            Err(why) => Report::Refused(why),
        }
    }
}
