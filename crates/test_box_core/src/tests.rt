ghost use Rattle.std.specs.Prelude.{◌≡◌, ℕ, ◌+◌};

use box_core::{
    AddRefusal, Answered, BoxFault, Broker, Done, Event, Mailbox, Refusal, Report, Work,
};
use std::alloc::{AllocError, Global};
use std::process::Abort;
use std::sync::Arc;
use std::test::Fail;

mod memory;

/// A request for the number after this one, whose run takes memory.
#[derive(Drop)]
struct Successor {
    asked: u32,
}

impl Work for Successor {
    type Out = u64;

    ghost Request = { ℕ };

    ghost request = { λ work. work.asked };

    ghost result_of = { λ asked. asked + 1 };

    fn same(&self, other: &Self) -> bool {
        self.asked == other.asked
    }

    fn run(&self, alloc: Global) -> Result<u64, AllocError> {
        let before = Arc::new(alloc, self.asked)?;
        drop(before);
        Ok(u64::from(self.asked) + 1)
    }
}

fn work(alloc: Global, asked: u32) -> Result<Arc<Successor>, AllocError> {
    Ok(Arc::new(alloc, Successor { asked })?)
}

fn done(alloc: Global, ticket: u64, asked: u32) -> Result<Done<Successor>, AllocError> {
    Done::of(alloc, ticket, work(alloc, asked)?).map_err(|(refused, _)| refused)
}

fn mailbox_of(alloc: Global, capacity: u32) -> Result<Mailbox<Successor>, AllocError> {
    Mailbox::new(alloc, capacity).map_err(|_| AllocError)
}

fn admitted(mailbox: &mut Mailbox<Successor>, work: Arc<Successor>) -> Result<u64, Refusal> {
    mailbox.admit(work).map_err(|(why, _)| why)
}

// The mailbox gives the request this ticket, or refuses it so.
fn admits(
    rt: &impl Abort,
    alloc: Global,
    mailbox: &mut Mailbox<Successor>,
    asked: u32,
    due: Result<u64, Refusal>,
) -> Result<(), AllocError> {
    let work = work(alloc, asked)?;
    assert_eq!(rt; admitted(mailbox, work), due);
    Ok(())
}

// The mailbox keeps the answer.
fn keeps(
    rt: &impl Abort,
    alloc: Global,
    mailbox: &mut Mailbox<Successor>,
    ticket: u64,
    asked: u32,
) -> Result<(), AllocError> {
    let done = done(alloc, ticket, asked)?;
    assert_eq!(rt; mailbox.answer(done), Answered::Kept);
    Ok(())
}

// The mailbox hands this ticket's result next, or none.
fn hands(rt: &impl Abort, mailbox: &mut Mailbox<Successor>, due: Option<(u64, u64)>) {
    let handed = mailbox.release().map(|reply| (reply.ticket, reply.outcome));
    assert_eq!(rt; handed, due);
}

// The mailbox admits so many requests, whose numbers are their tickets.
fn fill(
    rt: &impl Abort,
    alloc: Global,
    mailbox: &mut Mailbox<Successor>,
    count: u32,
) -> Result<(), AllocError> {
    for asked in 0..count {
        admits(rt, alloc, mailbox, asked, Ok(u64::from(asked)))?;
    }
    Ok(())
}

/// What is asked of a broker, by client; an answer has the result of some request.
#[derive(Clone, Copy)]
enum Ask {
    Add(u32),
    Submit(u32, u32),
    Take(u32, u64),
    Answer(u32, u64, u32),
    Release(u32),
    Close(u32),
    Resize(u32, u32),
}

/// What is reported: a job by its ticket, a result by its ticket and outcome.
#[derive(Clone, Copy)]
enum Said {
    Added(u32),
    NotAdded(AddRefusal),
    Accepted(u64),
    Taken(u64),
    Kept,
    Strange,
    Repeated,
    Handed(u64, u64),
    Nothing,
    Closed,
    Resized(u32),
    Refused(Refusal),
}

fn event(alloc: Global, ask: Ask) -> Result<Event<Successor>, AllocError> {
    Ok(match ask {
        Ask::Add(capacity) => Event::AddClient(capacity),
        Ask::Submit(client, asked) => Event::Submit(client, work(alloc, asked)?),
        Ask::Take(client, ticket) => Event::Take(client, ticket),
        Ask::Answer(client, ticket, asked) => Event::Answer(client, done(alloc, ticket, asked)?),
        Ask::Release(client) => Event::Release(client),
        Ask::Close(client) => Event::Close(client),
        Ask::Resize(client, capacity) => Event::Resize(client, capacity),
    })
}

fn is_said(report: &Report<Successor>, said: Said) -> bool {
    match (report, said) {
        (Report::Added(client), Said::Added(wanted)) => *client == wanted,
        (Report::NotAdded(why), Said::NotAdded(wanted)) => *why == wanted,
        (Report::Accepted(ticket), Said::Accepted(wanted)) => *ticket == wanted,
        (Report::Taken(job), Said::Taken(wanted)) => job.ticket() == wanted,
        (Report::Handed(reply), Said::Handed(ticket, outcome)) => {
            reply.ticket == ticket && reply.outcome == outcome
        }
        (Report::Resized(capacity), Said::Resized(wanted)) => *capacity == wanted,
        (Report::Refused(why), Said::Refused(wanted)) => *why == wanted,
        (Report::Kept, Said::Kept)
        | (Report::Strange, Said::Strange)
        | (Report::Repeated, Said::Repeated)
        | (Report::Nothing, Said::Nothing)
        | (Report::Closed, Said::Closed) => true,
        _ => false,
    }
}

/// What is asked of a new broker, each with what it reports.
const HISTORIES: &[&[(Ask, Said)]] = &[
    // Answers out of order are handed in order.
    &[
        (Ask::Add(2), Said::Added(0)),
        (Ask::Submit(0, 1), Said::Accepted(0)),
        (Ask::Submit(0, 2), Said::Accepted(1)),
        (Ask::Take(0, 0), Said::Taken(0)),
        (Ask::Take(0, 1), Said::Taken(1)),
        (Ask::Answer(0, 1, 2), Said::Kept),
        (Ask::Release(0), Said::Nothing),
        (Ask::Answer(0, 0, 1), Said::Kept),
        (Ask::Release(0), Said::Handed(0, 2)),
        (Ask::Release(0), Said::Handed(1, 3)),
        (Ask::Release(0), Said::Nothing),
    ],
    // A full mailbox refuses.
    &[
        (Ask::Add(1), Said::Added(0)),
        (Ask::Submit(0, 1), Said::Accepted(0)),
        (Ask::Submit(0, 1), Said::Refused(Refusal::Full)),
        (Ask::Take(0, 0), Said::Taken(0)),
        (Ask::Answer(0, 0, 1), Said::Kept),
        (Ask::Release(0), Said::Handed(0, 2)),
        (Ask::Submit(0, 1), Said::Accepted(1)),
    ],
    // A closed client is handed what was accepted.
    &[
        (Ask::Add(2), Said::Added(0)),
        (Ask::Submit(0, 1), Said::Accepted(0)),
        (Ask::Submit(0, 2), Said::Accepted(1)),
        (Ask::Close(0), Said::Closed),
        (Ask::Submit(0, 3), Said::Refused(Refusal::Closed)),
        (Ask::Take(0, 0), Said::Taken(0)),
        (Ask::Take(0, 1), Said::Taken(1)),
        (Ask::Answer(0, 1, 2), Said::Kept),
        (Ask::Release(0), Said::Nothing),
        (Ask::Answer(0, 0, 1), Said::Kept),
        (Ask::Release(0), Said::Handed(0, 2)),
        (Ask::Release(0), Said::Handed(1, 3)),
        (Ask::Release(0), Said::Nothing),
        (Ask::Close(0), Said::Refused(Refusal::Closed)),
    ],
    // A taken ticket, one that was never given, a client that isn't there, and capacities past the limits.
    &[
        (Ask::Add(1), Said::Added(0)),
        (Ask::Submit(0, 1), Said::Accepted(0)),
        (Ask::Take(0, 0), Said::Taken(0)),
        (Ask::Take(0, 0), Said::Refused(Refusal::NotWaiting)),
        (Ask::Take(0, 1), Said::Refused(Refusal::NotWaiting)),
        (Ask::Release(1), Said::Refused(Refusal::NoClient)),
        (Ask::Submit(1, 1), Said::Refused(Refusal::NoClient)),
        (Ask::Resize(1, 0), Said::Refused(Refusal::NoClient)),
        (Ask::Resize(1, 1), Said::Refused(Refusal::NoClient)),
        (Ask::Add(0), Said::NotAdded(AddRefusal::Capacity)),
        (Ask::Add(4097), Said::NotAdded(AddRefusal::Capacity)),
    ],
    // A capacity changes, but to no fewer than are outstanding, and not once the client is closed.
    &[
        (Ask::Add(1), Said::Added(0)),
        (Ask::Submit(0, 1), Said::Accepted(0)),
        (Ask::Submit(0, 2), Said::Refused(Refusal::Full)),
        (Ask::Resize(0, 2), Said::Resized(2)),
        (Ask::Submit(0, 2), Said::Accepted(1)),
        (Ask::Resize(0, 1), Said::Refused(Refusal::Small)),
        (Ask::Resize(0, 0), Said::Refused(Refusal::Capacity)),
        (Ask::Resize(0, 4097), Said::Refused(Refusal::Capacity)),
        (Ask::Take(0, 0), Said::Taken(0)),
        (Ask::Answer(0, 0, 1), Said::Kept),
        (Ask::Release(0), Said::Handed(0, 2)),
        (Ask::Resize(0, 1), Said::Resized(1)),
        (Ask::Submit(0, 3), Said::Refused(Refusal::Full)),
        (Ask::Close(0), Said::Closed),
        (Ask::Resize(0, 3), Said::Refused(Refusal::Closed)),
        (Ask::Resize(0, 0), Said::Refused(Refusal::Closed)),
        (Ask::Take(0, 1), Said::Taken(1)),
        (Ask::Answer(0, 1, 2), Said::Kept),
        (Ask::Release(0), Said::Handed(1, 3)),
    ],
    // Strange and repeated answers change nothing.
    &[
        (Ask::Add(2), Said::Added(0)),
        (Ask::Submit(0, 1), Said::Accepted(0)),
        (Ask::Submit(0, 2), Said::Accepted(1)),
        (Ask::Take(0, 0), Said::Taken(0)),
        (Ask::Answer(0, 0, 9), Said::Strange),
        (Ask::Answer(0, 1, 2), Said::Strange),
        (Ask::Answer(0, 7, 1), Said::Strange),
        (Ask::Answer(0, 0, 1), Said::Kept),
        (Ask::Answer(0, 0, 1), Said::Repeated),
        (Ask::Answer(0, 0, 9), Said::Repeated),
        (Ask::Release(0), Said::Handed(0, 2)),
        (Ask::Answer(0, 0, 1), Said::Repeated),
    ],
];

// What the broker reports to this is right.
fn is_right(
    alloc: Global,
    broker: &mut Broker<Successor>,
    ask: Ask,
    said: Said,
) -> Result<bool, AllocError> {
    let event = event(alloc, ask)?;
    let report = broker.apply(event);
    Ok(is_said(&report, said))
}

// The broker reports what it should to one event after another.
fn follows(
    rt: &impl Abort,
    alloc: Global,
    broker: &mut Broker<Successor>,
    number: usize,
    history: &[(Ask, Said)],
) -> Result<(), Fail> {
    for (place, (ask, said)) in history.iter().enumerate() {
        assert!(rt; is_right(alloc, broker, *ask, *said)?, "{number}, {place}");
    }
    Ok(())
}

// A new broker does.
fn new_follows(
    rt: &impl Abort,
    alloc: Global,
    number: usize,
    history: &[(Ask, Said)],
) -> Result<(), Fail> {
    let mut broker = Broker::new(alloc);
    follows(rt, alloc, &mut broker, number, history)
}

#[test]
fn histories_event_by_event(rt: HostRuntime) -> Result<(), Fail> {
    for (number, history) in HISTORIES.iter().enumerate() {
        new_follows(&rt, rt.alloc(), number, history)?;
    }
    Ok(())
}

fn events(alloc: Global, history: &[(Ask, Said)]) -> Result<Vec<Event<Successor>>, AllocError> {
    let mut events = Vec::new(alloc);
    for (ask, _) in history {
        events.push(event(alloc, *ask)?).map_err(AllocError::from)?;
    }
    Ok(events)
}

// What the broker reports to these events, in one run.
fn reports(
    broker: &mut Broker<Successor>,
    events: Vec<Event<Successor>>,
) -> Result<Vec<Report<Successor>>, AllocError> {
    broker.run(events).map_err(|(refused, _)| refused)
}

// What a new broker reports in one run.
fn reported(alloc: Global, history: &[(Ask, Said)]) -> Result<Vec<Report<Successor>>, AllocError> {
    let events = events(alloc, history)?;
    let mut broker = Broker::new(alloc);
    reports(&mut broker, events)
}

// The reports are those of this history.
fn are_said(rt: &impl Abort, reports: &[Report<Successor>], history: &[(Ask, Said)]) {
    assert_eq!(rt; reports.len(), history.len());
    for (report, (_, said)) in reports.iter().zip(history) {
        assert!(rt; is_said(report, *said));
    }
}

#[test]
fn histories_in_one_run(rt: HostRuntime) -> Result<(), Fail> {
    for history in HISTORIES {
        let reports = reported(rt.alloc(), history)?;
        are_said(&rt, &reports, history);
    }
    Ok(())
}

/// Which ticket of which client its own work answers, and what that is called: of no client, of a ticket that was never given, of
/// one that waits, and twice of one that was taken.
const OWN: &[(u32, u64, Option<Answered>)] = &[
    (1, 0, None),
    (0, 7, Some(Answered::Strange)),
    (0, 1, Some(Answered::Strange)),
    (0, 0, Some(Answered::Kept)),
    (0, 0, Some(Answered::Repeated)),
];

/// What is asked before and after.
const BEFORE_OWN: &[(Ask, Said)] = &[
    (Ask::Add(2), Said::Added(0)),
    (Ask::Submit(0, 4), Said::Accepted(0)),
    (Ask::Submit(0, 6), Said::Accepted(1)),
    (Ask::Take(0, 0), Said::Taken(0)),
];

const AFTER_OWN: &[(Ask, Said)] = &[
    (Ask::Answer(0, 0, 4), Said::Repeated),
    (Ask::Release(0), Said::Handed(0, 5)),
    (Ask::Release(0), Said::Nothing),
    (Ask::Take(0, 1), Said::Taken(1)),
];

// The work under this ticket answers it so.
fn answers_itself(
    rt: &impl Abort,
    broker: &mut Broker<Successor>,
    client: u32,
    ticket: u64,
    due: Option<Answered>,
) -> Result<(), AllocError> {
    assert_eq!(rt; broker.answer_own(client, ticket)?, due);
    Ok(())
}

#[test]
fn works_answer_their_tickets(rt: HostRuntime) -> Result<(), Fail> {
    let mut broker = Broker::new(rt.alloc());
    follows(&rt, rt.alloc(), &mut broker, 0, BEFORE_OWN)?;
    for (client, ticket, due) in OWN {
        answers_itself(&rt, &mut broker, *client, *ticket, *due)?;
    }
    follows(&rt, rt.alloc(), &mut broker, 1, AFTER_OWN)?;
    answers_itself(&rt, &mut broker, 0, 0, Some(Answered::Repeated))?;
    Ok(())
}

// The broker adds this client, or says why not.
fn adds(
    rt: &impl Abort,
    broker: &mut Broker<Successor>,
    capacity: u32,
    due: Result<u32, AddRefusal>,
) {
    assert_eq!(rt; broker.add_client(capacity), due);
}

#[test]
fn clients_up_to_the_limit(rt: HostRuntime) -> Result<(), Fail> {
    let mut broker = Broker::new(rt.alloc());
    for client in 0..64u32 {
        adds(&rt, &mut broker, 1, Ok(client));
    }
    adds(&rt, &mut broker, 1, Err(AddRefusal::Many));
    adds(&rt, &mut broker, 0, Err(AddRefusal::Capacity));
    Ok(())
}

/// From where the first open ticket is looked for, and which it is; its request has the same number.
const OPEN: &[(u64, Option<u64>)] = &[(0, Some(1)), (2, Some(3)), (4, None)];

// These are the first open tickets.
fn are_open(rt: &impl Abort, mailbox: &Mailbox<Successor>) {
    for (from, ticket) in OPEN {
        let found = mailbox.first_open(*from);
        let numbers = found.map(|(found, work)| (found, u64::from(work.asked)));
        assert_eq!(rt; numbers, ticket.map(|ticket| (ticket, ticket)));
    }
}

// Two of four requests stay open, the second and the last.
fn two_are_open(
    rt: &impl Abort,
    alloc: Global,
    mailbox: &mut Mailbox<Successor>,
) -> Result<(), Fail> {
    assert!(rt; mailbox.first_open(0).is_none());
    fill(rt, alloc, mailbox, 4)?;
    keeps(rt, alloc, mailbox, 0, 0)?;
    keeps(rt, alloc, mailbox, 2, 2)?;
    assert!(rt; mailbox.release().is_some());
    are_open(rt, mailbox);
    Ok(())
}

#[test]
fn the_first_open_ticket(rt: HostRuntime) -> Result<(), Fail> {
    let mut mailbox = mailbox_of(rt.alloc(), 4)?;
    two_are_open(&rt, rt.alloc(), &mut mailbox)
}

// A request goes through a mailbox, which is whole where nothing is outstanding.
fn goes_through(
    rt: &impl Abort,
    alloc: Global,
    mailbox: &mut Mailbox<Successor>,
    asked: u32,
) -> Result<(), AllocError> {
    let ticket = u64::from(asked);
    admits(rt, alloc, mailbox, asked, Ok(ticket))?;
    assert!(rt; !mailbox.is_whole());
    keeps(rt, alloc, mailbox, ticket, asked)?;
    hands(rt, mailbox, Some((ticket, ticket + 1)));
    assert!(rt; mailbox.is_whole());
    Ok(())
}

// Thirty requests go through the mailbox, and then it closes once.
fn thirty_go_through(
    rt: &impl Abort,
    alloc: Global,
    mailbox: &mut Mailbox<Successor>,
) -> Result<(), Fail> {
    for asked in 0..30u32 {
        goes_through(rt, alloc, mailbox, asked)?;
    }
    assert!(rt; mailbox.close());
    assert!(rt; !mailbox.close());
    Ok(())
}

/// A ring of three places, of which one or two are in use.
#[test]
fn a_small_ring_goes_round(rt: HostRuntime) -> Result<(), Fail> {
    let mut mailbox = mailbox_of(rt.alloc(), 3)?;
    thirty_go_through(&rt, rt.alloc(), &mut mailbox)
}

// Why there is no mailbox of this capacity.
fn fault_of(alloc: Global, capacity: u32) -> Option<BoxFault> {
    let made: Result<Mailbox<Successor>, BoxFault> = Mailbox::new(alloc, capacity);
    made.err()
}

// The mailbox says this to a resize.
fn resizes(
    rt: &impl Abort,
    mailbox: &mut Mailbox<Successor>,
    capacity: u32,
    due: Result<(), Refusal>,
) {
    assert_eq!(rt; mailbox.resize(capacity), due);
}

// Two requests are outstanding when the mailbox is closed; it is whole once both results are handed.
fn closed_with_two(
    rt: &impl Abort,
    alloc: Global,
    mailbox: &mut Mailbox<Successor>,
) -> Result<(), Fail> {
    fill(rt, alloc, mailbox, 2)?;
    assert!(rt; mailbox.close());
    admits(rt, alloc, mailbox, 2, Err(Refusal::Closed))?;
    answer_backwards(rt, alloc, mailbox, 2)?;
    hands(rt, mailbox, Some((0, 1)));
    assert!(rt; !mailbox.is_whole());
    hands(rt, mailbox, Some((1, 2)));
    assert!(rt; mailbox.is_whole());
    hands(rt, mailbox, None);
    assert!(rt; !mailbox.close());
    Ok(())
}

#[test]
fn a_closed_mailbox_hands_what_it_accepted(rt: HostRuntime) -> Result<(), Fail> {
    let mut mailbox = mailbox_of(rt.alloc(), 2)?;
    closed_with_two(&rt, rt.alloc(), &mut mailbox)
}

// A second place is given, and taken back once one request is left.
fn a_place_more_and_less(
    rt: &impl Abort,
    alloc: Global,
    mailbox: &mut Mailbox<Successor>,
) -> Result<(), AllocError> {
    admits(rt, alloc, mailbox, 0, Ok(0))?;
    admits(rt, alloc, mailbox, 1, Err(Refusal::Full))?;
    resizes(rt, mailbox, 2, Ok(()));
    admits(rt, alloc, mailbox, 1, Ok(1))?;
    resizes(rt, mailbox, 1, Err(Refusal::Small));
    resizes(rt, mailbox, 0, Err(Refusal::Capacity));
    resizes(rt, mailbox, 4097, Err(Refusal::Capacity));
    keeps(rt, alloc, mailbox, 0, 0)?;
    hands(rt, mailbox, Some((0, 1)));
    resizes(rt, mailbox, 1, Ok(()));
    admits(rt, alloc, mailbox, 2, Err(Refusal::Full))
}

// A closed mailbox gets no other capacity, and is whole once its last result is handed.
fn closes_and_is_whole(
    rt: &impl Abort,
    alloc: Global,
    mailbox: &mut Mailbox<Successor>,
) -> Result<(), AllocError> {
    assert!(rt; mailbox.close());
    resizes(rt, mailbox, 3, Err(Refusal::Closed));
    resizes(rt, mailbox, 0, Err(Refusal::Closed));
    assert!(rt; !mailbox.is_whole());
    keeps(rt, alloc, mailbox, 1, 1)?;
    hands(rt, mailbox, Some((1, 2)));
    assert!(rt; mailbox.is_whole());
    Ok(())
}

#[test]
fn a_mailbox_gets_other_capacities(rt: HostRuntime) -> Result<(), Fail> {
    let mut mailbox = mailbox_of(rt.alloc(), 1)?;
    a_place_more_and_less(&rt, rt.alloc(), &mut mailbox)?;
    closes_and_is_whole(&rt, rt.alloc(), &mut mailbox)?;
    Ok(())
}

/// The last ticket that is given.
const LAST: u64 = 1152921504606846975;

// The mailbox gives the last ticket, and no more.
fn gives_the_last(
    rt: &impl Abort,
    alloc: Global,
    mailbox: &mut Mailbox<Successor>,
) -> Result<(), Fail> {
    admits(rt, alloc, mailbox, 1, Ok(LAST))?;
    admits(rt, alloc, mailbox, 2, Err(Refusal::Spent))?;
    Ok(())
}

#[test]
fn tickets_end(rt: HostRuntime) -> Result<(), Fail> {
    assert!(rt; matches!(fault_of(rt.alloc(), 0), Some(BoxFault::Capacity)));
    let mut mailbox = Mailbox::starting_at(rt.alloc(), LAST, 2).map_err(|_| AllocError)?;
    gives_the_last(&rt, rt.alloc(), &mut mailbox)
}

// The mailbox keeps so many answers, the last one first, and hands none before the first is there.
fn answer_backwards(
    rt: &impl Abort,
    alloc: Global,
    mailbox: &mut Mailbox<Successor>,
    count: u32,
) -> Result<(), AllocError> {
    for asked in (0..count).rev() {
        hands(rt, mailbox, None);
        keeps(rt, alloc, mailbox, u64::from(asked), asked)?;
    }
    Ok(())
}

// The mailbox hands so many results in the order of their tickets, and no more.
fn hands_in_order(rt: &impl Abort, mailbox: &mut Mailbox<Successor>, count: u64) {
    for ticket in 0..count {
        hands(rt, mailbox, Some((ticket, ticket + 1)));
    }
    hands(rt, mailbox, None);
}

// The mailbox is filled, and hands out all that it kept.
fn is_filled_and_emptied(
    rt: &impl Abort,
    alloc: Global,
    mailbox: &mut Mailbox<Successor>,
) -> Result<(), Fail> {
    fill(rt, alloc, mailbox, 4096)?;
    admits(rt, alloc, mailbox, 0, Err(Refusal::Full))?;
    answer_backwards(rt, alloc, mailbox, 4096)?;
    hands_in_order(rt, mailbox, 4096);
    Ok(())
}

#[test]
fn a_large_ring_hands_in_order(rt: HostRuntime) -> Result<(), Fail> {
    let mut mailbox = mailbox_of(rt.alloc(), 4096)?;
    is_filled_and_emptied(&rt, rt.alloc(), &mut mailbox)
}
