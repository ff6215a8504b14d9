//! Calls while the heap refuses every request.
use super::{
    AFTER_OWN, Ask, BEFORE_OWN, HISTORIES, Said, Successor, admits, admitted, events, follows,
    is_said, mailbox_of, reports, resizes, work,
};
use box_core::{AddRefusal, Answered, Broker, Done, Event, Job, Mailbox, Refusal, Report};
use std::alloc::{AllocError, Global};
use std::process::Abort;
use std::sync::Arc;
use std::test::Fail;
use test_devices::FullHeap;

fn done_of(
    alloc: Global,
    ticket: u64,
    asked: Arc<Successor>,
) -> Result<Done<Successor>, AllocError> {
    Done::of(alloc, ticket, asked).map_err(|(refused, _)| refused)
}

// The mailbox admits this work 4096 times, and no more.
fn admits_all(
    rt: &impl Abort,
    mailbox: &mut Mailbox<Successor>,
    asked: Arc<Successor>,
) -> Result<(), AllocError> {
    for ticket in 0..4096u64 {
        let same = Arc::try_clone(&asked)?;
        assert_eq!(rt; admitted(mailbox, same), Ok(ticket));
    }
    assert_eq!(rt; admitted(mailbox, asked), Err(Refusal::Full));
    Ok(())
}

// The mailbox keeps the first answer, hands its result, and closes.
fn ends(rt: &impl Abort, mailbox: &mut Mailbox<Successor>, done: Done<Successor>) {
    assert_eq!(rt; mailbox.answer(done), Answered::Kept);
    assert!(rt;
        matches!(mailbox.release(), Some(reply) if reply.ticket == 0 && reply.outcome == 2)
    );
    assert!(rt; mailbox.close());
}

// All this while there is no memory, before and after.
fn goes_on_without_memory(
    rt: &impl Abort,
    alloc: Global,
    mailbox: &mut Mailbox<Successor>,
    asked: Arc<Successor>,
    done: Done<Successor>,
) -> Result<(), AllocError> {
    assert!(rt; work(alloc, 0).is_err());
    admits_all(rt, mailbox, asked)?;
    ends(rt, mailbox, done);
    assert!(rt; work(alloc, 0).is_err());
    Ok(())
}

// The heap is full for that.
fn goes_on_beside_a_full_heap(
    rt: &impl Abort,
    alloc: Global,
    mailbox: &mut Mailbox<Successor>,
    asked: Arc<Successor>,
    done: Done<Successor>,
) -> Result<(), AllocError> {
    let full = FullHeap::but(alloc, 0)?;
    assert!(rt; full.blocks() > 0);
    goes_on_without_memory(rt, alloc, mailbox, asked, done)
}

// The work and its answer are there before.
fn goes_on(
    rt: &impl Abort,
    alloc: Global,
    mailbox: &mut Mailbox<Successor>,
) -> Result<(), AllocError> {
    let asked = work(alloc, 1)?;
    let same = Arc::try_clone(&asked)?;
    let done = done_of(alloc, 0, same)?;
    goes_on_beside_a_full_heap(rt, alloc, mailbox, asked, done)
}

#[test]
fn a_mailbox_admits_answers_and_releases_without_memory(rt: HostRuntime) -> Result<(), Fail> {
    let mut mailbox = mailbox_of(rt.alloc(), 4096)?;
    goes_on(&rt, rt.alloc(), &mut mailbox)?;
    Ok(())
}

/// What was said to a client that was added, and to its closing.
type Added = (Result<u32, AddRefusal>, Result<(), Refusal>);

// Adds a client and closes it while the heap gives no more than this.
fn added_within(
    alloc: Global,
    spare: usize,
    broker: &mut Broker<Successor>,
) -> Result<Added, AllocError> {
    let full = FullHeap::but(alloc, spare)?;
    let added = broker.add_client(64);
    let left = broker.close(0);
    drop(full);
    Ok((added, left))
}

// A client that was not added since memory was refused was not there, and is added later.
fn is_added_later(
    rt: &impl Abort,
    broker: &mut Broker<Successor>,
    why: AddRefusal,
    left: Result<(), Refusal>,
) {
    assert_eq!(rt; why, AddRefusal::Memory);
    assert_eq!(rt; left, Err(Refusal::NoClient));
    assert_eq!(rt; broker.add_client(64), Ok(0));
}

// With so much that the heap still gives, a client is added, or nothing changes.
fn is_added_or_not(
    rt: &impl Abort,
    alloc: Global,
    spare: usize,
    broker: &mut Broker<Successor>,
) -> Result<(), AllocError> {
    match added_within(alloc, spare, broker)? {
        (Ok(client), left) => {
            assert!(rt; spare > 0);
            assert_eq!(rt; (client, left), (0, Ok(())));
        }
        (Err(why), left) => {
            assert!(rt; spare < 16384);
            is_added_later(rt, broker, why, left);
        }
    }
    Ok(())
}

#[test]
fn a_client_is_added_whole_or_not_at_all(rt: HostRuntime) -> Result<(), Fail> {
    for spare in [0, 1040, 1600, 2080, 2600, 4096, 16384] {
        let mut broker = Broker::new(rt.alloc());
        is_added_or_not(&rt, rt.alloc(), spare, &mut broker)?;
    }
    Ok(())
}

// A client, and more calls for its results.
fn releases(alloc: Global) -> Result<Vec<Event<Successor>>, AllocError> {
    let mut events = Vec::new(alloc);
    events.push(Event::AddClient(64)).map_err(AllocError::from)?;
    for _ in 0..39 {
        events.push(Event::Release(0)).map_err(AllocError::from)?;
    }
    Ok(events)
}

// Whether a client was added, where it was, or not since memory was refused.
fn is_added(report: Option<&Report<Successor>>) -> Option<bool> {
    match report? {
        Report::Added(0) => Some(true),
        Report::NotAdded(AddRefusal::Memory) => Some(false),
        _ => None,
    }
}

// The client was added, or not since memory was refused, and each later report says the same.
fn are_alike(rt: &impl Abort, reports: &[Report<Successor>]) {
    assert!(rt; reports.len() == 40);
    let added = is_added(reports.first());
    assert!(rt; added.is_some());
    for report in &reports[1..] {
        assert!(rt; Some(matches!(report, Report::Nothing)) == added);
    }
}

// The events came back, nothing was done, and they run where there is memory.
fn run_later(
    rt: &impl Abort,
    broker: &mut Broker<Successor>,
    events: Vec<Event<Successor>>,
) -> Result<(), AllocError> {
    assert!(rt; events.len() == 40);
    assert!(rt; broker.close(0) == Err(Refusal::NoClient));
    let reports = reports(broker, events)?;
    assert!(rt; reports.len() == 40);
    assert!(rt; is_added(reports.as_slice().first()) == Some(true));
    Ok(())
}

// The reports of a run, or its events, where the heap gives no more than this.
fn ran_within(
    alloc: Global,
    spare: usize,
    broker: &mut Broker<Successor>,
) -> Result<Result<Vec<Report<Successor>>, Vec<Event<Successor>>>, AllocError> {
    let events = releases(alloc)?;
    let full = FullHeap::but(alloc, spare)?;
    let ran = broker.run(events);
    drop(full);
    Ok(ran.map_err(|(_, events)| events))
}

// With so much that the heap still gives a run is done, or refused where that is too little.
fn is_done_or_refused(
    rt: &impl Abort,
    alloc: Global,
    spare: usize,
    enough: usize,
    broker: &mut Broker<Successor>,
) -> Result<(), AllocError> {
    match ran_within(alloc, spare, broker)? {
        Ok(reports) => {
            assert!(rt; spare > 0);
            are_alike(rt, &reports);
        }
        Err(events) => {
            assert!(rt; spare < enough);
            run_later(rt, broker, events)?;
        }
    }
    Ok(())
}

#[test]
fn a_run_is_refused_whole_or_done(rt: HostRuntime) -> Result<(), Fail> {
    let list = 40 * size_of::<Report<Successor>>();
    for spare in [0, list, list + 2080, list + 16384] {
        let mut broker = Broker::new(rt.alloc());
        is_done_or_refused(&rt, rt.alloc(), spare, list + 16384, &mut broker)?;
    }
    Ok(())
}

// What a new broker reports to these events, where the heap gives no more than this; None where the run was refused.
fn reported_within(
    alloc: Global,
    spare: usize,
    events: Vec<Event<Successor>>,
) -> Result<Option<Vec<Report<Successor>>>, AllocError> {
    let mut broker = Broker::new(alloc);
    let full = FullHeap::but(alloc, spare)?;
    let ran = broker.run(events);
    drop(full);
    Ok(ran.ok())
}

// Whether each report is the one that is due.
fn are_right(reports: &[Report<Successor>], history: &[(Ask, Said)]) -> bool {
    let mut are_right = reports.len() == history.len();
    for (report, (_, said)) in reports.iter().zip(history) {
        are_right = are_right && is_said(report, *said);
    }
    are_right
}

// Whether no client was added since memory was refused, and so each later event has none.
fn are_of_no_client(reports: &[Report<Successor>], count: usize) -> bool {
    let Some((first, later)) = reports.split_first() else {
        return false;
    };
    let mut are_refused = is_added(Some(first)) == Some(false) && reports.len() == count;
    for report in later {
        are_refused = are_refused && is_said(report, Said::Refused(Refusal::NoClient));
    }
    are_refused
}

// Whether the first history is reported as it is due, where the heap gives no more than this. If not, it is refused whole, or
// adds no client.
fn is_reported_within(rt: &impl Abort, alloc: Global, spare: usize) -> Result<bool, AllocError> {
    let history = HISTORIES[0];
    let events = events(alloc, history)?;
    let Some(reports) = reported_within(alloc, spare, events)? else {
        return Ok(false);
    };
    let are_right = are_right(&reports, history);
    assert!(rt;
        are_right || are_of_no_client(&reports, history.len()),
        "{spare}"
    );
    Ok(are_right)
}

/// The room grows until nothing is refused.
#[test]
fn a_history_over_growing_heaps(rt: HostRuntime) -> Result<(), Fail> {
    let mut is_reported = false;
    for step in 0..200usize {
        is_reported = is_reported_within(&rt, rt.alloc(), step.saturating_mul(64))?;
        if is_reported {
            break;
        }
    }
    assert!(rt; is_reported);
    Ok(())
}

// The work, which came back since there was no memory for its run.
fn unmade(alloc: Global, asked: Arc<Successor>) -> Result<Arc<Successor>, AllocError> {
    let full = FullHeap::but(alloc, 0)?;
    let made = Done::of(alloc, 3, asked);
    drop(full);
    match made {
        Ok(_) => Err(AllocError),
        Err((_, asked)) => Ok(asked),
    }
}

#[test]
fn a_work_that_finds_no_memory_comes_back(rt: HostRuntime) -> Result<(), Fail> {
    let alloc = rt.alloc();
    let asked = unmade(alloc, work(alloc, 1)?)?;
    assert_eq!(rt; asked.asked, 1);
    let done = done_of(alloc, 3, asked)?;
    assert_eq!(rt; (done.ticket(), *done.outcome()), (3, 2));
    Ok(())
}

// The job, which was taken and came back since there was no memory for its run.
fn unrun(alloc: Global, broker: &mut Broker<Successor>) -> Result<Job<Successor>, AllocError> {
    let full = FullHeap::but(alloc, 0)?;
    let job = broker.take(0, 0).map_err(|_| AllocError)?;
    let ran = job.run(alloc);
    drop(full);
    match ran {
        Ok(_) => Err(AllocError),
        Err((_, job)) => Ok(job),
    }
}

// The job runs, and its result is handed out.
fn runs_later(
    rt: &impl Abort,
    alloc: Global,
    broker: &mut Broker<Successor>,
    job: Job<Successor>,
) -> Result<(), AllocError> {
    assert_eq!(rt; job.ticket(), 0);
    let done = job.run(alloc).map_err(|(refused, _)| refused)?;
    assert_eq!(rt; broker.answer(0, done), Ok(Answered::Kept));
    assert!(rt; matches!(broker.release(0), Ok(Some(reply)) if reply.outcome == 7));
    Ok(())
}

// A job is taken, comes back and runs.
fn job_comes_back(
    rt: &impl Abort,
    alloc: Global,
    broker: &mut Broker<Successor>,
) -> Result<(), AllocError> {
    assert_eq!(rt; broker.add_client(1), Ok(0));
    let asked = work(alloc, 6)?;
    assert!(rt; broker.submit(0, asked).is_ok());
    let job = unrun(alloc, broker)?;
    runs_later(rt, alloc, broker, job)
}

/// A job is taken without memory, comes back where its run finds none, and runs where there is some.
#[test]
fn a_job_that_finds_no_memory_comes_back(rt: HostRuntime) -> Result<(), Fail> {
    let mut broker = Broker::new(rt.alloc());
    job_comes_back(&rt, rt.alloc(), &mut broker)?;
    Ok(())
}

// A full mailbox of one place gets no second one while there is no memory.
fn stays_full(
    rt: &impl Abort,
    alloc: Global,
    mailbox: &mut Mailbox<Successor>,
    next: Arc<Successor>,
) -> Result<(), AllocError> {
    let full = FullHeap::but(alloc, 0)?;
    resizes(rt, mailbox, 2, Err(Refusal::Memory));
    resizes(rt, mailbox, 1, Ok(()));
    assert_eq!(rt; (mailbox.capacity(), mailbox.accepted()), (1, 1));
    assert_eq!(rt; admitted(mailbox, next), Err(Refusal::Full));
    drop(full);
    Ok(())
}

// It gets the second place where there is memory.
fn gets_a_place_later(
    rt: &impl Abort,
    alloc: Global,
    mailbox: &mut Mailbox<Successor>,
) -> Result<(), AllocError> {
    admits(rt, alloc, mailbox, 1, Ok(0))?;
    let next = work(alloc, 2)?;
    stays_full(rt, alloc, mailbox, next)?;
    resizes(rt, mailbox, 2, Ok(()));
    admits(rt, alloc, mailbox, 2, Ok(1))
}

#[test]
fn a_resize_without_memory_changes_nothing(rt: HostRuntime) -> Result<(), Fail> {
    let mut mailbox = mailbox_of(rt.alloc(), 1)?;
    gets_a_place_later(&rt, rt.alloc(), &mut mailbox)?;
    Ok(())
}

// Whether the work under the first ticket finds no memory for its run.
fn finds_no_memory(alloc: Global, broker: &mut Broker<Successor>) -> Result<bool, AllocError> {
    let full = FullHeap::but(alloc, 0)?;
    let answered = broker.answer_own(0, 0);
    drop(full);
    Ok(answered.is_err())
}

#[test]
fn a_work_without_memory_answers_later(rt: HostRuntime) -> Result<(), Fail> {
    let mut broker = Broker::new(rt.alloc());
    follows(&rt, rt.alloc(), &mut broker, 0, BEFORE_OWN)?;
    assert!(rt; finds_no_memory(rt.alloc(), &mut broker)?);
    assert_eq!(rt; broker.answer_own(0, 0)?, Some(Answered::Kept));
    follows(&rt, rt.alloc(), &mut broker, 1, AFTER_OWN)?;
    Ok(())
}
