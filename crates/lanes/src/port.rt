//! What one worker has of one lane.
ghost use Rattle.std.specs.Prelude.{◌≡◌, ◌++◌, MatchResult};
ghost use Rattle.crossbeam_deque.specs.Handles.{view as pass_view, IsPassOf, stealer_deque};
ghost use Rattle.rtrb.specs.Ring.{producer_capacity, sent};
ghost use Rattle.lanes.specs.Books.{ticket_of, Rises, Rises-prop};
ghost use Rattle.lanes.specs.Held.{held_in};

use crate::book::{Seat, Steals, Thief};
use crate::gate::{Stepped, Watch};
use crate::signals::Signals;
use box_core::{Done, Job, Work};
use crossbeam_deque::Steal;
use rtrb::{Producer, PushError};
use std::alloc::Global;
use std::marker::Model;
use std::mem;

/// What a worker has yet to do for a lane.
#[derive(Drop)]
pub enum Held<W: Work> {
    Nothing,
    Job(Job<W>),
    Done(Done<W>),
}

/// It steals the lane's jobs, and sends their answers.
#[derive(Drop)]
pub struct Port<W: Work> {
    pub(crate) thief: Thief<W>,
    pub(crate) seat: Seat<W>,
    pub(crate) sender: Producer<Done<W>>,
    pub(crate) held: Held<W>,
    ghost seated: { IsPassOf (stealer_deque thief) seat },
    ghost live: { (pass_view seat).live ≡ 1 },
    ghost room: { producer_capacity sender ≡ 4 },
    ghost rises: { Rises ticket_of (pass_view seat).taken } by { Rises-prop ticket_of (pass_view seat).taken },
    ghost carried: { sent sender ++ held_in held ≡ (pass_view seat).taken },
}

impl<W: Work> Model for Port<W> {
    ghost use Rattle.crossbeam_deque.specs.Handles.{view as pass_view, stealer_deque};
    ghost use Rattle.rtrb.specs.Ring.{producer_capacity, sent};
    ghost use Rattle.lanes.specs.Ends.{LaneEnd};
    ghost use Rattle.lanes.specs.Identities.{sender_ring, link};
    ghost use Rattle.lanes.specs.Numbers.{rising};

    ghost Value = { LaneEnd W W.Out };

    ghost view = { λ port. record { link = link (stealer_deque port.thief) (sender_ring port.sender); number = port.seat.id; room = producer_capacity port.sender; is_of_four = port.room; taken = (pass_view port.seat).taken; sent = sent port.sender; held = port.held; rises = rising _ port.rises; carried = port.carried } };
}

impl<W: Work> Port<W> {
    ghost use Rattle.std.specs.Prelude.{◌≡◌, ◌+◌, [], ◌++◌, length};
    ghost use Rattle.crossbeam_deque.specs.Steals.{MatchSteal};
    ghost use Rattle.lanes.specs.Held.{HoldsJob};
    ghost use Rattle.lanes.specs.Ports.{taken_at, sent_at, held_at, SamePort, SameBooks, Finishes};
    ghost use Rattle.lanes.specs.Held.{jobs_in};
    ghost use Rattle.lanes.specs.Runs.{SeesRun};

    /// Steals the oldest job that waits, and holds it.
    pub(crate) fn steal(&mut self) -> Steal<()>
        requires { held_at self.old ≡ [] }
        ensures same { SamePort self.old self.new × (sent_at self.new ≡ sent_at self.old) }
        ensures taken { MatchSteal result (SameBooks self.old self.new) (SameBooks self.old self.new) (λ _. HoldsJob self.new.held × (taken_at self.new ≡ taken_at self.old ++ held_at self.new)) }
    {
        match self.thief.steal_as::<Steals>(&mut self.seat) {
            Steal::Success(job) => {
                self.held = Held::Job(job);
                Steal::Success(())
            }
            Steal::Empty => Steal::Empty,
            Steal::Retry => Steal::Retry,
        }
    }

    /// The same of a lane that is marked. Where it is empty its mark is taken away, and it is looked at once more: a job
    /// that was put between may have found the mark still there. Another worker that took the mark away does the same.
    pub(crate) fn steal_marked(&mut self, signals: &Signals, lane: u32) -> Steal<()>
        requires { held_at self.old ≡ [] }
        ensures same { SamePort self.old self.new × (sent_at self.new ≡ sent_at self.old) }
        ensures taken { MatchSteal result (SameBooks self.old self.new) (SameBooks self.old self.new) (λ _. HoldsJob self.new.held × (taken_at self.new ≡ taken_at self.old ++ held_at self.new)) }
    {
        let stolen = self.steal();
        if !stolen.is_empty() {
            return stolen;
        }
        if !signals.unmark(lane) {
            return stolen;
        }
        let stolen = self.steal();
        if !stolen.is_empty() {
            signals.mark_again(lane);
        }
        stolen
    }

    /// Runs the job that is held, and sends its answer. What cannot be done is held still.
    pub(crate) fn finish<V: Watch>(&mut self, alloc: Global, watch: &mut V, lane: u32) -> Stepped
        ensures same { SamePort self.old self.new × (taken_at self.new ≡ taken_at self.old) }
        ensures finishes { Finishes self.old result self.new }
        ensures seen { SeesRun V.entered V.left lane (jobs_in self.old.held) result watch.old watch.new }
    {
        let done = match mem::replace(&mut self.held, Held::Nothing) {
            Held::Nothing => return Stepped::Idle,
            Held::Done(done) => done,
            Held::Job(job) => match run_watched(job, alloc, watch, lane) {
                Ok(done) => done,
                Err(job) => {
                    self.held = Held::Job(job);
                    return Stepped::NoMemory;
                }
            },
        };
        match self.sender.push(done) {
            Ok(()) => Stepped::Answered,
            Err(PushError::Full(done)) => {
                self.held = Held::Done(done);
                Stepped::RingFull
            }
        }
    }
}

ghost use Rattle.lanes.specs.Runs.{IsRunSeen};

// Runs a job between the two calls of the watch.
fn run_watched<W: Work, V: Watch>(
    job: Job<W>,
    alloc: Global,
    watch: &mut V,
    lane: u32,
) -> Result<Done<W>, Job<W>>
    ensures run { MatchResult result (λ done. done ≡ job) (λ back. back ≡ job) }
    ensures seen { IsRunSeen V.entered V.left lane job.ticket result watch.old watch.new }
{
    watch.enter(lane, &job);
    match job.run(alloc) {
        Ok(done) => {
            watch.leave(lane, &done);
            Ok(done)
        }
        Err((_, job)) => Err(job),
    }
}
