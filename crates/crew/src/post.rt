//! One worker's thread, as the others see it.
ghost use Rattle.std.specs.Prelude.{◌≡◌};

use crate::crew::Crew;
use box_core::{Done, Job, Work};
use lanes::{Signals, Stepped, Watch, Woken};
use std::hint;
use std::sync::Wait;

/// For how many turns a worker that has nothing to do, or can't get rid of what it holds, stays awake.
const TURNS: u32 = 200;
/// For how many turns one that was woken before a job was put, and finds nothing yet, stays awake: longer than it takes to read
/// a small request.
const EARLY_TURNS: u32 = 10_000;
/// How many turns pass between two tries to get rid of what it holds.
const BETWEEN: u32 = 50;
/// The first and the longest pause, in milliseconds, of a worker that holds a job that was refused memory.
const FIRST_PAUSE: u64 = 1;

const LONGEST_PAUSE: u64 = 250;

/// What a worker does.
#[derive(Clone, Copy, Drop, PartialEq, Eq)]
enum Does {
    /// It looks for jobs, and is counted so.
    Looks,
    /// It runs a job, or holds one or an answer.
    Works,
}

/// A worker's place among the others. It sees the worker's runs on their way to a watch.
#[derive(Drop)]
pub(crate) struct Post<'a, V> {
    watch: V,
    signals: &'a Signals,
    does: Does,
    // For how many turns it stays awake before it sleeps.
    turns: u32,
    // Whether it holds a job that was refused memory, how often something was freed before that was last tried, and how long its
    // next pause is.
    lacks: bool,
    freed: u64,
    pause: u64,
    // The lane of its last answer, and how often that lane's client had taken answers before this one was last tried.
    lane: u32,
    takes: u64,
}

impl<'a, V> Post<'a, V> {
    // A worker that begins to look.
    pub(crate) fn of(crew: &'a Crew, watch: V) -> Post<'a, V> {
        let signals = crew.signals();
        signals.begin_to_look();
        Post {
            watch,
            signals,
            does: Does::Looks,
            turns: TURNS,
            lacks: false,
            freed: 0,
            pause: FIRST_PAUSE,
            lane: 0,
            takes: 0,
        }
    }

    // How many jobs were put so far.
    pub(crate) fn jobs(&self) -> u64 {
        self.signals.jobs()
    }

    // What follows a step, before which so many jobs had been put.
    pub(crate) fn follow<R: Wait>(&mut self, rt: &R, stepped: Stepped, seen: u64) {
        match stepped {
            Stepped::Answered => {
                self.signals.add_answer();
                self.look();
            }
            Stepped::Again => hint::spin_loop(),
            Stepped::Idle => self.rest(rt, seen),
            Stepped::NoMemory => self.await_memory(rt),
            Stepped::RingFull => self.await_place(rt),
        }
    }

    // It looks for jobs with new patience.
    fn look(&mut self) {
        if self.does != Does::Looks {
            self.signals.begin_to_look();
            self.does = Does::Looks;
        }
        self.turns = TURNS;
        self.pause = FIRST_PAUSE;
    }

    // It looked in vain: it stays awake for some turns, and then sleeps until a job is put or may be put soon.
    fn rest<R: Wait>(&mut self, rt: &R, seen: u64) {
        self.signals.end_to_post();
        if self.turns == 0 {
            self.turns = turns_after(self.signals.await_job(rt, seen));
        } else {
            self.turns = self.signals.watch_jobs(seen, self.turns - 1);
        }
    }

    // It holds an answer for which there was no place: it tries again after a few turns, and later once the client took answers
    // in. The count of these is read before each try but the first, behind which it stays awake.
    fn await_place<R: Wait>(&mut self, rt: &R) {
        self.signals.add_full();
        if self.turns > 0 {
            self.stay_awake();
        } else {
            self.signals.await_place(rt, self.lane, self.takes);
        }
        self.takes = self.signals.takes(self.lane);
    }

    // Some of its turns pass.
    fn stay_awake(&mut self) {
        self.turns = self.turns.saturating_sub(BETWEEN);
        for _ in 0..BETWEEN {
            hint::spin_loop();
        }
    }

    // It holds a job that was refused memory: it tries again at once, and later once something was freed, or after pauses that
    // grow. What was freed is read before each try but the first, behind which it doesn't sleep.
    fn await_memory<R: Wait>(&mut self, rt: &R) {
        if self.lacks {
            self.signals.add_refusal();
            self.signals.await_memory(rt, self.freed, self.pause);
            self.pause = LONGEST_PAUSE.min(self.pause.saturating_mul(2));
        } else {
            self.lacks = true;
            self.signals.begin_to_lack();
            self.signals.add_refusal();
        }
        self.freed = self.signals.freed();
    }

    // It lacks no memory any more.
    fn end_to_lack(&mut self)
        ensures { self.new.watch ≡ self.old.watch }
    {
        if self.lacks {
            self.lacks = false;
            self.signals.end_to_lack();
        }
    }

    // It looks no more, and tries nothing again.
    pub(crate) fn end(&mut self) {
        if self.does == Does::Looks {
            self.signals.end_to_look();
        }
        self.end_to_lack();
    }
}

// For how many turns a worker stays awake after a sleep.
fn turns_after(woken: Woken) -> u32 {
    match woken {
        Woken::ByItself => 0,
        Woken::ForJobs => TURNS,
        Woken::BeforeAJob => EARLY_TURNS,
    }
}

impl<'a, V: Watch> Watch for Post<'a, V> {
    ghost entered = { λ client ticket old new. V.entered client ticket old.watch new.watch };

    ghost left = { λ client ticket old new. V.left client ticket old.watch new.watch };

    fn enter<W: Work>(&mut self, client: u32, job: &Job<W>) {
        // A job that was refused memory comes again while it works: it counts as taken once, and its pauses grow on.
        if self.does == Does::Looks {
            self.signals.take_job();
            self.does = Does::Works;
            self.turns = TURNS;
        }
        self.watch.enter(client, job);
    }

    fn leave<W: Work>(&mut self, client: u32, done: &Done<W>) {
        self.end_to_lack();
        self.lane = client;
        self.turns = TURNS;
        self.watch.leave(client, done);
    }
}
