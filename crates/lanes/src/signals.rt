//! How threads that have nothing to do sleep, and what wakes them. No answer rests on it.
use crate::marks::Marks;
use crate::memory::Memory;
use crate::places::Places;
use bell::{Bell, FrontBell};
use crossbeam_utils::CachePadded;
use std::alloc::{AllocError, Global};
use std::sync::atomic::{AtomicU64, Ordering};
use std::sync::{Arc, Wait};

/// For how many turns a thread that waits for few answers looks at a count before it sleeps: a little longer than it takes to
/// wake a worker and to run a small job, so that it need not be woken itself. A turn takes some 5 ns, or 50 where a processor
/// pauses for longer.
const TURNS: u32 = 10_000;
/// From so many on things are many: a thread that waits for things is woken once as many are there, or nothing more comes.
const MANY: u64 = 16;
/// From so many jobs that wait on, a worker that takes one wakes another though the front puts more: fewer small ones are run
/// in the time that it takes to wake one, and where they are not small the front waits for them soon.
const PLENTY: u64 = 64;
/// The longest sleep in milliseconds. No wake-up is lost, as `Bell` says, and no job is passed; this bounds what it would
/// cost.
const LONGEST_SLEEP: u64 = 1_000;
/// The longest sleep, in milliseconds, of a front that waits for many answers: so long one that is there may wait for others.
const LONGEST_GATHERING: u64 = 1;

/// What ended a worker's sleep.
#[derive(Clone, Copy, Drop, PartialEq, Eq)]
pub enum Woken {
    /// It woke by itself: nothing was put meanwhile.
    ByItself,
    /// Jobs wait.
    ForJobs,
    /// A job may be put soon.
    BeforeAJob,
}

/// What the ends of all lanes share beside the lanes.
///
/// A worker looks for a job, or runs one, or sleeps. A job that is put wakes a sleeper only where no worker looks and many
/// jobs wait; for fewer one is woken once the front waits, or finds a mailbox full, or before that where a job may be put
/// soon. Who looks reads the count of jobs again before it sleeps, and wakes a sleeper where it takes a job as the last that
/// looked and plenty more wait, or any more while the front is away: while it does what takes long, or has waited for as long
/// as small jobs take. So a job is seen by one that looks, or by one that is woken for it; or few wait, and the front puts
/// others next, or begins to wait and wakes one before; or workers run jobs, each looks again after that, and a front that
/// has waited for long wakes another before.
///
/// The front says that it is away before it reads whether a worker looks. A worker that takes a job counts itself out before
/// it reads whether the front is away. So where jobs wait, one of the two sees the other, and wakes a worker.
///
/// A front that waits while many jobs are out sleeps until there are many answers, or a worker finds no job, or no place for
/// its answer, or a millisecond has passed: no answer lies longer while others are slow. It says that it waits, and counts as a
/// sleeper, before it reads how many answers there are and that something is out. So the worker that posts the last answer of
/// these looks for a job after that, finds none, and sees that the front waits. What a worker calls the front for counts as an
/// answer: a front that is about to sleep sees another count.
///
/// A worker that finds its ring full counts that before it reads whether the front waits for many. The front says so before it
/// reads that count. So one of the two sees the other: the front looks at the rings once more before it sleeps, or the worker
/// calls it. The worker then sleeps until the lane's client took answers, as `Places` says. Where the front waits for few, no
/// ring is full that it did not look at: each answer that it did not see was counted since, and it sleeps only where none was.
///
/// Who wakes a worker sets `called` first, counts as for a job, and then wakes; while it is set nobody else wakes one. It is
/// set no longer once a worker sleeps: each clears it before it sleeps and once it looks again. One that read the count
/// before the waker counted does not sleep, or is woken; one that read it later clears what the waker had set.
///
/// Who looks passes each lane that isn't marked: `Marks` says why no job is lost by that. Between the two looks of a worker
/// at an empty lane another may pass it, though a job was put. Where a lane is marked again, that is counted as for a job,
/// so that who passed it looks again. Where a worker's sleep ended by itself, and before workers are told to stop, all lanes
/// are marked.
///
/// What the front or the workers change at each job stands on cache lines of its own. So no thread waits for a line since
/// another changed a word there that it doesn't ask for.
#[derive(Drop)]
pub struct Signals {
    jobs: CachePadded<Bell>,
    marks: CachePadded<Marks>,
    workers: CachePadded<Workers>,
    // What counted for an answer and was none was a call for the front.
    front: Arc<FrontBell>,
    places: Places,
    // How much of what counted for a job was none, but a call for a worker.
    calls: AtomicU64,
    // How often a worker found its ring full, and how often when the front last looked.
    full: AtomicU64,
    full_before: AtomicU64,
    // Whether the front is away since the last job was put: 1 where it is.
    away: AtomicU64,
    // From how many answers on the front wants to be woken.
    wanted: AtomicU64,
    memory: Memory,
}

/// What workers change at each job.
#[derive(Drop)]
struct Workers {
    // How much of what counted for a job was taken.
    taken: AtomicU64,
    // How many workers look for jobs.
    looking: AtomicU64,
    // Whether a worker was woken that does not look yet: 1 where one was.
    called: AtomicU64,
    // Whether it was woken before the job is put for which it is woken: 1 where it was.
    early: AtomicU64,
}

impl Workers {
    // None looks, and none was woken.
    fn new() -> Workers {
        Workers {
            taken: AtomicU64::new(0),
            looking: AtomicU64::new(0),
            called: AtomicU64::new(0),
            early: AtomicU64::new(0),
        }
    }

    // Whether one looks for jobs.
    fn do_look(&self) -> bool {
        self.looking.load(Ordering::SeqCst) > 0
    }

    // One more looks for jobs.
    fn begin_to_look(&self) {
        self.looking.fetch_add(1, Ordering::SeqCst);
    }

    // One less looks for jobs, and how many did before.
    fn end_to_look(&self) -> u64 {
        self.looking.fetch_sub(1, Ordering::SeqCst)
    }
}

impl Signals {
    /// Nobody looks, and nobody sleeps. There are no lanes.
    pub fn new(alloc: Global) -> Result<Signals, AllocError> {
        Signals::over(alloc, Marks::of(0), Places::new(alloc))
    }

    /// The same for so many lanes.
    pub(crate) fn of_lanes(alloc: Global, lanes: u32) -> Result<Signals, AllocError> {
        let places = Places::of(alloc, lanes)?;
        Signals::over(alloc, Marks::of(lanes), places)
    }

    fn over(alloc: Global, marks: Marks, places: Places) -> Result<Signals, AllocError> {
        let front = Arc::new(alloc, FrontBell::new())?;
        Ok(Signals {
            jobs: CachePadded::new(Bell::new()),
            marks: CachePadded::new(marks),
            workers: CachePadded::new(Workers::new()),
            front,
            places,
            calls: AtomicU64::new(0),
            full: AtomicU64::new(0),
            full_before: AtomicU64::new(0),
            away: AtomicU64::new(0),
            wanted: AtomicU64::new(0),
            memory: Memory::new(),
        })
    }

    /// How many jobs were put, and other things for which workers were woken.
    pub fn jobs(&self) -> u64 {
        self.jobs.count()
    }

    /// A job was put.
    pub fn add_job(&self) {
        if self.is_away() {
            self.away.store(0, Ordering::SeqCst);
        }
        self.jobs.add();
        self.call_worker_for(MANY);
    }

    // Whether the front puts no jobs for now.
    fn is_away(&self) -> bool {
        self.away.load(Ordering::SeqCst) > 0
    }

    /// The lanes that may hold a job: a bit for each, the lowest for the first.
    pub(crate) fn marked(&self) -> u64 {
        self.marks.marked()
    }

    /// A lane holds a job that was put, and is not counted yet.
    pub(crate) fn mark(&self, lane: u32) {
        self.marks.mark(lane);
    }

    /// A lane was found empty. It is looked at once more after this, unless another worker does so.
    pub(crate) fn unmark(&self, lane: u32) -> bool {
        self.marks.unmark(lane)
    }

    /// A lane was not found empty after its mark was taken away: one that passed it meanwhile looks again.
    pub(crate) fn mark_again(&self, lane: u32) {
        self.marks.mark(lane);
        self.add_call();
    }

    /// Each lane may hold a job: the next worker that looks passes none.
    pub fn mark_all(&self) {
        self.marks.mark_all();
    }

    /// Jobs may wait: a worker is woken for them where none looks.
    pub fn call_for_jobs(&self) {
        self.call_worker_for(1);
    }

    /// The same, and no other job is put before some are run: each worker that takes one wakes another while more wait.
    pub fn go_away(&self) {
        self.away.store(1, Ordering::SeqCst);
        self.call_worker_for(1);
    }

    /// A job may be put soon, and none waits: a worker is woken where none looks, so that it is awake by then.
    pub fn expect_job(&self) {
        if !self.workers.do_look() {
            self.workers.early.store(1, Ordering::SeqCst);
            self.call_worker();
        }
    }

    // Wakes a worker that sleeps, where none looks and so many jobs wait.
    fn call_worker_for(&self, jobs: u64) {
        if !self.workers.do_look() && self.waiting() >= jobs {
            self.call_worker();
        }
    }

    // How many jobs wait for a worker.
    fn waiting(&self) -> u64 {
        self.jobs()
            .saturating_sub(self.workers.taken.load(Ordering::SeqCst))
    }

    // How many jobs were put and not answered yet.
    fn outstanding(&self) -> u64 {
        let jobs = self
            .jobs()
            .saturating_sub(self.calls.load(Ordering::SeqCst));
        let calls = self.front.calls();
        jobs.saturating_sub(self.answers().saturating_sub(calls))
    }

    // What is no job counts for one that was put and taken.
    fn add_call(&self) {
        self.calls.fetch_add(1, Ordering::SeqCst);
        self.jobs.add();
        self.workers.taken.fetch_add(1, Ordering::SeqCst);
    }

    // Wakes a worker that sleeps, unless one was woken that does not look yet.
    fn call_worker(&self) {
        if self.workers.called.load(Ordering::SeqCst) == 0 && self.jobs.has_sleepers() {
            self.workers.called.store(1, Ordering::SeqCst);
            self.add_call();
            self.jobs.wake_one();
        }
    }

    /// All workers are woken.
    pub fn wake_workers(&self) {
        self.add_call();
        self.jobs.wake_all();
        self.places.wake_all();
        self.memory.free();
    }

    /// One worker more looks for jobs.
    pub fn begin_to_look(&self) {
        self.workers.begin_to_look();
    }

    /// One worker less looks for jobs.
    pub fn end_to_look(&self) {
        self.workers.end_to_look();
    }

    /// One worker less looks for jobs, since it took one: the last wakes another in its place where plenty more wait, or any
    /// while the front is away.
    pub fn take_job(&self) {
        let taken = self.workers.taken.fetch_add(1, Ordering::SeqCst);
        let looked = self.workers.end_to_look();
        let more = self.jobs().saturating_sub(taken).saturating_sub(1);
        if looked <= 1 && (more >= PLENTY || more > 0 && self.is_away()) {
            self.call_worker();
        }
    }

    /// A worker that looks stays awake for so many turns, unless more jobs were put than this, and is told what is left.
    pub fn watch_jobs(&self, seen: u64, turns: u32) -> u32 {
        self.jobs.watch(seen, turns)
    }

    /// A worker that looks sleeps, unless more jobs were put than this, and looks again after it. Where none were put, all
    /// lanes are marked.
    pub fn await_job<R: Wait>(&self, rt: &R, seen: u64) -> Woken {
        self.jobs.add_sleeper();
        self.workers.end_to_look();
        self.workers.called.store(0, Ordering::SeqCst);
        self.jobs.sleep(rt, seen, LONGEST_SLEEP);
        let woken = self.woken(seen);
        self.workers.begin_to_look();
        self.workers.called.store(0, Ordering::SeqCst);
        woken
    }

    // Why a worker woke that slept since so many jobs were put.
    fn woken(&self, seen: u64) -> Woken {
        if self.jobs() == seen {
            self.mark_all();
            return Woken::ByItself;
        }
        if self.workers.early.swap(0, Ordering::SeqCst) > 0 {
            return Woken::BeforeAJob;
        }
        Woken::ForJobs
    }

    /// How many answers were posted, and other things for which the front was woken.
    pub fn answers(&self) -> u64 {
        self.front.answers().count()
    }

    /// An answer was posted, or there will be none any more: one who waits for answers is woken, unless it wants more.
    pub fn add_answer(&self) {
        let bell = self.front.answers();
        if bell.add() >= self.wanted.load(Ordering::SeqCst) {
            bell.wake_one();
        }
        self.memory.free();
    }

    /// A worker posts no more for now: a front that waits for many answers is woken for those that are there.
    pub fn end_to_post(&self) {
        if self.wanted.load(Ordering::SeqCst) > 0 {
            self.front.call();
        }
    }

    /// What wakes the front.
    pub fn front(&self) -> &Arc<FrontBell> {
        &self.front
    }

    /// A worker found its ring full: the front does not wait for many answers before it has looked at the rings again.
    pub fn add_full(&self) {
        self.full.fetch_add(1, Ordering::SeqCst);
        self.end_to_post();
    }

    /// How often a worker found its ring full.
    pub fn times_full(&self) -> u64 {
        self.full.load(Ordering::SeqCst)
    }

    // Whether a worker found its ring full since the front last asked this.
    fn was_full(&self) -> bool {
        let times = self.times_full();
        self.full_before.swap(times, Ordering::SeqCst) != times
    }

    /// How often the client of a lane took answers in.
    pub fn takes(&self, lane: u32) -> u64 {
        self.places.takes(lane)
    }

    /// A worker that holds an answer of a lane sleeps, unless its client took answers in more often than this.
    pub fn await_place<R: Wait>(&self, rt: &R, lane: u32, seen: u64) {
        self.places.sleep(rt, lane, seen, LONGEST_SLEEP);
    }

    /// The client of a lane took so many answers in: workers that sleep over an answer for it are woken.
    pub(crate) fn take_answers(&self, lane: u32, answers: usize) {
        if answers > 0 {
            self.places.add(lane);
        }
    }

    /// Waits until more answers than this were posted: at first awake, then asleep. Where much is out, it sleeps at once,
    /// until there are many, a millisecond at most. Where that was too short, the front is away. It may return early.
    pub fn await_answer<R: Wait>(&self, rt: &R, seen: u64) {
        self.call_for_jobs();
        if self.outstanding() >= MANY {
            self.await_many(rt, seen.wrapping_add(MANY));
            return;
        }
        if self.front.answers().watch(seen, TURNS) > 0 {
            return;
        }
        self.go_away();
        self.front.sleep(rt, seen, LONGEST_SLEEP);
    }

    // Sleeps until so many answers were posted, or the front is called, or an answer may lie no longer. Where they are not there
    // by then, the jobs take long, and the front is away; but not where a ring is full.
    fn await_many<R: Wait>(&self, rt: &R, wanted: u64) {
        self.wanted.store(wanted, Ordering::SeqCst);
        let bell = self.front.answers();
        bell.add_sleeper();
        let answers = bell.count();
        if answers >= wanted || self.outstanding() == 0 || self.was_full() {
            bell.end_sleep();
            self.wanted.store(0, Ordering::SeqCst);
            return;
        }
        let calls = self.front.calls();
        bell.sleep(rt, answers, LONGEST_GATHERING);
        self.wanted.store(0, Ordering::SeqCst);
        if self.front.calls() == calls && self.answers() < wanted && !self.was_full() {
            self.go_away();
        }
    }

    // How many jobs were taken and not answered yet.
    fn taken(&self) -> u64 {
        let taken = self.workers.taken.load(Ordering::SeqCst);
        let jobs = taken.saturating_sub(self.calls.load(Ordering::SeqCst));
        let calls = self.front.calls();
        jobs.saturating_sub(self.answers().saturating_sub(calls))
    }

    /// A worker holds a job whose run was refused memory.
    pub fn begin_to_lack(&self) {
        self.memory.begin_to_lack();
    }

    /// One that did holds none any more.
    pub fn end_to_lack(&self) {
        self.memory.end_to_lack();
    }

    /// A run was refused memory.
    pub fn add_refusal(&self) {
        self.memory.add_try();
        if self.is_starved() {
            self.front.call();
        }
    }

    /// How often something was freed while a worker lacked memory.
    pub fn freed(&self) -> u64 {
        self.memory.freed()
    }

    /// An answer was handed out, so what it held is free.
    pub fn free_memory(&self) {
        self.memory.free();
    }

    /// A worker that lacks memory sleeps for so many milliseconds, unless something was freed more often than this.
    pub fn await_memory<R: Wait>(&self, rt: &R, seen: u64, millis: u64) {
        self.memory.sleep(rt, seen, millis);
    }

    /// Whether every job that was taken was refused memory again and again, and nothing came free between.
    pub fn is_starved(&self) -> bool {
        self.memory.is_used_up(self.taken())
    }
}
