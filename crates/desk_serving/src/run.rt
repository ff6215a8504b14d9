//! The front reads, answers and writes on the calling thread, while the workers evaluate in theirs.
ghost use Rattle.std.specs.Prelude.{ℕ, Some, slice_get, ◌≡◌, ◌≢◌, ◌<◌, ◌≤◌, ◌+◌, ◌-◌, ◌^◌, [], length, map, Err, IfErr, IfOk, IsTrue, None, OnOk, Ok, ◌↔◌};
ghost use Rattle.lanes.specs.Made.{fault_in};
ghost use Rattle.desk_serving.specs.Ending.{ServedBy};
ghost use Rattle.desk_serving.specs.Running.{FinishesBy, GoesOn, IsHandedOut, Runs};
ghost use Rattle.desk_serving.specs.LanesView.{NothingWaits, lanes_in, links_in, names_in};
ghost use Rattle.desk_serving.specs.Owed.{Queue};
ghost use Rattle.lanes.specs.Links.{AreOfOneCall};
ghost use Rattle.lanes.specs.Workers.{worker_links};
ghost use Rattle.desk_serving.specs.StateView.{After};
ghost use Rattle.desk_serving.specs.Script.{Served, ServedInPart};
ghost use Rattle.desk_lines.specs.Ran.{Ran};
ghost use Rattle.desk_lines.specs.Talk.{Replays};

use crate::ending::{end_lanes, end_workers};
use crate::named_lanes::Lanes;
use crate::options::Options;
use crate::state::State;
use crew::{Crew, Host, beside};
use desk_lines::{FrontFault, Sink, Source, answer_lines};
use dmn_plan::Task;
use json_reader::JsonReader;
use lanes::{Gate, Settled, Worker, lanes};
use model_marks::{Catalog, Marks, Slots, Unmarked};
use std::alloc::Global;
use std::sync::Wait;
use std::thread::Threads;

/// What reads, answers and writes beside the workers.
#[derive(Drop)]
struct ServeRun<'t, 'r, 'w, C: Catalog, T, R, W> {
    alloc: Global,
    state: State<'t, C, T>,
    reader: &'r mut R,
    writer: &'w mut W,
}

/// Whether all lines heard were answered, so that what is left of the results is handed out.
fn goes_on(ended: &Result<(), FrontFault>) -> bool
    ensures { IsTrue result ↔ GoesOn ended.now }
{
    !matches!(ended, Err(FrontFault::Write) | Err(FrontFault::Memory))
}

impl<'t, 'r, 'w, C: Catalog, T: Wait, R: Source, W: Sink> Host
    for ServeRun<'t, 'r, 'w, C, T, R, W> {
    type Out = Result<(), FrontFault>;

    ghost ready = { λ run. ((R.seen run.reader.now).faults < 2 ^ 64 - 1) × ((W.seen run.writer.now).faults < 2 ^ 64 - 1) × After run.state [] [] };

    ghost done = { Runs R.seen W.seen };

    fn run<U: Wait>(&mut self, rt: &U, crew: &Crew) -> Result<(), FrontFault> {
        self.state.lanes.tie(self.reader);
        let ended = answer_lines(self.alloc, &mut self.state, self.reader, self.writer);
        if goes_on(&ended) {
            end_workers(rt, self.alloc, crew, &mut self.state.lanes, self.writer)?;
        }
        ended
    }
}

// Does nothing, but this use of a returned reference ties it, for the borrow checker, to the parameter that lent it.
fn take_back<T>(x: &mut T)
    ensures { x.new ≡ x.old }
{}

/// Answers the lines of the reader to its end. The front runs on the calling thread, and each worker in one of its own.
///
/// Each of the first clients to ask has a lane, as many as the options say. Where memory is refused, also for a thread, the run
/// ends.
pub fn serve<T: Threads + Wait + Sync, R: Source, W: Sink, G: Gate + Sync>(
    alloc: Global,
    rt: &T,
    reader: &mut R,
    writer: &mut W,
    gate: &G,
    options: Options,
) -> Result<Vec<Settled<Task>>, FrontFault>
    requires lawful { fault_in options.clients options.workers options.capacity ≡ None }
    requires read_counts { (R.seen reader.old).faults < 2 ^ 64 - 1 }
    requires write_counts { (W.seen writer.old).faults < 2 ^ 64 - 1 }
    ensures ran { Ran (Served options.clients) (ServedInPart options.clients)
        (R.seen reader.old) (R.seen reader.new) (W.seen writer.old) (W.seen writer.new) result }
    ensures ends { IfOk result (λ ends. Replays (ServedBy options.clients ends.items)
        (R.seen reader.old).remaining (R.seen reader.new).remaining (W.seen writer.old).contents (W.seen writer.new).contents) }
{
    let marks = Marks::<Unmarked>::of(Slots::none(alloc));
    serve_marked(alloc, rt, marks, reader, writer, gate, options)
}

/// The same, with marks for the models, so that answers under one model compare no texts.
pub fn serve_marked<
    C: Catalog + Send + Sync,
    T: Threads + Wait + Sync,
    R: Source,
    W: Sink,
    G: Gate + Sync,
>(
    alloc: Global,
    rt: &T,
    marks: Marks<C>,
    reader: &mut R,
    writer: &mut W,
    gate: &G,
    options: Options,
) -> Result<Vec<Settled<Task<C>>>, FrontFault>
    requires lawful { fault_in options.clients options.workers options.capacity ≡ None }
    requires read_counts { (R.seen reader.old).faults < 2 ^ 64 - 1 }
    requires write_counts { (W.seen writer.old).faults < 2 ^ 64 - 1 }
    ensures ran { Ran (Served options.clients) (ServedInPart options.clients)
        (R.seen reader.old) (R.seen reader.new) (W.seen writer.old) (W.seen writer.new) result }
    ensures ends { IfOk result (λ ends. Replays (ServedBy options.clients ends.items)
        (R.seen reader.old).remaining (R.seen reader.new).remaining (W.seen writer.old).contents (W.seen writer.new).contents) }
{
    let Ok((clients, workers)) = lanes(alloc, options.clients, options.workers, options.capacity)
    else {
        return Err(FrontFault::Memory);
    };
    let lanes = Lanes::new(alloc, clients, options.capacity)?;
    let mut run = ServeRun {
        alloc,
        state: State {
            rt,
            lanes,
            plan: None,
            marks,
            texts: JsonReader::new(),
        },
        reader,
        writer,
    };
    let ran = beside(rt, gate, workers, &mut run);
    let ServeRun {
        state,
        reader,
        writer,
        ..
    } = run;
    take_back(reader);
    let (ended, workers) = ran?;
    finish(alloc, state.lanes, workers, writer, ended)
}

/// Hands out the rest once all workers are back, where all lines heard were answered.
fn finish<C: Catalog, W: Sink>(
    alloc: Global,
    lanes: Lanes<C>,
    workers: Vec<Worker<Task<C>>>,
    writer: &mut W,
    ended: Result<(), FrontFault>,
) -> Result<Vec<Settled<Task<C>>>, FrontFault>
    requires ends { AreOfOneCall (links_in lanes) (map worker_links workers.items) }
    requires new { GoesOn ended → (place : ℕ) (lane : Queue) → length (names_in lanes) ≤ place → slice_get (lanes_in lanes) place ≡ Some lane → lane.put ≡ [] }
    requires clear { GoesOn ended → NothingWaits lanes }
    requires counts { GoesOn ended → (W.seen writer.old).faults < 2 ^ 64 - 1 }
    ensures ok { IfOk result (λ ends. (ended ≡ Ok tt) × IsHandedOut (names_in lanes) (lanes_in lanes) (W.seen writer.old).contents (W.seen writer.new).contents ends.items) }
    ensures err { IfErr result (FinishesBy (names_in lanes) (lanes_in lanes) (W.seen writer.old).contents (W.seen writer.new).contents ended) }
    ensures counts { (result ≢ Err FrontFault.Write) → (W.seen writer.new).faults ≡ (W.seen writer.old).faults }
    ensures fault { GoesOn ended → (result ≡ Err FrontFault.Write) → (W.seen writer.old).faults < (W.seen writer.new).faults }
    ensures same { ¬ GoesOn ended → writer.new ≡ writer.old }
{
    if goes_on(&ended) {
        let ends = end_lanes(alloc, lanes, workers, writer)?;
        ended?;
        return Ok(ends);
    }
    match ended {
        Ok(()) => unreachable!(),
        Err(fault) => Err(fault),
    }
}
