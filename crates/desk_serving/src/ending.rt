//! What is left once the input ended: the workers end, and the rest of the results is handed out.
ghost use Rattle.std.specs.Prelude.{◌≡◌, ◌<◌, ◌-◌, ◌^◌, ◌≤◌, ◌++◌, [], ℕ, All, drop, length, map, slice_get, string_bytes, IfOk, OnOk, Some};
ghost use Rattle.lanes.specs.Workers.{worker_links};
ghost use Rattle.lanes.specs.Links.{AreOfOneCall};
ghost use Rattle.desk_serving.specs.Ending.{IsReady, IsRun, IsWhole, ends_lanes};
ghost use Rattle.desk_serving.specs.LanesView.{NothingWaits, lanes_in, links_in, names_in};
ghost use Rattle.desk_lines.specs.Lines.{ended};
ghost use Rattle.desk_serving.specs.Owed.{AreFirst, AreFirstOwn, AreHanded, AreOwn, Queue, queue_in};
ghost use Rattle.desk_requests.specs.State.{AreDistinct};
ghost use Rattle.desk_wire.specs.Reports as reports;
ghost use Rattle.desk_wire.specs.Reports.{report_text};
ghost use Rattle.desk_serving.specs.Telling.{HandsOut, WritesOut};

use crate::lane_ends::clients_of;
use crate::named_lanes::Lanes;
use crate::waiting::{hand_out_round, hand_out_waits};
use box_core::Reply;
use crew::Crew;
use desk_lines::{FrontFault, Sink, Unwritten, is_cut};
use desk_wire::Report;
use dmn_plan::Task;
use lanes::{Settled, Worker, settle};
use model_marks::Catalog;
use std::alloc::{AllocError, Global};
use std::sync::Wait;

/// Hands out results, round by round, while workers run, once nothing waits in the lanes. What is said last may wait to be written.
fn hand_out_beside<C: Catalog, R: Wait, W: Sink>(
    rt: &R,
    alloc: Global,
    crew: &Crew,
    lanes: &mut Lanes<C>,
    writer: &mut W,
    unwritten: &mut Unwritten,
) -> Result<(), FrontFault>
    requires counts { (W.seen writer.old).faults < 2 ^ 64 - 1 }
    requires clear { NothingWaits lanes.old }
    ensures same { links_in lanes.new ≡ links_in lanes.old }
    ensures names { names_in lanes.new ≡ names_in lanes.old }
    ensures clear { OnOk result (NothingWaits lanes.new) }
    ensures handed { HandsOut (AreHanded (names_in lanes.old) (lanes_in lanes.old) (lanes_in lanes.new)) (AreFirst (names_in lanes.old) (lanes_in lanes.old))
        (W.seen writer.old) (W.seen writer.new) unwritten.old unwritten.new result }
{
    for _ in rt.forever() {
        let seen = lanes.answers();
        if crew.has_ended() {
            break;
        }
        let came = hand_out_round(alloc, lanes, writer, unwritten)?;
        lanes.rest(rt, came, seen);
    }
    Ok(())
}

/// Hands out results until nothing waits in the lanes, tells the workers to stop, and hands out results until they have ended. What is said
/// last may wait to be written.
fn hand_out_last<C: Catalog, R: Wait, W: Sink>(
    rt: &R,
    alloc: Global,
    crew: &Crew,
    lanes: &mut Lanes<C>,
    writer: &mut W,
    unwritten: &mut Unwritten,
) -> Result<(), FrontFault>
    requires counts { (W.seen writer.old).faults < 2 ^ 64 - 1 }
    requires nothing_waits { unwritten.old ≡ [] }
    ensures same { links_in lanes.new ≡ links_in lanes.old }
    ensures names { names_in lanes.new ≡ names_in lanes.old }
    ensures clear { OnOk result (NothingWaits lanes.new) }
    ensures handed { HandsOut (AreHanded (names_in lanes.old) (lanes_in lanes.old) (lanes_in lanes.new)) (AreFirst (names_in lanes.old) (lanes_in lanes.old))
        (W.seen writer.old) (W.seen writer.new) [] unwritten.new result }
{
    hand_out_waits(rt, alloc, lanes, writer, unwritten)?;
    crew.stop();
    hand_out_beside(rt, alloc, crew, lanes, writer, unwritten)?;
    Ok(())
}

/// Tells the workers to stop once nothing waits in the lanes, and hands out results until they have ended.
pub fn end_workers<C: Catalog, R: Wait, W: Sink>(
    rt: &R,
    alloc: Global,
    crew: &Crew,
    lanes: &mut Lanes<C>,
    writer: &mut W,
) -> Result<(), FrontFault>
    requires counts { (W.seen writer.old).faults < 2 ^ 64 - 1 }
    ensures same { links_in lanes.new ≡ links_in lanes.old }
    ensures names { names_in lanes.new ≡ names_in lanes.old }
    ensures clear { OnOk result (NothingWaits lanes.new) }
    ensures written { WritesOut (λ _. AreHanded (names_in lanes.old) (lanes_in lanes.old) (lanes_in lanes.new)) (AreFirst (names_in lanes.old) (lanes_in lanes.old))
        (W.seen writer.old) (W.seen writer.new) result }
{
    let mut unwritten = Unwritten::new(alloc);
    let handed = hand_out_last(rt, alloc, crew, lanes, writer, &mut unwritten);
    if is_cut(&handed) {
        return handed;
    }
    unwritten.write_out(writer)?;
    handed
}

/// Runs each job that no worker answered, and takes the answers in.
fn run_left<C: Catalog>(alloc: Global, end: &mut Settled<Task<C>>) -> Result<(), AllocError>
    requires ready { IsReady end.old }
    ensures lane { queue_in end.new ≡ queue_in end.old }
    ensures run { OnOk result (IsRun end.new) }
{
    while let Some(job) = end.next_left() {
        match job.run(alloc) {
            Ok(done) => {
                end.answer(done);
            }
            Err(_) => return Err(AllocError),
        }
    }
    Ok(())
}

/// Says a reply, as a line at the end of a text.
fn say_reply<C: Catalog>(
    alloc: Global,
    handed: Reply<Task<C>>,
    name: &str,
    text: &mut Vec<u8>,
) -> Result<(), AllocError>
    ensures { OnOk result (text.new.items ≡ text.old.items ++ ended (report_text (reports.Reply name.now handed.ticket handed.outcome))) }
{
    Report::Reply(name, handed.ticket, &handed.outcome).add_to(alloc, text)
}

/// Hands out the rest of a client's results. What is said last may wait to be written.
fn hand_rest<C: Catalog, W: Sink>(
    alloc: Global,
    end: &mut Settled<Task<C>>,
    name: &str,
    writer: &mut W,
    unwritten: &mut Unwritten,
) -> Result<(), FrontFault>
    requires run { IsRun end.old }
    requires counts { (W.seen writer.old).faults < 2 ^ 64 - 1 }
    ensures whole { OnOk result (IsWhole end.new) }
    ensures handed { HandsOut (AreOwn name.now (queue_in end.old) (queue_in end.new)) (AreFirstOwn name.now (queue_in end.old))
        (W.seen writer.old) (W.seen writer.new) unwritten.old unwritten.new result }
{
    let mut text = Vec::new(alloc);
    while let Some(reply) = end.release() {
        text.clear();
        say_reply(alloc, reply, name, &mut text)?;
        unwritten.add(writer, &text)?;
    }
    Ok(())
}

/// Runs what is left of a client, and hands out the rest of its results. What is said last may wait to be written.
fn hand_out_end<C: Catalog, W: Sink>(
    alloc: Global,
    end: &mut Settled<Task<C>>,
    name: &str,
    writer: &mut W,
    unwritten: &mut Unwritten,
) -> Result<(), FrontFault>
    requires ready { IsReady end.old }
    requires counts { (W.seen writer.old).faults < 2 ^ 64 - 1 }
    ensures whole { OnOk result (IsWhole end.new) }
    ensures handed { HandsOut (AreOwn name.now (queue_in end.old) (queue_in end.new)) (AreFirstOwn name.now (queue_in end.old))
        (W.seen writer.old) (W.seen writer.new) unwritten.old unwritten.new result }
{
    run_left(alloc, end)?;
    hand_rest(alloc, end, name, writer, unwritten)
}

/// Runs what is left of each client, and hands out the rest of its results. What is said last may wait to be written.
fn hand_out_ends<C: Catalog, W: Sink>(
    alloc: Global,
    names: &Vec<String>,
    ends: &mut Vec<Settled<Task<C>>>,
    writer: &mut W,
    unwritten: &mut Unwritten,
) -> Result<(), FrontFault>
    requires named { length names.now.items ≤ length ends.old.items }
    requires distinct { AreDistinct (map string_bytes names.now.items) }
    requires ready { All IsReady ends.old.items }
    requires counts { (W.seen writer.old).faults < 2 ^ 64 - 1 }
    requires nothing_waits { unwritten.old ≡ [] }
    ensures whole { OnOk result ((place : ℕ) (lane : Queue) → place < length names.now.items → slice_get (ends_lanes ends.new.items) place ≡ Some lane → lane.owed ≡ []) }
    ensures rest { OnOk result (drop (length names.now.items) ends.new.items ≡ drop (length names.now.items) ends.old.items) }
    ensures handed { HandsOut (AreHanded (map string_bytes names.now.items) (ends_lanes ends.old.items) (ends_lanes ends.new.items)) (AreFirst (map string_bytes names.now.items) (ends_lanes ends.old.items))
        (W.seen writer.old) (W.seen writer.new) [] unwritten.new result }
{
    for place in 0..names.len() {
        hand_out_end(
            alloc,
            &mut ends[place],
            names[place].as_str(),
            writer,
            unwritten,
        )?;
    }
    Ok(())
}

/// Runs what is left of each client, and hands out the rest of its results.
fn hand_out_rest<C: Catalog, W: Sink>(
    alloc: Global,
    names: &Vec<String>,
    ends: &mut Vec<Settled<Task<C>>>,
    writer: &mut W,
) -> Result<(), FrontFault>
    requires named { length names.now.items ≤ length ends.old.items }
    requires distinct { AreDistinct (map string_bytes names.now.items) }
    requires ready { All IsReady ends.old.items }
    requires counts { (W.seen writer.old).faults < 2 ^ 64 - 1 }
    ensures whole { OnOk result ((place : ℕ) (lane : Queue) → place < length names.now.items → slice_get (ends_lanes ends.new.items) place ≡ Some lane → lane.owed ≡ []) }
    ensures rest { OnOk result (drop (length names.now.items) ends.new.items ≡ drop (length names.now.items) ends.old.items) }
    ensures written { WritesOut (λ _. AreHanded (map string_bytes names.now.items) (ends_lanes ends.old.items) (ends_lanes ends.new.items)) (AreFirst (map string_bytes names.now.items) (ends_lanes ends.old.items))
        (W.seen writer.old) (W.seen writer.new) result }
{
    let mut unwritten = Unwritten::new(alloc);
    let handed = hand_out_ends(alloc, names, ends, writer, &mut unwritten);
    if is_cut(&handed) {
        return handed;
    }
    unwritten.write_out(writer)?;
    handed
}

/// Brings all ends together, runs what is left, and hands out the rest of the results.
pub fn end_lanes<C: Catalog, W: Sink>(
    alloc: Global,
    lanes: Lanes<C>,
    workers: Vec<Worker<Task<C>>>,
    writer: &mut W,
) -> Result<Vec<Settled<Task<C>>>, FrontFault>
    requires ends { AreOfOneCall (links_in lanes) (map worker_links workers.items) }
    requires clear { NothingWaits lanes }
    // No request was put into a lane without a name.
    requires new { (place : ℕ) (lane : Queue) → length (names_in lanes) ≤ place → slice_get (lanes_in lanes) place ≡ Some lane → lane.put ≡ [] }
    requires counts { (W.seen writer.old).faults < 2 ^ 64 - 1 }
    ensures whole { IfOk result (λ ends. All IsWhole ends.items) }
    ensures written { WritesOut (λ ends. AreHanded (names_in lanes) (lanes_in lanes) (ends_lanes ends.items)) (AreFirst (names_in lanes) (lanes_in lanes))
        (W.seen writer.old) (W.seen writer.new) result }
{
    let Lanes { names, clients, .. } = lanes;
    let own = clients_of(alloc, clients)?;
    let Ok(mut ends) = settle(own, workers) else {
        return Err(FrontFault::Memory);
    };
    hand_out_rest(alloc, &names, &mut ends, writer)?;
    Ok(ends)
}
