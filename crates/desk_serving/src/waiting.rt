//! While the front waits for results, each is written as soon as no other is at hand.
ghost use Rattle.std.specs.Prelude.{◌≡◌, ◌<◌, ◌-◌, ◌^◌, OnOk};
ghost use Rattle.desk_serving.specs.LanesView.{NothingWaits, lanes_in, links_in, names_in};
ghost use Rattle.desk_serving.specs.Owed.{AreFirst, AreHanded};
ghost use Rattle.desk_serving.specs.Telling.{HandsOut};

use crate::named_lanes::Lanes;
use crate::until::Until;
use desk_lines::{FrontFault, Sink, Source, Unwritten};
use model_marks::Catalog;
use std::alloc::Global;
use std::sync::Wait;

/// Hands out at most one result from each lane, and what waits in the lanes goes on. Tells whether anything came or went. Where nothing
/// was said, all that waits to be written is. As that may take long, a worker is woken before for the requests in the mailboxes.
pub fn hand_out_round<C: Catalog, W: Sink>(
    alloc: Global,
    lanes: &mut Lanes<C>,
    writer: &mut W,
    unwritten: &mut Unwritten,
) -> Result<bool, FrontFault>
    requires counts { (W.seen writer.old).faults < 2 ^ 64 - 1 }
    ensures same { links_in lanes.new ≡ links_in lanes.old }
    ensures names { names_in lanes.new ≡ names_in lanes.old }
    ensures clear { OnOk result (NothingWaits lanes.old → NothingWaits lanes.new) }
    ensures handed { HandsOut (AreHanded (names_in lanes.old) (lanes_in lanes.old) (lanes_in lanes.new)) (AreFirst (names_in lanes.old) (lanes_in lanes.old))
        (W.seen writer.old) (W.seen writer.new) unwritten.old unwritten.new result }
{
    let mut text = Vec::new(alloc);
    lanes.hand_out(alloc, &mut text)?;
    let has_gone = lanes.go_on(alloc, &mut text)?;
    lanes.call_worker();
    unwritten.pass_on(writer, &text)?;
    if text.is_empty() {
        return Ok(has_gone);
    }
    lanes.free_memory();
    Ok(true)
}

/// A round. Where nothing came in it, waits until more answers were posted than so many, or the reader has more. Where nothing will
/// come since the workers find no memory for what they hold, that is the end.
fn hand_out_or_rest<C: Catalog, R: Wait, W: Sink>(
    rt: &R,
    alloc: Global,
    lanes: &mut Lanes<C>,
    seen: u64,
    writer: &mut W,
    unwritten: &mut Unwritten,
) -> Result<(), FrontFault>
    requires counts { (W.seen writer.old).faults < 2 ^ 64 - 1 }
    ensures same { links_in lanes.new ≡ links_in lanes.old }
    ensures names { names_in lanes.new ≡ names_in lanes.old }
    ensures handed { HandsOut (AreHanded (names_in lanes.old) (lanes_in lanes.old) (lanes_in lanes.new)) (AreFirst (names_in lanes.old) (lanes_in lanes.old))
        (W.seen writer.old) (W.seen writer.new) unwritten.old unwritten.new result }
{
    let came = hand_out_round(alloc, lanes, writer, unwritten)?;
    lanes.rest_fed(rt, came, seen)?;
    Ok(())
}

/// Hands out results, round by round, until it has come.
pub fn hand_out_until<C: Catalog, R: Wait, W: Sink>(
    rt: &R,
    alloc: Global,
    lanes: &mut Lanes<C>,
    until: Until,
    writer: &mut W,
    unwritten: &mut Unwritten,
) -> Result<(), FrontFault>
    requires counts { (W.seen writer.old).faults < 2 ^ 64 - 1 }
    ensures same { links_in lanes.new ≡ links_in lanes.old }
    ensures names { names_in lanes.new ≡ names_in lanes.old }
    ensures handed { HandsOut (AreHanded (names_in lanes.old) (lanes_in lanes.old) (lanes_in lanes.new)) (AreFirst (names_in lanes.old) (lanes_in lanes.old))
        (W.seen writer.old) (W.seen writer.new) unwritten.old unwritten.new result }
{
    for _ in rt.forever() {
        if lanes.has_come(until) {
            break;
        }
        let seen = lanes.answers();
        hand_out_or_rest(rt, alloc, lanes, seen, writer, unwritten)?;
    }
    Ok(())
}

/// Hands out results, round by round, until nothing waits in the lanes.
pub fn hand_out_waits<C: Catalog, R: Wait, W: Sink>(
    rt: &R,
    alloc: Global,
    lanes: &mut Lanes<C>,
    writer: &mut W,
    unwritten: &mut Unwritten,
) -> Result<(), FrontFault>
    requires counts { (W.seen writer.old).faults < 2 ^ 64 - 1 }
    ensures same { links_in lanes.new ≡ links_in lanes.old }
    ensures names { names_in lanes.new ≡ names_in lanes.old }
    ensures clear { OnOk result (NothingWaits lanes.new) }
    ensures handed { HandsOut (AreHanded (names_in lanes.old) (lanes_in lanes.old) (lanes_in lanes.new)) (AreFirst (names_in lanes.old) (lanes_in lanes.old))
        (W.seen writer.old) (W.seen writer.new) unwritten.old unwritten.new result }
{
    for _ in rt.forever() {
        if lanes.nothing_waits() {
            break;
        }
        let seen = lanes.answers();
        hand_out_or_rest(rt, alloc, lanes, seen, writer, unwritten)?;
    }
    Ok(())
}

/// Hands out results, round by round, until each lane is whole, or a read would answer at once. The reader puts what it has before
/// it rings, so it is looked at once the answers are counted.
pub fn hand_out_until_read<C: Catalog, R: Wait, S: Source, W: Sink>(
    rt: &R,
    alloc: Global,
    lanes: &mut Lanes<C>,
    reader: &mut S,
    writer: &mut W,
    unwritten: &mut Unwritten,
) -> Result<(), FrontFault>
    requires counts { (W.seen writer.old).faults < 2 ^ 64 - 1 }
    ensures source { S.seen reader.new ≡ S.seen reader.old }
    ensures same { links_in lanes.new ≡ links_in lanes.old }
    ensures names { names_in lanes.new ≡ names_in lanes.old }
    ensures handed { HandsOut (AreHanded (names_in lanes.old) (lanes_in lanes.old) (lanes_in lanes.new)) (AreFirst (names_in lanes.old) (lanes_in lanes.old))
        (W.seen writer.old) (W.seen writer.new) unwritten.old unwritten.new result }
{
    for _ in rt.forever() {
        let seen = lanes.answers();
        let is_at_hand = matches!(reader.at_hand(), Some(true));
        if is_at_hand || lanes.has_come(Until::AllWhole) {
            break;
        }
        hand_out_or_rest(rt, alloc, lanes, seen, writer, unwritten)?;
    }
    Ok(())
}
