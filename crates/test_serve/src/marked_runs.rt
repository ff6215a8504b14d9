//! Runs of `serve_marked`.
ghost use Rattle.std.specs.Prelude.{◌≡◌, ◌<◌, ◌-◌, ◌^◌, None};
ghost use Rattle.lanes.specs.Made.{fault_in};

use crate::runs::Ended;
use desk_front::{Counted, Options, Sink, Source, serve_marked};
use lanes::Gate;
use model_marks::{Catalog, Marks, Slots};
use std::alloc::Global;
use std::io;
use std::marker::Brand;
use std::sync::Wait;
use std::thread::Threads;

/// Runs `serve_marked` once. The writer comes back.
pub fn serve_once_marked<T, I, O, G>(
    alloc: Global,
    rt: &T,
    reader: I,
    writer: O,
    gate: &G,
    options: Options,
) -> (Ended, O)
where
    T: Threads + Wait + Sync,
    I: io::Read + Drop,
    O: io::Write + Drop,
    G: Gate + Sync,
    requires { fault_in options.clients options.workers options.capacity ≡ None }
{
    let mut reader = Counted::new(reader);
    let mut writer = Counted::new(writer);
    let slots = Slots::new(alloc);
    let ended = ended_with::<Brand, T, Counted<I>, Counted<O>, G>(
        alloc,
        rt,
        slots,
        &mut reader,
        &mut writer,
        gate,
        options,
    );
    (ended, writer.inner)
}

/// The same, with numbers of these slots for the models.
fn ended_with<C, T, R, W, G>(
    alloc: Global,
    rt: &T,
    slots: Slots,
    reader: &mut R,
    writer: &mut W,
    gate: &G,
    options: Options,
) -> Ended
where
    C: Catalog + Send + Sync,
    T: Threads + Wait + Sync,
    R: Source,
    W: Sink,
    G: Gate + Sync,
    requires slots { slots ≡ C.slots }
    requires lawful { fault_in options.clients options.workers options.capacity ≡ None }
    requires read_counts { (R.seen reader.old).faults < 2 ^ 64 - 1 }
    requires write_counts { (W.seen writer.old).faults < 2 ^ 64 - 1 }
{
    let marks = Marks::<C>::of(slots);
    let mut ends = match serve_marked(alloc, rt, marks, reader, writer, gate, options) {
        Ok(ends) => ends,
        Err(fault) => return Ended::Failed(fault),
    };
    let mut are_whole = true;
    for end in ends.iter_mut() {
        let is_left = end.next_left().is_some() || end.release().is_some();
        are_whole = are_whole && end.is_whole() && !is_left;
    }
    if are_whole {
        Ended::Whole(ends.len())
    } else {
        Ended::Left
    }
}
