//! `replay`: each line is answered before the next is read.
ghost use Rattle.std.specs.Prelude.{◌≡◌, ◌<◌, ◌-◌, ◌^◌};
ghost use Rattle.desk_lines.specs.Ran.{RanAtOnce};
ghost use Rattle.desk_replaying.specs.Script.{Script};

use crate::state::State;
use desk_lines::{FrontFault, Sink, Source, answer_at_once};
use desk_wire::Session;
use model_marks::{Catalog, Marks, Slots};
use std::alloc::Global;
use std::marker::Brand;

/// Answers the lines of the reader to its end. Models are marked by numbers of these slots.
fn replay_marked<C: Catalog, R: Source, W: Sink>(
    alloc: Global,
    slots: Slots,
    reader: &mut R,
    writer: &mut W,
) -> Result<(), FrontFault>
    requires slots { slots ≡ C.slots }
    requires read_counts { (R.seen reader.old).faults < 2 ^ 64 - 1 }
    requires write_counts { (W.seen writer.old).faults < 2 ^ 64 - 1 }
    ensures { RanAtOnce Script (R.seen reader.old) (R.seen reader.new) (W.seen writer.old) (W.seen writer.new) result }
{
    let marks = Marks::<C>::of(slots);
    let mut session = Session::new(State::new(alloc, marks));
    answer_at_once(alloc, &mut session, reader, writer)
}

/// Answers the lines of the reader to its end.
pub fn replay<R: Source, W: Sink>(
    alloc: Global,
    reader: &mut R,
    writer: &mut W,
) -> Result<(), FrontFault>
    requires read_counts { (R.seen reader.old).faults < 2 ^ 64 - 1 }
    requires write_counts { (W.seen writer.old).faults < 2 ^ 64 - 1 }
    ensures { RanAtOnce Script (R.seen reader.old) (R.seen reader.new) (W.seen writer.old) (W.seen writer.new) result }
{
    let slots = Slots::new(alloc);
    replay_marked::<Brand, R, W>(alloc, slots, reader, writer)
}
