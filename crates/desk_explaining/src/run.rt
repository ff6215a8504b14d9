//! `explain`: each line is answered before the next is read.
ghost use Rattle.std.specs.Prelude.{◌≡◌, ◌<◌, ◌-◌, ◌^◌, []};
ghost use Rattle.desk_lines.specs.Ran.{RanAtOnce};
ghost use Rattle.desk_explaining.specs.Script.{Script};
ghost use Rattle.desk_explaining.specs.StateView.{Stands};

use crate::options::ExplainOptions;
use crate::state::State;
use desk_lines::{FrontFault, Sink, Source, answer_at_once};
use desk_requests::Register;
use desk_wire::Session;
use std::alloc::Global;

/// The state before the first line.
fn first_state(alloc: Global, options: &ExplainOptions) -> State
    ensures starts { Stands result options.now.clients [] }
    ensures misses { result.misses ≡ options.now.misses }
{
    State {
        register: Register::new(alloc, options.clients as usize),
        sum: String::new(alloc),
        misses: options.misses,
    }
}

/// Answers the lines of the reader to its end. They are those of `serve`, and each answer is the one that `serve` gives where it has
/// so many lanes, with its reasons: of a model its sum and its text, of a reply the inputs, what every decision on the way came to
/// and how. Where memory is refused the run ends.
pub fn explain<R: Source, W: Sink>(
    alloc: Global,
    options: &ExplainOptions,
    reader: &mut R,
    writer: &mut W,
) -> Result<(), FrontFault>
    requires read_counts { (R.seen reader.old).faults < 2 ^ 64 - 1 }
    requires write_counts { (W.seen writer.old).faults < 2 ^ 64 - 1 }
    ensures { RanAtOnce (Script options.now.misses options.now.clients) (R.seen reader.old) (R.seen reader.new) (W.seen writer.old) (W.seen writer.new) result }
{
    let mut session = Session::new(first_state(alloc, options));
    answer_at_once(alloc, &mut session, reader, writer)
}
