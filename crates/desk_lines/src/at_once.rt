//! Lines that are each answered at once.
ghost use Rattle.std.specs.Prelude.{◌<◌, ◌-◌, ◌^◌, [], ℕ, List, IfOk};
ghost use Rattle.desk_lines.specs.Answering.{AnswersAtOnce};
ghost use Rattle.desk_lines.specs.Ran.{RanAtOnce};
ghost use Rattle.desk_lines.specs.Talk.{IsWithin};

use crate::device::{Sink, Source};
use crate::fault::FrontFault;
use crate::lines::LineText;
use crate::talk::{Clerk, answer_lines};
use crate::write::Unwritten;
use std::alloc::{AllocError, Global};

/// Answers each line at once.
pub trait Answerer {
    /// Which lines may be said to which. An answer widens nothing of it.
    ghost Script: { Self → List (List ℕ) → List (List ℕ) → Type 0 };

    /// The answerer stands as after these lines, to which those were said.
    ghost After: { Self → List (List ℕ) → List (List ℕ) → Type 0 };

    /// What is said to the line with this number. Of a line that is too long there is nothing to see.
    fn answer(&mut self, alloc: Global, number: u64, line: &LineText) -> Result<Vec<u8>, AllocError>
        ensures keeps { IsWithin (Script self.new) (Script self.old) }
        ensures answers { IfOk result (λ text.
            AnswersAtOnce (After self.old) (After self.new) line.now number text.items) };

    /// What was said follows the script.
    ghost follows: { (a : Self) → IsWithin (After a) (Script a) };
}

/// A clerk that answers each line at once, and owes nothing between lines.
#[derive(Drop)]
struct AtOnce<'a, T> {
    answerer: &'a mut T,
}

impl<'a, T: Answerer> Clerk for AtOnce<'a, T> {
    ghost Script = { λ clerk. T.Script clerk.answerer.now };

    ghost Kept = { Unit {0} };

    ghost kept = { λ _. tt };

    ghost After = { λ clerk. T.After clerk.answerer.now };

    fn answer<W: Sink>(
        &mut self,
        alloc: Global,
        number: u64,
        line: &LineText,
        _writer: &mut W,
        _unwritten: &mut Unwritten,
    ) -> Result<Vec<u8>, FrontFault> {
        let text = self.answerer.answer(alloc, number, line)?;
        Ok(text)
    }

    fn catch_up<R: Source, W: Sink>(
        &mut self,
        _alloc: Global,
        _reader: &mut R,
        _writer: &mut W,
        _unwritten: &mut Unwritten,
    ) -> Result<(), FrontFault> {
        Ok(())
    }

    ghost follows = { λ clerk. T.follows clerk.answerer.now };
}

/// Answers the lines of the reader to its end, each at once.
pub fn answer_at_once<R: Source, W: Sink, T: Answerer>(
    alloc: Global,
    answerer: &mut T,
    reader: &mut R,
    writer: &mut W,
) -> Result<(), FrontFault>
    requires read_counts { (R.seen reader.old).faults < 2 ^ 64 - 1 }
    requires write_counts { (W.seen writer.old).faults < 2 ^ 64 - 1 }
    requires starts { T.After answerer.old [] [] }
    ensures { RanAtOnce (T.Script answerer.old)
        (R.seen reader.old) (R.seen reader.new) (W.seen writer.old) (W.seen writer.new) result }
{
    let mut clerk = AtOnce { answerer };
    answer_lines(alloc, &mut clerk, reader, writer)
}
