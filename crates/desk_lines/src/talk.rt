//! Lines in, lines out.
ghost use Rattle.std.specs.Prelude.{◌≡◌, ◌≢◌, ◌<◌, ◌≤◌, ◌+◌, ◌-◌, ◌^◌, ◌++◌, ◌∷◌, [], ℕ, List, length, OnOk, OnErr, IfOk, IfErr, Err, IsTrue, ◌↔◌, false};
ghost use Rattle.std.specs.List.{flat_map};
ghost use Rattle.desk_lines.specs.Answering.{Answers, SaysInPart, SaysMore};
ghost use Rattle.desk_lines.specs.Gathers.{Ended, Gathers};
ghost use Rattle.desk_lines.specs.LineReader.{has_newline, IsInStep};
ghost use Rattle.desk_lines.specs.Lines.{kept_line, ended, max_input};
ghost use Rattle.desk_lines.specs.Ran.{Ran};
ghost use Rattle.desk_lines.specs.Talk.{EndsAs, IsCut, IsWithin, Replays};

use crate::device::{Sink, Source};
use crate::fault::FrontFault;
use crate::lines::{LineReader, LineText, Next};
use crate::write::Unwritten;
use std::alloc::Global;

/// Answers lines.
pub trait Clerk {
    /// Which lines may be said to which. An answer widens nothing of it.
    ghost Script: { Self → List (List ℕ) → List (List ℕ) → Type 0 };

    /// What every answer leaves as it is.
    ghost Kept: { Type 0 };

    ghost kept: { Self → Kept };

    /// The clerk stands as after these lines, to which those were said.
    ghost After: { Self → List (List ℕ) → List (List ℕ) → Type 0 };

    /// What is said to the line with this number. Of a line that is too long there is nothing to see. What the clerk says
    /// before, as while it waits until it can answer, it passes on itself.
    fn answer<W: Sink>(
        &mut self,
        alloc: Global,
        number: u64,
        line: &LineText,
        writer: &mut W,
        unwritten: &mut Unwritten,
    ) -> Result<Vec<u8>, FrontFault>
        requires counts { (W.seen writer.old).faults < 2 ^ 64 - 1 }
        requires few { number < 2 ^ 60 }
        requires stands { (lines : List (List ℕ)) × (said : List (List ℕ)) × After self.old lines said × (number ≡ length lines + 1) }
        ensures same { kept self.new ≡ kept self.old }
        ensures keeps { IsWithin (Script self.new) (Script self.old) }
        ensures answers { IfOk result (λ text. Answers (After self.old) (Script self.old) (After self.new) line.now number
            (W.seen writer.old).contents (W.seen writer.new).contents unwritten.old unwritten.new text.items) }
        ensures write { (result ≡ Err FrontFault.Write) → (unsaid : List ℕ) × SaysMore (After self.old) (Script self.old)
            (W.seen writer.old).contents (W.seen writer.new).contents unwritten.old unsaid }
        ensures memory { (result ≡ Err FrontFault.Memory) → SaysMore (After self.old) (Script self.old)
            (W.seen writer.old).contents (W.seen writer.new).contents unwritten.old unwritten.new }
        ensures only { IfErr result (λ e. (e ≢ FrontFault.Read) × (e ≢ FrontFault.Long)) }
        ensures fault { (result ≡ Err FrontFault.Write) → (W.seen writer.old).faults < (W.seen writer.new).faults }
        ensures counts { (result ≢ Err FrontFault.Write) → (W.seen writer.new).faults ≡ (W.seen writer.old).faults };

    /// Says what it still owes: all of it, or what it can until a read would answer at once. It is called before more is read,
    /// where no whole line waits.
    fn catch_up<R: Source, W: Sink>(
        &mut self,
        alloc: Global,
        reader: &mut R,
        writer: &mut W,
        unwritten: &mut Unwritten,
    ) -> Result<(), FrontFault>
        requires counts { (W.seen writer.old).faults < 2 ^ 64 - 1 }
        ensures source { R.seen reader.new ≡ R.seen reader.old }
        ensures same { kept self.new ≡ kept self.old }
        ensures keeps { IsWithin (Script self.new) (Script self.old) }
        ensures said { OnOk result (SaysMore (After self.old) (After self.new)
            (W.seen writer.old).contents (W.seen writer.new).contents unwritten.old unwritten.new) }
        ensures write { (result ≡ Err FrontFault.Write) → (unsaid : List ℕ) × SaysMore (After self.old) (Script self.old)
            (W.seen writer.old).contents (W.seen writer.new).contents unwritten.old unsaid }
        ensures memory { (result ≡ Err FrontFault.Memory) → SaysMore (After self.old) (Script self.old)
            (W.seen writer.old).contents (W.seen writer.new).contents unwritten.old unwritten.new }
        ensures only { IfErr result (λ e. (e ≢ FrontFault.Read) × (e ≢ FrontFault.Long)) }
        ensures fault { (result ≡ Err FrontFault.Write) → (W.seen writer.old).faults < (W.seen writer.new).faults }
        ensures counts { (result ≢ Err FrontFault.Write) → (W.seen writer.new).faults ≡ (W.seen writer.old).faults };

    /// What was said follows the script.
    ghost follows: { (c : Self) → IsWithin (After c) (Script c) };
}

/// Answers a line. What is said to it may wait to be written.
fn answer_line<W: Sink, C: Clerk>(
    alloc: Global,
    clerk: &mut C,
    writer: &mut W,
    unwritten: &mut Unwritten,
    number: u64,
    line: &LineText,
) -> Result<(), FrontFault>
    requires counts { (W.seen writer.old).faults < 2 ^ 64 - 1 }
    requires few { number < 2 ^ 60 }
    requires stands { (lines : List (List ℕ)) × (said : List (List ℕ)) × C.After clerk.old lines said × (number ≡ length lines + 1) }
    ensures same { C.kept clerk.new ≡ C.kept clerk.old }
    ensures keeps { IsWithin (C.Script clerk.new) (C.Script clerk.old) }
    ensures said { IfOk result (λ _. (lines said : List (List ℕ)) (it : List ℕ) →
        C.After clerk.old lines said → line.now ≡ kept_line it → number ≡ length lines + 1 →
        (more : List (List ℕ)) × C.After clerk.new (lines ++ it ∷ []) (said ++ more)
        × Gathers (W.seen writer.old).contents (W.seen writer.new).contents
        unwritten.old (flat_map ended more) unwritten.new) }
    ensures write { (result ≡ Err FrontFault.Write) → (unsaid : List ℕ) × SaysInPart (C.After clerk.old) (C.Script clerk.old) line.now number
        (W.seen writer.old).contents (W.seen writer.new).contents unwritten.old unsaid }
    ensures memory { (result ≡ Err FrontFault.Memory) → SaysInPart (C.After clerk.old) (C.Script clerk.old) line.now number
        (W.seen writer.old).contents (W.seen writer.new).contents unwritten.old unwritten.new }
    ensures only { IfErr result (λ e. (e ≢ FrontFault.Read) × (e ≢ FrontFault.Long)) }
    ensures fault { (result ≡ Err FrontFault.Write) → (W.seen writer.old).faults < (W.seen writer.new).faults }
    ensures counts { (result ≢ Err FrontFault.Write) → (W.seen writer.new).faults ≡ (W.seen writer.old).faults }
{
    let text = clerk.answer(alloc, number, line, writer, unwritten)?;
    unwritten.add(writer, &text)
}

/// Unless a whole line can be answered before more is read, has the clerk say what it owes, and writes all that waits.
fn before_read<R: Source, W: Sink, C: Clerk>(
    alloc: Global,
    clerk: &mut C,
    lines: &LineReader,
    reader: &mut R,
    writer: &mut W,
    unwritten: &mut Unwritten,
) -> Result<(), FrontFault>
    requires counts { (W.seen writer.old).faults < 2 ^ 64 - 1 }
    ensures source { R.seen reader.new ≡ R.seen reader.old }
    ensures same { C.kept clerk.new ≡ C.kept clerk.old }
    ensures keeps { IsWithin (C.Script clerk.new) (C.Script clerk.old) }
    ensures said { OnOk result (SaysMore (C.After clerk.old) (C.After clerk.new)
        (W.seen writer.old).contents (W.seen writer.new).contents unwritten.old unwritten.new) }
    ensures write { (result ≡ Err FrontFault.Write) → (unsaid : List ℕ) × SaysMore (C.After clerk.old) (C.Script clerk.old)
        (W.seen writer.old).contents (W.seen writer.new).contents unwritten.old unsaid }
    ensures memory { (result ≡ Err FrontFault.Memory) → SaysMore (C.After clerk.old) (C.Script clerk.old)
        (W.seen writer.old).contents (W.seen writer.new).contents unwritten.old unwritten.new }
    ensures nothing_waits { OnOk result (has_newline lines.now ≡ false → unwritten.new ≡ []) }
    ensures only { IfErr result (λ e. (e ≢ FrontFault.Read) × (e ≢ FrontFault.Long)) }
    ensures fault { (result ≡ Err FrontFault.Write) → (W.seen writer.old).faults < (W.seen writer.new).faults }
    ensures counts { (result ≢ Err FrontFault.Write) → (W.seen writer.new).faults ≡ (W.seen writer.old).faults }
{
    if lines.has_line() {
        return Ok(());
    }
    clerk.catch_up(alloc, reader, writer, unwritten)?;
    unwritten.write_out(writer)
}

/// Answers the lines of the reader to its end. What is said last may wait to be written.
fn answer_each<R: Source, W: Sink, C: Clerk>(
    alloc: Global,
    clerk: &mut C,
    reader: &mut R,
    writer: &mut W,
    unwritten: &mut Unwritten,
) -> Result<(), FrontFault>
    requires read_counts { (R.seen reader.old).faults < 2 ^ 64 - 1 }
    requires write_counts { (W.seen writer.old).faults < 2 ^ 64 - 1 }
    requires starts { C.After clerk.old [] [] }
    requires nothing_waits { unwritten.old ≡ [] }

    ensures ok { OnOk result (Ended (Replays (C.After clerk.new) (R.seen reader.old).remaining (R.seen reader.new).remaining)
        (W.seen writer.old).contents (W.seen writer.new).contents unwritten.new) }

    ensures fault { IfErr result (λ e. e ≢ FrontFault.Write → Ended
        (λ wrote wrote_new. EndsAs (C.After clerk.new) (C.Script clerk.old)
        (R.seen reader.old).remaining (R.seen reader.new).remaining wrote wrote_new e)
        (W.seen writer.old).contents (W.seen writer.new).contents unwritten.new) }

    ensures cut { (result ≡ Err FrontFault.Write) → IsCut (C.Script clerk.old) (R.seen reader.old).remaining (R.seen reader.new).remaining
        (W.seen writer.old).contents (W.seen writer.new).contents }

    ensures read_only_at_fault { (result ≡ Err FrontFault.Read) → (R.seen reader.old).faults < (R.seen reader.new).faults }
    ensures write_only_at_fault { (result ≡ Err FrontFault.Write) → (W.seen writer.old).faults < (W.seen writer.new).faults }
    ensures reads { (result ≢ Err FrontFault.Read) → (R.seen reader.new).faults ≡ (R.seen reader.old).faults }
    ensures writes { (result ≢ Err FrontFault.Write) → (W.seen writer.new).faults ≡ (W.seen writer.old).faults }

    ensures same { C.kept clerk.new ≡ C.kept clerk.old }
    ensures keeps { IsWithin (C.Script clerk.new) (C.Script clerk.old) }

    ensures came { (came : ℕ) × IsInStep (R.seen reader.old).came (R.seen reader.new).came came × OnOk result (came ≤ max_input)
        × ((result ≡ Err FrontFault.Read) → came ≤ max_input) × ((result ≡ Err FrontFault.Long) → max_input < came) }
{
    let mut lines = LineReader::new(alloc)?;
    let mut line = LineText::new(alloc);
    let mut number: u64 = 1;
    'lines: loop {
        before_read(alloc, clerk, &lines, reader, writer, unwritten)?;
        match lines.next_line(reader, &mut line)? {
            Next::Line => answer_line(alloc, clerk, writer, unwritten, number, &line)?,
            Next::Open => continue,
            Next::Last => return answer_line(alloc, clerk, writer, unwritten, number, &line),
            Next::End => return Ok(()),
        }
        line.clear();
        number += 1;
    }
}

/// Whether the writer failed.
pub fn is_cut(ended: &Result<(), FrontFault>) -> bool
    ensures { IsTrue result ↔ (ended.now ≡ Err FrontFault.Write) }
{
    matches!(ended, Err(FrontFault::Write))
}

/// Answers the lines of the reader to its end.
pub fn answer_lines<R: Source, W: Sink, C: Clerk>(
    alloc: Global,
    clerk: &mut C,
    reader: &mut R,
    writer: &mut W,
) -> Result<(), FrontFault>
    requires read_counts { (R.seen reader.old).faults < 2 ^ 64 - 1 }
    requires write_counts { (W.seen writer.old).faults < 2 ^ 64 - 1 }
    requires starts { C.After clerk.old [] [] }

    ensures ran { Ran (C.After clerk.new) (C.Script clerk.old)
        (R.seen reader.old) (R.seen reader.new) (W.seen writer.old) (W.seen writer.new) result }
    ensures same { C.kept clerk.new ≡ C.kept clerk.old }
    ensures keeps { IsWithin (C.Script clerk.new) (C.Script clerk.old) }
    ensures writes { (result ≢ Err FrontFault.Write) → (W.seen writer.new).faults ≡ (W.seen writer.old).faults }
    ensures memory { (result ≡ Err FrontFault.Memory) → (R.seen reader.new).faults ≡ (R.seen reader.old).faults }
{
    let mut unwritten = Unwritten::new(alloc);
    let ended = answer_each(alloc, clerk, reader, writer, &mut unwritten);
    if is_cut(&ended) {
        return ended;
    }
    unwritten.write_out(writer)?;
    ended
}
