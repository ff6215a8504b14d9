//! What the program does with its words, as a function of them and of its streams.
ghost use Rattle.std.specs.Prelude.{◌≡◌, ◌≢◌, ◌⊎◌, ◌||◌, ◌<◌, ◌-◌, ◌^◌, [], None, IfOk, string_len};
ghost use Rattle.std.specs.IoError.{error_kind};
ghost use Rattle.clap.specs.Words.{kind_of, subcommand_rows_of};
ghost use Rattle.desk_lines.specs.Told.{IsTold};
ghost use Rattle.lanes.specs.Made.{fault_in};
ghost use Rattle.desk_checking.specs.Checked.{Checked};
ghost use Rattle.desk_commands.specs.CommandLine.{IsCommand, kinds_of, named_by, named_in, texts_of};
ghost use Rattle.desk_commands.specs.Status.{Does, EndsBy, Explained, Refuses, Replayed, Runs, Says, ServedWith, end_text, fault_line, no_utf8_line, status_of, status_of_check, status_of_kind, status_of_model, stopped, wrong_words};

use crate::command::read_words;
use crate::options::{check_options_of, explain_options_of, options_of};
use clap::error::ErrorKind;
use clap::{ArgMatches, Error};
use desk_checking::{CheckFindings, CheckOptions, check};
use desk_explaining::{ExplainOptions, explain};
use desk_lines::{FrontFault, Sink, Source, write_all};
use desk_replaying::replay;
use desk_serving::{Options, serve_marked};
use lanes::OpenGate;
use model_marks::{Catalog, Marks, Slots};
use std::alloc::{AllocError, Global};
use std::io::{self, ErrorKind as IoKind};
use std::marker::Brand;
use std::sync::Wait;
use std::thread::Threads;

/// The status of a run that came to its end.
const DONE: u8 = 0;
/// The status of a run that a fault ended, also where memory was refused for the words.
const STOPPED: u8 = 1;
/// The status where the words name no command.
const WRONG_WORDS: u8 = 2;
/// The status where the model that was checked has a fault.
const WRONG_MODEL: u8 = 3;
/// The status where it is lawful, and `--strict` refuses a table of it, or `--strict-null` what a service can give.
const REFUSED_TABLE: u8 = 4;

/// Writes a text as far as the writer takes it.
fn tell<W: Sink>(text: &str, writer: &mut W)
    requires counts { (W.seen writer.old).faults < 2 ^ 64 - 1 }
    ensures { IsTold (W.seen writer.old) (W.seen writer.new) text.now }
{
    let _ = write_all(writer, text.as_bytes());
}

/// Tells a fault by its word, on a line of its own.
fn tell_fault<F: Sink>(fault: FrontFault, faults: &mut F) -> u8
    requires counts { (F.seen faults.old).faults < 2 ^ 64 - 1 }
    ensures status { result ≡ stopped }
    ensures told { IsTold (F.seen faults.old) (F.seen faults.new) (fault_line fault) }
{
    if write_all(faults, fault.word().as_bytes()).is_ok() {
        tell("\n", faults);
    }
    STOPPED
}

/// Tells why the words of the command line can't be had: since memory is refused, or since one of them is not UTF-8.
pub fn tell_of_words<F: Sink>(error: &io::Error, faults: &mut F) -> u8
    requires counts { (F.seen faults.old).faults < 2 ^ 64 - 1 }
    ensures memory { error_kind error.now ≡ IoKind.OutOfMemory →
        (result ≡ stopped) × IsTold (F.seen faults.old) (F.seen faults.new) (fault_line FrontFault.Memory) }
    ensures wrong { error_kind error.now ≢ IoKind.OutOfMemory →
        (result ≡ wrong_words) × IsTold (F.seen faults.old) (F.seen faults.new) no_utf8_line }
{
    if error.kind() == IoKind::OutOfMemory {
        return tell_fault(FrontFault::Memory, faults);
    }
    tell("error: a word of the command line is not UTF-8\n", faults);
    WRONG_WORDS
}

/// Tells the fault that ended a run, if one did.
#[tactic(auto, using(desk_lines::proofs::Telling::told_nothing))]
fn tell_end<X: Drop, F: Sink>(end: Result<X, FrontFault>, faults: &mut F) -> u8
    requires counts { (F.seen faults.old).faults < 2 ^ 64 - 1 }
    ensures status { result ≡ status_of end }
    ensures told { IsTold (F.seen faults.old) (F.seen faults.new) (end_text end) }
{
    let Err(fault) = end else {
        return DONE;
    };
    tell_fault(fault, faults)
}

/// The same, with numbers of these slots for the models.
fn run_serve_marked<C, T, R, W, F>(
    alloc: Global,
    rt: &T,
    slots: Slots,
    options: Options,
    reader: &mut R,
    writer: &mut W,
    faults: &mut F,
) -> u8
where
    C: Catalog + Send + Sync,
    T: Threads + Wait + Sync,
    R: Source,
    W: Sink,
    F: Sink,
    requires slots { slots ≡ C.slots }
    requires lawful { fault_in options.clients options.workers options.capacity ≡ None }
    requires read_counts { (R.seen reader.old).faults < 2 ^ 64 - 1 }
    requires write_counts { (W.seen writer.old).faults < 2 ^ 64 - 1 }
    requires fault_counts { (F.seen faults.old).faults < 2 ^ 64 - 1 }
    ensures { EndsBy (ServedWith (R.seen reader.old) (R.seen reader.new) (W.seen writer.old) (W.seen writer.new) options.clients)
        status_of (F.seen faults.old) (F.seen faults.new) result }
{
    let marks = Marks::<C>::of(slots);
    let end = serve_marked(alloc, rt, marks, reader, writer, &OpenGate, options);
    tell_end(end, faults)
}

/// Serves the lines of the reader, and tells the fault that ends it, if one does.
fn run_serve<T: Threads + Wait + Sync, R: Source, W: Sink, F: Sink>(
    alloc: Global,
    rt: &T,
    options: Options,
    reader: &mut R,
    writer: &mut W,
    faults: &mut F,
) -> u8
    requires lawful { fault_in options.clients options.workers options.capacity ≡ None }
    requires read_counts { (R.seen reader.old).faults < 2 ^ 64 - 1 }
    requires write_counts { (W.seen writer.old).faults < 2 ^ 64 - 1 }
    requires fault_counts { (F.seen faults.old).faults < 2 ^ 64 - 1 }
    ensures { EndsBy (ServedWith (R.seen reader.old) (R.seen reader.new) (W.seen writer.old) (W.seen writer.new) options.clients)
        status_of (F.seen faults.old) (F.seen faults.new) result }
{
    let slots = Slots::new(alloc);
    run_serve_marked::<Brand, T, R, W, F>(alloc, rt, slots, options, reader, writer, faults)
}

/// The status of what was found of a model.
fn status_of_findings(findings: CheckFindings) -> u8
    ensures { result ≡ status_of_model findings.fault (findings.is_strict_failure || findings.is_null_failure) }
{
    let is_refused = findings.is_strict_failure || findings.is_null_failure;
    match (findings.fault, is_refused) {
        (Some(_), _) => WRONG_MODEL,
        (None, true) => REFUSED_TABLE,
        (None, false) => DONE,
    }
}

/// Checks the model of the reader, and tells the fault that ends it, if one does.
#[tactic(auto, using(desk_lines::proofs::Telling::told_nothing))]
fn run_check<R: Source, W: Sink, F: Sink>(
    alloc: Global,
    options: CheckOptions,
    reader: &mut R,
    writer: &mut W,
    faults: &mut F,
) -> u8
    requires read_counts { (R.seen reader.old).faults < 2 ^ 64 - 1 }
    requires write_counts { (W.seen writer.old).faults < 2 ^ 64 - 1 }
    requires fault_counts { (F.seen faults.old).faults < 2 ^ 64 - 1 }
    ensures { EndsBy (Checked options (R.seen reader.old) (R.seen reader.new) (W.seen writer.old) (W.seen writer.new))
        status_of_check (F.seen faults.old) (F.seen faults.new) result }
{
    match check(alloc, options, reader, writer) {
        Ok(findings) => status_of_findings(findings),
        Err(fault) => tell_fault(fault, faults),
    }
}

/// Explains the answers to the lines of the reader, and tells the fault that ends it, if one does.
fn run_explain<R: Source, W: Sink, F: Sink>(
    alloc: Global,
    options: &ExplainOptions,
    reader: &mut R,
    writer: &mut W,
    faults: &mut F,
) -> u8
    requires read_counts { (R.seen reader.old).faults < 2 ^ 64 - 1 }
    requires write_counts { (W.seen writer.old).faults < 2 ^ 64 - 1 }
    requires fault_counts { (F.seen faults.old).faults < 2 ^ 64 - 1 }
    ensures { EndsBy (Explained (R.seen reader.old) (R.seen reader.new) (W.seen writer.old) (W.seen writer.new) options.now)
        status_of (F.seen faults.old) (F.seen faults.new) result }
{
    tell_end(explain(alloc, options, reader, writer), faults)
}

/// Replays the script of the reader, and tells the fault that ends it, if one does.
fn run_replay<R: Source, W: Sink, F: Sink>(
    alloc: Global,
    reader: &mut R,
    writer: &mut W,
    faults: &mut F,
) -> u8
    requires read_counts { (R.seen reader.old).faults < 2 ^ 64 - 1 }
    requires write_counts { (W.seen writer.old).faults < 2 ^ 64 - 1 }
    requires fault_counts { (F.seen faults.old).faults < 2 ^ 64 - 1 }
    ensures { EndsBy (Replayed (R.seen reader.old) (R.seen reader.new) (W.seen writer.old) (W.seen writer.new))
        status_of (F.seen faults.old) (F.seen faults.new) result }
{
    tell_end(replay(alloc, reader, writer), faults)
}

/// Runs the command that the words name, and tells the fault that ends it, if one does.
fn run_command<T: Threads + Wait + Sync, R: Source, W: Sink, F: Sink>(
    alloc: Global,
    rt: &T,
    matches: &ArgMatches<'_>,
    reader: &mut R,
    writer: &mut W,
    faults: &mut F,
) -> u8
    requires read_counts { (R.seen reader.old).faults < 2 ^ 64 - 1 }
    requires write_counts { (W.seen writer.old).faults < 2 ^ 64 - 1 }
    requires fault_counts { (F.seen faults.old).faults < 2 ^ 64 - 1 }
    ensures { Does (R.seen reader.old) (R.seen reader.new) (W.seen writer.old) (W.seen writer.new)
        (F.seen faults.old) (F.seen faults.new) result (named_by (subcommand_rows_of matches.now)) }
{
    if let Some(found) = matches.subcommand_matches("serve") {
        return run_serve(alloc, rt, options_of(found), reader, writer, faults);
    }
    if let Some(found) = matches.subcommand_matches("check") {
        return run_check(alloc, check_options_of(found), reader, writer, faults);
    }
    if let Some(found) = matches.subcommand_matches("explain") {
        return run_explain(alloc, &explain_options_of(found), reader, writer, faults);
    }
    run_replay(alloc, reader, writer, faults)
}

/// What is said where `clap` has no words.
const NO_WORDS: &str = "error: desk --help tells how the program is called\n";

/// What is said of words that name no command: the text of `clap`, which is never left empty.
fn said_of(alloc: Global, error: &Error) -> Result<String, AllocError>
    ensures { IfOk result (λ text. 0 < string_len text) }
{
    let text = error.to_string(alloc)?;
    if text.is_empty() {
        return String::from_str(alloc, NO_WORDS);
    }
    Ok(text)
}

/// Tells why the words name no command, or the help or the version that they ask for.
fn tell_of_command<W: Sink, F: Sink>(
    alloc: Global,
    error: &Error,
    writer: &mut W,
    faults: &mut F,
) -> u8
    requires write_counts { (W.seen writer.old).faults < 2 ^ 64 - 1 }
    requires fault_counts { (F.seen faults.old).faults < 2 ^ 64 - 1 }
    ensures status { (result ≡ stopped) ⊎ (result ≡ status_of_kind (kind_of error.now)) }
    ensures starved { kind_of error.now ≡ ErrorKind.OutOfMemory → result ≡ stopped }
    ensures says { Says W.seen writer.old writer.new F.seen faults.old faults.new result }
{
    if error.kind() == ErrorKind::OutOfMemory {
        return tell_fault(FrontFault::Memory, faults);
    }
    let Ok(text) = said_of(alloc, error) else {
        return tell_fault(FrontFault::Memory, faults);
    };
    if error.use_stderr() {
        tell(&text, faults);
        return WRONG_WORDS;
    }
    tell(&text, writer);
    DONE
}

/// Runs the command that the words name, and gives the program's status. The first word is the program's name.
///
/// The status is 0 where the command came to its end or help or the version was asked for, 1 where a fault ended it or no
/// memory was found for the words, 2 where they name no command, 3 where the model that was checked has a fault, and 4 where
/// `--strict` refuses a decision table of it, or `--strict-null` what one of its services can give. A fault is told on `faults` by its word, and a wrong command line by the text of `clap`; help and the version go to the writer. A text
/// that can't be written changes no status.
pub fn run_desk<T: Threads + Wait + Sync, R: Source, W: Sink, F: Sink>(
    alloc: Global,
    rt: &T,
    words: Vec<String>,
    reader: &mut R,
    writer: &mut W,
    faults: &mut F,
) -> u8
    requires read_counts { (R.seen reader.old).faults < 2 ^ 64 - 1 }
    requires write_counts { (W.seen writer.old).faults < 2 ^ 64 - 1 }
    requires fault_counts { (F.seen faults.old).faults < 2 ^ 64 - 1 }
    ensures taken { IsCommand (texts_of words) → Runs (named_in (texts_of words))
        R.seen reader.old reader.new W.seen writer.old writer.new F.seen faults.old faults.new result }
    ensures refused { kinds_of (texts_of words) ≢ [] → Refuses (kinds_of (texts_of words))
        reader.old reader.new W.seen writer.old writer.new F.seen faults.old faults.new result }
{
    match read_words(alloc, words.as_slice()) {
        Ok(matches) => run_command(alloc, rt, &matches, reader, writer, faults),
        Err(error) => tell_of_command(alloc, &error, writer, faults),
    }
}
