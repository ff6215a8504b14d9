//! Runs of `serve`, and what they wrote, client by client.
ghost use Rattle.std.specs.Prelude.{◌≡◌, None};
ghost use Rattle.lanes.specs.Made.{fault_in};

use desk_front::{Counted, FrontFault, Options, serve};
use lanes::Gate;
use std::alloc::{AllocError, Global};
use std::io;
use std::sync::Wait;
use std::thread::Threads;

/// A line with the model of one decision, which is one more than its input.
pub const MODEL: &str =
    r#"{"model":{"inputs":["a"],"decisions":[{"name":"d","needs":["a"],"expr":"a + 1"}],"services":[{"name":"s","outputs":["d"],"encapsulated":[],"inputDecisions":[],"inputData":["a"]}]}}"#;

/// Some lanes, and two workers.
pub const FEW: Options = Options {
    clients: 4,
    workers: 2,
    capacity: 4,
};

/// How a run ended.
#[derive(Clone, Copy, Debug, Drop, PartialEq, Eq)]
pub enum Ended {
    /// So many ends came back, and each was handed all its results.
    Whole(usize),
    /// Ends came back, and one of them has a result or a job left.
    Left,
    /// The front stopped.
    Failed(FrontFault),
}

/// Runs `serve` once. The writer comes back.
pub fn serve_once<T, I, O, G>(
    alloc: Global,
    rt: &T,
    reader: I,
    writer: O,
    gate: &G,
    options: Options,
) -> (Ended, O)
where
    T: Threads + Wait + Sync,
    I: io::Read + Drop,
    O: io::Write + Drop,
    G: Gate + Sync,
    requires { fault_in options.clients options.workers options.capacity ≡ None }
{
    let mut reader = Counted::new(reader);
    let mut writer = Counted::new(writer);
    let mut ends = match serve(alloc, rt, &mut reader, &mut writer, gate, options) {
        Ok(ends) => ends,
        Err(fault) => return (Ended::Failed(fault), writer.inner),
    };
    let mut are_whole = true;
    for end in ends.iter_mut() {
        let is_left = end.next_left().is_some() || end.release().is_some();
        are_whole = are_whole && end.is_whole() && !is_left;
    }
    let ended = if are_whole {
        Ended::Whole(ends.len())
    } else {
        Ended::Left
    };
    (ended, writer.inner)
}

/// The model on the first line, and other lines behind it.
pub fn with_model(alloc: Global, lines: &[u8]) -> Result<Vec<u8>, AllocError> {
    let mut input = Vec::new(alloc);
    input.extend_from_slice(MODEL.as_bytes())?;
    input.push(b'\n')?;
    input.extend_from_slice(lines)?;
    Ok(input)
}

/// The name on a line of output; on one of no client it is empty.
fn name_on(line: &[u8]) -> &[u8] {
    let Some(rest) = line.strip_prefix(b"{\"client\":\"".as_slice()) else {
        return b"";
    };
    match rest.iter().position(|byte| *byte == b'"') {
        Some(end) => &rest[..end],
        None => b"",
    }
}

/// What is due to a client behind its lines in an output, if these are a beginning of what is due to it.
fn rest_of<'a>(output: &[u8], name: &str, due: &'a str) -> Option<&'a [u8]> {
    let mut rest = due.as_bytes();
    for line in output.split_inclusive(|byte| *byte == b'\n') {
        if name_on(line) == name.as_bytes() {
            rest = rest.strip_prefix(line)?;
        }
    }
    Some(rest)
}

/// Where the last whole line ends.
fn end_of_lines(output: &[u8]) -> usize {
    match output.iter().rposition(|byte| *byte == b'\n') {
        Some(place) => place.saturating_add(1),
        None => 0,
    }
}

/// Whether the whole lines of each client are a beginning of what is due to it, there is no line of another client, and what
/// stands behind them begins a line that is due next.
pub fn is_begun(output: &[u8], due: &[(&str, &str)]) -> bool {
    let end = end_of_lines(output).min(output.len());
    let part = &output[end..];
    let mut fits = part.is_empty();
    let mut length: usize = 0;
    for (name, lines) in due {
        let Some(rest) = rest_of(&output[..end], name, lines) else {
            return false;
        };
        fits = fits || rest.starts_with(part);
        length = length.saturating_add(lines.len().saturating_sub(rest.len()));
    }
    fits && length == end
}

/// Whether an output has all that is due to each client, in order, and nothing else.
pub fn is_due(output: &[u8], due: &[(&str, &str)]) -> bool {
    let mut length: usize = 0;
    for (_, lines) in due {
        length = length.saturating_add(lines.len());
    }
    output.len() == length && is_begun(output, due)
}
