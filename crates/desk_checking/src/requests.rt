//! The lines of requests behind a model: which of them `serve` refuses.
ghost use Rattle.std.specs.Prelude.{◌≡◌, ◌<◌, ◌≤◌, ◌++◌, ◌+◌, ◌-◌, ◌^◌, [], ◌∷◌, IfOk, OnOk, is_ok, length, take, true};
ghost use Rattle.std.specs.List.{flat_map};
ghost use Rattle.serde_json.specs.Data.{Data};
ghost use Rattle.serde_json.specs.Written.{compact_text, members_text};
ghost use Rattle.desk_lines.specs.Lines.{ended, kept_line, lines_of};
ghost use Rattle.dmn_plan.specs.ReadModel.{read_model};
ghost use Rattle.desk_wire.specs.Reading.{Says};
ghost use Rattle.desk_requests.specs.Gate.{IsOpenAfter, PassesText, listed};
ghost use Rattle.desk_requests.specs.Line.{Model};
ghost use Rattle.desk_checking.specs.Requests.{AreRefused, most_refused};
ghost use Rattle.desk_checking.specs.Told.{fault_of, more_refused, refusal_lines, refused_line};

use crate::cut::{behind_newline, line_length};
use desk_lines::LineText;
use desk_requests::{Gate, RefusedLine};
use desk_wire::{Word, hear};
use dmn_plan::Plan;
use json_reader::JsonReader;
use json_writer::{add_number, add_quoted};
use std::alloc::{AllocError, Global};
use std::sync::Arc;

/// The most lines of which it is told that they are refused.
const MOST_REFUSED: usize = 1_000;

/// The place of the last line that can be counted; no text has so many.
const LAST_LINE: usize = usize::MAX - 2;

/// The first lines of requests that are refused, and how many are.
#[derive(Drop)]
pub(crate) struct Refusals {
    pub(crate) first: Vec<RefusedLine>,
    pub(crate) count: usize,
}

/// A line of these bytes.
fn line_text(alloc: Global, bytes: &[u8]) -> Result<LineText, AllocError>
    ensures { IfOk result (λ line. line ≡ kept_line bytes.now) }
{
    let mut line = LineText::new(alloc);
    line.add(bytes)?;
    Ok(line)
}

/// Adds a line that is refused, unless as many are told as may be.
fn add_refused(refused: &mut Vec<RefusedLine>, found: Option<RefusedLine>) -> Result<(), AllocError>
    ensures { OnOk result (length refused.old.items ≤ most_refused → refused.new.items ≡ take most_refused (refused.old.items ++ listed found)) }
{
    if refused.len() >= MOST_REFUSED {
        return Ok(());
    }
    if let Some(line) = found {
        refused.push(line)?;
    }
    Ok(())
}

/// How many lines are refused, with this one if it is.
fn counted(count: usize, found: Option<RefusedLine>) -> usize
    requires { count < 2 ^ 64 - 1 }
    ensures { result ≡ count + length (listed found) }
{
    match found {
        Some(_) => count + 1,
        None => count,
    }
}

/// Whether the line with this number is refused.
fn pass_line(
    alloc: Global,
    texts: &mut JsonReader,
    gate: &mut Gate,
    number: usize,
    bytes: &[u8],
) -> Result<Option<RefusedLine>, AllocError>
    ensures { IfOk result (λ found. PassesText gate.old number bytes.now found gate.new) }
{
    let line = line_text(alloc, bytes)?;
    let heard = hear(alloc, texts, &line)?;
    let found = gate.pass(alloc, number as u64, &heard)?;
    Ok(found)
}

/// The lines behind a model that are refused.
fn pass_lines(alloc: Global, gate: &mut Gate, text: &[u8]) -> Result<Refusals, AllocError>
    ensures { IfOk result (λ found. (model : Data) → IsOpenAfter gate.old (Says (Model model) ∷ []) → AreRefused model (lines_of text.now) found.first.items found.count) }
{
    let mut texts = JsonReader::new();
    let mut refused = Vec::new(alloc);
    let mut count = 0;
    let mut rest = text;
    for index in 0..text.len() {
        if rest.is_empty() {
            return Ok(Refusals {
                first: refused,
                count,
            });
        }
        let (line, left) = rest.split_at(line_length(rest));
        if index > LAST_LINE {
            return Err(AllocError);
        }
        let found = pass_line(alloc, &mut texts, gate, index + 2, line)?;
        count = counted(count, found);
        add_refused(&mut refused, found)?;
        rest = behind_newline(left);
    }
    Ok(Refusals {
        first: refused,
        count,
    })
}

/// The lines of requests to a lawful model that `serve` refuses, of which this is the plan: the first 1,000, and how many. The first of
/// these lines has number 2, since the model stands on line 1.
pub(crate) fn refused_among(alloc: Global, plan: Plan, text: &[u8]) -> Result<Refusals, AllocError>
    ensures { IfOk result (λ found. (d : Data) → is_ok (read_model d) ≡ true → plan ≡ compact_text d → AreRefused d (lines_of text.now) found.first.items found.count) }
{
    let plan = Arc::new(alloc, plan)?;
    let mut gate = Gate::behind(alloc, plan);
    let found = pass_lines(alloc, &mut gate, text)?;
    Ok(found)
}

/// Adds the word of a model's fault, if there is one.
#[tactic(auto, using(crate::proofs::Lines::fault_member))]
fn add_fault(alloc: Global, fault: Option<Word>, text: &mut Vec<u8>) -> Result<(), AllocError>
    ensures { OnOk result (text.new.items ≡ text.old.items ++ members_text true (fault_of fault)) }
{
    if let Some(fault) = fault {
        text.extend_from_slice(b",\"fault\":")?;
        add_quoted(alloc, fault.text(), text)?;
    }
    text.extend_from_slice(b"}")
}

/// Adds the line about a line that is refused.
#[tactic(auto, using(crate::proofs::Lines::refused_pieces))]
fn add_line(alloc: Global, refused: RefusedLine, text: &mut Vec<u8>) -> Result<(), AllocError>
    ensures { OnOk result (text.new.items ≡ text.old.items ++ ended (refused_line refused)) }
{
    text.extend_from_slice(b"{\"line\":")?;
    add_number(refused.number, text)?;
    text.extend_from_slice(b",\"note\":")?;
    add_quoted(alloc, refused.why.text(), text)?;
    add_fault(alloc, refused.fault, text)?;
    text.extend_from_slice(b"\n")
}

/// Adds how many refused lines are not told, where some are not.
#[tactic(auto, using(crate::proofs::Lines::more_refused_pieces))]
fn add_more(more: usize, text: &mut Vec<u8>) -> Result<(), AllocError>
    ensures { OnOk result (text.new.items ≡ text.old.items ++ flat_map ended (more_refused more)) }
{
    if more == 0 {
        return Ok(());
    }
    text.extend_from_slice(b"{\"more\":")?;
    add_number(more as u64, text)?;
    text.extend_from_slice(b"}\n")
}

/// Adds the lines about what is refused.
pub(crate) fn add_refusals(
    alloc: Global,
    refusals: &Refusals,
    text: &mut Vec<u8>,
) -> Result<(), AllocError>
    ensures { OnOk result (text.new.items ≡ text.old.items ++ flat_map ended (refusal_lines refusals.now.first.items refusals.now.count)) }
{
    for refused in &refusals.first {
        add_line(alloc, *refused, text)?;
    }
    add_more(refusals.count.saturating_sub(MOST_REFUSED), text)
}
