//! The lines of a model with a fault.
ghost use Rattle.std.specs.Prelude.{◌≡◌, ◌++◌, ◌∷◌, [], OnOk};
ghost use Rattle.std.specs.List.{flat_map};
ghost use Rattle.desk_lines.specs.Lines.{ended};
ghost use Rattle.dmn_check.specs.NotesView.{finding_view};
ghost use Rattle.dmn_check.specs.ToldView.{told_view};
ghost use Rattle.desk_checking.specs.Told.{fault_line, found_word, lines_of_fault, more_line, more_lines, place_line};

use crate::findings::CheckFault;
use desk_wire::Word;
use dmn_check::{Finding, Told};
use dmn_plan::ModelFault;
use json_writer::{add_number, add_quoted};
use std::alloc::{AllocError, Global};

/// The word of a fault.
fn word_of(fault: CheckFault) -> &'static str
    ensures { result.now ≡ found_word fault }
{
    match fault {
        CheckFault::Model(fault) => Word::of_fault(fault).text(),
        CheckFault::Long => Word::Long.text(),
        CheckFault::Domain => "domain",
    }
}

/// Adds the first line.
#[tactic(auto, using(crate::proofs::Lines::fault_pieces))]
pub(crate) fn add_fault(
    alloc: Global,
    fault: CheckFault,
    text: &mut Vec<u8>,
) -> Result<(), AllocError>
    ensures { OnOk result (text.new.items ≡ text.old.items ++ ended (fault_line fault)) }
{
    text.extend_from_slice(b"{\"fault\":")?;
    add_quoted(alloc, word_of(fault), text)?;
    text.extend_from_slice(b"}\n")
}

/// Adds the line of a place.
fn add_place(
    alloc: Global,
    fault: ModelFault,
    finding: &Finding,
    text: &mut Vec<u8>,
) -> Result<(), AllocError>
    ensures { OnOk result (text.new.items ≡ text.old.items ++ ended (place_line fault (finding_view finding.now))) }
{
    let pointer = finding.place.pointer(alloc)?;
    text.extend_from_slice(b"{\"fault\":")?;
    add_quoted(alloc, Word::of_fault(fault).text(), text)?;
    text.extend_from_slice(b",\"pointer\":")?;
    add_quoted(alloc, pointer.as_str(), text)?;
    text.extend_from_slice(b"}\n")?;
    Ok(())
}

/// Adds the line of how many places of a fault are not told.
#[tactic(auto, using(crate::proofs::Lines::more_pieces))]
fn add_more_line(
    alloc: Global,
    fault: ModelFault,
    more: usize,
    text: &mut Vec<u8>,
) -> Result<(), AllocError>
    ensures { OnOk result (text.new.items ≡ text.old.items ++ ended (more_line fault more)) }
{
    text.extend_from_slice(b"{\"fault\":")?;
    add_quoted(alloc, Word::of_fault(fault).text(), text)?;
    text.extend_from_slice(b",\"more\":")?;
    add_number(more as u64, text)?;
    text.extend_from_slice(b"}\n")
}

/// Adds how many places of a fault are not told, where some are not.
fn add_more(
    alloc: Global,
    fault: ModelFault,
    more: usize,
    text: &mut Vec<u8>,
) -> Result<(), AllocError>
    ensures { OnOk result (text.new.items ≡ text.old.items ++ flat_map ended (more_lines fault more)) }
{
    if more == 0 {
        return Ok(());
    }
    add_more_line(alloc, fault, more, text)
}

/// Adds the lines of the places of a fault that are told, and of how many more there are.
pub(crate) fn add_places(
    alloc: Global,
    fault: ModelFault,
    told: &Told,
    text: &mut Vec<u8>,
) -> Result<(), AllocError>
    ensures { OnOk result (text.new.items ≡ text.old.items ++ flat_map ended (lines_of_fault fault (told_view told.now))) }
{
    for finding in &told.findings {
        add_place(alloc, fault, finding, text)?;
    }
    let more = told.count.saturating_sub(told.findings.len());
    add_more(alloc, fault, more, text)
}
