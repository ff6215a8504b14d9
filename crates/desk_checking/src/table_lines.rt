//! What is found of a decision table, as lines of JSON.
ghost use Rattle.std.specs.Prelude.{◌≡◌, ◌++◌, ◌<◌, OnOk, IfOk, map, take, true, false};
ghost use Rattle.std.specs.List.{flat_map, slice_get};
ghost use Rattle.serde_json.specs.Data.{array};
ghost use Rattle.serde_json.specs.Written.{compact_text};
ghost use Rattle.desk_lines.specs.Lines.{ended};
ghost use Rattle.desk_checking.specs.Answering.{gaps_of_kinds, gaps_of_words, is_complete, is_unique};
ghost use Rattle.desk_checking.specs.TablePieces.{begin_text, head_text, known_text, place_text, tail_text, unique_text, witness_text};
ghost use Rattle.desk_checking.specs.TableTold.{answer_told, gap_line, gap_lines, line_if, mask_line, mask_lines, more_findings, more_others, never_line, never_lines, other_gaps, other_lines, overlap_line, overlap_lines, table_line, table_lines, undecided_told, values_told};

use crate::answers::{Answers, MOST_FINDINGS, has_any, none_of};
use crate::cells::{add_cells, have_others};
use crate::parts::{add_bool, add_comma, add_rules};
use crate::undecided::Undecided;
use dmn_analysis::{Cell, Gap, Gaps, Mask, Masks, Overlap, Overlaps, Words};
use feel_value::Feel;
use json_writer::{add_number, add_quoted, add_value};
use std::alloc::{AllocError, Global};

/// Adds an answer: null where it wasn't decided.
fn add_answer(answer: Option<bool>, text: &mut Vec<u8>) -> Result<(), AllocError>
    ensures { OnOk result (text.new.items ≡ text.old.items ++ compact_text (answer_told answer)) }
{
    match answer {
        Some(answer) => add_bool(answer, text),
        None => text.extend_from_slice(b"null"),
    }
}

/// Whether no two rules hit; None where that wasn't decided.
fn is_unique(overlaps: &Overlaps) -> Option<bool>
    ensures { result ≡ is_unique overlaps.now }
{
    none_of(has_any(overlaps.more, &overlaps.found), overlaps.is_all)
}

/// Adds whether no two rules hit, behind other members, where that is asked.
fn add_unique(overlaps: &Option<Overlaps>, text: &mut Vec<u8>) -> Result<(), AllocError>
    ensures { OnOk result (text.new.items ≡ text.old.items ++ unique_text overlaps.now) }
{
    let Some(overlaps) = overlaps else {
        return Ok(());
    };
    text.extend_from_slice(b",\"unique\":")?;
    add_answer(is_unique(overlaps), text)?;
    Ok(())
}

/// Adds what isn't decided, and why.
#[tactic(auto, using(crate::proofs::TableLines::undecided_pieces))]
fn add_undecided(undecided: &Undecided, text: &mut Vec<u8>) -> Result<(), AllocError>
    ensures { OnOk result (text.new.items ≡ text.old.items ++ compact_text (undecided_told undecided.now)) }
{
    text.extend_from_slice(b"{\"rules\":")?;
    add_rules(&undecided.rules, text)?;
    text.extend_from_slice(b",\"outputs\":")?;
    add_rules(&undecided.outputs, text)?;
    text.extend_from_slice(b",\"ranks\":")?;
    add_rules(&undecided.ranks, text)?;
    text.extend_from_slice(b",\"idle\":")?;
    add_rules(&undecided.idle, text)?;
    text.extend_from_slice(b",\"steps\":")?;
    add_bool(undecided.steps, text)?;
    text.extend_from_slice(b"}")?;
    Ok(())
}

/// Adds that it is known what comes to a table, where that is so.
fn add_known(are_known: bool, text: &mut Vec<u8>) -> Result<(), AllocError>
    ensures { OnOk result (text.new.items ≡ text.old.items ++ known_text are_known) }
{
    if !are_known {
        return Ok(());
    }
    text.extend_from_slice(b",\"comes\":true")?;
    Ok(())
}

/// Begins the line of a table with its place, and whether it is known what comes to it.
#[tactic(auto, using(crate::proofs::TableLines::three_pieces))]
fn add_place(
    alloc: Global,
    pointer: &str,
    are_known: bool,
    text: &mut Vec<u8>,
) -> Result<(), AllocError>
    ensures { OnOk result (text.new.items ≡ text.old.items ++ place_text pointer.now are_known) }
{
    text.extend_from_slice(b"{\"table\":")?;
    add_quoted(alloc, pointer, text)?;
    add_known(are_known, text)?;
    Ok(())
}

/// Begins the line of a table: its place, and whether it is complete.
#[tactic(auto, using(crate::proofs::TableLines::seven_pieces))]
fn add_head(
    alloc: Global,
    pointer: &str,
    answers: &Answers,
    text: &mut Vec<u8>,
) -> Result<(), AllocError>
    ensures { OnOk result (text.new.items ≡ text.old.items ++ head_text pointer.now answers.now.are_known (is_complete answers.now.every) (is_complete (gaps_of_kinds answers.now)) (is_complete (gaps_of_words answers.now))) }
{
    add_place(alloc, pointer, answers.are_known, text)?;
    text.extend_from_slice(b",\"complete\":")?;
    add_answer(answers.complete(), text)?;
    text.extend_from_slice(b",\"asked\":")?;
    add_answer(answers.complete_for_kinds(), text)?;
    text.extend_from_slice(b",\"words\":")?;
    add_answer(answers.complete_for_words(), text)?;
    Ok(())
}

/// Ends it with the steps and what wasn't decided.
#[tactic(auto, using(crate::proofs::TableLines::five_pieces))]
fn add_tail(steps: u64, undecided: &Undecided, text: &mut Vec<u8>) -> Result<(), AllocError>
    ensures { OnOk result (text.new.items ≡ text.old.items ++ tail_text steps undecided.now) }
{
    text.extend_from_slice(b",\"steps\":")?;
    add_number(steps, text)?;
    text.extend_from_slice(b",\"undecided\":")?;
    add_undecided(undecided, text)?;
    text.extend_from_slice(b"}\n")?;
    Ok(())
}

/// Adds the line of a table.
#[tactic(auto, using(crate::proofs::TableLines::table_pieces))]
fn add_line(
    alloc: Global,
    pointer: &str,
    answers: &Answers,
    steps: u64,
    undecided: &Undecided,
    text: &mut Vec<u8>,
) -> Result<(), AllocError>
    ensures { OnOk result (text.new.items ≡ text.old.items ++ ended (table_line pointer.now answers.now steps undecided.now)) }
{
    add_head(alloc, pointer, answers, text)?;
    add_unique(&answers.overlaps, text)?;
    add_tail(steps, undecided, text)?;
    Ok(())
}

/// Begins the line of a finding: its kind, and its rules.
#[tactic(auto, using(crate::proofs::TableLines::four_pieces))]
fn begin(alloc: Global, kind: &str, rules: &[usize], text: &mut Vec<u8>) -> Result<(), AllocError>
    ensures { OnOk result (text.new.items ≡ text.old.items ++ begin_text kind.now rules.now) }
{
    text.extend_from_slice(b"{\"finding\":")?;
    add_quoted(alloc, kind, text)?;
    text.extend_from_slice(b",\"rules\":")?;
    add_rules(rules, text)?;
    Ok(())
}

/// Adds an array of values.
fn add_values(alloc: Global, values: &[Feel], text: &mut Vec<u8>) -> Result<(), AllocError>
    ensures { OnOk result (text.new.items ≡ text.old.items ++ compact_text (array (values_told values.now))) }
{
    let mut later = false;
    text.push(b'[')?;
    for value in values {
        add_comma(later, text)?;
        add_value(alloc, value, text)?;
        later = true;
    }
    text.push(b']')?;
    Ok(())
}

/// Adds a value of each column, and the cells that they are of.
#[tactic(auto, using(crate::proofs::TableLines::four_pieces))]
fn add_witness(
    alloc: Global,
    words: &[Words],
    values: &[Feel],
    cells: &[Cell],
    text: &mut Vec<u8>,
) -> Result<(), AllocError>
    ensures { OnOk result (text.new.items ≡ text.old.items ++ witness_text words.now values.now cells.now) }
{
    text.extend_from_slice(b",\"witness\":")?;
    add_values(alloc, values, text)?;
    text.extend_from_slice(b",\"cells\":")?;
    add_cells(alloc, words, cells, text)?;
    Ok(())
}

/// Adds the line of a gap, which is among the kinds of values that are asked or not.
#[tactic(auto, using(crate::proofs::TableLines::gap_pieces))]
fn add_gap(
    alloc: Global,
    words: &[Words],
    gap: &Gap,
    is_asked: bool,
    text: &mut Vec<u8>,
) -> Result<(), AllocError>
    ensures { OnOk result (text.new.items ≡ text.old.items ++ ended (gap_line words.now is_asked gap.now)) }
{
    begin(alloc, "gap", &[], text)?;
    add_witness(alloc, words, &gap.values, &gap.cells, text)?;
    text.extend_from_slice(b",\"asked\":")?;
    add_bool(is_asked, text)?;
    text.extend_from_slice(b"}\n")?;
    Ok(())
}

/// Adds the line of an overlap.
#[tactic(auto, using(crate::proofs::TableLines::overlap_pieces))]
fn add_overlap(
    alloc: Global,
    words: &[Words],
    overlap: &Overlap,
    text: &mut Vec<u8>,
) -> Result<(), AllocError>
    ensures { OnOk result (text.new.items ≡ text.old.items ++ ended (overlap_line words.now overlap.now)) }
{
    begin(alloc, "overlap", &[overlap.first, overlap.second], text)?;
    add_witness(alloc, words, &overlap.values, &overlap.cells, text)?;
    text.extend_from_slice(b"}\n")?;
    Ok(())
}

/// Adds the line of how many findings of a kind aren't told.
#[tactic(auto, using(crate::proofs::TableLines::more_pieces))]
fn add_more_line(
    alloc: Global,
    kind: &str,
    more: usize,
    text: &mut Vec<u8>,
) -> Result<(), AllocError>
    requires { 0 < more }
    ensures { OnOk result (text.new.items ≡ text.old.items ++ flat_map ended (more_findings kind.now more)) }
{
    text.extend_from_slice(b"{\"finding\":")?;
    add_quoted(alloc, kind, text)?;
    text.extend_from_slice(b",\"more\":")?;
    add_number(more as u64, text)?;
    text.extend_from_slice(b"}\n")?;
    Ok(())
}

/// Adds how many findings of a kind aren't told, where some aren't.
fn add_more(alloc: Global, kind: &str, more: usize, text: &mut Vec<u8>) -> Result<(), AllocError>
    ensures { OnOk result (text.new.items ≡ text.old.items ++ flat_map ended (more_findings kind.now more)) }
{
    if more == 0 {
        return Ok(());
    }
    add_more_line(alloc, kind, more, text)?;
    Ok(())
}

/// The first of these, at most so many.
fn first_of<T>(all: &[T], most: usize) -> &[T]
    ensures { result.now ≡ take most all.now }
{
    if most < all.len() { &all[..most] } else { all }
}

/// Adds the line of the overlap at a place.
fn add_overlap_at(
    alloc: Global,
    words: &[Words],
    found: &[Overlap],
    place: usize,
    text: &mut Vec<u8>,
) -> Result<(), AllocError>
    ensures { OnOk result (text.new.items ≡ text.old.items ++ flat_map ended (line_if words.now (slice_get found.now place))) }
{
    if place >= found.len() {
        return Ok(());
    }
    add_overlap(alloc, words, &found[place], text)?;
    Ok(())
}

/// Adds the lines of the overlaps at these places.
fn add_each_overlap(
    alloc: Global,
    words: &[Words],
    found: &[Overlap],
    places: &[usize],
    text: &mut Vec<u8>,
) -> Result<(), AllocError>
    ensures { OnOk result (text.new.items ≡ text.old.items ++ flat_map ended (flat_map (λ place. line_if words.now (slice_get found.now place)) places.now)) }
{
    for place in places {
        add_overlap_at(alloc, words, found, *place, text)?;
    }
    Ok(())
}

/// Adds the lines of the overlaps that are against the hit policy.
fn add_overlaps(
    alloc: Global,
    overlaps: &Option<Overlaps>,
    places: &[usize],
    text: &mut Vec<u8>,
) -> Result<(), AllocError>
    ensures { OnOk result (text.new.items ≡ text.old.items ++ flat_map ended (overlap_lines overlaps.now places.now)) }
{
    let Some(overlaps) = overlaps else {
        return Ok(());
    };
    let first = first_of(places, MOST_FINDINGS);
    add_each_overlap(alloc, &overlaps.words, &overlaps.found, first, text)?;
    let more = places.len().saturating_sub(MOST_FINDINGS);
    let all = more.saturating_add(overlaps.more);
    add_more(alloc, "overlap", all, text)?;
    Ok(())
}

/// Adds the lines of these gaps.
fn add_each_gap(
    alloc: Global,
    words: &[Words],
    gaps: &[Gap],
    text: &mut Vec<u8>,
) -> Result<(), AllocError>
    ensures { OnOk result (text.new.items ≡ text.old.items ++ flat_map ended (map (gap_line words.now true) gaps.now)) }
{
    for gap in gaps {
        add_gap(alloc, words, gap, true, text)?;
    }
    Ok(())
}

/// Adds the lines of the gaps among the kinds that are asked.
fn add_gaps(alloc: Global, gaps: &Gaps, text: &mut Vec<u8>) -> Result<(), AllocError>
    ensures { OnOk result (text.new.items ≡ text.old.items ++ flat_map ended (gap_lines gaps.now)) }
{
    let first = first_of(&gaps.found, MOST_FINDINGS);
    add_each_gap(alloc, &gaps.words, first, text)?;
    add_more(alloc, "gap", gaps.more, text)?;
    Ok(())
}

/// The gaps that don't lie among the kinds that are asked.
fn other_gaps<'a>(alloc: Global, answers: &'a Answers) -> Result<Vec<&'a Gap>, AllocError>
    ensures { IfOk result (λ gaps. map (λ g. g.now) gaps.items ≡ other_gaps answers.now) }
{
    let mut gaps = Vec::new(alloc);
    for gap in &answers.every.found {
        if have_others(&gap.cells, &answers.kinds) {
            gaps.push(gap)?;
        }
    }
    Ok(gaps)
}

/// Adds the lines of these gaps.
fn add_each_other(
    alloc: Global,
    words: &[Words],
    gaps: &[&Gap],
    text: &mut Vec<u8>,
) -> Result<(), AllocError>
    ensures { OnOk result (text.new.items ≡ text.old.items ++ flat_map ended (map (λ g. gap_line words.now false g.now) gaps.now)) }
{
    for gap in gaps {
        add_gap(alloc, words, gap, false, text)?;
    }
    Ok(())
}

/// How many other gaps aren't told.
fn more_others(of_kinds: &Option<Gaps>, untold: usize, more: usize) -> usize
    ensures { result ≡ more_others of_kinds.now untold more }
{
    match of_kinds {
        Some(_) => untold.saturating_add(more),
        None => untold,
    }
}

/// Adds the lines of the gaps that don't lie among the kinds that are asked.
fn add_others(alloc: Global, answers: &Answers, text: &mut Vec<u8>) -> Result<(), AllocError>
    ensures { OnOk result (text.new.items ≡ text.old.items ++ flat_map ended (other_lines answers.now)) }
{
    let left = MOST_FINDINGS.saturating_sub(answers.gaps_of_kinds().found.len());
    let others = other_gaps(alloc, answers)?;
    let first = first_of(&others, left);
    add_each_other(alloc, &answers.every.words, first, text)?;
    let untold = others.len().saturating_sub(left);
    let more = more_others(&answers.of_kinds, untold, answers.every.more);
    add_more(alloc, "other gap", more, text)?;
    Ok(())
}

/// Adds the line of a rule that never hits.
#[tactic(auto, using(crate::proofs::TableLines::never_pieces))]
fn add_never_rule(alloc: Global, rule: usize, text: &mut Vec<u8>) -> Result<(), AllocError>
    ensures { OnOk result (text.new.items ≡ text.old.items ++ ended (never_line rule)) }
{
    begin(alloc, "never", &[rule], text)?;
    text.extend_from_slice(b"}\n")?;
    Ok(())
}

fn add_each_rule(alloc: Global, rules: &[usize], text: &mut Vec<u8>) -> Result<(), AllocError>
    ensures { OnOk result (text.new.items ≡ text.old.items ++ flat_map ended (map never_line rules.now)) }
{
    for rule in rules {
        add_never_rule(alloc, *rule, text)?;
    }
    Ok(())
}

/// Adds the lines of the rules that never hit.
fn add_never(alloc: Global, never: &[usize], text: &mut Vec<u8>) -> Result<(), AllocError>
    ensures { OnOk result (text.new.items ≡ text.old.items ++ flat_map ended (never_lines never.now)) }
{
    add_each_rule(alloc, first_of(never, MOST_FINDINGS), text)?;
    let more = never.len().saturating_sub(MOST_FINDINGS);
    add_more(alloc, "never", more, text)?;
    Ok(())
}

/// Adds the line of a rule that never decides, with those that go before it.
#[tactic(auto, using(crate::proofs::TableLines::mask_pieces))]
fn add_mask(alloc: Global, mask: &Mask, text: &mut Vec<u8>) -> Result<(), AllocError>
    ensures { OnOk result (text.new.items ≡ text.old.items ++ ended (mask_line mask.now)) }
{
    begin(alloc, "masked", &[mask.rule], text)?;
    text.extend_from_slice(b",\"before\":")?;
    add_rules(&mask.behind, text)?;
    text.extend_from_slice(b"}\n")?;
    Ok(())
}

fn add_each_mask(alloc: Global, masks: &[Mask], text: &mut Vec<u8>) -> Result<(), AllocError>
    ensures { OnOk result (text.new.items ≡ text.old.items ++ flat_map ended (map mask_line masks.now)) }
{
    for mask in masks {
        add_mask(alloc, mask, text)?;
    }
    Ok(())
}

/// Adds the lines of the masked rules.
fn add_masks(alloc: Global, masks: &Option<Masks>, text: &mut Vec<u8>) -> Result<(), AllocError>
    ensures { OnOk result (text.new.items ≡ text.old.items ++ flat_map ended (mask_lines masks.now)) }
{
    let Some(masks) = masks else {
        return Ok(());
    };
    add_each_mask(alloc, first_of(&masks.found, MOST_FINDINGS), text)?;
    let more = masks.found.len().saturating_sub(MOST_FINDINGS);
    add_more(alloc, "masked", more, text)?;
    Ok(())
}

/// Adds the line of the table at this place, and one of each finding behind it.
pub(crate) fn add_table(
    alloc: Global,
    pointer: &str,
    answers: &Answers,
    steps: u64,
    undecided: &Undecided,
    text: &mut Vec<u8>,
) -> Result<(), AllocError>
    ensures { OnOk result (text.new.items ≡ text.old.items ++ flat_map ended (table_lines pointer.now answers.now steps undecided.now)) }
{
    add_line(alloc, pointer, answers, steps, undecided, text)?;
    add_overlaps(alloc, &answers.overlaps, &answers.faults.places, text)?;
    add_gaps(alloc, answers.gaps_of_kinds(), text)?;
    add_others(alloc, answers, text)?;
    add_never(alloc, &answers.never, text)?;
    add_masks(alloc, &answers.masks, text)?;
    Ok(())
}
