//! What of a decision table wasn't decided, and why.

use crate::answers::Answers;
use dmn_analysis::{Gaps, Overlaps};
use std::alloc::{AllocError, Global};

/// Why something wasn't decided.
#[derive(Drop)]
pub(crate) struct Undecided {
    /// Rules of which it isn't known where they hit.
    pub(crate) rules: Vec<usize>,
    /// Two rules that both hit, of which it isn't known what they give; none where there are no such.
    pub(crate) outputs: Vec<usize>,
    /// Rules of which it isn't known which go before them.
    pub(crate) ranks: Vec<usize>,
    /// Rules of which it isn't known that they can decide, where these were looked for.
    pub(crate) idle: Vec<usize>,
    /// Whether the steps of a search ran out.
    pub(crate) steps: bool,
}

/// The rules that the searches left open, each once, in order.
fn open_rules(alloc: Global, answers: &Answers) -> Result<Vec<usize>, AllocError> {
    let mut rules = Vec::new(alloc);
    rules.extend_from_slice(&answers.every.open)?;
    if let Some(gaps) = &answers.of_kinds {
        rules.extend_from_slice(&gaps.open)?;
    }
    if let Some(gaps) = &answers.of_words {
        rules.extend_from_slice(&gaps.open)?;
    }
    if let Some(overlaps) = &answers.overlaps {
        rules.extend_from_slice(&overlaps.open)?;
    }
    rules.sort_unstable();
    rules.dedup();
    Ok(rules)
}

/// Whether a search for gaps ran out of steps.
fn ran_out(gaps: &Gaps) -> bool {
    !gaps.is_all && gaps.open.is_empty()
}

fn ran_out_if(gaps: &Option<Gaps>) -> bool {
    match gaps {
        Some(gaps) => ran_out(gaps),
        None => false,
    }
}

fn overlaps_ran_out(overlaps: &Option<Overlaps>) -> bool {
    match overlaps {
        Some(overlaps) => !overlaps.is_all && overlaps.open.is_empty(),
        None => false,
    }
}

fn masks_ran_out(answers: &Answers) -> bool {
    match &answers.masks {
        Some(masks) => !masks.is_all && masks.unranked.is_empty(),
        None => false,
    }
}

/// The first two rules that both hit and of which it isn't known whether they give the same.
fn open_outputs(alloc: Global, answers: &Answers) -> Result<Vec<usize>, AllocError> {
    let mut rules = Vec::new(alloc);
    let Some(overlaps) = &answers.overlaps else {
        return Ok(rules);
    };
    let Some(place) = answers.faults.open else {
        return Ok(rules);
    };
    if let Some(overlap) = overlaps.found.get(place) {
        rules.push(overlap.first)?;
        rules.push(overlap.second)?;
    }
    Ok(rules)
}

fn open_ranks(alloc: Global, answers: &Answers) -> Result<Vec<usize>, AllocError> {
    match &answers.masks {
        Some(masks) => Vec::from_slice(alloc, &masks.unranked),
        None => Ok(Vec::new(alloc)),
    }
}

fn open_idle(alloc: Global, answers: &Answers) -> Result<Vec<usize>, AllocError> {
    match &answers.idle {
        Some(idle) => Vec::from_slice(alloc, idle),
        None => Ok(Vec::new(alloc)),
    }
}

impl Undecided {
    /// What of a table wasn't decided.
    pub(crate) fn of(alloc: Global, answers: &Answers) -> Result<Undecided, AllocError> {
        let of_gaps = ran_out(&answers.every)
            || ran_out_if(&answers.of_kinds)
            || ran_out_if(&answers.of_words);
        Ok(Undecided {
            rules: open_rules(alloc, answers)?,
            outputs: open_outputs(alloc, answers)?,
            ranks: open_ranks(alloc, answers)?,
            idle: open_idle(alloc, answers)?,
            steps: of_gaps
                || overlaps_ran_out(&answers.overlaps)
                || masks_ran_out(answers)
                || answers.same == Some(false),
        })
    }
}
