//! What the analysis of a table rules out: that no rule hits, or that several do.
ghost use Rattle.std.specs.Prelude.{◌≡◌, IfOk, length, false};
ghost use Rattle.dmn_analysis.specs.Claims.{AlwaysHit, IsUniqueAmong};
ghost use Rattle.dmn_ranges.specs.Asking.{Narrows};

use crate::asking::{columns_asked, have_values};
use crate::outcomes::Outcomes;
use crate::range::{both, either};
use crate::tally::Tally;
use dmn_analysis::{Asked, always_hits, never_two_hit};
use dmn_table::{HitPolicy, Table};
use std::alloc::{AllocError, Global};

/// The most steps that the analysis of a table may take for each of its input entries, and beside these.
const STEPS_BY_ENTRY: u64 = 50;

const STEPS: u64 = 10_000;

// The steps that the analysis of the table may take of so many: none where they can't suffice to read it.
fn steps_for(table: &Table, steps: u64) -> u64 {
    let entries = (table.rules().len() as u64).saturating_mul(table.inputs().len() as u64);
    if steps <= entries {
        return 0;
    }
    let most = STEPS.saturating_add(entries.saturating_mul(STEPS_BY_ENTRY));
    most.min(steps)
}

// Whether it may be that no rule hits for some values that are asked about, if this is looked at.
fn may_miss(
    alloc: Global,
    is_looked_at: bool,
    table: &Table,
    asked: &[Asked],
    steps: &mut u64,
) -> Result<bool, AllocError>
    ensures { IfOk result (λ b. b ≡ false → AlwaysHit (length table.now.inputs) table.now.rules asked.now) }
{
    if !is_looked_at {
        return Ok(true);
    }
    if always_hits(alloc, table, asked, steps)? {
        return Ok(false);
    }
    Ok(true)
}

// Whether it may be that several rules hit for some values that are asked about, if this is looked at.
fn may_meet(
    alloc: Global,
    is_looked_at: bool,
    table: &Table,
    asked: &[Asked],
    steps: &mut u64,
) -> Result<bool, AllocError>
    ensures { IfOk result (λ b. b ≡ false → IsUniqueAmong table.now asked.now) }
{
    if !is_looked_at {
        return Ok(true);
    }
    if never_two_hit(alloc, table, asked, steps)? {
        return Ok(false);
    }
    Ok(true)
}

// Whether null is given where several rules hit.
fn is_null_of_several(policy: HitPolicy) -> bool {
    match policy {
        HitPolicy::Unique | HitPolicy::Any => true,
        HitPolicy::Priority
        | HitPolicy::First
        | HitPolicy::OutputOrder
        | HitPolicy::RuleOrder
        | HitPolicy::Collect
        | HitPolicy::Sum
        | HitPolicy::Least
        | HitPolicy::Greatest
        | HitPolicy::Count => false,
    }
}

/// What the rules can give together, without what the analysis of the table rules out: that none hits, and, where null is given then,
/// that several do. It takes as many of the steps as it needs, but at most 10,000 and fifty for each input entry.
pub(crate) fn narrowed(
    alloc: Global,
    table: &Table,
    columns: &[Outcomes],
    tally: Tally,
    steps: &mut u64,
) -> Result<Tally, AllocError>
    ensures { IfOk result (λ found. length columns.now ≡ length table.now.inputs → Narrows table.now.rules columns.now tally found) }
{
    let several = both(tally.may_be_several, is_null_of_several(table.policy()));
    if !either(tally.may_be_none, several) {
        return Ok(tally);
    }
    if !have_values(columns) {
        return Ok(tally);
    }
    let asked = columns_asked(alloc, columns)?;
    let given = steps_for(table, *steps);
    let mut rest = given;
    let none = may_miss(alloc, tally.may_be_none, table, &asked, &mut rest)?;
    let several = may_meet(alloc, several, table, &asked, &mut rest)?;
    *steps = steps.saturating_sub(given.saturating_sub(rest));
    Ok(tally.without(none, several))
}
