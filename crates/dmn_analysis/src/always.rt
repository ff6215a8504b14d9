//! What is known to hold of a table's rules whatever the values are, without values for which it is otherwise.
ghost use Rattle.std.specs.Prelude.{IfOk, IsTrue, length};
ghost use Rattle.dmn_analysis.specs.Claims.{AlwaysHit, IsUniqueAmong};

use crate::asked::Asked;
use crate::gap_answers::places;
use crate::grouping::known_in_one_group;
use crate::pricing::price_of;
use crate::row::rows_of;
use crate::single_answers::behind;
use crate::whole::whole;
use crate::words::all_words;
use dmn_table::Table;
use std::alloc::{AllocError, Global};

// The same as `always_hits`, with all of the steps for the search.
fn known_to_hit(
    alloc: Global,
    table: &Table,
    asked: &[Asked],
    steps: &mut u64,
) -> Result<bool, AllocError>
    ensures { IfOk result (λ known. IsTrue known → AlwaysHit (length table.now.inputs) table.now.rules asked.now) }
{
    let rules = table.rules();
    let count = table.inputs().len();
    let words = all_words(alloc, rules, asked, count)?;
    let Some(cells) = whole(alloc, &words, asked, count)? else {
        return Ok(false);
    };
    let rows = rows_of(alloc, rules)?;
    let all = places(alloc, rules.len())?;
    let Some(_) = behind(alloc, &words, &rows, &cells, rules.len(), all, steps)? else {
        return Ok(false);
    };
    Ok(true)
}

// The same as `never_two`.
fn known_as_unique(
    alloc: Global,
    table: &Table,
    asked: &[Asked],
    steps: &mut u64,
) -> Result<bool, AllocError>
    ensures { IfOk result (λ known. IsTrue known → IsUniqueAmong table.now asked.now) }
{
    let groups = places(alloc, table.rules().len())?;
    let known = known_in_one_group(alloc, table, asked, &groups, steps)?;
    Ok(known)
}

/// Whether it is known that some rule of the table hits, whatever the values of its input columns that are asked about and whatever
/// the names stand for. `asked` has an entry for each input column, as for `find_gaps`.
///
/// It takes as many of the steps as it needs. Reading the rules takes one for each entry, each constant and each 16 bytes of a text.
/// Each entry that is asked of some values takes one more, as for `find_gaps`; or several in a table that has an entry of more than
/// four constants or 64 bytes: one for each four, or 64. Where the steps don't suffice, it isn't known; and where they don't suffice to
/// read the rules, none is taken.
pub fn always_hits(
    alloc: Global,
    table: &Table,
    asked: &[Asked],
    steps: &mut u64,
) -> Result<bool, AllocError>
    ensures { IfOk result (λ known. IsTrue known → AlwaysHit (length table.now.inputs) table.now.rules asked.now) }
{
    if *steps == 0 {
        return Ok(false);
    }
    let price = price_of(table.rules());
    let mut rest = price.for_search(*steps);
    if rest == 0 {
        return Ok(false);
    }
    let hit = known_to_hit(alloc, table, asked, &mut rest)?;
    *steps = price.of_search(rest);
    Ok(hit)
}

/// Whether it is known that no two rules of the table hit, whatever the values of its input columns that are asked about and whatever
/// the names stand for. It takes steps as `always_hits` does.
pub fn never_two_hit(
    alloc: Global,
    table: &Table,
    asked: &[Asked],
    steps: &mut u64,
) -> Result<bool, AllocError>
    ensures { IfOk result (λ known. IsTrue known → IsUniqueAmong table.now asked.now) }
{
    if *steps == 0 {
        return Ok(false);
    }
    let price = price_of(table.rules());
    let mut rest = price.for_search(*steps);
    if rest == 0 {
        return Ok(false);
    }
    let unique = known_as_unique(alloc, table, asked, &mut rest)?;
    *steps = price.of_search(rest);
    Ok(unique)
}
