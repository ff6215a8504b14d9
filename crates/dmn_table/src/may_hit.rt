//! Which rules of a table may hit, as far as the classes of its columns tell.
ghost use Rattle.std.specs.Prelude.{◌≡◌, ◌<◌, ℕ, IfOk, IfSome, Some};
ghost use Rattle.std.specs.Int.{bit_at};
ghost use Rattle.std.specs.List.{slice_get};
ghost use Rattle.dmn_table.specs.Classes.{input_entries};
ghost use Rattle.dmn_table.specs.MayHit.{LeavesOut, is_left_out};
ghost use Rattle.dmn_table.specs.Parts.{rule_view};
ghost use Rattle.table_classes.specs.Classes.{IsUnsetIn, TellsColumns};

use crate::table::Rule;
use feel_value::Feel;
use std::alloc::{AllocError, Global};
use table_classes::{ClassRules, ColumnClasses, WORD, common, rows_of};

/// Which rules of a table may hit for some values of its columns: a bit for each, 64 to a word, the first at the lowest bit.
#[derive(Drop)]
pub struct MayHit {
    pub(crate) words: Vec<u64>,
}

impl MayHit {
    /// Whether the rule at this place, counted from 0, is left out: it misses, and none of its entries breaks a limit. False says
    /// nothing.
    pub fn leaves_out(&self, place: usize) -> bool
        ensures { result ≡ is_left_out self.now place }
    {
        let Some(word) = self.words.get(place / WORD) else {
            return false;
        };
        (*word >> (place % WORD)) & 1 == 0
    }
}

/// The words of so many blocks of 64 rules, whose columns' values have these classes.
fn words_of(
    alloc: Global,
    rows: &[Option<&ClassRules>],
    count: usize,
) -> Result<Vec<u64>, AllocError>
    ensures { IfOk result (λ words. (w word i : ℕ) → i < 64 → slice_get words.items w ≡ Some word → bit_at word i ≡ 0 → IsUnsetIn rows.now w i) }
{
    let mut words = Vec::with_capacity(alloc, count)?;
    for place in 0..count {
        words.push(common(rows, place))?;
    }
    Ok(words)
}

/// Which of these rules may hit for some values; all of them where the classes of their columns aren't known.
pub(crate) fn may_hit(
    alloc: Global,
    rules: &[Rule],
    classes: &Option<Vec<ColumnClasses>>,
    values: &[Feel],
) -> Result<MayHit, AllocError>
    requires { IfSome classes.now (λ columns. TellsColumns (input_entries rules.now) columns.items) }
    ensures { IfOk result (LeavesOut rules.now values.now) }
{
    let Some(columns) = classes else {
        return Ok(MayHit {
            words: Vec::new(alloc),
        });
    };
    let rows = rows_of(alloc, columns, values)?;
    let words = words_of(alloc, &rows, rules.len().div_ceil(WORD))?;
    Ok(MayHit { words })
}
