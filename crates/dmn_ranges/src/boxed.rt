//! What boxed expressions can give.
ghost use Rattle.std.specs.Prelude.{◌≡◌, IfOk, OnOk, length, take, true};
ghost use Rattle.feel_text.specs.Meaning.{Bindings};
ghost use Rattle.dmn_form.specs.Model.{list as list_of_members};
ghost use Rattle.dmn_logic.specs.Boxed.{boxed};
ghost use Rattle.dmn_logic.specs.LogicView.{logic_view, members_view, entries_view};
ghost use Rattle.dmn_ranges.specs.Boxes.{TellsBox, TellsEntries};
ghost use Rattle.dmn_ranges.specs.Ranges.{Fits, covers, scope};
ghost use Rattle.dmn_ranges.specs.Steps.{list_of};

use crate::expression::expr_outcomes;
use crate::names::Names;
use crate::outcomes::Outcomes;
use crate::parts::Parts;
use crate::range::{NamedRange, either};
use crate::rule::some_context;
use crate::table::table_outcomes;
use dmn_logic::Logic;
use std::alloc::{AllocError, Global};
use std::sync::ArcStr;

/// What a boxed expression can give, where each name stands for a value of its range.
///
/// Whatever values of their ranges the names have, its value lies in the range that is answered; and where a limit is broken, the
/// answer says that it can be. It goes as deep as the expression is. The analysis of all its tables takes at most so many steps.
pub fn range_of_logic(
    alloc: Global,
    logic: &Logic,
    names: &[NamedRange],
    steps: u64,
) -> Result<Outcomes, AllocError>
    ensures { IfOk result (λ o. (m : Bindings) → Fits (scope names.now) m → covers o (boxed (logic_view logic.now) m) ≡ true) }
{
    let mut listed = Names::listed(alloc, names)?;
    let mut rest = steps;
    let told = box_outcomes(alloc, logic, &mut listed, &mut rest)?;
    Ok(told)
}

// The names are as before once it is worked out.
#[cycle(boxes)]
pub(crate) fn box_outcomes(
    alloc: Global,
    logic: &Logic,
    names: &mut Names,
    steps: &mut u64,
) -> Result<Outcomes, AllocError>
    ensures told { IfOk result (TellsBox names.old (logic_view logic.now)) }
    ensures names { OnOk result (names.new ≡ names.old) }
{
    match logic {
        Logic::Expression(expression) => Ok(expr_outcomes(expression, names)),
        Logic::Table(table) => {
            let given = table_outcomes(alloc, table, names, steps)?;
            Ok(given)
        }
        Logic::List(logics) => {
            let parts = members(alloc, logics, names, steps)?;
            Ok(parts.list())
        }
        Logic::Context(_) => Ok(some_context()),
        Logic::ContextWith(entries, last) => {
            let count = names.len();
            let limit = bind_entries(alloc, entries, names, steps)?;
            let told = box_outcomes(alloc, last, names, steps)?;
            names.cut(count);
            Ok(told.limited(limit))
        }
    }
}

// The members of a list.
#[cycle(boxes)]
fn members(
    alloc: Global,
    logics: &[Logic],
    names: &mut Names,
    steps: &mut u64,
) -> Result<Parts, AllocError>
    ensures told { IfOk result (λ p. TellsBox names.old (list_of_members (members_view logics.now)) (list_of p)) }
    ensures names { OnOk result (names.new ≡ names.old) }
{
    let mut parts = Parts::none();
    for logic in logics {
        let told = box_outcomes(alloc, logic, names, steps)?;
        parts = parts.with(told);
    }
    Ok(parts)
}

// Binds the entries of a context behind the names, each of which sees the earlier ones, and answers whether one of them can break a
// limit.
#[cycle(boxes)]
fn bind_entries(
    alloc: Global,
    entries: &[(ArcStr, Logic)],
    names: &mut Names,
    steps: &mut u64,
) -> Result<bool, AllocError>
    ensures told { IfOk result (λ limit. TellsEntries names.old (entries_view entries.now) limit names.new) }
    ensures names { OnOk result (take (length names.old) names.new ≡ names.old) }
{
    let mut limit = false;
    for (name, logic) in entries {
        let told = box_outcomes(alloc, logic, names, steps)?;
        limit = either(limit, told.limit);
        names.bind(alloc, name.as_str(), told.range, None)?;
    }
    Ok(limit)
}
