//! Boxed expressions, read from what is written.
ghost use Rattle.std.specs.Prelude.{◌≡◌, IfOk, map};
ghost use Rattle.dmn_form.specs.Model.{members_of as members_in, entries_of as entries_in};
ghost use Rattle.dmn_form.specs.LogicView.{logic_view as written_view, entry_view as written_entry};
ghost use Rattle.dmn_form.specs.ModelView.{decision_view};
ghost use Rattle.dmn_logic.specs.LogicView.{logic_view, entry_view};
ghost use Rattle.dmn_logic.specs.Reading.{mapped, both, context_of, logic_reading, members_reading, entries_reading, decisions_reading};

use crate::logic::Logic;
use crate::table::table_of;
use crate::texts::expression_of;
use dmn_form::{WrittenDecision, WrittenLogic};
use feel_lang::Needs;
use std::alloc::{AllocError, Global};
use std::sync::ArcStr;

/// What reading gives.
#[derive(Drop)]
pub(crate) enum Reading<T> {
    /// What was read: each text has a reading, and no table is refused.
    Found(T),
    /// Each text has a reading, and some table is refused.
    Refused,
    /// Some text has no reading.
    Unread,
}

/// A boxed expression, read under the names that its decision needs. It goes as deep as that is.
#[cycle(reading)]
fn logic_of(
    alloc: Global,
    needs: &Needs,
    written: &WrittenLogic,
) -> Result<Reading<Logic>, AllocError>
    ensures { IfOk result (λ r. mapped logic_view r ≡ logic_reading (written_view written.now)) }
{
    match written {
        WrittenLogic::Expression(text) => match expression_of(alloc, needs, text.as_str())? {
            Some(expression) => Ok(Reading::Found(Logic::Expression(expression))),
            None => Ok(Reading::Unread),
        },
        WrittenLogic::Table(table) => match table_of(alloc, needs, table)? {
            Reading::Found(table) => Ok(Reading::Found(Logic::Table(table))),
            Reading::Refused => Ok(Reading::Refused),
            Reading::Unread => Ok(Reading::Unread),
        },
        WrittenLogic::List(members) => match members_of(alloc, needs, members)? {
            Reading::Found(members) => Ok(Reading::Found(Logic::List(members))),
            Reading::Refused => Ok(Reading::Refused),
            Reading::Unread => Ok(Reading::Unread),
        },
        WrittenLogic::Context(entries) => match entries_of(alloc, needs, entries)? {
            Reading::Found(entries) => Ok(Reading::Found(Logic::Context(entries))),
            Reading::Refused => Ok(Reading::Refused),
            Reading::Unread => Ok(Reading::Unread),
        },
        WrittenLogic::ContextWith(entries, last) => {
            let entries = entries_of(alloc, needs, entries)?;
            let last = logic_of(alloc, needs, last)?;
            let reading = context_with(alloc, entries, last)?;
            Ok(reading)
        }
    }
}

/// A context with a result, of what reading its entries and its result gave.
fn context_with(
    alloc: Global,
    entries: Reading<Vec<(ArcStr, Logic)>>,
    last: Reading<Logic>,
) -> Result<Reading<Logic>, AllocError>
    ensures { IfOk result (λ r. mapped logic_view r ≡ both context_of (mapped (λ v. map entry_view v.items) entries) (mapped logic_view last)) }
{
    match (entries, last) {
        (Reading::Unread, _) | (_, Reading::Unread) => Ok(Reading::Unread),
        (Reading::Found(entries), Reading::Found(last)) => {
            let last = Box::new(alloc, last)?;
            Ok(Reading::Found(Logic::ContextWith(entries, last)))
        }
        _ => Ok(Reading::Refused),
    }
}

/// The members of a list.
#[cycle(reading)]
fn members_of(
    alloc: Global,
    needs: &Needs,
    written: &[WrittenLogic],
) -> Result<Reading<Vec<Logic>>, AllocError>
    ensures { IfOk result (λ r. mapped (λ v. map logic_view v.items) r ≡ members_reading (members_in (map written_view written.now))) }
{
    let mut members = Vec::with_capacity(alloc, written.len())?;
    let mut is_refused = false;
    for member in written {
        match logic_of(alloc, needs, member)? {
            Reading::Found(member) => members.push(member)?,
            Reading::Refused => is_refused = true,
            Reading::Unread => return Ok(Reading::Unread),
        }
    }
    if is_refused {
        return Ok(Reading::Refused);
    }
    Ok(Reading::Found(members))
}

/// The entries of a context.
#[cycle(reading)]
fn entries_of(
    alloc: Global,
    needs: &Needs,
    written: &[(String, WrittenLogic)],
) -> Result<Reading<Vec<(ArcStr, Logic)>>, AllocError>
    ensures { IfOk result (λ r. mapped (λ v. map entry_view v.items) r ≡ entries_reading (entries_in (map written_entry written.now))) }
{
    let mut entries = Vec::with_capacity(alloc, written.len())?;
    let mut is_refused = false;
    for (name, logic) in written {
        match logic_of(alloc, needs, logic)? {
            Reading::Found(logic) => {
                entries.push((ArcStr::from_str(alloc, name.as_str())?, logic))?;
            }
            Reading::Refused => is_refused = true,
            Reading::Unread => return Ok(Reading::Unread),
        }
    }
    if is_refused {
        return Ok(Reading::Refused);
    }
    Ok(Reading::Found(entries))
}

/// The logic of each decision, read under the names at its index, and under none where there are none.
pub(crate) fn logics_of(
    alloc: Global,
    decisions: &[WrittenDecision],
    names: &[&Needs],
) -> Result<Reading<Vec<Logic>>, AllocError>
    ensures { IfOk result (λ r. mapped (λ v. map logic_view v.items) r ≡ decisions_reading (map decision_view decisions.now)) }
{
    let nothing = Needs::new(alloc);
    let mut names = names.iter();
    let mut logics = Vec::with_capacity(alloc, decisions.len())?;
    let mut is_refused = false;
    for decision in decisions {
        let known = names.next().copied().unwrap_or(&nothing);
        match logic_of(alloc, known, &decision.logic)? {
            Reading::Found(logic) => logics.push(logic)?,
            Reading::Refused => is_refused = true,
            Reading::Unread => return Ok(Reading::Unread),
        }
    }
    if is_refused {
        return Ok(Reading::Refused);
    }
    Ok(Reading::Found(logics))
}
