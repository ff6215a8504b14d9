//! Walks through the boxed expressions of a model.
ghost use Rattle.std.specs.Prelude.{◌≡◌, OnOk, map};
ghost use Rattle.dmn_form.specs.LogicView.{logic_view};
ghost use Rattle.dmn_form.specs.ModelView.{decision_view, model_view};
ghost use Rattle.dmn_check.specs.Look.{logic_findings, decision_findings, decisions_findings};
ghost use Rattle.dmn_check.specs.Findings.{each_of};
ghost use Rattle.dmn_check.specs.LookView.{members_findings_view, entries_findings_view, context_findings_view};
ghost use Rattle.dmn_check.specs.Notes.{with_all};
ghost use Rattle.dmn_check.specs.NotesView.{notes_view};

use crate::look::Look;
use crate::notes::Notes;
use crate::place::{Key, Step};
use dmn_form::{WrittenDecision, WrittenLogic};
use std::alloc::{AllocError, Global};

/// Looks at each part of a boxed expression. It goes as deep as that is.
#[cycle(walk)]
pub(crate) fn walk_logic<L: Look>(
    alloc: Global,
    notes: &mut Notes,
    look: &L,
    logic: &WrittenLogic,
) -> Result<(), AllocError>
    ensures { OnOk result (with_all (notes_view notes.old) (logic_findings (L.look look.now) (logic_view logic.now)) ≡ notes_view notes.new) }
{
    match logic {
        WrittenLogic::Expression(text) => {
            look.text(alloc, notes, text.as_str())?;
            Ok(())
        }
        WrittenLogic::Table(table) => {
            notes.enter(Step::Key(Key::Table))?;
            look.table(alloc, notes, table)?;
            notes.leave();
            Ok(())
        }
        WrittenLogic::List(members) => {
            notes.enter(Step::Key(Key::List))?;
            walk_members(alloc, notes, look, members)?;
            notes.leave();
            Ok(())
        }
        WrittenLogic::Context(entries) => {
            walk_context(alloc, notes, look, entries)?;
            Ok(())
        }
        WrittenLogic::ContextWith(entries, last) => {
            walk_context(alloc, notes, look, entries)?;
            notes.enter(Step::Key(Key::Result))?;
            walk_logic(alloc, notes, look, last)?;
            notes.leave();
            Ok(())
        }
    }
}

/// Looks at each member of a list.
#[cycle(walk)]
fn walk_members<L: Look>(
    alloc: Global,
    notes: &mut Notes,
    look: &L,
    members: &[WrittenLogic],
) -> Result<(), AllocError>
    ensures { OnOk result (with_all (notes_view notes.old) (members_findings_view (L.look look.now) 0 members.now) ≡ notes_view notes.new) }
{
    for (index, member) in members.iter().enumerate() {
        notes.enter(Step::Index(index))?;
        walk_logic(alloc, notes, look, member)?;
        notes.leave();
    }
    Ok(())
}

/// Looks at the names of the entries of a context, and then at each entry.
#[cycle(walk)]
fn walk_context<L: Look>(
    alloc: Global,
    notes: &mut Notes,
    look: &L,
    entries: &[(String, WrittenLogic)],
) -> Result<(), AllocError>
    ensures { OnOk result (with_all (notes_view notes.old) (context_findings_view (L.look look.now) entries.now) ≡ notes_view notes.new) }
{
    notes.enter(Step::Key(Key::Context))?;
    look.entries(alloc, notes, entries)?;
    walk_entries(alloc, notes, look, entries)?;
    notes.leave();
    Ok(())
}

#[cycle(walk)]
fn walk_entries<L: Look>(
    alloc: Global,
    notes: &mut Notes,
    look: &L,
    entries: &[(String, WrittenLogic)],
) -> Result<(), AllocError>
    ensures { OnOk result (with_all (notes_view notes.old) (entries_findings_view (L.look look.now) 0 entries.now) ≡ notes_view notes.new) }
{
    for (index, (_, logic)) in entries.iter().enumerate() {
        notes.enter(Step::Index(index))?;
        notes.enter(Step::Key(Key::Expr))?;
        walk_logic(alloc, notes, look, logic)?;
        notes.leave();
        notes.leave();
    }
    Ok(())
}

/// Looks at each part of the logic of a decision.
pub(crate) fn walk_decision<L: Look>(
    alloc: Global,
    notes: &mut Notes,
    look: &L,
    decision: &WrittenDecision,
) -> Result<(), AllocError>
    ensures { OnOk result (with_all (notes_view notes.old) (decision_findings (L.look look.now) (decision_view decision.now)) ≡ notes_view notes.new) }
{
    notes.enter(Step::Key(Key::Expr))?;
    walk_logic(alloc, notes, look, &decision.logic)?;
    notes.leave();
    Ok(())
}

fn walk_each_decision<L: Look>(
    alloc: Global,
    notes: &mut Notes,
    look: &L,
    decisions: &[WrittenDecision],
) -> Result<(), AllocError>
    ensures { OnOk result (with_all (notes_view notes.old) (each_of (decision_findings (L.look look.now)) (map decision_view decisions.now)) ≡ notes_view notes.new) }
{
    for (index, decision) in decisions.iter().enumerate() {
        notes.enter(Step::Index(index))?;
        walk_decision(alloc, notes, look, decision)?;
        notes.leave();
    }
    Ok(())
}

/// Looks at each part of the logic of each decision.
pub(crate) fn walk_decisions<L: Look>(
    alloc: Global,
    notes: &mut Notes,
    look: &L,
    decisions: &[WrittenDecision],
) -> Result<(), AllocError>
    ensures { OnOk result (with_all (notes_view notes.old) (decisions_findings (L.look look.now) (map decision_view decisions.now)) ≡ notes_view notes.new) }
{
    notes.enter(Step::Key(Key::Decisions))?;
    walk_each_decision(alloc, notes, look, decisions)?;
    notes.leave();
    Ok(())
}
