//! Rules that don't fit the columns of their table.
ghost use Rattle.std.specs.Prelude.{◌≡◌, true, not, OnOk, IfOk, map, length, nat_lt};
ghost use Rattle.dmn_form.specs.FormView.{rule_view, table_view};
ghost use Rattle.dmn_form.specs.ModelView.{model_view};
ghost use Rattle.dmn_logic.specs.Faults.{has_refused_table};
ghost use Rattle.dmn_check.specs.Findings.{each_of};
ghost use Rattle.dmn_check.specs.Notes.{with_all};
ghost use Rattle.dmn_check.specs.NotesView.{notes_view};
ghost use Rattle.dmn_check.specs.Rules.{is_unfit as is_unfit_rule, unfit_rule, unfit_in_table, unfit_rules as unfit_rules_in};
ghost use Rattle.dmn_check.specs.Told.{first_of};
ghost use Rattle.dmn_check.specs.ToldView.{told_view};

use crate::finding::Mistake;
use crate::look::Look;
use crate::notes::Notes;
use crate::place::{Key, Step};
use crate::refused::rule_fits;
use crate::told::Told;
use crate::walk::walk_decisions;
use dmn_form::{WrittenLogic, WrittenModel, WrittenRule, WrittenTable};
use std::alloc::{AllocError, Global};

/// Whether a rule has another number of entries than there are columns.
fn is_unfit(rule: &WrittenRule, inputs: usize, outputs: usize) -> bool
    ensures { result ≡ is_unfit_rule inputs outputs (rule_view rule.now) }
{
    !rule_fits(rule, inputs, outputs)
}

/// Notes the rule that is here, if it doesn't fit the columns.
fn note_rule(
    notes: &mut Notes,
    inputs: usize,
    outputs: usize,
    rule: &WrittenRule,
) -> Result<(), AllocError>
    ensures { OnOk result (with_all (notes_view notes.old) (unfit_rule inputs outputs (rule_view rule.now)) ≡ notes_view notes.new) }
{
    if !is_unfit(rule, inputs, outputs) {
        return Ok(());
    }
    notes.note(Mistake::Rule)?;
    Ok(())
}

fn note_rules(
    notes: &mut Notes,
    inputs: usize,
    outputs: usize,
    rules: &[WrittenRule],
) -> Result<(), AllocError>
    ensures { OnOk result (with_all (notes_view notes.old) (each_of (unfit_rule inputs outputs) (map rule_view rules.now)) ≡ notes_view notes.new) }
{
    for (index, rule) in rules.iter().enumerate() {
        notes.enter(Step::Index(index))?;
        note_rule(notes, inputs, outputs, rule)?;
        notes.leave();
    }
    Ok(())
}

/// Notes the rules of a table that don't fit its columns.
fn note_table(notes: &mut Notes, table: &WrittenTable) -> Result<(), AllocError>
    ensures { OnOk result (with_all (notes_view notes.old) (unfit_in_table (table_view table.now)) ≡ notes_view notes.new) }
{
    notes.enter(Step::Key(Key::Rules))?;
    note_rules(notes, table.inputs.len(), table.outputs.len(), &table.rules)?;
    notes.leave();
    Ok(())
}

/// Looks for rules that don't fit.
#[derive(Drop)]
struct UnfitRules;

impl Look for UnfitRules {
    ghost use Rattle.dmn_check.specs.Rules.{rules_look};

    ghost look = { λ _. rules_look };

    fn text(&self, _alloc: Global, _notes: &mut Notes, _text: &str) -> Result<(), AllocError> {
        Ok(())
    }

    fn table(
        &self,
        _alloc: Global,
        notes: &mut Notes,
        table: &WrittenTable,
    ) -> Result<(), AllocError> {
        note_table(notes, table)?;
        Ok(())
    }

    fn entries(
        &self,
        _alloc: Global,
        _notes: &mut Notes,
        _entries: &[(String, WrittenLogic)],
    ) -> Result<(), AllocError> {
        Ok(())
    }
}

/// The rules that have another number of input or output entries than their table has columns. A table with such a rule is refused.
pub fn unfit_rules(alloc: Global, model: &WrittenModel) -> Result<Told, AllocError>
    ensures places { IfOk result (λ t. told_view t ≡ first_of (unfit_rules_in (model_view model.now))) }
    ensures fault { IfOk result (λ t. nat_lt 0 t.count ≡ true → has_refused_table (model_view model.now).decisions ≡ true) }
{
    let mut notes = Notes::new(alloc);
    walk_decisions(alloc, &mut notes, &UnfitRules, &model.decisions)?;
    Ok(Told::of(notes))
}
