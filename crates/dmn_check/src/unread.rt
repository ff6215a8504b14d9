//! Texts without a reading.
ghost use Rattle.std.specs.Prelude.{◌≡◌, not, OnOk, IfOk, map, option_map, string_bytes, is_some, nat_lt};
ghost use Rattle.feel_text.specs.Readings.{expr_of, tests_of, literal_of};
ghost use Rattle.dmn_form.specs.FormView.{column_view, rule_view, table_view};
ghost use Rattle.dmn_check.specs.declared.place.Step.TheVariants as step;
ghost use Rattle.dmn_check.specs.declared.place.Key.TheVariants as key;
ghost use Rattle.dmn_check.specs.Findings.{behind, each_of};
ghost use Rattle.dmn_check.specs.Notes.{with_all};
ghost use Rattle.dmn_check.specs.NotesView.{notes_view};
ghost use Rattle.dmn_check.specs.Unread.{is_unread as is_unread_text, unread, default_texts, column_texts, rule_texts, table_texts, unread_texts as unread_texts_in};
ghost use Rattle.dmn_check.specs.Told.{first_of};
ghost use Rattle.dmn_check.specs.ToldView.{told_view};
ghost use Rattle.dmn_form.specs.ModelView.{model_view};
ghost use Rattle.dmn_logic.specs.Faults.{has_unread_text};

use crate::finding::{Mistake, TextKind};
use crate::look::Look;
use crate::notes::Notes;
use crate::place::{Key, Step};
use crate::told::Told;
use crate::walk::walk_decisions;
use dmn_form::{WrittenColumn, WrittenLogic, WrittenModel, WrittenRule, WrittenTable};
use feel_lang::{ReadFault, read_expr, read_literal, read_tests};
use std::alloc::{AllocError, Global};

fn is_expression(alloc: Global, text: &str) -> Result<bool, AllocError>
    ensures { IfOk result (λ b. b ≡ is_some (expr_of text.now)) }
{
    match read_expr(alloc, text) {
        Ok(_) => Ok(true),
        Err(ReadFault::Syntax) => Ok(false),
        Err(ReadFault::Memory) => Err(AllocError),
    }
}

fn are_tests(alloc: Global, text: &str) -> Result<bool, AllocError>
    ensures { IfOk result (λ b. b ≡ is_some (tests_of text.now)) }
{
    match read_tests(alloc, text) {
        Ok(_) => Ok(true),
        Err(ReadFault::Syntax) => Ok(false),
        Err(ReadFault::Memory) => Err(AllocError),
    }
}

fn is_literal(alloc: Global, text: &str) -> Result<bool, AllocError>
    ensures { IfOk result (λ b. b ≡ is_some (literal_of text.now)) }
{
    match read_literal(alloc, text) {
        Ok(_) => Ok(true),
        Err(ReadFault::Syntax) => Ok(false),
        Err(ReadFault::Memory) => Err(AllocError),
    }
}

/// Whether the text has no reading of this kind.
fn is_unread(alloc: Global, kind: TextKind, text: &str) -> Result<bool, AllocError>
    ensures { IfOk result (λ b. b ≡ is_unread_text kind text.now) }
{
    match kind {
        TextKind::Expression => Ok(!is_expression(alloc, text)?),
        TextKind::UnaryTests => Ok(!are_tests(alloc, text)?),
        TextKind::Literal => Ok(!is_literal(alloc, text)?),
    }
}

/// Notes the text that is here, if it has no reading of this kind.
fn note_text(alloc: Global, notes: &mut Notes, kind: TextKind, text: &str) -> Result<(), AllocError>
    ensures { OnOk result (with_all (notes_view notes.old) (unread kind text.now) ≡ notes_view notes.new) }
{
    if !is_unread(alloc, kind, text)? {
        return Ok(());
    }
    notes.note(Mistake::Expression(kind))?;
    Ok(())
}

fn note_each_text(
    alloc: Global,
    notes: &mut Notes,
    kind: TextKind,
    texts: &[String],
) -> Result<(), AllocError>
    ensures { OnOk result (with_all (notes_view notes.old) (each_of (unread kind) (map string_bytes texts.now)) ≡ notes_view notes.new) }
{
    for (index, text) in texts.iter().enumerate() {
        notes.enter(Step::Index(index))?;
        note_text(alloc, notes, kind, text.as_str())?;
        notes.leave();
    }
    Ok(())
}

/// Notes each text of the array under a key that has no reading of this kind.
fn note_texts(
    alloc: Global,
    notes: &mut Notes,
    key: Key,
    kind: TextKind,
    texts: &[String],
) -> Result<(), AllocError>
    ensures { OnOk result (with_all (notes_view notes.old) (behind (step.Key key) (each_of (unread kind) (map string_bytes texts.now))) ≡ notes_view notes.new) }
{
    notes.enter(Step::Key(key))?;
    note_each_text(alloc, notes, kind, texts)?;
    notes.leave();
    Ok(())
}

/// Notes the default of an output column, if it has one that is no expression.
fn note_default(
    alloc: Global,
    notes: &mut Notes,
    fallback: &Option<String>,
) -> Result<(), AllocError>
    ensures { OnOk result (with_all (notes_view notes.old) (default_texts (option_map string_bytes fallback.now)) ≡ notes_view notes.new) }
{
    let Some(text) = fallback else {
        return Ok(());
    };
    notes.enter(Step::Key(Key::Default))?;
    note_text(alloc, notes, TextKind::Expression, text.as_str())?;
    notes.leave();
    Ok(())
}

fn note_column(alloc: Global, notes: &mut Notes, column: &WrittenColumn) -> Result<(), AllocError>
    ensures { OnOk result (with_all (notes_view notes.old) (column_texts (column_view column.now)) ≡ notes_view notes.new) }
{
    note_texts(alloc, notes, Key::Values, TextKind::Literal, &column.values)?;
    note_default(alloc, notes, &column.fallback)?;
    Ok(())
}

fn note_columns(
    alloc: Global,
    notes: &mut Notes,
    columns: &[WrittenColumn],
) -> Result<(), AllocError>
    ensures { OnOk result (with_all (notes_view notes.old) (each_of column_texts (map column_view columns.now)) ≡ notes_view notes.new) }
{
    for (index, column) in columns.iter().enumerate() {
        notes.enter(Step::Index(index))?;
        note_column(alloc, notes, column)?;
        notes.leave();
    }
    Ok(())
}

fn note_rule(alloc: Global, notes: &mut Notes, rule: &WrittenRule) -> Result<(), AllocError>
    ensures { OnOk result (with_all (notes_view notes.old) (rule_texts (rule_view rule.now)) ≡ notes_view notes.new) }
{
    note_texts(alloc, notes, Key::When, TextKind::UnaryTests, &rule.tests)?;
    note_texts(alloc, notes, Key::Then, TextKind::Expression, &rule.gives)?;
    Ok(())
}

fn note_rules(alloc: Global, notes: &mut Notes, rules: &[WrittenRule]) -> Result<(), AllocError>
    ensures { OnOk result (with_all (notes_view notes.old) (each_of rule_texts (map rule_view rules.now)) ≡ notes_view notes.new) }
{
    for (index, rule) in rules.iter().enumerate() {
        notes.enter(Step::Index(index))?;
        note_rule(alloc, notes, rule)?;
        notes.leave();
    }
    Ok(())
}

/// Notes each text of a table that has no reading of its kind.
fn note_table(alloc: Global, notes: &mut Notes, table: &WrittenTable) -> Result<(), AllocError>
    ensures { OnOk result (with_all (notes_view notes.old) (table_texts (table_view table.now)) ≡ notes_view notes.new) }
{
    note_texts(
        alloc,
        notes,
        Key::Inputs,
        TextKind::Expression,
        &table.inputs,
    )?;
    notes.enter(Step::Key(Key::Outputs))?;
    note_columns(alloc, notes, &table.outputs)?;
    notes.leave();
    notes.enter(Step::Key(Key::Rules))?;
    note_rules(alloc, notes, &table.rules)?;
    notes.leave();
    Ok(())
}

/// Looks for texts without a reading.
#[derive(Drop)]
struct UnreadTexts;

impl Look for UnreadTexts {
    ghost use Rattle.dmn_check.specs.Unread.{unread_look};

    ghost look = { λ _. unread_look };

    fn text(&self, alloc: Global, notes: &mut Notes, text: &str) -> Result<(), AllocError> {
        note_text(alloc, notes, TextKind::Expression, text)?;
        Ok(())
    }

    fn table(
        &self,
        alloc: Global,
        notes: &mut Notes,
        table: &WrittenTable,
    ) -> Result<(), AllocError> {
        note_table(alloc, notes, table)?;
        Ok(())
    }

    fn entries(
        &self,
        _alloc: Global,
        _notes: &mut Notes,
        _entries: &[(String, WrittenLogic)],
    ) -> Result<(), AllocError> {
        Ok(())
    }
}

/// The texts that have no reading of their kind: expression, unary tests or literal.
pub fn unread_texts(alloc: Global, model: &WrittenModel) -> Result<Told, AllocError>
    ensures places { IfOk result (λ t. told_view t ≡ first_of (unread_texts_in (model_view model.now))) }
    ensures fault { IfOk result (λ t. nat_lt 0 t.count ≡ has_unread_text (model_view model.now).decisions) }
{
    let mut notes = Notes::new(alloc);
    walk_decisions(alloc, &mut notes, &UnreadTexts, &model.decisions)?;
    Ok(Told::of(notes))
}
