//! Decision tables that are refused.
ghost use Rattle.std.specs.Prelude.{◌≡◌, ◌&&◌, not, nat_lt, length, OnOk, IfOk, map, option_map, string_bytes};
ghost use Rattle.std.specs.List.{list_all};
ghost use Rattle.dmn_table.specs.Faults.{policy_of, is_operator as makes_a_number, fits_columns, columns_fit as columns_fit_of, table_fault};
ghost use Rattle.dmn_form.specs.FormView.{column_view, rule_view, table_view};
ghost use Rattle.dmn_form.specs.ModelView.{model_view};
ghost use Rattle.dmn_logic.specs.Faults.{has_refused_table};
ghost use Rattle.dmn_check.specs.Notes.{with_all};
ghost use Rattle.dmn_check.specs.NotesView.{notes_view};
ghost use Rattle.dmn_check.specs.Refused.{fault_of_table, refused, refused_tables as refused_tables_in};
ghost use Rattle.dmn_check.specs.Told.{first_of};
ghost use Rattle.dmn_check.specs.ToldView.{told_view};

use crate::finding::Mistake;
use crate::look::Look;
use crate::notes::Notes;
use crate::told::Told;
use crate::walk::walk_decisions;
use dmn_form::{WrittenLogic, WrittenModel, WrittenRule, WrittenTable};
use dmn_names::have_twice;
use dmn_table::TableFault;
use std::alloc::{AllocError, Global};

/// Whether a hit policy makes one number of the outputs; None where the text is none of the eleven.
fn is_operator(hit: &str) -> Option<bool>
    ensures { result ≡ option_map makes_a_number (policy_of hit.now) }
{
    match hit {
        "U" | "A" | "P" | "F" | "R" | "O" | "C" => Some(false),
        "C+" | "C<" | "C>" | "C#" => Some(true),
        _ => None,
    }
}

/// Whether a rule has an entry for each of these numbers of columns.
pub(crate) fn rule_fits(rule: &WrittenRule, inputs: usize, outputs: usize) -> bool
    ensures { result ≡ fits_columns inputs outputs (length rule.now.tests.items, length rule.now.gives.items) }
{
    rule.tests.len() == inputs && rule.gives.len() == outputs
}

fn rules_fit(rules: &[WrittenRule], inputs: usize, outputs: usize) -> bool
    ensures { result ≡ list_all (fits_columns inputs outputs) (map (λ r. (length r.tests.items, length r.gives.items)) rules.now) }
{
    for rule in rules {
        if !rule_fits(rule, inputs, outputs) {
            return false;
        }
    }
    true
}

/// Whether there is an output, each with a name of its own, and each rule fits the columns.
fn columns_fit(alloc: Global, table: &WrittenTable) -> Result<bool, AllocError>
    ensures { IfOk result (λ b. b ≡ columns_fit_of (length table.now.inputs.items) (map (λ c. string_bytes c.name) table.now.outputs.items) (map (λ r. (length r.tests.items, length r.gives.items)) table.now.rules.items)) }
{
    if table.outputs.is_empty() {
        return Ok(false);
    }
    if have_twice(alloc, &table.outputs)? {
        return Ok(false);
    }
    Ok(rules_fit(&table.rules, table.inputs.len(), table.outputs.len()))
}

/// Whether a hit policy that makes one number, or one that doesn't, may stand over so many outputs.
fn operator_fits(is_operator: bool, outputs: usize) -> bool
    ensures { result ≡ not (is_operator && nat_lt 1 outputs) }
{
    !is_operator || outputs <= 1
}

/// The first fault of a table.
fn fault_of(alloc: Global, table: &WrittenTable) -> Result<Option<TableFault>, AllocError>
    ensures { IfOk result (λ o. o ≡ fault_of_table (table_view table.now)) }
{
    let Some(is_operator) = is_operator(table.hit.as_str()) else {
        return Ok(Some(TableFault::Hit));
    };
    if !columns_fit(alloc, table)? {
        return Ok(Some(TableFault::Columns));
    }
    if !operator_fits(is_operator, table.outputs.len()) {
        return Ok(Some(TableFault::Operator));
    }
    Ok(None)
}

/// Looks for tables that are refused.
#[derive(Drop)]
struct RefusedTables;

impl Look for RefusedTables {
    ghost use Rattle.dmn_check.specs.Refused.{refused_look};

    ghost look = { λ _. refused_look };

    fn text(&self, _alloc: Global, _notes: &mut Notes, _text: &str) -> Result<(), AllocError> {
        Ok(())
    }

    fn table(
        &self,
        alloc: Global,
        notes: &mut Notes,
        table: &WrittenTable,
    ) -> Result<(), AllocError> {
        let Some(fault) = fault_of(alloc, table)? else {
            return Ok(());
        };
        notes.note(Mistake::Table(fault))?;
        Ok(())
    }

    fn entries(
        &self,
        _alloc: Global,
        _notes: &mut Notes,
        _entries: &[(String, WrittenLogic)],
    ) -> Result<(), AllocError> {
        Ok(())
    }
}

/// The tables that are refused, each with its first fault.
pub fn refused_tables(alloc: Global, model: &WrittenModel) -> Result<Told, AllocError>
    ensures places { IfOk result (λ t. told_view t ≡ first_of (refused_tables_in (model_view model.now))) }
    ensures fault { IfOk result (λ t. nat_lt 0 t.count ≡ has_refused_table (model_view model.now).decisions) }
{
    let mut notes = Notes::new(alloc);
    walk_decisions(alloc, &mut notes, &RefusedTables, &model.decisions)?;
    Ok(Told::of(notes))
}
