//! Decision tables, read from the texts of their cells.
ghost use Rattle.std.specs.Prelude.{◌≡◌, IfOk, option_map, map};
ghost use Rattle.dmn_form.specs.FormView.{column_view as written_column, rule_view as written_rule, table_view};
ghost use Rattle.feel_value.specs.Found.{each};
ghost use Rattle.feel_value.specs.Distinct.{are_distinct};
ghost use Rattle.dmn_table.specs.Parts.{column_view, names_of, rule_view};
ghost use Rattle.dmn_logic.specs.ReadLogic.{read_column, read_rule};
ghost use Rattle.dmn_logic.specs.Reading.{made_table, table_reading};

use crate::reading::Reading;
use crate::texts::{all_tests_of, expression_if, expressions_of, literals_of};
use dmn_form::{WrittenColumn, WrittenRule, WrittenTable};
use dmn_table::{Output, Rule, Table};
use feel_lang::{Expr, Needs};
use std::alloc::{AllocError, Global};
use std::collections::BTreeSet;
use std::sync::ArcStr;

/// An output column, if each of its texts has a reading.
fn column_of(
    alloc: Global,
    needs: &Needs,
    written: &WrittenColumn,
) -> Result<Option<Output>, AllocError>
    ensures { IfOk result (λ o. option_map column_view o ≡ read_column (written_column written.now)) }
{
    let Some(values) = literals_of(alloc, &written.values)? else {
        return Ok(None);
    };
    let Some(fallback) = expression_if(alloc, needs, &written.fallback)? else {
        return Ok(None);
    };
    let name = ArcStr::from_str(alloc, written.name.as_str())?;
    Ok(Some(Output {
        name,
        values,
        fallback,
    }))
}

/// Output columns, if each of their texts has a reading.
fn columns_of(
    alloc: Global,
    needs: &Needs,
    written: &[WrittenColumn],
) -> Result<Option<Vec<Output>>, AllocError>
    ensures { IfOk result (λ o. option_map (λ v. map column_view v.items) o ≡ each read_column (map written_column written.now)) }
{
    let mut columns = Vec::with_capacity(alloc, written.len())?;
    for column in written {
        let Some(column) = column_of(alloc, needs, column)? else {
            return Ok(None);
        };
        columns.push(column)?;
    }
    Ok(Some(columns))
}

/// A rule, if each of its texts has a reading.
fn rule_of(alloc: Global, needs: &Needs, written: &WrittenRule) -> Result<Option<Rule>, AllocError>
    ensures { IfOk result (λ o. option_map rule_view o ≡ read_rule (written_rule written.now)) }
{
    let Some(tests) = all_tests_of(alloc, needs, &written.tests)? else {
        return Ok(None);
    };
    let Some(gives) = expressions_of(alloc, needs, &written.gives)? else {
        return Ok(None);
    };
    Ok(Some(Rule { tests, gives }))
}

/// Rules, if each of their texts has a reading.
fn rules_of(
    alloc: Global,
    needs: &Needs,
    written: &[WrittenRule],
) -> Result<Option<Vec<Rule>>, AllocError>
    ensures { IfOk result (λ o. option_map (λ v. map rule_view v.items) o ≡ each read_rule (map written_rule written.now)) }
{
    let mut rules = Vec::with_capacity(alloc, written.len())?;
    for rule in written {
        let Some(rule) = rule_of(alloc, needs, rule)? else {
            return Ok(None);
        };
        rules.push(rule)?;
    }
    Ok(Some(rules))
}

/// Whether each output column has a name of its own. The steps are in proportion to how many columns there are, times the
/// logarithm of that.
fn names_are_distinct(alloc: Global, columns: &[Output]) -> Result<bool, AllocError>
    ensures { IfOk result (λ b. b ≡ are_distinct (names_of columns.now)) }
{
    let mut seen = BTreeSet::new(alloc);
    for column in columns {
        let is_new = seen.insert(column.name.as_str())?;
        if !is_new {
            return Ok(false);
        }
    }
    Ok(true)
}

/// The table of these parts, if it is not refused.
fn made(
    alloc: Global,
    hit: &str,
    inputs: Vec<Expr>,
    outputs: Vec<Output>,
    rules: Vec<Rule>,
) -> Result<Reading<Table>, AllocError>
    ensures { IfOk result (λ r. r ≡ made_table hit.now inputs.items (map column_view outputs.items) (map rule_view rules.items)) }
{
    if !names_are_distinct(alloc, &outputs)? {
        return Ok(Reading::Refused);
    }
    match Table::with_distinct_names(hit, inputs, outputs, rules) {
        Ok(table) => {
            let table = table.with_classes(alloc)?;
            Ok(Reading::Found(table))
        }
        Err(_) => Ok(Reading::Refused),
    }
}

/// A decision table, read under the names that its decision needs.
pub(crate) fn table_of(
    alloc: Global,
    needs: &Needs,
    written: &WrittenTable,
) -> Result<Reading<Table>, AllocError>
    ensures { IfOk result (λ r. r ≡ table_reading (table_view written.now)) }
{
    let Some(inputs) = expressions_of(alloc, needs, &written.inputs)? else {
        return Ok(Reading::Unread);
    };
    let Some(outputs) = columns_of(alloc, needs, &written.outputs)? else {
        return Ok(Reading::Unread);
    };
    let Some(rules) = rules_of(alloc, needs, &written.rules)? else {
        return Ok(Reading::Unread);
    };
    let table = made(alloc, written.hit.as_str(), inputs, outputs, rules)?;
    Ok(table)
}
